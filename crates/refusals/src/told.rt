ghost use Rattle.std.specs.Prelude.{Some};
ghost use Rattle.refusals.specs.Texts.{refusal_with};

use std::fmt;

// What a refusal tells. It prints as `refused N layer M place P`.
#[derive(Clone, Copy, PartialEq, Eq, Debug)]
pub struct Told {
    pub number: u8,
    pub layer: u8,
    pub place: usize,
}

impl fmt::Display for Told {
    ghost output = { λ told. Some (refusal_with told.number told.layer told.place) };

    fn fmt<W: fmt::Write>(&self, f: &mut fmt::Formatter<W>) -> fmt::Result {
        let (number, layer, place) = (self.number, self.layer, self.place);
        write!(f, "refused {number} layer {layer} place {place}")
    }
}
