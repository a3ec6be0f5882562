ghost use Rattle.std.specs.Prelude.{Some};

use crate::phase::Phase;
use refusals::Refused;
use std::fmt;

// Why a call of a sounder is refused. A number that a case holds is its place.
#[derive(Clone, Copy, PartialEq, Eq, Debug)]
pub enum Refusal {
    // the room length is 0 or above 256
    RoomLength,
    // the call is not allowed in this phase
    WrongPhase(Phase),
    // two words that are no sample; samples already accepted in the record
    NoSample(usize),
    // a magnitude above 32,767; samples already accepted in the record
    Magnitude(usize),
    // a sample when the record is full; samples already accepted in the record
    RecordFull(usize),
    // turn or close when the record is not full; samples already accepted in the record
    RecordNotFull(usize),
    // a side above 1, or an index not below the span or the room length; the index
    Index(usize),
}

impl Refused for Refusal {
    ghost use Rattle.calls.specs.Refusals.{number, layer, place};

    ghost number = { number };

    ghost layer = { layer };

    ghost place = { place };

    fn number(&self) -> u8 {
        match self {
            Refusal::RoomLength => 5,
            Refusal::WrongPhase(_) => 6,
            Refusal::NoSample(_) => 7,
            Refusal::Magnitude(_) => 8,
            Refusal::RecordFull(_) => 9,
            Refusal::RecordNotFull(_) => 10,
            Refusal::Index(_) => 11,
        }
    }

    // A sounder is layer 3.
    fn layer(&self) -> u8 {
        3
    }

    fn place(&self) -> usize {
        match *self {
            Refusal::RoomLength => 0,
            Refusal::WrongPhase(phase) => usize::from(phase.number()),
            Refusal::NoSample(count)
            | Refusal::Magnitude(count)
            | Refusal::RecordFull(count)
            | Refusal::RecordNotFull(count) => count,
            Refusal::Index(index) => index,
        }
    }
}

// As a text: refused N layer M place P. No impl can give a Display to all types of a trait, so each refusal has its own.
impl fmt::Display for Refusal {
    ghost use Rattle.calls.specs.Refusals.{refusal_text};

    ghost output = { λ refusal. Some (refusal_text refusal) };

    fn fmt<W: fmt::Write>(&self, f: &mut fmt::Formatter<W>) -> fmt::Result {
        let told = self.told();
        write!(f, "{told}")
    }
}
