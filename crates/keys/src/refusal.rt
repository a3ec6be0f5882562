ghost use Rattle.std.specs.Prelude.{Some};

use refusals::Refused;
use std::fmt;

// Why a key is refused.
#[derive(Clone, Copy, PartialEq, Eq, Debug)]
pub enum KeyRefusal {
    // the kernel is neither 1 nor 10
    Kernel,
    // too many stages for the kernel
    StageCount,
    // the delays are not the kernel times 1, 2, 4 .. in some order
    Delays,
    // the weight code of a stage is not below the number of roots
    WeightCode { stage: usize },
}

impl Refused for KeyRefusal {
    ghost use Rattle.keys.specs.Refusals.{number, layer, place};

    ghost number = { number };

    ghost layer = { layer };

    ghost place = { place };

    fn number(&self) -> u8 {
        match self {
            KeyRefusal::Kernel => 1,
            KeyRefusal::StageCount => 2,
            KeyRefusal::Delays => 3,
            KeyRefusal::WeightCode { .. } => 4,
        }
    }

    // A key is layer 2.
    fn layer(&self) -> u8 {
        2
    }

    // The first stage with a wrong code, counted from 0; else 0.
    fn place(&self) -> usize {
        match self {
            KeyRefusal::WeightCode { stage } => *stage,
            _ => 0,
        }
    }
}

// As a text: refused N layer M place P. No impl can give a Display to all types of a trait, so each refusal has its own.
impl fmt::Display for KeyRefusal {
    ghost use Rattle.keys.specs.Refusals.{refusal_text};

    ghost output = { λ refusal. Some (refusal_text refusal) };

    fn fmt<W: fmt::Write>(&self, f: &mut fmt::Formatter<W>) -> fmt::Result {
        let told = self.told();
        write!(f, "{told}")
    }
}
