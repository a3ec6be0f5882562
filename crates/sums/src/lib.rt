// Finite sums of samples, and what two codes of one span mean.
// Definitions (specs/) and lemmas (proofs/) that pairs and sounders share.
#![tactic(auto)]

ghost use Rattle.std.specs.Prelude.{Some};

use std::fmt;

// Which of the two codes of a pair.
#[derive(Clone, Copy, PartialEq, Eq, Debug)]
pub enum Side {
    A,
    B,
}

// A number that is no side's.
#[derive(Clone, Copy, PartialEq, Eq, Debug)]
pub struct NoSide(pub u8);

// A is 0, B is 1.
impl TryFrom<u8> for Side {
    type Error = NoSide;

    ghost use Rattle.sums.specs.Sides.{Decodes};

    ghost try_from_gives = { Decodes };

    fn try_from(number: u8) -> Result<Self, NoSide> {
        match number {
            0 => Ok(Side::A),
            1 => Ok(Side::B),
            _ => Err(NoSide(number)),
        }
    }
}

// As a text: A or B.
impl fmt::Display for Side {
    ghost use Rattle.sums.specs.Sides.{name_of};

    ghost output = { λ side. Some (name_of side) };

    fn fmt<W: fmt::Write>(&self, f: &mut fmt::Formatter<W>) -> fmt::Result {
        f.write_str(match self {
            Side::A => "A",
            Side::B => "B",
        })
    }
}
