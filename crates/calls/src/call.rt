ghost use Rattle.std.specs.Prelude.{◌≡◌, Some};
ghost use Rattle.calls.specs.Answers.{done, worded};

use crate::refusal::Refusal;
use std::fmt;

// A call of a sounder.
#[derive(Clone, Copy, PartialEq, Eq, Debug)]
pub enum Call {
    // the room length
    Open(usize),
    // the two words of a sample
    Sample(i64, i64),
    Turn,
    Close,
    Abandon,
    // the side (0 for A, 1 for B) and the index; a number, since one that is no side is refused as an index is
    Code(u8, usize),
    Sum(usize),
    Tap(usize),
}

// What a call answers: an enum of its own and no Result, since there are three outcomes, printed as three texts.
#[derive(Clone, Copy, PartialEq, Eq, Debug)]
pub enum Answer {
    Done,
    Words(i64, i64),
    Refused(Refusal),
}

// A call with its answer. The list that a caller lends to `replay` has a place for each answer, as the library has no heap.
#[derive(Clone, Copy, PartialEq, Eq, Debug)]
pub struct Event {
    pub call: Call,
    pub answer: Answer,
}

impl From<Result<(), Refusal>> for Answer {
    ghost from_gives = { λ r a. a ≡ done r };

    fn from(r: Result<(), Refusal>) -> Answer {
        match r {
            Ok(()) => Answer::Done,
            Err(e) => Answer::Refused(e),
        }
    }
}

impl From<Result<(i64, i64), Refusal>> for Answer {
    ghost from_gives = { λ r a. a ≡ worded r };

    fn from(r: Result<(i64, i64), Refusal>) -> Answer {
        match r {
            Ok((first, second)) => Answer::Words(first, second),
            Err(e) => Answer::Refused(e),
        }
    }
}

// As a text: ok, the two words, or why the call is refused.
impl fmt::Display for Answer {
    ghost use Rattle.calls.specs.Texts.{answer_text};

    ghost output = { λ answer. Some (answer_text answer) };

    fn fmt<W: fmt::Write>(&self, f: &mut fmt::Formatter<W>) -> fmt::Result {
        match self {
            Answer::Done => f.write_str("ok"),
            Answer::Words(first, second) => write!(f, "{first} {second}"),
            Answer::Refused(refusal) => write!(f, "{refusal}"),
        }
    }
}
