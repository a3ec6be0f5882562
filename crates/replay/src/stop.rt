// Why a run ends early.
ghost use Rattle.replay.specs.Scripts.{IsFailure};

use std::alloc::AllocError;
use std::io;
use thiserror::Error;

#[derive(Debug, Drop, Error)]
pub enum Stop {
    #[error("line 1: expected key KIND KERNEL [DELAY:CODE]... with KIND hall or radio, the rest decimal numbers")]
    NoKey,
    // the number of the line, counted from 1
    #[error("line {0}: expected open N, sample X Y, turn, close, abandon, code SIDE INDEX, sum INDEX or tap INDEX, all decimal numbers")]
    NoCall(usize),
    // the script can't be read, memory runs out or a write fails
    #[error(transparent)]
    Failed(#[from] io::Error),
}

// An io::Error tells of memory in its own words, so this is no variant of its own.
impl From<AllocError> for Stop {
    ghost from_gives = { λ _ stop. IsFailure stop };

    fn from(error: AllocError) -> Stop {
        Stop::Failed(error.into())
    }
}
