// The calls of a sounder with their answers and refusals, and what whole runs of calls mean.
#![tactic(auto)]

mod call;
mod phase;
mod refusal;

pub use call::{Answer, Call, Event};
pub use phase::Phase;
pub use refusal::Refusal;
