// Sounding files as bytes: their fields, the tests on them in their order, and the refusals of files.
#![tactic(auto)]

mod head;
mod parsing;
mod refusal;
mod sounding;

pub use parsing::parse;
pub use refusal::FileRefusal;
pub use sounding::Sounding;
