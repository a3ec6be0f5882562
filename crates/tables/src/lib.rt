// Tables that keep samples as words: what a kernel, a stage and a sounder hold.
#![tactic(auto)]

mod line;
mod table;

pub use line::DelayLine;
pub use table::WordTable;
