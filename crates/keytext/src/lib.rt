// The words by which a key is written: KIND KERNEL [DELAY:CODE]...
#![tactic(auto)]

mod names;
mod numbers;
mod stages;

pub use names::kind_name;
pub use numbers::{number, number_up_to};
pub use stages::stage;
