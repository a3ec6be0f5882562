// Keys: which stages a cascade has.
#![tactic(auto)]

mod cascade;
mod check;
mod fill;
mod kernel;
mod key;
mod reading;
mod refusal;
mod stage;
mod stages;

pub use check::{check_kernel, check_stage_count, delays_fit};
pub use key::Key;
pub use refusal::KeyRefusal;
pub use stage::KeyStage;
