// Worked soundings as one list: what each case claims is proved, and the tests run each case through the library.
#![tactic(auto)]

mod case;
mod case_keys;
#[cfg(test)]
mod checks;
mod list;

pub use case::{Case, CaseKey, RoomSounding, Words};
pub use list::cases;
