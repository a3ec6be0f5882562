// A sounding file in, its report out.
#![tactic(auto)]

mod reporting;
mod sounding;

pub use reporting::{report, report_input};
