// The bytes of a report, written into a buffer.
#![tactic(auto)]

mod checking;
mod writing;

pub use writing::{report_length, write_report};
