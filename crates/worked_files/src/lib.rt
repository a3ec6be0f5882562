// Worked sounding files, each a test: nothing here is for other crates to use.
#![tactic(auto)]

#[cfg(test)]
mod worked_reports;
