// How the programs end.
#![tactic(auto)]

ghost use Rattle.std.specs.Prelude.{◌≡◌, MatchResult};
ghost use Rattle.std.specs.Process.{exit_status};

use std::fmt::Display;
use std::process::ExitCode;

// The status that a run ends with: its own, or failure where an error ended it, which standard error is told.
// If standard error can't be written there is nobody left to tell.
pub fn status<E: Display + Drop>(
    rt: &impl Eprint,
    program: &str,
    run: Result<ExitCode, E>,
) -> ExitCode
    ensures { MatchResult run (λ code. result ≡ code) (λ _. exit_status result ≡ 1) }
{
    match run {
        Ok(code) => code,
        Err(error) => {
            let _ = eprintln!(rt; "{program}: {error}");
            ExitCode::FAILURE
        }
    }
}
