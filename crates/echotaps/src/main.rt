// Reads one sounding file from standard input, and writes its report or the line that says why it is refused: echotaps < file
#![tactic(auto)]

ghost use Rattle.std.specs.Prelude.{◌≡◌, IfOk, MatchOption};
ghost use Rattle.std.specs.Process.{exit_status};
ghost use Rattle.layout.specs.Tests.{first_refusal};
ghost use Rattle.files.specs.Files.{input_tests};

use files::report_input;
use filetext::refusal_line;
use programs::status;
use std::io;
use std::io::{Read, Write};
use std::process::ExitCode;

// The input, or as much of it as tells that it is too long.
fn read_input(rt: &HostRuntime) -> io::Result<Vec<u8>> {
    let mut input = Vec::new(rt.alloc());
    rt.stdin().take(8193).read_to_end(&mut input)?;
    Ok(input)
}

// Writes the report of an input, or the line that says why it is refused. The status is 0 exactly if it is accepted,
// and no report lacks room.
fn answer(rt: &HostRuntime, input: &[u8]) -> io::Result<ExitCode>
    ensures { IfOk result (λ code. MatchOption (first_refusal (input_tests input.now 1030)) (exit_status code ≡ 0) (λ _. exit_status code ≡ 1)) }
{
    // the longest report has 256 taps of 4 bytes; the crates of files have no heap, so it goes into an array
    let mut out = [0; 1030];
    match report_input(input, &mut out) {
        Ok(length) => {
            rt.stdout().write_all(&out[..length])?;
            Ok(ExitCode::SUCCESS)
        }
        Err(refusal) => {
            rt.print(refusal_line(rt.alloc(), refusal)?)?;
            Ok(ExitCode::FAILURE)
        }
    }
}

fn run(rt: &HostRuntime) -> io::Result<ExitCode> {
    let input = read_input(rt)?;
    answer(rt, input.as_slice())
}

fn main(rt: HostRuntime) -> ExitCode {
    status(&rt, "echotaps", run(&rt))
}
