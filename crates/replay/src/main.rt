// Gives the calls of a script to a sounder over the pair of a key, and prints the answers: replay < script
#![tactic(auto)]

mod script;
mod sheet;
mod sounding;
mod stop;

ghost use Rattle.std.specs.Prelude.{IfOk, MatchResult, ◌≡◌};
ghost use Rattle.std.specs.Process.{exit_status};
ghost use Rattle.keys.specs.Judged.{judged};
ghost use Rattle.kinds.specs.KindNames.{roots};

use crate::script::{first_line, key_line};
use crate::sheet::{refused_key, transcript};
use crate::stop::Stop;
use kinds::hall::Hall;
use kinds::radio::Radio;
use kinds::{Kind, KindName};
use programs::status;
use scripts::KeyWords;
use std::io;
use std::process::ExitCode;

// Gives the calls to a sounder over the key that is asked for, filled for the kind K, and prints the answers
// as one text, or why the key is refused. codes has such a function too: what both do stands in KeyWords::key.
// The status is 0 exactly if the key is accepted.
fn answer<K: Kind>(rt: &HostRuntime, asked: &KeyWords, script: &str) -> Result<ExitCode, Stop>
    ensures { IfOk result (λ code. MatchResult (judged K.Kind.polar.count asked.now.kernel asked.now.stages.items) (λ _. exit_status code ≡ 0) (λ _. exit_status code ≡ 1)) }
{
    let heap = rt.alloc();
    match asked.key::<K>() {
        Ok(key) => {
            rt.print(transcript::<K>(heap, &key, script)?)?;
            Ok(ExitCode::SUCCESS)
        }
        Err(refusal) => {
            rt.print(refused_key(heap, first_line(script), refusal)?)?;
            Ok(ExitCode::FAILURE)
        }
    }
}

// The same for the kind that is named.
fn answer_by_kind(rt: &HostRuntime, asked: &KeyWords, script: &str) -> Result<ExitCode, Stop>
    ensures { IfOk result (λ code. MatchResult (judged (roots asked.now.kind) asked.now.kernel asked.now.stages.items) (λ _. exit_status code ≡ 0) (λ _. exit_status code ≡ 1)) }
{
    // each kind is a type of its own, so a name picks one of two calls
    match asked.kind {
        KindName::Hall => answer::<Hall>(rt, asked, script),
        KindName::Radio => answer::<Radio>(rt, asked, script),
    }
}

fn run(rt: &HostRuntime) -> Result<ExitCode, Stop> {
    let script = io::read_to_string(rt.alloc(), rt.stdin())?;
    let first = first_line(script.as_str());
    let asked = key_line(rt.alloc(), first)?.ok_or(Stop::NoKey)?;
    answer_by_kind(rt, &asked, script.as_str())
}

fn main(rt: HostRuntime) -> ExitCode {
    status(&rt, "replay", run(&rt))
}
