// Prints the two codes of a key: codes KIND KERNEL [DELAY:CODE]...
#![tactic(auto)]

ghost use Rattle.std.specs.Prelude.{◌≡◌, IfOk, MatchResult};
ghost use Rattle.std.specs.Process.{exit_status};
ghost use Rattle.keys.specs.Judged.{judged};
ghost use Rattle.kinds.specs.KindNames.{roots};

mod line;
mod sheet;

use crate::sheet::key_sheet;
use kinds::hall::Hall;
use kinds::radio::Radio;
use kinds::{Kind, KindName};
use programs::status;
use scripts::{KeyWords, key_refusal_text, key_words};
use std::process::ExitCode;
use std::{env, io};

// Prints the codes of the key that is asked for, filled for the kind K, as one text, or why it is refused.
// replay has such a function too: what both do stands in KeyWords::key, and they differ in all that they print.
// The status is 0 exactly if the key is accepted.
fn answer<K: Kind>(rt: &HostRuntime, asked: &KeyWords) -> io::Result<ExitCode>
    ensures { IfOk result (λ code. MatchResult (judged K.Kind.polar.count asked.now.kernel asked.now.stages.items) (λ _. exit_status code ≡ 0) (λ _. exit_status code ≡ 1)) }
{
    match asked.key::<K>() {
        Ok(key) => {
            rt.print(key_sheet::<K>(rt.alloc(), asked.kind, &key)?)?;
            Ok(ExitCode::SUCCESS)
        }
        Err(refusal) => {
            rt.println(key_refusal_text(rt.alloc(), refusal)?)?;
            Ok(ExitCode::FAILURE)
        }
    }
}

// The same for the kind that is named.
fn answer_by_kind(rt: &HostRuntime, asked: &KeyWords) -> io::Result<ExitCode>
    ensures { IfOk result (λ code. MatchResult (judged (roots asked.now.kind) asked.now.kernel asked.now.stages.items) (λ _. exit_status code ≡ 0) (λ _. exit_status code ≡ 1)) }
{
    // each kind is a type of its own, so a name picks one of two calls
    match asked.kind {
        KindName::Hall => answer::<Hall>(rt, asked),
        KindName::Radio => answer::<Radio>(rt, asked),
    }
}

// Says how the program is called. If standard error can't be written there is nobody left to tell.
fn usage(rt: &HostRuntime) -> ExitCode
    ensures { exit_status result ≡ 1 }
{
    let _ = rt.eprintln(
        "usage: codes KIND KERNEL [DELAY:CODE]... with KIND hall or radio, the rest decimal numbers",
    );
    ExitCode::FAILURE
}

fn run(rt: &HostRuntime) -> io::Result<ExitCode> {
    // the first word is the program's name
    let words = env::args(rt)?.skip(1).collect::<Vec<String>>(rt.alloc())?;
    match key_words(rt.alloc(), words.as_slice())? {
        None => Ok(usage(rt)),
        Some(asked) => answer_by_kind(rt, &asked),
    }
}

fn main(rt: HostRuntime) -> ExitCode {
    status(&rt, "codes", run(&rt))
}
