// What is printed: the lines of the script with their answers.
ghost use Rattle.std.specs.Prelude.{◌≡◌, length, IfOk, IfErr, Some, string_bytes};
ghost use Rattle.std.specs.Str.Lines.{lines};
ghost use Rattle.keys.specs.Refusals.{refusal_text};
ghost use Rattle.calls.specs.Runs.{answers_of};
ghost use Rattle.calls.specs.Texts.{answer_text};
ghost use Rattle.scripts.specs.Texts.{answered};
ghost use Rattle.replay.specs.Scripts.{wrong_line, first_of, behind_first, StopsAt};
ghost use Rattle.replay.specs.Sheets.{again, sheet_of, transcript_of};

use crate::script::{calls_of, first_line, words_of};
use crate::sounding::run_over;
use crate::stop::Stop;
use calls::{Answer, Event};
use keys::{Key, KeyRefusal};
use kinds::Kind;
use scripts::{answer_text, answered, key_refusal_text, line_text};
use std::alloc::{AllocError, Global};

// A line again, whatever blanks stood between its words.
fn again(heap: Global, line: &str) -> Result<String, AllocError>
    ensures { IfOk result (λ s. string_bytes s ≡ again line.now) }
{
    let words = words_of(heap, line)?;
    line_text(heap, words.as_slice())
}

// The key line with the refusal of its key.
pub fn refused_key(heap: Global, line: &str, refusal: KeyRefusal) -> Result<String, AllocError>
    ensures { IfOk result (λ s. string_bytes s ≡ answered (again line.now) (refusal_text refusal)) }
{
    let line = again(heap, line)?;
    let refusal = key_refusal_text(heap, refusal)?;
    answered(heap, line.as_str(), refusal.as_str())
}

// The line of a call with its answer.
fn answered_call(heap: Global, line: &str, answer: Answer) -> Result<String, AllocError>
    ensures { IfOk result (λ s. string_bytes s ≡ answered (again line.now) (answer_text answer)) }
{
    let line = again(heap, line)?;
    let answer = answer_text(heap, answer)?;
    answered(heap, line.as_str(), answer.as_str())
}

// The key line, and each call with its answer.
#[tactic(auto, using(crate::proofs::SheetLines::line_written))]
fn sheet(heap: Global, script: &str, events: &[Event]) -> Result<String, AllocError>
    requires { length (behind_first (lines script.now)) ≡ length events.now }
    ensures { IfOk result (λ s. string_bytes s ≡ sheet_of (first_of (lines script.now)) (behind_first (lines script.now)) (answers_of events.now)) }
{
    let mut text = again(heap, first_line(script))?;
    text.push_str("\n")?;
    // by number: two lists of one length
    for (i, line) in script.lines().skip(1).enumerate() {
        prove!(i < events.len());
        let answered = answered_call(heap, line, events[i].answer)?;
        text.push_str(answered.as_str())?;
    }
    Ok(text)
}

// What is printed for a key: its line, and each of the calls with the answer of a sounder over the pair of the key.
pub fn transcript<K: Kind>(heap: Global, key: &Key, script: &str) -> Result<String, Stop>
    ensures text { IfOk result (λ s. transcript_of K.Kind key.now (first_of (lines script.now)) (behind_first (lines script.now)) ≡ Some (string_bytes s)) }
    ensures stop { IfErr result (λ e. StopsAt e (wrong_line 2 (behind_first (lines script.now)))) }
{
    let mut events = calls_of(heap, script)?;
    run_over::<K>(key, events.as_mut_slice());
    Ok(sheet(heap, script, events.as_slice())?)
}
