// A script: a key line, and then one call a line.
ghost use Rattle.std.specs.Prelude.{◌≡◌, ◌++◌, ◌∷◌, [], length, IfOk, IfErr, OnOk, Some};
ghost use Rattle.std.specs.Option.{option_map};
ghost use Rattle.std.specs.Str.Lines.{lines};
ghost use Rattle.calls.specs.Runs.{calls_of};
ghost use Rattle.scripts.specs.Keys.{asked};
ghost use Rattle.scripts.specs.Texts.{all_now};
ghost use Rattle.replay.specs.Scripts.{words_of, asked_by, asked_in, call_in, calls_in, wrong_line, unless_call, first_of, behind_first, StopsAt};

use crate::stop::Stop;
use calls::{Answer, Event};
use scripts::{KeyWords, call_of, key_words};
use std::alloc::{AllocError, Global};

// The first line, empty if there is none.
#[tactic(auto, using(crate::proofs::Reading::first_is))]
pub fn first_line(script: &str) -> &str
    ensures { result.now ≡ first_of (lines script.now) }
{
    script.lines().next().unwrap_or("")
}

// The words of a line, which are separated by one or more ASCII blanks.
pub fn words_of<'a>(heap: Global, line: &'a str) -> Result<Vec<&'a str>, AllocError>
    ensures { IfOk result (λ v. all_now v.items ≡ words_of line.now) }
{
    line.split_ascii_whitespace().collect(heap)
}

// What the words of a key line ask for, absent if they are none.
fn key_asked(heap: Global, words: &[&str]) -> Result<Option<KeyWords>, AllocError>
    ensures { IfOk result (λ r. option_map asked r ≡ asked_by (all_now words.now)) }
{
    match words {
        [] => Ok(None),
        [word, words @ ..] => match *word {
            "key" => key_words(heap, words),
            _ => Ok(None),
        },
    }
}

// What the key line asks for, absent if the line is none.
pub fn key_line(heap: Global, line: &str) -> Result<Option<KeyWords>, AllocError>
    ensures { IfOk result (λ r. option_map asked r ≡ asked_in line.now) }
{
    let words = words_of(heap, line)?;
    key_asked(heap, words.as_slice())
}

// The call of the line of this number. The answer that stands beside it is still to be given.
fn call_line(heap: Global, line: &str, number: usize) -> Result<Event, Stop>
    ensures call { IfOk result (λ e. call_in line.now ≡ Some e.call) }
    ensures stop { IfErr result (λ e. StopsAt e (unless_call number (call_in line.now) None)) }
{
    let words = words_of(heap, line)?;
    let call = call_of(words.as_slice()).ok_or(Stop::NoCall(number))?;
    let answer = Answer::Done;
    Ok(Event { call, answer })
}

// Puts an event behind the others: a call of its own, so that its error is one that `Stop` is made of.
fn keep(events: &mut Vec<Event>, event: Event) -> Result<(), AllocError>
    ensures { OnOk result (events.new.items ≡ events.old.items ++ (event ∷ [])) }
{
    events.push(event)?;
    Ok(())
}

// The calls of the lines after the first, of which the first has the number 2. The lines are read one by one, here and
// where they are printed again: a list of them would take memory, and all of them before the first wrong one is told.
#[tactic(auto, using(crate::proofs::CallLines::call_read))]
pub fn calls_of(heap: Global, script: &str) -> Result<Vec<Event>, Stop>
    ensures calls { IfOk result (λ v. calls_in (behind_first (lines script.now)) ≡ Some (calls_of v.items)) }
    ensures count { IfOk result (λ v. length v.items ≡ length (behind_first (lines script.now))) }
    ensures stop { IfErr result (λ e. StopsAt e (wrong_line 2 (behind_first (lines script.now)))) }
{
    let mut events = Vec::new(heap);
    // by number: a line that is no call is told by its place
    for (i, line) in script.lines().skip(1).enumerate() {
        let event = call_line(heap, line, i + 2)?;
        keep(&mut events, event)?;
    }
    Ok(events)
}
