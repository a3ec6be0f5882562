// The texts of lines, of answers and of refusals.
ghost use Rattle.std.specs.Prelude.{◌≡◌, ◌++◌, IfOk, string_bytes, codes, OnOk};
ghost use Rattle.keys.specs.Refusals.{refusal_text};
ghost use Rattle.calls.specs.Texts.{answer_text};
ghost use Rattle.scripts.specs.Texts.{all_now, behind, line_of, answered};

use calls::Answer;
use keys::KeyRefusal;
use std::alloc::{AllocError, Global};
use std::fmt::Write;

// Puts a blank and a word behind the text.
fn push_word(text: &mut String, word: &str) -> Result<(), AllocError>
    ensures { OnOk result (string_bytes text.new ≡ (string_bytes text.old ++ codes " ") ++ word.now) }
{
    text.push_str(" ")?;
    text.push_str(word)
}

// A word and those that follow it, each after a blank. std has no join of words; with that of itertools, which speaks of
// runs of an iterator, the clause of `line_text` stayed open.
fn joined(heap: Global, first: &str, rest: &[&str]) -> Result<String, AllocError>
    ensures { IfOk result (λ s. string_bytes s ≡ first.now ++ behind (all_now rest.now)) }
{
    let mut text = String::from_str(heap, first)?;
    for word in rest {
        push_word(&mut text, word)?;
    }
    Ok(text)
}

// The words of a line, with one blank between them.
pub fn line_text(heap: Global, words: &[&str]) -> Result<String, AllocError>
    ensures { IfOk result (λ s. string_bytes s ≡ line_of (all_now words.now)) }
{
    match words {
        [] => Ok(String::new(heap)),
        [first, rest @ ..] => joined(heap, first, rest),
    }
}

// A line and what is answered to it.
pub fn answered(heap: Global, line: &str, answer: &str) -> Result<String, AllocError>
    ensures { IfOk result (λ s. string_bytes s ≡ answered line.now answer.now) }
{
    format!(in heap; "{line} = {answer}\n")
}

// Why a key is refused. Like the next, a public name for a text that a definition states: what both share is `to_string`.
pub fn key_refusal_text(heap: Global, refusal: KeyRefusal) -> Result<String, AllocError>
    ensures { IfOk result (λ s. string_bytes s ≡ refusal_text refusal) }
{
    refusal.to_string(heap)
}

// What a call answers.
pub fn answer_text(heap: Global, answer: Answer) -> Result<String, AllocError>
    ensures { IfOk result (λ s. string_bytes s ≡ answer_text answer) }
{
    // room for most answers at once, in the smallest block of a usual heap: `to_string` begins with none, and took a
    // third longer for ok
    let mut text = String::with_capacity(heap, 24)?;
    write!(text, "{answer}")?;
    Ok(text)
}
