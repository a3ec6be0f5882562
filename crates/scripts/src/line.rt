// The calls of a script: the words of a line.
ghost use Rattle.std.specs.Prelude.{◌≡◌};
ghost use Rattle.scripts.specs.Calls.{call_alone, call_with_one, call_with_word, sample_with, code_with, call_with_two, call_of};
ghost use Rattle.scripts.specs.Texts.{all_now};

use crate::numbers::{index, word};
use calls::Call;
use keytext::number;

// A call that has no number.
fn call_alone(name: &str) -> Option<Call>
    ensures { result ≡ call_alone name.now }
{
    match name {
        "turn" => Some(Call::Turn),
        "close" => Some(Call::Close),
        "abandon" => Some(Call::Abandon),
        _ => None,
    }
}

// A call that has one number.
fn call_with_one(name: &str, n: usize) -> Option<Call>
    ensures { result ≡ call_with_one name.now n }
{
    match name {
        "open" => Some(Call::Open(n)),
        "sum" => Some(Call::Sum(n)),
        "tap" => Some(Call::Tap(n)),
        _ => None,
    }
}

// A call that has one number, by its two words.
fn call_with_word(name: &str, place: &str) -> Option<Call>
    ensures { result ≡ call_with_word name.now place.now }
{
    let n = index(place.as_bytes())?;
    call_with_one(name, n)
}

// A sample by its two words.
fn sample_with(first: &str, second: &str) -> Option<Call>
    ensures { result ≡ sample_with first.now second.now }
{
    let x = word(first.as_bytes())?;
    let y = word(second.as_bytes())?;
    Some(Call::Sample(x, y))
}

// An entry of a code by its side and its index. Every side above 255 counts as 255: none above 1 has a code.
fn code_with(side: &str, place: &str) -> Option<Call>
    ensures { result ≡ code_with side.now place.now }
{
    let s = number(side)?;
    let k = index(place.as_bytes())?;
    Some(Call::Code(s, k))
}

// A call that has two numbers.
fn call_with_two(name: &str, first: &str, second: &str) -> Option<Call>
    ensures { result ≡ call_with_two name.now first.now second.now }
{
    match name {
        "sample" => sample_with(first, second),
        "code" => code_with(first, second),
        _ => None,
    }
}

// The call of the words of a line, absent if they are none.
pub fn call_of(words: &[&str]) -> Option<Call>
    ensures { result ≡ call_of (all_now words.now) }
{
    match words {
        [] => None,
        [name] => call_alone(name),
        [name, n] => call_with_word(name, n),
        [name, first, second] => call_with_two(name, first, second),
        _ => None,
    }
}
