// The numbers of a call: decimal digits, with a sign before the words of a sample.
ghost use Rattle.std.specs.Prelude.{◌≡◌};
ghost use Rattle.keytext.specs.Steps.{and_then};
ghost use Rattle.scripts.specs.Numbers.{index_of, positive, negative, word_of};

use keytext::number_up_to;

// The number of one or more decimal digits and nothing else.
// Every number above 2^64 - 1 counts as 2^64 - 1. That changes no verdict on a call: no room length is as large,
// and neither a code nor the sums have so many entries.
pub fn index(bytes: &[u8]) -> Option<usize>
    ensures { result ≡ index_of bytes.now }
{
    number_up_to(bytes, usize::MAX)
}

// The number of decimal digits that have no sign in front, absent if no i64 holds it.
fn unsigned_word(digits: &[u8]) -> Option<i64>
    ensures { result ≡ and_then (index_of digits.now) positive }
{
    i64::try_from(index(digits)?).ok()
}

// The number of decimal digits that have a minus sign in front, absent if no i64 holds it.
// It differs from the one above by a sign; one function of the sign would be no shorter.
fn minus_word(digits: &[u8]) -> Option<i64>
    ensures { result ≡ and_then (index_of digits.now) negative }
{
    // a cast, since i128 has no From<usize>
    i64::try_from(-(index(digits)? as i128)).ok()
}

// The number of decimal digits that may have a minus sign in front, absent if no i64 holds it.
pub fn word(bytes: &[u8]) -> Option<i64>
    ensures { result ≡ word_of bytes.now }
{
    match bytes {
        [b'-', digits @ ..] => minus_word(digits),
        _ => unsigned_word(bytes),
    }
}
