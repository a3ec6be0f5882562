// Decimal numbers.
ghost use Rattle.std.specs.Prelude.{◌≡◌, ◌≤◌, IfSome};
ghost use Rattle.keytext.specs.Numbers.{with_digit, number_up_to, number_of};

// The number with one more digit behind it, absent if the byte is no digit.
fn with_digit(n: usize, byte: u8, most: usize) -> Option<usize>
    ensures { result ≡ with_digit most n byte }
{
    if !byte.is_ascii_digit() {
        return None;
    }
    let digit = usize::from(byte - b'0');
    Some(n.saturating_mul(10).saturating_add(digit).min(most))
}

// The number of one or more decimal digits and nothing else. Every number above the most counts as the most.
pub fn number_up_to(digits: &[u8], most: usize) -> Option<usize>
    ensures value { result ≡ number_up_to most digits.now }
    ensures bound { IfSome result (λ n. n ≤ most) }
{
    if digits.is_empty() {
        return None;
    }
    // a for and no try_fold: with that, neither clause was found
    let mut n = 0;
    for byte in digits {
        n = with_digit(n, *byte, most)?;
    }
    Some(n)
}

// The number of a word of one or more decimal digits and nothing else.
// Every number above 255 counts as 255. That changes no verdict on a key: no kernel, no delay of a set
// that a kernel allows and no code of a root is as large as 255.
pub fn number(word: &str) -> Option<u8>
    ensures { result ≡ number_of word.now }
{
    // a number up to 255, which the cast keeps: try_from would add an error that never comes
    Some(number_up_to(word.as_bytes(), 255)? as u8)
}
