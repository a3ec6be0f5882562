// Which taps a report can hold.
ghost use Rattle.std.specs.Prelude.{◌≡◌};
ghost use Rattle.std.specs.List.{position};
ghost use Rattle.layout.specs.Tests.{first_refusal, unless};
ghost use Rattle.reports.specs.Reports.{outside, tap_outside, tap_tests};

use layout::FileRefusal;

fn is_outside(word: i64) -> bool
    ensures { result ≡ outside word }
{
    word.unsigned_abs() > 32767
}

// Whether a report can't hold the tap.
fn tap_outside(tap: (i64, i64)) -> bool
    ensures { result ≡ tap_outside tap }
{
    is_outside(tap.0) || is_outside(tap.1)
}

// The index of the first tap that a report can't hold.
fn first_outside(taps: &[(i64, i64)]) -> Option<usize>
    ensures { result ≡ position tap_outside taps.now }
{
    taps.iter().position(|tap| tap_outside(*tap))
}

// Every tap is one that a report can hold; `size` is the length of the file.
pub(crate) fn check_taps(taps: &[(i64, i64)], size: usize) -> Result<(), FileRefusal>
    ensures { result ≡ unless (first_refusal (tap_tests size taps.now)) tt }
{
    match first_outside(taps) {
        Some(index) => Err(FileRefusal::Tap { index, byte: size }),
        None => Ok(()),
    }
}
