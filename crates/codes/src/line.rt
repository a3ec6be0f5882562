// The line of a code: its name and its entries.
ghost use Rattle.std.specs.Prelude.{◌≡◌, ◌++◌, IfOk, string_bytes, OnOk};
ghost use Rattle.codes.specs.Lines.{entry_in, line_of};

use kinds::{Kind, KindName};
use pairs::Pair;
use std::alloc::{AllocError, Global};
use std::fmt::Write;
use sums::Side;

// Puts an entry behind the line, after a blank. In the hall kind the second word is always 0 and left out.
fn push_entry<K: Kind>(line: &mut String, kind: KindName, entry: K) -> Result<(), AllocError>
    ensures { OnOk result (string_bytes line.new ≡ string_bytes line.old ++ entry_in kind K.Kind.encoding entry) }
{
    let (first, second) = entry.words();
    match kind {
        KindName::Hall => write!(line, " {first}"),
        KindName::Radio => write!(line, " {first},{second}"),
    }
}

// One code: its name and its entries.
pub fn code_line<P: Pair>(
    heap: Global,
    kind: KindName,
    pair: &P,
    side: Side,
) -> Result<String, AllocError>
    ensures { IfOk result (λ s. string_bytes s ≡ line_of kind P.Sample.Kind.encoding side (P.Pair.code pair.now side) (P.Pair.span pair.now)) }
{
    let mut line = side.to_string(heap)?;
    // a pair has no list of its entries: it computes each by its place
    for k in 0..pair.span() {
        push_entry(&mut line, kind, pair.entry_or_zero(side, k))?;
    }
    Ok(line)
}
