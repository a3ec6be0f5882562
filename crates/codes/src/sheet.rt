// The sheet of a key: the span, the energy and the two codes.
ghost use Rattle.std.specs.Prelude.{◌≡◌, IfOk, string_bytes};
ghost use Rattle.codes.specs.Sheets.{sheet_of, key_sheet};

use crate::line::code_line;
use keys::Key;
use kinds::{Kind, KindName};
use pairs::Pair;
use std::alloc::{AllocError, Global};
use sums::Side;

// The sheet of a pair.
fn pair_sheet<P: Pair>(heap: Global, kind: KindName, pair: &P) -> Result<String, AllocError>
    ensures { IfOk result (λ s. string_bytes s ≡ sheet_of kind P.Sample.Kind.encoding (P.Pair.span pair.now) (P.Pair.energy pair.now) (P.Pair.code pair.now)) }
{
    let (span, energy) = pair.size();
    let a = code_line(heap, kind, pair, Side::A)?;
    let b = code_line(heap, kind, pair, Side::B)?;
    format!(in heap; "span {span}\nenergy {energy}\n{a}\n{b}\n")
}

// The sheet of a key for the kind K: the codes of the recursion. The name says how entries are printed,
// and the contract holds for each name with each kind, so the two are no one parameter.
pub fn key_sheet<K: Kind>(heap: Global, kind: KindName, key: &Key) -> Result<String, AllocError>
    ensures { IfOk result (λ s. string_bytes s ≡ key_sheet kind K.Kind key.now) }
{
    pair_sheet(heap, kind, &key.cascade::<K>())
}
