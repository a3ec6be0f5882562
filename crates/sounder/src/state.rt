ghost use Rattle.std.specs.Prelude.{◌≤◌};

use calls::Phase;
use tables::WordTable;

// A sounder over a pair: the phase, the room length, the samples accepted in the record, and the sums so far.
// Tried as an impl Model with the State of specs/ as Value: refused, since its codes and sums are functions, which have no code.
#[derive(Drop)]
pub struct Sounder<P> {
    pub(crate) pair: P,
    pub(crate) sums: WordTable<256>,
    pub(crate) phase: Phase,
    pub(crate) room: usize,
    pub(crate) count: usize,
    ghost small: { room ≤ 256 },
    ghost short: { count ≤ 4352 },
}
