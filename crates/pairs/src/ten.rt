ghost use Rattle.std.specs.Prelude.{◌≡◌, ◌+◌, ◌<◌};
ghost use Rattle.sums.specs.Codes.{silent, matching};
ghost use Rattle.golay.specs.Kernels.{is_minus, signed, ten_entry, ten_codes};
ghost use Rattle.pairs.specs.Kernels.{nine, ten_pending};
ghost use Rattle.pairs.specs.KernelsLemmas.{tables_laws};
ghost use Rattle.tables.specs.Tables.{words};

use crate::Pair;
use kinds::Kind;
use std::marker::PhantomData;
use sums::Side;
use tables::WordTable;

// The ten-entry kernel: ten signs of one on each side, span 10, energy 20, with nine sums pending on each side.
#[derive(Drop)]
pub struct TenKernel<K> {
    p: WordTable<9>,
    q: WordTable<9>,
    kind: PhantomData<K>,
}

// Whether entry k is -1.
// A: + + - + - + - - + +   B: + + - + + + + + - -
fn is_minus(side: Side, k: usize) -> bool
    ensures { result ≡ is_minus side k }
{
    match side {
        Side::A => matches!(k, 2 | 4 | 6 | 7),
        Side::B => matches!(k, 2 | 8 | 9),
    }
}

fn with_sign<K: Kind>(minus: bool, x: K) -> K
    ensures { result ≡ signed K.Kind.ring minus x }
{
    if minus { K::zero().difference(x) } else { x }
}

// What stands at place j as x comes in.
fn arriving<K: Kind>(table: &WordTable<9>, side: Side, j: usize, x: K) -> K
    requires { j < 10 }
    ensures { result ≡ matching K.Kind.ring 10 (ten_entry K.Kind.ring side) (nine K.Kind (words table.now)) x j }
{
    let waiting: K = table.sample(j);
    waiting.sum(with_sign(is_minus(side, 9 - j), x))
}

// Takes x in on one side: what arrives at place 0 comes out, the rest moves down by one place.
fn shift_in<K: Kind>(table: &mut WordTable<9>, side: Side, x: K) -> K
    ensures first { result ≡ matching K.Kind.ring 10 (ten_entry K.Kind.ring side) (nine K.Kind (words table.old)) x 0 }
    ensures rest { nine K.Kind (words table.new) ≡ (λ j. matching K.Kind.ring 10 (ten_entry K.Kind.ring side) (nine K.Kind (words table.old)) x (j + 1)) }
{
    let out = arriving(table, side, 0, x);
    // By index: place j is written from place j + 1, which no iterator over the table lends with it.
    for j in 0..9 {
        let next: K = arriving(table, side, j + 1, x);
        table.put(j, next.words());
    }
    out
}

impl<K: Kind> TenKernel<K> {
    pub(crate) fn new() -> Self
        ensures { ten_pending K.Kind result ≡ silent K.Kind.ring }
    {
        TenKernel {
            p: WordTable::new(),
            q: WordTable::new(),
            kind: PhantomData,
        }
    }
}

impl<K: Kind> Pair for TenKernel<K> {
    type Sample = K;

    ghost span = { λ _. (ten_codes K.Kind.ring).span };

    ghost energy = { λ _. (ten_codes K.Kind.ring).energy };

    ghost code = { λ _. (ten_codes K.Kind.ring).entry };

    ghost counts = { λ _. (ten_codes K.Kind.ring).counts };

    ghost pending = { ten_pending K.Kind };

    ghost laws = { λ s. tables_laws K.Kind.own K.Kind.algebra K.Kind.conjugation K.Kind.unity (words s.p) (words s.q) };

    fn size(&self) -> (usize, u32) {
        (10, 20)
    }

    fn entry(&self, side: Side, k: usize) -> Option<K> {
        (k < 10).then_some(with_sign(is_minus(side, k), K::one()))
    }

    fn push(&mut self, x: K) -> (K, K) {
        let p = shift_in(&mut self.p, Side::A, x);
        let q = shift_in(&mut self.q, Side::B, x);
        (p, q)
    }

    fn clear(&mut self) {
        *self = TenKernel::new();
    }
}
