ghost use Rattle.std.specs.Prelude.{◌≡◌};
ghost use Rattle.sums.specs.Codes.{silent};
ghost use Rattle.golay.specs.Kernels.{unit_codes};
ghost use Rattle.golay.proofs.Units.{unit_laws};

use crate::Pair;
use kinds::Kind;
use std::marker::PhantomData;
use sums::Side;

// The unit kernel: A = 1, B = 1, span 1, energy 2. Nothing is ever pending.
#[derive(Drop)]
pub struct UnitKernel<K> {
    pub(crate) kind: PhantomData<K>,
}

impl<K: Kind> Pair for UnitKernel<K> {
    type Sample = K;

    ghost span = { λ _. (unit_codes K.Kind.ring).span };

    ghost energy = { λ _. (unit_codes K.Kind.ring).energy };

    ghost code = { λ _. (unit_codes K.Kind.ring).entry };

    ghost counts = { λ _. (unit_codes K.Kind.ring).counts };

    ghost pending = { λ _. silent K.Kind.ring };

    ghost laws = { λ _. unit_laws K.Kind.algebra K.Kind.conjugation K.Kind.unity };

    fn size(&self) -> (usize, u32) {
        (1, 2)
    }

    fn entry(&self, side: Side, k: usize) -> Option<K> {
        (k < 1).then_some(K::one())
    }

    fn push(&mut self, x: K) -> (K, K) {
        (x, x)
    }

    fn clear(&mut self) {}
}
