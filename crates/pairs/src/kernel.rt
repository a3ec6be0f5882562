ghost use Rattle.std.specs.Prelude.{◌≡◌};
ghost use Rattle.sums.specs.Codes.{silent};
ghost use Rattle.golay.specs.Kernels.{unit_codes, ten_codes};
ghost use Rattle.pairs.specs.Kernels.{kernel_codes, kernel_pending};
ghost use Rattle.pairs.specs.KernelsLemmas.{kernel_laws};

use crate::Pair;
use crate::ten::TenKernel;
use crate::unit::UnitKernel;
use kinds::Kind;
use std::marker::PhantomData;
use sums::Side;

// Either kernel, so that cascades over both are of one type.
// Each method forwards by a match: a `Box<dyn Pair>` in its place would need the heap.
#[derive(Drop)]
pub enum Kernel<K> {
    Unit(UnitKernel<K>),
    Ten(TenKernel<K>),
}

impl<K: Kind> Kernel<K> {
    pub fn unit() -> Self
        ensures codes { kernel_codes K.Kind result ≡ unit_codes K.Kind.ring }
        ensures lists { kernel_pending K.Kind result ≡ silent K.Kind.ring }
    {
        Kernel::Unit(UnitKernel { kind: PhantomData })
    }

    pub fn ten() -> Self
        ensures codes { kernel_codes K.Kind result ≡ ten_codes K.Kind.ring }
        ensures lists { kernel_pending K.Kind result ≡ silent K.Kind.ring }
    {
        Kernel::Ten(TenKernel::new())
    }
}

impl<K: Kind> Pair for Kernel<K> {
    type Sample = K;

    ghost span = { λ s. (kernel_codes K.Kind s).span };

    ghost energy = { λ s. (kernel_codes K.Kind s).energy };

    ghost code = { λ s. (kernel_codes K.Kind s).entry };

    ghost counts = { λ s. (kernel_codes K.Kind s).counts };

    ghost pending = { kernel_pending K.Kind };

    ghost laws = { kernel_laws K.Kind.own K.Kind.algebra K.Kind.conjugation K.Kind.unity };

    fn size(&self) -> (usize, u32) {
        match self {
            Kernel::Unit(pair) => pair.size(),
            Kernel::Ten(pair) => pair.size(),
        }
    }

    fn entry(&self, side: Side, k: usize) -> Option<K> {
        match self {
            Kernel::Unit(pair) => pair.entry(side, k),
            Kernel::Ten(pair) => pair.entry(side, k),
        }
    }

    fn push(&mut self, x: K) -> (K, K) {
        match self {
            Kernel::Unit(pair) => pair.push(x),
            Kernel::Ten(pair) => pair.push(x),
        }
    }

    fn clear(&mut self) {
        match self {
            Kernel::Unit(pair) => pair.clear(),
            Kernel::Ten(pair) => pair.clear(),
        }
    }
}
