ghost use Rattle.std.specs.Prelude.{◌≡◌};
ghost use Rattle.sums.specs.Codes.{silent};
ghost use Rattle.pairs.specs.Kernels.{kernel_codes, kernel_pending};
ghost use Rattle.pairs.specs.Cascades.{cascade_codes, cascade_pending};
ghost use Rattle.keys.specs.Plans.{IsSound, stages_for};
ghost use Rattle.keys.specs.Recursion.{kernel_of, CascadeOfKey};

use crate::kernel::KernelName;
use crate::key::Key;
use crate::stages::Stages;
use kinds::Kind;
use pairs::{Cascade, Kernel, Stage};

impl Key {
    // The stages that work for the kind K: none if K has another number of roots than the key.
    fn stages_for<K: Kind>(&self) -> Stages
        ensures stages { result ≡ stages_for K.Kind.polar.count self.now }
        ensures sound { IsSound self.now }
    {
        if self.roots == K::root_count() {
            self.stages
        } else {
            Stages::new()
        }
    }

    // Both clauses are those of the constructor that is picked.
    fn kernel_for<K: Kind>(&self) -> Kernel<K>
        ensures codes { kernel_codes K.Kind result ≡ kernel_of K.Kind.ring self.now.kernel }
        ensures lists { kernel_pending K.Kind result ≡ silent K.Kind.ring }
    {
        match self.kernel {
            KernelName::Unit => Kernel::unit(),
            KernelName::Ten => Kernel::ten(),
        }
    }

    // The stages of this key over its kernel. No loop: with each stage the cascade is of another type.
    fn stages_over<K: Kind>(&self, kernel: Kernel<K>) -> Cascade<K>
        requires { (kernel_codes K.Kind kernel ≡ kernel_of K.Kind.ring self.now.kernel) × (kernel_pending K.Kind kernel ≡ silent K.Kind.ring) }
        ensures { CascadeOfKey K.Kind self.now (cascade_codes K.Kind result) (cascade_pending K.Kind result) }
    {
        let [a, b, c, d, e, f, g] = self.stages_for::<K>().places();
        let one = Stage::new(kernel, a.delay, a.code);
        let two = Stage::new(one, b.delay, b.code);
        let three = Stage::new(two, c.delay, c.code);
        let four = Stage::new(three, d.delay, d.code);
        let five = Stage::new(four, e.delay, e.code);
        let six = Stage::new(five, f.delay, f.code);
        Stage::new(six, g.delay, g.code)
    }

    // The cascade of this key for the kind K, with nothing pending. Its codes are those of the recursion;
    // each entry is one root, the span is the kernel times 2^n for the n stages that work, the energy twice the span.
    pub fn cascade<K: Kind>(&self) -> Cascade<K>
        ensures { CascadeOfKey K.Kind self.now (cascade_codes K.Kind result) (cascade_pending K.Kind result) }
    {
        self.stages_over(self.kernel_for())
    }
}
