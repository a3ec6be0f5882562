ghost use Rattle.std.specs.Prelude.{◌≡◌, [], Ok, MatchResult};
ghost use Rattle.keys.specs.Judged.{judged};
ghost use Rattle.keys.specs.KernelNames.{number_of};
ghost use Rattle.keys.specs.Plans.{plan};

use crate::check::check_stages;
use crate::kernel::KernelName;
use crate::key::Key;
use crate::refusal::KeyRefusal;
use crate::stage::KeyStage;
use crate::stages::Stages;
use kinds::Kind;

impl Key {
    // Kernel 1, two roots, no stage.
    pub fn built_in() -> Self
        ensures { result ≡ plan 1 2 [] }
    {
        Key {
            kernel: KernelName::Unit,
            roots: 2,
            stages: Stages::new(),
        }
    }

    // The key of numbers that passed all tests.
    fn of(kernel: KernelName, roots: u8, stages: &[KeyStage]) -> Self
        requires { judged roots (number_of kernel) stages.now ≡ Ok tt }
        ensures { result ≡ plan (number_of kernel) roots stages.now }
    {
        Key {
            kernel,
            roots,
            stages: Stages::from_slice(stages),
        }
    }

    // Replaces the key whole, for the kind K, or refuses and leaves it as it is.
    // Kernel and stages are taken as they come, in words or in a file: nothing holds them together before they are judged.
    pub fn fill<K: Kind>(&mut self, kernel: u8, stages: &[KeyStage]) -> Result<(), KeyRefusal>
        ensures answer { result ≡ judged K.Kind.polar.count kernel stages.now }
        ensures key { MatchResult result (λ _. self.new ≡ plan kernel K.Kind.polar.count stages.now) (λ _. self.new ≡ self.old) }
    {
        let roots = K::root_count();
        let kernel = KernelName::try_from(kernel)?;
        check_stages(kernel, roots, stages)?;
        *self = Key::of(kernel, roots, stages);
        Ok(())
    }
}
