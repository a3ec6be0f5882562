// What a key holds.
ghost use Rattle.std.specs.Prelude.{◌≡◌, length};
ghost use Rattle.keys.specs.Plans.{stage_at};

use crate::key::Key;
use crate::stage::KeyStage;

impl Key {
    pub fn kernel(&self) -> u8
        ensures { result ≡ self.now.kernel }
    {
        self.kernel.number()
    }

    // The number of roots that the key was filled for.
    pub fn roots(&self) -> u8
        ensures { result ≡ self.now.roots }
    {
        self.roots
    }

    pub fn stage_count(&self) -> usize
        ensures { result ≡ length self.now.stages }
    {
        self.stages.as_slice().len()
    }

    // Stage i, of which the first is the lowest; absent past the last.
    pub fn stage(&self, i: usize) -> Option<KeyStage>
        ensures { result ≡ stage_at self.now.stages i }
    {
        self.stages.as_slice().get(i).copied()
    }
}
