ghost use Rattle.std.specs.Prelude.{◌≡◌};
ghost use Rattle.keys.specs.Judged.{most_stages, count_judged};
ghost use Rattle.keys.specs.KernelNames.{number_of};

use crate::refusal::KeyRefusal;

// The kernel of a key. Its number is that of its entries.
#[derive(Clone, Copy, PartialEq, Eq, Debug)]
pub(crate) enum KernelName {
    Unit,
    Ten,
}

impl KernelName {
    // A name and no From, which would not say which number it is.
    pub(crate) fn number(self) -> u8
        ensures { result ≡ number_of self }
    {
        match self {
            KernelName::Unit => 1,
            KernelName::Ten => 10,
        }
    }

    // How many stages it allows.
    fn most_stages(self) -> usize
        ensures { result ≡ most_stages (number_of self) }
    {
        match self {
            KernelName::Unit => 7,
            KernelName::Ten => 4,
        }
    }

    pub(crate) fn check_count(self, stages: usize) -> Result<(), KeyRefusal>
        ensures { result ≡ count_judged (number_of self) stages }
    {
        if stages > self.most_stages() {
            return Err(KeyRefusal::StageCount);
        }
        Ok(())
    }
}

impl TryFrom<u8> for KernelName {
    type Error = KeyRefusal;

    ghost use Rattle.keys.specs.KernelNames.{Decodes};

    ghost try_from_gives = { Decodes };

    fn try_from(number: u8) -> Result<Self, KeyRefusal> {
        match number {
            1 => Ok(KernelName::Unit),
            10 => Ok(KernelName::Ten),
            _ => Err(KeyRefusal::Kernel),
        }
    }
}
