// The tests that a key has to pass, in their order.
ghost use Rattle.std.specs.Prelude.{◌≡◌, ◌<◌, ◌≤◌, true, Decides};
ghost use Rattle.delays.specs.Sets.{contains, is_set, InSomeOrder};
ghost use Rattle.keys.specs.KernelNames.{number_of};
ghost use Rattle.keys.specs.Judged.{delays_of, first_wrong, kernel_judged, count_judged, judged};

use crate::kernel::KernelName;
use crate::refusal::KeyRefusal;
use crate::stage::KeyStage;

// The kernel is 1 or 10.
pub fn check_kernel(kernel: u8) -> Result<(), KeyRefusal>
    ensures { result ≡ kernel_judged kernel }
{
    KernelName::try_from(kernel)?;
    Ok(())
}

// The kernel is 1 or 10, and allows this number of stages.
pub fn check_stage_count(kernel: u8, stages: usize) -> Result<(), KeyRefusal>
    ensures { result ≡ count_judged kernel stages }
{
    KernelName::try_from(kernel)?.check_count(stages)
}

// Whether a delay is among those of the stages.
fn has_delay(stages: &[KeyStage], wanted: u16) -> bool
    ensures value { result ≡ contains wanted (delays_of stages.now) }
    ensures small { result ≡ true → wanted < 256 }
{
    stages.iter().any(|stage| u16::from(stage.delay) == wanted)
}

// Whether the delays are `least` times 1, 2, 4 .. in some order: one product for each stage.
fn are_doublings(least: u16, stages: &[KeyStage]) -> bool
    requires { least < 256 }
    ensures value { result ≡ is_set least (delays_of stages.now) }
    ensures order { 1 ≤ least → Decides result (InSomeOrder least (delays_of stages.now)) }
{
    // By hand: that a product fits is known from the one before, which was found among the delays; no chain says so.
    let mut wanted = least;
    for _stage in stages {
        if !has_delay(stages, wanted) {
            return false;
        }
        wanted = 2 * wanted;
    }
    true
}

// Whether the delays are the kernel times 1, 2, 4 .. in some order.
pub fn delays_fit(kernel: u8, stages: &[KeyStage]) -> bool
    ensures value { result ≡ is_set kernel (delays_of stages.now) }
    ensures order { 1 ≤ kernel → Decides result (InSomeOrder kernel (delays_of stages.now)) }
{
    are_doublings(u16::from(kernel), stages)
}

// The first stage whose weight code is not below the number of roots.
fn wrong_code(roots: u8, stages: &[KeyStage]) -> Option<usize>
    ensures { result ≡ first_wrong roots 0 stages.now }
{
    stages.iter().position(|stage| stage.code >= roots)
}

// The tests of the stages over a kernel.
pub(crate) fn check_stages(
    kernel: KernelName,
    roots: u8,
    stages: &[KeyStage],
) -> Result<(), KeyRefusal>
    ensures { result ≡ judged roots (number_of kernel) stages.now }
{
    kernel.check_count(stages.len())?;
    if !delays_fit(kernel.number(), stages) {
        return Err(KeyRefusal::Delays);
    }
    match wrong_code(roots, stages) {
        Some(stage) => Err(KeyRefusal::WeightCode { stage }),
        None => Ok(()),
    }
}
