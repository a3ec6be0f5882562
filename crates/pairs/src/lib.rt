// Pairs of complementary codes as correlators: the trait, the kernels, and stages over any pair.
#![tactic(auto)]

ghost use Rattle.std.specs.Prelude.{◌≡◌, ℕ, ◌^◌, ◌≤◌, if◌then◌else◌, Some, None, nat_lt};
ghost use Rattle.sums.specs.declared.Side.{Side};
ghost use Rattle.sums.specs.Codes.{codes_at, PairLaws, answer, pushed, silent};

use kinds::Kind;
use sums::Side;

mod cascade;
mod kernel;
mod stage;
mod ten;
mod unit;

pub use cascade::Cascade;
pub use kernel::Kernel;
pub use stage::Stage;
pub use ten::TenKernel;
pub use unit::UnitKernel;

// Two complementary codes A and B of one span, correlated with the samples that are pushed. No call refuses.
// Codes and lists are functions of the place, zero outside.
pub trait Pair {
    type Sample: Kind;

    // How many entries each code has.
    ghost span: { Self → ℕ };

    // What both codes correlated with themselves add up to.
    ghost energy: { Self → ℕ };

    // The entries: `code s A` is the code A, `code s B` the code B.
    ghost code: { Self → Side → ℕ → Self.Sample };

    // Of how many roots each entry is the sum.
    ghost counts: { Self → Side → ℕ → ℕ };

    // The sums still to come out: `pending s A` is the list P of code A, `pending s B` the list Q of code B.
    ghost pending: { Self → Side → ℕ → Self.Sample };

    // The span and the energy together.
    fn size(&self) -> (usize, u32)
        ensures { result ≡ (span self.now, energy self.now) };

    fn span(&self) -> usize
        ensures value { result ≡ span self.now }
        ensures bounds { (1 ≤ result) × (result ≤ 4096) }
    {
        self.size().0
    }

    fn energy(&self) -> u32
        ensures value { result ≡ energy self.now }
        ensures bounds { (1 ≤ result) × (result ≤ 2 ^ 20) }
    {
        self.size().1
    }

    // Entry k of a code: absent exactly if k is not below the span.
    // Side and place are two parameters, as in A[k]: a struct of both would be written out at each call.
    fn entry(&self, side: Side, k: usize) -> Option<Self::Sample>
        ensures { result ≡ (if nat_lt k (span self.now) then Some (code self.now side k) else None) };

    // Entry k of a code, zero past its end.
    fn entry_or_zero(&self, side: Side, k: usize) -> Self::Sample
        ensures { result ≡ code self.now side k }
    {
        self.entry(side, k).unwrap_or(Self::Sample::zero())
    }

    // Takes in a sample, and answers the two sums that come out.
    fn push(&mut self, x: Self::Sample) -> (Self::Sample, Self::Sample)
        ensures sums { result ≡ answer Self.Sample.Kind.ring (codes_at span energy code counts self.old) (pending self.old) x }
        ensures lists { pending self.new ≡ pushed Self.Sample.Kind.ring (codes_at span energy code counts self.old) (pending self.old) x }
        ensures same { codes_at span energy code counts self.new ≡ codes_at span energy code counts self.old };

    // Drops what is pending.
    fn clear(&mut self)
        ensures lists { pending self.new ≡ silent Self.Sample.Kind.ring }
        ensures same { codes_at span energy code counts self.new ≡ codes_at span energy code counts self.old };

    // The bounds of span and energy, that the codes are complementary sums of roots, and that nothing stands past their ends.
    ghost laws: { (s : Self) → PairLaws Self.Sample.Kind.ring Self.Sample.Kind.polar (codes_at span energy code counts s) (pending s) };
}
