// Sample kinds: what a sample is, what can be done with it, and the laws that hold of every kind.
#![tactic(auto)]

ghost use Rattle.std.specs.Prelude.{◌≡◌, ℕ, if◌then◌else◌, Some, None, nat_lt};
ghost use Rattle.kinds.specs.Samples.{RingOps, WordOps, PolarOps, RingLaws, ConjugationLaws, WordLaws, SampleLaws, RootLaws, MagnitudeLaws};

pub mod hall;
pub mod hall_kind;
mod kind_name;
pub mod radio;
pub mod radio_kind;
mod word;

pub use kind_name::{KindName, UnknownKind};

// A kind of samples. All arithmetic is on signed 64-bit words modulo 2^64, so it has an answer for every sample.
pub trait Kind: Copy {
    // The number of roots of one: even, from 2 to 64.
    const ROOTS: u8;

    // The same number in clauses.
    ghost ROOTS: { ℕ };

    // Zero, one, sum, difference, product and conjugate.
    ghost ring: { RingOps Self };

    // The two words of a sample, and the sample of two words.
    ghost encoding: { WordOps Self };

    // The number of roots, the roots by their codes, and the magnitude.
    ghost polar: { PolarOps Self };

    fn zero() -> Self
        ensures { result ≡ ring.zero };

    fn one() -> Self
        ensures { result ≡ ring.one };

    fn sum(self, other: Self) -> Self
        ensures { result ≡ ring.add self other };

    fn difference(self, other: Self) -> Self
        ensures { result ≡ ring.sub self other };

    fn product(self, other: Self) -> Self
        ensures { result ≡ ring.mul self other };

    fn conjugate(self) -> Self
        ensures { result ≡ ring.conj self };

    fn words(self) -> (i64, i64)
        ensures { result ≡ (encoding.first self, encoding.second self) };

    // The sample of two words; `None` exactly if they are no sample's words.
    // Two parameters and no struct of two words: each kind would take it apart at once.
    fn from_words(first: i64, second: i64) -> Option<Self>
        ensures { result ≡ encoding.sample first second };

    // `ROOTS`, as a call that promises what it means.
    fn root_count() -> u8
        ensures { result ≡ polar.count }
    {
        Self::ROOTS
    }

    // The root of a code; `None` exactly if the code is not below the number of roots.
    fn root(code: u8) -> Option<Self>
        ensures { result ≡ (if nat_lt code polar.count then Some (polar.root code) else None) };

    fn magnitude(self) -> u64
        ensures { result ≡ polar.magnitude self };

    // `ROOTS` is the number of roots.
    ghost counted: { ROOTS ≡ polar.count };

    // The samples are a commutative ring.
    ghost algebra: { RingLaws ring };

    // The conjugate passes through sums and products; twice conjugated is the sample itself.
    ghost conjugation: { ConjugationLaws ring };

    // Sums and differences go word by word; the words of zero and one.
    ghost wordwise: { WordLaws ring encoding };

    // The words of a sample give it back; two words give no sample exactly if they are no sample's words.
    ghost encodes: { SampleLaws encoding };

    // The number of roots, and how roots multiply and conjugate.
    ghost unity: { RootLaws ring polar };

    // The bounds of the magnitude, and what leaves it as it is.
    ghost magnitudes: { MagnitudeLaws ring encoding polar };
}
