ghost use Rattle.std.specs.Prelude.{◌≡◌, ℕ, refl};
ghost use Rattle.sums.specs.Sums.{late};
ghost use Rattle.golay.specs.Stages.{weight_of, stage_codes, stage_pending};
ghost use Rattle.golay.proofs.StageLaws.{stage_laws};
ghost use Rattle.pairs.specs.Pairs.{codes_of, size_of};
ghost use Rattle.tables.specs.Tables.{words, zeros};

use crate::Pair;
use kinds::Kind;
use sums::Side;
use tables::DelayLine;

// A stage over a pair: with w the root of its weight code, A' = w A + B and B' = w A - B, B begun `delay` places late.
// It rests, and means what the pair below means, if its delay is 0 or above 128, if its code is no root's,
// or if the pair below has an energy above 2^19 or a span above 3,968.
#[derive(Drop)]
pub struct Stage<P: Pair> {
    below: P,
    delay: u8,
    code: u8,
    // The weight, none where the stage rests, and the size: worked out once, as the codes of the pair below stay.
    weight: Option<P::Sample>,
    size: (usize, u32),
    line: DelayLine<P::Sample>,
    ghost weighed: { weight ≡ weight_of P.Sample.Kind.polar delay code (codes_of P.Pair below) },
    ghost sized: { size ≡ size_of (stage_codes P.Sample.Kind.ring (weight_of P.Sample.Kind.polar delay code (codes_of P.Pair below)) delay (codes_of P.Pair below)) },
}

// Entry k of a code that begins `delay` places late.
fn late_entry<P: Pair>(pair: &P, side: Side, delay: usize, k: usize) -> P::Sample
    ensures { result ≡ late P.Sample.Kind.ring.zero delay (P.Pair.code pair.now side) k }
{
    if k < delay {
        P::Sample::zero()
    } else {
        pair.entry_or_zero(side, k - delay)
    }
}

// With u = conj(w) times the oldest kept value: u + q and u - q.
fn combined<K: Kind>(w: K, oldest: K, q: K) -> (K, K)
    ensures { result ≡ (K.Kind.ring.add (K.Kind.ring.mul (K.Kind.ring.conj w) oldest) q, K.Kind.ring.sub (K.Kind.ring.mul (K.Kind.ring.conj w) oldest) q) }
{
    let u = w.conjugate().product(oldest);
    (u.sum(q), u.difference(q))
}

// The root of a weight code, none where a stage of this delay rests over the pair.
fn weight_over<P: Pair>(below: &P, delay: u8, code: u8) -> Option<P::Sample>
    ensures { result ≡ weight_of P.Sample.Kind.polar delay code (codes_of P.Pair below.now) }
{
    let (span, energy) = below.size();
    if (1..=128).contains(&delay) && energy <= 1 << 19 && span <= 3968 {
        P::Sample::root(code)
    } else {
        None
    }
}

// The size of a stage of this weight over the pair.
fn size_over<P: Pair>(below: &P, delay: u8, weight: Option<P::Sample>) -> (usize, u32)
    requires { (code : ℕ) × (weight ≡ weight_of P.Sample.Kind.polar delay code (codes_of P.Pair below.now)) }
    ensures { result ≡ size_of (stage_codes P.Sample.Kind.ring weight delay (codes_of P.Pair below.now)) }
{
    let (span, energy) = below.size();
    match weight {
        None => (span, energy),
        Some(_) => (span + usize::from(delay), 2 * energy),
    }
}

impl<P: Pair> Stage<P> {
    ghost use Rattle.pairs.specs.Stages.{codes_in, pending_in};

    // A stage over a line that keeps zeros.
    fn with_line(below: P, delay: u8, code: u8, line: DelayLine<P::Sample>) -> Self
        requires { words line.table ≡ zeros 128 }
        ensures codes { codes_in P.Sample.Kind P.Pair result ≡ stage_codes P.Sample.Kind.ring (weight_of P.Sample.Kind.polar delay code (codes_of P.Pair below)) delay (codes_of P.Pair below) }
        ensures lists { pending_in P.Sample.Kind P.Pair result ≡ stage_pending P.Sample.Kind.ring (weight_of P.Sample.Kind.polar delay code (codes_of P.Pair below)) delay (λ j. P.Sample.Kind.ring.zero) (P.Pair.pending below) }
    {
        let weight = weight_over(&below, delay, code);
        let size = size_over(&below, delay, weight);
        Stage {
            below,
            delay,
            code,
            weight,
            size,
            line,
        }
    }

    // A new stage keeps zeros. Delay and code are two numbers: `Stage::new(below, 1, 0)` is plainer than with a struct written out.
    pub fn new(below: P, delay: u8, code: u8) -> Self
        ensures codes { codes_in P.Sample.Kind P.Pair result ≡ stage_codes P.Sample.Kind.ring (weight_of P.Sample.Kind.polar delay code (codes_of P.Pair below)) delay (codes_of P.Pair below) }
        ensures lists { pending_in P.Sample.Kind P.Pair result ≡ stage_pending P.Sample.Kind.ring (weight_of P.Sample.Kind.polar delay code (codes_of P.Pair below)) delay (λ j. P.Sample.Kind.ring.zero) (P.Pair.pending below) }
    {
        Stage::with_line(below, delay, code, DelayLine::new())
    }
}

impl<P: Pair> Pair for Stage<P> {
    ghost use Rattle.pairs.specs.Stages.{codes_in, pending_in};

    type Sample = P::Sample;

    ghost span = { λ s. (codes_in P.Sample.Kind P.Pair s).span };

    ghost energy = { λ s. (codes_in P.Sample.Kind P.Pair s).energy };

    ghost code = { λ s. (codes_in P.Sample.Kind P.Pair s).entry };

    ghost counts = { λ s. (codes_in P.Sample.Kind P.Pair s).counts };

    ghost pending = { pending_in P.Sample.Kind P.Pair };

    ghost laws = { λ s. stage_laws P.Sample.Kind.algebra P.Sample.Kind.conjugation P.Sample.Kind.unity s.delay s.code _ _ _ (P.Pair.laws s.below) _ refl };

    fn size(&self) -> (usize, u32) {
        self.size
    }

    fn entry(&self, side: Side, k: usize) -> Option<P::Sample> {
        let Some(w) = self.weight else {
            return self.below.entry(side, k);
        };
        let delay = usize::from(self.delay);
        if k >= self.below.span() + delay {
            return None;
        }
        let early = w.product(self.below.entry_or_zero(Side::A, k));
        let late = late_entry(&self.below, Side::B, delay, k);
        match side {
            Side::A => Some(early.sum(late)),
            Side::B => Some(early.difference(late)),
        }
    }

    // Inlined, so that the sums of a stage reach the next one in registers and not through memory.
    #[inline(always)]
    fn push(&mut self, x: P::Sample) -> (P::Sample, P::Sample) {
        let (p, q) = self.below.push(x);
        let Some(w) = self.weight else {
            return (p, q);
        };
        let oldest = self.line.exchange(self.delay, p);
        combined(w, oldest, q)
    }

    fn clear(&mut self) {
        self.below.clear();
        self.line.clear();
    }
}
