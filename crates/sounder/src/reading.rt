// What a sounder tells and does not change: entries, sums and taps.
ghost use Rattle.std.specs.Prelude.{◌≡◌, ◌+◌, ◌*◌, ◌/◌, ◌≤◌, unsigned_abs};
ghost use Rattle.sums.specs.Rooms.{rounded};
ghost use Rattle.calls.specs.Answers.{worded};
ghost use Rattle.sounder.specs.States.{state_of, sum_read, says};

use crate::state::Sounder;
use calls::{Call, Refusal};
use kinds::Kind;
use pairs::Pair;
use sums::Side;

// m divided by e, rounded to the nearest, halves up.
// Each divisor here is an energy, of which the laws of a pair say that it is at least 1: no NonZeroU32 has to be made of it.
fn nearest(m: u64, e: u32) -> u128
    requires { 1 ≤ e }
    ensures { result ≡ (2 * m + e) / (2 * e) }
{
    let e = u64::from(e);
    // in 64 bits: a division of 128 takes several times as long
    let (whole, rest) = (u128::from(m / e), m % e);
    if 2 * rest >= e { whole + 1 } else { whole }
}

// The absolute value of z divided by e, rounded to the nearest, halves up.
fn nearest_magnitude(z: i64, e: u32) -> u128
    requires { 1 ≤ e }
    ensures { result ≡ (2 * unsigned_abs z + e) / (2 * e) }
{
    nearest(z.unsigned_abs(), e)
}

// z divided by e, rounded to the nearest, halves away from zero.
fn divided(z: i64, e: u32) -> i64
    requires { 1 ≤ e }
    ensures { result ≡ rounded z e }
{
    // Casts, each proved to keep the number: try_from would add an error that never comes.
    let q = nearest_magnitude(z, e) as i128;
    if z < 0 { -q as i64 } else { q as i64 }
}

impl<P: Pair> Sounder<P> {
    // The words of entry `index` of code A (side 0) or B (side 1).
    pub fn code(&self, side: u8, index: usize) -> Result<(i64, i64), Refusal>
        ensures { worded result ≡ says P.Sample.Kind (Call.Code side index) (state_of P.Sample.Kind P.Pair self.now) }
    {
        let side = Side::try_from(side).map_err(|_| Refusal::Index(index))?;
        let x = self.pair.entry(side, index).ok_or(Refusal::Index(index))?;
        Ok(x.words())
    }

    // A sum, if there is one to be read.
    fn sum_at(&self, index: usize) -> Result<P::Sample, Refusal>
        ensures { result ≡ sum_read (state_of P.Sample.Kind P.Pair self.now) index }
    {
        self.allow(self.phase.may_read())?;
        if index >= self.room {
            return Err(Refusal::Index(index));
        }
        Ok(self.sums.sample(index))
    }

    // The words of a sum.
    pub fn sum(&self, index: usize) -> Result<(i64, i64), Refusal>
        ensures { worded result ≡ says P.Sample.Kind (Call.Sum index) (state_of P.Sample.Kind P.Pair self.now) }
    {
        let x = self.sum_at(index)?;
        Ok(x.words())
    }

    // Each word of a sum divided by the energy, rounded to the nearest, halves away from zero.
    pub fn tap(&self, index: usize) -> Result<(i64, i64), Refusal>
        ensures { worded result ≡ says P.Sample.Kind (Call.Tap index) (state_of P.Sample.Kind P.Pair self.now) }
    {
        let (first, second) = self.sum_at(index)?.words();
        let energy = self.pair.energy();
        Ok((divided(first, energy), divided(second, energy)))
    }
}
