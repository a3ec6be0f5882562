ghost use Rattle.std.specs.Prelude.{◌≡◌, ◌+◌, ◌-◌, ◌<◌, ◌≤◌, IfOk, if◌then◌else◌, Some, None, Ok, Err, ◌==◌, nat_lt};
ghost use Rattle.calls.specs.declared.refusal.Refusal.TheVariants.{WrongPhase, RecordNotFull};
ghost use Rattle.sums.specs.Codes.{PairLaws, arriving, pushed};
ghost use Rattle.pairs.specs.Pairs.{codes_of};
ghost use Rattle.tables.specs.Tables.{words, sample_of};
ghost use Rattle.calls.specs.Answers.{done, full};
ghost use Rattle.sounder.specs.States.{state, state_of, fresh, playing, gathered, took, moved, says, Does};

use crate::state::Sounder;
use calls::{Answer, Call, Phase, Refusal};
use kinds::Kind;
use pairs::Pair;
use tables::WordTable;

// The index of the sum that comes out with sample `count` of a record, if one does.
fn sum_index(span: usize, count: usize) -> Option<usize>
    requires { (span ≤ 4096) × (count < 4352) }
    ensures { result ≡ (if nat_lt (count + 1) span then None else Some (count + 1 - span)) }
{
    (count + 1).checked_sub(span)
}

// Adds y to the sum that comes out with sample `count` of a record, if one does.
fn gather<K: Kind>(table: &mut WordTable<256>, span: usize, count: usize, y: K)
    requires { (1 ≤ span) × ((span ≤ 4096) × (count < span + 255)) }
    ensures { (λ i. sample_of K.Kind.ring K.Kind.encoding (words table.new i)) ≡ gathered K.Kind span count y (λ i. sample_of K.Kind.ring K.Kind.encoding (words table.old i)) }
{
    let Some(i) = sum_index(span, count) else {
        return;
    };
    let old: K = table.sample(i);
    table.put(i, old.sum(y).words());
}

// Pushes a sample, and answers what comes out for the code that plays.
fn push_playing<P: Pair>(pair: &mut P, phase: Phase, x: P::Sample) -> P::Sample
    ensures out { result ≡ arriving P.Sample.Kind.ring (codes_of P.Pair pair.old) (P.Pair.pending pair.old) x (playing phase) 0 }
    ensures lists { P.Pair.pending pair.new ≡ pushed P.Sample.Kind.ring (codes_of P.Pair pair.old) (P.Pair.pending pair.old) x }
    ensures same { codes_of P.Pair pair.new ≡ codes_of P.Pair pair.old }
{
    let (p, q) = pair.push(x);
    match phase {
        Phase::SecondRecord => q,
        _ => p,
    }
}

impl<P: Pair> Sounder<P> {
    fn in_phase(pair: P, phase: Phase) -> Sounder<P>
        ensures value { state_of P.Sample.Kind P.Pair result ≡ state (codes_of P.Pair pair) (P.Pair.pending pair) phase 0 0 (λ i. P.Sample.Kind.ring.zero) }
        ensures laws { PairLaws P.Sample.Kind.ring P.Sample.Kind.polar (codes_of P.Pair pair) (P.Pair.pending pair) }
    {
        Sounder {
            pair,
            sums: WordTable::new(),
            phase,
            room: 0,
            count: 0,
        }
    }

    // A new sounder over a pair: idle, room length and sums zero.
    pub fn new(pair: P) -> Sounder<P>
        ensures value { state_of P.Sample.Kind P.Pair result ≡ fresh P.Sample.Kind P.Pair pair }
        ensures laws { PairLaws P.Sample.Kind.ring P.Sample.Kind.polar (codes_of P.Pair pair) (P.Pair.pending pair) }
    {
        Sounder::in_phase(pair, Phase::Idle)
    }

    // Refuses a call that the phase does not allow.
    pub(crate) fn allow(&self, allowed: bool) -> Result<(), Refusal>
        ensures { result ≡ (if allowed then Ok tt else Err (WrongPhase self.now.phase)) }
    {
        if allowed {
            Ok(())
        } else {
            Err(Refusal::WrongPhase(self.phase))
        }
    }

    // How many samples a full record has.
    fn full_count(&self) -> usize
        ensures { result ≡ full P.Sample.Kind (codes_of P.Pair self.now.pair) self.now.room }
    {
        self.pair.span() + self.room - 1
    }

    // Refuses a call that ends a record while the record is not full.
    fn check_full(&self) -> Result<(), Refusal>
        ensures { result ≡ (if self.now.count == full P.Sample.Kind (codes_of P.Pair self.now.pair) self.now.room then Ok tt else Err (RecordNotFull self.now.count)) }
    {
        if self.count == self.full_count() {
            Ok(())
        } else {
            Err(Refusal::RecordNotFull(self.count))
        }
    }

    // The sample of two words, if it may be taken now.
    fn admit(&self, first: i64, second: i64) -> Result<P::Sample, Refusal>
        ensures value { done result ≡ says P.Sample.Kind (Call.Sample first second) (state_of P.Sample.Kind P.Pair self.now) }
        ensures sample { IfOk result (λ x. (Some x ≡ P.Sample.Kind.encoding.sample first second) × (self.now.count < P.Pair.span self.now.pair + self.now.room - 1)) }
    {
        self.allow(self.phase.may_sample())?;
        if self.count >= self.full_count() {
            return Err(Refusal::RecordFull(self.count));
        }
        let x = P::Sample::from_words(first, second).ok_or(Refusal::NoSample(self.count))?;
        if x.magnitude() > 32767 {
            return Err(Refusal::Magnitude(self.count));
        }
        Ok(x)
    }
}

impl<P: Pair> Sounder<P> {
    // Takes a sample that was admitted.
    fn take(&mut self, x: P::Sample)
        requires { self.old.count < P.Pair.span self.old.pair + self.old.room - 1 }
        ensures { state_of P.Sample.Kind P.Pair self.new ≡ took P.Sample.Kind x (state_of P.Sample.Kind P.Pair self.old) }
    {
        let span = self.pair.span();
        let out = push_playing(&mut self.pair, self.phase, x);
        gather(&mut self.sums, span, self.count, out);
        self.count += 1;
    }

    // Begins a first record in silence, with all sums zero.
    fn begin(&mut self, room: usize)
        requires { room ≤ 256 }
        ensures { state_of P.Sample.Kind P.Pair self.new ≡ moved P.Sample.Kind (Call.Open room) (state_of P.Sample.Kind P.Pair self.old) }
    {
        self.pair.clear();
        self.sums.clear();
        self.phase = Phase::FirstRecord;
        self.room = room;
        self.count = 0;
    }

    // Begins a sounding at this room length, from 1 to 256.
    pub fn open(&mut self, room: usize) -> Result<(), Refusal>
        ensures { Does P.Sample.Kind P.Pair (Call.Open room) self.old self.new (done result) }
    {
        self.allow(self.phase.may_open())?;
        if !(1..=256).contains(&room) {
            return Err(Refusal::RoomLength);
        }
        self.begin(room);
        Ok(())
    }

    // Takes the next sample of the record, by its two words.
    // The words stay two numbers: from_words of the kind and Call::Sample have them so, and a pair would be taken apart again.
    pub fn sample(&mut self, first: i64, second: i64) -> Result<(), Refusal>
        ensures { Does P.Sample.Kind P.Pair (Call.Sample first second) self.old self.new (done result) }
    {
        let x = self.admit(first, second)?;
        self.take(x);
        Ok(())
    }

    // Ends the first record and begins the second, in silence.
    pub fn turn(&mut self) -> Result<(), Refusal>
        ensures { Does P.Sample.Kind P.Pair Call.Turn self.old self.new (done result) }
    {
        self.allow(self.phase.may_turn())?;
        self.check_full()?;
        self.pair.clear(); // the second record begins in silence
        self.phase = Phase::SecondRecord;
        self.count = 0;
        Ok(())
    }

    // Ends the second record.
    pub fn close(&mut self) -> Result<(), Refusal>
        ensures { Does P.Sample.Kind P.Pair Call.Close self.old self.new (done result) }
    {
        self.allow(self.phase.may_close())?;
        self.check_full()?;
        self.phase = Phase::Complete;
        Ok(())
    }

    // Gives the sounding up, in any phase. It never refuses.
    pub fn abandon(&mut self) -> Result<(), Refusal>
        ensures { Does P.Sample.Kind P.Pair Call.Abandon self.old self.new (done result) }
    {
        self.phase = Phase::Idle;
        Ok(())
    }
}

impl<P: Pair> Sounder<P> {
    // Any of the calls. A call of a list is a value that is read, kept and printed, so a match and no closure picks the method.
    pub fn answer(&mut self, call: Call) -> Answer
        ensures { Does P.Sample.Kind P.Pair call self.old self.new result }
    {
        match call {
            Call::Open(room) => self.open(room).into(),
            Call::Sample(first, second) => self.sample(first, second).into(),
            Call::Turn => self.turn().into(),
            Call::Close => self.close().into(),
            Call::Abandon => self.abandon().into(),
            Call::Code(side, index) => self.code(side, index).into(),
            Call::Sum(index) => self.sum(index).into(),
            Call::Tap(index) => self.tap(index).into(),
        }
    }
}
