// A whole sounding over a pair: its records are read and given to a sounder, and its taps are gathered.
ghost use Rattle.std.specs.Prelude.{◌≡◌, ◌+◌, ◌*◌, ◌^◌, ◌<◌, ◌≤◌, length, OnOk, map, ◌++◌, drop};
ghost use Rattle.kinds.specs.KindNames.{width};
ghost use Rattle.files.specs.Samples.{number_in, sample_in, samples_in};
ghost use Rattle.calls.specs.Answers.{done};
ghost use Rattle.sounder.specs.States.{state_of, Does, says};
ghost use Rattle.layout.specs.Tests.{first_refusal, unless, Decided};
ghost use Rattle.files.specs.Soundings.{sample_calls, words_in, record_calls};
ghost use Rattle.files.specs.Order.{sounder_says, sample_tests, record_tests};
ghost use Rattle.files.specs.States.{led, Ready, Took, Begun, Sounded};
ghost use Rattle.std.specs.List.{range_with_len};
ghost use Rattle.pairs.specs.Pairs.{codes_of};

use arrayvec::ArrayVec;
use calls::{Call, Phase, Refusal};
use kinds::KindName;
use layout::FileRefusal;
use pairs::Pair;
use reports::report_length;
use sounder::Sounder;

// The bytes of a record of `count` samples, which begins at byte `from` of the file. More may follow behind it, as the
// second record does behind the first: the definitions read samples by their places.
#[derive(Clone, Copy)]
pub(crate) struct Record<'a> {
    pub kind: KindName,
    pub bytes: &'a [u8],
    pub count: usize,
    pub from: usize,
    ghost full: { width kind * count ≤ length bytes.now },
    ghost placed: { from + width kind * count < 2 ^ 64 },
}

// The signed number in the two bytes from byte i on.
fn number_at(bytes: &[u8], i: usize) -> i64
    requires { i + 2 ≤ length bytes.now }
    ensures { result ≡ number_in bytes.now i }
{
    i64::from(i16::from_be_bytes([bytes[i], bytes[i + 1]]))
}

impl Record<'_> {
    // The two words of sample t.
    fn sample(&self, t: usize) -> (i64, i64)
        requires { t < self.now.count }
        ensures { result ≡ sample_in self.now.kind self.now.bytes.now t }
    {
        let i = self.kind.width() * t;
        match self.kind {
            KindName::Hall => (number_at(self.bytes, i), 0),
            KindName::Radio => (number_at(self.bytes, i), number_at(self.bytes, i + 2)),
        }
    }

    // The byte of the file where sample t begins.
    fn byte(&self, t: usize) -> usize
        requires { t ≤ self.now.count }
        ensures { result ≡ self.now.from + width self.now.kind * t }
    {
        self.from + self.kind.width() * t
    }
}

// What a sounder answers to a call that comes from the field at this byte, as the file's answer.
fn at_byte(answer: Result<(), Refusal>, byte: usize) -> Result<(), FileRefusal>
    ensures { result ≡ unless (first_refusal (sounder_says byte (done answer))) tt }
{
    answer.map_err(|refusal| FileRefusal::Sounder { refusal, byte })
}

// Gives one sample to a sounder, by its two words.
fn give<P: Pair>(sounder: &mut Sounder<P>, words: (i64, i64)) -> Result<(), Refusal>
    ensures { Does P.Sample.Kind P.Pair (Call.Sample words.0 words.1) sounder.old sounder.new (done result) }
{
    sounder.sample(words.0, words.1)
}

// Gives the samples of a record, in order, to a sounder that takes one.
fn feed<P: Pair>(sounder: &mut Sounder<P>, samples: Record<'_>) -> Result<(), FileRefusal>
    requires { Ready P.Sample.Kind samples.count (state_of P.Sample.Kind P.Pair sounder.old) }
    ensures value { result ≡ unless (first_refusal (sample_tests P.Sample.Kind (state_of P.Sample.Kind P.Pair sounder.old).codes samples.entry.kind samples.entry.from (samples_in samples.entry.kind samples.entry.bytes.now samples.entry.count))) tt }
    ensures state { OnOk result (state_of P.Sample.Kind P.Pair sounder.new ≡ led P.Sample.Kind (sample_calls (samples_in samples.entry.kind samples.entry.bytes.now samples.entry.count)) (state_of P.Sample.Kind P.Pair sounder.old)) }
    ensures taken { OnOk result (Took samples.entry.count (state_of P.Sample.Kind P.Pair sounder.old) (state_of P.Sample.Kind P.Pair sounder.new)) }
{
    // by number: it gives both the sample and the byte that a refusal names
    for t in 0..samples.count {
        let answer = give(sounder, samples.sample(t));
        at_byte(answer, samples.byte(t))?;
    }
    Ok(())
}

// The two words of a tap, zeros where the sounder refuses it.
fn tap_words<P: Pair>(sounder: &Sounder<P>, index: usize) -> (i64, i64)
    ensures { result ≡ words_in (says P.Sample.Kind (Call.Tap index) (state_of P.Sample.Kind P.Pair sounder.now)) }
{
    sounder.tap(index).unwrap_or((0, 0))
}

// The taps below the room length.
fn gather<P: Pair>(sounder: &Sounder<P>, room: usize) -> ArrayVec<(i64, i64), 256>
    requires { room ≤ 256 }
    ensures { result.items ≡ map (λ i. words_in (says P.Sample.Kind (Call.Tap i) (state_of P.Sample.Kind P.Pair sounder.now))) (range_with_len 0 room) }
{
    let mut taps = ArrayVec::new();
    // By number: a sounder answers each tap by its index, and holds no list of them. `push` and no `collect`,
    // which would add an error that never comes.
    for index in 0..room {
        taps.push(tap_words(sounder, index));
    }
    taps
}

// A sounding file that was read: what it says beside its key, and its length. It holds the fields and no `Sounding`:
// the check has no rule yet for a struct that is passed on with both a reference and a key in it.
#[derive(Clone, Copy)]
pub(crate) struct SoundingFile<'a> {
    pub kind: KindName,
    pub room: usize,
    pub room_byte: usize,
    pub records: &'a [u8],
    pub size: usize,
    ghost sized: { room_byte + 2 + length records.now ≡ size },
}

// What follows the first record.
fn behind_first(records: &[u8], size: usize) -> &[u8]
    requires { size ≤ length records.now }
    ensures { result.now ≡ drop size records.now }
{
    records.split_at(size).1
}

// Gives both records to a sounder whose first record is begun: the first, and the one of as many samples behind it.
fn take_records<P: Pair>(sounder: &mut Sounder<P>, first: Record<'_>) -> Result<(), FileRefusal>
    requires { (Begun P.Sample.Kind first.count (state_of P.Sample.Kind P.Pair sounder.old)) × ((length first.bytes.now ≡ 2 * (width first.kind * first.count)) × (first.from + length first.bytes.now < 2 ^ 64)) }
    ensures value { result ≡ unless (first_refusal (sample_tests P.Sample.Kind (state_of P.Sample.Kind P.Pair sounder.old).codes first.entry.kind first.entry.from (samples_in first.entry.kind first.entry.bytes.now first.entry.count) ++ sample_tests P.Sample.Kind (state_of P.Sample.Kind P.Pair sounder.old).codes first.entry.kind (first.entry.from + width first.entry.kind * first.entry.count) (samples_in first.entry.kind (drop (width first.entry.kind * first.entry.count) first.entry.bytes.now) first.entry.count))) tt }
    ensures state { OnOk result (state_of P.Sample.Kind P.Pair sounder.new ≡ led P.Sample.Kind (record_calls (samples_in first.entry.kind first.entry.bytes.now first.entry.count) (samples_in first.entry.kind (drop (width first.entry.kind * first.entry.count) first.entry.bytes.now) first.entry.count)) (state_of P.Sample.Kind P.Pair sounder.old)) }
    ensures ended { OnOk result (((state_of P.Sample.Kind P.Pair sounder.new).phase ≡ Phase.Complete) × ((state_of P.Sample.Kind P.Pair sounder.new).room ≡ (state_of P.Sample.Kind P.Pair sounder.old).room)) }
{
    let size = first.kind.width() * first.count;
    let second = Record {
        kind: first.kind,
        bytes: behind_first(first.bytes, size),
        count: first.count,
        from: first.from + size,
    };
    feed(sounder, first)?;
    at_byte(sounder.turn(), second.from)?;
    feed(sounder, second)?;
    at_byte(sounder.close(), second.from + size)
}

// Sounds the records of a file over a new pair, and gathers the taps. `space` is the length of the report's buffer.
pub(crate) fn sound<P: Pair + Drop>(
    pair: P,
    file: SoundingFile<'_>,
    space: usize,
) -> Result<ArrayVec<(i64, i64), 256>, FileRefusal>
    ensures { Decided (record_tests P.Sample.Kind (codes_of P.Pair pair) file.entry.kind file.entry.room file.entry.records.now file.entry.room_byte file.entry.size space) result (λ t. Sounded P.Sample.Kind (codes_of P.Pair pair) file.entry.kind file.entry.room file.entry.records.now space t.items) }
{
    let SoundingFile {
        kind,
        room,
        room_byte: at,
        records: bytes,
        size,
    } = file;
    let span = pair.span();
    let mut sounder = Sounder::new(pair);
    at_byte(sounder.open(room), at)?;
    let count = span + room - 1;
    if bytes.len() != 2 * (kind.width() * count) {
        return Err(FileRefusal::Length { byte: at + 2 });
    }
    // the cast keeps a room length that was opened: at most 256
    if space < report_length(kind, room as u16) {
        return Err(FileRefusal::Buffer { byte: size });
    }
    let first = Record {
        kind,
        bytes,
        count,
        from: at + 2,
    };
    take_records(&mut sounder, first)?;
    Ok(gather(&sounder, room))
}
