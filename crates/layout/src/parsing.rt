// Sounding files, read: the stages and the room length, the key, and all of it in order.
ghost use Rattle.std.specs.Prelude.{◌≡◌, ◌+◌, ◌*◌, ◌≤◌, length, ◌^◌, ◌<◌, IfErr, MatchResult};
ghost use Rattle.layout.specs.Tests.{Decided, first_refusal, unless};
ghost use Rattle.layout.specs.Order.{field_tests, key_byte, key_says, layout_tests};
ghost use Rattle.layout.specs.Read.{FieldsRead, FileRead};
ghost use Rattle.keys.specs.Judged.{count_judged, judged};
ghost use Rattle.keys.specs.Plans.{plan};
ghost use Rattle.kinds.specs.KindNames.{roots};

use crate::head::{take_head, two_bytes};
use crate::refusal::FileRefusal;
use crate::sounding::Sounding;
use arrayvec::ArrayVec;
use keys::{Key, KeyRefusal, KeyStage, check_stage_count};
use kinds::KindName;
use kinds::hall::Hall;
use kinds::radio::Radio;

// The stages and the room length.
#[derive(Drop)]
pub(crate) struct Fields<'a> {
    pub stages: ArrayVec<KeyStage, 7>,
    pub room: usize,
    // what follows the room length
    pub rest: &'a [u8],
}

// The byte of the file where the room length begins.
fn room_byte(count: usize) -> usize
    requires { count ≤ 7 }
    ensures { result ≡ 6 + 2 * count }
{
    6 + 2 * count
}

// `bytes` is what follows the number of stages: it begins at byte 6 of the file.
fn take_fields(bytes: &[u8], count: usize) -> Result<Fields<'_>, FileRefusal>
    requires { count ≤ 7 }
    ensures { Decided (field_tests (6 + length bytes.now) count) result (λ f. FieldsRead bytes.now count f) }
{
    let mut stages = ArrayVec::new();
    let mut rest = bytes;
    // by number: a missing byte is told by its place
    for i in 0..count {
        let [delay, more @ ..] = rest else {
            return Err(FileRefusal::Length { byte: 6 + 2 * i });
        };
        let [code, more @ ..] = more else {
            return Err(FileRefusal::Length { byte: 7 + 2 * i });
        };
        let (delay, code) = (*delay, *code);
        stages.push(KeyStage { delay, code });
        rest = more;
    }
    let [high, low, rest @ ..] = rest else {
        return Err(FileRefusal::Length {
            byte: room_byte(count),
        });
    };
    let room = two_bytes(*high, *low);
    Ok(Fields { stages, room, rest })
}

// The byte of the file where a key is wrong.
fn byte_of(refusal: KeyRefusal) -> usize
    requires { key_byte refusal < 2 ^ 64 }
    ensures { result ≡ key_byte refusal }
{
    match refusal {
        KeyRefusal::Kernel => 4,
        KeyRefusal::StageCount => 5,
        KeyRefusal::Delays => 6,
        KeyRefusal::WeightCode { stage } => 7 + 2 * stage,
    }
}

// What a key answers, as the file's answer.
fn in_file(answer: Result<(), KeyRefusal>) -> Result<(), FileRefusal>
    requires { IfErr answer (λ e. key_byte e < 2 ^ 64) }
    ensures { result ≡ unless (first_refusal (key_says answer)) tt }
{
    answer.map_err(|refusal| FileRefusal::Key {
        refusal,
        byte: byte_of(refusal),
    })
}

// The kernel exists, and allows this number of stages.
fn check_count(kernel: u8, count: usize) -> Result<(), FileRefusal>
    ensures { result ≡ unless (first_refusal (key_says (count_judged kernel count))) tt }
{
    in_file(check_stage_count(kernel, count))
}

// Fills a key for the kind that the file names.
fn fill_for(
    key: &mut Key,
    kind: KindName,
    kernel: u8,
    stages: &[KeyStage],
) -> Result<(), KeyRefusal>
    ensures answer { result ≡ judged (roots kind) kernel stages.now }
    ensures key { MatchResult result (λ _. key.new ≡ plan kernel (roots kind) stages.now) (λ _. key.new ≡ key.old) }
{
    // each kind is a type of its own, so a name picks one of two calls
    match kind {
        KindName::Hall => key.fill::<Hall>(kernel, stages),
        KindName::Radio => key.fill::<Radio>(kernel, stages),
    }
}

// The key of a file.
fn key_for(kind: KindName, kernel: u8, stages: &[KeyStage]) -> Result<Key, FileRefusal>
    requires { length stages.now ≤ 7 }
    ensures { Decided (key_says (judged (roots kind) kernel stages.now)) result (λ key. key ≡ plan kernel (roots kind) stages.now) }
{
    let mut key = Key::built_in();
    in_file(fill_for(&mut key, kind, kernel, stages))?;
    Ok(key)
}

// What a sounding file says, or the first refusal that comes.
pub fn parse(file: &[u8]) -> Result<Sounding<'_>, FileRefusal>
    ensures { Decided (layout_tests file.now) result (λ s. FileRead file.now s) }
{
    let head = take_head(file)?;
    check_count(head.kernel, head.count)?;
    let fields = take_fields(head.rest, head.count)?;
    let key = key_for(head.kind, head.kernel, fields.stages.as_slice())?;
    Ok(Sounding {
        key,
        kind: head.kind,
        room: fields.room,
        room_byte: room_byte(head.count),
        records: fields.rest,
    })
}
