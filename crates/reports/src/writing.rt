// Reports written into a buffer.
ghost use Rattle.std.specs.Prelude.{◌≡◌, ◌+◌, ◌*◌, ◌≤◌, length, IfOk, None};
ghost use Rattle.std.specs.List.{flat_map};
ghost use Rattle.kinds.specs.KindNames.{width};
ghost use Rattle.layout.specs.Tests.{first_refusal, unless};
ghost use Rattle.reports.specs.Reports.{number_bytes, tap_bytes, report_head, report_bytes, report_length, laid, buffer_after, tap_tests, report_tests};

use crate::checking::check_taps;
use calls::Refusal;
use kinds::KindName;
use layout::FileRefusal;

// How long the report of a room length is.
pub fn report_length(kind: KindName, room: u16) -> usize
    ensures { result ≡ report_length kind room }
{
    6 + kind.width() * usize::from(room)
}

// Lays bytes over the buffer from place n on.
fn lay(out: &mut [u8], n: usize, bytes: &[u8])
    requires { n + length bytes.now ≤ length out.old }
    ensures { out.new ≡ laid out.old n bytes.now }
{
    let end = n + bytes.len();
    out[n..end].copy_from_slice(bytes);
}

// The low 16 bits, the high byte first.
fn two_bytes(word: i64) -> [u8; 2]
    ensures { result ≡ number_bytes word }
{
    let [.., high, low] = word.to_be_bytes();
    [high, low]
}

fn lay_tap(out: &mut [u8], n: usize, kind: KindName, tap: (i64, i64))
    requires { n + width kind ≤ length out.old }
    ensures { out.new ≡ laid out.old n (tap_bytes kind tap) }
{
    let (x, y) = tap;
    lay(out, n, &two_bytes(x));
    match kind {
        KindName::Hall => {}
        KindName::Radio => lay(out, n + 2, &two_bytes(y)),
    }
}

// Lays the taps one after another from place `from` on.
fn lay_taps(out: &mut [u8], from: usize, kind: KindName, taps: &[(i64, i64)])
    requires { from + width kind * length taps.now ≤ length out.old }
    ensures { out.new ≡ laid out.old from (flat_map (tap_bytes kind) taps.now) }
{
    // by place: of a buffer that chunks_exact_mut lent out, no clause says what it holds
    for (i, tap) in taps.iter().enumerate() {
        lay_tap(out, from + kind.width() * i, kind, *tap);
    }
}

// What stands before the taps. A type of a room length would be made and taken apart at once, here as in sounder and files.
fn head_of(kind: KindName, room: u16) -> [u8; 6]
    requires { room ≤ 256 }
    ensures { result ≡ report_head kind room }
{
    // at most 1,027: the cast keeps it, and try_from would add an error that never comes
    let follows = 3 + kind.width() * usize::from(room);
    let [length_high, length_low] = (follows as u16).to_be_bytes();
    let [room_high, room_low] = room.to_be_bytes();
    [1, length_high, length_low, kind.into(), room_high, room_low]
}

// Writes the report of these taps at the front of the buffer, and answers its length.
fn write(out: &mut [u8], kind: KindName, taps: &[(i64, i64)]) -> usize
    requires { (length taps.now ≤ 256) × (report_length kind (length taps.now) ≤ length out.old) }
    ensures size { result ≡ length (report_bytes kind (length taps.now) taps.now) }
    ensures after { out.new ≡ buffer_after None (report_bytes kind (length taps.now) taps.now) out.old }
    ensures within { result ≤ length out.old }
{
    let room = taps.len() as u16; // at most 256, as is proved
    lay(out, 0, &head_of(kind, room));
    lay_taps(out, 6, kind, taps);
    report_length(kind, room)
}

// The same, or the refusal of the first tap that a report can't hold. `within` stands again at each step: the caller cuts the buffer there.
fn write_checked(
    out: &mut [u8],
    kind: KindName,
    taps: &[(i64, i64)],
    size: usize,
) -> Result<usize, FileRefusal>
    requires { (length taps.now ≤ 256) × (report_length kind (length taps.now) ≤ length out.old) }
    ensures value { result ≡ unless (first_refusal (tap_tests size taps.now)) (length (report_bytes kind (length taps.now) taps.now)) }
    ensures after { out.new ≡ buffer_after (first_refusal (tap_tests size taps.now)) (report_bytes kind (length taps.now) taps.now) out.old }
    ensures within { IfOk result (λ n. n ≤ length out.old) }
{
    check_taps(taps, size)?;
    Ok(write(out, kind, taps))
}

// Writes the report of a room's taps at the front of the buffer, whose rest is kept, and answers its length;
// or answers the first refusal that comes, and leaves the buffer as it is. `size` is the length of the file that is answered.
// Kind and taps are two parameters: a struct of both would be made for this call and taken apart in it.
pub fn write_report(
    out: &mut [u8],
    kind: KindName,
    taps: &[(i64, i64)],
    size: usize,
) -> Result<usize, FileRefusal>
    ensures value { result ≡ unless (first_refusal (report_tests kind taps.now size (length out.old))) (length (report_bytes kind (length taps.now) taps.now)) }
    ensures after { out.new ≡ buffer_after (first_refusal (report_tests kind taps.now size (length out.old))) (report_bytes kind (length taps.now) taps.now) out.old }
    ensures within { IfOk result (λ n. n ≤ length out.old) }
{
    if taps.is_empty() || taps.len() > 256 {
        return Err(FileRefusal::Sounder {
            refusal: Refusal::RoomLength,
            byte: size,
        });
    }
    // the cast keeps a length of at most 256
    if out.len() < report_length(kind, taps.len() as u16) {
        return Err(FileRefusal::Buffer { byte: size });
    }
    write_checked(out, kind, taps, size)
}
