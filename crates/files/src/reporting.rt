// The report of a sounding file.
ghost use Rattle.std.specs.Prelude.{◌≡◌, ◌+◌, ◌≤◌, length, IfOk, OnOk, nat_lt};
ghost use Rattle.pairs.specs.Pairs.{codes_of};
ghost use Rattle.keys.specs.KeyCodes.{key_codes};
ghost use Rattle.layout.specs.Tests.{first_refusal, unless, Ordered};
ghost use Rattle.reports.specs.Reports.{buffer_after};
ghost use Rattle.files.specs.Files.{tests_over, report_over, LawsOver, tests_for, report_for, LawsFor, file_tests, input_tests, report_of, ReportLaws, Reports};

use crate::sounding::{SoundingFile, sound};
use keys::Key;
use kinds::hall::Hall;
use kinds::radio::Radio;
use kinds::{Kind, KindName};
use layout::{FileRefusal, Sounding, parse};
use pairs::Pair;
use reports::write_report;

// Sounds the records of a file over a new pair, and writes the report.
fn report_over<P: Pair + Drop>(
    pair: P,
    file: SoundingFile<'_>,
    out: &mut [u8],
) -> Result<usize, FileRefusal>
    ensures { Reports (tests_over P.Sample.Kind (codes_of P.Pair pair) file.entry (length out.old)) (report_over P.Sample.Kind (codes_of P.Pair pair) file.entry) (LawsOver P.Sample.Kind (codes_of P.Pair pair) file.entry) result out.old out.new }
{
    let taps = sound(pair, file, out.len())?;
    write_report(out, file.kind, taps.as_slice(), file.size)
}

// The same over the pair of a key, for the kind K.
fn report_as<K: Kind>(
    key: &Key,
    file: SoundingFile<'_>,
    out: &mut [u8],
) -> Result<usize, FileRefusal>
    ensures { Reports (tests_over K.Kind (key_codes K.Kind key.now) file.entry (length out.old)) (report_over K.Kind (key_codes K.Kind key.now) file.entry) (LawsOver K.Kind (key_codes K.Kind key.now) file.entry) result out.old out.new }
{
    report_over(key.cascade::<K>(), file, out)
}

// The same for the kind that the file names.
fn report_by_kind(key: &Key, file: SoundingFile<'_>, out: &mut [u8]) -> Result<usize, FileRefusal>
    ensures { Reports (tests_for key.now file.entry.room file.entry.records.now file.entry.kind file.entry.room_byte file.entry.size (length out.old)) (report_for key.now file.entry.room file.entry.records.now file.entry.kind) (LawsFor key.now file.entry.room file.entry.records.now file.entry.kind) result out.old out.new }
{
    // each kind is a type of its own, so a name picks one of two calls
    match file.kind {
        KindName::Hall => report_as::<Hall>(key, file, out),
        KindName::Radio => report_as::<Radio>(key, file, out),
    }
}

// Writes the report of a sounding file at the front of `out`, whose rest is kept, and answers its length;
// or answers the first refusal that comes, and leaves `out` as it is.
pub fn report(file: &[u8], out: &mut [u8]) -> Result<usize, FileRefusal>
    ensures order { Ordered (file_tests file.now (length out.old)) result }
    ensures value { result ≡ unless (first_refusal (file_tests file.now (length out.old))) (length (report_of file.now)) }
    ensures after { out.new ≡ buffer_after (first_refusal (file_tests file.now (length out.old))) (report_of file.now) out.old }
    ensures within { IfOk result (λ n. n ≤ length out.old) }
    ensures laws { OnOk result (ReportLaws file.now) }
{
    // By match: the check has no rule yet for `?` on a struct that holds both a reference and a key.
    match parse(file) {
        Ok(sounding) => {
            let fields = SoundingFile {
                kind: sounding.kind,
                room: sounding.room,
                room_byte: sounding.room_byte,
                records: sounding.records,
                size: file.len(),
            };
            report_by_kind(&sounding.key, fields, out)
        }
        Err(refusal) => Err(refusal),
    }
}

// Whether a program refuses to look at an input.
fn is_too_long(input: &[u8]) -> bool
    ensures { result ≡ nat_lt 8192 (length input.now) }
{
    input.len() > 8192
}

// The same for what a program reads: an input above 8,192 bytes is refused first of all.
pub fn report_input(input: &[u8], out: &mut [u8]) -> Result<usize, FileRefusal>
    ensures order { Ordered (input_tests input.now (length out.old)) result }
    ensures value { result ≡ unless (first_refusal (input_tests input.now (length out.old))) (length (report_of input.now)) }
    ensures after { out.new ≡ buffer_after (first_refusal (input_tests input.now (length out.old))) (report_of input.now) out.old }
    ensures within { IfOk result (λ n. n ≤ length out.old) }
    ensures laws { OnOk result (ReportLaws input.now) }
{
    if is_too_long(input) {
        return Err(FileRefusal::Length { byte: 8192 });
    }
    report(input, out)
}
