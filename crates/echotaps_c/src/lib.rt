// The library for programs in C: one call.
#![tactic(auto)]

ghost use Rattle.std.specs.Prelude.{◌≡◌, length, IfOk};
ghost use Rattle.layout.specs.Tests.{first_refusal, unless};
ghost use Rattle.reports.specs.Reports.{buffer_after};
ghost use Rattle.files.specs.Files.{file_tests, report_of};
ghost use Rattle.echotaps_c.specs.Numbers.{as_number};

use files::report;
use refusals::Refused;

// int64_t echotaps_report(const uint8_t *file, size_t file_length, uint8_t *out, size_t out_length);
//
// Writes the report of a sounding file at the front of `out`, whose rest is kept, and answers its length;
// or answers minus the number of the first refusal that comes, and leaves `out` as it is.
#[unsafe(no_mangle)]
pub extern "C" fn echotaps_report(file: &[u8], out: &mut [u8]) -> i64
    ensures value { result ≡ as_number (unless (first_refusal (file_tests file.now (length out.old))) (length (report_of file.now))) }
    ensures after { out.new ≡ buffer_after (first_refusal (file_tests file.now (length out.old))) (report_of file.now) out.old }
{
    match report(file, out) {
        Ok(length) => length as i64,
        Err(refusal) => -i64::from(refusal.number()),
    }
}
