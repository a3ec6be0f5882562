// The first six bytes of a sounding file.
ghost use Rattle.std.specs.Prelude.{◌≡◌, ◌+◌, ◌*◌, length, ◌==◌};
ghost use Rattle.layout.specs.Tests.{Decided};
ghost use Rattle.layout.specs.Order.{head_tests};
ghost use Rattle.layout.specs.Read.{HeadRead};

use crate::refusal::FileRefusal;
use kinds::KindName;

#[derive(Clone, Copy)]
pub(crate) struct Head<'a> {
    pub kind: KindName,
    // as it stands in the file: the key judges it
    pub kernel: u8,
    pub count: usize,
    // what follows the number of stages
    pub rest: &'a [u8],
}

// The number in two bytes.
pub(crate) fn two_bytes(high: u8, low: u8) -> usize
    ensures { result ≡ high * 256 + low }
{
    usize::from(u16::from_be_bytes([high, low]))
}

// Whether two bytes tell the length of all that follows them.
fn is_length(high: u8, low: u8, rest: &[u8]) -> bool
    ensures { result ≡ (high * 256 + low == length rest.now) }
{
    two_bytes(high, low) == rest.len()
}

// The kind, the kernel and the number of stages.
pub(crate) fn take_head(file: &[u8]) -> Result<Head<'_>, FileRefusal>
    ensures { Decided (head_tests file.now) result (λ h. HeadRead file.now h) }
{
    let [version, rest @ ..] = file else {
        return Err(FileRefusal::Length { byte: 0 });
    };
    if *version != 1 {
        return Err(FileRefusal::Version);
    }
    let [high, low, rest @ ..] = rest else {
        return Err(FileRefusal::Length { byte: 1 });
    };
    if !is_length(*high, *low, rest) {
        return Err(FileRefusal::Length { byte: 1 }); // the field is there
    }
    let [kind, rest @ ..] = rest else {
        return Err(FileRefusal::Length { byte: 3 });
    };
    let Ok(kind) = KindName::try_from(*kind) else {
        return Err(FileRefusal::Kind);
    };
    let [kernel, rest @ ..] = rest else {
        return Err(FileRefusal::Length { byte: 4 });
    };
    let [count, rest @ ..] = rest else {
        return Err(FileRefusal::Length { byte: 5 });
    };
    let kernel = *kernel;
    let count = usize::from(*count);
    Ok(Head {
        kind,
        kernel,
        count,
        rest,
    })
}
