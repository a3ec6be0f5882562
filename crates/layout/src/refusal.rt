ghost use Rattle.std.specs.Prelude.{◌≡◌, Some};

use calls::Refusal;
use keys::KeyRefusal;
use refusals::Refused;
use std::fmt;

// Why a sounding file is refused.
#[derive(Clone, Copy, PartialEq, Eq, Debug)]
pub enum FileRefusal {
    // the key of the file is refused; the byte where it is wrong
    Key { refusal: KeyRefusal, byte: usize },
    // the sounder refuses a call; the byte where the field that it comes from begins
    Sounder { refusal: Refusal, byte: usize },
    // the file or a field ends early, or a length is wrong; the byte where the field begins
    Length { byte: usize },
    // the version byte is not 1
    Version,
    // the kind byte names no kind
    Kind,
    // the buffer is too short for the report; the length of the file
    Buffer { byte: usize },
    // a word of a tap is outside -32,767 .. 32,767; the index of the tap, and the length of the file
    Tap { index: usize, byte: usize },
}

impl FileRefusal {
    ghost use Rattle.layout.specs.Refusals.{byte};

    // Where in the file, counted from 0.
    pub fn byte(self) -> usize
        ensures { result ≡ byte self }
    {
        match self {
            FileRefusal::Key { byte, .. } => byte,
            FileRefusal::Sounder { byte, .. } => byte,
            FileRefusal::Length { byte } => byte,
            FileRefusal::Version => 0,
            FileRefusal::Kind => 3,
            FileRefusal::Buffer { byte } => byte,
            FileRefusal::Tap { byte, .. } => byte,
        }
    }
}

impl Refused for FileRefusal {
    ghost use Rattle.layout.specs.Refusals.{number, layer, place};

    ghost number = { number };

    ghost layer = { layer };

    ghost place = { place };

    fn number(&self) -> u8 {
        match *self {
            FileRefusal::Key { refusal, .. } => refusal.number(),
            FileRefusal::Sounder { refusal, .. } => refusal.number(),
            FileRefusal::Length { .. } => 12,
            FileRefusal::Version => 13,
            FileRefusal::Kind => 14,
            FileRefusal::Buffer { .. } => 15,
            FileRefusal::Tap { .. } => 16,
        }
    }

    // A file is layer 1; a refusal of its key or of the sounder keeps its own layer.
    fn layer(&self) -> u8 {
        match *self {
            FileRefusal::Key { refusal, .. } => refusal.layer(),
            FileRefusal::Sounder { refusal, .. } => refusal.layer(),
            _ => 1,
        }
    }

    // The byte, or the index of a tap; a refusal of the key or of the sounder keeps its own place.
    fn place(&self) -> usize {
        match *self {
            FileRefusal::Key { refusal, .. } => refusal.place(),
            FileRefusal::Sounder { refusal, .. } => refusal.place(),
            FileRefusal::Tap { index, .. } => index,
            _ => self.byte(),
        }
    }
}

// As a text: refused N layer M place P byte B.
impl fmt::Display for FileRefusal {
    ghost use Rattle.layout.specs.Refusals.{refusal_text};

    ghost output = { λ refusal. Some (refusal_text refusal) };

    fn fmt<W: fmt::Write>(&self, f: &mut fmt::Formatter<W>) -> fmt::Result {
        let (told, byte) = (self.told(), self.byte());
        write!(f, "{told} byte {byte}")
    }
}
