// The names of the kinds: in words, and as bytes of a file.
ghost use Rattle.std.specs.Prelude.{◌≡◌};
ghost use Rattle.kinds.specs.KindNames.{kind_of, kind_byte, kind_named, width, Answers};

use std::str::FromStr;

#[derive(Clone, Copy, PartialEq, Eq, Debug)]
pub enum KindName {
    Hall,
    Radio,
}

// No kind has this name.
#[derive(Clone, Copy, PartialEq, Eq, Debug)]
pub struct UnknownKind;

// In words: hall or radio, in small letters.
impl FromStr for KindName {
    type Err = UnknownKind;

    ghost from_str_gives = { λ word r. Answers (kind_of word) r };

    fn from_str(word: &str) -> Result<KindName, UnknownKind> {
        match word {
            "hall" => Ok(KindName::Hall),
            "radio" => Ok(KindName::Radio),
            _ => Err(UnknownKind),
        }
    }
}

// As a byte: 1 is hall, 2 is radio.
impl TryFrom<u8> for KindName {
    type Error = UnknownKind;

    ghost try_from_gives = { λ byte r. Answers (kind_named byte) r };

    fn try_from(byte: u8) -> Result<KindName, UnknownKind> {
        match byte {
            1 => Ok(KindName::Hall),
            2 => Ok(KindName::Radio),
            _ => Err(UnknownKind),
        }
    }
}

impl From<KindName> for u8 {
    ghost from_gives = { λ kind byte. byte ≡ kind_byte kind };

    fn from(kind: KindName) -> u8 {
        match kind {
            KindName::Hall => 1,
            KindName::Radio => 2,
        }
    }
}

impl KindName {
    // How many bytes a sample has in a file: two for each of its numbers.
    pub fn width(self) -> usize
        ensures { result ≡ width self }
    {
        match self {
            KindName::Hall => 2,
            KindName::Radio => 4,
        }
    }
}
