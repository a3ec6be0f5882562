// A worked case as a value: what is played, recorded or read, and what has to come of it.
use keys::KeyStage;
use kinds::KindName;
use layout::FileRefusal;

// The two words of a sample, an entry, a sum or a tap.
pub type Words = (i64, i64);

// A key and the kind that it is for.
#[derive(Clone, Copy, Debug)]
pub struct CaseKey {
    pub kind: KindName,
    pub kernel: u8,
    // the lowest first
    pub stages: &'static [KeyStage],
}

// A sounding at a room length: the taps of the room, both records, and the sums and taps that come of them.
#[derive(Clone, Copy, Debug)]
pub struct RoomSounding {
    pub room_length: usize,
    pub room: &'static [Words],
    pub first: &'static [Words],
    pub second: &'static [Words],
    pub sums: &'static [Words],
    pub taps: &'static [Words],
}

#[derive(Clone, Copy, Debug)]
pub enum Case {
    // a key, its energy and its codes A and B
    Codes {
        key: CaseKey,
        energy: u32,
        a: &'static [Words],
        b: &'static [Words],
    },
    // a sounding with the codes of a key
    Sounding {
        key: CaseKey,
        sounding: RoomSounding,
    },
    // an energy, sums, and each sum divided by the energy and rounded
    Rounding {
        energy: u32,
        sums: &'static [i64],
        taps: &'static [i64],
    },
    // a sounding with the codes of a key, its sounding file and the report of the file
    Reported {
        key: CaseKey,
        sounding: RoomSounding,
        file: &'static [u8],
        report: &'static [u8],
    },
    // a file and its refusal
    Refused {
        file: &'static [u8],
        refusal: FileRefusal,
    },
}
