// The worked cases, one by one, and their list.
ghost use Rattle.std.specs.Prelude.{◌≡◌, map};
ghost use Rattle.std.specs.List.{AllByRecursion};
ghost use Rattle.soundings.specs.Cases.{Claims};
ghost use Rattle.soundings.specs.Worked.{cases};
ghost use Rattle.soundings.specs.Stated.{stated};

use crate::case::{Case, RoomSounding, Words};
use crate::case_keys::{
    HALL_MINUS_STAGES, HALL_NO_STAGE, HALL_ONE_STAGE, HALL_TWO_STAGES, RADIO_I_STAGES,
    RADIO_NO_STAGE,
};
use calls::Refusal;
use layout::FileRefusal;

const ONE: Words = (1, 0);

const MINUS_ONE: Words = (-1, 0);

const I: Words = (0, 1);

const MINUS_I: Words = (0, -1);

const HALL_KERNEL: Case = Case::Codes {
    key: HALL_NO_STAGE,
    energy: 2,
    a: &[ONE],
    b: &[ONE],
};

const RADIO_KERNEL: Case = Case::Codes {
    key: RADIO_NO_STAGE,
    energy: 2,
    a: &[ONE],
    b: &[ONE],
};

const HALL_STAGE: Case = Case::Codes {
    key: HALL_ONE_STAGE,
    energy: 4,
    a: &[ONE, ONE],
    b: &[ONE, MINUS_ONE],
};

const HALL_STAGES: Case = Case::Codes {
    key: HALL_TWO_STAGES,
    energy: 8,
    a: &[ONE, ONE, ONE, MINUS_ONE],
    b: &[ONE, ONE, MINUS_ONE, ONE],
};

const HALL_TURNED: Case = Case::Codes {
    key: HALL_MINUS_STAGES,
    energy: 8,
    a: &[MINUS_ONE, ONE, MINUS_ONE, MINUS_ONE],
    b: &[MINUS_ONE, ONE, ONE, ONE],
};

const RADIO_TURNED: Case = Case::Codes {
    key: RADIO_I_STAGES,
    energy: 8,
    a: &[I, ONE, I, MINUS_ONE],
    b: &[I, ONE, MINUS_I, ONE],
};

const RADIO_ROOM: Case = Case::Sounding {
    key: RADIO_NO_STAGE,
    sounding: RoomSounding {
        room_length: 1,
        room: &[(2, -5)],
        first: &[(2, -5)],
        second: &[(2, -5)],
        sums: &[(4, -10)],
        taps: &[(2, -5)],
    },
};

// A room with the taps 3 and -1.
const TWO_TAPS: RoomSounding = RoomSounding {
    room_length: 2,
    room: &[(3, 0), (-1, 0)],
    first: &[(3, 0), (2, 0), (-1, 0)],
    second: &[(3, 0), (-4, 0), (1, 0)],
    sums: &[(12, 0), (-4, 0)],
    taps: &[(3, 0), (-1, 0)],
};

const HALL_ROOM: Case = Case::Sounding {
    key: HALL_ONE_STAGE,
    sounding: TWO_TAPS,
};

const HALL_TAP: Case = Case::Sounding {
    key: HALL_ONE_STAGE,
    sounding: RoomSounding {
        room_length: 1,
        room: &[(3, 0), (-1, 0)],
        first: &[(3, 0), (2, 0)],
        second: &[(3, 0), (-4, 0)],
        sums: &[(12, 0)],
        taps: &[(3, 0)],
    },
};

const HALVES: Case = Case::Rounding {
    energy: 4,
    sums: &[6, -6, 10],
    taps: &[2, -2, 3],
};

const HALL_FILE: Case = Case::Reported {
    key: HALL_ONE_STAGE,
    sounding: TWO_TAPS,
    file: &[
        1, 0, 19, 1, 1, 1, 1, 0, 0, 2, 0, 3, 0, 2, 255, 255, 0, 3, 255, 252, 0, 1,
    ],
    report: &[1, 0, 7, 1, 0, 2, 0, 3, 255, 255],
};

const WRONG_VERSION: Case = Case::Refused {
    file: &[2],
    refusal: FileRefusal::Version,
};

const LOUD_SAMPLE: Case = Case::Refused {
    file: &[
        1, 0, 19, 1, 1, 1, 1, 0, 0, 2, 0, 3, 128, 0, 255, 255, 0, 3, 255, 252, 0, 1,
    ],
    refusal: FileRefusal::Sounder {
        refusal: Refusal::Magnitude(1),
        byte: 12,
    },
};

static CASES: [Case; 13] = [
    HALL_KERNEL,
    RADIO_KERNEL,
    HALL_STAGE,
    HALL_STAGES,
    RADIO_ROOM,
    HALL_TURNED,
    RADIO_TURNED,
    HALL_ROOM,
    HALL_FILE,
    HALL_TAP,
    HALVES,
    WRONG_VERSION,
    LOUD_SAMPLE,
];

// All worked cases. What each of them claims is proved.
pub fn cases() -> &'static [Case]
    ensures claims { AllByRecursion Claims cases }
    ensures value { map stated result.now ≡ cases }
{
    &CASES
}
