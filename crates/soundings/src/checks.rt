// Each worked case through the library: what comes of it is what the case says.
use crate::case::{Case, CaseKey, RoomSounding, Words};
use crate::list::cases;
use files::report_input;
use keys::Key;
use kinds::hall::Hall;
use kinds::radio::Radio;
use kinds::{Kind, KindName};
use layout::FileRefusal;
use pairs::{Cascade, Kernel, Pair, Stage};
use sounder::Sounder;
use std::process::Abort;
use std::test::Fail;
use sums::Side;

fn cascade_of<K: Kind>(key: CaseKey) -> Result<Cascade<K>, Fail> {
    let mut filled = Key::built_in();
    filled.fill::<K>(key.kernel, key.stages)?;
    Ok(filled.cascade())
}

fn check_code<P: Pair>(rt: &impl Abort, pair: &P, side: Side, code: &[Words]) {
    for (j, words) in code.iter().enumerate() {
        assert_eq!(rt; pair.entry_or_zero(side, j).words(), *words);
    }
}

fn check_codes<K: Kind>(
    rt: &impl Abort,
    key: CaseKey,
    energy: u32,
    a: &[Words],
    b: &[Words],
) -> Result<(), Fail> {
    let pair = cascade_of::<K>(key)?;
    assert_eq!(rt; pair.size(), (a.len(), energy));
    assert_eq!(rt; a.len(), b.len());
    check_code(rt, &pair, Side::A, a);
    check_code(rt, &pair, Side::B, b);
    Ok(())
}

// What a room with these taps answers at time t to the code of a side.
fn room_answer<P: Pair>(pair: &P, side: Side, room: &[Words], t: usize) -> P::Sample {
    let mut answer = P::Sample::zero();
    for (i, (first, second)) in room.iter().enumerate() {
        if i <= t {
            let tap = P::Sample::from_words(*first, *second).unwrap_or(P::Sample::zero());
            answer = answer.sum(pair.entry_or_zero(side, t - i).product(tap));
        }
    }
    answer
}

fn check_record<P: Pair>(rt: &impl Abort, pair: &P, side: Side, room: &[Words], record: &[Words]) {
    for (t, words) in record.iter().enumerate() {
        assert_eq!(rt; room_answer(pair, side, room, t).words(), *words);
    }
}

fn give_record<P: Pair>(rt: &impl Abort, sounder: &mut Sounder<P>, record: &[Words]) {
    for &(first, second) in record {
        assert_eq!(rt; sounder.sample(first, second), Ok(()));
    }
}

// A whole sounding with these two records.
fn sound<P: Pair>(
    rt: &impl Abort,
    sounder: &mut Sounder<P>,
    room_length: usize,
    first: &[Words],
    second: &[Words],
) {
    assert_eq!(rt; sounder.open(room_length), Ok(()));
    give_record(rt, sounder, first);
    assert_eq!(rt; sounder.turn(), Ok(()));
    give_record(rt, sounder, second);
    assert_eq!(rt; sounder.close(), Ok(()));
}

fn check_sums<P: Pair>(rt: &impl Abort, sounder: &Sounder<P>, sums: &[Words]) {
    for (i, words) in sums.iter().enumerate() {
        assert_eq!(rt; sounder.sum(i), Ok(*words));
    }
    assert!(rt; sounder.sum(sums.len()).is_err());
}

fn check_taps<P: Pair>(rt: &impl Abort, sounder: &Sounder<P>, taps: &[Words]) {
    for (i, words) in taps.iter().enumerate() {
        assert_eq!(rt; sounder.tap(i), Ok(*words));
    }
    assert!(rt; sounder.tap(taps.len()).is_err());
}

fn check_sounding<K: Kind>(
    rt: &impl Abort,
    key: CaseKey,
    sounding: RoomSounding,
) -> Result<(), Fail> {
    let RoomSounding {
        room_length,
        room,
        first,
        second,
        sums,
        taps,
    } = sounding;
    let pair = cascade_of::<K>(key)?;
    check_record(rt, &pair, Side::A, room, first);
    check_record(rt, &pair, Side::B, room, second);
    let mut sounder = Sounder::new(pair);
    sound(rt, &mut sounder, room_length, first, second);
    check_sums(rt, &sounder, sums);
    check_taps(rt, &sounder, taps);
    Ok(())
}

// Sum and tap of a first record x, 0 and a silent second one.
fn check_rounded<P: Pair>(rt: &impl Abort, sounder: &mut Sounder<P>, sum: i64, tap: i64) {
    let silence = [(0, 0), (0, 0)];
    sound(rt, sounder, 1, &[(sum, 0), (0, 0)], &silence);
    check_sums(rt, sounder, &[(sum, 0)]);
    check_taps(rt, sounder, &[(tap, 0)]);
}

// Over one stage with the weight 1: a code A of two entries, both 1.
fn check_rounding(rt: &impl Abort, energy: u32, sums: &[i64], taps: &[i64]) {
    let pair = Stage::new(Kernel::<Hall>::unit(), 1, 0);
    assert_eq!(rt; pair.energy(), energy);
    assert_eq!(rt; sums.len(), taps.len());
    let mut sounder = Sounder::new(pair);
    for (sum, tap) in sums.iter().zip(taps) {
        check_rounded(rt, &mut sounder, *sum, *tap);
    }
}

fn check_file(rt: &impl Abort, file: &[u8], answer: Result<&[u8], FileRefusal>) {
    let mut out = [7; 16];
    match answer {
        Ok(report) => {
            assert_eq!(rt; report_input(file, &mut out), Ok(report.len()));
            assert!(rt; out.starts_with(report));
        }
        Err(refusal) => assert_eq!(rt; report_input(file, &mut out), Err(refusal)),
    }
}

fn check_case(rt: &impl Abort, case: Case) -> Result<(), Fail> {
    match case {
        Case::Codes { key, energy, a, b } => match key.kind {
            KindName::Hall => check_codes::<Hall>(rt, key, energy, a, b)?,
            KindName::Radio => check_codes::<Radio>(rt, key, energy, a, b)?,
        },
        Case::Sounding { key, sounding } => match key.kind {
            KindName::Hall => check_sounding::<Hall>(rt, key, sounding)?,
            KindName::Radio => check_sounding::<Radio>(rt, key, sounding)?,
        },
        Case::Rounding { energy, sums, taps } => check_rounding(rt, energy, sums, taps),
        Case::Reported { file, report, .. } => check_file(rt, file, Ok(report)),
        Case::Refused { file, refusal } => check_file(rt, file, Err(refusal)),
    }
    Ok(())
}

#[test]
fn every_case_as_it_says(rt: HostRuntime) -> Result<(), Fail> {
    assert_eq!(rt; cases().len(), 13);
    for case in cases() {
        check_case(&rt, *case)?;
    }
    Ok(())
}
