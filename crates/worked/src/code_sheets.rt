// The two codes of a key, entry by entry, and their correlations.
use crate::{check_correlation, stage};
use keys::{Key, KeyStage};
use kinds::Kind;
use kinds::hall::Hall;
use kinds::radio::Radio;
use pairs::Pair;
use std::process::Abort;
use std::test::Fail;
use sums::Side;

// The words of 1, -1, i and -i.
const ONE: (i64, i64) = (1, 0);

const MINUS: (i64, i64) = (-1, 0);

const I: (i64, i64) = (0, 1);

const MINUS_I: (i64, i64) = (0, -1);

// What a pair has: the span and the energy, and the words of the first entries of A and B.
#[derive(Clone, Copy)]
struct Sheet<'a> {
    size: (usize, u32),
    a: &'a [(i64, i64)],
    b: &'a [(i64, i64)],
}

fn sheet_of<'a>(size: (usize, u32), a: &'a [(i64, i64)], b: &'a [(i64, i64)]) -> Sheet<'a> {
    Sheet { size, a, b }
}

// The first entries have these words, each entry has magnitude 1, and there are as many entries as the span says.
fn check_code<P: Pair>(rt: &impl Abort, pair: &P, side: Side, span: usize, first: &[(i64, i64)]) {
    for (k, words) in first.iter().enumerate() {
        assert_eq!(rt; pair.entry_or_zero(side, k).words(), *words);
    }
    for k in 0..span {
        assert_eq!(rt; pair.entry_or_zero(side, k).magnitude(), 1);
    }
    assert!(rt; pair.entry(side, span).is_none());
}

// Two new pairs with the same codes: their sheet, and their correlations.
fn check_pair<P: Pair + Drop>(rt: &impl Abort, one: P, other: P, sheet: Sheet<'_>) {
    assert_eq!(rt; one.size(), sheet.size);
    check_code(rt, &one, Side::A, sheet.size.0, sheet.a);
    check_code(rt, &one, Side::B, sheet.size.0, sheet.b);
    check_correlation(rt, one, other);
}

// What a key that was filled for the kind F gives for the kind K.
fn check_key<F: Kind, K: Kind>(
    rt: &impl Abort,
    kernel: u8,
    stages: &[KeyStage],
    sheet: Sheet<'_>,
) -> Result<(), Fail> {
    let mut key = Key::built_in();
    key.fill::<F>(kernel, stages)?;
    check_pair(rt, key.cascade::<K>(), key.cascade::<K>(), sheet);
    Ok(())
}

#[test]
fn unit_kernel_alone(rt: HostRuntime) -> Result<(), Fail> {
    check_key::<Hall, Hall>(&rt, 1, &[], sheet_of((1, 2), &[ONE], &[ONE]))?;
    check_key::<Radio, Radio>(&rt, 1, &[], sheet_of((1, 2), &[ONE], &[ONE]))
}

#[test]
fn few_stages(rt: HostRuntime) -> Result<(), Fail> {
    check_key::<Hall, Hall>(
        &rt,
        1,
        &[stage(1, 0)],
        sheet_of((2, 4), &[ONE, ONE], &[ONE, MINUS]),
    )?;
    let plain = [stage(1, 0), stage(2, 0)];
    check_key::<Hall, Hall>(
        &rt,
        1,
        &plain,
        sheet_of((4, 8), &[ONE, ONE, ONE, MINUS], &[ONE, ONE, MINUS, ONE]),
    )?;
    let turned = [stage(1, 1), stage(2, 0)];
    check_key::<Hall, Hall>(
        &rt,
        1,
        &turned,
        sheet_of((4, 8), &[MINUS, ONE, MINUS, MINUS], &[MINUS, ONE, ONE, ONE]),
    )?;
    check_key::<Radio, Radio>(
        &rt,
        1,
        &turned,
        sheet_of((4, 8), &[I, ONE, I, MINUS], &[I, ONE, MINUS_I, ONE]),
    )
}

#[test]
fn ten_entry_kernel_alone(rt: HostRuntime) -> Result<(), Fail> {
    let a = [ONE, ONE, MINUS, ONE, MINUS, ONE, MINUS, MINUS, ONE, ONE];
    let b = [ONE, ONE, MINUS, ONE, ONE, ONE, ONE, ONE, MINUS, MINUS];
    check_key::<Hall, Hall>(&rt, 10, &[], sheet_of((10, 20), &a, &b))?;
    check_key::<Radio, Radio>(&rt, 10, &[], sheet_of((10, 20), &a, &b))
}

// The delays in a mixed order. The first entry of both codes is the product of all weights.
#[test]
fn as_many_stages_as_allowed(rt: HostRuntime) -> Result<(), Fail> {
    let four = [stage(80, 0), stage(10, 1), stage(40, 0), stage(20, 1)];
    check_key::<Hall, Hall>(&rt, 10, &four, sheet_of((160, 320), &[ONE], &[ONE]))?;
    let four = [stage(80, 3), stage(10, 1), stage(40, 0), stage(20, 3)];
    check_key::<Radio, Radio>(&rt, 10, &four, sheet_of((160, 320), &[MINUS_I], &[MINUS_I]))?;
    let seven = [
        stage(4, 1),
        stage(64, 0),
        stage(1, 1),
        stage(16, 0),
        stage(2, 1),
        stage(32, 0),
        stage(8, 0),
    ];
    check_key::<Hall, Hall>(&rt, 1, &seven, sheet_of((128, 256), &[MINUS], &[MINUS]))
}

// For a kind with another number of roots than the key was filled for, all stages rest.
#[test]
fn another_kind(rt: HostRuntime) -> Result<(), Fail> {
    let stages = [stage(2, 1), stage(1, 0)];
    check_key::<Hall, Radio>(&rt, 1, &stages, sheet_of((1, 2), &[ONE], &[ONE]))?;
    check_key::<Radio, Hall>(&rt, 1, &stages, sheet_of((1, 2), &[ONE], &[ONE]))?;
    let stages = [stage(20, 1), stage(10, 0)];
    check_key::<Hall, Radio>(
        &rt,
        10,
        &stages,
        sheet_of((10, 20), &[ONE, ONE, MINUS], &[ONE, ONE, MINUS]),
    )?;
    check_key::<Radio, Hall>(
        &rt,
        10,
        &stages,
        sheet_of((10, 20), &[ONE, ONE, MINUS], &[ONE, ONE, MINUS]),
    )
}
