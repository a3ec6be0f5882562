// Samples pushed through kernels and stages, and the tables that they lie in.
use crate::{check_correlation, sample};
use kinds::Kind;
use kinds::hall::Hall;
use kinds::radio::Radio;
use pairs::{Kernel, Pair, Stage};
use std::process::Abort;
use sums::Side;
use tables::WordTable;

// Pushes a whole number, and answers the first words of both sums.
fn push_number<P: Pair>(pair: &mut P, x: i64) -> (i64, i64) {
    let (p, q) = pair.push(sample(x, 0));
    (p.words().0, q.words().0)
}

// Each row is a number to push and the two sums that come out.
fn check_pushes<P: Pair>(rt: &impl Abort, pair: &mut P, rows: &[(i64, i64, i64)]) {
    for &(x, p, q) in rows {
        assert_eq!(rt; push_number(pair, x), (p, q));
    }
}

// A stage over the unit kernel.
fn unit_stage<K: Kind>(delay: u8, code: u8) -> Stage<Kernel<K>> {
    Stage::new(Kernel::unit(), delay, code)
}

#[test]
fn unit_kernel_answers_at_once(rt: HostRuntime) {
    let mut pair: Kernel<Hall> = Kernel::unit();
    let rows = [(3, 3, 3), (0, 0, 0), (i64::MIN, i64::MIN, i64::MIN)];
    check_pushes(&rt, &mut pair, &rows);
}

#[test]
fn stage_of_delay_1(rt: HostRuntime) {
    let mut pair: Stage<Kernel<Hall>> = unit_stage(1, 0);
    check_pushes(
        &rt,
        &mut pair,
        &[(3, 3, -3), (2, 5, 1), (-1, 1, 3), (0, -1, -1), (0, 0, 0)],
    );
    let mut minus: Stage<Kernel<Hall>> = unit_stage(1, 1);
    check_pushes(
        &rt,
        &mut minus,
        &[(3, 3, -3), (2, -1, -5), (-1, -3, -1), (0, 1, 1)],
    );
}

#[test]
fn clear_drops_what_is_pending(rt: HostRuntime) {
    let mut pair: Stage<Kernel<Hall>> = unit_stage(1, 0);
    check_pushes(&rt, &mut pair, &[(3, 3, -3)]);
    pair.clear();
    check_pushes(&rt, &mut pair, &[(2, 2, -2), (-1, 1, 3)]);
    let mut ten: Kernel<Hall> = Kernel::ten();
    check_pushes(&rt, &mut ten, &[(1, 1, -1), (0, 1, -1), (0, -1, 1)]);
    ten.clear();
    check_pushes(&rt, &mut ten, &[(0, 0, 0), (0, 0, 0), (1, 1, -1)]);
}

// A few numbers among zeros, over more than two rounds of the 128 places of a stage.
fn number_at(t: u16) -> i64 {
    match t {
        0 => 3,
        127 => 5,
        128 => -2,
        300 => 7,
        _ => 0,
    }
}

// A stage of code 0 over the unit kernel: u + x and u - x come out, with u the number of `delay` pushes ago.
fn check_delay<P: Pair>(rt: &impl Abort, pair: &mut P, delay: u16) {
    for t in 0..600 {
        let x = number_at(t);
        let u = if t < delay { 0 } else { number_at(t - delay) };
        assert_eq!(rt;
            push_number(pair, x),
            (u.wrapping_add(x), u.wrapping_sub(x))
        );
    }
}

#[test]
fn long_delays(rt: HostRuntime) {
    for delay in [1, 127, 128] {
        let mut pair: Stage<Kernel<Hall>> = unit_stage(delay, 0);
        assert_eq!(rt; pair.size(), (1 + usize::from(delay), 4));
        check_delay(&rt, &mut pair, u16::from(delay));
    }
}

// Over the unit kernel a stage that rests answers as the kernel does.
fn check_rests<P: Pair>(rt: &impl Abort, pair: &mut P) {
    assert_eq!(rt; pair.size(), (1, 2));
    check_pushes(rt, pair, &[(3, 3, 3), (2, 2, 2)]);
}

#[test]
fn stages_that_rest(rt: HostRuntime) {
    for (delay, code) in [(0, 0), (129, 0), (255, 1), (1, 2), (1, 255), (0, 2)] {
        let mut pair: Stage<Kernel<Hall>> = unit_stage(delay, code);
        check_rests(&rt, &mut pair);
    }
    let mut radio: Stage<Kernel<Radio>> = unit_stage(1, 4);
    check_rests(&rt, &mut radio);
    let turned: Stage<Kernel<Radio>> = unit_stage(1, 3);
    assert_eq!(rt; turned.size(), (2, 4));
}

#[test]
fn codes_correlate(rt: HostRuntime) {
    check_correlation::<Kernel<Hall>>(&rt, Kernel::ten(), Kernel::ten());
    check_correlation::<Stage<Kernel<Radio>>>(&rt, unit_stage(128, 3), unit_stage(128, 3));
}

#[test]
fn ten_entry_kernel_finds_its_code(rt: HostRuntime) {
    let mut pair: Kernel<Hall> = Kernel::ten();
    let mut last = (0, 0);
    for k in 0..10 {
        let x = pair.entry_or_zero(Side::A, k);
        last = push_number(&mut pair, x.words().0);
    }
    assert_eq!(rt; last, (10, 0));
}

#[test]
fn word_table_past_its_end(rt: HostRuntime) {
    let mut table: WordTable<2> = WordTable::new();
    for place in [0, 1, 2, usize::MAX] {
        assert_eq!(rt; table.get(place), (0, 0));
        table.put(place, (5, 1));
    }
    assert_eq!(rt; table.get(0), (5, 1));
    assert_eq!(rt; table.get(1), (5, 1));
    assert_eq!(rt; table.get(2), (0, 0));
    assert_eq!(rt; table.get(usize::MAX), (0, 0));
    table.clear();
    assert_eq!(rt; table.get(1), (0, 0));
}

#[test]
fn word_table_samples(rt: HostRuntime) {
    let mut table: WordTable<2> = WordTable::new();
    table.put(0, (5, 1));
    table.put(1, (5, 0));
    for (place, word) in [(0, 0), (1, 5), (2, 0)] {
        let x: Hall = table.sample(place);
        assert_eq!(rt; x.words(), (word, 0));
    }
    let y: Radio = table.sample(0);
    assert_eq!(rt; y.words(), (5, 1));
}
