// Soundings, call by call: sums and taps of small rooms, and every refusal with its place.
use calls::{Answer, Call, Event, Phase, Refusal};
use kinds::Kind;
use kinds::hall::Hall;
use kinds::radio::Radio;
use pairs::{Kernel, Pair, Stage};
use refusals::Refused;
use sounder::{Sounder, replay};
use std::process::Abort;

// Delay 1, code 0 over the unit kernel: span 2, energy 4, A = 1 1, B = 1 -1.
fn small_hall() -> Sounder<Stage<Kernel<Hall>>> {
    Sounder::new(Stage::new(Kernel::unit(), 1, 0))
}

fn give_record<P: Pair>(rt: &impl Abort, sounder: &mut Sounder<P>, record: &[(i64, i64)]) {
    for &(x, y) in record {
        assert_eq!(rt; sounder.sample(x, y), Ok(()));
    }
}

// A whole sounding with these two records.
fn sound<P: Pair>(
    rt: &impl Abort,
    sounder: &mut Sounder<P>,
    room: usize,
    first: &[(i64, i64)],
    second: &[(i64, i64)],
) {
    assert_eq!(rt; sounder.open(room), Ok(()));
    give_record(rt, sounder, first);
    assert_eq!(rt; sounder.turn(), Ok(()));
    give_record(rt, sounder, second);
    assert_eq!(rt; sounder.close(), Ok(()));
}

#[test]
fn radio_room_of_one_tap(rt: HostRuntime) {
    let pair: Kernel<Radio> = Kernel::unit();
    let mut sounder = Sounder::new(pair);
    sound(&rt, &mut sounder, 1, &[(2, -5)], &[(2, -5)]);
    assert_eq!(rt; sounder.sum(0), Ok((4, -10)));
    assert_eq!(rt; sounder.tap(0), Ok((2, -5)));
}

#[test]
fn hall_room_of_two_taps(rt: HostRuntime) {
    let mut sounder = small_hall();
    sound(
        &rt,
        &mut sounder,
        2,
        &[(3, 0), (2, 0), (-1, 0)],
        &[(3, 0), (-4, 0), (1, 0)],
    );
    assert_eq!(rt; sounder.sum(0), Ok((12, 0)));
    assert_eq!(rt; sounder.sum(1), Ok((-4, 0)));
    assert_eq!(rt; sounder.tap(0), Ok((3, 0)));
    assert_eq!(rt; sounder.tap(1), Ok((-1, 0)));
    sound(&rt, &mut sounder, 1, &[(3, 0), (2, 0)], &[(3, 0), (-4, 0)]);
    assert_eq!(rt; sounder.tap(0), Ok((3, 0)));
}

// Sum and tap of a first record x, 0 and a silent second one, at energy 4.
#[test]
fn halves_go_away_from_zero(rt: HostRuntime) {
    let mut sounder = small_hall();
    for (x, tap) in [
        (6, 2),
        (-6, -2),
        (10, 3),
        (5, 1),
        (-5, -1),
        (7, 2),
        (-7, -2),
    ] {
        sound(&rt, &mut sounder, 1, &[(x, 0), (0, 0)], &[(0, 0), (0, 0)]);
        assert_eq!(rt; sounder.sum(0), Ok((x, 0)));
        assert_eq!(rt; sounder.tap(0), Ok((tap, 0)));
    }
}

#[test]
fn refusals_of_a_record(rt: HostRuntime) {
    let mut sounder = small_hall();
    assert_eq!(rt; sounder.open(0), Err(Refusal::RoomLength));
    assert_eq!(rt; sounder.open(257), Err(Refusal::RoomLength));
    assert_eq!(rt; sounder.open(256), Ok(()));
    assert_eq!(rt; sounder.sample(5, 1), Err(Refusal::NoSample(0)));
    assert_eq!(rt; sounder.sample(32767, 0), Ok(()));
    assert_eq!(rt; sounder.sample(32768, 0), Err(Refusal::Magnitude(1)));
    assert_eq!(rt; sounder.sample(-32767, 0), Ok(()));
    assert_eq!(rt; sounder.sample(i64::MIN, 0), Err(Refusal::Magnitude(2)));
    assert_eq!(rt; sounder.turn(), Err(Refusal::RecordNotFull(2)));
    assert_eq!(rt; sounder.abandon(), Ok(()));
    assert_eq!(rt; sounder.open(1), Ok(()));
    give_record(&rt, &mut sounder, &[(1, 0), (1, 0)]);
    assert_eq!(rt; sounder.sample(40000, 1), Err(Refusal::RecordFull(2)));
    assert_eq!(rt; sounder.turn(), Ok(()));
    assert_eq!(rt; sounder.close(), Err(Refusal::RecordNotFull(0)));
}

#[test]
fn refusals_of_phase_and_index(rt: HostRuntime) {
    let mut sounder = small_hall();
    assert_eq!(rt; sounder.turn(), Err(Refusal::WrongPhase(Phase::Idle)));
    assert_eq!(rt; sounder.tap(0), Err(Refusal::WrongPhase(Phase::Idle)));
    assert_eq!(rt; sounder.open(1), Ok(()));
    assert_eq!(rt;
        sounder.open(1),
        Err(Refusal::WrongPhase(Phase::FirstRecord))
    );
    assert_eq!(rt;
        sounder.close(),
        Err(Refusal::WrongPhase(Phase::FirstRecord))
    );
    assert_eq!(rt; sounder.abandon(), Ok(()));
    sound(&rt, &mut sounder, 1, &[(0, 0), (0, 0)], &[(0, 0), (0, 0)]);
    assert_eq!(rt;
        sounder.sample(0, 0),
        Err(Refusal::WrongPhase(Phase::Complete))
    );
    assert_eq!(rt; sounder.sum(1), Err(Refusal::Index(1)));
    assert_eq!(rt; sounder.tap(7), Err(Refusal::Index(7)));
    assert_eq!(rt; sounder.code(0, 1), Ok((1, 0)));
    assert_eq!(rt; sounder.code(1, 1), Ok((-1, 0)));
    assert_eq!(rt; sounder.code(0, 2), Err(Refusal::Index(2)));
    assert_eq!(rt; sounder.code(2, 0), Err(Refusal::Index(0)));
}

// Each refusal with its number and its place; the layer is 3.
#[test]
fn numbers_and_places(rt: HostRuntime) {
    let cases = [
        (Refusal::RoomLength, 5, 0),
        (Refusal::WrongPhase(Phase::SecondRecord), 6, 2),
        (Refusal::NoSample(4), 7, 4),
        (Refusal::Magnitude(5), 8, 5),
        (Refusal::RecordFull(6), 9, 6),
        (Refusal::RecordNotFull(7), 10, 7),
        (Refusal::Index(8), 11, 8),
    ];
    for (refusal, number, place) in cases {
        assert_eq!(rt; refusal.number(), number);
        assert_eq!(rt; refusal.layer(), 3);
        assert_eq!(rt; refusal.place(), place);
    }
}

fn ask(call: Call) -> Event {
    Event {
        call,
        answer: Answer::Done,
    }
}

#[test]
fn a_list_of_calls(rt: HostRuntime) {
    let pair: Kernel<Radio> = Kernel::unit();
    let mut run = [
        ask(Call::Tap(0)),
        ask(Call::Open(1)),
        ask(Call::Sample(2, -5)),
        ask(Call::Turn),
        ask(Call::Sample(2, -5)),
        ask(Call::Close),
        ask(Call::Tap(0)),
        ask(Call::Abandon),
        ask(Call::Sum(0)),
    ];
    let _ = replay(pair, &mut run);
    assert_eq!(rt;
        run[0].answer,
        Answer::Refused(Refusal::WrongPhase(Phase::Idle))
    );
    assert_eq!(rt; run[5].answer, Answer::Done);
    assert_eq!(rt; run[6].answer, Answer::Words(2, -5));
    assert_eq!(rt;
        run[8].answer,
        Answer::Refused(Refusal::WrongPhase(Phase::Idle))
    );
}
