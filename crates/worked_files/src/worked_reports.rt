// Reports of small files: what is written, what is kept, and refusals with number, layer, place and byte.
use files::{report, report_input};
use filetext::refusal_line;
use layout::FileRefusal;
use refusals::Refused;
use std::test::Fail;

// Hall, kernel 1, delay 1, code 0, room length 2, records 3 2 -1 and 3 -4 1.
const SOUNDING: [u8; 22] = [
    1, 0, 19, 1, 1, 1, 1, 0, 0, 2, 0, 3, 0, 2, 255, 255, 0, 3, 255, 252, 0, 1,
];

// The number, the layer, the place and the byte of a refusal; none for a report.
fn fault(answer: Result<usize, FileRefusal>) -> Option<(u8, u8, usize, usize)> {
    answer
        .err()
        .map(|e| (e.number(), e.layer(), e.place(), e.byte()))
}

fn fault_of(file: &[u8]) -> Option<(u8, u8, usize, usize)> {
    let mut out = [7; 16];
    fault(report(file, &mut out))
}

// The sounding with another byte at one place.
fn with_byte(place: usize, byte: u8) -> [u8; 22] {
    let mut file = SOUNDING;
    if place < 22 {
        file[place] = byte;
    }
    file
}

#[test]
fn report_at_the_front_and_the_rest_kept(rt: HostRuntime) {
    let mut out = [7; 12];
    assert!(rt; report(&SOUNDING, &mut out).is_ok());
    assert_eq!(rt; out, [1, 0, 7, 1, 0, 2, 0, 3, 255, 255, 7, 7]);
}

#[test]
fn nine_bytes_are_too_few_and_kept(rt: HostRuntime) {
    let mut out = [7; 9];
    assert_eq!(rt; fault(report(&SOUNDING, &mut out)), Some((15, 1, 22, 22)));
    assert_eq!(rt; out, [7; 9]);
}

#[test]
fn ten_bytes_are_enough(rt: HostRuntime) {
    let mut out = [7; 10];
    assert_eq!(rt; fault(report_input(&SOUNDING, &mut out)), None);
    assert_eq!(rt; out, [1, 0, 7, 1, 0, 2, 0, 3, 255, 255]);
}

#[test]
fn too_loud_samples(rt: HostRuntime) {
    let mut first = with_byte(12, 128);
    first[13] = 0;
    assert_eq!(rt; fault_of(&first), Some((8, 3, 1, 12)));
    let mut second = with_byte(18, 128);
    second[19] = 0;
    assert_eq!(rt; fault_of(&second), Some((8, 3, 1, 18)));
    assert_eq!(rt; fault_of(&with_byte(12, 127)), None);
}

#[test]
fn too_loud_samples_leave_the_buffer(rt: HostRuntime) {
    let mut out = [7; 12];
    let mut last = with_byte(20, 128);
    last[21] = 0;
    assert_eq!(rt; fault(report(&last, &mut out)), Some((8, 3, 2, 20)));
    assert_eq!(rt; out, [7; 12]);
}

#[test]
fn faults_of_the_key_and_the_room_length(rt: HostRuntime) {
    assert_eq!(rt; fault_of(&with_byte(4, 2)), Some((1, 2, 0, 4)));
    assert_eq!(rt;
        fault_of(&[1, 0, 15, 1, 10, 5, 10, 0, 20, 0, 40, 0, 80, 0, 160, 0, 0, 1]),
        Some((2, 2, 0, 5))
    );
    assert_eq!(rt; fault_of(&with_byte(6, 2)), Some((3, 2, 0, 6)));
    assert_eq!(rt; fault_of(&with_byte(7, 2)), Some((4, 2, 0, 7)));
    assert_eq!(rt; fault_of(&with_byte(9, 0)), Some((5, 3, 0, 8)));
}

#[test]
fn truncated_at_every_byte(rt: HostRuntime) {
    for n in 0..22 {
        let at = if n == 0 { 0 } else { 1 };
        assert_eq!(rt; fault_of(&SOUNDING[0..n]), Some((12, 1, at, at)));
    }
}

#[test]
fn line_of_a_version(rt: HostRuntime) -> Result<(), Fail> {
    let mut out = [7; 1];
    match report(&[2], &mut out) {
        Ok(_) => Err(Fail::new("a report")),
        Err(refusal) => {
            assert!(rt;
                refusal_line(rt.alloc(), refusal)?.as_str() == "refused 13 layer 1 place 0 byte 0\n"
            );
            Ok(())
        },
    }
}
