// Which numbers a key refuses, with which number and place, and that a refusal leaves the key as it was.
use crate::stage;
use keys::{Key, KeyRefusal, KeyStage, check_kernel, check_stage_count, delays_fit};
use kinds::Kind;
use kinds::hall::Hall;
use kinds::radio::Radio;
use refusals::{Refused, Told};
use std::process::Abort;
use std::test::Fail;

// A filling for the kind K is refused with this number and place, and leaves the key as it was.
fn check_refused<K: Kind>(
    rt: &impl Abort,
    kernel: u8,
    stages: &[KeyStage],
    number: u8,
    place: usize,
) -> Result<(), Fail> {
    let mut key = Key::built_in();
    key.fill::<Hall>(1, &[stage(2, 1), stage(1, 0)])?;
    let before = key;
    let layer = 2;
    assert_eq!(rt;
        key.fill::<K>(kernel, stages)
            .map_err(|refusal| refusal.told()),
        Err(Told {
            number,
            layer,
            place
        })
    );
    assert_eq!(rt; key, before);
    Ok(())
}

#[test]
fn wrong_kernels(rt: HostRuntime) -> Result<(), Fail> {
    for kernel in [0, 2, 9, 11, 255] {
        check_refused::<Hall>(&rt, kernel, &[], 1, 0)?;
        assert_eq!(rt; check_kernel(kernel), Err(KeyRefusal::Kernel));
        assert_eq!(rt; check_stage_count(kernel, 0), Err(KeyRefusal::Kernel));
    }
    assert_eq!(rt; check_kernel(1), Ok(()));
    assert_eq!(rt; check_kernel(10), Ok(()));
    Ok(())
}

#[test]
fn too_many_stages(rt: HostRuntime) -> Result<(), Fail> {
    let five = [
        stage(10, 0),
        stage(20, 0),
        stage(40, 0),
        stage(80, 0),
        stage(160, 0),
    ];
    check_refused::<Hall>(&rt, 10, &five, 2, 0)?;
    check_refused::<Radio>(&rt, 1, &[stage(1, 0); 8], 2, 0)?;
    for (kernel, most) in [(1, 7), (10, 4)] {
        assert_eq!(rt; check_stage_count(kernel, 0), Ok(()));
        assert_eq!(rt; check_stage_count(kernel, most), Ok(()));
        assert_eq!(rt;
            check_stage_count(kernel, most + 1),
            Err(KeyRefusal::StageCount)
        );
        assert_eq!(rt;
            check_stage_count(kernel, usize::MAX),
            Err(KeyRefusal::StageCount)
        );
    }
    Ok(())
}

#[test]
fn wrong_delays(rt: HostRuntime) -> Result<(), Fail> {
    check_refused::<Hall>(&rt, 1, &[stage(2, 0)], 3, 0)?;
    check_refused::<Hall>(&rt, 1, &[stage(1, 0), stage(1, 0)], 3, 0)?;
    check_refused::<Hall>(&rt, 1, &[stage(1, 0), stage(3, 0)], 3, 0)?;
    check_refused::<Radio>(&rt, 10, &[stage(10, 0), stage(30, 0)], 3, 0)?;
    assert!(rt; !delays_fit(1, &[stage(0, 0)]));
    assert!(rt; !delays_fit(10, &[stage(1, 0), stage(2, 0)]));
    assert!(rt; delays_fit(10, &[stage(20, 9), stage(10, 9)]));
    assert!(rt; delays_fit(1, &[]));
    Ok(())
}

#[test]
fn wrong_codes(rt: HostRuntime) -> Result<(), Fail> {
    check_refused::<Hall>(&rt, 1, &[stage(1, 2), stage(2, 0)], 4, 0)?;
    check_refused::<Hall>(&rt, 1, &[stage(2, 1), stage(1, 2)], 4, 1)?;
    check_refused::<Hall>(&rt, 1, &[stage(4, 1), stage(1, 255), stage(2, 2)], 4, 1)?;
    check_refused::<Radio>(&rt, 10, &[stage(20, 3), stage(10, 4)], 4, 1)?;
    let mut key = Key::built_in();
    assert_eq!(rt;
        key.fill::<Radio>(10, &[stage(20, 3), stage(10, 2)]),
        Ok(())
    );
    Ok(())
}

// Where two faults meet, the one that is tested first is told.
#[test]
fn order_of_tests(rt: HostRuntime) -> Result<(), Fail> {
    check_refused::<Hall>(&rt, 2, &[stage(1, 0); 8], 1, 0)?;
    check_refused::<Hall>(&rt, 10, &[stage(1, 0); 5], 2, 0)?;
    check_refused::<Hall>(&rt, 1, &[stage(1, 2), stage(3, 0)], 3, 0)
}

// An accepted filling replaces the key whole.
#[test]
fn filled_again(rt: HostRuntime) -> Result<(), Fail> {
    let mut key = Key::built_in();
    key.fill::<Hall>(10, &[stage(20, 1), stage(10, 0)])?;
    assert!(rt; key != Key::built_in());
    key.fill::<Hall>(1, &[])?;
    assert_eq!(rt; key, Key::built_in());
    key.fill::<Radio>(1, &[])?;
    assert!(rt; key != Key::built_in());
    Ok(())
}
