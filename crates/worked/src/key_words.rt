// The words by which a key is written.
use keys::KeyStage;
use keytext::{kind_name, number, stage};
use kinds::KindName;
use scripts::{KeyWords, key_words};
use std::test::Fail;

#[test]
fn kind_names(rt: HostRuntime) {
    assert_eq!(rt; kind_name("hall"), Some(KindName::Hall));
    assert_eq!(rt; kind_name("radio"), Some(KindName::Radio));
    assert!(rt; kind_name("Hall").is_none());
    assert!(rt; kind_name("").is_none());
}

#[test]
fn numbers_count_up_to_255(rt: HostRuntime) {
    assert_eq!(rt; number("0"), Some(0));
    assert_eq!(rt; number("255"), Some(255));
    assert_eq!(rt; number("256"), Some(255));
    assert_eq!(rt; number("99999999999999999999999"), Some(255));
}

#[test]
fn numbers_are_digits_alone(rt: HostRuntime) {
    assert!(rt; number("").is_none());
    assert!(rt; number("-1").is_none());
    assert!(rt; number("1a").is_none());
    assert!(rt; number("+1").is_none());
}

#[test]
fn stages_are_two_numbers(rt: HostRuntime) {
    assert_eq!(rt; stage("1:0"), Some(KeyStage { delay: 1, code: 0 }));
    assert_eq!(rt; stage("80:3"), Some(KeyStage { delay: 80, code: 3 }));
    for word in ["1:", ":1", "1", "1:2:3", "1:x", ":"] {
        assert!(rt; stage(word).is_none());
    }
}

// The kind, the kernel and how many stages are asked for.
fn outline(asked: KeyWords) -> (KindName, u8, usize) {
    (asked.kind, asked.kernel, asked.stages.len())
}

#[test]
fn words_of_a_key(rt: HostRuntime) -> Result<(), Fail> {
    let asked = key_words(rt.alloc(), &["radio", "10", "20:3", "10:2"])?;
    assert_eq!(rt; asked.map(outline), Some((KindName::Radio, 10, 2)));
    let asked = key_words(rt.alloc(), &["hall", "1"])?;
    assert_eq!(rt; asked.map(outline), Some((KindName::Hall, 1, 0)));
    assert!(rt; key_words(rt.alloc(), &["hall"])?.is_none());
    assert!(rt; key_words(rt.alloc(), &["hall", "1", "1"])?.is_none());
    Ok(())
}
