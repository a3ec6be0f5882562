// The arithmetic of both kinds, at the edges of the words too.
use crate::sample;
use kinds::Kind;
use kinds::hall::Hall;
use kinds::radio::Radio;

// The root of a code, or zero if it has none.
fn root<K: Kind>(code: u8) -> K {
    K::root(code).unwrap_or(K::zero())
}

#[test]
fn hall_sums_wrap(rt: HostRuntime) {
    let most: Hall = sample(i64::MAX, 0);
    let least: Hall = sample(i64::MIN, 0);
    assert_eq!(rt; most.sum(Hall::one()), least);
    assert_eq!(rt; least.difference(Hall::one()), most);
    assert_eq!(rt; least.sum(least), Hall::zero());
    assert_eq!(rt; most.difference(least).words(), (-1, 0));
}

#[test]
fn hall_products_wrap(rt: HostRuntime) {
    let least: Hall = sample(i64::MIN, 0);
    let minus: Hall = root(1);
    let wide: Hall = sample(1 << 32, 0);
    assert_eq!(rt; least.product(minus), least);
    assert_eq!(rt; wide.product(wide), Hall::zero());
    let half: Hall = sample(1 << 31, 0);
    assert_eq!(rt; wide.product(half), least);
}

#[test]
fn hall_magnitudes(rt: HostRuntime) {
    let least: Hall = sample(i64::MIN, 0);
    let most: Hall = sample(i64::MAX, 0);
    assert_eq!(rt; least.magnitude(), 1 << 63);
    assert_eq!(rt; most.magnitude(), (1 << 63) - 1);
    assert_eq!(rt; least.conjugate(), least);
}

#[test]
fn hall_second_word_is_0(rt: HostRuntime) {
    assert!(rt; Hall::from_words(5, 0).is_some());
    assert!(rt; Hall::from_words(5, 1).is_none());
    assert!(rt; Hall::from_words(5, -1).is_none());
    assert!(rt; Hall::from_words(0, i64::MIN).is_none());
}

#[test]
fn hall_roots(rt: HostRuntime) {
    let minus: Hall = root(1);
    assert_eq!(rt; Hall::root_count(), 2);
    assert_eq!(rt; Hall::root(0), Some(Hall::one()));
    assert_eq!(rt; minus.words(), (-1, 0));
    assert_eq!(rt; minus.product(minus), Hall::one());
    assert!(rt; Hall::root(2).is_none());
    assert!(rt; Hall::root(255).is_none());
}

#[test]
fn radio_sums_wrap(rt: HostRuntime) {
    let a: Radio = sample(i64::MAX, i64::MIN);
    let b: Radio = sample(1, -1);
    assert_eq!(rt; a.sum(b).words(), (i64::MIN, i64::MAX));
    assert_eq!(rt; a.sum(b).difference(b), a);
    assert_eq!(rt; Radio::zero().difference(a).words(), (-i64::MAX, i64::MIN));
}

#[test]
fn radio_products(rt: HostRuntime) {
    let i: Radio = root(1);
    let a: Radio = sample(2, -5);
    assert_eq!(rt; a.product(a.conjugate()).words(), (29, 0));
    assert_eq!(rt; i.product(i).words(), (-1, 0));
    assert_eq!(rt; i.product(a).words(), (5, 2));
    let least: Radio = sample(0, i64::MIN);
    assert_eq!(rt; least.product(i).words(), (i64::MIN, 0));
    let wide: Radio = sample(1 << 32, 1 << 32);
    assert_eq!(rt; wide.product(wide), Radio::zero());
}

#[test]
fn radio_conjugates_and_magnitudes(rt: HostRuntime) {
    let a: Radio = sample(2, -5);
    assert_eq!(rt; a.conjugate().words(), (2, 5));
    assert_eq!(rt; a.magnitude(), 5);
    let least: Radio = sample(3, i64::MIN);
    assert_eq!(rt; least.conjugate(), least);
    assert_eq!(rt; least.magnitude(), 1 << 63);
}

#[test]
fn radio_roots(rt: HostRuntime) {
    let i: Radio = root(1);
    assert_eq!(rt; Radio::root_count(), 4);
    assert_eq!(rt; Radio::root(2), Some(i.product(i)));
    assert_eq!(rt; Radio::root(3), Some(i.conjugate()));
    assert_eq!(rt; i.product(root(3)), Radio::one());
    assert!(rt; Radio::root(4).is_none());
    assert!(rt; Radio::root(255).is_none());
}
