// Worked examples, each a test: nothing here is for other crates to use.
#![tactic(auto)]

#[cfg(test)]
mod code_sheets;
#[cfg(test)]
mod key_refusals;
#[cfg(test)]
mod key_words;
#[cfg(test)]
mod kinds_arithmetic;
#[cfg(test)]
mod pairs_pushes;
#[cfg(test)]
mod soundings;

#[cfg(test)]
use keys::KeyStage;
#[cfg(test)]
use kinds::Kind;
#[cfg(test)]
use pairs::Pair;
#[cfg(test)]
use std::process::Abort;
#[cfg(test)]
use sums::Side;

#[cfg(test)]
fn stage(delay: u8, code: u8) -> KeyStage {
    KeyStage { delay, code }
}

// The sample of two words, or zero if they are no sample's.
#[cfg(test)]
fn sample<K: Kind>(first: i64, second: i64) -> K {
    K::from_words(first, second).unwrap_or(K::zero())
}

// Code A is pushed through one pair and code B through another with the same codes, zeros after them.
// What comes out on the same side adds up to the energy as the last entries come in, and to zero else.
#[cfg(test)]
fn check_correlation<P: Pair + Drop>(rt: &impl Abort, mut one: P, mut other: P) {
    let (span, energy) = one.size();
    for t in 0..400 {
        let a = one.entry_or_zero(Side::A, t);
        let b = other.entry_or_zero(Side::B, t);
        let (p, _) = one.push(a);
        let (_, q) = other.push(b);
        let wanted = if t + 1 == span { i64::from(energy) } else { 0 };
        assert_eq!(rt; p.sum(q).words(), (wanted, 0));
    }
}
