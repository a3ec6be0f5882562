// The hall kind: whole numbers modulo 2^64.
ghost use Rattle.std.specs.Prelude.{◌≡◌, ℤ, refl};
ghost use Rattle.kinds.specs.Exact.{Alike};
ghost use Rattle.kinds.specs.Halls.{hall, hall_ring, hall_words, hall_polar};
ghost use Rattle.kinds.specs.HallsLemmas.{hall_ring_laws, hall_conjugation_laws, hall_word_laws, hall_sample_laws, hall_root_laws, hall_magnitude_laws};

use crate::Kind;
use crate::hall::Hall;
use crate::word::{wrapping_add, wrapping_mul, wrapping_sub};

impl Hall {
    // The sample of a word, and so of every whole number z that has this word.
    pub(crate) fn new(word: i64) -> Hall
        ensures { (z : ℤ) → Alike word z → result ≡ hall z }
    {
        Hall { word }
    }
}

impl Kind for Hall {
    const ROOTS: u8 = 2;

    ghost ROOTS = { 2 };

    ghost counted = { refl };

    ghost ring = { hall_ring };

    ghost encoding = { hall_words };

    ghost polar = { hall_polar };

    ghost algebra = { hall_ring_laws };

    ghost conjugation = { hall_conjugation_laws };

    ghost wordwise = { hall_word_laws };

    ghost encodes = { hall_sample_laws };

    ghost unity = { hall_root_laws };

    ghost magnitudes = { hall_magnitude_laws };

    fn zero() -> Hall {
        Hall::new(0)
    }

    fn one() -> Hall {
        Hall::new(1)
    }

    fn sum(self, other: Hall) -> Hall {
        Hall::new(wrapping_add(self.word, other.word))
    }

    fn difference(self, other: Hall) -> Hall {
        Hall::new(wrapping_sub(self.word, other.word))
    }

    fn product(self, other: Hall) -> Hall {
        Hall::new(wrapping_mul(self.word, other.word))
    }

    fn conjugate(self) -> Hall {
        self
    }

    fn words(self) -> (i64, i64) {
        (self.word, 0)
    }

    fn from_words(first: i64, second: i64) -> Option<Hall> {
        if second == 0 {
            Some(Hall::new(first))
        } else {
            None
        }
    }

    fn root(code: u8) -> Option<Hall> {
        match code {
            0 => Some(Hall::new(1)),
            1 => Some(Hall::new(-1)),
            _ => None,
        }
    }

    fn magnitude(self) -> u64 {
        self.word.unsigned_abs()
    }
}
