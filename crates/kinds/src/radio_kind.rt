// The radio kind: Gaussian integers x + iy, both words modulo 2^64.
ghost use Rattle.std.specs.Prelude.{◌≡◌, ℤ, refl, ◌+ℤ◌, ◌-ℤ◌, ◌*ℤ◌};
ghost use Rattle.kinds.specs.Exact.{Alike};
ghost use Rattle.kinds.specs.Radios.{radio, radio_ring, radio_words, radio_polar};
ghost use Rattle.kinds.specs.RadiosLemmas.{radio_ring_laws, radio_conjugation_laws, radio_word_laws, radio_sample_laws, radio_root_laws, radio_magnitude_laws};

use crate::Kind;
use crate::radio::Radio;
use crate::word::{wrapping_add, wrapping_mul, wrapping_neg, wrapping_sub};

impl Radio {
    // The sample of two words, and so of every u + iv that has these words.
    pub(crate) fn new(x: i64, y: i64) -> Radio
        ensures { (u v : ℤ) → Alike x u → Alike y v → result ≡ radio (u, v) }
    {
        Radio { x, y }
    }

    // The first word of a product: xu - yv.
    fn product_x(self, other: Radio) -> i64
        ensures { Alike result (self.x *ℤ other.x -ℤ self.y *ℤ other.y) }
    {
        let xu = wrapping_mul(self.x, other.x);
        let yv = wrapping_mul(self.y, other.y);
        wrapping_sub(xu, yv)
    }

    // The second word of a product: xv + yu.
    fn product_y(self, other: Radio) -> i64
        ensures { Alike result (self.x *ℤ other.y +ℤ self.y *ℤ other.x) }
    {
        let xv = wrapping_mul(self.x, other.y);
        let yu = wrapping_mul(self.y, other.x);
        wrapping_add(xv, yu)
    }
}

impl Kind for Radio {
    const ROOTS: u8 = 4;

    ghost ROOTS = { 4 };

    ghost counted = { refl };

    ghost ring = { radio_ring };

    ghost encoding = { radio_words };

    ghost polar = { radio_polar };

    ghost algebra = { radio_ring_laws };

    ghost conjugation = { radio_conjugation_laws };

    ghost wordwise = { radio_word_laws };

    ghost encodes = { radio_sample_laws };

    ghost unity = { radio_root_laws };

    ghost magnitudes = { radio_magnitude_laws };

    fn zero() -> Radio {
        Radio::new(0, 0)
    }

    fn one() -> Radio {
        Radio::new(1, 0)
    }

    fn sum(self, other: Radio) -> Radio {
        Radio::new(wrapping_add(self.x, other.x), wrapping_add(self.y, other.y))
    }

    fn difference(self, other: Radio) -> Radio {
        Radio::new(wrapping_sub(self.x, other.x), wrapping_sub(self.y, other.y))
    }

    // (x + iy)(u + iv) = (xu - yv) + i(xv + yu)
    fn product(self, other: Radio) -> Radio {
        Radio::new(self.product_x(other), self.product_y(other))
    }

    fn conjugate(self) -> Radio {
        Radio::new(self.x, wrapping_neg(self.y))
    }

    fn words(self) -> (i64, i64) {
        (self.x, self.y)
    }

    fn from_words(first: i64, second: i64) -> Option<Radio> {
        Some(Radio::new(first, second))
    }

    fn root(code: u8) -> Option<Radio> {
        match code {
            0 => Some(Radio::new(1, 0)),
            1 => Some(Radio::new(0, 1)),
            2 => Some(Radio::new(-1, 0)),
            3 => Some(Radio::new(0, -1)),
            _ => None,
        }
    }

    fn magnitude(self) -> u64 {
        self.x.unsigned_abs().max(self.y.unsigned_abs())
    }
}
