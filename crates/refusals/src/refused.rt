ghost use Rattle.std.specs.Prelude.{◌≡◌, ℕ};

use crate::told::Told;

// The refusals of a key, of a sounder and of a file. No two of the three share a number.
pub trait Refused {
    // The numbers are 1 to 16.
    ghost number: { Self → ℕ };

    // A file is layer 1, a key layer 2, a sounder layer 3.
    ghost layer: { Self → ℕ };

    // Where: each layer says what it counts.
    ghost place: { Self → ℕ };

    fn number(&self) -> u8
        ensures { result ≡ number self.now };

    fn layer(&self) -> u8
        ensures { result ≡ layer self.now };

    fn place(&self) -> usize
        ensures { result ≡ place self.now };

    // The three together, which print as one text.
    fn told(&self) -> Told
        ensures number { result.number ≡ number self.now }
        ensures layer { result.layer ≡ layer self.now }
        ensures place { result.place ≡ place self.now }
    {
        Told {
            number: self.number(),
            layer: self.layer(),
            place: self.place(),
        }
    }
}
