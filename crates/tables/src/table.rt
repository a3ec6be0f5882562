ghost use Rattle.std.specs.Prelude.{◌≡◌};
ghost use Rattle.tables.specs.Tables.{words, zeros, written, sample_of};

use kinds::Kind;

// N places for the two words of a sample. Past the last place there are zeros, and nothing is written there.
#[derive(Drop)]
pub struct WordTable<const N: usize> {
    // Two arrays: with one array of pairs a push through a cascade took a seventh longer.
    first: [i64; N],
    second: [i64; N],
}

impl<const N: usize> WordTable<N> {
    pub fn new() -> Self
        ensures { words result ≡ zeros N }
    {
        WordTable {
            first: [0; N],
            second: [0; N],
        }
    }

    pub fn get(&self, place: usize) -> (i64, i64)
        ensures { result ≡ words self.now place }
    {
        if place < N {
            (self.first[place], self.second[place])
        } else {
            (0, 0)
        }
    }

    pub fn put(&mut self, place: usize, value: (i64, i64))
        ensures { words self.new ≡ written N (words self.old) place value }
    {
        if place < N {
            self.first[place] = value.0;
            self.second[place] = value.1;
        }
    }

    pub fn clear(&mut self)
        ensures { words self.new ≡ zeros N }
    {
        *self = WordTable::new();
    }

    // The sample at a place, read back through its kind: zero where the words are no sample's.
    pub fn sample<K: Kind>(&self, place: usize) -> K
        ensures { result ≡ sample_of K.Kind.ring K.Kind.encoding (words self.now place) }
    {
        let (first, second) = self.get(place);
        K::from_words(first, second).unwrap_or(K::zero())
    }
}
