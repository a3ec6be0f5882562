ghost use Rattle.std.specs.Prelude.{◌≡◌, ◌+◌, ◌%◌};
ghost use Rattle.tables.specs.Tables.{words, zeros, written, AreSamples};

use crate::table::WordTable;
use kinds::Kind;
use std::marker::PhantomData;

// The 128 latest values of a row of samples: each goes to the place after the last one's.
// No `Model`: the clauses promise the place of the next value too, so what they see would be both fields again.
#[derive(Drop)]
pub struct DelayLine<K: Kind> {
    table: WordTable<128>,
    // how many values came in, modulo 256: the next one goes to this place modulo 128
    next: u8,
    kind: PhantomData<K>,
    // so that what is read back is a sample
    ghost held: { AreSamples K.Kind.encoding (words table) },
}

impl<K: Kind> DelayLine<K> {
    ghost use Rattle.tables.specs.Lines.{delayed};

    pub fn new() -> Self
        ensures table { words result.table ≡ zeros 128 }
        ensures next { result.next ≡ 0 }
    {
        DelayLine {
            table: WordTable::new(),
            next: 0,
            kind: PhantomData,
        }
    }

    // Takes in the latest value, and gives out the one of `delay` calls ago, for delays from 1 to 128.
    // Other delays read the place of the same remainder modulo 128.
    pub fn exchange(&mut self, delay: u8, latest: K) -> K
        ensures oldest { result ≡ delayed K.Kind self.old delay 0 }
        ensures table { words self.new.table ≡ written 128 (words self.old.table) (self.old.next % 128) (K.Kind.encoding.first latest, K.Kind.encoding.second latest) }
        ensures next { self.new.next ≡ (self.old.next + 1) % 256 }
    {
        let place = usize::from(self.next % 128);
        let (first, second) = self.table.get((place + 256 - usize::from(delay)) % 128);
        let oldest = K::from_words(first, second).unwrap();
        self.next = self.next.wrapping_add(1);
        self.table.put(place, latest.words());
        oldest
    }

    pub fn clear(&mut self)
        ensures table { words self.new.table ≡ zeros 128 }
        ensures next { self.new.next ≡ self.old.next }
    {
        self.table.clear();
    }
}
