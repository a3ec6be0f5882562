// The names of the kinds.
ghost use Rattle.std.specs.Prelude.{◌≡◌};
ghost use Rattle.kinds.specs.KindNames.{kind_of};

use kinds::KindName;

// The kind of a name: hall or radio, in small letters. A public call of its own, beside `number` and `stage`.
pub fn kind_name(word: &str) -> Option<KindName>
    ensures { result ≡ kind_of word.now }
{
    word.parse().ok()
}
