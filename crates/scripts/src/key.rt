// The words by which a key is written, and the key that they give.
ghost use Rattle.std.specs.Prelude.{◌≡◌, map, Ok, Err, IfOk, MatchResult};
ghost use Rattle.std.specs.Option.{option_map};
ghost use Rattle.keys.specs.Judged.{judged};
ghost use Rattle.keys.specs.Plans.{plan};
ghost use Rattle.scripts.specs.Keys.{asked, stages_of, key_words_of};

use keys::{Key, KeyRefusal, KeyStage};
use keytext::{kind_name, number, stage};
use kinds::{Kind, KindName};
use std::alloc::{AllocError, Global};
use std::convert::AsStr;

// What the words KIND KERNEL [DELAY:CODE]... ask for.
#[derive(Drop)]
pub struct KeyWords {
    pub kind: KindName,
    // as it was written: the key judges it
    pub kernel: u8,
    pub stages: Vec<KeyStage>,
}

// The stages of some words, absent if one of them is none.
fn stages_of<W: AsStr>(heap: Global, words: &[W]) -> Result<Option<Vec<KeyStage>>, AllocError>
    ensures { IfOk result (λ r. option_map (λ v. v.items) r ≡ stages_of (map W.text words.now)) }
{
    let mut stages = Vec::new(heap);
    for word in words {
        // no `?`: that a word is no stage is no error of memory
        let Some(one) = stage(word.as_str()) else {
            return Ok(None);
        };
        stages.push(one)?;
    }
    Ok(Some(stages))
}

// What some words ask for, absent if one is missing or is not what it should be.
pub fn key_words<W: AsStr>(heap: Global, words: &[W]) -> Result<Option<KeyWords>, AllocError>
    ensures { IfOk result (λ r. option_map asked r ≡ key_words_of (map W.text words.now)) }
{
    let [kind, kernel, stages @ ..] = words else {
        return Ok(None);
    };
    match kind_name(kind.as_str()).zip(number(kernel.as_str())) {
        Some((kind, kernel)) => Ok(stages_of(heap, stages)?.map(|stages| KeyWords {
            kind,
            kernel,
            stages,
        })),
        None => Ok(None),
    }
}

impl KeyWords {
    // The key that is asked for, filled for the kind K, or why it is refused.
    pub fn key<K: Kind>(&self) -> Result<Key, KeyRefusal>
        ensures judged { MatchResult result (λ _. judged K.Kind.polar.count self.now.kernel self.now.stages.items ≡ Ok tt) (λ e. judged K.Kind.polar.count self.now.kernel self.now.stages.items ≡ Err e) }
        ensures key { IfOk result (λ key. key ≡ plan self.now.kernel K.Kind.polar.count self.now.stages.items) }
    {
        let mut key = Key::built_in();
        key.fill::<K>(self.kernel, self.stages.as_slice())?;
        Ok(key)
    }
}
