// The stages of a key.
ghost use Rattle.std.specs.Prelude.{◌≡◌};
ghost use Rattle.std.specs.Option.{option_map};
ghost use Rattle.keytext.specs.Stages.{parts, cut, stage_of};

use crate::numbers::number;
use keys::KeyStage;

// What stands before and after the first colon.
fn cut_at_colon(word: &str) -> Option<(&str, &str)>
    ensures { option_map parts result ≡ cut word.now }
{
    word.split_once(':')
}

// The stage of a word DELAY:CODE, two numbers with one colon between them.
pub fn stage(word: &str) -> Option<KeyStage>
    ensures { result ≡ stage_of word.now }
{
    let (delay, code) = cut_at_colon(word)?;
    let delay = number(delay)?;
    let code = number(code)?;
    Some(KeyStage { delay, code })
}
