// The words of a key and of a script of calls: what the words of a line mean, and how answers are written.
#![tactic(auto)]

mod key;
mod line;
mod numbers;
mod text;

pub use key::{KeyWords, key_words};
pub use line::call_of;
pub use numbers::{index, word};
pub use text::{answer_text, answered, key_refusal_text, line_text};
