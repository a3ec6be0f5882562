// The line that says why a sounding file is refused.
#![tactic(auto)]

ghost use Rattle.std.specs.Prelude.{◌≡◌, IfOk, string_bytes};
ghost use Rattle.filetext.specs.Lines.{line_of};

use layout::FileRefusal;
use std::alloc::{AllocError, Global};

// The line with its line feed, unless memory runs out.
pub fn refusal_line(heap: Global, refusal: FileRefusal) -> Result<String, AllocError>
    ensures { IfOk result (λ s. string_bytes s ≡ line_of refusal) }
{
    format!(in heap; "{refusal}\n")
}
