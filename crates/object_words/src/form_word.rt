//! Word 1 of a value that isn't Small, put together.
ghost use Rattle.std.specs.Prelude.{◌≡◌, ◌<◌};
ghost use Rattle.object_words.specs.Rows as rows;

use crate::layout::TOP_SHIFT;

/// The byte that tells the form, and the number of a slot or a literal.
pub fn form_word(top: u64, slot: u32) -> u64
    requires { top < 256 }
    ensures { result ≡ rows.form_word top slot }
{
    (top << TOP_SHIFT) + u64::from(slot)
}
