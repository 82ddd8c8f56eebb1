//! The literals that a load may name.
ghost use Rattle.std.specs.Prelude.{◌≡◌, IfOk};
ghost use Rattle.query_session.specs.Literals.{default_literals};

use std::alloc::Global;
use text_spec::{OutOfMemory, TextList};

/// The literals of the heap that a session's values stand in, in the order of their numbers.
pub fn default_literals(alloc: Global) -> Result<TextList, OutOfMemory>
    ensures { IfOk result (λ list. list ≡ default_literals) }
{
    let mut list = TextList::new(alloc);
    list.push("")?;
    list.push("Hello, world!")?;
    list.push("The quick brown fox jumps over the lazy dog")?;
    list.push(
        "ééééééééééééééééééééééééééééééééééééééééééééééééééééééééééééééé😀ééééééééééééééééééééééééééééééééééééééééééééééééééééééééééééééé",
    )?;
    Ok(list)
}
