//! What readers ask of this crate's words. Each law is the contract of a function with an empty body.
ghost use Rattle.std.specs.Prelude.{◌≡◌};
ghost use Rattle.slot_table.specs.Laws.{LastWriteIsRead};

use crate::limits::{
    LEAST_CAPACITY_WORDS, LEAST_CREDITS, MOST_CAPACITY_WORDS, MOST_CREDITS, MOST_LITERALS,
    MOST_SLOTS, MOST_WORDS,
};

/// The limits of a heap, as numbers.
pub fn limits_are_so()
    ensures capacity_words { (LEAST_CAPACITY_WORDS ≡ 2) × (MOST_CAPACITY_WORDS ≡ 1048576) }
    ensures slots { MOST_SLOTS ≡ 65536 }
    ensures credits { (LEAST_CREDITS ≡ 1) × (MOST_CREDITS ≡ 1048576) }
    ensures words { MOST_WORDS ≡ 16777216 }
    ensures literals { MOST_LITERALS ≡ 256 }
{}

/// A reference's words after any sequence of writes: each is as it was last written, and else as it was published.
///
/// `Ref::write` makes of the known words what `put` does, and `Ref::read` reads them.
pub fn last_write_is_read()
    ensures { LastWriteIsRead }
{}
