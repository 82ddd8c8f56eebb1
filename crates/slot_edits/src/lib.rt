//! Edits of a UTF-8 text that stands in a slot of shared storage: in place where its reference is alone, and else into a new slot.
//!
//! Word 0 of the slot is the count word of `object_words`; content word `k`, eight bytes least first, is word `k + 1`. Bytes behind
//! the text's last may be anything before an edit and are zeros in each word that one writes. An edit puts bytes in place of a
//! `Part` of the text, straight from the old words, without a copy of the text: in place it reads and writes the words from the part
//! on, in an order in which each word is read before it is overwritten (`rewriting.rt`), the count word last; copied it writes a
//! draft word by word (`copying.rt`). Each call tells its own events and its credits by an account of `slot_accounts`.
//!
//! That the bytes are UTF-8 before and after is the caller's: the law in `laws.rt` says what text an edit makes of a text.
//! Meaning: `specs/Edits.antt`, over `specs/Parts.antt` and `specs/Texts.antt`. Start at `stored.rt`. No call takes memory.
#![tactic(auto)]

mod copying;
mod in_place;
pub mod laws;
mod packing;
mod part;
mod reading;
mod rewriting;
mod splicing;
mod stored;

pub use copying::replace_copied;
pub use in_place::{ready, replace_in_place};
pub use part::Part;
pub use stored::{Outcome, Readied, replace, reserve};
