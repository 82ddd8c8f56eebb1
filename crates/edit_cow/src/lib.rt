//! Edits of a value: bytes of UTF-8 in place of the text between two indices, or after all of it.
//!
//! An index is resolved and rounded down to a scalar boundary. The refusals come in one order: an index out of range, the first one
//! before the second; the two the wrong way round; bytes that are no UTF-8; a text that would be too long; and want of memory. Each
//! leaves the value and the pass as they were, but that the value's slot may have been asked for where memory is wanting. The answer tells
//! where the new text stands: over the old one, where the value is the only holder of its slot; in its two words; in a new slot; or in a
//! vector of its own. What isn't written over the old text is made first, and the old value is given up then.
//!
//! Meaning: `specs/Edits.antt`, over the edits of texts in `text_spec`. Start at `edits.rt`. The rules are the project's own.
#![tactic(auto)]

mod edits;
mod error;

pub use edits::{append, replace, reserve};
pub use error::EditError;
pub use str_value::Wrote;
