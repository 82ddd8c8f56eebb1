//! Index words: a place in a text as one 64-bit word, with what its maker knew about the place.
//!
//! The word, from the highest bit down:
//!
//! | bits | what | unit |
//! |---|---|---|
//! | 63 to 16 | position | code units of the storage: bytes in UTF-8, 16-bit units in UTF-16 |
//! | 15 to 14 | transcoded offset: how far into its scalar the place lies, in the other encoding | code units of the other encoding |
//! | 13 to 8 | cached stride: the length of the Character that starts here, 0 where it isn't known | code units of the storage |
//! | 7 to 4 | zero | |
//! | 3 | marked for UTF-16 | |
//! | 2 | marked for UTF-8 | |
//! | 1 | Character aligned: the place is a boundary of Characters (extended grapheme clusters) | |
//! | 0 | scalar aligned: the place is a boundary of Unicode scalars | |
//!
//! Two indices are one place where bits 63 to 14 agree: equality, order and hash look at nothing else.
//! The numbers of this table stand in `layout.rt`, once each. Meaning: `specs/Fields.antt`. Start at `index.rt`.
//! No call takes memory, and each is a few instructions. The layout is the project's own, after the index of
//! Swift's native strings.
#![tactic(auto)]

mod index;
pub mod laws;
mod layout;

pub use index::Index;
