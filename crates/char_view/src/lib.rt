//! The view of a text as Characters: extended grapheme clusters (UAX #29, section 3.1), by the rules of `unicode_segmentation`.
//!
//! Each call resolves its index and rounds it down to the start of a Character first. What the Characters of a text are stands in
//! `specs/Characters.antt`, over lists of scalars; what their indices are and what the calls answer in `specs/Answers.antt`.
//! A walk goes from the text's start with one cursor, to which the text is handed in pieces of at most 64 bytes from an array.
//! Start at `characters.rt`. No call takes memory.
#![tactic(auto)]

pub mod characters;
mod context;
mod indices;
pub mod laws;
mod piece;
mod place;
mod span;
mod walk;
