//! The rows that a program's literals stand in: each literal as words.
//!
//! | word of a row | what |
//! |---|---|
//! | 0 | the count word: UTF-8 in a row of the table, its number of bytes, whether it is ASCII |
//! | k + 1 | content word k: bytes `8 * k` on, eight to a word, least first, zeros behind the last |
//!
//! The rows stand one behind the other, in the order of the literals. Meaning: `specs/Rows.antt`; the count word is that of
//! `object_words`. Start at `rows.rt`.
#![tactic(auto)]

pub mod laws;
mod rows;
#[cfg(test)]
mod tests;

pub use rows::{Rows, first_too_long, rows_after};
