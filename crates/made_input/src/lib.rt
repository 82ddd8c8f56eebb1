//! The input that is made from a number: a source text, and batches that ask of it and edit it, with no input read.
//!
//! The made input is a source, so that what reads an input reads it too. It never fails, and holds one line at a time.
//!
//! Meaning: `specs/Made.antt`, over `specs/Draws.antt` and `specs/Pieces.antt`. Start at `made.rt`.
#![tactic(auto)]

mod draws;
pub mod laws;
mod line;
mod made;
mod ops;
mod pieces;
#[cfg(test)]
mod tests;

pub use made::MadeInput;
