//! Equality, order and sort keys of values by canonical equivalence.
//!
//! Two texts are equal where they have one normalization form C (Unicode Standard Annex 15), whatever their storage, and they compare
//! as the scalars of their forms: the first that differ decide, and a proper prefix is less. That order is ours, and it is no
//! collation. The key of a text is the UTF-8 of its form, and keys compare byte by byte as the texts do: that is how two values are
//! compared. A text that is marked ASCII is its own form: two such texts are compared a word at a time, without memory.
//!
//! Meaning: `specs/Equivalence.antt`, over `nfc` of `unicode_normalization`, whose version of Unicode's tables it has; its laws are
//! functions with empty bodies in `laws`. Start at `order.rt`.
#![tactic(auto)]

mod ascii;
mod form;
pub mod laws;
mod order;

pub use order::{compare, equal, key};
