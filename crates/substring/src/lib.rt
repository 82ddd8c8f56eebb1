//! Slices of values: a part of a value's text between two scalar boundaries, as a text of its own.
//!
//! A `Sub` holds a copy of its base and the two boundaries, as places in the base's storage. It is a `Text` with the base's words and
//! the base's positions, so an index of the one is an index of the other; its views, its Characters among them, are those of its own
//! scalars. `slice` resolves two indices and rounds both down to scalar boundaries; `Sub::to_str` makes a value of the slice's text.
//!
//! Meaning: `specs/Slice.antt`, and of `slice` with its refusals `specs/Slicing.antt`. Start at `slicing.rt`. The copy of a base in a slot
//! shares it, where the pass shows a credit. Memory is taken as `Str::copy` takes it, and by a new value. The rules are the project's own,
//! after Swift's substrings.
#![tactic(auto)]

mod error;
mod slicing;
mod sub_text;
mod sub_value;
#[cfg(test)]
mod tests;
#[cfg(test)]
mod view_tests;

pub use error::SliceError;
pub use slicing::slice;
pub use sub_value::Sub;
