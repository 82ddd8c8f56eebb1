//! Indices resolved on a text, and rounded down to an element of each view.
//!
//! An index is read in code units of the storage, or, where it is marked for the other encoding alone, as an offset in
//! that encoding. Nothing that is out of range is clamped: it is refused with three numbers. The floors go down to the
//! scalar boundary at the place or before it; between the units of one scalar they keep the place where the view has an
//! element there. What an index means stands in `specs/Resolving.antt`, over the rules of `specs/Rounding.antt` of
//! text_spec. Start at `resolution.rt`. No call takes memory. The rules are the project's own, after Swift's strings.
#![tactic(auto)]

mod floors;
mod place;
mod resolution;
mod walk;

pub use floors::{scalar_floor, utf8_floor, utf16_floor};
pub use place::{bounds, index_from};
pub use resolution::{resolve, scalar_boundary};
