//! The views of a text as Unicode scalars and as UTF-8 code units.
//!
//! Each call resolves its index and rounds it down to an element of its view first. What an element's offset and index are
//! stands in `specs/Elements.antt`, over the rules of `specs/Rounding.antt` of text_spec. The calls of every view go through
//! `calls.rt`, and those of another crate can too. Start at `scalars.rt`. No call takes memory.
#![tactic(auto)]

mod back;
pub mod calls;
mod kind;
pub mod scalars;
mod signs;
mod spot;
mod steps;
mod turns;
pub mod utf8;
mod walk;

pub use kind::ElementKind;
pub use spot::{Spot, index_of, leaving, spot_of};
pub use walk::walk_on;
