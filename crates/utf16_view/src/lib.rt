//! The view of a text as UTF-16 code units, and offsets in them.
//!
//! The calls go through those of every view in unit_views. Where an element's offset and index are defined: `specs/Elements.antt`
//! there. Start at `utf16.rt`. No call takes memory.
#![tactic(auto)]

mod from_crumbs;
pub mod utf16;
