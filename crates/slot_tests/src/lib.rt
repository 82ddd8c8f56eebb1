//! Owners of one heap at work, alone and in threads: what no clause of `slot_table` says of its calls together; and texts in
//! its slots, edited by `slot_edits`.
//!
//! The crate has tests alone. They stand here since a crate with tests is proved twice, and `slot_table` takes long to prove.
#![tactic(auto)]

#[cfg(test)]
mod alone;
#[cfg(test)]
mod heaps;
#[cfg(test)]
mod literals;
#[cfg(test)]
mod opening;
#[cfg(test)]
mod racing;
#[cfg(test)]
mod text_edits;
