//! Tests of values through their public calls, in the slots of a heap and outside of them.
//!
//! A crate with tests is proved twice, once with them, so these stand in a crate of their own, above `str_value`. Heaps are opened and
//! ended by `value_heaps`: each row of a table has a heap of its own, to which all that it took has come back at its end.
#![tactic(auto)]

#[cfg(test)]
mod bounds;
#[cfg(test)]
mod copying;
#[cfg(test)]
mod forms;
#[cfg(test)]
mod learning;
#[cfg(test)]
mod measuring;
#[cfg(test)]
mod parts;
#[cfg(test)]
mod racing;
#[cfg(test)]
mod racing_edits;
#[cfg(test)]
mod readers;
#[cfg(test)]
mod reading;
#[cfg(test)]
mod scarce;
#[cfg(test)]
mod values;
#[cfg(test)]
mod views;
