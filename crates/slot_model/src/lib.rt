//! The model of shared storage: the heap of one thread, the events on it, and which lists of events are legal.
//!
//! A heap is a fixed number of slots, each of them in one of four states:
//!
//! | state | what it holds |
//! |---|---|
//! | idle | nothing |
//! | held | a reference count of 1 or more, a list of words, and perhaps the number of the slot that is its side |
//! | closing | perhaps the number of the slot that is its side: the last reference is gone, the side isn't given back yet |
//! | side | the number of the slot that it is the side of, and a list of words |
//!
//! An event is one step on shared words that counts, with the answer that the step gave. A list of events is legal
//! where each of them, in order, can happen on the heap of one thread with the answer that it records.
//!
//! `check_history` judges a list of events; `laws` says what holds of each legal one.
//!
//! Meaning: `specs/History.antt`. Start at `event.rt`. `check_history` alone takes memory: for each slot 56 bytes, and
//! the words of those slots that a Write changed.
#![tactic(auto)]

mod advance;
mod applies;
mod attach;
mod check;
mod event;
pub mod laws;
mod layout;
mod state;
mod words;

pub use attach::Attach;
pub use check::{CheckError, check_history};
pub use event::Event;
pub use layout::Layout;
pub use words::Words;
