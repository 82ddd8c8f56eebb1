//! Heaps of values for tests: how they are opened, and how they end once all that was taken has come back.
//!
//! A test opens a heap, works on its pass and ends it so:
//!
//! ```text
//! let (heap, whole) = opened(alloc, &layout(4, 32, 8), &literals).expect(&rt, "a heap");
//! let mut pass = heap.pass(whole);
//! // values are made and released
//! let whole = ended(pass).expect(&rt, "something is still out");
//! assert_eq!(&rt; closed(heap, whole), (4, 4));
//! ```
//!
//! A function that keeps two values over a call cites `proofs/Moving.antt` in its attribute `tactic`: a value stays of its pass's heap.
#![tactic(auto)]

mod ending;
mod opening;

pub use ending::{closed, ended};
pub use opening::{StrHeap, StrWhole, layout, opened, without_slots};
