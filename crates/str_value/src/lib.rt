//! The value: a text of Unicode scalars that names denote, in the forms that Swift's native strings have.
//!
//! A `Str` is two words, an `Object`, and where its code units stand:
//!
//! | form | where | made by |
//! |---|---|---|
//! | Small | in the two words, at most 15 bytes | UTF-8 |
//! | Native | in a slot of the heap, UTF-8 | longer UTF-8, where the pass shows a slot and a credit |
//! | Foreign | in a slot of the heap, UTF-16 with surrogates without their other half | UTF-16, where the pass shows them |
//! | Literal | in a literal of the heap, UTF-8 | `Str::literal` |
//! | Owned | in a vector of its own, UTF-8 or UTF-16 | anything else |
//!
//! A value in a slot holds one reference and one credit, and no places: all calls on it are made through the pass, which has the place of
//! each event. Each call's contract lists its events (`Did` of `slot_accounts`) and what became of credits and slots. Copies share a
//! slot, and a text learns its breadcrumbs, one at each 64th UTF-16 unit. A `Str` is a `Text`, read word by word. Contracts see it as its
//! scalars, the row of its two words, its content words and its place. The lifetime `'h` is that of the heap.
//!
//! Meaning: `specs/Meaning.antt`. Start at `value.rt`.
#![tactic(auto)]

mod byte_writer;
mod copies;
mod drafting;
mod error;
pub mod laws;
mod learning;
mod lengths;
mod limits;
mod literal_values;
mod making_utf16;
mod making_utf8;
mod own_splicing;
mod parts;
mod replacing;
mod reserving;
mod slot_splicing;
mod small;
mod splicing;
mod storage;
mod taking;
mod text;
mod units;
mod value;
mod wrote;

pub use error::MakeError;
pub use learning::Learned;
pub use lengths::Lengths;
pub use limits::{CRUMB_STRIDE, MAX_TEXT_BYTES};
pub use storage::{StrCrumbs, StrPass};
pub use value::Str;
pub use wrote::Wrote;
