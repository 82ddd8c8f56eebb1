//! A heap of slots over atomic words, which threads share: passes, drafts and references, over one legal history.
//!
//! A heap has a fixed number of slots and of literals. A pass holds free slots and credits, a draft is one free slot being
//! filled, a reference is one holder of a published slot. Each owns a seat of one table, moves between threads as any value does,
//! and takes one credit, so a pass that has all credits is the only owner left. An owner that is dropped loses what it held.
//!
//! The words of the table, each of 64 bits; slot s stands at `b = s * (capacity_words + 2)`:
//!
//! | word | what |
//! |---|---|
//! | 0 | 0, for ever |
//! | b + 1 | the reference count of slot s, 0 where it isn't held |
//! | b + 2 | 0, or 1 more than the number of the slot that is its side |
//! | b + 3 + k | data word k, for k below `capacity_words` |
//! | behind the slots | the literals' rows: a count word, then eight bytes to a word |
//!
//! Each event is one atomic step, and between any two steps `specs/Holdings.antt` holds: there is one legal history, the
//! words show the heap that it leaves, and what the owners hold adds up. Contracts see of an owner its heap, its front (the history as
//! far as it has seen it) and its places (the numbers of its own events in it): `specs/Owners.antt`.
//!
//! The steps, by the names in `plays`. Without an event: a split or a join loads word 0; a data word (`Reading`), a word of a side
//! (`SideReading`) or of a literal (`Reciting`) is loaded; a word is stored into a draft (`Drafting`). With one:
//!
//! | event | step |
//! |---|---|
//! | Publish | a store of 1 into the count (`Publishing`) |
//! | Retain, Release | 1 is added to the count (`Retaining`), or taken from it (`Releasing`) |
//! | Sole | a load of the count (`Asking`) |
//! | Write | a store into a data word of a bare reference's slot (`Writing`) |
//! | Look | a load of the word that shows the side (`Looking`) |
//! | Install | a compare and exchange of that word from 0 (`Installing`) |
//! | Detach | that word is exchanged for 0, by a closing seat (`GivingBack`) or a sole reference (`Detaching`) |
//!
//! No call waits for another thread. Start at `pass.rt`. Owners at work are tried in `slot_tests`.
#![tactic(auto)]

mod addresses;
mod draft;
mod heap;
pub mod laws;
pub mod limits;
mod literal;
mod numbers;
mod opening;
mod pass;
mod plays;
mod reference;
mod side;
mod view;

pub use draft::Draft;
pub use heap::{Closed, Heap, HeapRule, Key, Whole};
pub use literal::Literal;
pub use opening::OpenError;
pub use pass::{Missing, Pass};
pub use reference::Ref;
pub use side::Installed;
pub use view::{Role, SeatView};
