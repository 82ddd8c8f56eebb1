//! What calls did on the shared heap, as one account: the call's own events in order, the free slots, the credits.
//!
//! Each call here is made by a pass and a reference that has no places, and leaves both so: the reference meets the pass, makes
//! its event and meets it again. So all places are with the pass, its front has every event of every call that was made with it,
//! and the calls of one pass are in order whatever other threads did between them.
//!
//! `Did es p q` says that the call's own events `es`, in this order, led from the pass p to the pass q; `Keeps` says what became
//! of the credits; `Made` is `Did` where threads of the call worked beside each other. `Strung` says it of a reference that makes several
//! events between two meetings, as the words that it writes. How such calls compose, and what own events say of the whole history,
//! stands in `laws.rt`; callers cite the lemmas of `proofs/` that those laws name.
//!
//! Meaning: `specs/Account.antt`. Start at `calls.rt`. No call takes memory.
#![tactic(auto)]

mod calls;
pub mod laws;
#[cfg(test)]
mod tests;

pub use calls::{ask_sole, attach, detach, draw, let_go, look, publish, share};
