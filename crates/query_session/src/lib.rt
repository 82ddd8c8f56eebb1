//! A session: names and their texts, and what a command does with them.
//!
//! Contracts see a session as a state, a finite map from names to lists of scalars. A step takes one command and gives its reply
//! and the new state, which are those of the definition `reply_to`.
//!
//! Meaning: `specs/State.antt`, `specs/Reply.antt`, and of ops `specs/Ops.antt` of batch_workers. Start at `session.rt`.
#![tactic(auto)]

mod batch;
mod kept;
mod literals;
mod loads;
mod named;
mod names;
mod session;
mod stored;
mod words;

pub use literals::default_literals;
pub use session::Session;
