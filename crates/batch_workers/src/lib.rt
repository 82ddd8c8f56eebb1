//! The ops of a line: questions on one value and edits of it, in order; and jobs of such ops beside each other.
//!
//! `run_ops` answers each op on the text that the one before it left. Its answers and the text afterwards are those of the plain fold in
//! `specs/Ops.antt`; what the ops do to the value beside its text, and on the heap, is in `specs/Working.antt`. Start at `run.rt`. `run_batch`
//! does jobs on worker threads, each as if it were alone; its answers and accounts are in `specs/Batch.antt`. Start at `batch.rt`.
//!
//! | file | what it does |
//! |---|---|
//! | `run.rt` | ops in order, one op |
//! | `questions.rt` | places, counts and parts of a text |
//! | `edits.rt` | a part of a text replaced by another text |
//! | `place.rt` | the scalar boundaries that offsets are rounded down to |
//! | `batch.rt` | jobs beside each other: the pass is shared out, and taken back |
//! | `workers.rt` | jobs spread among workers, and what a worker does |
//! | `jobs.rt` | a job, and what it leaves |
#![tactic(auto)]

mod batch;
mod edits;
mod jobs;
mod place;
mod questions;
mod run;
mod workers;

pub use batch::run_batch;
pub use jobs::{Done, Job};
pub use run::run_ops;
