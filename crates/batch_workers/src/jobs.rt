//! Jobs, and what they leave.

use query_lines::{OpReplies, Ops};
use str_value::{Str, StrPass};

/// A value, and the ops that are to be done on it.
#[derive(Drop)]
pub struct Job<'h> {
    pub value: Str<'h>,
    pub ops: Ops,
}

/// What a job left: its value, and the answers to its ops.
#[derive(Drop)]
pub struct Done<'h> {
    pub value: Str<'h>,
    pub replies: OpReplies,
}

// A job with its number and its share of the pass.
#[derive(Drop)]
pub(crate) struct Task<'h> {
    pub(crate) number: u32,
    pub(crate) pass: StrPass<'h>,
    pub(crate) job: Job<'h>,
}

// What a job left, with its share of the pass.
#[derive(Drop)]
pub(crate) struct Finished<'h> {
    pub(crate) pass: StrPass<'h>,
    pub(crate) done: Done<'h>,
}
