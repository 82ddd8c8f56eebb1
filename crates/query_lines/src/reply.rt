//! What is answered to a line.

use crate::{Bytes, JobReplies, OpReplies, View};
use std::cmp::Ordering;

/// The answer to one op.
#[derive(Debug, Drop)]
pub enum OpReply {
    /// A scalar boundary: its offset in UTF-16 code units, its offset in UTF-8 bytes, and the number of the scalar there, if it isn't the end.
    Place {
        utf16: u64,
        utf8: u64,
        value: Option<u32>,
    },
    /// A text, in UTF-8.
    Text(Bytes),
    /// The three counts of the text after an edit.
    Counts {
        scalars: u64,
        utf16: u64,
        utf8: u64,
    },
    /// A number of elements.
    Number(u64),
    /// An offset was above the text's length, or a pair of offsets was out of order. `length` is the text's, in `unit`.
    OutOfBounds {
        unit: View,
        length: u64,
    },
    /// The text that was to be made or answered passes a limit.
    TooLong,
}

/// Why a whole line was refused.
#[derive(Debug, Drop)]
pub enum Refusal {
    /// The line is no command.
    Syntax,
    /// No text has this name.
    NoName(Bytes),
    /// No literal has the number.
    NoLiteral,
    /// The bytes aren't UTF-8. `valid` of them, from the start, are.
    NotUtf8 { valid: u64 },
    /// The line would make one name more than may be in use.
    TooManyNames,
}

/// The reply to a line.
#[derive(Debug, Drop)]
pub enum Reply {
    /// The three counts of a loaded text.
    Counts { scalars: u64, utf16: u64, utf8: u64 },
    /// The copy was made.
    Copied,
    /// The name is gone.
    Dropped,
    /// How the first of two texts stands to the second.
    Order(Ordering),
    /// The replies to the ops of an `on` line.
    Results(OpReplies),
    /// The replies to the jobs of a `batch` line.
    Jobs(JobReplies),
    /// The line was refused, and nothing changed.
    Refused(Refusal),
}
