//! The top call: lines come from a source, one reply to each goes to a sink, and a status says how the run ended.
//!
//! The bytes that are written are `answers` of the bytes that come: a fold over the lines and one state. The code
//! has one buffer of reads, which holds at most one whole line more than it answers, and one buffer of gathered replies.
//! Before each read every reply that is ready has been written.
//!
//! | file | topic |
//! |---|---|
//! | `top.rt` | `run`, its status |
//! | `words.rt` | what the words of the command line ask for |
//! | `summary.rt`, `tally.rt` | the summary of a made input, and what its answers are counted by |
//! | `stream.rt` | reads, answers and limits in turn |
//! | `replies.rt` | the reply to one line, and to all whole lines in the buffer |
//! | `line_buffer.rt` | the buffer of reads |
//! | `output.rt` | writing gathered replies |
//! | `heap.rt` | the heap of the values, and its end |
//! | `stop.rt`, `limits.rt`, `laws.rt` | why a run ends early, the limits, and their numbers |
//!
//! Meaning: `specs/Lines.antt`, `specs/Answers.antt`, `specs/Limits.antt`. Start at `top.rt`.
#![tactic(auto)]

mod heap;
pub mod laws;
mod limits;
mod line_buffer;
mod output;
mod replies;
mod stop;
mod stream;
mod summary;
mod tally;
mod top;
mod words;

pub use limits::{CAPACITY_WORDS, CREDITS, INPUT_LIMIT, LINE_LIMIT, SLOTS};
pub use top::{Ended, run};
pub use words::{Made, Told, read_words};
