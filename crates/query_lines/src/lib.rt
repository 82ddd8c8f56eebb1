//! A line of input read as a command, and a reply written as text.
#![tactic(auto)]

mod command;
mod commands_read;
mod fault;
mod listed;
mod lists;
mod op;
mod ops_read;
mod pieces;
mod read;
mod reply;
mod values;
mod write;

pub use command::{Command, Content, JobLine, LineError};
pub use listed::{Bytes, JobLines, JobReplies, Listed, OpReplies, Ops, Units};
pub use op::{Op, View};
pub use read::read_line;
pub use reply::{OpReply, Refusal, Reply};
pub use write::{append_reply, reply_text};
