//! What a line asks for.

use crate::{Bytes, JobLines, Ops, Units};

/// What a `load` line gives as the text.
#[derive(Debug, Drop)]
pub enum Content {
    /// The bytes of a JSON string, in UTF-8.
    Text(Bytes),
    /// UTF-16 code units.
    Units(Units),
    /// Bytes that may not be UTF-8.
    Raw(Bytes),
    /// The number of one of the heap's literals, counted from 0.
    Literal(u64),
}

/// The command of a line. Names are the UTF-8 bytes of a JSON string.
#[derive(Debug, Drop)]
pub enum Command {
    /// `name` gets this content.
    Load { name: Bytes, what: Content },
    /// `to` gets the text of `source`.
    Copy { to: Bytes, source: Bytes },
    /// `name` goes.
    Drop { name: Bytes },
    /// The texts of `a` and `b` are compared.
    Compare { a: Bytes, b: Bytes },
    /// The ops are done on the text of `name`.
    On { name: Bytes, ops: Ops },
    /// The jobs are done side by side, each on a copy of its own.
    Batch { jobs: JobLines },
}

/// One job of a `batch` line.
#[derive(Debug, Drop)]
pub struct JobLine {
    /// The name whose text the job copies.
    pub name: Bytes,
    /// What is done on the copy.
    pub ops: Ops,
    /// The name under which the copy is kept, if it is.
    pub keep: Option<Bytes>,
}

/// Why a line is no command.
#[derive(Clone, Copy, Debug, PartialEq, Eq)]
pub enum LineError {
    /// It is no JSON object of one of the rows of commands.
    Syntax,
    /// Memory is wanting.
    OutOfMemory,
}
