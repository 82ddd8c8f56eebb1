//! Lists inside commands and replies.

ghost use Rattle.std.specs.Prelude.{◌≡◌};

use crate::{JobLine, Op, OpReply};
use std::marker::Model;

/// A `Vec` that contracts see as the list of its elements. No call takes memory.
#[derive(Debug, Drop)]
pub struct Listed<T> {
    items: Vec<T>,
}

/// Bytes, of a text in UTF-8 where a clause says so.
pub type Bytes = Listed<u8>;

/// UTF-16 code units, with unpaired surrogates among them or not.
pub type Units = Listed<u16>;

/// The ops of an `on` line or of a job, in the order in which they are done.
pub type Ops = Listed<Op>;

/// The jobs of a `batch` line, in order.
pub type JobLines = Listed<JobLine>;

/// The replies to the ops of one list, in order.
pub type OpReplies = Listed<OpReply>;

/// The replies to the jobs of a `batch` line, in order.
pub type JobReplies = Listed<OpReplies>;

impl<T> Model for Listed<T> {
    ghost use Rattle.std.specs.Prelude.{List};
    ghost use Rattle.std.specs.Coded.{coded_list};

    ghost Value = { List T };

    ghost coded = { coded_list T.code };

    ghost view = { λ it. it.items.items };
}

impl<T> Listed<T> {
    /// The list of the vector's elements. The vector is moved, not copied.
    pub fn new(items: Vec<T>) -> Listed<T>
        ensures { result ≡ items.items }
    {
        Listed { items }
    }

    /// The elements.
    pub fn as_slice(&self) -> &[T]
        ensures { result.now ≡ self.now }
    {
        self.items.as_slice()
    }

    /// The vector of the elements. It is moved, not copied.
    pub fn into_vec(self) -> Vec<T>
        ensures { result.items ≡ self }
    {
        let Listed { items } = self;
        items
    }
}
