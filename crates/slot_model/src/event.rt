use crate::words::Words;

/// One step on the shared words of a heap that counts, with the answer that it gave.
///
/// `slot` is the number of the slot that the step is made on. When an event applies, and what the heap is after it,
/// is said by `Applies` and `next` of `specs/History.antt`.
#[derive(Debug, Drop)]
pub enum Event {
    /// An idle slot becomes held, with one reference and `words`: at least one word, and at most a slot's capacity.
    Publish {
        slot: u32,
        words: Words,
    },
    /// A held slot has one reference more.
    Retain {
        slot: u32,
    },
    /// A held slot has one reference fewer. `last` says that it was the only one: the slot is closing from then on.
    Release {
        slot: u32,
        last: bool,
    },
    /// A held slot is asked whether it has one reference alone, and `answer` says so.
    Sole {
        slot: u32,
        answer: bool,
    },
    /// Word `k` of a slot held by one reference and without a side becomes `word`. The list of words grows by one
    /// where `k` was its length.
    Write {
        slot: u32,
        k: u32,
        word: u64,
    },
    /// A held slot is asked for its side, which is `found`.
    Look {
        slot: u32,
        found: Option<u32>,
    },
    /// The idle slot `side`, with `words` that fit, is offered to a held slot as its side. It becomes that
    /// where none was found; where `found` is the side that is there already, nothing changes.
    Install {
        slot: u32,
        side: u32,
        words: Words,
        found: Option<u32>,
    },
    /// A slot that is closing, or held by one reference, lets go of its side, which is `found`. The side's slot is idle
    /// from then on, and so is a slot that was closing.
    Detach {
        slot: u32,
        found: Option<u32>,
    },
}
