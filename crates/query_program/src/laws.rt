//! Laws of the limits: the constants that definitions cite are these numbers.
ghost use Rattle.std.specs.Prelude.{◌≡◌};
ghost use Rattle.query_program.specs.Use.{slot_bytes};

use crate::limits::{CAPACITY_WORDS, CREDITS, INPUT_LIMIT, LINE_LIMIT, SLOTS};

/// A line has at most 4,194,304 bytes before its newline, an input at most 67,108,864 bytes.
pub fn limits_are()
    ensures line { LINE_LIMIT ≡ 4194304 }
    ensures input { INPUT_LIMIT ≡ 67108864 }
{}

/// The heap of a run has 256 slots of 8,192 words, and 4,096 credits. A slot has room for 65,528 bytes of UTF-8 behind its count word.
pub fn default_heap_is()
    ensures words { CAPACITY_WORDS ≡ 8192 }
    ensures slots { SLOTS ≡ 256 }
    ensures credits { CREDITS ≡ 4096 }
    ensures bytes { slot_bytes ≡ 65528 }
{}
