//! A slice as a text that is read word by word.
use crate::sub_value::Sub;
use std::sync::ledger::Ledger;
use text_spec::Encoding;
use word_units::{Steps, Text};

/// The part of the base's storage between the two ends is the text. Its breadcrumbs are never known: those of the base are the whole's.
impl<'h> Text for Sub<'h> {
    ghost use Rattle.std.specs.Prelude.{false};
    ghost use Rattle.object_words.specs.Rows.{ascii_of};
    ghost use Rattle.str_value.specs.declared.limits.TheConstants.{CRUMB_STRIDE};
    ghost use Rattle.substring.specs.Slice.{part_in};

    ghost part = { part_in };

    ghost words = { λ sub. sub.base.words };

    ghost knows_crumbs = { λ sub. false };

    ghost marked_ascii = { λ sub. ascii_of sub.base.row };

    ghost STRIDE = { CRUMB_STRIDE };

    fn stride(&self) -> usize {
        self.base.stride()
    }

    fn encoding(&self) -> Encoding {
        self.base.encoding()
    }

    fn count(&self) -> u64 {
        self.base.count()
    }

    fn low(&self) -> u64 {
        self.low
    }

    fn high(&self) -> u64 {
        self.high
    }

    fn word<L: Ledger>(&mut self, k: u64, steps: &mut Steps<L>) -> u64 {
        self.base.word(k, steps)
    }

    fn crumbs_known(&self) -> bool {
        false
    }

    fn crumb_word<L: Ledger>(&mut self, j: u64, steps: &mut Steps<L>) -> u64 {
        self.base.crumb_word(j, steps)
    }

    fn ascii(&self) -> bool {
        self.base.ascii()
    }
}
