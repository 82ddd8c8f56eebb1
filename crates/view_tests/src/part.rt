//! A text that is a part of its storage, so that there are places before it and after it.
ghost use Rattle.std.specs.Prelude.{◌≡◌};

use std::marker::Model;
use std::sync::ledger::Ledger;
use text_spec::Encoding;
use word_units::{Steps, Text, VecText, boundary_at_or_before};

/// The scalars between two boundaries of a storage, in its code units.
#[derive(Drop)]
pub(crate) struct Part {
    all: VecText,
    low: u64,
    high: u64,
}

impl Model for Part {
    ghost use Rattle.std.specs.Prelude.{ℕ, List, ◌≡◌, ◌≤◌};
    ghost use Rattle.text_spec.specs.declared.encoding.Encoding.{Encoding};
    ghost use Rattle.text_spec.specs.Offsets.{start, down};
    ghost use Rattle.text_spec.specs.Views.{width_in};
    ghost use Rattle.word_units.specs.Owned.{text_of};

    ghost Value = { (List ℕ × Encoding × ℕ) × ℕ × ℕ };

    ghost view = { λ part. (part.all, part.low, part.high) };

    ghost invariant = { λ part. (part.low ≤ part.high)
        × (start (width_in (part.all.1)) (text_of part.all) (down (width_in (part.all.1)) (text_of part.all) part.low) ≡ part.low)
        × (start (width_in (part.all.1)) (text_of part.all) (down (width_in (part.all.1)) (text_of part.all) part.high) ≡ part.high) };
}

impl Part {
    /// `None` where the two places aren't boundaries, or not in this order.
    pub(crate) fn new<L: Ledger>(
        mut all: VecText,
        low: u64,
        high: u64,
        steps: &mut Steps<L>,
    ) -> Option<Part> {
        if low > high || high > all.count() {
            return None;
        }
        let first = boundary_at_or_before(&mut all, low, steps);
        let last = boundary_at_or_before(&mut all, high, steps);
        if first == low && last == high {
            return Some(Part { all, low, high });
        }
        None
    }
}

impl Text for Part {
    ghost use Rattle.std.specs.Prelude.{false};
    ghost use Rattle.text_spec.specs.Offsets.{down};
    ghost use Rattle.text_spec.specs.Views.{width_in};
    ghost use Rattle.word_units.specs.Owned.{text_of};
    ghost use Rattle.word_units.specs.Parts.{part_of};

    ghost part = { λ part. part_of (part.0.1) (text_of (part.0)) (down (width_in (part.0.1)) (text_of (part.0)) (part.1))
        (down (width_in (part.0.1)) (text_of (part.0)) (part.2)) };

    ghost words = { λ part. part.0.0 };

    ghost knows_crumbs = { λ part. false };

    ghost marked_ascii = { λ part. false };

    ghost STRIDE = { 64 };

    fn stride(&self) -> usize {
        64
    }

    fn encoding(&self) -> Encoding {
        self.all.encoding()
    }

    fn count(&self) -> u64 {
        self.all.count()
    }

    fn low(&self) -> u64 {
        self.low
    }

    fn high(&self) -> u64 {
        self.high
    }

    fn word<L: Ledger>(&mut self, k: u64, steps: &mut Steps<L>) -> u64 {
        self.all.word(k, steps)
    }

    fn crumbs_known(&self) -> bool {
        false
    }

    fn crumb_word<L: Ledger>(&mut self, j: u64, steps: &mut Steps<L>) -> u64 {
        self.all.crumb_word(j, steps)
    }

    fn ascii(&self) -> bool {
        false
    }
}
