//! The words of a slot and the list of breadcrumbs beside them, as a text.
ghost use Rattle.std.specs.Prelude.{◌≡◌, IfSome};
ghost use Rattle.crumbs.specs.Fitting.{IsCrumbList};

use crate::fitting::Crumbs;
use object_words::count_word::unit_count;
use slot_model::Attach;
use std::marker::Model;
use std::sync::ledger::Ledger;
use text_spec::Encoding;
use word_units::{Steps, Text};

/// A stored text in UTF-8 and the list of its breadcrumbs, one at each `DISTANCE`-th UTF-16 unit, which it tells or keeps to itself.
///
/// It counts the words that are read of it, since `Steps` can't be read at run time.
#[derive(Drop)]
pub struct StoredText<const DISTANCE: usize> {
    stored: Vec<u64>,
    list: Vec<u64>,
    tells: bool,
    reads: u64,
}

impl<const DISTANCE: usize> Model for StoredText<DISTANCE> {
    ghost use Rattle.std.specs.Prelude.{ℕ, List, Bool};
    ghost use Rattle.crumbs.specs.Fitting.{IsCrumbList};

    ghost Value = { List ℕ × List ℕ × Bool };

    ghost view = { λ t. (t.stored.items, t.list.items, t.tells) };

    ghost invariant = { λ t. IsCrumbList DISTANCE t.stored.items t.list.items };
}

impl<const DISTANCE: usize> StoredText<DISTANCE> {
    /// The text of the words of a slot: a count word, and eight bytes of UTF-8 to a word. None where `list` isn't its list of breadcrumbs.
    ///
    /// `tells` says whether the text tells its breadcrumbs.
    pub fn new(stored: Vec<u64>, list: Vec<u64>, tells: bool) -> Option<StoredText<DISTANCE>>
        ensures { IfSome result (λ t. t ≡ (stored.items, list.items, tells)) }
    {
        if !Crumbs::<DISTANCE>::check_fit(stored.as_slice(), list.as_slice()) {
            return None;
        }
        Some(StoredText {
            stored,
            list,
            tells,
            reads: 0,
        })
    }

    /// The list is that of the words, and is the one list that fits them.
    pub fn is_listed(&self)
        ensures { IsCrumbList DISTANCE (self.now.0) (self.now.1) }
    {
        let _tells = self.tells;
    }

    /// How many words were read since the last call.
    pub fn take_reads(&mut self) -> u64
        ensures kept { self.new ≡ self.old }
    {
        let reads = self.reads;
        self.reads = 0;
        reads
    }
}

impl<const DISTANCE: usize> Text for StoredText<DISTANCE> {
    ghost use Rattle.std.specs.Prelude.{false, [], drop};
    ghost use Rattle.text_spec.specs.declared.encoding.Encoding.TheVariants.{Utf8};
    ghost use Rattle.std.specs.Option.{unwrap_or};
    ghost use Rattle.word_units.specs.Parts.{all_of};
    ghost use Rattle.crumbs.specs.Fitting.{stored_text};

    ghost part = { λ t. all_of Utf8 (unwrap_or (stored_text (t.0)) []) };

    ghost words = { λ t. drop 1 (t.0) };

    ghost knows_crumbs = { λ t. t.2 };

    ghost marked_ascii = { λ t. false };

    ghost STRIDE = { DISTANCE };

    fn stride(&self) -> usize {
        DISTANCE
    }

    fn encoding(&self) -> Encoding {
        Encoding::Utf8
    }

    fn count(&self) -> u64 {
        unit_count(self.stored[0])
    }

    fn low(&self) -> u64 {
        0
    }

    fn high(&self) -> u64 {
        unit_count(self.stored[0])
    }

    fn word<L: Ledger>(&mut self, k: u64, steps: &mut Steps<L>) -> u64 {
        steps.tick();
        self.reads = self.reads.wrapping_add(1);
        self.stored[k as usize + 1]
    }

    fn crumbs_known(&self) -> bool {
        self.tells
    }

    fn crumb_word<L: Ledger>(&mut self, j: u64, steps: &mut Steps<L>) -> u64 {
        steps.tick();
        self.reads = self.reads.wrapping_add(1);
        match self.list.get(j as usize) {
            Some(word) => *word,
            None => 0,
        }
    }

    fn ascii(&self) -> bool {
        false
    }
}
