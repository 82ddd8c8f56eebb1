//! A value learns its breadcrumbs.
ghost use Rattle.std.specs.Prelude.{◌≡◌, ℕ, List, ◌+◌, ◌*◌, ◌<◌, ◌≤◌, ◌^◌, true, false, length, IsSome, if◌then◌else◌};
ghost use Rattle.index_words.specs.Crumbs.{crumbs, size16};
ghost use Rattle.text_spec.specs.declared.encoding.Encoding.TheVariants.{Utf8, Utf16};
ghost use Rattle.slot_table.specs.Owners.{RefSeen};
ghost use Rattle.str_value.specs.Meaning.{OfHeap, sole_of, storage_of, is_there, side_of, shared};
ghost use Rattle.str_value.specs.Learning.{Learns, Looks, Offers, Ready};

use crate::limits::CRUMB_STRIDE;
use crate::storage::{Storage, StrCrumbs, StrPass, StrRef};
use crate::value::Str;
use object_words::Form;
use slot_accounts::{attach, draw, look};
use slot_table::Draft;
use std::sync::ledger::Ledger;
use text_spec::Encoding;
use word_units::{Steps, Text};

/// The least number of bytes of a text that has breadcrumbs.
const LEAST_BYTES: u64 = 64;

/// Whether a value knows its breadcrumbs.
#[derive(Clone, Copy, Debug, PartialEq, Eq)]
pub enum Learned {
    /// It keeps UTF-16, where an offset is a place.
    Foreign,
    /// It is ASCII, where an offset is a place.
    Ascii,
    /// It has fewer than 64 bytes.
    Short,
    /// It is a literal, or in a vector of its own.
    NotShared,
    /// Its breadcrumbs are known.
    Known,
    /// None were there, and the pass shows no free slot or no credit.
    NoSlot,
}

impl<'h> Str<'h> {
    /// Learns the breadcrumbs of its slot, or builds and installs them.
    ///
    /// The answer is by the first rule that holds. Where they aren't known, one event Look is made. Where it finds none, the list is built in
    /// a slot of the pass and offered by one event Install; it is known then, also where another one was there first. A value that was known
    /// sole stays so. No memory. Each content word is read at most twice.
    pub fn learn_crumbs<L: Ledger>(
        &mut self,
        pass: &mut StrPass<'h>,
        steps: &mut Steps<L>,
    ) -> Learned
        requires { OfHeap pass.old self.old.place }
        ensures learned { Learns result pass.old self.old pass.new self.new }
        ensures known { (result ≡ Learned.Known) → is_there (side_of self.new.place) ≡ true }
        ensures sole { sole_of self.new.place ≡ sole_of self.old.place }
        ensures text { (self.new.text ≡ self.old.text) × (self.new.row ≡ self.old.row) × (self.new.words ≡ self.old.words) }
        ensures one_heap { pass.new.heap ≡ pass.old.heap }
        ensures heap { OfHeap pass.new self.new.place }
        ensures cost { steps.new ≤ steps.old + 2 * length self.old.text }
    {
        if self.encoding() == Encoding::Utf16 {
            return Learned::Foreign;
        }
        if self.object.ascii() {
            return Learned::Ascii;
        }
        if self.object.count() < LEAST_BYTES {
            return Learned::Short;
        }
        if self.form() != Form::Native {
            return Learned::NotShared;
        }
        if self.crumbs_known() {
            return Learned::Known;
        }
        self.learn_shared(pass, steps)
    }

    // The same where none of the first rules holds, and none are known.
    fn learn_shared<L: Ledger>(&mut self, pass: &mut StrPass<'h>, steps: &mut Steps<L>) -> Learned
        requires { Ready self.old pass.old }
        ensures learned { Learns result pass.old self.old pass.new self.new }
        ensures known { (result ≡ Learned.Known) → is_there (side_of self.new.place) ≡ true }
        ensures sole { sole_of self.new.place ≡ sole_of self.old.place }
        ensures text { (self.new.text ≡ self.old.text) × (self.new.row ≡ self.old.row) × (self.new.words ≡ self.old.words) }
        ensures one_heap { pass.new.heap ≡ pass.old.heap }
        ensures heap { OfHeap pass.new self.new.place }
        ensures cost { steps.new ≤ steps.old + 2 * length self.old.text }
    {
        if self.look_for_crumbs(pass) {
            return Learned::Known;
        }
        let Some(mut draft) = draw(pass) else {
            return Learned::NoSlot;
        };
        crumbs::build::<Str<'h>, StrCrumbs, L>(self, &mut draft, steps);
        self.offer_crumbs(pass, draft);
        Learned::Known
    }

    // Whether the slot has breadcrumbs, which the value then knows.
    fn look_for_crumbs(&mut self, pass: &mut StrPass<'h>) -> bool
        requires { OfHeap pass.old self.old.place }
        ensures { (r : RefSeen) → self.old.place ≡ shared r → storage_of self.old.row ≡ Utf8 → Looks r pass.old self.old pass.new self.new result }
    {
        match std::mem::replace(&mut self.storage, Storage::Words) {
            Storage::Native(reference, _) => {
                let (mut reference, found) = look(pass, reference);
                let crumbs = known_crumbs(&mut reference);
                self.storage = Storage::Native(reference, crumbs);
                found.is_some()
            }
            other => {
                self.storage = other;
                false
            }
        }
    }

    // Offers a list of breadcrumbs, and knows those that are there then.
    fn offer_crumbs(&mut self, pass: &mut StrPass<'h>, draft: Draft<'h, StrCrumbs>)
        requires heap { OfHeap pass.old self.old.place }
        requires draft { draft.heap ≡ pass.old.heap }
        requires list { draft.written ≡ crumbs self.old.text 64 }
        ensures { (r : RefSeen) → self.old.place ≡ shared r → storage_of self.old.row ≡ Utf8 → Offers r draft.entry pass.old self.old pass.new self.new }
    {
        match std::mem::replace(&mut self.storage, Storage::Words) {
            Storage::Native(reference, _) => {
                let (mut reference, _) = attach(pass, reference, draft);
                let crumbs = known_crumbs(&mut reference);
                self.storage = Storage::Native(reference, crumbs);
            }
            other => {
                self.storage = other;
                draft.abandon(pass);
            }
        }
    }
}

// How many words the breadcrumbs have that a reference knows, or 0 where it knows none.
fn known_crumbs(reference: &mut StrRef) -> u32
    requires { IsSome reference.old.side → (text : List ℕ) × (reference.old.side_words ≡ crumbs text 64) × (size16 text ≤ 2 ^ 24) }
    ensures count { result ≡ (if is_there reference.old.side then length reference.old.side_words else 0) }
    ensures kept { reference.new ≡ reference.old }
{
    match reference.known_side() {
        Some(_) => (reference.side(0) / CRUMB_STRIDE as u64 + 2) as u32,
        None => 0,
    }
}
