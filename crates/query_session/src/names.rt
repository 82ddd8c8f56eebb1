//! The values by their names.
ghost use Rattle.std.specs.Prelude.{◌≡◌, ◌+◌, ℕ, List, All, Some, None, IfOk, IfSome, MatchOption, take, OnOk, OnErr, IsTrue, string_bytes};
ghost use Rattle.std.specs.FinMap as finite;
ghost use Rattle.slot_model.specs.declared.event.Event.{Event};
ghost use Rattle.slot_accounts.specs.Account.{Did, Keeps};
ghost use Rattle.query_lines.specs.WellFormed.{IsWellFormedOp};
ghost use Rattle.query_lines.specs.Replies.{IsShownOp};
ghost use Rattle.query_lines.specs.declared.command.Command.TheVariants as command;
ghost use Rattle.canon_order.specs.Equivalence.{order_of};
ghost use Rattle.str_value.specs.Meaning.{OfHeap, own};
ghost use Rattle.query_session.specs.Reply.{on_reply, results_or_no_name};
ghost use Rattle.query_session.specs.State.{text_of, is_in_use, has_room};
ghost use Rattle.query_session.specs.Values.{IsSound, texts_of, credits_in, credit_in};
ghost use Rattle.query_session.specs.Steps.{CopiedIn, Done};

use batch_workers::run_ops;
use query_lines::{Op, OpReplies};
use std::alloc::Global;
use std::cmp::Ordering;
use std::collections::BTreeMap;
use std::marker::{Brand, Model};
use std::mem::swap;
use std::str::from_utf8;
use std::sync::ledger::{Blank, Ledger};
use str_value::{MakeError, Str, StrPass};
use text_spec::OutOfMemory;
use word_units::Steps;

/// Each name that is in use, with its value.
#[derive(Drop)]
pub(crate) struct Names<'h> {
    values: BTreeMap<String, Str<'h>>,
    count: usize,
}

impl<'h> Model for Names<'h> {
    ghost use Rattle.std.specs.Prelude.{◌≡◌};
    ghost use Rattle.std.specs.FinMap as finite;
    ghost use Rattle.std.specs.Coded.{coded_ℕ, coded_list};
    ghost use Rattle.str_value.specs.contracts.value.Str.{the_row};
    ghost use Rattle.query_session.specs.Codes.{no_lifetime};
    ghost use Rattle.query_session.specs.Values.{Values};
    ghost use Rattle.query_session.specs.Held.{held};

    ghost Value = { Values };

    ghost coded = { finite.code (coded_list coded_ℕ) (the_row no_lifetime).coded };

    ghost view = { λ n. held n.values.entries };

    ghost invariant = { λ n. n.count ≡ finite.len (held n.values.entries) };
}

impl<'h> Names<'h> {
    pub(crate) fn new(alloc: Global) -> Names<'h>
        ensures { result ≡ finite.empty }
    {
        Names {
            values: BTreeMap::new(alloc),
            count: 0,
        }
    }

    pub(crate) fn count(&self) -> usize
        ensures { result ≡ finite.len (texts_of self.now) }
    {
        self.count
    }

    pub(crate) fn has(&self, name: &str) -> bool
        ensures { result ≡ is_in_use (texts_of self.now) name.now }
    {
        self.values.get(name).is_some()
    }

    // Whether bytes are a name in use.
    pub(crate) fn has_bytes(&self, name: &[u8]) -> bool
        ensures { result ≡ is_in_use (texts_of self.now) name.now }
    {
        let values = &self.values;
        match from_utf8(name) {
            Ok(name) => values.get(name).is_some(),
            Err(_) => false,
        }
    }

    // The value of a name in use.
    pub(crate) fn value(&self, name: &[u8]) -> &Str<'h>
        requires { IsTrue (is_in_use (texts_of self.now) name.now) }
        ensures { finite.get self.now name.now ≡ Some result.now }
    {
        let values = &self.values;
        let Ok(name) = from_utf8(name) else {
            unreachable!();
        };
        match values.get(name) {
            Some(value) => value,
            None => unreachable!(),
        }
    }

    // A copy of the value of a name in use.
    pub(crate) fn copy(
        &mut self,
        pass: &mut StrPass<'h>,
        alloc: Global,
        name: &str,
    ) -> Result<Str<'h>, OutOfMemory>
        requires name { IsTrue (is_in_use (texts_of self.old) name.now) }
        requires sound { IsSound self.old pass.old }
        ensures copied { IfOk result (λ c. CopiedIn self.old name.now pass.old self.new pass.new c) }
        ensures credits { IfOk result (λ c. Keeps pass.old (credits_in self.old) pass.new (credits_in self.new + credit_in c)) }
        ensures sound { IfOk result (λ c. IsSound self.new pass.new) }
        ensures heap { IfOk result (λ c. OfHeap pass.new c.place) }
        ensures one_heap { pass.new.heap ≡ pass.old.heap }
        ensures refused { OnErr result ((self.new ≡ self.old) × (pass.new ≡ pass.old)) }
    {
        match self.values.get_mut(name) {
            Some(value) => value.copy(alloc, pass),
            None => unreachable!(),
        }
    }

    // The order of the texts of two names. No value is copied: the first one stands outside the map meanwhile.
    pub(crate) fn compare(
        &mut self,
        pass: &mut StrPass<'h>,
        alloc: Global,
        a: &str,
        b: &str,
    ) -> Result<Ordering, OutOfMemory>
        requires first { IsTrue (is_in_use (texts_of self.old) a.now) }
        requires second { IsTrue (is_in_use (texts_of self.old) b.now) }
        ensures order { IfOk result (λ order. (left right : List ℕ) → text_of (texts_of self.old) a.now ≡ Some left
            → text_of (texts_of self.old) b.now ≡ Some right → order ≡ order_of left right) }
        ensures kept { self.new ≡ self.old }
        ensures pass { pass.new ≡ pass.old }
    {
        if a == b {
            return Ok(Ordering::Equal);
        }
        let mut left = empty(pass, alloc);
        self.exchange(a, &mut left);
        let order = self.compare_to(alloc, &mut left, b);
        self.exchange(a, &mut left);
        order
    }

    // The order of a text and that of a name.
    fn compare_to(
        &mut self,
        alloc: Global,
        left: &mut Str<'h>,
        name: &str,
    ) -> Result<Ordering, OutOfMemory>
        requires { IsTrue (is_in_use (texts_of self.old) name.now) }
        ensures order { IfOk result (λ order. (right : List ℕ) → text_of (texts_of self.old) name.now ≡ Some right → order ≡ order_of left.old.text right) }
        ensures kept { self.new ≡ self.old }
        ensures left { left.new ≡ left.old }
    {
        match self.values.get_mut(name) {
            Some(right) => compare_values(alloc, left, right),
            None => unreachable!(),
        }
    }

    // Exchanges the value of a name with another one. No memory.
    pub(crate) fn exchange(&mut self, name: &str, value: &mut Str<'h>)
        requires { IsTrue (is_in_use (texts_of self.old) name.now) }
        ensures stored { self.new ≡ finite.insert self.old name.now value.old }
        ensures taken { finite.get self.old name.now ≡ Some value.new }
    {
        match self.values.get_mut(name) {
            Some(held) => swap(held, value),
            None => unreachable!(),
        }
    }

    // The value of a name, which is in use no more.
    pub(crate) fn take(&mut self, name: &str) -> Option<Str<'h>>
        ensures value { result ≡ finite.get self.old name.now }
        ensures left { self.new ≡ finite.remove self.old name.now }
    {
        match self.values.remove(name) {
            Some(value) => {
                self.count -= 1;
                Some(value)
            }
            None => None,
        }
    }

    // The value of some name, which is in use no more; `None` where no name is.
    fn take_any(&mut self) -> Option<Str<'h>>
        ensures { MatchOption result (self.old ≡ finite.empty)
            (λ v. (name : List ℕ) × (finite.get self.old name ≡ Some v) × (self.new ≡ finite.remove self.old name)) }
    {
        match self.values.pop_first() {
            Some((_, value)) => {
                self.count -= 1;
                Some(value)
            }
            None => None,
        }
    }

    // Does ops on the value of a name and gives their answers, or nothing where the name isn't in use. Where memory is wanting, some first
    // ops are done.
    pub(crate) fn run<L: Ledger>(
        &mut self,
        pass: &mut StrPass<'h>,
        alloc: Global,
        name: &str,
        ops: &[Op],
        steps: &mut Steps<L>,
    ) -> Result<Option<OpReplies>, OutOfMemory>
        requires ops { All IsWellFormedOp ops.now }
        requires sound { IsSound self.old pass.old }
        ensures done { IfOk result (λ found. (results_or_no_name name.now found, texts_of self.new)
            ≡ on_reply (texts_of self.old) name.now ops.now (text_of (texts_of self.old) name.now)) }
        ensures ran { IfOk result (λ found. MatchOption found ((self.new ≡ self.old) × (pass.new ≡ pass.old))
            (λ replies. Done (command.On name.now ops.now) self.old pass.old self.new pass.new)) }
        ensures shown { IfOk result (λ found. IfSome found (λ replies. All IsShownOp replies)) }
        ensures one_heap { pass.new.heap ≡ pass.old.heap }
        ensures in_use { OnErr result (IsTrue (is_in_use (texts_of self.old) name.now)) }
        ensures left { OnErr result ((n : ℕ) × (texts_of self.new ≡ (on_reply (texts_of self.old) name.now (take n ops.now) (text_of (texts_of self.old) name.now)).1)) }
    {
        let Some(value) = self.values.get_mut(name) else {
            return Ok(None);
        };
        let replies = run_ops(alloc, value, pass, ops, 0, steps)?;
        Ok(Some(replies))
    }

    // A value under the name. The one that it had comes back, and the new one is dropped where memory is wanting.
    pub(crate) fn put(
        &mut self,
        name: String,
        value: Str<'h>,
    ) -> Result<Option<Str<'h>>, OutOfMemory>
        requires { IsTrue (has_room (texts_of self.old) (string_bytes name)) }
        ensures stored { OnOk result (self.new ≡ finite.insert self.old (string_bytes name) value.entry) }
        ensures before { IfOk result (λ old. old ≡ finite.get self.old (string_bytes name)) }
        ensures kept { OnErr result (self.new ≡ self.old) }
    {
        match self.values.insert(name, value)? {
            Some(replaced) => Ok(Some(replaced)),
            None => {
                self.count += 1;
                Ok(None)
            }
        }
    }

    // Every value is given up.
    pub(crate) fn release(mut self, pass: &mut StrPass<'h>)
        requires { IsSound self pass.old }
        ensures did { (es : List Event) × Did es pass.old pass.new }
        ensures credits { Keeps pass.old (credits_in self.entry) pass.new 0 }
    {
        'values: while let Some(value) = self.take_any() {
            value.release(pass);
        }
    }
}

// The value of the empty text. No memory.
fn empty<'h>(pass: &mut StrPass<'h>, alloc: Global) -> Str<'h>
    ensures place { result.place ≡ own }
    ensures pass { pass.new ≡ pass.old }
{
    match Str::from_utf8(alloc, pass, b"") {
        Ok(value) => value,
        Err(MakeError::OutOfMemory) => unreachable!(),
        Err(MakeError::NotUtf8 { .. }) => unreachable!(),
        Err(MakeError::TooLong { .. }) => unreachable!(),
    }
}

// The order of two values.
fn compare_values<'h>(
    alloc: Global,
    left: &mut Str<'h>,
    right: &mut Str<'h>,
) -> Result<Ordering, OutOfMemory>
    ensures order { IfOk result (λ order. order ≡ order_of left.old.text right.old.text) }
    ensures left { left.new ≡ left.old }
    ensures right { right.new ≡ right.old }
{
    compare_counted::<Brand>(alloc, left, right, Blank::new(1))
}

// The same, where the words that are read are counted.
fn compare_counted<'h, L: Ledger>(
    alloc: Global,
    left: &mut Str<'h>,
    right: &mut Str<'h>,
    blank: Blank,
) -> Result<Ordering, OutOfMemory>
    requires name { blank.name ≡ L.name }
    requires parts { blank.parts ≡ L.parts }
    requires one { blank.parts ≡ 1 }
    ensures order { IfOk result (λ order. order ≡ order_of left.old.text right.old.text) }
    ensures left { left.new ≡ left.old }
    ensures right { right.new ≡ right.old }
{
    let mut steps = Steps::<L>::from_blank(blank);
    canon_order::compare(alloc, left, right, &mut steps)
}
