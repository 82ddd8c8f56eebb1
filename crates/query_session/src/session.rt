//! The session and its calls.
ghost use Rattle.std.specs.Prelude.{◌≡◌, ◌≤◌, List, true, false, Some, is_err, All, IfOk, OnOk, OnErr, IsOk, IsTrue};
ghost use Rattle.std.specs.FinMap as finite;
ghost use Rattle.slot_model.specs.declared.event.Event.{Event};
ghost use Rattle.slot_accounts.specs.Account.{Did, Keeps};
ghost use Rattle.query_lines.specs.WellFormed.{IsWellFormed, IsWellFormedOp, IsName};
ghost use Rattle.query_lines.specs.Replies.{IsShown};
ghost use Rattle.query_session.specs.Literals.{default_literals};
ghost use Rattle.query_session.specs.Reply.{IsFree, IsLeft, IsRefused, reply_to, on_reply};
ghost use Rattle.query_session.specs.State as state;
ghost use Rattle.query_session.specs.State.{text_of, is_in_use};
ghost use Rattle.query_session.specs.Steps.{Stepped, Accounted};
ghost use Rattle.query_session.specs.Values.{HasEnough, IsSound, texts_of, credits_in, credits_needed};
ghost use Rattle.query_session.specs.Running.{worker_limit};

use crate::batch::batch;
use crate::loads::load;
use crate::named::{compare, copy, drop_name};
use crate::names::Names;
use crate::words::{no_name, string_of};
use outside::Gate;
use query_lines::{Bytes, Command, Ops, Reply};
use std::alloc::Global;
use std::marker::{Brand, Model};
use std::sync::ledger::{Blank, Ledger};
use std::thread::Threads;
use str_value::{Str, StrPass};
use text_spec::OutOfMemory;
use word_units::Steps;

/// Names and their values, which stand in a heap, and a pass of that heap.
#[derive(Drop)]
pub struct Session<'h> {
    pass: StrPass<'h>,
    names: Names<'h>,
    workers: u32,
    failed: bool,
}

impl<'h> Model for Session<'h> {
    ghost use Rattle.query_session.specs.Session.{Shown, shown_code};

    ghost Value = { Shown };

    ghost coded = { shown_code };

    ghost use Rattle.query_session.specs.Running.{IsRunning};

    ghost view = { λ s. record { values = s.names; workers = s.workers; failed = s.failed; pass = s.pass } };

    ghost invariant = { λ s. IsRunning s.workers s.failed s.names s.pass };
}

impl<'h> Session<'h> {
    /// A session in which no name is in use, over the values that the pass can make. `workers` do the jobs of a batch, 1 to 8. The pass
    /// shows at least 385 credits: so many let each of 256 names and of 64 jobs hold a value of its own, and each share have its stake. Its
    /// heap has the literals that a load may name.
    pub fn new(alloc: Global, pass: StrPass<'h>, workers: u32) -> Result<Session<'h>, OutOfMemory>
        requires some { 1 ≤ workers }
        requires few { workers ≤ worker_limit }
        requires credits { credits_needed ≤ pass.credits }
        requires literals { pass.heap.literals ≡ default_literals }
        ensures values { IfOk result (λ s. s.values ≡ finite.empty) }
        ensures workers { IfOk result (λ s. s.workers ≡ workers) }
        ensures failed { IfOk result (λ s. s.failed ≡ false) }
        ensures pass { IfOk result (λ s. s.pass ≡ pass.entry) }
    {
        Ok(Session {
            pass,
            names: Names::new(alloc),
            workers,
            failed: false,
        })
    }

    /// The reply to a command, and the state after it.
    ///
    /// No earlier step may have answered `OutOfMemory`. Where this one does, each name has the text that it had before, but that some first
    /// ops may have been done on that of an `on` line. A refused line takes no memory and leaves every value and the pass; a drop and a copy
    /// of a name onto itself take none either. Each value that the command doesn't name stays as it is.
    pub fn step<R: Threads + Sync, G: Gate>(
        &mut self,
        alloc: Global,
        rt: &R,
        command: Command,
        gate: &G,
    ) -> Result<Reply, OutOfMemory>
        requires well_formed { IsWellFormed command }
        requires whole { self.old.failed ≡ false }
        ensures reply { IfOk result (λ r. (r, texts_of self.new.values) ≡ reply_to (texts_of self.old.values) command) }
        ensures shown { IfOk result IsShown }
        ensures free { IsFree command → IsOk result }
        ensures refused_is_free { OnErr result (¬ (IsRefused (reply_to (texts_of self.old.values) command).0)) }
        ensures left { OnErr result (IsLeft (texts_of self.old.values) command (texts_of self.new.values)) }
        ensures failed { self.new.failed ≡ is_err result }
        ensures workers { self.new.workers ≡ self.old.workers }

        // The values and the heap: what the command did, and its account.
        ensures stepped { IfOk result (λ r. Stepped r command self.old.values self.old.pass self.new.values self.new.pass) }
        ensures accounted { OnOk result (Accounted self.old.values self.old.pass self.new.values self.new.pass) }
        ensures one_heap { self.new.pass.heap ≡ self.old.pass.heap }
    {
        match reply_to(
            rt,
            alloc,
            &mut self.pass,
            &mut self.names,
            command,
            self.workers,
            gate,
        ) {
            Ok(reply) => Ok(reply),
            Err(refused) => {
                self.failed = true;
                Err(refused)
            }
        }
    }

    /// Whether a name, as UTF-8, is in use. No memory is taken.
    pub fn has(&self, name: &[u8]) -> bool
        ensures { result ≡ is_in_use (texts_of self.now.values) name.now }
    {
        self.names.has_bytes(name)
    }

    /// The value that stands for a name, which is in use. No step may have answered `OutOfMemory`. No memory is taken.
    pub fn value(&self, name: &[u8]) -> &Str<'h>
        requires named { IsTrue (is_in_use (texts_of self.now.values) name.now) }
        requires whole { self.now.failed ≡ false }
        ensures value { finite.get self.now.values name.now ≡ Some result.now }
        ensures text { text_of (texts_of self.now.values) name.now ≡ Some result.now.text }
    {
        self.names.value(name)
    }

    /// Releases every value. No step may have answered `OutOfMemory`. The pass has every credit that the values held.
    pub fn end(self) -> StrPass<'h>
        requires { self.failed ≡ false }
        ensures did { (es : List Event) × Did es self.entry.pass result }
        ensures credits { Keeps self.entry.pass (credits_in self.entry.values) result 0 }
    {
        let Session {
            mut pass,
            names,
            workers: _,
            failed: _,
        } = self;
        names.release(&mut pass);
        pass
    }

    /// Drops what is left after a step that answered `OutOfMemory`.
    pub fn give_up(self)
        requires { self.failed ≡ true }
    {
        drop(self);
    }
}

// The reply to a command.
fn reply_to<'h, R: Threads + Sync, G: Gate>(
    rt: &R,
    alloc: Global,
    pass: &mut StrPass<'h>,
    names: &mut Names<'h>,
    command: Command,
    workers: u32,
    gate: &G,
) -> Result<Reply, OutOfMemory>
    requires some { 1 ≤ workers }
    requires few { workers ≤ worker_limit }
    requires well_formed { IsWellFormed command }
    requires enough { HasEnough names.old pass.old }
    requires literals { pass.old.heap.literals ≡ default_literals }
    requires sound { IsSound names.old pass.old }
    ensures reply { IfOk result (λ r. (r, texts_of names.new) ≡ reply_to (texts_of names.old) command) }
    ensures free { IsFree command → IsOk result }
    ensures refused_is_free { OnErr result (¬ (IsRefused (reply_to (texts_of names.old) command).0)) }
    ensures shown { IfOk result IsShown }
    ensures left { OnErr result (IsLeft (texts_of names.old) command (texts_of names.new)) }
    ensures stepped { IfOk result (λ r. Stepped r command names.old pass.old names.new pass.new) }
    ensures one_heap { pass.new.heap ≡ pass.old.heap }
{
    match command {
        Command::Load { name, what } => load(pass, names, name, what),
        Command::On { name, ops } => on(pass, names, alloc, name, ops),
        Command::Copy { to, source } => copy(pass, names, alloc, to, source),
        Command::Drop { name } => Ok(drop_name(pass, names, name)),
        Command::Compare { a, b } => compare(pass, names, alloc, a, b),
        Command::Batch { jobs } => batch(rt, alloc, pass, names, jobs, workers, gate),
    }
}

// Does ops on the text of a name.
fn on<'h>(
    pass: &mut StrPass<'h>,
    names: &mut Names<'h>,
    alloc: Global,
    name: Bytes,
    ops: Ops,
) -> Result<Reply, OutOfMemory>
    requires name { IsName name }
    requires ops { All IsWellFormedOp ops }
    requires sound { IsSound names.old pass.old }
    ensures reply { IfOk result (λ r. (r, texts_of names.new) ≡ on_reply (texts_of names.old) name ops (state.text_of (texts_of names.old) name)) }
    ensures refused_is_free { OnErr result (¬ (IsRefused (on_reply (texts_of names.old) name ops (state.text_of (texts_of names.old) name)).0)) }
    ensures shown { IfOk result IsShown }
    ensures left { OnErr result (IsLeft (texts_of names.old) (Command.On name ops) (texts_of names.new)) }
    ensures stepped { IfOk result (λ r. Stepped r (Command.On name ops) names.old pass.old names.new pass.new) }
    ensures one_heap { pass.new.heap ≡ pass.old.heap }
{
    on_counted::<Brand>(pass, names, alloc, name, ops, Blank::new(1))
}

// The same, with a counter of the words that the ops read.
fn on_counted<'h, L: Ledger>(
    pass: &mut StrPass<'h>,
    names: &mut Names<'h>,
    alloc: Global,
    name: Bytes,
    ops: Ops,
    blank: Blank,
) -> Result<Reply, OutOfMemory>
    requires ledger { blank.name ≡ L.name }
    requires parts { blank.parts ≡ L.parts }
    requires one { blank.parts ≡ 1 }
    requires name { IsName name }
    requires ops { All IsWellFormedOp ops }
    requires sound { IsSound names.old pass.old }
    ensures reply { IfOk result (λ r. (r, texts_of names.new) ≡ on_reply (texts_of names.old) name ops (state.text_of (texts_of names.old) name)) }
    ensures refused_is_free { OnErr result (¬ (IsRefused (on_reply (texts_of names.old) name ops (state.text_of (texts_of names.old) name)).0)) }
    ensures shown { IfOk result IsShown }
    ensures left { OnErr result (IsLeft (texts_of names.old) (Command.On name ops) (texts_of names.new)) }
    ensures stepped { IfOk result (λ r. Stepped r (Command.On name ops) names.old pass.old names.new pass.new) }
    ensures one_heap { pass.new.heap ≡ pass.old.heap }
{
    let mut steps = Steps::<L>::from_blank(blank);
    let name = string_of(name);
    match names.run(pass, alloc, name.as_str(), ops.as_slice(), &mut steps)? {
        Some(replies) => Ok(Reply::Results(replies)),
        None => Ok(no_name(name)),
    }
}
