//! The values that jobs left are kept under names, all of them or none.
ghost use Rattle.std.specs.Prelude.{◌≡◌, ◌+◌, ◌≤◌, ℕ, List, All, Option, IfOk, IsTrue, OnOk, OnErr, reverse};
ghost use Rattle.std.specs.FinMap as finite;
ghost use Rattle.slot_model.specs.declared.event.Event.{Event};
ghost use Rattle.slot_accounts.specs.Account.{Did, Keeps, sum_of};
ghost use Rattle.slot_accounts.specs.Counts.{publishes, retains};
ghost use Rattle.query_lines.specs.WellFormed.{IsWellFormedJob};
ghost use Rattle.query_session.specs.Keeping.{kept as kept_in, given_back, is_new, names_of, names_one};
ghost use Rattle.query_session.specs.Kept.{AreKept, EachOfHeap, credits_of, keeps_of, pairs_of, with_keeps};
ghost use Rattle.query_session.specs.State.{has_room, is_in_use, name_limit};
ghost use Rattle.query_session.specs.Values.{IsSound, texts_of, credits_in};

use crate::names::Names;
use crate::stored::release_old;
use query_lines::JobLine;
use std::alloc::Global;
use std::str::from_utf8;
use str_value::{Str, StrPass};
use text_spec::OutOfMemory;

/// A value, and the name under which it is kept, if it is.
#[derive(Drop)]
pub(crate) struct Kept<'h> {
    pub(crate) name: Option<String>,
    pub(crate) value: Str<'h>,
}

// Keeps values under their names, in order, so that a later one wins, and gives up those that are replaced or have no name. Where memory is
// wanting, which is taken for new names alone, no name has changed, and the values are lost, with their credits.
pub(crate) fn keep_all<'h>(
    pass: &mut StrPass<'h>,
    names: &mut Names<'h>,
    mut kept: Vec<Kept<'h>>,
) -> Result<(), OutOfMemory>
    requires sound { IsSound names.old pass.old }
    requires heap { EachOfHeap pass.old kept.items }
    requires room { finite.len (kept_in names.old (pairs_of kept.items)) ≤ name_limit }
    ensures kept { OnOk result (names.new ≡ kept_in names.old (pairs_of kept.entry.items)) }
    ensures did { OnOk result ((es : List Event) × (sum_of publishes es ≡ 0) × (sum_of retains es ≡ 0) × Did es pass.old pass.new) }
    ensures credits { OnOk result (Keeps pass.old (credits_in names.old + credits_of kept.entry.items) pass.new (credits_in names.new)) }
    ensures sound { OnOk result (IsSound names.new pass.new) }
    ensures one_heap { pass.new.heap ≡ pass.old.heap }
    ensures left { OnErr result (names.new ≡ names.old) }
{
    let alloc = *kept.allocator();
    kept.reverse();
    keep_rest(pass, alloc, names, &mut kept)
}

// The same for values that stand in reverse order. What a name had is at hand until all that follow are kept: where memory is wanting, it
// goes back.
fn keep_rest<'h>(
    pass: &mut StrPass<'h>,
    alloc: Global,
    names: &mut Names<'h>,
    left: &mut Vec<Kept<'h>>,
) -> Result<(), OutOfMemory>
    requires sound { IsSound names.old pass.old }
    requires heap { EachOfHeap pass.old (reverse left.old.items) }
    requires room { finite.len (kept_in names.old (pairs_of (reverse left.old.items))) ≤ name_limit }
    ensures kept { OnOk result (AreKept (reverse left.old.items) names.old pass.old names.new pass.new) }
    ensures one_heap { pass.new.heap ≡ pass.old.heap }
    ensures left { OnErr result (names.new ≡ names.old) }
{
    let Some(next) = left.pop() else {
        return Ok(());
    };
    let Kept { name, value } = next;
    let Some(name) = name else {
        value.release(pass);
        return keep_rest(pass, alloc, names, left);
    };
    let old = enter(alloc, names, name.as_str(), value)?;
    match keep_rest(pass, alloc, names, left) {
        Ok(()) => {
            release_old(pass, old);
            Ok(())
        }
        Err(refused) => {
            give_back(names, name.as_str(), old);
            Err(refused)
        }
    }
}

// A value under a name for which there is room. The one that it had comes back. Memory is taken for a new name alone.
fn enter<'h>(
    alloc: Global,
    names: &mut Names<'h>,
    name: &str,
    mut value: Str<'h>,
) -> Result<Option<Str<'h>>, OutOfMemory>
    requires { IsTrue (has_room (texts_of names.old) name.now) }
    ensures entered { OnOk result (names.new ≡ finite.insert names.old name.now value.entry) }
    ensures before { IfOk result (λ old. old ≡ finite.get names.old name.now) }
    ensures kept { OnErr result (names.new ≡ names.old) }
{
    if names.has(name) {
        names.exchange(name, &mut value);
        return Ok(Some(value));
    }
    let copy = String::from_str(alloc, name)?;
    names.put(copy, value)
}

// A name with the value that it had before, or not in use again. No memory.
fn give_back<'h>(names: &mut Names<'h>, name: &str, old: Option<Str<'h>>)
    requires { IsTrue (is_in_use (texts_of names.old) name.now) }
    ensures { names.new ≡ given_back names.old name.now old.entry }
{
    match old {
        Some(mut value) => names.exchange(name, &mut value),
        None => {
            names.take(name);
        }
    }
}

/// How many names are in use once the keeps of the jobs are stored. No memory.
pub(crate) fn names_after(names: &Names, jobs: &[JobLine]) -> usize
    requires jobs { All IsWellFormedJob jobs.now }
    requires few { finite.len names.now ≤ name_limit }

    // Whatever the texts are.
    ensures { (pairs : List (Option (List ℕ) × List ℕ)) → names_of pairs ≡ keeps_of jobs.now → result ≡ finite.len (kept_in (texts_of names.now) pairs) }
{
    let mut count = names.count();
    for (index, job) in jobs.iter().enumerate() {
        if adds_name(names, &jobs[..index], job) {
            count += 1;
        }
    }
    count
}

// Whether a job is kept under a name that isn't in use, nor kept by one of the jobs before it.
fn adds_name(names: &Names, before: &[JobLine], job: &JobLine) -> bool
    requires { IsWellFormedJob job.now }
    ensures { result ≡ is_new (with_keeps (texts_of names.now) before.now) job.now.keep }
{
    let Some(keep) = &job.keep else {
        return false;
    };
    match from_utf8(keep.as_slice()) {
        Ok(name) => !is_in_use_after(names, before, name),
        Err(_) => unreachable!(),
    }
}

// Whether a name is in use once the keeps of the jobs are stored.
fn is_in_use_after(names: &Names, jobs: &[JobLine], name: &str) -> bool
    ensures { result ≡ is_in_use (with_keeps (texts_of names.now) jobs.now) name.now }
{
    let mut found = names.has(name);
    for job in jobs {
        found = keeps(job, name) || found;
    }
    found
}

// Whether a job is kept under the name.
fn keeps(job: &JobLine, name: &str) -> bool
    ensures { result ≡ names_one name.now job.now.keep }
{
    match &job.keep {
        Some(keep) => name.as_bytes() == keep.as_slice(),
        None => false,
    }
}
