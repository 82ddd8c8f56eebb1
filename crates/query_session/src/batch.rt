//! The command `batch`: jobs on copies of the values of names, beside each other, and what they leave is kept.
ghost use Rattle.std.specs.Prelude.{◌≡◌, ◌≤◌, All, None, Some, map, length, IfOk, OnErr, MatchOption, slice_get};
ghost use Rattle.std.specs.FinMap as finite;
ghost use Rattle.query_lines.specs.WellFormed.{IsWellFormedJob};
ghost use Rattle.query_lines.specs.Replies.{IsShown};
ghost use Rattle.query_lines.specs.declared.command.Command.{Command};
ghost use Rattle.query_lines.specs.declared.command.JobLine.{JobLine as Line};
ghost use Rattle.query_session.specs.Batching.{first_unused, state_kept, batch_reply, jobs_reply};
ghost use Rattle.query_session.specs.Copies.{Copies, keep_bytes};
ghost use Rattle.query_session.specs.Reply.{IsRefused};
ghost use Rattle.query_session.specs.State.{name_limit};
ghost use Rattle.query_session.specs.Steps.{Stepped};
ghost use Rattle.query_session.specs.Values.{HasEnough, IsSound, job_limit, texts_of};
ghost use Rattle.query_session.specs.Running.{worker_limit};

use crate::kept::{Kept, keep_all, names_after};
use crate::names::Names;
use crate::words::{MAX_NAMES, no_name, str_of, string_of, string_or_none};
use batch_workers::{Done, Job, run_batch};
use outside::Gate;
use query_lines::{JobLine, JobLines, JobReplies, OpReplies, Refusal, Reply};
use std::alloc::Global;
use std::thread::Threads;
use str_value::StrPass;
use text_spec::OutOfMemory;

// Does the jobs of a line beside each other, each on a copy of its name's value, and keeps what they leave in their order. Where memory is
// wanting nothing is kept.
pub(crate) fn batch<'h, R: Threads + Sync, G: Gate>(
    rt: &R,
    alloc: Global,
    pass: &mut StrPass<'h>,
    names: &mut Names<'h>,
    lines: JobLines,
    workers: u32,
    gate: &G,
) -> Result<Reply, OutOfMemory>
    requires some { 1 ≤ workers }
    requires few { workers ≤ worker_limit }
    requires jobs { length lines ≤ job_limit }
    requires well_formed { All IsWellFormedJob lines }
    requires sound { IsSound names.old pass.old }
    requires enough { HasEnough names.old pass.old }
    ensures reply { IfOk result (λ r. (r, texts_of names.new) ≡ batch_reply (texts_of names.old) lines (first_unused (texts_of names.old) lines)) }
    ensures refused_is_free { OnErr result (¬ (IsRefused (batch_reply (texts_of names.old) lines (first_unused (texts_of names.old) lines)).0)) }
    ensures shown { IfOk result IsShown }
    ensures kept { OnErr result (texts_of names.new ≡ texts_of names.old) }
    ensures stepped { IfOk result (λ r. Stepped r (Command.Batch lines) names.old pass.old names.new pass.new) }
    ensures one_heap { pass.new.heap ≡ pass.old.heap }
{
    let mut lines = lines.into_vec();
    if let Some(number) = find_unused(names, lines.as_slice()) {
        let line = lines.swap_remove(number);
        return Ok(no_name(string_of(line.name)));
    }
    if names_after(names, lines.as_slice()) > MAX_NAMES {
        return Ok(Reply::Refused(Refusal::TooManyNames));
    }
    do_jobs(rt, alloc, pass, names, lines, workers, gate)
}

// The number of the first job whose name isn't in use.
fn find_unused(names: &Names, lines: &[JobLine]) -> Option<usize>
    requires { All IsWellFormedJob lines.now }
    ensures { MatchOption result (first_unused (texts_of names.now) lines.now ≡ None)
        (λ i. (line : Line) × (slice_get lines.now i ≡ Some line) × (first_unused (texts_of names.now) lines.now ≡ Some line.name)) }
{
    for number in 0..lines.len() {
        if !names.has(str_of(&lines[number].name)) {
            return Some(number);
        }
    }
    None
}

// The same where all is there.
fn do_jobs<'h, R: Threads + Sync, G: Gate>(
    rt: &R,
    alloc: Global,
    pass: &mut StrPass<'h>,
    names: &mut Names<'h>,
    lines: Vec<JobLine>,
    workers: u32,
    gate: &G,
) -> Result<Reply, OutOfMemory>
    requires some { 1 ≤ workers }
    requires few { workers ≤ worker_limit }
    requires jobs { length lines.items ≤ job_limit }
    requires well_formed { All IsWellFormedJob lines.items }
    requires named { first_unused (texts_of names.old) lines.items ≡ None }
    requires room { finite.len (state_kept (texts_of names.old) lines.items) ≤ name_limit }
    requires sound { IsSound names.old pass.old }
    requires enough { HasEnough names.old pass.old }
    ensures reply { IfOk result (λ r. (r, texts_of names.new) ≡ jobs_reply (texts_of names.old) lines.items) }
    ensures shown { IfOk result IsShown }
    ensures kept { OnErr result (texts_of names.new ≡ texts_of names.old) }
    ensures stepped { IfOk result (λ r. Stepped r (Command.Batch lines.items) names.old pass.old names.new pass.new) }
    ensures one_heap { pass.new.heap ≡ pass.old.heap }
{
    let (jobs, keeps) = copies(alloc, pass, names, lines)?;
    let done = run_batch(rt, alloc, pass, jobs, workers, gate)?;
    let (replies, values) = part(alloc, done, keeps)?;
    keep_all(pass, names, values)?;
    Ok(Reply::Jobs(JobReplies::new(replies)))
}

// A copy of the value of each job's name, with the job's ops; and the names under which what they leave is kept.
fn copies<'h>(
    alloc: Global,
    pass: &mut StrPass<'h>,
    names: &mut Names<'h>,
    lines: Vec<JobLine>,
) -> Result<(Vec<Job<'h>>, Vec<Option<String>>), OutOfMemory>
    requires jobs { length lines.items ≤ job_limit }
    requires well_formed { All IsWellFormedJob lines.items }
    requires named { first_unused (texts_of names.old) lines.items ≡ None }
    requires sound { IsSound names.old pass.old }
    requires enough { HasEnough names.old pass.old }
    ensures copied { IfOk result (λ t. Copies names.old pass.old lines.items names.new pass.new t.0.items t.1.items) }
    ensures texts { texts_of names.new ≡ texts_of names.old }
    ensures one_heap { pass.new.heap ≡ pass.old.heap }
{
    let mut jobs = Vec::with_capacity(alloc, lines.len())?;
    let mut keeps = Vec::with_capacity(alloc, lines.len())?;
    for line in lines {
        let JobLine { name, ops, keep } = line;
        let value = names.copy(pass, alloc, string_of(name).as_str())?;
        jobs.push(Job { value, ops })?;
        keeps.push(string_or_none(keep))?;
    }
    Ok((jobs, keeps))
}

// The answers of the jobs, and what they left, each with the name under which it is kept.
fn part<'h>(
    alloc: Global,
    done: Vec<Done<'h>>,
    keeps: Vec<Option<String>>,
) -> Result<(Vec<OpReplies>, Vec<Kept<'h>>), OutOfMemory>
    requires { length keeps.items ≡ length done.items }
    ensures replies { IfOk result (λ t. t.0.items ≡ map (λ d. d.replies) done.entry.items) }
    ensures names { IfOk result (λ t. map (λ k. keep_bytes k.name) t.1.items ≡ map keep_bytes keeps.items) }
    ensures values { IfOk result (λ t. map (λ k. k.value) t.1.items ≡ map (λ d. d.value) done.entry.items) }
{
    let mut replies = Vec::with_capacity(alloc, done.len())?;
    let mut values = Vec::with_capacity(alloc, done.len())?;
    let mut keeps = keeps.into_iter();
    for one in done {
        let Some(keep) = keeps.next() else {
            unreachable!();
        };
        replies.push(one.replies)?;
        values.push(Kept {
            name: keep,
            value: one.value,
        })?;
    }
    Ok((replies, values))
}
