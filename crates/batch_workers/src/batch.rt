//! Jobs beside each other.
ghost use Rattle.std.specs.Prelude.{◌≡◌, ◌<◌, ◌≤◌, List, length, All, IfOk};
ghost use Rattle.slot_accounts.specs.Account.{Keeps};
ghost use Rattle.query_lines.specs.Replies.{IsShownOp};
ghost use Rattle.str_value.specs.Meaning.{OfHeap};
ghost use Rattle.batch_workers.specs.Batch.{EachDone, IsFit, IsMade, credits_after, credits_before, edits_in};
ghost use Rattle.batch_workers.specs.Sharing.{EachShareOf, IsDealt, IsGathered, IsSpread};
ghost use Rattle.batch_workers.specs.declared.jobs.Finished.{Finished as FinishedJob};

use crate::jobs::{Done, Finished, Job, Task};
use crate::questions::ANSWER_LIMIT;
use crate::workers::{spread, take_last, work_all};
use outside::Gate;
use std::alloc::Global;
use std::thread::Threads;
use str_value::StrPass;
use text_spec::OutOfMemory;

// The most spendable credits that a job gets.
const MOST_CREDITS: u32 = 8;

/// Does jobs beside each other, on `workers` threads (1 to 8), and gives what they left, in the order of the jobs.
///
/// Each job has a share of the pass: an equal part of its free slots, rounded down, and of its spendable credits, at most 8 beside its
/// stake. It may answer an equal part of the bytes of text of a line. Job i goes to worker i modulo `workers`, which does its jobs in their
/// order and lets each pass the gate before its ops. Then all shares are joined again. What is answered doesn't depend on `workers`. The
/// caller does the jobs of a worker for which no thread can be started.
///
/// Where memory is wanting, values and shares may be lost with it, so the pass can't be ended then.
pub fn run_batch<'h, R: Threads + Sync, G: Gate>(
    rt: &R,
    alloc: Global,
    pass: &mut StrPass<'h>,
    jobs: Vec<Job<'h>>,
    workers: u32,
    gate: &G,
) -> Result<Vec<Done<'h>>, OutOfMemory>
    requires fit { All (IsFit pass.old) jobs.items }
    requires credits { length jobs.items < pass.old.credits }
    requires some { 1 ≤ workers }
    requires few { workers ≤ 8 }
    ensures done { IfOk result (λ done. EachDone pass.old (length jobs.entry.items) jobs.entry.items done.items) }
    ensures shown { IfOk result (λ done. All (λ d. All IsShownOp d.replies) done.items) }

    // What they did on the heap, together, and what became of the credits.
    ensures made { IfOk result (λ done. IsMade pass.old pass.new (edits_in done.items)) }
    ensures credits { IfOk result (λ done. Keeps pass.old (credits_before jobs.entry.items) pass.new (credits_after done.items)) }
    ensures heap { IfOk result (λ done. All (λ d. OfHeap pass.new d.value.place) done.items) }
    ensures one_heap { pass.new.heap ≡ pass.old.heap }
{
    if jobs.is_empty() {
        return Ok(Vec::new(alloc));
    }
    let count = jobs.len();
    let spent = ANSWER_LIMIT - ANSWER_LIMIT / count as u64;
    let tasks = deal(alloc, pass, jobs)?;
    let bundles = spread(alloc, tasks, (workers as usize).min(count))?;
    let worked = work_all(rt, alloc, gate, spent, bundles)?;
    let done = gather(alloc, pass, worked, count)?;
    Ok(done)
}

// A share of the pass for each job.
fn deal<'h>(
    alloc: Global,
    pass: &mut StrPass<'h>,
    jobs: Vec<Job<'h>>,
) -> Result<Vec<Task<'h>>, OutOfMemory>
    requires some { 0 < length jobs.items }
    requires credits { length jobs.items < pass.old.credits }
    ensures dealt { IfOk result (λ v. IsDealt pass.old jobs.entry.items pass.new v.items) }
    ensures one_heap { pass.new.heap ≡ pass.old.heap }
{
    let spendable = pass.credits();
    let count = jobs.len() as u32;
    let slots = pass.free_slots() / count;
    let credits = ((spendable - count) / count).min(MOST_CREDITS);
    let mut tasks = Vec::with_capacity(alloc, jobs.len())?;
    let mut number = 0;
    for job in jobs {
        let share = pass.split(alloc, slots, credits)?;
        tasks.push(Task {
            number,
            pass: share,
            job,
        })?;
        number += 1;
    }
    Ok(tasks)
}

// The shares come back, that of the last job first.
fn gather<'h>(
    alloc: Global,
    pass: &mut StrPass<'h>,
    mut worked: Vec<Vec<Finished<'h>>>,
    count: usize,
) -> Result<Vec<Done<'h>>, OutOfMemory>
    requires some { 0 < length worked.items }
    requires spread { (fs : List FinishedJob) × (length fs ≡ count) × IsSpread fs worked.items × EachShareOf pass.old fs }
    ensures gathered { IfOk result (λ v. (fs : List FinishedJob) → length fs ≡ count → IsSpread fs worked.entry.items → EachShareOf pass.old fs
        → IsGathered pass.old fs pass.new v.items) }
    ensures one_heap { pass.new.heap ≡ pass.old.heap }
{
    let workers = worked.len();
    let mut done = Vec::with_capacity(alloc, count)?;
    let mut left = count;
    while left > 0 {
        left -= 1;
        let Some(last) = take_last(&mut worked, left % workers) else {
            unreachable!();
        };
        let Finished {
            pass: share,
            done: one,
        } = last;
        pass.join(share);
        done.push(one)?;
    }
    done.reverse();
    Ok(done)
}
