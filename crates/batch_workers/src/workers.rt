//! Jobs spread among workers, and what a worker does.
ghost use Rattle.std.specs.Prelude.{◌≡◌, ℕ, ◌<◌, ◌≤◌, [], length, All, IfOk, IfSome, IfNone, slice_index_or};
ghost use Rattle.batch_workers.specs.Ops.{answer_limit};
ghost use Rattle.batch_workers.specs.Sharing.{EachWorkedOn, IsReady, IsSpread, IsWorkedOn, Pushed, WorkedBundles, bundle};

use crate::jobs::{Done, Finished, Job, Task};
use crate::run::run_ops;
use outside::Gate;
use std::alloc::{AllocError, Global};
use std::marker::Brand;
use std::sync::ledger::{Blank, Ledger};
use std::thread;
use std::thread::Threads;
use text_spec::OutOfMemory;
use word_units::Steps;

// Does one job, once the gate lets it pass.
fn work_on<'h, G: Gate>(
    alloc: Global,
    gate: &G,
    spent: u64,
    task: Task<'h>,
) -> Result<Finished<'h>, OutOfMemory>
    requires ready { IsReady task }
    requires within { spent ≤ answer_limit }
    ensures { IfOk result (λ f. IsWorkedOn spent task.entry f) }
{
    gate.pass(task.number);
    do_ops::<Brand>(alloc, spent, task, Blank::new(1))
}

// Does the ops of one job, with a counter of its own for the words that they read.
fn do_ops<'h, L: Ledger>(
    alloc: Global,
    spent: u64,
    task: Task<'h>,
    blank: Blank,
) -> Result<Finished<'h>, OutOfMemory>
    requires name { blank.name ≡ L.name }
    requires parts { blank.parts ≡ L.parts }
    requires one { blank.parts ≡ 1 }
    requires ready { IsReady task }
    requires within { spent ≤ answer_limit }
    ensures { IfOk result (λ f. IsWorkedOn spent task.entry f) }
{
    let Task {
        number: _,
        mut pass,
        job,
    } = task;
    let Job { mut value, ops } = job;
    let mut steps = Steps::<L>::from_blank(blank);
    let replies = run_ops(
        alloc,
        &mut value,
        &mut pass,
        ops.as_slice(),
        spent,
        &mut steps,
    )?;
    Ok(Finished {
        pass,
        done: Done { value, replies },
    })
}

// Does a worker's jobs, in order.
fn work_through<'h, G: Gate>(
    alloc: Global,
    gate: &G,
    spent: u64,
    tasks: Vec<Task<'h>>,
) -> Result<Vec<Finished<'h>>, OutOfMemory>
    requires ready { All IsReady tasks.items }
    requires within { spent ≤ answer_limit }
    ensures { IfOk result (λ v. EachWorkedOn spent tasks.entry.items v.items) }
{
    let mut finished = Vec::with_capacity(alloc, tasks.len())?;
    for task in tasks {
        let done = work_on(alloc, gate, spent, task)?;
        finished.push(done)?;
    }
    Ok(finished)
}

// The workers, each in a thread where one can be made.
fn work_each<'h, R: Threads + Sync, G: Gate>(
    rt: &R,
    alloc: Global,
    gate: &G,
    spent: u64,
    bundles: Vec<Vec<Task<'h>>>,
) -> Result<Vec<Result<Vec<Finished<'h>>, OutOfMemory>>, AllocError>
    requires ready { All (λ tasks. All IsReady tasks.items) bundles.items }
    requires within { spent ≤ answer_limit }
    ensures len { IfOk result (λ v. length v.items ≡ length bundles.entry.items) }
    ensures each { IfOk result (λ v. (i : ℕ) (d : _) (e : _) → i < length bundles.entry.items
        → IfOk (slice_index_or v.items i d) (λ w. EachWorkedOn spent (slice_index_or bundles.entry.items i e).items w.items)) }
{
    thread::map_vec(
        rt,
        bundles,
        &|tasks|
            requires ready { All IsReady tasks.items }
            requires within { spent ≤ answer_limit }
        { work_through(alloc, gate, spent, tasks) },
    )
}

// What all workers left, in the order of the workers.
pub(crate) fn work_all<'h, R: Threads + Sync, G: Gate>(
    rt: &R,
    alloc: Global,
    gate: &G,
    spent: u64,
    bundles: Vec<Vec<Task<'h>>>,
) -> Result<Vec<Vec<Finished<'h>>>, OutOfMemory>
    requires ready { All (λ tasks. All IsReady tasks.items) bundles.items }
    requires within { spent ≤ answer_limit }
    ensures { IfOk result (λ v. WorkedBundles spent bundles.entry.items v.items) }
{
    let results = work_each(rt, alloc, gate, spent, bundles)?;
    let mut worked = Vec::with_capacity(alloc, results.len())?;
    for result in results {
        let finished = result?;
        worked.push(finished)?;
    }
    Ok(worked)
}

// Bundles without jobs, each with room for so many.
fn empty_bundles<'h>(
    alloc: Global,
    workers: usize,
    each: usize,
) -> Result<Vec<Vec<Task<'h>>>, OutOfMemory>
    ensures { IfOk result (λ v. (length v.items ≡ workers) × IsSpread [] v.items) }
{
    let mut bundles = Vec::with_capacity(alloc, workers)?;
    for _ in 0..workers {
        bundles.push(Vec::with_capacity(alloc, each)?)?;
    }
    Ok(bundles)
}

// Puts a job at the end of a bundle.
fn put<'h>(
    bundles: &mut Vec<Vec<Task<'h>>>,
    worker: usize,
    task: Task<'h>,
) -> Result<(), OutOfMemory>
    requires { worker < length bundles.old.items }
    ensures { IfOk result (λ _. Pushed bundles.old.items worker task.entry bundles.new.items) }
{
    bundles[worker].push(task)?;
    Ok(())
}

// Job i goes to worker i modulo their number.
pub(crate) fn spread<'h>(
    alloc: Global,
    tasks: Vec<Task<'h>>,
    workers: usize,
) -> Result<Vec<Vec<Task<'h>>>, OutOfMemory>
    requires { 0 < workers }
    ensures { IfOk result (λ v. (length v.items ≡ workers) × IsSpread tasks.entry.items v.items) }
{
    let mut bundles = empty_bundles(alloc, workers, tasks.len() / workers + 1)?;
    let mut number = 0;
    for task in tasks {
        put(&mut bundles, number % workers, task)?;
        number += 1;
    }
    Ok(bundles)
}

// Takes the last of what a worker left.
pub(crate) fn take_last<'h>(
    bundles: &mut Vec<Vec<Finished<'h>>>,
    worker: usize,
) -> Option<Finished<'h>>
    requires { worker < length bundles.old.items }
    ensures some { IfSome result (λ f. Pushed bundles.new.items worker f bundles.old.items) }
    ensures none { IfNone result (bundle bundles.old.items worker ≡ []) }
{
    bundles[worker].pop()
}
