//! What no clause says of jobs beside each other: that they find memory, that each passes the gate once, and that they run at one time.
//! And what they leave, beside what they leave in turn and, where their values share a slot, as worked out by hand.
ghost use Rattle.std.specs.Prelude.{◌≡◌, All, IfOk};
ghost use Rattle.str_value.specs.Meaning.{OfHeap};
ghost use Rattle.query_lines.specs.Replies.{IsShownOp};
ghost use Rattle.batch_workers.specs.Batch.{IsFit};

use crate::batch_workers_tests::{ops_of, replies};
use crate::heaps::whole;
use batch_workers::{Done, Job, run_batch};
use outside::{Gate, OpenGate};
use query_lines::{OpReplies, Reply, reply_text};
use std::alloc::Global;
use std::sync::atomic::AtomicU32;
use std::sync::atomic::Ordering::SeqCst;
use std::test::Fail;
use std::thread::Threads;
use str_value::{Str, StrPass};
use text_spec::TextList;
use value_heaps::{closed, ended, layout, opened};

/// A gate that counts who has passed, and holds job 0 until another job has passed.
#[derive(Drop)]
struct HoldingGate {
    passed: AtomicU32,
    gave_up: AtomicU32,
}

impl Gate for HoldingGate {
    fn pass(&self, job: u32) {
        if job == 0 && !rises(&self.passed) {
            self.gave_up.store(1, SeqCst);
        }
        self.passed.fetch_add(1, SeqCst);
    }
}

/// Waits for a number to rise above 0, for at most a thousand million turns. Whether it did.
fn rises(number: &AtomicU32) -> bool {
    for _ in 0..1_000_000_000u32 {
        if number.load(SeqCst) > 0 {
            return true;
        }
    }
    false
}

/// Texts in the value itself, in a slot and, for want of room, in a vector, with ops of each kind. Jobs have them in turn.
const KINDS: [(&str, &str); 5] = [
    ("abc", r#"[{"edit":[0,1],"with":"X"}]"#),
    ("abc", r#"[{"edit":[3,3],"with":"Y"},{"text":true}]"#),
    (
        "é日x, more than fifteen bytes",
        r#"[{"at":1},{"place":{"utf8":3}},{"slice":[0,40]},{"count":"characters"}]"#,
    ),
    (
        "a text in a slot 😀",
        r#"[{"slice":[2,9]},{"edit":[0,2],"with":"1"},{"edit":[0,0],"with":"é"},{"text":true}]"#,
    ),
    ("", "[]"),
];

/// The value of a job's text.
fn value_of<'h>(alloc: Global, pass: &mut StrPass<'h>, number: usize) -> Result<Str<'h>, Fail>
    ensures one_heap { pass.new.heap ≡ pass.old.heap }
    ensures heap { IfOk result (λ s. OfHeap pass.new s.place) }
{
    let (text, _) = KINDS[number % KINDS.len()];
    Ok(Str::from_utf8(alloc, pass, text.as_bytes())?)
}

/// So many jobs.
fn jobs_of<'h>(alloc: Global, pass: &mut StrPass<'h>, count: usize) -> Result<Vec<Job<'h>>, Fail>
    ensures one_heap { pass.new.heap ≡ pass.old.heap }
    ensures fit { IfOk result (λ v. All (IsFit pass.new) v.items) }
{
    let mut jobs = Vec::new(alloc);
    for number in 0..count {
        let value = value_of(alloc, pass, number)?;
        let (_, list) = KINDS[number % KINDS.len()];
        let ops = ops_of(alloc, list)?;
        jobs.push(Job { value, ops })?;
    }
    Ok(jobs)
}

/// What a job left, as text: its answers, and the text of its value, which is released.
fn told<'h>(
    alloc: Global,
    pass: &mut StrPass<'h>,
    value: Str<'h>,
    replies: OpReplies,
    out: &mut Vec<u8>,
) -> Result<(), Fail>
    requires heap { OfHeap pass.old value.place }
    requires shown { All IsShownOp replies }
    ensures { pass.new.heap ≡ pass.old.heap }
{
    let mut value = value;
    let answers = reply_text(alloc, &Reply::Results(replies))?;
    out.extend_from_slice(answers.as_slice())?;
    let text = whole(alloc, &mut value)?;
    out.extend_from_slice(text.as_slice())?;
    value.release(pass);
    Ok(())
}

/// What so many jobs leave where they are done one after another, with the whole pass.
fn in_turn(alloc: Global, pass: &mut StrPass, count: usize) -> Result<Vec<u8>, Fail>
    ensures { pass.new.heap ≡ pass.old.heap }
{
    let mut out = Vec::new(alloc);
    for number in 0..count {
        let mut value = value_of(alloc, pass, number)?;
        let (_, list) = KINDS[number % KINDS.len()];
        let ops = ops_of(alloc, list)?;
        let replies = replies(alloc, &mut value, pass, ops.as_slice(), 0)?;
        told(alloc, pass, value, replies, &mut out)?;
    }
    Ok(out)
}

/// What jobs left, which is released.
fn all_told<'h>(alloc: Global, pass: &mut StrPass<'h>, all: Vec<Done<'h>>) -> Result<Vec<u8>, Fail>
    requires heap { All (λ d. OfHeap pass.old d.value.place) all.items }
    requires shown { All (λ d. All IsShownOp d.replies) all.items }
    ensures { pass.new.heap ≡ pass.old.heap }
{
    let mut out = Vec::new(alloc);
    for done in all {
        let Done { value, replies } = done;
        told(alloc, pass, value, replies, &mut out)?;
    }
    Ok(out)
}

/// What jobs leave where they are done beside each other. `None` where there are no workers or more than 8, or where the pass has too few
/// credits.
fn beside<'h, R: Threads + Sync, G: Gate>(
    rt: &R,
    alloc: Global,
    pass: &mut StrPass<'h>,
    jobs: Vec<Job<'h>>,
    workers: u32,
    gate: &G,
) -> Result<Option<Vec<u8>>, Fail>
    requires fit { All (IsFit pass.old) jobs.items }
    ensures { pass.new.heap ≡ pass.old.heap }
{
    if workers == 0 || 8 < workers || (pass.credits() as usize) < jobs.len() {
        return Ok(None);
    }
    let done = run_batch(rt, alloc, pass, jobs, workers, gate)?;
    Ok(Some(all_told(alloc, pass, done)?))
}

/// The slots of the tests' heaps.
const SLOTS: u32 = 64;

/// So many jobs leave, beside each other on so many workers, what they leave in turn, and everything comes back.
fn same_as_in_turn<R: Threads + Sync>(
    rt: &R,
    alloc: Global,
    count: usize,
    workers: u32,
) -> Result<Option<bool>, Fail> {
    let literals = TextList::new(alloc);
    let Some((heap, all)) = opened(alloc, &layout(SLOTS, 32, 400), &literals) else {
        return Ok(None);
    };
    let mut pass = heap.pass(all);
    let wanted = in_turn(alloc, &mut pass, count)?;
    let jobs = jobs_of(alloc, &mut pass, count)?;
    let Some(got) = beside(rt, alloc, &mut pass, jobs, workers, &OpenGate)? else {
        return Ok(None);
    };
    let Some(all) = ended(pass) else {
        return Ok(None);
    };
    let (slots, idle) = closed(heap, all);
    Ok(Some(slots == idle && got.as_slice() == wanted.as_slice() && (count == 0) == got.is_empty()))
}

#[test]
fn jobs_leave_what_they_leave_in_turn(rt: HostRuntime) -> Result<(), Fail> {
    let alloc = rt.alloc();
    for count in [0, 1, 3, 64] {
        for workers in [1, 2, 3, 8] {
            let right = same_as_in_turn(&rt, alloc, count, workers)?;
            assert_eq!(&rt; right, Some(true), "{count} jobs, {workers} workers");
        }
    }
    Ok(())
}

/// How many of two jobs on two workers passed a gate that holds job 0, and whether it gave up.
fn held<R: Threads + Sync>(rt: &R, alloc: Global) -> Result<Option<(u32, u32)>, Fail> {
    let literals = TextList::new(alloc);
    let Some((heap, all)) = opened(alloc, &layout(SLOTS, 32, 400), &literals) else {
        return Ok(None);
    };
    let mut pass = heap.pass(all);
    let gate = HoldingGate {
        passed: AtomicU32::new(0),
        gave_up: AtomicU32::new(0),
    };
    let jobs = jobs_of(alloc, &mut pass, 2)?;
    let Some(_) = beside(rt, alloc, &mut pass, jobs, 2, &gate)? else {
        return Ok(None);
    };
    let Some(all) = ended(pass) else {
        return Ok(None);
    };
    let (slots, idle) = closed(heap, all);
    if slots != idle {
        return Ok(None);
    }
    Ok(Some((gate.passed.load(SeqCst), gate.gave_up.load(SeqCst))))
}

#[test]
fn gate_holds_job_zero(rt: HostRuntime) -> Result<(), Fail> {
    let alloc = rt.alloc();
    let told = held(&rt, alloc)?;
    assert_eq!(&rt;
        told,
        Some((2, 0)),
        "jobs that passed, and whether job 0 gave up"
    );
    Ok(())
}

/// Ops that read a text, edit it, and read it.
const READ_EDIT_READ: [&str; 3] = [
    r#"[{"slice":[2,6]},{"text":true}]"#,
    r#"[{"edit":[0,1],"with":"The"},{"text":true}]"#,
    r#"[{"text":true},{"count":"utf8"}]"#,
];

/// Jobs whose values share the slot of one text.
fn sharing_jobs<'h>(alloc: Global, pass: &mut StrPass<'h>) -> Result<Vec<Job<'h>>, Fail>
    ensures one_heap { pass.new.heap ≡ pass.old.heap }
    ensures fit { IfOk result (λ v. All (IsFit pass.new) v.items) }
{
    let mut text = Str::from_utf8(alloc, pass, b"a text that three jobs share")?;
    let mut jobs = Vec::new(alloc);
    for list in READ_EDIT_READ {
        let value = text.copy(alloc, pass)?;
        let ops = ops_of(alloc, list)?;
        jobs.push(Job { value, ops })?;
    }
    text.release(pass);
    Ok(jobs)
}

/// What jobs leave whose values share a slot, and how many slots they took. All slots are idle in the end, else `None`.
fn told_of_sharing<R: Threads + Sync>(
    rt: &R,
    alloc: Global,
    workers: u32,
) -> Result<Option<(u32, Vec<u8>)>, Fail> {
    let literals = TextList::new(alloc);
    let Some((heap, all)) = opened(alloc, &layout(SLOTS, 32, 400), &literals) else {
        return Ok(None);
    };
    let mut pass = heap.pass(all);
    let free = pass.free_slots();
    let jobs = sharing_jobs(alloc, &mut pass)?;
    let taken = free.saturating_sub(pass.free_slots());
    let Some(told) = beside(rt, alloc, &mut pass, jobs, workers, &OpenGate)? else {
        return Ok(None);
    };
    let Some(all) = ended(pass) else {
        return Ok(None);
    };
    let (slots, idle) = closed(heap, all);
    if slots != idle {
        return Ok(None);
    }
    Ok(Some((taken, told)))
}

#[test]
fn an_edit_of_a_shared_text_is_of_its_job_alone(rt: HostRuntime) -> Result<(), Fail> {
    let alloc = rt.alloc();
    let wanted =
        r#"{"results":[{"text":"text"},{"text":"a text that three jobs share"}]}a text that three jobs share{"results":[{"scalars":30,"utf16":30,"utf8":30},{"text":"The text that three jobs share"}]}The text that three jobs share{"results":[{"text":"a text that three jobs share"},{"count":28}]}a text that three jobs share"#;
    for workers in [1, 3] {
        let (taken, told) = told_of_sharing(&rt, alloc, workers)?.expect(&rt, "all slots idle");
        assert_eq!(&rt; taken, 1, "slots of the text, {workers} workers");
        assert_eq!(&rt; told.as_slice(), wanted.as_bytes(), "{workers} workers");
    }
    Ok(())
}
