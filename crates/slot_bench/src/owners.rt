//! Work on one heap, by one owner and by two in threads: timed and told.
ghost use Rattle.std.specs.Prelude.{◌≡◌, IfSome};

use anyhow::Result;
use slot_model::{Attach, Layout};
use slot_table::{Heap, Pass, Ref};
use std::alloc::Global;
use std::rt::Clock;
use std::thread::Threads;
use std::time::Instant;
use text_spec::TextList;

/// The layout of the heap.
const LAYOUT: Layout = Layout {
    capacity_words: 8192,
    slots: 256,
    credits: 4096,
};

pub(crate) struct Anything;

impl Attach for Anything {
    ghost fits = { λ words side. Unit {0} };

    fn check_fit(_words: &[u64], _side: &[u64]) -> bool {
        true
    }
}

/// A slot of one word, published; `None` where no slot or credit is left.
pub(crate) fn stored<'h>(pass: &mut Pass<'h, Anything>, word: u64) -> Option<Ref<'h, Anything>>
    ensures pass { pass.new.heap ≡ pass.old.heap }
    ensures reference { IfSome result (λ r. r.heap ≡ pass.old.heap) }
{
    if pass.capacity_words() == 0 {
        return None;
    }
    let mut draft = pass.draft()?;
    draft.write(word);
    Some(draft.publish())
}

/// What owners of one heap do again and again.
pub(crate) trait Work {
    /// What is told before the number of times that it was done, and what behind it.
    fn words() -> (&'static str, &'static str);

    /// One owner does it so often. Answers how often it was done.
    fn alone(pass: Pass<'_, Anything>, rounds: u32) -> u64;

    /// Each of two owners in threads does it so often. Answers how often it was done by both.
    fn together<R: Threads>(rt: &R, alloc: Global, pass: Pass<'_, Anything>, rounds: u32) -> u64;
}

/// Times work by one owner of a heap.
pub(crate) fn one_owner<W: Work>(
    rt: &(impl Print + Eprint + Clock),
    alloc: Global,
    rounds: u32,
) -> Result<()> {
    if let Ok((heap, whole)) = Heap::<Anything>::open(alloc, &LAYOUT, &TextList::new(alloc)) {
        let start = Instant::now(rt)?;
        let times = W::alone(heap.pass(whole), rounds);
        tell(rt, start, "one owner", W::words(), times)?;
    }
    Ok(())
}

/// Times work by each of two owners of one heap, in threads.
pub(crate) fn two_owners<W: Work>(
    rt: &(impl Print + Eprint + Clock + Threads),
    alloc: Global,
    rounds: u32,
) -> Result<()> {
    if let Ok((heap, whole)) = Heap::<Anything>::open(alloc, &LAYOUT, &TextList::new(alloc)) {
        let start = Instant::now(rt)?;
        let times = W::together(rt, alloc, heap.pass(whole), rounds);
        tell(rt, start, "two owners", W::words(), times)?;
    }
    Ok(())
}

fn tell(
    rt: &(impl Print + Eprint + Clock),
    start: Instant,
    owners: &str,
    words: (&str, &str),
    times: u64,
) -> Result<()> {
    let milliseconds = start.elapsed(rt)?.as_millis();
    let (before, behind) = words;
    println!(rt; "{owners}: {before}{times}{behind}")?;
    eprintln!(rt; "{milliseconds} ms")?;
    Ok(())
}
