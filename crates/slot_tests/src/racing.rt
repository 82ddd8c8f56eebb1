//! Two owners of one heap, in threads: what no clause says of them together.
ghost use Rattle.std.specs.Prelude.{◌≡◌, ◌<◌, true, length, IfSome};

use crate::heaps::{NotEmpty, closed, ended, layout, offered, opened, share_of, stored};
use slot_table::{Pass, Ref, Whole};
use std::alloc::Global;
use std::test::Fail;
use std::thread::{Threads, join_mut};

// A pass, a reference that it holds, what it is to do, and how many answers were as wanted. Then, of an offer that it made: whether that won, the
// word that it read of the side, and whether its pass has one free slot fewer where it won and as many as before where it lost.
#[derive(Drop)]
struct Holder<'h> {
    pass: Pass<'h, NotEmpty>,
    held: Option<Ref<'h, NotEmpty>>,
    work: Work,
    yes: u64,
    won: bool,
    found: u64,
    slots_are_right: bool,
}

// What a holder does in its thread.
#[derive(Clone, Copy)]
enum Work {
    LetGo,
    CopyOften,
    Publish { word: u64 },
    TakeOver { word: u64 },
    WriteOften,
    PublishOften,
    Offer { word: u64, pause: u32 },
}

// It gives its reference up, and counts the answer.
fn let_go<'h>(holder: &mut Holder<'h>)
    requires { IfSome holder.old.held (λ r. (r.heap ≡ holder.old.pass.heap) × (0 < length r.known)) }
    ensures pass { holder.new.pass.heap ≡ holder.old.pass.heap }
    ensures held { IfSome holder.new.held (λ r. (r.heap ≡ holder.new.pass.heap) × (0 < length r.known)) }
{
    if let Some(reference) = holder.held.take() {
        if reference.release(&mut holder.pass) {
            holder.yes = holder.yes.wrapping_add(1);
        }
    }
}

// It has its reference a second time and gives that up, a hundred times, and counts the copies that were the last.
fn copy_often<'h>(holder: &mut Holder<'h>)
    requires { IfSome holder.old.held (λ r. (r.heap ≡ holder.old.pass.heap) × (0 < length r.known)) }
    ensures pass { holder.new.pass.heap ≡ holder.old.pass.heap }
    ensures held { IfSome holder.new.held (λ r. (r.heap ≡ holder.new.pass.heap) × (0 < length r.known)) }
{
    let Some(mut reference) = holder.held.take() else {
        return;
    };
    for _ in 0..100 {
        if let Some(copy) = reference.retain(&mut holder.pass) {
            if copy.release(&mut holder.pass) {
                holder.yes = holder.yes.wrapping_add(1);
            }
        }
    }
    holder.held = Some(reference);
}

// It reads what the other published and gives that up, and counts it where that was the word, and the last reference.
fn take_over<'h>(holder: &mut Holder<'h>, word: u64)
    requires { IfSome holder.old.held (λ r. (r.heap ≡ holder.old.pass.heap) × (0 < length r.known)) }
    ensures pass { holder.new.pass.heap ≡ holder.old.pass.heap }
    ensures held { IfSome holder.new.held (λ r. (r.heap ≡ holder.new.pass.heap) × (0 < length r.known)) }
{
    if let Some(mut reference) = holder.held.take() {
        let read = reference.read(0);
        if reference.release(&mut holder.pass) && read == word {
            holder.yes = holder.yes.wrapping_add(1);
        }
    }
}

// The first word is written, and read back.
fn write_first<'h>(reference: &mut Ref<'h, NotEmpty>, word: u64) -> u64
    requires bare { reference.old.bare ≡ true }
    requires room { 0 < reference.old.heap.layout.capacity_words }
    ensures reference { (reference.new.bare ≡ true) × (reference.new.heap ≡ reference.old.heap) }
    ensures word { result ≡ word }
{
    reference.write(0, word);
    reference.read(0)
}

// The first word is written in place, again and again. How many of the words were read back.
fn write_all<'h>(reference: &mut Ref<'h, NotEmpty>, capacity_words: u32) -> u64
    requires { capacity_words ≡ reference.old.heap.layout.capacity_words }
    ensures { reference.new.heap ≡ reference.old.heap }
{
    if capacity_words == 0 {
        return 0;
    }
    let mut right: u64 = 0;
    for word in 0..1000u64 {
        if reference.bare() && write_first(reference, word) == word {
            right = right.wrapping_add(1);
        }
    }
    right
}

// It writes its slot in place, counts the words that were read back, and gives the slot up.
fn write_often<'h>(holder: &mut Holder<'h>)
    requires { IfSome holder.old.held (λ r. (r.heap ≡ holder.old.pass.heap) × (0 < length r.known)) }
    ensures pass { holder.new.pass.heap ≡ holder.old.pass.heap }
    ensures held { IfSome holder.new.held (λ r. (r.heap ≡ holder.new.pass.heap) × (0 < length r.known)) }
{
    if let Some(mut reference) = holder.held.take() {
        let right = write_all(&mut reference, holder.pass.capacity_words());
        holder.yes = holder.yes.wrapping_add(right);
        reference.release(&mut holder.pass);
    }
}

// It publishes a word, reads it back and gives the slot up, again and again, and counts the slots that were idle again.
fn publish_often<'h>(holder: &mut Holder<'h>)
    ensures pass { holder.new.pass.heap ≡ holder.old.pass.heap }
    ensures held { holder.new.held ≡ holder.old.held }
{
    for word in 0..1000u64 {
        if let Some(mut reference) = stored(&mut holder.pass, word) {
            let read = reference.read(0);
            if reference.release(&mut holder.pass) && read == word {
                holder.yes = holder.yes.wrapping_add(1);
            }
        }
    }
}

// It reads its slot for a while, and offers a word as its side.
fn offer<'h>(holder: &mut Holder<'h>, word: u64, pause: u32)
    requires { IfSome holder.old.held (λ r. (r.heap ≡ holder.old.pass.heap) × (0 < length r.known)) }
    ensures pass { holder.new.pass.heap ≡ holder.old.pass.heap }
    ensures held { IfSome holder.new.held (λ r. (r.heap ≡ holder.new.pass.heap) × (0 < length r.known)) }
{
    let Some(mut reference) = holder.held.take() else {
        return;
    };
    for _ in 0..pause {
        reference.read(0);
    }
    let before = holder.pass.free_slots();
    if let Some((won, found)) = offered(&mut reference, &mut holder.pass, word) {
        holder.won = won;
        holder.found = found;
        let taken = if won { 1 } else { 0 };
        holder.slots_are_right = before.wrapping_sub(holder.pass.free_slots()) == taken;
    }
    holder.held = Some(reference);
}

fn work_on<'h>(holder: &mut Holder<'h>)
    requires { IfSome holder.old.held (λ r. (r.heap ≡ holder.old.pass.heap) × (0 < length r.known)) }
    ensures pass { holder.new.pass.heap ≡ holder.old.pass.heap }
    ensures held { IfSome holder.new.held (λ r. (r.heap ≡ holder.new.pass.heap) × (0 < length r.known)) }
{
    match holder.work {
        Work::LetGo => let_go(holder),
        Work::CopyOften => copy_often(holder),
        Work::Publish { word } => holder.held = stored(&mut holder.pass, word),
        Work::TakeOver { word } => take_over(holder, word),
        Work::WriteOften => write_often(holder),
        Work::PublishOften => publish_often(holder),
        Work::Offer { word, pause } => offer(holder, word, pause),
    }
}

// Both work, at once.
fn at_once<'h, R: Threads>(
    rt: &R,
    one: Holder<'h>,
    first: Work,
    other: Holder<'h>,
    second: Work,
) -> (Holder<'h>, Holder<'h>)
    requires one { IfSome one.held (λ r. (r.heap ≡ one.pass.heap) × (0 < length r.known)) }
    requires other { (other.pass.heap ≡ one.pass.heap) × IfSome other.held (λ r. (r.heap ≡ one.pass.heap) × (0 < length r.known)) }
    ensures passes { (result.0.pass.heap ≡ one.entry.pass.heap) × (result.1.pass.heap ≡ one.entry.pass.heap) }
    ensures one { IfSome result.0.held (λ r. (r.heap ≡ one.entry.pass.heap) × (0 < length r.known)) }
    ensures other { IfSome result.1.held (λ r. (r.heap ≡ one.entry.pass.heap) × (0 < length r.known)) }
{
    let mut one = one;
    let mut other = other;
    one.work = first;
    other.work = second;
    join_mut(rt, &mut || work_on(&mut one), &mut || work_on(&mut other));
    (one, other)
}

// A holder of a reference, or of none yet, with a pass of so many slots.
fn holder_of<'h>(
    alloc: Global,
    pass: &mut Pass<'h, NotEmpty>,
    slots: u32,
    held: Option<Ref<'h, NotEmpty>>,
) -> Option<Holder<'h>>
    ensures pass { pass.new.heap ≡ pass.old.heap }
    ensures holder { IfSome result (λ h. (h.pass.heap ≡ pass.old.heap) × (h.held ≡ held.entry)) }
{
    let share = share_of(alloc, pass, slots)?;
    Some(Holder {
        pass: share,
        held,
        work: Work::LetGo,
        yes: 0,
        won: false,
        found: 0,
        slots_are_right: false,
    })
}

// One slot with two references, each with a pass of its own that has so many slots.
fn shared_out<'h>(
    alloc: Global,
    pass: &mut Pass<'h, NotEmpty>,
    slots: u32,
) -> Option<(Holder<'h>, Holder<'h>)>
    ensures pass { pass.new.heap ≡ pass.old.heap }
    ensures passes { IfSome result (λ t. (t.0.pass.heap ≡ pass.old.heap) × (t.1.pass.heap ≡ pass.old.heap)) }
    ensures one { IfSome result (λ t. IfSome t.0.held (λ r. (r.heap ≡ pass.old.heap) × (0 < length r.known))) }
    ensures other { IfSome result (λ t. IfSome t.1.held (λ r. (r.heap ≡ pass.old.heap) × (0 < length r.known))) }
{
    let mut one = stored(pass, 7)?;
    let other = one.retain(pass)?;
    let first = holder_of(alloc, pass, slots, Some(one))?;
    let second = holder_of(alloc, pass, slots, Some(other))?;
    Some((first, second))
}

// All that two holders have comes to a pass. How many answers were as wanted.
fn gathered<'h>(pass: &mut Pass<'h, NotEmpty>, one: Holder<'h>, other: Holder<'h>) -> u64
    requires passes { (one.pass.heap ≡ pass.old.heap) × (other.pass.heap ≡ pass.old.heap) }
    requires one { IfSome one.held (λ r. (r.heap ≡ pass.old.heap) × (0 < length r.known)) }
    requires other { IfSome other.held (λ r. (r.heap ≡ pass.old.heap) × (0 < length r.known)) }
    ensures { pass.new.heap ≡ pass.old.heap }
{
    let mut one = one;
    let mut other = other;
    let_go(&mut one);
    let_go(&mut other);
    pass.join(one.pass);
    pass.join(other.pass);
    one.yes.wrapping_add(other.yes)
}

// Both give their reference up, at once. How many answers were true.
fn both_let_go<'h, R: Threads>(rt: &R, alloc: Global, pass: &mut Pass<'h, NotEmpty>) -> Option<u64>
    ensures { pass.new.heap ≡ pass.old.heap }
{
    let (one, other) = shared_out(alloc, pass, 0)?;
    let (one, other) = at_once(rt, one, Work::LetGo, other, Work::LetGo);
    Some(gathered(pass, one, other))
}

// The same a thousand times. How often exactly one answer was true.
fn both_let_go_often<'h, R: Threads>(rt: &R, alloc: Global, pass: &mut Pass<'h, NotEmpty>) -> u64
    ensures { pass.new.heap ≡ pass.old.heap }
{
    let mut right: u64 = 0;
    for _ in 0..1000 {
        if both_let_go(rt, alloc, pass) == Some(1) {
            right = right.wrapping_add(1);
        }
    }
    right
}

// Both copy often, at once. Then the second gives its own up, and the first asks whether it is alone. How many releases were the last.
fn both_copy<'h, R: Threads>(rt: &R, alloc: Global, pass: &mut Pass<'h, NotEmpty>) -> Option<u64>
    ensures { pass.new.heap ≡ pass.old.heap }
{
    let (one, other) = shared_out(alloc, pass, 0)?;
    let (mut one, mut other) = at_once(rt, one, Work::CopyOften, other, Work::CopyOften);
    let_go(&mut other);
    let mut mine = one.held.take()?;
    if !mine.sole() {
        return None;
    }
    one.held = Some(mine);
    Some(gathered(pass, one, other))
}

// The same a thousand times. How often no copy was the last, and the one left alone in the end.
fn both_copy_often<'h, R: Threads>(rt: &R, alloc: Global, pass: &mut Pass<'h, NotEmpty>) -> u64
    ensures { pass.new.heap ≡ pass.old.heap }
{
    let mut right: u64 = 0;
    for _ in 0..1000 {
        if both_copy(rt, alloc, pass) == Some(1) {
            right = right.wrapping_add(1);
        }
    }
    right
}

// Both publish, at once, hand their references to each other, and give them up, again and again. How many references went right.
fn hand_over_often<'h, R: Threads>(
    rt: &R,
    alloc: Global,
    pass: &mut Pass<'h, NotEmpty>,
) -> Option<u64>
    ensures { pass.new.heap ≡ pass.old.heap }
{
    let mut one = holder_of(alloc, pass, 1, None)?;
    let mut other = holder_of(alloc, pass, 1, None)?;
    for _ in 0..1000 {
        let (mut first, mut second) = at_once(
            rt,
            one,
            Work::Publish { word: 11 },
            other,
            Work::Publish { word: 22 },
        );
        let handed = first.held.take();
        first.held = second.held.take();
        second.held = handed;
        (one, other) = at_once(
            rt,
            first,
            Work::TakeOver { word: 22 },
            second,
            Work::TakeOver { word: 11 },
        );
    }
    Some(gathered(pass, one, other))
}

// Both publish, each into a slot of its own; or the first writes in place, and the second publishes beside it.
fn publish_beside<'h, R: Threads>(
    rt: &R,
    alloc: Global,
    pass: &mut Pass<'h, NotEmpty>,
    writes: bool,
) -> Option<u64>
    ensures { pass.new.heap ≡ pass.old.heap }
{
    let held = if writes { stored(pass, 7) } else { None };
    let slots = if writes { 0 } else { 1 };
    let work = if writes {
        Work::WriteOften
    } else {
        Work::PublishOften
    };
    let one = holder_of(alloc, pass, slots, held)?;
    let other = holder_of(alloc, pass, 1, None)?;
    let (one, other) = at_once(rt, one, work, other, Work::PublishOften);
    Some(gathered(pass, one, other))
}

// The one that is left takes the side away and installs another, and gives its slot up. Whether each call went right.
fn replaced<'h>(mut held: Ref<'h, NotEmpty>, pass: &mut Pass<'h, NotEmpty>) -> Option<bool>
    requires { held.heap ≡ pass.old.heap }
    ensures { pass.new.heap ≡ pass.old.heap }
{
    let known = held.known_side();
    if !held.sole() {
        return None;
    }
    let taken = held.detach(pass);
    let bare = known.is_some() && taken == known && held.bare() && held.look().is_none();
    let again = offered(&mut held, pass, 33)?;
    Some(bare && again == (true, 33) && held.release(pass))
}

// Two owners of one new slot race. Whether one of them won, both read the side that it offered, and the one left replaces it.
fn race_once<'h, R: Threads>(
    rt: &R,
    alloc: Global,
    pass: &mut Pass<'h, NotEmpty>,
    round: u32,
) -> Option<bool>
    ensures { pass.new.heap ≡ pass.old.heap }
{
    let (word, word_too) = (round as u64 * 2, round as u64 * 2 + 1);
    // A thread takes its time to start, so the second owner waits longer and longer over a hundred rounds: each comes first in some.
    let pause = round % 100 * 400;
    let (one, other) = shared_out(alloc, pass, 1)?;
    let first = Work::Offer { word, pause: 0 };
    let second = Work::Offer {
        word: word_too,
        pause,
    };
    let (one, other) = at_once(rt, one, first, other, second);
    let wanted = if one.won { word } else { word_too };
    let right = one.won != other.won
        && one.found == wanted
        && other.found == wanted
        && one.slots_are_right
        && other.slots_are_right;
    judged(one, other, pass, right)
}

// What the racers have comes to the pass. Whether the race went right, and the one left could replace the side.
fn judged<'h>(
    one: Holder<'h>,
    other: Holder<'h>,
    pass: &mut Pass<'h, NotEmpty>,
    right: bool,
) -> Option<bool>
    requires passes { (one.pass.heap ≡ pass.old.heap) × (other.pass.heap ≡ pass.old.heap) }
    requires one { IfSome one.held (λ r. (r.heap ≡ pass.old.heap) × (0 < length r.known)) }
    requires other { IfSome other.held (λ r. (r.heap ≡ pass.old.heap) × (0 < length r.known)) }
    ensures { pass.new.heap ≡ pass.old.heap }
{
    pass.join(one.pass);
    pass.join(other.pass);
    let shared = !other.held?.release(pass);
    let replaced = replaced(one.held?, pass)?;
    Some(right && shared && replaced)
}

// How many of a thousand races went right.
fn races<'h, R: Threads>(rt: &R, alloc: Global, pass: &mut Pass<'h, NotEmpty>) -> u64
    ensures { pass.new.heap ≡ pass.old.heap }
{
    let mut right: u64 = 0;
    for round in 0..1000 {
        if race_once(rt, alloc, pass, round) == Some(true) {
            right = right.wrapping_add(1);
        }
    }
    right
}

// What two owners do to each other.
#[derive(Clone, Copy, Debug)]
enum Contest {
    Publish,
    Write,
    HandOver,
    Copy,
    Release,
    Install,
}

// How much went right, and the whole pass at the end.
fn raced<'h, R: Threads>(
    rt: &R,
    alloc: Global,
    contest: Contest,
    mut pass: Pass<'h, NotEmpty>,
) -> (Option<u64>, Option<Whole<NotEmpty>>)
    ensures { IfSome result.1 (λ w. w.heap ≡ pass.entry.heap) }
{
    let right = match contest {
        Contest::Publish => publish_beside(rt, alloc, &mut pass, false),
        Contest::Write => publish_beside(rt, alloc, &mut pass, true),
        Contest::HandOver => hand_over_often(rt, alloc, &mut pass),
        Contest::Copy => Some(both_copy_often(rt, alloc, &mut pass)),
        Contest::Release => Some(both_let_go_often(rt, alloc, &mut pass)),
        Contest::Install => Some(races(rt, alloc, &mut pass)),
    };
    (right, ended(pass))
}

#[test]
fn two_owners_of_one_heap(rt: HostRuntime) -> Result<(), Fail> {
    let alloc = rt.alloc();
    let rows = [
        (Contest::Publish, 2, 2000),
        (Contest::Write, 2, 2000),
        (Contest::HandOver, 2, 2000),
        (Contest::Copy, 1, 1000),
        (Contest::Copy, 2, 1000),
        (Contest::Copy, 4, 1000),
        (Contest::Release, 1, 1000),
        (Contest::Release, 2, 1000),
        (Contest::Release, 4, 1000),
        (Contest::Install, 3, 1000),
        (Contest::Install, 4, 1000),
    ];
    for (contest, slots, wanted) in rows {
        let (heap, whole) = opened(&rt, alloc, &layout(2, slots, 10));
        let (right, Some(whole)) = raced(&rt, alloc, contest, heap.pass(whole)) else {
            panic!(rt; "{contest:?}: something is still out")
        };
        assert_eq!(rt; right, Some(wanted), "{contest:?}");
        assert_eq!(rt; closed(heap, whole), (slots, slots), "{contest:?}");
    }
    Ok(())
}
