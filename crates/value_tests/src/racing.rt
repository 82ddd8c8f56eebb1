//! Two owners of one slot learn its breadcrumbs at once, in threads.
ghost use Rattle.std.specs.Prelude.{◌≡◌, IfOk, IfSome};
ghost use Rattle.str_value.specs.Meaning.{OfHeap};

use crate::learning::{crumbs_of, learn, plain_crumbs};
use crate::values::text_of;
use std::alloc::Global;
use std::thread::{Threads, join_mut};
use str_value::{Learned, MakeError, Str, StrPass};
use text_spec::TextList;
use value_heaps::{StrWhole, closed, ended, layout, opened};
use word_units::Text;

/// An owner with a pass of one slot, and how long it waits. After it has learned: what it answered, and whether the slot's list is its own.
#[derive(Drop)]
struct Owner<'h> {
    pass: StrPass<'h>,
    value: Str<'h>,
    pause: u32,
    answer: Learned,
    won: bool,
}

/// It asks for a while whether breadcrumbs are known, and learns them.
fn learn_after<'h>(owner: &mut Owner<'h>)
    requires heap { OfHeap owner.old.pass owner.old.value.place }
    ensures pass { owner.new.pass.heap ≡ owner.old.pass.heap }
    ensures heap { OfHeap owner.new.pass owner.new.value.place }
{
    for _ in 0..owner.pause {
        owner.won = owner.value.crumbs_known();
    }
    let before = owner.pass.free_slots();
    owner.answer = learn(&mut owner.value, &mut owner.pass);
    owner.won = owner.pass.free_slots() < before;
}

/// An owner of the value, with a pass of one slot and one credit.
fn owner_of<'h>(alloc: Global, pass: &mut StrPass<'h>, value: Str<'h>) -> Option<Owner<'h>>
    requires heap { OfHeap pass.old value.place }
    ensures pass { pass.new.heap ≡ pass.old.heap }
    ensures owner { IfSome result (λ o. (o.pass.heap ≡ pass.old.heap) × OfHeap o.pass o.value.place) }
{
    if pass.free_slots() < 1 || pass.credits() < 2 {
        return None;
    }
    match pass.split(alloc, 1, 1) {
        Ok(share) => Some(Owner {
            pass: share,
            value,
            pause: 0,
            answer: Learned::NoSlot,
            won: false,
        }),
        Err(_) => None,
    }
}

/// Both learn at once, the second after a pause.
fn at_once<'h, R: Threads>(
    rt: &R,
    one: Owner<'h>,
    other: Owner<'h>,
    pause: u32,
) -> (Owner<'h>, Owner<'h>)
    requires one { OfHeap one.pass one.value.place }
    requires other { OfHeap other.pass other.value.place }
    ensures passes { (result.0.pass.heap ≡ one.entry.pass.heap) × (result.1.pass.heap ≡ other.entry.pass.heap) }
    ensures one { OfHeap result.0.pass result.0.value.place }
    ensures other { OfHeap result.1.pass result.1.value.place }
{
    let mut one = one;
    let mut other = other;
    other.pause = pause;
    join_mut(
        rt,
        &mut || learn_after(&mut one),
        &mut || { learn_after(&mut other) },
    );
    (one, other)
}

/// Whether an owner answered that it knows the breadcrumbs, and read these. All that it has comes to the pass.
fn judged<'h>(
    alloc: Global,
    pass: &mut StrPass<'h>,
    owner: Owner<'h>,
    wanted: &[u64],
) -> Result<bool, MakeError>
    requires pass { owner.pass.heap ≡ pass.old.heap }
    requires heap { OfHeap owner.pass owner.value.place }
    ensures { pass.new.heap ≡ pass.old.heap }
{
    let Owner {
        pass: share,
        mut value,
        pause: _,
        answer,
        won: _,
    } = owner;
    pass.join(share);
    let list = crumbs_of(alloc, &mut value, wanted.len())?;
    let right = answer == Learned::Known && value.crumbs_known() && list.as_slice() == wanted;
    value.release(pass);
    Ok(right)
}

/// Two owners of one new slot race. Whether one of them installed its list, and both know it.
fn race_once<'h, R: Threads>(
    rt: &R,
    alloc: Global,
    pass: &mut StrPass<'h>,
    text: &str,
    wanted: &[u64],
    pause: u32,
) -> Result<Option<bool>, MakeError>
    ensures { pass.new.heap ≡ pass.old.heap }
{
    let mut value = Str::from_utf8(alloc, pass, text.as_bytes())?;
    let copy = value.copy(alloc, pass)?;
    let Some(one) = owner_of(alloc, pass, value) else {
        return Ok(None);
    };
    let Some(other) = owner_of(alloc, pass, copy) else {
        return Ok(None);
    };
    let (one, other) = at_once(rt, one, other, pause);
    let installed = one.won != other.won;
    let first = judged(alloc, pass, one, wanted)?;
    let second = judged(alloc, pass, other, wanted)?;
    Ok(Some(installed && first && second))
}

/// How many of five hundred races went right. A thread takes its time to start, so the second owner waits longer and longer over fifty of
/// them: each owner installs its list in some, and finds the other's or comes too late with its own in the others.
fn races<'h, R: Threads>(
    rt: &R,
    alloc: Global,
    pass: &mut StrPass<'h>,
    text: &str,
) -> Result<u32, MakeError>
    ensures { pass.new.heap ≡ pass.old.heap }
{
    let wanted = plain_crumbs(alloc, text)?;
    let mut right: u32 = 0;
    for round in 0..500u32 {
        let pause = round % 50 * 800;
        if race_once(rt, alloc, pass, text, wanted.as_slice(), pause)? == Some(true) {
            right = right.wrapping_add(1);
        }
    }
    Ok(right)
}

fn raced<'h, R: Threads>(
    rt: &R,
    alloc: Global,
    mut pass: StrPass<'h>,
    text: &str,
) -> Result<(u32, Option<StrWhole>), MakeError>
    ensures { IfOk result (λ t. IfSome t.1 (λ w. w.heap ≡ pass.entry.heap)) }
{
    let right = races(rt, alloc, &mut pass, text)?;
    Ok((right, ended(pass)))
}

#[test]
fn one_of_two_owners_installs_its_list_and_both_know_it(rt: HostRuntime) -> Result<(), MakeError> {
    let alloc = rt.alloc();
    let text = text_of(alloc, ("aé€😀", 60, ""))?;
    let literals = TextList::new(alloc);
    let (heap, whole) = opened(alloc, &layout(3, 80, 10), &literals).expect(&rt, "a heap");
    let (right, whole) = raced(&rt, alloc, heap.pass(whole), text.as_str())?;
    let whole = whole.expect(&rt, "something is still out");
    assert_eq!(&rt; right, 500);
    assert_eq!(&rt; closed(heap, whole), (3, 3), "slots and idle slots");
    Ok(())
}
