//! Two owners of one slot, in threads: one edits its value while the other reads its own, and both edit.
ghost use Rattle.std.specs.Prelude.{◌≡◌, IfOk, IfSome};
ghost use Rattle.str_value.specs.Meaning.{OfHeap};

use crate::readers::read;
use crate::scarce::appended;
use std::alloc::Global;
use std::test::Fail;
use std::thread::{Threads, join_mut};
use str_value::{MakeError, Str, StrPass};
use text_spec::TextList;
use value_heaps::{StrWhole, closed, ended, layout, opened};
use word_units::Text;

/// What two owners of one slot do with their values at once: the first appends, and the second does.
#[derive(Clone, Copy, Debug, PartialEq, Eq)]
enum Contest {
    EditAndRead,
    EditAndEdit,
}

/// An owner with a pass of its own, how long it waits, what it appends, if anything, and whether all went right.
#[derive(Drop)]
struct Owner<'h> {
    alloc: Global,
    pass: StrPass<'h>,
    value: Str<'h>,
    pause: u32,
    with: Option<u8>,
    right: bool,
}

const OLD: &str = "aé€😀aé€😀aé€😀";

fn has_text(alloc: Global, value: &mut Str, text: &str) -> bool
    ensures { value.new ≡ value.old }
{
    match read(alloc, value) {
        Ok(read) => read.as_str() == text,
        Err(_) => false,
    }
}

/// It reads its value twenty times, which has the old text each time.
fn read_often<'h>(owner: &mut Owner<'h>)
    ensures pass { owner.new.pass ≡ owner.old.pass }
    ensures value { owner.new.value ≡ owner.old.value }
{
    owner.right = true;
    for _ in 0..20 {
        owner.right = has_text(owner.alloc, &mut owner.value, OLD) && owner.right;
    }
}

/// It asks for a while whether breadcrumbs are known, and edits its value, or reads it.
fn work_after<'h>(owner: &mut Owner<'h>)
    requires heap { OfHeap owner.old.pass owner.old.value.place }
    ensures pass { owner.new.pass.heap ≡ owner.old.pass.heap }
    ensures heap { OfHeap owner.new.pass owner.new.value.place }
{
    for _ in 0..owner.pause {
        owner.right = owner.value.crumbs_known();
    }
    match owner.with {
        Some(byte) => {
            let alloc = owner.alloc;
            owner.right = appended(alloc, &mut owner.value, &mut owner.pass, &[byte]).is_ok();
        }
        None => read_often(owner),
    }
}

/// An owner of the value, with a slot where one is free, and one credit.
fn owner_of<'h>(
    alloc: Global,
    pass: &mut StrPass<'h>,
    value: Str<'h>,
    with: Option<u8>,
) -> Option<Owner<'h>>
    requires heap { OfHeap pass.old value.place }
    ensures pass { pass.new.heap ≡ pass.old.heap }
    ensures owner { IfSome result (λ o. (o.pass.heap ≡ pass.old.heap) × OfHeap o.pass o.value.place) }
{
    let slots = if pass.free_slots() > 0 { 1 } else { 0 };
    if pass.credits() < 2 {
        return None;
    }
    match pass.split(alloc, slots, 1) {
        Ok(share) => Some(Owner {
            alloc,
            pass: share,
            value,
            pause: 0,
            with,
            right: false,
        }),
        Err(_) => None,
    }
}

/// Both work at once, the first after a pause.
fn at_once<'h, R: Threads>(
    rt: &R,
    one: Owner<'h>,
    other: Owner<'h>,
    pause: u32,
) -> (Owner<'h>, Owner<'h>)
    requires one { OfHeap one.pass one.value.place }
    requires other { OfHeap other.pass other.value.place }
    ensures passes { (result.0.pass.heap ≡ one.entry.pass.heap) × (result.1.pass.heap ≡ other.entry.pass.heap) }
    ensures one { OfHeap result.0.pass result.0.value.place }
    ensures other { OfHeap result.1.pass result.1.value.place }
{
    let mut one = one;
    let mut other = other;
    one.pause = pause;
    join_mut(
        rt,
        &mut || work_after(&mut one),
        &mut || { work_after(&mut other) },
    );
    (one, other)
}

/// Whether all went right for an owner, whose value has this text now. All that it has comes to the pass.
fn judged<'h>(pass: &mut StrPass<'h>, owner: Owner<'h>, wanted: &str) -> bool
    requires pass { owner.pass.heap ≡ pass.old.heap }
    requires heap { OfHeap owner.pass owner.value.place }
    ensures { pass.new.heap ≡ pass.old.heap }
{
    let Owner {
        alloc,
        pass: share,
        mut value,
        pause: _,
        with: _,
        right,
    } = owner;
    pass.join(share);
    let same = has_text(alloc, &mut value, wanted);
    value.release(pass);
    right && same
}

/// A new slot with two owners, the first of whom edits.
fn race_once<'h, R: Threads>(
    rt: &R,
    alloc: Global,
    pass: &mut StrPass<'h>,
    contest: Contest,
    pause: u32,
) -> Result<Option<bool>, MakeError>
    ensures { pass.new.heap ≡ pass.old.heap }
{
    let (with, wanted) = match contest {
        Contest::EditAndRead => (None, OLD),
        Contest::EditAndEdit => (Some(b'?'), "aé€😀aé€😀aé€😀?"),
    };
    let mut value = Str::from_utf8(alloc, pass, OLD.as_bytes())?;
    let copy = value.copy(alloc, pass)?;
    let Some(one) = owner_of(alloc, pass, value, Some(b'!')) else {
        return Ok(None);
    };
    let Some(other) = owner_of(alloc, pass, copy, with) else {
        return Ok(None);
    };
    let (one, other) = at_once(rt, one, other, pause);
    let first = judged(pass, one, "aé€😀aé€😀aé€😀!");
    let second = judged(pass, other, wanted);
    Ok(Some(first && second))
}

/// How many of a thousand races went right. The first owner waits longer and longer over fifty of them, so that its edit comes before what
/// the other does in some, behind it in others, and between.
fn races<'h, R: Threads>(
    rt: &R,
    alloc: Global,
    pass: &mut StrPass<'h>,
    contest: Contest,
) -> Result<u32, MakeError>
    ensures { pass.new.heap ≡ pass.old.heap }
{
    let mut right: u32 = 0;
    for round in 0..1000u32 {
        let pause = round % 50 * 400;
        if race_once(rt, alloc, pass, contest, pause)? == Some(true) {
            right = right.wrapping_add(1);
        }
    }
    Ok(right)
}

fn raced<'h, R: Threads>(
    rt: &R,
    alloc: Global,
    mut pass: StrPass<'h>,
    contest: Contest,
) -> Result<(u32, Option<StrWhole>), MakeError>
    ensures { IfOk result (λ t. IfSome t.1 (λ w. w.heap ≡ pass.entry.heap)) }
{
    let right = races(rt, alloc, &mut pass, contest)?;
    Ok((right, ended(pass)))
}

/// In a heap of one slot the longer text has no other, of two slots one owner has it, and of four each.
#[test]
fn an_edit_beside_another_owner_is_seen_in_its_own_value_alone(
    rt: HostRuntime,
) -> Result<(), Fail> {
    let alloc = rt.alloc();
    let literals = TextList::new(alloc);
    for contest in [Contest::EditAndRead, Contest::EditAndEdit] {
        for slots in [1, 2, 4] {
            let (heap, whole) = opened(alloc, &layout(slots, 8, 10), &literals).expect(
                &rt, "a heap",
            );
            let (right, whole) = raced(&rt, alloc, heap.pass(whole), contest)?;
            let whole = whole.expect(&rt, "something is still out");
            assert_eq!(&rt; right, 1000, "{contest:?}, slots {slots}");
            assert_eq!(&rt; closed(heap, whole), (slots, slots), "{contest:?}");
        }
    }
    Ok(())
}
