//! One owner of a heap: what it takes comes back, and its words and sides are what it wrote.
ghost use Rattle.std.specs.Prelude.{◌≡◌, IfSome};

use crate::heaps::{NotEmpty, closed, ended, layout, offered, opened, stored};
use slot_table::{Missing, Pass, Whole};
use std::alloc::Global;
use std::test::Fail;

// A draft is filled and given back, a pass is split off and joined again, and a reference is met.
fn come_and_go<'h>(alloc: Global, pass: &mut Pass<'h, NotEmpty>) -> Option<bool>
    ensures { pass.new.heap ≡ pass.old.heap }
{
    if pass.capacity_words() == 0 || pass.free_slots() < 2 || pass.credits() < 3 {
        return None;
    }
    let before = (pass.free_slots(), pass.credits());
    let mut draft = pass.draft()?;
    draft.write(1);
    draft.abandon(pass);
    let back = (pass.free_slots(), pass.credits()) == before;
    let Ok(other) = pass.split(alloc, 1, 1) else {
        return None;
    };
    let counts = other.free_slots() == 1 && other.credits() == 1;
    pass.join(other);
    let reference = stored(pass, 5)?;
    let mut reference = pass.meet(reference);
    let marks = reference.known_sole() && reference.bare() && reference.read(0) == 5;
    let last = reference.release(pass);
    Some(back && counts && marks && last)
}

// Two words are published, one is written over, and two are written behind them, up to the slot's end. All four are read.
fn written_over<'h>(pass: &mut Pass<'h, NotEmpty>) -> Option<(u64, u64, u64, u64)>
    ensures pass { pass.new.heap ≡ pass.old.heap }
    ensures words { IfSome result (λ t. t ≡ (11, 20, 30, 40)) }
{
    if pass.capacity_words() != 4 {
        return None;
    }
    let mut draft = pass.draft()?;
    draft.write(10);
    draft.write(20);
    let mut reference = draft.publish();
    reference.write(0, 11);
    reference.write(2, 30);
    reference.write(3, 40);
    let first = reference.read(0);
    let second = reference.read(1);
    let third = reference.read(2);
    let last = reference.read(3);
    reference.release(pass);
    Some((first, second, third, last))
}

// A side is installed, taken away, and another installed. Whether each call answered so.
fn installed_again<'h>(pass: &mut Pass<'h, NotEmpty>) -> Option<bool>
    ensures { pass.new.heap ≡ pass.old.heap }
{
    let mut held = stored(pass, 7)?;
    let none_yet = held.look().is_none();
    let first = offered(&mut held, pass, 11)?;
    let known = held.known_side();
    if !held.sole() {
        return None;
    }
    let taken = held.detach(pass);
    let bare = known.is_some() && taken == known && held.bare() && held.look().is_none();
    let second = offered(&mut held, pass, 22)?;
    let last = held.release(pass);
    Some(none_yet && first == (true, 11) && bare && second == (true, 22) && last)
}

// What one owner saw: whether all came back, the words of a slot, whether a side was replaced.
type Seen = (bool, (u64, u64, u64, u64), bool);

fn one_owner(alloc: Global, mut pass: Pass<'_, NotEmpty>) -> Option<(Seen, Option<Whole<NotEmpty>>)>
    ensures { IfSome result (λ t. IfSome t.1 (λ w. w.heap ≡ pass.entry.heap)) }
{
    let back = come_and_go(alloc, &mut pass)?;
    let words = written_over(&mut pass)?;
    let replaced = installed_again(&mut pass)?;
    Some(((back, words, replaced), ended(pass)))
}

// A reference is dropped: its credit is lost, and the end is refused.
fn dropped(mut pass: Pass<'_, NotEmpty>) -> bool {
    let Some(_reference) = stored(&mut pass, 7) else {
        return false;
    };
    match pass.end() {
        Ok(_whole) => false,
        Err(Missing { pass: _ }) => true,
    }
}

#[test]
fn one_owner_gets_back_what_it_gave(rt: HostRuntime) -> Result<(), Fail> {
    let alloc = rt.alloc();
    let (heap, whole) = opened(&rt, alloc, &layout(4, 3, 5));
    let Some((seen, Some(whole))) = one_owner(alloc, heap.pass(whole)) else {
        panic!(rt; "a call was refused")
    };
    assert_eq!(rt; seen, (true, (11, 20, 30, 40), true));
    assert_eq!(rt; closed(heap, whole), (3, 3), "slots and idle slots");
    let (heap, whole) = opened(&rt, alloc, &layout(2, 1, 2));
    assert!(rt; dropped(heap.pass(whole)), "the end was granted");
    Ok(())
}
