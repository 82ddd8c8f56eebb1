//! What no clause says: that the calls succeed where the pass shows slots and credits, with answers worked out by hand.
ghost use Rattle.std.specs.Prelude.{◌≡◌, ℕ, ◌<◌, [], ◌∷◌, length, Option, true, IfSome};
ghost use Rattle.slot_model.specs.declared.event.Event.TheVariants.{Publish};
ghost use Rattle.slot_accounts.specs.Account.{giving_up};

use crate::{ask_sole, attach, detach, draw, let_go, look, publish, share};
use slot_model::{Attach, Layout};
use slot_table::{Heap, Installed, Pass, Whole};
use std::test::Fail;
use text_spec::TextList;

// A side has a word at least.
struct NotEmpty;

impl Attach for NotEmpty {
    ghost fits = { λ words side. 0 < length side };

    fn check_fit(_words: &[u64], side: &[u64]) -> bool {
        side.len() > 0
    }
}

// What the calls answered: whether the reference was alone, at first, beside a second one, and again; which side was found at
// first, after one was installed, and as it was taken away; how often a second reference and a draft were refused.
#[derive(Debug, PartialEq, Drop)]
struct Answers {
    alone: (bool, bool, bool),
    sides: (Option<u32>, Option<u32>, Option<u32>),
    refused: (bool, bool),
    won: bool,
    last: (bool, bool),
}

// Each call once and more, on a heap of two slots and three credits. The answers, and the whole pass at the end.
fn each_call(mut pass: Pass<'_, NotEmpty>) -> Option<(Answers, Whole<NotEmpty>)>
    ensures { IfSome result (λ t. t.1.heap ≡ pass.entry.heap) }
{
    if pass.capacity_words() == 0 {
        return None;
    }
    let mut draft = draw(&mut pass)?;
    draft.write(7);
    let reference = publish(&mut pass, draft);
    let (reference, alone) = ask_sole(&mut pass, reference);
    let (reference, no_side) = look(&mut pass, reference);
    let (reference, second) = share(&mut pass, reference);
    let second = second?;
    let (reference, third) = share(&mut pass, reference);
    let (reference, beside) = ask_sole(&mut pass, reference);
    let first_last = let_go(&mut pass, second);
    let mut draft = draw(&mut pass)?;
    draft.write(9);
    let (reference, how) = attach(&mut pass, reference, draft);
    let no_draft = draw(&mut pass).is_none();
    let (reference, side) = look(&mut pass, reference);
    let (mut reference, again) = ask_sole(&mut pass, reference);
    if !again {
        return None;
    }
    let taken = detach(&mut pass, &mut reference);
    let last = let_go(&mut pass, reference);
    let Ok(whole) = pass.end() else { return None };
    let answers = Answers {
        alone: (alone, beside, again),
        sides: (no_side, side, taken),
        refused: (third.is_none(), no_draft),
        won: how == Installed::Won,
        last: (first_last, last),
    };
    Some((answers, whole))
}

// One slot is published and given up. The history is what the two calls did.
fn one_slot(mut pass: Pass<'_, NotEmpty>) -> Option<Whole<NotEmpty>>
    requires fresh { (pass.front ≡ []) × (pass.places ≡ []) }
    ensures heap { IfSome result (λ w. w.heap ≡ pass.entry.heap) }
    ensures history { IfSome result (λ w. (x : ℕ) × (found : Option ℕ) × (w.front ≡ Publish x (7 ∷ []) ∷ giving_up x true found)) }
{
    if pass.capacity_words() == 0 {
        return None;
    }
    let mut draft = draw(&mut pass)?;
    draft.write(7);
    let reference = publish(&mut pass, draft);
    if !let_go(&mut pass, reference) {
        return None;
    }
    match pass.end() {
        Ok(whole) => Some(whole),
        Err(_missing) => None,
    }
}

#[test]
fn each_call_answers_as_the_heap_is(rt: HostRuntime) -> Result<(), Fail> {
    let alloc = rt.alloc();
    let layout = Layout {
        capacity_words: 2,
        slots: 2,
        credits: 3,
    };
    let Ok((heap, whole)) = Heap::open(alloc, &layout, &TextList::new(alloc)) else {
        panic!(rt; "no heap")
    };
    let Some((answers, whole)) = each_call(heap.pass(whole)) else {
        panic!(rt; "a call was refused")
    };
    let wanted = Answers {
        alone: (true, false, true),
        sides: (None, Some(1), Some(1)),
        refused: (true, true),
        won: true,
        last: (false, true),
    };
    assert_eq!(rt; answers, wanted);
    let closed = heap.close(whole);
    assert_eq!(rt;
        (closed.slots(), closed.idle()),
        (2, 2),
        "slots and idle slots"
    );
    let Ok((heap, whole)) = Heap::open(alloc, &layout, &TextList::new(alloc)) else {
        panic!(rt; "no heap")
    };
    assert!(rt; one_slot(heap.pass(whole)).is_some(), "a call was refused");
    Ok(())
}
