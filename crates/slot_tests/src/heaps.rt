//! Heaps for tests, and what all of them do.
ghost use Rattle.std.specs.Prelude.{◌≡◌, ◌<◌, [], ◌∷◌, length, IfSome};
ghost use Rattle.slot_table.specs.Numbers.{down_from};
ghost use Rattle.slot_table.specs.Owners.{opened_pass};

use slot_model::{Attach, Layout};
use slot_table::{Heap, Installed, Pass, Ref, Whole};
use std::alloc::Global;
use std::process::Abort;
use text_spec::TextList;

/// A side has a word at least.
pub(crate) struct NotEmpty;

impl Attach for NotEmpty {
    ghost fits = { λ words side. 0 < length side };

    fn check_fit(_words: &[u64], side: &[u64]) -> bool {
        side.len() > 0
    }
}

pub(crate) fn layout(capacity_words: u32, slots: u32, credits: u32) -> Layout {
    Layout {
        capacity_words,
        slots,
        credits,
    }
}

// A heap that has no literals, and the right to the whole of it.
pub(crate) fn opened<R: Abort>(
    rt: &R,
    alloc: Global,
    layout: &Layout,
) -> (Heap<NotEmpty>, Whole<NotEmpty>)
    ensures layout { result.0.layout ≡ layout.now }
    ensures whole { result.1 ≡ opened_pass result.0 (down_from layout.now.slots) }
{
    match Heap::open(alloc, layout, &TextList::new(alloc)) {
        Ok(opened) => opened,
        Err(_) => panic!(rt; "no heap"),
    }
}

// How many slots a heap had, and how many of them are idle as it is closed.
pub(crate) fn closed(heap: Heap<NotEmpty>, whole: Whole<NotEmpty>) -> (u32, u32)
    requires { whole.heap ≡ heap }
    ensures { result ≡ (heap.layout.slots, heap.layout.slots) }
{
    let closed = heap.close(whole);
    (closed.slots(), closed.idle())
}

// One slot with one word, published.
pub(crate) fn stored<'h>(pass: &mut Pass<'h, NotEmpty>, word: u64) -> Option<Ref<'h, NotEmpty>>
    ensures pass { pass.new.heap ≡ pass.old.heap }
    ensures reference { IfSome result (λ r. (r.heap ≡ pass.old.heap) × (r.known ≡ word ∷ [])) }
{
    if pass.capacity_words() == 0 {
        return None;
    }
    let mut draft = pass.draft()?;
    draft.write(word);
    Some(draft.publish())
}

// A pass with so many slots, and with one credit beside its stake.
pub(crate) fn share_of<'h>(
    alloc: Global,
    pass: &mut Pass<'h, NotEmpty>,
    slots: u32,
) -> Option<Pass<'h, NotEmpty>>
    ensures pass { pass.new.heap ≡ pass.old.heap }
    ensures share { IfSome result (λ p. p.heap ≡ pass.old.heap) }
{
    if pass.free_slots() < slots || pass.credits() < 2 {
        return None;
    }
    match pass.split(alloc, slots, 1) {
        Ok(share) => Some(share),
        Err(_) => None,
    }
}

pub(crate) fn ended(pass: Pass<'_, NotEmpty>) -> Option<Whole<NotEmpty>>
    ensures { IfSome result (λ w. w ≡ pass.entry) }
{
    match pass.end() {
        Ok(whole) => Some(whole),
        Err(_missing) => None,
    }
}

// One word is offered as the side, and the side's first word read. Whether the offer won, and the word.
pub(crate) fn offered<'h>(
    held: &mut Ref<'h, NotEmpty>,
    pass: &mut Pass<'h, NotEmpty>,
    word: u64,
) -> Option<(bool, u64)>
    requires { held.old.heap ≡ pass.old.heap }
    ensures heap { (held.new.heap ≡ pass.new.heap) × (pass.new.heap ≡ pass.old.heap) }
    ensures known { held.new.known ≡ held.old.known }
{
    if pass.capacity_words() == 0 {
        return None;
    }
    let mut draft = pass.draft()?;
    draft.write(word);
    let installed = held.install(draft, pass);
    Some((installed == Installed::Won, held.side(0)))
}
