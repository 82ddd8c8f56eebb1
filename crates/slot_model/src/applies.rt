ghost use Rattle.std.specs.Prelude.{◌≡◌, ◌↔◌, ◌<◌, ◌≤◌, length, IsTrue, ◌==◌};
ghost use Rattle.slot_model.specs.History.{at, idle, count_of, words_of, side_in, MayDetach, Applies};
ghost use Rattle.slot_model.specs.Checking.{heap_in};

use crate::attach::Attach;
use crate::event::Event;
use crate::layout::Layout;
use crate::state::SlotState;

/// Whether `event` applies to the heap `slots`.
pub fn applies<A: Attach>(slots: &[SlotState], layout: &Layout, event: &Event) -> bool
    requires { length slots.now ≡ layout.now.slots }
    ensures { IsTrue result ↔ Applies A.fits layout.now (heap_in slots.now) event.now }
{
    match event {
        Event::Publish { slot, words } => may_publish(slots, layout, *slot, words.as_slice()),
        Event::Retain { slot } => is_held_at(slots, *slot),
        Event::Release { slot, last } => tells_sole(slots, *slot, *last),
        Event::Sole { slot, answer } => tells_sole(slots, *slot, *answer),
        Event::Write { slot, k, .. } => may_write(slots, layout, *slot, *k),
        Event::Look { slot, found } => tells_side(slots, *slot, *found),
        Event::Install {
            slot,
            side,
            words,
            found,
        } => may_install::<A>(slots, *slot, *side, words.as_slice(), *found),
        Event::Detach { slot, found } => may_detach(slots, *slot, *found),
    }
}

/// The slot is idle, and the words are at least one and at most a slot's capacity.
fn may_publish(slots: &[SlotState], layout: &Layout, slot: u32, words: &[u64]) -> bool
    requires { length slots.now ≡ layout.now.slots }
    ensures { IsTrue result ↔ (slot < layout.now.slots) × (at (heap_in slots.now) slot ≡ idle)
        × (0 < length words.now) × (length words.now ≤ layout.now.capacity_words) }
{
    is_idle_at(slots, slot) && !words.is_empty() && words.len() <= layout.capacity_words as usize
}

/// The slot is held by one reference and has no side, and `k` is at most the number of its words and below a slot's
/// capacity.
fn may_write(slots: &[SlotState], layout: &Layout, slot: u32, k: u32) -> bool
    requires { length slots.now ≡ layout.now.slots }
    ensures { let c = at (heap_in slots.now) slot in
        IsTrue result ↔ (slot < layout.now.slots) × (count_of c ≡ 1) × (side_in c ≡ None)
        × (k ≤ length (words_of c)) × (k < layout.now.capacity_words) }
{
    match slots.get(slot as usize) {
        Some(state) => {
            let sole_and_bare = state.count() == 1 && state.side().is_none();
            sole_and_bare && k as usize <= state.words().len() && k < layout.capacity_words
        }
        None => false,
    }
}

/// The slot is closing, or held by one reference, and `found` is its side.
fn may_detach(slots: &[SlotState], slot: u32, found: Option<u32>) -> bool
    ensures { let c = at (heap_in slots.now) slot in
        IsTrue result ↔ (slot < length slots.now) × MayDetach c × (found ≡ side_in c) }
{
    match slots.get(slot as usize) {
        Some(state) => (state.is_closing() || state.count() == 1) && found == state.side(),
        None => false,
    }
}

/// The slot is held, `side` is idle, the words fit the slot's, and `found` is its side.
fn may_install<A: Attach>(
    slots: &[SlotState],
    slot: u32,
    side: u32,
    words: &[u64],
    found: Option<u32>,
) -> bool
    ensures { let c = at (heap_in slots.now) slot in
        IsTrue result ↔ (slot < length slots.now) × (side < length slots.now) × (0 < count_of c)
        × (at (heap_in slots.now) side ≡ idle) × A.fits (words_of c) words.now × (found ≡ side_in c) }
{
    tells_side(slots, slot, found) && is_idle_at(slots, side) && fits_at::<A>(slots, slot, words)
}

/// The words fit those of the slot.
fn fits_at<A: Attach>(slots: &[SlotState], slot: u32, words: &[u64]) -> bool
    requires { slot < length slots.now }
    ensures { IsTrue result ↔ A.fits (words_of (at (heap_in slots.now) slot)) words.now }
{
    A::check_fit(slots[slot as usize].words(), words)
}

/// The slot is held, and `told` says whether it has one reference alone.
fn tells_sole(slots: &[SlotState], slot: u32, told: bool) -> bool
    ensures { let c = at (heap_in slots.now) slot in
        IsTrue result ↔ (slot < length slots.now) × (0 < count_of c) × (told ≡ (count_of c == 1)) }
{
    match slots.get(slot as usize) {
        Some(state) => state.count() > 0 && told == (state.count() == 1),
        None => false,
    }
}

/// The slot is held, and `found` is its side.
fn tells_side(slots: &[SlotState], slot: u32, found: Option<u32>) -> bool
    ensures { let c = at (heap_in slots.now) slot in
        IsTrue result ↔ (slot < length slots.now) × (0 < count_of c) × (found ≡ side_in c) }
{
    match slots.get(slot as usize) {
        Some(state) => state.count() > 0 && found == state.side(),
        None => false,
    }
}

/// The slot is there, and idle.
fn is_idle_at(slots: &[SlotState], slot: u32) -> bool
    ensures { IsTrue result ↔ (slot < length slots.now) × (at (heap_in slots.now) slot ≡ idle) }
{
    match slots.get(slot as usize) {
        Some(state) => state.is_idle(),
        None => false,
    }
}

/// The slot is held.
fn is_held_at(slots: &[SlotState], slot: u32) -> bool
    ensures { IsTrue result ↔ (slot < length slots.now) × (0 < count_of (at (heap_in slots.now) slot)) }
{
    match slots.get(slot as usize) {
        Some(state) => state.count() > 0,
        None => false,
    }
}
