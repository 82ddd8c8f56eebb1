ghost use Rattle.std.specs.Prelude.{ℕ, ◌≡◌, ◌+◌, ◌^◌, ◌<◌, length, set, OnOk};
ghost use Rattle.slot_model.specs.History.{at, count_of, held, detached, cleared, installed, next, Applies};
ghost use Rattle.slot_model.specs.Checking.{heap_in};

use crate::attach::Attach;
use crate::event::Event;
use crate::layout::Layout;
use crate::state::SlotState;
use std::alloc::{AllocError, Global};
use std::borrow::CowSlice;

/// Makes `slots` the heap after `event`, which applies.
pub fn advance<'e, A: Attach>(
    alloc: Global,
    slots: &mut [SlotState<'e>],
    layout: &Layout,
    event: &'e Event,
) -> Result<(), AllocError>
    requires sized { length slots.old ≡ layout.now.slots }
    requires counts { (x : ℕ) → count_of (at (heap_in slots.old) x) + 1 < 2 ^ 64 }
    requires applying { Applies A.fits layout.now (heap_in slots.old) event.now }
    ensures { OnOk result (heap_in slots.new ≡ next (heap_in slots.old) event.now) }
{
    match event {
        Event::Publish { slot, words } => publish_at(slots, *slot, words.as_slice()),
        Event::Retain { slot } => slots[*slot as usize].retain(),
        Event::Release { slot, .. } => slots[*slot as usize].release(),
        Event::Sole { .. } => {}
        Event::Write { slot, k, word } => slots[*slot as usize].write(alloc, *k as usize, *word)?,
        Event::Look { .. } => {}
        Event::Install {
            slot,
            side,
            words,
            found,
        } => install_at(slots, *slot, *side, words.as_slice(), *found),
        Event::Detach { slot, found } => detach_at(slots, *slot, *found),
    }
    Ok(())
}

/// The slot is held by one reference, with these words and no side.
fn publish_at<'e>(slots: &mut [SlotState<'e>], slot: u32, words: &'e [u64])
    requires { slot < length slots.old }
    ensures { heap_in slots.new ≡ set (heap_in slots.old) slot (held 1 words.now None) }
{
    slots[slot as usize] = SlotState::Held {
        count: 1,
        words: CowSlice::Borrowed(words),
        side: None,
    };
}

/// Where none was found, `side` is the side of the slot from now on, with these words.
fn install_at<'e>(
    slots: &mut [SlotState<'e>],
    slot: u32,
    side: u32,
    words: &'e [u64],
    found: Option<u32>,
)
    requires slot_within { slot < length slots.old }
    requires side_within { side < length slots.old }
    ensures { heap_in slots.new ≡ installed (heap_in slots.old) slot side words.now found }
{
    match found {
        None => {
            slots[slot as usize].set_side(Some(side));
            slots[side as usize] = SlotState::SideOf { slot, words };
        }
        Some(_) => {}
    }
}

/// The slot has no side from now on, and is idle if it was closing; the side that was found is idle.
fn detach_at(slots: &mut [SlotState], slot: u32, found: Option<u32>)
    requires { slot < length slots.old }
    ensures { heap_in slots.new ≡ cleared found (set (heap_in slots.old) slot (detached (at (heap_in slots.old) slot))) }
{
    slots[slot as usize].detach();
    clear(slots, found);
}

/// The slot that was found, if any, is idle.
fn clear(slots: &mut [SlotState], found: Option<u32>)
    ensures { heap_in slots.new ≡ cleared found (heap_in slots.old) }
{
    if let Some(side) = found {
        if (side as usize) < slots.len() {
            slots[side as usize] = SlotState::Idle;
        }
    }
}
