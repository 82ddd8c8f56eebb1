ghost use Rattle.std.specs.Prelude.{ℕ, ◌≡◌, ◌⊎◌, IfOk, replicate};
ghost use Rattle.std.specs.Result.{IsOkUnless};
ghost use Rattle.slot_model.specs.History.{idle, Legal, IsFirstWrong};
ghost use Rattle.slot_model.specs.Checking.{heap_in};

use crate::advance::advance;
use crate::applies::applies;
use crate::attach::Attach;
use crate::event::Event;
use crate::layout::Layout;
use crate::state::SlotState;
use std::alloc::{AllocError, Global};

/// Why `check_history` didn't find a list of events legal.
#[derive(Clone, Copy, Debug, PartialEq, Eq)]
pub enum CheckError {
    /// Event number `at`, counted from 0, is the first that doesn't apply to the heap after those before it.
    Wrong { at: usize },
    /// There was no memory for the heap, or for words that a Write changes.
    OutOfMemory,
}

impl From<AllocError> for CheckError {
    ghost use Rattle.std.specs.Prelude.{◌≡◌};
    ghost use Rattle.slot_model.specs.declared.check.CheckError.TheVariants.{OutOfMemory};

    ghost from_gives = { λ _ e. e ≡ OutOfMemory };

    fn from(_error: AllocError) -> CheckError {
        CheckError::OutOfMemory
    }
}

/// Whether `events` is a legal history of a heap of this layout: each event, in order, can happen on the heap of one
/// thread with the answer that it records, from the heap whose slots are all idle.
///
/// Refused with `Wrong` exactly for the first event that can't; want of memory is the only other refusal. It takes
/// time that grows as the number of slots and of events, with the words of a slot once more where a Write first
/// changes them, and `check_fit`'s for each Install. It takes memory for the slots, and for the words of those that a
/// Write changed; the others are read where they are.
pub fn check_history<A: Attach>(
    alloc: Global,
    events: &[Event],
    layout: &Layout,
) -> Result<(), CheckError>
    // Accepted where each event applies, and there alone.
    ensures legal { IfOk result (λ _. Legal A.fits layout.now events.now) }
    ensures accepted { Legal A.fits layout.now events.now → IsOkUnless result CheckError.OutOfMemory }

    // The event that is told is the first wrong one, and a first wrong one is told.
    ensures wrong { (n : ℕ) → result ≡ Err (CheckError.Wrong n) → IsFirstWrong A.fits layout.now events.now n }
    ensures told { (n : ℕ) → IsFirstWrong A.fits layout.now events.now n →
        (result ≡ Err (CheckError.Wrong n)) ⊎ (result ≡ Err CheckError.OutOfMemory) }
{
    let mut slots = idle_slots(alloc, layout.slots)?;
    for (at, event) in events.iter().enumerate() {
        if !applies::<A>(&slots, layout, event) {
            return Err(CheckError::Wrong { at });
        }
        advance::<A>(alloc, &mut slots, layout, event)?;
    }
    Ok(())
}

/// The heap before any event: each slot is idle.
fn idle_slots<'e>(alloc: Global, slots: u32) -> Result<Vec<SlotState<'e>>, AllocError>
    ensures { IfOk result (λ v. heap_in v.items ≡ replicate slots idle) }
{
    let mut states = Vec::with_capacity(alloc, slots as usize)?;
    for _ in 0..slots {
        states.push_reserved(SlotState::Idle);
    }
    Ok(states)
}
