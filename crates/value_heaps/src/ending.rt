//! How a heap of a test ends.
ghost use Rattle.std.specs.Prelude.{◌≡◌, ◌<◌, ◌↔◌, IsNone, IfSome};
ghost use Rattle.crumbs.specs.Fitting.{IsCrumbList};
ghost use Rattle.slot_table.specs.Owners.{IsEntire};

use crate::opening::{StrHeap, StrWhole};
use str_value::StrPass;

/// Ends a pass to which every slot and credit has come back; `None` exactly where something is still out.
///
/// The history is legal then, every slot is idle and free, and each event of the history is the pass's.
pub fn ended(pass: StrPass<'_>) -> Option<StrWhole>
    ensures cause { IsNone result ↔ (pass.entry.credits < pass.entry.heap.layout.credits) }
    ensures whole { IfSome result (λ w. w ≡ pass.entry) }
    ensures entire { IfSome result (λ w. IsEntire (IsCrumbList 64) w) }
{
    match pass.end() {
        Ok(whole) => Some(whole),
        Err(_missing) => None,
    }
}

/// Closes the heap: how many slots it had, and how many of them are idle at the end of its history.
pub fn closed(heap: StrHeap, whole: StrWhole) -> (u32, u32)
    requires { whole.heap ≡ heap }
    ensures { result ≡ (heap.layout.slots, heap.layout.slots) }
{
    let closed = heap.close(whole);
    (closed.slots(), closed.idle())
}
