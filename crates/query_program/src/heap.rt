//! The heap that the values of a run stand in: opened, and its pass ended.
ghost use Rattle.std.specs.Prelude.{◌≡◌, IfSome};
ghost use Rattle.slot_table.specs.Numbers.{down_from};
ghost use Rattle.slot_table.specs.Owners.{opened_pass};
ghost use Rattle.query_session.specs.Literals.{default_literals};
ghost use Rattle.query_program.specs.Default.{default_layout};

use crate::limits::{CAPACITY_WORDS, CREDITS, SLOTS};
use query_session::default_literals;
use slot_model::Layout;
use slot_table::{Heap, Whole};
use std::alloc::Global;
use str_value::{StrCrumbs, StrPass};

/// The heap of a run, and the right to the whole of it; `None` where memory is wanting.
pub(crate) fn opened(alloc: Global) -> Option<(Heap<StrCrumbs>, Whole<StrCrumbs>)>
    ensures layout { IfSome result (λ t. t.0.layout ≡ default_layout) }
    ensures literals { IfSome result (λ t. t.0.literals ≡ default_literals) }
    ensures whole { IfSome result (λ t. t.1 ≡ opened_pass t.0 (down_from t.0.layout.slots)) }
{
    let layout = Layout {
        capacity_words: CAPACITY_WORDS,
        slots: SLOTS,
        credits: CREDITS,
    };
    let Ok(literals) = default_literals(alloc) else {
        return None;
    };
    match Heap::open(alloc, &layout, &literals) {
        Ok(opened) => Some(opened),
        Err(_) => None,
    }
}

/// Ends a pass that has every credit of its heap.
pub(crate) fn ended(pass: StrPass<'_>) -> Whole<StrCrumbs>
    requires { pass.credits ≡ pass.heap.layout.credits }
    ensures { result ≡ pass.entry }
{
    match pass.end() {
        Ok(whole) => whole,
        Err(_) => unreachable!(),
    }
}
