//! How a heap for a test is opened.
ghost use Rattle.std.specs.Prelude.{◌≡◌, [], IfSome};
ghost use Rattle.slot_table.specs.Numbers.{down_from};
ghost use Rattle.slot_table.specs.Owners.{opened_pass};

use slot_model::Layout;
use slot_table::{Heap, Whole};
use std::alloc::Global;
use str_value::StrCrumbs;
use text_spec::TextList;

/// A heap of values.
pub type StrHeap = Heap<StrCrumbs>;

/// The right to the whole of a heap of values.
pub type StrWhole = Whole<StrCrumbs>;

/// The layout of so many slots, each with room for so many words, and of so many credits, one of which is the stake of the first pass.
pub fn layout(slots: u32, capacity_words: u32, credits: u32) -> Layout
    ensures slots { result.slots ≡ slots }
    ensures capacity_words { result.capacity_words ≡ capacity_words }
    ensures credits { result.credits ≡ credits }
{
    Layout {
        capacity_words,
        slots,
        credits,
    }
}

/// A heap with these literals, and the right to the whole of it; `None` for what `Heap::open` refuses.
pub fn opened(alloc: Global, layout: &Layout, literals: &TextList) -> Option<(StrHeap, StrWhole)>
    ensures layout { IfSome result (λ t. t.0.layout ≡ layout.now) }
    ensures literals { IfSome result (λ t. t.0.literals ≡ literals.now) }
    ensures whole { IfSome result (λ t. t.1 ≡ opened_pass t.0 (down_from layout.now.slots)) }
{
    match Heap::open(alloc, layout, literals) {
        Ok(opened) => Some(opened),
        Err(_) => None,
    }
}

/// A heap without slots and literals, whose pass shows no free slot: each value that it makes is Small or Owned.
pub fn without_slots(alloc: Global) -> Option<(StrHeap, StrWhole)>
    ensures layout { IfSome result (λ t. t.0.layout.slots ≡ 0) }
    ensures literals { IfSome result (λ t. t.0.literals ≡ []) }
    ensures whole { IfSome result (λ t. t.1 ≡ opened_pass t.0 []) }
{
    opened(alloc, &layout(0, 2, 8), &TextList::new(alloc))
}
