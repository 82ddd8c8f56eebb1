//! How a heap is opened: what it is refused for, and the words that its table begins with.
ghost use Rattle.std.specs.Prelude.{◌≡◌, ℕ, ◌↔◌, length, IfOk, IsTrue, Err};
ghost use Rattle.literal_rows.specs.Rows.{AllFit, IsFirstTooLong};
ghost use Rattle.slot_table.specs.Opening as limits;
ghost use Rattle.slot_table.specs.Opening.{LayoutOk, IsAccepted};
ghost use Rattle.slot_table.specs.Numbers.{down_from};
ghost use Rattle.slot_table.specs.Owners.{opened_pass};
ghost use Rattle.slot_table.specs.declared.opening.OpenError.TheVariants.{BadLayout, LiteralTooLong};

use crate::addresses::table_size;
use crate::heap::{Heap, Key, Whole};
use crate::limits::{
    LEAST_CAPACITY_WORDS, LEAST_CREDITS, MOST_CAPACITY_WORDS, MOST_CREDITS, MOST_LITERALS,
    MOST_SLOTS, MOST_WORDS,
};
use crate::numbers::all_slots;
use atomic_table::Table;
use literal_rows::{Rows, first_too_long, rows_after};
use slot_model::{Attach, Layout};
use std::alloc::{AllocError, Global};
use std::marker::PhantomData;
use std::snapshot::Snapshot;
use text_spec::TextList;

/// Why a heap wasn't opened.
#[derive(Debug, Drop, PartialEq, Eq)]
pub enum OpenError {
    /// The layout is outside the limits, or there are more than 256 literals.
    BadLayout,
    /// Literal `number`, counted from 0, is the first of more than `8 * (capacity_words - 1)` bytes.
    LiteralTooLong { number: u32 },
    /// Memory was wanting.
    OutOfMemory,
}

// Whether a layout keeps the limits, with so many literals.
fn is_accepted(layout: &Layout, literals: usize) -> bool
    ensures { IsTrue result ↔ IsAccepted layout.now literals }
{
    LEAST_CAPACITY_WORDS <= layout.capacity_words
        && layout.capacity_words <= MOST_CAPACITY_WORDS
        && layout.slots <= MOST_SLOTS
        && LEAST_CREDITS <= layout.credits
        && layout.credits <= MOST_CREDITS
        && layout.slots as u64 * layout.capacity_words as u64 <= MOST_WORDS
        && literals <= MOST_LITERALS
}

// The most bytes of a literal.
fn most_bytes(layout: &Layout) -> usize
    requires { LayoutOk layout.now }
    ensures { result ≡ limits.most_bytes layout.now }
{
    8 * (layout.capacity_words as usize - 1)
}

fn made<A: Attach>(
    alloc: Global,
    layout: &Layout,
    literals: &TextList,
) -> Result<(Heap<A>, Whole<A>), AllocError>
    requires { IsAccepted layout.now (length literals.now) × AllFit (limits.most_bytes layout.now) literals.now }
    ensures { IfOk result (λ t. (t.0.layout ≡ layout.now) × (t.0.literals ≡ literals.now) × (t.1 ≡ opened_pass t.0 (down_from layout.now.slots))) }
{
    let free = all_slots(alloc, layout.slots)?;
    let Rows { words, starts } = rows_after(alloc, table_size(layout), literals)?;
    let key = Key {
        layout: *layout,
        literals: Snapshot::of(literals),
    };
    let (table, seat) = Table::of_words(alloc, words.as_slice(), &key)?;
    let whole = Whole {
        seat,
        free,
        attach: PhantomData,
    };
    let heap = Heap {
        table,
        layout: *layout,
        literals: literals.len() as u32,
        starts,
    };
    Ok((heap, whole))
}

impl<A: Attach> Heap<A> {
    /// Opens a heap with these literals, and the right to the whole of it.
    ///
    /// A layout has `capacity_words` from 2 to 1,048,576, `slots` to 65,536, `credits` from 1 to 1,048,576, and `slots * capacity_words` to
    /// 16,777,216. Refused by the first cause that holds: a layout outside these limits, or more than 256 literals; a literal of more than
    /// `8 * (capacity_words - 1)` bytes; want of memory. Takes the memory of all slots and literals.
    pub fn open(
        alloc: Global,
        layout: &Layout,
        literals: &TextList,
    ) -> Result<(Heap<A>, Whole<A>), OpenError>
        ensures bad_layout { (result ≡ Err BadLayout) ↔ (IsAccepted layout.now (length literals.now) → ⊥) }
        ensures too_long { (n : ℕ) → ((result ≡ Err (LiteralTooLong n)) ↔ (IsAccepted layout.now (length literals.now) × IsFirstTooLong (limits.most_bytes layout.now) literals.now n)) }
        ensures layout { IfOk result (λ t. t.0.layout ≡ layout.now) }
        ensures literals { IfOk result (λ t. t.0.literals ≡ literals.now) }
        ensures whole { IfOk result (λ t. t.1 ≡ opened_pass t.0 (down_from layout.now.slots)) }
    {
        if !is_accepted(layout, literals.len()) {
            return Err(OpenError::BadLayout);
        }
        if let Some(number) = first_too_long(literals, most_bytes(layout)) {
            return Err(OpenError::LiteralTooLong { number });
        }
        match made(alloc, layout, literals) {
            Ok(made) => Ok(made),
            Err(_) => Err(OpenError::OutOfMemory),
        }
    }
}
