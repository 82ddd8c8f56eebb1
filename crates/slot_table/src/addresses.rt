//! Where a slot's words lie in the table: its reference count, the word that shows its side, its data words.
ghost use Rattle.std.specs.Prelude.{◌≡◌, ◌<◌, ◌≤◌};
ghost use Rattle.slot_table.specs.Addresses as addresses;
ghost use Rattle.slot_table.specs.Opening.{LayoutOk};

use crate::limits::MOST_SLOTS;
use slot_model::Layout;

pub(crate) fn count_place(layout: &Layout, slot: u32) -> usize
    requires { LayoutOk layout.now × (slot < layout.now.slots) }
    ensures { (result ≡ addresses.count_place layout.now slot) × (result < addresses.table_size layout.now) }
{
    slot as usize * (layout.capacity_words as usize + 2) + 1
}

pub(crate) fn side_place(layout: &Layout, slot: u32) -> usize
    requires { LayoutOk layout.now × (slot < layout.now.slots) }
    ensures { (result ≡ addresses.side_place layout.now slot) × (result < addresses.table_size layout.now) }
{
    slot as usize * (layout.capacity_words as usize + 2) + 2
}

pub(crate) fn data_place(layout: &Layout, slot: u32, k: u32) -> usize
    requires { LayoutOk layout.now × (slot < layout.now.slots) × (k < layout.now.capacity_words) }
    ensures { (result ≡ addresses.data_place layout.now slot k) × (result < addresses.table_size layout.now) }
{
    slot as usize * (layout.capacity_words as usize + 2) + 3 + k as usize
}

/// The number of words before the rows of the literals.
pub(crate) fn table_size(layout: &Layout) -> usize
    requires { LayoutOk layout.now }
    ensures { result ≡ addresses.table_size layout.now }
{
    layout.slots as usize * (layout.capacity_words as usize + 2) + 1
}

/// The side that a slot's word shows: none where it is 0, and else the number below it.
pub(crate) fn found_in(word: u64) -> Option<u32>
    requires { word ≤ MOST_SLOTS }
    ensures { result ≡ addresses.found_in word }
{
    if word == 0 {
        return None;
    }
    Some((word - 1) as u32)
}
