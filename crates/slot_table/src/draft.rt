//! A free slot that is being filled.
ghost use Rattle.std.specs.Prelude.{◌≡◌, ◌+◌, ◌<◌, ◌++◌, [], ◌∷◌, length, true, None};
ghost use Rattle.slot_model.specs.declared.event.Event.TheVariants.{Publish};
ghost use Rattle.slot_table.specs.Owners.{Adds, Joined, dropped_draft};

use crate::addresses::{count_place, data_place};
use crate::heap::Heap;
use crate::pass::Pass;
use crate::plays::{Drafting, Publishing};
use crate::reference::Ref;
use crate::view::SeatView;
use atomic_table::Seat;
use slot_model::Attach;
use std::marker::Model;

/// A free slot that is being filled, with one credit.
///
/// Contracts see its heap, its front and places, its slot, and the words written into it.
#[derive(Drop)]
pub struct Draft<'h, A: Attach> {
    pub(crate) heap: &'h Heap<A>,
    pub(crate) seat: Seat<u64, SeatView>,
    pub(crate) slot: u32,
    pub(crate) count: u32,
}

impl<'h, A: Attach> Model for Draft<'h, A> {
    ghost use Rattle.slot_table.specs.Owners.{DraftSeen};
    ghost use Rattle.slot_table.specs.Ties.{IsDraft, IsTied, draft_seen};

    ghost Value = { DraftSeen };

    ghost view = { λ p. draft_seen p.heap.now p.seat.me.0 p.slot };

    ghost invariant = { λ p. IsTied p.heap.now p.seat × IsDraft p.seat.me.0 p.slot p.count };
}

impl<'h, A: Attach> Draft<'h, A> {
    /// The number of its slot.
    pub fn slot(&self) -> u32
        ensures { result ≡ self.now.slot }
    {
        self.slot
    }

    /// Appends a word. Fewer than the heap's `capacity_words` were written before. One store.
    pub fn write(&mut self, word: u64)
        requires { length self.old.written < self.old.heap.layout.capacity_words }
        ensures { self.new ≡ record self.old { written = self.old.written ++ word ∷ [] } }
    {
        let heap = self.heap;
        let place = data_place(&heap.layout, self.slot, self.count);
        heap.table
            .shared
            .store::<Drafting>(&mut self.seat, place, word);
        self.count += 1;
    }

    /// Makes the event Publish with the words written, at least one. One store.
    ///
    /// The reference is known to be the only one, and its slot to have no side.
    pub fn publish(self) -> Ref<'h, A>
        requires { 0 < length self.written }
        ensures event { Adds A.fits self.entry.heap.layout self.entry.front self.entry.places (Publish self.entry.slot self.entry.written) result.front result.places }
        ensures reference { result ≡ record { heap = self.entry.heap; front = result.front; places = result.places; slot = self.entry.slot; known = self.entry.written; sole = true; bare = true; side = None; side_words = [] } }
    {
        let Draft {
            heap,
            mut seat,
            slot,
            count: _,
        } = self;
        let place = count_place(&heap.layout, slot);
        heap.table
            .shared
            .store::<Publishing<A>>(&mut seat, place, 1);
        Ref {
            heap,
            seat,
            slot,
            sole: true,
            bare: true,
            side: None,
        }
    }

    /// Gives the slot and the credit back to a pass of the same heap. No event is made, and no memory taken.
    pub fn abandon(self, pass: &mut Pass<'h, A>)
        requires { self.heap ≡ pass.old.heap }
        ensures { Joined pass.old (dropped_draft self.entry) pass.new }
    {
        let Draft {
            heap: _,
            seat,
            slot,
            count: _,
        } = self;
        pass.absorb(seat, &[slot], 1);
    }
}
