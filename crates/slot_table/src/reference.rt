//! One holder of a published slot.
ghost use Rattle.std.specs.Prelude.{◌≡◌, ◌<◌, ◌≤◌, ◌↔◌, [], get_or, length, true, IsTrue, IsNone, IsSome, IfNone, IfSome};
ghost use Rattle.slot_model.specs.declared.event.Event.TheVariants.{Sole, Write};
ghost use Rattle.slot_model.specs.History.{put};
ghost use Rattle.slot_table.specs.Owners.{Adds, Released, Retained};
ghost use Rattle.slot_table.specs.ReferenceSteps.{LeftBy};
ghost use Rattle.slot_table.specs.Ties.{IsTied, IsRef};

use crate::addresses::{count_place, data_place, side_place};
use crate::heap::Heap;
use crate::pass::Pass;
use crate::plays::{
    Asking, GivingBack, Halved, OneCredit, Paid, Reading, Releasing, Retaining, Writing,
};
use crate::view::SeatView;
use atomic_table::Seat;
use slot_model::Attach;
use std::marker::Model;

/// One holder of a published slot, with one credit.
///
/// Contracts see its heap, its front and places, its slot, the slot's words, and what it knows besides: that it is the
/// only one (`sole`), that the slot has no side either (`bare`), and a side with its words.
#[derive(Drop)]
pub struct Ref<'h, A: Attach> {
    pub(crate) heap: &'h Heap<A>,
    pub(crate) seat: Seat<u64, SeatView>,
    pub(crate) slot: u32,
    pub(crate) sole: bool,
    pub(crate) bare: bool,
    pub(crate) side: Option<u32>,
}

impl<'h, A: Attach> Model for Ref<'h, A> {
    ghost use Rattle.slot_table.specs.Owners.{RefSeen};
    ghost use Rattle.slot_table.specs.Ties.{IsRef, IsTied, ref_seen};

    ghost Value = { RefSeen };

    ghost view = { λ p. ref_seen p.heap.now p.seat.me.0 };

    ghost invariant = { λ p. IsTied p.heap.now p.seat × IsRef A.fits p.seat.me.0 p.slot p.sole p.bare p.side };
}

impl<'h, A: Attach> Ref<'h, A> {
    /// The number of its slot.
    pub fn slot(&self) -> u32
        ensures { result ≡ self.now.slot }
    {
        self.slot
    }

    /// Whether it is known to be its slot's only reference.
    pub fn known_sole(&self) -> bool
        ensures { result ≡ self.now.sole }
    {
        self.sole
    }

    /// Whether, besides, its slot is known to have no side.
    pub fn bare(&self) -> bool
        ensures bare { result ≡ self.now.bare }
        ensures sole { IsTrue result → (self.now.sole ≡ true) }
        ensures alone { IsTrue result → (self.now.side ≡ None) }
    {
        self.bare
    }

    /// The number of the slot that it knows as its slot's side.
    pub fn known_side(&self) -> Option<u32>
        ensures side { result ≡ self.now.side }
        ensures fits { IfSome result (λ _. A.fits self.now.known self.now.side_words) }
    {
        self.side
    }

    /// Word `k` of its slot, counted from 0 and below their number. One load.
    pub fn read(&mut self, k: u32) -> u64
        requires { k < length self.old.known }
        ensures kept { self.new ≡ self.old }
        ensures word { result ≡ get_or self.old.known k 0 }
    {
        let heap = self.heap;
        let place = data_place(&heap.layout, self.slot, k);
        heap.table.shared.load::<Reading>(&mut self.seat, place)
    }

    /// Makes the event Sole: whether it is its slot's only reference, which it knows from then on. One load.
    ///
    /// It is always so where it was known.
    pub fn sole(&mut self) -> bool
        ensures event { Adds A.fits self.old.heap.layout self.old.front self.old.places (Sole self.old.slot result) self.new.front self.new.places }
        ensures known { (self.old.sole ≡ true) → IsTrue result }
        ensures kept { self.new ≡ record self.old { front = self.new.front; places = self.new.places; sole = result } }
    {
        let heap = self.heap;
        let place = count_place(&heap.layout, self.slot);
        let found = heap.table.shared.load::<Asking<A>>(&mut self.seat, place);
        self.sole = found == 1;
        self.sole
    }

    /// Makes the event Write: word `k` of its slot, counted from 0, becomes `word`, or is appended where `k` is their number. One store.
    ///
    /// It is bare, and `k` is at most the number of the slot's words, and below the heap's `capacity_words`.
    pub fn write(&mut self, k: u32, word: u64)
        requires bare { self.old.bare ≡ true }
        requires place { (k ≤ length self.old.known) × (k < self.old.heap.layout.capacity_words) }
        ensures event { Adds A.fits self.old.heap.layout self.old.front self.old.places (Write self.old.slot k word) self.new.front self.new.places }
        ensures kept { self.new ≡ record self.old { front = self.new.front; places = self.new.places; known = put self.old.known k word } }
    {
        let heap = self.heap;
        let place = data_place(&heap.layout, self.slot, k);
        heap.table
            .shared
            .store::<Writing<A>>(&mut self.seat, place, word);
    }

    /// Makes the event Retain: a second reference of its slot, which knows the words and the side that it knows.
    ///
    /// Refused, with no event, exactly where the pass has no spendable credit; else a credit of it goes to the new reference. Neither is known
    /// sole from then on. `pass` is of the same heap. Three loads of word 0 and one addition, no memory.
    pub fn retain(&mut self, pass: &mut Pass<'h, A>) -> Option<Ref<'h, A>>
        requires { self.old.heap ≡ pass.old.heap }
        ensures none { IsNone result ↔ (pass.old.credits ≡ 1) }
        ensures kept { IfNone result ((self.new ≡ self.old) × (pass.new ≡ pass.old)) }
        ensures retained { IfSome result (Retained A.fits self.old pass.old self.new pass.new) }
    {
        if pass.credits == 1 {
            return None;
        }
        let heap = self.heap;
        let shared = &heap.table.shared;
        let credit = shared.split_seat::<OneCredit>(&mut pass.seat);
        pass.credits -= 1;
        shared.join_seat::<Paid>(&mut self.seat, credit);
        let place = count_place(&heap.layout, self.slot);
        shared.fetch_add::<Retaining<A>>(&mut self.seat, place, 1);
        let seat = shared.split_seat::<Halved>(&mut self.seat);
        self.sole = false;
        self.bare = false;
        Some(Ref {
            heap,
            seat,
            slot: self.slot,
            sole: false,
            bare: false,
            side: self.side,
        })
    }

    /// Gives the reference up: makes the event Release, and answers whether it was the slot's last, as it is where it is known sole.
    ///
    /// Where it was, the event Detach follows, and the slot and its side's slot, if any, come to `pass`. The credit comes to
    /// it in any case, with the places of the events. `pass` is of the same heap. Takes no memory.
    pub fn release(self, pass: &mut Pass<'h, A>) -> bool
        requires { self.heap ≡ pass.old.heap }
        ensures released { Released A.fits pass.old self.entry result pass.new }
        ensures known { (self.entry.sole ≡ true) → IsTrue result }
    {
        let Ref {
            heap,
            mut seat,
            slot,
            sole: _,
            bare: _,
            side: _,
        } = self;
        match give_up(heap, &mut seat, slot) {
            None => {
                pass.absorb(seat, &[], 1);
                false
            }
            Some(0) => {
                pass.absorb(seat, &[slot], 1);
                true
            }
            Some(shown) => {
                pass.absorb(seat, &[slot, (shown - 1) as u32], 1);
                true
            }
        }
    }
}

// The steps that give a reference's seat up. Where it was the last, the answer is the word that showed the side.
fn give_up<A: Attach>(heap: &Heap<A>, seat: &mut Seat<u64, SeatView>, slot: u32) -> Option<u64>
    requires tied { IsTied heap.now seat.old }
    requires is { (sole : _) × (bare : _) × (side : _) × IsRef A.fits seat.old.me.0 slot sole bare side }
    ensures same { (seat.new.table_id ≡ seat.old.table_id) × (seat.new.me.1 ≡ []) }
    ensures left { LeftBy A.fits seat.old.me.0 seat.new.me.0 result }
    ensures few { IfSome result (λ n. n ≤ heap.now.layout.slots) }
    ensures known { (seat.old.me.0.sole ≡ true) → IsSome result }
{
    let place = count_place(&heap.layout, slot);
    let side = side_place(&heap.layout, slot);
    let found = heap.table.shared.fetch_sub::<Releasing<A>>(seat, place, 1);
    if found == 1 {
        Some(heap.table.shared.swap::<GivingBack<A>>(seat, side, 0))
    } else {
        None
    }
}
