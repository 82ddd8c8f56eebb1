//! A thread's right to work on a heap.
ghost use Rattle.std.specs.Prelude.{◌≡◌, ◌+◌, ◌<◌, ◌≤◌, ◌⊎◌, ◌↔◌, length, IsErr, IfOk, IfErr, IfSome, IfNone, IsNone, vec_capacity};
ghost use Rattle.slot_table.specs.Numbers.{Below};
ghost use Rattle.slot_table.specs.Ties.{IsTied, IsLoose, loose_seen};
ghost use Rattle.slot_table.specs.Owners.{Joined, Divided, Drafted as DraftTaken, Met as MeetsTo, IsEntire};

use crate::draft::Draft;
use crate::heap::{Heap, Whole};
use crate::numbers::{append_all, hand_over};
use crate::plays::{Concluding, Cut, Drafted, Merged, Met, Parted, Planning, Telling};
use crate::reference::Ref;
use crate::view::SeatView;
use atomic_table::Seat;
use slot_model::Attach;
use std::alloc::Global;
use std::marker::{Model, PhantomData};
use text_spec::OutOfMemory;

/// A thread's right to work on a heap: free slots and credits.
///
/// One credit is its stake, which it keeps. Contracts see its heap, its front and places, its free slots, and its credits with the stake.
#[derive(Drop)]
pub struct Pass<'h, A: Attach> {
    pub(crate) heap: &'h Heap<A>,
    pub(crate) seat: Seat<u64, SeatView>,
    pub(crate) free: Vec<u32>,
    pub(crate) credits: u32,
}

impl<'h, A: Attach> Model for Pass<'h, A> {
    ghost use Rattle.std.specs.Prelude.{vec_capacity};
    ghost use Rattle.slot_table.specs.Ties.{IsTied, IsPass, pass_seen};
    ghost use Rattle.slot_table.specs.Owners.{PassSeen};

    ghost Value = { PassSeen };

    ghost view = { λ p. pass_seen p.heap.now p.seat.me.0 };

    ghost invariant = { λ p. IsTied p.heap.now p.seat × IsPass p.seat.me.0 p.free.items (vec_capacity p.free) p.credits };
}

impl<'h, A: Attach> Pass<'h, A> {
    /// The number of credits that it may spend: all but its stake.
    pub fn credits(&self) -> u32
        ensures credits { self.now.credits ≡ result + 1 }
        ensures most { self.now.credits ≤ self.now.heap.layout.credits }
        ensures below { Below self.now.front self.now.places }
    {
        self.credits - 1
    }

    /// The number of words that a slot has room for.
    pub fn capacity_words(&self) -> u32
        ensures { result ≡ self.now.heap.layout.capacity_words }
    {
        let heap = self.heap;
        heap.layout.capacity_words
    }

    /// The number of literals that the heap has.
    pub fn literals(&self) -> u32
        ensures { result ≡ length self.now.heap.literals }
    {
        let heap = self.heap;
        heap.literals
    }

    /// The number of free slots that it has.
    pub fn free_slots(&self) -> u32
        ensures { result ≡ length self.now.free }
    {
        self.free.len() as u32
    }

    /// Takes a free slot and a credit for a draft. One load of word 0.
    ///
    /// Refused exactly where it has no free slot or no spendable credit. Takes no memory.
    pub fn draft(&mut self) -> Option<Draft<'h, A>>
        ensures none { IsNone result ↔ ((length self.old.free ≡ 0) ⊎ (self.old.credits ≡ 1)) }
        ensures kept { IfNone result (self.new ≡ self.old) }
        ensures draft { IfSome result (λ d. DraftTaken self.old self.new d) }
    {
        if self.credits == 1 {
            return None;
        }
        let slot = self.free.pop()?;
        let heap = self.heap;
        let seat = heap.table.shared.split_seat::<Drafted>(&mut self.seat);
        self.credits -= 1;
        Some(Draft {
            heap,
            seat,
            slot,
            count: 0,
        })
    }

    // Takes in what a share or a draft has.
    pub(crate) fn absorb(&mut self, seat: Seat<u64, SeatView>, free: &[u32], credits: u32)
        requires tied { IsTied self.old.heap seat }
        requires loose { IsLoose seat.me.0 free.now credits }
        ensures { Joined self.old (loose_seen self.old.heap seat.me.0 free.now) self.new }
    {
        let heap = self.heap;
        let shared = &heap.table.shared;
        shared.join_seat::<Merged>(&mut self.seat, seat);
        shared.load::<Telling>(&mut self.seat, 0);
        append_all(&mut self.free, free);
        self.credits += credits;
    }

    /// Takes in all that another pass of the same heap has: its slots, credits, stake and places.
    ///
    /// The front is the longer of the two. Two loads of word 0, no memory, no event.
    pub fn join(&mut self, other: Pass<'h, A>)
        requires { other.heap ≡ self.old.heap }
        ensures { Joined self.old other.entry self.new }
    {
        let Pass {
            heap: _,
            seat,
            free,
            credits,
        } = other;
        self.absorb(seat, free.as_slice(), credits);
    }

    /// A new pass with so many of the free slots, and so many spendable credits.
    ///
    /// It has so many free slots, and at least `credits + 1` spendable credits: one more becomes the new pass's stake. Want of memory
    /// leaves the pass as it was. Takes memory for the slot numbers once; each number is moved once.
    pub fn split(
        &mut self,
        alloc: Global,
        slots: u32,
        credits: u32,
    ) -> Result<Pass<'h, A>, OutOfMemory>
        requires slots { slots ≤ length self.old.free }
        requires credits { credits + 2 ≤ self.old.credits }
        ensures pass { IfOk result (λ p. Divided self.old slots credits self.new p) }
        ensures kept { IfErr result (λ _. self.new ≡ self.old) }
    {
        let heap = self.heap;
        let free = hand_over(alloc, &mut self.free, heap.layout.slots, slots)?;
        let shared = &heap.table.shared;
        let share = credits + 1;
        shared.compare_exchange::<Planning>(&mut self.seat, 0, share as u64, slots as u64);
        let seat = shared.split_seat::<Cut>(&mut self.seat);
        self.credits -= share;
        Ok(Pass {
            heap,
            seat,
            free,
            credits: share,
        })
    }

    /// The pass and a reference of the same heap learn the longer of their fronts, and the pass takes the reference's places.
    ///
    /// No event is made and no memory taken. By it the owner of both knows in which order their events were made. Three loads of word 0.
    pub fn meet(&mut self, reference: Ref<'h, A>) -> Ref<'h, A>
        requires { reference.heap ≡ self.old.heap }
        ensures met { MeetsTo self.old reference.entry self.new result }
        ensures below { Below self.new.front self.new.places }
    {
        let Ref {
            heap: _,
            seat,
            slot,
            sole,
            bare,
            side,
        } = reference;
        let heap = self.heap;
        let shared = &heap.table.shared;
        shared.join_seat::<Met>(&mut self.seat, seat);
        shared.load::<Telling>(&mut self.seat, 0);
        let seat = shared.split_seat::<Parted>(&mut self.seat);
        Ref {
            heap,
            seat,
            slot,
            sole,
            bare,
            side,
        }
    }

    /// Ends the pass that has every credit of its heap, and so every slot and every place.
    ///
    /// Refused exactly where a credit is out, with a reference, a draft or another pass: the pass comes back. Takes no memory.
    pub fn end(self) -> Result<Whole<A>, Missing<'h, A>>
        ensures cause { IsErr result ↔ (self.entry.credits < self.entry.heap.layout.credits) }
        ensures whole { IfOk result (λ w. w ≡ self.entry) }
        ensures ends { IfOk result (λ w. IsEntire A.fits w) }
        ensures missing { IfErr result (λ m. m.pass ≡ self.entry) }
    {
        let heap = self.heap;
        if self.credits < heap.layout.credits {
            return Err(Missing { pass: self });
        }
        let Pass {
            heap: _,
            mut seat,
            free,
            credits: _,
        } = self;
        heap.table.shared.load::<Concluding<A>>(&mut seat, 0);
        Ok(Whole {
            seat,
            free,
            attach: PhantomData,
        })
    }
}

/// Something is still out. The pass comes back.
#[derive(Drop)]
pub struct Missing<'h, A: Attach> {
    pub pass: Pass<'h, A>,
}
