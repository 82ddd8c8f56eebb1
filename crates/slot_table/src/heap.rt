//! The heap: its table, the rule over it, and its end.
ghost use Rattle.std.specs.Prelude.{◌≡◌, ◌<◌};
ghost use Rattle.slot_table.specs.Numbers.{AllOnce};
ghost use Rattle.slot_table.specs.Owners.{Ends};

use crate::pass::Pass;
use crate::view::SeatView;
use atomic_table::{Seat, Table, TableRule};
use slot_model::{Attach, Layout};
use std::alloc::Global;
use std::marker::{Model, PhantomData};
use std::snapshot::Snapshot;
use text_spec::TextList;

/// What the table of a heap is made for: its layout, and its literals, which take no bytes here.
#[derive(Drop)]
pub struct Key {
    pub layout: Layout,
    pub literals: Snapshot<TextList>,
}

/// The rule of a heap whose sides fit by `A`: `Holds` of `specs/Holdings.antt`.
pub struct HeapRule<A> {
    attach: PhantomData<A>,
}

impl<A: Attach> TableRule<u64, SeatView, Key> for HeapRule<A> {
    ghost use Rattle.slot_table.specs.Holdings.{Holds};
    ghost use Rattle.slot_table.specs.PassSteps.{first_view};

    ghost holds = { λ k. Holds A.fits k.layout k.literals.value };

    ghost first = { λ k. first_view k.layout k.literals.value };
}

/// A fixed number of slots over atomic words, and literals, which are never written.
///
/// Contracts see which heap it is, its layout and the UTF-8 bytes of its literals.
#[derive(Drop)]
pub struct Heap<A: Attach> {
    pub(crate) table: Table<u64, SeatView, Key, HeapRule<A>, Global>,
    pub(crate) layout: Layout,
    pub(crate) literals: u32,
    pub(crate) starts: Vec<usize>,
}

impl<A: Attach> Model for Heap<A> {
    ghost use Rattle.slot_table.specs.Owners.{HeapId};
    ghost use Rattle.slot_table.specs.Ties.{IsHeap};

    ghost Value = { HeapId };

    ghost view = { λ h. record { table = h.table.shared.table_id; layout = h.layout; literals = h.table.shared.key.literals.value } };

    ghost invariant = { λ h. IsHeap (record { table = h.table.shared.table_id; layout = h.layout; literals = h.table.shared.key.literals.value }) h.table.shared.key.layout h.table.shared.key.literals.value h.literals h.starts.items };
}

/// The right to the whole heap, while no pass is out. It carries no lifetime.
#[derive(Drop)]
pub struct Whole<A: Attach> {
    pub(crate) seat: Seat<u64, SeatView>,
    pub(crate) free: Vec<u32>,
    pub(crate) attach: PhantomData<A>,
}

impl<A: Attach> Model for Whole<A> {
    ghost use Rattle.std.specs.Prelude.{◌≡◌, [], vec_capacity};
    ghost use Rattle.slot_table.specs.Owners.{PassSeen};
    ghost use Rattle.slot_table.specs.Ties.{IsWhole, pass_seen, heap_seen};

    ghost Value = { PassSeen };

    ghost view = { λ p. pass_seen (heap_seen p.seat.table_id p.seat.me.0) p.seat.me.0 };

    ghost invariant = { λ p. (p.seat.me.1 ≡ []) × IsWhole A.fits p.seat.me.0 p.free.items (vec_capacity p.free) };
}

/// A heap that is no more. Contracts see its whole history.
#[derive(Drop)]
pub struct Closed<A: Attach> {
    slots: u32,
    idle: u32,
    seat: Seat<u64, SeatView>,
    attach: PhantomData<A>,
}

impl<A: Attach> Model for Closed<A> {
    ghost use Rattle.std.specs.Prelude.{◌≡◌};
    ghost use Rattle.slot_table.specs.Owners.{Ended};
    ghost use Rattle.slot_table.specs.PassSteps.{IsAll};
    ghost use Rattle.slot_table.specs.Ties.{ended_seen};

    ghost Value = { Ended };

    ghost view = { λ p. ended_seen p.seat.me.0 p.slots p.idle };

    ghost invariant = { λ p. (p.slots ≡ p.seat.me.0.layout.slots) × (p.idle ≡ p.slots) × IsAll A.fits p.seat.me.0 };
}

impl<A: Attach> Heap<A> {
    /// The pass of the whole heap: it has every slot, and every credit, one of them its stake.
    ///
    /// `whole` is this heap's. Takes no memory and makes no step.
    pub fn pass(&self, whole: Whole<A>) -> Pass<'_, A>
        requires { whole.heap ≡ self.now }
        ensures pass { result ≡ whole }
        ensures credits { result.credits ≡ self.now.layout.credits }
        ensures slots { AllOnce self.now.layout.slots result.free }
    {
        let Whole {
            seat,
            free,
            attach: _,
        } = whole;
        Pass {
            heap: self,
            seat,
            free,
            credits: self.layout.credits,
        }
    }

    /// Ends the heap, and shows its whole history: legal, with every slot idle at its end.
    ///
    /// `whole` is this heap's. Takes no memory and makes no step.
    pub fn close(self, whole: Whole<A>) -> Closed<A>
        requires { whole.heap ≡ self }
        ensures layout { result.layout ≡ self.layout }
        ensures history { result.history ≡ whole.front }
        ensures places { result.places ≡ whole.places }
        ensures ends { Ends A.fits result }
    {
        let Heap {
            table,
            layout,
            literals: _,
            starts: _,
        } = self;
        table.close().free();
        let Whole {
            seat,
            free: _,
            attach,
        } = whole;
        Closed {
            slots: layout.slots,
            idle: layout.slots,
            seat,
            attach,
        }
    }
}

impl<A: Attach> Closed<A> {
    /// The number of slots that the heap had.
    pub fn slots(&self) -> u32
        ensures { result ≡ self.now.slots }
    {
        self.slots
    }

    /// The number of slots that are idle at the end of the history.
    pub fn idle(&self) -> u32
        ensures { result ≡ self.now.idle }
    {
        self.idle
    }
}
