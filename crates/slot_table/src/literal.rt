//! One of the heap's literals, as a thread reads it.
ghost use Rattle.std.specs.Prelude.{◌≡◌, ◌<◌, ◌≤◌, [], get_or, length, IsUtf8};
ghost use Rattle.literal_rows.specs.Rows.{row_words};
ghost use Rattle.slot_table.specs.Opening.{LayoutOk, most_bytes};

use crate::heap::Heap;
use crate::pass::Pass;
use crate::plays::{Literally, Reciting};
use crate::view::SeatView;
use atomic_table::Seat;
use slot_model::Attach;
use std::marker::Model;

/// One of the heap's literals. It holds no credit, and no event is made on it.
///
/// Contracts see its heap, its front, and the words of its row: a count word, then its UTF-8 bytes, eight to a word.
#[derive(Drop)]
pub struct Literal<'h, A: Attach> {
    heap: &'h Heap<A>,
    seat: Seat<u64, SeatView>,
    number: u32,
    start: usize,
}

impl<'h, A: Attach> Model for Literal<'h, A> {
    ghost use Rattle.slot_table.specs.Owners.{LiteralSeen};
    ghost use Rattle.slot_table.specs.Ties.{IsLiteral, IsTied, literal_seen};

    ghost Value = { LiteralSeen };

    ghost view = { λ p. literal_seen p.heap.now p.seat.me.0 p.number };

    ghost invariant = { λ p. IsTied p.heap.now p.seat × IsLiteral p.heap.now p.number p.start };
}

impl<'h, A: Attach> Pass<'h, A> {
    /// Literal `number` of the heap, counted from 0 and below their number.
    ///
    /// Its words are those of a text that fits a slot. One load of word 0. No event, no credit and no memory.
    pub fn literal(&mut self, number: u32) -> Literal<'h, A>
        requires { number < length self.old.heap.literals }
        ensures kept { self.new ≡ self.old }
        ensures literal { result ≡ record { heap = self.old.heap; front = self.old.front; words = row_words self.old.heap.literals number } }
        ensures text { IsUtf8 (get_or self.old.heap.literals number []) }
        ensures fits { length (get_or self.old.heap.literals number []) ≤ most_bytes self.old.heap.layout }
        ensures laid { LayoutOk self.old.heap.layout }
    {
        let heap = self.heap;
        let start = heap.starts[number as usize];
        let seat = heap.table.shared.split_seat::<Literally>(&mut self.seat);
        Literal {
            heap,
            seat,
            number,
            start,
        }
    }
}

impl<'h, A: Attach> Literal<'h, A> {
    /// Word `k` of its row, counted from 0 and below their number. One load.
    pub fn read(&mut self, k: u32) -> u64
        requires { k < length self.old.words }
        ensures kept { self.new ≡ self.old }
        ensures word { result ≡ get_or self.old.words k 0 }
    {
        let heap = self.heap;
        let shared = &heap.table.shared;
        let place = self.start + k as usize;
        shared.load::<Reciting>(&mut self.seat, place)
    }

    /// The same literal once more. One load of word 0, no memory.
    pub fn copy(&mut self) -> Literal<'h, A>
        ensures kept { self.new ≡ self.old }
        ensures copy { result ≡ self.old }
    {
        let heap = self.heap;
        let seat = heap.table.shared.split_seat::<Literally>(&mut self.seat);
        Literal {
            heap,
            seat,
            number: self.number,
            start: self.start,
        }
    }

    /// Gives the literal up. Nothing is owed for it.
    pub fn release(self) {}
}
