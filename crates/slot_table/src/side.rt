//! A slot's side: which it is, what it holds, how one is installed and taken away.
ghost use Rattle.std.specs.Prelude.{◌≡◌, ◌<◌, get_or, length, Option, Some, true, IsNone, IsSome, IfSome};
ghost use Rattle.slot_model.specs.declared.event.Event.TheVariants.{Look};
ghost use Rattle.slot_model.specs.History.{heap_after};
ghost use Rattle.slot_table.specs.Owners.{Adds, Offered, TakenAway, side_words_in};
ghost use Rattle.slot_table.specs.Outcomes.{found_by};
ghost use Rattle.slot_table.specs.declared.side.Installed.TheVariants.{Won, Lost};

use crate::addresses::{data_place, found_in, side_place};
use crate::draft::Draft;
use crate::numbers::append_all;
use crate::pass::Pass;
use crate::plays::{
    Armed, Change, Detaching, Installing, Literally, Looking, Met, Parted, SideReading,
};
use crate::reference::Ref;
use slot_model::Attach;

/// How an install went.
#[derive(Debug, Drop, PartialEq, Eq)]
pub enum Installed {
    /// The draft's slot is the side.
    Won,
    /// Another slot was the side before, and is it still.
    Lost { found: u32 },
}

impl<'h, A: Attach> Ref<'h, A> {
    /// Makes the event Look: the number of the slot that is its slot's side, which it knows from then on, with its words. One load.
    ///
    /// None where it is bare, and it stays bare then.
    pub fn look(&mut self) -> Option<u32>
        ensures event { Adds A.fits self.old.heap.layout self.old.front self.old.places (Look self.old.slot result) self.new.front self.new.places }
        ensures bare { (self.old.bare ≡ true) → IsNone result }
        ensures fits { IfSome result (λ _. A.fits self.new.known self.new.side_words) }

        // A side that was known is the slot's still, with the same words.
        ensures agrees { IfSome self.old.side (λ d. (result ≡ Some d) × (self.new.side_words ≡ self.old.side_words)) }
        ensures kept { self.new ≡ record self.old { front = self.new.front; places = self.new.places; side = result; side_words = side_words_in (heap_after self.old.heap.layout self.new.front) result } }
    {
        let heap = self.heap;
        let place = side_place(&heap.layout, self.slot);
        let found = heap.table.shared.load::<Looking<A>>(&mut self.seat, place);
        let side = found_in(found);
        self.side = side;
        side
    }

    /// Word `j` of the known side, counted from 0 and below their number. One load.
    ///
    /// A side is known.
    pub fn side(&mut self, j: u32) -> u64
        requires side { IsSome self.old.side }
        requires place { j < length self.old.side_words }
        ensures kept { self.new ≡ self.old }
        ensures word { result ≡ get_or self.old.side_words j 0 }
    {
        let heap = self.heap;
        let Some(slot) = self.side else {
            unreachable!()
        };
        let place = data_place(&heap.layout, slot, j);
        heap.table.shared.load::<SideReading>(&mut self.seat, place)
    }

    /// Makes the event Install: the draft's slot becomes its slot's side where there is none, by one compare and exchange.
    ///
    /// The draft's words fit its slot's words. It is won where the reference is bare. In both cases it knows the side from then on and isn't bare, and the draft's
    /// credit comes to `pass`; the draft's slot does so where another side was there. All three are of one heap. Takes no memory.
    pub fn install(&mut self, draft: Draft<'h, A>, pass: &mut Pass<'h, A>) -> Installed
        requires draft { draft.heap ≡ self.old.heap }
        requires pass { pass.old.heap ≡ self.old.heap }
        requires fits { A.fits self.old.known draft.written }
        ensures offered { Offered A.fits self.old draft.entry pass.old (found_by result) self.new pass.new }
        ensures bare { (self.old.bare ≡ true) → (result ≡ Won) }
        ensures fits { A.fits self.new.known self.new.side_words }

        // Where a side was known, that is the one there, with the same words.
        ensures agrees { IfSome self.old.side (λ d. (result ≡ Lost d) × (self.new.side_words ≡ self.old.side_words)) }
    {
        let Draft {
            heap: _,
            seat,
            slot,
            count: _,
        } = draft;
        let heap = self.heap;
        let shared = &heap.table.shared;
        shared.join_seat::<Armed>(&mut self.seat, seat);
        let place = side_place(&heap.layout, self.slot);
        let found = shared.compare_exchange::<Installing<A>>(
            &mut self.seat,
            place,
            0,
            slot as u64 + 1,
        );
        let change = shared.split_seat::<Change>(&mut self.seat);
        self.bare = false;
        match found_in(found) {
            None => {
                self.side = Some(slot);
                pass.absorb(change, &[], 1);
                Installed::Won
            }
            Some(found) => {
                self.side = Some(found);
                pass.absorb(change, &[slot], 1);
                Installed::Lost { found }
            }
        }
    }

    /// Makes the event Detach: its slot has no side from then on, and the side's slot comes to `pass`. It is bare then.
    ///
    /// None where there was no side. It is known sole, and `pass` is of the same heap. As in `Pass::meet`, both learn the longer of their fronts, and the pass takes all places. One exchange and
    /// three loads of word 0, no memory and no spendable credit.
    pub fn detach(&mut self, pass: &mut Pass<'h, A>) -> Option<u32>
        requires heap { pass.old.heap ≡ self.old.heap }
        requires sole { self.old.sole ≡ true }
        ensures taken { TakenAway A.fits self.old pass.old result self.new pass.new }
        ensures bare { (self.old.bare ≡ true) → IsNone result }

        // A side that was known is the one taken away.
        ensures agrees { IfSome self.old.side (λ d. result ≡ Some d) }
    {
        let heap = self.heap;
        let shared = &heap.table.shared;
        let spare = shared.split_seat::<Literally>(&mut pass.seat);
        let own = std::mem::replace(&mut self.seat, spare);
        shared.join_seat::<Met>(&mut pass.seat, own);
        let place = side_place(&heap.layout, self.slot);
        let found = shared.swap::<Detaching<A>>(&mut pass.seat, place, 0);
        let back = shared.split_seat::<Parted>(&mut pass.seat);
        std::mem::replace(&mut self.seat, back);
        self.bare = true;
        self.side = None;
        let Some(slot) = found_in(found) else {
            return None;
        };
        append_all(&mut pass.free, &[slot]);
        Some(slot)
    }
}
