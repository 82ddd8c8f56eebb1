ghost use Rattle.std.specs.Prelude.{◌≡◌, ◌↔◌, ◌+◌, ◌^◌, ◌<◌, ◌≤◌, length, IsTrue, OnOk};
ghost use Rattle.slot_model.specs.History.{idle, count_of, words_of, side_in, closing_in, retained, released, written, sided, detached};
ghost use Rattle.slot_model.specs.Checking.{slot_in};

use std::alloc::{AllocError, Global};
use std::borrow::CowSlice;
use std::mem;

/// One slot, as the checker keeps it. Its words are those of the event that brought them, until a Write changes them.
#[derive(Drop)]
pub enum SlotState<'e> {
    Idle,
    Held {
        count: u64,
        words: CowSlice<'e, u64>,
        side: Option<u32>,
    },
    Closing {
        side: Option<u32>,
    },
    SideOf {
        slot: u32,
        words: &'e [u64],
    },
}

impl<'e> SlotState<'e> {
    /// How many references the slot has; 0 where it isn't held.
    pub fn count(&self) -> u64
        ensures { result ≡ count_of (slot_in self.now) }
    {
        match self {
            SlotState::Held { count, .. } => *count,
            _ => 0,
        }
    }

    /// The number of the slot that is its side.
    pub fn side(&self) -> Option<u32>
        ensures { result ≡ side_in (slot_in self.now) }
    {
        match self {
            SlotState::Held { side, .. } => *side,
            SlotState::Closing { side } => *side,
            _ => None,
        }
    }

    /// Whether it is idle: nobody holds it, and it is no slot's side.
    pub fn is_idle(&self) -> bool
        ensures { IsTrue result ↔ (slot_in self.now ≡ idle) }
    {
        match self {
            SlotState::Idle => true,
            _ => false,
        }
    }

    /// Whether its last reference was given up, and the Detach that makes it idle is still to come.
    pub fn is_closing(&self) -> bool
        ensures { IsTrue result ↔ (closing_in (slot_in self.now) ≡ 1) }
    {
        match self {
            SlotState::Closing { .. } => true,
            _ => false,
        }
    }

    /// The words of a held slot or a side; none in the other states.
    pub fn words(&self) -> &[u64]
        ensures { result.now ≡ words_of (slot_in self.now) }
    {
        match self {
            SlotState::Held { words, .. } => words.as_slice(),
            SlotState::SideOf { words, .. } => words,
            _ => &[],
        }
    }

    /// One reference more.
    pub fn retain(&mut self)
        requires { count_of (slot_in self.old) + 1 < 2 ^ 64 }
        ensures { slot_in self.new ≡ retained (slot_in self.old) }
    {
        if let SlotState::Held { count, .. } = self {
            *count += 1;
        }
    }

    /// One reference fewer; closing where it was the only one.
    pub fn release(&mut self)
        requires { 0 < count_of (slot_in self.old) }
        ensures { slot_in self.new ≡ released (slot_in self.old) }
    {
        if self.count() == 1 {
            let side = self.side();
            *self = SlotState::Closing { side };
        } else if let SlotState::Held { count, .. } = self {
            *count -= 1;
        }
    }

    /// Word `k` is `word`; the list of words grows by one where `k` was its length.
    pub fn write(&mut self, alloc: Global, k: usize, word: u64) -> Result<(), AllocError>
        requires { k ≤ length (words_of (slot_in self.old)) }
        ensures { OnOk result (slot_in self.new ≡ written k word (slot_in self.old)) }
    {
        if let SlotState::Held { words, .. } = self {
            let given = mem::replace(words, CowSlice::Borrowed(&[]));
            let mut items = given.into_owned(alloc)?;
            if k == items.len() {
                items.push(word)?;
            } else {
                items[k] = word;
            }
            *words = CowSlice::Owned(items);
        }
        Ok(())
    }

    /// The slot has this side, or none.
    pub fn set_side(&mut self, new_side: Option<u32>)
        ensures { slot_in self.new ≡ sided new_side (slot_in self.old) }
    {
        if let SlotState::Held { side, .. } = self {
            *side = new_side;
        }
    }

    /// The slot lets go of its side; a closing one is idle.
    pub fn detach(&mut self)
        ensures { slot_in self.new ≡ detached (slot_in self.old) }
    {
        match self {
            SlotState::Held { side, .. } => *side = None,
            SlotState::Closing { .. } => *self = SlotState::Idle,
            _ => {}
        }
    }
}
