use slot_model::{Event, Layout, Words};

/// What a seat at the heap's table is. No value of this type is made.
pub enum Role {
    /// Credits and free slots, as a pass has them, or on their way from one seat to another.
    Share,
    Draft,
    Reference,
    /// The last reference of its slot is gone, and the slot isn't given back yet.
    Closing,
    Literal,
    /// Another seat has all that this one had.
    Spent,
}

/// What a seat at the heap's table knows and holds. No value of this type is made: it stands in proofs alone, where
/// an array is a list of any length.
pub struct SeatView {
    pub role: Role,
    pub layout: Layout,
    /// The texts of the heap's literals, each as its UTF-8 bytes.
    pub literals: [Words; 0],
    /// The history of the heap as far as this seat knows it.
    pub front: [Event; 0],
    /// The shorter front of two that were joined.
    pub told: [Event; 0],
    /// The numbers of the events in the history that are this seat's.
    pub places: [u64; 0],
    /// The numbers of free slots.
    pub free: [u32; 0],
    pub credits: u64,
    /// The slot of a reference or of a closing seat.
    pub slot: u32,
    /// How many times the slot's count has this reference.
    pub weight: u64,
    /// The words of the slot.
    pub known: [u64; 0],
    /// The slot that is being filled, and what was written into it.
    pub draft: Option<u32>,
    pub written: [u64; 0],
    /// The reference is known to be the only one.
    pub sole: bool,
    /// Besides, the slot is known to have no side.
    pub bare: bool,
    /// The slot's side, where it is known, and its words.
    pub side: Option<u32>,
    pub side_words: [u64; 0],
    /// How many slots and credits the next cut is to take.
    pub planned_slots: u64,
    pub planned_credits: u64,
}
