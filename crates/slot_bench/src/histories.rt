//! Lists of events, checked.
ghost use Rattle.std.specs.Prelude.{length, ◌≡◌};

use anyhow::Result;
use slot_model::{Attach, Event, Layout, Words, check_history};
use std::alloc::{AllocError, Global};
use std::rt::Clock;
use std::time::Instant;

/// The number of words of a slot.
const WORDS: usize = 16;

/// The number of slots that are published, each with a side beside it.
const SLOTS: u32 = 128;

struct SameLength;

impl Attach for SameLength {
    ghost fits = { λ words side. length side ≡ length words };

    fn check_fit(words: &[u64], side: &[u64]) -> bool {
        side.len() == words.len()
    }
}

fn some_words(alloc: Global) -> std::result::Result<Words, AllocError> {
    Ok(Words::new(Vec::from_elem(alloc, 7u64, WORDS)?))
}

// Ten events: a slot is published, shared, written, gets a side, and is idle again with it.
fn add_round(
    alloc: Global,
    events: &mut Vec<Event>,
    slot: u32,
    side: u32,
) -> std::result::Result<(), AllocError> {
    events.push(Event::Publish {
        slot,
        words: some_words(alloc)?,
    })?;
    events.push(Event::Retain { slot })?;
    events.push(Event::Sole {
        slot,
        answer: false,
    })?;
    events.push(Event::Release { slot, last: false })?;
    events.push(Event::Sole { slot, answer: true })?;
    events.push(Event::Write {
        slot,
        k: 0,
        word: 9,
    })?;
    events.push(Event::Install {
        slot,
        side,
        words: some_words(alloc)?,
        found: None,
    })?;
    events.push(Event::Look {
        slot,
        found: Some(side),
    })?;
    events.push(Event::Release { slot, last: true })?;
    events.push(Event::Detach {
        slot,
        found: Some(side),
    })?;
    Ok(())
}

fn rounds(alloc: Global, count: u32) -> std::result::Result<Vec<Event>, AllocError> {
    let mut events = Vec::new(alloc);
    for i in 0..count {
        let slot = i % SLOTS;
        add_round(alloc, &mut events, slot, slot + SLOTS)?;
    }
    Ok(events)
}

/// Checks a legal history of ten times so many events.
pub(crate) fn check(rt: &(impl Print + Eprint + Clock), alloc: Global, count: u32) -> Result<()> {
    let events = rounds(alloc, count)?;
    let layout = Layout {
        capacity_words: 1024,
        slots: 2 * SLOTS,
        credits: 4096,
    };
    let start = Instant::now(rt)?;
    let legal = check_history::<SameLength>(alloc, &events, &layout).is_ok();
    let milliseconds = start.elapsed(rt)?.as_millis();
    let total = events.len();
    println!(rt; "{total} events checked, legal: {legal}")?;
    eprintln!(rt; "{milliseconds} ms")?;
    Ok(())
}
