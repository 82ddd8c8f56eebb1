//! What no clause says: that a history is checked at all, where there is memory; and rows worked out by hand from the
//! table of events, each with the number of its first wrong event.
ghost use Rattle.std.specs.Prelude.{length, ◌≡◌};

use slot_model::{Attach, CheckError, Event, Layout, Words, check_history};
use std::alloc::{AllocError, Global};

/// A side has as many words as its slot.
struct SameLength;

impl Attach for SameLength {
    ghost fits = { λ words side. length side ≡ length words };

    fn check_fit(words: &[u64], side: &[u64]) -> bool {
        side.len() == words.len()
    }
}

/// An event whose words are a table's.
#[derive(Clone, Copy)]
enum Step {
    Publish(u32, &'static [u64]),
    Retain(u32),
    Release(u32, bool),
    Sole(u32, bool),
    Write(u32, u32),
    Look(u32, Option<u32>),
    Install(u32, u32, &'static [u64], Option<u32>),
    Detach(u32, Option<u32>),
}

use Step::{Detach, Install, Look, Publish, Release, Retain, Sole, Write};

fn event_of(alloc: Global, step: Step) -> Result<Event, AllocError> {
    Ok(match step {
        Publish(slot, words) => Event::Publish {
            slot,
            words: Words::new(words.to_vec(alloc)?),
        },
        Retain(slot) => Event::Retain { slot },
        Release(slot, last) => Event::Release { slot, last },
        Sole(slot, answer) => Event::Sole { slot, answer },
        Write(slot, k) => Event::Write { slot, k, word: 9 },
        Look(slot, found) => Event::Look { slot, found },
        Install(slot, side, words, found) => Event::Install {
            slot,
            side,
            words: Words::new(words.to_vec(alloc)?),
            found,
        },
        Detach(slot, found) => Event::Detach { slot, found },
    })
}

/// Slots 0 to 2, of three words each.
const LAYOUT: Layout = Layout {
    capacity_words: 3,
    slots: 3,
    credits: 4,
};

fn events_of(alloc: Global, steps: &[Step]) -> Result<Vec<Event>, AllocError> {
    let mut events = Vec::new(alloc);
    for step in steps {
        events.push(event_of(alloc, *step)?)?;
    }
    Ok(events)
}

/// The first wrong event, if there is one.
fn first_wrong(alloc: Global, events: &[Event]) -> Result<Option<usize>, AllocError> {
    match check_history::<SameLength>(alloc, events, &LAYOUT) {
        Ok(()) => Ok(None),
        Err(CheckError::Wrong { at }) => Ok(Some(at)),
        Err(CheckError::OutOfMemory) => Err(AllocError),
    }
}

/// Each with the number of its first wrong event, or none where it is legal.
static HISTORIES: [(&str, &[Step], Option<usize>); 22] = [
    ("no event", &[], None),
    (
        "a copy is taken and given back, then a write",
        &[
            Publish(0, &[7]),
            Retain(0),
            Sole(0, false),
            Release(0, false),
            Sole(0, true),
            Write(0, 0),
            Release(0, true),
            Detach(0, None),
        ],
        None,
    ),
    (
        "stored and let go",
        &[Publish(0, &[7]), Release(0, true), Detach(0, None)],
        None,
    ),
    (
        "stored again after that",
        &[
            Publish(0, &[7]),
            Release(0, true),
            Detach(0, None),
            Publish(0, &[8]),
        ],
        None,
    ),
    (
        "three references",
        &[
            Publish(0, &[7]),
            Retain(0),
            Retain(0),
            Release(0, false),
            Release(0, false),
            Sole(0, true),
            Release(0, true),
        ],
        None,
    ),
    (
        "as many words as there is room for",
        &[Publish(2, &[1, 2, 3])],
        None,
    ),
    (
        "a side comes, is found, and goes",
        &[
            Publish(0, &[7]),
            Look(0, None),
            Install(0, 1, &[5], None),
            Look(0, Some(1)),
            Install(0, 2, &[6], Some(1)),
            Look(0, Some(1)),
            Detach(0, Some(1)),
            Look(0, None),
            Publish(1, &[8]),
            Publish(2, &[8]),
        ],
        None,
    ),
    (
        "a side goes with its slot",
        &[
            Publish(0, &[7]),
            Install(0, 1, &[5], None),
            Release(0, true),
            Detach(0, Some(1)),
            Publish(1, &[8]),
            Publish(0, &[8]),
        ],
        None,
    ),
    (
        "a side stays while references come and go",
        &[
            Publish(0, &[7]),
            Install(0, 1, &[5], None),
            Retain(0),
            Release(0, false),
            Sole(0, true),
            Look(0, Some(1)),
        ],
        None,
    ),
    (
        "a write within the list keeps its length",
        &[
            Publish(0, &[7, 8]),
            Write(0, 0),
            Install(0, 1, &[5, 6], None),
        ],
        None,
    ),
    (
        "a write at its end makes it longer by one",
        &[
            Publish(0, &[7, 8]),
            Write(0, 2),
            Install(0, 1, &[4, 5, 6], None),
        ],
        None,
    ),
    (
        "the first question after a copy answers true",
        &[
            Publish(0, &[7]),
            Retain(0),
            Sole(0, true),
            Release(0, false),
            Sole(0, true),
            Write(0, 0),
            Release(0, true),
            Detach(0, None),
        ],
        Some(2),
    ),
    (
        "the first of two wrong events is told",
        &[Publish(0, &[7]), Look(0, Some(1)), Retain(2), Look(0, None)],
        Some(1),
    ),
    (
        "write: past the end once it was moved",
        &[Publish(0, &[7]), Write(0, 1), Write(0, 1), Write(0, 3)],
        Some(3),
    ),
    (
        "write: past a slot's room",
        &[Publish(0, &[1, 2]), Write(0, 2), Write(0, 3)],
        Some(2),
    ),
    (
        "install: the side is held",
        &[
            Publish(0, &[7]),
            Publish(1, &[8]),
            Install(0, 1, &[5], None),
        ],
        Some(2),
    ),
    (
        "install: the side is closing",
        &[
            Publish(0, &[7]),
            Publish(1, &[8]),
            Release(1, true),
            Install(0, 1, &[5], None),
        ],
        Some(3),
    ),
    (
        "install: the side is one already",
        &[
            Publish(0, &[7]),
            Publish(2, &[8]),
            Install(0, 1, &[5], None),
            Install(2, 1, &[5], None),
        ],
        Some(3),
    ),
    (
        "install: the words fit those before a write",
        &[
            Publish(0, &[7, 8]),
            Write(0, 2),
            Install(0, 1, &[5, 6], None),
        ],
        Some(2),
    ),
    (
        "detach: the slot is idle again",
        &[
            Publish(0, &[7]),
            Release(0, true),
            Detach(0, None),
            Detach(0, None),
        ],
        Some(3),
    ),
    (
        "detach: the side is found once more",
        &[
            Publish(0, &[7]),
            Install(0, 1, &[5], None),
            Detach(0, Some(1)),
            Detach(0, Some(1)),
        ],
        Some(3),
    ),
    (
        "detach: the side of a slot that closes is found once more",
        &[
            Publish(0, &[7]),
            Install(0, 1, &[5], None),
            Release(0, true),
            Detach(0, Some(1)),
            Detach(0, Some(1)),
        ],
        Some(4),
    ),
];

/// A heap that a row of `REFUSED` begins with.
#[derive(Clone, Copy)]
enum Start {
    Empty,
    Held,
    Shared,
    Closing,
    Sided,
}

use Start::{Closing, Empty, Held, Shared, Sided};

fn steps_before(start: Start) -> &'static [Step] {
    match start {
        Empty => &[],
        Held => &[Publish(0, &[7])],
        Shared => &[Publish(0, &[7]), Retain(0)],
        Closing => &[Publish(0, &[7]), Release(0, true)],
        Sided => &[Publish(0, &[7]), Install(0, 1, &[5], None)],
    }
}

/// One event that doesn't apply for each thing that an event needs, and for each state that it may meet.
static REFUSED: [(&str, Start, Step); 48] = [
    ("publish: the slot is held", Held, Publish(0, &[8])),
    ("publish: the slot is closing", Closing, Publish(0, &[8])),
    ("publish: the slot is a side", Sided, Publish(1, &[8])),
    ("publish: no such slot", Empty, Publish(3, &[7])),
    ("publish: no word", Empty, Publish(0, &[])),
    (
        "publish: one word too many",
        Empty,
        Publish(0, &[1, 2, 3, 4]),
    ),
    ("retain: the slot is idle", Held, Retain(1)),
    ("retain: the slot is closing", Closing, Retain(0)),
    ("retain: the slot is a side", Sided, Retain(1)),
    ("retain: no such slot", Empty, Retain(3)),
    ("release: the slot is idle", Empty, Release(0, true)),
    ("release: the slot is closing", Closing, Release(0, true)),
    ("release: the slot is a side", Sided, Release(1, true)),
    ("release: no such slot", Empty, Release(3, true)),
    ("release: last, of two", Shared, Release(0, true)),
    ("release: not last, of one", Held, Release(0, false)),
    ("sole: the slot is idle", Empty, Sole(0, false)),
    ("sole: the slot is closing", Closing, Sole(0, false)),
    ("sole: the slot is a side", Sided, Sole(1, false)),
    ("sole: true, of two", Shared, Sole(0, true)),
    ("sole: false, of one", Held, Sole(0, false)),
    ("write: the slot is idle", Empty, Write(0, 0)),
    ("write: the slot is closing", Closing, Write(0, 0)),
    ("write: two references", Shared, Write(0, 0)),
    ("write: there is a side", Sided, Write(0, 0)),
    ("write: into a side", Sided, Write(1, 0)),
    ("write: past the end", Held, Write(0, 2)),
    ("look: the slot is idle", Empty, Look(0, None)),
    ("look: the slot is closing", Closing, Look(0, None)),
    ("look: the slot is a side", Sided, Look(1, None)),
    (
        "look: a side is found where there is none",
        Held,
        Look(0, Some(1)),
    ),
    (
        "look: none is found where there is a side",
        Sided,
        Look(0, None),
    ),
    ("look: another slot is found", Sided, Look(0, Some(2))),
    ("install: the slot is idle", Empty, Install(0, 1, &[], None)),
    (
        "install: the slot is closing",
        Closing,
        Install(0, 1, &[], None),
    ),
    ("install: no such slot", Empty, Install(3, 1, &[], None)),
    ("install: the slot itself", Held, Install(0, 0, &[5], None)),
    ("install: no such side", Held, Install(0, 3, &[5], None)),
    (
        "install: the words don't fit",
        Held,
        Install(0, 1, &[5, 6], None),
    ),
    (
        "install: none is found where there is a side",
        Sided,
        Install(0, 2, &[6], None),
    ),
    (
        "install: a side is found where there is none",
        Held,
        Install(0, 1, &[5], Some(2)),
    ),
    (
        "install: the slot offered is found",
        Sided,
        Install(0, 2, &[6], Some(2)),
    ),
    ("detach: the slot is idle", Empty, Detach(0, None)),
    ("detach: two references", Shared, Detach(0, None)),
    ("detach: the slot is a side", Sided, Detach(1, None)),
    ("detach: no such slot", Empty, Detach(3, None)),
    (
        "detach: none is found where there is a side",
        Sided,
        Detach(0, None),
    ),
    (
        "detach: a side is found where there is none",
        Held,
        Detach(0, Some(1)),
    ),
];

#[test]
fn histories_are_judged(rt: HostRuntime) -> Result<(), AllocError> {
    for (name, steps, want) in HISTORIES.iter() {
        let events = events_of(rt.alloc(), steps)?;
        assert_eq!(rt; first_wrong(rt.alloc(), &events)?, *want, "{name}");
    }
    for (name, start, step) in REFUSED.iter() {
        let mut events = events_of(rt.alloc(), steps_before(*start))?;
        let at = events.len();
        events.push(event_of(rt.alloc(), *step)?)?;
        assert_eq!(rt; first_wrong(rt.alloc(), &events)?, Some(at), "{name}");
    }
    Ok(())
}

#[test]
fn words_keep_their_list(rt: HostRuntime) -> Result<(), AllocError> {
    let words = Words::new(vec![in rt.alloc(); 1, 2, 3]?);
    assert_eq!(rt; words.as_slice(), [1, 2, 3].as_slice());
    assert_eq!(rt; words.into_vec().as_slice(), [1, 2, 3].as_slice());
    Ok(())
}
