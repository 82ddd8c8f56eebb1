//! Texts in slots, edited in place and into new slots: what they hold then, byte by byte, beside a plain program on a vector.
ghost use Rattle.std.specs.Prelude.{◌≡◌, ◌+◌, ◌-◌, ◌<◌, ◌≤◌, length, IfSome};
ghost use Rattle.slot_edits.specs.Parts.{Fits};
ghost use Rattle.slot_tests.specs.Texts.{IsHeld};

use crate::heaps::{NotEmpty, closed, ended, layout, opened};
use object_words::Object;
use slot_accounts::{draw, let_go, publish, share};
use slot_edits::{Outcome, Part, Readied, replace, replace_copied, replace_in_place, reserve};
use slot_table::{Pass, Ref, Whole};
use std::alloc::Global;
use std::test::Fail;

const OLD: [u8; 26] = *b"abcdefghijklmnopqrstuvwxyz";

const OLD_MIXED: [u8; 26] = *b"abcde\xC3\xBChijklmnopqrstu\xC3\xA4xyz";

const NEW: [u8; 17] = *b"ABCDEFGHIJKLMNOPQ";

const NEW_MIXED: [u8; 17] = *b"\xC3\x84CDEFGHIJKLMNOPQ";

// The lengths of the texts that are edited, in bytes.
const LENGTHS: [usize; 4] = [0, 8, 9, 26];

// How many rows the table has: places 0 to 26, 0 to 17 bytes out and in, alone and beside a second reference, and each length.
const ROWS: usize = 27 * 18 * 18 * 2 * 4;

// A text in a slot: its reference, how many bytes it has, and whether all are ASCII.
#[derive(Drop)]
struct Held<'h> {
    reference: Ref<'h, NotEmpty>,
    count: u64,
    ascii: bool,
}

// A text without a byte.
fn empty<'h>(pass: &mut Pass<'h, NotEmpty>) -> Option<Held<'h>>
    ensures pass { pass.new.heap ≡ pass.old.heap }
    ensures held { IfSome result (λ t. IsHeld pass.old.heap t.reference t.count t.ascii) }
{
    if pass.capacity_words() == 0 {
        return None;
    }
    let mut draft = draw(pass)?;
    let object = Object::native(true, true, 0, draft.slot());
    draft.write(object.w0());
    Some(Held {
        reference: publish(pass, draft),
        count: 0,
        ascii: true,
    })
}

// The text that `replace` leaves, and where.
fn replaced<'h>(
    pass: &mut Pass<'h, NotEmpty>,
    text: Held<'h>,
    low: u64,
    high: u64,
    with: &[u8],
) -> (Held<'h>, Outcome)
    requires held { IsHeld pass.old.heap text.reference text.count text.ascii }
    requires order { low ≤ high }
    requires inside { high ≤ text.count }
    requires fits { Fits (text.count - (high - low) + length with.now) pass.old.heap.layout.capacity_words }
    ensures pass { pass.new.heap ≡ pass.old.heap }
    ensures held { IsHeld pass.old.heap result.0.reference result.0.count result.0.ascii }
{
    let _ = pass.capacity_words();
    let Held {
        reference,
        count,
        ascii,
    } = text;
    let part = Part { low, high, count };
    let (reference, outcome) = replace(pass, reference, part, with, ascii);
    match outcome {
        Outcome::InPlace(object) => {
            let (count, ascii) = (object.count(), object.ascii());
            (
                Held {
                    reference,
                    count,
                    ascii,
                },
                outcome,
            )
        }
        Outcome::Copied(object) => {
            let (count, ascii) = (object.count(), object.ascii());
            (
                Held {
                    reference,
                    count,
                    ascii,
                },
                outcome,
            )
        }
        Outcome::Left => (
            Held {
                reference,
                count,
                ascii,
            },
            outcome,
        ),
    }
}

// The text that `replace_in_place` leaves, and whether it was written.
fn written<'h>(
    pass: &mut Pass<'h, NotEmpty>,
    text: Held<'h>,
    low: u64,
    high: u64,
    with: &[u8],
) -> (Held<'h>, bool)
    requires held { IsHeld pass.old.heap text.reference text.count text.ascii }
    requires order { low ≤ high }
    requires inside { high ≤ text.count }
    requires fits { Fits (text.count - (high - low) + length with.now) pass.old.heap.layout.capacity_words }
    ensures pass { pass.new.heap ≡ pass.old.heap }
    ensures held { IsHeld pass.old.heap result.0.reference result.0.count result.0.ascii }
{
    let _ = pass.capacity_words();
    let Held {
        reference,
        count,
        ascii,
    } = text;
    let part = Part { low, high, count };
    let (reference, object) = replace_in_place(pass, reference, part, with, ascii);
    match object {
        Some(object) => {
            let (count, ascii) = (object.count(), object.ascii());
            (
                Held {
                    reference,
                    count,
                    ascii,
                },
                true,
            )
        }
        None => (
            Held {
                reference,
                count,
                ascii,
            },
            false,
        ),
    }
}

// The text that `replace_copied` leaves, and whether it was copied.
fn copied<'h>(
    pass: &mut Pass<'h, NotEmpty>,
    text: Held<'h>,
    low: u64,
    high: u64,
    with: &[u8],
) -> (Held<'h>, bool)
    requires held { IsHeld pass.old.heap text.reference text.count text.ascii }
    requires order { low ≤ high }
    requires inside { high ≤ text.count }
    requires fits { Fits (text.count - (high - low) + length with.now) pass.old.heap.layout.capacity_words }
    ensures pass { pass.new.heap ≡ pass.old.heap }
    ensures held { IsHeld pass.old.heap result.0.reference result.0.count result.0.ascii }
{
    let _ = pass.capacity_words();
    let Held {
        reference,
        count,
        ascii,
    } = text;
    let part = Part { low, high, count };
    let (reference, object) = replace_copied(pass, reference, part, with, ascii);
    match object {
        Some(object) => {
            let (count, ascii) = (object.count(), object.ascii());
            (
                Held {
                    reference,
                    count,
                    ascii,
                },
                true,
            )
        }
        None => (
            Held {
                reference,
                count,
                ascii,
            },
            false,
        ),
    }
}

// The text as `reserve` leaves it, and where.
fn readied<'h>(pass: &mut Pass<'h, NotEmpty>, text: Held<'h>) -> (Held<'h>, Readied)
    requires held { IsHeld pass.old.heap text.reference text.count text.ascii }
    ensures pass { pass.new.heap ≡ pass.old.heap }
    ensures held { IsHeld pass.old.heap result.0.reference result.0.count result.0.ascii }
{
    let Held {
        reference,
        count,
        ascii,
    } = text;
    let (reference, how) = reserve(pass, reference, count, ascii);
    match how {
        Readied::Copied(object) => {
            let (count, ascii) = (object.count(), object.ascii());
            (
                Held {
                    reference,
                    count,
                    ascii,
                },
                how,
            )
        }
        Readied::Alone => (
            Held {
                reference,
                count,
                ascii,
            },
            how,
        ),
        Readied::Left => (
            Held {
                reference,
                count,
                ascii,
            },
            how,
        ),
    }
}

// A second reference of the text's slot, where one is wanted.
fn accompanied<'h>(
    pass: &mut Pass<'h, NotEmpty>,
    text: Held<'h>,
    wanted: bool,
) -> (Held<'h>, Option<Held<'h>>)
    requires held { IsHeld pass.old.heap text.reference text.count text.ascii }
    ensures pass { pass.new.heap ≡ pass.old.heap }
    ensures held { IsHeld pass.old.heap result.0.reference result.0.count result.0.ascii }
    ensures second { IfSome result.1 (λ t. IsHeld pass.old.heap t.reference t.count t.ascii) }
{
    if !wanted {
        return (text, None);
    }
    let Held {
        reference,
        count,
        ascii,
    } = text;
    let (reference, second) = share(pass, reference);
    match second {
        Some(second) => (
            Held {
                reference,
                count,
                ascii,
            },
            Some(Held {
                reference: second,
                count,
                ascii,
            }),
        ),
        None => (
            Held {
                reference,
                count,
                ascii,
            },
            None,
        ),
    }
}

// Whether the text's slot has these bytes behind a count word that tells of them.
fn has_bytes(text: &mut Held<'_>, bytes: &[u8]) -> bool
    requires { Fits text.old.count (length text.old.reference.known) }
    ensures { text.new ≡ text.old }
{
    if bytes.len() > 64 || bytes.len() as u64 != text.count {
        return false;
    }
    let ascii = bytes.is_ascii();
    let count_word = Object::native(ascii, ascii, bytes.len() as u64, 0).w0();
    let found = text.reference.read(0);
    if found != count_word || ascii != text.ascii {
        return false;
    }
    for p in 0..bytes.len() {
        let word = text.reference.read((p / 8 + 1) as u32);
        if ((word >> (8 * (p % 8))) % 256) as u8 != bytes[p] {
            return false;
        }
    }
    true
}

// The second reference is given up. Whether it held these bytes, and was its slot's last, if there is one.
fn given_up<'h>(pass: &mut Pass<'h, NotEmpty>, second: Option<Held<'h>>, bytes: &[u8]) -> bool
    requires { IfSome second (λ t. IsHeld pass.old.heap t.reference t.count t.ascii) }
    ensures { pass.new.heap ≡ pass.old.heap }
{
    let Some(mut second) = second else {
        return true;
    };
    let found = has_bytes(&mut second, bytes);
    let last = let_go(pass, second.reference);
    found && last
}

// A vector with other bytes in place of a part.
fn spliced(alloc: Global, old: &[u8], low: usize, high: usize, with: &[u8]) -> Option<Vec<u8>>
    requires order { low ≤ high }
    requires inside { high ≤ length old.now }
{
    let mut new = Vec::new(alloc);
    new.extend_from_slice(&old[..low]).ok()?;
    new.extend_from_slice(with).ok()?;
    new.extend_from_slice(&old[high..]).ok()?;
    Some(new)
}

// A text is made, edited, and edited back; its slot has a second reference at the first edit where `beside` says so. Whether it held
// what the plain program makes of it each time, stood in its slot exactly where it was alone, and the second kept the old bytes.
fn edited_and_back<'h>(
    alloc: Global,
    pass: &mut Pass<'h, NotEmpty>,
    old: &[u8],
    low: usize,
    high: usize,
    with: &[u8],
    beside: bool,
) -> Option<bool>
    requires order { low ≤ high }
    requires inside { high ≤ length old.now }
    requires few { (length old.now ≤ 26) × (length with.now ≤ 17) }
    ensures { pass.new.heap ≡ pass.old.heap }
{
    if pass.capacity_words() != 8 {
        return None;
    }
    let text = empty(pass)?;
    if text.count != 0 {
        return None;
    }
    let (text, _made) = replaced(pass, text, 0, 0, old);
    if text.count != old.len() as u64 {
        return None;
    }
    let slot = text.reference.slot();
    let (text, second) = accompanied(pass, text, beside);
    if text.count != old.len() as u64 {
        return None;
    }
    let (text, there) = replaced(pass, text, low as u64, high as u64, with);
    let new = spliced(alloc, old, low, high, with)?;
    let mut text = text;
    let found = has_bytes(&mut text, &new);
    let same_slot = text.reference.slot() == slot;
    let kept = given_up(pass, second, old);
    let end = low + with.len();
    if text.count != (old.len() - (high - low) + with.len()) as u64 {
        return None;
    }
    let (text, back) = replaced(pass, text, low as u64, end as u64, &old[low..high]);
    let mut text = text;
    let found_back = has_bytes(&mut text, old);
    let last = let_go(pass, text.reference);
    let moved = matches!(there, Outcome::Copied(_));
    let stayed = matches!(there, Outcome::InPlace(_)) && same_slot;
    let stands = if beside { moved && !same_slot } else { stayed };
    Some(found && kept && stands && found_back && matches!(back, Outcome::InPlace(_)) && last)
}

// One row of the table; true where it tells of no part of its text.
fn row<'h>(alloc: Global, pass: &mut Pass<'h, NotEmpty>, number: usize) -> Option<bool>
    ensures { pass.new.heap ≡ pass.old.heap }
{
    let low = number % 27;
    let out = number / 27 % 18;
    let added = number / 486 % 18;
    let beside = number / 8748 % 2 == 1;
    let length = LENGTHS[number / 17496 % 4];
    if length > 26 || low + out > length {
        return Some(true);
    }
    let old = if added % 2 == 0 { OLD } else { OLD_MIXED };
    let with = if out % 3 == 0 { NEW_MIXED } else { NEW };
    edited_and_back(
        alloc,
        pass,
        &old[..length],
        low,
        low + out,
        &with[..added],
        beside,
    )
}

// The first row that came out wrong, or their number.
fn table<'h>(alloc: Global, mut pass: Pass<'h, NotEmpty>) -> (usize, Option<Whole<NotEmpty>>)
    ensures { IfSome result.1 (λ w. w.heap ≡ pass.entry.heap) }
{
    for number in 0..ROWS {
        if row(alloc, &mut pass, number) != Some(true) {
            return (number, None);
        }
    }
    (ROWS, ended(pass))
}

#[test]
fn edits_are_those_of_a_plain_program(rt: HostRuntime) -> Result<(), Fail> {
    let alloc = rt.alloc();
    let (heap, whole) = opened(&rt, alloc, &layout(8, 3, 5));
    let (rows, whole) = table(alloc, heap.pass(whole));
    assert_eq!(rt; rows, ROWS, "the first row that is wrong");
    let Some(whole) = whole else {
        panic!(rt; "something is still out")
    };
    assert_eq!(rt; closed(heap, whole), (3, 3), "slots and idle slots");
    Ok(())
}

// What calls answered that no row of the table shows.
#[derive(Debug, PartialEq, Drop)]
struct Answers {
    // Beside a second reference: whether `reserve` and `replace` left the text, and `replace_in_place` wrote.
    left: (bool, bool),
    written_beside: bool,
    // Beside a second reference, where there is a free slot: whether `reserve` copied.
    readied_by_copy: bool,
    // Alone: whether `reserve` needed no copy, `replace_in_place` wrote, and `replace_copied` copied.
    alone: bool,
    written: bool,
    copied: bool,
}

// An empty text with a second reference is readied and edited, and again as it is alone.
fn each_call<'h>(pass: &mut Pass<'h, NotEmpty>) -> Option<Answers>
    ensures { pass.new.heap ≡ pass.old.heap }
{
    if pass.capacity_words() != 8 {
        return None;
    }
    let text = empty(pass)?;
    let (text, second) = accompanied(pass, text, true);
    let second = second?;
    if text.count != 0 {
        return None;
    }
    let (text, beside) = written(pass, text, 0, 0, b"x");
    if text.count != 0 {
        return None;
    }
    let (text, ready) = readied(pass, text);
    if text.count != 0 {
        return None;
    }
    let (text, edit) = replaced(pass, text, 0, 0, b"");
    let_go(pass, second.reference);
    let (text, ready_alone) = readied(pass, text);
    if text.count != 0 {
        return None;
    }
    let (text, alone) = written(pass, text, 0, 0, b"x");
    if text.count != 1 {
        return None;
    }
    let (text, moved) = copied(pass, text, 0, 0, b"y");
    let_go(pass, text.reference);
    Some(Answers {
        left: (
            matches!(ready, Readied::Left),
            matches!(edit, Outcome::Left),
        ),
        written_beside: beside,
        readied_by_copy: matches!(ready, Readied::Copied(_)),
        alone: matches!(ready_alone, Readied::Alone),
        written: alone,
        copied: moved,
    })
}

// The answers, and the whole pass at the end.
fn called<'h>(mut pass: Pass<'h, NotEmpty>) -> Option<(Answers, Option<Whole<NotEmpty>>)>
    ensures { IfSome result (λ t. IfSome t.1 (λ w. w.heap ≡ pass.entry.heap)) }
{
    let answers = each_call(&mut pass)?;
    Some((answers, ended(pass)))
}

#[test]
fn texts_are_copied_where_there_is_room(rt: HostRuntime) -> Result<(), Fail> {
    let alloc = rt.alloc();
    for slots in [1u32, 2] {
        let room = slots == 2;
        let (heap, whole) = opened(&rt, alloc, &layout(8, slots, 4));
        let Some((answers, Some(whole))) = called(heap.pass(whole)) else {
            panic!(rt; "something is still out")
        };
        let wanted = Answers {
            left: (!room, !room),
            written_beside: false,
            readied_by_copy: room,
            alone: true,
            written: true,
            copied: room,
        };
        assert_eq!(rt; answers, wanted, "slots: {slots}");
        assert_eq!(rt; closed(heap, whole), (slots, slots), "slots and idle slots");
    }
    Ok(())
}
