//! Edits in place: which values are written over in their slot, what other owners keep then, and each edit at a word's edge beside a plain
//! program.
ghost use Rattle.std.specs.Prelude.{◌≡◌, ◌≤◌, length};
ghost use Rattle.str_value.specs.Meaning.{OfHeap};

use crate::edit_cow_tests::{UTF8, appended, at, replaced};
use crate::heaps::{heap_of, whole};
use edit_cow::{EditError, Wrote};
use std::alloc::{AllocError, Global};
use std::marker::Brand;
use std::process::Abort;
use std::sync::ledger::{Blank, Ledger};
use std::test::Fail;
use str_value::{Learned, Str, StrPass};
use utf16_view::utf16;
use value_heaps::{closed, ended};
use word_units::{Steps, Text};

/// Twenty bytes: more than two words hold.
const LETTERS: &str = "aaaaaaaaaaaaaaaaaaaa";

/// The slot that a Native value stands in.
fn slot_of(value: &Str) -> u64 {
    value.object().w1() % 4_294_967_296
}

/// A value has this text, and tells whether it is ASCII.
fn reads(rt: &impl Abort, alloc: Global, value: &mut Str, text: &[u8]) -> Result<(), Fail>
    ensures { value.new ≡ value.old }
{
    let bytes = whole(alloc, value)?;
    assert_eq!(rt; bytes.as_slice(), text);
    assert_eq!(rt; value.object().ascii(), text.is_ascii());
    Ok(())
}

/// An edit at this part, or at the end where none is named.
fn edited<'h>(
    rt: &impl Abort,
    alloc: Global,
    value: &mut Str<'h>,
    pass: &mut StrPass<'h>,
    part: Option<(u64, u64)>,
    with: &[u8],
) -> Result<Wrote, EditError>
    requires heap { OfHeap pass.old value.old.place }
    ensures one_heap { pass.new.heap ≡ pass.old.heap }
    ensures heap { OfHeap pass.new value.new.place }
{
    match part {
        Some((low, high)) => {
            let words = (at(low, UTF8), at(high, UTF8));
            replaced(rt, alloc, value, pass, words, with)
        }
        None => appended(alloc, value, pass, with),
    }
}

/// What an edit answers and makes of a value, which stays in its slot exactly where it is written in place.
fn edit_makes<'h>(
    rt: &impl Abort,
    alloc: Global,
    value: &mut Str<'h>,
    pass: &mut StrPass<'h>,
    edit: (Option<(u64, u64)>, &[u8]),
    wanted: (Wrote, &[u8]),
) -> Result<(), Fail>
    requires heap { OfHeap pass.old value.old.place }
    ensures one_heap { pass.new.heap ≡ pass.old.heap }
    ensures heap { OfHeap pass.new value.new.place }
{
    let (part, with) = edit;
    let (wrote, text) = wanted;
    let slot = slot_of(value);
    assert_eq!(rt; edited(rt, alloc, value, pass, part, with)?, wrote);
    let stays = value.known_sole() && slot_of(value) == slot;
    assert_eq!(rt; stays, wrote == Wrote::InPlace, "the slot");
    reads(rt, alloc, value, text)
}

/// Edits of a value of `LETTERS`, which is alone in its slot: each is written over the text, whatever its length and marks are then.
fn edits_follow<'h>(
    rt: &impl Abort,
    alloc: Global,
    value: &mut Str<'h>,
    pass: &mut StrPass<'h>,
) -> Result<(), Fail>
    requires heap { OfHeap pass.old value.old.place }
    ensures one_heap { pass.new.heap ≡ pass.old.heap }
    ensures heap { OfHeap pass.new value.new.place }
{
    let longer = "aaaaaaaaaaaaaaaaaaaa!";
    let mixed = "aaaaaaaaaaaaaaaaaaaa!é";
    let rows = [
        (None, "!", longer),
        (None, "é", mixed),
        (Some((21, 23)), "", longer),
        (Some((1, 19)), "", "aa!"),
        (Some((0, 3)), "", ""),
        (Some((0, 0)), mixed, mixed),
    ];
    'rows: for (part, with, text) in rows {
        let wanted = (Wrote::InPlace, text.as_bytes());
        edit_makes(rt, alloc, value, pass, (part, with.as_bytes()), wanted)?;
    }
    Ok(())
}

#[tactic(auto, using(value_heaps::proofs::Moving::of_heap_moves))]
#[test]
fn a_value_that_outlives_its_copy_is_written_over(rt: HostRuntime) -> Result<(), Fail> {
    let alloc = rt.alloc();
    let (heap, all) = heap_of(&rt, alloc, 2)?;
    let mut pass = heap.pass(all);
    let mut value = Str::from_utf8(alloc, &mut pass, LETTERS.as_bytes())?;
    let copy = value.copy(alloc, &mut pass)?;
    copy.release(&mut pass);
    edits_follow(&rt, alloc, &mut value, &mut pass)?;
    value.release(&mut pass);
    let all = ended(pass).expect(&rt, "something is still out");
    let (slots, idle) = closed(heap, all);
    assert_eq!(rt; slots, idle, "slots and idle slots");
    Ok(())
}

/// The first of two owners of a slot is edited and then the second. The second keeps its text until then, and both go.
#[tactic(auto, using(value_heaps::proofs::Moving::of_heap_moves))]
fn owners_are_edited(
    rt: &impl Abort,
    alloc: Global,
    first: (Option<(u64, u64)>, &[u8]),
    first_makes: (Wrote, &[u8]),
    second: (Option<(u64, u64)>, &[u8]),
    second_makes: (Wrote, &[u8]),
) -> Result<(), Fail> {
    let (heap, all) = heap_of(rt, alloc, 2)?;
    let mut pass = heap.pass(all);
    let mut value = Str::from_utf8(alloc, &mut pass, LETTERS.as_bytes())?;
    let mut copy = value.copy(alloc, &mut pass)?;
    edit_makes(rt, alloc, &mut value, &mut pass, first, first_makes)?;
    reads(rt, alloc, &mut copy, LETTERS.as_bytes())?;
    edit_makes(rt, alloc, &mut copy, &mut pass, second, second_makes)?;
    let (_wrote, text) = first_makes;
    reads(rt, alloc, &mut value, text)?;
    value.release(&mut pass);
    copy.release(&mut pass);
    let all = ended(pass).expect(rt, "something is still out");
    let (slots, idle) = closed(heap, all);
    assert_eq!(rt; slots, idle, "slots and idle slots");
    Ok(())
}

#[test]
fn an_owner_keeps_its_text_at_an_edit_of_the_other(rt: HostRuntime) -> Result<(), Fail> {
    let alloc = rt.alloc();
    let (b, c) = ("aaaaaaaaaaaaaaaaaaaab", "aaaaaaaaaaaaaaaaaaaac");
    let last: (Option<(u64, u64)>, &[u8]) = (None, b"c");
    let written = (Wrote::InPlace, c.as_bytes());
    let copied = (Wrote::Copied, b.as_bytes());
    owners_are_edited(&rt, alloc, (None, b"b"), copied, last, written)?;
    let small: (Wrote, &[u8]) = (Wrote::Small, b"aaa");
    owners_are_edited(&rt, alloc, (Some((3, 20)), b""), small, last, written)
}

fn learned_with<'h, L: Ledger>(
    value: &mut Str<'h>,
    pass: &mut StrPass<'h>,
    unit: u64,
    blank: Blank,
) -> (Learned, u64)
    requires name { blank.name ≡ L.name }
    requires parts { blank.parts ≡ L.parts }
    requires one { blank.parts ≡ 1 }
    requires heap { OfHeap pass.old value.old.place }
    ensures one_heap { pass.new.heap ≡ pass.old.heap }
    ensures heap { OfHeap pass.new value.new.place }
{
    let mut steps = Steps::<L>::from_blank(blank);
    let learned = value.learn_crumbs(pass, &mut steps);
    match utf16::index_of_offset(value, unit, &mut steps) {
        Ok(index) => (learned, index.bits() / 65_536),
        Err(fault) => (learned, fault.high),
    }
}

/// What the value answers that is to learn its breadcrumbs, and the byte at which the UTF-16 unit with this number begins then.
fn learned<'h>(value: &mut Str<'h>, pass: &mut StrPass<'h>, unit: u64) -> (Learned, u64)
    requires heap { OfHeap pass.old value.old.place }
    ensures one_heap { pass.new.heap ≡ pass.old.heap }
    ensures heap { OfHeap pass.new value.new.place }
{
    learned_with::<Brand>(value, pass, unit, Blank::new(1))
}

/// A hundred times U+00E9, of which the first becomes a pair.
#[tactic(auto, using(value_heaps::proofs::Moving::of_heap_moves))]
#[test]
fn breadcrumbs_are_those_of_the_new_text(rt: HostRuntime) -> Result<(), Fail> {
    let alloc = rt.alloc();
    let accented = "éééééééééééééééééééé";
    let mut text = String::new(alloc);
    for _ in 0..5 {
        text.push_str(accented)?;
    }
    let (heap, all) = heap_of(&rt, alloc, 2)?;
    let mut pass = heap.pass(all);
    let mut value = Str::from_utf8(alloc, &mut pass, text.as_bytes())?;
    let before = learned(&mut value, &mut pass, 70);
    assert_eq!(rt; before, (Learned::Known, 140));
    assert!(rt; value.crumbs_known());
    let first = (at(0, UTF8), at(2, UTF8));
    let wrote = replaced(&rt, alloc, &mut value, &mut pass, first, "😀".as_bytes())?;
    assert_eq!(rt; (wrote, value.crumbs_known()), (Wrote::InPlace, false));
    let after = learned(&mut value, &mut pass, 71);
    assert_eq!(rt; after, (Learned::Known, 142));
    assert!(rt; value.crumbs_known());
    value.release(&mut pass);
    let all = ended(pass).expect(&rt, "something is still out");
    let (slots, idle) = closed(heap, all);
    assert_eq!(rt; slots, idle, "slots and idle slots");
    Ok(())
}

const OLD: [u8; 40] = *b"abcdefghijklmnopqrstuvwxyz0123456789ABCD";

const OLD_MIXED: [u8; 40] = *b"abcdefghijklmnopqrstuvwxyz012345678\xC3\xBCBCD";

const NEW: [u8; 17] = *b"ABCDEFGHIJKLMNOPQ";

const NEW_MIXED: [u8; 17] = *b"\xC3\x84CDEFGHIJKLMNOPQ";

/// The plain program: a vector with other bytes in place of a part.
fn plain(
    alloc: Global,
    old: &[u8],
    low: usize,
    high: usize,
    with: &[u8],
) -> Result<Vec<u8>, AllocError>
    requires order { low ≤ high }
    requires inside { high ≤ length old.now }
{
    let mut new = Vec::from_slice(alloc, &old[..low])?;
    new.extend_from_slice(with)?;
    new.extend_from_slice(&old[high..])?;
    Ok(new)
}

/// An edit of a value that is its slot's only holder, or shares it, is the plain one, and stands where it is to. The other keeps its text.
#[tactic(auto, using(value_heaps::proofs::Moving::of_heap_moves))]
fn edit_agrees(
    rt: &impl Abort,
    alloc: Global,
    texts: (&[u8], &[u8]),
    part: (u64, u64),
    with: &[u8],
    shared: bool,
) -> Result<(), Fail> {
    let (old, new) = texts;
    let (heap, all) = heap_of(rt, alloc, 2)?;
    let mut pass = heap.pass(all);
    let mut value = Str::from_utf8(alloc, &mut pass, old)?;
    let mut copy = value.copy(alloc, &mut pass)?;
    if shared {
        let wanted = (Wrote::Copied, new);
        edit_makes(rt, alloc, &mut value, &mut pass, (Some(part), with), wanted)?;
        reads(rt, alloc, &mut copy, old)?;
        copy.release(&mut pass);
        value.release(&mut pass);
    } else {
        copy.release(&mut pass);
        let wanted = (Wrote::InPlace, new);
        edit_makes(rt, alloc, &mut value, &mut pass, (Some(part), with), wanted)?;
        value.release(&mut pass);
    }
    let all = ended(pass).expect(rt, "something is still out");
    let (slots, idle) = closed(heap, all);
    assert_eq!(rt; slots, idle, "slots and idle slots");
    Ok(())
}

/// How many rows the table has: places 0 to 17, and 0 to 17 bytes out and in.
const ROWS: usize = 18 * 18 * 18;

/// One row of the table, over texts that are ASCII and that aren't.
fn row(rt: &impl Abort, alloc: Global, number: usize) -> Result<(), Fail> {
    let low = number % 18;
    let high = low + number / 18 % 18;
    let added = number / 324 % 18;
    let old = if number % 2 == 0 { OLD } else { OLD_MIXED };
    let with = if number % 5 == 0 && added != 1 {
        NEW_MIXED
    } else {
        NEW
    };
    let new = plain(alloc, &old, low, high, &with[..added])?;
    for shared in [false, true] {
        edit_agrees(
            rt,
            alloc,
            (&old, new.as_slice()),
            (low as u64, high as u64),
            &with[..added],
            shared,
        )?;
    }
    Ok(())
}

#[test]
fn edits_at_the_edges_of_words_agree_with_a_plain_program(rt: HostRuntime) -> Result<(), Fail> {
    for number in 0..ROWS {
        row(&rt, rt.alloc(), number)?;
    }
    Ok(())
}
