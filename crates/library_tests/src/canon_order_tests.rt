//! What no clause says: that answers are given where memory is ample, and what they are at texts worked out by hand. ASCII texts that
//! differ in one place are compared by the plain program too, which normalises both.
ghost use Rattle.std.specs.Prelude.{◌≡◌, IfOk};
ghost use Rattle.str_value.specs.Meaning.{OfHeap};

use crate::heaps::{SLOTS, heap_of};
use canon_order::{compare, equal, key};
use std::alloc::{AllocError, Global};
use std::cmp::Ordering;
use std::marker::Brand;
use std::process::Abort;
use std::sync::ledger::{Blank, Ledger};
use str_value::{MakeError, Str, StrPass};
use text_spec::OutOfMemory;
use unicode_normalization::to_nfc;
use value_heaps::{closed, ended};
use word_units::Steps;

/// Whether two values are equal, how they compare, and how their keys do.
type Answers = (bool, Ordering, Ordering);

fn answers_with<'h, L: Ledger>(
    alloc: Global,
    a: &mut Str<'h>,
    b: &mut Str<'h>,
    blank: Blank,
) -> Result<Answers, OutOfMemory>
    requires name { blank.name ≡ L.name }
    requires parts { blank.parts ≡ L.parts }
    requires one { blank.parts ≡ 1 }
    ensures kept { a.new ≡ a.old }
    ensures other_kept { b.new ≡ b.old }
{
    let mut steps = Steps::<L>::from_blank(blank);
    let same = equal(alloc, a, b, &mut steps)?;
    let order = compare(alloc, a, b, &mut steps)?;
    let left = key(alloc, a, &mut steps)?;
    let right = key(alloc, b, &mut steps)?;
    Ok((same, order, left.as_slice().cmp(right.as_slice())))
}

fn answers<'h>(alloc: Global, a: &mut Str<'h>, b: &mut Str<'h>) -> Result<Answers, OutOfMemory>
    ensures kept { a.new ≡ a.old }
    ensures other_kept { b.new ≡ b.old }
{
    answers_with::<Brand>(alloc, a, b, Blank::new(1))
}

fn key_with<L: Ledger>(alloc: Global, a: &mut Str, blank: Blank) -> Result<Vec<u8>, OutOfMemory>
    requires name { blank.name ≡ L.name }
    requires parts { blank.parts ≡ L.parts }
    requires one { blank.parts ≡ 1 }
    ensures { a.new ≡ a.old }
{
    let mut steps = Steps::<L>::from_blank(blank);
    key(alloc, a, &mut steps)
}

fn key_of(alloc: Global, a: &mut Str) -> Result<Vec<u8>, OutOfMemory>
    ensures { a.new ≡ a.old }
{
    key_with::<Brand>(alloc, a, Blank::new(1))
}

/// The value of a text, in UTF-8 or in UTF-16.
fn value_of<'h>(
    alloc: Global,
    pass: &mut StrPass<'h>,
    text: &str,
    units: bool,
) -> Result<Str<'h>, MakeError>
    ensures one_heap { pass.new.heap ≡ pass.old.heap }
    ensures heap { IfOk result (λ s. OfHeap pass.new s.place) }
{
    if units {
        let units: Vec<u16> = text.encode_utf16().collect(alloc)?;
        return Str::from_utf16(alloc, pass, units.as_slice());
    }
    Str::from_utf8(alloc, pass, text.as_bytes())
}

/// The pairs of storages: whether each of two values is made of UTF-16.
const STORAGES: [(bool, bool); 4] = [(false, false), (false, true), (true, false), (true, true)];

/// Two texts compare as wanted, both ways round, in one pair of storages, in a heap with so many slots.
#[tactic(auto, using(value_heaps::proofs::Moving::of_heap_moves))]
fn compare_in<A: Abort>(
    rt: &A,
    alloc: Global,
    slots: u32,
    storages: (bool, bool),
    texts: (&str, &str),
    wanted: Ordering,
) -> Result<(), MakeError> {
    let (a, b) = texts;
    let (heap, all) = heap_of(rt, alloc, slots)?;
    let mut pass = heap.pass(all);
    let mut a_value = value_of(alloc, &mut pass, a, storages.0)?;
    let mut b_value = value_of(alloc, &mut pass, b, storages.1)?;
    let there = answers(alloc, &mut a_value, &mut b_value)?;
    let back = answers(alloc, &mut b_value, &mut a_value)?;
    let same = wanted == Ordering::Equal;
    assert_eq!(rt; there, (same, wanted, wanted), "{a} {b}");
    assert_eq!(rt; back, (same, wanted.reverse(), wanted.reverse()), "{b} {a}");
    a_value.release(&mut pass);
    b_value.release(&mut pass);
    let all = ended(pass).expect(rt, "something is still out");
    let (slots, idle) = closed(heap, all);
    assert_eq!(rt; slots, idle, "slots and idle slots");
    Ok(())
}

/// The same in each pair of storages, in slots and outside of them.
fn compare_as<A: Abort>(
    rt: &A,
    alloc: Global,
    a: &str,
    b: &str,
    wanted: Ordering,
) -> Result<(), MakeError> {
    for slots in SLOTS {
        for storages in STORAGES {
            compare_in(rt, alloc, slots, storages, (a, b), wanted)?;
        }
    }
    Ok(())
}

#[test]
fn texts_compare_by_their_forms(rt: HostRuntime) -> Result<(), MakeError> {
    let rows = [
        ("e\u{301}", "\u{E9}", Ordering::Equal),
        ("e\u{301}", "f", Ordering::Greater),
        ("f", "f", Ordering::Equal),
        ("\u{1100}\u{1161}", "\u{AC00}", Ordering::Equal),
        ("\u{1100}\u{1161}\u{11A8}", "\u{AC01}", Ordering::Equal),
        ("a\u{323}\u{307}", "a\u{307}\u{323}", Ordering::Equal),
        ("q\u{323}\u{307}", "q\u{307}\u{323}", Ordering::Equal),
        ("\u{212B}", "\u{C5}", Ordering::Equal),
        (
            "\u{212B}ngstr\u{F6}m",
            "A\u{30A}ngstro\u{308}m",
            Ordering::Equal,
        ),
        ("", "", Ordering::Equal),
        ("", "a", Ordering::Less),
        ("", "\u{E9}", Ordering::Less),
        ("ab", "abc", Ordering::Less),
        ("\u{E9}", "\u{E9}a", Ordering::Less),
        ("a\u{300}", "a\u{301}", Ordering::Less),
        ("z", "\u{E9}", Ordering::Less),
        ("\u{FF5E}", "\u{10000}", Ordering::Less),
        ("\u{7FF}", "\u{800}", Ordering::Less),
        ("\u{10000}", "\u{10001}", Ordering::Less),
        (
            "the same eighteen e\u{301}",
            "the same eighteen \u{E9}",
            Ordering::Equal,
        ),
    ];
    for (a, b, wanted) in rows {
        compare_as(&rt, rt.alloc(), a, b, wanted)?;
    }
    Ok(())
}

#[tactic(auto, using(value_heaps::proofs::Moving::of_heap_moves))]
fn key_is<A: Abort>(
    rt: &A,
    alloc: Global,
    slots: u32,
    text: &str,
    units: bool,
    wanted: &[u8],
) -> Result<(), MakeError> {
    let (heap, all) = heap_of(rt, alloc, slots)?;
    let mut pass = heap.pass(all);
    let mut value = value_of(alloc, &mut pass, text, units)?;
    let bytes = key_of(alloc, &mut value)?;
    assert_eq!(rt; bytes.as_slice(), wanted, "{text}");
    value.release(&mut pass);
    Ok(())
}

#[test]
fn keys_are_the_bytes_of_the_forms(rt: HostRuntime) -> Result<(), MakeError> {
    let rows: [(&str, &[u8]); 6] = [
        ("e\u{301}", &[0xC3, 0xA9]),
        ("", &[]),
        ("abcdefghijklmnopq", b"abcdefghijklmnopq"),
        ("\u{212B}", &[0xC3, 0x85]),
        ("\u{1100}\u{1161}", &[0xEA, 0xB0, 0x80]),
        ("a\u{307}\u{323}", &[0xE1, 0xBA, 0xA1, 0xCC, 0x87]),
    ];
    for (text, wanted) in rows {
        for units in [false, true] {
            for slots in SLOTS {
                key_is(&rt, rt.alloc(), slots, text, units, wanted)?;
            }
        }
    }
    Ok(())
}

#[tactic(auto, using(value_heaps::proofs::Moving::of_heap_moves))]
#[test]
fn a_lone_surrogate_is_equal_to_its_repair(rt: HostRuntime) -> Result<(), MakeError> {
    let (heap, all) = heap_of(&rt, rt.alloc(), 4)?;
    let mut pass = heap.pass(all);
    let mut a = Str::from_utf16(rt.alloc(), &mut pass, &[0x61, 0xD800])?;
    let mut b = value_of(rt.alloc(), &mut pass, "a\u{FFFD}", false)?;
    let there = answers(rt.alloc(), &mut a, &mut b)?;
    assert_eq!(rt; there, (true, Ordering::Equal, Ordering::Equal));
    a.release(&mut pass);
    b.release(&mut pass);
    Ok(())
}

/// The plain program: both texts in the form, compared a scalar at a time.
fn plain_order(alloc: Global, a: &str, b: &str) -> Result<Ordering, AllocError> {
    let left = to_nfc(alloc, a)?;
    let right = to_nfc(alloc, b)?;
    let left: Vec<char> = left.chars().collect(alloc)?;
    let right: Vec<char> = right.chars().collect(alloc)?;
    Ok(left.as_slice().cmp(right.as_slice()))
}

/// An ASCII text that is greater than the one of `m` alone at a place, and less at each one behind it.
fn changed(alloc: Global, length: usize, place: usize) -> Result<String, AllocError> {
    let mut text = String::new(alloc);
    for k in 0..length {
        text.push(match k.cmp(&place) {
            Ordering::Less => 'm',
            Ordering::Equal => 'n',
            Ordering::Greater => 'a',
        })?;
    }
    Ok(text)
}

#[test]
fn ascii_texts_compare_by_the_first_place_that_differs(rt: HostRuntime) -> Result<(), MakeError> {
    for length in [0, 7, 8, 9, 15, 16, 17, 100] {
        let same = changed(rt.alloc(), length, length)?;
        let longer = changed(rt.alloc(), length + 1, length + 1)?;
        compare_as(
            &rt,
            rt.alloc(),
            same.as_str(),
            same.as_str(),
            Ordering::Equal,
        )?;
        compare_as(
            &rt,
            rt.alloc(),
            same.as_str(),
            longer.as_str(),
            Ordering::Less,
        )?;
        for place in 0..length {
            let other = changed(rt.alloc(), length, place)?;
            let wanted = plain_order(rt.alloc(), same.as_str(), other.as_str())?;
            assert_eq!(rt; wanted, Ordering::Less, "{place} of {length}");
            compare_as(&rt, rt.alloc(), same.as_str(), other.as_str(), wanted)?;
            compare_as(&rt, rt.alloc(), longer.as_str(), other.as_str(), wanted)?;
        }
    }
    Ok(())
}
