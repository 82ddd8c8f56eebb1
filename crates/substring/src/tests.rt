//! What no clause says: that slices and their values are made where memory is ample, and what they are at texts written out by hand.
ghost use Rattle.std.specs.Prelude.{◌≡◌, IfOk};
ghost use Rattle.str_value.specs.Meaning.{OfHeap};

use crate::{SliceError, Sub, slice};
use char_view::characters;
use index_words::Index;
use object_words::Form;
use std::alloc::Global;
use std::marker::Brand;
use std::process::Abort;
use std::sync::ledger::{Blank, Ledger};
use str_value::{MakeError, Str, StrPass};
use text_spec::{OutOfMemory, TextList};
use unit_views::{scalars, utf8};
use utf16_view::utf16;
use value_heaps::{StrHeap, StrWhole, closed, ended, layout, opened};
use word_units::{Steps, Text};

/// The mark of an index for UTF-8 alone, in an index word.
const BYTES: u64 = 4;

/// The mark of an index for UTF-16 alone.
const UNITS: u64 = 8;

/// The word of an index at a position, with a mark.
fn word_of(position: u64, mark: u64) -> u64 {
    position.wrapping_mul(65536).wrapping_add(mark)
}

/// What a base is made of.
#[derive(Clone, Copy)]
pub(crate) enum Source<'a> {
    Utf8(&'a str),
    Utf16(&'a [u16]),
}

/// How many slots the heaps of these tests have: none, so that a value is Small or Owned, or as many as it takes.
pub(crate) const SLOTS: [u32; 2] = [0, 4];

pub(crate) fn heap_of<A: Abort>(
    rt: &A,
    alloc: Global,
    slots: u32,
) -> Result<(StrHeap, StrWhole), OutOfMemory>
    ensures { IfOk result (λ t. t.1.heap ≡ t.0) }
{
    Ok(opened(alloc, &layout(slots, 32, 8), &TextList::new(alloc)).expect(rt, "a heap"))
}

pub(crate) fn base_of<'h>(
    alloc: Global,
    pass: &mut StrPass<'h>,
    source: Source,
) -> Result<Str<'h>, MakeError>
    ensures one_heap { pass.new.heap ≡ pass.old.heap }
    ensures heap { IfOk result (λ s. OfHeap pass.new s.place) }
{
    match source {
        Source::Utf8(text) => Str::from_utf8(alloc, pass, text.as_bytes()),
        Source::Utf16(units) => Str::from_utf16(alloc, pass, units),
    }
}

fn cut_with<'h, L: Ledger>(
    alloc: Global,
    base: &mut Str<'h>,
    pass: &mut StrPass<'h>,
    a: Index,
    b: Index,
    blank: Blank,
) -> Result<Sub<'h>, SliceError>
    requires name { blank.name ≡ L.name }
    requires parts { blank.parts ≡ L.parts }
    requires one { blank.parts ≡ 1 }
    requires heap { OfHeap pass.old base.old.place }
    ensures one_heap { pass.new.heap ≡ pass.old.heap }
    ensures heap { IfOk result (λ sub. OfHeap pass.new sub.base.place) }
    ensures still { OfHeap pass.new base.new.place }
{
    let mut steps = Steps::<L>::from_blank(blank);
    slice(alloc, base, pass, a, b, &mut steps)
}

/// The slice between two indices, given as words.
pub(crate) fn cut<'h, A: Abort>(
    rt: &A,
    alloc: Global,
    base: &mut Str<'h>,
    pass: &mut StrPass<'h>,
    words: (u64, u64),
) -> Result<Sub<'h>, SliceError>
    requires heap { OfHeap pass.old base.old.place }
    ensures one_heap { pass.new.heap ≡ pass.old.heap }
    ensures heap { IfOk result (λ sub. OfHeap pass.new sub.base.place) }
    ensures still { OfHeap pass.new base.new.place }
{
    let a = Index::check(words.0).expect(rt, "an index");
    let b = Index::check(words.1).expect(rt, "an index");
    cut_with::<Brand>(alloc, base, pass, a, b, Blank::new(1))
}

/// The UTF-8 of a whole value.
fn whole(alloc: Global, value: &mut Str) -> Result<Vec<u8>, OutOfMemory>
    ensures { value.new ≡ value.old }
{
    let (low, high) = (value.low(), value.high());
    value.copy_utf8(alloc, low, high)
}

/// A slice's text as a value: its form and its UTF-8.
#[tactic(auto, using(value_heaps::proofs::Moving::of_heap_moves))]
fn reads<'h, A: Abort>(
    rt: &A,
    alloc: Global,
    pass: &mut StrPass<'h>,
    mut sub: Sub<'h>,
    form: Form,
    text: &str,
) -> Result<(), MakeError>
    requires { OfHeap pass.old sub.base.place }
    ensures { pass.new.heap ≡ pass.old.heap }
{
    let mut value = sub.to_str(alloc, pass)?;
    sub.release(pass);
    assert_eq!(rt; value.form(), form, "{text}");
    let bytes = whole(alloc, &mut value)?;
    assert_eq!(rt; bytes.as_slice(), text.as_bytes(), "{text}");
    value.release(pass);
    Ok(())
}

/// Two index words, and the text of the slice between them.
type Cut<'a> = (u64, u64, &'a str);

#[tactic(auto, using(value_heaps::proofs::Moving::of_heap_moves))]
fn cut_reads<'h, A: Abort>(
    rt: &A,
    alloc: Global,
    base: &mut Str<'h>,
    pass: &mut StrPass<'h>,
    row: Cut,
) -> Result<(), MakeError>
    requires { OfHeap pass.old base.old.place }
    ensures one_heap { pass.new.heap ≡ pass.old.heap }
    ensures still { OfHeap pass.new base.new.place }
{
    let (a, b, text) = row;
    match cut(rt, alloc, base, pass, (a, b)) {
        Ok(sub) => reads(rt, alloc, pass, sub, Form::Small, text),
        Err(fault) => {
            assert!(rt; false, "{a} to {b}: {fault:?}");
            Ok(())
        }
    }
}

#[tactic(auto, using(value_heaps::proofs::Moving::of_heap_moves))]
fn cut_is<A: Abort>(
    rt: &A,
    alloc: Global,
    slots: u32,
    source: Source,
    row: Cut,
) -> Result<(), MakeError> {
    let (heap, all) = heap_of(rt, alloc, slots)?;
    let mut pass = heap.pass(all);
    let mut base = base_of(alloc, &mut pass, source)?;
    cut_reads(rt, alloc, &mut base, &mut pass, row)?;
    base.release(&mut pass);
    let all = ended(pass).expect(rt, "something is still out");
    let (slots, idle) = closed(heap, all);
    assert_eq!(rt; slots, idle, "slots and idle slots");
    Ok(())
}

fn cuts_are<A: Abort>(
    rt: &A,
    alloc: Global,
    source: Source,
    rows: &[Cut],
) -> Result<(), MakeError> {
    for slots in SLOTS {
        for row in rows {
            cut_is(rt, alloc, slots, source, *row)?;
        }
    }
    Ok(())
}

/// Two index words, and what refuses them: the numbers of the index that is out of bounds, or none where they are reversed.
type Refusal = (u64, u64, Option<(u64, u64, u64)>);

/// The numbers of an index that is out of bounds, and the words of two indices that are reversed.
fn told(fault: SliceError) -> (Option<(u64, u64, u64)>, Option<(u64, u64)>) {
    match fault {
        SliceError::OutOfBounds(out) => (Some((out.position, out.low, out.high)), None),
        SliceError::Reversed { a, b } => (None, Some((a.bits(), b.bits()))),
        SliceError::OutOfMemory => (None, None),
    }
}

fn refused<'h, A: Abort>(
    rt: &A,
    alloc: Global,
    base: &mut Str<'h>,
    pass: &mut StrPass<'h>,
    row: Refusal,
)
    requires { OfHeap pass.old base.old.place }
    ensures one_heap { pass.new.heap ≡ pass.old.heap }
    ensures still { OfHeap pass.new base.new.place }
{
    let (first, second, wanted) = row;
    match cut(rt, alloc, base, pass, (first, second)) {
        Ok(_sub) => assert!(rt; false, "{first} to {second} gave a slice"),
        Err(fault) => {
            let reversed = match wanted {
                Some(_) => None,
                None => Some((first, second)),
            };
            assert_eq!(rt; told(fault), (wanted, reversed), "{first} to {second}");
        }
    }
}

#[tactic(auto, using(value_heaps::proofs::Moving::of_heap_moves))]
fn refusal_is<A: Abort>(
    rt: &A,
    alloc: Global,
    slots: u32,
    source: Source,
    row: Refusal,
) -> Result<(), MakeError> {
    let (heap, all) = heap_of(rt, alloc, slots)?;
    let mut pass = heap.pass(all);
    let mut base = base_of(alloc, &mut pass, source)?;
    refused(rt, alloc, &mut base, &mut pass, row);
    base.release(&mut pass);
    let all = ended(pass).expect(rt, "something is still out");
    let (slots, idle) = closed(heap, all);
    assert_eq!(rt; slots, idle, "slots and idle slots");
    Ok(())
}

fn refusals_are<A: Abort>(
    rt: &A,
    alloc: Global,
    source: Source,
    rows: &[Refusal],
) -> Result<(), MakeError> {
    for slots in SLOTS {
        for row in rows {
            refusal_is(rt, alloc, slots, source, *row)?;
        }
    }
    Ok(())
}

#[test]
fn a_slice_ends_at_scalar_boundaries_in_order(rt: HostRuntime) -> Result<(), MakeError> {
    cuts_are(
        &rt,
        rt.alloc(),
        Source::Utf8("abc"),
        &[
            (65540, 65540, ""),
            (4, 196612, "abc"),
            (65540, 131076, "b"),
            (196616, 196612, ""),
            (0, 131084, "ab"),
        ],
    )?;
    refusals_are(
        &rt,
        rt.alloc(),
        Source::Utf8("abc"),
        &[
            (131076, 65540, None),
            // Marks and strides are handed back as they came.
            (131853, 65801, None),
            (4, 262148, Some((4, 0, 3))),
            (262152, 4, Some((4, 0, 3))),
            (327684, 262148, Some((5, 0, 3))),
        ],
    )
}

#[test]
fn places_in_a_scalar_are_rounded_down_before_they_are_compared(
    rt: HostRuntime,
) -> Result<(), MakeError> {
    let units = [0xE9, 0xD83D, 0xDE00];
    let units = Source::Utf16(&units);
    cuts_are(
        &rt,
        rt.alloc(),
        Source::Utf8("é😀"),
        &[
            (65540, 262148, "é"),
            (262148, 131076, ""),
            (8, 131080, "é"),
            (131080, 196616, "😀"),
        ],
    )?;
    refusals_are(
        &rt,
        rt.alloc(),
        Source::Utf8("é😀"),
        &[
            (327684, 65540, None),
            (4, 458756, Some((7, 0, 6))),
            (4, 262152, Some((4, 0, 3))),
        ],
    )?;
    cuts_are(
        &rt,
        rt.alloc(),
        units,
        &[
            (8, 131080, "é"),
            (131080, 65544, ""),
            (4, 262148, "é"),
            (131076, 393220, "😀"),
        ],
    )?;
    refusals_are(
        &rt,
        rt.alloc(),
        units,
        &[
            (196616, 131080, None),
            (8, 262152, Some((4, 0, 3))),
            (458756, 8, Some((7, 0, 6))),
        ],
    )
}

/// How many scalars, bytes, units and Characters a slice has.
type Counts = (u64, u64, u64, u64);

fn counts_with<L: Ledger>(sub: &mut Sub, blank: Blank) -> Counts
    requires name { blank.name ≡ L.name }
    requires parts { blank.parts ≡ L.parts }
    requires one { blank.parts ≡ 1 }
    ensures { sub.new ≡ sub.old }
{
    let mut steps = Steps::<L>::from_blank(blank);
    (
        scalars::count(sub, &mut steps),
        utf8::count(sub, &mut steps),
        utf16::count(sub, &mut steps),
        characters::count(sub, &mut steps),
    )
}

fn counts(sub: &mut Sub) -> Counts
    ensures { sub.new ≡ sub.old }
{
    counts_with::<Brand>(sub, Blank::new(1))
}

/// The slices of "aé€😀b" between each two of its boundaries, by their numbers: text, scalars, bytes and units.
const SLICES: [(usize, usize, &str, (u64, u64, u64)); 21] = [
    (0, 0, "", (0, 0, 0)),
    (0, 1, "a", (1, 1, 1)),
    (0, 2, "aé", (2, 3, 2)),
    (0, 3, "aé€", (3, 6, 3)),
    (0, 4, "aé€😀", (4, 10, 5)),
    (0, 5, "aé€😀b", (5, 11, 6)),
    (1, 1, "", (0, 0, 0)),
    (1, 2, "é", (1, 2, 1)),
    (1, 3, "é€", (2, 5, 2)),
    (1, 4, "é€😀", (3, 9, 4)),
    (1, 5, "é€😀b", (4, 10, 5)),
    (2, 2, "", (0, 0, 0)),
    (2, 3, "€", (1, 3, 1)),
    (2, 4, "€😀", (2, 7, 3)),
    (2, 5, "€😀b", (3, 8, 4)),
    (3, 3, "", (0, 0, 0)),
    (3, 4, "😀", (1, 4, 2)),
    (3, 5, "😀b", (2, 5, 3)),
    (4, 4, "", (0, 0, 0)),
    (4, 5, "b", (1, 1, 1)),
    (5, 5, "", (0, 0, 0)),
];

/// The slice of a row of them, which begins and ends at these places.
fn slice_reads<'h, A: Abort>(
    rt: &A,
    alloc: Global,
    base: &mut Str<'h>,
    pass: &mut StrPass<'h>,
    ends: (u64, u64),
    row: (usize, usize, &str, (u64, u64, u64)),
    mark: u64,
) -> Result<(), MakeError>
    requires { OfHeap pass.old base.old.place }
    ensures one_heap { pass.new.heap ≡ pass.old.heap }
{
    let (low, high) = ends;
    let (_first, _end, text, (scalars, bytes, units)) = row;
    match cut(
        rt,
        alloc,
        base,
        pass,
        (word_of(low, mark), word_of(high, mark)),
    ) {
        Ok(mut sub) => {
            assert_eq!(rt; (sub.low(), sub.high()), (low, high), "{text}");
            assert_eq!(rt;
                counts(&mut sub),
                (scalars, bytes, units, scalars),
                "{text}"
            );
            reads(rt, alloc, pass, sub, Form::Small, text)
        }
        Err(fault) => {
            assert!(rt; false, "{text}: {fault:?}");
            Ok(())
        }
    }
}

fn all_slices_are<A: Abort>(
    rt: &A,
    alloc: Global,
    slots: u32,
    source: Source,
    places: &[u64],
    mark: u64,
) -> Result<(), MakeError> {
    for row in &SLICES {
        let low = *places.get(row.0).expect(rt, "a boundary");
        let high = *places.get(row.1).expect(rt, "a boundary");
        let (heap, all) = heap_of(rt, alloc, slots)?;
        let mut pass = heap.pass(all);
        let mut base = base_of(alloc, &mut pass, source)?;
        slice_reads(rt, alloc, &mut base, &mut pass, (low, high), *row, mark)?;
    }
    Ok(())
}

#[test]
fn each_slice_is_a_text_of_its_own(rt: HostRuntime) -> Result<(), MakeError> {
    let alloc = rt.alloc();
    let units = [0x61, 0xE9, 0x20AC, 0xD83D, 0xDE00, 0x62];
    for slots in SLOTS {
        let text = Source::Utf8("aé€😀b");
        all_slices_are(&rt, alloc, slots, text, &[0, 1, 3, 6, 10, 11], BYTES)?;
        let text = Source::Utf16(&units);
        all_slices_are(&rt, alloc, slots, text, &[0, 1, 2, 3, 5, 6], UNITS)?;
    }
    Ok(())
}

/// Two index words, the form of the slice's value, its text, and whether its storage is marked ASCII.
type Left<'a> = ((u64, u64), Form, &'a str, bool);

/// A slice is read after its base was given up. Whether its base has the two words that the value had, and how many credits it took.
#[tactic(auto, using(value_heaps::proofs::Moving::of_heap_moves))]
fn outlives<A: Abort>(
    rt: &A,
    alloc: Global,
    slots: u32,
    source: Source,
    row: Left,
) -> Result<(bool, u32), MakeError> {
    let (words, form, text, ascii) = row;
    let (heap, all) = heap_of(rt, alloc, slots)?;
    let mut pass = heap.pass(all);
    let mut base = base_of(alloc, &mut pass, source)?;
    let object = base.object();
    let before = pass.credits();
    let sub = match cut(rt, alloc, &mut base, &mut pass, words) {
        Ok(sub) => sub,
        Err(_) => return Ok((false, 0)),
    };
    let taken = before.wrapping_sub(pass.credits());
    base.release(&mut pass);
    let left = sub.base().object();
    assert_eq!(rt; sub.ascii(), ascii, "{text}");
    reads(rt, alloc, &mut pass, sub, form, text)?;
    let all = ended(pass).expect(rt, "something is still out");
    let (slots, idle) = closed(heap, all);
    assert_eq!(rt; slots, idle, "slots and idle slots");
    Ok(((left.w0(), left.w1()) == (object.w0(), object.w1()), taken))
}

#[test]
fn a_slice_outlives_its_base(rt: HostRuntime) -> Result<(), MakeError> {
    let alloc = rt.alloc();
    let text = Source::Utf8("aaaaaaaaaaaaaaaaéb");
    let words = (4, word_of(17, BYTES));
    let front = "aaaaaaaaaaaaaaaa";
    let apart = outlives(&rt, alloc, 0, text, (words, Form::Owned, front, false))?;
    assert_eq!(rt; apart, (true, 0));
    let shared = outlives(&rt, alloc, 4, text, (words, Form::Native, front, false))?;
    assert_eq!(rt; shared, (true, 1));
    let units = [97, 0xD800, 0xDC00, 0xDC00];
    let words = (word_of(1, UNITS), word_of(4, UNITS));
    let end = "\u{10000}\u{FFFD}";
    for (slots, taken) in [(0, 0), (4, 1)] {
        let left = outlives(
            &rt,
            alloc,
            slots,
            Source::Utf16(&units),
            (words, Form::Small, end, false),
        )?;
        assert_eq!(rt; left, (true, taken));
    }
    Ok(())
}

/// The two words of the base that a slice holds are those of a value in a vector.
#[test]
fn a_slice_without_slots_has_an_owned_base(rt: HostRuntime) -> Result<(), MakeError> {
    let alloc = rt.alloc();
    let (heap, all) = heap_of(&rt, alloc, 0)?;
    let mut pass = heap.pass(all);
    let mut base = base_of(alloc, &mut pass, Source::Utf8("aaaaaaaaaaaaaaaaéb"))?;
    match cut(&rt, alloc, &mut base, &mut pass, (4, word_of(17, BYTES))) {
        Ok(sub) => {
            let object = sub.base().object();
            assert_eq!(rt; (object.w0(), object.w1()), (19, 0x2000_0000_0000_0000));
        }
        Err(fault) => assert!(rt; false, "{fault:?}"),
    }
    Ok(())
}
