//! What no clause says: that edits find memory, and what they answer at texts written out by hand and beside a plain program.
ghost use Rattle.std.specs.Prelude.{◌≡◌, IfOk};
ghost use Rattle.str_value.specs.Meaning.{OfHeap};

use crate::heaps::{SLOTS, heap_of, whole};
use edit_cow::{EditError, Wrote, append, replace, reserve};
use index_words::Index;
use object_words::{Form, Object};
use std::alloc::{AllocError, Global};
use std::marker::Brand;
use std::process::Abort;
use std::sync::ledger::{Blank, Ledger};
use std::test::Fail;
use str_value::{MakeError, Str, StrPass};
use value_heaps::{closed, ended};
use word_units::{OutOfBounds, Steps};

/// The bits of an index word that say in which units its position is read.
pub(crate) const UTF8: u64 = 4;

const UTF16: u64 = 8;

fn replaced_with<'h, L: Ledger>(
    alloc: Global,
    value: &mut Str<'h>,
    pass: &mut StrPass<'h>,
    a: Index,
    b: Index,
    with: &[u8],
    blank: Blank,
) -> Result<Wrote, EditError>
    requires name { blank.name ≡ L.name }
    requires parts { blank.parts ≡ L.parts }
    requires one { blank.parts ≡ 1 }
    requires heap { OfHeap pass.old value.old.place }
    ensures one_heap { pass.new.heap ≡ pass.old.heap }
    ensures heap { OfHeap pass.new value.new.place }
{
    let mut steps = Steps::<L>::from_blank(blank);
    replace(alloc, value, pass, a, b, with, &mut steps)
}

/// `replace` with two index words.
pub(crate) fn replaced<'h>(
    rt: &impl Abort,
    alloc: Global,
    value: &mut Str<'h>,
    pass: &mut StrPass<'h>,
    words: (u64, u64),
    with: &[u8],
) -> Result<Wrote, EditError>
    requires heap { OfHeap pass.old value.old.place }
    ensures one_heap { pass.new.heap ≡ pass.old.heap }
    ensures heap { OfHeap pass.new value.new.place }
{
    let a = Index::check(words.0).expect(rt, "the first is an index");
    let b = Index::check(words.1).expect(rt, "the second is an index");
    replaced_with::<Brand>(alloc, value, pass, a, b, with, Blank::new(1))
}

fn appended_with<'h, L: Ledger>(
    alloc: Global,
    value: &mut Str<'h>,
    pass: &mut StrPass<'h>,
    with: &[u8],
    blank: Blank,
) -> Result<Wrote, EditError>
    requires name { blank.name ≡ L.name }
    requires parts { blank.parts ≡ L.parts }
    requires one { blank.parts ≡ 1 }
    requires heap { OfHeap pass.old value.old.place }
    ensures one_heap { pass.new.heap ≡ pass.old.heap }
    ensures heap { OfHeap pass.new value.new.place }
{
    let mut steps = Steps::<L>::from_blank(blank);
    append(alloc, value, pass, with, &mut steps)
}

/// `append`.
pub(crate) fn appended<'h>(
    alloc: Global,
    value: &mut Str<'h>,
    pass: &mut StrPass<'h>,
    with: &[u8],
) -> Result<Wrote, EditError>
    requires heap { OfHeap pass.old value.old.place }
    ensures one_heap { pass.new.heap ≡ pass.old.heap }
    ensures heap { OfHeap pass.new value.new.place }
{
    appended_with::<Brand>(alloc, value, pass, with, Blank::new(1))
}

/// What a value is made of.
#[derive(Clone, Copy)]
enum Source<'a> {
    Utf8(&'a [u8]),
    Utf16(&'a [u16]),
}

fn value_of<'h>(alloc: Global, pass: &mut StrPass<'h>, source: Source) -> Result<Str<'h>, MakeError>
    ensures one_heap { pass.new.heap ≡ pass.old.heap }
    ensures heap { IfOk result (λ s. OfHeap pass.new s.place) }
{
    match source {
        Source::Utf8(bytes) => Str::from_utf8(alloc, pass, bytes),
        Source::Utf16(units) => Str::from_utf16(alloc, pass, units),
    }
}

/// A value has the text. It has the form and the two words of one that is made of it, but that two values in slots have each a slot of its
/// own, and that a short text stays in the slot that it is written in.
fn stands_as<'h>(
    rt: &impl Abort,
    alloc: Global,
    value: &mut Str<'h>,
    pass: &mut StrPass<'h>,
    wrote: Wrote,
    text: &str,
) -> Result<(), Fail>
    ensures one_heap { pass.new.heap ≡ pass.old.heap }
    ensures value { value.new ≡ value.old }
{
    let bytes = whole(alloc, value)?;
    assert_eq!(rt; bytes.as_slice(), text.as_bytes(), "{text}");
    if wrote == Wrote::InPlace && text.len() <= 15 {
        let all = text.is_ascii();
        let in_slot = Object::native(all, all, text.len() as u64, 0);
        assert_eq!(rt; value.form(), Form::Native, "{text}");
        assert_eq!(rt; value.object().w0(), in_slot.w0(), "{text}");
        return Ok(());
    }
    let fresh = Str::from_utf8(alloc, pass, text.as_bytes())?;
    let (is, wanted) = (value.object(), fresh.object());
    assert_eq!(rt; is.w0(), wanted.w0(), "{text}");
    let apart = value.form() == Form::Native;
    assert_eq!(rt; is.w1() != wanted.w1(), apart, "{text}");
    assert_eq!(rt; value.form(), fresh.form(), "{text}");
    fresh.release(pass);
    Ok(())
}

/// Where a text stands that a value of this form, which shares its slot with nobody, is edited to in a heap with so many slots.
fn where_it_stands(form: Form, text: &str, slots: u32) -> Wrote {
    if form == Form::Native && text.len() <= 248 {
        Wrote::InPlace
    } else if text.len() <= 15 {
        Wrote::Small
    } else if slots > 0 {
        Wrote::Copied
    } else {
        Wrote::Owned
    }
}

/// A value, two index words, what is put between them, and the text then.
type Row<'a> = (Source<'a>, (u64, u64), &'a str, &'a str);

/// An edit in a heap with so many slots. The value knows that it is the only holder of its slot then, and all slots are idle in the end.
#[tactic(auto, using(value_heaps::proofs::Moving::of_heap_moves))]
fn edit_is(rt: &impl Abort, alloc: Global, slots: u32, row: Row) -> Result<(), Fail> {
    let (source, words, with, wanted) = row;
    let (heap, all) = heap_of(rt, alloc, slots)?;
    let mut pass = heap.pass(all);
    let mut value = value_of(alloc, &mut pass, source)?;
    let form = value.form();
    let wrote = replaced(rt, alloc, &mut value, &mut pass, words, with.as_bytes())?;
    assert_eq!(rt;
        wrote,
        where_it_stands(form, wanted, slots),
        "{with} makes {wanted}"
    );
    stands_as(rt, alloc, &mut value, &mut pass, wrote, wanted)?;
    assert_eq!(rt;
        value.known_sole(),
        value.form() == Form::Native,
        "{wanted}"
    );
    let reserved = reserve(&mut value, &mut pass);
    assert_eq!(rt; reserved, slots > 0, "{wanted}");
    let is = (value.form() == Form::Native, value.known_sole());
    assert_eq!(rt; is, (reserved, reserved), "{wanted}");
    let bytes = whole(alloc, &mut value)?;
    assert_eq!(rt; bytes.as_slice(), wanted.as_bytes(), "{wanted}");
    value.release(&mut pass);
    let all = ended(pass).expect(rt, "something is still out");
    let (slots, idle) = closed(heap, all);
    assert_eq!(rt; slots, idle, "slots and idle slots");
    Ok(())
}

fn edits_are(rt: &impl Abort, alloc: Global, row: Row) -> Result<(), Fail> {
    for slots in SLOTS {
        edit_is(rt, alloc, slots, row)?;
    }
    Ok(())
}

/// The index word of a position whose unit has this mark.
pub(crate) fn at(position: u64, mark: u64) -> u64 {
    position.saturating_mul(65_536).saturating_add(mark)
}

#[test]
fn what_lies_between_two_indices_is_replaced(rt: HostRuntime) -> Result<(), Fail> {
    let alloc = rt.alloc();
    let rows = [
        ("abc", at(1, UTF8), at(2, UTF8), "xy", "axyc"),
        ("abc", at(0, UTF8), at(0, UTF8), "", "abc"),
        ("abc", at(3, UTF8), at(3, UTF8), "é", "abcé"),
        ("abc", at(0, UTF8), at(3, UTF8), "", ""),
        ("", at(0, UTF8), at(0, UTF8), "😀", "😀"),
        // within the four bytes of a scalar, and between its two units
        ("a😀b", at(3, UTF8), at(4, UTF8), "é", "aé😀b"),
        ("a😀b", at(3, UTF8), at(5, UTF8), "é", "aéb"),
        ("a😀b", at(2, UTF16), at(3, UTF16), "x", "axb"),
        ("a😀b", at(1, UTF16), at(2, UTF16), "x", "ax😀b"),
        // fifteen bytes and sixteen
        (
            "aaaaaaaaaaaaaaa",
            at(15, UTF8),
            at(15, UTF8),
            "b",
            "aaaaaaaaaaaaaaab",
        ),
        (
            "aaaaaaaaaaaaaaab",
            at(0, UTF8),
            at(1, UTF8),
            "",
            "aaaaaaaaaaaaaab",
        ),
        (
            "aaaaaaaaaaaaaaab",
            at(0, UTF8),
            at(2, UTF8),
            "é",
            "éaaaaaaaaaaaaab",
        ),
        // the only scalar that isn't ASCII, added, kept, moved and taken out
        (
            "aaaaaaaaaaaaaaaaaa",
            at(9, UTF8),
            at(10, UTF8),
            "é",
            "aaaaaaaaaéaaaaaaaa",
        ),
        (
            "aaaaaaaaaéaaaaaaaa",
            at(9, UTF8),
            at(11, UTF8),
            "z",
            "aaaaaaaaazaaaaaaaa",
        ),
        (
            "aaaaaaaaaéaaaaaaaa",
            at(0, UTF8),
            at(9, UTF8),
            "bcdefghij",
            "bcdefghijéaaaaaaaa",
        ),
        (
            "aaaaaaaaaéaaaaaaaa",
            at(11, UTF8),
            at(19, UTF8),
            "bcdefgh",
            "aaaaaaaaaébcdefgh",
        ),
        (
            "éaaaaaaaaaaaaaaaaé",
            at(0, UTF8),
            at(2, UTF8),
            "b",
            "baaaaaaaaaaaaaaaaé",
        ),
        (
            "éaaaaaaaaaaaaaaaaé",
            at(18, UTF8),
            at(20, UTF8),
            "b",
            "éaaaaaaaaaaaaaaaab",
        ),
    ];
    for (text, a, b, with, wanted) in rows {
        edits_are(
            &rt,
            alloc,
            (Source::Utf8(text.as_bytes()), (a, b), with, wanted),
        )?;
    }
    Ok(())
}

#[tactic(auto, using(value_heaps::proofs::Moving::of_heap_moves))]
fn units_become_utf8(rt: &impl Abort, alloc: Global, slots: u32) -> Result<(), Fail> {
    let (heap, all) = heap_of(rt, alloc, slots)?;
    let mut pass = heap.pass(all);
    let mut value = Str::from_utf16(alloc, &mut pass, &[0xD83D, 0xDE00])?;
    let start = (at(0, UTF16), at(0, UTF16));
    let wrote = replaced(rt, alloc, &mut value, &mut pass, start, b"x")?;
    assert_eq!(rt; wrote, Wrote::Small);
    let object = value.object();
    assert_eq!(rt;
        (object.w0(), object.w1()),
        (0x80_989F_F078, 0xA500_0000_0000_0000)
    );
    stands_as(rt, alloc, &mut value, &mut pass, wrote, "x😀")?;
    value.release(&mut pass);
    let mut value = Str::from_utf16(alloc, &mut pass, &[0x61, 0xD800, 0x62])?;
    let wrote = appended(alloc, &mut value, &mut pass, "0123456789".as_bytes())?;
    assert_eq!(rt; wrote, Wrote::Small);
    stands_as(
        rt,
        alloc,
        &mut value,
        &mut pass,
        wrote,
        "a\u{FFFD}b0123456789",
    )?;
    let wrote = appended(alloc, &mut value, &mut pass, "".as_bytes())?;
    assert_eq!(rt; wrote, Wrote::Small);
    let wrote = appended(alloc, &mut value, &mut pass, "é".as_bytes())?;
    let wanted = "a\u{FFFD}b0123456789é";
    assert_eq!(rt; wrote, where_it_stands(Form::Small, wanted, slots));
    stands_as(rt, alloc, &mut value, &mut pass, wrote, wanted)?;
    value.release(&mut pass);
    let all = ended(pass).expect(rt, "something is still out");
    let (slots, idle) = closed(heap, all);
    assert_eq!(rt; slots, idle, "slots and idle slots");
    Ok(())
}

#[test]
fn units_of_utf16_become_utf8_at_the_first_edit(rt: HostRuntime) -> Result<(), Fail> {
    for slots in SLOTS {
        units_become_utf8(&rt, rt.alloc(), slots)?;
    }
    Ok(())
}

/// An edit is refused, and the value is as it was.
fn left_as_it_was<'h>(
    rt: &impl Abort,
    alloc: Global,
    value: &mut Str<'h>,
    pass: &mut StrPass<'h>,
    words: (u64, u64),
    with: &[u8],
    wanted: &EditError,
) -> Result<(), Fail>
    requires heap { OfHeap pass.old value.old.place }
    ensures one_heap { pass.new.heap ≡ pass.old.heap }
    ensures heap { OfHeap pass.new value.new.place }
{
    let before = whole(alloc, value)?;
    let object = value.object();
    match replaced(rt, alloc, value, pass, words, with) {
        Ok(_) => assert!(rt; false, "{words:?} was edited"),
        Err(fault) => assert_eq!(rt; &fault, wanted, "{words:?}"),
    }
    let after = whole(alloc, value)?;
    assert_eq!(rt; after.as_slice(), before.as_slice(), "{words:?}");
    assert_eq!(rt;
        (value.object().w0(), value.object().w1()),
        (object.w0(), object.w1()),
        "{words:?}"
    );
    Ok(())
}

#[tactic(auto, using(value_heaps::proofs::Moving::of_heap_moves))]
fn refusal_is(
    rt: &impl Abort,
    alloc: Global,
    slots: u32,
    source: Source,
    words: (u64, u64),
    with: &[u8],
    wanted: &EditError,
) -> Result<(), Fail> {
    let (heap, all) = heap_of(rt, alloc, slots)?;
    let mut pass = heap.pass(all);
    let mut value = value_of(alloc, &mut pass, source)?;
    left_as_it_was(rt, alloc, &mut value, &mut pass, words, with, wanted)?;
    value.release(&mut pass);
    let all = ended(pass).expect(rt, "something is still out");
    let (slots, idle) = closed(heap, all);
    assert_eq!(rt; slots, idle, "slots and idle slots");
    Ok(())
}

/// The same in each heap.
fn refused(
    rt: &impl Abort,
    alloc: Global,
    source: Source,
    words: (u64, u64),
    with: &[u8],
    wanted: EditError,
) -> Result<(), Fail> {
    for slots in SLOTS {
        refusal_is(rt, alloc, slots, source, words, with, &wanted)?;
    }
    Ok(())
}

fn out_of(position: u64, low: u64, high: u64) -> EditError {
    EditError::OutOfBounds(OutOfBounds {
        position,
        low,
        high,
    })
}

#[test]
fn refusals_come_in_their_order_and_leave_the_value(rt: HostRuntime) -> Result<(), Fail> {
    let alloc = rt.alloc();
    let no_text: &[u8] = &[0xC3, 0x28];
    let mut many = vec![in alloc; b'b'; 16_777_217]?;
    let s = Source::Utf8(b"abc");
    // each alone
    refused(
        &rt,
        alloc,
        s,
        (at(4, UTF8), at(3, UTF8)),
        b"x",
        out_of(4, 0, 3),
    )?;
    refused(
        &rt,
        alloc,
        s,
        (at(0, UTF8), at(4, UTF16)),
        b"x",
        out_of(4, 0, 3),
    )?;
    refused(
        &rt,
        alloc,
        s,
        (65_541, 65_541),
        no_text,
        EditError::NotUtf8 { valid_up_to: 0 },
    )?;
    refused(
        &rt,
        alloc,
        s,
        (65_541, 65_541),
        &[0x61, 0xC3],
        EditError::NotUtf8 { valid_up_to: 1 },
    )?;
    let long = EditError::TooLong { len: 16_777_218 };
    refused(
        &rt,
        alloc,
        s,
        (at(1, UTF8), at(3, UTF8)),
        many.as_slice(),
        long,
    )?;
    // the earlier of two
    refused(
        &rt,
        alloc,
        s,
        (at(5, UTF8), at(4, UTF8)),
        b"x",
        out_of(5, 0, 3),
    )?;
    refused(
        &rt,
        alloc,
        s,
        (at(0, UTF8), at(4, UTF8)),
        no_text,
        out_of(4, 0, 3),
    )?;
    let a = Index::check(at(2, UTF8)).expect(&rt, "an index");
    let b = Index::check(at(1, UTF8)).expect(&rt, "an index");
    refused(
        &rt,
        alloc,
        s,
        (at(2, UTF8), at(1, UTF8)),
        no_text,
        EditError::Reversed { a, b },
    )?;
    many[16_777_216] = 0xFF;
    let no_byte = EditError::NotUtf8 {
        valid_up_to: 16_777_216,
    };
    refused(&rt, alloc, s, (65_541, 65_541), many.as_slice(), no_byte)?;
    let pair = Source::Utf16(&[0xD83D, 0xDE00]);
    let behind = (at(5, UTF8), at(0, UTF16));
    refused(&rt, alloc, pair, behind, b"x", out_of(5, 0, 4))?;
    // a value of more bytes than its two words hold, which stands in a slot where there are some
    let long = Source::Utf8("éaaaaaaaaaaaaaaaa".as_bytes());
    refused(
        &rt,
        alloc,
        long,
        (at(0, UTF8), at(19, UTF8)),
        b"x",
        out_of(19, 0, 18),
    )?;
    refused(
        &rt,
        alloc,
        long,
        (at(0, UTF8), at(2, UTF8)),
        no_text,
        EditError::NotUtf8 { valid_up_to: 0 },
    )
}

#[tactic(auto, using(value_heaps::proofs::Moving::of_heap_moves))]
#[test]
fn two_indices_the_wrong_way_round_are_carried_as_they_came(rt: HostRuntime) -> Result<(), Fail> {
    let alloc = rt.alloc();
    let (heap, all) = heap_of(&rt, alloc, 0)?;
    let mut pass = heap.pass(all);
    let mut value = Str::from_utf8(alloc, &mut pass, "a😀b".as_bytes())?;
    // both within the pair: no refusal, since both are rounded down to its start
    let words = (at(4, UTF8), at(2, UTF8));
    let wrote = replaced(&rt, alloc, &mut value, &mut pass, words, b"")?;
    assert_eq!(rt; wrote, Wrote::Small);
    let words = (at(3, UTF16), at(0, UTF8));
    match replaced(&rt, alloc, &mut value, &mut pass, words, b"x") {
        Ok(_) => assert!(rt; false, "the value was edited"),
        Err(fault) => {
            let shown = format!(in alloc; "{fault:?}")?;
            assert_eq!(rt;
                shown.as_str(),
                "Reversed { a: Index { word: 196616 }, b: Index { word: 4 } }"
            );
        }
    }
    value.release(&mut pass);
    Ok(())
}

/// Bytes can't be appended, by this cause.
fn append_is_refused<'h>(
    rt: &impl Abort,
    alloc: Global,
    value: &mut Str<'h>,
    pass: &mut StrPass<'h>,
    with: &[u8],
    wanted: EditError,
)
    requires heap { OfHeap pass.old value.old.place }
    ensures one_heap { pass.new.heap ≡ pass.old.heap }
    ensures heap { OfHeap pass.new value.new.place }
{
    let fault = appended(alloc, value, pass, with).err();
    assert_eq!(rt; fault, Some(wanted));
}

/// A value of the longest text, which nothing can be appended to.
#[tactic(auto, using(value_heaps::proofs::Moving::of_heap_moves))]
fn takes_no_more(rt: &impl Abort, alloc: Global, many: &[u8]) -> Result<(), Fail> {
    let (heap, all) = heap_of(rt, alloc, 4)?;
    let mut pass = heap.pass(all);
    let mut value = Str::from_utf8(alloc, &mut pass, many)?;
    let too_long = EditError::TooLong { len: 16_777_217 };
    append_is_refused(rt, alloc, &mut value, &mut pass, b"b", too_long);
    let not_utf8 = EditError::NotUtf8 { valid_up_to: 0 };
    append_is_refused(rt, alloc, &mut value, &mut pass, &[0xFF], not_utf8);
    let bytes = whole(alloc, &mut value)?;
    assert!(rt; bytes.as_slice() == many, "the text has changed");
    let first = (at(0, UTF8), at(1, UTF8));
    let wrote = replaced(rt, alloc, &mut value, &mut pass, first, b"b")?;
    assert_eq!(rt; wrote, Wrote::Owned);
    assert_eq!(rt; value.lengths().utf8, 16_777_216);
    value.release(&mut pass);
    Ok(())
}

#[test]
fn the_longest_text_takes_no_more(rt: HostRuntime) -> Result<(), Fail> {
    let alloc = rt.alloc();
    let many = vec![in alloc; b'a'; 16_777_216]?;
    takes_no_more(&rt, alloc, many.as_slice())
}

/// A text of 248 bytes fits a slot, and one of 249 doesn't.
#[test]
fn a_text_goes_into_a_slot_as_far_as_it_fits(rt: HostRuntime) -> Result<(), Fail> {
    let alloc = rt.alloc();
    let text = vec![in alloc; b'a'; 247]?;
    let (heap, all) = heap_of(&rt, alloc, 2)?;
    let mut pass = heap.pass(all);
    let mut value = Str::from_utf8(alloc, &mut pass, text.as_slice())?;
    let mut wrote = [Wrote::Small; 3];
    wrote[0] = appended(alloc, &mut value, &mut pass, b"b")?;
    wrote[1] = appended(alloc, &mut value, &mut pass, b"c")?;
    wrote[2] = replaced(
        &rt,
        alloc,
        &mut value,
        &mut pass,
        (at(0, UTF8), at(1, UTF8)),
        b"",
    )?;
    assert_eq!(rt; wrote, [Wrote::InPlace, Wrote::Owned, Wrote::Copied]);
    Ok(())
}

/// The scalars from number `i` to before number `j`.
fn part(alloc: Global, scalars: &[char], i: usize, j: usize) -> Result<String, AllocError> {
    let mut text = String::new(alloc);
    for scalar in scalars.iter().take(j).skip(i) {
        text.push(*scalar)?;
    }
    Ok(text)
}

/// The plain program: the text between two scalar numbers replaced, by its scalars.
fn plain(
    alloc: Global,
    scalars: &[char],
    i: usize,
    j: usize,
    with: &str,
) -> Result<String, AllocError> {
    let mut text = part(alloc, scalars, 0, i)?;
    text.push_str(with)?;
    let back = part(alloc, scalars, j, scalars.len())?;
    text.push_str(back.as_str())?;
    Ok(text)
}

/// An edit between scalars `i` and `j` of a value of `scalars`, over UTF-8 and over UTF-16.
fn edits_agree(
    rt: &impl Abort,
    alloc: Global,
    scalars: &[char],
    i: usize,
    j: usize,
    with: &str,
) -> Result<(), Fail> {
    let all = part(alloc, scalars, 0, scalars.len())?;
    let (front, to) = (part(alloc, scalars, 0, i)?, part(alloc, scalars, 0, j)?);
    let wanted = plain(alloc, scalars, i, j, with)?;
    let words = (at(front.len() as u64, UTF8), at(to.len() as u64, UTF8));
    let bytes = Source::Utf8(all.as_bytes());
    edits_are(rt, alloc, (bytes, words, with, wanted.as_str()))?;
    let units = all.encode_utf16().collect::<Vec<u16>>(alloc)?;
    let a = at(front.encode_utf16().count() as u64, UTF16);
    let b = at(to.encode_utf16().count() as u64, UTF16);
    let units = Source::Utf16(units.as_slice());
    edits_are(rt, alloc, (units, (a, b), with, wanted.as_str()))
}

#[test]
fn edits_agree_with_a_plain_program(rt: HostRuntime) -> Result<(), Fail> {
    let alloc = rt.alloc();
    // nineteen bytes, and eleven
    let long = ['a', 'é', '€', '😀', '\u{0}', 'z', '\u{10FFFF}', 'é', 'b'];
    let short = ['\u{7FF}', 'a', '😀', '\u{FFFD}', 'b'];
    for scalars in [long.as_slice(), short.as_slice()] {
        let count = scalars.len().min(9);
        for j in 0..count + 1 {
            for i in 0..j + 1 {
                for with in ["", "x", "é😀", "0123456789abcdef"] {
                    edits_agree(&rt, alloc, scalars, i, j, with)?;
                }
            }
        }
    }
    Ok(())
}
