//! Parts of values, values of vectors, and texts replaced in part.
ghost use Rattle.std.specs.Prelude.{◌≡◌, ◌≤◌, IfOk, length};
ghost use Rattle.word_units.specs.Parts.{IsBoundaryIn};
ghost use Rattle.str_value.specs.Meaning.{OfHeap, own_part};

use crate::bounds::{bounds, whole};
use crate::readers::read;
use crate::values::{Source, heap_of, value_of};
use object_words::Form;
use std::alloc::Global;
use std::marker::Brand;
use std::process::Abort;
use std::sync::ledger::{Blank, Ledger};
use str_value::{MAX_TEXT_BYTES, MakeError, Str, StrPass};
use text_spec::TextList;
use value_heaps::{closed, ended, layout, opened};
use word_units::Steps;

/// The part of a value between the scalar boundaries at or before two code units of its storage.
fn part_of<'h>(
    rt: &impl Abort,
    alloc: Global,
    pass: &mut StrPass<'h>,
    value: &mut Str<'h>,
    low: u64,
    high: u64,
) -> Result<Str<'h>, MakeError>
    ensures kept { value.new ≡ value.old }
    ensures one_heap { pass.new.heap ≡ pass.old.heap }
    ensures heap { IfOk result (λ s. OfHeap pass.new s.place) }
{
    let (low, high) = bounds(value, low, high).expect(rt, "two places");
    value.copy_part(alloc, pass, low, high)
}

/// The form and the first word of the part of a value, which has this text. The value stays as it is.
#[tactic(auto, using(value_heaps::proofs::Moving::of_heap_moves))]
fn part_stands(
    rt: &impl Abort,
    alloc: Global,
    slots: u32,
    source: Source,
    text: &str,
    places: (u64, u64),
    wanted: &str,
) -> Result<(Form, u64), MakeError> {
    let layout = layout(slots, 32, 5);
    let (heap, opened) = heap_of(rt, alloc, &layout, source, text)?;
    let mut pass = heap.pass(opened);
    let mut value = value_of(rt, alloc, &mut pass, source, text)?;
    let (low, high) = places;
    let mut part = part_of(rt, alloc, &mut pass, &mut value, low, high)?;
    let object = part.object();
    let stands = (part.form(), object.w0());
    let left = read(alloc, &mut value)?;
    assert_eq!(rt; left.as_str(), text, "the value stays");
    value.release(&mut pass);
    let (bytes, _length) = whole(alloc, &mut part)?.expect(rt, "two places");
    assert_eq!(rt; bytes.as_slice(), wanted.as_bytes(), "{source:?}, {wanted}");
    part.release(&mut pass);
    let left = ended(pass).expect(rt, "something is still out");
    assert_eq!(rt; closed(heap, left), (slots, slots), "{source:?}, {wanted}");
    Ok(stands)
}

/// Each part of "aé€😀b" between two of its boundaries, which are these places of the value's storage.
fn parts_stand(
    rt: &impl Abort,
    alloc: Global,
    slots: u32,
    source: Source,
    places: &[u64],
) -> Result<(), MakeError> {
    let slices = [
        (0, 0, ""),
        (0, 1, "a"),
        (0, 2, "aé"),
        (0, 3, "aé€"),
        (0, 4, "aé€😀"),
        (0, 5, "aé€😀b"),
        (1, 1, ""),
        (1, 2, "é"),
        (1, 3, "é€"),
        (1, 4, "é€😀"),
        (1, 5, "é€😀b"),
        (2, 3, "€"),
        (2, 4, "€😀"),
        (2, 5, "€😀b"),
        (3, 4, "😀"),
        (3, 5, "😀b"),
        (4, 5, "b"),
        (5, 5, ""),
    ];
    for (first, end, wanted) in slices {
        let low = places.get(first).copied().expect(rt, "six places");
        let high = places.get(end).copied().expect(rt, "six places");
        let (form, _word) = part_stands(rt, alloc, slots, source, "aé€😀b", (low, high), wanted)?;
        assert_eq!(rt; form, Form::Small, "{source:?}, {wanted}");
    }
    Ok(())
}

#[test]
fn each_part_is_the_value_of_its_scalars(rt: HostRuntime) -> Result<(), MakeError> {
    for (slots, source) in [
        (1, Source::Utf8),
        (0, Source::Literal),
        (1, Source::Utf16),
        (0, Source::Utf16),
    ] {
        let bytes = [0, 1, 3, 6, 10, 11];
        let units = [0, 1, 2, 3, 5, 6];
        let places = if source == Source::Utf16 {
            units
        } else {
            bytes
        };
        parts_stand(&rt, rt.alloc(), slots, source, &places)?;
    }
    Ok(())
}

/// Sixteen letters, U+00E9 and a letter: parts of more than 15 bytes, with the mark of ASCII of their own, where a slot is free
/// for the part and where none is.
#[test]
fn a_part_has_the_form_of_its_own_bytes(rt: HostRuntime) -> Result<(), MakeError> {
    let text = "aaaaaaaaaaaaaaaaéb";
    let letters = (Form::Small, 0x6161_6161_6161_6161);
    let rows = [
        (
            (0, 16),
            "aaaaaaaaaaaaaaaa",
            (Form::Native, 0xF000_0000_0000_0010),
            (Form::Owned, 0xC000_0000_0000_0010),
        ),
        ((0, 15), "aaaaaaaaaaaaaaa", letters, letters),
        ((3, 18), "aaaaaaaaaaaaaé", letters, letters),
        (
            (1, 18),
            "aaaaaaaaaaaaaaaé",
            (Form::Native, 0x3000_0000_0000_0011),
            (Form::Owned, 0x0000_0000_0000_0011),
        ),
    ];
    for (places, wanted, roomy, elsewhere) in rows {
        for (slots, source, stands) in [
            (2, Source::Utf8, roomy),
            (1, Source::Utf8, elsewhere),
            (0, Source::Utf8, elsewhere),
            (2, Source::Utf16, roomy),
            (1, Source::Utf16, elsewhere),
            (0, Source::Utf16, elsewhere),
            (1, Source::Literal, roomy),
            (0, Source::Literal, elsewhere),
        ] {
            let (low, high) = places;
            // U+00E9 begins at place 16 in either storage, and ends at 18 in UTF-8.
            let high = if source == Source::Utf16 && high == 18 {
                17
            } else {
                high
            };
            let seen = part_stands(&rt, rt.alloc(), slots, source, text, (low, high), wanted)?;
            assert_eq!(&rt; seen, stands, "{source:?}, slots {slots}, {wanted}");
        }
    }
    Ok(())
}

fn splice_with<'h, L: Ledger>(
    alloc: Global,
    pass: &mut StrPass<'h>,
    value: &mut Str<'h>,
    low: u64,
    high: u64,
    with: &[u8],
    blank: Blank,
) -> Result<bool, MakeError>
    requires name { blank.name ≡ L.name }
    requires parts { blank.parts ≡ L.parts }
    requires one { blank.parts ≡ 1 }
    requires heap { OfHeap pass.old value.old.place }
    requires low { IsBoundaryIn (own_part value.old) low }
    requires high { IsBoundaryIn (own_part value.old) high }
    requires order { low ≤ high }
    ensures one_heap { pass.new.heap ≡ pass.old.heap }
    ensures heap { OfHeap pass.new value.new.place }
{
    let Ok(with) = std::str::from_utf8(with) else {
        return Ok(false);
    };
    let mut steps = Steps::<L>::from_blank(blank);
    value.splice(alloc, pass, low, high, with, &mut steps)?;
    Ok(true)
}

/// The text between two places of a value's storage is replaced; false where they aren't two places in this order.
fn spliced<'h>(
    alloc: Global,
    pass: &mut StrPass<'h>,
    value: &mut Str<'h>,
    low: u64,
    high: u64,
    with: &[u8],
) -> Result<bool, MakeError>
    requires heap { OfHeap pass.old value.old.place }
    ensures one_heap { pass.new.heap ≡ pass.old.heap }
    ensures heap { OfHeap pass.new value.new.place }
{
    let Some((low, high)) = bounds(value, low, high) else {
        return Ok(false);
    };
    splice_with::<Brand>(alloc, pass, value, low, high, with, Blank::new(1))
}

/// The form of a value of the text once it is replaced in part, and how many slots are free then. It has this text.
fn splice_stands(
    rt: &impl Abort,
    alloc: Global,
    slots: u32,
    source: Source,
    text: &str,
    edit: (u64, u64, &str),
    wanted: &str,
) -> Result<(Form, u32), MakeError> {
    let layout = layout(slots, 32, 5);
    let (heap, opened) = heap_of(rt, alloc, &layout, source, text)?;
    let mut pass = heap.pass(opened);
    let mut value = value_of(rt, alloc, &mut pass, source, text)?;
    let (low, high, with) = edit;
    assert!(rt; spliced(alloc, &mut pass, &mut value, low, high, with.as_bytes())?);
    let stands = (value.form(), pass.free_slots());
    let (bytes, _length) = whole(alloc, &mut value)?.expect(rt, "two places");
    assert_eq!(rt; bytes.as_slice(), wanted.as_bytes(), "{source:?}, {wanted}");
    value.release(&mut pass);
    let left = ended(pass).expect(rt, "something is still out");
    assert_eq!(rt; closed(heap, left), (slots, slots), "{source:?}, {wanted}");
    Ok(stands)
}

#[test]
fn a_text_is_replaced_in_part_in_every_form(rt: HostRuntime) -> Result<(), MakeError> {
    let long = "aaaaaaaaaaaaaaaaé😀b";
    let rows = [
        (
            1,
            Source::Utf8,
            "aé😀b",
            (1, 3, "xyz"),
            "axyz😀b",
            Form::Small,
            1,
        ),
        (
            1,
            Source::Utf8,
            "aé😀b",
            (3, 3, "0123456789"),
            "aé0123456789😀b",
            Form::Native,
            0,
        ),
        (
            0,
            Source::Utf8,
            "aé😀b",
            (3, 3, "0123456789"),
            "aé0123456789😀b",
            Form::Owned,
            0,
        ),
        (
            2,
            Source::Utf8,
            long,
            (16, 18, "€"),
            "aaaaaaaaaaaaaaaa€😀b",
            Form::Native,
            1,
        ),
        (
            1,
            Source::Utf8,
            long,
            (16, 18, "€"),
            "aaaaaaaaaaaaaaaa€😀b",
            Form::Native,
            0,
        ),
        (
            0,
            Source::Utf8,
            long,
            (16, 18, "€"),
            "aaaaaaaaaaaaaaaa€😀b",
            Form::Owned,
            0,
        ),
        (
            0,
            Source::Utf8,
            long,
            (18, 22, ""),
            "aaaaaaaaaaaaaaaaéb",
            Form::Owned,
            0,
        ),
        (
            2,
            Source::Utf8,
            long,
            (8, 22, ""),
            "aaaaaaaab",
            Form::Native,
            1,
        ),
        (
            2,
            Source::Utf16,
            long,
            (16, 17, "€"),
            "aaaaaaaaaaaaaaaa€😀b",
            Form::Native,
            1,
        ),
        (
            0,
            Source::Utf16,
            long,
            (16, 17, "€"),
            "aaaaaaaaaaaaaaaa€😀b",
            Form::Owned,
            0,
        ),
        (
            1,
            Source::Literal,
            long,
            (16, 18, "€"),
            "aaaaaaaaaaaaaaaa€😀b",
            Form::Native,
            0,
        ),
        (
            0,
            Source::Literal,
            long,
            (16, 18, "€"),
            "aaaaaaaaaaaaaaaa€😀b",
            Form::Owned,
            0,
        ),
    ];
    for (slots, source, text, edit, wanted, form, free) in rows {
        let stands = splice_stands(&rt, rt.alloc(), slots, source, text, edit, wanted)?;
        assert_eq!(&rt; stands, (form, free), "{source:?}, slots {slots}, {wanted}");
    }
    Ok(())
}

/// A vector of a text's UTF-8 becomes a value in a heap of so many slots: its form.
fn taken(rt: &impl Abort, alloc: Global, slots: u32, text: &str) -> Result<Form, MakeError> {
    let (heap, opened) = opened(alloc, &layout(slots, 32, 4), &TextList::new(alloc)).expect(
        rt, "a heap",
    );
    let mut pass = heap.pass(opened);
    let mut value = Str::from_utf8(alloc, &mut pass, text.as_bytes())?;
    let (bytes, _length) = whole(alloc, &mut value)?.expect(rt, "two places");
    value.release(&mut pass);
    assert!(rt; bytes.len() <= MAX_TEXT_BYTES);
    let mut value = Str::from_vec(&mut pass, bytes);
    let form = value.form();
    let left = read(alloc, &mut value)?;
    assert_eq!(rt; left.as_str(), text, "what was taken");
    value.release(&mut pass);
    let left = ended(pass).expect(rt, "something is still out");
    assert_eq!(rt; closed(heap, left), (slots, slots), "{text}");
    Ok(form)
}

#[test]
fn a_vector_becomes_the_value_of_its_bytes(rt: HostRuntime) -> Result<(), MakeError> {
    let rows = [
        (1, "", Form::Small),
        (1, "aaaaaaaaaaaaaé", Form::Small),
        (1, "aaaaaaaaaaaaaaé", Form::Native),
        (0, "aaaaaaaaaaaaaaé", Form::Owned),
        (0, "aaaaaaaaaaaaaaaa", Form::Owned),
    ];
    for (slots, text, form) in rows {
        assert_eq!(&rt;
            taken(&rt, rt.alloc(), slots, text)?,
            form,
            "{text}, slots {slots}"
        );
    }
    Ok(())
}

/// The plain program: a vector with other bytes in place of a part.
fn plain(
    alloc: Global,
    old: &[u8],
    low: usize,
    high: usize,
    with: &[u8],
) -> Result<Vec<u8>, MakeError>
    requires order { low ≤ high }
    requires inside { high ≤ length old.now }
{
    let mut new = Vec::from_slice(alloc, &old[..low])?;
    new.extend_from_slice(with)?;
    new.extend_from_slice(&old[high..])?;
    Ok(new)
}

/// The storage's place of a byte of the text, where a scalar begins there or the text ends.
fn place_of(source: Source, text: &str, byte: usize) -> Option<u64> {
    let mut units: u64 = 0;
    let mut place = None;
    for (at, scalar) in text.char_indices() {
        if at == byte {
            place = Some(units);
        }
        units = units.wrapping_add(scalar.len_utf16() as u64);
    }
    if byte == text.len() {
        place = Some(units);
    }
    if source == Source::Utf16 {
        place
    } else {
        place.map(|_units| byte as u64)
    }
}

/// The text is replaced in part in a heap of so many slots, where the part lies between two of its scalars: what it is then is what the
/// plain program says.
fn splice_agrees(
    rt: &impl Abort,
    alloc: Global,
    slots: u32,
    source: Source,
    text: &str,
    part: (usize, usize),
    with: &str,
) -> Result<(), MakeError> {
    let (low, high) = part;
    if low > high || high > text.len() {
        return Ok(());
    }
    let Some(from) = place_of(source, text, low) else {
        return Ok(());
    };
    let Some(to) = place_of(source, text, high) else {
        return Ok(());
    };
    let wanted = plain(alloc, text.as_bytes(), low, high, with.as_bytes())?;
    let wanted = std::str::from_utf8(wanted.as_slice()).expect(rt, "a text");
    splice_stands(rt, alloc, slots, source, text, (from, to, with), wanted)?;
    Ok(())
}

/// Each place of a word, with parts and texts in their place that end before a word's edge, at it and behind it.
fn splices_agree(
    rt: &impl Abort,
    alloc: Global,
    slots: u32,
    source: Source,
    text: &str,
) -> Result<(), MakeError> {
    let edits = [
        (0, ""),
        (0, "é0123456789"),
        (1, "xyz"),
        (2, "0123456789abcdef"),
        (9, "€"),
        (17, "abcdefgh"),
        (60, "q"),
    ];
    for low in 0..18 {
        for (size, with) in edits {
            splice_agrees(rt, alloc, slots, source, text, (low, low + size), with)?;
        }
    }
    Ok(())
}

#[test]
fn splices_agree_with_a_plain_program(rt: HostRuntime) -> Result<(), MakeError> {
    let long =
        "abcdefghijklmnopé€😀bcdefghijklmnopqrstuvwxyz0123456789abcdefghijklmnopqrstuvwxyz😀😀€éabc";
    for text in ["aé€😀b", "abcdefghijklmnopq", long] {
        for (slots, source) in [
            (0, Source::Utf8),
            (1, Source::Utf8),
            (2, Source::Utf8),
            (1, Source::Literal),
            (0, Source::Utf16),
            (1, Source::Utf16),
            (2, Source::Utf16),
        ] {
            splices_agree(&rt, rt.alloc(), slots, source, text)?;
        }
    }
    Ok(())
}
