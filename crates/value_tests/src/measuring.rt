//! Lengths of values, their content words and their UTF-8, with numbers and words worked out by hand.
ghost use Rattle.std.specs.Prelude.{◌≡◌};
ghost use Rattle.text_spec.specs.Packed.{content_words};
ghost use Rattle.text_spec.specs.Views.{size_in};
ghost use Rattle.str_value.specs.Meaning.{storage_of};

use crate::bounds::whole;
use crate::values::{Source, heap_of, value_of};
use object_words::Form;
use std::alloc::Global;
use std::marker::Brand;
use std::process::Abort;
use std::sync::ledger::{Blank, Ledger};
use str_value::{MakeError, Str};
use text_spec::{Encoding, OutOfMemory, TextList};
use value_heaps::{closed, ended, layout, opened, without_slots};
use word_units::{Steps, Text};

/// Scalars, UTF-16 units and UTF-8 bytes.
type Sizes = (u64, u64, u64);

fn sizes_of(value: &mut Str) -> Sizes
    ensures { value.new ≡ value.old }
{
    let lengths = value.lengths();
    (lengths.scalars, lengths.utf16, lengths.utf8)
}

/// How many content words the code units of a value take.
fn word_count(value: &Str) -> u64
    ensures { result ≡ content_words (storage_of value.now.row) (size_in (storage_of value.now.row) value.now.text) }
{
    let count = value.count();
    match value.encoding() {
        Encoding::Utf8 => (count + 7) / 8,
        Encoding::Utf16 => (count + 3) / 4,
    }
}

fn words_with<L: Ledger>(
    alloc: Global,
    value: &mut Str,
    blank: Blank,
) -> Result<Vec<u64>, OutOfMemory>
    requires name { blank.name ≡ L.name }
    requires parts { blank.parts ≡ L.parts }
    requires one { blank.parts ≡ 1 }
    ensures { value.new ≡ value.old }
{
    let mut steps = Steps::<L>::from_blank(blank);
    let mut words = Vec::new(alloc);
    for k in 0..word_count(value) {
        let word = value.word(k, &mut steps);
        words.push(word)?;
    }
    Ok(words)
}

/// The content words of a value.
fn words_of(alloc: Global, value: &mut Str) -> Result<Vec<u64>, OutOfMemory>
    ensures { value.new ≡ value.old }
{
    words_with::<Brand>(alloc, value, Blank::new(1))
}

/// The lengths of a value of the text, in a heap of so many slots. Its UTF-8 is the text's.
fn measured(
    rt: &impl Abort,
    alloc: Global,
    slots: u32,
    source: Source,
    text: &str,
) -> Result<Sizes, MakeError> {
    let layout = layout(slots, 32, 4);
    let (heap, opened) = heap_of(rt, alloc, &layout, source, text)?;
    let mut pass = heap.pass(opened);
    let mut value = value_of(rt, alloc, &mut pass, source, text)?;
    let sizes = sizes_of(&mut value);
    let (bytes, length) = whole(alloc, &mut value)?.expect(rt, "two places");
    assert_eq!(rt; bytes.as_slice(), text.as_bytes(), "{source:?} of {text}");
    assert_eq!(rt; length, text.len() as u64, "{source:?} of {text}");
    value.release(&mut pass);
    let left = ended(pass).expect(rt, "something is still out");
    assert_eq!(rt; closed(heap, left), (slots, slots), "{source:?} of {text}");
    Ok(sizes)
}

#[test]
fn values_have_the_lengths_of_their_texts(rt: HostRuntime) -> Result<(), MakeError> {
    let rows = [
        ("", (0, 0, 0)),
        ("abc", (3, 3, 3)),
        ("🇩🇪🇫🇷", (4, 8, 16)),
        ("😀", (1, 2, 4)),
        ("\u{1F468}\u{200D}\u{1F469}\u{200D}\u{1F467}", (5, 8, 18)),
        (
            "\u{7F}\u{80}\u{7FF}\u{800}\u{FFFF}\u{10000}\u{10FFFF}",
            (7, 9, 19),
        ),
    ];
    for (text, wanted) in rows {
        for (slots, source) in [
            (1, Source::Utf8),
            (0, Source::Utf8),
            (1, Source::Utf16),
            (0, Source::Utf16),
            (0, Source::Literal),
        ] {
            let sizes = measured(&rt, rt.alloc(), slots, source, text)?;
            assert_eq!(&rt; sizes, wanted, "{source:?} of {text}, slots {slots}");
        }
    }
    Ok(())
}

/// The lengths of the value that a heap without slots makes of these bytes.
fn sizes_of_bytes(rt: &impl Abort, alloc: Global, bytes: &[u8]) -> Result<Sizes, MakeError> {
    let (heap, opened) = without_slots(alloc).expect(rt, "a heap");
    let mut pass = heap.pass(opened);
    let mut value = Str::from_utf8(alloc, &mut pass, bytes)?;
    Ok(sizes_of(&mut value))
}

#[test]
fn the_longest_text_has_its_lengths(rt: HostRuntime) -> Result<(), MakeError> {
    let bytes = vec![in rt.alloc(); b'a'; 16_777_216]?;
    let sizes = sizes_of_bytes(&rt, rt.alloc(), bytes.as_slice())?;
    assert_eq!(&rt; sizes, (16_777_216, 16_777_216, 16_777_216));
    Ok(())
}

/// The lengths of the value that a heap without slots makes of these units.
fn sizes_of_units(rt: &impl Abort, alloc: Global, units: &[u16]) -> Result<Sizes, MakeError> {
    let (heap, opened) = without_slots(alloc).expect(rt, "a heap");
    let mut pass = heap.pass(opened);
    let mut value = Str::from_utf16(alloc, &mut pass, units)?;
    Ok(sizes_of(&mut value))
}

#[test]
fn the_longest_repairs_have_their_lengths(rt: HostRuntime) -> Result<(), MakeError> {
    let units = vec![in rt.alloc(); 0xD800_u16; 5_592_405]?;
    let sizes = sizes_of_units(&rt, rt.alloc(), units.as_slice())?;
    assert_eq!(&rt; sizes, (5_592_405, 5_592_405, 16_777_215));
    Ok(())
}

/// What a value of the units is in a heap of so many slots: its form, its first word, the top byte of its second one, and its lengths.
/// It has these content words and this text.
fn kept_units(
    rt: &impl Abort,
    alloc: Global,
    slots: u32,
    units: &[u16],
    text: &str,
    words: &[u64],
) -> Result<(Form, u64, u64, Sizes), MakeError> {
    let (heap, opened) = opened(alloc, &layout(slots, 32, 4), &TextList::new(alloc)).expect(
        rt, "a heap",
    );
    let mut pass = heap.pass(opened);
    let mut value = Str::from_utf16(alloc, &mut pass, units)?;
    let object = value.object();
    let kept = (
        value.form(),
        object.w0(),
        object.w1() >> 56,
        sizes_of(&mut value),
    );
    let read = words_of(alloc, &mut value)?;
    assert_eq!(rt; read.as_slice(), words, "words of {text}");
    let (bytes, _length) = whole(alloc, &mut value)?.expect(rt, "two places");
    assert_eq!(rt; bytes.as_slice(), text.as_bytes(), "{text}");
    value.release(&mut pass);
    let left = ended(pass).expect(rt, "something is still out");
    assert_eq!(rt; closed(heap, left), (slots, slots), "{text}");
    Ok(kept)
}

#[test]
fn units_are_kept_with_the_lengths_of_their_repair(rt: HostRuntime) -> Result<(), MakeError> {
    let rows: [(&[u16], &str, &[u64], u64, Sizes); 7] = [
        (&[], "", &[], 0xC800_0000_0000_0000, (0, 0, 0)),
        (
            &[97, 98, 99],
            "abc",
            &[0x0063_0062_0061],
            0xC800_0000_0000_0003,
            (3, 3, 3),
        ),
        (
            &[55296, 65],
            "\u{FFFD}A",
            &[0x0041_D800],
            0x0800_0000_0000_0002,
            (2, 2, 4),
        ),
        (
            &[55357, 56832],
            "😀",
            &[0xDE00_D83D],
            0x0800_0000_0000_0002,
            (1, 2, 4),
        ),
        (
            &[56832, 55357],
            "\u{FFFD}\u{FFFD}",
            &[0xD83D_DE00],
            0x0800_0000_0000_0002,
            (2, 2, 6),
        ),
        (
            &[0x7F, 0x80, 0x7FF, 0x800, 0xFFFF],
            "\u{7F}\u{80}\u{7FF}\u{800}\u{FFFF}",
            &[0x0800_07FF_0080_007F, 0xFFFF],
            0x0800_0000_0000_0005,
            (5, 5, 11),
        ),
        (
            &[0x61, 0xD83D, 0xDE00, 0x62, 0xDE00],
            "a😀b\u{FFFD}",
            &[0x0062_DE00_D83D_0061, 0xDE00],
            0x0800_0000_0000_0005,
            (4, 5, 9),
        ),
    ];
    for (units, text, words, word, sizes) in rows {
        for (slots, form, top) in [(1, Form::Foreign, 0x10), (0, Form::Owned, 0x20)] {
            let kept = kept_units(&rt, rt.alloc(), slots, units, text, words)?;
            assert_eq!(&rt; kept, (form, word, top, sizes), "{text}, slots {slots}");
        }
    }
    Ok(())
}

/// The content words of a value of the text in a heap of so many slots.
fn shown(
    rt: &impl Abort,
    alloc: Global,
    slots: u32,
    source: Source,
    text: &str,
) -> Result<Vec<u64>, MakeError> {
    let layout = layout(slots, 32, 4);
    let (heap, opened) = heap_of(rt, alloc, &layout, source, text)?;
    let mut pass = heap.pass(opened);
    let mut value = value_of(rt, alloc, &mut pass, source, text)?;
    let words = words_of(alloc, &mut value)?;
    assert_eq!(rt; value.stride(), 64);
    assert!(rt; !value.crumbs_known());
    value.release(&mut pass);
    let left = ended(pass).expect(rt, "something is still out");
    assert_eq!(rt; closed(heap, left), (slots, slots), "{text}");
    Ok(words)
}

#[test]
fn values_show_their_content_words(rt: HostRuntime) -> Result<(), MakeError> {
    let rows: [(&str, &[u64]); 4] = [
        ("", &[]),
        ("abc", &[0x0063_6261]),
        ("x😀", &[0x80_989F_F078]),
        (
            "aaaaaaaaaaaaaaé\u{7F}",
            &[0x6161_6161_6161_6161, 0xA9C3_6161_6161_6161, 0x7F],
        ),
    ];
    for (text, wanted) in rows {
        for (slots, source) in [(1, Source::Utf8), (0, Source::Utf8), (0, Source::Literal)] {
            let words = shown(&rt, rt.alloc(), slots, source, text)?;
            assert_eq!(&rt;
                words.as_slice(),
                wanted,
                "{source:?} of {text}, slots {slots}"
            );
        }
    }
    Ok(())
}
