//! Where values stand and what their two words are, at the edges of each form, and what is refused.
use crate::values::{PAIR_AND_ACCENTED, Parts, Source, heap_of, text_of, value_of};
use object_words::Form;
use slot_model::Layout;
use slot_table::Missing;
use std::alloc::Global;
use std::process::Abort;
use str_value::{MAX_TEXT_BYTES, MakeError, Str};
use text_spec::TextList;
use value_heaps::{closed, ended, layout, opened, without_slots};

/// The form and the two words of a value.
type Stands = (Form, u64, u64);

fn place_of(value: &Str) -> Stands {
    let object = value.object();
    (value.form(), object.w0(), object.w1())
}

/// Where a value of the text stands in a heap of this layout.
fn stands_at(
    rt: &impl Abort,
    alloc: Global,
    layout: &Layout,
    source: Source,
    text: &str,
) -> Result<Stands, MakeError> {
    let (heap, whole) = heap_of(rt, alloc, layout, source, text)?;
    let mut pass = heap.pass(whole);
    let value = value_of(rt, alloc, &mut pass, source, text)?;
    let stands = place_of(&value);
    value.release(&mut pass);
    let whole = ended(pass).expect(rt, "something is still out");
    let (slots, idle) = closed(heap, whole);
    assert_eq!(rt; slots, idle, "slots and idle slots");
    Ok(stands)
}

const OWNED: u64 = 0x2000_0000_0000_0000;

/// A source, a text, where its value stands where a slot and a credit are free, and where one of them is wanting.
type Row<'a> = (Source, Parts<'a>, Stands, Stands);

/// The rows in a heap with a free slot and a credit, in one without a free slot, and in one without a credit. A slot holds 65,528 bytes.
fn rows_stand(rt: &impl Abort, alloc: Global, rows: &[Row]) -> Result<(), MakeError> {
    for (source, parts, roomy, elsewhere) in rows {
        let text = text_of(alloc, *parts)?;
        for (slots, credits, wanted) in [(1, 2, roomy), (0, 8, elsewhere), (1, 1, elsewhere)] {
            let layout = layout(slots, 8192, credits);
            let stands = stands_at(rt, alloc, &layout, *source, text.as_str())?;
            assert_eq!(rt;
                stands,
                *wanted,
                "{source:?} of {parts:?}, slots {slots}, credits {credits}"
            );
        }
    }
    Ok(())
}

#[test]
fn texts_of_utf8_stand_by_their_length(rt: HostRuntime) -> Result<(), MakeError> {
    let ascii = (Form::Small, 0x6161_6161_6161_6161, 0xEF61_6161_6161_6161);
    let accented = (Form::Small, 0x6161_6161_6161_6161, 0xAFA9_C361_6161_6161);
    let empty = (Form::Small, 0, 0xE000_0000_0000_0000);
    let abc = (Form::Small, 0x0063_6261, 0xE300_0000_0000_0000);
    rows_stand(
        &rt,
        rt.alloc(),
        &[
            (Source::Utf8, ("", 0, ""), empty, empty),
            (Source::Utf8, ("abc", 1, ""), abc, abc),
            (Source::Utf8, ("a", 15, ""), ascii, ascii),
            (Source::Utf8, ("a", 13, "é"), accented, accented),
            (
                Source::Utf8,
                ("a", 16, ""),
                (Form::Native, 0xF000_0000_0000_0010, 0),
                (Form::Owned, 0xC000_0000_0000_0010, OWNED),
            ),
            (
                Source::Utf8,
                ("a", 14, "é"),
                (Form::Native, 0x3000_0000_0000_0010, 0),
                (Form::Owned, 0x0000_0000_0000_0010, OWNED),
            ),
            (
                Source::Utf8,
                ("a", 65_528, ""),
                (Form::Native, 0xF000_0000_0000_FFF8, 0),
                (Form::Owned, 0xC000_0000_0000_FFF8, OWNED),
            ),
            (
                Source::Utf8,
                ("a", 65_526, "é"),
                (Form::Native, 0x3000_0000_0000_FFF8, 0),
                (Form::Owned, 0x0000_0000_0000_FFF8, OWNED),
            ),
            (
                Source::Utf8,
                ("a", 65_529, ""),
                (Form::Owned, 0xC000_0000_0000_FFF9, OWNED),
                (Form::Owned, 0xC000_0000_0000_FFF9, OWNED),
            ),
            (
                Source::Utf8,
                ("a", 65_527, "é"),
                (Form::Owned, 0x0000_0000_0000_FFF9, OWNED),
                (Form::Owned, 0x0000_0000_0000_FFF9, OWNED),
            ),
        ],
    )
}

#[test]
fn texts_of_utf16_stand_by_their_length(rt: HostRuntime) -> Result<(), MakeError> {
    const FOREIGN: u64 = 0x1000_0000_0000_0000;
    let rows: [(Parts, u64); 7] = [
        (("", 0, ""), 0xC800_0000_0000_0000),
        (("a", 15, ""), 0xC800_0000_0000_000F),
        (("a", 16, ""), 0xC800_0000_0000_0010),
        (("é", 1, ""), 0x0800_0000_0000_0001),
        (("a", 14, "😀"), 0x0800_0000_0000_0010),
        (("a", 32_764, ""), 0xC800_0000_0000_7FFC),
        (("é", 32_764, ""), 0x0800_0000_0000_7FFC),
    ];
    for (parts, word) in rows {
        let row = (
            Source::Utf16,
            parts,
            (Form::Foreign, word, FOREIGN),
            (Form::Owned, word, OWNED),
        );
        rows_stand(&rt, rt.alloc(), &[row])?;
    }
    let longer = (Form::Owned, 0xC800_0000_0000_7FFD, OWNED);
    let accented = (Form::Owned, 0x0800_0000_0000_7FFD, OWNED);
    rows_stand(
        &rt,
        rt.alloc(),
        &[
            (Source::Utf16, ("a", 32_765, ""), longer, longer),
            (Source::Utf16, ("é", 32_765, ""), accented, accented),
        ],
    )
}

#[test]
fn literals_stand_in_their_rows(rt: HostRuntime) -> Result<(), MakeError> {
    let alloc = rt.alloc();
    let rows: [(Parts, u64); 6] = [
        (("", 0, ""), 0xD000_0000_0000_0000),
        (("a", 15, ""), 0xD000_0000_0000_000F),
        (("a", 13, "é"), 0x1000_0000_0000_000F),
        (("a", 16, ""), 0xD000_0000_0000_0010),
        (("a", 65_528, ""), 0xD000_0000_0000_FFF8),
        (("é", 32_764, ""), 0x1000_0000_0000_FFF8),
    ];
    for (parts, word) in rows {
        let stands = (Form::Literal, word, 0x8000_0000_0000_0000);
        rows_stand(&rt, alloc, &[(Source::Literal, parts, stands, stands)])?;
    }
    let mut longer = TextList::new(alloc);
    let text = text_of(alloc, ("a", 65_529, ""))?;
    longer.push(text.as_str())?;
    assert!(&rt; opened(alloc, &layout(1, 8192, 2), &longer).is_none());
    Ok(())
}

/// Literal `k` of a heap with the four literals of the program; `None` where there is none.
fn literal_at(rt: &impl Abort, alloc: Global, k: u64) -> Result<Option<Stands>, MakeError> {
    let mut literals = TextList::new(alloc);
    literals.push("")?;
    literals.push("Hello, world!")?;
    literals.push("The quick brown fox jumps over the lazy dog")?;
    let text = text_of(alloc, ("é", 63, PAIR_AND_ACCENTED))?;
    literals.push(text.as_str())?;
    let (heap, whole) = opened(alloc, &layout(0, 33, 1), &literals).expect(rt, "a heap");
    let mut pass = heap.pass(whole);
    match Str::literal(&mut pass, k) {
        Some(value) => {
            let stands = place_of(&value);
            value.release(&mut pass);
            Ok(Some(stands))
        }
        None => Ok(None),
    }
}

#[test]
fn each_literal_has_its_number(rt: HostRuntime) -> Result<(), MakeError> {
    let rows = [
        (0, Some((0xD000_0000_0000_0000, 0x8000_0000_0000_0000))),
        (1, Some((0xD000_0000_0000_000D, 0x8000_0000_0000_0001))),
        (2, Some((0xD000_0000_0000_002B, 0x8000_0000_0000_0002))),
        (3, Some((0x1000_0000_0000_0100, 0x8000_0000_0000_0003))),
        (4, None),
        (0x1_0000_0001, None),
    ];
    for (k, wanted) in rows {
        let wanted = wanted.map(|(w0, w1)| (Form::Literal, w0, w1));
        assert_eq!(&rt; literal_at(&rt, rt.alloc(), k)?, wanted, "literal {k}");
    }
    Ok(())
}

/// What is answered in place of a value of these bytes, in a heap without slots.
fn refusal_of(rt: &impl Abort, alloc: Global, bytes: &[u8]) -> Option<MakeError> {
    let (heap, whole) = without_slots(alloc).expect(rt, "a heap");
    let mut pass = heap.pass(whole);
    match Str::from_utf8(alloc, &mut pass, bytes) {
        Ok(value) => {
            value.release(&mut pass);
            None
        }
        Err(fault) => Some(fault),
    }
}

#[test]
fn bytes_that_are_no_text_are_refused_with_their_valid_length(rt: HostRuntime) {
    let rows: [(&[u8], usize); 6] = [
        (&[195, 40], 0),
        (&[97, 98, 255], 2),
        (&[195], 0),
        (&[97, 0xE2, 0x82], 1),
        (&[0xED, 0xA0, 0x80], 0),
        (&[0xF0, 0x9F, 0x98, 0x80, 0xC0, 0x80], 4),
    ];
    for (bytes, valid_up_to) in rows {
        assert_eq!(&rt;
            refusal_of(&rt, rt.alloc(), bytes),
            Some(MakeError::NotUtf8 { valid_up_to }),
            "{bytes:?}"
        );
    }
}

#[test]
fn a_text_of_sixteen_megabytes_is_the_longest(rt: HostRuntime) -> Result<(), MakeError> {
    assert_eq!(&rt; MAX_TEXT_BYTES, 16_777_216);
    let mut bytes = vec![in rt.alloc(); b'a'; 16_777_217]?;
    assert_eq!(&rt;
        refusal_of(&rt, rt.alloc(), bytes.as_slice()),
        Some(MakeError::TooLong { len: 16_777_217 })
    );
    bytes.truncate(16_777_216);
    assert_eq!(&rt; refusal_of(&rt, rt.alloc(), bytes.as_slice()), None);
    Ok(())
}

/// What is answered in place of a value of these units, in a heap without slots.
fn refusal_of_units(rt: &impl Abort, alloc: Global, units: &[u16]) -> Option<MakeError> {
    let (heap, whole) = without_slots(alloc).expect(rt, "a heap");
    let mut pass = heap.pass(whole);
    match Str::from_utf16(alloc, &mut pass, units) {
        Ok(value) => {
            value.release(&mut pass);
            None
        }
        Err(fault) => Some(fault),
    }
}

#[test]
fn units_are_too_long_by_their_repaired_bytes(rt: HostRuntime) -> Result<(), MakeError> {
    let mut units = vec![in rt.alloc(); 0xD800_u16; 5_592_406]?;
    assert_eq!(&rt;
        refusal_of_units(&rt, rt.alloc(), units.as_slice()),
        Some(MakeError::TooLong { len: 16_777_218 })
    );
    units.truncate(5_592_405);
    assert_eq!(&rt; refusal_of_units(&rt, rt.alloc(), units.as_slice()), None);
    Ok(())
}

/// A pass is ended while a value is in its slot, and again once the value is released: how many slots the heap had, and how many are idle.
fn ended_twice(rt: &impl Abort, alloc: Global) -> Result<(u32, u32), MakeError> {
    let literals = TextList::new(alloc);
    let (heap, whole) = opened(alloc, &layout(2, 32, 4), &literals).expect(rt, "a heap");
    let mut pass = heap.pass(whole);
    let value = Str::from_utf8(alloc, &mut pass, b"aaaaaaaaaaaaaaaa")?;
    let mut pass = match pass.end() {
        Ok(_whole) => panic!(rt; "the end was granted"),
        Err(Missing { pass }) => pass,
    };
    assert_eq!(rt; value.form(), Form::Native);
    value.release(&mut pass);
    let whole = ended(pass).expect(rt, "something is still out");
    Ok(closed(heap, whole))
}

#[test]
fn a_pass_ends_once_its_values_are_released(rt: HostRuntime) -> Result<(), MakeError> {
    assert_eq!(&rt; ended_twice(&rt, rt.alloc())?, (2, 2));
    Ok(())
}
