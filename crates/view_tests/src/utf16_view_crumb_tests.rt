//! What no clause says: that a text with breadcrumbs and one without are answered alike at every offset and every index, and how many
//! words that takes.
ghost use Rattle.std.specs.Prelude.{◌≡◌, ◌<◌};

use crumbs::StoredText;
use index_words::Index;
use std::alloc::Global;
use std::marker::Brand;
use std::process::Abort;
use std::sync::ledger::{Blank, Ledger};
use text_spec::OutOfMemory;
use utf16_view::utf16;
use word_units::{OutOfBounds, Steps, Text, byte_word};

/// The words of a stored text: a count word, and eight bytes to a word after it.
fn stored(alloc: Global, text: &str) -> Result<Vec<u64>, OutOfMemory> {
    let bytes = text.as_bytes();
    let mut words = Vec::new(alloc);
    words.push((bytes.len() as u64) | 0x3000_0000_0000_0000)?;
    for k in 0..(bytes.len() + 7) / 8 {
        words.push(byte_word(bytes, k))?;
    }
    Ok(words)
}

/// The list of breadcrumbs by a plain program: unit after unit, of which each `stride`-th gets an index word.
fn plain_list(alloc: Global, text: &str, stride: u64) -> Result<Vec<u64>, OutOfMemory>
    requires { 0 < stride }
{
    let mut units: u64 = 0;
    for scalar in text.chars() {
        units = units.wrapping_add(scalar.len_utf16() as u64);
    }
    let mut list = Vec::new(alloc);
    list.push(units)?;
    let mut unit: u64 = 0;
    for (p, scalar) in text.char_indices() {
        for past in 0..scalar.len_utf16() as u64 {
            if unit % stride == 0 {
                list.push(plain_word(p as u64, past))?;
            }
            unit = unit.wrapping_add(1);
        }
    }
    if unit % stride == 0 {
        list.push(plain_word(text.len() as u64, 0))?;
    }
    Ok(list)
}

fn plain_word(position: u64, past: u64) -> u64 {
    position.wrapping_shl(16) | past.wrapping_shl(14) | if past == 0 { 5 } else { 4 }
}

fn index_uncounted<T: Text, L: Ledger>(
    t: &mut T,
    offset: u64,
    blank: Blank,
) -> Result<Index, OutOfBounds>
    requires name { blank.name ≡ L.name }
    requires parts { blank.parts ≡ L.parts }
    requires one { blank.parts ≡ 1 }
{
    let mut steps = Steps::<L>::from_blank(blank);
    utf16::index_of_offset(t, offset, &mut steps)
}

fn offset_uncounted<T: Text, L: Ledger>(
    t: &mut T,
    i: Index,
    blank: Blank,
) -> Result<u64, OutOfBounds>
    requires name { blank.name ≡ L.name }
    requires parts { blank.parts ≡ L.parts }
    requires one { blank.parts ≡ 1 }
{
    let mut steps = Steps::<L>::from_blank(blank);
    utf16::offset_of_index(t, i, &mut steps)
}

/// The index word of an offset, or what it is refused with.
fn word_at<const DISTANCE: usize>(
    t: &mut StoredText<DISTANCE>,
    offset: u64,
) -> Result<u64, OutOfBounds> {
    let index = index_uncounted::<StoredText<DISTANCE>, Brand>(t, offset, Blank::new(1))?;
    Ok(index.bits())
}

/// The offset of an index word, or what it is refused with; 0 where the word is no index.
fn offset_at<const DISTANCE: usize>(
    t: &mut StoredText<DISTANCE>,
    word: u64,
) -> Result<u64, OutOfBounds> {
    match Index::check(word) {
        Some(index) => offset_uncounted::<StoredText<DISTANCE>, Brand>(t, index, Blank::new(1)),
        None => Ok(0),
    }
}

/// A text with breadcrumbs and the same one without, and the most words that a question may read of each.
#[derive(Drop)]
struct Both<const DISTANCE: usize> {
    with: StoredText<DISTANCE>,
    without: StoredText<DISTANCE>,
    scalars: u64,
    digits: u64,
}

fn with_and_without<const DISTANCE: usize>(
    rt: &impl Abort,
    alloc: Global,
    text: &str,
) -> Result<Both<DISTANCE>, OutOfMemory>
    requires { 0 < DISTANCE }
{
    let words = stored(alloc, text)?;
    let list = plain_list(alloc, text, DISTANCE as u64)?;
    let crumbs = (list.len() as u64).wrapping_sub(1);
    let with = StoredText::<DISTANCE>::new(words.clone()?, list.clone()?, true).expect(
        rt,
        "the list of {text:?} fits",
    );
    let without = StoredText::<DISTANCE>::new(words, list, false).expect(
        rt,
        "the list of {text:?} fits",
    );
    Ok(Both {
        with,
        without,
        scalars: text.chars().count() as u64,
        digits: 64u32.wrapping_sub(crumbs.leading_zeros()) as u64,
    })
}

/// One offset is answered alike.
fn check_offset<const DISTANCE: usize>(rt: &impl Abort, t: &mut Both<DISTANCE>, offset: u64) {
    let word = word_at(&mut t.with, offset);
    assert_eq!(rt;
        word,
        word_at(&mut t.without, offset),
        "unit {offset} at {DISTANCE}"
    );
    let reads = t.with.take_reads();
    let most = (DISTANCE as u64).wrapping_add(2);
    assert!(rt;
        reads <= most,
        "{reads} words for unit {offset} at {DISTANCE}"
    );
    let reads = t.without.take_reads();
    assert!(rt;
        reads <= t.scalars.wrapping_mul(2),
        "{reads} words for unit {offset}"
    );
}

/// One index that is read in bytes is answered alike.
fn check_index<const DISTANCE: usize>(rt: &impl Abort, t: &mut Both<DISTANCE>, word: u64) {
    let offset = offset_at(&mut t.with, word);
    assert_eq!(rt;
        offset,
        offset_at(&mut t.without, word),
        "index {word} at {DISTANCE}"
    );
    let reads = t.with.take_reads();
    let most = (DISTANCE as u64).wrapping_add(2).wrapping_add(t.digits);
    assert!(rt;
        reads <= most,
        "{reads} words for index {word} at {DISTANCE}"
    );
    let reads = t.without.take_reads();
    let most = t.scalars.wrapping_mul(2).wrapping_add(4);
    assert!(rt; reads <= most, "{reads} words for index {word}");
}

/// Every offset, and every index in bytes and in units, as far as a few past the end.
fn check_all<const DISTANCE: usize>(
    rt: &impl Abort,
    alloc: Global,
    text: &str,
) -> Result<(), OutOfMemory>
    requires { 0 < DISTANCE }
{
    let mut t = with_and_without::<DISTANCE>(rt, alloc, text)?;
    for place in 0..(text.len() as u64).wrapping_add(3) {
        check_offset(rt, &mut t, place);
        let position = place.wrapping_shl(16);
        for transcoded in 0..4u64 {
            check_index(rt, &mut t, position | transcoded.wrapping_shl(14) | 4);
        }
        let offset = offset_at(&mut t.with, position | 8);
        assert_eq!(rt;
            offset,
            offset_at(&mut t.without, position | 8),
            "offset {place}"
        );
        t.with.take_reads();
        t.without.take_reads();
    }
    Ok(())
}

#[test]
fn questions_from_a_crumb_are_answered_as_by_a_scan(rt: HostRuntime) -> Result<(), OutOfMemory> {
    let alloc = rt.alloc();
    check_all::<64>(&rt, alloc, "")?;
    for part in ["aé€😀", "€\u{10FFFF}é", "😀😀a"] {
        let mut text = String::new(alloc);
        for _ in 0..20 {
            text.push_str(part)?;
        }
        check_all::<64>(&rt, alloc, text.as_str())?;
        check_all::<5>(&rt, alloc, text.as_str())?;
    }
    Ok(())
}

#[test]
fn a_pair_over_a_stride_is_found_by_its_second_half(rt: HostRuntime) -> Result<(), OutOfMemory> {
    let alloc = rt.alloc();
    let mut text = String::new(alloc);
    for part in ["é", "😀", "é"] {
        for _ in 0..if part == "é" { 63 } else { 1 } {
            text.push_str(part)?;
        }
    }
    let mut t = with_and_without::<64>(&rt, alloc, text.as_str())?;
    for (offset, word, reads) in [
        (0, 5, 2),
        (63, 8257541, 18),
        (64, 8273924, 2),
        (65, 8519685, 4),
        (127, 16646149, 19),
        (128, 16777221, 2),
    ] {
        assert_eq!(rt; word_at(&mut t.with, offset), Ok(word), "unit {offset}");
        assert_eq!(rt; t.with.take_reads(), reads, "words for unit {offset}");
    }
    for (word, offset, reads) in [
        (5, 0, 4),
        (8257541, 63, 19),
        (8273924, 64, 5),
        (8519685, 65, 6),
        (16777221, 128, 4),
    ] {
        assert_eq!(rt; offset_at(&mut t.with, word), Ok(offset), "index {word}");
        assert_eq!(rt; t.with.take_reads(), reads, "words for index {word}");
    }
    check_all::<64>(&rt, alloc, text.as_str())
}
