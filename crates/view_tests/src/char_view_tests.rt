//! The walk in pieces beside the plain program, which asks `unicode_segmentation` for a whole text, over storage of either encoding;
//! and rows worked out by hand.
ghost use Rattle.std.specs.Prelude.{◌≡◌};

use char_view::characters;
use char_view::laws::kept_strides_are_true;
use index_words::Index;
use std::alloc::Global;
use std::marker::Brand;
use std::process::Abort;
use std::sync::ledger::{Blank, Ledger};
use text_spec::{Encoding, OutOfMemory};
use unicode_segmentation::UnicodeSegmentation;
use word_units::{OutOfBounds, Steps, Text, VecText};

/// Where the Characters of a text begin and the last one ends, in bytes and in units: the plain program.
fn plain_bounds(alloc: Global, text: &str) -> Result<(Vec<u64>, Vec<u64>), OutOfMemory> {
    let mut bytes = Vec::new(alloc);
    let mut units = Vec::new(alloc);
    let mut byte: u64 = 0;
    let mut unit: u64 = 0;
    bytes.push(byte)?;
    units.push(unit)?;
    for piece in text.graphemes(true) {
        byte = byte.saturating_add(piece.len() as u64);
        unit = unit.saturating_add(piece.encode_utf16().count() as u64);
        bytes.push(byte)?;
        units.push(unit)?;
    }
    Ok((bytes, units))
}

/// The word of the index of boundary `k`.
fn wanted(bounds: &[u64], k: u32, encoding: Encoding) -> u64 {
    let mark: u64 = match encoding {
        Encoding::Utf8 => 7,
        Encoding::Utf16 => 11,
    };
    let from = bounds.get(k as usize).copied().unwrap_or(0);
    let to = bounds
        .get(k.saturating_add(1) as usize)
        .copied()
        .unwrap_or(from);
    let length = to.saturating_sub(from);
    let stride = if length > 63 { 0 } else { length };
    from.saturating_mul(65536)
        .saturating_add(stride.saturating_mul(256))
        .saturating_add(mark)
}

/// The word of an index, or for a refusal ten times its place and one.
fn word_of(answer: Result<Index, OutOfBounds>) -> u64 {
    match answer {
        Ok(index) => index.bits(),
        Err(out) => out.position.saturating_mul(10).saturating_add(1),
    }
}

/// The words that the calls answer for a place: the floor, the one before and after, the two bounds, and moves from the start and back.
fn words_at<L: Ledger>(t: &mut VecText, position: u64, by: i64, steps: &mut Steps<L>) -> [u64; 7] {
    let start = characters::start(t, steps);
    let Some(index) = Index::check(position.saturating_mul(65536)) else {
        return [0; 7];
    };
    let (low, high) = match characters::element(t, index, steps) {
        Ok((low, high)) => (low.bits(), high.bits()),
        Err(_) => (1, 1),
    };
    [
        word_of(characters::floor(t, index, steps)),
        word_of(characters::before(t, index, steps)),
        word_of(characters::after(t, index, steps)),
        low,
        high,
        word_of(characters::offset_by(t, start, by, steps)),
        word_of(characters::offset_by(t, index, by.wrapping_neg(), steps)),
    ]
}

/// The same by the plain program, for a place that is rounded down to boundary `k`.
fn plain_words(bounds: &[u64], k: u32, encoding: Encoding) -> [u64; 7] {
    let last = bounds.len().saturating_sub(1);
    let here = wanted(bounds, k, encoding);
    let next = wanted(bounds, k.saturating_add(1), encoding);
    let start = wanted(bounds, 0, encoding);
    let refused = (here / 65536).saturating_mul(10).saturating_add(1);
    let inside = (k as usize) < last;
    [
        here,
        if k > 0 {
            wanted(bounds, k.saturating_sub(1), encoding)
        } else {
            refused
        },
        if inside { next } else { refused },
        if inside { here } else { 1 },
        if inside { next } else { 1 },
        here,
        start,
    ]
}

/// The number of the boundary that a place is rounded down to.
fn floor_of(bounds: &[u64], position: u64) -> u32 {
    let mut k: u32 = 0;
    for bound in bounds.iter().skip(1) {
        if *bound <= position {
            k = k.saturating_add(1);
        }
    }
    k
}

/// The first place at which the calls don't answer what the plain program does; for the number of Characters and the two ends that
/// past the last place.
fn first_wrong_with<L: Ledger>(
    t: &mut VecText,
    bounds: &[u64],
    encoding: Encoding,
    blank: Blank,
) -> Option<u64>
    requires name { blank.name ≡ L.name }
    requires parts { blank.parts ≡ L.parts }
    requires one { blank.parts ≡ 1 }
{
    let mut steps = Steps::<L>::from_blank(blank);
    let end = bounds.last().copied().unwrap_or(0);
    let last = bounds.len().saturating_sub(1) as u64;
    let ends = (
        characters::count(t, &mut steps),
        characters::start(t, &mut steps).bits(),
        characters::end(t).bits(),
    );
    let wanted_ends = (
        last,
        wanted(bounds, 0, encoding),
        wanted(bounds, floor_of(bounds, end), encoding),
    );
    if ends != wanted_ends {
        return Some(end.saturating_add(1));
    }
    // Each place of the last ones, and before these each sixteenth.
    for position in 0..end.saturating_add(1) {
        if position.saturating_add(6) < end && position % 16 > 0 {
            continue;
        }
        let k = floor_of(bounds, position);
        let got = words_at(t, position, i64::from(k), &mut steps);
        if got != plain_words(bounds, k, encoding) {
            return Some(position);
        }
    }
    None
}

fn first_wrong(t: &mut VecText, bounds: &[u64], encoding: Encoding) -> Option<u64> {
    first_wrong_with::<Brand>(t, bounds, encoding, Blank::new(1))
}

/// A text in both encodings.
fn check(rt: &impl Abort, alloc: Global, text: &str) -> Result<(), OutOfMemory> {
    let (bytes, units) = plain_bounds(alloc, text)?;
    let mut utf8 = VecText::from_utf8(alloc, text)?.expect(rt, "{text:?} is short");
    assert_eq!(rt;
        first_wrong(&mut utf8, bytes.as_slice(), Encoding::Utf8),
        None,
        "{text:?} in UTF-8"
    );
    let spelt = text.encode_utf16().collect::<Vec<u16>>(alloc)?;
    let mut utf16 = VecText::from_utf16(alloc, spelt.as_slice())?.expect(rt, "{text:?} is short");
    assert_eq!(rt;
        first_wrong(&mut utf16, units.as_slice(), Encoding::Utf16),
        None,
        "{text:?} in UTF-16"
    );
    Ok(())
}

/// `count` times a piece after a front, and an end.
fn repeated(
    alloc: Global,
    front: &str,
    piece: &str,
    count: u32,
    end: &str,
) -> Result<String, OutOfMemory> {
    let mut text = String::from_str(alloc, front)?;
    for _ in 0..count {
        text.push_str(piece)?;
    }
    text.push_str(end)?;
    Ok(text)
}

#[test]
fn pieces_agree_with_the_whole(rt: HostRuntime) -> Result<(), OutOfMemory> {
    let alloc = rt.alloc();
    for text in [
        "",
        "a",
        "ab\r\n\r\n\n\rc",
        "각각\u{1100}\u{1161}\u{11A8}\u{1100}\u{1100}\u{1161}ᄀ",
        "🇩🇪🇫🇷",
        "x🇩🇪🇫🇷🇩",
        "👨\u{200D}👩\u{200D}👧",
        "👍🏽👍🏿✊🏻",
        "❤\u{FE0F}❤\u{FE0E}1\u{FE0F}\u{20E3}",
        "\u{0600}\u{0601}1\u{0600}",
        "क्षि नमस्ते",
        "e\u{301}\u{FFFD}\u{10FFFF}\u{301}",
    ] {
        check(&rt, alloc, text)?;
    }
    Ok(())
}

#[test]
fn characters_lie_over_the_edges_of_pieces(rt: HostRuntime) -> Result<(), OutOfMemory> {
    let alloc = rt.alloc();
    for unit in [
        "🇩🇪🇫🇷",
        "👨\u{200D}👩\u{200D}👧",
        "e\u{301}\u{301}\r\n",
        "क्षि\u{1100}\u{1161}\u{11A8}",
    ] {
        for pad in 0..65 {
            let text = repeated(alloc, "", "x", pad, unit)?;
            check(&rt, alloc, text.as_str())?;
        }
    }
    Ok(())
}

#[test]
fn marks_and_flags_in_any_number(rt: HostRuntime) -> Result<(), OutOfMemory> {
    let alloc = rt.alloc();
    for count in 1..41 {
        let text = repeated(alloc, "e", "\u{301}", count, "x")?;
        check(&rt, alloc, text.as_str())?;
        let text = repeated(alloc, "", "🇩", count, "x")?;
        check(&rt, alloc, text.as_str())?;
    }
    // Characters of 63, 64 and 65 units, in either encoding.
    for count in [61, 62, 63, 64] {
        let text = repeated(alloc, "e", "\u{301}", count, "x")?;
        check(&rt, alloc, text.as_str())?;
    }
    let text = repeated(alloc, "é", "\u{301}", 31, "x")?;
    check(&rt, alloc, text.as_str())
}

/// The number of Characters, and the words of the start, of the index after it and of the one before the end.
fn row_with<L: Ledger>(t: &mut VecText, blank: Blank) -> (u64, u64, u64, u64)
    requires name { blank.name ≡ L.name }
    requires parts { blank.parts ≡ L.parts }
    requires one { blank.parts ≡ 1 }
{
    let mut steps = Steps::<L>::from_blank(blank);
    let start = characters::start(t, &mut steps);
    let end = characters::end(t);
    (
        characters::count(t, &mut steps),
        start.bits(),
        word_of(characters::after(t, start, &mut steps)),
        word_of(characters::before(t, end, &mut steps)),
    )
}

fn row(t: &mut VecText) -> (u64, u64, u64, u64) {
    row_with::<Brand>(t, Blank::new(1))
}

#[test]
fn rows_worked_out_by_hand(rt: HostRuntime) -> Result<(), OutOfMemory> {
    let alloc = rt.alloc();
    // A front, how many combining acute accents follow it, and the answers in UTF-8 and in UTF-16 storage.
    for (front, count, in8, in16) in [
        (
            "🇩🇪🇫🇷",
            0,
            (2, 2055, 526343, 526343),
            (2, 1035, 263179, 263179),
        ),
        (
            "👨\u{200D}👩\u{200D}👧",
            0,
            (1, 4615, 1179655, 4615),
            (1, 2059, 524299, 2059),
        ),
        (
            "e",
            31,
            (1, 16135, 4128775, 16135),
            (1, 8203, 2097163, 8203),
        ),
        ("e", 32, (1, 7, 4259847, 7), (1, 8459, 2162699, 8459)),
        ("a", 200, (1, 7, 26279943, 7), (1, 11, 13172747, 11)),
        ("", 0, (0, 7, 1, 1), (0, 11, 1, 1)),
    ] {
        let text = repeated(alloc, front, "\u{301}", count, "")?;
        let mut utf8 = VecText::from_utf8(alloc, text.as_str())?.expect(&rt, "{text} is short");
        assert_eq!(&rt; row(&mut utf8), in8, "{text}");
        let units = text.encode_utf16().collect::<Vec<u16>>(alloc)?;
        let mut utf16 = VecText::from_utf16(alloc, units.as_slice())?.expect(
            &rt,
            "{text} is short",
        );
        assert_eq!(&rt; row(&mut utf16), in16, "{text}");
    }
    Ok(())
}

/// The words of the index after the first Character: by an addition, where the first keeps a stride, and by reading.
fn after_first<T: Text, L: Ledger>(t: &mut T, blank: Blank) -> (Option<u64>, u64)
    requires name { blank.name ≡ L.name }
    requires parts { blank.parts ≡ L.parts }
    requires one { blank.parts ≡ 1 }
{
    let mut steps = Steps::<L>::from_blank(blank);
    let start = characters::start(t, &mut steps);
    let read = word_of(characters::after(t, start, &mut steps));
    let _count = t.count();
    let _low = t.low();
    let _high = t.high();
    if start.stride() == 0 {
        return (None, read);
    }
    kept_strides_are_true();
    (Some(characters::after_true(t, start).bits()), read)
}

fn after_both(t: &mut VecText) -> (Option<u64>, u64) {
    after_first::<VecText, Brand>(t, Blank::new(1))
}

#[test]
fn a_kept_stride_leads_to_the_next_character(rt: HostRuntime) -> Result<(), OutOfMemory> {
    let alloc = rt.alloc();
    // A text, and the answers in UTF-8 and in UTF-16 storage: by addition the index keeps no stride.
    for (text, in8, in16) in [
        ("🇩🇪🇫🇷", (Some(524295), 526343), (Some(262155), 263179)),
        ("e\u{301}x", (Some(196615), 196871), (Some(131083), 131339)),
        ("", (None, 1), (None, 1)),
    ] {
        let mut utf8 = VecText::from_utf8(alloc, text)?.expect(&rt, "it is short");
        assert_eq!(&rt; after_both(&mut utf8), in8, "{text}");
        let units = text.encode_utf16().collect::<Vec<u16>>(alloc)?;
        let mut utf16 = VecText::from_utf16(alloc, units.as_slice())?.expect(&rt, "it is short");
        assert_eq!(&rt; after_both(&mut utf16), in16, "{text}");
    }
    Ok(())
}
