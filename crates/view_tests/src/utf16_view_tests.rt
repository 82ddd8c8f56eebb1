//! What no clause says: what the calls answer at texts written out by hand, over storage of either encoding.
ghost use Rattle.std.specs.Prelude.{◌≡◌};

use index_words::Index;
use std::alloc::Global;
use std::marker::Brand;
use std::process::Abort;
use std::sync::ledger::{Blank, Ledger};
use text_spec::{Encoding, OutOfMemory};
use unit_views::{scalars, utf8};
use utf16_view::utf16;
use word_units::{OutOfBounds, Steps, VecText};

/// A code unit, and the word of the index behind it.
type Row = (u16, u64);

/// The word of an index that was answered.
fn word_of(answer: Result<Index, OutOfBounds>) -> Result<u64, OutOfBounds> {
    Ok(answer?.bits())
}

fn past(position: u64, high: u64) -> OutOfBounds {
    OutOfBounds {
        position,
        low: 0,
        high,
    }
}

/// What every call answers at a code unit and the place behind it, which has `offset` code units before it.
fn row_holds<L: Ledger>(
    rt: &impl Abort,
    t: &mut VecText,
    here: Index,
    row: Row,
    offset: u32,
    steps: &mut Steps<L>,
) -> Index {
    let (unit, word) = row;
    let n = i64::from(offset);
    let first = utf16::start(t);
    let behind = Index::check(word).expect(rt, "a word of an index");
    assert_eq!(rt;
        utf16::element(t, here, steps),
        Ok(unit),
        "unit before {word}"
    );
    assert_eq!(rt;
        word_of(utf16::after(t, here, steps)),
        Ok(word),
        "after, to {word}"
    );
    assert_eq!(rt;
        word_of(utf16::before(t, behind, steps)),
        Ok(here.bits()),
        "before {word}"
    );
    assert_eq!(rt;
        word_of(utf16::offset_by(t, first, n, steps)),
        Ok(word),
        "{n} on"
    );
    assert_eq!(rt;
        word_of(utf16::offset_by(t, behind, -n, steps)),
        Ok(first.bits()),
        "{n} back"
    );
    assert_eq!(rt;
        utf16::distance(t, behind, first, steps),
        Ok(-n),
        "from {word}"
    );
    assert_eq!(rt;
        word_of(utf16::index_of_offset(t, u64::from(offset), steps)),
        Ok(word),
        "at {n}"
    );
    assert_eq!(rt;
        utf16::offset_of_index(t, behind, steps),
        Ok(u64::from(offset)),
        "of {word}"
    );
    behind
}

/// What the calls refuse at a text's ends, of which `behind` is the last; it has `wanted` code units.
fn ends_hold<L: Ledger>(
    rt: &impl Abort,
    t: &mut VecText,
    behind: Index,
    wanted: u32,
    steps: &mut Steps<L>,
) {
    let first = utf16::start(t);
    let high = behind.position();
    let n = u64::from(wanted);
    assert_eq!(rt; utf16::end(t).bits(), behind.bits(), "the end");
    assert_eq!(rt; utf16::count(t, steps), n, "the count");
    assert_eq!(rt;
        utf16::element(t, behind, steps),
        Err(past(high, high)),
        "no unit"
    );
    assert_eq!(rt;
        word_of(utf16::after(t, behind, steps)),
        Err(past(high, high)),
        "none after"
    );
    assert_eq!(rt;
        word_of(utf16::before(t, first, steps)),
        Err(past(0, high)),
        "none before"
    );
    assert_eq!(rt;
        word_of(utf16::index_of_offset(t, 0, steps)),
        Ok(first.bits()),
        "the start"
    );
    assert_eq!(rt;
        word_of(utf16::index_of_offset(t, n + 1, steps)),
        Err(past(n + 1, n)),
        "past the end"
    );
    assert_eq!(rt;
        word_of(utf16::index_of_offset(t, u64::MAX, steps)),
        Err(past(u64::MAX, n)),
        "far past it"
    );
}

fn rows_hold_with<L: Ledger>(rt: &impl Abort, t: &mut VecText, rows: &[Row], blank: Blank)
    requires name { blank.name ≡ L.name }
    requires parts { blank.parts ≡ L.parts }
    requires one { blank.parts ≡ 1 }
{
    let mut steps = Steps::<L>::from_blank(blank);
    let mut here = utf16::start(t);
    let mut offset: u32 = 0;
    'rows: for row in rows {
        offset = offset.saturating_add(1);
        here = row_holds(rt, t, here, *row, offset, &mut steps);
    }
    ends_hold(rt, t, here, offset, &mut steps);
}

/// The code units of a text, each with the index behind it.
fn rows_hold(rt: &impl Abort, t: &mut VecText, rows: &[Row]) {
    rows_hold_with::<Brand>(rt, t, rows, Blank::new(1));
}

/// The same text in both storages, an empty one, and lone halves at both ends.
#[test]
fn every_offset_has_its_index_and_back(rt: HostRuntime) -> Result<(), OutOfMemory> {
    let alloc = rt.alloc();
    let mut bytes = VecText::from_utf8(alloc, "aé€😀")?.expect(&rt, "ten bytes");
    rows_hold(
        &rt,
        &mut bytes,
        &[
            (0x61, 65541),
            (0xE9, 196613),
            (0x20AC, 393221),
            (0xD83D, 409604),
            (0xDE00, 655365),
        ],
    );
    let mut units = VecText::from_utf16(alloc, &[0x61, 0xE9, 0x20AC, 0xD83D, 0xDE00])?.expect(
        &rt,
        "five units",
    );
    rows_hold(
        &rt,
        &mut units,
        &[
            (0x61, 65545),
            (0xE9, 131081),
            (0x20AC, 196617),
            (0xD83D, 262152),
            (0xDE00, 327689),
        ],
    );
    // a lone second half, 'A', a lone first half
    let mut lone = VecText::from_utf16(alloc, &[0xDC00, 0x41, 0xD800])?.expect(&rt, "three units");
    rows_hold(
        &rt,
        &mut lone,
        &[(0xFFFD, 65545), (0x41, 131081), (0xFFFD, 196617)],
    );
    // a lone first half, 'A'
    let mut lone = VecText::from_utf16(alloc, &[0xD800, 0x41])?.expect(&rt, "two units");
    rows_hold(&rt, &mut lone, &[(0xFFFD, 65545), (0x41, 131081)]);
    let mut none = VecText::from_utf8(alloc, "")?.expect(&rt, "no byte");
    rows_hold(&rt, &mut none, &[]);
    Ok(())
}

/// The counts, the index of the unit in the middle, and each offset there and back.
fn long_holds_with<L: Ledger>(rt: &impl Abort, t: &mut VecText, middle: u64, blank: Blank)
    requires name { blank.name ≡ L.name }
    requires parts { blank.parts ≡ L.parts }
    requires one { blank.parts ≡ 1 }
{
    let mut steps = Steps::<L>::from_blank(blank);
    assert_eq!(rt; scalars::count(t, &mut steps), 127, "scalars");
    assert_eq!(rt; utf16::count(t, &mut steps), 128, "UTF-16");
    assert_eq!(rt; utf8::count(t, &mut steps), 256, "UTF-8");
    assert_eq!(rt;
        word_of(utf16::index_of_offset(t, 64, &mut steps)),
        Ok(middle),
        "64"
    );
    'offsets: for offset in 0..129 {
        match utf16::index_of_offset(t, offset, &mut steps) {
            Ok(index) => assert_eq!(rt;
                utf16::offset_of_index(t, index, &mut steps),
                Ok(offset),
                "{offset}"
            ),
            Err(_) => assert!(rt; false, "{offset} is an offset"),
        }
    }
}

fn long_holds(rt: &impl Abort, t: &mut VecText, middle: u64) {
    long_holds_with::<Brand>(rt, t, middle, Blank::new(1));
}

/// 63 times U+00E9, U+1F600, 63 times U+00E9.
#[test]
fn long_texts_have_every_offset(rt: HostRuntime) -> Result<(), OutOfMemory> {
    let alloc = rt.alloc();
    let accented = ["é"; 63].concat(alloc)?;
    let text = format!(in alloc; "{accented}😀{accented}")?;
    let mut bytes = VecText::from_utf8(alloc, text.as_str())?.expect(&rt, "256 bytes");
    long_holds(&rt, &mut bytes, 8273924);
    let spelt = text.encode_utf16().collect::<Vec<u16>>(alloc)?;
    let mut units = VecText::from_utf16(alloc, spelt.as_slice())?.expect(&rt, "128 units");
    long_holds(&rt, &mut units, 4194312);
    Ok(())
}
