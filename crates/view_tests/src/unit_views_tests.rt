//! What no clause says: what the calls answer at texts written out by hand, over storage of either encoding.
ghost use Rattle.std.specs.Prelude.{◌≡◌};

use index_words::Index;
use std::alloc::Global;
use std::marker::Brand;
use std::process::Abort;
use std::sync::ledger::{Blank, Ledger};
use text_spec::{Encoding, OutOfMemory};
use unit_views::{ElementKind, scalars, utf8};
use word_units::{OutOfBounds, Steps, VecText};

fn start_of(t: &VecText, view: ElementKind) -> Index {
    match view {
        ElementKind::Scalars => scalars::start(t),
        ElementKind::Units(_) => utf8::start(t),
    }
}

fn end_of(t: &VecText, view: ElementKind) -> Index {
    match view {
        ElementKind::Scalars => scalars::end(t),
        ElementKind::Units(_) => utf8::end(t),
    }
}

fn element<L: Ledger>(
    t: &mut VecText,
    view: ElementKind,
    i: Index,
    steps: &mut Steps<L>,
) -> Result<u32, OutOfBounds> {
    match view {
        ElementKind::Scalars => Ok(scalars::element(t, i, steps)? as u32),
        ElementKind::Units(_) => Ok(utf8::element(t, i, steps)? as u32),
    }
}

fn after<L: Ledger>(
    t: &mut VecText,
    view: ElementKind,
    i: Index,
    steps: &mut Steps<L>,
) -> Result<u64, OutOfBounds> {
    match view {
        ElementKind::Scalars => Ok(scalars::after(t, i, steps)?.bits()),
        ElementKind::Units(_) => Ok(utf8::after(t, i, steps)?.bits()),
    }
}

fn before<L: Ledger>(
    t: &mut VecText,
    view: ElementKind,
    i: Index,
    steps: &mut Steps<L>,
) -> Result<u64, OutOfBounds> {
    match view {
        ElementKind::Scalars => Ok(scalars::before(t, i, steps)?.bits()),
        ElementKind::Units(_) => Ok(utf8::before(t, i, steps)?.bits()),
    }
}

fn offset_by<L: Ledger>(
    t: &mut VecText,
    view: ElementKind,
    i: Index,
    n: i64,
    steps: &mut Steps<L>,
) -> Result<u64, OutOfBounds> {
    match view {
        ElementKind::Scalars => Ok(scalars::offset_by(t, i, n, steps)?.bits()),
        ElementKind::Units(_) => Ok(utf8::offset_by(t, i, n, steps)?.bits()),
    }
}

fn distance<L: Ledger>(
    t: &mut VecText,
    view: ElementKind,
    from: Index,
    to: Index,
    steps: &mut Steps<L>,
) -> Result<i64, OutOfBounds> {
    match view {
        ElementKind::Scalars => scalars::distance(t, from, to, steps),
        ElementKind::Units(_) => utf8::distance(t, from, to, steps),
    }
}

fn count<L: Ledger>(t: &mut VecText, view: ElementKind, steps: &mut Steps<L>) -> u64 {
    match view {
        ElementKind::Scalars => scalars::count(t, steps),
        ElementKind::Units(_) => utf8::count(t, steps),
    }
}

/// An element, and the word of the index behind it.
type Row = (u32, u64);

/// What every call answers at an element and the place behind it, which has `offset` elements before it.
fn row_holds<L: Ledger>(
    rt: &impl Abort,
    t: &mut VecText,
    view: ElementKind,
    here: Index,
    row: Row,
    offset: u32,
    steps: &mut Steps<L>,
) -> Index {
    let (value, word) = row;
    let offset = i64::from(offset);
    let first = start_of(t, view);
    let behind = Index::check(word).expect(rt, "a word of an index");
    assert_eq!(rt;
        element(t, view, here, steps),
        Ok(value),
        "element before {word}"
    );
    assert_eq!(rt; after(t, view, here, steps), Ok(word), "after, to {word}");
    assert_eq!(rt;
        before(t, view, behind, steps),
        Ok(here.bits()),
        "before {word}"
    );
    assert_eq!(rt;
        offset_by(t, view, first, offset, steps),
        Ok(word),
        "{offset} on"
    );
    assert_eq!(rt;
        offset_by(t, view, behind, -offset, steps),
        Ok(first.bits()),
        "{offset} back"
    );
    assert_eq!(rt;
        distance(t, view, first, behind, steps),
        Ok(offset),
        "to {word}"
    );
    assert_eq!(rt;
        distance(t, view, behind, first, steps),
        Ok(-offset),
        "from {word}"
    );
    behind
}

/// What the calls refuse at a text's ends, of which `behind` is the last; it has `wanted` elements.
fn ends_hold<L: Ledger>(
    rt: &impl Abort,
    t: &mut VecText,
    view: ElementKind,
    behind: Index,
    wanted: u32,
    steps: &mut Steps<L>,
) {
    let first = start_of(t, view);
    let length = i64::from(wanted);
    let low = first.position();
    let high = behind.position();
    let at_end = OutOfBounds {
        position: high,
        low,
        high,
    };
    let at_start = OutOfBounds {
        position: low,
        low,
        high,
    };
    assert_eq!(rt; end_of(t, view).bits(), behind.bits(), "the end");
    assert_eq!(rt; count(t, view, steps), u64::from(wanted), "the count");
    assert_eq!(rt; element(t, view, behind, steps), Err(at_end), "no element");
    assert_eq!(rt; after(t, view, behind, steps), Err(at_end), "none after");
    assert_eq!(rt; before(t, view, first, steps), Err(at_start), "none before");
    assert_eq!(rt;
        offset_by(t, view, first, length + 1, steps),
        Err(at_start),
        "too far on"
    );
    assert_eq!(rt;
        offset_by(t, view, behind, -length - 1, steps),
        Err(at_end),
        "too far back"
    );
}

fn rows_hold_with<L: Ledger>(
    rt: &impl Abort,
    t: &mut VecText,
    view: ElementKind,
    rows: &[Row],
    blank: Blank,
)
    requires name { blank.name ≡ L.name }
    requires parts { blank.parts ≡ L.parts }
    requires one { blank.parts ≡ 1 }
{
    let mut steps = Steps::<L>::from_blank(blank);
    let mut here = start_of(t, view);
    let mut offset: u32 = 0;
    'rows: for row in rows {
        offset = offset.saturating_add(1);
        here = row_holds(rt, t, view, here, *row, offset, &mut steps);
    }
    ends_hold(rt, t, view, here, offset, &mut steps);
}

/// The elements of a text, each with the index behind it.
fn rows_hold(rt: &impl Abort, t: &mut VecText, view: ElementKind, rows: &[Row]) {
    rows_hold_with::<Brand>(rt, t, view, rows, Blank::new(1));
}

const UTF8: ElementKind = ElementKind::Units(Encoding::Utf8);

#[test]
fn every_call_in_utf8_storage(rt: HostRuntime) -> Result<(), OutOfMemory> {
    let alloc = rt.alloc();
    // the last scalar lies in two words
    let mut t = VecText::from_utf8(alloc, "aé€😀")?.expect(&rt, "ten bytes");
    rows_hold(
        &rt,
        &mut t,
        ElementKind::Scalars,
        &[
            (0x61, 65541),
            (0xE9, 196613),
            (0x20AC, 393221),
            (0x1F600, 655365),
        ],
    );
    rows_hold(
        &rt,
        &mut t,
        UTF8,
        &[
            (0x61, 65541),
            (0xC3, 131076),
            (0xA9, 196613),
            (0xE2, 262148),
            (0x82, 327684),
            (0xAC, 393221),
            (0xF0, 458756),
            (0x9F, 524292),
            (0x98, 589828),
            (0x80, 655365),
        ],
    );
    let mut t = VecText::from_utf8(alloc, "é😀")?.expect(&rt, "six bytes");
    rows_hold(
        &rt,
        &mut t,
        ElementKind::Scalars,
        &[(0xE9, 131077), (0x1F600, 393221)],
    );
    rows_hold(
        &rt,
        &mut t,
        UTF8,
        &[
            (0xC3, 65540),
            (0xA9, 131077),
            (0xF0, 196612),
            (0x9F, 262148),
            (0x98, 327684),
            (0x80, 393221),
        ],
    );
    let mut none = VecText::from_utf8(alloc, "")?.expect(&rt, "no byte");
    rows_hold(&rt, &mut none, ElementKind::Scalars, &[]);
    rows_hold(&rt, &mut none, UTF8, &[]);
    Ok(())
}

#[test]
fn every_call_in_utf16_storage(rt: HostRuntime) -> Result<(), OutOfMemory> {
    let alloc = rt.alloc();
    // a lone second half, 'A', a pair in two words, a lone first half
    let mut t = VecText::from_utf16(alloc, &[0xDC00, 0x41, 0xD83D, 0xDE00, 0xD800])?.expect(
        &rt,
        "five units",
    );
    rows_hold(
        &rt,
        &mut t,
        ElementKind::Scalars,
        &[
            (0xFFFD, 65545),
            (0x41, 131081),
            (0x1F600, 262153),
            (0xFFFD, 327689),
        ],
    );
    rows_hold(
        &rt,
        &mut t,
        UTF8,
        &[
            (0xEF, 16392),
            (0xBF, 32776),
            (0xBD, 65545),
            (0x41, 131081),
            (0xF0, 147464),
            (0x9F, 163848),
            (0x98, 180232),
            (0x80, 262153),
            (0xEF, 278536),
            (0xBF, 294920),
            (0xBD, 327689),
        ],
    );
    // a pair alone
    let mut t = VecText::from_utf16(alloc, &[0xD83D, 0xDE00])?.expect(&rt, "two units");
    rows_hold(&rt, &mut t, ElementKind::Scalars, &[(0x1F600, 131081)]);
    rows_hold(
        &rt,
        &mut t,
        UTF8,
        &[(0xF0, 16392), (0x9F, 32776), (0x98, 49160), (0x80, 131081)],
    );
    // a lone first half, "é€", a lone second half
    let mut t = VecText::from_utf16(alloc, &[0xD800, 0xE9, 0x20AC, 0xDC00])?.expect(
        &rt,
        "four units",
    );
    rows_hold(
        &rt,
        &mut t,
        ElementKind::Scalars,
        &[
            (0xFFFD, 65545),
            (0xE9, 131081),
            (0x20AC, 196617),
            (0xFFFD, 262153),
        ],
    );
    rows_hold(
        &rt,
        &mut t,
        UTF8,
        &[
            (0xEF, 16392),
            (0xBF, 32776),
            (0xBD, 65545),
            (0xC3, 81928),
            (0xA9, 131081),
            (0xE2, 147464),
            (0x82, 163848),
            (0xAC, 196617),
            (0xEF, 213000),
            (0xBF, 229384),
            (0xBD, 262153),
        ],
    );
    let mut none = VecText::from_utf16(alloc, &[])?.expect(&rt, "no unit");
    rows_hold(&rt, &mut none, ElementKind::Scalars, &[]);
    rows_hold(&rt, &mut none, UTF8, &[]);
    Ok(())
}

/// `k` letters, U+1F600 and a letter: the wide scalar begins at code unit `k` of its word.
fn crosses_with<L: Ledger>(rt: &impl Abort, t: &mut VecText, k: u32, blank: Blank)
    requires name { blank.name ≡ L.name }
    requires parts { blank.parts ≡ L.parts }
    requires one { blank.parts ≡ 1 }
{
    let mut steps = Steps::<L>::from_blank(blank);
    let n = i64::from(k);
    let first = scalars::start(t);
    let last = scalars::end(t);
    assert_eq!(rt;
        scalars::count(t, &mut steps),
        u64::from(k) + 2,
        "scalars, {k}"
    );
    assert_eq!(rt; utf8::count(t, &mut steps), u64::from(k) + 5, "bytes, {k}");
    assert_eq!(rt;
        scalars::distance(t, last, first, &mut steps),
        Ok(-n - 2),
        "back, {k}"
    );
    match scalars::offset_by(t, first, n, &mut steps) {
        Ok(wide) => {
            assert_eq!(rt;
                scalars::element(t, wide, &mut steps),
                Ok('\u{1F600}'),
                "element {k}"
            );
            assert_eq!(rt;
                after(t, ElementKind::Scalars, wide, &mut steps),
                before(t, ElementKind::Scalars, last, &mut steps),
                "beside the last, {k}"
            );
            assert_eq!(rt;
                offset_by(t, ElementKind::Scalars, last, -2, &mut steps),
                Ok(wide.bits()),
                "two back, {k}"
            );
        }
        Err(_) => assert!(rt; false, "there are {k} letters"),
    }
}

fn crosses(rt: &impl Abort, t: &mut VecText, k: u32) {
    crosses_with::<Brand>(rt, t, k, Blank::new(1));
}

#[test]
fn a_scalar_may_cross_words_at_each_byte(rt: HostRuntime) -> Result<(), OutOfMemory> {
    let alloc = rt.alloc();
    for k in 0..8 {
        let text = &"aaaaaaa😀b"[7 - k..];
        let mut t = VecText::from_utf8(alloc, text)?.expect(&rt, "twelve bytes");
        crosses(&rt, &mut t, k as u32);
    }
    Ok(())
}

#[test]
fn a_pair_may_cross_words_at_each_unit(rt: HostRuntime) -> Result<(), OutOfMemory> {
    let units = [0x61, 0x61, 0x61, 0xD83D, 0xDE00, 0x62];
    for k in 0..4 {
        let mut t = VecText::from_utf16(rt.alloc(), &units[3 - k..])?.expect(&rt, "six units");
        crosses(&rt, &mut t, k as u32);
    }
    Ok(())
}

/// What a walk of `n` scalars from the start of a text answers, and back from there.
type Walk = (i64, u64);

fn walks_hold_with<L: Ledger>(rt: &impl Abort, t: &mut VecText, walks: &[Walk], blank: Blank)
    requires name { blank.name ≡ L.name }
    requires parts { blank.parts ≡ L.parts }
    requires one { blank.parts ≡ 1 }
{
    let mut steps = Steps::<L>::from_blank(blank);
    let first = scalars::start(t);
    'walks: for (n, word) in walks {
        let there = Index::check(*word).expect(rt, "a word of an index");
        assert_eq!(rt;
            offset_by(t, ElementKind::Scalars, first, *n, &mut steps),
            Ok(*word),
            "{n} on"
        );
        assert_eq!(rt;
            scalars::distance(t, first, there, &mut steps),
            Ok(*n),
            "to {n}"
        );
    }
}

fn walks_hold(rt: &impl Abort, t: &mut VecText, walks: &[Walk]) {
    walks_hold_with::<Brand>(rt, t, walks, Blank::new(1));
}

/// 17 letters, U+00E9 and 9 letters: words of ASCII alone on either side.
#[test]
fn words_of_ascii_are_passed_at_once(rt: HostRuntime) -> Result<(), OutOfMemory> {
    let alloc = rt.alloc();
    let mut t = VecText::from_utf8(alloc, "aaaaaaaaaaaaaaaaaéaaaaaaaaa")?.expect(&rt, "28 bytes");
    walks_hold(
        &rt,
        &mut t,
        &[
            (0, 5),
            (7, 458757),
            (8, 524293),
            (9, 589829),
            (15, 983045),
            (16, 1048581),
            (17, 1114117),
            (18, 1245189),
            (27, 1835013),
        ],
    );
    Ok(())
}

fn refused_with<L: Ledger>(
    rt: &impl Abort,
    t: &mut VecText,
    view: ElementKind,
    rows: &[(u64, OutOfBounds)],
    blank: Blank,
)
    requires name { blank.name ≡ L.name }
    requires parts { blank.parts ≡ L.parts }
    requires one { blank.parts ≡ 1 }
{
    let mut steps = Steps::<L>::from_blank(blank);
    let first = start_of(t, view);
    let outside = Index::check(u64::MAX - 255).expect(rt, "a word of an index");
    'rows: for (word, wanted) in rows {
        let out = Index::check(*word).expect(rt, "a word of an index");
        assert_eq!(rt;
            element(t, view, out, &mut steps),
            Err(*wanted),
            "element {word}"
        );
        assert_eq!(rt;
            after(t, view, out, &mut steps),
            Err(*wanted),
            "after {word}"
        );
        assert_eq!(rt;
            before(t, view, out, &mut steps),
            Err(*wanted),
            "before {word}"
        );
        assert_eq!(rt;
            offset_by(t, view, out, 0, &mut steps),
            Err(*wanted),
            "by 0, {word}"
        );
        assert_eq!(rt;
            distance(t, view, out, outside, &mut steps),
            Err(*wanted),
            "from {word}"
        );
        assert_eq!(rt;
            distance(t, view, first, out, &mut steps),
            Err(*wanted),
            "to {word}"
        );
    }
}

fn refused(rt: &impl Abort, t: &mut VecText, view: ElementKind, rows: &[(u64, OutOfBounds)]) {
    refused_with::<Brand>(rt, t, view, rows, Blank::new(1));
}

fn past(position: u64, high: u64) -> OutOfBounds {
    OutOfBounds {
        position,
        low: 0,
        high,
    }
}

/// Marked for no encoding, for each, and for both: the numbers are in the unit that the index is read in.
#[test]
fn indices_out_of_range_are_refused(rt: HostRuntime) -> Result<(), OutOfMemory> {
    let alloc = rt.alloc();
    let mut t = VecText::from_utf8(alloc, "é😀")?.expect(&rt, "six bytes");
    let rows = [
        (458752, past(7, 6)),
        (458756, past(7, 6)),
        (458764, past(7, 6)),
        (262152, past(4, 3)),
    ];
    refused(&rt, &mut t, ElementKind::Scalars, &rows);
    refused(&rt, &mut t, UTF8, &rows);
    let mut pair = VecText::from_utf16(alloc, &[0xD83D, 0xDE00])?.expect(&rt, "two units");
    let rows = [
        (196608, past(3, 2)),
        (196616, past(3, 2)),
        (196620, past(3, 2)),
        (327684, past(5, 4)),
    ];
    refused(&rt, &mut pair, ElementKind::Scalars, &rows);
    refused(&rt, &mut pair, UTF8, &rows);
    Ok(())
}
