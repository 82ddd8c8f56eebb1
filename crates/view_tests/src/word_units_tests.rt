//! What no clause says: that each call answers at a concrete type, and what the readers give at texts written out by hand, with a word's
//! edge at each of its places inside a scalar, and with lone halves of pairs at both ends.
ghost use Rattle.std.specs.Prelude.{◌≡◌};
ghost use Rattle.text_spec.specs.declared.encoding.Encoding.TheVariants.{Utf8, Utf16};

use std::alloc::Global;
use std::marker::Brand;
use std::process::Abort;
use std::sync::ledger::{Blank, Ledger};
use text_spec::{Encoding, OutOfMemory};
use word_units::*;

/// The scalars of a text, one after another.
fn scalars_of<T: Text, L: Ledger>(
    alloc: Global,
    t: &mut T,
    steps: &mut Steps<L>,
) -> Result<String, OutOfMemory> {
    let end = t.count();
    let mut scalars = String::new(alloc);
    let mut at = 0;
    'scalars: while at < end {
        let (scalar, _width) = scalar_at(t, at, steps);
        scalars.push(scalar)?;
        let (next, _units) = pass_scalar(t, at, steps);
        at = next;
    }
    Ok(scalars)
}

/// What a walk from the start of a text to its end passed: where it ended, the code units of the other encoding, the scalars.
type Passed = (u64, u64, u64);

/// The walk that takes one scalar at a time.
fn passed_by_scalars<T: Text, L: Ledger>(t: &mut T, steps: &mut Steps<L>) -> Passed {
    let end = t.count();
    let mut at = 0;
    let mut units: u64 = 0;
    let mut scalars: u64 = 0;
    'scalars: while at < end {
        let (next, more) = pass_scalar(t, at, steps);
        at = next;
        units = units.saturating_add(more);
        scalars = scalars.saturating_add(1);
    }
    (at, units, scalars)
}

/// The walk that takes what begins in a word at once.
fn passed_by_runs<T: Text, L: Ledger>(t: &mut T, steps: &mut Steps<L>) -> Passed {
    let end = t.count();
    let mut at = 0;
    let mut units: u64 = 0;
    let mut scalars: u64 = 0;
    'scalars: while at < end {
        let (next, more, run) = pass_run(t, at, end - at, steps);
        at = next;
        units = units.saturating_add(more);
        scalars = scalars.saturating_add(run);
    }
    (at, units, scalars)
}

/// The boundary at each place or before it, the end's too.
fn floors_of<T: Text, L: Ledger>(
    alloc: Global,
    t: &mut T,
    steps: &mut Steps<L>,
) -> Result<Vec<u64>, OutOfMemory> {
    let end = t.count();
    let mut floors = Vec::new(alloc);
    for p in 0..end {
        floors.push(boundary_at_or_before(t, p, steps))?;
    }
    floors.push(boundary_at_or_before(t, end, steps))?;
    Ok(floors)
}

/// The bytes of a text in UTF-8 storage.
fn bytes_read<T: Text, L: Ledger>(
    alloc: Global,
    t: &mut T,
    steps: &mut Steps<L>,
) -> Result<Vec<u16>, OutOfMemory>
    requires { (T.part t.old).storage ≡ Utf8 }
{
    let mut bytes = Vec::new(alloc);
    let end = t.count();
    for p in 0..end {
        bytes.push(byte_at(t, p, steps) as u16)?;
    }
    Ok(bytes)
}

/// The units of a text in UTF-16 storage, repaired.
fn units_read<T: Text, L: Ledger>(
    alloc: Global,
    t: &mut T,
    steps: &mut Steps<L>,
) -> Result<Vec<u16>, OutOfMemory>
    requires { (T.part t.old).storage ≡ Utf16 }
{
    let mut units = Vec::new(alloc);
    let end = t.count();
    for p in 0..end {
        units.push(unit_at(t, p, steps))?;
    }
    Ok(units)
}

/// The code units of a text.
fn units_of<T: Text, L: Ledger>(
    alloc: Global,
    t: &mut T,
    steps: &mut Steps<L>,
) -> Result<Vec<u16>, OutOfMemory> {
    match t.encoding() {
        Encoding::Utf8 => bytes_read(alloc, t, steps),
        Encoding::Utf16 => units_read(alloc, t, steps),
    }
}

/// What the readers give of a text.
#[derive(Drop)]
struct Readings {
    scalars: String,
    units: Vec<u16>,
    floors: Vec<u64>,
    by_scalars: Passed,
    by_runs: Passed,
}

fn read_all_with<L: Ledger>(
    alloc: Global,
    t: &mut VecText,
    blank: Blank,
) -> Result<Readings, OutOfMemory>
    requires name { blank.name ≡ L.name }
    requires parts { blank.parts ≡ L.parts }
    requires one { blank.parts ≡ 1 }
{
    let mut steps = Steps::<L>::from_blank(blank);
    let scalars = scalars_of(alloc, t, &mut steps)?;
    let units = units_of(alloc, t, &mut steps)?;
    let floors = floors_of(alloc, t, &mut steps)?;
    Ok(Readings {
        scalars,
        units,
        floors,
        by_scalars: passed_by_scalars(t, &mut steps),
        by_runs: passed_by_runs(t, &mut steps),
    })
}

fn read_all(alloc: Global, t: &mut VecText) -> Result<Readings, OutOfMemory> {
    read_all_with::<Brand>(alloc, t, Blank::new(1))
}

/// How many scalars a text has, and how many code units of UTF-16.
fn scalars_and_units(text: &str) -> (u64, u64) {
    let mut scalars: u64 = 0;
    let mut units: u64 = 0;
    for scalar in text.chars() {
        scalars = scalars.saturating_add(1);
        units = units.saturating_add(scalar.len_utf16() as u64);
    }
    (scalars, units)
}

fn check_utf8(rt: &impl Abort, alloc: Global, text: &str) -> Result<(), OutOfMemory> {
    let mut bytes: Vec<u16> = Vec::new(alloc);
    for byte in text.bytes() {
        bytes.push(byte as u16)?;
    }
    let mut t = VecText::from_utf8(alloc, text)?.expect(rt, "{text:?} is short");
    let got = read_all(alloc, &mut t)?;
    assert_eq!(rt; got.scalars.as_str(), text);
    assert_eq!(rt; got.units.as_slice(), bytes.as_slice(), "bytes of {text:?}");
    let mut floor = 0;
    for (p, got) in got.floors.as_slice().iter().enumerate() {
        if text.is_char_boundary(p) {
            floor = p as u64;
        }
        assert_eq!(rt; *got, floor, "floor of byte {p} in {text:?}");
    }
    let (scalars, units) = scalars_and_units(text);
    let passed = (bytes.len() as u64, units, scalars);
    assert_eq!(rt; got.by_scalars, passed, "scalars of {text:?}");
    assert_eq!(rt; got.by_runs, passed, "runs of {text:?}");
    Ok(())
}

#[test]
fn bytes_read_as_the_scalars_that_they_encode(rt: HostRuntime) -> Result<(), OutOfMemory> {
    check_utf8(&rt, rt.alloc(), "")?;
    // Each length of a scalar, and the edge of a word at each of its places inside one.
    for scalar in ["a", "é", "€", "\u{FFFD}", "😀", "\u{10FFFF}"] {
        check_utf8(&rt, rt.alloc(), scalar)?;
        for pad in [
            "x",
            "xx",
            "xxx",
            "xxxx",
            "xxxxx",
            "xxxxxx",
            "xxxxxxx",
            "xxxxxxxxxxxxxxxx",
            "ééééé€",
        ] {
            let text = format!(in rt.alloc(); "{pad}{scalar}z{scalar}")?;
            check_utf8(&rt, rt.alloc(), text.as_str())?;
        }
    }
    Ok(())
}

fn check_utf16(
    rt: &impl Abort,
    alloc: Global,
    units: &[u16],
    scalars: &str,
    read: &[u16],
    floors: &[u64],
) -> Result<(), OutOfMemory> {
    let mut t = VecText::from_utf16(alloc, units)?.expect(rt, "{scalars:?} is short");
    let got = read_all(alloc, &mut t)?;
    assert_eq!(rt; got.scalars.as_str(), scalars);
    assert_eq!(rt; got.units.as_slice(), read, "units of {scalars:?}");
    assert_eq!(rt; got.floors.as_slice(), floors, "floors in {scalars:?}");
    let (count, _units) = scalars_and_units(scalars);
    let passed = (units.len() as u64, scalars.len() as u64, count);
    assert_eq!(rt; got.by_scalars, passed, "scalars of {scalars:?}");
    assert_eq!(rt; got.by_runs, passed, "runs of {scalars:?}");
    Ok(())
}

/// Both walks over the text that units spell pass so much.
fn check_passed(
    rt: &impl Abort,
    alloc: Global,
    units: &[u16],
    passed: Passed,
) -> Result<(), OutOfMemory> {
    let mut t = VecText::from_utf16(alloc, units)?.expect(rt, "{units:?} are few");
    let got = read_all(alloc, &mut t)?;
    assert_eq!(rt; got.by_scalars, passed, "scalars of {units:?}");
    assert_eq!(rt; got.by_runs, passed, "runs of {units:?}");
    Ok(())
}

/// Words of four units: scalars of each length, and a pair or a lone half at each of a word's places.
#[test]
fn units_are_passed_by_words(rt: HostRuntime) -> Result<(), OutOfMemory> {
    let alloc = rt.alloc();
    for pad in ["", "x", "xx", "xxx"] {
        for piece in ["a", "é", "€", "aé€\u{FFFD}", "😀", "a😀é€"] {
            let text = format!(in alloc; "{pad}{piece}{piece}{piece}{piece}aé€zaé€zaé€z{piece}")?;
            let units = text.encode_utf16().collect::<Vec<u16>>(alloc)?;
            let (count, long) = scalars_and_units(text.as_str());
            check_passed(
                &rt,
                alloc,
                units.as_slice(),
                (long, text.len() as u64, count),
            )?;
        }
    }
    for half in [0xD800, 0xDBFF, 0xDC00, 0xDFFF] {
        for place in 0..8 {
            let mut units = [0x61; 20];
            units[place] = half;
            check_passed(&rt, alloc, &units, (20, 22, 20))?;
        }
    }
    Ok(())
}

#[test]
fn lone_halves_read_as_replacements(rt: HostRuntime) -> Result<(), OutOfMemory> {
    check_utf16(&rt, rt.alloc(), &[], "", &[], &[0])?;
    check_utf16(&rt, rt.alloc(), &[0x61], "a", &[0x61], &[0, 1])?;
    check_utf16(
        &rt,
        rt.alloc(),
        &[0xE9, 0xFFFF],
        "é\u{FFFF}",
        &[0xE9, 0xFFFF],
        &[0, 1, 2],
    )?;
    check_utf16(
        &rt,
        rt.alloc(),
        &[0xD83D, 0xDE00],
        "😀",
        &[0xD83D, 0xDE00],
        &[0, 0, 2],
    )?;
    // A lone half at each end, of the wrong kind and of the right one.
    check_utf16(
        &rt,
        rt.alloc(),
        &[0xDC00, 0x61, 0xD800],
        "\u{FFFD}a\u{FFFD}",
        &[0xFFFD, 0x61, 0xFFFD],
        &[0, 1, 2, 3],
    )?;
    check_utf16(
        &rt,
        rt.alloc(),
        &[0xD800, 0x61, 0xDC00],
        "\u{FFFD}a\u{FFFD}",
        &[0xFFFD, 0x61, 0xFFFD],
        &[0, 1, 2, 3],
    )?;
    // A half before a pair and one behind it; the pair lies over a word's edge, and so does a half and its stranger.
    check_utf16(
        &rt,
        rt.alloc(),
        &[0xD800, 0xD83D, 0xDE00, 0xDC00],
        "\u{FFFD}😀\u{FFFD}",
        &[0xFFFD, 0xD83D, 0xDE00, 0xFFFD],
        &[0, 1, 1, 3, 4],
    )?;
    check_utf16(
        &rt,
        rt.alloc(),
        &[0x61, 0x61, 0x61, 0xD83D, 0xDE00, 0x62],
        "aaa😀b",
        &[0x61, 0x61, 0x61, 0xD83D, 0xDE00, 0x62],
        &[0, 1, 2, 3, 3, 5, 6],
    )?;
    check_utf16(
        &rt,
        rt.alloc(),
        &[0x61, 0x61, 0x61, 0xDBFF, 0x62, 0x62, 0x62, 0x62, 0xDFFF],
        "aaa\u{FFFD}bbbb\u{FFFD}",
        &[0x61, 0x61, 0x61, 0xFFFD, 0x62, 0x62, 0x62, 0x62, 0xFFFD],
        &[0, 1, 2, 3, 4, 5, 6, 7, 8, 9],
    )?;
    check_utf16(
        &rt,
        rt.alloc(),
        &[0xDBFF, 0xDFFF],
        "\u{10FFFF}",
        &[0xDBFF, 0xDFFF],
        &[0, 0, 2],
    )?;
    Ok(())
}

fn check_surface<L: Ledger>(rt: &impl Abort, t: &mut VecText, blank: Blank)
    requires name { blank.name ≡ L.name }
    requires parts { blank.parts ≡ L.parts }
    requires one { blank.parts ≡ 1 }
{
    let mut steps = Steps::<L>::from_blank(blank);
    assert_eq!(rt; t.stride(), 64);
    assert_eq!(rt; t.low(), 0);
    assert_eq!(rt; t.high(), t.count());
    assert!(rt; !t.ascii());
    assert!(rt; !t.crumbs_known());
    let _nothing = t.crumb_word(0, &mut steps);
}

#[test]
fn a_text_of_its_own_words_is_all_of_them(rt: HostRuntime) -> Result<(), OutOfMemory> {
    let mut t = VecText::from_utf16(rt.alloc(), &[0x61, 0xD83D, 0xDE00])?.expect(
        &rt,
        "three units",
    );
    assert_eq!(&rt; t.count(), 3);
    assert!(&rt; t.encoding() == Encoding::Utf16);
    check_surface::<Brand>(&rt, &mut t, Blank::new(1));
    let refused = OutOfBounds {
        position: 4,
        low: 0,
        high: 3,
    };
    assert_eq!(&rt;
        refused,
        OutOfBounds {
            position: 4,
            low: 0,
            high: 3
        }
    );
    Ok(())
}

/// The first piece of a text, and the place in the storage behind it.
fn forward<L: Ledger>(
    alloc: Global,
    t: &mut VecText,
    steps: &mut Steps<L>,
) -> Result<(Vec<u8>, u64), OutOfMemory> {
    let mut piece = [0; 64];
    let (size, place) = fill_forward(t, 0, &mut piece, steps);
    Ok((Vec::from_slice(alloc, &piece[..size])?, place))
}

/// The last piece of a text, and the place in the storage where it begins.
fn backward<L: Ledger>(
    alloc: Global,
    t: &mut VecText,
    steps: &mut Steps<L>,
) -> Result<(Vec<u8>, u64), OutOfMemory> {
    let high = t.high();
    let mut piece = [0; 64];
    let (size, place) = fill_backward(t, high, &mut piece, steps);
    Ok((Vec::from_slice(alloc, &piece[..size])?, place))
}

/// The first piece of a text with the place behind it, and the last one with the place where it begins.
type Pieces<'a> = ((&'a str, u64), (&'a str, u64));

fn pieces_are_with<L: Ledger>(
    rt: &impl Abort,
    alloc: Global,
    t: &mut VecText,
    pieces: Pieces,
    blank: Blank,
) -> Result<(), OutOfMemory>
    requires name { blank.name ≡ L.name }
    requires parts { blank.parts ≡ L.parts }
    requires one { blank.parts ≡ 1 }
{
    let mut steps = Steps::<L>::from_blank(blank);
    let ((first, behind), (last, before)) = pieces;
    let (bytes, place) = forward(alloc, t, &mut steps)?;
    assert_eq!(rt; bytes.as_slice(), first.as_bytes(), "the first piece");
    assert_eq!(rt; place, behind, "behind {first:?}");
    let (bytes, place) = backward(alloc, t, &mut steps)?;
    assert_eq!(rt; bytes.as_slice(), last.as_bytes(), "the last piece");
    assert_eq!(rt; place, before, "before {last:?}");
    Ok(())
}

fn pieces_are(
    rt: &impl Abort,
    alloc: Global,
    t: &mut VecText,
    pieces: Pieces,
) -> Result<(), OutOfMemory> {
    pieces_are_with::<Brand>(rt, alloc, t, pieces, Blank::new(1))
}

/// 63 letters of one byte, U+00E9 and one more: a piece has place for 64 bytes, and takes whole scalars alone.
const LONG: &str = "aaaaabbbbbcccccdddddeeeeefffffggggghhhhhiiiiijjjjjkkkkklllllmmmén";

#[test]
fn pieces_are_of_whole_scalars_and_at_most_64_bytes(rt: HostRuntime) -> Result<(), OutOfMemory> {
    let first = "aaaaabbbbbcccccdddddeeeeefffffggggghhhhhiiiiijjjjjkkkkklllllmmm";
    let last = "aaabbbbbcccccdddddeeeeefffffggggghhhhhiiiiijjjjjkkkkklllllmmmén";
    let alloc = rt.alloc();
    let rows = [
        ("", (("", 0), ("", 0))),
        ("é😀", (("é😀", 6), ("é😀", 0))),
        (LONG, ((first, 63), (last, 2))),
    ];
    for (text, pieces) in rows {
        let mut t = VecText::from_utf8(alloc, text)?.expect(&rt, "{text:?} is short");
        pieces_are(&rt, alloc, &mut t, pieces)?;
    }
    let mut units: Vec<u16> = Vec::new(alloc);
    for scalar in LONG.chars() {
        units.push((scalar as u32 % 65536) as u16)?;
    }
    let lone = "\u{FFFD}a\u{FFFD}";
    let rows: [(&[u16], Pieces); 4] = [
        (&[], (("", 0), ("", 0))),
        (&[0xE9, 0xD83D, 0xDE00], (("é😀", 3), ("é😀", 0))),
        (&[0xDC00, 0x61, 0xD800], ((lone, 3), (lone, 0))),
        (units.as_slice(), ((first, 63), (last, 2))),
    ];
    for (units, pieces) in rows {
        let mut t = VecText::from_utf16(alloc, units)?.expect(&rt, "{pieces:?} is short");
        pieces_are(&rt, alloc, &mut t, pieces)?;
    }
    Ok(())
}
