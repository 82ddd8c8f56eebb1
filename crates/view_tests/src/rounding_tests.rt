//! What no clause says: what the calls answer at texts written out by hand, over storage of either encoding.
ghost use Rattle.std.specs.Prelude.{◌≡◌};

use crate::part::Part;
use index_words::Index;
use rounding::{resolve, scalar_floor, utf8_floor, utf16_floor};
use std::alloc::Global;
use std::marker::Brand;
use std::process::Abort;
use std::sync::ledger::{Blank, Ledger};
use text_spec::{Encoding, OutOfMemory};
use word_units::{OutOfBounds, Steps, Text, VecText};

/// The words of an index once it is resolved, and of its floors: scalars, UTF-16, UTF-8.
type Answer = Result<(u64, u64, u64, u64), OutOfBounds>;

fn answer_with<T: Text, L: Ledger>(t: &mut T, i: Index, blank: Blank) -> Answer
    requires name { blank.name ≡ L.name }
    requires parts { blank.parts ≡ L.parts }
    requires one { blank.parts ≡ 1 }
{
    let mut steps = Steps::<L>::from_blank(blank);
    let found = resolve(t, i, &mut steps)?;
    let scalar = scalar_floor(t, found, &mut steps);
    let utf16 = utf16_floor(t, found, &mut steps);
    let utf8 = utf8_floor(t, found, &mut steps);
    Ok((found.bits(), scalar.bits(), utf16.bits(), utf8.bits()))
}

fn answer<T: Text>(t: &mut T, i: Index) -> Answer {
    answer_with::<T, Brand>(t, i, Blank::new(1))
}

/// What is asked of an index word, and answered.
type Row = (u64, Answer);

fn rows_are<T: Text>(rt: &impl Abort, t: &mut T, rows: &[Row], text: &str) {
    for (word, wanted) in rows {
        match Index::check(*word) {
            Some(index) => assert_eq!(rt; answer(t, index), *wanted, "{text}: {word}"),
            None => assert!(rt; false, "{word} is no index"),
        }
    }
}

fn out_of(position: u64, low: u64, high: u64) -> Answer {
    Err(OutOfBounds {
        position,
        low,
        high,
    })
}

fn utf8_rows_are(
    rt: &impl Abort,
    alloc: Global,
    text: &str,
    rows: &[Row],
) -> Result<(), OutOfMemory> {
    let mut t = VecText::from_utf8(alloc, text)?.expect(rt, "{text:?} is short");
    rows_are(rt, &mut t, rows, text);
    Ok(())
}

#[test]
fn indices_are_rounded_in_utf8_storage(rt: HostRuntime) -> Result<(), OutOfMemory> {
    let alloc = rt.alloc();
    utf8_rows_are(
        &rt,
        alloc,
        "abc",
        &[
            (4, Ok((4, 5, 5, 5))),
            (196612, Ok((196612, 196613, 196613, 196613))),
            (262148, out_of(4, 0, 3)),
            (262152, out_of(4, 0, 3)),
        ],
    )?;
    utf8_rows_are(
        &rt,
        alloc,
        "é",
        &[
            (65544, Ok((131077, 131077, 131077, 131077))),
            (65540, Ok((65540, 5, 5, 65540))),
            (16388, Ok((16388, 5, 5, 5))),
            (131080, out_of(2, 0, 1)),
        ],
    )?;
    utf8_rows_are(
        &rt,
        alloc,
        "€",
        &[
            (65540, Ok((65540, 5, 5, 65540))),
            (131076, Ok((131076, 5, 5, 131076))),
            (196612, Ok((196612, 196613, 196613, 196613))),
            (65544, Ok((196613, 196613, 196613, 196613))),
            (131080, out_of(2, 0, 1)),
            (262144, out_of(4, 0, 3)),
            (262156, out_of(4, 0, 3)),
        ],
    )?;
    utf8_rows_are(
        &rt,
        alloc,
        "é😀",
        &[
            (131072, Ok((131076, 131077, 131077, 131077))),
            (131084, Ok((131076, 131077, 131077, 131077))),
            (131080, Ok((147460, 131077, 147460, 131077))),
            (180228, Ok((180228, 131077, 131077, 131077))),
            (262148, Ok((262148, 131077, 131077, 262148))),
            (409604, Ok((409604, 393221, 393221, 393221))),
            (196616, Ok((393221, 393221, 393221, 393221))),
            (458756, out_of(7, 0, 6)),
        ],
    )?;
    utf8_rows_are(
        &rt,
        alloc,
        "",
        &[
            (4, Ok((4, 5, 5, 5))),
            (8, Ok((5, 5, 5, 5))),
            (65536, out_of(1, 0, 0)),
        ],
    )
}

#[test]
fn indices_are_rounded_in_utf16_storage(rt: HostRuntime) -> Result<(), OutOfMemory> {
    let mut pair = VecText::from_utf16(rt.alloc(), &[0xD83D, 0xDE00])?.expect(&rt, "two units");
    rows_are(
        &rt,
        &mut pair,
        &[
            (16392, Ok((16392, 9, 9, 16392))),
            (65544, Ok((65544, 9, 65544, 9))),
            (196612, Ok((49160, 9, 9, 49160))),
            (262148, Ok((131081, 131081, 131081, 131081))),
            (327684, out_of(5, 0, 4)),
            (196616, out_of(3, 0, 2)),
        ],
        "a pair",
    );
    // Lone halves at both ends, of either kind.
    for units in [[0xD800, 0x41, 0xDC00], [0xDC00, 0x41, 0xD800]] {
        let mut lone = VecText::from_utf16(rt.alloc(), &units)?.expect(&rt, "three units");
        rows_are(
            &rt,
            &mut lone,
            &[
                (32776, Ok((32776, 9, 9, 32776))),
                (49160, Ok((49160, 9, 9, 9))),
                (196612, Ok((65545, 65545, 65545, 65545))),
                (458756, Ok((196617, 196617, 196617, 196617))),
                (524292, out_of(8, 0, 7)),
            ],
            "lone halves",
        );
    }
    // "aé€😀": a scalar of each length in UTF-8, the last in two words
    let units = [0x61, 0xE9, 0x20AC, 0xD83D, 0xDE00];
    let mut lengths = VecText::from_utf16(rt.alloc(), &units)?.expect(&rt, "five units");
    rows_are(
        &rt,
        &mut lengths,
        &[
            (65536, Ok((65544, 65545, 65545, 65545))),
            (65548, Ok((65544, 65545, 65545, 65545))),
            (98312, Ok((98312, 65545, 65545, 65545))),
            (131076, Ok((81928, 65545, 65545, 81928))),
            (327684, Ok((163848, 131081, 131081, 163848))),
            (393220, Ok((196617, 196617, 196617, 196617))),
            (262152, Ok((262152, 196617, 262152, 196617))),
            (589828, Ok((245768, 196617, 196617, 245768))),
            (655364, Ok((327689, 327689, 327689, 327689))),
            (720900, out_of(11, 0, 10)),
            (393216, out_of(6, 0, 5)),
            (393224, out_of(6, 0, 5)),
            (393228, out_of(6, 0, 5)),
        ],
        "each length",
    );
    let mut none = VecText::from_utf16(rt.alloc(), &[])?.expect(&rt, "no unit");
    rows_are(
        &rt,
        &mut none,
        &[
            (8, Ok((8, 9, 9, 9))),
            (4, Ok((9, 9, 9, 9))),
            (65544, out_of(1, 0, 0)),
            (65540, out_of(1, 0, 0)),
        ],
        "no unit",
    );
    Ok(())
}

/// The word of an index: its position, its transcoded offset, and its marks in the lowest bits.
fn word_of(position: u64, past: u64, marks: u64) -> u64 {
    position
        .wrapping_mul(65536)
        .wrapping_add(past.wrapping_mul(16384))
        .wrapping_add(marks)
}

/// `k` letters, U+1F600 and a letter in UTF-8 storage: each of the scalar's places, in either unit.
#[test]
fn a_scalar_may_cross_words_at_each_byte(rt: HostRuntime) -> Result<(), OutOfMemory> {
    for letters in 0..8 {
        let text = &"aaaaaaa😀b"[7 - letters..];
        let k = letters as u64;
        let mut t = VecText::from_utf8(rt.alloc(), text)?.expect(&rt, "twelve bytes");
        let here = word_of(k, 0, 5);
        let second = word_of(k, 1, 4);
        let behind = word_of(k + 4, 0, 5);
        let inside = word_of(k + 3, 0, 4);
        let past = k + 4;
        rows_are(
            &rt,
            &mut t,
            &[
                (inside, Ok((inside, here, here, inside))),
                (word_of(k + 1, 0, 8), Ok((second, here, second, here))),
                (word_of(k + 2, 0, 8), Ok((behind, behind, behind, behind))),
                (word_of(past, 0, 8), out_of(past, 0, k + 3)),
            ],
            text,
        );
    }
    Ok(())
}

/// `k` letters, the halves of U+1F600 and a letter in UTF-16 storage: the second half, and the third of its bytes.
#[test]
fn a_pair_may_cross_words_at_each_unit(rt: HostRuntime) -> Result<(), OutOfMemory> {
    let units = [0x61, 0x61, 0x61, 0xD83D, 0xDE00, 0x62];
    for letters in 0..4 {
        let k = letters as u64;
        let held = &units[3 - letters..];
        let mut t = VecText::from_utf16(rt.alloc(), held)?.expect(&rt, "six units");
        let here = word_of(k, 0, 9);
        let half = word_of(k + 1, 0, 8);
        let third = word_of(k, 2, 8);
        rows_are(
            &rt,
            &mut t,
            &[
                (half, Ok((half, here, half, here))),
                (word_of(k + 2, 0, 4), Ok((third, here, here, third))),
            ],
            "over a word's edge",
        );
    }
    Ok(())
}

/// Letters that fill words of their own before and behind a wider scalar.
#[test]
fn offsets_are_read_behind_words_of_ascii(rt: HostRuntime) -> Result<(), OutOfMemory> {
    // 17 letters, U+00E9 and 9 letters
    let text = "aaaaaaaaaaaaaaaaaéaaaaaaaaa";
    let mut t = VecText::from_utf8(rt.alloc(), text)?.expect(&rt, "28 bytes");
    for (offset, position) in [
        (0, 0),
        (7, 7),
        (8, 8),
        (9, 9),
        (15, 15),
        (16, 16),
        (17, 17),
        (18, 19),
        (26, 27),
        (27, 28),
    ] {
        let there = word_of(position, 0, 5);
        let row = (word_of(offset, 0, 8), Ok((there, there, there, there)));
        rows_are(&rt, &mut t, &[row], text);
    }
    rows_are(&rt, &mut t, &[(word_of(28, 0, 8), out_of(28, 0, 27))], text);
    let text = "aaaaaaaaaaaaaaaa😀";
    let mut t = VecText::from_utf8(rt.alloc(), text)?.expect(&rt, "20 bytes");
    let first = word_of(16, 0, 5);
    let second = word_of(16, 1, 4);
    let row = (word_of(17, 0, 8), Ok((second, first, second, first)));
    rows_are(&rt, &mut t, &[row], text);
    Ok(())
}

fn part_with<L: Ledger>(all: VecText, low: u64, high: u64, blank: Blank) -> Option<Part>
    requires name { blank.name ≡ L.name }
    requires parts { blank.parts ≡ L.parts }
    requires one { blank.parts ≡ 1 }
{
    let mut steps = Steps::<L>::from_blank(blank);
    Part::new(all, low, high, &mut steps)
}

/// The scalars of a text from code unit `low` of its storage to code unit `high`.
fn part(all: VecText, low: u64, high: u64) -> Option<Part> {
    part_with::<Brand>(all, low, high, Blank::new(1))
}

/// "é😀" as a part of "aé😀😀": before it and behind it, and at its end, where the storage goes on with a wide scalar.
#[test]
fn indices_outside_of_a_part_are_refused(rt: HostRuntime) -> Result<(), OutOfMemory> {
    let all = VecText::from_utf8(rt.alloc(), "aé😀😀")?.expect(&rt, "eleven bytes");
    let mut t = part(all, 1, 7).expect(&rt, "two boundaries");
    rows_are(
        &rt,
        &mut t,
        &[
            (0, out_of(0, 1, 7)),
            (4, out_of(0, 1, 7)),
            (12, out_of(0, 1, 7)),
            (8, out_of(0, 1, 4)),
            (65540, Ok((65540, 65541, 65541, 65541))),
            (65544, Ok((65541, 65541, 65541, 65541))),
            (196616, Ok((212996, 196613, 212996, 196613))),
            (262152, Ok((458757, 458757, 458757, 458757))),
            (475140, Ok((475140, 458757, 458757, 458757))),
            (524288, out_of(8, 1, 7)),
            (524292, out_of(8, 1, 7)),
            (524300, out_of(8, 1, 7)),
            (327688, out_of(5, 1, 4)),
        ],
        "a part in UTF-8",
    );
    let units = [0x61, 0xE9, 0xD83D, 0xDE00, 0xD83D, 0xDE00];
    let all = VecText::from_utf16(rt.alloc(), &units)?.expect(&rt, "six units");
    let mut t = part(all, 1, 4).expect(&rt, "two boundaries");
    rows_are(
        &rt,
        &mut t,
        &[
            (0, out_of(0, 1, 4)),
            (8, out_of(0, 1, 4)),
            (12, out_of(0, 1, 4)),
            (4, out_of(0, 1, 7)),
            (65540, Ok((65545, 65545, 65545, 65545))),
            (327684, Ok((163848, 131081, 131081, 163848))),
            (458756, Ok((262153, 262153, 262153, 262153))),
            (278536, Ok((278536, 262153, 262153, 262153))),
            (327680, out_of(5, 1, 4)),
            (327688, out_of(5, 1, 4)),
            (327692, out_of(5, 1, 4)),
            (524292, out_of(8, 1, 7)),
        ],
        "a part in UTF-16",
    );
    Ok(())
}
