//! Every reader and every view over values of each form, beside a plain program over the whole text.
ghost use Rattle.std.specs.Prelude.{◌≡◌};

use crate::learning::learn;
use crate::readers::{Pieces, pieces_of, read};
use crate::values::{Source, heap_of, value_of};
use crate::views::{REFUSED, counts_of, offsets_of, places_of};
use object_words::Form;
use std::alloc::Global;
use std::process::Abort;
use str_value::{Learned, MakeError, Str};
use text_spec::{Encoding, OutOfMemory, TextList};
use unicode_segmentation::UnicodeSegmentation;
use value_heaps::{closed, ended, layout, opened};
use word_units::Text;

/// A place of a text between two scalars: how many bytes of UTF-8 and how many units of UTF-16 lie before it.
type Place = (u64, u64);

/// A text by its places: where each scalar begins and the last one ends, and the same of the Characters.
#[derive(Drop)]
struct Plain {
    scalars: Vec<Place>,
    characters: Vec<Place>,
    bytes: Vec<u64>,
    units: Vec<u64>,
    /// Whether the storage is UTF-16.
    utf16: bool,
}

fn behind(place: Place, piece: &str) -> Place {
    let (byte, unit) = place;
    let mut units: u64 = 0;
    for scalar in piece.chars() {
        units = units.wrapping_add(scalar.len_utf16() as u64);
    }
    (
        byte.wrapping_add(piece.len() as u64),
        unit.wrapping_add(units),
    )
}

fn plain_of(alloc: Global, text: &str, utf16: bool) -> Result<Plain, OutOfMemory> {
    let mut scalars = Vec::new(alloc);
    let mut units = Vec::new(alloc);
    let mut place: Place = (0, 0);
    scalars.push(place)?;
    for scalar in text.chars() {
        let (byte, unit) = place;
        place = (
            byte.wrapping_add(scalar.len_utf8() as u64),
            unit.wrapping_add(scalar.len_utf16() as u64),
        );
        scalars.push(place)?;
    }
    let mut characters = Vec::new(alloc);
    place = (0, 0);
    characters.push(place)?;
    for piece in text.graphemes(true) {
        place = behind(place, piece);
        characters.push(place)?;
    }
    for unit in text.encode_utf16() {
        units.push(unit as u64)?;
    }
    let mut bytes = Vec::new(alloc);
    for byte in text.bytes() {
        bytes.push(byte as u64)?;
    }
    Ok(Plain {
        scalars,
        characters,
        bytes,
        units,
        utf16,
    })
}

impl Plain {
    /// A place in code units of the storage.
    fn stored(&self, place: Place) -> u64 {
        if self.utf16 { place.1 } else { place.0 }
    }

    /// The number of the last of these places that is not after place `p` of the storage.
    fn last_before(&self, places: &[Place], p: u64) -> usize {
        let mut number: usize = 0;
        for place in places.iter().skip(1) {
            if self.stored(*place) <= p {
                number = number.wrapping_add(1);
            }
        }
        number
    }

    /// The word of the scalar-aligned index of one of these places, or `REFUSED` where there is none of this number.
    fn word_of(&self, places: &[Place], number: usize) -> u64 {
        match places.get(number) {
            Some(place) => self
                .stored(*place)
                .wrapping_mul(65_536)
                .wrapping_add(if self.utf16 { 9 } else { 5 }),
            None => REFUSED,
        }
    }

    /// Where one of these places stands, or `REFUSED` where there is none of this number.
    fn position_of(&self, places: &[Place], number: usize) -> u64 {
        match places.get(number) {
            Some(place) => self.stored(*place),
            None => REFUSED,
        }
    }

    /// What every view answers at place `p` of the storage, in the order of `views::places_of`.
    fn answers_at(&self, p: u64) -> [u64; 16] {
        let scalars = self.scalars.as_slice();
        let characters = self.characters.as_slice();
        let number = self.last_before(scalars, p);
        let (byte, unit) = scalars.get(number).copied().unwrap_or((0, 0));
        // Inside a scalar the view of the storage's own code units keeps the place, and the other one goes down to the scalar.
        let byte = if self.utf16 { byte } else { p };
        let unit = if self.utf16 { p } else { unit };
        let floor = self.word_of(scalars, number);
        let mark: u64 = if self.utf16 { 8 } else { 4 };
        let resolved = p.wrapping_mul(65_536).wrapping_add(mark);
        let kept = if self.position_of(scalars, number) == p {
            floor
        } else {
            resolved
        };
        let character = self.last_before(characters, self.position_of(scalars, number));
        let own = if self.utf16 {
            self.units.get(p as usize)
        } else {
            self.bytes.get(p as usize)
        };
        [
            self.position_of(scalars, number),
            own.copied().unwrap_or(REFUSED),
            resolved,
            floor,
            if self.utf16 { floor } else { kept },
            if self.utf16 { kept } else { floor },
            self.word_of(scalars, number.wrapping_add(1)),
            self.word_of(scalars, number.wrapping_sub(1)),
            self.bytes.get(byte as usize).copied().unwrap_or(REFUSED),
            self.units.get(unit as usize).copied().unwrap_or(REFUSED),
            number as u64,
            byte,
            unit,
            self.position_of(characters, character),
            self.position_of(characters, character.wrapping_add(1)),
            character as u64,
        ]
    }

    /// How many scalars, bytes, units and Characters there are, in this order, and the words of each view's end.
    fn counts(&self) -> [u64; 7] {
        let last = self.scalars.len().wrapping_sub(1);
        let end = self.word_of(self.scalars.as_slice(), last);
        [
            last as u64,
            self.bytes.len() as u64,
            self.units.len() as u64,
            self.characters.len().wrapping_sub(1) as u64,
            end,
            end,
            end,
        ]
    }

    /// The position and the transcoded offset of the index of a UTF-16 offset, as `position * 4 + transcoded`.
    fn offset_at(&self, offset: u64) -> u64 {
        let mut position = REFUSED;
        for place in self.scalars.as_slice() {
            let (byte, unit) = *place;
            if unit <= offset {
                let (start, past) = if self.utf16 {
                    (offset, 0)
                } else {
                    (byte, offset.wrapping_sub(unit))
                };
                position = start.wrapping_mul(4).wrapping_add(past);
            }
        }
        if offset > self.units.len() as u64 {
            return REFUSED;
        }
        position
    }

    /// The longest front of at most 64 bytes and the longest end of so many that are whole scalars, by where they end and begin.
    fn edges(&self) -> (usize, usize) {
        let size = self.bytes.len() as u64;
        let mut front = 0;
        let mut back = size;
        for place in self.scalars.as_slice() {
            let (byte, _unit) = *place;
            if byte <= 64 {
                front = byte;
            }
            if back == size && size.wrapping_sub(byte) <= 64 {
                back = byte;
            }
        }
        (front as usize, back as usize)
    }
}

/// All readers and views over the value answer as the plain program does.
fn reads_as(
    rt: &impl Abort,
    alloc: Global,
    value: &mut Str,
    text: &str,
    row: &str,
) -> Result<(), OutOfMemory>
    ensures { value.new ≡ value.old }
{
    let plain = plain_of(alloc, text, value.encoding() == Encoding::Utf16)?;
    let scalars = read(alloc, value)?;
    assert_eq!(rt; scalars.as_str(), text, "{row}");
    let pieces = pieces_of(alloc, value)?;
    pieces_are(rt, &plain, &pieces, text, row);
    let counts = counts_of(value);
    assert_eq!(rt; counts, plain.counts(), "counts, {row}");
    let places = places_of(alloc, value)?;
    for (p, answers) in places.as_slice().iter().enumerate() {
        assert_eq!(rt; *answers, plain.answers_at(p as u64), "place {p}, {row}");
    }
    let offsets = offsets_of(alloc, value)?;
    for (offset, answer) in offsets.as_slice().iter().enumerate() {
        assert_eq!(rt;
            *answer,
            plain.offset_at(offset as u64),
            "offset {offset}, {row}"
        );
    }
    assert_eq!(rt;
        places.len() as u64,
        value.count().wrapping_add(1),
        "places, {row}"
    );
    assert_eq!(rt;
        offsets.len(),
        plain.units.len().wrapping_add(2),
        "offsets, {row}"
    );
    Ok(())
}

/// What is passed by runs, the first piece and the last one are those of the text.
fn pieces_are(rt: &impl Abort, plain: &Plain, pieces: &Pieces, text: &str, row: &str) {
    let (bytes, units) = plain.scalars.last().copied().unwrap_or((0, 0));
    let scalars = plain.counts()[0];
    let passed = if plain.utf16 {
        (units, bytes, scalars)
    } else {
        (bytes, units, scalars)
    };
    assert_eq!(rt; pieces.passed, passed, "runs, {row}");
    let (front, back) = plain.edges();
    assert_eq!(rt;
        Some(pieces.first.as_slice()),
        text.as_bytes().get(..front),
        "the first piece, {row}"
    );
    assert_eq!(rt;
        Some(pieces.last.as_slice()),
        text.as_bytes().get(back..),
        "the last piece, {row}"
    );
}

/// A value of the text stands in this form, and reads as the text does, with its breadcrumbs too where it learns them.
#[tactic(auto, using(value_heaps::proofs::Moving::of_heap_moves))]
fn value_reads(
    rt: &impl Abort,
    alloc: Global,
    slots: u32,
    source: Source,
    form: Form,
    text: &str,
) -> Result<(), MakeError> {
    let row = format!(in alloc; "{form:?} of {text:?}")?;
    let layout = layout(slots, 80, 5);
    let (heap, whole) = heap_of(rt, alloc, &layout, source, text)?;
    let mut pass = heap.pass(whole);
    let mut value = value_of(rt, alloc, &mut pass, source, text)?;
    assert_eq!(rt; value.form(), form, "{row}");
    reads_as(rt, alloc, &mut value, text, row.as_str())?;
    if learn(&mut value, &mut pass) == Learned::Known {
        reads_as(rt, alloc, &mut value, text, row.as_str())?;
    }
    value.release(&mut pass);
    let whole = ended(pass).expect(rt, "something is still out");
    assert_eq!(rt; closed(heap, whole), (slots, slots), "{row}");
    Ok(())
}

#[test]
fn short_texts_read_alike_in_every_form(rt: HostRuntime) -> Result<(), MakeError> {
    let rows = [
        (2, Source::Utf8, Form::Small),
        (2, Source::Utf16, Form::Foreign),
        (0, Source::Utf16, Form::Owned),
        (2, Source::Literal, Form::Literal),
    ];
    for (slots, source, form) in rows {
        for text in ["", "a", "aé€😀", "😀x€\u{301}é", "🇩🇪x\r\n", "aaaaaaaaaaaa€"] {
            value_reads(&rt, rt.alloc(), slots, source, form, text)?;
        }
    }
    Ok(())
}

#[test]
fn long_texts_read_alike_in_every_form(rt: HostRuntime) -> Result<(), MakeError> {
    let rows = [
        (2, Source::Utf8, Form::Native),
        (0, Source::Utf8, Form::Owned),
        (2, Source::Utf16, Form::Foreign),
        (0, Source::Utf16, Form::Owned),
        (2, Source::Literal, Form::Literal),
    ];
    let texts = [
        "aaaaaaaaaaaaaaaa",
        "aé€😀aé€😀é",
        "👨\u{200D}👩\u{200D}👧🇩🇪🇫🇷e\u{301}\u{301}x\r\n",
        "aaaaabbbbbcccccdddddeeeeefffffggggghhhhhiiiiijjjjjkkkkklllllmmmén",
        "xaé€😀😀😀😀😀😀😀😀😀😀😀😀😀😀😀😀😀😀😀😀😀😀😀😀😀😀😀😀😀😀😀😀😀😀😀éé",
    ];
    for (slots, source, form) in rows {
        for text in texts {
            value_reads(&rt, rt.alloc(), slots, source, form, text)?;
        }
    }
    Ok(())
}

/// A value of these units and its copy read as the text, in a heap of so many slots.
#[tactic(auto, using(value_heaps::proofs::Moving::of_heap_moves))]
fn units_read(
    rt: &impl Abort,
    alloc: Global,
    slots: u32,
    units: &[u16],
    text: &str,
) -> Result<(), MakeError> {
    let (heap, whole) = opened(alloc, &layout(slots, 8, 5), &TextList::new(alloc)).expect(
        rt, "a heap",
    );
    let mut pass = heap.pass(whole);
    let mut value = Str::from_utf16(alloc, &mut pass, units)?;
    reads_as(rt, alloc, &mut value, text, "units")?;
    let mut copy = value.copy(alloc, &mut pass)?;
    value.release(&mut pass);
    reads_as(rt, alloc, &mut copy, text, "a copy of units")?;
    copy.release(&mut pass);
    let whole = ended(pass).expect(rt, "something is still out");
    assert_eq!(rt; closed(heap, whole), (slots, slots), "{text:?}");
    Ok(())
}

#[test]
fn lone_halves_read_as_replacements_in_every_form(rt: HostRuntime) -> Result<(), MakeError> {
    let rows: [(&[u16], &str); 5] = [
        (&[0xD800, 0x41], "\u{FFFD}A"),
        (&[0xDE00, 0xD83D], "\u{FFFD}\u{FFFD}"),
        (&[0xDE00, 0xD83D, 0xDE00, 0xD83D], "\u{FFFD}😀\u{FFFD}"),
        (&[0x61, 0x61, 0x61, 0xD83D, 0xDE00, 0x62], "aaa😀b"),
        (
            &[0x61, 0x61, 0x61, 0xDBFF, 0x62, 0x62, 0x62, 0x62, 0xDFFF],
            "aaa\u{FFFD}bbbb\u{FFFD}",
        ),
    ];
    for (units, text) in rows {
        for slots in [0, 1] {
            units_read(&rt, rt.alloc(), slots, units, text)?;
        }
    }
    Ok(())
}
