//! What rounding and the views answer of a text, at each of its places.
ghost use Rattle.std.specs.Prelude.{◌≡◌};

use char_view::characters;
use index_words::Index;
use rounding::{resolve, scalar_floor, utf8_floor, utf16_floor};
use std::alloc::Global;
use std::marker::Brand;
use std::sync::ledger::{Blank, Ledger};
use str_value::Str;
use text_spec::{Encoding, OutOfMemory};
use unit_views::{scalars, utf8};
use utf16_view::utf16;
use word_units::{OutOfBounds, Steps, Text, boundary_at_or_before, byte_at, unit_at};

/// The answer in place of a refusal.
pub(crate) const REFUSED: u64 = 0xFFFF_FFFF_FFFF_FFFF;

fn word_of(answer: Result<Index, OutOfBounds>) -> u64 {
    match answer {
        Ok(index) => index.bits(),
        Err(_) => REFUSED,
    }
}

fn size_of(answer: Result<i64, OutOfBounds>) -> u64 {
    match answer {
        Ok(distance) => distance.unsigned_abs(),
        Err(_) => REFUSED,
    }
}

/// The code unit of the storage at a place.
fn unit_of<T: Text, L: Ledger>(t: &mut T, p: u64, steps: &mut Steps<L>) -> u64
    ensures { t.new ≡ t.old }
{
    if p >= t.count() {
        return REFUSED;
    }
    match t.encoding() {
        Encoding::Utf8 => byte_at(t, p, steps) as u64,
        Encoding::Utf16 => unit_at(t, p, steps) as u64,
    }
}

/// The words of a resolved index, and of its floors among scalars, UTF-8 and UTF-16.
fn floors_of<T: Text, L: Ledger>(t: &mut T, i: Index, steps: &mut Steps<L>) -> [u64; 4]
    ensures { t.new ≡ t.old }
{
    match resolve(t, i, steps) {
        Ok(found) => {
            let scalar = scalar_floor(t, found, steps);
            let byte = utf8_floor(t, found, steps);
            let unit = utf16_floor(t, found, steps);
            [found.bits(), scalar.bits(), byte.bits(), unit.bits()]
        }
        Err(_) => [REFUSED; 4],
    }
}

/// The words of the index after and before, and the elements of UTF-8 and UTF-16.
fn neighbours_of<T: Text, L: Ledger>(t: &mut T, i: Index, steps: &mut Steps<L>) -> [u64; 4]
    ensures { t.new ≡ t.old }
{
    let after = word_of(scalars::after(t, i, steps));
    let before = word_of(scalars::before(t, i, steps));
    let byte = match utf8::element(t, i, steps) {
        Ok(byte) => byte as u64,
        Err(_) => REFUSED,
    };
    let unit = match utf16::element(t, i, steps) {
        Ok(unit) => unit as u64,
        Err(_) => REFUSED,
    };
    [after, before, byte, unit]
}

/// How many scalars, bytes and units lie before an index.
fn distances_of<T: Text, L: Ledger>(t: &mut T, i: Index, steps: &mut Steps<L>) -> [u64; 3]
    ensures { t.new ≡ t.old }
{
    let start = scalars::start(t);
    let before = size_of(scalars::distance(t, start, i, steps));
    let start = utf8::start(t);
    let bytes = size_of(utf8::distance(t, start, i, steps));
    let units = match utf16::offset_of_index(t, i, steps) {
        Ok(offset) => offset,
        Err(_) => REFUSED,
    };
    [before, bytes, units]
}

/// Where the Character of an index begins and ends, and how many lie before it.
fn character_of<T: Text, L: Ledger>(t: &mut T, i: Index, steps: &mut Steps<L>) -> [u64; 3]
    ensures { t.new ≡ t.old }
{
    let start = characters::start(t, steps);
    let from = match characters::floor(t, i, steps) {
        Ok(index) => index.position(),
        Err(_) => REFUSED,
    };
    let to = match characters::after(t, i, steps) {
        Ok(index) => index.position(),
        Err(_) => REFUSED,
    };
    [from, to, size_of(characters::distance(t, start, i, steps))]
}

fn answers_at<T: Text, L: Ledger>(t: &mut T, p: u64, steps: &mut Steps<L>) -> [u64; 16]
    ensures { t.new ≡ t.old }
{
    let count = t.count();
    let Some(i) = Index::check(p.wrapping_mul(65_536)) else {
        return [REFUSED; 16];
    };
    if p > count {
        return [REFUSED; 16];
    }
    let boundary = boundary_at_or_before(t, p, steps);
    let own = unit_of(t, p, steps);
    let [resolved, scalar, byte_floor, unit_floor] = floors_of(t, i, steps);
    let [after, before, byte, unit] = neighbours_of(t, i, steps);
    let [scalars, bytes, units] = distances_of(t, i, steps);
    let [from, to, characters] = character_of(t, i, steps);
    [
        boundary, own, resolved, scalar, byte_floor, unit_floor, after, before, byte, unit,
        scalars, bytes, units, from, to, characters,
    ]
}

fn places_with<L: Ledger>(
    alloc: Global,
    value: &mut Str,
    blank: Blank,
) -> Result<Vec<[u64; 16]>, OutOfMemory>
    requires name { blank.name ≡ L.name }
    requires parts { blank.parts ≡ L.parts }
    requires one { blank.parts ≡ 1 }
    ensures { value.new ≡ value.old }
{
    let mut steps = Steps::<L>::from_blank(blank);
    let mut places = Vec::new(alloc);
    for p in 0..value.count().wrapping_add(1) {
        let answers = answers_at(value, p, &mut steps);
        places.push(answers)?;
    }
    Ok(places)
}

/// What is answered at each place of a value's storage, the end too: the scalar boundary at or before it, the code unit, the word of the
/// resolved index and of its floors among scalars, UTF-8 and UTF-16, the scalar after and before, the elements of UTF-8 and UTF-16, how
/// many scalars, bytes and units lie before, where its Character begins and ends, and how many of these lie before.
pub(crate) fn places_of(alloc: Global, value: &mut Str) -> Result<Vec<[u64; 16]>, OutOfMemory>
    ensures { value.new ≡ value.old }
{
    places_with::<Brand>(alloc, value, Blank::new(1))
}

fn counts_with<L: Ledger>(value: &mut Str, blank: Blank) -> [u64; 7]
    requires name { blank.name ≡ L.name }
    requires parts { blank.parts ≡ L.parts }
    requires one { blank.parts ≡ 1 }
    ensures { value.new ≡ value.old }
{
    let mut steps = Steps::<L>::from_blank(blank);
    let scalars = scalars::count(value, &mut steps);
    let bytes = utf8::count(value, &mut steps);
    let units = utf16::count(value, &mut steps);
    let characters = characters::count(value, &mut steps);
    [
        scalars,
        bytes,
        units,
        characters,
        scalars::end(value).bits(),
        utf8::end(value).bits(),
        utf16::end(value).bits(),
    ]
}

/// How many scalars, bytes, units and Characters a value has, and the words of the ends of the first three views.
pub(crate) fn counts_of(value: &mut Str) -> [u64; 7]
    ensures { value.new ≡ value.old }
{
    counts_with::<Brand>(value, Blank::new(1))
}

fn offsets_with<L: Ledger>(
    alloc: Global,
    value: &mut Str,
    blank: Blank,
) -> Result<Vec<u64>, OutOfMemory>
    requires name { blank.name ≡ L.name }
    requires parts { blank.parts ≡ L.parts }
    requires one { blank.parts ≡ 1 }
    ensures { value.new ≡ value.old }
{
    let mut steps = Steps::<L>::from_blank(blank);
    let mut offsets = Vec::new(alloc);
    let end = utf16::count(value, &mut steps).wrapping_add(2);
    for offset in 0..end {
        let place = match utf16::index_of_offset(value, offset, &mut steps) {
            Ok(index) => index
                .position()
                .wrapping_mul(4)
                .wrapping_add(index.transcoded() as u64),
            Err(_) => REFUSED,
        };
        offsets.push(place)?;
    }
    Ok(offsets)
}

/// The position and the transcoded offset of the index of each UTF-16 offset, as `position * 4 + transcoded`; one past the end too.
pub(crate) fn offsets_of(alloc: Global, value: &mut Str) -> Result<Vec<u64>, OutOfMemory>
    ensures { value.new ≡ value.old }
{
    offsets_with::<Brand>(alloc, value, Blank::new(1))
}
