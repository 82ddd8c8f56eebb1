//! Places of a text: the scalar boundaries that offsets in either encoding are rounded down to.
ghost use Rattle.std.specs.Prelude.{◌≡◌, ◌+◌, ◌-◌, ◌<◌, ◌≤◌, true, false, IfOk, IfErr, slice_get};
ghost use Rattle.text_spec.specs.Boundaries.{IsScalarBoundary};
ghost use Rattle.text_spec.specs.Offsets.{start, down, len_utf16};
ghost use Rattle.text_spec.specs.Views.{width_in, size_in};
ghost use Rattle.index_words.specs.Fields.{position_of, transcoded_of};
ghost use Rattle.unit_views.specs.declared.kind.ElementKind.TheVariants.{Units};
ghost use Rattle.rounding.specs.Elements.{IsIndexOf, IsPastCount};
ghost use Rattle.unit_views.specs.Elements.{same_encoding, elements_of};
ghost use Rattle.str_value.specs.Meaning.{storage_of, own_part};
ghost use Rattle.batch_workers.specs.Ops.{units, floor, is_out};
ghost use Rattle.batch_workers.specs.Boundaries.{IsBoundary};
ghost use Rattle.batch_workers.specs.Working.{IsQuick};

use index_words::Index;
use rounding::bounds;
use std::sync::ledger::Ledger;
use str_value::Str;
use text_spec::Encoding;
use unit_views::{ElementKind, calls, walk_on};
use utf16_view::utf16;
use word_units::{OutOfBounds, Steps, Text, boundary_at_or_before, scalar_at};

/// A scalar boundary of a text.
#[derive(Clone, Copy)]
pub(crate) struct Boundary {
    /// Where it stands in the storage, in code units of it.
    pub(crate) place: u64,
    /// Its offset in UTF-16 code units.
    pub(crate) utf16: u64,
    /// Its offset in UTF-8 bytes.
    pub(crate) utf8: u64,
}

/// A scalar boundary by one of its offsets.
#[derive(Clone, Copy)]
struct Edge {
    /// Where it stands in the storage, in code units of it.
    place: u64,
    /// Its offset in the unit that was asked for.
    offset: u64,
}

/// A part of a text, from one scalar boundary of its storage to another, in code units of the storage.
#[derive(Clone, Copy)]
pub(crate) struct Part {
    pub(crate) low: u64,
    pub(crate) high: u64,
}

/// The boundary that an offset in `unit` is rounded down to, or the text's length in `unit` where the offset is above it.
///
/// One pass over the text up to the boundary at most.
pub(crate) fn boundary_at<L: Ledger>(
    text: &mut Str,
    unit: Encoding,
    offset: u64,
    steps: &mut Steps<L>,
) -> Result<Boundary, u64>
    ensures boundary { IfOk result (IsBoundary (storage_of text.old.row) text.old.text (floor unit text.old.text offset)) }
    ensures inside { IfOk result (λ b. offset ≤ units unit text.old.text) }
    ensures past { IfErr result (λ length. (length ≡ units unit text.old.text) × (length < offset)) }
    ensures kept { text.new ≡ text.old }
    ensures cost { unit ≡ Encoding.Utf16 → IsQuick text.old → steps.new ≤ steps.old + 128 }
{
    let edge = edge_at(text, unit, offset, steps)?;
    Ok(boundary_of(text, unit, edge, steps))
}

/// The part of a text between the boundaries that two offsets in UTF-16 code units are rounded down to; or the text's length in UTF-16
/// code units where one of them is above it, or the first is above the second.
///
/// One pass over the text up to the later boundary at most, or over all of it for the length.
pub(crate) fn part_at<L: Ledger>(
    text: &mut Str,
    a: u64,
    b: u64,
    steps: &mut Steps<L>,
) -> Result<Part, u64>
    ensures low { IfOk result (λ p. p.low ≡ start (width_in (storage_of text.old.row)) text.old.text (floor Encoding.Utf16 text.old.text a)) }
    ensures high { IfOk result (λ p. p.high ≡ start (width_in (storage_of text.old.row)) text.old.text (floor Encoding.Utf16 text.old.text b)) }
    ensures order { IfOk result (λ p. a ≤ b) }
    ensures inside { IfOk result (λ p. is_out text.old.text a b ≡ false) }
    ensures out { IfErr result (λ length. is_out text.old.text a b ≡ true) }
    ensures length { IfErr result (λ length. length ≡ units Encoding.Utf16 text.old.text) }
    ensures kept { text.new ≡ text.old }
{
    if b < a {
        return Err(utf16::count(text, steps));
    }
    let low = edge_at(text, Encoding::Utf16, a, steps)?;
    let high = place_from(text, low, b, steps)?;
    Ok(Part {
        low: low.place,
        high,
    })
}

/// The number of the scalar that begins at a boundary of the storage, or none at the text's end.
pub(crate) fn scalar_from<L: Ledger>(
    text: &mut Str,
    place: u64,
    steps: &mut Steps<L>,
) -> Option<u32>
    requires inside { place ≤ size_in (storage_of text.old.row) text.old.text }
    requires boundary { IsScalarBoundary (width_in (storage_of text.old.row)) text.old.text place }
    ensures value { result ≡ slice_get text.old.text (down (width_in (storage_of text.old.row)) text.old.text place) }
    ensures kept { text.new ≡ text.old }
    ensures cost { steps.new ≤ steps.old + 2 }
{
    if place >= text.count() {
        return None;
    }
    let (scalar, _width) = scalar_at(text, place, steps);
    Some(scalar as u32)
}

// The boundary that an offset in `unit` is rounded down to; or the text's length in `unit` where the offset is above it.
fn edge_at<L: Ledger>(
    text: &mut Str,
    unit: Encoding,
    offset: u64,
    steps: &mut Steps<L>,
) -> Result<Edge, u64>
    ensures place { IfOk result (λ e. e.place ≡ start (width_in (storage_of text.old.row)) text.old.text (floor unit text.old.text offset)) }
    ensures offset { IfOk result (λ e. e.offset ≡ start (width_in unit) text.old.text (floor unit text.old.text offset)) }
    ensures inside { IfOk result (λ e. offset ≤ units unit text.old.text) }
    ensures past { IfErr result (λ length. (length ≡ units unit text.old.text) × (length < offset)) }
    ensures kept { text.new ≡ text.old }
    ensures cost { unit ≡ Encoding.Utf16 → IsQuick text.old → steps.new ≤ steps.old + 128 }
{
    let _count = text.count();
    match index_at(text, unit, offset, steps) {
        Ok(index) => Ok(rounded(text, offset, index, steps)),
        Err(out) => Err(out.high),
    }
}

// The index of an offset in `unit`.
fn index_at<L: Ledger>(
    text: &mut Str,
    unit: Encoding,
    offset: u64,
    steps: &mut Steps<L>,
) -> Result<Index, OutOfBounds>
    ensures index { IfOk result (IsIndexOf (elements_of (Units unit) (own_part text.old)) offset) }
    ensures refused { IfErr result (IsPastCount (elements_of (Units unit) (own_part text.old)) offset) }
    ensures kept { text.new ≡ text.old }
    ensures cost { unit ≡ Encoding.Utf16 → IsQuick text.old → steps.new ≤ steps.old + 126 }
{
    match unit {
        Encoding::Utf8 => calls::index_of_offset(
            text,
            ElementKind::Units(Encoding::Utf8),
            offset,
            steps,
        ),
        Encoding::Utf16 => utf16::index_of_offset(text, offset, steps),
    }
}

// The boundary that the index of an element is rounded down to, where `offset` is the element's.
fn rounded<L: Ledger>(text: &mut Str, offset: u64, index: Index, steps: &mut Steps<L>) -> Edge
    requires { position_of index ≤ size_in (storage_of text.old.row) text.old.text }
    ensures place { result.place ≡ start (width_in (storage_of text.old.row)) text.old.text
        (down (width_in (storage_of text.old.row)) text.old.text (position_of index)) }
    ensures offset { result.offset ≡ offset - (position_of index - result.place) - transcoded_of index }
    ensures kept { text.new ≡ text.old }
    ensures cost { steps.new ≤ steps.old + 2 }
{
    let place = boundary_at_or_before(text, index.position(), steps);
    // one of the two is 0: the storage's units that lie between, and the other encoding's
    let passed = index.position().saturating_sub(place);
    let transcoded = index.transcoded() as u64;
    Edge {
        place,
        offset: offset.saturating_sub(passed).saturating_sub(transcoded),
    }
}

// Where the boundary stands in the storage that a later offset in UTF-16 code units is rounded down to; or the text's length in them
// where the offset is above it. A walk begins at the boundary `from`.
fn place_from<L: Ledger>(
    text: &mut Str,
    from: Edge,
    offset: u64,
    steps: &mut Steps<L>,
) -> Result<u64, u64>
    requires inside { from.place ≤ size_in (storage_of text.old.row) text.old.text }
    requires boundary { IsScalarBoundary (width_in (storage_of text.old.row)) text.old.text from.place }
    requires from { from.offset ≡ start len_utf16 text.old.text (down (width_in (storage_of text.old.row)) text.old.text from.place) }
    requires later { from.offset ≤ offset }
    ensures place { IfOk result (λ p. p ≡ start (width_in (storage_of text.old.row)) text.old.text (floor Encoding.Utf16 text.old.text offset)) }
    ensures inside { IfOk result (λ p. offset ≤ units Encoding.Utf16 text.old.text) }
    ensures past { IfErr result (λ length. (length ≡ units Encoding.Utf16 text.old.text) × (length < offset)) }
    ensures kept { text.new ≡ text.old }
{
    match text.encoding() {
        Encoding::Utf8 => place_across(text, from, offset, steps),
        Encoding::Utf16 => place_of_unit(text, offset, steps),
    }
}

// The same in UTF-16 storage.
fn place_of_unit<L: Ledger>(text: &mut Str, offset: u64, steps: &mut Steps<L>) -> Result<u64, u64>
    requires { storage_of text.old.row ≡ Encoding.Utf16 }
    ensures place { IfOk result (λ p. p ≡ start (width_in (storage_of text.old.row)) text.old.text (floor Encoding.Utf16 text.old.text offset)) }
    ensures inside { IfOk result (λ p. offset ≤ units Encoding.Utf16 text.old.text) }
    ensures past { IfErr result (λ length. (length ≡ units Encoding.Utf16 text.old.text) × (length < offset)) }
    ensures kept { text.new ≡ text.old }
{
    let count = text.count();
    if count < offset {
        return Err(count);
    }
    Ok(boundary_at_or_before(text, offset, steps))
}

// The same in UTF-8 storage, by a walk from one boundary to the other.
fn place_across<L: Ledger>(
    text: &mut Str,
    from: Edge,
    offset: u64,
    steps: &mut Steps<L>,
) -> Result<u64, u64>
    requires across { same_encoding Encoding.Utf16 (storage_of text.old.row) ≡ false }
    requires inside { from.place ≤ size_in (storage_of text.old.row) text.old.text }
    requires boundary { IsScalarBoundary (width_in (storage_of text.old.row)) text.old.text from.place }
    requires from { from.offset ≡ start len_utf16 text.old.text (down (width_in (storage_of text.old.row)) text.old.text from.place) }
    requires later { from.offset ≤ offset }
    ensures place { IfOk result (λ p. p ≡ start (width_in (storage_of text.old.row)) text.old.text (floor Encoding.Utf16 text.old.text offset)) }
    ensures inside { IfOk result (λ p. offset ≤ units Encoding.Utf16 text.old.text) }
    ensures past { IfErr result (λ length. (length ≡ units Encoding.Utf16 text.old.text) × (length < offset)) }
    ensures kept { text.new ≡ text.old }
{
    let (_low, high) = bounds(text);
    let room = offset - from.offset;
    let view = ElementKind::Units(Encoding::Utf16);
    let (at, reached) = walk_on(text, view, from.place, high, room, steps);
    if at == high && reached < room {
        return Err(from.offset + reached);
    }
    Ok(at)
}

// A boundary with its offsets in both encodings, of which that in `unit` is known.
fn boundary_of<L: Ledger>(
    text: &mut Str,
    unit: Encoding,
    edge: Edge,
    steps: &mut Steps<L>,
) -> Boundary
    requires inside { edge.place ≤ size_in (storage_of text.old.row) text.old.text }
    requires boundary { IsScalarBoundary (width_in (storage_of text.old.row)) text.old.text edge.place }
    requires offset { edge.offset ≡ start (width_in unit) text.old.text (down (width_in (storage_of text.old.row)) text.old.text edge.place) }
    ensures boundary { IsBoundary (storage_of text.old.row) text.old.text (down (width_in (storage_of text.old.row)) text.old.text edge.place) result }
    ensures kept { text.new ≡ text.old }
    ensures cost { unit ≡ Encoding.Utf16 → storage_of text.old.row ≡ Encoding.Utf8 → steps.new ≡ steps.old }
{
    match unit {
        Encoding::Utf8 => Boundary {
            place: edge.place,
            utf16: offset_in(text, Encoding::Utf16, edge.place, steps),
            utf8: edge.offset,
        },
        Encoding::Utf16 => Boundary {
            place: edge.place,
            utf16: edge.offset,
            utf8: offset_in(text, Encoding::Utf8, edge.place, steps),
        },
    }
}

// The offset of a boundary in an encoding: its place where that is the storage's, and else by one pass up to it.
fn offset_in<L: Ledger>(text: &mut Str, unit: Encoding, place: u64, steps: &mut Steps<L>) -> u64
    requires inside { place ≤ size_in (storage_of text.old.row) text.old.text }
    requires boundary { IsScalarBoundary (width_in (storage_of text.old.row)) text.old.text place }
    ensures offset { result ≡ start (width_in unit) text.old.text (down (width_in (storage_of text.old.row)) text.old.text place) }
    ensures kept { text.new ≡ text.old }
    ensures cost { storage_of text.old.row ≡ unit → steps.new ≡ steps.old }
{
    match text.encoding() {
        Encoding::Utf8 => match unit {
            Encoding::Utf8 => place,
            Encoding::Utf16 => units_before(text, unit, place, steps),
        },
        Encoding::Utf16 => match unit {
            Encoding::Utf8 => units_before(text, unit, place, steps),
            Encoding::Utf16 => place,
        },
    }
}

// How many code units of an encoding that isn't the storage's lie before a boundary, in one pass up to it.
fn units_before<L: Ledger>(text: &mut Str, unit: Encoding, place: u64, steps: &mut Steps<L>) -> u64
    requires across { same_encoding unit (storage_of text.old.row) ≡ false }
    requires inside { place ≤ size_in (storage_of text.old.row) text.old.text }
    requires boundary { IsScalarBoundary (width_in (storage_of text.old.row)) text.old.text place }
    ensures units { result ≡ start (width_in unit) text.old.text (down (width_in (storage_of text.old.row)) text.old.text place) }
    ensures kept { text.new ≡ text.old }
{
    let _count = text.count();
    let (_at, before) = walk_on(text, ElementKind::Units(unit), 0, place, u64::MAX, steps);
    before
}
