//! Every call over a text, at a value in each storage: what no clause says is that it is there for values.
ghost use Rattle.std.specs.Prelude.{◌≡◌, ◌<◌};
ghost use Rattle.text_spec.specs.Views.{size_in};
ghost use Rattle.str_value.specs.Meaning.{storage_of};

use crate::heaps::{SLOTS, heap_of};
use index_words::Index;
use rounding::{bounds, resolve, scalar_floor, utf8_floor, utf16_floor};
use std::marker::Brand;
use std::process::Abort;
use std::sync::ledger::{Blank, Ledger};
use str_value::{MakeError, Str};
use text_spec::Encoding;
use unit_views::{ElementKind, calls, scalars, utf8};
use utf16_view::utf16;
use word_units::{
    OutOfBounds, Steps, Text, boundary_at_or_before, byte_at, fill_backward, fill_forward,
    pass_scalar, scalar_at, unit_at,
};

/// The position of an answer, or none where the call refused.
fn place(answer: Result<Index, OutOfBounds>) -> Option<u64> {
    match answer {
        Ok(index) => Some(index.position()),
        Err(_) => None,
    }
}

/// What the calls of one view answer: the end, the count, the first element; one element on from the start, one back from the end, two on
/// from the start; and whether the distance back is the count below 0.
macro_rules! view_answers {
    ($view:ident, $value:expr, $steps:expr, $first:expr, $count:expr) => {{
        let start = $view::start(&*$value);
        let end = $view::end(&*$value);
        let count = $view::count($value, $steps);
        let first = $view::element($value, start, $steps) == Ok($first);
        let after = place($view::after($value, start, $steps));
        let before = place($view::before($value, end, $steps));
        let two_on = place($view::offset_by($value, start, 2, $steps));
        let back = $view::distance($value, end, start, $steps) == Ok(-$count);
        (
            (start.position(), end.position(), count),
            (after, before, two_on),
            (first, back),
        )
    }};
}

type Answers = (
    (u64, u64, u64),
    (Option<u64>, Option<u64>, Option<u64>),
    (bool, bool),
);

fn scalar_answers<L: Ledger>(value: &mut Str, blank: Blank) -> Answers
    requires name { blank.name ≡ L.name }
    requires parts { blank.parts ≡ L.parts }
    requires one { blank.parts ≡ 1 }
{
    let mut steps = Steps::<L>::from_blank(blank);
    view_answers!(scalars, value, &mut steps, 'é', 2)
}

fn byte_answers<L: Ledger>(value: &mut Str, blank: Blank) -> Answers
    requires name { blank.name ≡ L.name }
    requires parts { blank.parts ≡ L.parts }
    requires one { blank.parts ≡ 1 }
{
    let mut steps = Steps::<L>::from_blank(blank);
    view_answers!(utf8, value, &mut steps, 0xC3, 6)
}

fn unit_answers<L: Ledger>(value: &mut Str, blank: Blank) -> Answers
    requires name { blank.name ≡ L.name }
    requires parts { blank.parts ≡ L.parts }
    requires one { blank.parts ≡ 1 }
{
    let mut steps = Steps::<L>::from_blank(blank);
    view_answers!(utf16, value, &mut steps, 0xE9, 3)
}

/// Offsets as indices and back, and the floors of the index of UTF-8 byte 3.
fn floors<L: Ledger>(value: &mut Str, blank: Blank) -> [Option<u64>; 6]
    requires name { blank.name ≡ L.name }
    requires parts { blank.parts ≡ L.parts }
    requires one { blank.parts ≡ 1 }
{
    let mut steps = Steps::<L>::from_blank(blank);
    let (_low, high) = bounds(&*value);
    let second = place(utf16::index_of_offset(value, 1, &mut steps));
    let asked = Index::new(3, 0, Encoding::Utf8);
    let offset = utf16::offset_of_index(value, asked, &mut steps).ok();
    let bytes = calls::offset_of_index(
        value,
        ElementKind::Units(Encoding::Utf8),
        asked,
        &mut steps,
    ).ok();
    match resolve(value, asked, &mut steps) {
        Ok(index) => {
            let scalar = scalar_floor(value, index, &mut steps).position();
            let byte = utf8_floor(value, index, &mut steps).position();
            let unit = utf16_floor(value, index, &mut steps).position();
            [
                second,
                offset,
                bytes,
                Some(scalar),
                Some(byte),
                Some(high + unit),
            ]
        }
        Err(_) => [second, offset, bytes, None, None, None],
    }
}

/// The first code unit, as its reader reads it.
fn first_unit<L: Ledger>(value: &mut Str, steps: &mut Steps<L>) -> u16
    requires { 0 < size_in (storage_of value.old.row) value.old.text }
    ensures { value.new ≡ value.old }
{
    match value.encoding() {
        Encoding::Utf8 => byte_at(value, 0, steps) as u16,
        Encoding::Utf16 => unit_at(value, 0, steps),
    }
}

/// The first scalar, and where the next one begins.
fn first_char<L: Ledger>(value: &mut Str, steps: &mut Steps<L>) -> (char, u64)
    requires { 0 < size_in (storage_of value.old.row) value.old.text }
    ensures { value.new ≡ value.old }
{
    let (scalar, width) = scalar_at(value, 0, steps);
    (scalar, width as u64)
}

fn second_place<L: Ledger>(value: &mut Str, steps: &mut Steps<L>) -> u64
    requires { 0 < size_in (storage_of value.old.row) value.old.text }
    ensures { value.new ≡ value.old }
{
    let (next, _units) = pass_scalar(value, 0, steps);
    next
}

/// How many bytes of UTF-8 a piece of the text takes, from the start and up to the end.
fn forward<L: Ledger>(value: &mut Str, steps: &mut Steps<L>) -> usize
    ensures { value.new ≡ value.old }
{
    let mut piece = [0; 64];
    let (size, _place) = fill_forward(value, 0, &mut piece, steps);
    size
}

fn backward<L: Ledger>(value: &mut Str, steps: &mut Steps<L>) -> usize
    ensures { value.new ≡ value.old }
{
    let high = value.high();
    let mut piece = [0; 64];
    let (size, _place) = fill_backward(value, high, &mut piece, steps);
    size
}

/// What the readers of words say of the first scalar, é.
fn first_scalar<L: Ledger>(value: &mut Str, blank: Blank) -> First
    requires name { blank.name ≡ L.name }
    requires parts { blank.parts ≡ L.parts }
    requires one { blank.parts ≡ 1 }
{
    let mut steps = Steps::<L>::from_blank(blank);
    if value.count() == 0 {
        return (0, 0, 0, 'x', 0, 0);
    }
    let unit = first_unit(value, &mut steps);
    let (scalar, width) = first_char(value, &mut steps);
    let next = second_place(value, &mut steps);
    let floor = boundary_at_or_before(value, 1, &mut steps);
    let sizes = (forward(value, &mut steps), backward(value, &mut steps));
    (unit, floor, next.max(width), scalar, sizes.0, sizes.1)
}

type First = (u16, u64, u64, char, usize, usize);

fn answers_are<A: Abort>(
    rt: &A,
    value: &mut Str,
    views: [Answers; 3],
    rounded: [Option<u64>; 6],
    first: First,
) {
    assert_eq!(rt; scalar_answers::<Brand>(value, Blank::new(1)), views[0]);
    assert_eq!(rt; byte_answers::<Brand>(value, Blank::new(1)), views[1]);
    assert_eq!(rt; unit_answers::<Brand>(value, Blank::new(1)), views[2]);
    assert_eq!(rt; floors::<Brand>(value, Blank::new(1)), rounded);
    assert_eq!(rt; first_scalar::<Brand>(value, Blank::new(1)), first);
}

#[test]
fn each_call_over_a_text_is_there_for_values(rt: HostRuntime) -> Result<(), MakeError> {
    for slots in SLOTS {
        let (heap, all) = heap_of(&rt, rt.alloc(), slots)?;
        let mut pass = heap.pass(all);
        let mut value = Str::from_utf8(rt.alloc(), &mut pass, "é😀".as_bytes())?;
        answers_are(
            &rt,
            &mut value,
            [
                ((0, 6, 2), (Some(2), Some(2), Some(6)), (true, true)),
                ((0, 6, 6), (Some(1), Some(5), Some(2)), (true, true)),
                ((0, 6, 3), (Some(2), Some(2), Some(2)), (true, true)),
            ],
            [Some(2), Some(1), Some(3), Some(2), Some(3), Some(8)],
            (0xC3, 0, 2, 'é', 6, 6),
        );
        let mut value = Str::from_utf16(rt.alloc(), &mut pass, &[0xE9, 0xD83D, 0xDE00])?;
        answers_are(
            &rt,
            &mut value,
            [
                ((0, 3, 2), (Some(1), Some(1), Some(3)), (true, true)),
                ((0, 3, 6), (Some(0), Some(1), Some(1)), (true, true)),
                ((0, 3, 3), (Some(1), Some(2), Some(2)), (true, true)),
            ],
            [Some(1), Some(1), Some(3), Some(1), Some(1), Some(4)],
            (0xE9, 1, 1, 'é', 6, 6),
        );
    }
    Ok(())
}
