//! Every call over a text, at a slice in each storage: what no clause says is that it is there for slices.
ghost use Rattle.std.specs.Prelude.{◌≡◌, ◌<◌};
ghost use Rattle.text_spec.specs.Views.{size_in};
ghost use Rattle.str_value.specs.Meaning.{storage_of};

use crate::Sub;
use crate::tests::{SLOTS, Source, base_of, cut, heap_of};
use char_view::characters;
use index_words::Index;
use rounding::{bounds, resolve, scalar_floor, utf8_floor, utf16_floor};
use std::alloc::Global;
use std::marker::Brand;
use std::process::Abort;
use std::sync::ledger::{Blank, Ledger};
use str_value::MakeError;
use text_spec::Encoding;
use unit_views::{ElementKind, calls, scalars, utf8};
use utf16_view::utf16;
use word_units::{
    OutOfBounds, Steps, Text, boundary_at_or_before, byte_at, fill_backward, fill_forward,
    pass_scalar, scalar_at, unit_at,
};

/// The position of an answer, or none where the call refused.
fn place(answer: Result<Index, OutOfBounds>) -> Option<u64> {
    match answer {
        Ok(index) => Some(index.position()),
        Err(_) => None,
    }
}

/// What the calls of one view answer: the start, the end, the count; one element on from the start, one back from the end, two on
/// from the start; whether the first element is this one, and whether the distance back is the count below 0.
macro_rules! view_answers {
    ($view:ident, $sub:expr, $steps:expr, $first:expr, $count:expr) => {{
        let start = $view::start(&*$sub);
        let end = $view::end(&*$sub);
        let count = $view::count($sub, $steps);
        let first = $view::element($sub, start, $steps) == Ok($first);
        let after = place($view::after($sub, start, $steps));
        let before = place($view::before($sub, end, $steps));
        let two_on = place($view::offset_by($sub, start, 2, $steps));
        let back = $view::distance($sub, end, start, $steps) == Ok(-$count);
        (
            (start.position(), end.position(), count),
            (after, before, two_on),
            (first, back),
        )
    }};
}

type Answers = (
    (u64, u64, u64),
    (Option<u64>, Option<u64>, Option<u64>),
    (bool, bool),
);

fn scalar_answers<L: Ledger>(sub: &mut Sub, blank: Blank) -> Answers
    requires name { blank.name ≡ L.name }
    requires parts { blank.parts ≡ L.parts }
    requires one { blank.parts ≡ 1 }
{
    let mut steps = Steps::<L>::from_blank(blank);
    view_answers!(scalars, sub, &mut steps, 'é', 2)
}

fn byte_answers<L: Ledger>(sub: &mut Sub, blank: Blank) -> Answers
    requires name { blank.name ≡ L.name }
    requires parts { blank.parts ≡ L.parts }
    requires one { blank.parts ≡ 1 }
{
    let mut steps = Steps::<L>::from_blank(blank);
    view_answers!(utf8, sub, &mut steps, 0xC3, 6)
}

fn unit_answers<L: Ledger>(sub: &mut Sub, blank: Blank) -> Answers
    requires name { blank.name ≡ L.name }
    requires parts { blank.parts ≡ L.parts }
    requires one { blank.parts ≡ 1 }
{
    let mut steps = Steps::<L>::from_blank(blank);
    view_answers!(utf16, sub, &mut steps, 0xE9, 3)
}

/// Offsets as indices and back, and the floors of the place one code unit before the end.
fn floors<L: Ledger>(sub: &mut Sub, blank: Blank) -> [Option<u64>; 6]
    requires name { blank.name ≡ L.name }
    requires parts { blank.parts ≡ L.parts }
    requires one { blank.parts ≡ 1 }
{
    let mut steps = Steps::<L>::from_blank(blank);
    let (_low, high) = bounds(&*sub);
    let second = place(utf16::index_of_offset(sub, 1, &mut steps));
    let asked = Index::new(high.saturating_sub(1), 0, sub.encoding());
    let offset = utf16::offset_of_index(sub, asked, &mut steps).ok();
    let bytes = calls::offset_of_index(
        sub,
        ElementKind::Units(Encoding::Utf8),
        asked,
        &mut steps,
    ).ok();
    match resolve(sub, asked, &mut steps) {
        Ok(index) => {
            let scalar = scalar_floor(sub, index, &mut steps).position();
            let byte = utf8_floor(sub, index, &mut steps).position();
            let unit = utf16_floor(sub, index, &mut steps).position();
            [second, offset, bytes, Some(scalar), Some(byte), Some(unit)]
        }
        Err(_) => [second, offset, bytes, None, None, None],
    }
}

/// The code unit at a place, as its reader reads it.
fn unit_of<L: Ledger>(sub: &mut Sub, at: u64, steps: &mut Steps<L>) -> u16
    requires { at < size_in (storage_of sub.old.base.row) sub.old.base.text }
    ensures { sub.new ≡ sub.old }
{
    match sub.encoding() {
        Encoding::Utf8 => byte_at(sub, at, steps) as u16,
        Encoding::Utf16 => unit_at(sub, at, steps),
    }
}

/// The scalar at the start, and how many code units it takes.
fn first_char<L: Ledger>(sub: &mut Sub, steps: &mut Steps<L>) -> (char, u32)
    ensures { sub.new ≡ sub.old }
{
    let at = sub.low();
    if at >= sub.count() {
        return ('x', 0);
    }
    scalar_at(sub, at, steps)
}

/// Where the scalar after it begins.
fn second_place<L: Ledger>(sub: &mut Sub, steps: &mut Steps<L>) -> u64
    ensures { sub.new ≡ sub.old }
{
    let at = sub.low();
    if at >= sub.count() {
        return at;
    }
    let (next, _units) = pass_scalar(sub, at, steps);
    next
}

/// How many bytes of UTF-8 a piece of the text takes, from the start and up to the end.
fn forward<L: Ledger>(sub: &mut Sub, steps: &mut Steps<L>) -> usize
    ensures { sub.new ≡ sub.old }
{
    let low = sub.low();
    let _high = sub.high();
    let mut piece = [0; 64];
    let (size, _place) = fill_forward(sub, low, &mut piece, steps);
    size
}

fn backward<L: Ledger>(sub: &mut Sub, steps: &mut Steps<L>) -> usize
    ensures { sub.new ≡ sub.old }
{
    let _low = sub.low();
    let high = sub.high();
    let mut piece = [0; 64];
    let (size, _place) = fill_backward(sub, high, &mut piece, steps);
    size
}

type First = (u16, u64, u64, (char, u32), usize, usize);

/// What the readers of words say of the first scalar: its first code unit, the boundary at or before the next code unit, where the next
/// scalar begins, the scalar with its width, and the sizes of the pieces.
fn first_scalar<L: Ledger>(sub: &mut Sub, blank: Blank) -> First
    requires name { blank.name ≡ L.name }
    requires parts { blank.parts ≡ L.parts }
    requires one { blank.parts ≡ 1 }
{
    let mut steps = Steps::<L>::from_blank(blank);
    let at = sub.low();
    if at >= sub.count() {
        return (0, 0, 0, ('x', 0), 0, 0);
    }
    let unit = unit_of(sub, at, &mut steps);
    let floor = boundary_at_or_before(sub, at + 1, &mut steps);
    let next = second_place(sub, &mut steps);
    let scalar = first_char(sub, &mut steps);
    let sizes = (forward(sub, &mut steps), backward(sub, &mut steps));
    (unit, floor, next, scalar, sizes.0, sizes.1)
}

fn answers_are<A: Abort>(
    rt: &A,
    sub: &mut Sub,
    views: [Answers; 3],
    rounded: [Option<u64>; 6],
    first: First,
) {
    assert_eq!(rt; scalar_answers::<Brand>(sub, Blank::new(1)), views[0]);
    assert_eq!(rt; byte_answers::<Brand>(sub, Blank::new(1)), views[1]);
    assert_eq!(rt; unit_answers::<Brand>(sub, Blank::new(1)), views[2]);
    assert_eq!(rt; floors::<Brand>(sub, Blank::new(1)), rounded);
    assert_eq!(rt; first_scalar::<Brand>(sub, Blank::new(1)), first);
    assert_eq!(rt; sub.stride(), 64);
    assert!(rt; !sub.crumbs_known());
}

/// "é😀" as the middle of a base, where the storage goes on with a wide scalar.
fn middle_answers<A: Abort>(
    rt: &A,
    alloc: Global,
    slots: u32,
    source: Source,
    words: (u64, u64),
    views: [Answers; 3],
    rounded: [Option<u64>; 6],
    first: First,
) -> Result<(), MakeError> {
    let (heap, all) = heap_of(rt, alloc, slots)?;
    let mut pass = heap.pass(all);
    let mut base = base_of(alloc, &mut pass, source)?;
    match cut(rt, alloc, &mut base, &mut pass, words) {
        Ok(mut sub) => answers_are(rt, &mut sub, views, rounded, first),
        Err(fault) => assert!(rt; false, "{fault:?}"),
    }
    Ok(())
}

#[test]
fn each_call_over_a_text_is_there_for_slices(rt: HostRuntime) -> Result<(), MakeError> {
    let alloc = rt.alloc();
    let units = [0x61, 0xE9, 0xD83D, 0xDE00, 0xD83D, 0xDE00];
    for slots in SLOTS {
        middle_answers(
            &rt,
            alloc,
            slots,
            Source::Utf8("aé😀😀"),
            (65540, 458756),
            [
                ((1, 7, 2), (Some(3), Some(3), Some(7)), (true, true)),
                ((1, 7, 6), (Some(2), Some(6), Some(3)), (true, true)),
                ((1, 7, 3), (Some(3), Some(3), Some(3)), (true, true)),
            ],
            [Some(3), Some(1), Some(5), Some(3), Some(6), Some(3)],
            (0xC3, 1, 3, ('é', 2), 6, 6),
        )?;
        middle_answers(
            &rt,
            alloc,
            slots,
            Source::Utf16(&units),
            (65544, 262152),
            [
                ((1, 4, 2), (Some(2), Some(2), Some(4)), (true, true)),
                ((1, 4, 6), (Some(1), Some(2), Some(2)), (true, true)),
                ((1, 4, 3), (Some(2), Some(3), Some(3)), (true, true)),
            ],
            [Some(2), Some(2), Some(2), Some(2), Some(2), Some(3)],
            (0xE9, 2, 2, ('é', 1), 6, 6),
        )?;
    }
    Ok(())
}

/// What the calls of the view of Characters answer: the start with its stride, the end, the count; the first Character's ends; one on
/// from the start, one back from the end, the floor of the place before the end, one on by number, and how many lie from the end back.
type Clusters = (
    (u64, u32, u64, u64),
    Option<(u64, u64)>,
    [Option<u64>; 4],
    Result<i64, OutOfBounds>,
);

fn cluster_answers<L: Ledger>(sub: &mut Sub, blank: Blank) -> Clusters
    requires name { blank.name ≡ L.name }
    requires parts { blank.parts ≡ L.parts }
    requires one { blank.parts ≡ 1 }
{
    let mut steps = Steps::<L>::from_blank(blank);
    let start = characters::start(sub, &mut steps);
    let end = characters::end(&*sub);
    let count = characters::count(sub, &mut steps);
    let first = match characters::element(sub, start, &mut steps) {
        Ok((from, to)) => Some((from.position(), to.position())),
        Err(_) => None,
    };
    let inside = Index::new(end.position().saturating_sub(1), 0, sub.encoding());
    let places = [
        place(characters::after(sub, start, &mut steps)),
        place(characters::before(sub, end, &mut steps)),
        place(characters::floor(sub, inside, &mut steps)),
        place(characters::offset_by(sub, start, 1, &mut steps)),
    ];
    let back = characters::distance(sub, end, start, &mut steps);
    (
        (start.position(), start.stride(), end.position(), count),
        first,
        places,
        back,
    )
}

fn clusters(sub: &mut Sub) -> Clusters {
    cluster_answers::<Brand>(sub, Blank::new(1))
}

fn cluster_answers_are<A: Abort>(
    rt: &A,
    alloc: Global,
    slots: u32,
    source: Source,
    words: (u64, u64),
    wanted: Clusters,
) -> Result<(), MakeError> {
    let (heap, all) = heap_of(rt, alloc, slots)?;
    let mut pass = heap.pass(all);
    let mut base = base_of(alloc, &mut pass, source)?;
    match cut(rt, alloc, &mut base, &mut pass, words) {
        Ok(mut sub) => assert_eq!(rt; clusters(&mut sub), wanted),
        Err(fault) => assert!(rt; false, "{fault:?}"),
    }
    Ok(())
}

/// The flags of Germany and France cut after their first half: the Characters are those of the slice's own three halves.
#[test]
fn characters_of_a_slice_are_those_of_its_own_text(rt: HostRuntime) -> Result<(), MakeError> {
    let alloc = rt.alloc();
    let units = [
        0xD83C, 0xDDE9, 0xD83C, 0xDDEA, 0xD83C, 0xDDEB, 0xD83C, 0xDDF7,
    ];
    for slots in SLOTS {
        cluster_answers_are(
            &rt,
            alloc,
            slots,
            Source::Utf8("🇩🇪🇫🇷"),
            (262148, 1048580),
            (
                (4, 8, 16, 2),
                Some((4, 12)),
                [Some(12), Some(12), Some(12), Some(12)],
                Ok(-2),
            ),
        )?;
        cluster_answers_are(
            &rt,
            alloc,
            slots,
            Source::Utf16(&units),
            (131080, 524296),
            (
                (2, 4, 8, 2),
                Some((2, 6)),
                [Some(6), Some(6), Some(6), Some(6)],
                Ok(-2),
            ),
        )?;
    }
    Ok(())
}
