//! Values learn their breadcrumbs: each answer, and the lists that are known then.
ghost use Rattle.std.specs.Prelude.{◌≡◌, IfOk};
ghost use Rattle.str_value.specs.Meaning.{OfHeap};

use crate::readers::read;
use crate::values::{PAIR_AND_ACCENTED, Parts, Source, heap_of, text_of, value_of};
use object_words::Form;
use slot_model::Layout;
use std::alloc::Global;
use std::marker::Brand;
use std::process::Abort;
use std::sync::ledger::{Blank, Ledger};
use str_value::{Learned, MakeError, Str, StrPass};
use text_spec::{OutOfMemory, TextList};
use value_heaps::{closed, ended, layout, opened};
use word_units::{Steps, Text};

/// How many UTF-16 units a text has.
fn units_of(text: &str) -> u64 {
    let mut units: u64 = 0;
    for scalar in text.chars() {
        units = units.wrapping_add(scalar.len_utf16() as u64);
    }
    units
}

/// The breadcrumbs of a text by a plain program: its number of UTF-16 units, and for each 64th of them the byte at which its scalar begins,
/// with a mark where it is the second half of a pair.
pub(crate) fn plain_crumbs(alloc: Global, text: &str) -> Result<Vec<u64>, OutOfMemory> {
    let mut list = Vec::new(alloc);
    list.push(units_of(text))?;
    let mut unit: u64 = 0;
    for (place, scalar) in text.char_indices() {
        for half in 0..scalar.len_utf16() as u64 {
            if unit % 64 == 0 {
                list.push(index_word(place as u64, half))?;
            }
            unit = unit.wrapping_add(1);
        }
    }
    if unit % 64 == 0 {
        list.push(index_word(text.len() as u64, 0))?;
    }
    Ok(list)
}

fn index_word(place: u64, half: u64) -> u64 {
    let marks = if half == 0 { 5 } else { 16_388 };
    place.wrapping_mul(65_536).wrapping_add(marks)
}

fn crumbs_with<L: Ledger>(
    alloc: Global,
    value: &mut Str,
    count: u64,
    blank: Blank,
) -> Result<Vec<u64>, OutOfMemory>
    requires name { blank.name ≡ L.name }
    requires parts { blank.parts ≡ L.parts }
    requires one { blank.parts ≡ 1 }
    ensures { value.new ≡ value.old }
{
    let mut steps = Steps::<L>::from_blank(blank);
    let mut list = Vec::new(alloc);
    for j in 0..count {
        let word = value.crumb_word(j, &mut steps);
        list.push(word)?;
    }
    Ok(list)
}

/// So many words of the value's breadcrumbs.
pub(crate) fn crumbs_of(
    alloc: Global,
    value: &mut Str,
    count: usize,
) -> Result<Vec<u64>, OutOfMemory>
    ensures { value.new ≡ value.old }
{
    crumbs_with::<Brand>(alloc, value, count as u64, Blank::new(1))
}

fn learn_with<'h, L: Ledger>(value: &mut Str<'h>, pass: &mut StrPass<'h>, blank: Blank) -> Learned
    requires name { blank.name ≡ L.name }
    requires parts { blank.parts ≡ L.parts }
    requires one { blank.parts ≡ 1 }
    requires heap { OfHeap pass.old value.old.place }
    ensures one_heap { pass.new.heap ≡ pass.old.heap }
    ensures heap { OfHeap pass.new value.new.place }
{
    let mut steps = Steps::<L>::from_blank(blank);
    value.learn_crumbs(pass, &mut steps)
}

pub(crate) fn learn<'h>(value: &mut Str<'h>, pass: &mut StrPass<'h>) -> Learned
    requires heap { OfHeap pass.old value.old.place }
    ensures one_heap { pass.new.heap ≡ pass.old.heap }
    ensures heap { OfHeap pass.new value.new.place }
{
    learn_with::<Brand>(value, pass, Blank::new(1))
}

/// What a value of the text answers, at first and again, in a heap of this layout. It knows its breadcrumbs then only where it says so.
fn answers_of(
    rt: &impl Abort,
    alloc: Global,
    layout: &Layout,
    source: Source,
    text: &str,
) -> Result<(Learned, Learned), MakeError> {
    let (heap, whole) = heap_of(rt, alloc, layout, source, text)?;
    let mut pass = heap.pass(whole);
    let mut value = value_of(rt, alloc, &mut pass, source, text)?;
    assert!(rt; !value.crumbs_known());
    let sole = value.known_sole();
    let first = learn(&mut value, &mut pass);
    let again = learn(&mut value, &mut pass);
    assert_eq!(rt; value.crumbs_known(), first == Learned::Known);
    assert_eq!(rt; value.known_sole(), sole, "the only holder of its slot");
    value.release(&mut pass);
    let whole = ended(pass).expect(rt, "something is still out");
    let (slots, idle) = closed(heap, whole);
    assert_eq!(rt; slots, idle, "slots and idle slots");
    Ok((first, again))
}

#[test]
fn each_answer_is_by_the_first_rule_that_holds(rt: HostRuntime) -> Result<(), MakeError> {
    let alloc = rt.alloc();
    let rows: [(Learned, Source, Parts, u32, u32); 19] = [
        (Learned::Foreign, Source::Utf16, ("é", 64, ""), 2, 4),
        (Learned::Foreign, Source::Utf16, ("é", 64, ""), 0, 4),
        (Learned::Foreign, Source::Utf16, ("a", 64, ""), 2, 4),
        (Learned::Foreign, Source::Utf16, ("", 0, ""), 2, 4),
        (Learned::Ascii, Source::Utf8, ("a", 100, ""), 2, 4),
        (Learned::Ascii, Source::Utf8, ("a", 100, ""), 0, 4),
        (Learned::Ascii, Source::Utf8, ("a", 3, ""), 2, 4),
        (Learned::Ascii, Source::Literal, ("a", 100, ""), 2, 4),
        (Learned::Short, Source::Utf8, ("é", 1, ""), 2, 4),
        (Learned::Short, Source::Utf8, ("é", 31, "a"), 2, 4),
        (Learned::Short, Source::Utf8, ("é", 31, "a"), 0, 4),
        (Learned::Short, Source::Literal, ("é", 31, ""), 2, 4),
        (Learned::NotShared, Source::Utf8, ("é", 32, ""), 0, 4),
        (Learned::NotShared, Source::Utf8, ("é", 32, ""), 2, 1),
        (Learned::NotShared, Source::Literal, ("é", 32, ""), 2, 4),
        (Learned::NoSlot, Source::Utf8, ("é", 32, ""), 1, 4),
        (Learned::NoSlot, Source::Utf8, ("é", 32, ""), 2, 2),
        (Learned::Known, Source::Utf8, ("é", 32, ""), 2, 3),
        (Learned::Known, Source::Utf8, ("a", 62, "é"), 2, 3),
    ];
    for (wanted, source, parts, slots, credits) in rows {
        let text = text_of(alloc, parts)?;
        let layout = layout(slots, 40, credits);
        let answers = answers_of(&rt, alloc, &layout, source, text.as_str())?;
        assert_eq!(&rt;
            answers,
            (wanted, wanted),
            "{source:?} of {parts:?}, slots {slots}, credits {credits}"
        );
    }
    Ok(())
}

/// A value of the text installs its breadcrumbs, knows them, and its copy, made before, finds them; a later copy knows them at once. All of
/// them have the list of the plain program. Which of the three know them after each call, and how many slots are free.
#[tactic(auto, using(value_heaps::proofs::Moving::of_heap_moves))]
fn learned_three_ways(
    rt: &impl Abort,
    alloc: Global,
    text: &str,
) -> Result<[(Learned, bool, bool, u32); 3], MakeError> {
    let wanted = plain_crumbs(alloc, text)?;
    let literals = TextList::new(alloc);
    let (heap, whole) = opened(alloc, &layout(3, 300, 5), &literals).expect(rt, "a heap");
    let mut pass = heap.pass(whole);
    let mut value = Str::from_utf8(alloc, &mut pass, text.as_bytes())?;
    let mut copy = value.copy(alloc, &mut pass)?;
    let installed = learn(&mut value, &mut pass);
    let first = (
        installed,
        value.crumbs_known(),
        copy.crumbs_known(),
        pass.free_slots(),
    );
    let before = learn(&mut value, &mut pass);
    let second = (
        before,
        value.crumbs_known(),
        copy.crumbs_known(),
        pass.free_slots(),
    );
    let found = learn(&mut copy, &mut pass);
    let third = (
        found,
        value.crumbs_known(),
        copy.crumbs_known(),
        pass.free_slots(),
    );
    let list = crumbs_of(alloc, &mut value, wanted.len())?;
    assert_eq!(rt; list.as_slice(), wanted.as_slice(), "installed, {text}");
    let list = crumbs_of(alloc, &mut copy, wanted.len())?;
    assert_eq!(rt; list.as_slice(), wanted.as_slice(), "found, {text}");
    value.release(&mut pass);
    let mut later = copy.copy(alloc, &mut pass)?;
    copy.release(&mut pass);
    assert!(rt; later.crumbs_known(), "{text}");
    let list = crumbs_of(alloc, &mut later, wanted.len())?;
    assert_eq!(rt; list.as_slice(), wanted.as_slice(), "copied, {text}");
    later.release(&mut pass);
    let whole = ended(pass).expect(rt, "something is still out");
    assert_eq!(rt; closed(heap, whole), (3, 3), "slots and idle slots");
    Ok([first, second, third])
}

#[test]
fn breadcrumbs_are_installed_kept_and_found(rt: HostRuntime) -> Result<(), MakeError> {
    let alloc = rt.alloc();
    let rows: [Parts; 8] = [
        ("é", 32, ""),
        ("é", 63, PAIR_AND_ACCENTED),
        ("é", 64, ""),
        ("é", 65, ""),
        ("😀", 96, "a"),
        ("€", 22, ""),
        ("aé€😀", 60, ""),
        ("xaé€😀", 60, ""),
    ];
    for parts in rows {
        let text = text_of(alloc, parts)?;
        assert_eq!(&rt;
            learned_three_ways(&rt, alloc, text.as_str())?,
            [
                (Learned::Known, true, false, 1),
                (Learned::Known, true, false, 1),
                (Learned::Known, true, true, 1),
            ],
            "{parts:?}"
        );
    }
    let text = text_of(alloc, ("é", 63, PAIR_AND_ACCENTED))?;
    let list = plain_crumbs(alloc, text.as_str())?;
    assert_eq!(&rt;
        list.as_slice(),
        [128, 5, 8_273_924, 16_777_221].as_slice(),
        "worked out by hand"
    );
    Ok(())
}

/// Three values of sixteen "a".
#[derive(Drop)]
struct Three<'h> {
    second: Str<'h>,
    third: Str<'h>,
    fourth: Str<'h>,
}

#[tactic(auto, using(value_heaps::proofs::Moving::of_heap_moves))]
fn three_of<'h>(alloc: Global, pass: &mut StrPass<'h>) -> Result<Three<'h>, MakeError>
    ensures one_heap { pass.new.heap ≡ pass.old.heap }
    ensures second { IfOk result (λ t. OfHeap pass.new t.second.place) }
    ensures third { IfOk result (λ t. OfHeap pass.new t.third.place) }
    ensures fourth { IfOk result (λ t. OfHeap pass.new t.fourth.place) }
{
    let second = Str::from_utf8(alloc, pass, SIXTEEN)?;
    let third = Str::from_utf8(alloc, pass, SIXTEEN)?;
    let fourth = Str::from_utf8(alloc, pass, SIXTEEN)?;
    Ok(Three {
        second,
        third,
        fourth,
    })
}

/// The forms of the three, which are released.
#[tactic(auto, using(value_heaps::proofs::Moving::of_heap_moves))]
fn released<'h>(pass: &mut StrPass<'h>, three: Three<'h>) -> [Form; 3]
    requires second { OfHeap pass.old three.second.place }
    requires third { OfHeap pass.old three.third.place }
    requires fourth { OfHeap pass.old three.fourth.place }
    ensures { pass.new.heap ≡ pass.old.heap }
{
    let Three {
        second,
        third,
        fourth,
    } = three;
    let forms = [second.form(), third.form(), fourth.form()];
    second.release(pass);
    third.release(pass);
    fourth.release(pass);
    forms
}

/// The forms of a value of sixteen "a" and of its copy, which both have this text and are released.
#[tactic(auto, using(value_heaps::proofs::Moving::of_heap_moves))]
fn fifth<'h>(
    rt: &impl Abort,
    alloc: Global,
    pass: &mut StrPass<'h>,
) -> Result<(Form, Form), MakeError>
    ensures { pass.new.heap ≡ pass.old.heap }
{
    let mut value = Str::from_utf8(alloc, pass, SIXTEEN)?;
    let mut copy = value.copy(alloc, pass)?;
    let forms = (value.form(), copy.form());
    let text = read(alloc, &mut value)?;
    assert_eq!(rt; text.as_bytes(), SIXTEEN, "the fifth value");
    let text = read(alloc, &mut copy)?;
    assert_eq!(rt; text.as_bytes(), SIXTEEN, "its copy");
    value.release(pass);
    copy.release(pass);
    Ok(forms)
}

/// Fifty "é" and then four times sixteen "a", in a heap of four slots: the forms of the first, of the next three, and of the last and its copy.
#[tactic(auto, using(value_heaps::proofs::Moving::of_heap_moves))]
fn five_values(
    rt: &impl Abort,
    alloc: Global,
) -> Result<(Form, [Form; 3], (Form, Form)), MakeError> {
    let literals = TextList::new(alloc);
    let (heap, whole) = opened(alloc, &layout(4, 32, 8), &literals).expect(rt, "a heap");
    let mut pass = heap.pass(whole);
    let text = text_of(alloc, ("é", 50, ""))?;
    let mut first = Str::from_utf8(alloc, &mut pass, text.as_bytes())?;
    let three = three_of(alloc, &mut pass)?;
    let last = fifth(rt, alloc, &mut pass)?;
    assert_eq!(rt; learn(&mut first, &mut pass), Learned::NoSlot);
    let form = first.form();
    first.release(&mut pass);
    let forms = released(&mut pass, three);
    let whole = ended(pass).expect(rt, "something is still out");
    assert_eq!(rt; closed(heap, whole), (4, 4), "slots and idle slots");
    Ok((form, forms, last))
}

const SIXTEEN: &[u8] = b"aaaaaaaaaaaaaaaa";

#[test]
fn a_fifth_value_finds_no_slot_of_four(rt: HostRuntime) -> Result<(), MakeError> {
    assert_eq!(&rt;
        five_values(&rt, rt.alloc())?,
        (
            Form::Native,
            [Form::Native, Form::Native, Form::Native],
            (Form::Owned, Form::Owned)
        )
    );
    Ok(())
}
