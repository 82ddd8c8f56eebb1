//! What no clause says: that each call answers at a concrete type, and the lists of texts written out by hand and by a plain program.
ghost use Rattle.std.specs.Prelude.{◌≡◌, true, ◌+◌, ◌/◌, ◌<◌, ◌≤◌, [], ◌++◌, length, IsSome, IfOk, IfSome};
ghost use Rattle.std.specs.Option.{unwrap_or};
ghost use Rattle.index_words.specs.Crumbs.{size16, crumbs};
ghost use Rattle.text_spec.specs.declared.encoding.Encoding.TheVariants.{Utf8};
ghost use Rattle.text_spec.specs.Views.{size_in};
ghost use Rattle.index_words.specs.Fields.{position_of};
ghost use Rattle.crumbs.specs.Fitting.{stored_text};

use crumbs::{Crumbs, StoredText, build, index_of_offset, offset_of_index};
use index_words::Index;
use slot_model::{Attach, Layout};
use slot_table::{Draft, Heap, Pass, Ref};
use std::alloc::Global;
use std::marker::Brand;
use std::process::Abort;
use std::sync::ledger::{Blank, Ledger};
use text_spec::{Encoding, OutOfMemory, TextList};
use word_units::{OutOfBounds, Steps, Text, byte_word};

/// The words of a stored text: a count word, and eight bytes to a word after it.
fn stored(alloc: Global, text: &str) -> Result<Vec<u64>, OutOfMemory> {
    let bytes = text.as_bytes();
    let mut words = Vec::new(alloc);
    words.push((bytes.len() as u64) | 0x3000_0000_0000_0000)?;
    for k in 0..(bytes.len() + 7) / 8 {
        words.push(byte_word(bytes, k))?;
    }
    Ok(words)
}

/// How many UTF-16 units a text has.
fn units_of(text: &str) -> u64 {
    let mut units: u64 = 0;
    for scalar in text.chars() {
        units = units.wrapping_add(scalar.len_utf16() as u64);
    }
    units
}

/// The list of breadcrumbs by a plain program: unit after unit, of which each `stride`-th gets an index word.
fn plain_list(alloc: Global, text: &str, stride: u64) -> Result<Vec<u64>, OutOfMemory>
    requires { 0 < stride }
{
    let mut list = Vec::new(alloc);
    list.push(units_of(text))?;
    let mut unit: u64 = 0;
    for (p, scalar) in text.char_indices() {
        for past in 0..scalar.len_utf16() as u64 {
            if unit % stride == 0 {
                list.push(plain_word(p as u64, past))?;
            }
            unit = unit.wrapping_add(1);
        }
    }
    if unit % stride == 0 {
        list.push(plain_word(text.len() as u64, 0))?;
    }
    Ok(list)
}

fn plain_word(position: u64, past: u64) -> u64 {
    position.wrapping_shl(16) | past.wrapping_shl(14) | if past == 0 { 5 } else { 4 }
}

/// Words are written into a draft.
fn fill<A: Attach>(draft: &mut Draft<'_, A>, words: &[u64])
    requires { length draft.old.written + length words.now ≤ draft.old.heap.layout.capacity_words }
    ensures { draft.new ≡ record draft.old { written = draft.old.written ++ words.now } }
{
    for k in 0..words.len() {
        draft.write(words[k]);
    }
}

/// The words of a slot's side.
fn side_of<A: Attach>(
    alloc: Global,
    reference: &mut Ref<'_, A>,
    len: u32,
) -> Result<Vec<u64>, OutOfMemory>
    requires side { IsSome reference.old.side }
    requires all { len ≡ length reference.old.side_words }
    ensures words { IfOk result (λ words. words.items ≡ reference.old.side_words) }
    ensures kept { reference.new ≡ reference.old }
{
    let mut words = Vec::new(alloc);
    for j in 0..len {
        words.push(reference.side(j))?;
    }
    Ok(words)
}

/// `build`, where nobody asks for the steps.
fn build_uncounted<T: Text, A: Attach, L: Ledger>(t: &mut T, draft: &mut Draft<'_, A>, blank: Blank)
    requires storage { (T.part t.old).storage ≡ Utf8 }
    requires all { ((T.part t.old).first ≡ 0) × ((T.part t.old).end ≡ length (T.part t.old).whole) }
    requires some { (1 ≤ T.STRIDE) × (T.STRIDE ≤ 4096) }
    requires room { length draft.old.written + size16 (T.part t.old).whole / T.STRIDE + 2 ≤ draft.old.heap.layout.capacity_words }
    requires name { blank.name ≡ L.name }
    requires parts { blank.parts ≡ L.parts }
    requires one { blank.parts ≡ 1 }
    ensures written { draft.new ≡ record draft.old { written = draft.old.written ++ crumbs (T.part t.old).whole T.STRIDE } }
    ensures kept { t.new ≡ t.old }
{
    let mut steps = Steps::<L>::from_blank(blank);
    build(t, draft, &mut steps);
}

/// The list that `build` writes beside a stored text, installed as the side of its slot and read as that.
fn sided<const DISTANCE: usize>(
    alloc: Global,
    words: &[u64],
    t: &mut StoredText<DISTANCE>,
    pass: &mut Pass<'_, Crumbs<DISTANCE>>,
) -> Result<Option<Vec<u64>>, OutOfMemory>
    requires distance { (1 ≤ DISTANCE) × (DISTANCE ≤ 4096) }
    requires words { words.now ≡ t.old.0 }
    ensures list { IfOk result (λ list. IfSome list (λ side. side.items ≡ crumbs (unwrap_or (stored_text words.now) []) DISTANCE)) }
    ensures kept { t.new ≡ t.old }
{
    let count = t.count();
    let room = pass.capacity_words() as u64;
    if words.len() as u64 > room || count / DISTANCE as u64 + 2 > room {
        return Ok(None);
    }
    let Some(mut text) = pass.draft() else {
        return Ok(None);
    };
    t.is_listed();
    fill(&mut text, words);
    let mut reference = text.publish();
    let Some(mut list) = pass.draft() else {
        return Ok(None);
    };
    build_uncounted::<StoredText<DISTANCE>, Crumbs<DISTANCE>, Brand>(t, &mut list, Blank::new(1));
    reference.install(list, pass);
    let len = reference.side(0) / DISTANCE as u64 + 2;
    Ok(Some(side_of(alloc, &mut reference, len as u32)?))
}

/// The answers of one text at one stride: the list by the plain program and the list that `build` wrote, out of a side.
fn check_list<const DISTANCE: usize>(
    rt: &impl Abort,
    alloc: Global,
    text: &str,
) -> Result<Vec<u64>, OutOfMemory>
    requires { (1 ≤ DISTANCE) × (DISTANCE ≤ 4096) }
{
    let plain = plain_list(alloc, text, DISTANCE as u64)?;
    let wanted = plain.clone()?;
    let words = stored(alloc, text)?;
    let mut t = StoredText::<DISTANCE>::new(words.clone()?, plain, false).expect(
        rt,
        "the list of {text:?} at {DISTANCE} fits",
    );
    let layout = Layout {
        capacity_words: 600,
        slots: 2,
        credits: 4,
    };
    let Ok((heap, whole)) = Heap::<Crumbs<DISTANCE>>::open(alloc, &layout, &TextList::new(alloc))
    else {
        panic!(rt; "no heap")
    };
    let mut pass = heap.pass(whole);
    let list = sided(alloc, words.as_slice(), &mut t, &mut pass)?.expect(rt, "there is room");
    assert_eq!(rt;
        list.as_slice(),
        wanted.as_slice(),
        "{text:?} at {DISTANCE}"
    );
    let words = text.len().div_ceil(8) as u64;
    assert_eq!(rt;
        t.take_reads(),
        words.wrapping_mul(2),
        "words read of {text:?}"
    );
    Ok(list)
}

/// The lists of a text at five strides are those of the plain program.
fn check_lists(rt: &impl Abort, alloc: Global, text: &str) -> Result<(), OutOfMemory> {
    check_list::<1>(rt, alloc, text)?;
    check_list::<2>(rt, alloc, text)?;
    check_list::<63>(rt, alloc, text)?;
    check_list::<64>(rt, alloc, text)?;
    check_list::<4096>(rt, alloc, text)?;
    Ok(())
}

#[test]
fn built_lists_are_those_of_a_plain_program(rt: HostRuntime) -> Result<(), OutOfMemory> {
    let alloc = rt.alloc();
    for pad in ["", "a", "é", "€", "😀"] {
        for times in [0, 1, 31, 62, 63, 64, 65] {
            let mut text = String::new(alloc);
            for _ in 0..times {
                text.push_str(pad)?;
            }
            check_lists(&rt, alloc, text.as_str())?;
            text.push_str("😀a😀")?;
            check_lists(&rt, alloc, text.as_str())?;
        }
    }
    Ok(())
}

/// Each part so many times, one part after the other.
fn text_of(alloc: Global, parts: &[(&str, u32)]) -> Result<String, OutOfMemory> {
    let mut text = String::new(alloc);
    for (part, times) in parts {
        for _ in 0..*times {
            text.push_str(part)?;
        }
    }
    Ok(text)
}

/// A text's list is the one worked out by hand.
fn has_list<const DISTANCE: usize>(
    rt: &impl Abort,
    alloc: Global,
    parts: &[(&str, u32)],
    wanted: &[u64],
) -> Result<(), OutOfMemory>
    requires { (1 ≤ DISTANCE) × (DISTANCE ≤ 4096) }
{
    let text = text_of(alloc, parts)?;
    let list = check_list::<DISTANCE>(rt, alloc, text.as_str())?;
    assert_eq!(rt; list.as_slice(), wanted, "{text:?} at {DISTANCE}");
    Ok(())
}

#[test]
fn lists_are_those_worked_out_by_hand(rt: HostRuntime) -> Result<(), OutOfMemory> {
    let alloc = rt.alloc();
    has_list::<64>(&rt, alloc, &[], &[0, 5])?;
    has_list::<64>(
        &rt,
        alloc,
        &[("é", 63), ("😀", 1), ("é", 63)],
        &[128, 5, 8273924, 16777221],
    )?;
    has_list::<64>(&rt, alloc, &[("é", 64)], &[64, 5, 8388613])?;
    has_list::<64>(&rt, alloc, &[("é", 65)], &[65, 5, 8388613])?;

    // A pair across each multiple of the distance.
    has_list::<64>(
        &rt,
        alloc,
        &[("a", 1), ("😀", 96)],
        &[193, 5, 8208388, 16596996, 24985604],
    )?;
    has_list::<63>(
        &rt,
        alloc,
        &[("😀", 32), ("a", 1), ("😀", 31)],
        &[127, 5, 8142852, 16334852],
    )?;
    has_list::<1>(
        &rt,
        alloc,
        &[("a", 1), ("😀", 1)],
        &[3, 5, 65541, 81924, 327685],
    )?;
    has_list::<2>(&rt, alloc, &[("a", 1), ("😀", 2)], &[5, 5, 81924, 344068])?;
    has_list::<4096>(&rt, alloc, &[("a", 4095), ("😀", 1)], &[4097, 5, 268386308])?;
    has_list::<4096>(&rt, alloc, &[("a", 4095)], &[4095, 5])
}

/// `index_of_offset`, where nobody asks for the steps.
fn index_uncounted<T: Text, L: Ledger>(
    t: &mut T,
    offset: u64,
    blank: Blank,
) -> Result<Index, OutOfBounds>
    requires known { T.knows_crumbs t.old ≡ true }
    requires some { 1 ≤ T.STRIDE }
    requires name { blank.name ≡ L.name }
    requires parts { blank.parts ≡ L.parts }
    requires one { blank.parts ≡ 1 }
    ensures { t.new ≡ t.old }
{
    let mut steps = Steps::<L>::from_blank(blank);
    index_of_offset(t, offset, &mut steps)
}

/// `offset_of_index`, where nobody asks for the steps.
fn offset_uncounted<T: Text, L: Ledger>(t: &mut T, i: Index, blank: Blank) -> u64
    requires known { T.knows_crumbs t.old ≡ true }
    requires some { 1 ≤ T.STRIDE }
    requires inside { position_of i ≤ size_in Utf8 (T.part t.old).whole }
    requires name { blank.name ≡ L.name }
    requires parts { blank.parts ≡ L.parts }
    requires one { blank.parts ≡ 1 }
    ensures { t.new ≡ t.old }
{
    let mut steps = Steps::<L>::from_blank(blank);
    offset_of_index(t, i, &mut steps)
}

/// The index word of a UTF-16 offset; `None` where the offset is past the end.
fn word_of_offset<const DISTANCE: usize>(t: &mut StoredText<DISTANCE>, offset: u64) -> Option<u64>
    requires known { t.old.2 ≡ true }
    requires some { 1 ≤ DISTANCE }
    ensures { t.new ≡ t.old }
{
    match index_uncounted::<StoredText<DISTANCE>, Brand>(t, offset, Blank::new(1)) {
        Ok(index) => Some(index.bits()),
        Err(_) => None,
    }
}

/// The UTF-16 offset of an index that is read in bytes; `None` where it is past the end.
fn offset_of_place<const DISTANCE: usize>(
    t: &mut StoredText<DISTANCE>,
    position: u64,
    transcoded: u32,
) -> Option<u64>
    requires known { t.old.2 ≡ true }
    requires some { 1 ≤ DISTANCE }
    ensures { t.new ≡ t.old }
{
    let count = t.count();
    let i = Index::new(
        position % 0x1_0000_0000_0000,
        transcoded % 4,
        Encoding::Utf8,
    );
    if i.position() > count {
        return None;
    }
    Some(offset_uncounted::<StoredText<DISTANCE>, Brand>(t, i, Blank::new(1)))
}

/// The units of the scalar that begins at byte `p` behind `unit` units are found there, by at most two words more than the stride.
fn check_units<const DISTANCE: usize>(
    rt: &impl Abort,
    t: &mut StoredText<DISTANCE>,
    p: u64,
    unit: u64,
    units: u64,
)
    requires known { t.old.2 ≡ true }
    requires some { 1 ≤ DISTANCE }
    ensures { t.new ≡ t.old }
{
    for past in 0..units {
        let word = word_of_offset(t, unit.wrapping_add(past));
        assert_eq!(rt;
            word,
            Some(plain_word(p, past)),
            "{unit} and {past} at {DISTANCE}"
        );
        let reads = t.take_reads();
        let most = (DISTANCE as u64).wrapping_add(2);
        assert!(rt;
            reads <= most,
            "{reads} words for unit {unit} and {past} at {DISTANCE}"
        );
    }
}

/// The four indices at byte `q` have the offset `unit`, or so many more as they pass of a scalar that begins there and has `units`.
fn check_byte<const DISTANCE: usize>(
    rt: &impl Abort,
    t: &mut StoredText<DISTANCE>,
    q: u64,
    unit: u64,
    units: u64,
    digits: u64,
)
    requires known { t.old.2 ≡ true }
    requires some { 1 ≤ DISTANCE }
    ensures { t.new ≡ t.old }
{
    for transcoded in 0..4 {
        let past = if (transcoded as u64) < units {
            transcoded as u64
        } else {
            0
        };
        let offset = offset_of_place(t, q, transcoded);
        assert_eq!(rt;
            offset,
            Some(unit.wrapping_add(past)),
            "{q}, {transcoded} at {DISTANCE}"
        );
        let reads = t.take_reads();
        let most = (DISTANCE as u64).wrapping_add(2).wrapping_add(digits);
        assert!(rt; reads <= most, "{reads} words for byte {q} at {DISTANCE}");
    }
}

/// The same at each byte of a scalar.
fn check_bytes<const DISTANCE: usize>(
    rt: &impl Abort,
    t: &mut StoredText<DISTANCE>,
    place: (u64, u64),
    bytes: u64,
    units: u64,
    digits: u64,
)
    requires known { t.old.2 ≡ true }
    requires some { 1 ≤ DISTANCE }
    ensures { t.new ≡ t.old }
{
    let (p, unit) = place;
    for byte in 0..bytes {
        let begun = if byte == 0 { units } else { 0 };
        check_byte(rt, t, p.wrapping_add(byte), unit, begun, digits);
    }
}

/// Every offset and every index of a text are answered as a plain program counts them, within the bounds on words read.
fn check_questions<const DISTANCE: usize>(
    rt: &impl Abort,
    alloc: Global,
    text: &str,
) -> Result<(), OutOfMemory>
    requires { (1 ≤ DISTANCE) × (DISTANCE ≤ 4096) }
{
    let list = check_list::<DISTANCE>(rt, alloc, text)?;
    let mut t = StoredText::<DISTANCE>::new(stored(alloc, text)?, list, true).expect(
        rt,
        "the list of {text:?} at {DISTANCE} fits",
    );
    let total = units_of(text);
    let crumbs = total / DISTANCE as u64;
    let digits = 64u32.wrapping_sub(crumbs.leading_zeros()) as u64;
    let mut unit = 0;
    for (p, scalar) in text.char_indices() {
        let units = scalar.len_utf16() as u64;
        let bytes = scalar.len_utf8() as u64;
        check_units(rt, &mut t, p as u64, unit, units);
        check_bytes(rt, &mut t, (p as u64, unit), bytes, units, digits);
        unit = unit.wrapping_add(units);
    }
    check_units(rt, &mut t, text.len() as u64, unit, 1);
    check_byte(rt, &mut t, text.len() as u64, unit, 0, digits);
    assert!(rt; word_of_offset(&mut t, total.wrapping_add(1)).is_none());
    Ok(())
}

#[test]
fn every_offset_and_index_is_answered_from_a_crumb(rt: HostRuntime) -> Result<(), OutOfMemory> {
    let alloc = rt.alloc();
    for part in ["aé€😀", "😀😀a", "€\u{10FFFF}é"] {
        let mut text = String::new(alloc);
        for _ in 0..30 {
            text.push_str(part)?;
        }
        check_questions::<64>(&rt, alloc, text.as_str())?;
        check_questions::<3>(&rt, alloc, text.as_str())?;
    }
    Ok(())
}

/// An offset, its index word, which one past the end has not, and how many words are read for it.
type Offset = (u64, Option<u64>, u64);

/// A place in bytes, how many units of its scalar it passes, its offset, and how many words are read for it.
type Place = (u64, u32, u64, u64);

/// The questions of two tables are answered so, each by so many words.
fn check_reads(rt: &impl Abort, t: &mut StoredText<64>, offsets: &[Offset], places: &[Place])
    requires known { t.old.2 ≡ true }
    ensures { t.new ≡ t.old }
{
    'offsets: for (offset, word, reads) in offsets {
        let found = word_of_offset(t, *offset);
        assert_eq!(rt; (found, t.take_reads()), (*word, *reads), "unit {offset}");
    }
    'places: for (position, past, offset, reads) in places {
        let found = offset_of_place(t, *position, *past);
        assert_eq!(rt;
            (found, t.take_reads()),
            (Some(*offset), *reads),
            "byte {position} and {past}"
        );
    }
}

/// Two words for an offset, three or four for an index, and each word in which a scalar of the walk begins.
#[test]
fn questions_read_so_many_words(rt: HostRuntime) -> Result<(), OutOfMemory> {
    let alloc = rt.alloc();
    let text = text_of(alloc, &[("é", 63), ("😀", 1), ("é", 63)])?;
    let list = check_list::<64>(&rt, alloc, text.as_str())?;
    let mut t = StoredText::<64>::new(stored(alloc, text.as_str())?, list, true).expect(
        &rt,
        "the list fits",
    );
    check_reads(
        &rt,
        &mut t,
        &[
            (0, Some(5), 2),
            (1, Some(131077), 3),
            (63, Some(8257541), 18),
            (64, Some(8273924), 2),
            (65, Some(8519685), 4),
            (127, Some(16646149), 19),
            (128, Some(16777221), 2),
            (129, None, 1),
        ],
        &[
            (0, 0, 0, 4),
            (1, 0, 0, 4),
            (126, 0, 63, 19),
            (126, 1, 64, 5),
            (126, 2, 63, 5),
            (129, 0, 63, 5),
            (130, 0, 65, 6),
            (254, 0, 127, 21),
            (256, 0, 128, 4),
        ],
    );
    Ok(())
}
