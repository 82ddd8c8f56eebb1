//! What no clause says: that ops find memory, and what they answer at texts written out by hand, whichever storage a text has.
ghost use Rattle.std.specs.Prelude.{◌≡◌, ◌≤◌, All, IfOk};
ghost use Rattle.query_lines.specs.Replies.{IsShownOp};
ghost use Rattle.query_lines.specs.WellFormed.{IsWellFormedOp};
ghost use Rattle.str_value.specs.Meaning.{OfHeap};

use crate::heaps::{SLOTS, heap_of, whole};
use batch_workers::run_ops;
use object_words::Form;
use query_lines::{Command, Op, OpReplies, Ops, Reply, read_line, reply_text};
use std::alloc::Global;
use std::marker::Brand;
use std::process::Abort;
use std::sync::ledger::{Blank, Ledger};
use std::test::Fail;
use str_value::{MakeError, Str, StrPass};
use text_spec::OutOfMemory;
use value_heaps::{closed, ended};
use word_units::{Steps, Text};

/// The ops of the list in a line.
pub(crate) fn ops_of(alloc: Global, list: &str) -> Result<Ops, Fail>
    ensures { IfOk result (All IsWellFormedOp) }
{
    let line = format!(in alloc; "{{\"on\":\"a\",\"do\":{list}}}")?;
    if line.len() > 4096 {
        return Ok(Ops::new(Vec::new(alloc)));
    }
    match read_line(alloc, line.as_bytes()) {
        Ok(Command::On { name: _, ops }) => Ok(ops),
        Ok(_) => Ok(Ops::new(Vec::new(alloc))),
        Err(_) => Ok(Ops::new(Vec::new(alloc))),
    }
}

/// Ops with a counter of their own for the words that they read.
fn replies_with<'h, L: Ledger>(
    alloc: Global,
    value: &mut Str<'h>,
    pass: &mut StrPass<'h>,
    ops: &[Op],
    spent: u64,
    blank: Blank,
) -> Result<OpReplies, OutOfMemory>
    requires name { blank.name ≡ L.name }
    requires parts { blank.parts ≡ L.parts }
    requires one { blank.parts ≡ 1 }
    requires ops { All IsWellFormedOp ops.now }
    requires within { spent ≤ 16777216 }
    requires heap { OfHeap pass.old value.old.place }
    ensures shown { IfOk result (λ replies. All IsShownOp replies) }
    ensures one_heap { pass.new.heap ≡ pass.old.heap }
    ensures heap { OfHeap pass.new value.new.place }
{
    let mut steps = Steps::<L>::from_blank(blank);
    run_ops(alloc, value, pass, ops, spent, &mut steps)
}

/// The answers to ops.
pub(crate) fn replies<'h>(
    alloc: Global,
    value: &mut Str<'h>,
    pass: &mut StrPass<'h>,
    ops: &[Op],
    spent: u64,
) -> Result<OpReplies, OutOfMemory>
    requires ops { All IsWellFormedOp ops.now }
    requires within { spent ≤ 16777216 }
    requires heap { OfHeap pass.old value.old.place }
    ensures shown { IfOk result (λ replies. All IsShownOp replies) }
    ensures one_heap { pass.new.heap ≡ pass.old.heap }
    ensures heap { OfHeap pass.new value.new.place }
{
    replies_with::<Brand>(alloc, value, pass, ops, spent, Blank::new(1))
}

/// The text of the answers to ops.
fn answers<'h>(
    alloc: Global,
    value: &mut Str<'h>,
    pass: &mut StrPass<'h>,
    list: &str,
    spent: u64,
) -> Result<Vec<u8>, Fail>
    requires within { spent ≤ 16777216 }
    requires heap { OfHeap pass.old value.old.place }
    ensures one_heap { pass.new.heap ≡ pass.old.heap }
    ensures heap { OfHeap pass.new value.new.place }
{
    let ops = ops_of(alloc, list)?;
    let replies = replies(alloc, value, pass, ops.as_slice(), spent)?;
    let text = reply_text(alloc, &Reply::Results(replies))?;
    Ok(text)
}

/// What a value is made of.
#[derive(Clone, Copy)]
enum Source<'a> {
    Utf8(&'a [u8]),
    Utf16(&'a [u16]),
}

fn value_of<'h>(alloc: Global, pass: &mut StrPass<'h>, source: Source) -> Result<Str<'h>, MakeError>
    ensures one_heap { pass.new.heap ≡ pass.old.heap }
    ensures heap { IfOk result (λ s. OfHeap pass.new s.place) }
{
    match source {
        Source::Utf8(bytes) => Str::from_utf8(alloc, pass, bytes),
        Source::Utf16(units) => Str::from_utf16(alloc, pass, units),
    }
}

/// Ops, their answers, and the text afterwards where it is asked for.
type Row<'a> = (&'a str, &'a str, Option<&'a str>);

/// Ops on a value in a heap with so many slots. All slots are idle in the end.
#[tactic(auto, using(value_heaps::proofs::Moving::of_heap_moves))]
fn ops_are(
    rt: &impl Abort,
    alloc: Global,
    slots: u32,
    source: Source,
    row: Row,
    spent: u64,
) -> Result<(), Fail>
    requires { spent ≤ 16777216 }
{
    let (list, wanted, after) = row;
    let (heap, all) = heap_of(rt, alloc, slots)?;
    let mut pass = heap.pass(all);
    let mut value = value_of(alloc, &mut pass, source)?;
    let got = answers(alloc, &mut value, &mut pass, list, spent)?;
    assert_eq!(rt; got.as_slice(), wanted.as_bytes(), "{list}");
    let left = whole(alloc, &mut value)?;
    if let Some(text) = after {
        assert_eq!(rt; left.as_slice(), text.as_bytes(), "after {list}");
    }
    value.release(&mut pass);
    let all = ended(pass).expect(rt, "something is still out");
    let (slots, idle) = closed(heap, all);
    assert_eq!(rt; slots, idle, "slots and idle slots");
    Ok(())
}

#[test]
fn ops_get_the_answers_worked_out_by_hand(rt: HostRuntime) -> Result<(), Fail> {
    let alloc = rt.alloc();
    // a text, ops, the answers, the text afterwards
    let rows = [
        ("abc", r#"[]"#, r#"{"results":[]}"#, "abc"),
        // questions leave the text, and each is rounded down
        (
            "é日x",
            r#"[{"at":0},{"at":1},{"at":2},{"at":3},{"at":4},{"place":{"utf8":3}},{"place":{"utf8":7}},{"text":true}]"#,
            r#"{"results":[{"utf16":0,"utf8":0,"value":233},{"utf16":1,"utf8":2,"value":26085},{"utf16":2,"utf8":5,"value":120},{"utf16":3,"utf8":6,"value":null},{"error":"out of bounds","utf16":3},{"utf16":1,"utf8":2,"value":26085},{"error":"out of bounds","utf8":6},{"text":"é日x"}]}"#,
            "é日x",
        ),
        (
            "🇩🇪🇫🇷e\u{301}",
            r#"[{"count":"scalars"},{"count":"utf8"},{"count":"utf16"},{"count":"characters"}]"#,
            r#"{"results":[{"count":6},{"count":19},{"count":10},{"count":3}]}"#,
            "🇩🇪🇫🇷e\u{301}",
        ),
        // the bounds are asked of the offsets as given: both are rounded down to 0 at the last slice of the second text
        (
            "abc",
            r#"[{"slice":[1,1]},{"slice":[2,1]},{"slice":[0,4]},{"slice":[4,4]},{"slice":[4,3]},{"slice":[1,3]},{"slice":[0,3]}]"#,
            r#"{"results":[{"text":""},{"error":"out of bounds","utf16":3},{"error":"out of bounds","utf16":3},{"error":"out of bounds","utf16":3},{"error":"out of bounds","utf16":3},{"text":"bc"},{"text":"abc"}]}"#,
            "abc",
        ),
        (
            "😀a😀",
            r#"[{"slice":[0,1]},{"slice":[1,1]},{"slice":[1,2]},{"slice":[1,4]},{"slice":[3,5]},{"slice":[1,0]}]"#,
            r#"{"results":[{"text":""},{"text":""},{"text":"😀"},{"text":"😀a"},{"text":"😀"},{"error":"out of bounds","utf16":5}]}"#,
            "😀a😀",
        ),
        // at both ends, of nothing, of everything, from nothing
        (
            "abc",
            r#"[{"edit":[0,0],"with":"é"},{"edit":[4,4],"with":"yz"},{"text":true}]"#,
            r#"{"results":[{"scalars":4,"utf16":4,"utf8":5},{"scalars":6,"utf16":6,"utf8":7},{"text":"éabcyz"}]}"#,
            "éabcyz",
        ),
        (
            "abc",
            r#"[{"edit":[1,1],"with":""},{"edit":[0,3],"with":""},{"at":0},{"edit":[0,0],"with":"😀"}]"#,
            r#"{"results":[{"scalars":3,"utf16":3,"utf8":3},{"scalars":0,"utf16":0,"utf8":0},{"utf16":0,"utf8":0,"value":null},{"scalars":1,"utf16":2,"utf8":4}]}"#,
            "😀",
        ),
        (
            "",
            r#"[{"edit":[0,1],"with":"x"},{"edit":[0,0],"with":"x"},{"edit":[0,1],"with":"yy"}]"#,
            r#"{"results":[{"error":"out of bounds","utf16":0},{"scalars":1,"utf16":1,"utf8":1},{"scalars":2,"utf16":2,"utf8":2}]}"#,
            "yy",
        ),
        // inside a pair both offsets go down to its scalar
        (
            "a😀b",
            r#"[{"edit":[2,2],"with":"x"},{"text":true},{"edit":[3,4],"with":""}]"#,
            r#"{"results":[{"scalars":4,"utf16":5,"utf8":7},{"text":"ax😀b"},{"scalars":3,"utf16":3,"utf8":3}]}"#,
            "axb",
        ),
        // a refused edit leaves the text, and the next op goes on; a later op is asked of the text that an earlier one left
        (
            "😀b",
            r#"[{"edit":[1,0],"with":"x"},{"edit":[4,4],"with":"x"},{"edit":[3,3],"with":"c"},{"edit":[4,4],"with":"d"},{"at":4},{"slice":[2,5]}]"#,
            r#"{"results":[{"error":"out of bounds","utf16":3},{"error":"out of bounds","utf16":3},{"scalars":3,"utf16":4,"utf8":6},{"scalars":4,"utf16":5,"utf8":7},{"utf16":4,"utf8":6,"value":100},{"text":"bcd"}]}"#,
            "😀bcd",
        ),
        // fifteen bytes and sixteen
        (
            "aaaaaaaaaaaaaaa",
            r#"[{"edit":[15,15],"with":"b"},{"edit":[0,1],"with":"é"},{"edit":[0,2],"with":""},{"text":true}]"#,
            r#"{"results":[{"scalars":16,"utf16":16,"utf8":16},{"scalars":16,"utf16":16,"utf8":17},{"scalars":14,"utf16":14,"utf8":14},{"text":"aaaaaaaaaaaaab"}]}"#,
            "aaaaaaaaaaaaab",
        ),
    ];
    for (text, list, wanted, after) in rows {
        let units = text.encode_utf16().collect::<Vec<u16>>(alloc)?;
        let row = (list, wanted, Some(after));
        for slots in SLOTS {
            let bytes = Source::Utf8(text.as_bytes());
            ops_are(&rt, alloc, slots, bytes, row, 0)?;
            let units = Source::Utf16(units.as_slice());
            ops_are(&rt, alloc, slots, units, row, 0)?;
        }
    }
    Ok(())
}

#[test]
fn lone_surrogates_are_repaired_by_the_first_edit(rt: HostRuntime) -> Result<(), Fail> {
    let alloc = rt.alloc();
    let units = [0x61, 0xD800, 0xD83D, 0xDE00];
    let list =
        r#"[{"text":true},{"edit":[9,9],"with":"x"},{"edit":[3,4],"with":"x"},{"slice":[1,2]},{"edit":[1,2],"with":""}]"#;
    let wanted =
        "{\"results\":[{\"text\":\"a\u{FFFD}😀\"},{\"error\":\"out of bounds\",\"utf16\":4},{\"scalars\":3,\"utf16\":3,\"utf8\":5},{\"text\":\"\u{FFFD}\"},{\"scalars\":2,\"utf16\":2,\"utf8\":2}]}";
    for slots in SLOTS {
        ops_are(
            &rt,
            alloc,
            slots,
            Source::Utf16(&units),
            (list, wanted, Some("ax")),
            0,
        )?;
    }
    Ok(())
}

#[test]
fn texts_and_answers_have_limits(rt: HostRuntime) -> Result<(), Fail> {
    let alloc = rt.alloc();
    // as many bytes may be answered as are left of 16 MiB
    let rows = [
        (
            16_777_214,
            r#"[{"text":true},{"slice":[0,2]},{"slice":[0,0]},{"slice":[0,1]},{"at":9}]"#,
            r#"{"results":[{"error":"too long"},{"text":"ab"},{"text":""},{"error":"too long"},{"error":"out of bounds","utf16":3}]}"#,
        ),
        (
            16_777_216,
            r#"[{"slice":[0,1]},{"edit":[0,1],"with":"xy"},{"slice":[1,1]},{"text":true},{"count":"utf8"}]"#,
            r#"{"results":[{"error":"too long"},{"scalars":4,"utf16":4,"utf8":4},{"text":""},{"error":"too long"},{"count":4}]}"#,
        ),
    ];
    for (spent, list, wanted) in rows {
        ops_are(
            &rt,
            alloc,
            0,
            Source::Utf8(b"abc"),
            (list, wanted, None),
            spent,
        )?;
    }
    // an edit that would pass the limit of a text leaves it
    let long = vec![in alloc; b'a'; 16_777_216]?;
    let list =
        r#"[{"edit":[0,0],"with":"b"},{"edit":[1,2],"with":"é"},{"count":"utf8"},{"edit":[0,1],"with":"b"},{"edit":[0,2],"with":"é"},{"edit":[0,1],"with":""},{"count":"utf16"},{"slice":[0,1]}]"#;
    let wanted =
        r#"{"results":[{"error":"too long"},{"error":"too long"},{"count":16777216},{"scalars":16777216,"utf16":16777216,"utf8":16777216},{"scalars":16777215,"utf16":16777215,"utf8":16777216},{"scalars":16777214,"utf16":16777214,"utf8":16777214},{"count":16777214},{"text":"a"}]}"#;
    let long = Source::Utf8(long.as_slice());
    ops_are(&rt, alloc, 4, long, (list, wanted, None), 0)
}

/// A text of 64 scalars that aren't ASCII and take 128 bytes: a value of it in a slot learns its breadcrumbs at the first `at` or `slice`,
/// and at no other question.
#[test]
fn a_place_is_asked_of_breadcrumbs(rt: HostRuntime) -> Result<(), Fail> {
    let alloc = rt.alloc();
    let text = "éééééééééééééééééééééééééééééééééééééééééééééééééééééééééééééééé";
    let rows = [
        (4, r#"[{"at":63}]"#, Form::Native, true),
        (4, r#"[{"at":65},{"at":0}]"#, Form::Native, true),
        (
            4,
            r#"[{"place":{"utf8":9}},{"count":"utf16"},{"text":true}]"#,
            Form::Native,
            false,
        ),
        (4, r#"[{"slice":[3,60]}]"#, Form::Native, true),
        (4, r#"[{"slice":[3,66]}]"#, Form::Native, true),
        (
            4,
            r#"[{"slice":[3,60]},{"edit":[0,0],"with":"é"}]"#,
            Form::Native,
            false,
        ),
        (
            4,
            r#"[{"at":1},{"edit":[0,0],"with":"é"}]"#,
            Form::Native,
            false,
        ),
        (
            4,
            r#"[{"edit":[0,0],"with":"é"},{"at":1}]"#,
            Form::Native,
            true,
        ),
        // no slot is left for the list
        (1, r#"[{"at":63}]"#, Form::Native, false),
        (1, r#"[{"slice":[3,60]}]"#, Form::Native, false),
        (0, r#"[{"at":63}]"#, Form::Owned, false),
    ];
    for (slots, list, form, known) in rows {
        let (heap, all) = heap_of(&rt, alloc, slots)?;
        let mut pass = heap.pass(all);
        let mut value = Str::from_utf8(alloc, &mut pass, text.as_bytes())?;
        let _answers = answers(alloc, &mut value, &mut pass, list, 0)?;
        assert_eq!(rt;
            (value.form(), value.crumbs_known()),
            (form, known),
            "{list}"
        );
    }
    Ok(())
}
