//! What no clause says: that steps find memory, and the replies to lines that were worked out by hand.
ghost use Rattle.std.specs.Prelude.{◌≡◌, false, OnOk};

use outside::OpenGate;
use query_lines::{LineError, read_line, reply_text};
use query_session::{Session, default_literals};
use std::alloc::Global;
use std::process::Abort;
use std::thread::Threads;
use text_spec::OutOfMemory;
use value_heaps::{layout, opened};
use word_units::Text;

/// The text of the reply to a line, or nothing where the line is no command.
fn answer<R: Threads + Sync>(
    rt: &R,
    alloc: Global,
    session: &mut Session,
    line: &[u8],
) -> Result<Vec<u8>, OutOfMemory>
    requires { session.old.failed ≡ false }
    ensures { OnOk result (session.new.failed ≡ false) }
{
    if line.len() > 300_000 {
        return Ok(Vec::new(alloc));
    }
    match read_line(alloc, line) {
        Ok(command) => {
            let reply = session.step(alloc, rt, command, &OpenGate)?;
            reply_text(alloc, &reply)
        }
        Err(LineError::OutOfMemory) => Err(OutOfMemory),
        Err(_) => Ok(Vec::new(alloc)),
    }
}

#[test]
fn lines_get_the_replies_worked_out_by_hand(rt: HostRuntime) -> Result<(), OutOfMemory> {
    let rows = [
        (
            r#"{"load":"a","text":""}"#,
            r#"{"scalars":0,"utf16":0,"utf8":0}"#,
        ),
        (
            r#"{"on":"a","do":[{"at":0},{"at":1}]}"#,
            r#"{"results":[{"utf16":0,"utf8":0,"value":null},{"error":"out of bounds","utf16":0}]}"#,
        ),
        (
            r#"{"load":"g","text":"😀"}"#,
            r#"{"scalars":1,"utf16":2,"utf8":4}"#,
        ),
        (
            r#"{"on":"g","do":[{"at":1},{"at":2},{"at":3},{"place":{"utf8":3}}]}"#,
            r#"{"results":[{"utf16":0,"utf8":0,"value":128512},{"utf16":2,"utf8":4,"value":null},{"error":"out of bounds","utf16":2},{"utf16":0,"utf8":0,"value":128512}]}"#,
        ),
        (
            r#"{"load":"t","text":"abc"}"#,
            r#"{"scalars":3,"utf16":3,"utf8":3}"#,
        ),
        // A slice takes nothing from the text, nor does a refused op: the same line and a later one find it whole.
        (
            r#"{"on":"t","do":[{"slice":[1,3]},{"text":true},{"slice":[0,9]},{"slice":[0,2]}]}"#,
            r#"{"results":[{"text":"bc"},{"text":"abc"},{"error":"out of bounds","utf16":3},{"text":"ab"}]}"#,
        ),
        (
            r#"{"on":"t","do":[{"text":true},{"count":"utf8"}]}"#,
            r#"{"results":[{"text":"abc"},{"count":3}]}"#,
        ),
        (r#"{"on":"t","do":[]}"#, r#"{"results":[]}"#),
        // An edit is kept for the next line, and is of its own name alone.
        (r#"{"copy":"s","from":"t"}"#, r#"{"ok":"copy"}"#),
        (
            r#"{"on":"t","do":[{"edit":[0,1],"with":"X"},{"edit":[9,9],"with":"Y"},{"edit":[3,3],"with":"Z"}]}"#,
            r#"{"results":[{"scalars":3,"utf16":3,"utf8":3},{"error":"out of bounds","utf16":3},{"scalars":4,"utf16":4,"utf8":4}]}"#,
        ),
        (
            r#"{"on":"t","do":[{"text":true}]}"#,
            r#"{"results":[{"text":"XbcZ"}]}"#,
        ),
        (
            r#"{"on":"s","do":[{"text":true}]}"#,
            r#"{"results":[{"text":"abc"}]}"#,
        ),
        // Units stay as they are until the first edit.
        (
            r#"{"load":"u","units":[55296,65]}"#,
            r#"{"scalars":2,"utf16":2,"utf8":4}"#,
        ),
        (
            r#"{"on":"u","do":[{"at":0},{"at":1},{"at":2},{"place":{"utf8":2}},{"place":{"utf8":5}},{"slice":[0,1]}]}"#,
            r#"{"results":[{"utf16":0,"utf8":0,"value":65533},{"utf16":1,"utf8":3,"value":65},{"utf16":2,"utf8":4,"value":null},{"utf16":0,"utf8":0,"value":65533},{"error":"out of bounds","utf8":4},{"text":"�"}]}"#,
        ),
        (
            r#"{"load":"v","units":[55357,56832]}"#,
            r#"{"scalars":1,"utf16":2,"utf8":4}"#,
        ),
        (
            r#"{"on":"v","do":[{"edit":[0,0],"with":"x"},{"text":true}]}"#,
            r#"{"results":[{"scalars":2,"utf16":3,"utf8":5},{"text":"x😀"}]}"#,
        ),
        (
            r#"{"load":"x","text":"ééééééééééééééééééééééééééééééééééééééééééééééééééééééééééééééé😀ééééééééééééééééééééééééééééééééééééééééééééééééééééééééééééééé"}"#,
            r#"{"scalars":127,"utf16":128,"utf8":256}"#,
        ),
        (
            r#"{"on":"x","do":[{"at":64},{"place":{"utf8":129}},{"at":127},{"slice":[62,65]},{"count":"characters"}]}"#,
            r#"{"results":[{"utf16":63,"utf8":126,"value":128512},{"utf16":63,"utf8":126,"value":128512},{"utf16":127,"utf8":254,"value":233},{"text":"é😀"},{"count":127}]}"#,
        ),
    ];
    let literals = default_literals(rt.alloc())?;
    let opened = opened(rt.alloc(), &layout(256, 8_192, 4_096), &literals);
    let (heap, whole) = opened.expect(&rt, "no heap");
    let mut session = Session::new(rt.alloc(), heap.pass(whole), 1)?;
    for (line, wanted) in rows {
        let reply = answer(&rt, rt.alloc(), &mut session, line.as_bytes())?;
        assert_eq!(rt; reply.as_slice(), wanted.as_bytes(), "{line}");
    }
    let whole = session.end().end();
    assert!(rt; whole.is_ok(), "a credit did not come back");
    Ok(())
}

#[test]
fn names_are_copied_dropped_and_compared(rt: HostRuntime) -> Result<(), OutOfMemory> {
    let rows = [
        (
            r#"{"load":"a","text":"abcdefghijklmnopqrst"}"#,
            r#"{"scalars":20,"utf16":20,"utf8":20}"#,
        ),
        (r#"{"copy":"c","from":"a"}"#, r#"{"ok":"copy"}"#),
        (
            r#"{"on":"c","do":[{"text":true}]}"#,
            r#"{"results":[{"text":"abcdefghijklmnopqrst"}]}"#,
        ),
        (r#"{"drop":"c"}"#, r#"{"ok":"drop"}"#),
        (r#"{"drop":"c"}"#, r#"{"error":"no name","name":"c"}"#),
        (r#"{"on":"c","do":[]}"#, r#"{"error":"no name","name":"c"}"#),
        (
            r#"{"copy":"a","from":"zz"}"#,
            r#"{"error":"no name","name":"zz"}"#,
        ),
        (
            r#"{"copy":"zz","from":"zz"}"#,
            r#"{"error":"no name","name":"zz"}"#,
        ),
        (r#"{"copy":"a","from":"a"}"#, r#"{"ok":"copy"}"#),
        (
            r#"{"load":"b","bytes":[195,40]}"#,
            r#"{"error":"not utf-8","valid":0}"#,
        ),
        (r#"{"on":"b","do":[]}"#, r#"{"error":"no name","name":"b"}"#),
        (
            r#"{"load":"b","bytes":[97,195,169]}"#,
            r#"{"scalars":2,"utf16":2,"utf8":3}"#,
        ),
        (
            r#"{"load":"b","bytes":[97,237,160,128]}"#,
            r#"{"error":"not utf-8","valid":1}"#,
        ),
        (
            r#"{"on":"b","do":[{"text":true}]}"#,
            r#"{"results":[{"text":"aé"}]}"#,
        ),
        // A name in use gets the other text, and the source keeps its own.
        (r#"{"copy":"b","from":"a"}"#, r#"{"ok":"copy"}"#),
        (
            r#"{"load":"a","bytes":[]}"#,
            r#"{"scalars":0,"utf16":0,"utf8":0}"#,
        ),
        (
            r#"{"on":"b","do":[{"text":true}]}"#,
            r#"{"results":[{"text":"abcdefghijklmnopqrst"}]}"#,
        ),
        (
            r#"{"load":"p","text":"e\u0301"}"#,
            r#"{"scalars":2,"utf16":2,"utf8":3}"#,
        ),
        (
            r#"{"load":"q","units":[233]}"#,
            r#"{"scalars":1,"utf16":1,"utf8":2}"#,
        ),
        (
            r#"{"load":"r","text":"f"}"#,
            r#"{"scalars":1,"utf16":1,"utf8":1}"#,
        ),
        // Literals, and what an edit makes of one.
        (
            r#"{"load":"l","literal":3}"#,
            r#"{"scalars":127,"utf16":128,"utf8":256}"#,
        ),
        (
            r#"{"on":"l","do":[{"at":64},{"edit":[1,127],"with":"-"},{"text":true}]}"#,
            r#"{"results":[{"utf16":63,"utf8":126,"value":128512},{"scalars":3,"utf16":3,"utf8":5},{"text":"é-é"}]}"#,
        ),
        (
            r#"{"load":"l","literal":1}"#,
            r#"{"scalars":13,"utf16":13,"utf8":13}"#,
        ),
        (r#"{"load":"l","literal":4}"#, r#"{"error":"no literal"}"#),
        (r#"{"copy":"k","from":"l"}"#, r#"{"ok":"copy"}"#),
        (
            r#"{"load":"l","literal":0}"#,
            r#"{"scalars":0,"utf16":0,"utf8":0}"#,
        ),
        (
            r#"{"on":"k","do":[{"text":true}]}"#,
            r#"{"results":[{"text":"Hello, world!"}]}"#,
        ),
        (
            r#"{"load":"k","literal":2}"#,
            r#"{"scalars":43,"utf16":43,"utf8":43}"#,
        ),
        (
            r#"{"load":"k","literal":18446744073709551615}"#,
            r#"{"error":"no literal"}"#,
        ),
        (r#"{"compare":["p","q"]}"#, r#"{"order":"equal"}"#),
        (r#"{"compare":["p","r"]}"#, r#"{"order":"greater"}"#),
        (r#"{"compare":["r","p"]}"#, r#"{"order":"less"}"#),
        (r#"{"compare":["r","b"]}"#, r#"{"order":"greater"}"#),
        (r#"{"compare":["r","r"]}"#, r#"{"order":"equal"}"#),
        (
            r#"{"compare":["zz","yy"]}"#,
            r#"{"error":"no name","name":"zz"}"#,
        ),
        (
            r#"{"compare":["p","yy"]}"#,
            r#"{"error":"no name","name":"yy"}"#,
        ),
        (
            r#"{"on":"p","do":[{"count":"scalars"}]}"#,
            r#"{"results":[{"count":2}]}"#,
        ),
        (
            r#"{"on":"q","do":[{"text":true}]}"#,
            r#"{"results":[{"text":"é"}]}"#,
        ),
    ];
    let literals = default_literals(rt.alloc())?;
    let opened = opened(rt.alloc(), &layout(256, 8_192, 4_096), &literals);
    let (heap, whole) = opened.expect(&rt, "no heap");
    let mut session = Session::new(rt.alloc(), heap.pass(whole), 1)?;
    for (line, wanted) in rows {
        let reply = answer(&rt, rt.alloc(), &mut session, line.as_bytes())?;
        assert_eq!(rt; reply.as_slice(), wanted.as_bytes(), "{line}");
    }
    let whole = session.end().end();
    assert!(rt; whole.is_ok(), "a credit did not come back");
    Ok(())
}

#[test]
fn refused_lines_and_ops_leave_every_name(rt: HostRuntime) -> Result<(), OutOfMemory> {
    let rows = [
        (
            r#"{"copy":"a","from":"zz"}"#,
            r#"{"error":"no name","name":"zz"}"#,
        ),
        (
            r#"{"copy":"zz","from":"zz"}"#,
            r#"{"error":"no name","name":"zz"}"#,
        ),
        (r#"{"drop":"zz"}"#, r#"{"error":"no name","name":"zz"}"#),
        (
            r#"{"compare":["zz","yy"]}"#,
            r#"{"error":"no name","name":"zz"}"#,
        ),
        (
            r#"{"compare":["a","yy"]}"#,
            r#"{"error":"no name","name":"yy"}"#,
        ),
        (
            r#"{"load":"a","bytes":[97,237,160,128]}"#,
            r#"{"error":"not utf-8","valid":1}"#,
        ),
        (
            r#"{"load":"c","bytes":[195,40]}"#,
            r#"{"error":"not utf-8","valid":0}"#,
        ),
        (r#"{"on":"c","do":[]}"#, r#"{"error":"no name","name":"c"}"#),
        (
            r#"{"on":"zz","do":[{"edit":[0,0],"with":"x"}]}"#,
            r#"{"error":"no name","name":"zz"}"#,
        ),
        (
            r#"{"on":"a","do":[{"edit":[4,4],"with":"x"},{"edit":[0,4],"with":"x"},{"edit":[2,1],"with":"x"}]}"#,
            r#"{"results":[{"error":"out of bounds","utf16":3},{"error":"out of bounds","utf16":3},{"error":"out of bounds","utf16":3}]}"#,
        ),
    ];
    let names = [
        (
            r#"{"on":"a","do":[{"text":true}]}"#,
            r#"{"results":[{"text":"abc"}]}"#,
        ),
        (
            r#"{"on":"b","do":[{"text":true}]}"#,
            r#"{"results":[{"text":"é"}]}"#,
        ),
        (r#"{"drop":"c"}"#, r#"{"error":"no name","name":"c"}"#),
        (r#"{"drop":"zz"}"#, r#"{"error":"no name","name":"zz"}"#),
    ];
    let literals = default_literals(rt.alloc())?;
    let opened = opened(rt.alloc(), &layout(256, 8_192, 4_096), &literals);
    let (heap, whole) = opened.expect(&rt, "no heap");
    let mut session = Session::new(rt.alloc(), heap.pass(whole), 1)?;
    for line in [r#"{"load":"a","text":"abc"}"#, r#"{"load":"b","text":"é"}"#] {
        let _reply = answer(&rt, rt.alloc(), &mut session, line.as_bytes())?;
    }
    for (refused, wanted) in rows {
        let reply = answer(&rt, rt.alloc(), &mut session, refused.as_bytes())?;
        assert_eq!(rt; reply.as_slice(), wanted.as_bytes(), "{refused}");
        for (question, wanted) in names {
            let reply = answer(&rt, rt.alloc(), &mut session, question.as_bytes())?;
            assert_eq!(rt;
                reply.as_slice(),
                wanted.as_bytes(),
                "{question} after {refused}"
            );
        }
    }
    let whole = session.end().end();
    assert!(rt; whole.is_ok(), "a credit did not come back");
    Ok(())
}

/// The second word of a name's value, which has its slot's number, and whether the value knows its breadcrumbs.
fn slot_and_breadcrumbs(rt: &impl Abort, session: &Session, name: &[u8]) -> (u64, bool)
    requires { session.now.failed ≡ false }
{
    assert!(rt; session.has(name), "a name that is not in use");
    let value = session.value(name);
    (value.object().w1(), value.crumbs_known())
}

#[test]
fn copies_share_a_slot_until_one_is_edited(rt: HostRuntime) -> Result<(), OutOfMemory> {
    let literals = default_literals(rt.alloc())?;
    let opened = opened(rt.alloc(), &layout(256, 8_192, 4_096), &literals);
    let (heap, whole) = opened.expect(&rt, "no heap");
    let mut session = Session::new(rt.alloc(), heap.pass(whole), 1)?;
    let load =
        r#"{"load":"a","text":"ééééééééééééééééééééééééééééééééééééééééééééééééééééééééééééééé😀ééééééééééééééééééééééééééééééééééééééééééééééééééééééééééééééé"}"#;
    let _reply = answer(&rt, rt.alloc(), &mut session, load.as_bytes())?;
    let copy = br#"{"copy":"b","from":"a"}"#;
    let _reply = answer(&rt, rt.alloc(), &mut session, copy)?;
    let (slot, _) = slot_and_breadcrumbs(&rt, &session, b"a");
    let (copied, known) = slot_and_breadcrumbs(&rt, &session, b"b");
    assert_eq!(rt; copied, slot, "a copy in a slot of its own");
    assert!(rt; !known, "breadcrumbs that nobody asked for");

    let question = br#"{"on":"a","do":[{"at":64}]}"#;
    let reply = answer(&rt, rt.alloc(), &mut session, question)?;
    let wanted = br#"{"results":[{"utf16":63,"utf8":126,"value":128512}]}"#;
    assert_eq!(rt; reply.as_slice(), wanted.as_slice(), "a place");
    let (asked, known) = slot_and_breadcrumbs(&rt, &session, b"a");
    assert_eq!(rt; asked, slot, "a text that a question moved");
    assert!(rt; known, "breadcrumbs that were not learned");
    let (_, known) = slot_and_breadcrumbs(&rt, &session, b"b");
    assert!(rt; !known, "breadcrumbs that another name learned");

    let edit = br#"{"on":"b","do":[{"edit":[0,1],"with":""}]}"#;
    let reply = answer(&rt, rt.alloc(), &mut session, edit)?;
    let wanted = br#"{"results":[{"scalars":126,"utf16":127,"utf8":254}]}"#;
    assert_eq!(rt; reply.as_slice(), wanted.as_slice(), "an edit of a copy");
    let (edited, _) = slot_and_breadcrumbs(&rt, &session, b"b");
    assert!(rt; edited != slot, "an edit in the slot of another name");

    let edit = br#"{"on":"b","do":[{"edit":[0,0],"with":"x"}]}"#;
    let reply = answer(&rt, rt.alloc(), &mut session, edit)?;
    let wanted = br#"{"results":[{"scalars":127,"utf16":128,"utf8":255}]}"#;
    assert_eq!(rt;
        reply.as_slice(),
        wanted.as_slice(),
        "an edit of a text alone in its slot"
    );
    let (again, _) = slot_and_breadcrumbs(&rt, &session, b"b");
    assert_eq!(rt; again, edited, "an edit that was not done in place");

    let whole = session.end().end();
    assert!(rt; whole.is_ok(), "a credit did not come back");
    Ok(())
}

#[test]
fn no_more_than_256_names_are_in_use(rt: HostRuntime) -> Result<(), OutOfMemory> {
    let literals = default_literals(rt.alloc())?;
    let opened = opened(rt.alloc(), &layout(256, 8_192, 4_096), &literals);
    let (heap, whole) = opened.expect(&rt, "no heap");
    let mut session = Session::new(rt.alloc(), heap.pass(whole), 8)?;
    let first = br#"{"load":"n0","text":"x"}"#;
    let _reply = answer(&rt, rt.alloc(), &mut session, first)?;
    for number in 1..256_u32 {
        let line = format!(in rt.alloc(); "{{\"copy\":\"n{number}\",\"from\":\"n0\"}}")?;
        let reply = answer(&rt, rt.alloc(), &mut session, line.as_bytes())?;
        assert_eq!(rt; reply.as_slice(), br#"{"ok":"copy"}"#.as_slice(), "{line}");
    }
    let rows = [
        (
            r#"{"load":"m","text":"x"}"#,
            r#"{"error":"too many names"}"#,
        ),
        (r#"{"on":"m","do":[]}"#, r#"{"error":"no name","name":"m"}"#),
        (
            r#"{"load":"n7","text":"yz"}"#,
            r#"{"scalars":2,"utf16":2,"utf8":2}"#,
        ),
        (
            r#"{"on":"n7","do":[{"text":true}]}"#,
            r#"{"results":[{"text":"yz"}]}"#,
        ),
        (
            r#"{"on":"n8","do":[{"text":true}]}"#,
            r#"{"results":[{"text":"x"}]}"#,
        ),
        // The first refusal that stands is told.
        (
            r#"{"load":"m","bytes":[255]}"#,
            r#"{"error":"not utf-8","valid":0}"#,
        ),
        (
            r#"{"load":"m","bytes":[120]}"#,
            r#"{"error":"too many names"}"#,
        ),
        (r#"{"load":"m","literal":4}"#, r#"{"error":"no literal"}"#),
        (
            r#"{"load":"m","literal":1}"#,
            r#"{"error":"too many names"}"#,
        ),
        (
            r#"{"copy":"m","from":"zz"}"#,
            r#"{"error":"no name","name":"zz"}"#,
        ),
        (
            r#"{"copy":"m","from":"n7"}"#,
            r#"{"error":"too many names"}"#,
        ),
        (r#"{"copy":"n8","from":"n7"}"#, r#"{"ok":"copy"}"#),
        (r#"{"copy":"n9","from":"n9"}"#, r#"{"ok":"copy"}"#),
        (r#"{"drop":"n9"}"#, r#"{"ok":"drop"}"#),
        (r#"{"copy":"m","from":"n8"}"#, r#"{"ok":"copy"}"#),
        (
            r#"{"on":"m","do":[{"text":true}]}"#,
            r#"{"results":[{"text":"yz"}]}"#,
        ),
    ];
    for (line, wanted) in rows {
        let reply = answer(&rt, rt.alloc(), &mut session, line.as_bytes())?;
        assert_eq!(rt; reply.as_slice(), wanted.as_bytes(), "{line}");
    }
    let whole = session.end().end();
    assert!(rt; whole.is_ok(), "a credit did not come back");
    Ok(())
}

#[test]
fn batches_work_on_copies_and_keep_what_they_leave(rt: HostRuntime) -> Result<(), OutOfMemory> {
    let rows = [
        (
            r#"{"load":"a","text":"abc"}"#,
            r#"{"scalars":3,"utf16":3,"utf8":3}"#,
        ),
        (
            r#"{"batch":[{"on":"a","do":[{"edit":[0,1],"with":"X"}],"keep":"a"},{"on":"a","do":[{"edit":[3,3],"with":"Y"},{"text":true}]}]}"#,
            r#"{"jobs":[[{"scalars":3,"utf16":3,"utf8":3}],[{"scalars":4,"utf16":4,"utf8":4},{"text":"abcY"}]]}"#,
        ),
        (
            r#"{"on":"a","do":[{"text":true}]}"#,
            r#"{"results":[{"text":"Xbc"}]}"#,
        ),
        // One name that isn't in use refuses the whole line.
        (
            r#"{"batch":[{"on":"a","do":[{"edit":[0,0],"with":"Z"}],"keep":"a"},{"on":"zz","do":[]},{"on":"yy","do":[]}]}"#,
            r#"{"error":"no name","name":"zz"}"#,
        ),
        (
            r#"{"on":"a","do":[{"text":true}]}"#,
            r#"{"results":[{"text":"Xbc"}]}"#,
        ),
        (r#"{"batch":[]}"#, r#"{"jobs":[]}"#),
        (
            r#"{"batch":[{"on":"a","do":[{"text":true},{"at":9}]}]}"#,
            r#"{"jobs":[[{"text":"Xbc"},{"error":"out of bounds","utf16":3}]]}"#,
        ),
        // The later of two jobs wins, under a new name and under one in use.
        (
            r#"{"batch":[{"on":"a","do":[{"edit":[0,0],"with":"1"}],"keep":"b"},{"on":"a","do":[{"edit":[0,0],"with":"22"}],"keep":"b"}]}"#,
            r#"{"jobs":[[{"scalars":4,"utf16":4,"utf8":4}],[{"scalars":5,"utf16":5,"utf8":5}]]}"#,
        ),
        (
            r#"{"on":"b","do":[{"text":true}]}"#,
            r#"{"results":[{"text":"22Xbc"}]}"#,
        ),
        (
            r#"{"batch":[{"on":"a","do":[{"edit":[0,0],"with":"22"}],"keep":"b"},{"on":"a","do":[{"edit":[0,0],"with":"1"}],"keep":"b"}]}"#,
            r#"{"jobs":[[{"scalars":5,"utf16":5,"utf8":5}],[{"scalars":4,"utf16":4,"utf8":4}]]}"#,
        ),
        // A later job reads what stood under the name before the line.
        (
            r#"{"batch":[{"on":"a","do":[{"edit":[0,3],"with":"new"}],"keep":"b"},{"on":"b","do":[{"text":true}]},{"on":"b","do":[],"keep":"c"}]}"#,
            r#"{"jobs":[[{"scalars":3,"utf16":3,"utf8":3}],[{"text":"1Xbc"}],[]]}"#,
        ),
        (
            r#"{"batch":[{"on":"a","do":[{"text":true}]},{"on":"b","do":[{"text":true}]},{"on":"c","do":[{"text":true}]}]}"#,
            r#"{"jobs":[[{"text":"Xbc"}],[{"text":"new"}],[{"text":"1Xbc"}]]}"#,
        ),
        // A text in a slot: its copies share it, and each is edited alone.
        (
            r#"{"load":"x","text":"ééééééééééééééééééééééééééééééééééééééééééééééééééééééééééééééé😀ééééééééééééééééééééééééééééééééééééééééééééééééééééééééééééééé"}"#,
            r#"{"scalars":127,"utf16":128,"utf8":256}"#,
        ),
        (
            r#"{"batch":[{"on":"x","do":[{"at":64}],"keep":"y"},{"on":"x","do":[{"edit":[1,128],"with":""},{"text":true}],"keep":"x"},{"on":"x","do":[{"edit":[0,127],"with":""}]}]}"#,
            r#"{"jobs":[[{"utf16":63,"utf8":126,"value":128512}],[{"scalars":1,"utf16":1,"utf8":2},{"text":"é"}],[{"scalars":1,"utf16":1,"utf8":2}]]}"#,
        ),
        (
            r#"{"batch":[{"on":"x","do":[{"text":true}]},{"on":"y","do":[{"count":"utf8"},{"at":64}]}]}"#,
            r#"{"jobs":[[{"text":"é"}],[{"count":256},{"utf16":63,"utf8":126,"value":128512}]]}"#,
        ),
    ];
    let literals = default_literals(rt.alloc())?;
    for workers in 1..9 {
        let opened = opened(rt.alloc(), &layout(256, 8_192, 4_096), &literals);
        let (heap, whole) = opened.expect(&rt, "no heap");
        let mut session = Session::new(rt.alloc(), heap.pass(whole), workers)?;
        for (line, wanted) in rows {
            let reply = answer(&rt, rt.alloc(), &mut session, line.as_bytes())?;
            assert_eq!(rt; reply.as_slice(), wanted.as_bytes(), "{line}");
        }
        let whole = session.end().end();
        assert!(rt; whole.is_ok(), "a credit did not come back");
    }
    Ok(())
}

#[test]
fn keeps_of_a_batch_respect_the_limit_of_names(rt: HostRuntime) -> Result<(), OutOfMemory> {
    let literals = default_literals(rt.alloc())?;
    let opened = opened(rt.alloc(), &layout(256, 8_192, 4_096), &literals);
    let (heap, whole) = opened.expect(&rt, "no heap");
    let mut session = Session::new(rt.alloc(), heap.pass(whole), 8)?;
    let first = br#"{"load":"n0","text":"x"}"#;
    let _reply = answer(&rt, rt.alloc(), &mut session, first)?;
    for number in 1..255_u32 {
        let line = format!(in rt.alloc(); "{{\"copy\":\"n{number}\",\"from\":\"n0\"}}")?;
        let reply = answer(&rt, rt.alloc(), &mut session, line.as_bytes())?;
        assert_eq!(rt; reply.as_slice(), br#"{"ok":"copy"}"#.as_slice(), "{line}");
    }
    let rows = [
        (
            r#"{"batch":[{"on":"n0","do":[{"edit":[0,0],"with":"y"}],"keep":"n0"},{"on":"n0","do":[],"keep":"p"},{"on":"n0","do":[],"keep":"q"}]}"#,
            r#"{"error":"too many names"}"#,
        ),
        (
            r#"{"batch":[{"on":"n0","do":[],"keep":"p"},{"on":"n0","do":[],"keep":"q"},{"on":"p","do":[]}]}"#,
            r#"{"error":"no name","name":"p"}"#,
        ),
        (r#"{"on":"q","do":[]}"#, r#"{"error":"no name","name":"q"}"#),
        (
            r#"{"on":"n0","do":[{"text":true}]}"#,
            r#"{"results":[{"text":"x"}]}"#,
        ),
        (
            r#"{"batch":[{"on":"n0","do":[{"edit":[0,0],"with":"1"}],"keep":"p"},{"on":"n1","do":[{"edit":[1,1],"with":"2"}],"keep":"p"},{"on":"n1","do":[{"edit":[0,1],"with":"3"}],"keep":"n2"}]}"#,
            r#"{"jobs":[[{"scalars":2,"utf16":2,"utf8":2}],[{"scalars":2,"utf16":2,"utf8":2}],[{"scalars":1,"utf16":1,"utf8":1}]]}"#,
        ),
        (
            r#"{"batch":[{"on":"p","do":[{"text":true}]},{"on":"n2","do":[{"text":true}]},{"on":"n1","do":[{"text":true}]}]}"#,
            r#"{"jobs":[[{"text":"x2"}],[{"text":"3"}],[{"text":"x"}]]}"#,
        ),
        (
            r#"{"batch":[{"on":"n0","do":[],"keep":"q"}]}"#,
            r#"{"error":"too many names"}"#,
        ),
        (
            r#"{"batch":[{"on":"n0","do":[],"keep":"p"},{"on":"p","do":[],"keep":"n0"}]}"#,
            r#"{"jobs":[[],[]]}"#,
        ),
        (
            r#"{"batch":[{"on":"n0","do":[{"text":true}]},{"on":"p","do":[{"text":true}]}]}"#,
            r#"{"jobs":[[{"text":"x2"}],[{"text":"x"}]]}"#,
        ),
    ];
    for (line, wanted) in rows {
        let reply = answer(&rt, rt.alloc(), &mut session, line.as_bytes())?;
        assert_eq!(rt; reply.as_slice(), wanted.as_bytes(), "{line}");
    }
    let whole = session.end().end();
    assert!(rt; whole.is_ok(), "a credit did not come back");
    Ok(())
}

/// Bytes with so many times an item between, and a comma before each but the first.
fn listed(
    alloc: Global,
    head: &str,
    item: &str,
    times: u32,
    tail: &str,
) -> Result<Vec<u8>, OutOfMemory> {
    let mut text = Vec::new(alloc);
    text.extend_from_slice(head.as_bytes())?;
    for number in 0..times {
        if number > 0 {
            text.push(b',')?;
        }
        text.extend_from_slice(item.as_bytes())?;
    }
    text.extend_from_slice(tail.as_bytes())?;
    Ok(text)
}

/// So many bytes `x` between two other texts.
fn padded(alloc: Global, head: &str, times: u32, tail: &str) -> Result<Vec<u8>, OutOfMemory> {
    let mut text = Vec::new(alloc);
    text.extend_from_slice(head.as_bytes())?;
    for _ in 0..times {
        text.push(b'x')?;
    }
    text.extend_from_slice(tail.as_bytes())?;
    Ok(text)
}

/// 16 MiB by 64.
const SHARE: u32 = 262_144;

#[test]
fn each_of_64_jobs_answers_its_share_of_the_limit(rt: HostRuntime) -> Result<(), OutOfMemory> {
    let alloc = rt.alloc();
    let literals = default_literals(alloc)?;
    let opened = opened(alloc, &layout(256, 8_192, 4_096), &literals);
    let (heap, whole) = opened.expect(&rt, "no heap");
    let mut session = Session::new(alloc, heap.pass(whole), 8)?;
    let load = padded(alloc, r#"{"load":"a","text":""#, SHARE, r#""}"#)?;
    let reply = answer(&rt, alloc, &mut session, load.as_slice())?;
    assert_eq!(rt;
        reply.as_slice(),
        br#"{"scalars":262144,"utf16":262144,"utf8":262144}"#.as_slice()
    );

    // A job's share is its own: the others answer nothing, and it may not answer a byte more.
    let item = r#"{"on":"a","do":[]}"#;
    let first =
        r#"{"batch":[{"on":"a","do":[{"text":true},{"slice":[1,1]},{"slice":[0,1]},{"edit":[0,262144],"with":""},{"text":true}]},"#;
    let line = listed(alloc, first, item, 63, "]}")?;
    let reply = answer(&rt, alloc, &mut session, line.as_slice())?;
    let told = padded(
        alloc,
        r#"{"jobs":[[{"text":""#,
        SHARE,
        r#""},{"text":""},{"error":"too long"},{"scalars":0,"utf16":0,"utf8":0},{"text":""}],"#,
    )?;
    assert!(rt; reply.starts_with(told.as_slice()), "the first job");
    let rest = listed(alloc, "", "[]", 63, "]}")?;
    assert_eq!(rt; reply.len(), told.len() + rest.len(), "the other jobs");
    assert!(rt; reply.ends_with(rest.as_slice()), "the other jobs");

    // One scalar more is too long for each of 64 jobs, and for none of 63.
    let grown = br#"{"on":"a","do":[{"edit":[0,0],"with":"y"}]}"#;
    let _reply = answer(&rt, alloc, &mut session, grown)?;
    let line = listed(
        alloc,
        r#"{"batch":["#,
        r#"{"on":"a","do":[{"text":true}]}"#,
        64,
        "]}",
    )?;
    let reply = answer(&rt, alloc, &mut session, line.as_slice())?;
    let told = listed(alloc, r#"{"jobs":["#, r#"[{"error":"too long"}]"#, 64, "]}")?;
    assert_eq!(rt; reply.as_slice(), told.as_slice(), "64 jobs");
    let line = listed(
        alloc,
        r#"{"batch":[{"on":"a","do":[{"text":true}]},"#,
        item,
        62,
        "]}",
    )?;
    let reply = answer(&rt, alloc, &mut session, line.as_slice())?;
    let told = padded(alloc, r#"{"jobs":[[{"text":"y"#, SHARE, r#""}],"#)?;
    assert!(rt; reply.starts_with(told.as_slice()), "63 jobs");

    // 65 jobs are no command.
    let line = listed(alloc, r#"{"batch":["#, item, 65, "]}")?;
    let reply = answer(&rt, alloc, &mut session, line.as_slice())?;
    assert!(rt; reply.is_empty(), "65 jobs");
    let whole = session.end().end();
    assert!(rt; whole.is_ok(), "a credit did not come back");
    Ok(())
}
