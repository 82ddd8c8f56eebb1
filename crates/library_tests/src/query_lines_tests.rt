//! Values from outside: rows of the command table, and lines that are malformed in one way each. No clause says that a row is the one meant.

ghost use Rattle.std.specs.Prelude.{◌≡◌, All, IfOk, IsUtf8};
ghost use Rattle.query_lines.specs.Replies.{IsShown, IsShownOp};

use query_lines::{
    Bytes, Command, Content, JobLine, JobReplies, LineError, Op, OpReplies, OpReply, Refusal,
    Reply, View, read_line, reply_text,
};
use std::alloc::{AllocError, AllocFailed, Global};
use std::cmp::Ordering;
use std::test::Fail;

fn bytes_of(alloc: Global, text: &str) -> Result<Bytes, AllocError>
    ensures { IfOk result IsUtf8 }
{
    Ok(Bytes::new(text.as_bytes().to_vec(alloc)?))
}

fn push_bytes(out: &mut String, bytes: &Bytes) -> Result<(), AllocError> {
    match std::str::from_utf8(bytes.as_slice()) {
        Ok(text) => write!(out, " {text}"),
        Err(_) => write!(out, " (no text)"),
    }
}

fn push_op(out: &mut String, op: &Op) -> Result<(), AllocError> {
    match op {
        Op::At(offset) => write!(out, " at {offset}"),
        Op::Place(offset) => write!(out, " place {offset}"),
        Op::Count(view) => write!(out, " count {view:?}"),
        Op::Slice(a, b) => write!(out, " slice {a} {b}"),
        Op::All => write!(out, " text"),
        Op::Edit { a, b, with } => {
            write!(out, " edit {a} {b}")?;
            push_bytes(out, with)
        }
    }
}

fn push_ops(out: &mut String, ops: &[Op]) -> Result<(), AllocError> {
    for op in ops {
        push_op(out, op)?;
    }
    Ok(())
}

fn push_job(out: &mut String, job: &JobLine) -> Result<(), AllocError> {
    write!(out, " on")?;
    push_bytes(out, &job.name)?;
    push_ops(out, job.ops.as_slice())?;
    if let Some(name) = &job.keep {
        write!(out, " keep")?;
        push_bytes(out, name)?;
    }
    Ok(())
}

fn push_content(out: &mut String, what: &Content) -> Result<(), AllocError> {
    match what {
        Content::Text(text) => push_bytes(out, text),
        Content::Units(units) => write!(out, " units {:?}", units.as_slice()),
        Content::Raw(bytes) => write!(out, " bytes {:?}", bytes.as_slice()),
        Content::Literal(number) => write!(out, " literal {number}"),
    }
}

fn push_command(out: &mut String, command: &Command) -> Result<(), AllocError> {
    match command {
        Command::Load { name, what } => {
            write!(out, "load")?;
            push_bytes(out, name)?;
            push_content(out, what)
        }
        Command::Copy { to, source } => {
            write!(out, "copy")?;
            push_bytes(out, to)?;
            push_bytes(out, source)
        }
        Command::Drop { name } => {
            write!(out, "drop")?;
            push_bytes(out, name)
        }
        Command::Compare { a, b } => {
            write!(out, "compare")?;
            push_bytes(out, a)?;
            push_bytes(out, b)
        }
        Command::On { name, ops } => {
            write!(out, "on")?;
            push_bytes(out, name)?;
            push_ops(out, ops.as_slice())
        }
        Command::Batch { jobs } => {
            write!(out, "batch")?;
            for job in jobs.as_slice() {
                push_job(out, job)?;
            }
            Ok(())
        }
    }
}

/// What a line is read as, in words.
fn outcome(alloc: Global, line: &[u8]) -> Result<String, AllocError> {
    let mut out = String::new(alloc);
    match read_line(alloc, line) {
        Ok(command) => push_command(&mut out, &command)?,
        Err(LineError::Syntax) => write!(out, "syntax")?,
        Err(LineError::OutOfMemory) => return Err(AllocError),
    }
    Ok(out)
}

/// `piece` so many times, between two texts.
fn repeated(
    alloc: Global,
    front: &str,
    piece: &str,
    count: usize,
    back: &str,
) -> Result<String, AllocError> {
    let mut out = String::from_str(alloc, front)?;
    for _ in 0..count {
        write!(out, "{piece}")?;
    }
    write!(out, "{back}")?;
    Ok(out)
}

#[test]
fn lines_are_read_by_the_rows_of_the_table(rt: HostRuntime) -> Result<(), Fail> {
    for (line, want) in [
        (r#"{"load":"a","text":"abc"}"#, "load a abc"),
        (r#" { "text" : "é😀" , "load" : "ü" } "#, "load ü é😀"),
        (
            r#"{"load":"a","text":"\u0041\ud83d\ude00\/\""}"#,
            r#"load a A😀/""#,
        ),
        ("{\"load\":\"a\",\"text\":\"\u{7F}\"}", "load a \u{7F}"),
        (r#"{"load":"a","text":"x","text":"y"}"#, "load a y"),
        (r#"{"load":1,"text":"x","load":"b"}"#, "load b x"),
        (
            r#"{"load":"a","text":"x","text":"y","load":"b"}"#,
            "load b y",
        ),
        (
            r#"{"on":"a","do":7,"do":[{"at":1.5,"at":2},{"at":3,"at":4}],"on":"b"}"#,
            "on b at 2 at 4",
        ),
        (
            r#"{"on":"a","do":[{"place":{"utf8":1,"utf8":2}},{"place":5,"place":{"utf8":6}}]}"#,
            "on a place 2 place 6",
        ),
        (
            r#"{"on":"a","do":[{"slice":[1,2],"slice":[3,4]},{"text":false,"text":true}]}"#,
            "on a slice 3 4 text",
        ),
        (
            r#"{"batch":[{"on":"a","do":[],"keep":1,"keep":"b"}]}"#,
            "batch on a keep b",
        ),
        (r#"{"on":"a","do":[]}"#, "on a"),
        (
            r#"{"do":[{"at":0},{"slice":[1,20]},{"text":true}],"on":"a"}"#,
            "on a at 0 slice 1 20 text",
        ),
        (
            r#"{"on":"a","do":[{"at":18446744073709551615}]}"#,
            "on a at 18446744073709551615",
        ),
        (r#"{"load":"a","bytes":[]}"#, "load a bytes []"),
        (r#"{"load":"a","bytes":[0,255]}"#, "load a bytes [0, 255]"),
        (
            r#"{"load":"a","units":[0,55296,65535]}"#,
            "load a units [0, 55296, 65535]",
        ),
        (r#"{"load":"a","literal":9}"#, "load a literal 9"),
        (r#"{"copy":"a","from":"b"}"#, "copy a b"),
        (r#"{"from":"a","copy":"b"}"#, "copy b a"),
        (r#"{"drop":"a"}"#, "drop a"),
        (r#"{"compare":["a","b"]}"#, "compare a b"),
        (r#"{"batch":[]}"#, "batch"),
        (
            r#"{"batch":[{"on":"a","do":[{"at":1}],"keep":"b"},{"on":"a","do":[]}]}"#,
            "batch on a at 1 keep b on a",
        ),
        (
            r#"{"on":"a","do":[{"at":0},{"place":{"utf8":3}}]}"#,
            "on a at 0 place 3",
        ),
        (
            r#"{"on":"a","do":[{"edit":[0,1],"with":"x"},{"with":"","edit":[3,2]}]}"#,
            "on a edit 0 1 x edit 3 2 ",
        ),
        (
            r#"{"on":"a","do":[{"count":"scalars"},{"count":"utf8"},{"count":"utf16"},{"count":"characters"}]}"#,
            "on a count Scalars count Utf8 count Utf16 count Characters",
        ),
    ] {
        assert_eq!(rt;
            outcome(rt.alloc(), line.as_bytes())?.as_str(),
            want,
            "line {line}"
        );
    }
    Ok(())
}

#[test]
fn malformed_lines_are_syntax(rt: HostRuntime) -> Result<(), Fail> {
    for line in [
        "",
        " ",
        "load",
        r#"{"load":"#,
        r#"{"load":"a","text":"abc""#,
        r#"{"load":"a","text":"abc"} x"#,
        r#"{"load":"a","text":"abc",}"#,
        "[]",
        r#""load""#,
        "null",
        "{}",
        r#"{"load":"a"}"#,
        r#"{"text":"a"}"#,
        r#"{"load":"a","text":"x","more":1}"#,
        r#"{"load":"a","text":"x","bytes":[]}"#,
        r#"{"load":"a","from":"x"}"#,
        r#"{"LOAD":"a","text":"x"}"#,
        r#"{"load":"","text":"x"}"#,
        r#"{"load":1,"text":"x"}"#,
        r#"{"load":"a","text":1}"#,
        r#"{"load":"a","text":null}"#,
        r#"{"load":"a","text":"x","text":1}"#,
        r#"{"load":"a","text":"x","load":""}"#,
        r#"{"load":"a","load":"b"}"#,
        r#"{"load":"a","text":"\ud83d"}"#,
        r#"{"load":"a","text":"\ude00"}"#,
        r#"{"load":"a","text":"\ude00\ud83d"}"#,
        r#"{"load":"a","text":"\ud83dx"}"#,
        r#"{"load":"\udc00","text":"x"}"#,
        r#"{"load":"a","text":"\x"}"#,
        "{\"load\":\"a\",\"text\":\"\u{1}\"}",
        "{\"load\":\"a\",\"text\":\"\t\"}",
        "{\"load\":\"a\",\"text\":\"\u{0}\"}",
        "{\"load\":\"\u{1F}\",\"text\":\"x\"}",
        r#"{"load":"a","bytes":[256]}"#,
        r#"{"load":"a","bytes":[-1]}"#,
        r#"{"load":"a","bytes":[1.0]}"#,
        r#"{"load":"a","bytes":7}"#,
        r#"{"load":"a","units":[65536]}"#,
        r#"{"load":"a","units":["1"]}"#,
        r#"{"load":"a","literal":-1}"#,
        r#"{"copy":"a","from":""}"#,
        r#"{"drop":["a"]}"#,
        r#"{"compare":["a"]}"#,
        r#"{"compare":["a","b","c"]}"#,
        r#"{"compare":["a",1]}"#,
        r#"{"batch":{}}"#,
        r#"{"batch":[{"on":"a"}]}"#,
        r#"{"batch":[{"on":"a","do":[],"keep":1}]}"#,
        r#"{"batch":[{"on":"a","do":[],"keep":"b","more":1}]}"#,
        r#"{"on":"a","do":{}}"#,
        r#"{"on":"a","do":[1]}"#,
        r#"{"on":"a","do":[{}]}"#,
        r#"{"on":"a","do":[{"at":-1}]}"#,
        r#"{"on":"a","do":[{"at":-0}]}"#,
        r#"{"on":"a","do":[{"at":1.5}]}"#,
        r#"{"on":"a","do":[{"at":1.0}]}"#,
        r#"{"on":"a","do":[{"at":1e3}]}"#,
        r#"{"on":"a","do":[{"at":18446744073709551616}]}"#,
        r#"{"on":"a","do":[{"at":99999999999999999999999999}]}"#,
        r#"{"on":"a","do":[{"at":1e0}]}"#,
        r#"{"on":"a","do":[{"at":+1}]}"#,
        r#"{"on":"a","do":[{"at":null}]}"#,
        r#"{"on":"a","do":[{"at":[1]}]}"#,
        r#"{"on":"a","do":[{"at":"1"}]}"#,
        r#"{"on":"a","do":[{"at":01}]}"#,
        r#"{"on":"a","do":[{"at":1,"more":1}]}"#,
        r#"{"on":"a","do":[{"at":1,"at":-1}]}"#,
        r#"{"on":"a","do":[{"at":1,"place":{"utf8":1}}]}"#,
        r#"{"on":"a","do":[{"place":3}]}"#,
        r#"{"on":"a","do":[{"place":{"utf16":3}}]}"#,
        r#"{"on":"a","do":[{"place":{"utf8":3,"utf16":3}}]}"#,
        r#"{"on":"a","do":[{"place":{}}]}"#,
        r#"{"on":"a","do":[{"place":{"utf8":3,"utf8":-3}}]}"#,
        r#"{"on":"a","do":[{"place":{"utf8":"3"}}]}"#,
        r#"{"on":"a","do":[{"slice":[1]}]}"#,
        r#"{"on":"a","do":[{"slice":[1,2,3]}]}"#,
        r#"{"on":"a","do":[{"slice":[1,true]}]}"#,
        r#"{"on":"a","do":[{"edit":[1,2]}]}"#,
        r#"{"on":"a","do":[{"edit":[1,2],"with":3}]}"#,
        r#"{"on":"a","do":[{"count":"bytes"}]}"#,
        r#"{"on":"a","do":[{"count":"Utf8"}]}"#,
        r#"{"on":"a","do":[{"text":false}]}"#,
        r#"{"on":"a","do":[{"text":1}]}"#,
        // One op of a list, or one job, is at fault.
        r#"{"on":"a","do":[{"edit":[0,0],"with":""},{"at":1.5}]}"#,
        r#"{"batch":[{"on":"a","do":[]},{"on":"","do":[]}]}"#,
    ] {
        assert_eq!(rt;
            outcome(rt.alloc(), line.as_bytes())?.as_str(),
            "syntax",
            "line {line}"
        );
    }
    // Bytes that are no UTF-8, as a name: none that begins so, a lead alone, two bytes for one, half a pair, past the last scalar.
    let names: [&[u8]; 5] = [
        b"\xFF",
        b"\xC3",
        b"\xC0\xAF",
        b"\xED\xA0\x80",
        b"\xF4\x90\x80\x80",
    ];
    for name in names {
        let mut line = Vec::new(rt.alloc());
        line.extend_from_slice(b"{\"drop\":\"")?;
        line.extend_from_slice(name)?;
        line.extend_from_slice(b"\"}")?;
        assert_eq!(rt;
            outcome(rt.alloc(), line.as_slice())?.as_str(),
            "syntax",
            "{name:?}"
        );
    }
    Ok(())
}

#[test]
fn names_batches_and_depth_have_limits(rt: HostRuntime) -> Result<(), Fail> {
    let alloc = rt.alloc();
    let job = r#"{"on":"a","do":[]}"#;
    let later = r#",{"on":"a","do":[]}"#;
    for (front, piece, count, back, want) in [
        (
            r#"{"load":""#,
            "n",
            64,
            r#"","literal":1}"#,
            "load nnnnnnnnnnnnnnnnnnnnnnnnnnnnnnnnnnnnnnnnnnnnnnnnnnnnnnnnnnnnnnnn literal 1",
        ),
        (r#"{"load":""#, "n", 65, r#"","literal":1}"#, "syntax"),
        (
            r#"{"load":""#,
            "é",
            32,
            r#"","literal":1}"#,
            "load éééééééééééééééééééééééééééééééé literal 1",
        ),
        (r#"{"load":"n"#, "é", 32, r#"","literal":1}"#, "syntax"),
        ("", "[", 200, "", "syntax"),
        (r#"{"text":"x","load":"#, "[", 100, "", "syntax"),
        ("", r#"[{"on":"#, 200, "", "syntax"),
    ] {
        let line = repeated(alloc, front, piece, count, back)?;
        assert_eq!(rt;
            outcome(alloc, line.as_bytes())?.as_str(),
            want,
            "{count} times {piece}"
        );
    }
    // The object with the lists in it may be 127 deep, and a later value stands in place of the deep one.
    for (deep, want) in [(126usize, "load b x"), (127, "syntax"), (5000, "syntax")] {
        let lists = repeated(alloc, r#"{"text":"x","load":"#, "[", deep, "")?;
        let line = repeated(alloc, lists.as_str(), "]", deep, r#","load":"b"}"#)?;
        assert_eq!(rt;
            outcome(alloc, line.as_bytes())?.as_str(),
            want,
            "{deep} lists"
        );
    }
    let most = repeated(alloc, "batch", " on a", 64, "")?;
    for (count, want) in [(63usize, most.as_str()), (64, "syntax")] {
        let front = format!(in alloc; "{{\"batch\":[{job}")?;
        let line = repeated(alloc, front.as_str(), later, count, "]}")?;
        assert_eq!(rt;
            outcome(alloc, line.as_bytes())?.as_str(),
            want,
            "{count} jobs more"
        );
    }
    Ok(())
}

fn place(utf16: u64, utf8: u64, value: Option<u32>) -> OpReply
    ensures { result ≡ OpReply.Place utf16 utf8 value }
{
    OpReply::Place { utf16, utf8, value }
}

fn op_replies(alloc: Global) -> Result<OpReplies, AllocFailed<OpReply>>
    ensures { IfOk result (All IsShownOp) }
{
    let mut replies = Vec::new(alloc);
    replies.push(place(0, 0, Some(128512)))?;
    replies.push(place(2, 4, None))?;
    replies.push(OpReply::Number(7))?;
    replies.push(OpReply::TooLong)?;
    replies.push(OpReply::OutOfBounds {
        unit: View::Utf16,
        length: 3,
    })?;
    replies.push(OpReply::OutOfBounds {
        unit: View::Utf8,
        length: 18446744073709551615,
    })?;
    replies.push(OpReply::Counts {
        scalars: 1,
        utf16: 2,
        utf8: 4,
    })?;
    Ok(OpReplies::new(replies))
}

const RESULTS: &str =
    r#"[{"utf16":0,"utf8":0,"value":128512},{"utf16":2,"utf8":4,"value":null},{"count":7},{"error":"too long"},{"error":"out of bounds","utf16":3},{"error":"out of bounds","utf8":18446744073709551615},{"scalars":1,"utf16":2,"utf8":4}]"#;

fn written(alloc: Global, reply: &Reply) -> Result<Vec<u8>, Fail>
    requires { IsShown reply.now }
{
    Ok(reply_text(alloc, reply).ok().ok_or("memory")?)
}

#[test]
fn replies_are_compact_json_with_keys_in_order(rt: HostRuntime) -> Result<(), Fail> {
    let alloc = rt.alloc();
    let counts = Reply::Counts {
        scalars: 3,
        utf16: 4,
        utf8: 5,
    };
    let counted = r#"{"scalars":3,"utf16":4,"utf8":5}"#;
    assert_eq!(rt; written(alloc, &counts)?.as_slice(), counted.as_bytes());
    assert_eq!(rt;
        written(alloc, &Reply::Copied)?.as_slice(),
        r#"{"ok":"copy"}"#.as_bytes()
    );
    assert_eq!(rt;
        written(alloc, &Reply::Dropped)?.as_slice(),
        r#"{"ok":"drop"}"#.as_bytes()
    );
    for (order, want) in [
        (Ordering::Less, r#"{"order":"less"}"#),
        (Ordering::Equal, r#"{"order":"equal"}"#),
        (Ordering::Greater, r#"{"order":"greater"}"#),
    ] {
        assert_eq!(rt;
            written(alloc, &Reply::Order(order))?.as_slice(),
            want.as_bytes()
        );
    }
    Ok(())
}

#[test]
fn refusals_name_their_cause(rt: HostRuntime) -> Result<(), Fail> {
    let alloc = rt.alloc();
    let syntax = written(alloc, &Reply::Refused(Refusal::Syntax))?;
    assert_eq!(rt; syntax.as_slice(), r#"{"error":"syntax"}"#.as_bytes());
    let no_literal = written(alloc, &Reply::Refused(Refusal::NoLiteral))?;
    assert_eq!(rt;
        no_literal.as_slice(),
        r#"{"error":"no literal"}"#.as_bytes()
    );
    let not_utf8 = written(alloc, &Reply::Refused(Refusal::NotUtf8 { valid: 0 }))?;
    assert_eq!(rt;
        not_utf8.as_slice(),
        r#"{"error":"not utf-8","valid":0}"#.as_bytes()
    );
    let too_many = written(alloc, &Reply::Refused(Refusal::TooManyNames))?;
    assert_eq!(rt;
        too_many.as_slice(),
        r#"{"error":"too many names"}"#.as_bytes()
    );
    Ok(())
}

#[test]
fn texts_in_replies_are_escaped_only_where_they_must_be(rt: HostRuntime) -> Result<(), Fail> {
    let alloc = rt.alloc();
    let name = bytes_of(alloc, "a\"\\/\n\u{1}\u{7F}é😀")?;
    let refused = Reply::Refused(Refusal::NoName(name));
    let text = written(alloc, &refused)?;
    assert_eq!(rt;
        text.as_slice(),
        "{\"error\":\"no name\",\"name\":\"a\\\"\\\\/\\n\\u0001\u{7F}é😀\"}".as_bytes()
    );
    Ok(())
}

#[test]
fn lists_of_replies_are_separated_by_commas(rt: HostRuntime) -> Result<(), Fail> {
    let alloc = rt.alloc();
    let results = Reply::Results(op_replies(alloc)?);
    let text = written(alloc, &results)?;
    let want = format!(in alloc; "{{\"results\":{RESULTS}}}")?;
    assert_eq!(rt; text.as_slice(), want.as_bytes());
    let mut jobs = Vec::new(alloc);
    jobs.push(op_replies(alloc)?)?;
    jobs.push(OpReplies::new(Vec::new(alloc)))?;
    let jobs = Reply::Jobs(JobReplies::new(jobs));
    let text = written(alloc, &jobs)?;
    let want = format!(in alloc; "{{\"jobs\":[{RESULTS},[]]}}")?;
    assert_eq!(rt; text.as_slice(), want.as_bytes());
    Ok(())
}
