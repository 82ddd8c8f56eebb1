//! What no clause says: that memory is found and that lines are answered as worked out by hand, however reads cut them.
ghost use Rattle.std.specs.Prelude.{◌<◌};

use outside::{Failed, MemSink, MemSource, OpenGate, Sink};
use query_program::run;
use std::alloc::Global;
use std::thread::Threads;
use text_spec::{OutOfMemory, TextList};

/// How a run ended, what it wrote, and how many slots its heap had and left idle.
#[derive(Drop)]
struct Run {
    status: u8,
    written: Vec<u8>,
    slots: Option<(u32, u32)>,
}

/// A run over `input`, read in pieces of at most `piece` bytes, with the call of each side that fails, or 0.
fn run_over<R: Threads + Sync>(
    rt: &R,
    alloc: Global,
    input: &[u8],
    piece: usize,
    room: usize,
    failing: (u64, u64),
) -> Result<Run, OutOfMemory>
    requires { 0 < piece }
{
    let mut bytes = Vec::new(alloc);
    bytes.extend_from_slice(input)?;
    let mut source = MemSource::new(bytes, piece, vec![in alloc; failing.0]?);
    let mut sink = MemSink::new(alloc, room, vec![in alloc; failing.1]?)?;
    let words = TextList::new(alloc);
    let ended = run(rt, alloc, &words, &mut source, &mut sink, &OpenGate);
    let status = ended.status;
    if status == 5 {
        return Err(OutOfMemory);
    }
    let slots = match &ended.history {
        Some(closed) => Some((closed.slots(), closed.idle())),
        None => None,
    };
    let mut written = Vec::new(alloc);
    written.extend_from_slice(sink.bytes())?;
    Ok(Run {
        status,
        written,
        slots,
    })
}

/// A sink that takes one byte of each write, however many it is given.
#[derive(Drop)]
struct ByteSink {
    bytes: MemSink,
}

impl Sink for ByteSink {
    ghost use Rattle.std.specs.Prelude.{Some};

    ghost written = { λ s. Some s.bytes.written };

    ghost faults = { λ s. s.bytes.faults };

    fn write(&mut self, buf: &[u8]) -> Result<usize, Failed> {
        self.bytes.write(&buf[..1])
    }
}

const SYNTAX: &[u8] = b"{\"error\":\"syntax\"}\n";

#[test]
fn lines_are_answered_however_they_are_cut(rt: HostRuntime) -> Result<(), OutOfMemory> {
    let rows: [(&str, &str); 14] = [
        ("", ""),
        (
            "{\"load\":\"a\",\"text\":\"\"}\n",
            "{\"scalars\":0,\"utf16\":0,\"utf8\":0}\n",
        ),
        (
            "{\"load\":\"f\",\"text\":\"🇩🇪🇫🇷\"}\n",
            "{\"scalars\":4,\"utf16\":8,\"utf8\":16}\n",
        ),
        (
            "{\"load\":\"g\",\"text\":\"😀\"}\n",
            "{\"scalars\":1,\"utf16\":2,\"utf8\":4}\n",
        ),
        (
            "{\"load\":\"a\",\"text\":\"x\"}",
            "{\"scalars\":1,\"utf16\":1,\"utf8\":1}\n",
        ),
        ("{\"load\":", "{\"error\":\"syntax\"}\n"),
        ("\n", "{\"error\":\"syntax\"}\n"),
        (
            "\n\n{\"batch\":[]}",
            "{\"error\":\"syntax\"}\n{\"error\":\"syntax\"}\n{\"jobs\":[]}\n",
        ),
        (
            "{\"text\":\"é\",\"load\":\"b\"}\r\n\n",
            "{\"scalars\":1,\"utf16\":1,\"utf8\":2}\n{\"error\":\"syntax\"}\n",
        ),
        (
            "{\"load\":\"p\",\"text\":\"e\\u0301\"}\n{\"load\":\"q\",\"text\":\"é\"}\n{\"load\":\"r\",\"text\":\"f\"}\n{\"compare\":[\"p\",\"q\"]}\n{\"compare\":[\"p\",\"r\"]}\n{\"compare\":[\"r\",\"r\"]}\n",
            "{\"scalars\":2,\"utf16\":2,\"utf8\":3}\n{\"scalars\":1,\"utf16\":1,\"utf8\":2}\n{\"scalars\":1,\"utf16\":1,\"utf8\":1}\n{\"order\":\"equal\"}\n{\"order\":\"greater\"}\n{\"order\":\"equal\"}\n",
        ),
        (
            "{\"load\":\"v\",\"units\":[55357,56832]}\n{\"on\":\"v\",\"do\":[{\"edit\":[0,0],\"with\":\"x\"},{\"text\":true}]}\n{\"on\":\"v\",\"do\":[{\"at\":0}]}\n",
            "{\"scalars\":1,\"utf16\":2,\"utf8\":4}\n{\"results\":[{\"scalars\":2,\"utf16\":3,\"utf8\":5},{\"text\":\"x😀\"}]}\n{\"results\":[{\"utf16\":0,\"utf8\":0,\"value\":120}]}\n",
        ),
        (
            "{\"load\":\"a\",\"text\":\"abc\"}\n{\"on\":\"a\",\"do\":[{\"slice\":[1,1]},{\"slice\":[2,1]},{\"slice\":[0,4]}]}\n",
            "{\"scalars\":3,\"utf16\":3,\"utf8\":3}\n{\"results\":[{\"text\":\"\"},{\"error\":\"out of bounds\",\"utf16\":3},{\"error\":\"out of bounds\",\"utf16\":3}]}\n",
        ),
        (
            "{\"load\":\"b\",\"bytes\":[195,40]}\n{\"on\":\"b\",\"do\":[]}\n",
            "{\"error\":\"not utf-8\",\"valid\":0}\n{\"error\":\"no name\",\"name\":\"b\"}\n",
        ),
        (
            "{\"load\":\"a\",\"text\":\"abc\"}\n{\"copy\":\"c\",\"from\":\"a\"}\n{\"drop\":\"c\"}\n{\"drop\":\"c\"}\n",
            "{\"scalars\":3,\"utf16\":3,\"utf8\":3}\n{\"ok\":\"copy\"}\n{\"ok\":\"drop\"}\n{\"error\":\"no name\",\"name\":\"c\"}\n",
        ),
    ];
    for (input, want) in rows {
        for piece in [1, 2, 7, 1000] {
            let got = run_over(&rt, rt.alloc(), input.as_bytes(), piece, 1000, (0, 0))?;
            assert_eq!(rt; got.status, 0, "status of {input} by {piece}");
            assert_eq!(rt;
                got.written.as_slice(),
                want.as_bytes(),
                "replies to {input} by {piece}"
            );
        }
    }
    let got = run_over(&rt, rt.alloc(), b"\xFF\n", 1, 1000, (0, 0))?;
    assert_eq!(rt; got.written.as_slice(), SYNTAX);
    Ok(())
}

#[test]
fn words_are_refused_before_anything_is_read(rt: HostRuntime) -> Result<(), OutOfMemory> {
    let alloc = rt.alloc();
    let mut words = TextList::new(alloc);
    words.push("x")?;
    let mut source = MemSource::new(vec![in alloc; b'\n']?, 1, vec![in alloc; 1]?);
    let mut sink = MemSink::new(alloc, 100, vec![in alloc; 1]?)?;
    let ended = run(&rt, alloc, &words, &mut source, &mut sink, &OpenGate);
    assert_eq!(rt; ended.status, 2);
    assert!(rt; ended.history.is_none());
    assert!(rt; sink.bytes().is_empty());
    Ok(())
}

#[test]
fn a_failing_call_leaves_the_replies_before_it(rt: HostRuntime) -> Result<(), OutOfMemory> {
    // Each line has 23 bytes and a newline, each reply 33 bytes and a newline.
    let input = b"{\"load\":\"a\",\"text\":\"x\"}\n{\"load\":\"b\",\"text\":\"y\"}\n{\"batch\":[]}";
    let replies =
        b"{\"scalars\":1,\"utf16\":1,\"utf8\":1}\n{\"scalars\":1,\"utf16\":1,\"utf8\":1}\n{\"jobs\":[]}\n";
    let reply_length = 33;
    // Each run opens a heap of its own, so the calls are those about the ends of lines.
    for call in [1, 2, 24, 25, 26, 48, 49, 60, 61, 62, 69] {
        let got = run_over(&rt, rt.alloc(), input, 1, 1000, (call, 0))?;
        // Sixty bytes are read one at a time, and one call more finds the end.
        let want = if call <= 61 { 3 } else { 0 };
        let count = if call <= 24 {
            0
        } else if call <= 48 {
            reply_length
        } else if call <= 61 {
            2 * reply_length
        } else {
            replies.len()
        };
        assert_eq!(rt; got.status, want, "read {call} fails");
        assert_eq!(rt;
            got.written.as_slice(),
            &replies[..count],
            "read {call} fails"
        );
    }
    for call in 1..5 {
        let got = run_over(&rt, rt.alloc(), input, 1000, 1000, (0, call))?;
        let want = if call <= 2 { 4 } else { 0 };
        assert_eq!(rt; got.status, want, "write {call} fails");
    }
    let got = run_over(&rt, rt.alloc(), input, 1000, 1000, (0, 1))?;
    assert!(rt; got.written.is_empty());
    for room in [0, 1, 32, 33, 34, 65, 66, 67, replies.len() - 1] {
        let got = run_over(&rt, rt.alloc(), input, 30, room, (0, 0))?;
        assert_eq!(rt; got.status, 4, "room {room}");
        assert_eq!(rt; got.written.as_slice(), &replies[..room], "room {room}");
    }
    Ok(())
}

#[test]
fn each_read_that_fails_leaves_the_replies_to_the_whole_lines(
    rt: HostRuntime,
) -> Result<(), OutOfMemory> {
    // The first line has 22 bytes and a newline, its reply 33 with its own.
    let input = b"{\"load\":\"a\",\"text\":\"\"}\n{\"on\":\"a\",\"do\":[{\"at\":0},{\"at\":1}]}\n";
    let replies =
        b"{\"scalars\":0,\"utf16\":0,\"utf8\":0}\n{\"results\":[{\"utf16\":0,\"utf8\":0,\"value\":null},{\"error\":\"out of bounds\",\"utf16\":0}]}\n";
    // The bytes are read one at a time, and one call more finds the end.
    for call in 1..input.len() + 2 {
        let got = run_over(&rt, rt.alloc(), input, 1, 1000, (call as u64, 0))?;
        let count = if call <= 23 {
            0
        } else if call <= input.len() {
            33
        } else {
            replies.len()
        };
        assert_eq!(rt; got.status, 3, "read {call} fails");
        assert_eq!(rt;
            got.written.as_slice(),
            &replies[..count],
            "read {call} fails"
        );
    }
    Ok(())
}

/// A run whose input is cut here ends as if the input had been no longer: a last line without its newline is answered as it stands.
#[test]
fn an_input_may_end_at_each_byte(rt: HostRuntime) -> Result<(), OutOfMemory> {
    let alloc = rt.alloc();
    // The first line has 34 bytes and a newline, its reply 33 with its own.
    let input =
        b"{\"load\":\"v\",\"units\":[55357,56832]}\n{\"on\":\"v\",\"do\":[{\"edit\":[0,0],\"with\":\"x\"},{\"text\":true}]}\n";
    let replies =
        "{\"scalars\":1,\"utf16\":2,\"utf8\":4}\n{\"results\":[{\"scalars\":2,\"utf16\":3,\"utf8\":5},{\"text\":\"x😀\"}]}\n".as_bytes();
    for end in 0..input.len() + 1 {
        let (count, is_cut) = if end < 34 {
            (0, end > 0)
        } else if end < input.len() - 1 {
            (33, end > 35)
        } else {
            (replies.len(), false)
        };
        let mut wanted = Vec::from_slice(alloc, &replies[..count])?;
        if is_cut {
            wanted.extend_from_slice(SYNTAX)?;
        }
        let got = run_over(&rt, alloc, &input[..end], 1000, 1000, (0, 0))?;
        assert_eq!(rt; got.status, 0, "end at {end}");
        assert_eq!(rt; got.written.as_slice(), wanted.as_slice(), "end at {end}");
    }
    let got = run_over(&rt, alloc, &[b'['; 200], 1000, 1000, (0, 0))?;
    assert_eq!(rt; (got.status, got.written.as_slice()), (0, SYNTAX));
    Ok(())
}

#[test]
fn a_sink_may_take_a_byte_a_call(rt: HostRuntime) -> Result<(), OutOfMemory> {
    let alloc = rt.alloc();
    let input = b"{\"load\":\"a\",\"text\":\"x\"}\n{\"load\":";
    let replies = b"{\"scalars\":1,\"utf16\":1,\"utf8\":1}\n{\"error\":\"syntax\"}\n";
    // Call `failing` of the sink fails; the last number is past the last call.
    for failing in 1..replies.len() + 2 {
        let mut bytes = Vec::new(alloc);
        bytes.extend_from_slice(input)?;
        let mut source = MemSource::new(bytes, 1000, vec![in alloc; 0]?);
        let mut sink = ByteSink {
            bytes: MemSink::new(alloc, 1000, vec![in alloc; failing as u64]?)?,
        };
        let words = TextList::new(alloc);
        let status = run(&rt, alloc, &words, &mut source, &mut sink, &OpenGate).status;
        let want = if failing <= replies.len() { 4 } else { 0 };
        assert_eq!(rt; status, want, "write {failing} fails");
        assert_eq!(rt;
            sink.bytes.bytes(),
            &replies[..failing - 1],
            "write {failing} fails"
        );
    }
    Ok(())
}

#[test]
fn a_name_too_many_is_refused(rt: HostRuntime) -> Result<(), OutOfMemory> {
    let alloc = rt.alloc();
    let mut input = String::new(alloc);
    for k in 0..257 {
        input.push_str(&format!(in alloc; "{{\"load\":\"n{k}\",\"text\":\"x\"}}\n")?)?;
    }
    input.push_str("{\"load\":\"n7\",\"text\":\"xy\"}\n")?;
    let got = run_over(&rt, rt.alloc(), input.as_bytes(), 4096, 100_000, (0, 0))?;
    assert_eq!(rt; got.status, 0);
    assert_eq!(rt; got.slots, Some((256, 256)));
    let end = b"{\"error\":\"too many names\"}\n{\"scalars\":2,\"utf16\":2,\"utf8\":2}\n";
    assert!(rt; got.written.ends_with(end));
    Ok(())
}

#[test]
fn long_lines_and_many_replies_pass_through_small_buffers(
    rt: HostRuntime,
) -> Result<(), OutOfMemory> {
    let alloc = rt.alloc();
    let mut input = Vec::new(alloc);
    for _ in 0..4000 {
        input.extend_from_slice(b"[]\n")?;
    }
    input.extend_from_slice(b"{\"load\":\"a\",\"text\":\"")?;
    for _ in 0..100_000 {
        input.push(b'a')?;
    }
    input.extend_from_slice(b"\"}\n")?;
    let got = run_over(&rt, rt.alloc(), input.as_slice(), 50_000, 1_000_000, (0, 0))?;
    assert_eq!(rt; got.status, 0);
    let end = b"\n{\"scalars\":100000,\"utf16\":100000,\"utf8\":100000}\n";
    assert!(rt; got.written.ends_with(end));
    assert_eq!(rt; got.written.len(), 4000 * SYNTAX.len() + end.len() - 1);
    Ok(())
}
