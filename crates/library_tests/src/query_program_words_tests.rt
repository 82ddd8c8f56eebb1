//! What no clause says of the words: that the definition of their form is the form that is meant, and that made inputs are summed up as
//! another program sums them up.
use outside::{MemSink, MemSource, OpenGate};
use query_program::run;
use std::alloc::Global;
use std::thread::Threads;
use text_spec::{OutOfMemory, TextList};

/// The status of a run over no input, and what it wrote. The words stand in `text`, one space between each two.
fn run_of<R: Threads + Sync>(
    rt: &R,
    alloc: Global,
    text: &str,
) -> Result<(u8, MemSink), OutOfMemory> {
    let mut words = TextList::new(alloc);
    for word in text.split(' ') {
        words.push(word)?;
    }
    let mut source = MemSource::new(Vec::new(alloc), 1, Vec::new(alloc));
    let mut sink = MemSink::new(alloc, 100, Vec::new(alloc))?;
    let status = run(rt, alloc, &words, &mut source, &mut sink, &OpenGate).status;
    Ok((status, sink))
}

#[test]
fn words_outside_of_the_form_are_refused(rt: HostRuntime) -> Result<(), OutOfMemory> {
    let alloc = rt.alloc();
    let rows = [
        ("", 2),
        ("x", 2),
        ("-", 2),
        ("--", 2),
        ("--help", 2),
        ("=", 2),
        ("=1", 2),
        ("1", 2),
        ("--=1", 2),
        ("--workers", 2),
        ("--workers ", 2),
        ("--workers=", 2),
        ("--workers 1", 0),
        ("--workers=1", 0),
        ("--workers 8", 0),
        ("--workers=08", 0),
        ("--workers 0000000000000000000000000000000000000008", 0),
        ("--workers 0", 2),
        ("--workers 9", 2),
        ("--workers 10", 2),
        ("--workers 4294967297", 2),
        ("--workers 18446744073709551617", 2),
        ("--workers 1000000000000000000000000000000000000001", 2),
        ("--workers +1", 2),
        ("--workers -1", 2),
        ("--workers=1=", 2),
        ("--workers==1", 2),
        ("--workers 1a", 2),
        ("--workers 0x1", 2),
        ("--workers ١", 2),
        ("--workers  1", 2),
        ("--workers 1 ", 2),
        (" --workers 1", 2),
        ("--Workers 1", 2),
        ("--worker 1", 2),
        ("--workerss 1", 2),
        ("-workers 1", 2),
        ("workers 1", 2),
        ("--workers 1 --workers 2", 2),
        ("--workers=1 --workers=1", 2),
        ("--workers 1 x", 2),
        ("--workers 1 --", 2),
        ("--workers --make 1", 2),
        ("--make 1", 2),
        ("--lines 1", 2),
        ("--make=1 --workers=1", 2),
        ("--lines=1 --workers 1", 2),
        ("--make 1 --lines 0", 2),
        ("--make 1 --lines 1001", 2),
        ("--make 4294967296 --lines 1", 2),
        ("--make 1 --lines 1 --make 1", 2),
        ("--make 1 --lines 1 --lines=1", 2),
        ("--make --lines 1", 2),
    ];
    for (text, wanted) in rows {
        let (status, sink) = run_of(&rt, alloc, text)?;
        if status == 5 {
            return Err(OutOfMemory);
        }
        assert_eq!(rt; status, wanted, "{text}");
        assert!(rt; sink.bytes().is_empty(), "{text}");
    }
    Ok(())
}

#[test]
fn made_inputs_are_summed_up(rt: HostRuntime) -> Result<(), OutOfMemory> {
    let alloc = rt.alloc();
    let rows = [
        (
            "--make 0 --lines 1",
            "lines 1\ninput 31875\noutput 45\nmark 997494686\n",
        ),
        (
            "--lines=2 --make=0 --workers=4",
            "lines 2\ninput 57404\noutput 67475\nmark 1672114387\n",
        ),
        (
            "--make 1 --lines 1 --workers 8",
            "lines 1\ninput 31900\noutput 45\nmark 1784305725\n",
        ),
        (
            "--workers 1 --make=1 --lines 2",
            "lines 2\ninput 57420\noutput 67540\nmark 3736293009\n",
        ),
        (
            "--workers 4 --make=01 --lines 02",
            "lines 2\ninput 57420\noutput 67540\nmark 3736293009\n",
        ),
        (
            "--make 4294967295 --lines 1",
            "lines 1\ninput 31916\noutput 45\nmark 2805429817\n",
        ),
        (
            "--make 4294967295 --lines 2 --workers 2",
            "lines 2\ninput 57410\noutput 67446\nmark 3410197108\n",
        ),
    ];
    for (text, wanted) in rows {
        let (status, sink) = run_of(&rt, alloc, text)?;
        if status == 5 {
            return Err(OutOfMemory);
        }
        assert_eq!(rt; status, 0, "{text}");
        assert_eq!(rt; sink.bytes(), wanted.as_bytes(), "{text}");
    }
    Ok(())
}
