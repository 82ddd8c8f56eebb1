//! What no clause says: that a sink finds memory, that calls succeed, and what readers and writers of std do below.
use outside::{Failed, Gate, IoSink, IoSource, MemSink, MemSource, OpenGate, Sink, Source};
use std::io::{Error, ErrorKind, Write};
use text_spec::OutOfMemory;

/// A writer that takes everything and whose flush fails.
#[derive(Drop)]
struct Stuck;

impl Write for Stuck {
    fn write(&mut self, buf: &[u8]) -> std::io::Result<usize> {
        Ok(buf.len())
    }

    fn flush(&mut self) -> std::io::Result<()> {
        Err(Error::from(ErrorKind::BrokenPipe))
    }
}

#[test]
fn a_source_gives_pieces_and_fails_where_listed(rt: HostRuntime) -> Result<(), OutOfMemory> {
    let bytes = vec![in rt.alloc(); 1, 2, 3, 4, 5]?;
    let mut source = MemSource::new(bytes, 2, vec![in rt.alloc(); 2, 5]?);
    let mut buf = [0u8; 3];
    let rows = [
        (Ok(2), [1, 2, 0]),
        (Err(Failed), [1, 2, 0]),
        (Ok(2), [3, 4, 0]),
        (Ok(1), [5, 4, 0]),
        (Err(Failed), [5, 4, 0]),
        (Ok(0), [5, 4, 0]),
    ];
    for (call, (want, front)) in rows.iter().enumerate() {
        assert_eq!(rt; source.read(&mut buf), *want, "call {call}");
        assert_eq!(rt; buf, *front, "buffer after call {call}");
    }
    Ok(())
}

#[test]
fn a_sink_keeps_what_it_has_room_for(rt: HostRuntime) -> Result<(), OutOfMemory> {
    let mut sink = MemSink::new(rt.alloc(), 3, vec![in rt.alloc(); 1]?)?;
    let rows = [
        (b"ab", Err(Failed)),
        (b"ab", Ok(2)),
        (b"cd", Ok(1)),
        (b"ef", Ok(0)),
    ];
    for (call, (bytes, want)) in rows.iter().enumerate() {
        assert_eq!(rt; sink.write(bytes.as_slice()), *want, "call {call}");
    }
    assert_eq!(rt; sink.bytes(), b"abc".as_slice());
    Ok(())
}

#[test]
fn readers_and_writers_of_std_serve(rt: HostRuntime) -> Result<(), OutOfMemory> {
    let bytes: &[u8] = b"abc";
    let mut source = IoSource::new(bytes);
    let mut buf = [0u8; 2];
    assert_eq!(rt; source.read(&mut buf), Ok(2));
    assert_eq!(rt; buf, [b'a', b'b']);
    assert_eq!(rt; source.read(&mut buf), Ok(1));
    assert_eq!(rt; source.read(&mut buf), Ok(0));
    let mut sink = IoSink::new(Vec::<u8>::with_capacity(rt.alloc(), 3)?);
    assert_eq!(rt; sink.write(b"abc"), Ok(3));
    let mut sink = IoSink::new(Stuck);
    assert_eq!(rt; sink.write(b"abc"), Err(Failed));
    OpenGate.pass(0);
    Ok(())
}
