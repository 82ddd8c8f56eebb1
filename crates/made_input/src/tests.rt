//! What no clause says: that memory is found, and that the bytes are those that another program makes by the same rules.
use crate::MadeInput;
use outside::Source;
use std::test::Fail;

/// How many bytes and newlines were read, and the fold `m * 31 + b` modulo 2^32 over the bytes, from 0.
#[derive(Clone, Copy, Debug, PartialEq, Eq)]
struct Seen {
    bytes: u32,
    newlines: u32,
    mark: u32,
}

fn seen_more(seen: Seen, bytes: &[u8]) -> Seen {
    let mut more = seen;
    for byte in bytes {
        more.bytes = more.bytes.wrapping_add(1);
        if *byte == b'\n' {
            more.newlines = more.newlines.wrapping_add(1);
        }
        more.mark = more.mark.wrapping_mul(31).wrapping_add(*byte as u32);
    }
    more
}

/// Reads an input to its end, at most `room` bytes a call, from 1 to 4,096, and at most a million calls.
fn read_through(input: &mut MadeInput, room: usize) -> Seen {
    let mut buffer = [0u8; 4096];
    let most = room.clamp(1, 4096);
    let mut seen = Seen {
        bytes: 0,
        newlines: 0,
        mark: 0,
    };
    for _ in 0..1_000_000 {
        match input.read(&mut buffer[..most]) {
            Ok(0) | Err(_) => break,
            Ok(count) => seen = seen_more(seen, &buffer[..count]),
        }
    }
    seen
}

#[test]
fn inputs_are_those_of_another_program(rt: HostRuntime) -> Result<(), Fail> {
    let alloc = rt.alloc();
    let inputs = [
        (1, 1, 1, 31_900, 837_447_323),
        (1, 2, 4_096, 57_420, 776_675_910),
        (0, 3, 100, 82_970, 2_254_212_373),
        (4_294_967_295, 2, 7, 57_410, 305_409_690),
        (7, 1_000, 4_096, 25_518_390, 1_051_391_169),
    ];
    for (number, lines, room, bytes, mark) in inputs {
        let mut input = MadeInput::new(alloc, number, lines)?;
        let wanted = Seen {
            bytes,
            newlines: lines,
            mark,
        };
        assert_eq!(rt; read_through(&mut input, room), wanted, "{number} {lines}");
    }
    Ok(())
}
