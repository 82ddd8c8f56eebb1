//! The heap's literals, read by two in threads: that the calls answer, with words worked out by hand.
ghost use Rattle.std.specs.Prelude.{◌≡◌, length, IfSome};
ghost use Rattle.literal_rows.specs.Rows.{row_words};

use crate::heaps::{NotEmpty, closed, ended, layout};
use slot_table::{Heap, Literal, Pass, Whole};
use std::test::Fail;
use std::thread::{Threads, join_mut};
use text_spec::TextList;

// A literal, and the three words that were read of it.
#[derive(Drop)]
struct Reciter<'h> {
    literal: Literal<'h, NotEmpty>,
    words: (u64, u64, u64),
}

fn recite<'h>(reciter: &mut Reciter<'h>)
    requires { length reciter.old.literal.words ≡ 3 }
    ensures { reciter.new.literal ≡ reciter.old.literal }
{
    let first = reciter.literal.read(0);
    let second = reciter.literal.read(1);
    let last = reciter.literal.read(2);
    reciter.words = (first, second, last);
}

// What was read of two literals: the first word of the first, and all words of the third, twice.
#[derive(Drop)]
struct Recited {
    empty: u64,
    words: (u64, u64, u64),
    copied: (u64, u64, u64),
}

// A literal and its copy are read at once, in two threads. No event is made by it, and nothing is owed at the end.
fn recite_all<'h, R: Threads>(
    rt: &R,
    mut pass: Pass<'h, NotEmpty>,
) -> (Recited, Option<Whole<NotEmpty>>)
    requires three { (length pass.heap.literals ≡ 3) × (length (row_words pass.heap.literals 2) ≡ 3) }
    ensures kept { IfSome result.1 (λ w. w ≡ pass.entry) }
{
    let mut empty = pass.literal(0);
    let head = empty.read(0);
    empty.release();
    let mut literal = pass.literal(2);
    let copy = literal.copy();
    let mut one = Reciter {
        literal,
        words: (0, 0, 0),
    };
    let mut other = Reciter {
        literal: copy,
        words: (0, 0, 0),
    };
    join_mut(rt, &mut || recite(&mut one), &mut || recite(&mut other));
    let Reciter { literal, words } = one;
    let Reciter {
        literal: copy,
        words: copied,
    } = other;
    literal.release();
    copy.release();
    let recited = Recited {
        empty: head,
        words,
        copied,
    };
    (recited, ended(pass))
}

#[test]
fn literals_are_read_copied_and_released(rt: HostRuntime) -> Result<(), Fail> {
    let alloc = rt.alloc();
    let mut literals = TextList::new(alloc);
    literals.push("")?;
    literals.push("12345678")?;
    literals.push("Grüße, Welt")?;
    let Ok((heap, whole)) = Heap::<NotEmpty>::open(alloc, &layout(3, 1, 2), &literals) else {
        panic!(rt; "no heap")
    };
    let (recited, Some(whole)) = recite_all(&rt, heap.pass(whole)) else {
        panic!(rt; "something is still out")
    };
    let words = (
        0x1000_0000_0000_000D,
        0x2C65_9FC3_BCC3_7247,
        0x0000_0074_6C65_5720,
    );
    assert_eq!(rt;
        recited.empty,
        0xD000_0000_0000_0000,
        "the head of the empty text"
    );
    assert_eq!(rt; recited.words, words, "the words of 13 bytes");
    assert_eq!(rt; recited.copied, words, "the words of the copy");
    assert_eq!(rt; closed(heap, whole), (1, 1), "slots and idle slots");
    Ok(())
}
