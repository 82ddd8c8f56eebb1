//! What a heap is refused for, at each limit.
use crate::heaps::{NotEmpty, layout};
use slot_model::Layout;
use slot_table::{Heap, OpenError};
use std::alloc::Global;
use std::test::Fail;
use text_spec::TextList;

// What `open` answers: 1 for a layout, 2 and a number for a literal, 0 for a heap.
fn refusal(alloc: Global, layout: &Layout, literals: &TextList) -> (u32, u32) {
    match Heap::<NotEmpty>::open(alloc, layout, literals) {
        Ok(_opened) => (0, 0),
        Err(OpenError::BadLayout) => (1, 0),
        Err(OpenError::LiteralTooLong { number }) => (2, number),
        Err(OpenError::OutOfMemory) => (3, 0),
    }
}

#[test]
fn each_bad_layout_and_each_long_literal_is_refused(rt: HostRuntime) -> Result<(), Fail> {
    let alloc = rt.alloc();
    let none = TextList::new(alloc);
    let rows = [
        (1, 1, 1, 1),
        (2, 0, 1, 0),
        (1_048_577, 1, 1, 1),
        (2, 65_537, 1, 1),
        (2, 65_536, 1, 0),
        (2, 1, 0, 1),
        (2, 1, 1_048_577, 1),
        (2, 1, 1_048_576, 0),
        (257, 65_536, 1, 1),
        (1_048_576, 1, 1, 0),
    ];
    for (capacity_words, slots, credits, wanted) in rows {
        let got = refusal(alloc, &layout(capacity_words, slots, credits), &none);
        assert_eq!(rt;
            got,
            (wanted, 0),
            "words {capacity_words}, slots {slots}, credits {credits}"
        );
    }
    let mut two = TextList::new(alloc);
    two.push("")?;
    two.push("123456789")?;
    assert_eq!(rt;
        refusal(alloc, &layout(2, 1, 1), &two),
        (2, 1),
        "nine bytes behind an empty text"
    );
    let mut literals = TextList::new(alloc);
    literals.push("")?;
    literals.push("12345678")?;
    assert_eq!(rt;
        refusal(alloc, &layout(2, 1, 1), &literals),
        (0, 0),
        "eight bytes"
    );
    literals.push("123456789")?;
    literals.push("1234567890")?;
    assert_eq!(rt;
        refusal(alloc, &layout(2, 1, 1), &literals),
        (2, 2),
        "nine bytes, and ten behind them"
    );
    assert_eq!(rt;
        refusal(alloc, &layout(1, 1, 1), &literals),
        (1, 0),
        "the layout comes first"
    );
    for _ in 0..253 {
        literals.push("x")?;
    }
    assert_eq!(rt;
        refusal(alloc, &layout(3, 1, 1), &literals),
        (1, 0),
        "257 literals"
    );
    Ok(())
}
