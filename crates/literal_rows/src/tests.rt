//! What no clause says: that memory is found, and that the words are those of the layout, worked out by hand.
use crate::{Rows, first_too_long, rows_after};
use std::test::Fail;
use text_spec::TextList;

#[test]
fn literals_stand_one_behind_the_other(rt: HostRuntime) -> Result<(), Fail> {
    let alloc = rt.alloc();
    let mut literals = TextList::new(alloc);
    for text in ["", "12345678", "Grüße, Welt"] {
        literals.push(text)?;
    }
    let words = [
        0,
        0,
        0xD000_0000_0000_0000,
        0xD000_0000_0000_0008,
        0x3837_3635_3433_3231,
        0x1000_0000_0000_000D,
        0x2C65_9FC3_BCC3_7247,
        0x0000_0074_6C65_5720,
    ];
    assert_eq!(rt; literals.len(), 3);
    let longer = first_too_long(&literals, 13);
    assert!(rt; longer.is_none(), "13 bytes");
    let rows = rows_after(alloc, 2, &literals)?;
    assert_eq!(rt; rows.words.as_slice(), words.as_slice());
    assert_eq!(rt; rows.starts.as_slice(), [2, 3, 5].as_slice());
    let longest = [(7, Some(1)), (8, Some(2)), (12, Some(2))];
    for (most, wanted) in longest {
        assert_eq!(rt; first_too_long(&literals, most), wanted, "{most} bytes");
    }
    Ok(())
}
