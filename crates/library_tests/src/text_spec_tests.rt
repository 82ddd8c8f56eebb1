//! What no clause says: that a push finds memory, and the widths at the edges that the Unicode Standard's table of well-formed sequences names.
use text_spec::{Encoding, OutOfMemory, TextList, scalar_len8, scalar_len16};

#[test]
fn scalars_have_the_widths_of_the_standard(rt: HostRuntime) {
    let rows = [
        ('\u{0}', 1, 1),
        ('\u{7F}', 1, 1),
        ('\u{80}', 2, 1),
        ('\u{7FF}', 2, 1),
        ('\u{800}', 3, 1),
        ('\u{D7FF}', 3, 1),
        ('\u{E000}', 3, 1),
        ('\u{FFFF}', 3, 1),
        ('\u{10000}', 4, 2),
        ('\u{10FFFF}', 4, 2),
    ];
    for (scalar, bytes, units) in rows {
        assert_eq!(rt; scalar_len8(scalar), bytes, "bytes of {scalar}");
        assert_eq!(rt; scalar_len16(scalar), units, "units of {scalar}");
    }
    assert!(rt; Encoding::Utf8 != Encoding::Utf16);
}

#[test]
fn a_list_gives_back_the_texts_pushed_in_order(rt: HostRuntime) -> Result<(), OutOfMemory> {
    let mut list = TextList::new(rt.alloc());
    assert_eq!(rt; list.len(), 0);
    for text in ["--workers", "", "é😀"] {
        list.push(text)?;
    }
    assert_eq!(rt; list.len(), 3);
    for (k, text) in ["--workers", "", "é😀"].iter().enumerate() {
        assert_eq!(rt; list.get(k), *text, "text {k}");
    }
    Ok(())
}
