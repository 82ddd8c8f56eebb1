//! What no clause says: that the words are those of the layout, worked out by hand, form by form.
use object_words::{Form, Object};
use std::process::Abort;

/// The words of an object, with what is read of them.
fn words_are<A: Abort>(
    rt: &A,
    object: Object,
    words: (u64, u64),
    form: Form,
    count: u64,
    ascii: bool,
) {
    assert_eq!(rt; (object.w0(), object.w1()), words);
    assert_eq!(rt; object.form(), form, "{words:?}");
    assert_eq!(rt;
        (object.count(), object.ascii()),
        (count, ascii),
        "{words:?}"
    );
    match Object::check(words.0, words.1) {
        Some(read) => assert_eq!(rt; (read.w0(), read.w1()), words),
        None => assert!(rt; false, "{words:?}"),
    }
}

#[test]
fn small_values_hold_their_bytes(rt: HostRuntime) {
    let rows = [
        ("", (0, 0xE000_0000_0000_0000), true),
        ("abc", (0x0063_6261, 0xE300_0000_0000_0000), true),
        (
            "aaaaaaaa",
            (0x6161_6161_6161_6161, 0xE800_0000_0000_0000),
            true,
        ),
        (
            "aaaaaaaab",
            (0x6161_6161_6161_6161, 0xE900_0000_0000_0062),
            true,
        ),
        (
            "aaaaaaaaaaaaaaa",
            (0x6161_6161_6161_6161, 0xEF61_6161_6161_6161),
            true,
        ),
        ("x😀", (0x80_989F_F078, 0xA500_0000_0000_0000), false),
        ("é", (0xA9C3, 0xA200_0000_0000_0000), false),
        (
            "aaaaaaaaaaaaaé",
            (0x6161_6161_6161_6161, 0xAFA9_C361_6161_6161),
            false,
        ),
    ];
    for (text, words, ascii) in rows {
        match Object::small(text.as_bytes()) {
            Some(object) => words_are(&rt, object, words, Form::Small, text.len() as u64, ascii),
            None => assert!(rt; false, "{text}"),
        }
    }
    assert!(rt; Object::small("aaaaaaaaaaaaaaaa".as_bytes()).is_none());
}

#[test]
fn other_forms_say_where_the_text_is(rt: HostRuntime) {
    let native = Object::native(true, true, 16, 5);
    words_are(
        &rt,
        native,
        (0xF000_0000_0000_0010, 5),
        Form::Native,
        16,
        true,
    );
    assert_eq!(rt; native.slot(), 5);
    let accented = Object::native(false, true, 0xFFFF_FFFF_FFFF, 0xFFFF_FFFF);
    words_are(
        &rt,
        accented,
        (0x7000_FFFF_FFFF_FFFF, 0xFFFF_FFFF),
        Form::Native,
        0xFFFF_FFFF_FFFF,
        false,
    );
    assert_eq!(rt; accented.slot(), 0xFFFF_FFFF);
    let literal = Object::literal(true, true, 13, 1);
    words_are(
        &rt,
        literal,
        (0xD000_0000_0000_000D, 0x8000_0000_0000_0001),
        Form::Literal,
        13,
        true,
    );
    assert_eq!(rt; literal.slot(), 1);
    let foreign = Object::foreign(false, 2, 7);
    words_are(
        &rt,
        foreign,
        (0x0800_0000_0000_0002, 0x1000_0000_0000_0007),
        Form::Foreign,
        2,
        false,
    );
    assert_eq!(rt; foreign.slot(), 7);
    let ascii16 = Object::foreign(true, 2, 0);
    words_are(
        &rt,
        ascii16,
        (0xC800_0000_0000_0002, 0x1000_0000_0000_0000),
        Form::Foreign,
        2,
        true,
    );
    let owned = Object::owned(true, true, false, 0xFFF9);
    words_are(
        &rt,
        owned,
        (0xC000_0000_0000_FFF9, 0x2000_0000_0000_0000),
        Form::Owned,
        0xFFF9,
        true,
    );
    let lone = Object::owned(false, false, true, 2);
    words_are(
        &rt,
        lone,
        (0x0800_0000_0000_0002, 0x2000_0000_0000_0000),
        Form::Owned,
        2,
        false,
    );
}

#[test]
fn words_of_no_row_are_refused(rt: HostRuntime) {
    let rows: [(&str, u64, u64); 17] = [
        (
            "ASCII bytes under the other mark",
            0x0063_6261,
            0xA300_0000_0000_0000,
        ),
        (
            "bytes past ASCII under its mark",
            0xA9C3,
            0xE200_0000_0000_0000,
        ),
        ("no UTF-8", 0xC3, 0xA100_0000_0000_0000),
        ("a byte behind the text", 0x6463_6261, 0xE300_0000_0000_0000),
        (
            "a byte behind the text, in word 1",
            0x0063_6261,
            0xE300_0000_0000_0001,
        ),
        (
            "ASCII not in NFC",
            0x8000_0000_0000_0010,
            0x2000_0000_0000_0000,
        ),
        (
            "a set zero bit",
            0x0001_0000_0000_0010,
            0x2000_0000_0000_0000,
        ),
        (
            "the highest zero bit",
            0x0400_0000_0000_0010,
            0x2000_0000_0000_0000,
        ),
        (
            "Owned with a slot",
            0xC000_0000_0000_0010,
            0x2000_0000_0000_0001,
        ),
        (
            "Owned in the table",
            0xD000_0000_0000_0010,
            0x2000_0000_0000_0000,
        ),
        (
            "Owned UTF-16 in NFC and not ASCII",
            0x4800_0000_0000_0010,
            0x2000_0000_0000_0000,
        ),
        ("Native not in the table", 0xE000_0000_0000_0010, 5),
        (
            "Native with a number past 32 bits",
            0xF000_0000_0000_0010,
            0x1_0000_0005,
        ),
        (
            "Foreign without its mark",
            0xC000_0000_0000_0010,
            0x1000_0000_0000_0005,
        ),
        (
            "Literal that is native",
            0xF000_0000_0000_0010,
            0x8000_0000_0000_0005,
        ),
        ("no form", 0xF000_0000_0000_0010, 0x3000_0000_0000_0005),
        ("no Small form", 0x0063_6261, 0xC300_0000_0000_0000),
    ];
    for (row, w0, w1) in rows {
        assert!(rt; Object::check(w0, w1).is_none(), "{row}");
    }
}
