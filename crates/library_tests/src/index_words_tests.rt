//! What no clause says: that the words are those of the layout, worked out by hand, and that equal places hash alike.
use index_words::Index;
use std::cmp::Ordering;
use std::hash::{DefaultHasher, Hash, Hasher};
use std::process::Abort;
use text_spec::Encoding;

/// The index of numbers from a table, which all fit.
fn index_of(position: u64, transcoded: u32, encoding: Encoding) -> Index {
    Index::new(position % 0x1_0000_0000_0000, transcoded % 4, encoding)
}

fn hash_of(index: Index) -> u64 {
    let mut hasher = DefaultHasher::new();
    index.hash(&mut hasher);
    hasher.finish()
}

fn fields_are<A: Abort>(
    rt: &A,
    index: Index,
    wanted: (u64, u32, u32),
    marks: (bool, bool),
    aligned: (bool, bool),
) {
    let word = index.bits();
    assert_eq!(rt;
        (index.position(), index.transcoded(), index.stride()),
        wanted,
        "{word}"
    );
    assert_eq!(rt; (index.is_utf8(), index.is_utf16()), marks, "{word}");
    assert_eq!(rt;
        (index.scalar_aligned(), index.character_aligned()),
        aligned,
        "{word}"
    );
}

#[test]
fn words_are_those_of_the_layout(rt: HostRuntime) {
    let rows: [(u64, u32, Encoding, u64); 6] = [
        (0, 0, Encoding::Utf8, 4),
        (0, 0, Encoding::Utf16, 8),
        (0, 1, Encoding::Utf16, 16392),
        (126, 1, Encoding::Utf8, 8273924),
        (1, 3, Encoding::Utf8, 0x1_C004),
        (0xFFFF_FFFF_FFFF, 3, Encoding::Utf16, 0xFFFF_FFFF_FFFF_C008),
    ];
    for (position, transcoded, encoding, wanted) in rows {
        let index = index_of(position, transcoded, encoding);
        assert_eq!(rt; index.bits(), wanted, "{position} {transcoded}");
        let utf8 = encoding == Encoding::Utf8;
        fields_are(
            &rt,
            index,
            (position, transcoded, 0),
            (utf8, !utf8),
            (false, false),
        );
    }
}

#[test]
fn one_field_changes_and_the_others_stay(rt: HostRuntime) {
    let index = Index::new(2, 0, Encoding::Utf8);
    let aligned = index.with_scalar_aligned();
    assert_eq!(rt; aligned.bits(), 131077);
    assert_eq!(rt; aligned.with_scalar_aligned().bits(), 131077);
    let character = aligned.with_character_aligned();
    assert_eq!(rt; character.bits(), 131079);
    let cached = character.with_stride(63);
    assert_eq!(rt; cached.bits(), 0x2_3F07);
    fields_are(&rt, cached, (2, 0, 63), (true, false), (true, true));
    assert_eq!(rt; cached.with_stride(8).bits(), 0x2_0807);
    assert_eq!(rt; cached.with_stride(0).bits(), 131079);
}

#[test]
fn a_word_with_a_bit_in_the_zero_part_is_no_index(rt: HostRuntime) {
    for bits in [16, 32, 64, 128, 0xF0, u64::MAX] {
        assert!(rt; Index::check(bits).is_none(), "{bits}");
    }
    for bits in [0, 15, 256, 8273924, 0xFFFF_FFFF_FFFF_FF0F] {
        match Index::check(bits) {
            Some(index) => assert_eq!(rt; index.bits(), bits),
            None => assert!(rt; false, "{bits}"),
        }
    }
}

#[test]
fn places_compare_whatever_else_the_words_say(rt: HostRuntime) {
    let plain = Index::new(5, 1, Encoding::Utf8);
    let other = Index::new(5, 1, Encoding::Utf16)
        .with_stride(9)
        .with_scalar_aligned();
    assert_eq!(rt; plain, other);
    assert_eq!(rt; plain.cmp(&other), Ordering::Equal);
    assert_eq!(rt; hash_of(plain), hash_of(other));
    let rows = [(5, 0), (4, 3)];
    for (position, transcoded) in rows {
        let before = index_of(position, transcoded, Encoding::Utf8).with_stride(63);
        assert_eq!(rt;
            before.cmp(&plain),
            Ordering::Less,
            "{position} {transcoded}"
        );
        assert_eq!(rt;
            plain.partial_cmp(&before),
            Some(Ordering::Greater),
            "{position} {transcoded}"
        );
        assert!(rt; before != plain, "{position} {transcoded}");
    }
}
