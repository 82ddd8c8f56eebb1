//! Copies of values: where they stand, and that each outlives the other.
use crate::readers::read;
use crate::values::{Parts, Source, heap_of, text_of, value_of};
use object_words::{Form, Object};
use slot_model::Layout;
use std::alloc::Global;
use std::process::Abort;
use str_value::MakeError;
use value_heaps::{closed, ended, layout};

/// A copy, as a test sees it: its form, its first word, whether its two words are the value's, and the credits that it took; then which of
/// the value and its copy are known to be the only holder of their slot.
type Copied = (Form, u64, bool, u32, (bool, bool));

fn words_of(object: Object) -> (u64, u64) {
    (object.w0(), object.w1())
}

/// What a copy of a value of the text is. The one of the two that `first` names is given up first, and the other read after it.
#[tactic(auto, using(value_heaps::proofs::Moving::of_heap_moves))]
fn copied(
    rt: &impl Abort,
    alloc: Global,
    layout: &Layout,
    source: Source,
    text: &str,
    copy_goes_first: bool,
) -> Result<Copied, MakeError> {
    let (heap, whole) = heap_of(rt, alloc, layout, source, text)?;
    let mut pass = heap.pass(whole);
    let mut value = value_of(rt, alloc, &mut pass, source, text)?;
    let before = pass.credits();
    let copy = value.copy(alloc, &mut pass)?;
    let seen = (
        copy.form(),
        copy.object().w0(),
        words_of(copy.object()) == words_of(value.object()),
        before.wrapping_sub(pass.credits()),
        (value.known_sole(), copy.known_sole()),
    );
    let (first, mut second) = if copy_goes_first {
        (copy, value)
    } else {
        (value, copy)
    };
    first.release(&mut pass);
    let left = read(alloc, &mut second)?;
    assert_eq!(rt; left.as_str(), text, "what is left");
    second.release(&mut pass);
    let whole = ended(pass).expect(rt, "something is still out");
    let (slots, idle) = closed(heap, whole);
    assert_eq!(rt; slots, idle, "slots and idle slots");
    Ok(seen)
}

#[test]
fn a_copy_shares_the_slot_where_a_credit_is_free(rt: HostRuntime) -> Result<(), MakeError> {
    let alloc = rt.alloc();
    let neither = (false, false);
    let value = (true, false);
    let rows: [(Source, Parts, u32, u32, Copied); 16] = [
        (
            Source::Utf8,
            ("", 0, ""),
            1,
            3,
            (Form::Small, 0, true, 0, neither),
        ),
        (
            Source::Utf8,
            ("abc", 1, ""),
            1,
            3,
            (Form::Small, 0x0063_6261, true, 0, neither),
        ),
        (
            Source::Utf8,
            ("é", 7, ""),
            1,
            3,
            (Form::Small, 0xA9C3_A9C3_A9C3_A9C3, true, 0, neither),
        ),
        (
            Source::Utf8,
            ("a", 16, ""),
            1,
            3,
            (Form::Native, 0xF000_0000_0000_0010, true, 1, neither),
        ),
        (
            Source::Utf8,
            ("é", 40, ""),
            1,
            3,
            (Form::Native, 0x3000_0000_0000_0050, true, 1, neither),
        ),
        (
            Source::Utf8,
            ("a", 16, ""),
            1,
            2,
            (Form::Owned, 0xC000_0000_0000_0010, false, 0, value),
        ),
        (
            Source::Utf8,
            ("aé€😀", 9, ""),
            1,
            2,
            (Form::Owned, 0x0000_0000_0000_005A, false, 0, value),
        ),
        (
            Source::Utf8,
            ("a", 16, ""),
            0,
            3,
            (Form::Owned, 0xC000_0000_0000_0010, true, 0, neither),
        ),
        (
            Source::Utf8,
            ("é", 40, ""),
            0,
            3,
            (Form::Owned, 0x0000_0000_0000_0050, true, 0, neither),
        ),
        (
            Source::Utf16,
            ("", 0, ""),
            1,
            3,
            (Form::Foreign, 0xC800_0000_0000_0000, true, 1, neither),
        ),
        (
            Source::Utf16,
            ("aé€😀", 9, ""),
            1,
            3,
            (Form::Foreign, 0x0800_0000_0000_002D, true, 1, neither),
        ),
        (
            Source::Utf16,
            ("aé€😀", 9, ""),
            1,
            2,
            (Form::Owned, 0x0800_0000_0000_002D, false, 0, value),
        ),
        (
            Source::Utf16,
            ("aé€😀", 9, ""),
            0,
            3,
            (Form::Owned, 0x0800_0000_0000_002D, true, 0, neither),
        ),
        (
            Source::Utf16,
            ("ab", 1, ""),
            0,
            3,
            (Form::Owned, 0xC800_0000_0000_0002, true, 0, neither),
        ),
        (
            Source::Literal,
            ("", 0, ""),
            1,
            3,
            (Form::Literal, 0xD000_0000_0000_0000, true, 0, neither),
        ),
        (
            Source::Literal,
            ("aé€😀", 9, ""),
            1,
            1,
            (Form::Literal, 0x1000_0000_0000_005A, true, 0, neither),
        ),
    ];
    for (source, parts, slots, credits, wanted) in rows {
        let text = text_of(alloc, parts)?;
        for copy_goes_first in [false, true] {
            let layout = layout(slots, 40, credits);
            let seen = copied(&rt, alloc, &layout, source, text.as_str(), copy_goes_first)?;
            assert_eq!(&rt;
                seen,
                wanted,
                "{source:?} of {parts:?}, slots {slots}, credits {credits}"
            );
        }
    }
    Ok(())
}
