//! Values in heaps with almost nothing in them: which calls find a slot and a credit there, and where a text stands that finds none.
ghost use Rattle.std.specs.Prelude.{◌≡◌};
ghost use Rattle.str_value.specs.Meaning.{OfHeap};

use crate::readers::read;
use crate::values::{Source, heap_of};
use edit_cow::{EditError, Wrote, append};
use object_words::Form;
use slot_model::Layout;
use std::alloc::Global;
use std::marker::Brand;
use std::process::Abort;
use std::sync::ledger::{Blank, Ledger};
use std::test::Fail;
use str_value::{Str, StrPass};
use value_heaps::{closed, ended, layout};
use word_units::Steps;

fn appended_with<'h, L: Ledger>(
    alloc: Global,
    value: &mut Str<'h>,
    pass: &mut StrPass<'h>,
    with: &[u8],
    blank: Blank,
) -> Result<Wrote, EditError>
    requires name { blank.name ≡ L.name }
    requires parts { blank.parts ≡ L.parts }
    requires one { blank.parts ≡ 1 }
    requires heap { OfHeap pass.old value.old.place }
    ensures one_heap { pass.new.heap ≡ pass.old.heap }
    ensures heap { OfHeap pass.new value.new.place }
{
    let mut steps = Steps::<L>::from_blank(blank);
    append(alloc, value, pass, with, &mut steps)
}

/// `append`.
pub(crate) fn appended<'h>(
    alloc: Global,
    value: &mut Str<'h>,
    pass: &mut StrPass<'h>,
    with: &[u8],
) -> Result<Wrote, EditError>
    requires heap { OfHeap pass.old value.old.place }
    ensures one_heap { pass.new.heap ≡ pass.old.heap }
    ensures heap { OfHeap pass.new value.new.place }
{
    appended_with::<Brand>(alloc, value, pass, with, Blank::new(1))
}

fn reads(rt: &impl Abort, alloc: Global, value: &mut Str, text: &str) -> Result<(), Fail>
    ensures { value.new ≡ value.old }
{
    let read = read(alloc, value)?;
    assert_eq!(rt; read.as_str(), text);
    Ok(())
}

/// Sixteen bytes: one more than a value's two words hold.
const LETTERS: &str = "aaaaaaaaaaaaaaaa";

/// The forms of a value, of its copy and of another value; then where the first one's text is put that is a byte longer.
type Stands = (Form, Form, Form, Wrote);

/// Where values of `LETTERS`, a copy and a value of another text stand in a heap of this layout. Each has its own text in the end.
#[tactic(auto, using(value_heaps::proofs::Moving::of_heap_moves))]
fn stands_in(
    rt: &impl Abort,
    alloc: Global,
    layout: &Layout,
    another: &str,
) -> Result<Stands, Fail> {
    let (heap, whole) = heap_of(rt, alloc, layout, Source::Utf8, "")?;
    let mut pass = heap.pass(whole);
    let mut value = Str::from_utf8(alloc, &mut pass, LETTERS.as_bytes())?;
    let mut copy = value.copy(alloc, &mut pass)?;
    let mut other = Str::from_utf8(alloc, &mut pass, another.as_bytes())?;
    let (first, second, third) = (value.form(), copy.form(), other.form());
    let wrote = appended(alloc, &mut value, &mut pass, b"!")?;
    reads(rt, alloc, &mut value, "aaaaaaaaaaaaaaaa!")?;
    reads(rt, alloc, &mut copy, LETTERS)?;
    reads(rt, alloc, &mut other, another)?;
    value.release(&mut pass);
    copy.release(&mut pass);
    other.release(&mut pass);
    let whole = ended(pass).expect(rt, "something is still out");
    let (slots, idle) = closed(heap, whole);
    assert_eq!(rt; slots, idle, "slots and idle slots");
    Ok((first, second, third, wrote))
}

/// One of the credits is the stake of the pass, so as many values stand in slots as there are others.
#[test]
fn a_text_stands_in_a_vector_where_a_slot_or_a_credit_is_wanting(
    rt: HostRuntime,
) -> Result<(), Fail> {
    let alloc = rt.alloc();
    let (native, owned, small) = (Form::Native, Form::Owned, Form::Small);
    let other = "bbbbbbbbbbbbbbbb";
    let rows = [
        (0, 1, other, (owned, owned, owned, Wrote::Owned)),
        (0, 3, other, (owned, owned, owned, Wrote::Owned)),
        (1, 1, other, (owned, owned, owned, Wrote::Owned)),
        (1, 2, other, (native, owned, owned, Wrote::InPlace)),
        (1, 3, other, (native, native, owned, Wrote::Owned)),
        (2, 2, other, (native, owned, owned, Wrote::InPlace)),
        (2, 3, other, (native, native, owned, Wrote::Owned)),
        (2, 4, other, (native, native, native, Wrote::Owned)),
        // an empty text takes neither
        (2, 4, "", (native, native, small, Wrote::Copied)),
    ];
    for (slots, credits, another, wanted) in rows {
        let stands = stands_in(&rt, alloc, &layout(slots, 4, credits), another)?;
        assert_eq!(&rt;
            stands,
            wanted,
            "slots {slots}, credits {credits}, another {another:?}"
        );
    }
    Ok(())
}
