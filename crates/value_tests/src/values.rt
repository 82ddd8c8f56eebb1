//! What the values of these tests are made of.
ghost use Rattle.std.specs.Prelude.{◌≡◌, IfOk};
ghost use Rattle.str_value.specs.Meaning.{OfHeap};

use slot_model::Layout;
use std::alloc::Global;
use std::process::Abort;
use str_value::{MakeError, Str, StrPass};
use text_spec::{OutOfMemory, TextList};
use value_heaps::{StrHeap, StrWhole, opened};

/// What a value is made of.
#[derive(Clone, Copy, Debug, PartialEq, Eq)]
pub(crate) enum Source {
    /// The UTF-8 of a text.
    Utf8,
    /// The UTF-16 of a text.
    Utf16,
    /// Literal 0 of the heap.
    Literal,
}

/// Of what a text is: a piece, how often it stands there, and what stands behind.
pub(crate) type Parts<'a> = (&'a str, u32, &'a str);

pub(crate) fn text_of(alloc: Global, parts: Parts) -> Result<String, OutOfMemory> {
    let (piece, times, end) = parts;
    let mut text = String::new(alloc);
    for _ in 0..times {
        text.push_str(piece)?;
    }
    text.push_str(end)?;
    Ok(text)
}

/// A pair, and 63 times U+00E9 behind it.
pub(crate) const PAIR_AND_ACCENTED: &str =
    "😀ééééééééééééééééééééééééééééééééééééééééééééééééééééééééééééééé";

/// A heap whose one literal is the text where a value is to be made of a literal, and that has no literals elsewhere.
pub(crate) fn heap_of(
    rt: &impl Abort,
    alloc: Global,
    layout: &Layout,
    source: Source,
    text: &str,
) -> Result<(StrHeap, StrWhole), OutOfMemory>
    ensures heap { IfOk result (λ t. t.1.heap ≡ t.0) }
    ensures layout { IfOk result (λ t. t.0.layout ≡ layout.now) }
{
    let mut literals = TextList::new(alloc);
    if source == Source::Literal {
        literals.push(text)?;
    }
    Ok(opened(alloc, layout, &literals).expect(rt, "a heap"))
}

/// A value of the text.
pub(crate) fn value_of<'h>(
    rt: &impl Abort,
    alloc: Global,
    pass: &mut StrPass<'h>,
    source: Source,
    text: &str,
) -> Result<Str<'h>, MakeError>
    ensures one_heap { pass.new.heap ≡ pass.old.heap }
    ensures heap { IfOk result (λ s. OfHeap pass.new s.place) }
{
    match source {
        Source::Utf8 => Str::from_utf8(alloc, pass, text.as_bytes()),
        Source::Utf16 => {
            let units = text.encode_utf16().collect::<Vec<u16>>(alloc)?;
            Str::from_utf16(alloc, pass, units.as_slice())
        }
        Source::Literal => Ok(Str::literal(pass, 0).expect(rt, "literal 0")),
    }
}
