//! Heaps that values of these tests stand in.
ghost use Rattle.std.specs.Prelude.{◌≡◌, IfOk};

use std::alloc::Global;
use std::process::Abort;
use str_value::Str;
use text_spec::{OutOfMemory, TextList};
use value_heaps::{StrHeap, StrWhole, layout, opened};
use word_units::Text;

/// How many slots the heaps have: none, so that each value is Small or Owned, or as many as it takes.
pub(crate) const SLOTS: [u32; 2] = [0, 4];

/// A heap of so many slots, each with room for 248 bytes.
pub(crate) fn heap_of(
    rt: &impl Abort,
    alloc: Global,
    slots: u32,
) -> Result<(StrHeap, StrWhole), OutOfMemory>
    ensures { IfOk result (λ t. t.1.heap ≡ t.0) }
{
    Ok(opened(alloc, &layout(slots, 32, 8), &TextList::new(alloc)).expect(rt, "a heap"))
}

/// The UTF-8 of a whole value.
pub(crate) fn whole(alloc: Global, value: &mut Str) -> Result<Vec<u8>, OutOfMemory>
    ensures { value.new ≡ value.old }
{
    let (low, high) = (value.low(), value.high());
    value.copy_utf8(alloc, low, high)
}
