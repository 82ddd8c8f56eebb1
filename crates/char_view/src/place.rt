//! Places of a text at scalar boundaries, in bytes of UTF-8 and in code units of the storage at once.
ghost use Rattle.std.specs.Prelude.{◌≡◌, ◌+◌, ◌-◌, ◌<◌, ◌≤◌, length};
ghost use Rattle.std.specs.Str.{IsCharBoundary};
ghost use Rattle.text_spec.specs.declared.encoding.Encoding.TheVariants.{Utf8, Utf16};
ghost use Rattle.text_spec.specs.Offsets.{start};
ghost use Rattle.word_units.specs.Parts.{low_of, high_of, scalars_before};
ghost use Rattle.char_view.specs.Places.{IsText, IsPlace, own_bytes};

use std::sync::ledger::Ledger;
use text_spec::Encoding;
use word_units::{Steps, Text, scalar_at};

/// A scalar boundary of a text.
#[derive(Clone, Copy, Debug)]
pub(crate) struct Place {
    /// Bytes of UTF-8 that lie between the text's start and the place.
    pub(crate) offset: usize,
    /// The place in the storage, in its code units.
    pub(crate) position: u64,
}

/// The text's start.
pub(crate) fn first_place<T: Text>(t: &T) -> Place
    ensures text { IsText (T.part t.now) }
    ensures place { IsPlace (T.part t.now) result.offset result.position }
    ensures start { (result.offset ≡ 0) × (result.position ≡ low_of (T.part t.now)) }
{
    let _count = t.count();
    let _high = t.high();
    Place {
        offset: 0,
        position: t.low(),
    }
}

/// The place after the scalar at a place that isn't the end. At most two words are read.
pub(crate) fn place_after<T: Text, L: Ledger>(t: &mut T, at: Place, steps: &mut Steps<L>) -> Place
    requires place { IsPlace (T.part t.old) at.offset at.position }
    requires inside { at.position < high_of (T.part t.old) }
    ensures place { IsPlace (T.part t.old) result.offset result.position }
    ensures number { scalars_before (T.part t.old) result.position ≡ scalars_before (T.part t.old) at.position + 1 }
    ensures ahead { (at.offset < result.offset) × (at.position < result.position) }
    ensures kept { t.new ≡ t.old }
{
    let _count = t.count();
    let (scalar, width) = scalar_at(t, at.position, steps);
    Place {
        offset: at.offset + scalar.len_utf8(),
        position: at.position + width as u64,
    }
}

/// The place `offset` bytes of UTF-8 after the text's start, found by a walk from an earlier one.
fn place_walked_to<T: Text, L: Ledger>(
    t: &mut T,
    from: Place,
    offset: usize,
    steps: &mut Steps<L>,
) -> Place
    requires place { IsPlace (T.part t.old) from.offset from.position }
    requires order { from.offset ≤ offset }
    requires cut { IsCharBoundary (own_bytes (T.part t.old)) offset }
    ensures place { IsPlace (T.part t.old) result.offset result.position }
    ensures offset { result.offset ≡ offset }
    ensures kept { t.new ≡ t.old }
{
    let mut at = from;
    'scalars: while at.offset < offset {
        at = place_after(t, at, steps);
    }
    at
}

/// The place `offset` bytes of UTF-8 after the text's start, which isn't before `from`.
///
/// In UTF-8 storage nothing is read, in UTF-16 storage at most two words for each scalar between the two places.
pub(crate) fn place_at<T: Text, L: Ledger>(
    t: &mut T,
    from: Place,
    offset: usize,
    steps: &mut Steps<L>,
) -> Place
    requires place { IsPlace (T.part t.old) from.offset from.position }
    requires order { from.offset ≤ offset }
    requires cut { IsCharBoundary (own_bytes (T.part t.old)) offset }
    ensures place { IsPlace (T.part t.old) result.offset result.position }
    ensures offset { result.offset ≡ offset }
    ensures kept { t.new ≡ t.old }
{
    match t.encoding() {
        Encoding::Utf8 => Place {
            offset,
            position: from.position + (offset - from.offset) as u64,
        },
        Encoding::Utf16 => place_walked_to(t, from, offset, steps),
    }
}

/// How many bytes the UTF-8 of a text takes, by a walk over its scalars.
fn walked_len<T: Text, L: Ledger>(t: &mut T, steps: &mut Steps<L>) -> usize
    ensures len { result ≡ length (own_bytes (T.part t.old)) }
    ensures kept { t.new ≡ t.old }
{
    let high = t.high();
    let mut at = first_place(t);
    'scalars: while at.position < high {
        at = place_after(t, at, steps);
    }
    at.offset
}

/// How many bytes the UTF-8 of a text takes. In UTF-16 storage it is counted, at two words a scalar at most.
pub(crate) fn text_len<T: Text, L: Ledger>(t: &mut T, steps: &mut Steps<L>) -> usize
    ensures len { result ≡ length (own_bytes (T.part t.old)) }
    ensures kept { t.new ≡ t.old }
{
    let start = first_place(t);
    let high = t.high();
    match t.encoding() {
        Encoding::Utf8 => (high - start.position) as usize,
        Encoding::Utf16 => walked_len(t, steps),
    }
}
