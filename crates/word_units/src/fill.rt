//! Pieces of a text as UTF-8, a bufferful of whole scalars at a time.
ghost use Rattle.std.specs.Prelude.{◌≡◌, ◌+◌, ◌-◌, ◌*◌, ◌<◌, ◌≤◌, ◌++◌, take, slice_index};
ghost use Rattle.std.specs.Char.{encode_utf8, len_utf8};
ghost use Rattle.text_spec.specs.Offsets.{start};
ghost use Rattle.word_units.specs.Filling.{IsPiece};
ghost use Rattle.word_units.specs.Parts.{low_of, high_of, storage_size, IsBoundaryIn, scalars_before};

use crate::floor::boundary_at_or_before;
use crate::scalar::scalar_at;
use crate::steps::Steps;
use crate::text::Text;
use std::sync::ledger::Ledger;

/// Writes the UTF-8 of a scalar after the first `size` bytes of a buffer, and answers how many there are then.
fn put(buf: &mut [u8; 64], size: usize, scalar: char) -> usize
    requires { size + len_utf8 scalar ≤ 64 }
    ensures bytes { take result buf.new ≡ take size buf.old ++ encode_utf8 scalar }
    ensures size { result ≡ size + len_utf8 scalar }
{
    let mut four = [0u8; 4];
    let text = scalar.encode_utf8(&mut four);
    let end = size + text.len();
    buf[size..end].copy_from_slice(text.as_bytes());
    end
}

/// Writes the UTF-8 of whole scalars from `p` on, as many as fit before `to`. Answers the bytes written and the place where they end.
fn fill<T: Text, L: Ledger>(
    t: &mut T,
    p: u64,
    to: u64,
    buf: &mut [u8; 64],
    steps: &mut Steps<L>,
) -> (usize, u64)
    requires order { p ≤ to }
    requires inside { to ≤ storage_size (T.part t.old) }
    requires boundary { IsBoundaryIn (T.part t.old) p }
    requires end_boundary { IsBoundaryIn (T.part t.old) to }
    ensures piece { IsPiece (T.part t.old) p result.1 (take result.0 buf.new) }
    ensures fits { result.0 ≤ 64 }
    ensures size { start len_utf8 (T.part t.old).whole (scalars_before (T.part t.old) p) + result.0
        ≡ start len_utf8 (T.part t.old).whole (scalars_before (T.part t.old) result.1) }
    ensures within { result.1 ≤ to }
    ensures most { result.1 < to → 64 < result.0 + len_utf8 (slice_index (T.part t.old).whole (scalars_before (T.part t.old) result.1)) }
    ensures kept { t.new ≡ t.old }
    ensures cost { steps.new ≤ steps.old + 2 * 65 }
{
    let _count = t.count();
    let mut size = 0;
    let mut at = p;
    'scalars: while at < to {
        let (scalar, width) = scalar_at(t, at, steps);
        if size + scalar.len_utf8() > 64 {
            return (size, at);
        }
        size = put(buf, size, scalar);
        at += width as u64;
    }
    (size, at)
}

/// Writes the UTF-8 of whole scalars from `p` on into the front of `buf`, as many as fit before the text's end.
///
/// Answers how many bytes it wrote, at most 64, and the place where the last scalar ends. `p` is a scalar boundary of the text, in code
/// units of the storage. At most two words a scalar are read, and those of one more.
pub fn fill_forward<T: Text, L: Ledger>(
    t: &mut T,
    p: u64,
    buf: &mut [u8; 64],
    steps: &mut Steps<L>,
) -> (usize, u64)
    requires low { low_of (T.part t.old) ≤ p }
    requires high { p ≤ high_of (T.part t.old) }
    requires boundary { IsBoundaryIn (T.part t.old) p }
    ensures piece { IsPiece (T.part t.old) p result.1 (take result.0 buf.new) }
    ensures fits { result.0 ≤ 64 }
    ensures size { start len_utf8 (T.part t.old).whole (scalars_before (T.part t.old) p) + result.0
        ≡ start len_utf8 (T.part t.old).whole (scalars_before (T.part t.old) result.1) }
    ensures within { result.1 ≤ high_of (T.part t.old) }

    // It stops only at the text's end or where the next scalar has no room.
    ensures most { result.1 < high_of (T.part t.old)
        → 64 < result.0 + len_utf8 (slice_index (T.part t.old).whole (scalars_before (T.part t.old) result.1)) }
    ensures kept { t.new ≡ t.old }
    ensures cost { steps.new ≤ steps.old + 2 * 65 }
{
    let _count = t.count();
    let _low = t.low();
    let high = t.high();
    fill(t, p, high, buf, steps)
}

/// The boundary before `p` from which on the scalars take at most 64 bytes of UTF-8, the furthest one in the text.
fn reach_back<T: Text, L: Ledger>(t: &mut T, p: u64, steps: &mut Steps<L>) -> u64
    requires low { low_of (T.part t.old) ≤ p }
    requires inside { p ≤ storage_size (T.part t.old) }
    requires boundary { IsBoundaryIn (T.part t.old) p }
    ensures within { low_of (T.part t.old) ≤ result }
    ensures order { result ≤ p }
    ensures boundary { IsBoundaryIn (T.part t.old) result }
    ensures fits { start len_utf8 (T.part t.old).whole (scalars_before (T.part t.old) p)
        ≤ start len_utf8 (T.part t.old).whole (scalars_before (T.part t.old) result) + 64 }
    ensures most { low_of (T.part t.old) < result
        → start len_utf8 (T.part t.old).whole (scalars_before (T.part t.old) result) + 64
        < start len_utf8 (T.part t.old).whole (scalars_before (T.part t.old) p)
        + len_utf8 (slice_index (T.part t.old).whole (scalars_before (T.part t.old) result - 1)) }
    ensures kept { t.new ≡ t.old }
    ensures cost { steps.new ≤ steps.old + 4 * 65 }
{
    let _count = t.count();
    let low = t.low();
    let mut size = 0;
    let mut from = p;
    'scalars: while low < from {
        let at = boundary_at_or_before(t, from - 1, steps);
        let (scalar, _) = scalar_at(t, at, steps);
        let width = scalar.len_utf8();
        if size + width > 64 {
            return from;
        }
        size += width;
        from = at;
    }
    from
}

/// Writes the UTF-8 of the last scalars before `p` into the front of `buf`, in the order of the text, as many as fit after the text's start.
///
/// Answers how many bytes it wrote, at most 64, and the place of the first scalar. `p` is a scalar boundary of the text, in code
/// units of the storage. At most six words a scalar are read, and those of one more.
pub fn fill_backward<T: Text, L: Ledger>(
    t: &mut T,
    p: u64,
    buf: &mut [u8; 64],
    steps: &mut Steps<L>,
) -> (usize, u64)
    requires low { low_of (T.part t.old) ≤ p }
    requires high { p ≤ high_of (T.part t.old) }
    requires boundary { IsBoundaryIn (T.part t.old) p }
    ensures piece { IsPiece (T.part t.old) result.1 p (take result.0 buf.new) }
    ensures fits { result.0 ≤ 64 }
    ensures size { start len_utf8 (T.part t.old).whole (scalars_before (T.part t.old) result.1) + result.0
        ≡ start len_utf8 (T.part t.old).whole (scalars_before (T.part t.old) p) }
    ensures within { low_of (T.part t.old) ≤ result.1 }

    // It stops only at the text's start or where the scalar before has no room.
    ensures most { low_of (T.part t.old) < result.1
        → 64 < result.0 + len_utf8 (slice_index (T.part t.old).whole (scalars_before (T.part t.old) result.1 - 1)) }
    ensures kept { t.new ≡ t.old }
    ensures cost { steps.new ≤ steps.old + 6 * 65 }
{
    let _count = t.count();
    let _high = t.high();
    let from = reach_back(t, p, steps);
    let (size, _) = fill(t, from, p, buf, steps);
    (size, from)
}
