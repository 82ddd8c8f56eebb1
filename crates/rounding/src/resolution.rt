//! An index read on a text.
ghost use Rattle.std.specs.Prelude.{◌≡◌, ◌+◌, ◌*◌, ◌≤◌, ◌<◌, true, false, Some, None, IfOk, IfErr, length};
ghost use Rattle.text_spec.specs.Offsets.{start};
ghost use Rattle.text_spec.specs.Views.{other_width};
ghost use Rattle.index_words.specs.Fields.{position_of};
ghost use Rattle.word_units.specs.Parts.{low_of, high_of, IsBoundaryIn, scalars_before};
ghost use Rattle.rounding.specs.Refusals.{IsOutOfRange, boundary_of, scalar_of};
ghost use Rattle.rounding.specs.Resolving as resolving;

use crate::place::{bounds, index_from};
use crate::walk::{boundary_of, units_before};
use index_words::Index;
use std::sync::ledger::Ledger;
use text_spec::Encoding;
use word_units::{OutOfBounds, Steps, Text, boundary_at_or_before};

/// Whether an index is marked for the encoding that isn't the storage's, and for it alone.
fn reads_other(encoding: Encoding, i: Index) -> bool
    ensures { result ≡ resolving.reads_other encoding i }
{
    match encoding {
        Encoding::Utf8 => i.is_utf16() && !i.is_utf8(),
        Encoding::Utf16 => i.is_utf8() && !i.is_utf16(),
    }
}

/// The index of a position in code units of the storage.
fn resolve_own<T: Text>(t: &T, i: Index) -> Result<Index, OutOfBounds>
    ensures found { IfOk result (λ index. resolving.own_place (T.part t.now) i
        ≡ Some (resolving.index_place index)) }
    ensures word { IfOk result (λ index. index ≡ resolving.index_known (T.part t.now) false (resolving.index_place index)) }
    ensures refused { IfErr result (λ out. resolving.own_place (T.part t.now) i ≡ None) }
    ensures carries { IfErr result (λ out. out ≡ record {
      position = position_of i;
      low = low_of (T.part t.now);
      high = high_of (T.part t.now);
    }) }
{
    let position = i.position();
    let (low, high) = bounds(t);
    if position < low {
        return Err(OutOfBounds {
            position,
            low,
            high,
        });
    }
    if high < position {
        return Err(OutOfBounds {
            position,
            low,
            high,
        });
    }
    Ok(Index::new(position, i.transcoded(), t.encoding()))
}

/// The index of an offset in the encoding that isn't the storage's, in a text marked ASCII: it is the position in the storage's.
fn resolve_ascii<T: Text>(t: &T, offset: u64) -> Result<Index, OutOfBounds>
    requires { T.marked_ascii t.now ≡ true }
    ensures found { IfOk result (λ index. resolving.other_place (T.part t.now) offset
        ≡ Some (resolving.index_place index)) }
    ensures word { IfOk result (λ index. index ≡ resolving.index_known (T.part t.now) true (resolving.index_place index)) }
    ensures refused { IfErr result (λ out. resolving.other_place (T.part t.now) offset ≡ None) }
    ensures carries { IfErr result (λ out. out ≡ record {
      position = offset;
      low = start (other_width (T.part t.now).storage) (T.part t.now).whole (T.part t.now).first;
      high = start (other_width (T.part t.now).storage) (T.part t.now).whole (T.part t.now).end;
    }) }
    ensures resolved { IfOk result (resolving.IsResolved (T.part t.now)) }
{
    let _ascii = t.ascii();
    let _low = t.low();
    let _high = t.high();
    let (low, high) = bounds(t);
    if offset < low {
        return Err(OutOfBounds {
            position: offset,
            low,
            high,
        });
    }
    if high < offset {
        return Err(OutOfBounds {
            position: offset,
            low,
            high,
        });
    }
    Ok(index_from(t.encoding(), offset, 0))
}

/// The index of an offset in the encoding that isn't the storage's.
fn resolve_other<T: Text, L: Ledger>(
    t: &mut T,
    offset: u64,
    steps: &mut Steps<L>,
) -> Result<Index, OutOfBounds>
    ensures found { IfOk result (λ index. resolving.other_place (T.part t.old) offset
        ≡ Some (resolving.index_place index)) }
    ensures word { IfOk result (λ index. index ≡ resolving.index_known (T.part t.old) true (resolving.index_place index)) }
    ensures refused { IfErr result (λ out. resolving.other_place (T.part t.old) offset ≡ None) }
    ensures carries { IfErr result (λ out. out ≡ record {
      position = offset;
      low = start (other_width (T.part t.old).storage) (T.part t.old).whole (T.part t.old).first;
      high = start (other_width (T.part t.old).storage) (T.part t.old).whole (T.part t.old).end;
    }) }
    ensures resolved { IfOk result (resolving.IsResolved (T.part t.old)) }
    ensures kept { t.new ≡ t.old }
    ensures cost { steps.new ≤ steps.old + 2 * length (T.part t.old).whole }
    ensures unread { T.marked_ascii t.old ≡ true → steps.new ≡ steps.old }
{
    let encoding = t.encoding();
    let (from, to) = bounds(t);
    if t.ascii() {
        return resolve_ascii(t, offset);
    }
    let low = units_before(t, 0, 0, from, steps);
    if offset < low {
        let high = units_before(t, from, low, to, steps);
        return Err(OutOfBounds {
            position: offset,
            low,
            high,
        });
    }
    let (at, reached) = boundary_of(t, from, low, to, offset, steps);
    if at == to {
        if reached < offset {
            return Err(OutOfBounds {
                position: offset,
                low,
                high: reached,
            });
        }
        return Ok(index_from(encoding, at, 0));
    }
    Ok(index_from(encoding, at, (offset - reached) as u32))
}

/// The index that `i` stands for on this text: marked for the storage's encoding alone, with no stride and no Character mark.
///
/// An index that is marked for the other encoding alone has its position read as an offset in that encoding, and its
/// transcoded offset dropped; the answer is scalar aligned where it is a boundary. Each other index is read in code units
/// of the storage, and the answer is not scalar aligned. Offsets are those of the storage's whole text.
///
/// Refused exactly where the position lies before the text or past its end, with the three numbers in the unit that the
/// index is read in. An index read in code units of the storage reads no word, another at most two for each scalar of the storage.
/// Where the text is marked ASCII no word is read.
pub fn resolve<T: Text, L: Ledger>(
    t: &mut T,
    i: Index,
    steps: &mut Steps<L>,
) -> Result<Index, OutOfBounds>
    ensures found { IfOk result (λ index. resolving.resolved (T.part t.old) i
        ≡ Some (resolving.index_place index)) }
    ensures word { IfOk result (λ index. index
        ≡ resolving.index_known (T.part t.old) (resolving.reads_other (T.part t.old).storage i) (resolving.index_place index)) }
    ensures refused { IfErr result (IsOutOfRange (T.part t.old) i) }

    // What the floors and the views ask of an index.
    ensures resolved { IfOk result (resolving.IsResolved (T.part t.old)) }
    ensures kept { t.new ≡ t.old }
    ensures cost { steps.new ≤ steps.old + 2 * length (T.part t.old).whole }
    ensures free { resolving.reads_other (T.part t.old).storage i ≡ false → steps.new ≡ steps.old }
    ensures unread { T.marked_ascii t.old ≡ true → steps.new ≡ steps.old }
{
    if reads_other(t.encoding(), i) {
        return resolve_other(t, i.position(), steps);
    }
    resolve_own(t, i)
}

/// The scalar boundary that an index is rounded down to, in code units of the storage.
///
/// Refused as `resolve` refuses the index, and for nothing else. Two words at most are read beside those that resolving reads.
pub fn scalar_boundary<T: Text, L: Ledger>(
    t: &mut T,
    i: Index,
    steps: &mut Steps<L>,
) -> Result<u64, OutOfBounds>
    ensures found { IfOk result (λ at. boundary_of (T.part t.old) i ≡ Some at) }
    ensures number { IfOk result (λ at. scalar_of (T.part t.old) i ≡ Some (scalars_before (T.part t.old) at)) }
    ensures boundary { IfOk result (IsBoundaryIn (T.part t.old)) }
    ensures low { IfOk result (λ at. low_of (T.part t.old) ≤ at) }
    ensures high { IfOk result (λ at. at ≤ high_of (T.part t.old)) }
    ensures refused { IfErr result (IsOutOfRange (T.part t.old) i) }
    ensures kept { t.new ≡ t.old }
    ensures cost { steps.new ≤ steps.old + 2 * length (T.part t.old).whole + 2 }
    ensures near { resolving.reads_other (T.part t.old).storage i ≡ false → steps.new ≤ steps.old + 2 }
    ensures ascii { T.marked_ascii t.old ≡ true → steps.new ≤ steps.old + 2 }
{
    let (_low, _high) = bounds(t);
    let index = resolve(t, i, steps)?;
    Ok(boundary_at_or_before(t, index.position(), steps))
}
