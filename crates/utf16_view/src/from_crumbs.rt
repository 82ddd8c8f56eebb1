//! Questions about offsets that start from a breadcrumb.
ghost use Rattle.std.specs.Prelude.{◌≡◌, ◌+◌, ◌<◌, ◌≤◌, true, false, Some, IfOk, IfErr};
ghost use Rattle.rounding.specs.Resolving.{reads_other};
ghost use Rattle.crumbs.specs.Searching.{words_to_unit, FewFromCrumb, MostFromCrumb, LeastFromCrumb};
ghost use Rattle.text_spec.specs.declared.encoding.Encoding.TheVariants.{Utf8, Utf16};
ghost use Rattle.rounding.specs.Refusals.{IsOutOfRange};
ghost use Rattle.rounding.specs.Elements.{IsIndexOf, IsPastCount};
ghost use Rattle.unit_views.specs.declared.kind.ElementKind.TheVariants.{Units};
ghost use Rattle.unit_views.specs.Elements.{element_offset, elements_of};

use index_words::Index;
use rounding::bounds;
use std::sync::ledger::Ledger;
use word_units::{OutOfBounds, Steps, Text};

/// Whether a question about an offset starts from a breadcrumb: where they are known, and the text isn't marked ASCII, so that no
/// word has to be read at all.
pub(crate) fn has_crumbs<T: Text>(t: &T) -> bool
    ensures some { result ≡ true → (T.knows_crumbs t.now ≡ true) × (1 ≤ T.STRIDE) × (T.marked_ascii t.now ≡ false) }
    ensures storage { result ≡ true → (T.part t.now).storage ≡ Utf8 }
    ensures none { result ≡ false → T.knows_crumbs t.now ≡ true → 1 ≤ T.STRIDE → T.marked_ascii t.now ≡ true }
{
    t.crumbs_known() && t.stride() > 0 && !t.ascii()
}

/// Whether an index is read as an offset in UTF-16 in UTF-8 storage: it is marked for UTF-16 alone.
pub(crate) fn is_offset(i: Index) -> bool
    ensures { result ≡ reads_other Utf8 i }
{
    i.is_utf16() && !i.is_utf8()
}

/// The index of the code unit with an offset, by a walk from the breadcrumb before it.
pub(crate) fn index_from_crumb<T: Text, L: Ledger>(
    t: &mut T,
    offset: u64,
    steps: &mut Steps<L>,
) -> Result<Index, OutOfBounds>
    requires known { T.knows_crumbs t.old ≡ true }
    requires some { 1 ≤ T.STRIDE }
    ensures index { IfOk result (IsIndexOf (elements_of (Units Utf16) (T.part t.old)) offset) }
    ensures refused { IfErr result (IsPastCount (elements_of (Units Utf16) (T.part t.old)) offset) }
    ensures kept { t.new ≡ t.old }
    ensures cost { IfOk result (λ r. steps.new ≡ steps.old + words_to_unit (T.part t.old).whole T.STRIDE offset) }
    ensures few { steps.new ≤ steps.old + T.STRIDE + 2 }
    ensures short { IfErr result (λ out. steps.new ≡ steps.old + 1) }
{
    let _known = t.crumbs_known();
    match crumbs::index_of_offset(t, offset, steps) {
        Ok(index) => Ok(index),
        Err(out) => Err(out),
    }
}

/// The offset of the code unit that an index is rounded down to, by a walk from the breadcrumb before it.
pub(crate) fn offset_from_crumb<T: Text, L: Ledger>(
    t: &mut T,
    i: Index,
    steps: &mut Steps<L>,
) -> Result<u64, OutOfBounds>
    requires known { T.knows_crumbs t.old ≡ true }
    requires some { 1 ≤ T.STRIDE }
    requires own { reads_other Utf8 i ≡ false }
    ensures offset { IfOk result (λ offset. element_offset (Units Utf16) (T.part t.old) i ≡ Some offset) }
    ensures refused { IfErr result (IsOutOfRange (T.part t.old) i) }
    ensures kept { t.new ≡ t.old }
    ensures cost { MostFromCrumb (T.part t.old).whole T.STRIDE i steps.old steps.new }
    ensures counted { IfOk result (λ offset. LeastFromCrumb (T.part t.old).whole T.STRIDE i steps.old steps.new) }
    ensures few { FewFromCrumb (T.part t.old).whole T.STRIDE steps.old steps.new }
{
    let _known = t.crumbs_known();
    let position = i.position();
    let (low, high) = bounds(t);
    if high < position {
        return Err(OutOfBounds {
            position,
            low,
            high,
        });
    }
    Ok(crumbs::offset_of_index(t, i, steps))
}
