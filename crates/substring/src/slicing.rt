//! A slice of a value between two indices.
ghost use Rattle.std.specs.Prelude.{◌≡◌, ◌≢◌, ◌+◌, ◌≤◌, ◌⊎◌, ℕ, Some, Ok, Err, IfOk, IfErr, OnErr};
ghost use Rattle.text_spec.specs.Views.{part};
ghost use Rattle.object_words.specs.Rows.{form_of};
ghost use Rattle.object_words.specs.declared.form.Form.TheVariants.{Small};
ghost use Rattle.rounding.specs.Refusals.{boundary_of, scalar_of, IsOutOfRange};
ghost use Rattle.slot_accounts.specs.Account.{Did, Keeps};
ghost use Rattle.str_value.specs.Meaning.{own_part, OfHeap, credit_of};
ghost use Rattle.str_value.specs.Copying.{CopiedAt, NeedsMemory, copying};
ghost use Rattle.substring.specs.declared.error.SliceError.{SliceError};
ghost use Rattle.substring.specs.Slice.{text_of};
ghost use Rattle.substring.specs.Slicing.{sliced, resolving_words};

use crate::error::SliceError;
use crate::sub_value::Sub;
use index_words::Index;
use rounding::scalar_boundary;
use std::alloc::Global;
use std::sync::ledger::Ledger;
use str_value::{Str, StrPass};
use word_units::{OutOfBounds, Steps};

/// The slice of `base` from the index `a` to the index `b`, each rounded down to a scalar boundary.
///
/// It holds a copy of the base, which `Str::copy` makes, with its events; so no memory is taken where the base is Small or Literal, or
/// stands in a slot and the pass shows a credit. Refused, in this order, the base and the pass being as they were: `OutOfBounds` exactly
/// where `resolve` refuses `a` or, where it doesn't, `b`, with its numbers; `Reversed`, with both indices as they were handed in, exactly
/// where the boundary of `a` is after that of `b`; and `OutOfMemory`. At most two words are read for each index, and two more for each
/// scalar of the base where an index of the other encoding is resolved and the base isn't marked ASCII.
pub fn slice<'h, L: Ledger>(
    alloc: Global,
    base: &mut Str<'h>,
    pass: &mut StrPass<'h>,
    a: Index,
    b: Index,
    steps: &mut Steps<L>,
) -> Result<Sub<'h>, SliceError>
    requires { OfHeap pass.old base.old.place }
    ensures slice { IfOk result (λ sub. sliced base.old a b ≡ Ok (sub.low, sub.high)) }
    ensures text { IfOk result (λ sub. (i j : ℕ) → scalar_of (own_part base.old) a ≡ Some i → scalar_of (own_part base.old) b ≡ Some j
        → text_of sub ≡ part base.old.text i j) }
    ensures copied { IfOk result (λ sub. CopiedAt base.old.place pass.old base.old pass.new base.new sub.base) }
    ensures same { (base.new.text ≡ base.old.text) × (base.new.row ≡ base.old.row) × (base.new.words ≡ base.old.words) }
    ensures did { IfOk result (λ sub. Did (copying base.old.place sub.base.place) pass.old pass.new) }
    ensures credits { IfOk result (λ sub. Keeps pass.old (credit_of base.old.place) pass.new (credit_of base.new.place + credit_of sub.base.place)) }
    ensures one_heap { pass.new.heap ≡ pass.old.heap }
    ensures heap { IfOk result (λ sub. OfHeap pass.new sub.base.place) }
    ensures still { OfHeap pass.new base.new.place }

    // Refused for want of memory, or for the first cause that stands, and for that each time.
    ensures refused { IfErr result (λ e. (e ≡ SliceError.OutOfMemory) ⊎ (sliced base.old a b ≡ Err e)) }
    ensures cause { (e : SliceError) → sliced base.old a b ≡ Err e → result ≡ Err e }
    ensures free { result ≡ Err SliceError.OutOfMemory → NeedsMemory base.old.place pass.old base.old }
    ensures small_is_free { result ≡ Err SliceError.OutOfMemory → form_of base.old.row ≢ Small }
    ensures kept { OnErr result ((base.new ≡ base.old) × (pass.new ≡ pass.old)) }

    ensures cost { steps.new ≤ steps.old + resolving_words base.old a + resolving_words base.old b + 4 }
{
    let low = boundary(base, a, steps)?;
    let high = boundary(base, b, steps)?;
    if low > high {
        return Err(SliceError::Reversed { a, b });
    }
    let _form = base.form();
    let copy = base.copy(alloc, pass)?;
    Ok(Sub {
        base: copy,
        low,
        high,
    })
}

// The scalar boundary of an index, in code units of the storage.
fn boundary<L: Ledger>(
    base: &mut Str,
    index: Index,
    steps: &mut Steps<L>,
) -> Result<u64, OutOfBounds>
    ensures found { IfOk result (λ at. boundary_of (own_part base.old) index ≡ Some at) }
    ensures refused { IfErr result (IsOutOfRange (own_part base.old) index) }
    ensures kept { base.new ≡ base.old }
    ensures cost { steps.new ≤ steps.old + resolving_words base.old index + 2 }
{
    scalar_boundary(base, index, steps)
}
