//! A value is stored under a name, and the one that the name had is given up.
ghost use Rattle.std.specs.Prelude.{◌≡◌, ◌+◌, List, OnOk, OnErr, IfSome, IsTrue, string_bytes};
ghost use Rattle.std.specs.FinMap as finite;
ghost use Rattle.slot_model.specs.declared.event.Event.{Event};
ghost use Rattle.slot_accounts.specs.Account.{Did, Keeps, sum_of};
ghost use Rattle.slot_accounts.specs.Counts.{publishes, retains};
ghost use Rattle.str_value.specs.Meaning.{OfHeap};
ghost use Rattle.query_session.specs.State.{has_room};
ghost use Rattle.query_session.specs.Values.{IsSound, texts_of, credits_in, credit_in, weight};

use crate::names::Names;
use str_value::{Str, StrPass};
use text_spec::OutOfMemory;

// A value under a name for which there is room. Where memory is wanting, which is taken for the name alone, it is lost, with its credit.
pub(crate) fn store_value<'h>(
    pass: &mut StrPass<'h>,
    names: &mut Names<'h>,
    name: String,
    value: Str<'h>,
) -> Result<(), OutOfMemory>
    requires room { IsTrue (has_room (texts_of names.old) (string_bytes name)) }
    requires sound { IsSound names.old pass.old }
    requires heap { OfHeap pass.old value.place }
    ensures stored { OnOk result (names.new ≡ finite.insert names.old (string_bytes name) value.entry) }
    ensures did { OnOk result ((es : List Event) × (sum_of publishes es ≡ 0) × Did es pass.old pass.new) }
    ensures credits { OnOk result (Keeps pass.old (credits_in names.old + credit_in value.entry) pass.new (credits_in names.new)) }
    ensures sound { OnOk result (IsSound names.new pass.new) }
    ensures one_heap { pass.new.heap ≡ pass.old.heap }
    ensures kept { OnErr result (names.new ≡ names.old) }
{
    let old = names.put(name, value)?;
    release_old(pass, old);
    Ok(())
}

// Gives up the value that a name had, if it had one.
pub(crate) fn release_old<'h>(pass: &mut StrPass<'h>, old: Option<Str<'h>>)
    requires { IfSome old (λ v. OfHeap pass.old v.place) }
    ensures did { (es : List Event) × (sum_of publishes es ≡ 0) × (sum_of retains es ≡ 0) × Did es pass.old pass.new }
    ensures credits { Keeps pass.old (weight old.entry) pass.new 0 }
{
    let Some(value) = old else {
        return;
    };
    value.release(pass);
}
