//! Edits in place, each with the account of its events.
ghost use Rattle.std.specs.Prelude.{◌≡◌, ◌+◌, ◌-◌, ◌/◌, ◌<◌, ◌≤◌, [], length, true, false, IsSome, IfSome, IfNone, List};
ghost use Rattle.slot_model.specs.declared.event.Event.{Event};
ghost use Rattle.slot_accounts.specs.Account.{Did};
ghost use Rattle.slot_edits.specs.Parts.{Fits, IsPart, new_count, spliced};
ghost use Rattle.slot_edits.specs.Texts.{IsText, IsObjectOf, Edited};
ghost use Rattle.slot_edits.specs.Writes.{AllWrites};
ghost use Rattle.slot_edits.specs.Edits.{WritesInPlace, IsReadied, IsShared, asking, detaching, readied};

use crate::part::Part;
use crate::splicing::splice;
use object_words::Object;
use slot_accounts::{ask_sole, detach};
use slot_model::Attach;
use slot_table::{Pass, Ref};

/// Whether a reference is its slot's only one, which is asked unless it is known.
fn is_alone<'h, A: Attach>(pass: &mut Pass<'h, A>, reference: Ref<'h, A>) -> (Ref<'h, A>, bool)
    requires heap { reference.heap ≡ pass.old.heap }
    requires clean { reference.places ≡ [] }
    ensures heap { pass.new.heap ≡ pass.old.heap }
    ensures did { Did (asking reference.entry.slot reference.entry.sole result.1) pass.old pass.new }
    ensures credits { pass.new.credits ≡ pass.old.credits }
    ensures kept { result.0 ≡ record reference.entry { front = result.0.front; sole = result.1 } }
    ensures known { reference.entry.sole ≡ true → result.1 ≡ true }
{
    if reference.known_sole() {
        return (reference, true);
    }
    ask_sole(pass, reference)
}

/// Takes the side of a sole reference's slot away, unless there is known to be none.
fn strip<'h, A: Attach>(pass: &mut Pass<'h, A>, reference: Ref<'h, A>) -> (Ref<'h, A>, Option<u32>)
    requires heap { reference.heap ≡ pass.old.heap }
    requires clean { reference.places ≡ [] }
    requires sole { reference.sole ≡ true }
    ensures heap { pass.new.heap ≡ pass.old.heap }
    ensures did { Did (detaching reference.entry.slot reference.entry.bare result.1) pass.old pass.new }
    ensures credits { pass.new.credits ≡ pass.old.credits }
    ensures reference { result.0 ≡ readied reference.entry result.0 reference.entry.known }
{
    if reference.bare() {
        return (reference, None);
    }
    let mut reference = reference;
    let found = detach(pass, &mut reference);
    (reference, found)
}

/// Readies a reference for edits in place: it is its slot's only one then, and there is no side. Whether it is.
///
/// The events are a Sole, unless the reference is known to be alone, and a Detach, unless there is known to be no side. Where there is
/// another reference the Sole alone, and nothing else is changed. `pass` is of the same heap. It needs no spendable credit. No memory.
pub fn ready<'h, A: Attach>(pass: &mut Pass<'h, A>, reference: Ref<'h, A>) -> (Ref<'h, A>, bool)
    requires heap { reference.heap ≡ pass.old.heap }
    requires clean { reference.places ≡ [] }
    ensures heap { pass.new.heap ≡ pass.old.heap }
    ensures same_heap { result.0.heap ≡ pass.new.heap }
    ensures readied { result.1 ≡ true → IsReadied pass.old reference.entry pass.new result.0 }
    ensures shared { result.1 ≡ false → IsShared pass.old reference.entry pass.new result.0 }
    ensures credits { pass.new.credits ≡ pass.old.credits }
    ensures known { reference.entry.sole ≡ true → result.1 ≡ true }
{
    let (reference, alone) = is_alone(pass, reference);
    if !alone {
        return (reference, false);
    }
    let (reference, _found) = strip(pass, reference);
    (reference, true)
}

/// Writes the new text in place, between two meetings.
fn write_spliced<'h, A: Attach>(
    pass: &mut Pass<'h, A>,
    reference: Ref<'h, A>,
    part: Part,
    with: &[u8],
    marked: bool,
) -> (Ref<'h, A>, Object)
    requires heap { reference.heap ≡ pass.old.heap }
    requires clean { reference.places ≡ [] }
    requires bare { reference.bare ≡ true }
    requires part { IsPart reference.known part with.now }
    requires text { IsText reference.known part.count marked }
    requires fits { Fits (new_count part with.now) pass.old.heap.layout.capacity_words }
    requires most { length reference.known ≤ pass.old.heap.layout.capacity_words }
    ensures heap { pass.new.heap ≡ pass.old.heap }
    ensures did { (writes : List Event) × AllWrites reference.entry.slot writes × (0 < length writes)
        × (length writes ≤ (length (spliced reference.entry.known part with.now) + 7) / 8 - part.low / 8 + 1) × Did writes pass.old pass.new }
    ensures credits { pass.new.credits ≡ pass.old.credits }
    ensures edited { Edited reference.entry.known part with.now result.0.known }
    ensures object { IsObjectOf (spliced reference.entry.known part with.now) reference.entry.slot result.1 }
    ensures most { length result.0.known ≤ pass.old.heap.layout.capacity_words }
    ensures reference { result.0 ≡ record reference.entry { front = result.0.front; places = []; known = result.0.known } }
{
    let _ = pass.capacity_words();
    let mut reference = pass.meet(reference);
    let object = splice(&mut reference, part, with, marked);
    (pass.meet(reference), object)
}

/// Puts bytes in place of a part of the text where the reference is its slot's only one: the two words of the value then. `None` where
/// there is another reference, and nothing is changed then.
///
/// The events are a Sole, unless the reference is known to be alone, a Detach, unless there is known to be no side, and Writes: words of
/// the new text from the part's first word on, and the count word. Where there is another reference the Sole alone. `marked` says
/// whether the old text is ASCII. The new text fits the slot with its count word: its bytes and 8 are at most 8 times the heap's
/// `capacity_words`. `pass` is of the same heap. It needs no spendable credit. No memory.
pub fn replace_in_place<'h, A: Attach>(
    pass: &mut Pass<'h, A>,
    reference: Ref<'h, A>,
    part: Part,
    with: &[u8],
    marked: bool,
) -> (Ref<'h, A>, Option<Object>)
    requires heap { reference.heap ≡ pass.old.heap }
    requires clean { reference.places ≡ [] }
    requires part { IsPart reference.known part with.now }
    requires text { IsText reference.known part.count marked }
    requires fits { Fits (new_count part with.now) pass.old.heap.layout.capacity_words }
    requires most { length reference.known ≤ pass.old.heap.layout.capacity_words }
    ensures heap { pass.new.heap ≡ pass.old.heap }
    ensures same_heap { result.0.heap ≡ pass.new.heap }
    ensures written { IfSome result.1 (λ _. WritesInPlace pass.old reference.entry part with.now pass.new result.0) }
    ensures object { IfSome result.1 (IsObjectOf (spliced reference.entry.known part with.now) reference.entry.slot) }
    ensures shared { IfNone result.1 (IsShared pass.old reference.entry pass.new result.0) }
    ensures credits { pass.new.credits ≡ pass.old.credits }
    ensures known { reference.entry.sole ≡ true → IsSome result.1 }
{
    let (reference, alone) = ready(pass, reference);
    if !alone {
        return (reference, None);
    }
    let (reference, object) = write_spliced(pass, reference, part, with, marked);
    (reference, Some(object))
}
