//! Calls of the heap by a pass and a reference without places, with their accounts.
ghost use Rattle.std.specs.Prelude.{◌≡◌, ℕ, ◌<◌, ◌↔◌, [], ◌∷◌, length, Option, Some, None, true, false, IsTrue, IsNone, IfNone, IfSome};
ghost use Rattle.slot_model.specs.declared.event.Event.TheVariants.{Publish, Retain, Sole, Look, Install, Detach};
ghost use Rattle.slot_table.specs.Outcomes.{found_by};
ghost use Rattle.slot_table.specs.Owners.{PassSeen, offered_side};
ghost use Rattle.slot_table.specs.declared.side.Installed.TheVariants.{Won, Lost};
ghost use Rattle.slot_accounts.specs.Account.{Did, Keeps, Shows, IsDrawn, new_reference, giving_up};

use slot_model::Attach;
use slot_table::{Draft, Installed, Pass, Ref};

/// A draft of a free slot, with a credit. Refused exactly where the pass shows no slot or no credit. One load, no event.
pub fn draw<'h, A: Attach>(pass: &mut Pass<'h, A>) -> Option<Draft<'h, A>>
    ensures heap { pass.new.heap ≡ pass.old.heap }
    ensures same_heap { IfSome result (λ d. d.heap ≡ pass.new.heap) }
    ensures none { IsNone result ↔ (Shows pass.old → ⊥) }
    ensures kept { IfNone result (pass.new ≡ pass.old) }
    ensures shows { IfSome result (λ _. Shows pass.old) }
    ensures drawn { IfSome result (λ d. IsDrawn pass.old pass.new d) }
    ensures empty { IfSome result (λ d. d.written ≡ []) }
{
    pass.draft()
}

/// The reference of a slot that is published with the draft's words, at least one. Makes the event Publish.
pub fn publish<'h, A: Attach>(pass: &mut Pass<'h, A>, draft: Draft<'h, A>) -> Ref<'h, A>
    requires heap { draft.heap ≡ pass.old.heap }
    requires words { 0 < length draft.written }
    ensures heap { pass.new.heap ≡ pass.old.heap }
    ensures same_heap { result.heap ≡ pass.new.heap }
    ensures reference { result ≡ new_reference pass.old.heap pass.new.front draft.entry.slot draft.entry.written }

    // From the pass p that the draft was cut from.
    ensures did { (p : PassSeen) → IsDrawn p pass.old draft.entry → Did (Publish draft.entry.slot draft.entry.written ∷ []) p pass.new }
    ensures credits { (p : PassSeen) → IsDrawn p pass.old draft.entry → Keeps p 0 pass.new 1 }
{
    pass.meet(draft.publish())
}

/// A second reference of the slot. Makes the event Retain; none, and no event, exactly where the pass shows no credit.
pub fn share<'h, A: Attach>(
    pass: &mut Pass<'h, A>,
    reference: Ref<'h, A>,
) -> (Ref<'h, A>, Option<Ref<'h, A>>)
    requires heap { reference.heap ≡ pass.old.heap }
    requires clean { reference.places ≡ [] }
    ensures heap { pass.new.heap ≡ pass.old.heap }
    ensures same_heap { result.0.heap ≡ pass.new.heap }
    ensures others_heap { IfSome result.1 (λ s. s.heap ≡ pass.new.heap) }
    ensures none { IsNone result.1 ↔ (pass.old.credits ≡ 1) }
    ensures kept { IfNone result.1 ((result.0 ≡ reference.entry) × (pass.new ≡ pass.old)) }
    ensures did { IfSome result.1 (λ s. Did (Retain reference.entry.slot ∷ []) pass.old pass.new) }
    ensures credits { IfSome result.1 (λ s. Keeps pass.old 1 pass.new 2) }
    ensures one { IfSome result.1 (λ s. result.0 ≡ record reference.entry { front = pass.new.front; places = []; sole = false; bare = false }) }
    ensures other { IfSome result.1 (λ s. s ≡ record reference.entry { front = s.front; places = []; sole = false; bare = false }) }
{
    let mut reference = reference;
    match reference.retain(pass) {
        Some(second) => {
            let reference = pass.meet(reference);
            (reference, Some(second))
        }
        None => (reference, None),
    }
}

/// Whether the reference is its slot's only one, which it knows from then on. Makes the event Sole.
pub fn ask_sole<'h, A: Attach>(pass: &mut Pass<'h, A>, reference: Ref<'h, A>) -> (Ref<'h, A>, bool)
    requires heap { reference.heap ≡ pass.old.heap }
    requires clean { reference.places ≡ [] }
    ensures heap { pass.new.heap ≡ pass.old.heap }
    ensures same_heap { result.0.heap ≡ pass.new.heap }
    ensures did { Did (Sole reference.entry.slot result.1 ∷ []) pass.old pass.new }
    ensures rest { pass.new ≡ record pass.old { front = pass.new.front; places = pass.new.places } }
    ensures known { (reference.entry.sole ≡ true) → IsTrue result.1 }
    ensures reference { result.0 ≡ record reference.entry { front = pass.new.front; places = []; sole = result.1 } }
{
    let mut reference = pass.meet(reference);
    let alone = reference.sole();
    (pass.meet(reference), alone)
}

/// The number of the slot's side, which the reference knows from then on, with its words. Makes the event Look.
pub fn look<'h, A: Attach>(
    pass: &mut Pass<'h, A>,
    reference: Ref<'h, A>,
) -> (Ref<'h, A>, Option<u32>)
    requires heap { reference.heap ≡ pass.old.heap }
    requires clean { reference.places ≡ [] }
    ensures heap { pass.new.heap ≡ pass.old.heap }
    ensures same_heap { result.0.heap ≡ pass.new.heap }
    ensures did { Did (Look reference.entry.slot result.1 ∷ []) pass.old pass.new }
    ensures rest { pass.new ≡ record pass.old { front = pass.new.front; places = pass.new.places } }
    ensures bare { (reference.entry.bare ≡ true) → IsNone result.1 }
    ensures fits { IfSome result.1 (λ _. A.fits result.0.known result.0.side_words) }
    ensures none { IfNone result.1 (result.0.side_words ≡ []) }
    ensures agrees { IfSome reference.entry.side (λ d. (result.1 ≡ Some d) × (result.0.side_words ≡ reference.entry.side_words)) }
    ensures reference { result.0 ≡ record reference.entry { front = pass.new.front; places = []; side = result.1; side_words = result.0.side_words } }
{
    let mut reference = pass.meet(reference);
    let found = reference.look();
    (pass.meet(reference), found)
}

/// Offers a draft as the slot's side. Makes the event Install; the reference knows the slot's side from then on.
///
/// The draft's words fit those of the slot.
pub fn attach<'h, A: Attach>(
    pass: &mut Pass<'h, A>,
    reference: Ref<'h, A>,
    draft: Draft<'h, A>,
) -> (Ref<'h, A>, Installed)
    requires heap { reference.heap ≡ pass.old.heap }
    requires clean { reference.places ≡ [] }
    requires draft { draft.heap ≡ pass.old.heap }
    requires fits { A.fits reference.known draft.written }
    ensures heap { pass.new.heap ≡ pass.old.heap }
    ensures same_heap { result.0.heap ≡ pass.new.heap }
    ensures bare { (reference.entry.bare ≡ true) → (result.1 ≡ Won) }
    ensures fits { A.fits result.0.known result.0.side_words }
    ensures won { (result.1 ≡ Won) → (result.0.side_words ≡ draft.entry.written) }
    ensures agrees { IfSome reference.entry.side (λ d. (result.1 ≡ Lost d) × (result.0.side_words ≡ reference.entry.side_words)) }
    ensures reference { result.0 ≡ record reference.entry { front = pass.new.front; places = []; bare = false; side = Some (offered_side draft.entry.slot (found_by result.1)); side_words = result.0.side_words } }

    // From the pass p that the draft was cut from.
    ensures did { (p : PassSeen) → IsDrawn p pass.old draft.entry → Did (Install reference.entry.slot draft.entry.slot draft.entry.written (found_by result.1) ∷ []) p pass.new }
    ensures credits { (p : PassSeen) → IsDrawn p pass.old draft.entry → pass.new.credits ≡ p.credits }
{
    let mut reference = reference;
    let how = reference.install(draft, pass);
    (pass.meet(reference), how)
}

/// The slot of a sole reference loses its side, whose slot comes to the pass. Makes the event Detach.
pub fn detach<'h, A: Attach>(pass: &mut Pass<'h, A>, reference: &mut Ref<'h, A>) -> Option<u32>
    requires heap { pass.old.heap ≡ reference.old.heap }
    requires clean { reference.old.places ≡ [] }
    requires sole { reference.old.sole ≡ true }
    ensures heap { pass.new.heap ≡ pass.old.heap }
    ensures same_heap { reference.new.heap ≡ pass.new.heap }
    ensures did { Did (Detach reference.old.slot result ∷ []) pass.old pass.new }
    ensures credits { pass.new.credits ≡ pass.old.credits }
    ensures bare { (reference.old.bare ≡ true) → IsNone result }
    ensures agrees { IfSome reference.old.side (λ d. result ≡ Some d) }
    ensures reference { reference.new ≡ record reference.old { front = pass.new.front; places = []; bare = true; side = None; side_words = [] } }
{
    reference.detach(pass)
}

/// Gives the reference up, and answers whether it was its slot's last. Makes the event Release and, where it was, the event Detach.
pub fn let_go<'h, A: Attach>(pass: &mut Pass<'h, A>, reference: Ref<'h, A>) -> bool
    requires heap { reference.heap ≡ pass.old.heap }
    requires clean { reference.places ≡ [] }
    ensures heap { pass.new.heap ≡ pass.old.heap }
    ensures did { (found : Option ℕ) × Did (giving_up reference.entry.slot result found) pass.old pass.new }
    ensures credits { Keeps pass.old 1 pass.new 0 }
    ensures known { (reference.entry.sole ≡ true) → IsTrue result }
{
    let reference = pass.meet(reference);
    reference.release(pass)
}
