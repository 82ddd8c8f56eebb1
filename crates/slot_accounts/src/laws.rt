//! What accounts say together. Each law is the contract of a function with an empty body.
ghost use Rattle.slot_accounts.specs.Laws.{DidThen, MadeThen, DidIsMade, MadeBeside, StrungOne, StrungThen, EventsBetween, NewPlaces, NoOtherPlaces, WholeHistory, Counted, PublishedInOrder, CompleteBefore, TwoSlotsAPublish, SlotsLeft};

use slot_model::Attach;

/// Two calls one after the other did what the first did and then what the second did. Callers cite `Did-then`, `Made-then`, `Made-of`.
pub fn calls_compose()
    ensures did { DidThen }
    ensures made { MadeThen }
    ensures did_is_made { DidIsMade }
{}

/// What a reference makes of its own between two meetings with a pass is what the pass did, as the words that it writes.
/// Callers cite `Strung-one`, `Strung-then`, `Did-strung`.
pub fn events_between_meetings_are_the_passes<A: Attach>()
    ensures one { StrungOne A.fits }
    ensures then { StrungThen }
    ensures did { EventsBetween }
{}

/// Two owners of one pass's shares made what each of them made. Callers cite `beside`.
pub fn shares_work_beside_each_other()
    ensures { MadeBeside }
{}

/// A call's events stand at the places that its pass has since, and at no others. Callers cite `new_are`, `new_only`.
pub fn new_places_are_the_calls()
    ensures new { NewPlaces }
    ensures no_other { NoOtherPlaces }
{}

/// Where a pass of a fresh heap has every place of the history, its own events are the history. Callers cite `whole_history`, `counted_whole`.
pub fn own_events_are_the_history()
    ensures whole { WholeHistory }
    ensures counted { Counted }
{}

/// Words that were published in order stand in the history in that order. Callers cite `published_in_order`.
pub fn words_are_published_in_order()
    ensures { PublishedInOrder }
{}

/// Who has every place at the end had every place at each moment before. Callers cite `complete_before`.
pub fn complete_at_the_end_is_complete_before()
    ensures { CompleteBefore }
{}

/// A slot that is published takes at most one more, for its side, so slots that are left can be counted from the Publish events alone.
/// Callers cite `two_a_publish`, `slots_left`.
pub fn two_slots_a_publish<A: Attach>()
    ensures taken { TwoSlotsAPublish A.fits }
    ensures left { SlotsLeft A.fits }
{}
