//! What readers ask of legal histories, each as the contract of a function that does nothing. The statements stand in
//! `specs/Laws.antt`, one line over each.

ghost use Rattle.slot_model.specs.Laws.{FrontIsLegal, EachEventApplies, IdleIsNeverRead, IdleAgainByDetach, CountIsGivenLessTaken, HeldHasReference, WriteIsSole, SideByInstall, InstallFits, OthersStay, OtherIsItsSide, SidesArePaired};

use crate::attach::Attach;

/// A front of a legal history is legal.
pub fn front_is_legal<A: Attach>()
    ensures { FrontIsLegal A.fits }
{}

/// A history is legal exactly where each of its events applies to the heap after those before it.
pub fn each_event_applies<A: Attach>()
    ensures { EachEventApplies A.fits }
{}

/// The only event on an idle slot is a Publish: no other reads it, asks it or changes it.
pub fn idle_is_never_read<A: Attach>()
    ensures { IdleIsNeverRead A.fits }
{}

/// A slot that isn't idle becomes so by a Detach alone: by its own, or by that of the slot whose side it is.
pub fn idle_again_by_detach<A: Attach>()
    ensures { IdleAgainByDetach A.fits }
{}

/// The count of a slot is the number of its references given, by Publish and Retain, less those taken, by Release.
pub fn count_is_given_less_taken<A: Attach>()
    ensures { CountIsGivenLessTaken A.fits }
{}

/// A slot is held exactly where its count isn't 0.
pub fn held_has_reference<A: Attach>()
    ensures { HeldHasReference A.fits }
{}

/// A Write is made on a slot with one reference and without a side.
pub fn write_is_sole<A: Attach>()
    ensures { WriteIsSole A.fits }
{}

/// A slot gets a side by an Install that found none, and by nothing else.
pub fn side_by_install<A: Attach>()
    ensures { SideByInstall A.fits }
{}

/// The words of each Install fit those of its slot.
pub fn install_fits<A: Attach>()
    ensures { InstallFits A.fits }
{}

/// An event changes no slot but its own, and the one that becomes its side or is given back as such.
pub fn others_stay<A: Attach>()
    ensures { OthersStay A.fits }
{}

/// The other slot that an event changes is the side of the event's own slot: after an Install, and before a Detach.
pub fn other_is_its_side<A: Attach>()
    ensures { OtherIsItsSide A.fits }
{}

/// Slots and their sides belong together: the side of a slot is a side of that slot, and a side is the side that its
/// slot has.
pub fn sides_are_paired<A: Attach>()
    ensures { SidesArePaired A.fits }
{}
