//! What each kind of step on the table tells its seat, and how views are cut and joined. No value of these types is made.
ghost use Rattle.slot_table.specs.ReferenceSteps.{Retains, Asks, Writes, paid, half, other_half, Reads, Releases, GivesBack};
ghost use Rattle.slot_table.specs.LiteralSteps.{Recites, literally};
ghost use Rattle.slot_table.specs.SideSteps.{Looks, SideReads, Installs, Detaches, armed, unarmed, change};
ghost use Rattle.slot_table.specs.PassSteps.{without_credit, credit, Tells, Concludes, Plans, without_draft, drafted, without_share, share, joined, beside, met_share, met_reference};
ghost use Rattle.slot_table.specs.DraftSteps.{Publishes, Drafts};
ghost use Rattle.slot_table.specs.Views.{spent};

use crate::view::SeatView;
use atomic_table::{Join, Play, Split};
use slot_model::Attach;
use std::marker::PhantomData;

/// A draft becomes a reference: a store of 1 into its slot's reference word.
pub(crate) struct Publishing<A>(PhantomData<A>);

impl<A: Attach> Play<u64, SeatView> for Publishing<A> {
    ghost then = { Publishes A.fits };
}

/// A word is appended to a draft: a store into a data word of its slot.
pub(crate) struct Drafting;

impl Play<u64, SeatView> for Drafting {
    ghost then = { Drafts };
}

/// A reference reads a data word of its slot.
pub(crate) struct Reading;

impl Play<u64, SeatView> for Reading {
    ghost then = { Reads };
}

/// What two joined seats knew were beginnings of one history: a load of word 0.
pub(crate) struct Telling;

impl Play<u64, SeatView> for Telling {
    ghost then = { Tells };
}

/// A reference is given up: 1 is taken from its slot's reference word.
pub(crate) struct Releasing<A>(PhantomData<A>);

impl<A: Attach> Play<u64, SeatView> for Releasing<A> {
    ghost then = { Releases A.fits };
}

/// A closing slot comes back, with its side's: the word that shows the side is exchanged for 0.
pub(crate) struct GivingBack<A>(PhantomData<A>);

impl<A: Attach> Play<u64, SeatView> for GivingBack<A> {
    ghost then = { GivesBack A.fits };
}

/// A seat with all credits knows the whole history: a load of word 0.
pub(crate) struct Concluding<A>(PhantomData<A>);

impl<A: Attach> Play<u64, SeatView> for Concluding<A> {
    ghost then = { Concludes A.fits };
}

/// How much the next cut takes is told by the operands of a compare and exchange on word 0, which never succeeds.
pub(crate) struct Planning;

impl Play<u64, SeatView> for Planning {
    ghost then = { Plans };
}

/// A draft is cut from a pass.
pub(crate) struct Drafted;

impl Split<SeatView> for Drafted {
    ghost left = { without_draft };

    ghost right = { drafted };
}

/// A pass is cut from a pass, as planned.
pub(crate) struct Cut;

impl Split<SeatView> for Cut {
    ghost left = { without_share };

    ghost right = { share };
}

/// A share or a draft is joined into a pass.
pub(crate) struct Merged;

impl Join<SeatView> for Merged {
    ghost both = { joined };

    ghost spent = { spent };
}

/// A reference is joined into a pass, to be parted from it again.
pub(crate) struct Met;

impl Join<SeatView> for Met {
    ghost both = { beside };

    ghost spent = { spent };
}

/// A pass and a reference that were joined are parted.
pub(crate) struct Parted;

impl Split<SeatView> for Parted {
    ghost left = { met_share };

    ghost right = { met_reference };
}

/// One credit is cut from a pass.
pub(crate) struct OneCredit;

impl Split<SeatView> for OneCredit {
    ghost left = { without_credit };

    ghost right = { credit };
}

/// A credit is joined into a reference.
pub(crate) struct Paid;

impl Join<SeatView> for Paid {
    ghost both = { paid };

    ghost spent = { spent };
}

/// A second reference is given: 1 is added to the slot's reference word.
pub(crate) struct Retaining<A>(PhantomData<A>);

impl<A: Attach> Play<u64, SeatView> for Retaining<A> {
    ghost then = { Retains A.fits };
}

/// A reference that counts twice is cut in two.
pub(crate) struct Halved;

impl Split<SeatView> for Halved {
    ghost left = { half };

    ghost right = { other_half };
}

/// A reference asks whether it is the only one: a load of its slot's reference word.
pub(crate) struct Asking<A>(PhantomData<A>);

impl<A: Attach> Play<u64, SeatView> for Asking<A> {
    ghost then = { Asks A.fits };
}

/// A bare reference stores into a data word of its slot.
pub(crate) struct Writing<A>(PhantomData<A>);

impl<A: Attach> Play<u64, SeatView> for Writing<A> {
    ghost then = { Writes A.fits };
}

/// A literal is cut from a seat, which stays as it is.
pub(crate) struct Literally;

impl Split<SeatView> for Literally {
    ghost left = { λ v. v };

    ghost right = { literally };
}

/// A literal reads a word of the literals' rows.
pub(crate) struct Reciting;

impl Play<u64, SeatView> for Reciting {
    ghost then = { Recites };
}

/// A reference asks for its slot's side: a load of the word that shows it.
pub(crate) struct Looking<A>(PhantomData<A>);

impl<A: Attach> Play<u64, SeatView> for Looking<A> {
    ghost then = { Looks A.fits };
}

/// A reference reads a data word of its known side.
pub(crate) struct SideReading;

impl Play<u64, SeatView> for SideReading {
    ghost then = { SideReads };
}

/// A draft is joined into a reference.
pub(crate) struct Armed;

impl Join<SeatView> for Armed {
    ghost both = { armed };

    ghost spent = { spent };
}

/// A draft is offered as the slot's side: a compare and exchange of the word that shows it, from 0.
pub(crate) struct Installing<A>(PhantomData<A>);

impl<A: Attach> Play<u64, SeatView> for Installing<A> {
    ghost then = { Installs A.fits };
}

/// All but the reference and its credit is cut off.
pub(crate) struct Change;

impl Split<SeatView> for Change {
    ghost left = { unarmed };

    ghost right = { change };
}

/// A sole reference takes its slot's side away: the word that shows it is exchanged for 0.
pub(crate) struct Detaching<A>(PhantomData<A>);

impl<A: Attach> Play<u64, SeatView> for Detaching<A> {
    ghost then = { Detaches A.fits };
}
