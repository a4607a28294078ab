// What each kind of step says.
ghost use Rattle.latch_table.specs.PassStates.{with_less_room, split_off, joined, spent};
ghost use Rattle.latch_table.specs.Told.{claimed, claimed_journal, claimed_work, gave_back, gave_work, looked, opened};
ghost use Rattle.latch_table.specs.Giving.{gave_journal};

use crate::attempts::Attempt;
use crate::changes::Changes;
use crate::slots::{Framed, Journaled, Slot};
use crate::states::PassState;
use atomic_table::{Join, Play, Split};
use std::marker::PhantomData;

/// A claim of a frame.
pub(crate) struct Claim<A> {
    of: PhantomData<A>,
}

impl<F: Framed, J: Journaled, A: Attempt> Play<Slot<F, J>, PassState<J>> for Claim<A> {
    ghost then = { claimed F.Framed J.Journaled A.notes };
}

/// A claim of the journal.
pub(crate) struct ClaimJournal;

impl<F, J: Journaled> Play<Slot<F, J>, PassState<J>> for ClaimJournal {
    ghost then = { claimed_journal J.Journaled };
}

/// The give back of a frame.
pub(crate) struct GiveBack;

impl<F, J> Play<Slot<F, J>, PassState<J>> for GiveBack {
    ghost then = { gave_back };
}

/// The journal is given back, with changes of this kind.
pub(crate) struct GiveJournal<C> {
    of: PhantomData<C>,
}

impl<F, J: Journaled, C: Changes<J>> Play<Slot<F, J>, PassState<J>> for GiveJournal<C> {
    ghost then = { gave_journal J.Journaled C.change };
}

/// A claim of the right of maintenance.
pub(crate) struct ClaimWork<A> {
    of: PhantomData<A>,
}

impl<F, J: Journaled, A: Attempt> Play<Slot<F, J>, PassState<J>> for ClaimWork<A> {
    ghost then = { claimed_work J.Journaled A.notes };
}

/// The right is given back.
pub(crate) struct GiveWork;

impl<F, J> Play<Slot<F, J>, PassState<J>> for GiveWork {
    ghost then = { gave_work };
}

/// A second pass.
pub(crate) struct Cut;

impl<J> Split<PassState<J>> for Cut {
    ghost left = { with_less_room };

    ghost right = { split_off };
}

/// A pass takes in another.
pub(crate) struct Glue;

impl<J> Join<PassState<J>> for Glue {
    ghost both = { joined };

    ghost spent = { spent };
}

/// A look at what it has met.
pub(crate) struct Look;

impl<F, J> Play<Slot<F, J>, PassState<J>> for Look {
    ghost then = { looked };
}

/// The first look of the first pass.
pub(crate) struct Open;

impl<F, J: Journaled> Play<Slot<F, J>, PassState<J>> for Open {
    ghost then = { opened J.Journaled };
}
