// What holds of all frames and journals.
ghost use Rattle.latch_table.specs.Laying.{EmptyStoresLie};
ghost use Rattle.latch_table.specs.Appending.{StepsMayBeGiven, LooksMayBeGiven};

use crate::slots::{Framed, Journaled};

/// A table may be laid over a store without a record.
pub fn empty_stores_lie<F: Framed, J: Journaled>()
    ensures { EmptyStoresLie F.Framed J.Journaled }
{}

/// A step that a pass may log, and of which it shows what it owes, may be given back with the
/// journal: that the log stays legal is not asked.
pub fn may_give<J: Journaled>()
    ensures { StepsMayBeGiven J.Journaled }
{}

/// And so may a journal of which nothing was changed.
pub fn may_look<J: Journaled>()
    ensures { LooksMayBeGiven J.Journaled }
{}
