// The rule of the table, by what frames and journal say of themselves.
use crate::slots::{Framed, Journaled, Slot};
use crate::states::PassState;
use atomic_table::{Seat, Shared, Table, TableRule};
use std::alloc::Global;
use std::marker::PhantomData;
use std::snapshot::Snapshot;

/// The rule of the table, whose key is the journal at the opening.
pub struct LatchRule<F, J> {
    of: PhantomData<(F, J)>,
}

impl<F: Framed, J: Journaled> TableRule<Slot<F, J>, PassState<J>, Snapshot<J>> for LatchRule<F, J> {
    ghost use Rattle.latch_table.specs.Rule.{Kept};
    ghost use Rattle.latch_table.specs.PassStates.{first_state};

    ghost holds = { λ key. Kept F.Framed J.Journaled key.value };

    ghost first = { λ key. first_state key };
}

/// The words and slots, as all passes share them.
pub type Latches<F, J> = Shared<Slot<F, J>, PassState<J>, Snapshot<J>, LatchRule<F, J>>;

/// The seat of a pass.
pub type Place<F, J> = Seat<Slot<F, J>, PassState<J>>;

/// The words and slots with their memory.
pub(crate) type Base<F, J> = Table<Slot<F, J>, PassState<J>, Snapshot<J>, LatchRule<F, J>, Global>;
