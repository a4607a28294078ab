// What a pass says that it changed while it had the journal.
ghost use Rattle.latch_table.specs.Giving.{unchanged};

use crate::states::PassState;

/// A kind of change, which says what it is, from the pass before and the journal as it is given
/// back.
pub trait Changes<J> {
    ghost use Rattle.latch_table.specs.Giving.{Given};
    ghost use Rattle.latch_table.specs.declared.states.PassState.{PassState};

    ghost change: { PassState J → J → Given };
}

/// Nothing was changed.
pub struct Looked;

impl<J> Changes<J> for Looked {
    ghost change = { λ v b. unchanged v };
}
