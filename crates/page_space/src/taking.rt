// The choice of a new page.
ghost use Rattle.std.specs.Prelude.{◌≡◌, ◌↔◌, Err, IfOk};
ghost use Rattle.core_state.specs.Changes.{IsNew};
ghost use Rattle.core_state.specs.States.{use_of};
ghost use Rattle.page_space.specs.Taking.{IsTaken, HasNoPage};
ghost use Rattle.page_space.specs.declared.error.SpaceError.TheVariants.{StoreFull};

use crate::error::SpaceError;
use core_state::State;

/// The lowest page that was deleted by a record of number `since` at most; where there is none the
/// lowest page below the number of pages that no record has changed. StoreFull exactly where there is
/// no such page either. It takes no memory.
pub fn take(state: &State, since: u64) -> Result<u32, SpaceError>
    ensures taken { IfOk result (λ p. IsTaken state.now.value since p) }
    ensures full { (result ≡ Err StoreFull) ↔ HasNoPage state.now.value since }
    ensures is_new { IfOk result (λ p. IsNew (use_of state.now.value) since p) }
{
    if let Some(page) = state.reusable(since) {
        return Ok(page);
    }
    match state.unused() {
        Some(page) => Ok(page),
        None => Err(SpaceError::StoreFull),
    }
}
