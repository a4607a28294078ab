// The vacuum of a device: what is dead leaves the trees, and then its chains and its slot go.
ghost use Rattle.index_cases.specs.Working.{Works};

use crate::cleaning::clean;
use crate::pages::Silent;
use buffer_frames::{Frames, Pass};
use gin_place::PlaceError;
use gin_vacuum::{find_dead, free_slots, sweep, without_rows};
use posting_code::ItemSet;
use std::alloc::Global;
use std::result;

/// Takes dead items out of the trees, and then the chains and slots of their documents.
fn take_out(
    alloc: Global,
    frames: &mut Frames<Silent>,
    pass: &mut Pass,
    dead: &ItemSet,
) -> result::Result<(), PlaceError>
    requires working { Works frames.old pass.old 16 }
    ensures working { Works frames.new pass.new 16 }
{
    sweep(alloc, frames, pass, dead)?;
    free_slots(alloc, frames, pass, dead)
}

/// The same with those that have no linked row.
fn take_unlinked(
    alloc: Global,
    frames: &mut Frames<Silent>,
    pass: &mut Pass,
    dead: &ItemSet,
) -> result::Result<(), PlaceError>
    requires working { Works frames.old pass.old 16 }
    ensures working { Works frames.new pass.new 16 }
{
    let unlinked = without_rows(alloc, frames, pass, dead)?;
    take_out(alloc, frames, pass, &unlinked)
}

/// Takes out what is dead, by a pass that has the right of maintenance; where the pending list finds no page, what has
/// no row there.
pub(crate) fn vacuum(
    alloc: Global,
    frames: &mut Frames<Silent>,
    pass: &mut Pass,
) -> result::Result<(), PlaceError>
    requires working { Works frames.old pass.old 16 }
    ensures working { Works frames.new pass.new 16 }
{
    let dead = find_dead(alloc, frames, pass)?;
    match clean(alloc, frames, pass) {
        Ok(()) => take_out(alloc, frames, pass, &dead),
        Err(PlaceError::StoreFull) => {
            take_unlinked(alloc, frames, pass, &dead)?;
            Err(PlaceError::StoreFull)
        }
        Err(error) => Err(error),
    }
}
