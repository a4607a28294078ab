// The vacuum of the store.
ghost use Rattle.std.specs.Prelude.{◌≡◌, ◌⊎◌, ◌↔◌, ℕ, List, None, Err, true, OnOk, IfErr};
ghost use Rattle.wal.specs.Waiting.{down_of};
ghost use Rattle.buffer_frames.specs.Passes.{IsPassOf};
ghost use Rattle.gin_place.specs.Placing.{HasRight};
ghost use Rattle.gin_place.specs.Faults.{MetNoFault, FaultBy};
ghost use Rattle.gin_place.specs.declared.error.PlaceError.TheVariants.{StoreFull, LogFull, DiskFault, BadPage};
ghost use Rattle.gin_place.specs.declared.error.PlaceError.TheVariants.{OutOfMemory};
ghost use Rattle.gin_vacuum.specs.Vacuum.{AreDead, HaveDeadHeads};
ghost use Rattle.engine.specs.Vacuuming.{IsTakingOut, IsVacuum, IsIndexKind, Stops};
ghost use Rattle.engine.specs.Inner.Cleaned.{WorksThrough, AreGoneSince, NeverBad};
ghost use Rattle.engine.specs.Inner.Vacuumed.{SeesAll, AreTakenOut, LeaveLinked, IsVacuumed, EndsTaking, EndsVacuum};

use crate::cleaning::clean_list;
use crate::db::Db;
use crate::error::DbError;
use buffer_frames::{Frames, Pass};
use core_maintenance::{placing_keeps, shift_keeps};
use core_vacuum::{dead_heads_stay, vacuum_keeps};
use disk_trait::Disk;
use gin_place::PlaceError;
use gin_vacuum::{find_dead, free_slots, sweep, without_rows};
use posting_code::ItemSet;
use std::alloc::Global;

/// Takes items of dead documents out of the trees, and then these documents' chains and slots.
fn take_out<D: Disk>(
    alloc: Global,
    frames: &mut Frames<D>,
    pass: &mut Pass,
    dead: &ItemSet,
) -> Result<(), PlaceError>
    requires up { down_of frames.old.journal.wal ≡ None }
    requires pass { IsPassOf frames.old pass.old }
    requires right { HasRight pass.old }
    requires none { pass.old.held ≡ 0 }
    requires dead { AreDead D.Disk frames.old pass.old dead.now }
    ensures through { (kinds : List ℕ) × IsTakingOut kinds
        × WorksThrough D.Disk IsIndexKind frames.old pass.old frames.new pass.new kinds }
    ensures work { pass.new.work ≡ pass.old.work }
    ensures none_held { pass.new.held ≡ 0 }
    ensures out { OnOk result (AreTakenOut D.Disk pass.old.seen dead.now frames.new) }
    ensures fine { OnOk result (MetNoFault D.Disk frames.old frames.new) }

    // The refusals: what was logged stays.
    ensures fault { IfErr result (λ e. FaultBy D.Disk frames.old frames.new e) }
    ensures cause { IfErr result (λ e. EndsTaking D.Disk frames.old frames.new e) }
    ensures lawful { IfErr result (λ e. NeverBad D.Disk frames.old e) }
{
    sweep(alloc, frames, pass, dead)?;
    free_slots(alloc, frames, pass, dead)
}

/// So it does with those that have no linked row.
fn take_unlinked<D: Disk>(
    alloc: Global,
    frames: &mut Frames<D>,
    pass: &mut Pass,
    dead: &ItemSet,
) -> Result<(), PlaceError>
    requires up { down_of frames.old.journal.wal ≡ None }
    requires pass { IsPassOf frames.old pass.old }
    requires right { HasRight pass.old }
    requires none { pass.old.held ≡ 0 }
    requires whole { SeesAll D.Disk frames.old pass.old }
    requires dead { HaveDeadHeads D.Disk frames.old pass.old dead.now }
    ensures through { (kinds : List ℕ) × IsTakingOut kinds
        × WorksThrough D.Disk IsIndexKind frames.old pass.old frames.new pass.new kinds }
    ensures work { pass.new.work ≡ pass.old.work }
    ensures none_held { pass.new.held ≡ 0 }
    ensures out { OnOk result (LeaveLinked D.Disk pass.old.seen dead.now frames.new) }
    ensures fine { OnOk result (MetNoFault D.Disk frames.old frames.new) }

    // The refusals: what was logged stays.
    ensures fault { IfErr result (λ e. FaultBy D.Disk frames.old frames.new e) }
    ensures cause { IfErr result (λ e. EndsTaking D.Disk frames.old frames.new e) }
    ensures lawful { IfErr result (λ e. NeverBad D.Disk frames.old e) }
{
    vacuum_keeps();
    let unlinked = without_rows(alloc, frames, pass, dead)?;
    take_out(alloc, frames, pass, &unlinked)
}

/// Whether no page was left.
fn is_full(error: PlaceError) -> bool
    ensures { (result ≡ true) ↔ (error ≡ StoreFull) }
{
    match error {
        PlaceError::StoreFull => true,
        _ => false,
    }
}

/// That no page was left; or that since then the device failed, or memory ran out.
fn full_or_fault(taken: Result<(), PlaceError>) -> PlaceError
    ensures either { (result ≡ StoreFull) ⊎ ((result ≡ DiskFault) ⊎ (result ≡ OutOfMemory)) }
    ensures fault { (result ≡ DiskFault) ↔ (taken ≡ Err DiskFault) }
    ensures memory { (result ≡ OutOfMemory) ↔ (taken ≡ Err OutOfMemory) }
{
    match taken {
        Err(PlaceError::DiskFault) => PlaceError::DiskFault,
        Err(PlaceError::OutOfMemory) => PlaceError::OutOfMemory,
        _ => PlaceError::StoreFull,
    }
}

/// Takes out what it can where the list could not be cleaned for want of a page, which is answered; but where
/// the device fails or memory runs out, that is.
fn take_rest<D: Disk>(
    alloc: Global,
    frames: &mut Frames<D>,
    pass: &mut Pass,
    dead: &ItemSet,
) -> PlaceError
    requires up { down_of frames.old.journal.wal ≡ None }
    requires pass { IsPassOf frames.old pass.old }
    requires right { HasRight pass.old }
    requires none { pass.old.held ≡ 0 }
    requires whole { SeesAll D.Disk frames.old pass.old }
    requires dead { HaveDeadHeads D.Disk frames.old pass.old dead.now }
    ensures through { (kinds : List ℕ) × IsTakingOut kinds
        × WorksThrough D.Disk IsIndexKind frames.old pass.old frames.new pass.new kinds }
    ensures work { pass.new.work ≡ pass.old.work }
    ensures none_held { pass.new.held ≡ 0 }
    ensures either { (result ≡ StoreFull) ⊎ ((result ≡ DiskFault) ⊎ (result ≡ OutOfMemory)) }
    ensures rest { result ≡ StoreFull → Stops D.Disk frames.old frames.new LogFull
        ⊎ (((p : ℕ) × Stops D.Disk frames.old frames.new (BadPage p))
        ⊎ LeaveLinked D.Disk pass.old.seen dead.now frames.new) }
    ensures fault { FaultBy D.Disk frames.old frames.new result }
{
    let taken = take_unlinked(alloc, frames, pass, dead);
    full_or_fault(taken)
}

/// Takes out what is dead, by a pass that has the right of maintenance. What is dead is found first: so the
/// cleanup takes away each of its rows.
pub(crate) fn vacuum_list<D: Disk>(
    alloc: Global,
    frames: &mut Frames<D>,
    pass: &mut Pass,
) -> Result<(), PlaceError>
    requires up { down_of frames.old.journal.wal ≡ None }
    requires pass { IsPassOf frames.old pass.old }
    requires right { HasRight pass.old }
    requires all { pass.old.seen ≡ frames.old.journal.state.records }
    requires none { pass.old.held ≡ 0 }
    ensures through { (kinds : List ℕ) × IsVacuum kinds
        × WorksThrough D.Disk IsIndexKind frames.old pass.old frames.new pass.new kinds }
    ensures work { pass.new.work ≡ pass.old.work }
    ensures none_held { pass.new.held ≡ 0 }
    ensures gone { OnOk result (AreGoneSince D.Disk pass.old.seen frames.new) }
    ensures vacuumed { OnOk result (IsVacuumed D.Disk frames.old frames.new) }
    ensures fine { OnOk result (MetNoFault D.Disk frames.old frames.new) }

    // The refusals: what was logged stays.
    ensures fault { IfErr result (λ e. FaultBy D.Disk frames.old frames.new e) }
    ensures cause { IfErr result (λ e. EndsVacuum D.Disk frames.old frames.new e) }
    ensures lawful { IfErr result (λ e. NeverBad D.Disk frames.old e) }
{
    placing_keeps();
    shift_keeps();
    dead_heads_stay();
    vacuum_keeps();
    let dead = find_dead(alloc, frames, pass)?;
    match clean_list(alloc, frames, pass) {
        Ok(()) => take_out(alloc, frames, pass, &dead),
        Err(error) => {
            if is_full(error) {
                Err(take_rest(alloc, frames, pass, &dead))
            } else {
                Err(error)
            }
        }
    }
}

impl<D: Disk> Db<D> {
    ghost use Rattle.engine.specs.Answers.{IsSession, KeepsSessions, TakesSnapshot, MeetsNoBadPage};
    ghost use Rattle.engine.specs.Going.{FaultIsTold};
    ghost use Rattle.engine.specs.Standing.{GoesOn};
    ghost use Rattle.engine.specs.Vacuuming.{HasWorked, HasVacuumed};

    /// Moves the rows of the pending list into the trees of the index, and takes out what is dead: postings,
    /// chains and slots of documents that no snapshot in use sees. What is refused keeps the steps that it
    /// made.
    pub fn vacuum(&mut self, pass: &mut Pass) -> Result<(), DbError>
        requires session { IsSession self.old pass.old }
        ensures session { IsSession self.new pass.new }
        ensures others { KeepsSessions self.old self.new }
        ensures works { HasWorked D.Disk self.old self.new }
        ensures vacuumed { HasVacuumed D.Disk self.old self.new result }
        ensures snapshot { TakesSnapshot self.old self.new pass.old pass.new }
        ensures goes_on { GoesOn D.Disk self.old self.new }
        ensures fault { FaultIsTold D.Disk self.old self.new result }
        ensures lawful { IfErr result (λ e. MeetsNoBadPage D.Disk self.old e) }
    {
        placing_keeps();
        let vacuumed = self.maintained(pass, true);
        self.frames.keeps_history();
        vacuumed
    }
}
