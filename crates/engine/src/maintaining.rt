// Work on the index as a whole: a cleanup, or a vacuum.
ghost use Rattle.std.specs.Prelude.{◌≡◌, ℕ, List, None, true, OnOk, IfErr};
ghost use Rattle.wal.specs.Waiting.{down_of};
ghost use Rattle.buffer_frames.specs.Passes.{IsPassOf, IsRightFree};
ghost use Rattle.gin_place.specs.Placing.{HasRight};
ghost use Rattle.gin_place.specs.Faults.{MetNoFault, FaultBy};
ghost use Rattle.engine.specs.Vacuuming.{IsIndexKind};
ghost use Rattle.engine.specs.Inner.Cleaned.{WorksThrough, AreGoneSince, NeverBad};
ghost use Rattle.engine.specs.Inner.Vacuumed.{IsVacuumed, AreKindsOf, Ends};

use crate::cleaning::clean_list;
use crate::db::Db;
use crate::error::DbError;
use crate::vacuuming::vacuum_list;
use buffer_frames::{Frames, Pass};
use core_maintenance::{placing_keeps, shift_keeps};
use disk_trait::Disk;
use gin_place::PlaceError;
use std::alloc::Global;

/// Cleans the list that there is, or takes out what is dead too, by a pass that has the right of maintenance.
fn work_on<D: Disk>(
    alloc: Global,
    frames: &mut Frames<D>,
    pass: &mut Pass,
    vacuums: bool,
) -> Result<(), PlaceError>
    requires up { down_of frames.old.journal.wal ≡ None }
    requires pass { IsPassOf frames.old pass.old }
    requires right { HasRight pass.old }
    requires all { pass.old.seen ≡ frames.old.journal.state.records }
    requires none { pass.old.held ≡ 0 }
    ensures through { (kinds : List ℕ) × AreKindsOf vacuums kinds
        × WorksThrough D.Disk IsIndexKind frames.old pass.old frames.new pass.new kinds }
    ensures work { pass.new.work ≡ pass.old.work }
    ensures none_held { pass.new.held ≡ 0 }
    ensures gone { OnOk result (AreGoneSince D.Disk pass.old.seen frames.new) }
    ensures vacuumed { vacuums ≡ true → OnOk result (IsVacuumed D.Disk frames.old frames.new) }
    ensures fine { OnOk result (MetNoFault D.Disk frames.old frames.new) }

    // The refusals: what was logged stays.
    ensures fault { IfErr result (λ e. FaultBy D.Disk frames.old frames.new e) }
    ensures cause { IfErr result (λ e. Ends D.Disk vacuums frames.old frames.new e) }
    ensures lawful { IfErr result (λ e. NeverBad D.Disk frames.old e) }
{
    if vacuums {
        vacuum_list(alloc, frames, pass)
    } else {
        clean_list(alloc, frames, pass)
    }
}

/// So it does with the right of maintenance, which nobody has before and after.
fn maintain<D: Disk>(
    alloc: Global,
    frames: &mut Frames<D>,
    pass: &mut Pass,
    vacuums: bool,
) -> Result<(), PlaceError>
    requires up { down_of frames.old.journal.wal ≡ None }
    requires pass { IsPassOf frames.old pass.old }
    requires all { pass.old.seen ≡ frames.old.journal.state.records }
    requires none { pass.old.held ≡ 0 }
    requires nobody { IsRightFree frames.old }
    ensures through { (kinds : List ℕ) × AreKindsOf vacuums kinds
        × WorksThrough D.Disk IsIndexKind frames.old pass.old frames.new pass.new kinds }
    ensures nobody { IsRightFree frames.new }
    ensures none_held { pass.new.held ≡ 0 }
    ensures gone { OnOk result (AreGoneSince D.Disk pass.old.seen frames.new) }
    ensures vacuumed { vacuums ≡ true → OnOk result (IsVacuumed D.Disk frames.old frames.new) }
    ensures fine { OnOk result (MetNoFault D.Disk frames.old frames.new) }

    // The refusals: what was logged stays.
    ensures fault { IfErr result (λ e. FaultBy D.Disk frames.old frames.new e) }
    ensures cause { IfErr result (λ e. Ends D.Disk vacuums frames.old frames.new e) }
    ensures lawful { IfErr result (λ e. NeverBad D.Disk frames.old e) }
{
    frames.claim_work(pass);
    let worked = work_on(alloc, frames, pass, vacuums);
    frames.give_back_work(pass);
    worked
}

impl<D: Disk> Db<D> {
    ghost use Rattle.engine.specs.Answers.{IsSession, TakesSnapshot, MeetsNoBadPage};
    ghost use Rattle.engine.specs.Going.{FaultIsTold};
    ghost use Rattle.engine.specs.Inner.Cleaned.{WorksUp, PinsStay};
    ghost use Rattle.engine.specs.Inner.Vacuumed.{HasMaintained};

    /// Cleans the list that there is, or takes out what is dead too, in a snapshot of its own.
    pub(crate) fn maintained(&mut self, pass: &mut Pass, vacuums: bool) -> Result<(), DbError>
        requires session { IsSession self.old pass.old }
        ensures session { IsSession self.new pass.new }
        ensures path { (kinds : List ℕ) × AreKindsOf vacuums kinds
            × WorksUp D.Disk IsIndexKind self.old self.new kinds }
        ensures answered { HasMaintained D.Disk vacuums self.old self.new result }
        ensures pinned { PinsStay self.old self.new }
        ensures snapshot { TakesSnapshot self.old self.new pass.old pass.new }
        ensures fault { FaultIsTold D.Disk self.old self.new result }
        ensures lawful { IfErr result (λ e. MeetsNoBadPage D.Disk self.old e) }
    {
        placing_keeps();
        shift_keeps();
        self.frames.pin(pass)?;
        let worked = maintain(self.alloc, &mut self.frames, pass, vacuums);
        self.frames.unpin(pass);
        Ok(worked?)
    }
}
