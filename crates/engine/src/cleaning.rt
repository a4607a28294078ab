// The cleanup of the index.
ghost use Rattle.std.specs.Prelude.{◌≡◌, ◌↔◌, ℕ, ◌<◌, List, [], None, true, OnOk, IfOk, IfErr};
ghost use Rattle.wal.specs.Waiting.{down_of};
ghost use Rattle.page_types.specs.declared.page.Body.TheVariants as body;
ghost use Rattle.buffer_frames.specs.Passes.{IsPassOf};
ghost use Rattle.gin_place.specs.Placing.{HasRight};
ghost use Rattle.gin_place.specs.Faults.{MetNoFault, FaultBy};
ghost use Rattle.gin_cleanup.specs.Cleaning.{IsCleaning};
ghost use Rattle.engine.specs.Inner.Cleaned.{CleansThrough, AreGoneSince, EndsBy, NeverBad};

use crate::db::Db;
use crate::error::DbError;
use crate::list_end::META_PAGE;
use buffer_frames::{Frames, Pass};
use core_maintenance::placing_keeps;
use disk_trait::Disk;
use gin_cleanup::Cleanup;
use gin_place::PlaceError;
use page_types::{Body, Name, Page};
use std::alloc::Global;
use ts_vector::TsVector;

/// Steps a cleanup until no row is still linked that was linked when it began.
fn step_to_end<D: Disk>(
    alloc: Global,
    frames: &mut Frames<D>,
    pass: &mut Pass,
    cleanup: &mut Cleanup,
) -> Result<(), PlaceError>
    requires up { down_of frames.old.journal.wal ≡ None }
    requires pass { IsPassOf frames.old pass.old }
    requires right { HasRight pass.old }
    requires none { pass.old.held ≡ 0 }
    requires cleaning { (from : ℕ) × IsCleaning D.Disk frames.old pass.old from cleanup.old }
    ensures through { (kinds : List ℕ)
        × CleansThrough D.Disk frames.old pass.old frames.new pass.new kinds }
    ensures work { pass.new.work ≡ pass.old.work }
    ensures none_held { pass.new.held ≡ 0 }
    ensures gone { OnOk result ((from : ℕ) → IsCleaning D.Disk frames.old pass.old from cleanup.old
        → AreGoneSince D.Disk from frames.new) }
    ensures fine { OnOk result (MetNoFault D.Disk frames.old frames.new) }

    // The refusals: what was logged stays.
    ensures fault { IfErr result (λ e. FaultBy D.Disk frames.old frames.new e) }
    ensures cause { IfErr result (λ e. EndsBy D.Disk frames.old frames.new e) }
    ensures lawful { IfErr result (λ e. NeverBad D.Disk frames.old e) }
{
    for _ in 0..u64::MAX {
        let more = cleanup.step(alloc, frames, pass)?;
        if !more {
            return Ok(());
        }
    }
    // No log has so many records.
    Err(PlaceError::OutOfMemory)
}

/// Cleans the list that there is, by a pass that has the right of maintenance.
pub(crate) fn clean_list<D: Disk>(
    alloc: Global,
    frames: &mut Frames<D>,
    pass: &mut Pass,
) -> Result<(), PlaceError>
    requires up { down_of frames.old.journal.wal ≡ None }
    requires pass { IsPassOf frames.old pass.old }
    requires right { HasRight pass.old }
    requires none { pass.old.held ≡ 0 }
    ensures through { (kinds : List ℕ)
        × CleansThrough D.Disk frames.old pass.old frames.new pass.new kinds }
    ensures work { pass.new.work ≡ pass.old.work }
    ensures none_held { pass.new.held ≡ 0 }
    ensures gone { OnOk result (AreGoneSince D.Disk pass.old.seen frames.new) }
    ensures fine { OnOk result (MetNoFault D.Disk frames.old frames.new) }

    // The refusals: what was logged stays.
    ensures fault { IfErr result (λ e. FaultBy D.Disk frames.old frames.new e) }
    ensures cause { IfErr result (λ e. EndsBy D.Disk frames.old frames.new e) }
    ensures lawful { IfErr result (λ e. NeverBad D.Disk frames.old e) }
{
    let mut cleanup = Cleanup::begin(alloc, frames, pass)?;
    step_to_end(alloc, frames, pass, &mut cleanup)
}

/// Whether the metapage names more pages of the pending list than these.
fn names_more(meta: &Page, most: u32) -> bool
    ensures { (result ≡ true) ↔ ((first last count : ℕ)
        × (meta.now.body ≡ body.Meta first last count) × (most < count)) }
{
    match meta.body {
        Body::Meta { pages, .. } => pages > most,
        _ => false,
    }
}

impl<D: Disk> Db<D> {
    ghost use Rattle.engine.specs.Answers.{IsSession, KeepsSessions, TakesSnapshot, IsLawfulRefusal, MeetsNoBadPage};
    ghost use Rattle.engine.specs.Cleaning.{HasMoved, HasCleaned, IsListLong, CannotLook, ByItself, StoresThenTidies};
    ghost use Rattle.engine.specs.Db.{IsUp};
    ghost use Rattle.engine.specs.Going.{Goes, FaultIsTold};
    ghost use Rattle.engine.specs.Standing.{GoesOn};
    ghost use Rattle.engine.specs.Work.{storing};
    ghost use Rattle.engine.specs.Inner.Cleaned.{CleansUp};
    ghost use Rattle.engine.specs.Inner.Parts.{KeepsRoom};

    /// Moves the rows of the pending list into the trees of the index. What is refused keeps the steps that it made.
    pub fn cleanup(&mut self, pass: &mut Pass) -> Result<(), DbError>
        requires session { IsSession self.old pass.old }
        ensures session { IsSession self.new pass.new }
        ensures others { KeepsSessions self.old self.new }
        ensures moves { HasMoved D.Disk self.old self.new }
        ensures cleaned { HasCleaned D.Disk self.old self.new result }
        ensures snapshot { TakesSnapshot self.old self.new pass.old pass.new }
        ensures goes_on { GoesOn D.Disk self.old self.new }
        ensures fault { FaultIsTold D.Disk self.old self.new result }
        ensures lawful { IfErr result (λ e. MeetsNoBadPage D.Disk self.old e) }
    {
        placing_keeps();
        let cleaned = self.maintained(pass, false);
        self.frames.keeps_history();
        cleaned
    }

    /// Whether the pending list has more pages than the store's setting.
    fn is_list_long(&mut self, pass: &mut Pass) -> Result<bool, DbError>
        requires session { IsSession self.old pass.old }
        requires up { IsUp self.old }
        ensures session { IsSession self.new pass.new }
        ensures goes { Goes D.Disk self.old self.new [] }
        ensures long { IfOk result (λ b. (b ≡ true) ↔ IsListLong self.old) }
        ensures keeps { KeepsRoom pass.old pass.new }
        ensures fault { FaultIsTold D.Disk self.old self.new result }
        ensures cause { IfErr result (λ e. CannotLook self.old e) }
    {
        let meta = self.hold_page(pass, META_PAGE)?;
        let long = names_more(meta.page(), self.pending);
        self.give_back(pass, meta);
        Ok(long)
    }

    /// Cleans the pending list up where it is long.
    fn tidy_list(&mut self, pass: &mut Pass) -> Result<(), DbError>
        requires session { IsSession self.old pass.old }
        requires up { IsUp self.old }
        ensures session { IsSession self.new pass.new }
        ensures path { (kinds : List ℕ) × CleansUp D.Disk self.old self.new kinds }
        ensures by_itself { ByItself D.Disk self.old self.new result }
        ensures keeps { KeepsRoom pass.old pass.new }
        ensures fault { FaultIsTold D.Disk self.old self.new result }
    {
        let long = self.is_list_long(pass)?;
        if !long {
            return Ok(());
        }
        self.maintained(pass, false)
    }

    /// A document of this vector, in place of that of a name, where one is given: its name. After its commit
    /// the pending list is cleaned up where it is long, which the answer doesn't tell.
    pub(crate) fn store_and_tidy(
        &mut self,
        pass: &mut Pass,
        deletes: Option<Name>,
        vector: &TsVector,
    ) -> Result<Name, DbError>
        requires session { IsSession self.old pass.old }
        ensures session { IsSession self.new pass.new }
        ensures others { KeepsSessions self.old self.new }
        ensures answered { StoresThenTidies D.Disk self.old self.new pass.new
            (storing deletes vector.now) result }
        ensures snapshot { TakesSnapshot self.old self.new pass.old pass.new }
        ensures goes_on { GoesOn D.Disk self.old self.new }
        ensures lawful { IfErr result (λ e. IsLawfulRefusal D.Disk self.old (storing deletes vector.now) e) }
    {
        placing_keeps();
        let stored = self.store(pass, deletes, vector);
        self.frames.keeps_history();
        let name = stored?;
        let _ = self.tidy_list(pass);
        self.frames.keeps_history();
        Ok(name)
    }
}
