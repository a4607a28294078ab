// A transaction: its beginning and its end.
ghost use Rattle.std.specs.Prelude.{◌≡◌, ◌↔◌, ℕ, ◌<◌, [], ◌∷◌, length, true, Some, None, IfOk, IfErr, IfSome, IsErrOf};
ghost use Rattle.std.specs.Prelude.{OnOk, OnErr, ⊤};
ghost use Rattle.page_types.specs.declared.record.Record.{Record};
ghost use Rattle.page_types.specs.declared.record.Kind.TheVariants as kinds;

use crate::asks::IsListed;
use crate::db::Db;
use crate::error::DbError;
use buffer_frames::{Pass, Step, counted_are_one};
use disk_trait::Disk;
use page_types::{Kind, Name};

/// A transaction that runs: how many commits its snapshot has, and its xid.
#[derive(Clone, Copy)]
pub struct Transaction {
    pub snapshot: u32,
    pub xid: u32,
}

impl<D: Disk> Db<D> {
    ghost use Rattle.core_state.specs.History.{Commit};
    ghost use Rattle.buffer_frames.specs.Drawing.{value_by};
    ghost use Rattle.buffer_frames.specs.Passes.{IsPassOf, IsLogged, Seen, view_of, xid_after};
    ghost use Rattle.engine.specs.Answers.{IsResting, TakesSnapshot};
    ghost use Rattle.engine.specs.Causes.{IsListedIn, IsListed as IsListedNow, AreXidsSpent, IsDown};
    ghost use Rattle.engine.specs.Db.{state_of, state_then, flushed_of, IsUp, IsFlushed};
    ghost use Rattle.engine.specs.Work.{IsBeginOf, IsCommitOf};
    ghost use Rattle.engine.specs.Going.{LogsNothing, LogsOne, Goes, MetNoFault, FaultIsTold};
    ghost use Rattle.engine.specs.Inner.Parts.{Runs, IsRunning, HasChanged, CannotBegin, GivesUp, TellsRefusal};
    ghost use Rattle.engine.specs.Inner.Parts.{IsNotEnded, EndsAs, KeepsWork, KeepsRoom, no_changes};
    ghost use Rattle.engine.specs.Inner.Plain.{plain_step, plain_record, MayBePlain, CannotLog, IsThereOf, CannotStart};
    ghost use Rattle.engine.specs.declared.error.DbError.TheVariants.{XidsSpent, DiskFault, Down};

    /// Whether a document of this name is in the snapshot of so many commits.
    pub(crate) fn is_there(
        &mut self,
        pass: &mut Pass,
        name: Name,
        commits: u32,
    ) -> Result<bool, DbError>
        requires { IsPassOf self.old.frames pass.old }
        ensures pass { IsPassOf self.new.frames pass.new }
        ensures there { IfOk result (λ b. (b ≡ true) ↔ IsListedIn (state_of self.old) commits name) }
        ensures goes { Goes D.Disk self.old self.new [] }
        ensures keeps { KeepsWork pass.old pass.new × (pass.new.held ≡ pass.old.held) }
        ensures error { IfErr result (λ e. (f : ℕ) × (e ≡ Down f) × IsDown self.old f) }
        ensures fault { MetNoFault D.Disk self.old self.new }
    {
        Ok(self.frames.look(pass, &IsListed { name, commits })?)
    }

    /// Logs a record that leaves no page: the number that it draws.
    fn log_plain(&mut self, pass: &mut Pass, kind: Kind, xid: u32) -> Result<u64, DbError>
        requires pass { IsPassOf self.old.frames pass.old }
        requires held { pass.old.held ≡ 0 }
        requires may { MayBePlain D.Disk self.old pass.old kind xid }
        ensures pass { IsPassOf self.new.frames pass.new }
        ensures held { pass.new.held ≡ 0 }
        ensures pin { pass.new.pin ≡ pass.old.pin }
        ensures keeps { KeepsRoom pass.old pass.new }
        ensures logged { OnOk result
            (LogsOne D.Disk self.old self.new (plain_record self.old kind xid)) }
        ensures drawn { IfOk result (λ n. n ≡ value_by (state_then self.old) kind) }
        ensures xid { IfOk result (λ n. pass.new.xid ≡ xid_after kind n pass.old.xid) }
        ensures seen { OnOk result (Seen D.Disk self.new.frames pass.new
            (λ S P. IsLogged (view_of self.new.frames pass.old S []) (plain_step kind xid) S P)) }
        ensures all { OnOk result (pass.new.seen ≡ (state_of self.new).records) }
        ensures fault { FaultIsTold D.Disk self.old self.new result }

        // The refusals: it is not logged.
        ensures refused { OnErr result (LogsNothing D.Disk self.old self.new) }
        ensures same_xid { OnErr result (pass.new.xid ≡ pass.old.xid) }
        ensures runs { OnErr result ((x : ℕ) → pass.old.xid ≡ Some x
            → Runs D.Disk self.old pass.old x → Runs D.Disk self.new pass.new x) }
        ensures cause { IfErr result (λ e. CannotLog self.old kind xid e) }
        ensures spent { IsUp self.old → kind ≡ kinds.Begin → AreXidsSpent self.old
            → IsErrOf result XidsSpent }
    {
        let step = Step::new(self.alloc, kind, xid);
        let drawn = self.frames.log_step(pass, Vec::new(self.alloc), step)?;
        Ok(drawn.value)
    }

    /// Refuses where the document that is to be deleted is not in the snapshot.
    fn must_be_there(
        &mut self,
        pass: &mut Pass,
        deletes: Option<Name>,
        commits: u32,
    ) -> Result<(), DbError>
        requires { IsPassOf self.old.frames pass.old }
        ensures pass { IsPassOf self.new.frames pass.new }
        ensures there { OnOk result (IsThereOf self.old commits deletes) }
        ensures goes { Goes D.Disk self.old self.new [] }
        ensures keeps { KeepsWork pass.old pass.new × (pass.new.held ≡ pass.old.held) }
        ensures fault { MetNoFault D.Disk self.old self.new }
        ensures cause { IfErr result (λ e. CannotStart D.Disk self.old commits deletes e) }
        ensures told { IsErrOf result DiskFault → ⊥ }
    {
        let Some(name) = deletes else {
            return Ok(());
        };
        if self.is_there(pass, name, commits)? {
            Ok(())
        } else {
            Err(DbError::NoDocument)
        }
    }

    /// The xid of a transaction that begins, where the document that it is to delete is in the snapshot.
    fn start(
        &mut self,
        pass: &mut Pass,
        deletes: Option<Name>,
        commits: u32,
    ) -> Result<u32, DbError>
        requires pass { IsPassOf self.old.frames pass.old }
        requires held { pass.old.held ≡ 0 }
        requires xid { pass.old.xid ≡ None }
        ensures pass { IsPassOf self.new.frames pass.new }
        ensures held { pass.new.held ≡ 0 }
        ensures pin { pass.new.pin ≡ pass.old.pin }
        ensures keeps { KeepsRoom pass.old pass.new }
        ensures begun { IfOk result (λ x. (0 < x) × ((b : Record) × IsBeginOf x b
            × Goes D.Disk self.old self.new (b ∷ []))) }
        ensures may { OnOk result ((AreXidsSpent self.old → ⊥)
            × IsThereOf self.old commits deletes) }
        ensures xid { IfOk result (λ x. pass.new.xid ≡ Some x) }
        ensures changed { IfOk result (λ x. HasChanged D.Disk self.new pass.new x no_changes) }
        ensures fault { FaultIsTold D.Disk self.old self.new result }

        // The refusals: nothing has begun.
        ensures refused { OnErr result (Goes D.Disk self.old self.new []) }
        ensures same_xid { OnErr result (pass.new.xid ≡ None) }
        ensures cause { IfErr result (λ e. CannotStart D.Disk self.old commits deletes e) }
    {
        counted_are_one();
        self.must_be_there(pass, deletes, commits)?;
        self.log_plain(pass, Kind::Begin, 0)?;
        Ok(pass.xid().unwrap_or(0))
    }

    /// Begins: takes a snapshot into use, and begins a transaction.
    pub(crate) fn begin(
        &mut self,
        pass: &mut Pass,
        deletes: Option<Name>,
    ) -> Result<Transaction, DbError>
        requires { IsResting self.old pass.old }
        ensures running { IfOk result (λ t. IsRunning D.Disk self.new pass.new t) }
        ensures snapshot { IfOk result (λ t. t.snapshot ≡ flushed_of self.old) }
        ensures begun { IfOk result (λ t. (b : Record) × IsBeginOf t.xid b
            × Goes D.Disk self.old self.new (b ∷ [])) }
        ensures may { OnOk result (IsUp self.old × (AreXidsSpent self.old → ⊥)
            × IfSome deletes (λ n. IsListedNow self.old n)) }
        ensures changed { IfOk result (λ t. HasChanged D.Disk self.new pass.new t.xid no_changes) }
        ensures takes { TakesSnapshot self.old self.new pass.old pass.new }
        ensures fault { FaultIsTold D.Disk self.old self.new result }

        // The refusals: nothing has begun.
        ensures refused { OnErr result
            (IsResting self.new pass.new × Goes D.Disk self.old self.new []) }
        ensures cause { IfErr result (λ e. CannotBegin D.Disk self.old self.new deletes e) }
    {
        let snapshot = self.frames.pin(pass)?;
        match self.start(pass, deletes, snapshot) {
            Ok(xid) => Ok(Transaction { snapshot, xid }),
            Err(error) => {
                self.frames.unpin(pass);
                Err(error)
            }
        }
    }

    /// Aborts a transaction whose statement is refused so. Where the device has failed, or the Abort is
    /// refused, it runs until the next opening. The answer of the statement: this refusal, or that the
    /// device failed or memory ran out as the Abort was logged.
    fn abort(&mut self, pass: &mut Pass, work: Transaction, refusal: DbError) -> DbError
        requires { IsRunning D.Disk self.old pass.old work }
        ensures pass { IsPassOf self.new.frames pass.new }
        ensures xid { pass.new.xid ≡ None }
        ensures held { pass.new.held ≡ 0 }
        ensures gone { GivesUp D.Disk self.old self.new work.xid result }
        ensures keeps { KeepsRoom pass.old pass.new }
        ensures fault { TellsRefusal D.Disk self.old self.new refusal result }
    {
        if let DbError::DiskFault = refusal {
            pass.give_up();
            return refusal;
        }
        match self.log_plain(pass, Kind::Abort, work.xid) {
            Ok(_) => refusal,
            Err(error) => {
                pass.give_up();
                match error {
                    DbError::DiskFault => error,
                    DbError::OutOfMemory => error,
                    _ => refusal,
                }
            }
        }
    }

    /// Gives up a transaction whose statement is refused so: aborts it, and gives up its snapshot. The
    /// answer of the statement.
    pub(crate) fn give_up(
        &mut self,
        pass: &mut Pass,
        work: Transaction,
        refusal: DbError,
    ) -> DbError
        requires { IsRunning D.Disk self.old pass.old work }
        ensures session { IsResting self.new pass.new }
        ensures gone { GivesUp D.Disk self.old self.new work.xid result }
        ensures keeps { KeepsRoom pass.old pass.new }
        ensures fault { TellsRefusal D.Disk self.old self.new refusal result }
    {
        let answer = self.abort(pass, work, refusal);
        self.frames.unpin(pass);
        answer
    }

    /// Flushes the log, and gives up the snapshot of a pass whose transaction has ended.
    fn settle(&mut self, pass: &mut Pass) -> Result<(), DbError>
        requires pass { IsPassOf self.old.frames pass.old }
        requires idle { (pass.old.held ≡ 0) × (pass.old.xid ≡ None) }
        requires up { IsUp self.old }
        ensures session { IsResting self.new pass.new }
        ensures flushed { OnOk result (IsUp self.new × IsFlushed self.new
            × (flushed_of self.new ≡ length (state_of self.new).deleted)
            × (pass.new.shown ≡ flushed_of self.new)) }
        ensures goes { Goes D.Disk self.old self.new [] }
        ensures keeps { KeepsRoom pass.old pass.new }
        ensures fault { FaultIsTold D.Disk self.old self.new result }

        // The refusal.
        ensures cause { IfErr result (λ e. e ≡ DiskFault) }
    {
        let flushed = self.frames.flush_log(pass);
        self.frames.unpin(pass);
        Ok(flushed?)
    }

    /// Ends: commits the transaction, flushes the log, and gives up the snapshot.
    pub(crate) fn end(&mut self, pass: &mut Pass, work: Transaction) -> Result<(), DbError>
        requires running { IsRunning D.Disk self.old pass.old work }
        requires up { IsUp self.old }
        requires changed { (c : Commit) × HasChanged D.Disk self.old pass.old work.xid c }
        ensures session { IsResting self.new pass.new }
        ensures ended { OnOk result ((e : Record) × IsCommitOf work.xid e
            × Goes D.Disk self.old self.new (e ∷ [])) }
        ensures flushed { OnOk result (IsUp self.new × IsFlushed self.new
            × (flushed_of self.new ≡ length (state_of self.new).deleted)
            × (pass.new.shown ≡ flushed_of self.new)) }
        ensures keeps { KeepsRoom pass.old pass.new }
        ensures fault { FaultIsTold D.Disk self.old self.new result }

        // The refusals: it was given up, or the device failed as its Commit was flushed.
        ensures refused { IfErr result (λ e. IsNotEnded D.Disk self.old self.new work.xid e) }
    {
        match self.log_plain(pass, Kind::Commit { commit: 0 }, work.xid) {
            Ok(_) => self.settle(pass),
            Err(error) => Err(self.give_up(pass, work, error)),
        }
    }

    /// Ends a transaction that has done its work, and gives up one whose work was refused.
    pub(crate) fn finish<T: Drop>(
        &mut self,
        pass: &mut Pass,
        work: Transaction,
        done: Result<T, DbError>,
    ) -> Result<T, DbError>
        requires running { IsRunning D.Disk self.old pass.old work }
        requires up { OnOk done (IsUp self.old) }
        requires changed { OnOk done ((c : Commit) × HasChanged D.Disk self.old pass.old work.xid c) }
        ensures session { IsResting self.new pass.new }
        ensures keeps { KeepsRoom pass.old pass.new }
        ensures ended { EndsAs D.Disk self.old self.new pass.new work.xid done result }
    {
        match done {
            Ok(answer) => {
                self.end(pass, work)?;
                Ok(answer)
            }
            Err(refusal) => Err(self.give_up(pass, work, refusal)),
        }
    }
}
