// Reading documents: searches and the names of commits.
ghost use Rattle.std.specs.Prelude.{◌≡◌, [], OnOk, IfOk, IfErr};
ghost use Rattle.gin_opclass.specs.Class.{meaning};
ghost use Rattle.ts_match.specs.Meaning.{Holds};
ghost use Rattle.ts_match.specs.Judging.{judged};
ghost use Rattle.ts_match.specs.Class.{asked_of, reads_all};
ghost use Rattle.gin_scan.specs.Scanning.{IsScanning, Scanning, IsAtEnd};
ghost use Rattle.gin_scan.specs.TextScans.{IsFor};
ghost use Rattle.gin_scan.specs.Reaching.{IsReached};

use crate::asks::FirstCommits;
use crate::commit_names::CommitNames;
use crate::db::Db;
use crate::error::DbError;
use buffer_frames::{Ask, Pass};
use disk_trait::Disk;
use gin_scan::Scan;
use page_types::Name;
use ts_query::TsQuery;

impl<D: Disk> Db<D> {
    ghost use Rattle.engine.specs.Answers.{MeetsNoBadPage};
    ghost use Rattle.engine.specs.Coming.{ComesToBadPage};
    ghost use Rattle.engine.specs.Going.{Goes, MetNoFault, FaultIsTold};
    ghost use Rattle.engine.specs.Inner.Parts.{KeepsWork};
    ghost use Rattle.buffer_frames.specs.Passes.{IsPassOf};
    ghost use Rattle.engine.specs.Db.{state_of, IsUp};
    ghost use Rattle.engine.specs.Inner.Finds.{IsReading, ReadsOn, EndsReading, FindsAll, ListsAll};
    ghost use Rattle.engine.specs.Inner.Finds.{CannotFind, CannotList};

    /// What the state of the log answers. A store that is up says it.
    fn ask<T, A: Ask<T>>(&mut self, pass: &mut Pass, ask: &A) -> Result<T, DbError>
        requires pass { IsPassOf self.old.frames pass.old }
        requires none { pass.old.held ≡ 0 }
        requires up { IsUp self.old }
        ensures reads { ReadsOn D.Disk self.old pass.old self.new pass.new }
        ensures answers { IfOk result (λ t.
            A.answers ask.now (state_of self.old) pass.new.floor pass.new.since t) }
        ensures met { MetNoFault D.Disk self.old self.new }
        ensures always { IfErr result (λ e. ⊥) }
    {
        Ok(self.frames.look(pass, ask)?)
    }

    /// Steps a scan until it is at its end.
    fn read_index(&mut self, pass: &mut Pass, scan: &mut Scan<'_>) -> Result<(), DbError>
        requires up { IsUp self.old }
        requires scanning { IsScanning self.old.frames pass.old scan.old.core }
        requires query { IsFor scan.old.query.now scan.old }
        requires walk { Scanning D.Disk (meaning asked_of reads_all Holds judged) scan.old.query.now
            self.old.frames pass.old scan.old.core }
        requires reached { IsReached (meaning asked_of reads_all Holds judged) scan.old.query.now
            self.old.frames scan.old.core scan.old.core.stage }
        ensures same { scan.new.query.now ≡ scan.old.query.now }
        ensures scanning { OnOk result (IsScanning self.new.frames pass.new scan.new.core) }
        ensures query { OnOk result (IsFor scan.new.query.now scan.new) }
        ensures walk { OnOk result (Scanning D.Disk (meaning asked_of reads_all Holds judged)
            scan.new.query.now self.new.frames pass.new scan.new.core) }
        ensures end { OnOk result (IsAtEnd scan.new.core) }
        ensures reads { ReadsOn D.Disk self.old pass.old self.new pass.new }
        ensures fault { FaultIsTold D.Disk self.old self.new result }

        // The refusals.
        ensures cause { IfErr result (λ e. CannotFind D.Disk self.old e) }
        ensures way { IfErr result (λ e. ComesToBadPage D.Disk self.old scan.old.query.now e) }
        ensures lawful { IfErr result (λ e. MeetsNoBadPage D.Disk self.old e) }
    {
        let alloc = self.alloc;
        while scan.step(alloc, &mut self.frames, pass)? {}
        Ok(())
    }

    /// The names of those documents of the snapshot that satisfy the query, by serial.
    pub(crate) fn find(
        &mut self,
        pass: &mut Pass,
        query: &TsQuery,
        commits: u32,
    ) -> Result<Vec<Name>, DbError>
        requires reading { IsReading self.old pass.old commits }
        requires up { IsUp self.old }
        ensures reads { EndsReading D.Disk self.old pass.old self.new pass.new }
        ensures found { IfOk result (λ names. FindsAll D.Disk self.old commits
            (Holds query.now) names.items) }
        ensures fault { FaultIsTold D.Disk self.old self.new result }

        // The refusals.
        ensures cause { IfErr result (λ e. CannotFind D.Disk self.old e) }
        ensures way { IfErr result (λ e. ComesToBadPage D.Disk self.old query.now e) }
        ensures lawful { IfErr result (λ e. MeetsNoBadPage D.Disk self.old e) }
    {
        let mut scan = Scan::within(self.alloc, &mut self.frames, pass, query, commits)?;
        match self.read_index(pass, &mut scan) {
            Ok(()) => Ok(scan.finish(&mut self.frames, pass).names),
            Err(refusal) => {
                scan.drop_scan(&mut self.frames, pass);
                Err(refusal)
            }
        }
    }

    /// The names of the first commits.
    pub(crate) fn list(
        &mut self,
        pass: &mut Pass,
        commits: u32,
    ) -> Result<Vec<CommitNames>, DbError>
        requires reading { IsReading self.old pass.old commits }
        requires up { IsUp self.old }
        ensures reading { IsReading self.new pass.new commits }
        ensures listed { IfOk result (λ names. ListsAll D.Disk self.old commits names.items) }
        ensures goes { Goes D.Disk self.old self.new [] }
        ensures keeps { KeepsWork pass.old pass.new }
        ensures fault { FaultIsTold D.Disk self.old self.new result }

        // The refusals.
        ensures cause { IfErr result (λ e. CannotList e) }
    {
        let alloc = self.alloc;
        let listed = self.ask(pass, &FirstCommits { alloc, commits })?;
        let names = listed?;
        Ok(names)
    }
}
