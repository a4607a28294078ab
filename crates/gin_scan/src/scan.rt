// A scan for a text query.
ghost use Rattle.std.specs.Prelude.{◌≡◌, ◌↔◌, ℕ, ◌+◌, ◌<◌, ◌≤◌, true, false, None, Some, IfOk, IfErr, OnOk, OnErr};
ghost use Rattle.core_state.specs.Log.{Log};
ghost use Rattle.core_state.specs.Legal.{Pin};
ghost use Rattle.buffer_frames.specs.Frames.{Behind};
ghost use Rattle.buffer_frames.specs.LogCauses.{HoldHasCause};
ghost use Rattle.buffer_frames.specs.Passes.{IsPassOf, HasPinned, pin_in};
ghost use Rattle.gin_opclass.specs.Class.{meaning};
ghost use Rattle.ts_match.specs.Meaning.{Holds};
ghost use Rattle.ts_match.specs.Judging.{judged};
ghost use Rattle.ts_match.specs.Class.{asked_of, reads_all};
ghost use Rattle.gin_scan.specs.Calls.{BeginsReading, ReadsOn, EndsReading};
ghost use Rattle.gin_scan.specs.Causes.{CannotStep, CannotBegin, IsLawfulRefusal};
ghost use Rattle.gin_scan.specs.Counting.{IsCounted, CountsOn};
ghost use Rattle.gin_scan.specs.Finding.{HasFound};
ghost use Rattle.gin_scan.specs.Reaching.{IsReached};
ghost use Rattle.gin_scan.specs.Scanning.{IsScanning, Scanning, IsAtEnd, steps_left};

use crate::check::TextCheck;
use crate::found::Found;
use crate::scan_core::ScanCore;
use buffer_frames::{FrameError, Frames, Pass};
use disk_trait::Disk;
use std::alloc::Global;
use ts_match::{MatchWork, query_keys, text_class};
use ts_query::TsQuery;

/// A scan for a text query.
#[derive(Drop)]
pub struct Scan<'q> {
    pub(crate) core: ScanCore,
    pub(crate) query: &'q TsQuery,
    pub(crate) work: MatchWork,
}

impl<'q> Scan<'q> {
    ghost use Rattle.gin_scan.specs.TextScans.{IsFor};

    /// Takes a snapshot into use, and begins a scan for a query in it.
    pub fn begin<D: Disk>(
        alloc: Global,
        frames: &mut Frames<D>,
        pass: &mut Pass,
        query: &'q TsQuery,
    ) -> Result<Scan<'q>, FrameError>
        requires pass { IsPassOf frames.old pass.old }
        requires none { pass.old.pin ≡ None }
        requires held { pass.old.held ≡ 0 }
        ensures scanning { IfOk result (λ s. IsScanning frames.new pass.new s.core) }
        ensures query { IfOk result (λ s. IsFor query.now s) }
        ensures walk { IfOk result (λ s. Scanning D.Disk (meaning asked_of reads_all Holds judged)
            query.now frames.new pass.new s.core) }
        ensures reached { IfOk result (λ s. IsReached (meaning asked_of reads_all Holds judged)
            query.now frames.new s.core s.core.stage) }
        ensures pinned { IfOk result (λ s. HasPinned frames.old frames.new pass.new s.core.snapshot) }
        ensures took { IfOk result (λ s. s.core.took_pin ≡ true) }
        ensures counted { IfOk result (λ s.
            IsCounted pass.old.holds s.core pass.new.holds) }
        ensures reads { BeginsReading D.Disk frames.old pass.old frames.new pass.new }

        // The refusals: the pass has no snapshot.
        ensures unpinned { OnErr result (pass.new.pin ≡ None) }
        ensures cause { IfErr result (CannotBegin frames.old) }
    {
        let keys = query_keys(alloc, query)?;
        let work = MatchWork::new(alloc, query)?;
        match ScanCore::begin::<D, TsQuery, MatchWork>(alloc, frames, pass, keys) {
            Ok(core) => Ok(Scan { core, query, work }),
            Err(error) => {
                drop(work);
                Err(error)
            }
        }
    }

    /// Begins a scan for a query in the snapshot that the pass has in use, of so many commits. The pass
    /// keeps it when the scan ends.
    pub fn within<D: Disk>(
        alloc: Global,
        frames: &mut Frames<D>,
        pass: &mut Pass,
        query: &'q TsQuery,
        commits: u32,
    ) -> Result<Scan<'q>, FrameError>
        requires pass { IsPassOf frames.old pass.old }
        requires taken { (pin : Pin) × (pin_in pass.old.pin ≡ Some pin) × (commits ≡ pin.commits) }
        requires held { pass.old.held ≡ 0 }
        ensures scanning { IfOk result (λ s. IsScanning frames.new pass.new s.core) }
        ensures query { IfOk result (λ s. IsFor query.now s) }
        ensures walk { IfOk result (λ s. Scanning D.Disk (meaning asked_of reads_all Holds judged)
            query.now frames.new pass.new s.core) }
        ensures reached { IfOk result (λ s. IsReached (meaning asked_of reads_all Holds judged)
            query.now frames.new s.core s.core.stage) }
        ensures took { IfOk result (λ s. s.core.took_pin ≡ false) }
        ensures pin { pass.new.pin ≡ pass.old.pin }
        ensures pins { frames.new.pins ≡ frames.old.pins }
        ensures counted { IfOk result (λ s.
            IsCounted pass.old.holds s.core pass.new.holds) }
        ensures reads { BeginsReading D.Disk frames.old pass.old frames.new pass.new }

        // The refusals.
        ensures cause { IfErr result (CannotBegin frames.old) }
    {
        let keys = query_keys(alloc, query)?;
        let work = MatchWork::new(alloc, query)?;
        match ScanCore::within::<D, TsQuery, MatchWork>(alloc, frames, pass, keys, commits) {
            Ok(core) => Ok(Scan { core, query, work }),
            Err(error) => {
                drop(work);
                Err(error)
            }
        }
    }

    /// Reads one page, or judges what was read; false exactly at the end. No page stays held.
    pub fn step<D: Disk>(
        &mut self,
        alloc: Global,
        frames: &mut Frames<D>,
        pass: &mut Pass,
    ) -> Result<bool, FrameError>
        requires scanning { IsScanning frames.old pass.old self.old.core }
        requires query { IsFor self.old.query.now self.old }
        requires walk { Scanning D.Disk (meaning asked_of reads_all Holds judged)
            self.old.query.now frames.old pass.old self.old.core }
        ensures same { self.new.query.now ≡ self.old.query.now }
        ensures took { self.new.core.took_pin ≡ self.old.core.took_pin }
        ensures scanning { OnOk result (IsScanning frames.new pass.new self.new.core) }
        ensures query { OnOk result (IsFor self.new.query.now self.new) }
        ensures walk { OnOk result (Scanning D.Disk (meaning asked_of reads_all Holds judged)
            self.new.query.now frames.new pass.new self.new.core) }
        ensures counted { OnOk result (CountsOn self.old.core pass.old.holds self.new.core pass.new.holds) }
        ensures reads { ReadsOn D.Disk frames.old pass.old frames.new pass.new }
        ensures reached { OnOk result (
            IsReached (meaning asked_of reads_all Holds judged) self.old.query.now frames.old self.old.core
            self.old.core.stage
            → IsReached (meaning asked_of reads_all Holds judged) self.new.query.now frames.new self.new.core
            self.new.core.stage) }

        // It ends: false exactly at the end, and else a bound is lower.
        ensures end { IfOk result (λ more. (more ≡ false) ↔ IsAtEnd self.old.core) }
        ensures stays { IfOk result (λ more. more ≡ false → self.new.core ≡ self.old.core) }
        ensures lower { IfOk result (λ more. more ≡ true
            → steps_left self.new.core < steps_left self.old.core) }

        // The refusals.
        ensures fault { HoldHasCause D.Disk frames.old.journal frames.new.journal result }
        ensures cause { IfErr result (CannotStep frames.old self.old.core self.old.core.stage) }
        ensures lawful { IfErr result (IsLawfulRefusal D.Disk frames.old) }
    {
        let class = text_class();
        self.core.step(
            alloc,
            frames,
            pass,
            &class,
            self.query,
            &mut self.work,
            &TextCheck,
        )
    }

    /// What was found. The snapshot is given up. It takes no memory.
    pub fn finish<D: Disk>(self, frames: &mut Frames<D>, pass: &mut Pass) -> Found
        requires scanning { IsScanning frames.old pass.old self.core }
        requires query { IsFor self.query.now self }
        requires end { IsAtEnd self.core }
        requires walk { Scanning D.Disk (meaning asked_of reads_all Holds judged)
            self.query.now frames.old pass.old self.core }
        ensures ends { EndsReading D.Disk self.entry.core frames.old pass.old frames.new pass.new }
        ensures counted { (before : ℕ) → IsCounted before self.entry.core pass.old.holds
            → pass.new.holds ≤ before + result.pages_read }
        ensures found { Behind D.Disk frames.new (λ (R : Log). (pin : Pin) → pin_in pass.old.pin ≡ Some pin
            → HasFound (meaning asked_of reads_all Holds judged) self.entry.query.now R pin result) }
    {
        self.core.finish::<D, TsQuery, MatchWork>(frames, pass)
    }

    /// Gives up the snapshot of a scan that is not finished. It takes no memory.
    pub fn drop_scan<D: Disk>(self, frames: &mut Frames<D>, pass: &mut Pass)
        requires pass { IsPassOf frames.old pass.old }
        requires held { pass.old.held ≡ 0 }
        ensures ends { EndsReading D.Disk self.entry.core frames.old pass.old frames.new pass.new }
    {
        self.core.drop_scan(frames, pass);
    }
}
