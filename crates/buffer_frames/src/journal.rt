// The journal: the device of a store, its log, and the state of the log's records.
ghost use Rattle.std.specs.Prelude.{◌≡◌, ◌⊎◌, ◌↔◌, ℕ, suc, ◌+◌, ◌^◌, ◌<◌, ◌≤◌, List, [], ◌∷◌};
ghost use Rattle.std.specs.Prelude.{length, flat_map, cond, ◌++◌, OnOk, OnErr, IfOk, IfErr};
ghost use Rattle.std.specs.Prelude.{IsErrOf, IsOk, Option, None, Some, Err, true, false};
ghost use Rattle.disk_trait.specs.Runs.{LeavesOnly};
ghost use Rattle.wal.specs.Pages.{KeepsPages};
ghost use Rattle.wal.specs.Waiting.{waiting, end_of, limit_of, down_of, end_with, end_then, waiting_then, length_with};
ghost use Rattle.wal.specs.declared.sizes.TheConstants.{MOST_WAITING, FRAME_BYTES};
ghost use Rattle.buffer_frames.specs.declared.journal.TheConstants.{MOST_RECORDS};
ghost use Rattle.page_types.specs.Records.{IsRecord};
ghost use Rattle.core_state.specs.Log.{Log};
ghost use Rattle.core_state.specs.States.{step_of};
ghost use Rattle.buffer_frames.specs.Drawing.{HasEncoding, drawn_by, made_sheets};
ghost use Rattle.buffer_frames.specs.Opens.{IsLoggedKind};
ghost use Rattle.buffer_frames.specs.Journals.{IsJournalOf, logged, logged_bytes, after_owed, next_number};
ghost use Rattle.buffer_frames.specs.Journals.{next_record, IsSpent, CanDraw, CountsEither, is_work as is_working};
ghost use Rattle.buffer_frames.specs.Journals.{work_after};
ghost use Rattle.buffer_frames.specs.Beginnings.{HasFlushed};
ghost use Rattle.buffer_frames.specs.Logging.{IsSameJournal, HasLogged};
ghost use Rattle.buffer_frames.specs.LogCauses.{WriteHasCause, GoesDown, LogFullWhere};
ghost use Rattle.buffer_frames.specs.declared.log_error.LogError.TheVariants.{DiskFault, LogFull, Down};
ghost use Rattle.buffer_frames.specs.declared.log_error.LogError.TheVariants.{XidsSpent, OutOfMemory};

use crate::drawing::{drawn_kind, drawn_value, drawn_xid, images};
use crate::laws::counted_are_one;
use crate::log_error::LogError;
use crate::owed::{encoded, owed_abort, step_owed};
use crate::step::{Drawn, Step};
use core_state::{State, pages_are_shown};
use disk_trait::Disk;
use page_types::{Changes, Kind, Record};
use std::alloc::{AllocError, Global};
use std::marker::Model;
use std::snapshot::Snapshot;
use wal::{MOST_WAITING, Wal};

/// No record has a number above this.
pub(crate) const MOST_RECORDS: u64 = (1 << 63) - 8;

/// The device of a store, its log, and the state of the log's records.
#[derive(Drop)]
pub struct Journal<D: Disk> {
    pub(crate) alloc: Global,
    pub(crate) disk: D,
    pub(crate) wal: Wal,
    pub(crate) state: State,
    // commits that are flushed
    pub(crate) flushed: u32,
    // an Abort comes before the next records
    pub(crate) owes: bool,
    // the device just after the opening
    pub(crate) opened: Snapshot<D>,
    // where somebody has the right of maintenance, no record of it has a number above this one
    pub(crate) work: Option<u64>,
}

impl<D: Disk> Model for Journal<D> {
    ghost use Rattle.std.specs.Prelude.{◌+◌, ◌^◌, ◌<◌, ◌≤◌};
    ghost use Rattle.wal.specs.Waiting.{IsReadToEnd};
    ghost use Rattle.buffer_frames.specs.Journals.{JournalValue, HasXidLimit};

    ghost Value = { JournalValue D };

    ghost view = { λ j. record {
      disk = j.disk;
      wal = j.wal;
      state = j.state.value;
      flushed = j.flushed;
      owes = j.owes;
      opened = j.opened.value;
      work = j.work;
    } };

    ghost invariant = { λ j. IsReadToEnd j.wal × (j.state.value.records + 2 ≤ 2 ^ 63)
        × (0 < j.state.value.records) × HasXidLimit j.state.value };
}

/// Whether a record of this kind is maintenance.
fn is_work(kind: Kind) -> bool
    ensures { result ≡ is_working kind }
{
    match kind {
        Kind::Begin
        | Kind::Commit { .. }
        | Kind::Abort
        | Kind::PlaceHead { .. }
        | Kind::PutOverflow { .. }
        | Kind::MarkDeleted { .. }
        | Kind::PutPending { .. }
        | Kind::AddRow { .. }
        | Kind::LinkPending { .. } => false,
        _ => true,
    }
}

impl<D: Disk> Journal<D> {
    /// One record waits after those that do, that of the step with what it draws, the owed Abort
    /// before it; or none does. Each page that the step leaves is written as an image, and is from
    /// now on as the record makes it.
    /// Where much waits already a flush comes first.
    /// The log is full where with them it would pass its limit after a flush.
    pub fn log_step(&mut self, step: &mut Step) -> Result<Drawn, LogError>
        requires encoded { HasEncoding step.old }
        requires kind { IsLoggedKind step.old.kind }
        ensures stands { (R : Log) → IsJournalOf D.Disk self.old R → OnOk result
            (IsJournalOf D.Disk self.new (logged self.old.owes (next_record self.old step.old) R)) }
        ensures drawn { IfOk result
            (λ d. d ≡ drawn_by (after_owed self.old.owes self.old.state) step.old.kind) }
        ensures state { OnOk result (self.new.state
            ≡ step_of (next_record self.old step.old) (after_owed self.old.owes self.old.state)) }
        ensures made { OnOk result (step.new ≡ record step.old {
          after = made_sheets (next_record self.old step.old) step.old.after;
        }) }
        ensures can_draw { OnOk result (CanDraw self.old step.old) }
        ensures owes { OnOk result (self.new.owes ≡ false) }
        ensures same { limit_of self.new.wal ≡ limit_of self.old.wal }
        ensures opened { self.new.opened ≡ self.old.opened }
        ensures work { OnOk result (self.new.work
            ≡ work_after step.old.kind (next_number self.old) self.old.work) }

        // The device: no call of it but for the flush.
        ensures idle { length (waiting self.old.wal) < MOST_WAITING
            → (self.new.disk ≡ self.old.disk) × (self.new.flushed ≡ self.old.flushed)
            × (IsErrOf result DiskFault → ⊥) }
        ensures now { length (waiting self.old.wal) < MOST_WAITING
            → OnOk result (HasLogged self.old self.new (next_record self.old step.old))
            × OnErr result (IsSameJournal self.old self.new) }
        ensures any_moment { D.tells → (R : Log) (s : IsJournalOf D.Disk self.old R)
            → (self.new.disk ≡ self.old.disk)
            ⊎ LeavesOnly D.Disk self.old.disk self.new.disk
            (CountsEither D.Disk self.old.disk s.counted R) }
        ensures pages { D.tells → KeepsPages D.Disk self.old.disk self.new.disk }

        ensures flushed { (self.new.flushed ≡ self.old.flushed)
            ⊎ (self.new.flushed ≡ length self.old.state.deleted) }

        // The refusals: the record isn't there.
        ensures refused { (R : Log) → IsJournalOf D.Disk self.old R
            → OnErr result (IsJournalOf D.Disk self.new R) }
        ensures refused_state { OnErr result ((self.new.state ≡ self.old.state)
            × (self.new.owes ≡ self.old.owes)) }
        ensures refused_work { OnErr result (self.new.work ≡ self.old.work) }
        ensures full { LogFullWhere (limit_of self.old.wal)
            (length_with self.old.wal (logged_bytes self.old (next_record self.old step.old)))
            result }
        ensures spent { (result ≡ Err XidsSpent)
            ↔ ((down_of self.old.wal ≡ None) × IsSpent self.old.state step.old.kind) }
        ensures is_down { (f : ℕ) → (result ≡ Err (Down f)) ↔ (down_of self.old.wal ≡ Some f) }
        ensures stays_down { (f : ℕ) → down_of self.old.wal ≡ Some f → self.new ≡ self.old }
        ensures goes_down { GoesDown result (D.fault_count self.new.disk) (down_of self.old.wal)
            (down_of self.new.wal) }
        ensures cause { WriteHasCause D.Disk self.old.disk self.new.disk result }
    {
        if let Some(fault) = self.wal.fault() {
            return Err(LogError::Down { fault });
        }
        if self.is_spent(step.kind()) {
            return Err(LogError::XidsSpent);
        }
        self.flush_much()?;
        self.log_now(step)
    }

    /// Whether a record of this kind would draw an xid, and there is none more.
    fn is_spent(&self, kind: Kind) -> bool
        ensures { result ≡ true ↔ IsSpent self.now.state kind }
    {
        kind == Kind::Begin && self.state.next_xid() >= self.state.xid_limit()
    }

    /// Where much waits it counts from now on.
    fn flush_much(&mut self) -> Result<(), LogError>
        requires up { down_of self.old.wal ≡ None }
        ensures stands { (R : Log) → IsJournalOf D.Disk self.old R → IsJournalOf D.Disk self.new R }
        ensures few { OnOk result (length (waiting self.new.wal) < MOST_WAITING) }
        ensures waits { OnOk result (waiting self.new.wal ≡ waiting_then (waiting self.old.wal)) }
        ensures end { OnOk result
            (end_of self.new.wal ≡ end_then (end_of self.old.wal) (waiting self.old.wal)) }
        ensures up { OnOk result (down_of self.new.wal ≡ None) }
        ensures same { (self.new.state ≡ self.old.state) × (self.new.owes ≡ self.old.owes)
            × (limit_of self.new.wal ≡ limit_of self.old.wal) }
        ensures opened { self.new.opened ≡ self.old.opened }
        ensures work { self.new.work ≡ self.old.work }
        ensures idle { length (waiting self.old.wal) < MOST_WAITING
            → IsOk result × (self.new ≡ self.old) }
        ensures flushed { (self.new.flushed ≡ self.old.flushed)
            ⊎ (self.new.flushed ≡ length self.old.state.deleted) }
        ensures any_moment { D.tells → (R : Log) (s : IsJournalOf D.Disk self.old R)
            → (self.new.disk ≡ self.old.disk)
            ⊎ LeavesOnly D.Disk self.old.disk self.new.disk
            (CountsEither D.Disk self.old.disk s.counted R) }
        ensures pages { D.tells → KeepsPages D.Disk self.old.disk self.new.disk }
        ensures error { IfErr result (λ e. e ≡ DiskFault) }
        ensures goes_down { GoesDown result (D.fault_count self.new.disk) (down_of self.old.wal)
            (down_of self.new.wal) }
        ensures cause { WriteHasCause D.Disk self.old.disk self.new.disk result }
    {
        if self.wal.waits() < MOST_WAITING {
            return Ok(());
        }
        self.flush()
    }

    /// The record of the step waits after those that do, of which there are few.
    fn log_now(&mut self, step: &mut Step) -> Result<Drawn, LogError>
        requires encoded { HasEncoding step.old }
        requires kind { IsLoggedKind step.old.kind }
        requires few { length (waiting self.old.wal) < MOST_WAITING }
        requires up { down_of self.old.wal ≡ None }
        requires xids { IsSpent self.old.state step.old.kind → ⊥ }
        ensures ok { OnOk result (HasLogged self.old self.new (next_record self.old step.old)) }
        ensures can_draw { OnOk result (CanDraw self.old step.old) }
        ensures drawn { IfOk result
            (λ d. d ≡ drawn_by (after_owed self.old.owes self.old.state) step.old.kind) }
        ensures made { OnOk result (step.new ≡ record step.old {
          after = made_sheets (next_record self.old step.old) step.old.after;
        }) }
        ensures refused { OnErr result (IsSameJournal self.old self.new) }
        ensures opened { self.new.opened ≡ self.old.opened }
        ensures full { LogFullWhere (limit_of self.old.wal)
            (end_of self.old.wal + FRAME_BYTES + length (waiting self.old.wal)
            + length (logged_bytes self.old (next_record self.old step.old)) + 1) result }
        ensures error { IfErr result (λ e. (e ≡ LogFull) ⊎ (e ≡ OutOfMemory)) }
    {
        let number = self.state.length() + 1;
        if number > MOST_RECORDS || self.state.commits() == u32::MAX {
            return Err(LogError::OutOfMemory);
        }
        let drawn = self.drawn(step);
        let rec = self.draw(step)?;
        self.put(&rec)?;
        Ok(drawn)
    }

    /// This record waits after those that do, of which there are few, the owed Abort before it.
    fn put(&mut self, rec: &Record) -> Result<(), LogError>
        requires encoded { IsRecord rec.now }
        requires next { rec.now.number ≡ next_number self.old }
        requires kind { IsLoggedKind rec.now.kind }
        requires short { length (logged_bytes self.old rec.now) ≤ MOST_WAITING }
        requires most { self.old.state.records + 1 ≤ MOST_RECORDS }
        requires few { length (waiting self.old.wal) < MOST_WAITING }
        requires up { down_of self.old.wal ≡ None }
        ensures ok { OnOk result (HasLogged self.old self.new rec.now) }
        ensures refused { OnErr result (IsSameJournal self.old self.new) }
        ensures opened { self.new.opened ≡ self.old.opened }
        ensures full { LogFullWhere (limit_of self.old.wal)
            (end_of self.old.wal + FRAME_BYTES + length (waiting self.old.wal)
            + length (logged_bytes self.old rec.now) + 1) result }
        ensures error { IfErr result (λ e. (e ≡ LogFull) ⊎ (e ≡ OutOfMemory)) }
    {
        counted_are_one();
        let owed = owed_abort(self.alloc, self.state.length() + 1);
        let bytes = encoded(self.alloc, self.owes, &owed, rec)?;
        self.state.make_room(rec)?;
        if let Err(error) = self.wal.append(&bytes) {
            return Err(LogError::from(error));
        }
        step_owed(&mut self.state, self.owes, &owed, rec);
        self.owes = false;
        self.state.step_reserved(rec);
        self.note_work(rec);
        Ok(())
    }

    /// Where somebody has the right of maintenance, the record is noted if it is maintenance.
    fn note_work(&mut self, rec: &Record)
        ensures noted { self.new ≡ record self.old {
          work = work_after rec.now.kind rec.now.number self.old.work;
        } }
    {
        if is_work(rec.kind) {
            self.work = self.work.map(|_| rec.number);
        }
    }

    /// What a step draws.
    fn drawn(&self, step: &Step) -> Drawn
        requires number { self.now.state.records + 2 < 2 ^ 64 }
        requires commits { suc (length self.now.state.deleted) < 2 ^ 32 }
        ensures { result ≡ drawn_by (after_owed self.now.owes self.now.state) step.now.kind }
    {
        Drawn {
            number: self.next_number(),
            value: drawn_value(&self.state, step.kind()),
        }
    }

    /// The record of a step, whose pages are from now on as the record makes them.
    fn draw(&self, step: &mut Step) -> Result<Record, AllocError>
        requires encoded { HasEncoding step.old }
        requires number { self.now.state.records + 2 < 2 ^ 64 }
        requires commits { suc (length self.now.state.deleted) < 2 ^ 32 }
        ensures drawn { IfOk result (λ r. r ≡ next_record self.now step.old) }
        ensures encoded { IfOk result IsRecord }
        ensures short { IfOk result
            (λ r. length (logged_bytes self.now r) ≤ MOST_WAITING) }
        ensures made { OnOk result (step.new ≡ record step.old {
          after = made_sheets (next_record self.now step.old) step.old.after;
        }) }
    {
        pages_are_shown();
        let mut rec = Record {
            number: self.next_number(),
            xid: drawn_xid(&self.state, step.kind(), step.xid()),
            kind: drawn_kind(&self.state, step.kind()),
            changes: Changes::new(self.alloc),
        };
        step.make_pages(&rec);
        rec.changes = images(self.alloc, step.sheets())?;
        Ok(rec)
    }

    /// What waits counts from now on. It takes no memory.
    pub fn flush(&mut self) -> Result<(), LogError>
        ensures stands { (R : Log) → IsJournalOf D.Disk self.old R → IsJournalOf D.Disk self.new R }
        ensures done { OnOk result ((waiting self.new.wal ≡ [])
            × (end_of self.new.wal ≡ end_with (end_of self.old.wal) (waiting self.old.wal))
            × (self.new.flushed ≡ length self.old.state.deleted)) }
        ensures same { (self.new.state ≡ self.old.state) × (self.new.owes ≡ self.old.owes)
            × (limit_of self.new.wal ≡ limit_of self.old.wal) }
        ensures opened { self.new.opened ≡ self.old.opened }
        ensures work { self.new.work ≡ self.old.work }

        // The device: no call of it where nothing waits.
        ensures idle { waiting self.old.wal ≡ [] → (self.new.disk ≡ self.old.disk)
            × (IsErrOf result DiskFault → ⊥) }
        ensures any_moment { D.tells → (R : Log) (s : IsJournalOf D.Disk self.old R)
            → (self.new.disk ≡ self.old.disk)
            ⊎ LeavesOnly D.Disk self.old.disk self.new.disk
            (CountsEither D.Disk self.old.disk s.counted R) }
        ensures pages { D.tells → KeepsPages D.Disk self.old.disk self.new.disk }

        // The refusals: after a fault of the device what waited may count or not.
        ensures refused_flushed { OnErr result (self.new.flushed ≡ self.old.flushed) }
        ensures error { IfErr result (λ e. (e ≡ DiskFault) ⊎ ((f : ℕ) × (e ≡ Down f))) }
        ensures is_down { (f : ℕ) → (result ≡ Err (Down f)) ↔ (down_of self.old.wal ≡ Some f) }
        ensures stays_down { (f : ℕ) → down_of self.old.wal ≡ Some f → self.new ≡ self.old }
        ensures goes_down { GoesDown result (D.fault_count self.new.disk) (down_of self.old.wal)
            (down_of self.new.wal) }
        ensures cause { WriteHasCause D.Disk self.old.disk self.new.disk result }
    {
        counted_are_one();
        match self.wal.flush(&mut self.disk) {
            Ok(()) => {
                self.flushed = self.state.commits();
                Ok(())
            }
            Err(error) => Err(LogError::from(error)),
        }
    }

    /// What a crash leaves now has all commits that are flushed.
    pub fn keeps_history(&self)
        ensures flushed { HasFlushed D.Disk self.now }
    {
        counted_are_one();
        let _ = &self.opened;
    }

    /// The state of all records, those included that wait.
    pub fn state(&self) -> &State
        ensures { result.now.value ≡ self.now.state }
    {
        &self.state
    }

    /// Whether somebody has the right of maintenance.
    pub(crate) fn is_worked(&self) -> bool
        ensures { result ≡ false ↔ self.now.work ≡ None }
    {
        self.work.is_some()
    }

    /// Somebody has the right of maintenance from now on, or nobody.
    pub(crate) fn set_work(&mut self, work: Option<u64>)
        ensures { self.new ≡ record self.old { work = work } }
    {
        self.work = work;
    }

    /// How many commits are flushed.
    pub fn flushed(&self) -> u32
        ensures { result ≡ self.now.flushed }
    {
        self.flushed
    }

    /// Whether the Abort of all that ran before comes before the next record.
    pub(crate) fn owes(&self) -> bool
        ensures { result ≡ self.now.owes }
    {
        self.owes
    }

    /// The device's count of faults just after the fault that brought the log down, if one did.
    pub fn fault(&self) -> Option<u64>
        ensures { result ≡ down_of self.now.wal }
    {
        self.wal.fault()
    }

    /// The number that the next record gets.
    pub fn next_number(&self) -> u64
        ensures next { result ≡ next_number self.now }
        ensures bound { result ≤ 2 ^ 63 }
    {
        self.state.length() + 1 + self.owes as u64
    }

    /// The device.
    pub fn close(self) -> D
        ensures { result ≡ self.disk }
    {
        let Journal { disk, .. } = self;
        disk
    }
}
