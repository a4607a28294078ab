// Pages in memory over the journal of a store.
ghost use Rattle.std.specs.Prelude.{◌≡◌, ◌≢◌, ◌⊎◌, ◌↔◌, ℕ, ◌<◌, List, [], ◌∷◌, length, Some, None, Err, false};
ghost use Rattle.std.specs.Prelude.{OnOk, OnErr, IfOk, IfErr, IsErrOf, IfSome, MatchOption, slice_set};
ghost use Rattle.wal.specs.Waiting.{waiting, limit_of, down_of, length_with};
ghost use Rattle.page_types.specs.Records.{kind_number};
ghost use Rattle.page_types.specs.declared.record.Kind.TheVariants as kinds;
ghost use Rattle.core_state.specs.Log.{Log, In};
ghost use Rattle.core_state.specs.Allowed.{Sheet as SheetValue, MayLog, Owes, sheet_pages};
ghost use Rattle.core_state.specs.Legal.{IsLegal};
ghost use Rattle.core_state.specs.States.{StateTells, step_of};
ghost use Rattle.snap_pins.specs.Taken.{IsLeast};
ghost use Rattle.buffer_frames.specs.Drawing.{HasEncoding, drawn_by, made_sheets};
ghost use Rattle.buffer_frames.specs.Opens.{IsEarlyKind, IsLoggedKind};
ghost use Rattle.buffer_frames.specs.Journals.{after_owed, logged, logged_bytes, next_record, next_number};
ghost use Rattle.buffer_frames.specs.Journals.{is_work, work_after, IsSpent};
ghost use Rattle.buffer_frames.specs.LogCauses.{WriteHasCause, GoesDown, LogFullWhere, IsCalm, HoldHasCause};
ghost use Rattle.buffer_frames.specs.Homes.{IsNoPage, BadPageWhere};
ghost use Rattle.buffer_frames.specs.Beginnings.{HasFlushed, BeginsOn, BeginsWith};
ghost use Rattle.buffer_frames.specs.Frames.{Stands, Behind, AreFrames, RunsOn};
ghost use Rattle.buffer_frames.specs.Frames.{KeepsState, Lies, LieThere, KeepsOthers};
ghost use Rattle.buffer_frames.specs.Passes.{IsPassOf, IsHolding, HasPinned, view_of, Seen, SeesOn, IsLogged};
ghost use Rattle.buffer_frames.specs.Passes.{HasAdded, KeepsPass, KeepsRight, PassRises, KeepsAllButPin};
ghost use Rattle.buffer_frames.specs.Passes.{holds_after, xid_after as xid_then};
ghost use Rattle.buffer_frames.specs.declared.log_error.LogError.TheVariants.{DiskFault, Down, XidsSpent};
ghost use Rattle.buffer_frames.specs.declared.frame_error.FrameError.TheVariants as frames;

use crate::ask::Ask;
use crate::frame_error::FrameError;
use crate::held::Held;
use crate::home::{Home, put_held, put_page, put_sheets, take_page};
use crate::journal::Journal;
use crate::laws::counted_are_one;
use crate::log_error::LogError;
use crate::pass::{Pass, Pinned, xid_after};
use crate::step::{Drawn, Step};
use core_state::pages_are_shown;
use disk_trait::Disk;
use page_types::PAGE_LIMIT;
use snap_pins::Pins;
use std::alloc::Global;
use std::marker::Model;

/// The journal of a store, the snapshots in use, and all pages in memory.
#[derive(Drop)]
pub struct Frames<D: Disk> {
    pub(crate) alloc: Global,
    pub(crate) journal: Journal<D>,
    pub(crate) pins: Pins,
    pub(crate) homes: Vec<Home>,
}

impl<D: Disk> Model for Frames<D> {
    ghost use Rattle.buffer_frames.specs.Frames.{FramesValue, AreFrames};

    ghost Value = { FramesValue D };

    ghost view = { λ f. record { journal = f.journal; pins = f.pins; homes = f.homes.items } };

    ghost invariant = { λ f. AreFrames D.Disk
        (record { journal = f.journal; pins = f.pins; homes = f.homes.items }) };
}

impl<D: Disk> Frames<D> {
    /// Holds a page. What is on it is what the log leaves there.
    pub fn hold(&mut self, pass: &mut Pass, page: u32) -> Result<Held, FrameError>
        requires pass { IsPassOf self.old pass.old }
        requires page { page < PAGE_LIMIT }
        requires few { pass.old.held < 4 }
        ensures pass { IsPassOf self.new pass.new }
        ensures number { IfOk result (λ h. h.page ≡ page) }
        ensures holds { OnOk result (pass.new.holds ≡ holds_after pass.old.holds) }
        ensures lies { IfOk result (λ h. Lies self.old page h.content) }
        ensures others { OnOk result (KeepsOthers self.old self.new (page ∷ [])) }
        ensures holding { (held : List SheetValue) → IsHolding D.Disk self.old pass.old held
            → IfOk result (λ h. IsHolding D.Disk self.new pass.new (h ∷ held)) }
        ensures sees_on { SeesOn D.Disk self.new pass.old pass.new }
        ensures added { HasAdded D.Disk self.old self.new [] }
        ensures rises { PassRises pass.old pass.new }
        ensures same { (pass.new.pin ≡ pass.old.pin) × (pass.new.room ≡ pass.old.room)
            × (pass.new.xid ≡ pass.old.xid) }
        ensures right { KeepsRight self.old self.new pass.old pass.new }
        ensures runs_on { RunsOn D.Disk self.old self.new }
        ensures begins { BeginsOn D.Disk self.old.journal self.new.journal }
        ensures state { KeepsState self.old self.new }
        ensures pins { self.new.pins ≡ self.old.pins }

        // The refusals: no page more is held.
        ensures still { OnErr result ((held : List SheetValue) → IsHolding D.Disk self.old pass.old held
            → IsHolding D.Disk self.new pass.new held) }
        ensures held { OnErr result (pass.new.held ≡ pass.old.held) }
        ensures holds_still { OnErr result (pass.new.holds ≡ pass.old.holds) }
        ensures unmoved { OnErr result (KeepsOthers self.old self.new []) }
        ensures is_down { (f : ℕ) → (result ≡ Err (frames.Down f))
            ↔ (down_of self.old.journal.wal ≡ Some f) }
        ensures bad { down_of self.old.journal.wal ≡ None
            → BadPageWhere (IsNoPage self.old.homes page) page result }
        ensures cause { HoldHasCause D.Disk self.old.journal self.new.journal result }
    {
        counted_are_one();
        if let Some(fault) = self.journal.fault() {
            return Err(FrameError::Down { fault });
        }
        let content = take_page(self.alloc, &mut self.homes, page)?;
        pass.held += 1;
        pass.holds = pass.holds.saturating_add(1);
        Ok(Held::new(page, content))
    }

    /// Gives a held page back.
    pub fn release(&mut self, pass: &mut Pass, held: Held)
        requires pass { IsPassOf self.old pass.old }
        requires holding { (others : List SheetValue)
            × IsHolding D.Disk self.old pass.old (held ∷ others) }
        ensures pass { IsPassOf self.new pass.new }
        ensures holding { (others : List SheetValue)
            → IsHolding D.Disk self.old pass.old (held ∷ others)
            → IsHolding D.Disk self.new pass.new others }
        ensures lies { Lies self.new held.page held.content }
        ensures others { KeepsOthers self.old self.new (held.page ∷ []) }
        ensures sees_on { SeesOn D.Disk self.new pass.old pass.new }
        ensures added { HasAdded D.Disk self.old self.new [] }
        ensures rises { PassRises pass.old pass.new }
        ensures same { (pass.new.pin ≡ pass.old.pin) × (pass.new.room ≡ pass.old.room)
            × (pass.new.xid ≡ pass.old.xid) }
        ensures right { KeepsRight self.old self.new pass.old pass.new }
        ensures holds { pass.new.holds ≡ pass.old.holds }
        ensures runs_on { RunsOn D.Disk self.old self.new }
        ensures begins { BeginsOn D.Disk self.old.journal self.new.journal }
        ensures state { KeepsState self.old self.new }
        ensures pins { self.new.pins ≡ self.old.pins }
        ensures calm { IsCalm D.Disk self.old.journal self.new.journal }
        ensures at_rest { (f : ℕ) → down_of self.old.journal.wal ≡ Some f
            → self.new.journal ≡ self.old.journal }
    {
        counted_are_one();
        pass.held -= 1;
        put_page(&mut self.homes, held.into_sheet());
    }

    /// Asks of the log, all of which the pass has then seen, with its floor and the number up to
    /// which deleted pages may be taken again.
    pub fn look<T, A: Ask<T>>(&mut self, pass: &mut Pass, ask: &A) -> Result<T, FrameError>
        requires pass { IsPassOf self.old pass.old }
        ensures pass { IsPassOf self.new pass.new }
        ensures answers { IfOk result (λ t.
            A.answers ask.now self.new.journal.state pass.new.floor pass.new.since t) }
        ensures all { OnOk result (pass.new.seen ≡ self.new.journal.state.records) }
        ensures seen { OnOk result (Seen D.Disk self.new pass.new
            (λ S P. StateTells S self.new.journal.state)) }
        ensures sees_on { SeesOn D.Disk self.new pass.old pass.new }
        ensures holding { (held : List SheetValue) → IsHolding D.Disk self.old pass.old held
            → IsHolding D.Disk self.new pass.new held }
        ensures floor { OnOk result
            (IsLeast self.new.pins (λ p. p.commits) self.new.journal.flushed pass.new.floor) }
        ensures since { OnOk result
            (IsLeast self.new.pins (λ p. p.length) pass.new.seen pass.new.since) }
        ensures added { HasAdded D.Disk self.old self.new [] }
        ensures keeps { KeepsPass pass.old pass.new }
        ensures rises { PassRises pass.old pass.new }
        ensures runs_on { RunsOn D.Disk self.old self.new }
        ensures begins { BeginsOn D.Disk self.old.journal self.new.journal }
        ensures state { KeepsState self.old self.new }
        ensures pins { self.new.pins ≡ self.old.pins }
        ensures others { KeepsOthers self.old self.new [] }
        ensures calm { IsCalm D.Disk self.old.journal self.new.journal }

        // The refusals.
        ensures refused { OnErr result ((self.new ≡ self.old) × (pass.new ≡ pass.old)) }
        ensures error { IfErr result (λ e. (f : ℕ) × (e ≡ frames.Down f)) }
        ensures is_down { (f : ℕ) → (result ≡ Err (frames.Down f))
            ↔ (down_of self.old.journal.wal ≡ Some f) }
    {
        counted_are_one();
        if let Some(fault) = self.journal.fault() {
            return Err(FrameError::Down { fault });
        }
        self.see_all(pass);
        Ok(ask.ask(self.journal.state(), pass.floor, pass.since))
    }

    /// The pass has seen all of the log, and its floor and since are the greatest that they may be.
    fn see_all(&self, pass: &mut Pass)
        requires { IsPassOf self.now pass.old }
        ensures pass { IsPassOf self.now pass.new }
        ensures seen { pass.new ≡ record pass.old {
          seen = self.now.journal.state.records;
          floor = pass.new.floor;
          since = pass.new.since;
        } }
        ensures rises { PassRises pass.old pass.new }
        ensures floor { IsLeast self.now.pins (λ p. p.commits) self.now.journal.flushed
            pass.new.floor }
        ensures since { IsLeast self.now.pins (λ p. p.length) pass.new.seen pass.new.since }
    {
        let length = self.journal.state().length();
        let (floor, since) = self.pins.floor(self.journal.flushed(), length);
        pass.seen = length;
        pass.floor = floor;
        pass.since = since;
    }

    /// Takes a snapshot into use: all flushed commits, at the log's length.
    pub fn pin(&mut self, pass: &mut Pass) -> Result<u32, FrameError>
        requires pass { IsPassOf self.old pass.old }
        requires none { pass.old.pin ≡ None }
        ensures pass { IsPassOf self.new pass.new }
        ensures pinned { IfOk result (λ n. HasPinned self.old self.new pass.new n) }
        ensures keeps { KeepsAllButPin D.Disk self.old self.new pass.old pass.new }

        // The refusals.
        ensures refused { OnErr result ((self.new ≡ self.old) × (pass.new ≡ pass.old)) }
        ensures error { IfErr result (λ e. (f : ℕ) × (e ≡ frames.Down f)) }
        ensures is_down { (f : ℕ) → (result ≡ Err (frames.Down f))
            ↔ (down_of self.old.journal.wal ≡ Some f) }
    {
        counted_are_one();
        if let Some(fault) = self.journal.fault() {
            return Err(FrameError::Down { fault });
        }
        let commits = self.journal.flushed();
        let length = self.journal.state().length();
        let place = self.pins.pin(commits, length);
        pass.seen = length;
        pass.shown = commits;
        pass.pin = Some(Pinned {
            place,
            commits,
            length,
        });
        Ok(commits)
    }

    /// Gives up the snapshot, if the pass has one.
    pub fn unpin(&mut self, pass: &mut Pass)
        requires pass { IsPassOf self.old pass.old }
        ensures pass { IsPassOf self.new pass.new }
        ensures none { pass.new.pin ≡ None }
        ensures pins { MatchOption pass.old.pin (self.new.pins ≡ self.old.pins)
            (λ p. self.new.pins ≡ slice_set self.old.pins p.place None) }
        ensures keeps { KeepsAllButPin D.Disk self.old self.new pass.old pass.new }
    {
        counted_are_one();
        let _ = &self.homes;
        if let Some(pinned) = pass.pin {
            self.pins.unpin(pinned.place);
            pass.pin = None;
        }
    }

    /// Logs one record, that of the step with what it draws, the owed Abort before it. The pages
    /// that were held lie in memory again, as the record makes them; a refusal leaves them as they
    /// were.
    pub fn log_step(
        &mut self,
        pass: &mut Pass,
        held: Vec<Held>,
        step: Step,
    ) -> Result<Drawn, LogError>
        requires pass { IsPassOf self.old pass.old }
        requires holding { IsHolding D.Disk self.old pass.old held.items }
        requires encoded { HasEncoding step }
        requires kind { IsLoggedKind step.kind }
        requires one { step.kind ≡ kinds.Begin → pass.old.xid ≡ None }
        requires may { Behind D.Disk self.old
            (λ R. MayLog (view_of self.old pass.old R held.items) step) }
        requires owes { (R : Log) → Stands D.Disk self.old R
            → Owes (view_of self.old pass.old R held.items) step }
        ensures pass { IsPassOf self.new pass.new }
        ensures drawn { IfOk result (λ d.
            d ≡ drawn_by (after_owed self.old.journal.owes self.old.journal.state) step.kind) }
        ensures logged { OnOk result ((R : Log) → Stands D.Disk self.old R
            → Stands D.Disk self.new
            (logged self.old.journal.owes (next_record self.old.journal step) R)) }
        ensures seen { OnOk result (Seen D.Disk self.new pass.new
            (λ S P. IsLogged (view_of self.new pass.old S held.items) step S P)) }
        ensures all { OnOk result (pass.new.seen ≡ self.new.journal.state.records) }
        ensures added { OnOk result (HasAdded D.Disk self.old self.new (kind_number step.kind ∷ [])) }
        ensures none_held { IsHolding D.Disk self.new pass.new [] }
        ensures xid { IfOk result (λ d. pass.new.xid ≡ xid_then step.kind d.value pass.old.xid) }
        ensures same { (pass.new.pin ≡ pass.old.pin) × (pass.new.room ≡ pass.old.room) }
        ensures work { pass.new.work ≡ pass.old.work }
        ensures right { OnOk result (self.new.journal.work
            ≡ work_after step.kind (next_number self.old.journal) self.old.journal.work) }
        ensures rests { is_work step.kind ≡ false
            → self.new.journal.work ≡ self.old.journal.work }
        ensures holds { pass.new.holds ≡ pass.old.holds }
        ensures rises { PassRises pass.old pass.new }
        ensures runs_on { RunsOn D.Disk self.old self.new }
        ensures begins { OnOk result (IsEarlyKind step.kind → BeginsWith D.Disk self.old.journal
            self.new.journal (next_record self.old.journal step)) }
        ensures legal { OnOk result (Behind D.Disk self.old (λ R. IsLegal
            (logged self.old.journal.owes (next_record self.old.journal step) R))) }
        ensures state { OnOk result (self.new.journal.state
            ≡ step_of (next_record self.old.journal step)
            (after_owed self.old.journal.owes self.old.journal.state)) }
        ensures pins { self.new.pins ≡ self.old.pins }
        ensures lies { OnOk result
            (LieThere self.new (made_sheets (next_record self.old.journal step) step.after)) }
        ensures kept { OnOk result ((x : SheetValue) → In x held.items
            → (In x.page (sheet_pages step.after) → ⊥) → Lies self.new x.page x.content) }
        ensures others { KeepsOthers self.old self.new (sheet_pages held.items) }

        // The refusals: the record isn't there, and the pages are as they were.
        ensures unmoved { OnErr result (LieThere self.new held.items) }
        ensures refused { OnErr result (HasAdded D.Disk self.old self.new []) }
        ensures refused_begins { OnErr result
            (BeginsOn D.Disk self.old.journal self.new.journal) }
        ensures refused_xid { OnErr result (pass.new.xid ≡ pass.old.xid) }
        ensures refused_state { OnErr result (KeepsState self.old self.new) }
        ensures refused_right { OnErr result (self.new.journal.work ≡ self.old.journal.work) }
        ensures refused_sees_on { OnErr result (SeesOn D.Disk self.new pass.old pass.new) }
        ensures full { LogFullWhere (limit_of self.old.journal.wal)
            (length_with self.old.journal.wal
            (logged_bytes self.old.journal (next_record self.old.journal step))) result }
        ensures spent { (result ≡ Err XidsSpent) ↔ ((down_of self.old.journal.wal ≡ None)
            × IsSpent self.old.journal.state step.kind) }
        ensures is_down { (f : ℕ) → (result ≡ Err (Down f))
            ↔ (down_of self.old.journal.wal ≡ Some f) }
        ensures goes_down { GoesDown result (D.fault_count self.new.journal.disk)
            (down_of self.old.journal.wal) (down_of self.new.journal.wal) }
        ensures cause { WriteHasCause D.Disk self.old.journal.disk self.new.journal.disk result }
    {
        counted_are_one();
        pages_are_shown();
        let mut step = step;
        let (kind, next) = (step.kind(), self.journal.state().next_xid());
        pass.held = 0;
        put_held(&mut self.homes, held);
        let drawn = self.journal.log_step(&mut step)?;
        put_sheets(&mut self.homes, step.into_sheets());
        pass.seen = self.journal.state().length();
        pass.xid = xid_after(kind, next, pass.xid);
        Ok(drawn)
    }

    /// All that the pass has seen of the log counts from now on. It takes no memory.
    pub fn flush_log(&mut self, pass: &mut Pass) -> Result<(), LogError>
        requires pass { IsPassOf self.old pass.old }
        ensures pass { IsPassOf self.new pass.new }
        ensures done { OnOk result ((waiting self.new.journal.wal ≡ [])
            × (self.new.journal.flushed ≡ length self.old.journal.state.deleted)) }
        ensures shown { pass.new.shown ≡ self.new.journal.flushed }
        ensures idle { waiting self.old.journal.wal ≡ []
            → (self.new.journal.disk ≡ self.old.journal.disk)
            × (IsErrOf result DiskFault → ⊥) }
        ensures holding { (held : List SheetValue) → IsHolding D.Disk self.old pass.old held
            → IsHolding D.Disk self.new pass.new held }
        ensures added { HasAdded D.Disk self.old self.new [] }
        ensures sees_on { SeesOn D.Disk self.new pass.old pass.new }
        ensures keeps { KeepsPass pass.old pass.new }
        ensures rises { PassRises pass.old pass.new }
        ensures runs_on { RunsOn D.Disk self.old self.new }
        ensures begins { BeginsOn D.Disk self.old.journal self.new.journal }
        ensures state { KeepsState self.old self.new }
        ensures pins { self.new.pins ≡ self.old.pins }
        ensures others { KeepsOthers self.old self.new [] }

        // The refusals.
        ensures error { IfErr result (λ e. (e ≡ DiskFault) ⊎ ((f : ℕ) × (e ≡ Down f))) }
        ensures is_down { (f : ℕ) → (result ≡ Err (Down f))
            ↔ (down_of self.old.journal.wal ≡ Some f) }
        ensures goes_down { GoesDown result (D.fault_count self.new.journal.disk)
            (down_of self.old.journal.wal) (down_of self.new.journal.wal) }
        ensures cause { WriteHasCause D.Disk self.old.journal.disk self.new.journal.disk result }
    {
        counted_are_one();
        let flushed = self.journal.flush();
        pass.shown = self.journal.flushed();
        flushed
    }

    /// The pages in memory are those of a log, and what a crash leaves now has all commits that are
    /// flushed.
    pub fn keeps_history(&self)
        ensures frames { AreFrames D.Disk self.now }
        ensures flushed { HasFlushed D.Disk self.now.journal }
    {
        self.journal.keeps_history();
    }

    /// The device. It needs the room of all passes.
    pub fn close(self, pass: Pass) -> D
        requires room { pass.room ≡ 16 }
        ensures { result ≡ self.journal.disk }
    {
        let Frames { journal, .. } = self;
        drop(pass);
        journal.close()
    }
}
