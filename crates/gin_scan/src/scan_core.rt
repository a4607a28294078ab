// A scan for the queries of any class.
ghost use Rattle.std.specs.Prelude.{◌≡◌, ◌↔◌, ℕ, ◌+◌, ◌-◌, ◌^◌, ◌<◌, ◌≤◌, [], ◌∷◌, ⊤, true, false, map};
ghost use Rattle.std.specs.Prelude.{None, Some, IsTrue, IfOk, IfErr, OnOk, OnErr};
ghost use Rattle.wal.specs.Waiting.{down_of};
ghost use Rattle.buffer_frames.specs.LogCauses.{HoldHasCause};
ghost use Rattle.buffer_frames.specs.Passes.{IsPassOf, IsHolding};
ghost use Rattle.buffer_frames.specs.declared.frame_error.FrameError.TheVariants.{Down};
ghost use Rattle.gin_opclass.specs.Class.{meaning, JudgeIsSound};
ghost use Rattle.gin_scan.specs.Calls.{ReadsOn};
ghost use Rattle.gin_scan.specs.Causes.{CannotRead};
ghost use Rattle.gin_scan.specs.Inner.Looks.{LooksOn};
ghost use Rattle.gin_scan.specs.Inner.Holds.{HoldsOne, GivesBack, TurnsBy};

use crate::asks::Extent;
use crate::check::Check;
use crate::found::Found;
use crate::stage::{LongVector, Stage};
use buffer_frames::{Ask, FrameError, Frames, Held, Pass};
use disk_trait::Disk;
use gin_hits::{Hits, TreeRoot, in_order};
use gin_opclass::{CompareKeys, Judge, Meaning, OpClass, QueryKeys};
use page_types::{Name, PAGE_LIMIT};
use std::alloc::Global;

/// A scan for the keys of a query.
#[derive(Drop)]
pub struct ScanCore {
    // the keys of the query
    pub(crate) keys: QueryKeys,
    // the numbers of the keys in their order, each key once
    pub(crate) order: Vec<usize>,
    // how many commits its snapshot has
    pub(crate) snapshot: u32,
    // how far pages went when that was last asked: a chain has no more pages
    pub(crate) extent: u32,
    // whether it took its pass's pin, which it then gives up at its end
    pub(crate) took_pin: bool,
    // what is read next
    pub(crate) stage: Stage,
    // what was read on the pending list
    pub(crate) pending: Hits,
    // and in the main part
    pub(crate) main: Hits,
    // the posting trees that the leaves which were read named
    pub(crate) roots: Vec<TreeRoot>,
    // whether a page of the list was read
    pub(crate) has_begun: bool,
    // the item of the first row on the first page of the list
    pub(crate) first_item: Option<u32>,
    // the items that the judge did not leave out, rising, each with whether it satisfies the query for sure
    pub(crate) kept: Vec<(u32, bool)>,
    // the documents whose vectors are still to be matched
    pub(crate) long: Vec<LongVector>,
    // the names that were found
    pub(crate) names: Vec<Name>,
    // how many heads were read
    pub(crate) heads_read: u64,
    // how many pages were read
    pub(crate) pages_read: u64,
    // the parts of a long vector that were read
    pub(crate) bytes: Vec<u8>,
}

/// Holds a page. A number past the last that a page may have is no page's.
pub(crate) fn hold_page<D: Disk>(
    frames: &mut Frames<D>,
    pass: &mut Pass,
    page: u32,
) -> Result<Held, FrameError>
    requires pass { IsPassOf frames.old pass.old }
    requires none { pass.old.held ≡ 0 }
    ensures held { IfOk result (HoldsOne D.Disk frames.old pass.old page frames.new pass.new) }
    ensures fault { HoldHasCause D.Disk frames.old.journal frames.new.journal result }

    // The refusals: no page is held.
    ensures refused { OnErr result (ReadsOn D.Disk frames.old pass.old frames.new pass.new) }
    ensures cause { IfErr result (CannotRead frames.old (λ c. ⊤) page) }
{
    if page >= PAGE_LIMIT {
        return Err(FrameError::BadPage { page });
    }
    frames.hold(pass, page)
}

/// Asks of the log. It reads no page.
pub(crate) fn look_on<D: Disk, T, A: Ask<T>>(
    frames: &mut Frames<D>,
    pass: &mut Pass,
    ask: &A,
) -> Result<T, FrameError>
    requires pass { IsPassOf frames.old pass.old }
    ensures looks { LooksOn D.Disk frames.old pass.old frames.new pass.new }
    ensures answers { IfOk result (λ t. A.answers ask.now frames.new.journal.state pass.new.floor
        pass.new.since t) }
    ensures error { IfErr result (λ e. (f : ℕ) × (e ≡ Down f) × (down_of frames.old.journal.wal ≡ Some f)) }
{
    frames.look(pass, ask)
}

impl ScanCore {
    ghost use Rattle.core_state.specs.Legal.{Pin};
    ghost use Rattle.core_state.specs.Log.{Log};
    ghost use Rattle.buffer_frames.specs.Frames.{Behind};
    ghost use Rattle.buffer_frames.specs.Passes.{HasPinned, pin_in};
    ghost use Rattle.gin_hits.specs.Rows.{asked_by};
    ghost use Rattle.gin_scan.specs.Causes.{CannotStep, CannotBegin, IsLawfulRefusal};
    ghost use Rattle.gin_scan.specs.Counting.{IsCounted, CountsOn};
    ghost use Rattle.gin_scan.specs.Finding.{HasFound};
    ghost use Rattle.gin_scan.specs.Reaching.{IsReached};
    ghost use Rattle.gin_scan.specs.Calls.{BeginsReading, EndsReading};
    ghost use Rattle.gin_scan.specs.Scanning.{IsScanning, AsksFor, Scanning};
    ghost use Rattle.gin_scan.specs.Scanning.{IsAtEnd, steps_left, asked_in};
    ghost use Rattle.gin_scan.specs.Inner.Begun.{IsNewScan, IsBegun};
    ghost use Rattle.gin_scan.specs.Inner.Steps.{MayStep, IsStepOf};
    ghost use Rattle.gin_scan.specs.Inner.Ways.{EndsAs, stage_with};

    /// A scan that has read nothing, for the keys of a query, of pages that go so far. It has no snapshot.
    fn new(
        alloc: Global,
        keys: QueryKeys,
        order: Vec<usize>,
        extent: u32,
        pending: Hits,
        main: Hits,
    ) -> ScanCore
        ensures new { IsNewScan keys order extent pending main result }
        ensures took { result.took_pin ≡ false }
    {
        ScanCore {
            keys,
            order,
            snapshot: 0,
            extent,
            took_pin: false,
            stage: Stage::Meta,
            pending,
            main,
            roots: Vec::new(alloc),
            has_begun: false,
            first_item: None,
            kept: Vec::new(alloc),
            long: Vec::new(alloc),
            names: Vec::new(alloc),
            heads_read: 0,
            pages_read: 0,
            bytes: Vec::new(alloc),
        }
    }

    /// A scan that has read nothing, for the keys of a query, of the pages that there are. It has no
    /// snapshot.
    fn unread<D: Disk>(
        alloc: Global,
        frames: &mut Frames<D>,
        pass: &mut Pass,
        keys: QueryKeys,
    ) -> Result<ScanCore, FrameError>
        requires pass { IsPassOf frames.old pass.old }
        ensures begun { IfOk result (IsBegun frames.new keys) }
        ensures took { IfOk result (λ s. s.took_pin ≡ false) }
        ensures looks { LooksOn D.Disk frames.old pass.old frames.new pass.new }
        ensures cause { IfErr result (CannotBegin frames.old) }
    {
        let extent = look_on(frames, pass, &Extent)?;
        let order = in_order(alloc, keys.keys.as_slice())?;
        let pending = Hits::new(alloc, keys.keys.len())?;
        let main = Hits::new(alloc, keys.keys.len())?;
        Ok(ScanCore::new(alloc, keys, order, extent, pending, main))
    }

    /// Takes a snapshot into use, and begins a scan for the keys of a query in it.
    pub fn begin<D: Disk, Q, W: Meaning<Q>>(
        alloc: Global,
        frames: &mut Frames<D>,
        pass: &mut Pass,
        keys: QueryKeys,
    ) -> Result<ScanCore, FrameError>
        requires pass { IsPassOf frames.old pass.old }
        requires held { pass.old.held ≡ 0 }
        requires none { pass.old.pin ≡ None }
        ensures scanning { IfOk result (IsScanning frames.new pass.new) }
        ensures asks { IfOk result (λ s. (asked_in s ≡ map asked_by keys.keys.items)
            × (s.keys.all ≡ keys.all)) }
        ensures walk { IfOk result (λ s. (q : Q) → Scanning D.Disk
            (meaning W.asked W.all W.satisfies W.judged) q frames.new pass.new s) }
        ensures reached { IfOk result (λ s. (q : Q)
            → IsReached (meaning W.asked W.all W.satisfies W.judged) q frames.new s s.stage) }
        ensures pinned { IfOk result (λ s. HasPinned frames.old frames.new pass.new s.snapshot) }
        ensures took { IfOk result (λ s. s.took_pin ≡ true) }
        ensures counted { IfOk result (λ s. IsCounted pass.old.holds s pass.new.holds) }
        ensures reads { BeginsReading D.Disk frames.old pass.old frames.new pass.new }

        // The refusals: the pass has no snapshot.
        ensures unpinned { OnErr result (pass.new.pin ≡ None) }
        ensures cause { IfErr result (CannotBegin frames.old) }
    {
        let mut scan = ScanCore::unread(alloc, frames, pass, keys)?;
        match frames.pin(pass) {
            Ok(snapshot) => {
                scan.snapshot = snapshot;
                scan.took_pin = true;
                Ok(scan)
            }
            Err(error) => {
                drop(scan);
                Err(error)
            }
        }
    }

    /// Begins a scan for the keys of a query in the snapshot that the pass has in use, of so many
    /// commits. The pass keeps it when the scan ends.
    pub fn within<D: Disk, Q, W: Meaning<Q>>(
        alloc: Global,
        frames: &mut Frames<D>,
        pass: &mut Pass,
        keys: QueryKeys,
        commits: u32,
    ) -> Result<ScanCore, FrameError>
        requires pass { IsPassOf frames.old pass.old }
        requires held { pass.old.held ≡ 0 }
        requires taken { (pin : Pin) × (pin_in pass.old.pin ≡ Some pin) × (commits ≡ pin.commits) }
        ensures scanning { IfOk result (IsScanning frames.new pass.new) }
        ensures asks { IfOk result (λ s. (asked_in s ≡ map asked_by keys.keys.items)
            × (s.keys.all ≡ keys.all)) }
        ensures walk { IfOk result (λ s. (q : Q) → Scanning D.Disk
            (meaning W.asked W.all W.satisfies W.judged) q frames.new pass.new s) }
        ensures reached { IfOk result (λ s. (q : Q)
            → IsReached (meaning W.asked W.all W.satisfies W.judged) q frames.new s s.stage) }
        ensures took { IfOk result (λ s. s.took_pin ≡ false) }
        ensures pin { pass.new.pin ≡ pass.old.pin }
        ensures pins { frames.new.pins ≡ frames.old.pins }
        ensures counted { IfOk result (λ s. IsCounted pass.old.holds s pass.new.holds) }
        ensures reads { BeginsReading D.Disk frames.old pass.old frames.new pass.new }

        // The refusals.
        ensures cause { IfErr result (CannotBegin frames.old) }
    {
        let mut scan = ScanCore::unread(alloc, frames, pass, keys)?;
        scan.snapshot = commits;
        Ok(scan)
    }

    /// Gives back the page that was read, and goes on to what was found to be next. A pass counts the pages that it
    /// holds as the scan counts those that it read.
    pub(crate) fn leave<D: Disk>(
        &mut self,
        frames: &mut Frames<D>,
        pass: &mut Pass,
        held: Held,
        next: Result<Stage, FrameError>,
    ) -> Result<(), FrameError>
        requires pass { IsPassOf frames.old pass.old }
        requires holding { IsHolding D.Disk frames.old pass.old (held ∷ []) }
        ensures back { GivesBack D.Disk frames.old pass.old held frames.new pass.new }
        ensures turns { TurnsBy next self.old self.new result }
    {
        frames.release(pass, held);
        self.pages_read = self.pages_read.saturating_add(1);
        self.stage = next?;
        Ok(())
    }

    /// Pages go as far as this now, further than when that was last asked, and what was read then goes on.
    fn raise_extent(&mut self, extent: u32)
        requires further { self.old.extent < extent }
        ensures raised { self.new ≡ record self.old {
          stage = stage_with self.old.stage (extent - self.old.extent);
          extent = extent;
        } }
        ensures within { extent < 2 ^ 32 }
    {
        self.stage = self.stage.with_left(extent - self.extent);
        self.extent = extent;
    }

    /// Goes on with what is read if pages go further now than when that was last asked, and else goes on to this.
    pub(crate) fn go_further<D: Disk, Q, W: Meaning<Q>>(
        &mut self,
        frames: &mut Frames<D>,
        pass: &mut Pass,
        query: &Q,
        after: Stage,
    ) -> Result<(), FrameError>
        requires may { MayStep D.Disk (meaning W.asked W.all W.satisfies W.judged) query.now
            frames.old pass.old self.old }
        requires ends { EndsAs self.old after }
        requires small { self.old.extent < 2 ^ 32 }
        ensures is_step { IsStepOf D.Disk (meaning W.asked W.all W.satisfies W.judged) query.now
            frames.old pass.old self.old frames.new pass.new self.new result }
    {
        let _ = query;
        let extent = look_on(frames, pass, &Extent)?;
        if extent > self.extent {
            self.raise_extent(extent);
            return Ok(());
        }
        self.stage = after;
        Ok(())
    }

    /// Whether no further step reads anything.
    fn is_done(&self) -> bool
        ensures { IsTrue result ↔ IsAtEnd self.now }
    {
        matches!(self.stage, Stage::Done)
    }

    /// One step of a scan that is not at its end.
    fn go_on<D: Disk, Q, W: Meaning<Q>, C: CompareKeys, J: Judge<Q, W>, M: Check<Q, W, J>>(
        &mut self,
        alloc: Global,
        frames: &mut Frames<D>,
        pass: &mut Pass,
        check: &M,
        class: &OpClass<Q, W, C, J>,
        query: &Q,
        work: &mut W,
    ) -> Result<(), FrameError>
        requires may { MayStep D.Disk (meaning W.asked W.all W.satisfies W.judged) query.now
            frames.old pass.old self.old }
        requires more { IsAtEnd self.old → ⊥ }
        requires serves { J.serves work.old query.now }
        ensures serves { J.serves work.new query.now }
        ensures is_step { IsStepOf D.Disk (meaning W.asked W.all W.satisfies W.judged) query.now
            frames.old pass.old self.old frames.new pass.new self.new result }
    {
        let stage = self.stage;
        match stage {
            Stage::Meta => self.read_meta::<D, Q, W>(frames, pass, query),
            Stage::Pending { page, left } => {
                self.go_on_list(frames, pass, class, query, work, page, left)
            }
            Stage::Down { key, page, left } => {
                self.go_on_way(alloc, frames, pass, class, query, work, key, page, left)
            }
            Stage::Leaf { key, page, left } => {
                self.go_on_leaves(alloc, frames, pass, class, query, key, page, left)
            }
            Stage::Posting {
                key,
                at,
                page,
                left,
                then,
                read,
            } => {
                self.go_on_trees::<D, Q, W>(frames, pass, query, key, at, page, left, then, read)
            }
            Stage::Heads { at } => { self.go_on_heads(alloc, frames, pass, query, work, check, at) }
            Stage::Parts { at, page, left } => {
                self.go_on_long(frames, pass, query, work, check, at, page, left)
            }
            Stage::Done => Ok(()),
        }
    }

    /// Reads one page, or judges what was read; false exactly at the end. No page stays held.
    pub fn step<D: Disk, Q, W: Meaning<Q>, C: CompareKeys, J: Judge<Q, W>, M: Check<Q, W, J>>(
        &mut self,
        alloc: Global,
        frames: &mut Frames<D>,
        pass: &mut Pass,
        class: &OpClass<Q, W, C, J>,
        query: &Q,
        work: &mut W,
        check: &M,
    ) -> Result<bool, FrameError>
        requires scanning { IsScanning frames.old pass.old self.old }
        requires asks { AsksFor (meaning W.asked W.all W.satisfies W.judged) query.now self.old }
        requires walk { Scanning D.Disk (meaning W.asked W.all W.satisfies W.judged) query.now
            frames.old pass.old self.old }
        requires serves { J.serves work.old query.now }
        ensures scanning { OnOk result (IsScanning frames.new pass.new self.new) }
        ensures asks { OnOk result (AsksFor (meaning W.asked W.all W.satisfies W.judged) query.now
            self.new) }
        ensures walk { OnOk result (Scanning D.Disk (meaning W.asked W.all W.satisfies W.judged)
            query.now frames.new pass.new self.new) }
        ensures serves { J.serves work.new query.now }
        ensures took { self.new.took_pin ≡ self.old.took_pin }
        ensures counted { OnOk result (CountsOn self.old pass.old.holds self.new pass.new.holds) }
        ensures reads { ReadsOn D.Disk frames.old pass.old frames.new pass.new }
        ensures reached { OnOk result (
            IsReached (meaning W.asked W.all W.satisfies W.judged) query.now frames.old self.old self.old.stage
            → IsReached (meaning W.asked W.all W.satisfies W.judged) query.now frames.new self.new self.new.stage) }

        // It ends: false exactly at the end, and else a bound is lower.
        ensures end { IfOk result (λ more. (more ≡ false) ↔ IsAtEnd self.old) }
        ensures stays { IfOk result (λ more. more ≡ false → self.new ≡ self.old) }
        ensures lower { IfOk result (λ more. more ≡ true → steps_left self.new < steps_left self.old) }

        // The refusals.
        ensures fault { HoldHasCause D.Disk frames.old.journal frames.new.journal result }
        ensures cause { IfErr result (CannotStep frames.old self.old self.old.stage) }
        ensures lawful { IfErr result (IsLawfulRefusal D.Disk frames.old) }
    {
        if self.is_done() {
            return Ok(false);
        }
        self.go_on(alloc, frames, pass, check, class, query, work)?;
        Ok(true)
    }

    /// Gives up the snapshot of the pass, if the scan took it.
    fn give_up<D: Disk>(&self, frames: &mut Frames<D>, pass: &mut Pass)
        requires pass { IsPassOf frames.old pass.old }
        requires held { pass.old.held ≡ 0 }
        ensures ends { EndsReading D.Disk self.now frames.old pass.old frames.new pass.new }
    {
        if self.took_pin {
            frames.unpin(pass);
        }
    }

    /// What was found. The snapshot is given up. It takes no memory.
    pub fn finish<D: Disk, Q, W: Meaning<Q>>(self, frames: &mut Frames<D>, pass: &mut Pass) -> Found
        requires scanning { IsScanning frames.old pass.old self }
        requires end { IsAtEnd self }
        ensures ends { EndsReading D.Disk self frames.old pass.old frames.new pass.new }
        ensures counted { (before : ℕ) → IsCounted before self pass.old.holds
            → pass.new.holds ≤ before + result.pages_read }
        ensures found { (q : Q) → JudgeIsSound (meaning W.asked W.all W.satisfies W.judged)
            → AsksFor (meaning W.asked W.all W.satisfies W.judged) q self
            → Scanning D.Disk (meaning W.asked W.all W.satisfies W.judged) q frames.old pass.old self
            → Behind D.Disk frames.new (λ (R : Log). (pin : Pin)
            → pin_in pass.old.pin ≡ Some pin
            → HasFound (meaning W.asked W.all W.satisfies W.judged) q R pin result) }
    {
        self.give_up(frames, pass);
        let ScanCore {
            kept,
            names,
            heads_read,
            pages_read,
            ..
        } = self;
        Found {
            names,
            heads_read,
            candidates: kept.len() as u64,
            pages_read,
        }
    }

    /// Gives up the snapshot of a scan that is not finished. It takes no memory.
    pub fn drop_scan<D: Disk>(self, frames: &mut Frames<D>, pass: &mut Pass)
        requires pass { IsPassOf frames.old pass.old }
        requires held { pass.old.held ≡ 0 }
        ensures ends { EndsReading D.Disk self frames.old pass.old frames.new pass.new }
    {
        self.give_up(frames, pass);
        drop(self);
    }
}
