// A page of the list is shifted.
ghost use Rattle.std.specs.Prelude.{◌≡◌, ℕ, ◌<◌, ◌≤◌, List, [], ◌∷◌, length, slice_get, Some, IfOk, IfErr, OnOk, OnErr};
ghost use Rattle.wal.specs.Waiting.{down_of};
ghost use Rattle.page_types.specs.Numbers.{page_limit};
ghost use Rattle.page_types.specs.Pages.{IsPage};
ghost use Rattle.page_types.specs.declared.page.Body.TheVariants as body;
ghost use Rattle.core_state.specs.States.{StateTells};
ghost use Rattle.buffer_frames.specs.LogCauses.{IsCalm};
ghost use Rattle.buffer_frames.specs.Passes.{IsPassOf, IsHolding, Seen};
ghost use Rattle.gin_place.specs.Placing.{HasRight};
ghost use Rattle.gin_place.specs.Causes.{Finds};
ghost use Rattle.gin_place.specs.Faults.{MetNoFault, FaultBy};
ghost use Rattle.gin_place.specs.Holding.{ReadsOn};
ghost use Rattle.gin_cleanup.specs.Cleaning.{IsCleaning};
ghost use Rattle.gin_cleanup.specs.Going.{IsRowPage, IsBadList, IsCause};
ghost use Rattle.gin_cleanup.specs.Inner.Shifting.{IsFirst, IsMetaWithout, IsDeletedOf, IsShiftStep, IsFate, HasNoFate};
ghost use Rattle.gin_cleanup.specs.Inner.Shifting.{HoldsFirst, MayShift, LogsShift, HasTurned, HasTurnedAgain, HasGone};
ghost use Rattle.gin_cleanup.specs.Inner.Stepping.{StepEnds};
ghost use Rattle.gin_cleanup.specs.declared.cleanup.Stage.TheVariants as stages;

use crate::cleanup::{Cleanup, Stage};
use crate::listed::{ListNames, META_PAGE, named_by, rows_of};
use buffer_frames::{Frames, Held, Pass, Step};
use disk_trait::Disk;
use gin_place::{PlaceError, hold_page, hold_seen, release, two_step};
use page_types::{Body, Gone, Kind, Page, Rows};
use std::alloc::{AllocError, Global};

/// The metapage and the first page of the list, which are held, and what the metapage names.
#[derive(Drop)]
pub(crate) struct First {
    pub(crate) meta: Held,
    pub(crate) names: ListNames,
    pub(crate) page: Held,
}

/// Holds the metapage; the pass has then seen all of the log. With it comes what it names.
pub(crate) fn hold_meta<D: Disk>(
    frames: &mut Frames<D>,
    pass: &mut Pass,
) -> Result<(Held, ListNames), PlaceError>
    requires pass { IsPassOf frames.old pass.old }
    requires right { HasRight pass.old }
    requires none { pass.old.held ≡ 0 }
    ensures reads { ReadsOn D.Disk frames.old pass.old frames.new pass.new }
    ensures holding { IfOk result (λ r. IsHolding D.Disk frames.new pass.new (r.0 ∷ [])) }
    ensures number { IfOk result (λ r. r.0.page ≡ 0) }
    ensures names { IfOk result (λ r. r.0.content.body ≡ body.Meta r.1.first r.1.last r.1.pages) }
    ensures seen { IfOk result (λ r. Seen D.Disk frames.new pass.new
        (λ S P. P r.0.page ≡ r.0.content)) }
    ensures told { OnOk result (Seen D.Disk frames.new pass.new
        (λ S P. StateTells S frames.new.journal.state)) }

    // The refusals: no page is held.
    ensures still { OnErr result (pass.new.held ≡ 0) }
    ensures cause { IfErr result (λ e. Finds D.Disk frames.old pass.old
        (IsCause D.Disk frames.new e)) }
    ensures fine { OnOk result (MetNoFault D.Disk frames.old frames.new) }
    ensures fault { IfErr result (λ e. FaultBy D.Disk frames.old frames.new e) }
{
    let (held, _) = hold_seen(frames, pass, META_PAGE)?;
    match named_by(held.page()) {
        Some(names) => Ok((held, names)),
        None => {
            release(frames, pass, held);
            Err(PlaceError::BadPage { page: META_PAGE })
        }
    }
}

/// Gives both pages back.
fn give_back<D: Disk>(frames: &mut Frames<D>, pass: &mut Pass, first: First)
    requires pass { IsPassOf frames.old pass.old }
    requires right { HasRight pass.old }
    requires holding { IsHolding D.Disk frames.old pass.old (first.page ∷ first.meta ∷ []) }
    ensures reads { ReadsOn D.Disk frames.old pass.old frames.new pass.new }
    ensures none_held { pass.new.held ≡ 0 }
    ensures calm { IsCalm D.Disk frames.old.journal frames.new.journal }
    ensures at_rest { (n : ℕ) → down_of frames.old.journal.wal ≡ Some n
        → frames.new.journal ≡ frames.old.journal }
{
    let First { meta, page, .. } = first;
    release(frames, pass, page);
    release(frames, pass, meta);
}

/// Holds the metapage and the first page of the list; the pass has then seen both in the log.
fn hold_first<D: Disk>(frames: &mut Frames<D>, pass: &mut Pass) -> Result<First, PlaceError>
    requires pass { IsPassOf frames.old pass.old }
    requires right { HasRight pass.old }
    requires none { pass.old.held ≡ 0 }
    requires some { Seen D.Disk frames.old pass.old (λ S P. (q : ℕ) × IsFirst P q) }
    ensures reads { ReadsOn D.Disk frames.old pass.old frames.new pass.new }
    ensures holds { IfOk result (HoldsFirst D.Disk frames.new pass.new) }
    ensures bad { IfOk result (λ t. IsPage t.page.content → (IsRowPage t.page.content → ⊥)
        → Finds D.Disk frames.old pass.old (λ f p. IsBadList D.Disk f p t.page.page)) }

    // The refusals: no page is held.
    ensures still { OnErr result (pass.new.held ≡ 0) }
    ensures cause { IfErr result (λ e. Finds D.Disk frames.old pass.old
        (IsCause D.Disk frames.new e)) }
    ensures fine { OnOk result (MetNoFault D.Disk frames.old frames.new) }
    ensures fault { IfErr result (λ e. FaultBy D.Disk frames.old frames.new e) }
{
    let (meta, names) = hold_meta(frames, pass)?;
    match hold_page(frames, pass, names.first) {
        Ok(page) => Ok(First { meta, names, page }),
        Err(error) => {
            release(frames, pass, meta);
            Err(error)
        }
    }
}

/// The metapage without the first page, whose right link is this.
fn meta_without(meta: &Page, names: ListNames, right: u32) -> Page
    requires page { IsPage meta.now }
    requires names { meta.now.body ≡ body.Meta names.first names.last names.pages }
    requires right { right < page_limit }
    ensures without { IsMetaWithout meta.now right result }
    ensures is_page { IsPage result }
{
    Page {
        right: meta.right,
        stamp: meta.stamp,
        body: Body::Meta {
            first: right,
            last: if right == 0 { 0 } else { names.last },
            pages: names.pages.saturating_sub(1),
        },
    }
}

/// The page of these rows, deleted.
fn deleted(page: &Page, rows: &Rows) -> Result<Page, AllocError>
    requires page { IsPage page.now }
    requires rows { page.now.body ≡ body.Pending rows.now }
    ensures deleted { IfOk result (IsDeletedOf page.now) }
    ensures is_page { IfOk result IsPage }
{
    Ok(Page {
        right: page.right,
        stamp: page.stamp,
        body: Body::Deleted(Gone::Pending(rows.clone()?)),
    })
}

/// The step by which the first page goes, which has these rows.
fn shift_step(alloc: Global, first: &First, rows: &Rows) -> Result<Step, AllocError>
    requires names { first.now.meta.content.body
        ≡ body.Meta first.now.names.first first.now.names.last first.now.names.pages }
    requires rows { first.now.page.content.body ≡ body.Pending rows.now }
    ensures { IfOk result (IsShiftStep first.now.meta first.now.page) }
{
    let (meta, page) = (first.meta.page(), first.page.page());
    let gone = deleted(page, rows)?;
    let meta_then = meta_without(meta, first.names, page.right);
    two_step(
        alloc,
        Kind::Shift,
        (&first.meta, meta_then),
        (&first.page, gone),
    )
}

/// The step by which the first page goes, of which so many rows were noted; None where rows came to it, and
/// the list may be read again so many times more.
fn fate_of(
    alloc: Global,
    first: &First,
    noted: usize,
    turns: u32,
) -> Result<Option<Step>, PlaceError>
    requires names { first.now.meta.content.body
        ≡ body.Meta first.now.names.first first.now.names.last first.now.names.pages }
    ensures fate { IfOk result (IsFate first.now.meta first.now.page noted turns) }
    ensures none { IfErr result (HasNoFate first.now.page) }
{
    let Some(rows) = rows_of(first.page.page()) else {
        return Err(PlaceError::BadPage {
            page: first.page.number(),
        });
    };
    if rows.len() > noted {
        if turns == 0 {
            return Err(PlaceError::OutOfMemory);
        }
        return Ok(None);
    }
    Ok(Some(shift_step(alloc, first, rows)?))
}

/// Logs a Shift on the pages that are held; they are given back.
fn log_shift<D: Disk>(
    alloc: Global,
    frames: &mut Frames<D>,
    pass: &mut Pass,
    first: First,
    step: Step,
) -> Result<(), PlaceError>
    requires { MayShift D.Disk frames.old pass.old (first.page ∷ first.meta ∷ []) step }
    ensures none_held { pass.new.held ≡ 0 }
    ensures logged { OnOk result (LogsShift D.Disk frames.old pass.old
        (first.page ∷ first.meta ∷ []) step frames.new pass.new) }
    ensures refused { OnErr result (ReadsOn D.Disk frames.old pass.old frames.new pass.new) }
    ensures cause { IfErr result (λ e.
        IsCause D.Disk frames.new e frames.old pass.old) }
    ensures fine { OnOk result (MetNoFault D.Disk frames.old frames.new) }
    ensures fault { IfErr result (λ e. FaultBy D.Disk frames.old frames.new e) }
{
    let Ok(mut pages) = Vec::with_capacity(alloc, 2) else {
        give_back(frames, pass, first);
        drop(step);
        return Err(PlaceError::OutOfMemory);
    };
    let First { meta, page, .. } = first;
    pages.push_reserved(page);
    pages.push_reserved(meta);
    frames.log_step(pass, pages, step)?;
    Ok(())
}

impl Cleanup {
    /// How many rows of the first page were noted.
    fn noted(&self) -> usize
        requires { self.now.gone < length self.now.counts.items }
        ensures { slice_get self.now.counts.items self.now.gone ≡ Some result }
    {
        self.counts[self.gone]
    }

    /// The list is read from this page on.
    fn read_from(&mut self, alloc: Global, page: u32)
        ensures { HasTurned page self.old self.new }
    {
        self.counts.clear();
        self.gone = 0;
        self.stage = Stage::Reading {
            page,
            before: Vec::new(alloc),
        };
    }

    /// Rows came to this page, and the list is read again from it on.
    fn read_again(&mut self, alloc: Global, page: u32)
        requires { 0 < self.old.turns }
        ensures { HasTurnedAgain page self.old self.new }
    {
        // Read for the clause: what is left fits into 32 bits.
        let _left = self.left;
        self.turns -= 1;
        self.read_from(alloc, page);
    }

    /// The first page is gone, whose right link is this.
    fn page_gone(&mut self, alloc: Global, right: u32)
        requires left { 0 < self.old.left }
        requires gone { self.old.gone < length self.old.counts.items }
        ensures { HasGone right self.old self.new }
    {
        self.left -= 1;
        if self.gone + 1 < self.counts.len() {
            self.gone += 1;
        } else {
            self.read_from(alloc, right);
        }
    }

    /// The first page of the list goes, or it is read again, where rows came to it.
    pub(crate) fn shift<D: Disk>(
        &mut self,
        alloc: Global,
        frames: &mut Frames<D>,
        pass: &mut Pass,
    ) -> Result<(), PlaceError>
        requires pass { IsPassOf frames.old pass.old }
        requires right { HasRight pass.old }
        requires none { pass.old.held ≡ 0 }
        requires left { 0 < self.old.left }
        requires stage { self.old.stage ≡ stages.Shifting }
        requires cleaning { (from : ℕ) × IsCleaning D.Disk frames.old pass.old from self.old }
        ensures { StepEnds D.Disk frames.old pass.old frames.new pass.new self.old self.new result }
    {
        let first = hold_first(frames, pass)?;
        let (number, right) = (first.page.number(), first.page.page().right);
        match fate_of(alloc, &first, self.noted(), self.turns) {
            Ok(Some(step)) => {
                log_shift(alloc, frames, pass, first, step)?;
                self.page_gone(alloc, right);
                Ok(())
            }
            Ok(None) => {
                give_back(frames, pass, first);
                self.read_again(alloc, number);
                Ok(())
            }
            Err(error) => {
                give_back(frames, pass, first);
                Err(error)
            }
        }
    }
}
