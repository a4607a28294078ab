// The pages of a store's documents: which page a head goes on, and new pages.
ghost use Rattle.std.specs.Prelude.{◌≡◌, ◌⊎◌, ◌↔◌, ◌<◌, ◌≤◌, List, [], ◌∷◌, Option, true, IfOk, IfErr, IfSome, IfNone};
ghost use Rattle.std.specs.Prelude.{OnErr, OnOk};
ghost use Rattle.page_types.specs.Pages.{IsHead, IsPage};
ghost use Rattle.page_types.specs.declared.page.Page.{Page as PageValue};
ghost use Rattle.page_types.specs.declared.page.Head.{Head as HeadValue};
ghost use Rattle.page_types.specs.declared.page.Gone.{Gone};
ghost use Rattle.page_types.specs.declared.page.Body.TheVariants as body;
ghost use Rattle.core_state.specs.Allowed.{Sheet as SheetValue};
ghost use Rattle.doc_heap.specs.HeapPages.{HasNoRoom, IsPlaced};
ghost use Rattle.engine.specs.declared.error.DbError.TheVariants as store;

use crate::asks::{HeapPage, NewPage};
use crate::db::Db;
use crate::error::DbError;
use buffer_frames::{Held, Pass};
use disk_trait::Disk;
use doc_heap::place;
use page_types::{Body, Head, PAGE_LIMIT, Page};
use std::alloc::{AllocError, Global};

/// A head on a page that is held: the page with it, and its slot.
#[derive(Drop)]
pub struct Placed {
    pub held: Held,
    pub page: Page,
    pub slot: u16,
}

/// Whether it is a heap page.
pub fn is_heap(page: &Page) -> bool
    ensures { (result ≡ true)
        ↔ ((slots : List (Option HeadValue)) × (page.now.body ≡ body.Heap slots)) }
{
    matches!(page.body, Body::Heap(_))
}

/// Whether it is a new page still: no record has changed it, or one of number `since` at most deleted it.
fn is_new(page: &Page, since: u64) -> bool
    ensures { (result ≡ true) ↔ ((page.now.body ≡ body.Free)
        ⊎ (((gone : Gone) × (page.now.body ≡ body.Deleted gone)) × (page.now.stamp ≤ since))) }
{
    match page.body {
        Body::Free => true,
        Body::Deleted(_) => page.stamp <= since,
        _ => false,
    }
}

/// An old heap page with the head, and its slot, where the page has room for it.
fn place_on_heap(alloc: Global, held: &Held, head: &Head) -> Result<Option<(Page, u16)>, DbError>
    requires { IsHead head.now }
    ensures heap { OnOk result
        ((slots : List (Option HeadValue)) × (held.now.content.body ≡ body.Heap slots)) }
    ensures placed { IfOk result (λ o. IfSome o (λ p. IsPlaced held.now.content head.now p.0 p.1)) }
    ensures full { IfOk result (λ o. IfNone o (HasNoRoom held.now.content head.now)) }
    ensures is_page { IfOk result (λ o. IfSome o (λ p. IsPage p.0)) }
    ensures cause { IfErr result (λ e. (e ≡ store.OutOfMemory) ⊎ ((e ≡ store.BadPage held.now.page)
        × IsPage held.now.content
        × ((slots : List (Option HeadValue)) → held.now.content.body ≡ body.Heap slots → ⊥))) }
{
    if !is_heap(held.page()) {
        return Err(DbError::BadPage {
            page: held.number(),
        });
    }
    Ok(place(alloc, held.page(), head)?)
}

/// A new page with the head, and its slot: it has room for any head.
fn place_on_new(alloc: Global, page: &Page, head: &Head) -> Result<(Page, u16), AllocError>
    requires page { IsPage page.now }
    requires is_new { (page.now.body ≡ body.Free)
        ⊎ ((gone : Gone) × (page.now.body ≡ body.Deleted gone)) }
    requires head { IsHead head.now }
    ensures placed { IfOk result (λ p. IsPlaced page.now head.now p.0 p.1) }
    ensures is_page { IfOk result (λ p. IsPage p.0) }
{
    match place(alloc, page, head)? {
        Some(placed) => Ok(placed),
        None => unreachable!(),
    }
}

impl<D: Disk> Db<D> {
    ghost use Rattle.core_state.specs.Steps.{IsNewSheet};
    ghost use Rattle.page_space.specs.Taking.{IsTaken};
    ghost use Rattle.doc_heap.specs.Logging.{IsHeapOrNew};
    ghost use Rattle.buffer_frames.specs.Frames.{KeepsOthers, KeepsState};
    ghost use Rattle.buffer_frames.specs.Passes.{IsPassOf, IsHolding, PassRises, Seen};
    ghost use Rattle.engine.specs.Db.{state_of};
    ghost use Rattle.engine.specs.Places.{Lies};
    ghost use Rattle.engine.specs.Causes.{IsNoPageAt, IsNone, IsHeap, IsNew};
    ghost use Rattle.engine.specs.Going.{Goes, FaultIsTold};
    ghost use Rattle.engine.specs.Inner.Parts.{CarriesOwn, KeepsWork, CannotHold};
    ghost use Rattle.engine.specs.Inner.Choosing.{IsChosen, WorksOn, HoldsNoMore, GivesBack, HoldsNew};
    ghost use Rattle.engine.specs.Inner.Choosing.{HoldsPlaced, HoldsWithNew};
    ghost use Rattle.engine.specs.Inner.Choosing.{CannotTake, CannotHoldWithNew, CannotChoose};

    /// Holds a page. A number past the last that a page may have is no page's.
    pub(crate) fn hold_page(&mut self, pass: &mut Pass, page: u32) -> Result<Held, DbError>
        requires pass { IsPassOf self.old.frames pass.old }
        requires few { pass.old.held < 4 }
        ensures pass { IsPassOf self.new.frames pass.new }
        ensures number { IfOk result (λ h. h.page ≡ page) }
        ensures lies { IfOk result (λ h. Lies self.old page h.content) }
        ensures others { OnOk result (KeepsOthers self.old.frames self.new.frames (page ∷ [])) }
        ensures holding { (held : List SheetValue) → IsHolding D.Disk self.old.frames pass.old held
            → IfOk result (λ h. IsHolding D.Disk self.new.frames pass.new (h ∷ held)) }
        ensures carries { CarriesOwn D.Disk self.old pass.old self.new pass.new }
        ensures goes { Goes D.Disk self.old self.new [] }
        ensures state { KeepsState self.old.frames self.new.frames }
        ensures pins { self.new.frames.pins ≡ self.old.frames.pins }
        ensures keeps { KeepsWork pass.old pass.new }
        ensures rises { PassRises pass.old pass.new }
        ensures fault { FaultIsTold D.Disk self.old self.new result }

        // The refusals: no page more is held.
        ensures still { OnErr result ((held : List SheetValue)
            → IsHolding D.Disk self.old.frames pass.old held
            → IsHolding D.Disk self.new.frames pass.new held) }
        ensures held { OnErr result (pass.new.held ≡ pass.old.held) }
        ensures unmoved { OnErr result (KeepsOthers self.old.frames self.new.frames []) }
        ensures cause { IfErr result (λ e. CannotHold D.Disk self.old page IsNoPageAt e) }
    {
        if page >= PAGE_LIMIT {
            return Err(DbError::BadPage { page });
        }
        Ok(self.frames.hold(pass, page)?)
    }

    /// Gives a page back that is held.
    pub(crate) fn give_back(&mut self, pass: &mut Pass, held: Held)
        requires pass { IsPassOf self.old.frames pass.old }
        requires holding { (others : List SheetValue)
            × IsHolding D.Disk self.old.frames pass.old (held ∷ others) }
        ensures { GivesBack D.Disk self.old pass.old self.new pass.new (held ∷ []) }
    {
        self.frames.release(pass, held);
    }

    /// An old heap page with the head, which is held, where it has room for it; else it is given back.
    fn place_on_old(
        &mut self,
        pass: &mut Pass,
        page: u32,
        head: &Head,
    ) -> Result<Option<Placed>, DbError>
        requires pass { IsPassOf self.old.frames pass.old }
        requires none { pass.old.held ≡ 0 }
        requires head { IsHead head.now }
        ensures on { WorksOn D.Disk self.old pass.old self.new pass.new }
        ensures number { IfOk result (λ o. IfSome o (λ p. (p.held).page ≡ page)) }
        ensures heap { IfOk result (λ o. IfSome o (λ p. IsHeap self.old (p.held).content)) }
        ensures placed { IfOk result (λ o. IfSome o
            (λ p. HoldsPlaced D.Disk self.new pass.new head.now p)) }
        ensures full { IfOk result (λ o. IfNone o
            ((c : PageValue) × Lies self.old page c × HasNoRoom c head.now)) }
        ensures none { IfOk result (λ o. IfNone o (pass.new.held ≡ 0)) }
        ensures fault { FaultIsTold D.Disk self.old self.new result }

        // The refusals: no page is held.
        ensures still { OnErr result (pass.new.held ≡ 0) }
        ensures cause { IfErr result (λ e. CannotHold D.Disk self.old page
            (λ s p. IsNone s (IsHeap s) p) e) }
    {
        let held = self.hold_page(pass, page)?;
        match place_on_heap(self.alloc, &held, head) {
            Ok(Some((page, slot))) => Ok(Some(Placed { held, page, slot })),
            Ok(None) => {
                self.frames.release(pass, held);
                Ok(None)
            }
            Err(error) => {
                self.frames.release(pass, held);
                Err(error)
            }
        }
    }

    /// The page that is taken next as a new one, which is held. One that is new no more once it is
    /// held is given back: its number.
    fn take_page(&mut self, pass: &mut Pass) -> Result<Result<Held, u32>, DbError>
        requires pass { IsPassOf self.old.frames pass.old }
        requires few { pass.old.held < 4 }
        requires holding { (held : List SheetValue)
            × IsHolding D.Disk self.old.frames pass.old held }
        ensures on { WorksOn D.Disk self.old pass.old self.new pass.new }
        ensures new { IfOk result (λ r. IfOk r
            (λ h. HoldsNew D.Disk self.old pass.old self.new pass.new h)) }
        ensures fault { FaultIsTold D.Disk self.old self.new result }

        // The refusals: no page more is held.
        ensures old { IfOk result (λ r. OnErr r
            (HoldsNoMore D.Disk self.old pass.old self.new pass.new)) }
        ensures used { IfOk result (λ r. IfErr r
            (λ p. CannotTake D.Disk self.old self.new (store.BadPage p))) }
        ensures still { OnErr result (HoldsNoMore D.Disk self.old pass.old self.new pass.new) }
        ensures cause { IfErr result (λ e. CannotTake D.Disk self.old self.new e) }
    {
        let Some((page, since)) = self.frames.look(pass, &NewPage)? else {
            return Err(DbError::StoreFull);
        };
        let held = self.hold_page(pass, page)?;
        if is_new(held.page(), since) {
            return Ok(Ok(held));
        }
        self.frames.release(pass, held);
        Ok(Err(page))
    }

    /// A new page, which is held: the lowest that was deleted and may be taken again, else the lowest
    /// unused one. Where it is no longer new once it is held, it is chosen again.
    pub(crate) fn hold_new_page(&mut self, pass: &mut Pass) -> Result<Held, DbError>
        requires pass { IsPassOf self.old.frames pass.old }
        requires few { pass.old.held < 4 }
        requires holding { (held : List SheetValue)
            × IsHolding D.Disk self.old.frames pass.old held }
        ensures on { WorksOn D.Disk self.old pass.old self.new pass.new }
        ensures holding { (held : List SheetValue) → IsHolding D.Disk self.old.frames pass.old held
            → IfOk result (λ h. IsHolding D.Disk self.new.frames pass.new (h ∷ held)) }
        ensures lies { IfOk result (λ h. Lies self.old h.page h.content) }
        ensures taken { IfOk result (λ h. IsTaken (state_of self.new) pass.new.since h.page) }
        ensures unused { IfOk result (λ h. IsNew self.new pass.new.since h.content) }
        ensures is_new { IfOk result (λ h. Seen D.Disk self.new.frames pass.new
            (λ S P. IsNewSheet P pass.new.since h.page h.content)) }
        ensures fault { FaultIsTold D.Disk self.old self.new result }

        // The refusals: no page more is held.
        ensures still { OnErr result ((held : List SheetValue)
            → IsHolding D.Disk self.old.frames pass.old held
            → IsHolding D.Disk self.new.frames pass.new held) }
        ensures held { OnErr result (pass.new.held ≡ pass.old.held) }
        ensures cause { IfErr result (λ e. CannotTake D.Disk self.old self.new e) }
    {
        let mut last = 0;
        for _ in 0..PAGE_LIMIT {
            match self.take_page(pass)? {
                Ok(held) => return Ok(held),
                Err(page) => last = page,
            }
        }
        Err(DbError::BadPage { page: last })
    }

    /// A page and a new page, which are held.
    pub(crate) fn hold_with_new(
        &mut self,
        pass: &mut Pass,
        page: u32,
    ) -> Result<(Held, Held), DbError>
        requires pass { IsPassOf self.old.frames pass.old }
        requires none { pass.old.held ≡ 0 }
        ensures pass { IsPassOf self.new.frames pass.new }
        ensures both { IfOk result (λ h. HoldsWithNew D.Disk self.old self.new pass.new page h.0 h.1) }
        ensures carries { CarriesOwn D.Disk self.old pass.old self.new pass.new }
        ensures goes { Goes D.Disk self.old self.new [] }
        ensures keeps { KeepsWork pass.old pass.new }
        ensures fault { FaultIsTold D.Disk self.old self.new result }

        // The refusals: no page is held.
        ensures still { OnErr result (pass.new.held ≡ 0) }
        ensures cause { IfErr result (λ e. CannotHoldWithNew D.Disk self.old page e) }
    {
        let old = self.hold_page(pass, page)?;
        match self.hold_new_page(pass) {
            Ok(new) => Ok((old, new)),
            Err(error) => {
                self.give_back(pass, old);
                Err(error)
            }
        }
    }

    /// A new page with the head, which is held.
    fn place_on_taken(&mut self, pass: &mut Pass, head: &Head) -> Result<Placed, DbError>
        requires pass { IsPassOf self.old.frames pass.old }
        requires none { pass.old.held ≡ 0 }
        requires head { IsHead head.now }
        ensures on { WorksOn D.Disk self.old pass.old self.new pass.new }
        ensures taken { IfOk result
            (λ p. IsTaken (state_of self.new) pass.new.since (p.held).page) }
        ensures placed { IfOk result (λ p. HoldsPlaced D.Disk self.new pass.new head.now p) }
        ensures is_new { IfOk result (λ p. Seen D.Disk self.new.frames pass.new
            (λ S P. IsNewSheet P pass.new.since (p.held).page (p.held).content)) }
        ensures fault { FaultIsTold D.Disk self.old self.new result }

        // The refusals: no page is held.
        ensures still { OnErr result (pass.new.held ≡ 0) }
        ensures cause { IfErr result (λ e. CannotTake D.Disk self.old self.new e) }
    {
        let held = self.hold_new_page(pass)?;
        match place_on_new(self.alloc, held.page(), head) {
            Ok((page, slot)) => Ok(Placed { held, page, slot }),
            Err(_) => {
                self.frames.release(pass, held);
                Err(DbError::OutOfMemory)
            }
        }
    }

    /// The page that a head goes on, with the head: the first of the old heap pages that has room for
    /// it, else a new page.
    pub(crate) fn choose_page(&mut self, pass: &mut Pass, head: &Head) -> Result<Placed, DbError>
        requires pass { IsPassOf self.old.frames pass.old }
        requires none { pass.old.held ≡ 0 }
        requires head { IsHead head.now }
        ensures pass { IsPassOf self.new.frames pass.new }
        ensures chosen { IfOk result (λ p. IsChosen self.old pass.new.since head.now p.held) }
        ensures placed { IfOk result (λ p. IsPlaced (p.held).content head.now p.page p.slot) }
        ensures is_page { IfOk result (λ p. IsPage p.page) }
        ensures holding { IfOk result (λ p. IsHolding D.Disk self.new.frames pass.new (p.held ∷ [])) }
        ensures is_new { IfOk result (λ p. Seen D.Disk self.new.frames pass.new
            (λ S P. IsHeapOrNew P pass.new.since (p.held).page (p.held).content)) }
        ensures carries { CarriesOwn D.Disk self.old pass.old self.new pass.new }
        ensures goes { Goes D.Disk self.old self.new [] }
        ensures keeps { KeepsWork pass.old pass.new }
        ensures fault { FaultIsTold D.Disk self.old self.new result }

        // The refusals: no page is held.
        ensures still { OnErr result (pass.new.held ≡ 0) }
        ensures cause { IfErr result (λ e. CannotChoose D.Disk self.old head.now e) }
    {
        for number in 0..u32::MAX {
            let Some(page) = self.frames.look(pass, &HeapPage { number })? else {
                return self.place_on_taken(pass, head);
            };
            if let Some(placed) = self.place_on_old(pass, page, head)? {
                return Ok(placed);
            }
        }
        // No store has so many heap pages that their numbers run out.
        Err(DbError::OutOfMemory)
    }
}
