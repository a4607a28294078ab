// Which items are of dead documents.
ghost use Rattle.std.specs.Prelude.{◌≡◌, ◌↔◌, ℕ, ◌<◌, ◌++◌, List, true, false, Option, Some, None, IfOk, IfErr, OnOk};
ghost use Rattle.std.specs.Prelude.{OnErr};
ghost use Rattle.page_types.specs.Numbers.{page_limit};
ghost use Rattle.buffer_frames.specs.Passes.{IsPassOf};
ghost use Rattle.gin_place.specs.Placing.{HasRight};
ghost use Rattle.gin_place.specs.Causes.{Finds, NoBadPage};
ghost use Rattle.gin_place.specs.Faults.{MetNoFault, FaultBy};
ghost use Rattle.gin_place.specs.Holding.{ReadsOn};
ghost use Rattle.gin_vacuum.specs.Finding.{IsFloor, IsBefore, IsFindingAt, IsFinding, HasFoundDead, pages_left};
ghost use Rattle.gin_vacuum.specs.Causes.{IsHeap, CannotRead};
ghost use Rattle.gin_vacuum.specs.Inner.Finding.{HasTaken, HasKept};

use crate::asks::{Dead, DeadOn, HeapFrom};
use buffer_frames::{Frames, Pass};
use disk_trait::Disk;
use gin_place::{PlaceError, ask, hold_page, release};
use page_types::{Body, Page};
use posting_code::ItemSet;
use std::alloc::{AllocError, Global};

/// The first page that may be a heap page: page 0 is the metapage.
const FIRST_PAGE: u32 = 1;

/// A search for dead documents, heap page by heap page.
#[derive(Drop)]
pub struct Finding {
    // the heap page that is read next
    pub(crate) next: Option<u32>,
    // the items that were found dead
    pub(crate) items: Vec<u32>,
}

/// Whether a page is a heap page.
pub(crate) fn is_heap(page: &Page) -> bool
    ensures { result ≡ true ↔ IsHeap page.now }
{
    match page.body {
        Body::Heap(_) => true,
        _ => false,
    }
}

/// Reads a heap page: its dead documents, and the heap page after it.
fn read_dead<D: Disk>(
    alloc: Global,
    frames: &mut Frames<D>,
    pass: &mut Pass,
    page: u32,
) -> Result<Dead, PlaceError>
    requires pass { IsPassOf frames.old pass.old }
    requires right { HasRight pass.old }
    requires none { pass.old.held ≡ 0 }
    requires finding { (from floor : ℕ) × (items : List ℕ)
        × IsFindingAt D.Disk frames.old pass.old from floor (Some page) items }
    ensures dead { IfOk result (λ d. (from floor : ℕ) (items : List ℕ)
        → IsFindingAt D.Disk frames.old pass.old from floor (Some page) items
        → IsFindingAt D.Disk frames.new pass.new from floor d.next (items ++ d.items.items)) }
    ensures on { IfOk result (λ d. (page < page_limit) × IsBefore page d.next) }
    ensures reads { ReadsOn D.Disk frames.old pass.old frames.new pass.new }
    ensures none_held { pass.new.held ≡ 0 }
    ensures cause { IfErr result (λ e. Finds D.Disk frames.old pass.old
        (CannotRead D.Disk frames.new e)) }
    ensures fine { OnOk result (MetNoFault D.Disk frames.old frames.new) }
    ensures fault { IfErr result (λ e. FaultBy D.Disk frames.old frames.new e) }
{
    let held = hold_page(frames, pass, page)?;
    let number = held.number();
    if !is_heap(held.page()) {
        release(frames, pass, held);
        return Err(PlaceError::BadPage { page: number });
    }
    let found = ask(frames, pass, &DeadOn { alloc, held: &held });
    release(frames, pass, held);
    match found {
        Ok(Ok(dead)) => Ok(dead),
        Ok(Err(_)) => Err(PlaceError::OutOfMemory),
        Err(error) => Err(error),
    }
}

impl Finding {
    /// All heap pages are to be read.
    pub fn begin<D: Disk>(
        alloc: Global,
        frames: &mut Frames<D>,
        pass: &mut Pass,
    ) -> Result<Finding, PlaceError>
        requires pass { IsPassOf frames.old pass.old }
        requires right { HasRight pass.old }
        requires none { pass.old.held ≡ 0 }
        ensures finding { IfOk result (λ c. (floor : ℕ) → IsFloor frames.old floor
            → IsFinding D.Disk frames.new pass.new pass.old.seen floor c) }
        ensures reads { ReadsOn D.Disk frames.old pass.old frames.new pass.new }
        ensures none_held { pass.new.held ≡ 0 }
        ensures cause { IfErr result (λ e. Finds D.Disk frames.old pass.old
            (CannotRead D.Disk frames.new e)) }
        ensures lawful { IfErr result (NoBadPage D.Disk frames.old) }
        ensures fine { OnOk result (MetNoFault D.Disk frames.old frames.new) }
        ensures fault { IfErr result (λ e. FaultBy D.Disk frames.old frames.new e) }
    {
        let next = frames.look(pass, &HeapFrom { page: FIRST_PAGE })?;
        Ok(Finding {
            next,
            items: Vec::new(alloc),
        })
    }

    /// What is dead on a page is noted, and what is read after it. A refusal changes nothing.
    fn take(&mut self, dead: Dead) -> Result<(), AllocError>
        ensures taken { OnOk result (HasTaken dead self.old self.new) }
        ensures kept { OnErr result (HasKept self.old self.new) }
    {
        self.items.extend_from_slice(dead.items.as_slice())?;
        self.next = dead.next;
        Ok(())
    }

    /// Reads a heap page. False exactly where none is left.
    pub fn step<D: Disk>(
        &mut self,
        alloc: Global,
        frames: &mut Frames<D>,
        pass: &mut Pass,
    ) -> Result<bool, PlaceError>
        requires pass { IsPassOf frames.old pass.old }
        requires right { HasRight pass.old }
        requires none { pass.old.held ≡ 0 }
        requires finding { (from floor : ℕ) × IsFinding D.Disk frames.old pass.old from floor self.old }
        ensures finding { (from floor : ℕ) → IsFinding D.Disk frames.old pass.old from floor self.old
            → IsFinding D.Disk frames.new pass.new from floor self.new }
        ensures ends { IfOk result (λ more. (more ≡ false) ↔ (self.new.next ≡ None)) }
        ensures lower { IfOk result (λ more. more ≡ true → pages_left self.new < pages_left self.old) }
        ensures reads { ReadsOn D.Disk frames.old pass.old frames.new pass.new }
        ensures none_held { pass.new.held ≡ 0 }
        ensures cause { IfErr result (λ e. Finds D.Disk frames.old pass.old
            (CannotRead D.Disk frames.new e)) }
        ensures lawful { IfErr result (NoBadPage D.Disk frames.old) }
        ensures fine { OnOk result (MetNoFault D.Disk frames.old frames.new) }
        ensures fault { IfErr result (λ e. FaultBy D.Disk frames.old frames.new e) }
    {
        let Some(page) = self.next else {
            return Ok(false);
        };
        let dead = read_dead(alloc, frames, pass, page)?;
        self.take(dead)?;
        Ok(self.next.is_some())
    }
}

/// The items of documents that are dead, in the log that the pass has then seen, by its floor.
pub fn find_dead<D: Disk>(
    alloc: Global,
    frames: &mut Frames<D>,
    pass: &mut Pass,
) -> Result<ItemSet, PlaceError>
    requires pass { IsPassOf frames.old pass.old }
    requires right { HasRight pass.old }
    requires none { pass.old.held ≡ 0 }
    ensures dead { IfOk result (λ s. (floor : ℕ) → IsFloor frames.old floor
        → HasFoundDead D.Disk frames.new pass.new pass.old.seen floor s) }
    ensures reads { ReadsOn D.Disk frames.old pass.old frames.new pass.new }
    ensures none_held { pass.new.held ≡ 0 }
    ensures cause { IfErr result (λ e. Finds D.Disk frames.old pass.old
        (CannotRead D.Disk frames.new e)) }
    ensures lawful { IfErr result (NoBadPage D.Disk frames.old) }
    ensures fine { OnOk result (MetNoFault D.Disk frames.old frames.new) }
    ensures fault { IfErr result (λ e. FaultBy D.Disk frames.old frames.new e) }
{
    let mut finding = Finding::begin(alloc, frames, pass)?;
    let mut more = true;
    while more {
        more = finding.step(alloc, frames, pass)?;
    }
    let Finding { items, .. } = finding;
    Ok(ItemSet::new(items))
}
