// Dead documents lose their chains, and then their slots.
ghost use Rattle.std.specs.Prelude.{◌≡◌, ◌≢◌, ◌↔◌, ℕ, ◌-◌, ◌<◌, ◌≤◌, List, [], ◌∷◌, length, take, drop, true};
ghost use Rattle.std.specs.Prelude.{Some, false, get_or, IfOk, IfErr, OnOk, OnErr, IfSome, IfNone};
ghost use Rattle.std.specs.List.{AllByRecursion};
ghost use Rattle.page_types.specs.Items.{AreItems};
ghost use Rattle.page_types.specs.Numbers.{item_limit};
ghost use Rattle.page_types.specs.Pages.{IsPage};
ghost use Rattle.page_types.specs.Parts.{head_with};
ghost use Rattle.page_types.specs.declared.page.Head.{Head as HeadValue};
ghost use Rattle.core_state.specs.Log.{In};
ghost use Rattle.core_state.specs.Documents.{page_of, slot_of};
ghost use Rattle.core_vacuum.specs.Leaving.{IsOut};
ghost use Rattle.buffer_frames.specs.Frames.{Behind, Lies};
ghost use Rattle.buffer_frames.specs.LogCauses.{IsCalm};
ghost use Rattle.buffer_frames.specs.Passes.{IsPassOf, IsHolding, Seen};
ghost use Rattle.doc_heap.specs.HeapPages.{head_on, ChangesSlot};
ghost use Rattle.doc_heap.specs.Leaving.{first_of, with_first};
ghost use Rattle.gin_place.specs.Placing.{HasRight};
ghost use Rattle.gin_place.specs.Causes.{Finds, CannotUse};
ghost use Rattle.gin_place.specs.Faults.{MetNoFault, FaultBy};
ghost use Rattle.gin_place.specs.Holding.{ReadsOn};
ghost use Rattle.gin_vacuum.specs.Causes.{IsHeap};
ghost use Rattle.gin_vacuum.specs.Going.{VacuumsOn};
ghost use Rattle.gin_vacuum.specs.Ending.{VacuumMeets, NeverBad};
ghost use Rattle.gin_vacuum.specs.Vacuum.{AreOut, AreFreedSince};
ghost use Rattle.gin_vacuum.specs.Freeing.{IsFreeing, IsFreeKind, IsPageOf, CannotFree, ComesNearer, HasFreed};
ghost use Rattle.gin_vacuum.specs.Inner.Freeing.{IsChained, HasNoChain, AreFree, IsDeletedOf, IsDropStep, IsFreeStep};
ghost use Rattle.gin_vacuum.specs.Inner.Freeing.{LogsDrop, LogsFree};
ghost use Rattle.gin_vacuum.specs.Inner.Logging.{MayLogMade, LogsMade, CannotLog};

use crate::finding::is_heap;
use crate::logging::{log_one, log_pages, with_room};
use buffer_frames::{Frames, Held, Pass, Step};
use disk_trait::Disk;
use doc_heap::{Chain, drop_page, free_items, head};
use gin_place::{PlaceError, hold_page, hold_seen, one_step, release, two_step};
use page_types::{Body, Gone, HeadFields, Kind, MOST_SLOTS, Page};
use posting_code::ItemSet;
use std::alloc::{AllocError, Global};

/// Slots of dead documents become free, heap page by heap page: first their chains go, page by page.
#[derive(Clone, Copy)]
pub struct Freeing {
    // the documents of the items before this one have no slot any more
    pub(crate) from: usize,
}

/// A chain of a document that has pages left.
#[derive(Clone, Copy)]
pub(crate) struct Chained {
    pub(crate) item: u32,
    pub(crate) serial: u64,
    pub(crate) chain: Chain,
    /// Its first page.
    pub(crate) page: u32,
}

/// A heap page and the first page of a chain of one of its heads, which are held.
#[derive(Drop)]
pub(crate) struct Both {
    pub(crate) heap: Held,
    pub(crate) page: Held,
}

/// The first chain of a head that has pages, the vector's before the rows'.
fn first_chain(fields: HeadFields) -> Option<(Chain, u32)>
    ensures some { IfSome result (λ p. (vector : List ℕ) → first_of p.0 (head_with fields vector) ≡ p.1) }
    ensures not_none { IfSome result (λ p. p.1 ≢ 0) }
    ensures none { IfNone result ((fields.overflow ≡ 0) × (fields.private ≡ 0)) }
{
    if fields.overflow != 0 {
        return Some((Chain::Overflow, fields.overflow));
    }
    if fields.private != 0 {
        return Some((Chain::Private, fields.private));
    }
    None
}

/// The slot of an item on its page.
fn slot_in(item: u32) -> u16
    ensures { result ≡ slot_of item }
{
    (item as usize % MOST_SLOTS) as u16
}

/// A chain of the head in the slot of an item.
fn chain_of(page: &Page, item: u32) -> Option<Chained>
    ensures some { IfSome result (IsChained page.now) }
    ensures item { IfSome result (λ f. f.item ≡ item) }
    ensures none { IfNone result (HasNoChain page.now item) }
{
    let head = head(page, slot_in(item))?;
    let (chain, first) = first_chain(head.fields)?;
    Some(Chained {
        item,
        serial: head.fields.serial,
        chain,
        page: first,
    })
}

/// A chain of the first of these items that has one.
fn next_chain(page: &Page, items: &[u32]) -> Option<Chained>
    ensures some { IfSome result (IsChained page.now) }
    ensures item { IfSome result (λ f. In f.item items.now) }
    ensures none { IfNone result ((i : ℕ) → In i items.now → HasNoChain page.now i) }
{
    for k in 0..items.len() {
        if let Some(found) = chain_of(page, items[k]) {
            return Some(found);
        }
    }
    None
}

/// How many items there are up to the first from this one on that is on another page.
fn end_of(items: &[u32], from: usize, page: u32) -> usize
    requires left { from < length items.now }
    requires page { page ≡ page_of (get_or items.now from 0) }
    ensures within { (from < result) × (result ≤ length items.now) }
    ensures here { (i : ℕ) → In i (take (result - from) (drop from items.now)) → page_of i ≡ page }
    ensures past { AreItems items.now → (i : ℕ) → In i (drop result items.now) → page_of i ≢ page }
{
    for k in from..items.len() {
        if items[k] / MOST_SLOTS as u32 != page {
            return k;
        }
    }
    items.len()
}

/// Whether a page is one of such a chain.
fn is_of(page: &Page, chain: Chain) -> bool
    ensures { (result ≡ true) ↔ IsPageOf chain page.now }
{
    match (chain, &page.body) {
        (Chain::Overflow, Body::Overflow(_)) => true,
        (Chain::Private, Body::Pending(_)) => true,
        _ => false,
    }
}

/// A page of such a chain, deleted.
fn deleted(page: &Page, chain: Chain) -> Result<Page, AllocError>
    requires page { IsPage page.now }
    requires chain { IsPageOf chain page.now }
    ensures deleted { IfOk result (IsDeletedOf chain page.now) }
    ensures is_page { IfOk result IsPage }
{
    let kept = match (chain, &page.body) {
        (Chain::Overflow, Body::Overflow(bytes)) => Gone::Overflow(bytes.clone()?),
        (Chain::Private, Body::Pending(rows)) => Gone::Pending(rows.clone()?),
        _ => unreachable!(),
    };
    Ok(Page {
        right: page.right,
        stamp: page.stamp,
        body: Body::Deleted(kept),
    })
}

/// The heap page without the first page of a chain.
fn without_first(both: &Both, found: Chained) -> Result<Page, AllocError>
    requires { IsChained both.now.heap.content found }
    ensures changes { IfOk result (λ p. (h : HeadValue)
        → head_on both.now.heap.content (slot_of found.item) ≡ Some h
        → ChangesSlot both.now.heap.content (slot_of found.item)
        (Some (with_first found.chain both.now.page.content.right h)) p) }
    ensures is_page { IfOk result IsPage }
{
    let mut heap = both.heap.page().clone()?;
    let next = both.page.page().right;
    drop_page(&mut heap, slot_in(found.item), found.chain, next);
    Ok(heap)
}

/// The step by which the first page of a chain goes.
fn drop_step(alloc: Global, both: &Both, found: Chained) -> Result<Step, AllocError>
    requires chain { IsChained both.now.heap.content found }
    requires page { IsPageOf found.chain both.now.page.content }
    ensures { IfOk result (IsDropStep both.now.heap both.now.page found) }
{
    let kind = Kind::DropPage {
        item: found.item,
        serial: found.serial,
    };
    let heap = without_first(both, found)?;
    match deleted(both.page.page(), found.chain) {
        Ok(gone) => two_step(alloc, kind, (&both.heap, heap), (&both.page, gone)),
        Err(error) => {
            // one call to prove; left to go out of scope it is walked through
            drop(heap);
            Err(error)
        }
    }
}

/// Gives both pages back.
fn give_back<D: Disk>(frames: &mut Frames<D>, pass: &mut Pass, both: Both)
    requires pass { IsPassOf frames.old pass.old }
    requires right { HasRight pass.old }
    requires holding { IsHolding D.Disk frames.old pass.old (both.page ∷ both.heap ∷ []) }
    ensures reads { ReadsOn D.Disk frames.old pass.old frames.new pass.new }
    ensures none_held { pass.new.held ≡ 0 }
    ensures calm { IsCalm D.Disk frames.old.journal frames.new.journal }
{
    let Both { heap, page } = both;
    release(frames, pass, page);
    release(frames, pass, heap);
}

/// Logs the step that was made, if any was, on both pages, which are given back.
fn log_both<D: Disk>(
    alloc: Global,
    frames: &mut Frames<D>,
    pass: &mut Pass,
    both: Both,
    made: Result<Step, AllocError>,
) -> Result<(), PlaceError>
    requires { MayLogMade D.Disk frames.old pass.old (both.page ∷ both.heap ∷ []) made }
    ensures none_held { pass.new.held ≡ 0 }
    ensures logged { OnOk result (LogsMade D.Disk frames.old pass.old (both.page ∷ both.heap ∷ []) made
        frames.new pass.new) }
    ensures refused { OnErr result (ReadsOn D.Disk frames.old pass.old frames.new pass.new) }
    ensures cause { IfErr result (λ e. CannotLog D.Disk frames.new e frames.old pass.old) }
    ensures fine { OnOk result (MetNoFault D.Disk frames.old frames.new) }
    ensures fault { IfErr result (λ e. FaultBy D.Disk frames.old frames.new e) }
{
    match with_room(alloc, made, 2) {
        Ok((step, mut pages)) => {
            let Both { heap, page } = both;
            pages.push_reserved(page);
            pages.push_reserved(heap);
            log_pages(frames, pass, pages, step)
        }
        Err(_) => {
            give_back(frames, pass, both);
            Err(PlaceError::OutOfMemory)
        }
    }
}

/// Takes the first page off a chain, where the heap page is held; it is given back.
fn drop_first<D: Disk>(
    alloc: Global,
    frames: &mut Frames<D>,
    pass: &mut Pass,
    heap: Held,
    found: Chained,
) -> Result<(), PlaceError>
    requires pass { IsPassOf frames.old pass.old }
    requires right { HasRight pass.old }
    requires holding { IsHolding D.Disk frames.old pass.old (heap ∷ []) }
    requires heap { IsHeap heap.content }
    requires page { heap.page ≡ page_of found.item }
    requires item { found.item < item_limit }
    requires found { IsChained heap.content found }
    requires out { Seen D.Disk frames.old pass.old (λ S P. IsOut S P pass.old.floor found.item) }
    ensures none_held { pass.new.held ≡ 0 }
    ensures logged { OnOk result (LogsDrop D.Disk frames.old pass.old heap frames.new pass.new found) }
    ensures refused { OnErr result (ReadsOn D.Disk frames.old pass.old frames.new pass.new) }
    ensures cause { IfErr result (λ e. Finds D.Disk frames.old pass.old
        (CannotFree D.Disk frames.new e)) }
    ensures fine { OnOk result (MetNoFault D.Disk frames.old frames.new) }
    ensures fault { IfErr result (λ e. FaultBy D.Disk frames.old frames.new e) }
{
    let page = match hold_page(frames, pass, found.page) {
        Ok(page) => page,
        Err(error) => {
            release(frames, pass, heap);
            return Err(error);
        }
    };
    let both = Both { heap, page };
    if !is_of(both.page.page(), found.chain) {
        give_back(frames, pass, both);
        return Err(PlaceError::BadPage { page: found.page });
    }
    let made = drop_step(alloc, &both, found);
    log_both(alloc, frames, pass, both, made)
}

/// The step by which the slots of these items become free; none where they are.
fn free_step(alloc: Global, heap: &Held, items: &[u32]) -> Option<Result<Step, AllocError>>
    requires { IsHeap heap.now.content }
    ensures step { IfSome result (λ made. IfOk made (IsFreeStep heap.now items.now)) }
    ensures none { IfNone result (AreFree heap.now.content items.now) }
{
    let mut page = match heap.page().clone() {
        Ok(page) => page,
        Err(error) => return Some(Err(error)),
    };
    if !free_items(&mut page, items) {
        // one call to prove; left to go out of scope it is walked through
        drop(page);
        return None;
    }
    Some(one_step(alloc, Kind::FreeSlots, (heap, page)))
}

/// Makes the slots of these items free on a heap page that is held; it is given back.
fn free_all<D: Disk>(
    alloc: Global,
    frames: &mut Frames<D>,
    pass: &mut Pass,
    heap: Held,
    items: &[u32],
) -> Result<(), PlaceError>
    requires pass { IsPassOf frames.old pass.old }
    requires right { HasRight pass.old }
    requires holding { IsHolding D.Disk frames.old pass.old (heap ∷ []) }
    requires heap { IsHeap heap.content }
    requires page { (i : ℕ) → In i items.now → page_of i ≡ heap.page }
    requires bare { (i : ℕ) → In i items.now → HasNoChain heap.content i }
    requires out { AreOut D.Disk frames.old pass.old items.now }
    ensures none_held { pass.new.held ≡ 0 }
    ensures logged { OnOk result (LogsFree D.Disk frames.old pass.old heap frames.new pass.new items.now) }
    ensures refused { OnErr result (ReadsOn D.Disk frames.old pass.old frames.new pass.new) }
    ensures cause { IfErr result (λ e. Finds D.Disk frames.old pass.old
        (CannotFree D.Disk frames.new e)) }
    ensures fine { OnOk result (MetNoFault D.Disk frames.old frames.new) }
    ensures fault { IfErr result (λ e. FaultBy D.Disk frames.old frames.new e) }
{
    let Some(made) = free_step(alloc, &heap, items) else {
        release(frames, pass, heap);
        return Ok(());
    };
    log_one(alloc, frames, pass, heap, made)
}

/// Holds the heap page of an item, alone; the pass has then seen all of the log.
fn hold_heap<D: Disk>(
    frames: &mut Frames<D>,
    pass: &mut Pass,
    page: u32,
) -> Result<Held, PlaceError>
    requires pass { IsPassOf frames.old pass.old }
    requires right { HasRight pass.old }
    requires none { pass.old.held ≡ 0 }
    requires lawful { CannotUse frames.old IsHeap page → Behind D.Disk frames.old (λ R. ⊥) }
    ensures reads { ReadsOn D.Disk frames.old pass.old frames.new pass.new }
    ensures number { IfOk result (λ h. h.page ≡ page) }
    ensures holding { IfOk result (λ h. IsHolding D.Disk frames.new pass.new (h ∷ [])) }
    ensures heap { IfOk result (λ h. IsHeap h.content) }
    ensures seen { IfOk result (λ h. Seen D.Disk frames.new pass.new (λ S P. P h.page ≡ h.content)) }
    ensures lies { IfOk result (λ h. Lies frames.old page h.content) }

    // The refusals: no page is held.
    ensures still { OnErr result (pass.new.held ≡ 0) }
    ensures cause { IfErr result (λ e. Finds D.Disk frames.old pass.old
        (CannotFree D.Disk frames.new e)) }
    ensures fine { OnOk result (MetNoFault D.Disk frames.old frames.new) }
    ensures fault { IfErr result (λ e. FaultBy D.Disk frames.old frames.new e) }
{
    let (heap, _) = hold_seen(frames, pass, page)?;
    if !is_heap(heap.page()) {
        release(frames, pass, heap);
        return Err(PlaceError::BadPage { page });
    }
    Ok(heap)
}

impl Freeing {
    /// All slots are to become free.
    pub fn begin() -> Freeing
        ensures { result.from ≡ 0 }
    {
        Freeing { from: 0 }
    }

    /// The next page of a chain goes, or slots of a heap page become free, where no chain of theirs is left.
    fn go_on<D: Disk>(
        &mut self,
        alloc: Global,
        frames: &mut Frames<D>,
        pass: &mut Pass,
        items: &[u32],
    ) -> Result<(), PlaceError>
        requires pass { IsPassOf frames.old pass.old }
        requires right { HasRight pass.old }
        requires none { pass.old.held ≡ 0 }
        requires items { AreItems items.now }
        requires left { self.old.from < length items.now }
        requires freeing { (began : ℕ) × IsFreeing D.Disk frames.old pass.old began items.now self.old }
        ensures freeing { (began : ℕ) → IsFreeing D.Disk frames.old pass.old began items.now self.old
            → IsFreeing D.Disk frames.new pass.new began items.now self.new }
        ensures none_held { pass.new.held ≡ 0 }
        ensures works { OnOk result ((kinds : List ℕ) × (length kinds ≤ 1)
            × AllByRecursion IsFreeKind kinds
            × VacuumsOn D.Disk frames.old pass.old frames.new pass.new kinds) }
        ensures refused { OnErr result (VacuumsOn D.Disk frames.old pass.old frames.new pass.new []) }
        ensures lower { OnOk result (ComesNearer frames.old frames.new items.now self.old self.new) }
        ensures cause { IfErr result (λ e. Finds D.Disk frames.old pass.old
            (CannotFree D.Disk frames.new e)) }
        ensures fine { OnOk result (MetNoFault D.Disk frames.old frames.new) }
        ensures fault { IfErr result (λ e. FaultBy D.Disk frames.old frames.new e) }
    {
        let page = items[self.from] / MOST_SLOTS as u32;
        let end = end_of(items, self.from, page);
        let heap = hold_heap(frames, pass, page)?;
        let group = &items[self.from..end];
        match next_chain(heap.page(), group) {
            Some(found) if found.page == page => {
                release(frames, pass, heap);
                Err(PlaceError::BadPage { page })
            }
            Some(found) => drop_first(alloc, frames, pass, heap, found),
            None => {
                free_all(alloc, frames, pass, heap, group)?;
                self.from = end;
                Ok(())
            }
        }
    }

    /// Logs a record, or finds the slots of a heap page free. False exactly at the end: these documents have
    /// no chain and no slot any more.
    pub fn step<D: Disk>(
        &mut self,
        alloc: Global,
        frames: &mut Frames<D>,
        pass: &mut Pass,
        dead: &ItemSet,
    ) -> Result<bool, PlaceError>
        requires pass { IsPassOf frames.old pass.old }
        requires right { HasRight pass.old }
        requires none { pass.old.held ≡ 0 }
        requires freeing { (began : ℕ) × IsFreeing D.Disk frames.old pass.old began dead.now self.old }
        ensures { (began : ℕ) → IsFreeing D.Disk frames.old pass.old began dead.now self.old
            → HasFreed D.Disk frames.old pass.old frames.new pass.new began dead.now self.old self.new result }
    {
        let items = dead.items();
        if self.from >= items.len() {
            return Ok(false);
        }
        self.go_on(alloc, frames, pass, items)?;
        Ok(self.from < items.len())
    }
}

/// Takes the chains and the slots of dead documents, which are out of the index.
pub fn free_slots<D: Disk>(
    alloc: Global,
    frames: &mut Frames<D>,
    pass: &mut Pass,
    dead: &ItemSet,
) -> Result<(), PlaceError>
    requires pass { IsPassOf frames.old pass.old }
    requires right { HasRight pass.old }
    requires none { pass.old.held ≡ 0 }
    requires out { AreOut D.Disk frames.old pass.old dead.now }
    ensures freed { OnOk result (AreFreedSince D.Disk pass.old.seen dead.now frames.new) }
    ensures works { (kinds : List ℕ) × AllByRecursion IsFreeKind kinds
        × VacuumsOn D.Disk frames.old pass.old frames.new pass.new kinds }
    ensures none_held { pass.new.held ≡ 0 }
    ensures fine { OnOk result (MetNoFault D.Disk frames.old frames.new) }

    // The refusals: what was logged stays.
    ensures cause { IfErr result (λ e. VacuumMeets D.Disk frames.old pass.old frames.new
        (CannotFree D.Disk frames.new e)) }
    ensures lawful { IfErr result (λ e. NeverBad D.Disk frames.old e) }
    ensures fault { IfErr result (λ e. FaultBy D.Disk frames.old frames.new e) }
{
    let mut freeing = Freeing::begin();
    for _ in 0..u64::MAX {
        let more = freeing.step(alloc, frames, pass, dead)?;
        if !more {
            return Ok(());
        }
    }
    // No log has so many records.
    Err(PlaceError::OutOfMemory)
}
