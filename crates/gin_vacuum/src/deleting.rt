// Empty leaves of posting trees are deleted.
ghost use Rattle.std.specs.Prelude.{◌≡◌, ◌≢◌, ◌↔◌, ◌<◌, ◌++◌, true, [], ◌∷◌, ℕ, List, Some};
ghost use Rattle.std.specs.Prelude.{IfOk, IfErr, OnOk, OnErr, IfSome};
ghost use Rattle.wal.specs.Waiting.{down_of};
ghost use Rattle.page_types.specs.Numbers.{page_limit};
ghost use Rattle.page_types.specs.Pages.{IsPage};
ghost use Rattle.page_types.specs.declared.page.Body.TheVariants as bodies;
ghost use Rattle.core_state.specs.Allowed.{Sheet as SheetValue};
ghost use Rattle.core_state.specs.Steps.{sheet};
ghost use Rattle.buffer_frames.specs.Frames.{Behind};
ghost use Rattle.buffer_frames.specs.LogCauses.{IsCalm};
ghost use Rattle.buffer_frames.specs.Passes.{IsPassOf, IsHolding};
ghost use Rattle.gin_place.specs.Placing.{HasRight};
ghost use Rattle.gin_place.specs.Causes.{Finds, CannotUse};
ghost use Rattle.gin_place.specs.Faults.{MetNoFault, FaultBy};
ghost use Rattle.gin_place.specs.Holding.{ReadsOn, HoldsNoMore};
ghost use Rattle.gin_vacuum.specs.Stepping.{IsCause, LeadsTo, IsEmptyPage};
ghost use Rattle.gin_vacuum.specs.Inner.Deleting.{with_before, around_pages, left_before, deleted_leaf, IsBefore};
ghost use Rattle.gin_vacuum.specs.Inner.Deleting.{IsAround, IsDeleteStep, IsWithout, IsFoundEmpty, IsBadAround};
ghost use Rattle.gin_vacuum.specs.Inner.Deleting.{LogsDelete};
ghost use Rattle.gin_vacuum.specs.Inner.Logging.{MayLogMade, LogsMade, CannotLog};

use crate::logging::{leave, log_pages, with_room};
use buffer_frames::{Frames, Held, Pass, Step};
use disk_trait::Disk;
use gin_place::{PlaceError, hold_page, release};
use page_types::{Body, Bytes, Gone, Kind, Page};
use std::alloc::{AllocError, Global};

/// An empty leaf of a posting tree, its high item and its right link, and the leaf before it, 0 where it
/// is the first.
#[derive(Clone, Copy)]
pub(crate) struct Empty {
    pub(crate) root: u32,
    pub(crate) before: u32,
    pub(crate) page: u32,
    pub(crate) high: u32,
    pub(crate) link: u32,
}

/// The pages by which an empty leaf goes, which are held, the last one first.
#[derive(Drop)]
pub(crate) struct Around {
    pub(crate) leaf: Held,
    pub(crate) before: Option<Held>,
    pub(crate) parent: Held,
}

/// Whether a page is this empty leaf.
fn is_empty_leaf(page: &Page, empty: Empty) -> bool
    ensures { (result ≡ true) ↔ IsEmptyPage empty page.now }
{
    match &page.body {
        Body::PostLeaf { high, items } => {
            *high == empty.high && page.right == empty.link && items.as_slice().is_empty()
        }
        _ => false,
    }
}

/// Whether a page is a leaf of a posting tree with this right link, by which it has a high item.
fn leads_to(page: &Page, link: u32) -> bool
    ensures { (result ≡ true) ↔ LeadsTo link page.now }
{
    match page.body {
        Body::PostLeaf { high, .. } => high != 0 && page.right == link,
        _ => false,
    }
}

/// Holds the leaf before an empty one, if there is one.
fn hold_before<D: Disk>(
    frames: &mut Frames<D>,
    pass: &mut Pass,
    empty: Empty,
) -> Result<Option<Held>, PlaceError>
    requires pass { IsPassOf frames.old pass.old }
    requires right { HasRight pass.old }
    requires few { pass.old.held < 4 }
    requires holding { (held : List SheetValue) × IsHolding D.Disk frames.old pass.old held }
    requires lawful { empty.before ≢ 0 → CannotUse frames.old (LeadsTo empty.page) empty.before
        → Behind D.Disk frames.old (λ R. ⊥) }
    ensures reads { ReadsOn D.Disk frames.old pass.old frames.new pass.new }
    ensures holding { IfOk result (λ o. (held : List SheetValue) → IsHolding D.Disk frames.old pass.old held
        → IsHolding D.Disk frames.new pass.new (with_before o held)) }
    ensures before { IfOk result (λ o. IsBefore empty o) }

    // The refusals: no page more is held.
    ensures still { OnErr result (HoldsNoMore D.Disk frames.old pass.old frames.new pass.new) }
    ensures cause { IfErr result (λ e. Finds D.Disk frames.old pass.old
        (IsCause D.Disk (IsBadAround D.Disk empty) frames.new e)) }
    ensures fine { OnOk result (MetNoFault D.Disk frames.old frames.new) }
    ensures fault { IfErr result (λ e. FaultBy D.Disk frames.old frames.new e) }
{
    if empty.before == 0 {
        return Ok(None);
    }
    let before = hold_page(frames, pass, empty.before)?;
    if !leads_to(before.page(), empty.page) {
        release(frames, pass, before);
        return Err(PlaceError::BadPage { page: empty.before });
    }
    Ok(Some(before))
}

/// Holds an empty leaf.
fn hold_empty<D: Disk>(
    frames: &mut Frames<D>,
    pass: &mut Pass,
    empty: Empty,
) -> Result<Held, PlaceError>
    requires pass { IsPassOf frames.old pass.old }
    requires right { HasRight pass.old }
    requires few { pass.old.held < 4 }
    requires holding { (held : List SheetValue) × IsHolding D.Disk frames.old pass.old held }
    requires lawful { CannotUse frames.old (IsEmptyPage empty) empty.page → Behind D.Disk frames.old (λ R. ⊥) }
    ensures reads { ReadsOn D.Disk frames.old pass.old frames.new pass.new }
    ensures holding { IfOk result (λ h. (held : List SheetValue) → IsHolding D.Disk frames.old pass.old held
        → IsHolding D.Disk frames.new pass.new (h ∷ held)) }
    ensures leaf { IfOk result (λ h. (h.page ≡ empty.page) × IsEmptyPage empty h.content) }

    // The refusals: no page more is held.
    ensures still { OnErr result (HoldsNoMore D.Disk frames.old pass.old frames.new pass.new) }
    ensures cause { IfErr result (λ e. Finds D.Disk frames.old pass.old
        (IsCause D.Disk (IsBadAround D.Disk empty) frames.new e)) }
    ensures fine { OnOk result (MetNoFault D.Disk frames.old frames.new) }
    ensures fault { IfErr result (λ e. FaultBy D.Disk frames.old frames.new e) }
{
    let leaf = hold_page(frames, pass, empty.page)?;
    if !is_empty_leaf(leaf.page(), empty) {
        release(frames, pass, leaf);
        return Err(PlaceError::BadPage { page: empty.page });
    }
    Ok(leaf)
}

/// Gives pages back that are held, the leaf before an empty one, if any, and their parent.
fn give_back<D: Disk>(frames: &mut Frames<D>, pass: &mut Pass, before: Option<Held>, parent: Held)
    requires pass { IsPassOf frames.old pass.old }
    requires right { HasRight pass.old }
    requires holding { IsHolding D.Disk frames.old pass.old (with_before before (parent ∷ [])) }
    ensures reads { ReadsOn D.Disk frames.old pass.old frames.new pass.new }
    ensures none_held { pass.new.held ≡ 0 }
    ensures calm { IsCalm D.Disk frames.old.journal frames.new.journal }
    ensures at_rest { (n : ℕ) → down_of frames.old.journal.wal ≡ Some n
        → frames.new.journal ≡ frames.old.journal }
{
    match before {
        Some(before) => {
            release(frames, pass, before);
            release(frames, pass, parent);
        }
        None => release(frames, pass, parent),
    }
}

/// Holds an empty leaf and the leaf before it, where their parent is held.
fn hold_around<D: Disk>(
    frames: &mut Frames<D>,
    pass: &mut Pass,
    parent: Held,
    empty: Empty,
) -> Result<Around, PlaceError>
    requires pass { IsPassOf frames.old pass.old }
    requires right { HasRight pass.old }
    requires holding { IsHolding D.Disk frames.old pass.old (parent ∷ []) }
    requires found { IsFoundEmpty D.Disk frames.old pass.old empty }
    ensures reads { ReadsOn D.Disk frames.old pass.old frames.new pass.new }
    ensures holding { IfOk result (λ a. IsHolding D.Disk frames.new pass.new (around_pages a)) }
    ensures around { IfOk result (IsAround empty parent) }

    // The refusals: no page is held.
    ensures still { OnErr result (pass.new.held ≡ 0) }
    ensures cause { IfErr result (λ e. Finds D.Disk frames.old pass.old
        (IsCause D.Disk (IsBadAround D.Disk empty) frames.new e)) }
    ensures fine { OnOk result (MetNoFault D.Disk frames.old frames.new) }
    ensures fault { IfErr result (λ e. FaultBy D.Disk frames.old frames.new e) }
{
    let before = match hold_before(frames, pass, empty) {
        Ok(before) => before,
        Err(error) => {
            release(frames, pass, parent);
            return Err(error);
        }
    };
    match hold_empty(frames, pass, empty) {
        Ok(leaf) => Ok(Around {
            leaf,
            before,
            parent,
        }),
        Err(error) => {
            give_back(frames, pass, before, parent);
            Err(error)
        }
    }
}

/// An empty leaf, deleted.
fn deleted(alloc: Global, page: &Page, high: u32) -> Page
    requires page { IsPage page.now }
    requires empty { page.now.body ≡ bodies.PostLeaf high [] }
    ensures deleted { result ≡ deleted_leaf high page.now }
    ensures is_page { IsPage result }
{
    Page {
        right: page.right,
        stamp: page.stamp,
        body: Body::Deleted(Gone::PostLeaf {
            high,
            items: Bytes::from_vec(Vec::new(alloc)),
        }),
    }
}

/// A leaf of a posting tree with a high item, with this right link.
fn linked(page: &Page, link: u32) -> Result<Page, AllocError>
    requires page { IsPage page.now }
    requires leaf { (old : ℕ) × LeadsTo old page.now }
    requires link { (link ≢ 0) × (link < page_limit) }
    ensures linked { IfOk result (λ p. p ≡ record page.now { right = link }) }
    ensures is_page { IfOk result IsPage }
{
    let Body::PostLeaf { high, items } = &page.body else {
        unreachable!()
    };
    Ok(Page {
        right: link,
        stamp: page.stamp,
        body: Body::PostLeaf {
            high: *high,
            items: items.clone()?,
        },
    })
}

/// The step leaves the leaf before an empty one too, if there is one, with this link.
fn leave_before(step: &mut Step, before: &Option<Held>, link: u32) -> Result<(), AllocError>
    requires leaf { IfSome before.now (λ b. (old : ℕ) × LeadsTo old b.content) }
    requires link { (link ≢ 0) × (link < page_limit) }
    ensures left { OnOk result
        (step.new ≡ record step.old { after = step.old.after ++ left_before link before.now }) }
    ensures is_page { OnOk result (IfSome before.now (λ b. IsPage (record b.content { right = link }))) }
    ensures low { OnOk result (IfSome before.now (λ b. b.page < page_limit)) }
{
    let Some(before) = before else {
        return Ok(());
    };
    let page = linked(before.page(), link)?;
    leave(step, before, page)?;
    Ok(())
}

/// The step leaves an empty leaf too, deleted, and the leaf before it, if there is one, with its link.
fn leave_leaves(
    alloc: Global,
    step: &mut Step,
    around: &Around,
    empty: Empty,
) -> Result<(), AllocError>
    requires leaf { IsEmptyPage empty around.now.leaf.content }
    requires before { IsBefore empty around.now.before }
    requires high { 0 < empty.high }
    ensures left { OnOk result (step.new ≡ record step.old {
      after = (step.old.after ++ sheet around.now.leaf.page (deleted_leaf empty.high around.now.leaf.content) ∷ [])
          ++ left_before empty.link around.now.before;
    }) }
    ensures gone { IsPage (deleted_leaf empty.high around.now.leaf.content) }
    ensures low { around.now.leaf.page < page_limit }
    ensures is_page { OnOk result (IfSome around.now.before (λ b. IsPage (record b.content { right = empty.link }))) }
    ensures before_low { OnOk result (IfSome around.now.before (λ b. b.page < page_limit)) }
{
    let gone = deleted(alloc, around.leaf.page(), empty.high);
    leave(step, &around.leaf, gone)?;
    leave_before(step, &around.before, empty.link)
}

/// The step by which an empty leaf goes: it is deleted, the leaf before it, if any, gets its link, and the
/// parent is left so.
fn delete_step(
    alloc: Global,
    around: &Around,
    without: Page,
    empty: Empty,
) -> Result<Step, AllocError>
    requires leaf { IsEmptyPage empty around.now.leaf.content }
    requires before { IsBefore empty around.now.before }
    requires high { 0 < empty.high }
    requires fits { IsPage without }
    ensures step { IfOk result (IsDeleteStep empty around.now without) }
{
    let mut step = Step::new(alloc, Kind::DeletePost, 0);
    match leave_leaves(alloc, &mut step, around, empty) {
        Ok(()) => {}
        Err(error) => {
            // one call to prove; left to go out of scope it is walked through
            drop(without);
            return Err(error);
        }
    }
    leave(&mut step, &around.parent, without)?;
    Ok(step)
}

/// Gives all pages back.
fn give_all_back<D: Disk>(frames: &mut Frames<D>, pass: &mut Pass, around: Around)
    requires pass { IsPassOf frames.old pass.old }
    requires right { HasRight pass.old }
    requires holding { IsHolding D.Disk frames.old pass.old (around_pages around) }
    ensures reads { ReadsOn D.Disk frames.old pass.old frames.new pass.new }
    ensures none_held { pass.new.held ≡ 0 }
    ensures calm { IsCalm D.Disk frames.old.journal frames.new.journal }
{
    let Around {
        leaf,
        before,
        parent,
    } = around;
    release(frames, pass, leaf);
    give_back(frames, pass, before, parent);
}

/// Logs the step that was made, if any was, on these pages, which are given back.
fn log_around<D: Disk>(
    alloc: Global,
    frames: &mut Frames<D>,
    pass: &mut Pass,
    around: Around,
    made: Result<Step, AllocError>,
) -> Result<(), PlaceError>
    requires { MayLogMade D.Disk frames.old pass.old (around_pages around) made }
    ensures none_held { pass.new.held ≡ 0 }
    ensures logged { OnOk result (LogsMade D.Disk frames.old pass.old (around_pages around) made
        frames.new pass.new) }
    ensures refused { OnErr result (ReadsOn D.Disk frames.old pass.old frames.new pass.new) }
    ensures cause { IfErr result (λ e. CannotLog D.Disk frames.new e frames.old pass.old) }
    ensures fine { OnOk result (MetNoFault D.Disk frames.old frames.new) }
    ensures fault { IfErr result (λ e. FaultBy D.Disk frames.old frames.new e) }
{
    match with_room(alloc, made, 3) {
        Ok((step, mut pages)) => {
            let Around {
                leaf,
                before,
                parent,
            } = around;
            pages.push_reserved(leaf);
            match before {
                Some(before) => {
                    pages.push_reserved(before);
                    pages.push_reserved(parent);
                    log_pages(frames, pass, pages, step)
                }
                None => {
                    pages.push_reserved(parent);
                    log_pages(frames, pass, pages, step)
                }
            }
        }
        Err(_) => {
            give_all_back(frames, pass, around);
            Err(PlaceError::OutOfMemory)
        }
    }
}

/// Deletes an empty leaf, whose parent is held, and is left without it.
pub(crate) fn delete_leaf<D: Disk>(
    alloc: Global,
    frames: &mut Frames<D>,
    pass: &mut Pass,
    parent: Held,
    without: Page,
    empty: Empty,
) -> Result<(), PlaceError>
    requires pass { IsPassOf frames.old pass.old }
    requires right { HasRight pass.old }
    requires holding { IsHolding D.Disk frames.old pass.old (parent ∷ []) }
    requires found { IsFoundEmpty D.Disk frames.old pass.old empty }
    requires high { 0 < empty.high }
    requires without { IsWithout empty.page parent.content without }
    ensures none_held { pass.new.held ≡ 0 }
    ensures logged { OnOk result (LogsDelete D.Disk frames.old pass.old empty parent without
        frames.new pass.new) }

    // The refusals: nothing is logged.
    ensures refused { OnErr result (ReadsOn D.Disk frames.old pass.old frames.new pass.new) }
    ensures cause { IfErr result (λ e. Finds D.Disk frames.old pass.old
        (IsCause D.Disk (IsBadAround D.Disk empty) frames.new e)) }
    ensures fine { OnOk result (MetNoFault D.Disk frames.old frames.new) }
    ensures fault { IfErr result (λ e. FaultBy D.Disk frames.old frames.new e) }
{
    let around = match hold_around(frames, pass, parent, empty) {
        Ok(around) => around,
        Err(error) => {
            // one call to prove; left to go out of scope it is walked through
            drop(without);
            return Err(error);
        }
    };
    let made = delete_step(alloc, &around, without, empty);
    log_around(alloc, frames, pass, around, made)
}
