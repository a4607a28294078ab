// Records on pages that are held.
ghost use Rattle.std.specs.Prelude.{◌≡◌, ℕ, ◌<◌, ◌≤◌, Some, List, [], ◌∷◌, ◌++◌, IfOk, IfErr, OnOk, OnErr};
ghost use Rattle.page_types.specs.Numbers.{page_limit};
ghost use Rattle.core_state.specs.Allowed.{Sheet as SheetValue};
ghost use Rattle.core_state.specs.Steps.{sheet};
ghost use Rattle.wal.specs.Waiting.{down_of};
ghost use Rattle.buffer_frames.specs.LogCauses.{IsCalm};
ghost use Rattle.buffer_frames.specs.Passes.{IsPassOf, IsHolding};
ghost use Rattle.gin_place.specs.Placing.{HasRight};
ghost use Rattle.gin_place.specs.Causes.{CannotLog};
ghost use Rattle.gin_place.specs.Faults.{MetNoFault, FaultBy};
ghost use Rattle.gin_place.specs.Holding.{ReadsOn};
ghost use Rattle.gin_place.specs.Inner.Logging.{MayLogStep, LogsStep};

use crate::error::PlaceError;
use buffer_frames::{Frames, Held, Pass, Sheet, Step};
use disk_trait::Disk;
use page_types::{Kind, Page};
use std::alloc::{AllocError, Global};

/// Gives a page back that is held.
pub fn release<D: Disk>(frames: &mut Frames<D>, pass: &mut Pass, held: Held)
    requires pass { IsPassOf frames.old pass.old }
    requires right { HasRight pass.old }
    requires holding { (others : List SheetValue)
        × IsHolding D.Disk frames.old pass.old (held ∷ others) }
    ensures reads { ReadsOn D.Disk frames.old pass.old frames.new pass.new }
    ensures holding { (others : List SheetValue)
        → IsHolding D.Disk frames.old pass.old (held ∷ others)
        → IsHolding D.Disk frames.new pass.new others }
    ensures faults { D.fault_count frames.old.journal.disk ≤ D.fault_count frames.new.journal.disk }
    ensures down { down_of frames.new.journal.wal ≡ down_of frames.old.journal.wal }
    ensures calm { IsCalm D.Disk frames.old.journal frames.new.journal }
    ensures at_rest { (n : ℕ) → down_of frames.old.journal.wal ≡ Some n → frames.new.journal ≡ frames.old.journal }
{
    frames.release(pass, held);
}

/// Logs a step on pages that are held; they are given back.
fn log_pages<D: Disk>(
    frames: &mut Frames<D>,
    pass: &mut Pass,
    pages: Vec<Held>,
    step: Step,
) -> Result<(), PlaceError>
    requires { MayLogStep D.Disk frames.old pass.old pages.items step }
    ensures none_held { pass.new.held ≡ 0 }
    ensures logged { OnOk result
        (LogsStep D.Disk frames.old pass.old pages.items step frames.new pass.new) }
    ensures refused { OnErr result (ReadsOn D.Disk frames.old pass.old frames.new pass.new) }
    ensures cause { IfErr result (λ e. CannotLog D.Disk frames.new e frames.old pass.old) }
    ensures fine { OnOk result (MetNoFault D.Disk frames.old frames.new) }
    ensures fault { IfErr result (λ e. FaultBy D.Disk frames.old frames.new e) }
{
    frames.log_step(pass, pages, step)?;
    Ok(())
}

/// The step, which leaves this page too, under the number of one that is held.
fn with_page(mut step: Step, held: &Held, page: Page) -> Result<Step, AllocError>
    ensures step { IfOk result
        (λ s. s ≡ record step { after = step.after ++ sheet held.now.page page ∷ [] }) }
    ensures low { held.now.page < page_limit }
{
    match step.leave(Sheet::new(held.number(), page)) {
        Ok(()) => Ok(step),
        Err(error) => {
            // by name it is one call, where `?` would go through all that a step has
            drop(step);
            Err(error)
        }
    }
}

/// The step of this kind that leaves this page under the number of one that is held.
pub fn one_step(alloc: Global, kind: Kind, page: (&Held, Page)) -> Result<Step, AllocError>
    ensures step { IfOk result (λ s. s ≡ record {
      kind = kind;
      xid = 0;
      after = sheet (page.entry.0).now.page page.entry.1 ∷ [];
    }) }
    ensures low { OnOk result ((page.entry.0).now.page < page_limit) }
{
    with_page(Step::new(alloc, kind, 0), page.0, page.1)
}

/// The step of this kind that leaves these pages under the numbers of two that are held.
pub fn two_step(
    alloc: Global,
    kind: Kind,
    first: (&Held, Page),
    second: (&Held, Page),
) -> Result<Step, AllocError>
    ensures step { IfOk result (λ s. s ≡ record {
      kind = kind;
      xid = 0;
      after = sheet (first.entry.0).now.page first.entry.1 ∷ sheet (second.entry.0).now.page second.entry.1 ∷ [];
    }) }
    ensures low { OnOk result (((first.entry.0).now.page < page_limit)
        × ((second.entry.0).now.page < page_limit)) }
{
    match one_step(alloc, kind, first) {
        Ok(step) => with_page(step, second.0, second.1),
        Err(error) => {
            drop(second.1);
            Err(error)
        }
    }
}

/// The step of this kind that leaves these pages under the numbers of three that are held.
pub(crate) fn three_step(
    alloc: Global,
    kind: Kind,
    first: (&Held, Page),
    second: (&Held, Page),
    third: (&Held, Page),
) -> Result<Step, AllocError>
    ensures step { IfOk result (λ s. s ≡ record {
      kind = kind;
      xid = 0;
      after = sheet (first.entry.0).now.page first.entry.1 ∷ sheet (second.entry.0).now.page second.entry.1
          ∷ sheet (third.entry.0).now.page third.entry.1 ∷ [];
    }) }
    ensures low { OnOk result (((first.entry.0).now.page < page_limit) × ((second.entry.0).now.page < page_limit)
        × ((third.entry.0).now.page < page_limit)) }
{
    match two_step(alloc, kind, first, second) {
        Ok(step) => with_page(step, third.0, third.1),
        Err(error) => {
            drop(third.1);
            Err(error)
        }
    }
}

/// Logs a step on one page that is held; it is given back.
pub(crate) fn log_one<D: Disk>(
    alloc: Global,
    frames: &mut Frames<D>,
    pass: &mut Pass,
    page: Held,
    step: Step,
) -> Result<(), PlaceError>
    requires { MayLogStep D.Disk frames.old pass.old (page ∷ []) step }
    ensures none_held { pass.new.held ≡ 0 }
    ensures logged { OnOk result
        (LogsStep D.Disk frames.old pass.old (page ∷ []) step frames.new pass.new) }
    ensures refused { OnErr result (ReadsOn D.Disk frames.old pass.old frames.new pass.new) }
    ensures cause { IfErr result (λ e. CannotLog D.Disk frames.new e frames.old pass.old) }
    ensures fine { OnOk result (MetNoFault D.Disk frames.old frames.new) }
    ensures fault { IfErr result (λ e. FaultBy D.Disk frames.old frames.new e) }
{
    let Ok(mut pages) = Vec::with_capacity(alloc, 1) else {
        release(frames, pass, page);
        drop(step);
        return Err(PlaceError::OutOfMemory);
    };
    pages.push_reserved(page);
    log_pages(frames, pass, pages, step)
}

/// Logs a step on two pages that are held; they are given back.
pub fn log_two<D: Disk>(
    alloc: Global,
    frames: &mut Frames<D>,
    pass: &mut Pass,
    first: Held,
    second: Held,
    step: Step,
) -> Result<(), PlaceError>
    requires { MayLogStep D.Disk frames.old pass.old (second ∷ first ∷ []) step }
    ensures none_held { pass.new.held ≡ 0 }
    ensures logged { OnOk result
        (LogsStep D.Disk frames.old pass.old (second ∷ first ∷ []) step frames.new pass.new) }
    ensures refused { OnErr result (ReadsOn D.Disk frames.old pass.old frames.new pass.new) }
    ensures cause { IfErr result (λ e. CannotLog D.Disk frames.new e frames.old pass.old) }
    ensures fine { OnOk result (MetNoFault D.Disk frames.old frames.new) }
    ensures fault { IfErr result (λ e. FaultBy D.Disk frames.old frames.new e) }
{
    let Ok(mut pages) = Vec::with_capacity(alloc, 2) else {
        release(frames, pass, second);
        release(frames, pass, first);
        drop(step);
        return Err(PlaceError::OutOfMemory);
    };
    pages.push_reserved(second);
    pages.push_reserved(first);
    log_pages(frames, pass, pages, step)
}

/// Three pages that are held, the last one first.
#[derive(Drop)]
pub(crate) struct Three {
    pub(crate) new: Held,
    pub(crate) page: Held,
    pub(crate) parent: Held,
}

/// Gives three pages back.
pub(crate) fn give_back<D: Disk>(frames: &mut Frames<D>, pass: &mut Pass, three: Three)
    requires pass { IsPassOf frames.old pass.old }
    requires right { HasRight pass.old }
    requires holding { IsHolding D.Disk frames.old pass.old
        (three.new ∷ three.page ∷ three.parent ∷ []) }
    ensures reads { ReadsOn D.Disk frames.old pass.old frames.new pass.new }
    ensures none_held { pass.new.held ≡ 0 }
    ensures faults { D.fault_count frames.old.journal.disk ≤ D.fault_count frames.new.journal.disk }
    ensures calm { IsCalm D.Disk frames.old.journal frames.new.journal }
    ensures at_rest { (n : ℕ) → down_of frames.old.journal.wal ≡ Some n → frames.new.journal ≡ frames.old.journal }
{
    let Three { new, page, parent } = three;
    release(frames, pass, new);
    release(frames, pass, page);
    release(frames, pass, parent);
}

/// Logs a step on three pages that are held; they are given back.
pub(crate) fn log_three<D: Disk>(
    alloc: Global,
    frames: &mut Frames<D>,
    pass: &mut Pass,
    three: Three,
    step: Step,
) -> Result<(), PlaceError>
    requires { MayLogStep D.Disk frames.old pass.old
        (three.new ∷ three.page ∷ three.parent ∷ []) step }
    ensures none_held { pass.new.held ≡ 0 }
    ensures logged { OnOk result (LogsStep D.Disk frames.old pass.old
        (three.new ∷ three.page ∷ three.parent ∷ []) step frames.new pass.new) }
    ensures refused { OnErr result (ReadsOn D.Disk frames.old pass.old frames.new pass.new) }
    ensures cause { IfErr result (λ e. CannotLog D.Disk frames.new e frames.old pass.old) }
    ensures fine { OnOk result (MetNoFault D.Disk frames.old frames.new) }
    ensures fault { IfErr result (λ e. FaultBy D.Disk frames.old frames.new e) }
{
    let Ok(mut pages) = Vec::with_capacity(alloc, 3) else {
        give_back(frames, pass, three);
        drop(step);
        return Err(PlaceError::OutOfMemory);
    };
    let Three { new, page, parent } = three;
    pages.push_reserved(new);
    pages.push_reserved(page);
    pages.push_reserved(parent);
    log_pages(frames, pass, pages, step)
}
