// Records on pages that are held.
ghost use Rattle.std.specs.Prelude.{◌≡◌, ◌<◌, ◌≤◌, [], ◌∷◌, ◌++◌, Ok, IfOk, IfErr, OnOk, OnErr, vec_capacity};
ghost use Rattle.page_types.specs.Numbers.{page_limit};
ghost use Rattle.core_state.specs.Steps.{sheet};
ghost use Rattle.gin_place.specs.Faults.{MetNoFault, FaultBy};
ghost use Rattle.gin_place.specs.Holding.{ReadsOn};
ghost use Rattle.gin_vacuum.specs.Inner.Logging.{MayLogStep, MayLogMade, LogsStep, LogsMade, CannotLog};

use buffer_frames::{Frames, Held, Pass, Sheet, Step};
use disk_trait::Disk;
use gin_place::{PlaceError, release};
use page_types::Page;
use std::alloc::{AllocError, Global};

/// Logs a step on pages that are held; they are given back.
pub(crate) fn log_pages<D: Disk>(
    frames: &mut Frames<D>,
    pass: &mut Pass,
    pages: Vec<Held>,
    step: Step,
) -> Result<(), PlaceError>
    requires { MayLogStep D.Disk frames.old pass.old pages.items step }
    ensures none_held { pass.new.held ≡ 0 }
    ensures logged { OnOk result
        (LogsStep D.Disk frames.old pass.old pages.items step frames.new pass.new) }
    ensures refused { OnErr result (ReadsOn D.Disk frames.old pass.old frames.new pass.new) }
    ensures cause { IfErr result (λ e. CannotLog D.Disk frames.new e frames.old pass.old) }
    ensures fine { OnOk result (MetNoFault D.Disk frames.old frames.new) }
    ensures fault { IfErr result (λ e. FaultBy D.Disk frames.old frames.new e) }
{
    frames.log_step(pass, pages, step)?;
    Ok(())
}

/// The step leaves this page too, under the number of one that is held.
pub(crate) fn leave(step: &mut Step, held: &Held, page: Page) -> Result<(), AllocError>
    ensures left { OnOk result
        (step.new ≡ record step.old { after = step.old.after ++ sheet held.now.page page ∷ [] }) }
    ensures low { held.now.page < page_limit }
{
    step.leave(Sheet::new(held.number(), page))
}

/// The step that was made, and room for so many pages to log it with.
pub(crate) fn with_room(
    alloc: Global,
    made: Result<Step, AllocError>,
    pages: usize,
) -> Result<(Step, Vec<Held>), AllocError>
    ensures made { IfOk result (λ r. made ≡ Ok r.0) }
    ensures none { IfOk result (λ r. (r.1).items ≡ []) }
    ensures room { IfOk result (λ r. pages ≤ vec_capacity r.1) }
{
    let step = made?;
    let room = Vec::with_capacity(alloc, pages)?;
    Ok((step, room))
}

/// Logs the step that was made, if any was, on one page that is held; it is given back.
pub(crate) fn log_one<D: Disk>(
    alloc: Global,
    frames: &mut Frames<D>,
    pass: &mut Pass,
    page: Held,
    made: Result<Step, AllocError>,
) -> Result<(), PlaceError>
    requires { MayLogMade D.Disk frames.old pass.old (page ∷ []) made }
    ensures none_held { pass.new.held ≡ 0 }
    ensures logged { OnOk result
        (LogsMade D.Disk frames.old pass.old (page ∷ []) made frames.new pass.new) }
    ensures refused { OnErr result (ReadsOn D.Disk frames.old pass.old frames.new pass.new) }
    ensures cause { IfErr result (λ e. CannotLog D.Disk frames.new e frames.old pass.old) }
    ensures fine { OnOk result (MetNoFault D.Disk frames.old frames.new) }
    ensures fault { IfErr result (λ e. FaultBy D.Disk frames.old frames.new e) }
{
    match with_room(alloc, made, 1) {
        Ok((step, mut pages)) => {
            pages.push_reserved(page);
            log_pages(frames, pass, pages, step)
        }
        Err(_) => {
            release(frames, pass, page);
            Err(PlaceError::OutOfMemory)
        }
    }
}
