// Pages that are held: those on the way, and new ones.
ghost use Rattle.std.specs.Prelude.{◌≡◌, ◌≢◌, ℕ, ◌<◌, List, [], ◌∷◌, IfOk, IfErr, OnOk};
ghost use Rattle.std.specs.Prelude.{OnErr, IfSome, IfNone, IsErrOf, Some, ⊤};
ghost use Rattle.wal.specs.Waiting.{down_of};
ghost use Rattle.core_state.specs.Allowed.{Sheet as SheetValue};
ghost use Rattle.core_state.specs.PageChoice.{IsLeast, AreBelow};
ghost use Rattle.core_state.specs.States.{StateTells};
ghost use Rattle.buffer_frames.specs.Frames.{Lies, KeepsOthers};
ghost use Rattle.buffer_frames.specs.LogCauses.{IsCalm};
ghost use Rattle.buffer_frames.specs.Passes.{IsPassOf, IsHolding, Seen};
ghost use Rattle.page_space.specs.Taking.{IsTaken, HasNoPage};
ghost use Rattle.gin_place.specs.Placing.{HasRight};
ghost use Rattle.gin_place.specs.Causes.{Finds, CannotUse, HasLatestSince, IsBadNew, IsWhy, CannotHold};
ghost use Rattle.gin_place.specs.Faults.{MetNoFault, FaultBy};
ghost use Rattle.gin_place.specs.Holding.{ReadsOn, HoldsNoMore, HoldsMore, IsNewHeld};
ghost use Rattle.gin_place.specs.declared.error.PlaceError.TheVariants.{StoreFull, Down, BadPage};

use crate::asks::{Extent, NewPage};
use crate::error::PlaceError;
use crate::logging::release;
use buffer_frames::{Ask, Frames, Held, Pass};
use disk_trait::Disk;
use page_types::PAGE_LIMIT;

/// The refusal of a page that is held.
pub(crate) fn bad_page(held: &Held) -> PlaceError
    ensures { result ≡ BadPage held.now.page }
{
    PlaceError::BadPage {
        page: held.number(),
    }
}

/// Holds a page. A number past the last that a page may have is no page's.
pub fn hold_page<D: Disk>(
    frames: &mut Frames<D>,
    pass: &mut Pass,
    page: u32,
) -> Result<Held, PlaceError>
    requires pass { IsPassOf frames.old pass.old }
    requires right { HasRight pass.old }
    requires few { pass.old.held < 4 }
    ensures reads { ReadsOn D.Disk frames.old pass.old frames.new pass.new }
    ensures number { IfOk result (λ h. h.page ≡ page) }
    ensures holding { IfOk result (λ h. HoldsMore D.Disk frames.old pass.old frames.new pass.new h) }
    ensures lies { IfOk result (λ h. Lies frames.old page h.content) }
    ensures others { OnOk result (KeepsOthers frames.old frames.new (page ∷ [])) }
    ensures down { OnOk result (down_of frames.new.journal.wal ≡ down_of frames.old.journal.wal) }

    // The refusals: no page more is held.
    ensures still { OnErr result (HoldsNoMore D.Disk frames.old pass.old frames.new pass.new) }
    ensures cause { IfErr result (λ e. CannotHold D.Disk page frames.new e frames.old pass.old) }
    ensures fine { OnOk result (MetNoFault D.Disk frames.old frames.new) }
    ensures fault { IfErr result (λ e. FaultBy D.Disk frames.old frames.new e) }
{
    if page >= PAGE_LIMIT {
        return Err(PlaceError::BadPage { page });
    }
    Ok(frames.hold(pass, page)?)
}

/// Asks of the log, all of which the pass has then seen. The refusal: a journal that is down.
pub fn ask<D: Disk, T, A: Ask<T>>(
    frames: &mut Frames<D>,
    pass: &mut Pass,
    question: &A,
) -> Result<T, PlaceError>
    requires pass { IsPassOf frames.old pass.old }
    requires right { HasRight pass.old }
    ensures reads { ReadsOn D.Disk frames.old pass.old frames.new pass.new }
    ensures no_more { HoldsNoMore D.Disk frames.old pass.old frames.new pass.new }
    ensures answers { IfOk result (λ t.
        A.answers question.now frames.new.journal.state pass.new.floor pass.new.since t) }
    ensures all { OnOk result (pass.new.seen ≡ frames.new.journal.state.records) }
    ensures told { OnOk result (Seen D.Disk frames.new pass.new
        (λ S P. StateTells S frames.new.journal.state)) }
    ensures since { OnOk result (HasLatestSince frames.new pass.new) }
    ensures calm { IsCalm D.Disk frames.old.journal frames.new.journal }
    ensures down { IfErr result (λ e. (n : ℕ) × (e ≡ Down n) × (down_of frames.old.journal.wal ≡ Some n)) }
{
    Ok(frames.look(pass, question)?)
}

/// Holds a page of the way, alone; the pass has then seen all of the log. With it comes how far pages go.
pub fn hold_seen<D: Disk>(
    frames: &mut Frames<D>,
    pass: &mut Pass,
    page: u32,
) -> Result<(Held, u32), PlaceError>
    requires pass { IsPassOf frames.old pass.old }
    requires right { HasRight pass.old }
    requires none { pass.old.held ≡ 0 }
    ensures reads { ReadsOn D.Disk frames.old pass.old frames.new pass.new }
    ensures number { IfOk result (λ r. r.0.page ≡ page) }
    ensures holding { IfOk result (λ r. IsHolding D.Disk frames.new pass.new (r.0 ∷ [])) }
    ensures seen { IfOk result (λ r. Seen D.Disk frames.new pass.new
        (λ S P. P r.0.page ≡ r.0.content)) }
    ensures extent { IfOk result (λ r. IsLeast (AreBelow frames.new.journal.state) r.1) }
    ensures told { OnOk result (Seen D.Disk frames.new pass.new
        (λ S P. StateTells S frames.new.journal.state)) }
    ensures lies { IfOk result (λ r. Lies frames.old page r.0.content) }
    ensures down { OnOk result (down_of frames.new.journal.wal ≡ down_of frames.old.journal.wal) }

    // The refusals: no page is held.
    ensures still { OnErr result (pass.new.held ≡ 0) }
    ensures cause { IfErr result (λ e. Finds D.Disk frames.old pass.old
        (CannotHold D.Disk page frames.new e)) }
    ensures fine { OnOk result (MetNoFault D.Disk frames.old frames.new) }
    ensures fault { IfErr result (λ e. FaultBy D.Disk frames.old frames.new e) }
    ensures bad { (n : ℕ) → IsErrOf result (BadPage n)
        → (n ≡ page) × CannotUse frames.old (λ c. ⊤) n }
{
    let held = hold_page(frames, pass, page)?;
    match ask(frames, pass, &Extent) {
        Ok(extent) => Ok((held, extent)),
        Err(error) => {
            release(frames, pass, held);
            Err(error)
        }
    }
}

/// The page that is taken next as a new one, which is held; none where it is not taken any more once
/// it is held. Page 0 is the metapage, and never a new one.
fn take_page<D: Disk>(frames: &mut Frames<D>, pass: &mut Pass) -> Result<Option<Held>, PlaceError>
    requires pass { IsPassOf frames.old pass.old }
    requires right { HasRight pass.old }
    requires few { pass.old.held < 4 }
    requires holding { (held : List SheetValue) × IsHolding D.Disk frames.old pass.old held }
    ensures reads { ReadsOn D.Disk frames.old pass.old frames.new pass.new }
    ensures new { IfOk result (λ o. IfSome o
        (λ h. HoldsMore D.Disk frames.old pass.old frames.new pass.new h
        × IsNewHeld D.Disk frames.new pass.new h × (h.page ≢ 0))) }
    ensures taken { IfOk result (λ o. IfSome o
        (λ h. IsTaken frames.new.journal.state pass.new.since h.page)) }
    ensures old { IfOk result (λ o. IfNone o
        (HoldsNoMore D.Disk frames.old pass.old frames.new pass.new)) }

    // The refusals: no page more is held.
    ensures still { OnErr result (HoldsNoMore D.Disk frames.old pass.old frames.new pass.new) }
    ensures full { IsErrOf result StoreFull
        → HasNoPage frames.new.journal.state pass.new.since }
    ensures cause { IfErr result (λ e. Finds D.Disk frames.old pass.old
        (IsWhy D.Disk IsBadNew frames.new e)) }
    ensures fine { OnOk result (MetNoFault D.Disk frames.old frames.new) }
    ensures fault { IfErr result (λ e. FaultBy D.Disk frames.old frames.new e) }
{
    let Some(page) = ask(frames, pass, &NewPage)? else {
        return Err(PlaceError::StoreFull);
    };
    if page == 0 {
        return Err(PlaceError::BadPage { page });
    }
    let held = hold_page(frames, pass, page)?;
    match ask(frames, pass, &NewPage) {
        Ok(Some(again)) if again == page => Ok(Some(held)),
        Ok(_) => {
            release(frames, pass, held);
            Ok(None)
        }
        Err(error) => {
            release(frames, pass, held);
            Err(error)
        }
    }
}

/// A new page, which is held, last of all: the lowest that was deleted and may be taken again, else the
/// lowest unused one. Where it is taken no more once it is held, another is chosen; where that goes on
/// for as many tries as pages have numbers, the answer is OutOfMemory.
pub fn hold_new<D: Disk>(frames: &mut Frames<D>, pass: &mut Pass) -> Result<Held, PlaceError>
    requires pass { IsPassOf frames.old pass.old }
    requires right { HasRight pass.old }
    requires few { pass.old.held < 4 }
    requires holding { (held : List SheetValue) × IsHolding D.Disk frames.old pass.old held }
    ensures reads { ReadsOn D.Disk frames.old pass.old frames.new pass.new }
    ensures holding { IfOk result (λ h. HoldsMore D.Disk frames.old pass.old frames.new pass.new h) }
    ensures new { IfOk result (λ h. IsNewHeld D.Disk frames.new pass.new h) }
    ensures number { IfOk result (λ h. h.page ≢ 0) }
    ensures taken { IfOk result (λ h. IsTaken frames.new.journal.state pass.new.since h.page) }

    // The refusals: no page more is held.
    ensures still { OnErr result (HoldsNoMore D.Disk frames.old pass.old frames.new pass.new) }
    ensures full { IsErrOf result StoreFull
        → HasNoPage frames.new.journal.state pass.new.since }
    ensures cause { IfErr result (λ e. Finds D.Disk frames.old pass.old
        (IsWhy D.Disk IsBadNew frames.new e)) }
    ensures fine { OnOk result (MetNoFault D.Disk frames.old frames.new) }
    ensures fault { IfErr result (λ e. FaultBy D.Disk frames.old frames.new e) }
{
    for _ in 0..PAGE_LIMIT {
        if let Some(held) = take_page(frames, pass)? {
            return Ok(held);
        }
    }
    Err(PlaceError::OutOfMemory)
}
