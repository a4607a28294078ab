// A document that is deleted beside a scan, by a transaction of its own.
ghost use Rattle.std.specs.Prelude.{Some, IfOk, IfSome, OnOk};
ghost use Rattle.page_types.specs.Pages.{IsPage};
ghost use Rattle.index_cases.specs.Turns.{MayKeep, LetScan};
ghost use Rattle.index_cases.specs.Deleting.{Runs, IsPlain, IsXidThen, IsMarked, IsMark};

use buffer_frames::{Frames, Held, Pass, Sheet, Step};
use disk_trait::Disk;
use doc_heap::{head, mark};
use gin_place::PlaceError;
use gin_scan::scans_go_on;
use page_types::{Kind, MOST_SLOTS, Name, PAGE_LIMIT, Page};
use std::alloc::{AllocError, Global};
use std::result;
use ts_match::MatchWork;
use ts_query::TsQuery;

/// Logs the beginning of a transaction, or the end of this one.
fn log_plain<D: Disk>(
    alloc: Global,
    frames: &mut Frames<D>,
    pass: &mut Pass,
    kind: Kind,
    xid: u32,
) -> result::Result<(), PlaceError>
    requires silent { D.Disk.tells → ⊥ }
    requires runs { Runs frames.old pass.old pass.old.xid }
    requires plain { IsPlain kind xid pass.old.xid }
    ensures runs { OnOk result (Runs frames.new pass.new pass.new.xid) }
    ensures xid { OnOk result (IsXidThen kind pass.new.xid) }
    ensures scans { OnOk result (LetScan D.Disk frames.old frames.new) }
{
    scans_go_on::<D, TsQuery, MatchWork>();
    let step = Step::new(alloc, kind, xid);
    frames.log_step(pass, Vec::new(alloc), step)?;
    Ok(())
}

/// A heap page, on which the document in a slot is marked deleted; none where the slot is free.
fn with_mark(page: &Page, slot: u16, xid: u32) -> result::Result<Option<Page>, AllocError>
    requires { IsPage page.now }
    ensures { IfOk result (λ o. IfSome o (λ p. IsMarked slot p)) }
{
    let Some(_) = head(page, slot) else {
        return Ok(None);
    };
    let mut marked = page.clone()?;
    mark(&mut marked, slot, xid);
    Ok(Some(marked))
}

/// The step by which a transaction marks the document in a slot of a page deleted, which is held.
fn mark_step(
    alloc: Global,
    xid: u32,
    slot: u16,
    serial: u64,
    held: &Held,
) -> result::Result<Step, PlaceError>
    ensures { IfOk result (IsMark held.now.page xid) }
{
    let page = held.number();
    let Some(marked) = with_mark(held.page(), slot, xid)? else {
        return Err(PlaceError::BadPage { page });
    };
    let item = page * MOST_SLOTS as u32 + u32::from(slot);
    let mut step = Step::new(alloc, Kind::MarkDeleted { item, serial }, xid);
    step.leave(Sheet::new(page, marked))?;
    Ok(step)
}

/// Marks the document of a name deleted, and logs that.
fn log_mark<D: Disk>(
    alloc: Global,
    frames: &mut Frames<D>,
    pass: &mut Pass,
    name: Name,
    xid: u32,
) -> result::Result<(), PlaceError>
    requires silent { D.Disk.tells → ⊥ }
    requires runs { Runs frames.old pass.old (Some xid) }
    ensures runs { OnOk result (Runs frames.new pass.new (Some xid)) }
    ensures scans { OnOk result (LetScan D.Disk frames.old frames.new) }
{
    scans_go_on::<D, TsQuery, MatchWork>();
    let page = name.page;
    if page >= PAGE_LIMIT {
        return Err(PlaceError::BadPage { page });
    }
    let mut pages = Vec::new(alloc);
    pages.reserve(1)?;
    let held = frames.hold(pass, page)?;
    match mark_step(alloc, xid, name.slot, name.serial, &held) {
        Ok(step) => {
            pages.push_reserved(held);
            frames.log_step(pass, pages, step)?;
            Ok(())
        }
        Err(error) => {
            drop(held);
            Err(error)
        }
    }
}

/// Deletes the document of a name, by a pass that has the right of maintenance, and flushes the log.
pub(crate) fn delete<D: Disk>(
    alloc: Global,
    frames: &mut Frames<D>,
    pass: &mut Pass,
    name: Name,
) -> result::Result<(), PlaceError>
    requires silent { D.Disk.tells → ⊥ }
    requires may { MayKeep frames.old pass.old }
    ensures may { OnOk result (MayKeep frames.new pass.new) }
    ensures scans { OnOk result (LetScan D.Disk frames.old frames.new) }
{
    scans_go_on::<D, TsQuery, MatchWork>();
    log_plain(alloc, frames, pass, Kind::Begin, 0)?;
    let Some(xid) = pass.xid() else {
        return Err(PlaceError::OutOfMemory);
    };
    log_mark(alloc, frames, pass, name, xid)?;
    log_plain(alloc, frames, pass, Kind::Commit { commit: 0 }, xid)?;
    Ok(frames.flush_log(pass)?)
}
