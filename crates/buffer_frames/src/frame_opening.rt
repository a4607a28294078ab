// The opening of pages in memory.
ghost use Rattle.std.specs.Prelude.{◌≡◌, ◌≤◌, ℕ, [], replicate, None, OnOk, IfOk, IfErr};
ghost use Rattle.wal.specs.Pages.{KeepsPages};
ghost use Rattle.wal.specs.declared.sizes.TheConstants.{LOG_LIMIT};
ghost use Rattle.core_state.specs.Log.{xid_bound};
ghost use Rattle.core_state.specs.History.{History};
ghost use Rattle.snap_pins.specs.declared.TheConstants.{PLACES};
ghost use Rattle.buffer_frames.specs.Beginnings.{BeginsOpened};
ghost use Rattle.buffer_frames.specs.NoStore.{IsNoStore};
ghost use Rattle.buffer_frames.specs.Opens.{OpensTo};
ghost use Rattle.buffer_frames.specs.Opening.{IsOpenedAt, HasStarted, LeavesRefused};
ghost use Rattle.buffer_frames.specs.First.{first_sheets};
ghost use Rattle.buffer_frames.specs.Homes.{HasPutBehind, HaveOpened};
ghost use Rattle.buffer_frames.specs.Passes.{IsPassOf, IsHolding, IsRightFree, IsWhole};
ghost use Rattle.buffer_frames.specs.declared.error.OpenFault.TheVariants.{NotAStore};
ghost use Rattle.buffer_frames.specs.declared.page_map.PageMap.{PageMap as PageMapValue};

use crate::error::OpenFault;
use crate::frames::Frames;
use crate::home::{Home, make_home, put_sheets};
use crate::journal::Journal;
use crate::laws::counted_are_one;
use crate::making::first_pages;
use crate::opening::open;
use crate::page_map::PageMap;
use crate::pass::Pass;
use core_state::Settings;
use disk_trait::Disk;
use snap_pins::Pins;
use std::alloc::{AllocError, Global};

/// How many passes there may be.
const ROOM: u32 = 16;

/// The pages of a new store lie here.
fn put_first(alloc: Global, homes: &mut Vec<Home>) -> Result<(), AllocError>
    ensures { OnOk result (HasPutBehind homes.old.items homes.new.items first_sheets) }
{
    let sheets = first_pages(alloc)?;
    make_home(homes, 1)?;
    put_sheets(homes, sheets);
    Ok(())
}

/// Where each page lies just after an opening: where the first record waits, its pages are there.
fn homes_of(alloc: Global, map: PageMap, owes: bool) -> Result<Vec<Home>, AllocError>
    ensures { IfOk result (λ homes. HaveOpened map owes homes.items) }
{
    let mut homes = map.into_homes(alloc)?;
    if !owes {
        put_first(alloc, &mut homes)?;
    }
    Ok(homes)
}

/// The pass that an opening gives: it has seen all, and has all room.
fn first_pass<D: Disk>(journal: &Journal<D>) -> Pass
    ensures { IsWhole journal.now result }
{
    let length = journal.state().length();
    let flushed = journal.flushed();
    Pass {
        seen: length,
        shown: flushed,
        floor: flushed,
        since: length,
        pin: None,
        held: 0,
        holds: 0,
        xid: None,
        room: ROOM,
        work: None,
    }
}

impl<D: Disk> Frames<D> {
    /// Opens the store of a device, and gives the pass that has all room. An empty store is made;
    /// where the log has no record, the first one waits.
    pub fn open(
        alloc: Global,
        disk: D,
        settings: &Settings,
    ) -> Result<(Frames<D>, Pass), (D, OpenFault)>
        requires limit { settings.now.log_limit ≤ LOG_LIMIT }
        requires xids { settings.now.xid_limit ≤ xid_bound }
        ensures opened { IfOk result (λ x. (c0 : ℕ) × (map : PageMapValue)
            × IsOpenedAt D.Disk settings.now disk c0 (x.0).journal map) }
        ensures started { IfOk result (λ x. HasStarted (x.0).journal.state) }
        ensures pass { IfOk result (λ x. IsPassOf x.0 x.1) }
        ensures whole { IfOk result (λ x. IsWhole (x.0).journal x.1) }
        ensures none_held { IfOk result (λ x. IsHolding D.Disk x.0 x.1 []) }
        ensures pins { IfOk result (λ x. (x.0).pins ≡ replicate PLACES None) }
        ensures free { IfOk result (λ x. IsRightFree x.0) }
        ensures keeps_pages { D.tells → IfOk result (λ x. KeepsPages D.Disk disk (x.0).journal.disk) }
        ensures since { IfOk result (λ x. (x.0).journal.opened ≡ (x.0).journal.disk) }
        ensures begins { D.tells → IfOk result (λ x. BeginsOpened D.Disk (x.0).journal) }
        ensures opens_on { D.tells → IfOk result (λ x. (H : History) → OpensTo (D.seen disk) H
            → OpensTo (D.seen (x.0).journal.disk) H) }

        // The refusals.
        ensures no_store { D.tells
            → IfErr result (λ e. e.1 ≡ NotAStore → IsNoStore (D.seen disk)) }
        ensures store { D.tells → IfOk result (λ x. IsNoStore (D.seen disk) → ⊥) }
        ensures refused { IfErr result (LeavesRefused D.Disk disk) }
    {
        counted_are_one();
        let (journal, map) = match open(alloc, disk, settings) {
            Ok(opened) => opened,
            Err((disk, why)) => return Err((disk, why)),
        };
        let pass = first_pass(&journal);
        match homes_of(alloc, map, journal.owes()) {
            Ok(homes) => {
                let pins = Pins::new();
                let frames = Frames {
                    alloc,
                    journal,
                    pins,
                    homes,
                };
                Ok((frames, pass))
            }
            Err(_) => Err((journal.close(), OpenFault::OutOfMemory)),
        }
    }
}
