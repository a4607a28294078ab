// What is synced of a device, as a device in memory that says nothing, and its pages.
ghost use Rattle.std.specs.Prelude.{◌≤◌, ◌^◌, [], IfOk};
ghost use Rattle.core_state.specs.Log.{xid_bound};
ghost use Rattle.buffer_frames.specs.Passes.{IsHolding};
ghost use Rattle.index_cases.specs.Working.{MayWork};
ghost use Rattle.index_cases.specs.Turns.{AreFresh};

use crate::rows::{number, word};
use bench_base::{Watch, WatchedDisk};
use buffer_frames::{Frames, OpenFault, Pass};
use core_state::Settings;
use disk_trait::{Disk, MemoryDisk};
use engine::WIDEST;
use std::alloc::{AllocError, Global};
use std::result;

/// It keeps nothing of the calls that it is told of.
#[derive(Clone, Copy)]
pub(crate) struct Unwatched;

impl Watch for Unwatched {
    /// Nothing is kept of it.
    fn begin(&mut self, _writes: bool) {}

    /// Nothing is kept of it.
    fn end(&mut self) {}
}

/// A device in memory that says nothing, so that a test may ask anything of it.
pub(crate) type Silent = WatchedDisk<Unwatched>;

/// What is synced of a device.
pub(crate) fn synced(alloc: Global, disk: &MemoryDisk) -> Result<Silent, AllocError> {
    let disk = disk.image(alloc, disk.calls(), 0)?;
    Ok(WatchedDisk {
        disk,
        watch: Unwatched,
    })
}

/// The settings of these words: how many pages there may be, and how many bytes of the log.
fn settings_of(words: &str) -> Settings
    ensures limit { result.log_limit ≤ 2 ^ 40 }
    ensures xids { result.xid_limit ≤ xid_bound }
{
    let (pages, words) = word(words);
    let (bytes, _) = word(words);
    let log_limit = match bytes.parse::<u32>() {
        Ok(most) => u64::from(most),
        Err(_) => WIDEST.log_limit,
    };
    Settings {
        pages: number(pages).min(WIDEST.pages),
        frames: WIDEST.frames,
        pending: WIDEST.pending,
        log_limit,
        xid_limit: WIDEST.xid_limit,
    }
}

/// The pages of a device, and their pass, with the settings of these words; opened once more where memory was refused.
pub(crate) fn opened<D: Disk>(
    alloc: Global,
    disk: D,
    words: &str,
) -> result::Result<(Frames<D>, Pass), (D, OpenFault)>
    ensures fresh { IfOk result (λ x. AreFresh x.0 x.1) }
    ensures may { IfOk result (λ x. MayWork x.0 x.1 16) }
    ensures idle { IfOk result (λ x. IsHolding D.Disk x.0 x.1 []) }
{
    let settings = settings_of(words);
    match Frames::open(alloc, disk, &settings) {
        Err((disk, OpenFault::OutOfMemory)) => Frames::open(alloc, disk, &settings),
        opened => opened,
    }
}
