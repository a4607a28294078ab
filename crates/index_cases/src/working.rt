// Work on the trees of a device, and what it comes to.
ghost use Rattle.std.specs.Prelude.{◌≡◌};
ghost use Rattle.index_cases.specs.Working.{Works, MayWork};

use crate::cleaning::clean;
use crate::pages::{Silent, opened, synced};
use crate::placing::{Load, put_all};
use crate::rows::Row;
use crate::vacuuming::vacuum;
use crate::{exchange, given, refused};
use anyhow::Result;
use bench_base::{Bench, Figure};
use buffer_frames::{Ask, Frames, Pass};
use core_state::State;
use disk_trait::MemoryDisk;
use gin_place::PlaceError;
use std::alloc::Global;
use std::result;

/// How many records the log has.
struct Length;

impl Ask<u64> for Length {
    ghost use Rattle.std.specs.Prelude.{◌≡◌};

    ghost answers = { λ _ s floor since t. t ≡ s.records };

    fn ask(&self, state: &State, _floor: u32, _since: u64) -> u64 {
        state.length()
    }
}

/// What is done with the trees.
#[derive(Clone, Copy)]
enum Work {
    /// A load is put there.
    Put(Load),
    /// The pending list is moved there.
    Clean,
    /// What is dead is taken out.
    Vacuum,
}

impl Work {
    /// The work of a row, and the words that are left.
    fn of(row: Row<'_>) -> (Work, &str) {
        match row.verb {
            "place" => {
                let (load, words) = Load::of(row.times, row.words);
                (Work::Put(load), words)
            }
            "vacuum" => (Work::Vacuum, row.words),
            _ => (Work::Clean, row.words),
        }
    }
}

/// Does work once.
fn do_once(
    alloc: Global,
    frames: &mut Frames<Silent>,
    pass: &mut Pass,
    work: Work,
) -> result::Result<(), PlaceError>
    requires working { Works frames.old pass.old 16 }
    ensures working { Works frames.new pass.new 16 }
{
    match work {
        Work::Put(load) => put_all(alloc, frames, pass, load),
        Work::Clean => clean(alloc, frames, pass),
        Work::Vacuum => vacuum(alloc, frames, pass),
    }
}

/// Does work. What memory refused is done once more, with what it left.
fn do_work(
    alloc: Global,
    frames: &mut Frames<Silent>,
    pass: &mut Pass,
    work: Work,
) -> result::Result<(), PlaceError>
    requires working { Works frames.old pass.old 16 }
    ensures working { Works frames.new pass.new 16 }
{
    match do_once(alloc, frames, pass, work) {
        Err(PlaceError::OutOfMemory) => do_once(alloc, frames, pass, work),
        done => done,
    }
}

/// What work comes to: how many records it logs, how many seconds it takes, and what refuses it.
#[derive(Clone, Copy)]
pub(crate) struct Worked {
    records: u64,
    seconds: f64,
    pub(crate) done: result::Result<(), PlaceError>,
}

/// Claims the right of maintenance, does work, and flushes the log; none where the log is down.
fn work_on(
    bench: &Bench<'_>,
    frames: &mut Frames<Silent>,
    pass: &mut Pass,
    work: Work,
) -> Option<Worked>
    requires may { MayWork frames.old pass.old 16 }
    ensures room { pass.new.room ≡ 16 }
{
    frames.claim_work(pass);
    let before = frames.look(pass, &Length).ok()?;
    let start = bench.start().ok()?;
    let done = do_work(bench.alloc(), frames, pass, work);
    let seconds = bench.since(start).ok()?;
    let after = frames.look(pass, &Length).ok()?;
    frames.flush_log(pass).ok()?;
    Some(Worked {
        records: after.saturating_sub(before),
        seconds,
        done,
    })
}

/// Does the work of a row with the pages of a device: what it comes to, and the device then; none where the pages are
/// not opened, or the log is down.
pub(crate) fn done_on(bench: &Bench<'_>, disk: Silent, row: Row<'_>) -> (Option<Worked>, Silent) {
    let (work, words) = Work::of(row);
    match opened(bench.alloc(), disk, words) {
        Ok((mut frames, mut pass)) => {
            let worked = work_on(bench, &mut frames, &mut pass, work);
            (worked, frames.close(pass))
        }
        Err((disk, _)) => (None, disk),
    }
}

/// Prints how many records are logged by the work of a row, what it takes, and what refuses it.
fn print_worked(bench: &Bench<'_>, row: Row<'_>, worked: Option<Worked>) -> Result<()> {
    let Some(worked) = worked else {
        return Err(refused("pages are not opened, or a log is down"));
    };
    bench.tell(worked.records, row.title, worked.seconds, Figure::Whole)?;
    match worked.done {
        Ok(()) => Ok(()),
        Err(PlaceError::StoreFull) => bench.count(0, "pages are left"),
        Err(PlaceError::LogFull) => bench.count(0, "bytes are left in the log"),
        Err(_) => Err(refused("work is refused")),
    }
}

/// The same with what is synced of a device, which is left as it is where the row is refused.
pub(crate) fn run(bench: &Bench<'_>, disk: &mut MemoryDisk, row: Row<'_>) -> Result<()> {
    let image = synced(bench.alloc(), disk)?;
    let (worked, left) = done_on(bench, image, row);
    exchange(disk, given(print_worked(bench, row, worked), left.disk)?);
    Ok(())
}
