// Scans over the pages that a store left.
ghost use Rattle.std.specs.Prelude.{◌≡◌, [], OnOk};
ghost use Rattle.buffer_frames.specs.Passes.{IsPassOf, IsHolding};
ghost use Rattle.gin_opclass.specs.Class.{meaning};
ghost use Rattle.gin_scan.specs.Scanning.{IsScanning, Scanning, IsAtEnd};
ghost use Rattle.gin_scan.specs.TextScans.{IsFor};
ghost use Rattle.ts_match.specs.Class.{asked_of, reads_all};
ghost use Rattle.ts_match.specs.Judging.{judged};
ghost use Rattle.ts_match.specs.Meaning.{Holds};
ghost use Rattle.index_cases.specs.Turns.{AreFresh};

use crate::pages::{opened, synced};
use crate::rows::Row;
use crate::{print_counts, refused};
use anyhow::Result;
use bench_base::{Bench, Figure};
use buffer_frames::{FrameError, Frames, Pass};
use disk_trait::{Disk, MemoryDisk};
use gin_scan::{Found, Scan};
use std::alloc::Global;
use std::result;
use ts_query::TsQuery;

/// Takes all steps of a scan: how many.
fn step_all<D: Disk>(
    alloc: Global,
    frames: &mut Frames<D>,
    pass: &mut Pass,
    scan: &mut Scan<'_>,
) -> result::Result<u64, FrameError>
    requires scanning { IsScanning frames.old pass.old scan.old.core }
    requires query { IsFor scan.old.query.now scan.old }
    requires walk { Scanning D.Disk (meaning asked_of reads_all Holds judged) scan.old.query.now
        frames.old pass.old scan.old.core }
    ensures scanning { OnOk result (IsScanning frames.new pass.new scan.new.core) }
    ensures query { OnOk result (IsFor scan.new.query.now scan.new) }
    ensures walk { OnOk result (Scanning D.Disk (meaning asked_of reads_all Holds judged)
        scan.new.query.now frames.new pass.new scan.new.core) }
    ensures end { OnOk result (IsAtEnd scan.new.core) }
{
    let mut steps: u64 = 0;
    while scan.step(alloc, frames, pass)? {
        steps = steps.saturating_add(1);
    }
    Ok(steps)
}

/// What a scan for a query finds, and how many steps it takes.
fn scan<D: Disk>(
    alloc: Global,
    frames: &mut Frames<D>,
    pass: &mut Pass,
    query: &TsQuery,
) -> result::Result<(u64, Found), FrameError>
    requires fresh { AreFresh frames.old pass.old }
{
    let mut scan = Scan::begin(alloc, frames, pass, query)?;
    match step_all(alloc, frames, pass, &mut scan) {
        Ok(steps) => Ok((steps, scan.finish(frames, pass))),
        Err(error) => {
            drop(scan);
            Err(error)
        }
    }
}

/// The same over what is synced of a device.
pub(crate) fn scan_on(
    alloc: Global,
    disk: &MemoryDisk,
    query: &TsQuery,
) -> result::Result<(u64, Found), FrameError> {
    let image = synced(alloc, disk)?;
    match opened(alloc, image, "") {
        Ok((mut frames, mut pass)) => {
            let scanned = scan(alloc, &mut frames, &mut pass, query);
            drop(frames);
            scanned
        }
        Err(unopened) => {
            drop(unopened);
            Err(FrameError::OutOfMemory)
        }
    }
}

/// Prints how many documents a scan finds, how many the judge did not leave out, how many heads and pages it read, and
/// in how many steps.
fn print_found(bench: &Bench<'_>, title: &str, steps: u64, found: &Found) -> Result<()> {
    let counts = [
        (found.names.len() as u64, title),
        (found.candidates, "candidates"),
        (found.heads_read, "heads read"),
        (found.pages_read, "pages read"),
        (steps, "steps"),
    ];
    print_counts(bench, &counts)
}

/// Prints what is counted of a scan for the query of a row, or which page it calls bad.
pub(crate) fn run(bench: &Bench<'_>, disk: &MemoryDisk, row: Row<'_>) -> Result<()> {
    let Ok(query) = TsQuery::parse(bench.alloc(), row.words) else {
        return Err(refused("no query"));
    };
    let scanned = scan_on(bench.alloc(), disk, &query);
    drop(query);
    match scanned {
        Ok((steps, found)) => print_found(bench, row.title, steps, &found),
        Err(FrameError::BadPage { page }) => bench.count(u64::from(page), row.title),
        Err(_) => Err(refused("a scan is refused")),
    }
}

/// Holds a page so often, and gives it back.
fn hold_often<D: Disk>(
    frames: &mut Frames<D>,
    pass: &mut Pass,
    times: u32,
) -> result::Result<(), FrameError>
    requires pass { IsPassOf frames.old pass.old }
    requires held { pass.old.held ≡ 0 }
    requires idle { IsHolding D.Disk frames.old pass.old [] }
{
    for _ in 0..times {
        let held = frames.hold(pass, 1)?;
        frames.release(pass, held);
    }
    Ok(())
}

/// Prints how often a page is held.
fn print_holds<D: Disk>(
    bench: &Bench<'_>,
    frames: &mut Frames<D>,
    pass: &mut Pass,
    row: Row<'_>,
) -> Result<()>
    requires pass { IsPassOf frames.old pass.old }
    requires held { pass.old.held ≡ 0 }
    requires idle { IsHolding D.Disk frames.old pass.old [] }
{
    let start = bench.start()?;
    if hold_often(frames, pass, row.times).is_err() {
        return Err(refused("a page is not held"));
    }
    bench.report(
        start,
        row.times as usize,
        row.title,
        Figure::Each(row.times),
    )
}

/// The same with the pages of what is synced of a device.
pub(crate) fn run_holds(bench: &Bench<'_>, disk: &MemoryDisk, row: Row<'_>) -> Result<()> {
    let image = synced(bench.alloc(), disk)?;
    match opened(bench.alloc(), image, "") {
        Ok((mut frames, mut pass)) => {
            let printed = print_holds(bench, &mut frames, &mut pass, row);
            drop(frames);
            printed
        }
        Err(unopened) => {
            drop(unopened);
            Err(refused("pages are not opened"))
        }
    }
}
