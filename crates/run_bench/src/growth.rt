// What statements cost over a store that grows, and an opening of the log that they leave.
use crate::device::{Stopwatch, Times};
use crate::lines::{answered, print_two};
use crate::shell::{empty, run_script};
use crate::statements::{Series, all_series, script_of};
use anyhow::Result;
use bench_base::{Bench, Figure, WatchedDisk};
use disk_trait::{Disk, File, MemoryDisk};
use shell_run::NoGate;
use std::sync::Wait;
use std::thread::Threads;
use std::time::Duration;

/// A run of a script over an empty device: what it leaves.
fn run_timed<R: Threads + Wait + Sync>(
    rt: &R,
    bench: &Bench<'_>,
    times: &Times<'_>,
    script: &[u8],
) -> Result<MemoryDisk> {
    let alloc = bench.alloc();
    let disk = WatchedDisk {
        disk: empty(alloc),
        watch: Stopwatch::new(times),
    };
    let (_, left) = run_script(rt, alloc, script, disk, times)?;
    times.turn(0);
    Ok(left.disk)
}

/// Opens a store without a statement: how many calls its device has had.
fn open<R: Threads + Wait + Sync>(rt: &R, bench: &Bench<'_>, disk: MemoryDisk) -> Result<u64> {
    let alloc = bench.alloc();
    let (_, disk) = run_script(rt, alloc, b"", disk, &NoGate)?;
    let calls = disk.calls();
    drop(disk);
    Ok(calls)
}

/// Prints how long a statement of each series took, beside its calls of the device.
fn print_times(bench: &Bench<'_>, series: &[Series<'_>], times: &Times<'_>) -> Result<()> {
    for one in series {
        let seconds = Duration::from_nanos(times.of(one.session)).as_secs_f64();
        let count = one.count();
        bench.tell(u64::from(count), one.name, seconds, Figure::Each(count))?;
    }
    Ok(())
}

/// Opens the log that statements left, which has so many bytes.
fn open_again<R: Threads + Wait + Sync>(
    rt: &R,
    bench: &Bench<'_>,
    disk: MemoryDisk,
    bytes: u64,
) -> Result<()> {
    let start = bench.start();
    open(rt, bench, disk)?;
    let seconds = bench.since(start?)?;
    if bench.is_timed() {
        bench.tell(bytes, "bytes of its log, opened", seconds, Figure::Whole)?;
    }
    Ok(())
}

/// Prints how many calls a device has had beside those of an opening, and the bytes of its log, which are answered.
fn print_growth<R: Threads + Wait + Sync>(
    rt: &R,
    bench: &Bench<'_>,
    disk: &mut MemoryDisk,
) -> Result<u64> {
    let none = open(rt, bench, empty(bench.alloc()))?;
    let calls = disk.calls().saturating_sub(none);
    let bytes = answered(disk.length(File::Log))?;
    let pieces = [
        "a store that grows: ",
        " calls of the device, a log of ",
        " bytes",
    ];
    print_two(bench, pieces, calls, bytes)?;
    Ok(bytes)
}

/// Prints what the statements took: the bytes of the log are answered.
fn print_all<R: Threads + Wait + Sync>(
    rt: &R,
    bench: &Bench<'_>,
    series: &[Series<'_>],
    times: &Times<'_>,
    disk: &mut MemoryDisk,
) -> Result<u64> {
    let bytes = print_growth(rt, bench, disk)?;
    if bench.is_timed() {
        print_times(bench, series, times)?;
    }
    Ok(bytes)
}

/// Runs the statements, prints what they took, and opens their log.
fn run_series<R: Threads + Wait + Sync>(
    rt: &R,
    bench: &Bench<'_>,
    series: &[Series<'_>],
    times: &Times<'_>,
) -> Result<()> {
    let script = script_of(bench.alloc(), series)?;
    let mut disk = run_timed(rt, bench, times, &script)?;
    match print_all(rt, bench, series, times, &mut disk) {
        Ok(bytes) => open_again(rt, bench, disk, bytes),
        Err(error) => {
            drop(disk);
            Err(error)
        }
    }
}

/// Runs the statements, and prints how many calls of the device they make and the bytes of their log; where time is
/// asked for, also how long each took, and the opening of the log.
pub(crate) fn grow<R: Threads + Wait + Sync>(rt: &R, bench: &Bench<'_>) -> Result<()> {
    let series = all_series(bench.alloc(), bench.is_timed())?;
    let times = Times::begin(bench)?;
    run_series(rt, bench, &series, &times)
}
