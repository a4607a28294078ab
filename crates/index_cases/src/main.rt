//! Runs rows of calls over a store in memory, and prints what they find: by calls of the store, and by scans over its
//! pages, which say how many heads and pages they read; what the model, a second reading of logs, finds in the log that
//! they left, is printed too. With the word `time` some rows have more documents, searches and holds, and it is also
//! printed what each takes.
#![tactic(auto)]

mod cleaning;
mod deleting;
mod documents;
mod failing;
mod judging;
mod pages;
mod placing;
mod rows;
mod scans;
mod stores;
mod turns;
mod upkeep;
mod vacuuming;
mod working;

use anyhow::{Error, Result};
use bench_base::Bench;
use disk_trait::{Disk, File, MemoryDisk};
use rows::{ROWS, Row};
use std::alloc::Global;
use std::mem;

/// The error of a row that is refused, for this reason.
fn refused(why: &'static str) -> Error {
    Error::msg(why)
}

/// Puts bytes at a place of the log.
fn put(alloc: Global, disk: &mut MemoryDisk, row: Row<'_>) -> Result<()> {
    let bytes = hex::decode(alloc, row.words)?;
    let is_put = bytes.len() <= 1000
        && disk
            .write_at(File::Log, u64::from(row.times), &bytes)
            .is_ok()
        && disk.sync(File::Log).is_ok();
    if is_put {
        return Ok(());
    }
    Err(refused("the log takes no bytes"))
}

/// Prints counts, each with what is counted.
fn print_counts(bench: &Bench<'_>, counts: &[(u64, &str)]) -> Result<()> {
    for (count, what) in counts {
        bench.count(*count, what)?;
    }
    Ok(())
}

/// This device comes in place of the one before.
fn exchange(disk: &mut MemoryDisk, new: MemoryDisk) {
    drop(mem::replace(disk, new));
}

/// The device that a row leaves, where it is not refused.
fn given(done: Result<()>, left: MemoryDisk) -> Result<MemoryDisk> {
    match done {
        Ok(()) => Ok(left),
        Err(error) => {
            drop(left);
            Err(error)
        }
    }
}

/// Does what a row says with a device.
fn run_row(bench: &Bench<'_>, disk: &mut MemoryDisk, row: Row<'_>) -> Result<()> {
    let alloc = bench.alloc();
    match row.verb {
        "new" => {
            exchange(disk, MemoryDisk::new(alloc, Vec::new(alloc)));
            Ok(())
        }
        "log" => put(alloc, disk, row),
        "insert" | "search" | "delete" | "slot" => stores::run(bench, disk, row),
        "clean" | "place" | "vacuum" => working::run(bench, disk, row),
        "fail" => failing::run(bench, disk, row),
        "judge" => judging::run(bench, disk, row),
        "turn" => turns::run(bench, disk, row),
        "during" => turns::run_once(bench, disk, row),
        "hold" => scans::run_holds(bench, disk, row),
        "tree" => cleaning::run(bench, disk, row),
        _ => scans::run(bench, disk, row),
    }
}

/// Does what all rows say with a device. A row that is refused, as one that finds no memory, is done once more.
fn run_rows(bench: &Bench<'_>, disk: &mut MemoryDisk) -> Result<()> {
    for line in ROWS.lines() {
        let row = Row::new(line.trim(), bench.is_timed());
        if run_row(bench, disk, row).is_err() {
            run_row(bench, disk, row)?;
        }
    }
    Ok(())
}

/// The whole program.
fn run(bench: &Bench<'_>) -> Result<()> {
    let alloc = bench.alloc();
    let mut disk = MemoryDisk::new(alloc, Vec::new(alloc));
    let done = run_rows(bench, &mut disk);
    drop(disk);
    done
}

/// The whole program, at the process's own output.
fn main(rt: HostRuntime) -> Result<()> {
    run(&Bench::new(&rt)?)
}
