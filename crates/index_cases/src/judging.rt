// What the model, a second reading of logs, finds in the log of a device.
use crate::pages::{Silent, synced};
use crate::refused;
use crate::rows::Row;
use anyhow::Result;
use bench_base::Bench;
use disk_trait::{Disk, File, MemoryDisk};
use log_scans::search_left;
use log_walks::Fault;
use std::alloc::Global;

/// The most bytes of a log that is read.
const MOST_BYTES: u64 = 1 << 30;

/// The bytes of a log; none where they are not read.
fn log_of(alloc: Global, disk: &mut Silent) -> Option<Vec<u8>> {
    let length = disk.length(File::Log).ok()?;
    if length > MOST_BYTES {
        return None;
    }
    let mut bytes = vec![in alloc; 0u8; length as usize].ok()?;
    disk.read(File::Log, 0, &mut bytes).ok()?;
    Some(bytes)
}

/// Prints how many documents the model doesn't leave out for the query of a row, and of how many it says yes without
/// their vector. The log is legal, each document is in one part of the index after each record, and judged rightly.
fn print_found(bench: &Bench<'_>, log: &[u8], row: Row<'_>) -> Result<()> {
    match search_left(bench.alloc(), log, row.words) {
        Ok(found) => {
            bench.count(found.kept.len() as u64, row.title)?;
            bench.count(found.yes.len() as u64, "without the vector")
        }
        Err(Fault::Broken(rule)) => Err(refused(rule)),
        Err(Fault::OutOfMemory) => Err(refused("a log is not judged")),
    }
}

/// The same for what is synced of a device.
pub(crate) fn run(bench: &Bench<'_>, disk: &MemoryDisk, row: Row<'_>) -> Result<()> {
    let mut image = synced(bench.alloc(), disk)?;
    let read = log_of(bench.alloc(), &mut image);
    drop(image);
    match read {
        Some(log) => print_found(bench, &log, row),
        None => Err(refused("a log is not read")),
    }
}
