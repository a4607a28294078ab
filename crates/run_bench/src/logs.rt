// A log of many records, and its opening.
use crate::lines::{answered, must, print_two};
use crate::shell::{empty, run_script};
use anyhow::Result;
use bench_base::{Bench, Figure};
use disk_trait::{Disk, File, MemoryDisk};
use shell_run::NoGate;
use std::alloc::{AllocError, Global};
use std::sync::Wait;
use std::thread::Threads;

/// How many batches of a thousand records a log has.
const SOME: u32 = 10;

/// How many it has where time is asked for.
const MANY: u32 = 1000;

/// How many transactions a batch has, each of two records.
const TRANSACTIONS: u32 = 500;

/// The bytes of a batch: a record that has no fields and changes no page has 18.
const BATCH_BYTES: u32 = TRANSACTIONS * 2 * 18;

/// The kind of the record that begins a transaction.
const BEGIN: u8 = 2;

/// The kind of the record that aborts it.
const ABORT: u8 = 4;

/// The most bytes of a log here.
const MOST_BYTES: usize = 1 << 30;

/// The document at the log's beginning, with its own transaction.
const INSERT: &[u8] = b"@1 insert vector 'a:1'\n";

/// What is asked of the store that is opened.
const SEARCH: &[u8] = b"@1 search 'a'\n";

/// What it answers.
const FOUND: &[u8] = b"@1 found 2/0#1\n";

/// A record without fields and changes: the length of what is after it, the kind, the xid, the number, and no change.
fn push_record(log: &mut Vec<u8>, kind: u8, xid: u32, number: u64) -> Result<(), AllocError> {
    log.extend_from_slice(&[14, 0, 0, 0, kind])?;
    log.extend_from_slice(&xid.to_le_bytes())?;
    log.extend_from_slice(&number.to_le_bytes())?;
    log.push(0)?;
    Ok(())
}

/// A batch after its commit byte: its length, and its records. Each transaction begins and aborts.
fn push_batch(log: &mut Vec<u8>, first: u32) -> Result<(), AllocError> {
    log.push(1)?;
    log.extend_from_slice(&BATCH_BYTES.to_le_bytes())?;
    for offset in 0..TRANSACTIONS {
        let xid = first.saturating_add(offset);
        let number = u64::from(xid).saturating_mul(2).saturating_add(3);
        push_record(log, BEGIN, xid, number)?;
        push_record(log, ABORT, xid, number.saturating_add(1))?;
    }
    Ok(())
}

/// The bytes of the log, without the closed commit byte at its end.
fn log_of(alloc: Global, disk: &mut MemoryDisk) -> Result<Vec<u8>> {
    let length = answered(disk.length(File::Log))?;
    let mut bytes = vec![in alloc; 0u8; length as usize]?;
    answered(disk.read(File::Log, 0, &mut bytes))?;
    must(bytes.pop() == Some(0), "a log ends with a closed gate")?;
    Ok(bytes)
}

/// The log of a run with one insert.
fn log_with_insert<R: Threads + Wait + Sync>(rt: &R, alloc: Global) -> Result<Vec<u8>> {
    let (_, mut disk) = run_script(rt, alloc, INSERT, empty(alloc), &NoGate)?;
    let log = log_of(alloc, &mut disk);
    drop(disk);
    log
}

/// So many batches come after the records of an insert, whose transaction is the first, and whose records have the
/// numbers up to 6.
fn push_batches(log: &mut Vec<u8>, batches: u32) -> Result<(), AllocError> {
    for batch in 0..batches {
        push_batch(log, batch.saturating_mul(TRANSACTIONS).saturating_add(2))?;
    }
    log.push(0)?;
    Ok(())
}

/// A device whose log has these bytes.
fn holding(alloc: Global, log: &[u8]) -> Result<MemoryDisk> {
    must(log.len() <= MOST_BYTES, "a log is too long")?;
    let mut disk = empty(alloc);
    match answered(disk.write_at(File::Log, 0, log)) {
        Ok(()) => Ok(disk),
        Err(error) => {
            drop(disk);
            Err(error)
        }
    }
}

/// A search of the store on a device, which finds the document: how many calls of the device there were.
fn search<R: Threads + Wait + Sync>(rt: &R, alloc: Global, disk: MemoryDisk) -> Result<u64> {
    let (replies, disk) = run_script(rt, alloc, SEARCH, disk, &NoGate)?;
    let calls = disk.calls();
    drop(disk);
    must(replies.bytes() == FOUND, "a search finds something else")?;
    Ok(calls)
}

/// Opens the store of a log with so many batches for a search, and prints what comes of it.
fn open<R: Threads + Wait + Sync>(
    rt: &R,
    bench: &Bench<'_>,
    log: &[u8],
    batches: u32,
) -> Result<()> {
    let disk = holding(bench.alloc(), log)?;
    let start = bench.start();
    let calls = search(rt, bench.alloc(), disk)?;
    let seconds = bench.since(start?)?;
    let pieces = [
        "",
        " batches of 1000 records in ",
        " bytes: status 0, @1 found 2/0#1",
    ];
    print_two(bench, pieces, u64::from(batches), log.len() as u64)?;
    bench.tell(calls, "calls of the device", seconds, Figure::Whole)
}

/// Opens a long log for a search.
pub(crate) fn open_log<R: Threads + Wait + Sync>(rt: &R, bench: &Bench<'_>) -> Result<()> {
    let batches = if bench.is_timed() { MANY } else { SOME };
    let mut log = log_with_insert(rt, bench.alloc())?;
    push_batches(&mut log, batches)?;
    open(rt, bench, &log, batches)
}
