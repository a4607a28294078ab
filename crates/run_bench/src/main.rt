//! Opens a log of many records of transactions that begin and abort; inserts, updates, deletes and searches documents
//! of a store that grows in memory, and opens its log; inserts documents into stores that lie in the files of the
//! working directory, and writes and syncs as many bytes as often to a bare file; and opens a store of many documents
//! there for one search. It prints counts. With the word `time` there are a million records in place of 10,000 and
//! 20,000 inserts in place of 200, and it is also printed how long the openings take, what each statement costs beside
//! its calls of the device, among few documents and among many, and how long the inserts into files and the bare writes
//! take. With `log`, `growth` or `files` it does that part alone. The files are made new, and are removed at the end.
#![tactic(auto)]

mod device;
mod files;
mod growth;
mod lines;
mod logs;
mod shell;
mod statements;

use anyhow::Result;
use bench_base::Bench;
use files::run_files;
use growth::grow;
use logs::open_log;
use std::sync::Wait;
use std::thread::Threads;

/// The whole program.
fn run<R: Threads + Wait + Sync>(rt: &R, bench: &Bench<'_>) -> Result<()> {
    if bench.runs("log") {
        open_log(rt, bench)?;
    }
    if bench.runs("growth") {
        grow(rt, bench)?;
    }
    if bench.runs("files") {
        run_files(rt, bench)?;
    }
    Ok(())
}

/// The whole program, at the process's own words, output, clock and files.
fn main(rt: HostRuntime) -> Result<()> {
    run(&rt, &Bench::new(&rt)?)
}
