// Inserts into stores that lie in files, beside bare writes and syncs, and a search of such a store.
use crate::lines::{must, print_two};
use crate::shell::run_script;
use anyhow::Result;
use bench_base::{Bench, Figure};
use disk_file::{FileDisk, SystemFolder};
use shell_run::NoGate;
use std::fs::{self, OpenOptions};
use std::io;
use std::os::unix::fs::FileExt;
use std::sync::Wait;
use std::thread::Threads;

/// The log's name.
const LOG: &str = "ginsh.log";

/// The page file's name.
const PAGES: &str = "ginsh.data";

/// The bare file's name.
const BARE: &str = "bare";

/// An insert of eight words.
const INSERT: &str = "@1 insert vector 'a b c d e f g h'\n";

/// How many of them a store is measured by. Its one page of documents has room for them.
const INSERTS: u32 = 100;

/// How many such stores there are, one after another.
const ROUNDS: u32 = 2;

/// What is printed of these.
const COSTS: [&str; 3] = [
    "2 stores of 100 inserts of 8 words: ",
    " bytes of log\na bare file: ",
    " bytes",
];

/// An insert of one word, so that one page has room for many.
const SMALL: &str = "@1 insert vector 'a'\n";

/// How many documents the store has that is opened for a search.
const DOCUMENTS: usize = 200;

/// What is asked of it.
const SEARCH: &str = "@1 search 'a'\n";

/// The most bytes of a piece.
const MOST_BYTES: u64 = 1 << 20;

/// What a part has taken.
#[derive(Clone, Copy)]
struct Cost {
    /// How long.
    seconds: f64,
    /// How many bytes were written.
    bytes: u64,
}

impl Cost {
    /// Both together.
    fn and(self, other: Cost) -> Cost {
        Cost {
            seconds: self.seconds + other.seconds,
            bytes: self.bytes.saturating_add(other.bytes),
        }
    }
}

/// Runs a script so many times over the store in the working directory: how many names are in its replies.
fn run_over_files<R: Threads + Wait + Sync>(
    rt: &R,
    bench: &Bench<'_>,
    script: &str,
    times: usize,
) -> Result<u64> {
    let alloc = bench.alloc();
    let script = script.repeat(alloc, times)?;
    let disk = FileDisk::new(SystemFolder::new(bench.runtime()));
    let (replies, disk) = run_script(rt, alloc, script.as_bytes(), disk, &NoGate)?;
    drop(disk);
    Ok(names_in(replies.bytes()))
}

/// How many names are in a text.
fn names_in(text: &[u8]) -> u64 {
    let mut names = 0u64;
    for byte in text {
        if *byte == b'#' {
            names = names.saturating_add(1);
        }
    }
    names
}

/// Removes the store's files.
fn remove_store(bench: &Bench<'_>) -> Result<()> {
    fs::remove_file(bench.runtime(), LOG)?;
    fs::remove_file(bench.runtime(), PAGES)?;
    Ok(())
}

/// Inserts documents into a new store.
fn insert<R: Threads + Wait + Sync>(rt: &R, bench: &Bench<'_>) -> Result<Cost> {
    let start = bench.start()?;
    run_over_files(rt, bench, INSERT, INSERTS as usize)?;
    let seconds = bench.since(start)?;
    let bytes = fs::metadata(bench.runtime(), LOG)?.len();
    remove_store(bench)?;
    Ok(Cost { seconds, bytes })
}

/// Writes bytes at a place, and syncs them.
fn write_and_sync(file: &fs::File, bytes: &[u8], at: u64) -> io::Result<()> {
    file.write_all_at(bytes, at)?;
    file.sync_data()
}

/// Writes a piece to the bare file and syncs it, then a byte after it and syncs that, as often as there are inserts,
/// each piece after the last. It answers how many bytes are written.
fn write_pieces(files: &HostRuntime, piece: &[u8]) -> Result<u64> {
    let file = OpenOptions::new()
        .write(true)
        .create(true)
        .open(files, BARE)?;
    let mut at = 0u64;
    for _ in 0..INSERTS {
        write_and_sync(&file, piece, at)?;
        at = at.saturating_add(piece.len() as u64);
        write_and_sync(&file, &[1], at)?;
    }
    Ok(at.saturating_add(1))
}

/// Writes about so many bytes to a bare file, as often as there are inserts.
fn write_bare(bench: &Bench<'_>, bytes: u64) -> Result<Cost> {
    let start = bench.start()?;
    let share = (bytes / u64::from(INSERTS)).min(MOST_BYTES);
    let piece = vec![in bench.alloc(); 7u8; share as usize]?;
    let bytes = write_pieces(bench.runtime(), &piece)?;
    let seconds = bench.since(start)?;
    fs::remove_file(bench.runtime(), BARE)?;
    Ok(Cost { seconds, bytes })
}

/// Prints how many bytes were written to stores and to bare files, and where time is asked for how long that took.
fn print_costs(bench: &Bench<'_>, stores: Cost, bare: Cost) -> Result<()> {
    print_two(bench, COSTS, stores.bytes, bare.bytes)?;
    if bench.is_timed() {
        let out = bench.runtime();
        let times = stores.seconds / bare.seconds;
        println!(out;
            "stores {:.3} seconds, bare {:.3} seconds, {times:.2} times",
            stores.seconds, bare.seconds
        )?;
    }
    Ok(())
}

/// Compares inserts with bare writes and syncs.
fn compare<R: Threads + Wait + Sync>(rt: &R, bench: &Bench<'_>) -> Result<()> {
    let none = Cost {
        seconds: 0.0,
        bytes: 0,
    };
    let (mut stores, mut bare) = (none, none);
    for _ in 0..ROUNDS {
        let store = insert(rt, bench)?;
        stores = stores.and(store);
        bare = bare.and(write_bare(bench, store.bytes)?);
    }
    print_costs(bench, stores, bare)
}

/// Opens a store of many documents for one search, and prints how many it finds.
fn open_and_search<R: Threads + Wait + Sync>(rt: &R, bench: &Bench<'_>) -> Result<()> {
    run_over_files(rt, bench, SMALL, DOCUMENTS)?;
    let start = bench.start()?;
    let found = run_over_files(rt, bench, SEARCH, 1)?;
    let seconds = bench.since(start)?;
    remove_store(bench)?;
    let pieces = ["a store of ", " documents: status 0, ", " found"];
    print_two(bench, pieces, DOCUMENTS as u64, found)?;
    if bench.is_timed() {
        bench.tell(1, "opening for that search", seconds, Figure::Whole)?;
    }
    Ok(())
}

/// Inserts into stores beside bare writes and syncs; then opens a store.
pub(crate) fn run_files<R: Threads + Wait + Sync>(rt: &R, bench: &Bench<'_>) -> Result<()> {
    let files = bench.runtime();
    let there = fs::exists(files, LOG)? || fs::exists(files, PAGES)?;
    must(!there, "a store is there already")?;
    compare(rt, bench)?;
    open_and_search(rt, bench)
}
