// Runs and calls over the files of the working directory, and over files in memory whose calls are short.
use crate::compare::count_of;
use crate::runs::{Shell, empty, image_at};
use crate::tally::Tally;
use anyhow::{Result, ensure};
use disk_file::{FileDisk, MemoryFolder, SystemFolder};
use disk_trait::{Disk, Failed, File, MemoryDisk};
use std::fs;
use std::os::unix::fs::symlink;
use std::sync::Wait;
use std::thread::Threads;

/// The store's files.
const LOG: &str = "ginsh.log";

const PAGES: &str = "ginsh.data";

/// How many bytes a call on a file in memory gives or takes at most.
const SHORT: usize = 1000;

/// Two inserts, and what they are answered.
const INSERTS: &[u8] = b"@1 insert vector 'cat:1'\n@2 insert vector 'rat:1'\n";

const STORED: &[u8] = b"@1 ok 2/0#1\n@2 ok 2/1#2\n";

/// A search that finds both.
const SEARCH: &[u8] = b"@1 search '!dog'\n";

const FOUND: &[u8] = b"@1 found 2/0#1 2/1#2\n";

/// A search that finds one of them, and goes on.
const MORE: &[u8] = b"@1 search 'cat'\n@1 insert vector 'cat:2'\n@1 search 'cat'\n";

const REPLIES: &[u8] = b"@1 found 2/0#1\n@1 ok 2/2#3\n@1 found 2/0#1 2/2#3\n";

/// Calls of a device over files, each with what it is answered: a number of bytes or of faults, `ok` or `failed`. A
/// read says from where, into how many bytes and what is then in a buffer of eight, in which 7s were.
const MADE: &str = "\
length log = 0
write log 3 cat = ok
read log 0 8 \0\0\0cat\x07\x07 = 6
read log 6 8 \x07\x07\x07\x07\x07\x07\x07\x07 = 0
sync log = ok
write pages 0 fat = ok";

/// What is beside it is no fault of a device.
const CALM: &str = "faults log = 0";

/// Those of a device beside it.
const BESIDE: &str = "\
length log = failed
faults log = 1";

/// Those of one that comes later.
const KEPT: &str = "\
length log = 6
length pages = 3
read log 1 4 \0\0ca\x07\x07\x07\x07 = 4";

/// Those of one of which a file is a folder.
const FOLDER: &str = "\
write pages 0 a = failed
length log = 6
faults log = 1";

/// Those of a device whose log is full.
const FULL: &str = "\
write log 0 cat = failed
sync log = failed
faults log = 2";

/// Its other file is no fault.
const OTHER: &str = "\
sync pages = ok
faults log = 2";

/// Where that other file is the memory of the process: it can't be read or synced.
const UNREAD: &str = "\
read pages 0 4 \x07\x07\x07\x07\x07\x07\x07\x07 = failed
sync pages = failed
faults log = 4";

/// A device over the files of the working directory.
type Store<'a> = FileDisk<SystemFolder<'a, HostRuntime>>;

/// A device that has opened no file yet.
fn store_in(files: &HostRuntime) -> Store<'_> {
    FileDisk::new(SystemFolder::new(files))
}

/// Whether a call gives this number, or fails where there is none.
fn gives(answer: Result<u64, Failed>, wanted: &str) -> bool {
    match (answer, wanted.parse::<u64>()) {
        (Ok(number), Ok(wanted)) => number == wanted,
        (Err(_), Err(_)) => true,
        _ => false,
    }
}

/// Whether a read gives so many bytes, or fails.
fn reads_so<D: Disk>(store: &mut D, file: File, at: u32, part: &str, wanted: &str) -> bool {
    let (size, left) = part.split_once(' ').unwrap_or((part, ""));
    let mut buf = [7u8; 8];
    let Some(place) = buf.get_mut(..size.parse::<usize>().unwrap_or(0)) else {
        return false;
    };
    match store.read(file, u64::from(at), place) {
        Ok(n) => gives(Ok(n as u64), wanted) && buf.as_slice() == left.as_bytes(),
        Err(_) => wanted == "failed",
    }
}

/// Whether a call is answered as its row says.
fn answers<D: Disk>(store: &mut D, row: &str) -> bool {
    let (call, wanted) = row.rsplit_once(" = ").unwrap_or((row, ""));
    let mut words = call.splitn(4, ' ');
    let verb = words.next().unwrap_or("");
    let file = match words.next() {
        Some("pages") => File::Pages,
        _ => File::Log,
    };
    let at = words.next().unwrap_or("").parse::<u32>().unwrap_or(0);
    let part = words.next().unwrap_or("");
    match verb {
        "length" => gives(store.length(file), wanted),
        "faults" => gives(Ok(store.faults()), wanted),
        "sync" => store.sync(file).is_ok() == (wanted == "ok"),
        "read" => reads_so(store, file, at, part, wanted),
        _ if part.len() > 8 => false,
        _ => store.write_at(file, u64::from(at), part.as_bytes()).is_ok() == (wanted == "ok"),
    }
}

/// Whether each call of these rows is answered so.
fn follows<D: Disk>(store: &mut D, rows: &str) -> bool {
    let mut holds = true;
    for row in rows.lines() {
        holds = answers(store, row) && holds;
    }
    holds
}

/// Whether files are made, and a gap in one is zeros; and who comes beside is refused.
fn are_made(files: &HostRuntime) -> bool {
    let mut first = store_in(files);
    let made = follows(&mut first, MADE);
    let refused = follows(&mut store_in(files), BESIDE);
    made & refused & follows(&mut first, CALM)
}

/// Files keep what was written, and a folder in the place of one is refused.
pub fn see_files(files: &HostRuntime, tally: &mut Tally) -> Result<()> {
    let there = fs::exists(files, LOG)? || fs::exists(files, PAGES)?;
    ensure!(!there, "a store is there already");
    tally.see(files, are_made(files), "files are made", 0);
    let kept = follows(&mut store_in(files), KEPT);
    tally.see(files, kept, "files are kept", 0);
    fs::remove_file(files, PAGES)?;
    fs::create_dir(files, PAGES)?;
    let refused = follows(&mut store_in(files), FOLDER);
    tally.see(files, refused, "a folder is refused", 0);
    fs::remove_dir(files, PAGES)?;
    fs::remove_file(files, LOG)?;
    Ok(())
}

/// Whether a device whose log is full follows these rows after those of a full one.
fn is_full(files: &HostRuntime, rows: &str) -> bool {
    let mut store = store_in(files);
    let full = follows(&mut store, FULL);
    full & follows(&mut store, rows)
}

/// A device that is full refuses a write and a sync, and the memory of the process, where it has none, a read and a
/// sync. Each is counted, and the sync of another file is not one.
pub fn see_refused_calls(files: &HostRuntime, tally: &mut Tally) -> Result<()> {
    symlink(files, "/dev/full", LOG)?;
    tally.see(files, is_full(files, OTHER), "a full device", 0);
    fs::remove_file(files, PAGES)?;
    symlink(files, "/proc/self/mem", PAGES)?;
    tally.see(
        files,
        is_full(files, UNREAD),
        "the memory of the process",
        0,
    );
    fs::remove_file(files, PAGES)?;
    fs::remove_file(files, LOG)?;
    Ok(())
}

/// Whether a run stores two documents, one beside it has status 3 and prints nothing, and the first store finds both.
fn is_alone<R, D>(shell: &Shell<'_, R>, store: D, beside: D) -> bool
where
    R: Threads + Wait + Sync + AllocGlobal,
    D: Disk + Send + Drop,
{
    let first = shell.run_on(INSERTS, store);
    let stored = first.status == 0 && first.out.bytes() == STORED;
    let refused = shell.prints(INSERTS, beside, 3, b"");
    stored & refused & shell.prints(SEARCH, first.store, 0, FOUND)
}

/// A second run finds what a first one stored, and goes on with its names. Beside a run another has
/// status 3, and prints nothing; and so has one where a file is a folder.
pub fn see_runs<R>(shell: &Shell<'_, R>, files: &HostRuntime, tally: &mut Tally) -> Result<()>
where
    R: Threads + Wait + Sync + Print + AllocGlobal,
{
    let alone = is_alone(shell, store_in(files), store_in(files));
    tally.see(files, alone, "a run beside another", 0);
    let goes_on = shell.prints(MORE, store_in(files), 0, REPLIES);
    tally.see(files, goes_on, "a second run over files", 0);
    fs::remove_file(files, PAGES)?;
    fs::create_dir(files, PAGES)?;
    let refused = shell.prints(MORE, store_in(files), 3, b"");
    tally.see(files, refused, "a run over a folder", 0);
    fs::remove_dir(files, PAGES)?;
    fs::remove_file(files, LOG)?;
    Ok(())
}

/// How many documents a run finds, where it ends well.
fn found_on<R, D>(shell: &Shell<'_, R>, store: D) -> Option<usize>
where
    R: Threads + Wait + Sync + AllocGlobal,
    D: Disk + Send + Drop,
{
    let ended = shell.run_on(SEARCH, store);
    if ended.status == 0 {
        Some(count_of(ended.out.bytes(), b'#'))
    } else {
        None
    }
}

/// How many documents a stop leaves, where the run over it ends well.
fn left_by<R>(shell: &Shell<'_, R>, disk: &MemoryDisk, moment: u64, pick: u64) -> Option<usize>
where
    R: Threads + Wait + Sync + AllocGlobal,
{
    match image_at(shell.alloc(), disk, moment, pick) {
        Some(image) => found_on(shell, FileDisk::new(MemoryFolder::new(image, SHORT))),
        None => None,
    }
}

/// A stop at each moment of two inserts, also within a write that is done in parts, leaves a beginning of them, which
/// has each that was answered by then.
fn see_each_stop<R>(shell: &Shell<'_, R>, tally: &mut Tally, disk: &MemoryDisk)
where
    R: Threads + Wait + Sync + Print + AllocGlobal,
{
    let mut most = 0;
    for moment in 0..=disk.calls() {
        for pick in 0..4 {
            let left = left_by(shell, disk, moment, pick);
            let count = left.unwrap_or(0);
            let holds = left.is_some() && most <= count.saturating_add(1);
            tally.see(shell.rt, holds, "a stop between short calls at", moment);
            most = most.max(count);
        }
    }
    tally.see(shell.rt, most == 2, "stops that leave at most", most as u64);
}

/// Two inserts whose calls are short, and a stop at each moment of them.
pub fn see_stops<R>(shell: &Shell<'_, R>, tally: &mut Tally)
where
    R: Threads + Wait + Sync + Print + AllocGlobal,
{
    let folder = MemoryFolder::new(empty(shell.alloc()), SHORT);
    let ended = shell.run_on(INSERTS, FileDisk::new(folder));
    let stored = ended.status == 0 && ended.out.bytes() == STORED;
    tally.see(shell.rt, stored, "short calls", 0);
    see_each_stop(shell, tally, ended.store.folder().disk());
    drop(ended);
}
