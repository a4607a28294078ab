// Runs over logs that are cut, or have another byte.
use crate::faults::run_script;
use crate::runs::{Shell, empty, holding, log_of};
use crate::tally::Tally;
use std::mem;
use std::sync::Wait;
use std::thread::Threads;

/// What is asked of a log.
const OPENING: &[u8] = b"@1 search '!z'\n@1 insert vector 'd:1'\n";

/// What it is answered where the store has no document.
const NEW: &[u8] = b"@1 found\n@1 ok 2/0#1\n";

/// What it is answered where the store has those of the script.
const WHOLE: &[u8] = b"@1 found 2/2#3 2/3#4\n@1 ok 2/4#5\n";

/// How many bytes at the beginning of the log are each replaced.
const REPLACED: usize = 200;

/// Whether a run over a log prints this, or finds no store where nothing is to be printed and leaves the log as it was.
fn ends_so<R>(shell: &Shell<'_, R>, log: &[u8], text: &[u8]) -> bool
where
    R: Threads + Wait + Sync + AllocGlobal,
{
    let alloc = shell.alloc();
    let store = holding(alloc, log, Vec::new(alloc));
    if text.is_empty() {
        shell.refuses(OPENING, store, log)
    } else {
        shell.prints(OPENING, store, 0, text)
    }
}

/// The log that the script leaves. It is empty where it can't be read.
fn script_log<R>(shell: &Shell<'_, R>) -> Vec<u8>
where
    R: Threads + Wait + Sync + AllocGlobal,
{
    let alloc = shell.alloc();
    let mut ended = run_script(shell, empty(alloc));
    let log = log_of(alloc, &mut ended.store).unwrap_or(Vec::new(alloc));
    drop(ended);
    log
}

/// A log is cut: what a creation may have left is created, any other is no store.
fn see_cut_logs<R>(shell: &Shell<'_, R>, log: &[u8], tally: &mut Tally)
where
    R: Threads + Wait + Sync + Print + AllocGlobal,
{
    for len in 0..log.len() {
        if len <= 200 || len % 401 == 0 {
            let text = if len <= 17 { NEW } else { b"" };
            let holds = ends_so(shell, log.get(..len).unwrap_or(b""), text);
            tally.see(shell.rt, holds, "a log that is cut to bytes", len as u64);
        }
    }
    let holds = ends_so(shell, log, WHOLE);
    tally.see(shell.rt, holds, "a log of bytes", log.len() as u64);
}

/// What a run prints over a log of which the byte at this place is 99: nothing, as of no store, where the store's
/// commit byte is closed, the header's text is another, or what its first batch holds has no reading. Where the first
/// batch's commit byte is closed there is no batch. Any other byte is of a page that the first record changes, and no
/// statement reads it.
fn printed_over(place: usize) -> &'static [u8] {
    match place {
        17 => NEW,
        // the header, the batch's length, the record's length and kind
        0..=26 => b"",
        // its number, and how many pages it changes
        31..=39 => b"",
        // a page's number past the last one, the change's form, and the page's stamp
        42..=44 | 53..=60 => b"",
        _ => WHOLE,
    }
}

/// Puts a byte at a place, and gives the one that was there.
fn put(log: &mut [u8], place: usize, byte: u8) -> u8 {
    match log.get_mut(place) {
        Some(old) => mem::replace(old, byte),
        None => byte,
    }
}

/// A byte of a log is 99.
fn see_other_bytes<R>(shell: &Shell<'_, R>, log: &mut [u8], tally: &mut Tally)
where
    R: Threads + Wait + Sync + Print + AllocGlobal,
{
    let long = log.len() > REPLACED;
    tally.see(shell.rt, long, "a log is longer than", REPLACED as u64);
    for place in 0..REPLACED {
        let old = put(log, place, 99);
        let holds = ends_so(shell, log, printed_over(place));
        put(log, place, old);
        tally.see(shell.rt, holds, "a log with another byte at", place as u64);
    }
}

/// The log that the script leaves is cut, and gets another byte.
pub fn see_logs<R>(shell: &Shell<'_, R>, tally: &mut Tally)
where
    R: Threads + Wait + Sync + Print + AllocGlobal,
{
    let mut log = script_log(shell);
    see_cut_logs(shell, &log, tally);
    see_other_bytes(shell, &mut log, tally);
}
