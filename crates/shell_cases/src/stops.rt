// What runs of inserts, updates, deletes and a vacuum leave on a device, where a crash or a failing call cuts them
// short.
use crate::runs::{Ended, Shell, empty, failing, image_at};
use crate::short::expanded;
use crate::tally::Tally;
use anyhow::Result;
use disk_trait::{Disk, MemoryDisk};
use std::sync::Wait;
use std::thread::Threads;

/// Statements over documents that `GO_ON` finds, from an empty store on. The second document's rows are on three pages.
/// The vacuum frees four slots, and the insert after it takes the first of them.
const STATEMENTS: &str = "@1 insert vector 'a:1'
@1 insert vector 'a:2 {0~7~@~ }'
@1 update 2/0#1 vector 'a:3'
@1 delete 2/1#2
@1 insert vector 'a:4'
@1 update 2/2#3 vector 'a:5'
@1 delete 2/3#4
@1 vacuum
@1 insert vector 'a:6'
";

/// How many of them a first run has; a second one has the others.
const FIRST: usize = 4;

const SECOND: usize = 5;

/// The one of them whose records are on the device only when the next one's are.
const VACUUM: &[u8] = b"@1 vacuum\n";

/// What a statement prints where a call of the device fails.
const FAILED_REPLY: &[u8] = b"@1 error 15 device\n";

/// A search for all documents, and one insert more.
const GO_ON: &[u8] = b"@1 search 'a'\n@1 insert vector 'a:1'\n";

/// What that prints after none of the statements, after one, after two and so on.
const REPLIES: &str = "@1 found
@1 ok 2/0#1
;@1 found 2/0#1
@1 ok 2/1#2
;@1 found 2/0#1 2/1#2
@1 ok 2/2#3
;@1 found 2/1#2 2/2#3
@1 ok 2/3#4
;@1 found 2/2#3
@1 ok 2/3#4
;@1 found 2/2#3 2/3#4
@1 ok 2/4#5
;@1 found 2/3#4 2/4#5
@1 ok 2/5#6
;@1 found 2/4#5
@1 ok 2/5#6
;@1 found 2/4#5
@1 ok 2/0#6
;@1 found 2/4#5 2/0#6
@1 ok 2/1#7
";

/// What is after so many lines of a text.
fn after_lines(text: &str, count: usize) -> &str {
    let mut rest = text;
    for _ in 0..count {
        rest = match rest.split_once('\n') {
            Some((_, rest)) => rest,
            None => "",
        };
    }
    rest
}

/// So many lines of a text, those after the first `done`.
fn lines_after(text: &str, done: usize, count: usize) -> &[u8] {
    let lines = after_lines(text, done);
    let len = lines.len().saturating_sub(after_lines(lines, count).len());
    lines.as_bytes().get(..len).unwrap_or(b"")
}

/// A device after a run of the first `done` lines of a text, where these are any.
fn begun<R, D>(shell: &Shell<'_, R>, text: &str, store: D, done: usize) -> D
where
    R: Threads + Wait + Sync + AllocGlobal,
    D: Disk + Send + Drop,
{
    if done == 0 {
        return store;
    }
    shell.run_on(lines_after(text, 0, done), store).store
}

/// A run of so many lines of a text after the first `done`; those are in a run of their own before it, where there are
/// any.
fn run_after<'a, R, D>(
    shell: &Shell<'_, R>,
    text: &'a str,
    store: D,
    done: usize,
    count: usize,
) -> Ended<'a, D>
where
    R: Threads + Wait + Sync + AllocGlobal,
    D: Disk + Send + Drop,
{
    let store = begun(shell, text, store, done);
    shell.run_on(lines_after(text, done, count), store)
}

/// How many calls such runs make of a device of which none fails.
fn calls_after<R>(shell: &Shell<'_, R>, text: &str, done: usize, count: usize) -> u64
where
    R: Threads + Wait + Sync + AllocGlobal,
{
    let store = empty(shell.alloc());
    let ended = run_after(shell, text, store, done, count);
    let calls = ended.store.calls();
    drop(ended);
    calls
}

/// Whether this is printed after so many statements, or after so many more.
fn is_printed(text: &[u8], least: usize, more: usize) -> bool {
    let mut found = false;
    for replies in REPLIES.split(';').skip(least).take(more.saturating_add(1)) {
        found = found || replies.as_bytes() == text;
    }
    found
}

/// Whether a store opens and goes on, as after so many statements, or after so many more.
fn goes_on<R, D>(shell: &Shell<'_, R>, store: D, least: usize, more: usize) -> bool
where
    R: Threads + Wait + Sync + AllocGlobal,
    D: Disk + Send + Drop,
{
    let run = shell.run_on(GO_ON, store);
    run.status == 0 && is_printed(run.out.bytes(), least, more)
}

/// Whether a stop at a moment leaves what a beginning of the statements leaves, at least so many and at most so many
/// more, and a run goes on from there.
fn stops_so<R>(
    shell: &Shell<'_, R>,
    disk: &MemoryDisk,
    moment: u64,
    pick: u64,
    least: usize,
    more: usize,
) -> bool
where
    R: Threads + Wait + Sync + AllocGlobal,
{
    match image_at(shell.alloc(), disk, moment, pick) {
        Some(image) => goes_on(shell, image, least, more),
        None => false,
    }
}

/// The moments at which each statement was answered.
fn ends<R>(shell: &Shell<'_, R>, text: &str) -> Vec<u64>
where
    R: Threads + Wait + Sync + AllocGlobal,
{
    let mut ends = Vec::new(shell.alloc());
    for done in 1..=FIRST {
        let _ = ends.push(calls_after(shell, text, 0, done));
    }
    for done in 1..=SECOND {
        let _ = ends.push(calls_after(shell, text, FIRST, done));
    }
    ends
}

/// How many of the statements were answered by this moment.
fn answered_by(ends: &[u64], moment: u64) -> usize {
    let mut count = 0usize;
    for end in ends {
        count = count.saturating_add(usize::from(*end <= moment));
    }
    count
}

/// How many of so many statements that were answered wait for the next one's records: one, where the last is a vacuum.
fn waiting(text: &str, answered: usize) -> usize {
    usize::from(lines_after(text, answered.saturating_sub(1), 1) == VACUUM)
}

/// The stops at a moment of the runs over a device. Each statement that was answered by then is there, but for one that
/// waits, and no other but the one that was under way.
fn see_stops_at<R>(
    shell: &Shell<'_, R>,
    disk: &MemoryDisk,
    moment: u64,
    answered: usize,
    waits: usize,
    tally: &mut Tally,
)
where
    R: Threads + Wait + Sync + Print + AllocGlobal,
{
    let least = answered.saturating_sub(waits);
    let more = waits.saturating_add(1);
    for pick in 0..16 {
        let holds = stops_so(shell, disk, moment, pick, least, more);
        tally.see(shell.rt, holds, "a stop at moment", moment);
    }
}

/// A stop at each moment of the runs over a device, of which these were the ends of the statements.
fn see_moments<R>(
    shell: &Shell<'_, R>,
    text: &str,
    disk: &MemoryDisk,
    ends: &[u64],
    tally: &mut Tally,
)
where
    R: Threads + Wait + Sync + Print + AllocGlobal,
{
    for moment in 0..=disk.calls() {
        let answered = answered_by(ends, moment);
        let waits = waiting(text, answered);
        see_stops_at(shell, disk, moment, answered, waits, tally);
    }
}

/// A stop at each moment of a run of inserts, an update and a delete, and of a second one with a vacuum too.
fn see_each_stop<R>(shell: &Shell<'_, R>, text: &str, tally: &mut Tally)
where
    R: Threads + Wait + Sync + Print + AllocGlobal,
{
    let ends = ends(shell, text);
    let ended = run_after(shell, text, empty(shell.alloc()), FIRST, SECOND);
    see_moments(shell, text, &ended.store, &ends, tally);
    drop(ended);
}

/// Whether a run of the statement after the first `done`, in which a call of the device fails, ends with status 3,
/// has printed nothing where the call is of the opening, else that the device failed, and the next run opens what is
/// left and goes on.
fn fails_so<R, D>(shell: &Shell<'_, R>, text: &str, store: D, done: usize, opening: bool) -> bool
where
    R: Threads + Wait + Sync + AllocGlobal,
    D: Disk + Send + Drop,
{
    let run = run_after(shell, text, store, done, 1);
    let reply: &[u8] = if opening { b"" } else { FAILED_REPLY };
    let so = run.status == 3 && run.out.bytes() == reply;
    so & goes_on(shell, run.store, done, usize::from(!opening))
}

/// Each call of the device fails in turn, in a run of the statement after the first `done`.
fn see_failing_run<R>(shell: &Shell<'_, R>, text: &str, done: usize, tally: &mut Tally)
where
    R: Threads + Wait + Sync + Print + AllocGlobal,
{
    let before = if done > 0 {
        calls_after(shell, text, 0, done)
    } else {
        0
    };
    let opened = calls_after(shell, text, done, 0);
    let all = calls_after(shell, text, done, 1);
    for call in before.saturating_add(1)..=all {
        let store = failing(shell.alloc(), call);
        let holds = fails_so(shell, text, store, done, call <= opened);
        tally.see(shell.rt, holds, "a statement whose run fails at call", call);
    }
}

/// A stop at each moment of two runs; and each call of the device fails in turn, in the run of an insert, of a second
/// one, of an update and of a delete.
pub fn see_stops<R>(shell: &Shell<'_, R>, tally: &mut Tally) -> Result<()>
where
    R: Threads + Wait + Sync + Print + AllocGlobal,
{
    let text = expanded(shell.alloc(), STATEMENTS)?;
    see_each_stop(shell, &text, tally);
    for done in 0..FIRST {
        see_failing_run(shell, &text, done, tally);
    }
    Ok(())
}
