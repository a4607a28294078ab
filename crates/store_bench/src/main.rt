//! Reads and writes full pages, seeks keys of a leaf and adds an item under each, and follows two
//! logs by the core's state: one of a document for each transaction, and one of as many transactions
//! that run beside each other, which place a document, mark it, and then commit, abort or are ended
//! with all others. After the first log each document is looked up by its name, pages to use again
//! are looked for among many that were deleted, and pages with room for a head among many full ones.
//! It prints counts. With the word `time` there are a million transactions in place of 10,000, a
//! tenth of that as deleted pages and a hundredth as full ones, and it also prints how long each part
//! takes. With `pages`, `documents` or `runners` it does that part alone.
#![tactic(auto)]

mod logs;
mod looks;
mod pages;

use anyhow::Result;
use bench_base::{Bench, Figure};
use logs::{Follower, follow_documents, follow_runners};
use looks::{look, look_at_all, look_for_pages, look_for_room};
use pages::code_pages;

/// How many transactions a log has.
const SOME: u32 = 10_000;

/// How many it has where time is asked for.
const MANY: u32 = 1_000_000;

/// Follows the first log, and looks at its state.
fn follow_first(bench: &Bench<'_>, follower: &mut Follower, count: u32) -> Result<()> {
    let start = bench.start()?;
    follow_documents(follower, count)?;
    let records = follower.state.length() as usize;
    bench.report(
        start,
        records,
        "records of documents one by one",
        Figure::Whole,
    )?;
    look(bench, &follower.state, "living documents", count)?;
    if bench.is_timed() {
        look_at_all(bench, &follower.state, count)?;
    }
    Ok(())
}

/// The first log, from nothing.
fn run_documents(bench: &Bench<'_>, count: u32) -> Result<()> {
    let mut follower = Follower::new(bench.alloc())?;
    let followed = follow_first(bench, &mut follower, count);
    drop(follower);
    followed
}

/// Follows the second log.
fn follow_second(bench: &Bench<'_>, follower: &mut Follower, count: u32) -> Result<()> {
    let start = bench.start()?;
    follow_runners(follower, count)?;
    let records = follower.state.length() as usize;
    bench.report(
        start,
        records,
        "records of documents beside each other",
        Figure::Whole,
    )?;
    let commits = u64::from(follower.state.commits());
    bench.count(commits, "of these documents are committed")
}

/// The second log, from nothing.
fn run_runners(bench: &Bench<'_>, count: u32) -> Result<()> {
    let mut follower = Follower::new(bench.alloc())?;
    let followed = follow_second(bench, &mut follower, count);
    drop(follower);
    followed
}

/// The whole program.
fn run(bench: &Bench<'_>) -> Result<()> {
    let count = if bench.is_timed() { MANY } else { SOME };
    if bench.runs("pages") {
        code_pages(bench)?;
    }
    if bench.runs("documents") {
        run_documents(bench, count)?;
        look_for_pages(bench, count / 10)?;
        look_for_room(bench, count / 100)?;
    }
    if bench.runs("runners") {
        run_runners(bench, count)?;
    }
    Ok(())
}

/// The whole program, at the process's own words, output and clock.
fn main(rt: HostRuntime) -> Result<()> {
    run(&Bench::new(&rt)?)
}
