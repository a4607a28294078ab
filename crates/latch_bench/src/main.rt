//! Threads that meet in one table of latches, over small frames and a small journal that is never a
//! lawful store's. It prints what they count: of turns that take a frame and then the journal; of
//! four frames, claimed in rising order and given back in all 24; and of the right of maintenance.
//! With the word `time` it also prints how long claims take that nobody else wants, and how often a
//! second eight threads take one frame.
#![tactic(auto)]

mod laying;
mod rows;
mod slots;
mod turns;
mod workers;

use anyhow::Result;
use bench_base::{Bench, Figure};
use laying::{close, lay};
use std::alloc::Global;
use std::rt::Clock;
use std::sync::Wait;
use std::thread::Threads;
use turns::{count_frames, log_often};
use workers::{Task, run_all, touch_often};

/// How often a claim is made that is timed.
const TIMES: u32 = 1_000_000;

/// What threads count in a table, and what the table counts then.
#[derive(Clone, Copy)]
struct Counts {
    /// What all threads count.
    all: u64,
    /// The least that one of them counts.
    least: u64,
    /// The most.
    most: u64,
    /// What all frames count.
    frames: u64,
    /// How many records the journal has.
    records: u64,
}

/// Threads do this in a table of their own, which is closed after them.
fn run<R: Threads + Wait + Clock + Sync>(rt: &R, alloc: Global, task: Task) -> Result<Counts> {
    let (desk, mut hand) = lay(alloc)?;
    let (all, least, most) = run_all(rt, alloc, &desk, &mut hand, task)?;
    let frames = count_frames(rt, &desk, &mut hand);
    let records = close(desk, hand);
    Ok(Counts {
        all,
        least,
        most,
        frames,
        records,
    })
}

/// Threads take a frame and the journal, one more in each; then four frames, and give them back in each order; then the
/// right of maintenance.
fn run_parts<R: Threads + Wait + Clock + Sync>(rt: &R, bench: &Bench<'_>) -> Result<()> {
    let turns = run(rt, bench.alloc(), Task::Turns)?;
    bench.count(turns.all, "turns")?;
    bench.count(turns.frames, "of them counted by frames")?;
    bench.count(turns.records, "of them logged")?;
    let orders = run(rt, bench.alloc(), Task::Orders)?;
    bench.count(orders.all, "tries that found a held frame taken")?;
    let rights = run(rt, bench.alloc(), Task::Rights)?;
    bench.count(rights.all, "rights of maintenance that another had too")
}

/// One thread takes a frame in a table, which nobody else wants.
fn touch_alone<R: Wait>(rt: &R, alloc: Global) -> Result<()> {
    let (desk, mut hand) = lay(alloc)?;
    touch_often(rt, &desk, &mut hand, TIMES);
    Ok(())
}

/// One thread takes the journal.
fn log_alone<R: Wait>(rt: &R, alloc: Global) -> Result<()> {
    let (desk, mut hand) = lay(alloc)?;
    log_often(rt, &desk, &mut hand, TIMES);
    Ok(())
}

/// One thread takes what nobody else wants.
fn time_alone<R: Threads + Wait + Clock + Sync>(rt: &R, bench: &Bench<'_>) -> Result<()> {
    let start = bench.start()?;
    touch_alone(rt, bench.alloc())?;
    let frame = bench.since(start)?;
    let start = bench.start()?;
    log_alone(rt, bench.alloc())?;
    let journal = bench.since(start)?;
    let times = u64::from(TIMES);
    bench.tell(times, "claims of a free frame", frame, Figure::Each(TIMES))?;
    bench.tell(times, "claims of the journal", journal, Figure::Each(TIMES))
}

/// Threads take one frame for a second.
fn time_together<R: Threads + Wait + Clock + Sync>(rt: &R, bench: &Bench<'_>) -> Result<()> {
    let claims = run(rt, bench.alloc(), Task::Hammer)?;
    bench.count(claims.all, "claims of one frame in a second")?;
    bench.count(claims.least, "of the slowest thread")?;
    bench.count(claims.most, "of the fastest")
}

/// The whole program.
fn main(rt: HostRuntime) -> Result<()> {
    let bench = Bench::new(&rt)?;
    run_parts(&rt, &bench)?;
    if bench.is_timed() {
        time_alone(&rt, &bench)?;
        time_together(&rt, &bench)?;
    }
    Ok(())
}
