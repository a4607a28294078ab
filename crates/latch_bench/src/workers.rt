// Threads, each with a pass of its own.
ghost use Rattle.std.specs.Prelude.{◌≡◌, ◌<◌, ◌+◌, All, length, IfOk};
ghost use Rattle.latch_table.specs.Passes.{state};
ghost use Rattle.latch_bench.specs.Hands.{IsFree, IsReady};

use crate::rows::run_orders;
use crate::slots::{Desk, Hand};
use crate::turns::{take_turns, touch};
use std::alloc::{AllocError, Global};
use std::rt::Clock;
use std::sync::Wait;
use std::sync::atomic::{AtomicU32, Ordering};
use std::thread::{Threads, for_each_mut};
use std::time::Instant;

/// How many threads there are.
const THREADS: usize = 8;

/// How often a thread takes a frame and the journal, or the right of maintenance.
const TURNS: u32 = 20_000;

/// How many claims are made between looks at the clock.
const BETWEEN: u32 = 1_000;

/// What a thread does.
#[derive(Clone, Copy)]
pub(crate) enum Task {
    /// It takes a frame and the journal.
    Turns,
    /// It takes four frames, and gives them back in each order.
    Orders,
    /// It takes the right of maintenance.
    Rights,
    /// For a second it takes one frame.
    Hammer,
}

/// A thread's pass, what it does, and what it counts.
#[derive(Drop)]
pub(crate) struct Worker {
    pub(crate) hand: Hand,
    pub(crate) task: Task,
    pub(crate) count: u64,
}

/// Takes the right of maintenance; 1 where another has it then.
fn take_right<R: Wait>(rt: &R, desk: &Desk, hand: &mut Hand, inside: &AtomicU32) -> u64
    requires free { IsFree desk.now.table.shared.table_id hand.old }
    ensures free { IsFree desk.now.table.shared.table_id hand.new }
    ensures room { (state hand.new).room ≡ (state hand.old).room }
{
    desk.claim_work(rt, hand);
    let others = inside.fetch_add(1, Ordering::SeqCst);
    inside.fetch_sub(1, Ordering::SeqCst);
    desk.give_back_work(hand);
    u64::from(others != 0)
}

/// Takes it so often.
fn take_rights<R: Wait>(rt: &R, desk: &Desk, hand: &mut Hand, inside: &AtomicU32) -> u64
    requires free { IsFree desk.now.table.shared.table_id hand.old }
    ensures free { IsFree desk.now.table.shared.table_id hand.new }
    ensures room { (state hand.new).room ≡ (state hand.old).room }
{
    let mut two = 0u64;
    for _ in 0..TURNS {
        two = two.saturating_add(take_right(rt, desk, hand, inside));
    }
    two
}

/// Takes one frame so often.
pub(crate) fn touch_often<R: Wait>(rt: &R, desk: &Desk, hand: &mut Hand, times: u32)
    requires free { IsFree desk.now.table.shared.table_id hand.old }
    requires slots { 2 < desk.now.table.shared.table_id.slots }
    ensures free { IsFree desk.now.table.shared.table_id hand.new }
    ensures room { (state hand.new).room ≡ (state hand.old).room }
{
    for _ in 0..times {
        touch(rt, desk, hand, 0, 1);
    }
}

/// Whether a second has passed, or no time can be had.
fn is_over<R: Clock>(rt: &R, start: &Option<Instant>) -> bool {
    match start {
        Some(start) => match start.elapsed(rt) {
            Ok(passed) => passed.as_secs() != 0,
            Err(_) => true,
        },
        None => true,
    }
}

/// Takes one frame for a second; how often.
fn hammer<R: Wait + Clock>(rt: &R, desk: &Desk, hand: &mut Hand) -> u64
    requires free { IsFree desk.now.table.shared.table_id hand.old }
    requires slots { 2 < desk.now.table.shared.table_id.slots }
    ensures free { IsFree desk.now.table.shared.table_id hand.new }
    ensures room { (state hand.new).room ≡ (state hand.old).room }
{
    let start = Instant::now(rt).ok();
    let mut count = 0u64;
    for _ in 0..u32::MAX {
        touch_often(rt, desk, hand, BETWEEN);
        count = count.saturating_add(u64::from(BETWEEN));
        if is_over(rt, &start) {
            break;
        }
    }
    count
}

/// Does what the worker is to do.
fn work<R: Wait + Clock>(rt: &R, desk: &Desk, inside: &AtomicU32, worker: &mut Worker)
    requires ready { IsReady desk.now.table.shared.table_id worker.old }
    requires slots { desk.now.table.shared.table_id.slots ≡ 66 }
    ensures { IsReady desk.now.table.shared.table_id worker.new }
{
    let hand = &mut worker.hand;
    worker.count = match worker.task {
        Task::Turns => take_turns(rt, desk, hand, TURNS),
        Task::Orders => run_orders(rt, desk, hand, 30),
        Task::Rights => take_rights(rt, desk, hand, inside),
        Task::Hammer => hammer(rt, desk, hand),
    };
}

/// Each on a thread of its own.
fn work_all<R: Threads + Wait + Clock + Sync>(rt: &R, desk: &Desk, workers: &mut [Worker])
    requires ready { All (IsReady desk.now.table.shared.table_id) workers.old }
    requires slots { desk.now.table.shared.table_id.slots ≡ 66 }
    ensures { All (IsReady desk.now.table.shared.table_id) workers.new }
{
    let inside = AtomicU32::new(0);
    let one = |_: usize, worker: &mut Worker|
        requires { (IsReady desk.now.table.shared.table_id worker.now)
            × (desk.now.table.shared.table_id.slots ≡ 66) }
        ensures { IsReady desk.entry.now.table.shared.table_id worker.exit.now }
    { work(rt, desk, &inside, worker) };
    for_each_mut(rt, workers, THREADS, &one);
}

/// A worker for each thread.
fn hire(alloc: Global, desk: &Desk, hand: &mut Hand, task: Task) -> Result<Vec<Worker>, AllocError>
    requires free { IsFree desk.now.table.shared.table_id hand.old }
    requires room { (state hand.old).room ≡ 16 }
    ensures free { IfOk result (λ v. IsFree desk.now.table.shared.table_id hand.new) }
    ensures ready { IfOk result (λ v. All (IsReady desk.now.table.shared.table_id) v.items) }
    ensures room { IfOk result (λ v. (state hand.new).room + length v.items ≡ 16) }
{
    let mut workers = Vec::new(alloc);
    for _ in 0..THREADS {
        let second = desk.split(hand);
        let worker = Worker {
            hand: second,
            task,
            count: 0,
        };
        workers.push(worker)?;
    }
    Ok(workers)
}

/// Takes the workers' passes back; what all count, and the least and the greatest of it.
fn gather(desk: &Desk, hand: &mut Hand, mut workers: Vec<Worker>) -> (u64, u64, u64)
    requires free { IsFree desk.now.table.shared.table_id hand.old }
    requires ready { All (IsReady desk.now.table.shared.table_id) workers.items }
    requires room { (state hand.old).room + length workers.items ≡ 16 }
    ensures free { IsFree desk.now.table.shared.table_id hand.new }
    ensures room { (state hand.new).room ≡ 16 }
{
    let (mut all, mut least, mut most) = (0u64, u64::MAX, 0);
    while let Some(worker) = workers.pop() {
        let Worker {
            hand: other,
            count,
            ..
        } = worker;
        desk.join(hand, other);
        all = all.saturating_add(count);
        least = least.min(count);
        most = most.max(count);
    }
    workers.destroy_empty();
    (all, least, most)
}

/// Has each thread do this; what all count, and the least and the greatest of it.
pub(crate) fn run_all<R: Threads + Wait + Clock + Sync>(
    rt: &R,
    alloc: Global,
    desk: &Desk,
    hand: &mut Hand,
    task: Task,
) -> Result<(u64, u64, u64), AllocError>
    requires free { IsFree desk.now.table.shared.table_id hand.old }
    requires room { (state hand.old).room ≡ 16 }
    requires slots { desk.now.table.shared.table_id.slots ≡ 66 }
    ensures free { IfOk result (λ v. IsFree desk.now.table.shared.table_id hand.new) }
    ensures room { IfOk result (λ v. (state hand.new).room ≡ 16) }
{
    let mut workers = hire(alloc, desk, hand, task)?;
    work_all(rt, desk, workers.as_mut_slice());
    Ok(gather(desk, hand, workers))
}
