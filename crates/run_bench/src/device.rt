// A device in memory, and the time that each session's statements take beside its calls.
use bench_base::{Bench, Watch, WatchedDisk};
use shell_run::Gate;
use std::alloc::AllocError;
use std::sync::atomic::{AtomicU64, Ordering};
use std::time::Instant;

/// A device in memory whose calls are timed.
pub(crate) type TimedDisk<'a> = WatchedDisk<Stopwatch<'a>>;

/// How many sessions there are, and one for what is before the first statement.
const SESSIONS: u32 = 9;

/// The time of a run, in nanoseconds.
#[derive(Drop)]
pub(crate) struct Times<'a> {
    /// The clock.
    clock: &'a HostRuntime,
    /// When the run began, where time is asked for.
    start: Option<Instant>,
    /// What the calls of the device have taken.
    device: AtomicU64,
    /// The session whose statement runs.
    session: AtomicU64,
    /// The own time at which it began.
    began: AtomicU64,
    /// The own time of the statements of each session.
    spent: Vec<AtomicU64>,
}

/// The number more.
fn add(sum: &AtomicU64, more: u64) {
    let so_far = sum.load(Ordering::SeqCst);
    sum.store(so_far.saturating_add(more), Ordering::SeqCst);
}

impl<'a> Times<'a> {
    /// A run begins.
    pub(crate) fn begin(bench: &Bench<'a>) -> Result<Times<'a>, AllocError> {
        let mut spent = Vec::new(bench.alloc());
        for _ in 0..SESSIONS {
            spent.push(AtomicU64::new(0))?;
        }
        Ok(Times {
            clock: bench.runtime(),
            start: if bench.is_timed() {
                bench.start().ok()
            } else {
                None
            },
            device: AtomicU64::new(0),
            session: AtomicU64::new(0),
            began: AtomicU64::new(0),
            spent,
        })
    }

    /// The nanoseconds since the run began; none where time is not asked for.
    fn now(&self) -> u64 {
        let Some(start) = &self.start else {
            return 0;
        };
        match start.elapsed(self.clock) {
            Ok(passed) => u64::try_from(passed.as_nanos()).unwrap_or(u64::MAX),
            Err(_) => 0,
        }
    }

    /// A statement of a session begins, and that before it has ended.
    pub(crate) fn turn(&self, session: u32) {
        let own = self
            .now()
            .saturating_sub(self.device.load(Ordering::SeqCst));
        let before = self.session.load(Ordering::SeqCst) as usize;
        if let Some(spent) = self.spent.get(before) {
            add(spent, own.saturating_sub(self.began.load(Ordering::SeqCst)));
        }
        self.session.store(u64::from(session), Ordering::SeqCst);
        self.began.store(own, Ordering::SeqCst);
    }

    /// The own time of a session's statements.
    pub(crate) fn of(&self, session: u32) -> u64 {
        match self.spent.get(session as usize) {
            Some(spent) => spent.load(Ordering::SeqCst),
            None => 0,
        }
    }
}

impl<'a> Gate for Times<'a> {
    /// A statement begins.
    fn pass(&self, session: u32, _statement: u32) {
        self.turn(session);
    }

    /// Nothing.
    fn page(&self, _session: u32, _statement: u32, _step: u64) {}
}

/// The time that calls take.
#[derive(Drop)]
pub(crate) struct Stopwatch<'a> {
    /// The run's times.
    times: &'a Times<'a>,
    /// When the call began.
    start: u64,
}

impl<'a> Stopwatch<'a> {
    /// No call was made.
    pub(crate) fn new(times: &'a Times<'a>) -> Stopwatch<'a> {
        Stopwatch { times, start: 0 }
    }
}

impl<'a> Watch for Stopwatch<'a> {
    /// Reads the clock.
    fn begin(&mut self, _writes: bool) {
        self.start = self.times.now();
    }

    /// Adds the time since the call began.
    fn end(&mut self) {
        let taken = self.times.now().saturating_sub(self.start);
        add(&self.times.device, taken);
    }
}
