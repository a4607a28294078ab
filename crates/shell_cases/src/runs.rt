// Runs over a store, and what they leave of its log.
ghost use Rattle.std.specs.Prelude.{None};

use disk_trait::{Disk, Failed, File, MemoryDisk, MemorySink, Sink, Source};
use shell_run::{NoGate, Outcome, run_shell};
use std::alloc::Global;
use std::sync::Wait;
use std::thread::Threads;

/// How many bytes of a script a read gives.
pub const PIECE: usize = 4096;

/// The most bytes of a log that a run begins with.
const MOST_BYTES: usize = 1 << 30;

/// A script in memory.
#[derive(Drop)]
pub struct Script<'a> {
    /// What is left of it.
    rest: &'a [u8],
    /// How many bytes a read gives at most.
    piece: usize,
    /// The read that fails, from 1 on; 0 where none does.
    failing: u64,
    /// How many reads there were.
    reads: u64,
    /// How many of them failed.
    faults: u64,
}

impl<'a> Script<'a> {
    /// One that is read in pieces, and of which this read fails.
    pub fn new(rest: &'a [u8], piece: usize, failing: u64) -> Script<'a> {
        Script {
            rest,
            piece,
            failing,
            reads: 0,
            faults: 0,
        }
    }
}

impl Source for Script<'_> {
    ghost left = { λ _. None };

    ghost fault_count = { λ s. s.faults };

    /// The next piece, or a fault.
    fn read(&mut self, buf: &mut [u8]) -> Result<usize, Failed> {
        self.reads = self.reads.saturating_add(1);
        if self.reads == self.failing || self.faults == u64::MAX {
            self.faults = self.faults.saturating_add(1);
            return Err(Failed);
        }
        let n = self.rest.len().min(buf.len()).min(self.piece);
        let (now, rest) = self.rest.split_at(n);
        buf[..n].copy_from_slice(now);
        self.rest = rest;
        Ok(n)
    }
}

/// What makes runs with the word `run`.
#[derive(Drop)]
pub struct Shell<'a, R> {
    /// The runtime.
    pub rt: &'a R,
    /// The words of each run.
    pub words: &'a [String],
}

/// A run over a store whose source and sink are in memory.
pub type Ended<'a, D> = Outcome<Script<'a>, MemorySink, D>;

impl<R> Shell<'_, R>
where
    R: Threads + Wait + Sync + AllocGlobal,
{
    /// What gives memory.
    pub fn alloc(&self) -> Global {
        self.rt.alloc()
    }

    /// A run.
    pub fn run<S, K, D>(&self, script: S, out: K, store: D) -> Outcome<S, K, D>
    where
        S: Source + Drop,
        K: Sink + Drop,
        D: Disk + Send + Drop,
    {
        run_shell(
            self.rt,
            self.rt.alloc(),
            self.words,
            script,
            out,
            store,
            &NoGate,
        )
    }

    /// A run of a script.
    pub fn run_on<'a, D>(&self, script: &'a [u8], store: D) -> Ended<'a, D>
    where
        D: Disk + Send + Drop,
    {
        let out = MemorySink::new(self.rt.alloc(), Vec::new(self.rt.alloc()));
        self.run(Script::new(script, PIECE, 0), out, store)
    }

    /// Whether a run of a script ends with this status and prints this.
    pub fn prints<D>(&self, script: &[u8], store: D, status: u8, text: &[u8]) -> bool
    where
        D: Disk + Send + Drop,
    {
        let ended = self.run_on(script, store);
        let so = ended.status == status && ended.out.bytes() == text;
        drop(ended);
        so
    }

    /// Whether a run of a script finds that the files are no store: it prints nothing, and leaves this log.
    pub fn refuses<D>(&self, script: &[u8], store: D, log: &[u8]) -> bool
    where
        D: Disk + Send + Drop,
    {
        let mut ended = self.run_on(script, store);
        let unchanged = has_log(self.rt.alloc(), &mut ended.store, log);
        let silent = ended.status == 4 && ended.out.bytes().is_empty();
        drop(ended);
        unchanged && silent
    }
}

/// A list of this call alone. It is empty where there is no memory, so that no call fails.
pub fn only(alloc: Global, call: u64) -> Vec<u64> {
    let mut calls = Vec::new(alloc);
    let _ = calls.push(call);
    calls
}

/// A device of which no call fails.
pub fn empty(alloc: Global) -> MemoryDisk {
    MemoryDisk::new(alloc, Vec::new(alloc))
}

/// A device of which this call fails.
pub fn failing(alloc: Global, call: u64) -> MemoryDisk {
    MemoryDisk::new(alloc, only(alloc, call))
}

/// A device of which these calls fail, and whose log has these bytes. One that is too long is left out.
pub fn holding(alloc: Global, log: &[u8], fails: Vec<u64>) -> MemoryDisk {
    let mut disk = MemoryDisk::new(alloc, fails);
    if !log.is_empty() && log.len() <= MOST_BYTES {
        let _ = disk.write_at(File::Log, 0, log);
    }
    disk
}

/// The bytes of the log. None where they can't be read.
pub fn log_of<D: Disk>(alloc: Global, disk: &mut D) -> Option<Vec<u8>> {
    let Ok(len) = disk.length(File::Log) else {
        return None;
    };
    let Ok(mut bytes) = vec![in alloc; 0u8; len as usize] else {
        return None;
    };
    match disk.read(File::Log, 0, &mut bytes) {
        Ok(n) => {
            bytes.truncate(n);
            Some(bytes)
        }
        Err(_) => None,
    }
}

/// Whether the log has these bytes.
pub fn has_log<D: Disk>(alloc: Global, disk: &mut D, log: &[u8]) -> bool {
    match log_of(alloc, disk) {
        Some(bytes) => bytes.as_slice() == log,
        None => false,
    }
}

/// What a stop at this moment may have left of a device, as it is picked. None where there was no such moment, or where
/// there is no memory.
pub fn image_at(alloc: Global, disk: &MemoryDisk, moment: u64, pick: u64) -> Option<MemoryDisk> {
    if moment > disk.calls() {
        return None;
    }
    disk.image(alloc, moment, pick).ok()
}
