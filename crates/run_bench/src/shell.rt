// Runs of scripts over a device.
use anyhow::{Result, bail};
use disk_trait::{Disk, MemoryDisk, MemorySink, MemorySource};
use shell_run::{Gate, run_shell};
use std::alloc::Global;
use std::sync::Wait;
use std::thread::Threads;

/// How many bytes of a script a read gives.
const PIECE: usize = 4096;

/// An empty device in memory.
pub(crate) fn empty(alloc: Global) -> MemoryDisk {
    MemoryDisk::new(alloc, Vec::new(alloc))
}

/// A run of a script over a device, in which nothing is refused: the replies, and the device.
pub(crate) fn run_script<R, D, G>(
    rt: &R,
    alloc: Global,
    script: &[u8],
    disk: D,
    gate: &G,
) -> Result<(MemorySink, D)>
where
    R: Threads + Wait + Sync,
    D: Disk + Send + Drop,
    G: Gate + Sync,
{
    let words = vec![in alloc; String::from_str(alloc, "run")?]?;
    let source = MemorySource::new(script.to_vec(alloc)?, Vec::new(alloc), PIECE);
    let sink = MemorySink::new(alloc, Vec::new(alloc));
    let ended = run_shell(rt, alloc, &words, source, sink, disk, gate);
    if ended.status != 0 {
        drop(ended);
        bail!("a run fails");
    }
    Ok((ended.out, ended.store))
}
