// A sink of bytes in memory.
ghost use Rattle.std.specs.Prelude.{◌≡◌, ◌<◌, [], ◌++◌, Some, length, IfOk, IsErr, OnErr};
ghost use Rattle.std.specs.Io.{WritesAtMost};
ghost use Rattle.std.specs.Io.KnownBytes.{WriteAppends};
ghost use Rattle.disk_trait.specs.Device.{HasCause};

use crate::device::Failed;
use crate::schedule::Schedule;
use crate::stream::Sink;
use std::alloc::Global;

/// It keeps its bytes. The calls in its list fail, and so does a write that finds no memory: they
/// take nothing.
#[derive(Drop)]
pub struct MemorySink {
    /// What was taken.
    bytes: Vec<u8>,
    /// The calls.
    schedule: Schedule,
}

impl MemorySink {
    ghost use Rattle.disk_trait.specs.Schedules.{IsUnused};
    ghost use Rattle.disk_trait.specs.Streams.{taken_by, sink_schedule};

    /// Nothing was taken so far.
    pub fn new(alloc: Global, fails: Vec<u64>) -> MemorySink
        ensures empty { taken_by result ≡ [] }
        ensures unused { IsUnused (sink_schedule result) fails.items }
    {
        MemorySink {
            bytes: Vec::new(alloc),
            schedule: Schedule::new(fails),
        }
    }

    /// All that was taken.
    pub fn bytes(&self) -> &[u8]
        ensures { result.now ≡ taken_by self.now }
    {
        self.bytes.as_slice()
    }
}

impl Sink for MemorySink {
    ghost use Rattle.disk_trait.specs.Schedules.{MustFail, HasCounted};
    ghost use Rattle.disk_trait.specs.Streams.{taken_by, sink_schedule};

    ghost taken = { λ s. Some (taken_by s) };

    ghost fault_count = { λ s. (sink_schedule s).faults };

    /// A write that is done takes all its bytes.
    fn write(&mut self, bytes: &[u8]) -> Result<usize, Failed>
        ensures bound { WritesAtMost result bytes.now }
        ensures some { IfOk result (λ n. 0 < length bytes.now → 0 < n) }
        ensures bytes { WriteAppends (Some (taken_by self.old))
            (Some (taken_by self.new)) result bytes.now }
        ensures cause { HasCause (sink_schedule self.old).faults
            (sink_schedule self.new).faults result }
        ensures all { IfOk result (λ n. (n ≡ length bytes.now)
            × (taken_by self.new ≡ taken_by self.old ++ bytes.now)) }
        ensures none { OnErr result (taken_by self.new ≡ taken_by self.old) }
        ensures counted { HasCounted (sink_schedule self.old) (sink_schedule self.new) result }
        ensures fails { MustFail (sink_schedule self.old) → IsErr result }
    {
        if self.schedule.begin() && self.bytes.extend_from_slice(bytes).is_ok() {
            return Ok(bytes.len());
        }
        self.schedule.fail();
        Err(Failed)
    }
}
