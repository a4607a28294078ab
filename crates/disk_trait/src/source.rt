// A source of bytes in memory.
ghost use Rattle.std.specs.Prelude.{◌≡◌, ◌≤◌, ◌<◌, ◌↔◌, ◌++◌, [], Some, min, length, take, IfOk, IsErr};
ghost use Rattle.std.specs.Io.{ReadsAtMost};
ghost use Rattle.std.specs.Io.KnownBytes.{ReadConsumes};
ghost use Rattle.disk_trait.specs.Device.{HasCause};

use crate::device::Failed;
use crate::schedule::Schedule;
use crate::stream::Source;

/// It gives its bytes in pieces. The calls in its list fail, and take nothing.
#[derive(Drop)]
pub struct MemorySource {
    /// All the bytes.
    bytes: Vec<u8>,
    /// How many of them were given.
    place: usize,
    /// The most that one call gives.
    piece: usize,
    /// The calls.
    schedule: Schedule,
    ghost within: { place ≤ length bytes.items },
    ghost some: { 0 < piece },
}

impl MemorySource {
    ghost use Rattle.disk_trait.specs.Schedules.{IsUnused};
    ghost use Rattle.disk_trait.specs.Streams.{unread, piece_of, source_schedule};

    /// At most `piece` bytes are given at a time.
    pub fn new(bytes: Vec<u8>, fails: Vec<u64>, piece: usize) -> MemorySource
        requires { 0 < piece }
        ensures left { unread result ≡ bytes.items }
        ensures piece { piece_of result ≡ piece }
        ensures unused { IsUnused (source_schedule result) fails.items }
    {
        MemorySource {
            bytes,
            place: 0,
            piece,
            schedule: Schedule::new(fails),
        }
    }

    /// The next bytes, as many as one call gives.
    fn take_into(&mut self, buf: &mut [u8]) -> usize
        ensures count { result
            ≡ min (piece_of self.old) (min (length buf.old) (length (unread self.old))) }
        ensures bytes { unread self.old ≡ take result buf.new ++ unread self.new }
        ensures end { result ≡ 0 → 0 < length buf.old → unread self.new ≡ [] }
        ensures same { (piece_of self.new ≡ piece_of self.old)
            × (source_schedule self.new ≡ source_schedule self.old) }
    {
        let rest = &self.bytes[self.place..];
        let n = rest.len().min(buf.len()).min(self.piece);
        buf[..n].copy_from_slice(&rest[..n]);
        self.place += n;
        n
    }
}

impl Source for MemorySource {
    ghost use Rattle.disk_trait.specs.Schedules.{MustFail, HasCounted};
    ghost use Rattle.disk_trait.specs.Streams.{unread, piece_of, source_schedule};

    ghost left = { λ s. Some (unread s) };

    ghost fault_count = { λ s. (source_schedule s).faults };

    /// The next piece, where the call does not fail.
    fn read(&mut self, buf: &mut [u8]) -> Result<usize, Failed>
        ensures bound { ReadsAtMost result buf.new }
        ensures bytes { ReadConsumes (Some (unread self.old))
            (Some (unread self.new)) result buf.new }
        ensures cause { HasCause (source_schedule self.old).faults
            (source_schedule self.new).faults result }
        ensures count { IfOk result
            (λ n. n ≡ min (piece_of self.old) (min (length buf.old) (length (unread self.old)))) }
        ensures piece { piece_of self.new ≡ piece_of self.old }
        ensures counted { HasCounted (source_schedule self.old) (source_schedule self.new) result }
        ensures fails { IsErr result ↔ MustFail (source_schedule self.old) }
    {
        if self.schedule.begin() {
            return Ok(self.take_into(buf));
        }
        self.schedule.fail();
        Err(Failed)
    }
}
