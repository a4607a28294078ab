// A reader as a source, and a writer as a sink. Each counts its errors.
ghost use Rattle.std.specs.Prelude.{◌≡◌, ◌-◌, ◌^◌, ◌<◌, length, IfOk, IsErr};
ghost use Rattle.std.specs.Io.{ReadsAtMost, WritesAtMost};
ghost use Rattle.std.specs.Io.KnownBytes.{ReadConsumes, WriteAppends};
ghost use Rattle.disk_trait.specs.Device.{HasCause};
ghost use Rattle.disk_trait.specs.Schedules.{HasRisen};

use disk_trait::{Failed, Sink, Source};
use std::io::{Read, Write};

/// A source over any reader. Each `Err` of the reader is a fault.
/// At the last number of its count it fails, and calls the reader no more.
#[derive(Drop)]
pub struct StdSource<R> {
    /// Where the bytes come from.
    pub reader: R,
    /// How often it has failed.
    pub faults: u64,
}

impl<R: Read> StdSource<R> {
    /// A source that has not failed.
    pub fn new(reader: R) -> StdSource<R>
        ensures { (result.reader ≡ reader) × (result.faults ≡ 0) }
    {
        StdSource { reader, faults: 0 }
    }
}

impl<R: Read> Source for StdSource<R> {
    ghost left = { λ s. R.remaining s.reader };

    ghost fault_count = { λ s. s.faults };

    fn read(&mut self, buf: &mut [u8]) -> Result<usize, Failed>
        ensures bound { ReadsAtMost result buf.new }
        ensures bytes { ReadConsumes (R.remaining self.old.reader) (R.remaining self.new.reader) result buf.new }
        ensures cause { HasCause self.old.faults self.new.faults result }
        ensures counted { HasRisen self.old.faults self.new.faults result }
        ensures last { self.old.faults ≡ 2 ^ 64 - 1 → IsErr result × (self.new ≡ self.old) }
    {
        if self.faults == u64::MAX {
            return Err(Failed);
        }
        match self.reader.read(buf) {
            Ok(n) => Ok(n),
            Err(_) => {
                self.faults += 1;
                Err(Failed)
            }
        }
    }
}

/// A sink over any writer. Each `Err` of the writer is a fault, and so is a write that takes nothing of a piece
/// that has bytes. At the last number of its count it fails, and calls the writer no more.
#[derive(Drop)]
pub struct StdSink<W> {
    /// Where the bytes go.
    pub writer: W,
    /// How often it has failed.
    pub faults: u64,
}

impl<W: Write> StdSink<W> {
    /// A sink that has not failed.
    pub fn new(writer: W) -> StdSink<W>
        ensures { (result.writer ≡ writer) × (result.faults ≡ 0) }
    {
        StdSink { writer, faults: 0 }
    }
}

impl<W: Write> Sink for StdSink<W> {
    ghost taken = { λ s. W.contents s.writer };

    ghost fault_count = { λ s. s.faults };

    fn write(&mut self, bytes: &[u8]) -> Result<usize, Failed>
        ensures bound { WritesAtMost result bytes.now }
        ensures some { IfOk result (λ n. 0 < length bytes.now → 0 < n) }
        ensures bytes { WriteAppends (W.contents self.old.writer) (W.contents self.new.writer) result bytes.now }
        ensures cause { HasCause self.old.faults self.new.faults result }
        ensures counted { HasRisen self.old.faults self.new.faults result }
        ensures last { self.old.faults ≡ 2 ^ 64 - 1 → IsErr result × (self.new ≡ self.old) }
    {
        if self.faults == u64::MAX {
            return Err(Failed);
        }
        match self.writer.write(bytes) {
            Ok(n) if n > 0 || bytes.is_empty() => Ok(n),
            _ => {
                self.faults += 1;
                Err(Failed)
            }
        }
    }
}
