// A script that is too long, and a source and a sink whose reader and writer fail once in mid-stream.
ghost use Rattle.std.specs.Prelude.{None};

use crate::runs::{Shell, empty};
use crate::tally::Tally;
use disk_file::{StdSink, StdSource};
use disk_trait::{Failed, MemorySink, Sink, Source};
use std::io::{self, ErrorKind, Read, Write};
use std::sync::Wait;
use std::thread::Threads;

/// A statement, and zeros after it.
#[derive(Drop)]
struct Zeros {
    statement: &'static [u8],
    zeros: usize,
}

impl Source for Zeros {
    ghost left = { λ _. None };

    ghost fault_count = { λ _. 0 };

    fn read(&mut self, buf: &mut [u8]) -> Result<usize, Failed> {
        if let (Some((byte, rest)), Some(first)) = (self.statement.split_first(), buf.first_mut()) {
            *first = *byte;
            self.statement = rest;
            return Ok(1);
        }
        let n = self.zeros.min(buf.len());
        buf[..n].fill(0);
        self.zeros -= n;
        Ok(n)
    }
}

/// A script of more than a gibibyte is refused, though it begins with a statement.
pub fn see_a_long_script<R>(shell: &Shell<'_, R>, tally: &mut Tally)
where
    R: Threads + Wait + Sync + Print + AllocGlobal,
{
    let script = Zeros {
        statement: b"@1 insert vector 'a:1'\n",
        zeros: (1 << 30) + 1 - 23,
    };
    let alloc = shell.alloc();
    let out = MemorySink::new(alloc, Vec::new(alloc));
    let ended = shell.run(script, out, empty(alloc));
    let read = ended.script.statement.is_empty() && ended.script.zeros == 0;
    let holds = ended.status == 8 && read && ended.out.bytes().is_empty();
    drop(ended);
    tally.see(shell.rt, holds, "a script of more than a gibibyte", 0);
}

/// It gives a byte or takes one at a time, and its second call fails.
#[derive(Drop)]
struct Halting {
    calls: u8,
    byte: u8,
}

impl Halting {
    /// A call more.
    fn begin(&mut self) -> io::Result<()> {
        self.calls = self.calls.saturating_add(1);
        if self.calls == 2 {
            return Err(io::Error::from(ErrorKind::Other));
        }
        Ok(())
    }
}

impl Read for Halting {
    fn read(&mut self, buf: &mut [u8]) -> io::Result<usize> {
        self.begin()?;
        match buf.first_mut() {
            Some(first) => {
                *first = self.byte;
                Ok(1)
            }
            None => Ok(0),
        }
    }
}

impl Write for Halting {
    fn write(&mut self, buf: &[u8]) -> io::Result<usize> {
        self.begin()?;
        match buf.first() {
            Some(first) => {
                self.byte = *first;
                Ok(1)
            }
            None => Ok(0),
        }
    }

    fn flush(&mut self) -> io::Result<()> {
        Ok(())
    }
}

/// Whether a source goes on after a fault, which takes nothing.
fn a_source_goes_on() -> bool {
    let mut source = StdSource::new(Halting {
        calls: 0,
        byte: b'c',
    });
    let mut buf = [0u8; 2];
    let first = source.read(&mut buf) == Ok(1);
    let fault = source.read(&mut buf) == Err(Failed);
    let kept = &buf == b"c\0" && source.faults == 1;
    source.reader.byte = b'a';
    let more = source.read(&mut buf[1..]) == Ok(1);
    first && fault && kept && more && &buf == b"ca" && source.faults == 1
}

/// Whether a sink goes on after a fault, which takes nothing.
fn a_sink_goes_on() -> bool {
    let mut sink = StdSink::new(Halting { calls: 0, byte: 0 });
    let first = sink.write(b"cat") == Ok(1);
    let fault = sink.write(b"at") == Err(Failed);
    let kept = sink.writer.byte == b'c' && sink.faults == 1;
    let more = sink.write(b"at") == Ok(1);
    first && fault && kept && more && sink.writer.byte == b'a' && sink.faults == 1
}

/// Both.
pub fn see_streams(rt: &impl Print, tally: &mut Tally) {
    tally.see(rt, a_source_goes_on(), "a source goes on after a fault", 0);
    tally.see(rt, a_sink_goes_on(), "a sink goes on after a fault", 0);
}
