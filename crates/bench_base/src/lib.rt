//! What benches and programs of cases share: the words of a call, a clock, the lines that they print, texts that they
//! make, a device whose calls are watched, the folders that they go over, and edits of logs.
#![tactic(auto)]

mod disk;
mod edits;
mod folders;

use anyhow::Result;
pub use disk::{Watch, WatchedDisk};
pub use edits::EditLine;
pub use folders::names_in;
use std::alloc::{AllocError, Global};
use std::env;
use std::time::Instant;

/// In what it is said how long something took.
#[derive(Clone, Copy)]
pub enum Figure {
    /// In milliseconds.
    Whole,
    /// In nanoseconds for each of so many.
    Each(u32),
    /// In megabytes a second, of so many bytes.
    Bytes(usize),
}

impl Figure {
    /// The number, and its unit.
    fn of(self, seconds: f64) -> (f64, &'static str) {
        match self {
            Figure::Whole => (seconds * 1000.0, "milliseconds"),
            Figure::Each(times) => (seconds * 1_000_000_000.0 / f64::from(times), "ns each"),
            Figure::Bytes(bytes) => {
                let bytes = u32::try_from(bytes).unwrap_or(u32::MAX);
                (f64::from(bytes) / seconds / 1_000_000.0, "MB a second")
            }
        }
    }
}

/// A bench that runs: its runtime, and the words of its call.
#[derive(Drop)]
pub struct Bench<'a> {
    /// It prints, and has the clock.
    rt: &'a HostRuntime,
    /// Whether it is printed how long each part takes.
    timed: bool,
    /// The one part that is run; all are where there is none.
    part: Option<String>,
}

impl<'a> Bench<'a> {
    /// The words of its call are `time`, where time is asked for, and a part.
    pub fn new(rt: &'a HostRuntime) -> Result<Bench<'a>> {
        let mut timed = false;
        let mut part = None;
        for word in env::args(rt)?.skip(1) {
            if word.as_str() == "time" {
                timed = true;
            } else {
                part = Some(word);
            }
        }
        Ok(Bench { rt, timed, part })
    }

    /// The runtime, for the files of the working directory.
    pub fn runtime(&self) -> &'a HostRuntime {
        self.rt
    }

    /// What gives memory.
    pub fn alloc(&self) -> Global {
        self.rt.alloc()
    }

    /// Whether time is asked for.
    pub fn is_timed(&self) -> bool {
        self.timed
    }

    /// Whether a part is run.
    pub fn runs(&self, part: &str) -> bool {
        match &self.part {
            Some(only) => only.as_str() == part,
            None => true,
        }
    }

    /// The time.
    pub fn start(&self) -> Result<Instant> {
        Ok(Instant::now(self.rt)?)
    }

    /// The seconds since then.
    pub fn since(&self, start: Instant) -> Result<f64> {
        Ok(start.elapsed(self.rt)?.as_secs_f64())
    }

    /// Prints a count.
    pub fn count(&self, count: u64, what: &str) -> Result<()> {
        let rt = self.rt;
        println!(rt; "{count} {what}")?;
        Ok(())
    }

    /// Prints a count, and where time is asked for how long it took.
    pub fn tell(&self, count: u64, what: &str, seconds: f64, figure: Figure) -> Result<()> {
        self.count(count, what)?;
        if self.timed {
            let rt = self.rt;
            let (number, unit) = figure.of(seconds);
            println!(rt; "{number:.3} {unit}")?;
        }
        Ok(())
    }

    /// Prints a count that took the time since then.
    pub fn report(&self, start: Instant, count: usize, what: &str, figure: Figure) -> Result<()> {
        let seconds = self.since(start)?;
        self.tell(count as u64, what, seconds, figure)
    }
}

/// Puts a piece after a text, with a number in place of each `#`.
fn push_numbered(text: &mut String, piece: &str, number: u32) -> Result<(), AllocError> {
    let mut parts = piece.split('#');
    text.push_str(parts.next().unwrap_or(""))?;
    for part in parts {
        write!(text, "{number}{part}")?;
    }
    Ok(())
}

/// Puts a piece after a text so many times, with the number of the time, from 0 on, in place of
/// each `#`.
pub fn push_times(text: &mut String, piece: &str, times: u32) -> Result<(), AllocError> {
    for number in 0..times {
        push_numbered(text, piece, number)?;
    }
    Ok(())
}

/// A piece so many times, as `push_times` puts it.
pub fn numbered(alloc: Global, piece: &str, times: u32) -> Result<String, AllocError> {
    let mut text = String::new(alloc);
    push_times(&mut text, piece, times)?;
    Ok(text)
}
