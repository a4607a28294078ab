// Runs in which a read of the script, a write of a reply or a call of the device fails, each in turn.
ghost use Rattle.std.specs.Prelude.{None};

use crate::compare::{count_of, same_front};
use crate::runs::{Ended, PIECE, Script, Shell, empty, failing, only};
use crate::tally::Tally;
use disk_trait::{Disk, Failed, MemorySink, Sink};
use std::sync::Wait;
use std::thread::Threads;

/// How many bytes a read gives, and a write takes.
const SHORT: usize = 7;

/// Each statement
pub const SCRIPT: &[u8] = b"# each statement
@1 insert vector 'a:1'
show vector 'a:2' || strip vector 'b:1'
ask 'a & b'
dictionary english porter
the
end
configuration en
asciiword english
end
@2 insert en 'the cats'
@1 search 'a'
@2 search web en 'cat -b'
parse 'a-b 1.5'
@1 insert vector 'c:1'
@2 update 2/1#2 vector 'd:1'
@1 delete 2/0#1
@1 search '!b'
";

/// What is asked of a store after a run.
const AFTER: &[u8] = b"@1 search '!z'\n";

/// A run of `SCRIPT` over a device.
pub fn run_script<R, D>(shell: &Shell<'_, R>, store: D) -> Ended<'static, D>
where
    R: Threads + Wait + Sync + AllocGlobal,
    D: Disk + Send + Drop,
{
    shell.run_on(SCRIPT, store)
}

/// A sink that takes pieces.
#[derive(Drop)]
struct Pieces {
    /// What takes them.
    sink: MemorySink,
}

impl Sink for Pieces {
    ghost use Rattle.disk_trait.specs.Streams.{sink_schedule};

    ghost taken = { λ _. None };

    ghost fault_count = { λ s. (sink_schedule s.sink).faults };

    /// Takes the beginning.
    fn write(&mut self, bytes: &[u8]) -> Result<usize, Failed> {
        self.sink.write(&bytes[..bytes.len().min(SHORT)])
    }
}

/// Whether a run in which a call of the device failed has printed nothing, or as many lines as a run in which none did
/// and the same up to a change that is answered so.
fn is_cut_short(text: &[u8], good: &[u8]) -> bool {
    let differs = text.get(same_front(text, good)..).unwrap_or(b"");
    let lines = count_of(text, b'\n') == count_of(good, b'\n');
    text.is_empty() || lines && differs.starts_with(b"error 15 device\n")
}

/// Whether a store opens, and goes on.
fn opens<R, D>(shell: &Shell<'_, R>, store: D) -> bool
where
    R: Threads + Wait + Sync + AllocGlobal,
    D: Disk + Send + Drop,
{
    shell.run_on(AFTER, store).status == 0
}

/// Whether the run over a device of which a call fails has status 3 and has printed nothing or a line for each reply,
/// and what it leaves is opened.
fn fails_well<R, D>(shell: &Shell<'_, R>, store: D, good: &[u8]) -> bool
where
    R: Threads + Wait + Sync + AllocGlobal,
    D: Disk + Send + Drop,
{
    let ended = run_script(shell, store);
    let cut = ended.status == 3 && is_cut_short(ended.out.bytes(), good);
    cut & opens(shell, ended.store)
}

/// Each of so many calls of the device of a run fails in turn.
fn see_failing_calls<R>(shell: &Shell<'_, R>, good: &[u8], calls: u64, tally: &mut Tally)
where
    R: Threads + Wait + Sync + Print + AllocGlobal,
{
    for call in 1..=calls {
        let holds = fails_well(shell, failing(shell.alloc(), call), good);
        tally.see(
            shell.rt,
            holds,
            "the script whose device fails at call",
            call,
        );
    }
}

/// Whether the run that is read in pieces, and of which this read fails, ends with this status and prints this. Where
/// that is nothing, no call of the device was made.
fn reads_so<R>(shell: &Shell<'_, R>, read: u64, status: u8, text: &[u8]) -> bool
where
    R: Threads + Wait + Sync + AllocGlobal,
{
    let alloc = shell.alloc();
    let out = MemorySink::new(alloc, Vec::new(alloc));
    let ended = shell.run(Script::new(SCRIPT, SHORT, read), out, empty(alloc));
    let untouched = ended.store.calls() == 0;
    let so = ended.status == status && ended.out.bytes() == text;
    drop(ended);
    so && untouched == text.is_empty()
}

/// Each read of a script fails in turn, the one that finds its end too: nothing is run then. All of it is run where
/// the read fails that is not made.
fn see_failing_reads<R>(shell: &Shell<'_, R>, good: &[u8], tally: &mut Tally)
where
    R: Threads + Wait + Sync + Print + AllocGlobal,
{
    let reads = SCRIPT.len().div_ceil(SHORT).saturating_add(1) as u64;
    for read in 1..=reads {
        let holds = reads_so(shell, read, 6, b"");
        tally.see(shell.rt, holds, "the script that fails at read", read);
    }
    let holds = reads_so(shell, reads.saturating_add(1), 0, good);
    tally.see(shell.rt, holds, "the script that fails at no read", reads);
}

/// Whether this write of a run's replies fails, which are written in pieces; and whether the run then stops with a
/// beginning of its replies, and what it leaves is opened, or else has written all of them.
fn written<R, D>(shell: &Shell<'_, R>, store: D, write: u64, text: &[u8]) -> (bool, bool)
where
    R: Threads + Wait + Sync + AllocGlobal,
    D: Disk + Send + Drop,
{
    let alloc = shell.alloc();
    let sink = MemorySink::new(alloc, only(alloc, write));
    let ended = shell.run(Script::new(SCRIPT, PIECE, 0), Pieces { sink }, store);
    let taken = ended.out.sink.bytes();
    if ended.status == 0 {
        return (false, taken == text);
    }
    let begins = taken.len() < text.len() && text.starts_with(taken);
    (
        true,
        ended.status == 7 && begins & opens(shell, ended.store),
    )
}

/// Each write of the replies fails in turn.
fn see_failing_writes<R>(shell: &Shell<'_, R>, text: &[u8], tally: &mut Tally)
where
    R: Threads + Wait + Sync + Print + AllocGlobal,
{
    let mut writes = 0;
    for write in 1..=text.len() as u64 {
        let (failed, holds) = written(shell, empty(shell.alloc()), write, text);
        tally.see(shell.rt, holds, "replies that fail at write", write);
        if !failed {
            break;
        }
        writes = write;
    }
    let each = writes >= text.len().div_ceil(SHORT) as u64;
    tally.see(shell.rt, each, "replies whose writes were", writes);
}

/// Each call of the device, each read of the script and each write of the replies fails in turn.
pub fn see_faults<R>(shell: &Shell<'_, R>, tally: &mut Tally)
where
    R: Threads + Wait + Sync + Print + AllocGlobal,
{
    let good = run_script(shell, empty(shell.alloc()));
    tally.see(shell.rt, good.status == 0, "the script", 0);
    let text = good.out.bytes();
    see_failing_calls(shell, text, good.store.calls(), tally);
    see_failing_reads(shell, text, tally);
    see_failing_writes(shell, text, tally);
    drop(good);
}
