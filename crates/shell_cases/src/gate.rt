// That a hook is called before each statement of a session, with the session and the statement's number.
use crate::runs::{PIECE, Script, Shell, empty};
use crate::tally::Tally;
use bench_base::{Watch, WatchedDisk};
use disk_trait::MemorySink;
use shell_run::{Gate, run_shell};
use std::sync::Wait;
use std::sync::atomic::{AtomicU64, Ordering};
use std::thread::Threads;

/// What has happened, as a decimal number: of each statement that has passed its session and its number, and 00 where
/// writes follow.
#[derive(Drop)]
struct Events {
    /// The number.
    number: AtomicU64,
}

impl Events {
    /// Two digits more.
    fn note(&self, event: u64) {
        let before = self.number.load(Ordering::SeqCst);
        self.number.store(
            before.wrapping_mul(100).wrapping_add(event),
            Ordering::SeqCst,
        );
    }

    /// A write, which is noted where the last event was none.
    fn note_write(&self) {
        if self.number.load(Ordering::SeqCst) % 100 != 0 {
            self.note(0);
        }
    }
}

impl Gate for Events {
    fn pass(&self, session: u32, statement: u32) {
        self.note(
            u64::from(session)
                .wrapping_mul(10)
                .wrapping_add(u64::from(statement)),
        );
    }

    fn page(&self, _session: u32, _statement: u32, _step: u64) {
        self.note(99);
    }
}

/// Notes the writes of a device.
#[derive(Drop)]
struct Writes<'a> {
    /// What has happened.
    events: &'a Events,
}

impl<'a> Watch for Writes<'a> {
    /// Notes a write.
    fn begin(&mut self, writes: bool) {
        if writes {
            self.events.note_write();
        }
    }

    /// Notes nothing.
    fn end(&mut self) {}
}

/// Statements of three sessions.
const SCRIPT: &[u8] = b"@1 insert vector 'a:1'
search 'a'
@2 search 'a'
# none
@3 insert vector 'b:1'
end
@1 insert vector 'c:1'
";

/// What has happened in a run of these statements, and whether its status is 1.
fn passed<R>(shell: &Shell<'_, R>) -> (u64, bool)
where
    R: Threads + Wait + Sync + AllocGlobal,
{
    let alloc = shell.alloc();
    let events = Events {
        number: AtomicU64::new(0),
    };
    let store = WatchedDisk {
        disk: empty(alloc),
        watch: Writes { events: &events },
    };
    let script = Script::new(SCRIPT, PIECE, 0);
    let out = MemorySink::new(alloc, Vec::new(alloc));
    let ended = run_shell(shell.rt, alloc, shell.words, script, out, store, &events);
    let refused = ended.status == 1;
    drop(ended);
    (events.number.load(Ordering::SeqCst), refused)
}

/// Each statement calls the hook before it writes.
pub fn see_a_gate<R>(shell: &Shell<'_, R>, tally: &mut Tally)
where
    R: Threads + Wait + Sync + Print + AllocGlobal,
{
    let (number, refused) = passed(shell);
    let holds = refused && number == 11_00_21_31_00_12_00;
    tally.see(shell.rt, holds, "what passed the gate", number);
}
