// The top call.
ghost use Rattle.std.specs.Prelude.{◌≡◌, ◌≤◌};
ghost use Rattle.shell_run.specs.RunMeets.{RunMeets};
ghost use Rattle.shell_run.specs.Words.{settings_for};
ghost use Rattle.shell_run.specs.Inner.Statuses.{ending_number};
ghost use Rattle.shell_run.specs.Inner.Serving.{ServeMeets};
ghost use Rattle.shell_script.specs.declared.command_words.TheConstants.{MOST_PAGES};

use crate::error::Stop;
use crate::script::read_script;
use crate::serving::run_steps;
use disk_trait::{Disk, Sink, Source};
use engine::{Db, Gate, Settings, Unopened, WIDEST};
use shell_script::{Options, options_of};
use std::alloc::Global;
use std::sync::Wait;
use std::thread::Threads;
use ts_config::Configs;

/// The status of a run, and the three objects as it leaves them.
#[derive(Drop)]
pub struct Outcome<S, K, D> {
    /// The exit status.
    pub status: u8,
    /// The source of the script.
    pub script: S,
    /// The sink of the replies.
    pub out: K,
    /// The device of the store.
    pub store: D,
}

/// The status of a run that ended: whether the device failed in it, and whether a reply was a refusal.
fn ending_status(failed: bool, refused: bool) -> u8
    ensures { result ≡ ending_number failed refused }
{
    if failed {
        return 3;
    }
    if refused { 1 } else { 0 }
}

/// The settings of a store with these options.
fn settings_of(options: Options) -> Settings
    ensures { result ≡ settings_for options }
{
    Settings {
        pages: options.pages,
        pending: options.pending,
        ..WIDEST
    }
}

/// The script's statements over a device: the status, where nothing stopped before, and the device.
fn serve<K: Sink, D: Disk, G: Gate>(
    alloc: Global,
    gate: &G,
    options: Options,
    out: &mut K,
    device: D,
    text: &[u8],
) -> (u8, D)
    requires { options.pages ≤ MOST_PAGES }
    ensures { ServeMeets K.Sink D.Disk (settings_for options) text.now result.0 out.old out.new
        device result.1 }
{
    let Ok(configs) = Configs::new(alloc) else {
        return (Stop::OutOfMemory.status(), device);
    };
    let before = device.faults();
    let (store, pass) = match Db::open(alloc, device, settings_of(options)) {
        Ok(opened) => opened,
        Err(Unopened { store, why }) => return (Stop::from(why).status(), store),
    };
    let (device, ran) = run_steps(alloc, gate, out, store, pass, configs, text);
    let refused = match ran {
        Ok(refused) => refused,
        Err(stop) => return (stop.status(), device),
    };
    (ending_status(device.faults() > before, refused), device)
}

/// All of the call, which waits for nobody.
fn run<S: Source, K: Sink, D: Disk, G: Gate>(
    alloc: Global,
    words: &[String],
    mut script: S,
    mut out: K,
    store: D,
    gate: &G,
) -> Outcome<S, K, D>
    ensures { RunMeets S.Source K.Sink D.Disk words.now script out store result }
{
    let Some(options) = options_of(words) else {
        return Outcome {
            status: 2,
            script,
            out,
            store,
        };
    };
    let text = match read_script(alloc, &mut script) {
        Ok(text) => text,
        Err(stop) => {
            return Outcome {
                status: stop.status(),
                script,
                out,
                store,
            };
        }
    };
    let (status, store) = serve(alloc, gate, options, &mut out, store, &text);
    Outcome {
        status,
        script,
        out,
        store,
    }
}

/// Answers a script: reads it to its end, runs its statements and prints a reply to each.
///
/// The status is 0; 1 where a reply is a refusal; 2 where the words have no form; 3 where the
/// device failed; 4 where the files are no store; 5 where memory ran out; 6 where the source
/// failed; 7 where the sink failed; 8 where the script has more than 2^30 bytes.
pub fn run_shell<R: Threads + Wait + Sync, S: Source, K: Sink, D: Disk + Send, G: Gate + Sync>(
    rt: &R,
    alloc: Global,
    words: &[String],
    script: S,
    out: K,
    store: D,
    gate: &G,
) -> Outcome<S, K, D>
    ensures { RunMeets S.Source K.Sink D.Disk words.now script out store result }
{
    let _ = rt;
    run(alloc, words, script, out, store, gate)
}
