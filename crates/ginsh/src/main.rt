//! The program: a script on standard input, its replies on standard output, and a store in two
//! files of the working directory.
#![tactic(auto)]

ghost use Rattle.std.specs.Prelude.{◌≡◌, ◌≢◌, ◌↔◌, ◌≤◌, drop, IfOk, IfErr};
ghost use Rattle.std.specs.IoError.{error_kind};
ghost use Rattle.std.specs.Process.{exit_status};
ghost use Rattle.shell_run.specs.declared.top.Outcome.{Outcome};
ghost use Rattle.shell_run.specs.Words.{IsForm, Options};
ghost use Rattle.ginsh.specs.Started.{RunsOver};
ghost use Rattle.disk_file.specs.declared.disk.FileDisk.{FileDisk};
ghost use Rattle.disk_file.specs.declared.streams.StdSource.{StdSource};
ghost use Rattle.disk_file.specs.declared.streams.StdSink.{StdSink};

use disk_file::{FileDisk, HostFolder, StdSink, StdSource, SystemFolder};
use disk_trait::{Disk, Sink, Source};
use shell_run::{NoGate, Outcome, run_shell};
use std::alloc::Global;
use std::fs::File;
use std::io::{self, ErrorKind, Read, Write};
use std::process::ExitCode;
use std::rt::Env;
use std::sync::Wait;
use std::thread::Threads;

/// The words after the program's name, which is the first.
fn behind_name(words: Vec<String>) -> Vec<String>
    ensures { result.items ≡ drop 1 words.items }
{
    let mut words = words;
    if !words.is_empty() {
        words.remove(0);
    }
    words
}

/// The words of the call.
fn words_of(rt: &(impl Env + AllocGlobal)) -> io::Result<Vec<String>> {
    Ok(behind_name(std::env::args(rt)?.collect(rt.alloc())?))
}

/// Words that are no text have no form. Else memory ran out.
fn unread_status(error: &io::Error) -> u8
    ensures form { (result ≡ 2) ↔ (error_kind error.now ≡ ErrorKind.InvalidData) }
    ensures memory { (result ≡ 5) ↔ (error_kind error.now ≢ ErrorKind.InvalidData) }
{
    match error.kind() {
        ErrorKind::InvalidData => 2,
        _ => 5,
    }
}

/// The whole program, over the store in a folder. Where the files of the folder say what they hold, so does the device
/// over them, and the contract of a run says what is found, and what a crash leaves.
fn answer<R: Threads + Wait + Sync, F: HostFolder + Send, I: Read, O: Write>(
    rt: &R,
    folder: F,
    alloc: Global,
    words: &[String],
    reader: I,
    writer: O,
) -> Outcome<StdSource<I>, StdSink<O>, FileDisk<F>>
where
    F::Handle: Send,
    ensures { RunsOver ⟦<StdSource<I> as Source>⟧ ⟦<StdSink<O> as Sink>⟧
        ⟦<FileDisk<F> as Disk>⟧ words.now folder reader writer result }
{
    let script = StdSource::new(reader);
    let out = StdSink::new(writer);
    let disk = FileDisk::new(folder);
    run_shell(rt, alloc, words, script, out, disk, &NoGate)
}

/// The program with its words: it ends with the status of their run. Words that are no text have none.
fn end_of<R: Threads + Wait + Sync, F: HostFolder + Send + Drop, I: Read + Drop, O: Write + Drop>(
    rt: &R,
    folder: F,
    alloc: Global,
    words: io::Result<Vec<String>>,
    reader: I,
    writer: O,
) -> ExitCode
where
    F::Handle: Send,
    ensures run { IfOk words
        (λ w. (r : Outcome (StdSource I) (StdSink O) (FileDisk F F.Handle F.HostFolder))
        × RunsOver ⟦<StdSource<I> as Source>⟧ ⟦<StdSink<O> as Sink>⟧
        ⟦<FileDisk<F> as Disk>⟧ w.items folder reader writer r × (exit_status result ≡ r.status)) }
    ensures form { IfOk words (λ w. (exit_status result ≡ 2) ↔ ((options : Options) → IsForm w.items options → ⊥)) }
    ensures no_text { IfErr words (λ e. (exit_status result ≡ 2) ↔ (error_kind e ≡ ErrorKind.InvalidData)) }
    ensures range { exit_status result ≤ 8 }
{
    match words {
        Ok(words) => ExitCode::from(answer(rt, folder, alloc, &words, reader, writer).status),
        Err(error) => ExitCode::from(unread_status(&error)),
    }
}

/// A file that is opened gets the lowest number that is free. So where a standard stream is closed, the folder `/`
/// takes its number, which can be neither read nor written: no reply goes into a file of the store.
fn main(rt: HostRuntime) -> ExitCode {
    let _first = File::open(&rt, "/");
    let _second = File::open(&rt, "/");
    let _third = File::open(&rt, "/");
    let folder = SystemFolder::new(&rt);
    end_of(
        &rt,
        folder,
        rt.alloc(),
        words_of(&rt),
        rt.stdin(),
        rt.stdout(),
    )
}
