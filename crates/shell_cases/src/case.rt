// A case, its files and its runs.
use crate::compare::{Wanted, agrees, tell_difference};
use crate::edits::open_edits;
use crate::runs::{PIECE, Script, Shell, empty, holding, log_of, only};
use crate::short::expanded;
use crate::tally::Tally;
use crate::tidied::{DONE, with_after_each};
use anyhow::{Context, Result, ensure};
use disk_trait::{MemoryDisk, MemorySink};
use shell_run::{NoGate, run_shell};
use std::alloc::{AllocError, Global};
use std::io::ErrorKind;
use std::path::{Path, PathBuf};
use std::rt::Files;
use std::sync::Wait;
use std::thread::Threads;
use std::{fs, mem, str};

/// What the names of the files of each run end with.
const SUFFIXES: [&str; 4] = ["", "-2", "-3", "-4"];

/// The files of a run in a folder: `script` and others of the first, `script-2` and others of the second.
#[derive(Clone, Copy)]
struct RunFiles<'a> {
    /// The folder of the case.
    folder: Path<'a>,
    /// What the names of the files end with.
    suffix: &'a str,
    /// Whether the texts are written short.
    short: bool,
    /// The statement of maintenance after each statement of a session, or nothing.
    after: &'a str,
}

impl RunFiles<'_> {
    /// Where a file is.
    fn path(&self, alloc: Global, name: &str) -> Result<PathBuf, AllocError> {
        let mut file = String::from_str(alloc, name)?;
        file.push_str(self.suffix)?;
        self.folder.join(alloc, file.as_str())
    }

    /// The bytes of a file, if it is there.
    fn known(&self, rt: &(impl Files + AllocGlobal), name: &str) -> Result<Option<Vec<u8>>> {
        let path = self.path(rt.alloc(), name)?;
        match fs::read(rt, path.as_path()) {
            Ok(bytes) => Ok(Some(bytes)),
            Err(error) if error.kind() == ErrorKind::NotFound => Ok(None),
            Err(error) => Err(error.into()),
        }
    }

    /// The number in a file, or this one where it is not there.
    fn number(&self, rt: &(impl Files + AllocGlobal), name: &str, absent: u64) -> Result<u64> {
        match self.known(rt, name)? {
            Some(bytes) => Ok(str::from_utf8(&bytes)?.trim().parse()?),
            None => Ok(absent),
        }
    }

    /// A text as it is meant, if it is there.
    fn text(&self, rt: &(impl Files + AllocGlobal), name: &str) -> Result<Option<Vec<u8>>> {
        match self.known(rt, name)? {
            Some(bytes) if self.short => {
                let text = expanded(rt.alloc(), str::from_utf8(&bytes)?)?;
                Ok(Some(text.into_bytes()))
            }
            known => Ok(known),
        }
    }

    /// A text, if it is there, with this word after each line of a session, where there is maintenance.
    fn tidied_text(
        &self,
        rt: &(impl Files + AllocGlobal),
        name: &str,
        word: &str,
    ) -> Result<Option<Vec<u8>>> {
        match self.text(rt, name)? {
            Some(bytes) if !self.after.is_empty() => {
                let text = with_after_each(rt.alloc(), str::from_utf8(&bytes)?, word)?;
                Ok(Some(text.into_bytes()))
            }
            known => Ok(known),
        }
    }

    /// The words of the run: `run`, if it has no others.
    fn words(&self, rt: &(impl Files + AllocGlobal)) -> Result<Vec<String>> {
        match self.known(rt, "words")? {
            Some(bytes) => Ok(words_in(rt.alloc(), str::from_utf8(&bytes)?)?),
            None => Ok(words_in(rt.alloc(), "run")?),
        }
    }

    /// How the run reads its script and writes its replies.
    fn manner(&self, rt: &(impl Files + AllocGlobal)) -> Result<Manner> {
        let piece = self.number(rt, "piece", PIECE as u64)?;
        Ok(Manner {
            piece: usize::try_from(piece)?.max(1),
            read: self.number(rt, "reads", 0)?,
            write: self.number(rt, "writes", 0)?,
        })
    }

    /// The log that the run is to leave, where that is known.
    fn left(&self, rt: &(impl Files + AllocGlobal)) -> Result<Option<Vec<u8>>> {
        if self.after.is_empty() {
            self.known(rt, "left")
        } else {
            Ok(None)
        }
    }

    /// What the run is to print, how it is to end, and what it is to leave. Where no status is said, none is right.
    fn wanted(&self, rt: &(impl Files + AllocGlobal)) -> Result<Wanted> {
        let status = self.number(rt, "status", u64::MAX)?;
        let left = self.left(rt)?;
        let text = self.tidied_text(rt, "expected", DONE)?;
        Ok(Wanted {
            status,
            text: text.context("a run prints a text")?,
            left,
        })
    }
}

/// The words of a text.
fn words_in(alloc: Global, text: &str) -> Result<Vec<String>, AllocError> {
    let mut words = Vec::new(alloc);
    for word in text.split_whitespace() {
        words.push(String::from_str(alloc, word)?)?;
    }
    Ok(words)
}

/// How a run reads its script and writes its replies.
#[derive(Clone, Copy)]
struct Manner {
    /// How many bytes of the script a read gives at most.
    piece: usize,
    /// The read that fails; 0 where none does.
    read: u64,
    /// The write of the replies that fails; 0 where none does.
    write: u64,
}

/// A run over a store, which is then as the run leaves it: its status, and what has its replies.
fn run_over<R>(
    shell: &Shell<'_, R>,
    words: &[String],
    script: &[u8],
    manner: Manner,
    store: &mut MemoryDisk,
) -> (u8, MemorySink)
where
    R: Threads + Wait + Sync + AllocGlobal,
{
    let alloc = shell.alloc();
    let source = Script::new(script, manner.piece, manner.read);
    let out = MemorySink::new(alloc, only(alloc, manner.write));
    let before = mem::replace(store, empty(alloc));
    let ended = run_shell(shell.rt, alloc, words, source, out, before, &NoGate);
    drop(mem::replace(store, ended.store));
    (ended.status, ended.out)
}

/// Runs a script with the words and in the manner of these files: its status, and what has its replies.
fn run_script<R>(
    shell: &Shell<'_, R>,
    files: &RunFiles<'_>,
    script: &[u8],
    store: &mut MemoryDisk,
) -> Result<(u8, MemorySink)>
where
    R: Threads + Wait + Sync + AllocGlobal + Files,
{
    let manner = files.manner(shell.rt)?;
    let words = files.words(shell.rt)?;
    Ok(run_over(shell, &words, script, manner, store))
}

/// Whether a run is as it was wanted. It prints what is not.
fn is_wanted<R>(
    shell: &Shell<'_, R>,
    name: &str,
    wanted: &Wanted,
    status: u8,
    text: &[u8],
    store: &mut MemoryDisk,
) -> bool
where
    R: Print + AllocGlobal,
{
    let alloc = shell.rt.alloc();
    let left = log_of(alloc, store).unwrap_or(Vec::new(alloc));
    let agrees = agrees(wanted, status, text, &left);
    if !agrees {
        tell_difference(shell.rt, name, wanted, status, text, &left);
    }
    agrees
}

/// Runs a script over the store that the runs before it left, and sees that it is as these files say.
fn see_run<R>(
    shell: &Shell<'_, R>,
    name: &str,
    files: &RunFiles<'_>,
    script: &[u8],
    store: &mut MemoryDisk,
    tally: &mut Tally,
) -> Result<()>
where
    R: Threads + Wait + Sync + Print + AllocGlobal + Files,
{
    let wanted = files.wanted(shell.rt)?;
    let (status, out) = run_script(shell, files, script, store)?;
    tally.runs = tally.runs.saturating_add(1);
    tally.note(is_wanted(shell, name, &wanted, status, out.bytes(), store));
    Ok(())
}

/// Runs the runs of a case, one after another over one store, which is then as they leave it.
fn run_each<R>(
    shell: &Shell<'_, R>,
    name: &str,
    first: &RunFiles<'_>,
    store: &mut MemoryDisk,
    tally: &mut Tally,
) -> Result<()>
where
    R: Threads + Wait + Sync + Print + AllocGlobal + Files,
{
    let mut files = *first;
    for suffix in SUFFIXES {
        files.suffix = suffix;
        let Some(script) = files.tidied_text(shell.rt, "script", files.after)? else {
            break;
        };
        see_run(shell, name, &files, &script, store, tally)?;
    }
    Ok(())
}

/// Opens the edits of the log that a case leaves, where it has some.
fn run_edits<R>(
    shell: &Shell<'_, R>,
    name: &str,
    files: &RunFiles<'_>,
    store: &mut MemoryDisk,
    tally: &mut Tally,
) -> Result<()>
where
    R: Threads + Wait + Sync + Print + AllocGlobal + Files,
{
    let Some(edits) = files.known(shell.rt, "edits")? else {
        return Ok(());
    };
    let log = log_of(shell.alloc(), store).context("the log is read")?;
    open_edits(shell, name, &log, str::from_utf8(&edits)?, tally)
}

/// The store before the first run: its log, and `fails`, the call of the device that fails.
fn store_of(rt: &(impl Files + AllocGlobal), files: &RunFiles<'_>) -> Result<MemoryDisk> {
    let fails = files.number(rt, "fails", 0)?;
    let log = files.known(rt, "log")?.unwrap_or(Vec::new(rt.alloc()));
    Ok(holding(rt.alloc(), &log, only(rt.alloc(), fails)))
}

/// Runs the runs of a case, and where they are without maintenance the edits of the log that they leave.
fn run_runs<R>(
    shell: &Shell<'_, R>,
    name: &str,
    files: &RunFiles<'_>,
    store: &mut MemoryDisk,
    tally: &mut Tally,
) -> Result<()>
where
    R: Threads + Wait + Sync + Print + AllocGlobal + Files,
{
    let before = tally.runs;
    run_each(shell, name, files, store, tally)?;
    ensure!(tally.runs > before, "a case has a script");
    if files.after.is_empty() {
        run_edits(shell, name, files, store, tally)?;
    }
    Ok(())
}

/// The same over the store with which they begin.
fn run_all<R>(
    shell: &Shell<'_, R>,
    name: &str,
    files: &RunFiles<'_>,
    tally: &mut Tally,
) -> Result<()>
where
    R: Threads + Wait + Sync + Print + AllocGlobal + Files,
{
    let mut store = store_of(shell.rt, files)?;
    let ran = run_runs(shell, name, files, &mut store, tally);
    drop(store);
    ran
}

/// Runs the runs of a case once more for each of these words, which are statements of maintenance.
fn run_tidied<R>(
    shell: &Shell<'_, R>,
    name: &str,
    files: &RunFiles<'_>,
    words: &str,
    tally: &mut Tally,
) -> Result<()>
where
    R: Threads + Wait + Sync + Print + AllocGlobal + Files,
{
    for word in words.split_whitespace() {
        let tidied = RunFiles {
            folder: files.folder,
            suffix: files.suffix,
            short: files.short,
            after: word,
        };
        run_all(shell, name, &tidied, tally)?;
    }
    Ok(())
}

/// Runs a case: its runs, the edits of the log that they leave, and where it has the file `tidied` its runs once more
/// for each word there, `cleanup` or `vacuum`, with that after each statement of a session.
pub fn run_case<R>(
    shell: &Shell<'_, R>,
    name: &str,
    folder: Path<'_>,
    tally: &mut Tally,
) -> Result<()>
where
    R: Threads + Wait + Sync + Print + AllocGlobal + Files,
{
    let mut files = RunFiles {
        folder,
        suffix: "",
        short: false,
        after: "",
    };
    files.short = files.known(shell.rt, "short")?.is_some();
    run_all(shell, name, &files, tally)?;
    match files.known(shell.rt, "tidied")? {
        Some(words) => run_tidied(shell, name, &files, str::from_utf8(&words)?, tally),
        None => Ok(()),
    }
}
