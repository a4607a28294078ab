//! Runs each case: a folder with the scripts of runs over one store, what each is to print, its status, and where it is
//! known the log that it leaves; and opens the edits of that log. With a word these are the cases of that folder, and
//! nothing else is run. Without one they are those of the working directory, and then it stops runs, lets their calls
//! fail, cuts logs, and runs scripts over the files of the working directory.
#![tactic(auto)]

mod calls;
mod case;
mod compare;
mod edits;
mod faults;
mod files;
mod gate;
mod logs;
mod runs;
mod short;
mod stops;
mod streams;
mod tally;
mod tidied;

use anyhow::{Context, Result};
use bench_base::names_in;
use case::run_case;
use runs::Shell;
use std::path::Path;
use std::process::ExitCode;
use std::rt::Files;
use std::sync::Wait;
use std::thread::Threads;
use tally::Tally;

/// Runs the case of this name in a folder.
fn run_named<R>(shell: &Shell<'_, R>, folder: Path<'_>, name: &str, tally: &mut Tally) -> Result<()>
where
    R: Threads + Wait + Sync + Print + AllocGlobal + Files,
{
    let at = folder.join(shell.alloc(), name)?;
    run_case(shell, name, at.as_path(), tally).context(format_args!("the case {name}"))
}

/// Runs the cases of a folder: how many there are.
fn run_cases<R>(shell: &Shell<'_, R>, folder: &str, tally: &mut Tally) -> Result<usize>
where
    R: Threads + Wait + Sync + Print + AllocGlobal + Files + Clone + Drop,
{
    let folder = Path::new(folder);
    let names = names_in(shell.rt, folder)?;
    for name in &names {
        run_named(shell, folder, name, tally)?;
    }
    Ok(names.len())
}

/// All beside the cases.
fn run_checks<R>(shell: &Shell<'_, R>, files: &HostRuntime, tally: &mut Tally) -> Result<()>
where
    R: Threads + Wait + Sync + Print + AllocGlobal,
{
    stops::see_stops(shell, tally)?;
    faults::see_faults(shell, tally);
    logs::see_logs(shell, tally);
    streams::see_a_long_script(shell, tally);
    streams::see_streams(shell.rt, tally);
    calls::see_calls(shell.rt, tally);
    gate::see_a_gate(shell, tally);
    files::see_stops(shell, tally);
    files::see_files(files, tally)?;
    files::see_refused_calls(files, tally)?;
    files::see_runs(shell, files, tally)
}

/// The whole program. Its status is 1 where anything differs.
fn main(rt: HostRuntime) -> Result<ExitCode> {
    let words = vec![in rt.alloc(); String::from_str(rt.alloc(), "run")?]?;
    let shell = Shell {
        rt: &rt,
        words: words.as_slice(),
    };
    let mut tally = Tally::default();
    let folder = std::env::args(&rt)?.nth(1);
    let cases = match &folder {
        Some(folder) => run_cases(&shell, folder, &mut tally)?,
        None => run_cases(&shell, ".", &mut tally)?,
    };
    if folder.is_none() {
        run_checks(&shell, &rt, &mut tally)?;
    }
    println!(rt;
        "{cases} cases, {} runs, {} edits, {} checks, {} differ",
        tally.runs, tally.edits, tally.checks, tally.differ
    )?;
    Ok(ExitCode::from(u8::from(tally.differ > 0)))
}
