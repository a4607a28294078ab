//! The model, a second reading of logs that shares no walk with the store: here the program that runs it.
//!
//! Reads logs and tests each condition of each record's rule by plain walks over decoded pages, as an independent
//! check of the definitions of a legal log.
//!
//! In `logs` and `index-logs` each folder has
//!
//! - `ginsh.log`, a whole log file, and `about`, what the run did;
//! - `records`, a record a line: number, kind, xid, fields, changed pages (`i` an image, `d` a delta);
//! - `commits`, its history: a commit a line, with the names that it deletes and those that it inserts;
//! - `edits`, an edit a line: `OFFSET BYTES ..; what it does; verdict`. The bytes, in base 16, are at the offset in
//!   place of the log's, or after them. A verdict is `legal`, `not a store`, or `record N is not valid`: the records
//!   before N are a legal log, and N may not follow them;
//! - `walks`, where it has any: the walk of a search in five lines, with an empty line between two. They are `walk:`
//!   what it shows; `query:` lexemes with `!`, `&`, `|` and brackets; `pin: COMMITS commits at LENGTH`; `reads:` a
//!   moment `LENGTH:PAGE` for each page that is read, which is as the first LENGTH records leave it; and `found:`
//!   what the walk has to find. In a lexeme `x{9}` is nine times the letter x, and `*` at its end asks for all that
//!   begin with it. What is found is `kept ITEMS, yes ITEMS`, an item being its page and slot, and `2/0-3` four of
//!   them; or `no walk at read N`, where the Nth page is not the one that has to come next, or is missing; or `no
//!   walk, broken: RULE`, where the moments or the pin can't be. What is a walk and what it finds is said in
//!   `log_scans`.
//!
//! Of the kinds of records of which the core has a test it is asked too, and has to find what the walks find; and its
//! state has to say what they say after each record. Where it doesn't the verdict is `record N is another to the
//! core`.
//!
//! In `index-logs` each document's keys are in one part of the index after each record.
//!
//! Each document of a walk's snapshot that satisfies the query has to be kept, and each that has a yes to satisfy it.
//!
//! In `index-logs` a commit asks that its documents are indexed, in `logs` not. Printed are each record of the log
//! with its verdict, the history, what each walk finds, and what is not as it was wanted. The first word names the
//! folder of these two, which else are where the program runs. With the second word `why` each edit's verdict is
//! printed, with the rule that is broken.
#![tactic(auto)]

mod choices;
mod folder;
mod history;
mod images;
mod judge;
mod lines;
mod parts;
mod prefix;
mod same;
mod told;
mod walks;

use anyhow::Result;
use bench_base::names_in;
use folder::{Asks, test_folder};
use std::env;
use std::path::Path;
use std::process::ExitCode;
use std::rt::{Env, Files};

/// The folder of the logs' folders, the first word, or the one that this runs in; and whether the second word is `why`.
fn words(rt: &(impl Env + AllocGlobal)) -> Result<(String, bool)> {
    let mut words = env::args(rt)?.skip(1);
    let folder = match words.next() {
        Some(folder) => folder,
        None => String::from_str(rt.alloc(), ".")?,
    };
    let why = match words.next() {
        Some(word) => word.as_str() == "why",
        None => false,
    };
    Ok((folder, why))
}

/// The logs of a group; it says how many lines differ.
fn test_group<R: Files + Print + AllocGlobal + Clone + Drop>(
    rt: &R,
    folder: &str,
    group: &str,
    asks: Asks,
) -> Result<usize> {
    let alloc = rt.alloc();
    let group = Path::new(folder).join(alloc, group)?;
    let mut differ = 0usize;
    for name in &names_in(rt, group.as_path())? {
        let folder = group.join(alloc, name.as_str())?;
        let lines = test_folder(rt, name.as_str(), folder.as_path(), asks)?;
        differ = differ.saturating_add(lines);
    }
    Ok(differ)
}

/// All logs; it says how many lines differ.
fn run<R: Files + Print + Env + AllocGlobal + Clone + Drop>(rt: &R) -> Result<usize> {
    let (folder, why) = words(rt)?;
    let folder = folder.as_str();
    let logs = test_group(rt, folder, "logs", Asks { index: false, why })?;
    let indexed = test_group(rt, folder, "index-logs", Asks { index: true, why })?;
    let differ = logs.saturating_add(indexed);
    println!(rt; "{differ} lines differ")?;
    Ok(differ)
}

/// The whole program.
fn main(rt: HostRuntime) -> Result<ExitCode> {
    if run(&rt)? == 0 {
        Ok(ExitCode::SUCCESS)
    } else {
        Ok(ExitCode::FAILURE)
    }
}
