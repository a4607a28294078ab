// The walks of a folder: what each reads for which query, and what it has to find.
use crate::lines::{push_doc, push_number, say};
use anyhow::{Context, Result};
use log_scans::{
    Moment, NoWalk, Pin, Query, Reading, Snapshot, WalkResult, all_sought, found_in, query_in,
    read_moments, scan_pages, told_wrong,
};
use log_walks::{Doc, Fault};
use page_types::Record;
use std::alloc::{AllocError, Global};
use std::fs;
use std::path::Path;
use std::rt::Files;
use std::str::Lines;

/// A walk as it is written.
#[derive(Clone, Copy)]
struct WalkLines<'a> {
    /// What it shows.
    what: &'a str,
    /// Its query.
    query: &'a str,
    /// The pin's commits and length.
    pin: &'a str,
    /// The moments.
    reads: &'a str,
    /// What has to be found.
    wanted: &'a str,
}

/// What is after a name in a line.
fn field<'a>(line: Option<&'a str>, name: &str) -> Result<&'a str> {
    let line = line.context("a walk has five lines")?;
    let field = line
        .strip_prefix(name)
        .context("a line of a walk begins with its name")?;
    Ok(field.trim())
}

/// The next walk, whose first line this is.
fn walk_lines<'a>(first: &'a str, lines: &mut Lines<'a>) -> Result<WalkLines<'a>> {
    Ok(WalkLines {
        what: field(Some(first), "walk:")?,
        query: field(lines.next(), "query:")?,
        pin: field(lines.next(), "pin:")?,
        reads: field(lines.next(), "reads:")?,
        wanted: field(lines.next(), "found:")?,
    })
}

/// A moment: `LENGTH:PAGE`.
fn moment(word: &str) -> Result<Moment> {
    let (length, page) = word
        .split_once(':')
        .context("a moment is a length and a page")?;
    Ok(Moment {
        length: length.parse::<u64>().context("a length is a number")?,
        page: page.parse::<u32>().context("a page is a number")?,
    })
}

/// The moments of a line.
fn moments(alloc: Global, line: &str) -> Result<Vec<Moment>> {
    let mut all = Vec::new(alloc);
    for word in line.split_whitespace() {
        all.push(moment(word)?)?;
    }
    Ok(all)
}

/// A pin: `COMMITS commits at LENGTH`.
fn pin(line: &str) -> Result<Pin> {
    let (commits, length) = line
        .split_once(" commits at ")
        .context("a pin has two numbers")?;
    Ok(Pin {
        commits: commits.parse::<u32>().context("commits are a number")?,
        length: length.parse::<u64>().context("a length is a number")?,
    })
}

/// Items of neighbouring slots.
#[derive(Clone, Copy)]
struct Run {
    /// The first.
    first: Doc,
    /// The last.
    last: Doc,
}

/// The run of an item alone.
fn run_of(item: u32) -> Run {
    let first = Doc { item, serial: 0 };
    Run { first, last: first }
}

/// The run comes after a line: a page, and its first and last slot.
fn push_run(line: &mut String, run: Run) -> Result<(), AllocError> {
    push_number(line, " ", u64::from(run.first.page()))?;
    push_number(line, "/", run.first.slot() as u64)?;
    if run.first == run.last {
        Ok(())
    } else {
        push_number(line, "-", run.last.slot() as u64)
    }
}

/// An item comes after a run, which goes on, or comes after the line where another begins.
fn go_on(line: &mut String, run: Run, item: u32) -> Result<Run, AllocError> {
    let next = run_of(item);
    if run.last.item.checked_add(1) == Some(item) {
        return Ok(Run {
            first: run.first,
            last: next.last,
        });
    }
    push_run(line, run)?;
    Ok(next)
}

/// The runs of rising items come after a line, after their name.
fn push_items(line: &mut String, name: &str, items: &[u32]) -> Result<(), AllocError> {
    line.push_str(name)?;
    let Some((first, others)) = items.split_first() else {
        return line.push_str(" none");
    };
    let mut run = run_of(*first);
    for item in others {
        run = go_on(line, run, *item)?;
    }
    push_run(line, run)
}

/// The items that were kept and those with a yes: of neighbouring slots their first and last.
fn found_line(alloc: Global, found: &WalkResult) -> Result<String, AllocError> {
    let mut line = String::new(alloc);
    push_items(&mut line, "kept", &found.kept)?;
    push_items(&mut line, ", yes", &found.yes)?;
    Ok(line)
}

/// What a walk has found, and the documents of the snapshot of which it says wrongly.
#[derive(Drop)]
struct Walked {
    /// What it has found, or that it is none.
    line: String,
    /// The documents.
    wrong: Vec<Doc>,
}

impl Walked {
    /// This was found, and no document is judged wrongly.
    fn new(alloc: Global, line: String) -> Walked {
        Walked {
            line,
            wrong: Vec::new(alloc),
        }
    }
}

/// There is no walk, and why.
fn none_at(alloc: Global, refused: NoWalk) -> Result<Walked, AllocError> {
    let NoWalk::At(number) = refused else {
        return Err(AllocError);
    };
    let mut line = String::new(alloc);
    push_number(&mut line, "no walk at read ", number as u64)?;
    Ok(Walked::new(alloc, line))
}

/// There is no walk, since the moments or the pin can't be.
fn none_by(alloc: Global, rule: &str) -> Result<Walked, AllocError> {
    let mut line = String::from_str(alloc, "no walk, broken: ")?;
    line.push_str(rule)?;
    Ok(Walked::new(alloc, line))
}

/// What was found, and of which documents wrongly.
fn told(
    alloc: Global,
    query: &Query,
    docs: &[Snapshot],
    found: &WalkResult,
) -> Result<Walked, AllocError> {
    let wrong = told_wrong(alloc, query, docs, found)?;
    let line = found_line(alloc, found)?;
    Ok(Walked { line, wrong })
}

/// What a walk that has read this finds for its query.
fn outcome(alloc: Global, query: &Query, reading: &Reading) -> Result<Walked, AllocError> {
    let sought = all_sought(alloc, query)?;
    match scan_pages(alloc, &reading.reads, &sought) {
        Err(refused) => none_at(alloc, refused),
        Ok(scan) => told(alloc, query, &reading.docs, &found_in(alloc, query, &scan)?),
    }
}

/// What a walk with this query finds where this was read.
fn found_by(
    alloc: Global,
    query: &Query,
    read: Result<Reading, Fault>,
) -> Result<Walked, AllocError> {
    match read {
        Ok(reading) => outcome(alloc, query, &reading),
        Err(Fault::OutOfMemory) => Err(AllocError),
        Err(Fault::Broken(rule)) => none_by(alloc, rule),
    }
}

/// What a walk finds in a log with these records.
fn walk(alloc: Global, records: &[Record], lines: &WalkLines<'_>) -> Result<Walked> {
    let pin = pin(lines.pin)?;
    let moments = moments(alloc, lines.reads)?;
    let read = read_moments(alloc, records, pin, &moments);
    let query = query_in(alloc, lines.query)?.context("the query is one")?;
    Ok(found_by(alloc, &query, read)?)
}

/// Prints of which documents a walk says wrongly.
fn print_wrong(rt: &(impl Print + AllocGlobal), what: &str, wrong: &[Doc]) -> Result<()> {
    for doc in wrong {
        let mut name = String::new(rt.alloc());
        push_doc(&mut name, "it says wrongly of ", *doc)?;
        say(rt, &["walk, ", what, ": ", name.as_str()])?;
    }
    Ok(())
}

/// Prints what a walk finds; it says how many lines differ.
fn print_walk(
    rt: &(impl Print + AllocGlobal),
    walked: &Walked,
    what: &str,
    wanted: &str,
) -> Result<usize> {
    let line = walked.line.as_str();
    say(rt, &["walk, ", what, ": ", line])?;
    print_wrong(rt, what, &walked.wrong)?;
    if line == wanted {
        return Ok(walked.wrong.len());
    }
    say(rt, &["walk, ", what, ": wanted \"", wanted, "\""])?;
    Ok(walked.wrong.len().saturating_add(1))
}

/// Tests a walk; it says how many lines differ.
fn test_walk(
    rt: &(impl Print + AllocGlobal),
    records: &[Record],
    lines: &WalkLines<'_>,
) -> Result<usize> {
    let walked = walk(rt.alloc(), records, lines)?;
    print_walk(rt, &walked, lines.what, lines.wanted)
}

/// Tests the walks of a text; it says how many lines differ.
fn test_text(rt: &(impl Print + AllocGlobal), records: &[Record], text: &str) -> Result<usize> {
    let mut lines = text.lines();
    let mut count = 0usize;
    let mut differ = 0usize;
    for _ in 0..text.len() {
        let Some(first) = lines.next() else {
            break;
        };
        if !first.is_empty() {
            count = count.saturating_add(1);
            let tested = test_next(rt, records, first, &mut lines);
            differ = differ.saturating_add(tested.context(format_args!("walk {count}"))?);
        }
    }
    Ok(differ)
}

/// Tests the walk whose first line this is; it says how many lines differ.
fn test_next<'a>(
    rt: &(impl Print + AllocGlobal),
    records: &[Record],
    first: &'a str,
    lines: &mut Lines<'a>,
) -> Result<usize> {
    let read = walk_lines(first, lines)?;
    test_walk(rt, records, &read)
}

/// Tests all walks of a folder, which may have none; it says how many lines differ.
pub(crate) fn test_walks<R: Files + Print + AllocGlobal>(
    rt: &R,
    folder: Path<'_>,
    records: &[Record],
) -> Result<usize> {
    let path = folder.join(rt.alloc(), "walks")?;
    if !fs::exists(rt, &path)? {
        return Ok(0);
    }
    let text = fs::read_to_string(rt, &path)?;
    test_text(rt, records, text.as_str())
}
