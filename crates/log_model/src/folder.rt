// A folder with a log, what is wanted of it, its walks and its edits.
use crate::history::{commit_line, record_line};
use crate::judge::{Judged, Verdict, judge, judge_alone, records_of};
use crate::lines::{say, say_counts};
use crate::parts::test_parts;
use crate::same::same_in_front;
use crate::walks::test_walks;
use anyhow::{Context, Result};
use bench_base::EditLine;
use log_walks::Ledger;
use page_types::Record;
use std::alloc::Global;
use std::fs;
use std::path::Path;
use std::rt::Files;

/// The records of a longer log are counted, and not printed.
const MOST_PRINTED: usize = 1000;

/// What is asked of a log, and what is told.
#[derive(Clone, Copy)]
pub(crate) struct Asks {
    /// Whether a commit asks for indexed documents.
    pub(crate) index: bool,
    /// Whether each edit's verdict is printed, with its rule.
    pub(crate) why: bool,
}

/// Whether the record with this number is valid.
fn is_valid(verdict: Verdict, number: u64) -> bool {
    match verdict {
        Verdict::Legal => true,
        Verdict::NotAStore => false,
        Verdict::NotValid { number: first, .. } => number < first,
    }
}

/// Whether a printed line differs from the wanted one, which is printed then.
fn differs(rt: &impl Print, what: &str, line: &str, wanted: &str) -> Result<bool> {
    if line == wanted {
        return Ok(false);
    }
    say(rt, &[what, ": wanted \"", wanted, "\""])?;
    Ok(true)
}

/// Prints the next wanted line, to which nothing corresponds; it says how many differ with it.
fn print_rest(rt: &impl Print, what: &str, wanted: Option<&str>, differ: usize) -> Result<usize> {
    let Some(wanted) = wanted else {
        return Ok(differ);
    };
    say(rt, &[what, ": wanted also \"", wanted, "\""])?;
    Ok(differ.saturating_add(1))
}

/// How many of the records are valid.
fn count_valid(judged: &Judged) -> usize {
    let mut count = 0usize;
    for record in &judged.records {
        if is_valid(judged.verdict, record.number) {
            count = count.saturating_add(1);
        }
    }
    count
}

/// Prints a record's line, and whether it is valid.
fn print_line(rt: &impl Print, line: &str, valid: bool) -> Result<()> {
    let said = if valid { "valid" } else { "not valid" };
    say(rt, &[line, ": ", said])
}

/// Prints a record with its verdict; whether its line differs from the wanted one.
fn print_record(
    rt: &(impl Print + AllocGlobal),
    record: &Record,
    verdict: Verdict,
    wanted: &str,
) -> Result<bool> {
    let line = record_line(rt.alloc(), record)?;
    print_line(rt, line.as_str(), is_valid(verdict, record.number))?;
    differs(rt, "records", line.as_str(), wanted)
}

/// The text of a file of the folder.
fn text_in<R: Files + AllocGlobal>(rt: &R, folder: Path<'_>, name: &str) -> Result<String> {
    Ok(fs::read_to_string(rt, &folder.join(rt.alloc(), name)?)?)
}

/// Prints records with their verdicts; it says how many lines differ from those of a text.
fn print_each(
    rt: &(impl Print + AllocGlobal),
    records: &[Record],
    verdict: Verdict,
    text: &str,
) -> Result<usize> {
    let mut wanted = text.lines();
    let mut differ = 0usize;
    for record in records {
        let line = wanted.next().unwrap_or("nothing");
        if print_record(rt, record, verdict, line)? {
            differ = differ.saturating_add(1);
        }
    }
    print_rest(rt, "records", wanted.next(), differ)
}

/// Prints the records with their verdicts, or of a long log how many there are; it says how many lines differ.
fn print_records<R: Files + Print + AllocGlobal>(
    rt: &R,
    folder: Path<'_>,
    judged: &Judged,
) -> Result<usize> {
    let count = judged.records.len();
    if count > MOST_PRINTED {
        say_counts(rt, count, "records", count_valid(judged), "of them valid")?;
        return Ok(0);
    }
    let wanted = text_in(rt, folder, "records")?;
    print_each(rt, &judged.records, judged.verdict, wanted.as_str())
}

/// Prints a line of the history; whether it differs from the wanted one.
fn print_commit(
    rt: &(impl Print + AllocGlobal),
    ledger: &Ledger,
    commit: u32,
    wanted: &str,
) -> Result<bool> {
    let line = commit_line(rt.alloc(), ledger, commit)?;
    say(rt, &[line.as_str()])?;
    differs(rt, "commits", line.as_str(), wanted)
}

/// Prints the history, a line a commit and one for their number; it says how many lines differ from those of a text.
fn print_commits(rt: &(impl Print + AllocGlobal), ledger: &Ledger, text: &str) -> Result<usize> {
    let mut wanted = text.lines();
    let mut differ = 0usize;
    for commit in 1..ledger.commits.saturating_add(2) {
        let line = wanted.next().unwrap_or("nothing");
        if print_commit(rt, ledger, commit, line)? {
            differ = differ.saturating_add(1);
        }
    }
    print_rest(rt, "commits", wanted.next(), differ)
}

/// Prints the history; it says how many lines differ.
fn print_history<R: Files + Print + AllocGlobal>(
    rt: &R,
    folder: Path<'_>,
    judged: &Judged,
) -> Result<usize> {
    let wanted = text_in(rt, folder, "commits")?;
    print_commits(rt, judged.ledger(), wanted.as_str())
}

/// How many first records an edit leaves as they are in the log with these; all where it leaves no store.
fn untouched_by(alloc: Global, line: &str, log: &[u8], records: &[Record]) -> Result<usize> {
    let bytes = EditLine::new(line)?.apply(alloc, log)?;
    match records_of(alloc, &bytes)? {
        Some(edited) => Ok(same_in_front(&edited, records)),
        None => Ok(records.len()),
    }
}

/// How many first records each edit leaves as they are in the log with these.
fn untouched(alloc: Global, edits: &str, log: &[u8], records: &[Record]) -> Result<usize> {
    let mut count = records.len();
    for line in edits.lines() {
        count = count.min(untouched_by(alloc, line, log, records)?);
    }
    Ok(count)
}

/// The verdict of a log with an edit.
fn edited_verdict(
    alloc: Global,
    edit: EditLine<'_>,
    log: &[u8],
    beginning: &[Record],
    index: bool,
) -> Result<Verdict> {
    let bytes = edit.apply(alloc, log)?;
    Ok(judge_alone(alloc, &bytes, beginning, index)?)
}

/// Prints what an edit does, the wanted verdict, and this one with its rule.
fn print_edit(rt: &impl Print, edit: EditLine<'_>, found: &str, rule: (&str, &str)) -> Result<()> {
    let (broken, rule) = rule;
    say(
        rt,
        &[
            "edit, ",
            edit.what,
            ": wanted ",
            edit.wanted,
            ", found ",
            found,
            broken,
            rule,
        ],
    )
}

/// Whether the edit has the wanted verdict. It prints a line where it has another, or where each is wanted.
fn test_edit(
    rt: &(impl Print + AllocGlobal),
    line: &str,
    log: &[u8],
    beginning: &[Record],
    asks: Asks,
) -> Result<bool> {
    let edit = EditLine::new(line)?;
    let verdict = edited_verdict(rt.alloc(), edit, log, beginning, asks.index)?;
    let found = verdict.text(rt.alloc())?;
    let agrees = found.as_str() == edit.wanted;
    if asks.why || !agrees {
        print_edit(rt, edit, found.as_str(), verdict.rule())?;
    }
    Ok(agrees)
}

/// The records with which the log and each edit of it begin, where the log is legal; they are not judged again for each
/// edit.
fn beginning_of<'a>(
    alloc: Global,
    log: &[u8],
    judged: &'a Judged,
    edits: &str,
) -> Result<&'a [Record]> {
    if !matches!(judged.verdict, Verdict::Legal) {
        return Ok(&[]);
    }
    let count = untouched(alloc, edits, log, &judged.records)?;
    Ok(judged.records.get(..count).unwrap_or(&[]))
}

/// Tests each of these edits of a log; it says how many there are, and how many differ.
fn test_each(
    rt: &(impl Print + AllocGlobal),
    edits: &str,
    log: &[u8],
    beginning: &[Record],
    asks: Asks,
) -> Result<(usize, usize)> {
    let mut count = 0usize;
    let mut differ = 0usize;
    for line in edits.lines() {
        count = count.saturating_add(1);
        let tested = test_edit(rt, line, log, beginning, asks);
        if !tested.context(format_args!("edit {count}"))? {
            differ = differ.saturating_add(1);
        }
    }
    Ok((count, differ))
}

/// Tests these edits of a log, and prints how many there are; it says how many lines differ.
fn test_lines(
    rt: &(impl Print + AllocGlobal),
    edits: &str,
    log: &[u8],
    beginning: &[Record],
    asks: Asks,
) -> Result<usize> {
    let (count, differ) = test_each(rt, edits, log, beginning, asks)?;
    say_counts(rt, count, "edits", differ, "differ")?;
    Ok(differ)
}

/// Tests all edits of a log; it says how many lines differ.
fn test_edits<R: Files + Print + AllocGlobal>(
    rt: &R,
    folder: Path<'_>,
    log: &[u8],
    judged: &Judged,
    asks: Asks,
) -> Result<usize> {
    let edits = text_in(rt, folder, "edits")?;
    let beginning = beginning_of(rt.alloc(), log, judged, edits.as_str())?;
    test_lines(rt, edits.as_str(), log, beginning, asks)
}

/// Prints a verdict, with the rule that is broken, if one is.
fn print_verdict(rt: &(impl Print + AllocGlobal), verdict: Verdict) -> Result<()> {
    let (broken, rule) = verdict.rule();
    let text = verdict.text(rt.alloc())?;
    say(rt, &[text.as_str(), broken, rule])
}

/// Prints what a log is: its records, the verdict and the history; it says how many lines differ.
fn print_judged<R: Files + Print + AllocGlobal>(
    rt: &R,
    folder: Path<'_>,
    judged: &Judged,
) -> Result<usize> {
    let records = print_records(rt, folder, judged)?;
    print_verdict(rt, judged.verdict)?;
    let history = print_history(rt, folder, judged)?;
    Ok(records.saturating_add(history))
}

/// Tests what a log is, its walks and its edits; it says how many lines differ.
fn test_judged<R: Files + Print + AllocGlobal>(
    rt: &R,
    folder: Path<'_>,
    log: &[u8],
    judged: &Judged,
    asks: Asks,
) -> Result<usize> {
    let printed = print_judged(rt, folder, judged)?;
    let parts = test_parts(rt, &judged.records, asks)?;
    let walks = test_walks(rt, folder, &judged.records)?;
    let edits = test_edits(rt, folder, log, judged, asks)?;
    let found = walks.saturating_add(parts);
    Ok(printed.saturating_add(found).saturating_add(edits))
}

/// Tests a log of a folder; it says how many lines differ.
fn test_log<R: Files + Print + AllocGlobal>(
    rt: &R,
    folder: Path<'_>,
    log: &[u8],
    asks: Asks,
) -> Result<usize> {
    let alloc = rt.alloc();
    let judged = judge(alloc, log, &[], asks.index)?;
    test_judged(rt, folder, log, &judged, asks)
}

/// Tests the log of a folder, its walks and its edits; it says how many lines differ.
pub(crate) fn test_folder<R: Files + Print + AllocGlobal>(
    rt: &R,
    name: &str,
    folder: Path<'_>,
    asks: Asks,
) -> Result<usize> {
    say(rt, &[name])?;
    let log = fs::read(rt, &folder.join(rt.alloc(), "ginsh.log")?)?;
    test_log(rt, folder, &log, asks)
}
