// Edits of a log, each of which is opened.
use crate::runs::{Shell, holding};
use crate::tally::{Tally, tell};
use anyhow::Result;
use bench_base::EditLine;
use disk_trait::Disk;
use std::sync::Wait;
use std::thread::Threads;

/// A log that the opening refuses.
const REFUSED: &str = "not a store";

/// A legal log.
const LEGAL: &str = "legal";

/// What is run over an edited log.
const SCRIPT: &[u8] = b"@1 search '!a'\n@1 insert vector 'a:1'\n";

/// Whether the run over a store with this edited log ends as the verdict says. Of a log that is no store nothing is
/// printed and nothing is changed; over any other the run goes to its end, and over a legal one nothing is refused.
fn opens_so<R, D>(shell: &Shell<'_, R>, store: D, log: &[u8], verdict: &str) -> bool
where
    R: Threads + Wait + Sync + AllocGlobal,
    D: Disk + Send + Drop,
{
    if verdict == REFUSED {
        return shell.refuses(SCRIPT, store, log);
    }
    let status = shell.run_on(SCRIPT, store).status;
    status == 0 || status == 1 && verdict != LEGAL
}

/// Whether an edit of a log meets its verdict.
fn is_met<R>(shell: &Shell<'_, R>, log: &[u8], edit: &EditLine<'_>) -> Result<bool>
where
    R: Threads + Wait + Sync + AllocGlobal,
{
    let alloc = shell.alloc();
    let bytes = edit.apply(alloc, log)?;
    let store = holding(alloc, &bytes, Vec::new(alloc));
    Ok(opens_so(shell, store, &bytes, edit.wanted))
}

/// Opens each edit of a log. It prints the line of one that doesn't meet its verdict.
pub fn open_edits<R>(
    shell: &Shell<'_, R>,
    name: &str,
    log: &[u8],
    edits: &str,
    tally: &mut Tally,
) -> Result<()>
where
    R: Threads + Wait + Sync + Print + AllocGlobal,
{
    for line in edits.lines() {
        let met = is_met(shell, log, &EditLine::new(line)?)?;
        tally.edits = tally.edits.saturating_add(1);
        tally.note(met);
        if !met {
            tell(shell.rt, name, "edit", tally.edits, line);
        }
    }
    Ok(())
}
