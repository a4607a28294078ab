// What a log that a run left says: whether it is legal, and what a search over its pages finds.
use crate::found::{WalkResult, found_in, told_wrong};
use crate::query::Query;
use crate::replay::{Reading, read_left};
use crate::scan::{NoWalk, scan_left};
use crate::sought::all_sought;
use crate::words::query_in;
use log_walks::{Fault, LogError, must, need, read_log};
use page_types::Record;
use std::alloc::Global;

/// The records of a log file.
fn records_in(alloc: Global, log: &[u8]) -> Result<Vec<Record>, Fault> {
    match read_log(alloc, log) {
        Ok(records) => Ok(records),
        Err(LogError::OutOfMemory) => Err(Fault::OutOfMemory),
        Err(LogError::NotAStore) => Err(Fault::Broken("the file is a log")),
    }
}

/// The pages that a log file leaves and the documents of its commits, where it is legal, as `read_left` says.
pub fn judge_log(alloc: Global, log: &[u8]) -> Result<Reading, Fault> {
    let records = records_in(alloc, log)?;
    read_left(alloc, &records)
}

/// What a walk for a query finds on these pages.
fn find_left(alloc: Global, query: &Query, left: &Reading) -> Result<WalkResult, Fault> {
    let sought = all_sought(alloc, query)?;
    match scan_left(alloc, &left.reads, &sought) {
        Ok(scan) => Ok(found_in(alloc, query, &scan)?),
        Err(NoWalk::OutOfMemory) => Err(Fault::OutOfMemory),
        Err(NoWalk::At(_)) => Err(Fault::Broken("each page of a walk is there")),
    }
}

/// What a search finds on the pages that a log file leaves, where that is legal, the text is a query, and each document
/// of its commits is judged rightly.
pub fn search_left(alloc: Global, log: &[u8], text: &str) -> Result<WalkResult, Fault> {
    let query = need(query_in(alloc, text)?, "the text is a query")?;
    let left = judge_log(alloc, log)?;
    let found = find_left(alloc, &query, &left)?;
    let wrong = told_wrong(alloc, &query, &left.docs, &found)?;
    must(wrong.is_empty(), "each document is judged rightly")?;
    Ok(found)
}
