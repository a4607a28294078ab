// Whether each document's keys are in one part of the index after each record.
use crate::folder::Asks;
use crate::lines::say;
use anyhow::Result;
use log_scans::read_left;
use log_walks::Fault;
use page_types::Record;
use std::alloc::AllocError;

/// The rule that a log breaks, by which documents stay indexed, if it breaks one.
fn broken_rule(
    rt: &impl AllocGlobal,
    records: &[Record],
) -> Result<Option<&'static str>, AllocError> {
    match read_left(rt.alloc(), records) {
        Ok(_) => Ok(None),
        Err(Fault::OutOfMemory) => Err(AllocError),
        Err(Fault::Broken(rule)) => Ok(Some(rule)),
    }
}

/// Tests a log in which a commit asks for indexed documents: it says how many lines differ.
pub(crate) fn test_parts(
    rt: &(impl Print + AllocGlobal),
    records: &[Record],
    asks: Asks,
) -> Result<usize> {
    if !asks.index {
        return Ok(0);
    }
    match broken_rule(rt, records)? {
        None => {
            say(rt, &["each document's keys are in one part"])?;
            Ok(0)
        }
        Some(rule) => {
            say(
                rt,
                &["each document's keys are in one part: broken: ", rule],
            )?;
            Ok(1)
        }
    }
}
