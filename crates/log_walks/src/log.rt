// The records of a log file.
use page_types::Record;
use record_code::{RecordError, decode_record};
use std::alloc::{AllocError, AllocFailed, Global};

/// The text after the commit byte of the store.
const HEADER: &[u8] = b"GINSH STORE 0001";

/// A log that is no longer than this is to be created.
const MOST_UNCREATED: usize = 17;

/// A commit byte that is open.
const OPEN: u8 = 1;

/// Why no records were read.
#[derive(Clone, Copy)]
pub enum LogError {
    /// Memory ran out.
    OutOfMemory,
    /// The bytes are no log of a store.
    NotAStore,
}

impl From<AllocError> for LogError {
    fn from(_: AllocError) -> Self {
        LogError::OutOfMemory
    }
}

impl<T: Drop> From<AllocFailed<T>> for LogError {
    fn from(_: AllocFailed<T>) -> Self {
        LogError::OutOfMemory
    }
}

/// A batch. What is after it begins with the next commit byte.
#[derive(Clone, Copy)]
struct Batch<'a> {
    /// The bytes of its records.
    records: &'a [u8],
    /// What is after it.
    behind: &'a [u8],
}

/// What is after the header, from the commit byte of the first batch on; none of a log that is to be created.
fn batches_of(bytes: &[u8]) -> Result<Option<&[u8]>, LogError> {
    let is_open = bytes.first() == Some(&OPEN);
    match bytes.split_at_checked(MOST_UNCREATED) {
        None | Some((_, [])) => Ok(None),
        Some((_, [_])) if !is_open => Ok(None),
        Some((header, behind)) if is_open && header.ends_with(HEADER) => Ok(Some(behind)),
        Some(_) => Err(LogError::NotAStore),
    }
}

/// The first batch from its commit byte on; none where that is closed.
fn batch_in(bytes: &[u8]) -> Result<Option<Batch<'_>>, LogError> {
    let [OPEN, a, b, c, d, rest @ ..] = bytes else {
        return match bytes {
            [OPEN, ..] => Err(LogError::NotAStore),
            _ => Ok(None),
        };
    };
    let size = u32::from_le_bytes([*a, *b, *c, *d]) as usize;
    match rest.split_at_checked(size) {
        Some((records, behind)) if size > 0 && !behind.is_empty() => {
            Ok(Some(Batch { records, behind }))
        }
        _ => Err(LogError::NotAStore),
    }
}

/// The first record, and what is after it.
fn record_in(alloc: Global, bytes: &[u8]) -> Result<(Record, &[u8]), LogError> {
    match decode_record(alloc, bytes) {
        Ok((record, size)) => match bytes.split_at_checked(size) {
            Some((_, behind)) => Ok((record, behind)),
            None => Err(LogError::NotAStore),
        },
        Err(RecordError::OutOfMemory) => Err(LogError::OutOfMemory),
        Err(RecordError::BadRecord { .. }) => Err(LogError::NotAStore),
    }
}

/// The records of a batch come after the others, numbered on.
fn read_batch(alloc: Global, bytes: &[u8], records: &mut Vec<Record>) -> Result<(), LogError> {
    let mut rest = bytes;
    // Each record has bytes.
    for _ in 0..bytes.len() {
        if rest.is_empty() {
            break;
        }
        let (record, behind) = record_in(alloc, rest)?;
        if record.number != (records.len() as u64).saturating_add(1) {
            return Err(LogError::NotAStore);
        }
        records.push(record)?;
        rest = behind;
    }
    Ok(())
}

/// The records of all counted batches.
pub fn read_log(alloc: Global, bytes: &[u8]) -> Result<Vec<Record>, LogError> {
    let mut records = Vec::new(alloc);
    if let Some(batches) = batches_of(bytes)? {
        let mut rest = batches;
        // Each batch has bytes.
        for _ in 0..batches.len() {
            let Some(batch) = batch_in(rest)? else {
                break;
            };
            read_batch(alloc, batch.records, &mut records)?;
            rest = batch.behind;
        }
    }
    Ok(records)
}
