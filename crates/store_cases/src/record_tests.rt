// Records of each kind and of whole logs, and bytes that are none.
ghost use Rattle.std.specs.Prelude.{IfOk};
ghost use Rattle.page_types.specs.Records.{IsRecord};

use crate::kinds::{Kind, try_rows};
use crate::record_rows::{FAULTS, KINDS, LOGS};
use crate::rows::{bytes_of, cut, number};
use page_types::{Change, Edit, Record};
use record_code::{RecordError, decode_record, encode_record};
use std::alloc::{AllocError, Global};
use std::test::Fail;

/// The record that the bytes begin with, and how many of them it has.
fn record_in(alloc: Global, bytes: &[u8]) -> Result<(Record, usize), RecordError>
    ensures { IfOk result (λ r. IsRecord r.0) }
{
    decode_record(alloc, bytes)
}

/// Appends what a change says.
fn put_change(text: &mut String, change: &Change) -> Result<(), AllocError> {
    let page = change.page;
    match &change.edit {
        Edit::Image(_) => write!(text, "; page {page} image"),
        Edit::Delta {
            front,
            start,
            cut,
            bytes,
        } => {
            let new = bytes.as_slice();
            write!(
                text,
                "; page {page} front {front:?} from {start} cut {cut} new {new:?}"
            )
        }
    }
}

/// What a record says.
fn said(alloc: Global, record: &Record) -> Result<String, AllocError> {
    let number = record.number;
    let kind = record.kind;
    let xid = record.xid;
    let mut text = format!(in alloc; "{number} {kind:?} xid {xid}")?;
    for change in record.changes.as_slice() {
        put_change(&mut text, change)?;
    }
    Ok(text)
}

/// Whether a record is what its row says, and is written so after other bytes.
fn is_so(alloc: Global, read: &Record, tells: &str, bytes: &[u8]) -> Result<bool, AllocError>
    requires { IsRecord read.now }
{
    let mut out = bytes_of(alloc, "6265666f7265")?;
    encode_record(read, &mut out)?;
    let written = out.as_slice().strip_prefix(b"before".as_slice()) == Some(bytes);
    Ok(written && said(alloc, read)?.as_str() == tells)
}

/// Whether the bytes of a row, with three others after them, are read as the record that it says, and written again.
pub(crate) fn is_record(alloc: Global, row: &str) -> Result<bool, AllocError> {
    let (tells, words) = cut(row);
    let mut bytes = bytes_of(alloc, words)?;
    let end = bytes.len();
    bytes.extend_from_slice(b"\x0e\0\0")?;
    match record_in(alloc, &bytes) {
        Ok((read, length)) if length == end => {
            is_so(alloc, &read, tells, bytes.get(..end).unwrap_or(&[]))
        }
        _ => Ok(false),
    }
}

/// Whether the bytes are refused at their end wherever they are cut.
pub(crate) fn is_refused_cut(alloc: Global, row: &str) -> Result<bool, AllocError> {
    let bytes = bytes_of(alloc, cut(row).1)?;
    for (at, _) in bytes.iter().enumerate() {
        let front = bytes.get(..at).unwrap_or(&[]);
        if decode_record(alloc, front).err() != Some(RecordError::BadRecord { at }) {
            return Ok(false);
        }
    }
    Ok(true)
}

/// Whether the bytes of a row are refused at its place.
pub(crate) fn is_refused_there(alloc: Global, row: &str) -> Result<bool, AllocError> {
    let (place, rest) = cut(row);
    let at = number(place) as usize;
    let bytes = bytes_of(alloc, cut(rest).0)?;
    Ok(decode_record(alloc, &bytes).err() == Some(RecordError::BadRecord { at }))
}

/// Records are read and written, and bytes that are no records are refused at their places.
#[test]
fn records(rt: HostRuntime) -> Result<(), Fail> {
    let alloc = rt.alloc();
    try_rows(&rt, alloc, Kind::Record, KINDS)?;
    try_rows(&rt, alloc, Kind::Record, LOGS)?;
    try_rows(&rt, alloc, Kind::RecordAlone, KINDS)?;
    try_rows(&rt, alloc, Kind::RecordFault, FAULTS)?;
    Ok(())
}
