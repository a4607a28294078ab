// Records, read from left to right.
ghost use Rattle.std.specs.Prelude.{◌≡◌, ◌≢◌, ℕ, ◌++◌, List, [], length, IfOk, Ok};
ghost use Rattle.record_code.specs.Reading.{kind_with_number, kind_at, item_at, document_at, fields_at, stands};
ghost use Rattle.record_code.specs.Reading.{page_at, image_at, delta_at, edit_at, change_at, changes_at, rest_at};
ghost use Rattle.record_code.specs.Reading.{whole_at, record_at};
ghost use Rattle.page_types.specs.Fields.{Gives};
ghost use Rattle.record_code.specs.Decoding.{Answers};
ghost use Rattle.record_code.specs.Laws.{Begins};
ghost use Rattle.page_types.specs.Records.{record_bytes, IsRecord};
ghost use Rattle.page_types.specs.declared.record.Record.{Record};
ghost use Rattle.record_code.specs.declared.error.RecordError.TheVariants.{BadRecord};

use crate::error::RecordError;
use crate::fields::{byte_of, bytes_of};
use byteorder::{ByteOrder, LittleEndian};
use page_types::{
    Bytes, Change, Changes, Edit, ITEM_LIMIT, Kind, PAGE_BYTES, PAGE_LIMIT, PageBytes, ReadError,
    Record, u16_at, u32_at, u64_at,
};
use std::alloc::Global;

/// The kinds in the order of their numbers, which begin at 1, with fields of 0.
const KINDS: [Kind; 21] = [
    Kind::Create,
    Kind::Begin,
    Kind::Commit { commit: 0 },
    Kind::Abort,
    Kind::Checkpoint { redo: 0 },
    Kind::PlaceHead { item: 0, serial: 0 },
    Kind::PutOverflow { item: 0, serial: 0 },
    Kind::MarkDeleted { item: 0, serial: 0 },
    Kind::PutPending { item: 0, serial: 0 },
    Kind::AddRow { item: 0, serial: 0 },
    Kind::LinkPending { item: 0, serial: 0 },
    Kind::Shift,
    Kind::AddItems,
    Kind::MakeTree,
    Kind::AddPostings,
    Kind::GrowRoot,
    Kind::Split,
    Kind::RemoveItems,
    Kind::DeletePost,
    Kind::DropPage { item: 0, serial: 0 },
    Kind::FreeSlots,
];

/// The kind with this number, with fields of 0.
fn kind_with(number: u8) -> Option<Kind>
    ensures { result ≡ kind_with_number number }
{
    if number == 0 {
        return None;
    }
    KINDS.get(usize::from(number) - 1).copied()
}

/// The kind with the number that is there, with fields of 0.
fn kind_of(bytes: &[u8]) -> Result<(Kind, &[u8]), ReadError>
    ensures { Gives (λ x. (x.0, x.1.now)) result (kind_at bytes.now) }
{
    match bytes {
        [] => Err(ReadError::Fault(0)),
        [number, rest @ ..] => match kind_with(*number) {
            Some(kind) => Ok((kind, rest)),
            None => Err(ReadError::Fault(bytes.len())),
        },
    }
}

/// An item.
#[tactic(auto, unfolding(crate::specs::Reading::item_at))]
fn item_of(bytes: &[u8]) -> Result<(u32, &[u8]), ReadError>
    ensures { Gives (λ x. (x.0, x.1.now)) result (item_at bytes.now) }
{
    let (item, rest) = u32_at(bytes)?;
    if item < ITEM_LIMIT {
        Ok((item, rest))
    } else {
        Err(ReadError::Fault(bytes.len()))
    }
}

/// A document's item and serial.
#[tactic(auto, unfolding(crate::specs::Reading::document_at))]
fn document_of(bytes: &[u8]) -> Result<((u32, u64), &[u8]), ReadError>
    ensures { Gives (λ x. (x.0, x.1.now)) result (document_at bytes.now) }
{
    let (item, rest) = item_of(bytes)?;
    let (serial, rest) = u64_at(rest)?;
    Ok(((item, serial), rest))
}

/// The kind with its fields.
#[tactic(auto, unfolding(crate::specs::Reading::fields_at))]
fn fields_of(kind: Kind, bytes: &[u8]) -> Result<(Kind, &[u8]), ReadError>
    ensures { Gives (λ x. (x.0, x.1.now)) result (fields_at kind bytes.now) }
{
    match kind {
        Kind::Commit { .. } => {
            let (commit, rest) = u32_at(bytes)?;
            Ok((Kind::Commit { commit }, rest))
        }
        Kind::Checkpoint { .. } => {
            let (redo, rest) = u64_at(bytes)?;
            Ok((Kind::Checkpoint { redo }, rest))
        }
        Kind::PlaceHead { .. } => {
            let ((item, serial), rest) = document_of(bytes)?;
            Ok((Kind::PlaceHead { item, serial }, rest))
        }
        Kind::PutOverflow { .. } => {
            let ((item, serial), rest) = document_of(bytes)?;
            Ok((Kind::PutOverflow { item, serial }, rest))
        }
        Kind::MarkDeleted { .. } => {
            let ((item, serial), rest) = document_of(bytes)?;
            Ok((Kind::MarkDeleted { item, serial }, rest))
        }
        Kind::PutPending { .. } => {
            let ((item, serial), rest) = document_of(bytes)?;
            Ok((Kind::PutPending { item, serial }, rest))
        }
        Kind::AddRow { .. } => {
            let ((item, serial), rest) = document_of(bytes)?;
            Ok((Kind::AddRow { item, serial }, rest))
        }
        Kind::LinkPending { .. } => {
            let ((item, serial), rest) = document_of(bytes)?;
            Ok((Kind::LinkPending { item, serial }, rest))
        }
        Kind::DropPage { .. } => {
            let ((item, serial), rest) = document_of(bytes)?;
            Ok((Kind::DropPage { item, serial }, rest))
        }
        _ => Ok((kind, bytes)),
    }
}

/// Whether the page is among these changes.
fn is_among(page: u32, changes: &[Change]) -> bool
    ensures { result ≡ stands page changes.now }
{
    changes.iter().any(|change| change.page == page)
}

/// A page's number, which is in none of the changes before.
#[tactic(auto, unfolding(crate::specs::Reading::page_at))]
fn page_of<'a>(before: &[Change], bytes: &'a [u8]) -> Result<(u32, &'a [u8]), ReadError>
    ensures { Gives (λ x. (x.0, x.1.now)) result (page_at before.now bytes.now) }
{
    let (page, rest) = u32_at(bytes)?;
    if page < PAGE_LIMIT && !is_among(page, before) {
        Ok((page, rest))
    } else {
        Err(ReadError::Fault(bytes.len()))
    }
}

/// An image with this stamp.
#[tactic(auto, unfolding(crate::specs::Reading::image_at))]
fn image_of(alloc: Global, number: u64, bytes: &[u8]) -> Result<(Edit, &[u8]), ReadError>
    ensures { Gives (λ x. (x.0, x.1.now)) result (image_at number bytes.now) }
{
    let (image, rest) = bytes_of(PAGE_BYTES, bytes)?;
    if LittleEndian::read_u64(&image[8..]) != number {
        return Err(ReadError::Fault(bytes.len()));
    }
    Ok((Edit::Image(PageBytes::from_slice(alloc, image)?), rest))
}

/// A delta.
#[tactic(auto, unfolding(crate::specs::Reading::delta_at))]
fn delta_of(alloc: Global, bytes: &[u8]) -> Result<(Edit, &[u8]), ReadError>
    ensures { Gives (λ x. (x.0, x.1.now)) result (delta_at bytes.now) }
{
    let (head, rest) = bytes_of(8, bytes)?;
    let (start, rest) = u16_at(rest)?;
    let (cut, rest) = u16_at(rest)?;
    let (size, rest) = u16_at(rest)?;
    let (new, rest) = bytes_of(usize::from(size), rest)?;
    let mut front = [0; 8];
    front.copy_from_slice(head);
    let bytes = Bytes::from_slice(alloc, new)?;
    Ok((
        Edit::Delta {
            front,
            start,
            cut,
            bytes,
        },
        rest,
    ))
}

/// An image or a delta, by the byte before it.
fn edit_of(alloc: Global, number: u64, bytes: &[u8]) -> Result<(Edit, &[u8]), ReadError>
    ensures { Gives (λ x. (x.0, x.1.now)) result (edit_at number bytes.now) }
{
    match bytes {
        [] => Err(ReadError::Fault(0)),
        [0, rest @ ..] => image_of(alloc, number, rest),
        [1, rest @ ..] => delta_of(alloc, rest),
        [_, ..] => Err(ReadError::Fault(bytes.len())),
    }
}

/// A change after others.
#[tactic(auto, unfolding(crate::specs::Reading::change_at))]
fn change_of<'a>(
    alloc: Global,
    number: u64,
    before: &[Change],
    bytes: &'a [u8],
) -> Result<(Change, &'a [u8]), ReadError>
    ensures { Gives (λ x. (x.0, x.1.now)) result (change_at number before.now bytes.now) }
{
    let (page, rest) = page_of(before, bytes)?;
    let (edit, rest) = edit_of(alloc, number, rest)?;
    Ok((Change { page, edit }, rest))
}

/// So many changes.
fn changes_of(
    alloc: Global,
    number: u64,
    count: u8,
    bytes: &[u8],
) -> Result<(Changes, &[u8]), ReadError>
    ensures { Gives (λ x. (x.0, x.1.now)) result (changes_at number count [] bytes.now) }
{
    let mut changes = Changes::new(alloc);
    let mut rest = bytes;
    for _ in 0..count {
        let (change, behind) = change_of(alloc, number, changes.as_slice(), rest)?;
        changes.push(change)?;
        rest = behind;
    }
    Ok((changes, rest))
}

/// What is after a record's length.
#[tactic(auto, unfolding(crate::specs::Reading::rest_at))]
fn rest_of(alloc: Global, bytes: &[u8]) -> Result<(Record, &[u8]), ReadError>
    ensures { Gives (λ x. (x.0, x.1.now)) result (rest_at bytes.now) }
{
    let (kind, rest) = kind_of(bytes)?;
    let (xid, rest) = u32_at(rest)?;
    let (number, rest) = u64_at(rest)?;
    let (kind, rest) = fields_of(kind, rest)?;
    let (count, rest) = byte_of(rest)?;
    let (changes, rest) = changes_of(alloc, number, count, rest)?;
    Ok((
        Record {
            number,
            xid,
            kind,
            changes,
        },
        rest,
    ))
}

/// The bytes that are there of a rest of this length.
#[tactic(auto, unfolding(crate::specs::Reading::whole_at))]
fn whole_of(alloc: Global, size: usize, bytes: &[u8]) -> Result<Record, ReadError>
    ensures { Gives (λ x. x) result (whole_at size bytes.now) }
{
    let (record, rest) = rest_of(alloc, bytes)?;
    if rest.is_empty() && bytes.len() == size {
        Ok(record)
    } else {
        Err(ReadError::Fault(rest.len()))
    }
}

/// The first record and its length.
#[tactic(auto, unfolding(crate::specs::Reading::record_at))]
fn record_of(alloc: Global, bytes: &[u8]) -> Result<(Record, usize), RecordError>
    ensures { Answers result (record_at bytes.now) }
{
    if bytes.len() < 4 {
        return Err(RecordError::BadRecord { at: bytes.len() });
    }
    let size = LittleEndian::read_u32(bytes) as usize;
    let behind = &bytes[4..];
    let rest = &behind[..size.min(behind.len())];
    match whole_of(alloc, size, rest) {
        Ok(record) => Ok((record, 4 + size)),
        Err(ReadError::OutOfMemory) => Err(RecordError::OutOfMemory),
        Err(ReadError::Fault(left)) => Err(RecordError::BadRecord {
            at: (4 + rest.len()).saturating_sub(left),
        }),
    }
}

/// The first record that the bytes encode and its length, whatever follows.
pub fn decode_record(alloc: Global, bytes: &[u8]) -> Result<(Record, usize), RecordError>
    // What is read is encoded so.
    ensures found { IfOk result (λ x. Begins bytes.now x.0 x.1) }
    // What is encoded so is read, unless memory runs out.
    ensures only { (r : Record) (behind : List ℕ) → IsRecord r
        → bytes.now ≡ record_bytes r ++ behind
        → Answers result (Ok (r, length (record_bytes r))) }
    // Where the first fault is.
    ensures at { Answers result (record_at bytes.now) }
{
    record_of(alloc, bytes)
}
