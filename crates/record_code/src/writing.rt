// The encoding of a record.
ghost use Rattle.std.specs.Prelude.{◌≡◌, ◌+◌, ◌*◌, ◌<◌, ◌≤◌, ◌^◌, ℕ, ◌++◌, ◌∷◌, [], length, OnOk, OnErr};
ghost use Rattle.std.specs.List.{flat_map, AllByRecursion};
ghost use Rattle.page_types.specs.Numbers.{u16_bytes, u32_bytes, u64_bytes};
ghost use Rattle.page_types.specs.Records.{kind_number, document_bytes, kind_bytes, edit_bytes, change_bytes};
ghost use Rattle.page_types.specs.Records.{record_rest, record_bytes, IsEdit, IsChange, IsRecord};
ghost use Rattle.record_code.specs.Inner.Growing.{Extends};

use page_types::{Change, Edit, Kind, Record, put};
use std::alloc::AllocError;

/// The number of a kind.
fn number_of(kind: Kind) -> u8
    ensures { result ≡ kind_number kind }
{
    match kind {
        Kind::Create => 1,
        Kind::Begin => 2,
        Kind::Commit { .. } => 3,
        Kind::Abort => 4,
        Kind::Checkpoint { .. } => 5,
        Kind::PlaceHead { .. } => 6,
        Kind::PutOverflow { .. } => 7,
        Kind::MarkDeleted { .. } => 8,
        Kind::PutPending { .. } => 9,
        Kind::AddRow { .. } => 10,
        Kind::LinkPending { .. } => 11,
        Kind::Shift => 12,
        Kind::AddItems => 13,
        Kind::MakeTree => 14,
        Kind::AddPostings => 15,
        Kind::GrowRoot => 16,
        Kind::Split => 17,
        Kind::RemoveItems => 18,
        Kind::DeletePost => 19,
        Kind::DropPage { .. } => 20,
        Kind::FreeSlots => 21,
    }
}

/// Appends a number in two bytes, the little end first.
#[tactic(auto, unfolding(page_types::specs::Numbers::u16_bytes))]
fn put_u16(out: &mut Vec<u8>, number: u16) -> Result<(), AllocError>
    ensures ok { OnOk result (out.new.items ≡ out.old.items ++ u16_bytes number) }
    ensures grows { Extends out.old.items out.new.items }
{
    out.extend_from_slice(&number.to_le_bytes())
}

/// Appends a number in four bytes, the little end first.
#[tactic(auto, unfolding(page_types::specs::Numbers::u32_bytes))]
fn put_u32(out: &mut Vec<u8>, number: u32) -> Result<(), AllocError>
    ensures ok { OnOk result (out.new.items ≡ out.old.items ++ u32_bytes number) }
    ensures grows { Extends out.old.items out.new.items }
{
    out.extend_from_slice(&number.to_le_bytes())
}

/// Appends a number in eight bytes, the little end first.
#[tactic(auto, unfolding(page_types::specs::Numbers::u64_bytes))]
fn put_u64(out: &mut Vec<u8>, number: u64) -> Result<(), AllocError>
    ensures ok { OnOk result (out.new.items ≡ out.old.items ++ u64_bytes number) }
    ensures grows { Extends out.old.items out.new.items }
{
    out.extend_from_slice(&number.to_le_bytes())
}

/// Appends a document's item and serial.
fn put_document(out: &mut Vec<u8>, item: u32, serial: u64) -> Result<(), AllocError>
    ensures ok { OnOk result (out.new.items ≡ out.old.items ++ document_bytes item serial) }
    ensures grows { Extends out.old.items out.new.items }
{
    put_u32(out, item)?;
    put_u64(out, serial)
}

/// Appends the fields of a kind.
fn put_fields(out: &mut Vec<u8>, kind: Kind) -> Result<(), AllocError>
    ensures ok { OnOk result (out.new.items ≡ out.old.items ++ kind_bytes kind) }
    ensures grows { Extends out.old.items out.new.items }
{
    match kind {
        Kind::Commit { commit } => put_u32(out, commit),
        Kind::Checkpoint { redo } => put_u64(out, redo),
        Kind::PlaceHead { item, serial } => put_document(out, item, serial),
        Kind::PutOverflow { item, serial } => put_document(out, item, serial),
        Kind::MarkDeleted { item, serial } => put_document(out, item, serial),
        Kind::PutPending { item, serial } => put_document(out, item, serial),
        Kind::AddRow { item, serial } => put_document(out, item, serial),
        Kind::LinkPending { item, serial } => put_document(out, item, serial),
        Kind::DropPage { item, serial } => put_document(out, item, serial),
        _ => Ok(()),
    }
}

/// Appends bytes after their length.
fn put_sized(out: &mut Vec<u8>, bytes: &[u8]) -> Result<(), AllocError>
    requires { length bytes.now < 2 ^ 16 }
    ensures ok { OnOk result (out.new.items ≡ out.old.items ++ (u16_bytes (length bytes.now) ++ bytes.now)) }
    ensures grows { Extends out.old.items out.new.items }
{
    put_u16(out, bytes.len() as u16)?;
    out.extend_from_slice(bytes)
}

/// Appends the fields of a delta.
fn put_delta(
    out: &mut Vec<u8>,
    front: &[u8; 8],
    start: u16,
    cut: u16,
    bytes: &[u8],
) -> Result<(), AllocError>
    requires { length bytes.now < 2 ^ 16 }
    ensures ok { OnOk result (out.new.items ≡ out.old.items ++ (front.now ++ (u16_bytes start
        ++ (u16_bytes cut ++ (u16_bytes (length bytes.now) ++ bytes.now))))) }
    ensures grows { Extends out.old.items out.new.items }
{
    out.extend_from_slice(front)?;
    put_u16(out, start)?;
    put_u16(out, cut)?;
    put_sized(out, bytes)
}

/// Appends an image, or a delta.
fn put_edit(out: &mut Vec<u8>, edit: &Edit) -> Result<(), AllocError>
    requires { (n : ℕ) × IsEdit n edit.now }
    ensures ok { OnOk result (out.new.items ≡ out.old.items ++ edit_bytes edit.now) }
    ensures grows { Extends out.old.items out.new.items }
{
    match edit {
        Edit::Image(image) => {
            out.push(0)?;
            out.extend_from_slice(image.as_slice())
        }
        Edit::Delta {
            front,
            start,
            cut,
            bytes,
        } => {
            out.push(1)?;
            put_delta(out, front, *start, *cut, bytes.as_slice())
        }
    }
}

/// Appends a change.
#[tactic(auto, unfolding(page_types::specs::Records::change_bytes))]
fn put_change(out: &mut Vec<u8>, change: &Change) -> Result<(), AllocError>
    requires { (n : ℕ) × IsChange n change.now }
    ensures ok { OnOk result (out.new.items ≡ out.old.items ++ change_bytes change.now) }
    ensures grows { Extends out.old.items out.new.items }
{
    put_u32(out, change.page)?;
    put_edit(out, &change.edit)
}

/// Appends changes.
fn put_changes(out: &mut Vec<u8>, changes: &[Change]) -> Result<(), AllocError>
    requires { (n : ℕ) × AllByRecursion (IsChange n) changes.now }
    ensures ok { OnOk result (out.new.items ≡ out.old.items ++ flat_map change_bytes changes.now) }
    ensures grows { Extends out.old.items out.new.items }
{
    for change in changes {
        put_change(out, change)?;
    }
    Ok(())
}

/// Appends what is after a record's length.
#[tactic(auto, unfolding(page_types::specs::Records::record_rest))]
fn put_rest(out: &mut Vec<u8>, rec: &Record) -> Result<(), AllocError>
    requires { IsRecord rec.now }
    ensures ok { OnOk result (out.new.items ≡ out.old.items ++ record_rest rec.now) }
    ensures grows { Extends out.old.items out.new.items }
{
    out.push(number_of(rec.kind))?;
    put_u32(out, rec.xid)?;
    put_u64(out, rec.number)?;
    put_fields(out, rec.kind)?;
    out.push(rec.changes.len() as u8)?;
    put_changes(out, rec.changes.as_slice())
}

/// Appends the encoding of a record: a length of 0 first, which becomes the length of what was appended after it.
fn put_record(out: &mut Vec<u8>, rec: &Record) -> Result<(), AllocError>
    requires { IsRecord rec.now }
    ensures ok { OnOk result (out.new.items ≡ out.old.items ++ record_bytes rec.now) }
    ensures grows { Extends out.old.items out.new.items }
{
    let start = out.len();
    put_u32(out, 0)?;
    put_rest(out, rec)?;
    let size = (out.len() - start - 4) as u32;
    put(out.as_mut_slice(), start, &size.to_le_bytes());
    Ok(())
}

/// Appends the encoding of a record. After running out of memory nothing was appended.
pub fn encode_record(rec: &Record, out: &mut Vec<u8>) -> Result<(), AllocError>
    requires { IsRecord rec.now }
    ensures ok { OnOk result (out.new.items ≡ out.old.items ++ record_bytes rec.now) }
    ensures err { OnErr result (out.new.items ≡ out.old.items) }
{
    let start = out.len();
    if let Err(error) = put_record(out, rec) {
        out.truncate(start);
        return Err(error);
    }
    Ok(())
}
