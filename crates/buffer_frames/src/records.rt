// The records of a log, read into a state and into the pages that they change.
ghost use Rattle.std.specs.Prelude.{◌≡◌, ◌≢◌, ◌⊎◌, ◌+◌, ◌<◌, ◌≤◌, ◌++◌, ℕ, suc, List, []};
ghost use Rattle.std.specs.Prelude.{◌∷◌, length, reverse, Some, IfOk, OnOk, IfErr, IsErrOf};
ghost use Rattle.wal.specs.Reading.{IsOnlyRead, IsReading, IsSameBut};
ghost use Rattle.page_types.specs.Edits.{CanEdit};
ghost use Rattle.page_types.specs.Records.{IsRecord, record_bytes};
ghost use Rattle.page_types.specs.declared.record.Change.{Change};
ghost use Rattle.page_types.specs.declared.record.Record.{Record};
ghost use Rattle.core_state.specs.Log.{Log, In};
ghost use Rattle.core_state.specs.States.{empty_state};
ghost use Rattle.core_state.specs.Stores.{AreRecordsOf};
ghost use Rattle.buffer_frames.specs.Applied.{page_or_zeros, CanApply};
ghost use Rattle.buffer_frames.specs.Counted.{AreNumbered};
ghost use Rattle.buffer_frames.specs.NoStore.{IsNoStore};
ghost use Rattle.buffer_frames.specs.Causes.{ReadHasCause, NotAStoreWhere};
ghost use Rattle.buffer_frames.specs.Maps.{lookup};
ghost use Rattle.buffer_frames.specs.Records.{AreRead};
ghost use Rattle.buffer_frames.specs.Inner.Reads.{bytes_over, BeginsAs, MakesChanges, IsRead, ReadsOne, ReadsBatch};
ghost use Rattle.buffer_frames.specs.declared.error.OpenFault.TheVariants.{NotAStore, DiskFault, OutOfMemory};

use crate::error::OpenFault;
use crate::laws::stores_are_known;
use crate::page_map::PageMap;
use core_state::State;
use disk_trait::{Disk, File};
use page_types::{Change, Edit, PAGE_BYTES, PageBytes, Record, zero_page};
use record_code::decode_record;
use std::alloc::Global;
use wal::Wal;

/// A page as it is in the page file, with zeros past the end.
fn read_page<D: Disk>(alloc: Global, disk: &mut D, page: u32) -> Result<PageBytes, OpenFault>
    ensures bytes { D.tells
        → IfOk result (λ raw. raw ≡ page_or_zeros (D.seen disk.old).pages page) }
    ensures error { IfErr result (λ e. (e ≡ DiskFault) ⊎ (e ≡ OutOfMemory)) }
    ensures keeps { IsOnlyRead D.Disk disk.old disk.new }
    ensures cause { ReadHasCause D.Disk disk.old disk.new result }
{
    let mut bytes = zero_page(alloc)?;
    let n = disk.read(File::Pages, u64::from(page) * PAGE_BYTES as u64, &mut bytes)?;
    bytes.truncate(n);
    bytes.resize(PAGE_BYTES, 0)?;
    Ok(PageBytes::from_vec(bytes))
}

/// The bytes that the first change of a page begins from. Before an image they don't matter.
fn first_bytes<D: Disk>(
    alloc: Global,
    disk: &mut D,
    change: &Change,
) -> Result<PageBytes, OpenFault>
    ensures begins { D.tells → IfOk result (λ raw. BeginsAs change.now.edit raw
        (page_or_zeros (D.seen disk.old).pages change.now.page)) }
    ensures error { IfErr result (λ e. (e ≡ DiskFault) ⊎ (e ≡ OutOfMemory)) }
    ensures keeps { IsOnlyRead D.Disk disk.old disk.new }
    ensures cause { ReadHasCause D.Disk disk.old disk.new result }
{
    match &change.edit {
        Edit::Image(_) => Ok(PageBytes::from_vec(zero_page(alloc)?)),
        Edit::Delta { .. } => read_page(alloc, disk, change.page),
    }
}

/// The page of a change is in the map.
fn fetch_page<D: Disk>(
    alloc: Global,
    disk: &mut D,
    map: &mut PageMap,
    change: &Change,
) -> Result<(), OpenFault>
    ensures there { D.tells → OnOk result ((b : List ℕ)
        × (lookup map.new change.now.page ≡ Some b)
        × BeginsAs change.now.edit b
        (bytes_over (D.seen disk.old).pages map.old change.now.page)) }
    ensures others { OnOk result ((p : ℕ) → change.now.page ≢ p
        → lookup map.new p ≡ lookup map.old p) }
    ensures error { IfErr result (λ e. (e ≡ DiskFault) ⊎ (e ≡ OutOfMemory)) }
    ensures keeps { IsOnlyRead D.Disk disk.old disk.new }
    ensures cause { ReadHasCause D.Disk disk.old disk.new result }
{
    if map.contains(change.page) {
        return Ok(());
    }
    let raw = first_bytes(alloc, disk, change)?;
    map.put(change.page, raw)?;
    Ok(())
}

/// A change of a page by the record with this number.
fn change_page<D: Disk>(
    alloc: Global,
    disk: &mut D,
    map: &mut PageMap,
    number: u64,
    change: &Change,
) -> Result<(), OpenFault>
    ensures made { D.tells → OnOk result
        (MakesChanges (D.seen disk.old).pages map.old map.new number (change.now ∷ [])) }
    ensures refused { D.tells → IsErrOf result NotAStore
        → CanEdit change.now.edit (bytes_over (D.seen disk.old).pages map.old change.now.page) → ⊥ }
    ensures keeps { IsOnlyRead D.Disk disk.old disk.new }
    ensures cause { ReadHasCause D.Disk disk.old disk.new result }
{
    fetch_page(alloc, disk, map, change)?;
    map.change(number, change)?;
    Ok(())
}

/// The changes of a record, one after another.
fn change_pages<D: Disk>(
    alloc: Global,
    disk: &mut D,
    map: &mut PageMap,
    rec: &Record,
) -> Result<(), OpenFault>
    requires { IsRecord rec.now }
    ensures made { D.tells → OnOk result
        (MakesChanges (D.seen disk.old).pages map.old map.new rec.now.number rec.now.changes) }
    ensures refused { D.tells → IsErrOf result NotAStore
        → ((c : Change) → In c rec.now.changes
        → CanEdit c.edit (bytes_over (D.seen disk.old).pages map.old c.page)) → ⊥ }
    ensures keeps { IsOnlyRead D.Disk disk.old disk.new }
    ensures cause { ReadHasCause D.Disk disk.old disk.new result }
{
    for change in rec.changes.as_slice() {
        change_page(alloc, disk, map, rec.number, change)?;
    }
    Ok(())
}

/// The first record of these bytes, into the state and the pages, and its length.
fn read_record<D: Disk>(
    alloc: Global,
    disk: &mut D,
    bytes: &[u8],
    state: &mut State,
    map: &mut PageMap,
) -> Result<usize, OpenFault>
    ensures length { IfOk result (λ n. (0 < n) × (n ≤ length bytes.now)) }
    ensures read { (file : List ℕ) (pages xid_limit : ℕ) (R : Log)
        → IsRead D.Disk disk.old file pages xid_limit state.old.value map.old R
        → IfOk result (λ n.
        ReadsOne D.Disk disk.new file pages xid_limit state.new.value map.new R bytes.now n) }
    ensures refused { (file : List ℕ) (pages xid_limit : ℕ) (R : Log)
        → IsRead D.Disk disk.old file pages xid_limit state.old.value map.old R
        → D.tells → IsErrOf result NotAStore → (r : Record) (behind : List ℕ) → IsRecord r
        → bytes.now ≡ record_bytes r ++ behind → r.number ≡ suc (length R)
        → CanApply file (r ∷ R) → ⊥ }
    ensures keeps { IsOnlyRead D.Disk disk.old disk.new }
    ensures cause { ReadHasCause D.Disk disk.old disk.new result }
{
    let (rec, size) = decode_record(alloc, bytes)?;
    if rec.number == 0 || rec.number - 1 != state.length() {
        return Err(OpenFault::NotAStore);
    }
    state.step(&rec)?;
    change_pages(alloc, disk, map, &rec)?;
    Ok(size)
}

/// The records of a batch, into the state and the pages.
fn read_batch_records<D: Disk>(
    alloc: Global,
    disk: &mut D,
    bytes: &[u8],
    state: &mut State,
    map: &mut PageMap,
) -> Result<(), OpenFault>
    ensures read { (file : List ℕ) (pages xid_limit : ℕ) (R : Log)
        → IsRead D.Disk disk.old file pages xid_limit state.old.value map.old R
        → OnOk result
        (ReadsBatch D.Disk disk.new file pages xid_limit state.new.value map.new R bytes.now) }
    ensures refused { (file : List ℕ) (pages xid_limit : ℕ) (R : Log)
        → IsRead D.Disk disk.old file pages xid_limit state.old.value map.old R
        → D.tells → IsErrOf result NotAStore → (records : List Record)
        → AreRecordsOf bytes.now records
        → AreNumbered (reverse records ++ R) → CanApply file (reverse records ++ R) → ⊥ }
    ensures keeps { IsOnlyRead D.Disk disk.old disk.new }
    ensures cause { ReadHasCause D.Disk disk.old disk.new result }
{
    let mut rest = bytes;
    while !rest.is_empty() {
        let size = read_record(alloc, disk, rest, state, map)?;
        rest = &rest[size..];
    }
    Ok(())
}

/// All records of a log that was just opened, each of them into the state and into the pages that
/// it changes. A page whose first change is a delta begins as it is in the page file.
pub(crate) fn read_records<D: Disk>(
    alloc: Global,
    disk: &mut D,
    wal: &mut Wal,
    state: &mut State,
) -> Result<PageMap, OpenFault>
    requires reading { D.tells → IsReading wal.old (D.seen disk.old).log [] }
    requires empty { state.old.value
        ≡ empty_state state.old.value.pages state.old.value.xid_limit }
    ensures read { IfOk result (λ map. (R : Log)
        × AreRead D.Disk disk.old disk.new wal.new state.new.value map R) }
    ensures limits { OnOk result ((state.new.value.pages ≡ state.old.value.pages)
        × (state.new.value.xid_limit ≡ state.old.value.xid_limit)) }
    ensures same { IsSameBut wal.old wal.new }
    ensures no_store { D.tells → NotAStoreWhere (IsNoStore (D.seen disk.old)) result }
    ensures keeps { IsOnlyRead D.Disk disk.old disk.new }
    ensures cause { ReadHasCause D.Disk disk.old disk.new result }
{
    let mut map = PageMap::new(alloc);
    let mut batch = Vec::new(alloc);
    for _ in 0..u64::MAX {
        if !wal.read_batch(disk, &mut batch)? {
            stores_are_known();
            return Ok(map);
        }
        read_batch_records(alloc, disk, &batch, state, &mut map)?;
    }
    Err(OpenFault::OutOfMemory)
}
