// The opening of a journal.
ghost use Rattle.std.specs.Prelude.{◌≡◌, ◌↔◌, ◌+◌, ◌<◌, ◌-◌, ◌^◌, ℕ, ◌≤◌, [], length};
ghost use Rattle.std.specs.Prelude.{IfOk, IfErr, OnOk, OnErr, IsErrOf, IsTrue, None};
ghost use Rattle.disk_trait.specs.Device.{Rose, Durable};
ghost use Rattle.disk_trait.specs.Runs.{images_now, LeavesOnly};
ghost use Rattle.disk_trait.specs.declared.device.File.TheVariants.{Pages};
ghost use Rattle.wal.specs.Batches.{IsUnborn};
ghost use Rattle.wal.specs.Pages.{KeepsPages};
ghost use Rattle.wal.specs.Reading.{IsOnlyRead, IsReading, IsForeign, IsFresh};
ghost use Rattle.wal.specs.Settled.{LogIs};
ghost use Rattle.wal.specs.Waiting.{waiting, end_of, limit_of, down_of, IsReadToEnd};
ghost use Rattle.wal.specs.declared.sizes.TheConstants.{LOG_LIMIT};
ghost use Rattle.page_types.specs.Records.{record_bytes};
ghost use Rattle.core_state.specs.Log.{Log, xid_bound};
ghost use Rattle.core_state.specs.History.{History};
ghost use Rattle.core_state.specs.States.{step_of};
ghost use Rattle.buffer_frames.specs.Causes.{ReadHasCause, NotAStoreWhere};
ghost use Rattle.buffer_frames.specs.Beginnings.{BeginsOpened};
ghost use Rattle.buffer_frames.specs.First.{first_record as first};
ghost use Rattle.buffer_frames.specs.NoStore.{IsNoStore};
ghost use Rattle.buffer_frames.specs.Opens.{OpensTo};
ghost use Rattle.buffer_frames.specs.Opening.{IsOpenedAt, HasStarted, LeavesRefused, without_disk};
ghost use Rattle.wal.specs.Creating.{IsMade};
ghost use Rattle.buffer_frames.specs.Inner.Making.{HasRun, RunsFrom, IsReadAs, HasBegun, MakesHasCause, AreBelowLast};
ghost use Rattle.buffer_frames.specs.declared.error.OpenFault.TheVariants.{NotAStore, OutOfMemory};

use crate::error::OpenFault;
use crate::journal::{Journal, MOST_RECORDS};
use crate::laws::{counted_are_one, stores_are_known};
use crate::making::first_record;
use crate::page_map::PageMap;
use crate::records::read_records;
use core_state::{Settings, State};
use disk_trait::{Disk, Failed, File};
use record_code::encode_record;
use std::alloc::Global;
use std::snapshot::Snapshot;
use wal::{Wal, never_refused, one_list};

/// Both files are synced, so that a crash leaves what a read gives.
fn sync_both<D: Disk>(disk: &mut D) -> Result<(), Failed>
    ensures durable { D.tells → OnOk result (LogIs D.Disk (D.seen disk.old).log disk.new) }
    ensures durable_pages { D.tells
        → OnOk result (Durable Pages (D.seen disk.old).pages (images_now D.Disk disk.new)) }
    ensures keeps { IsOnlyRead D.Disk disk.old disk.new }
    ensures time { D.Disk.clock disk.old ≤ D.Disk.clock disk.new }
    ensures later { (D.fault_count disk.old ≤ D.fault_count disk.new)
        × (D.write_fault_count disk.old ≤ D.write_fault_count disk.new) }
    ensures fault { OnErr result (Rose (D.fault_count disk.old) (D.fault_count disk.new)) }
    ensures below_last { OnOk result ((D.fault_count disk.old < 2 ^ 64 - 1)
        × (D.write_fault_count disk.new ≡ D.write_fault_count disk.old)
        × (D.write_fault_count disk.new < 2 ^ 64 - 1)) }
{
    disk.sync(File::Log)?;
    disk.sync(File::Pages)
}

/// The log of a store, before its first batch. Both files are synced first.
fn open_log<D: Disk>(alloc: Global, disk: &mut D, limit: u64) -> Result<Wal, OpenFault>
    requires limit { limit ≤ LOG_LIMIT }
    ensures runs { D.tells → RunsFrom D.Disk disk.old disk.new }
    ensures made { D.tells → OnOk result (IsMade D.Disk disk.old disk.new) }
    ensures ran { OnOk result ((c0 : ℕ) × (D.tells → HasRun D.Disk disk.old c0 disk.new)) }
    ensures reading { D.tells → IfOk result (λ wal. IsReading wal (D.seen disk.new).log []) }
    ensures fresh { IfOk result (λ wal. IsFresh wal limit) }
    ensures no_store { D.tells → NotAStoreWhere (IsForeign (D.seen disk.old).log) result }
    ensures born { D.tells → (IsUnborn (D.seen disk.old).log → ⊥)
        → IsOnlyRead D.Disk disk.old disk.new }
    ensures refused { D.tells → IsErrOf result NotAStore → IsUnborn (D.seen disk.old).log → ⊥ }
    ensures cause { MakesHasCause D.Disk disk.old disk.new result }
    ensures below_last { OnOk result (AreBelowLast D.Disk disk.old disk.new) }
{
    never_refused();
    sync_both(disk)?;
    let wal = Wal::open_or_create(alloc, disk, limit)?;
    Ok(wal)
}

/// The records of a store are read.
fn read_store<D: Disk>(
    alloc: Global,
    disk: &mut D,
    settings: &Settings,
) -> Result<(Wal, State, PageMap), OpenFault>
    requires limit { settings.now.log_limit ≤ LOG_LIMIT }
    ensures read { IfOk result (λ x. (R : Log)
        × IsReadAs D.Disk settings.now disk.old disk.new x.0 (x.1).value x.2 R) }
    ensures ran { OnOk result ((c0 : ℕ) × (D.tells → HasRun D.Disk disk.old c0 disk.new)) }
    ensures runs { D.tells → RunsFrom D.Disk disk.old disk.new }
    ensures no_store { D.tells → NotAStoreWhere (IsNoStore (D.seen disk.old)) result }
    ensures only_read { IsErrOf result NotAStore → IsOnlyRead D.Disk disk.old disk.new }
    ensures cause { MakesHasCause D.Disk disk.old disk.new result }
    ensures below_last { OnOk result (AreBelowLast D.Disk disk.old disk.new) }
{
    one_list();
    stores_are_known();
    let mut wal = open_log(alloc, disk, settings.log_limit)?;
    let mut state = State::new(alloc, settings.pages, settings.xid_limit);
    let map = read_records(alloc, disk, &mut wal, &mut state)?;
    Ok((wal, state, map))
}

/// The first record waits.
fn log_first(alloc: Global, wal: &mut Wal, state: &mut State) -> Result<(), OpenFault>
    requires ready { IsReadToEnd wal.old }
    requires none { waiting wal.old ≡ [] }
    ensures waits { OnOk result (waiting wal.new ≡ record_bytes first) }
    ensures end { OnOk result (end_of wal.new ≡ end_of wal.old) }
    ensures same { IsReadToEnd wal.new × (limit_of wal.new ≡ limit_of wal.old) }
    ensures down { OnOk result (down_of wal.new ≡ down_of wal.old) }
    ensures state { OnOk result (state.new.value ≡ step_of first state.old.value) }
    ensures error { IfErr result (λ e. e ≡ OutOfMemory) }
{
    let rec = first_record(alloc)?;
    let mut bytes = Vec::new(alloc);
    encode_record(&rec, &mut bytes)?;
    if wal.append(&bytes).is_err() {
        return Err(OpenFault::OutOfMemory);
    }
    state.step(&rec)?;
    Ok(())
}

/// Where the log has no record, the first one waits. Else an Abort is owed.
fn begin_log(alloc: Global, wal: &mut Wal, state: &mut State) -> Result<bool, OpenFault>
    requires ready { IsReadToEnd wal.old }
    requires none { waiting wal.old ≡ [] }
    ensures begun { IfOk result (λ owes.
        HasBegun owes wal.old wal.new state.old.value state.new.value) }
    ensures ready { IsReadToEnd wal.new }
    ensures error { IfErr result (λ e. e ≡ OutOfMemory) }
{
    if state.length() > 0 {
        return Ok(true);
    }
    log_first(alloc, wal, state)?;
    Ok(false)
}

/// What a journal is made of, beside its device, and the pages that were read.
#[derive(Drop)]
struct Parts {
    wal: Wal,
    state: State,
    flushed: u32,
    owes: bool,
    map: PageMap,
}

/// The parts of a journal.
fn open_parts<D: Disk>(alloc: Global, disk: &mut D, settings: &Settings) -> Result<Parts, OpenFault>
    requires limit { settings.now.log_limit ≤ LOG_LIMIT }
    ensures opened { IfOk result (λ x. (c0 : ℕ)
        × IsOpenedAt D.Disk settings.now disk.old c0
        (record {
          disk = disk.new;
          wal = x.wal;
          state = (x.state).value;
          flushed = x.flushed;
          owes = x.owes;
          opened = disk.new;
          work = None;
        }) x.map) }
    ensures started { IfOk result (λ x. HasStarted (x.state).value) }
    ensures ready { IfOk result (λ x. IsReadToEnd x.wal) }
    ensures fits { IfOk result (λ x. ((x.state).value).records + 2 ≤ 2 ^ 63) }
    ensures some { IfOk result (λ x. 0 < ((x.state).value).records) }
    ensures runs { D.tells → RunsFrom D.Disk disk.old disk.new }
    ensures no_store { D.tells → NotAStoreWhere (IsNoStore (D.seen disk.old)) result }
    ensures only_read { IsErrOf result NotAStore → IsOnlyRead D.Disk disk.old disk.new }
    ensures cause { MakesHasCause D.Disk disk.old disk.new result }
{
    one_list();
    let (mut wal, mut state, map) = read_store(alloc, disk, settings)?;
    if state.length() > MOST_RECORDS {
        return Err(OpenFault::OutOfMemory);
    }
    let flushed = state.commits();
    let owes = begin_log(alloc, &mut wal, &mut state)?;
    state.start_run();
    Ok(Parts {
        wal,
        state,
        flushed,
        owes,
        map,
    })
}

/// Opens the store of a device, with the bytes of the pages that its log changes. An empty one is
/// made; where the log has no record, the first one waits.
pub fn open<D: Disk>(
    alloc: Global,
    disk: D,
    settings: &Settings,
) -> Result<(Journal<D>, PageMap), (D, OpenFault)>
    requires limit { settings.now.log_limit ≤ LOG_LIMIT }
    requires xids { settings.now.xid_limit ≤ xid_bound }
    ensures opened { IfOk result
        (λ x. (c0 : ℕ) × IsOpenedAt D.Disk settings.now disk c0 x.0 x.1) }
    ensures keeps_pages { D.tells → IfOk result (λ x. KeepsPages D.Disk disk (x.0).disk) }
    ensures since { IfOk result (λ x. (x.0).opened ≡ (x.0).disk) }
    ensures free { IfOk result (λ x. (x.0).work ≡ None) }
    ensures started { IfOk result (λ x. HasStarted (x.0).state) }
    ensures begins { D.tells → IfOk result (λ x. BeginsOpened D.Disk x.0) }
    ensures opens_on { D.tells → IfOk result (λ x. (H : History) → OpensTo (D.seen disk) H
        → OpensTo (D.seen (x.0).disk) H) }
    ensures born { D.tells → (IsUnborn (D.seen disk).log → ⊥)
        → IfOk result (λ x. IsOnlyRead D.Disk disk (x.0).disk) }

    // The refusals.
    ensures no_store { D.tells → NotAStoreWhere (IsNoStore (D.seen disk)) (without_disk result) }
    ensures refused { IfErr result (LeavesRefused D.Disk disk) }
{
    one_list();
    counted_are_one();
    stores_are_known();
    let mut disk = disk;
    match open_parts(alloc, &mut disk, settings) {
        Ok(parts) => {
            let opened = Snapshot::of(&disk);
            let journal = Journal {
                alloc,
                disk,
                wal: parts.wal,
                state: parts.state,
                flushed: parts.flushed,
                owes: parts.owes,
                opened,
                work: None,
            };
            Ok((journal, parts.map))
        }
        Err(fault) => Err((disk, fault)),
    }
}
