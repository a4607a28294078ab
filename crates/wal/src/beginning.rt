// How a log begins: it is opened, or created before.
ghost use Rattle.std.specs.Prelude.{◌≡◌, ◌⊎◌, ◌↔◌, ℕ, ◌+◌, ◌<◌, ◌≤◌, [], length, take, IfOk, OnOk, IfErr, IsErrOf};
ghost use Rattle.std.specs.Prelude.{IsTrue, false};
ghost use Rattle.disk_trait.specs.Runs.{IsSettled, LeavesOnly};
ghost use Rattle.wal.specs.Batches.{header, IsUnborn};
ghost use Rattle.wal.specs.Causes.{ReadHasCause, OpenHasCause, NotAStoreWhere};
ghost use Rattle.wal.specs.Creating.{created, IsImageBefore, IsMade};
ghost use Rattle.wal.specs.Reading.{IsOnlyRead, IsReading, IsFresh, IsForeign};
ghost use Rattle.wal.specs.Settled.{LogIs};
ghost use Rattle.wal.specs.Waiting.{end_of};
ghost use Rattle.wal.specs.Inner.Beginnings.{BeginsSo, IsLongEnough};
ghost use Rattle.wal.specs.declared.error.ReadError.TheVariants.{DiskFault, NotAStore, OutOfMemory};

use crate::creating::CREATED;
use crate::error::ReadError;
use crate::log::Wal;
use crate::log_batches::{log_length, read_log};
use crate::sizes::{CREATED_BYTES, HEADER_BYTES, LENGTH_BYTES, LOG_LIMIT};
use disk_trait::Disk;
use std::alloc::Global;

/// How a log begins.
#[derive(Clone, Copy, Debug)]
enum Beginning {
    /// Its creation was not begun or was cut short.
    Unborn,
    /// As no log does.
    Foreign,
    /// With the header. The file has so many bytes.
    Header(u64),
}

/// The first bytes of a log that has so many.
fn read_head<D: Disk>(disk: &mut D) -> Result<[u8; HEADER_BYTES], ReadError>
    ensures head { D.tells → HEADER_BYTES ≤ length (D.seen disk.old).log
        → IfOk result (λ head. head ≡ take HEADER_BYTES (D.seen disk.old).log) }
    ensures keeps { IsOnlyRead D.Disk disk.old disk.new }
    ensures cause { ReadHasCause D.Disk disk.old disk.new result }
    ensures error { IfErr result (λ e. e ≡ DiskFault) }
{
    let mut head = [0u8; HEADER_BYTES];
    read_log(disk, 0, &mut head)?;
    Ok(head)
}

/// Whether these first bytes are the header.
fn is_header(head: &[u8; HEADER_BYTES]) -> bool
    ensures { IsTrue result ↔ (head.now ≡ header) }
{
    CREATED.starts_with(head)
}

/// How the log begins. Its length and its first bytes are read once.
fn begins_how<D: Disk>(disk: &mut D) -> Result<Beginning, ReadError>
    ensures so { D.tells → IfOk result (λ b. BeginsSo (D.seen disk.old).log b) }
    ensures size { IfOk result IsLongEnough }
    ensures keeps { IsOnlyRead D.Disk disk.old disk.new }
    ensures cause { ReadHasCause D.Disk disk.old disk.new result }
    ensures error { IfErr result (λ e. e ≡ DiskFault) }
{
    let size = log_length(disk)?;
    if size < CREATED_BYTES {
        return Ok(Beginning::Unborn);
    }
    let head = read_head(disk)?;
    if is_header(&head) {
        return Ok(Beginning::Header(size));
    }
    if size == CREATED_BYTES && head[0] != 1 {
        return Ok(Beginning::Unborn);
    }
    Ok(Beginning::Foreign)
}

impl Wal {
    /// At the first batch, with room for a length and a commit byte.
    fn at_start(alloc: Global, size: u64, limit: u64) -> Result<Wal, ReadError>
        requires size { HEADER_BYTES < size }
        requires limit { limit ≤ LOG_LIMIT }
        ensures start { IfOk result (λ wal. (wal.ended ≡ false) × (wal.size ≡ size)
            × (end_of wal ≡ HEADER_BYTES)) }
        ensures fresh { IfOk result (λ wal. IsFresh wal limit) }
        ensures error { IfErr result (λ e. e ≡ OutOfMemory) }
    {
        let mut buffer = Vec::with_capacity(alloc, LENGTH_BYTES + 1)?;
        buffer.resize(LENGTH_BYTES, 0u8)?;
        Ok(Wal {
            end: HEADER_BYTES as u64,
            size,
            limit,
            ended: false,
            buffer,
            down: None,
        })
    }

    /// A log that is there, before its first batch.
    pub fn open<D: Disk>(alloc: Global, disk: &mut D, limit: u64) -> Result<Wal, ReadError>
        requires limit { limit ≤ LOG_LIMIT }
        requires born { D.tells → IsUnborn (D.seen disk.old).log → ⊥ }
        ensures reading { D.tells → IfOk result (λ wal. IsReading wal (D.seen disk.old).log []) }
        ensures start { IfOk result (λ wal. (wal.ended ≡ false) × (end_of wal ≡ HEADER_BYTES)) }
        ensures fresh { IfOk result (λ wal. IsFresh wal limit) }
        ensures no_store { D.tells → NotAStoreWhere (IsForeign (D.seen disk.old).log) result }
        // Whatever the files hold and whatever is answered, they stay as they were.
        ensures keeps { IsOnlyRead D.Disk disk.old disk.new }
        ensures files { D.tells → IsSettled D.Disk disk.old → IsSettled D.Disk disk.new }
        ensures cause { ReadHasCause D.Disk disk.old disk.new result }
    {
        match begins_how(disk)? {
            Beginning::Header(size) => Wal::at_start(alloc, size, limit),
            Beginning::Unborn | Beginning::Foreign => Err(ReadError::NotAStore),
        }
    }

    /// The empty log, before its first batch, of one that was unborn.
    fn new_log<D: Disk>(alloc: Global, disk: &mut D, limit: u64) -> Result<Wal, ReadError>
        requires limit { limit ≤ LOG_LIMIT }
        requires unborn { D.tells → IsUnborn (D.seen disk.old).log
            × LogIs D.Disk (D.seen disk.old).log disk.old }
        ensures reading { D.tells → IfOk result (λ wal. IsReading wal (D.seen disk.new).log []) }
        ensures fresh { IfOk result (λ wal. IsFresh wal limit) }
        ensures made { D.tells → OnOk result (IsMade D.Disk disk.old disk.new) }
        ensures any_moment { D.tells
            → LeavesOnly D.Disk disk.old disk.new (IsImageBefore D.Disk disk.old) }
        ensures cause { OpenHasCause D.Disk disk.old disk.new result }
        ensures error { IfErr result (λ e. (e ≡ DiskFault) ⊎ (e ≡ OutOfMemory)) }
    {
        Wal::create(disk)?;
        Wal::at_start(alloc, CREATED_BYTES, limit)
    }

    /// A log before its first batch, which is on the disk as it is read. One whose creation was not
    /// begun, or was cut short, is created before.
    pub fn open_or_create<D: Disk>(
        alloc: Global,
        disk: &mut D,
        limit: u64,
    ) -> Result<Wal, ReadError>
        requires limit { limit ≤ LOG_LIMIT }
        requires durable { D.tells → LogIs D.Disk (D.seen disk.old).log disk.old }
        ensures reading { D.tells → IfOk result (λ wal. IsReading wal (D.seen disk.new).log []) }
        ensures fresh { IfOk result (λ wal. IsFresh wal limit) }
        ensures made { D.tells → OnOk result (IsMade D.Disk disk.old disk.new) }
        ensures any_moment { D.tells
            → LeavesOnly D.Disk disk.old disk.new (IsImageBefore D.Disk disk.old) }
        // A log that is born is only read, and one that is not is never refused as none.
        ensures born { D.tells → (IsUnborn (D.seen disk.old).log → ⊥)
            → IsOnlyRead D.Disk disk.old disk.new }
        ensures unborn { D.tells → IsErrOf result NotAStore → IsUnborn (D.seen disk.old).log → ⊥ }
        ensures no_store { D.tells → NotAStoreWhere (IsForeign (D.seen disk.old).log) result }
        ensures cause { OpenHasCause D.Disk disk.old disk.new result }
    {
        match begins_how(disk)? {
            Beginning::Header(size) => Wal::at_start(alloc, size, limit),
            Beginning::Foreign => Err(ReadError::NotAStore),
            Beginning::Unborn => Wal::new_log(alloc, disk, limit),
        }
    }
}
