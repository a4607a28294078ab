// A log is opened, and its batches are read one after another.
ghost use Rattle.std.specs.Prelude.{⊤, ◌≡◌, ◌≢◌, ◌⊎◌, ◌↔◌, ℕ, ◌+◌, ◌-◌, ◌^◌, ◌<◌, ◌≤◌, min, List, [], ◌∷◌, ◌++◌};
ghost use Rattle.std.specs.Prelude.{length, take, drop, IfOk, OnOk, OnErr, IfErr, IsErr, IfSome, IfNone, IsTrue, Ok};
ghost use Rattle.std.specs.Prelude.{Err, true, false, get_or};
ghost use Rattle.disk_trait.specs.Runs.{IsSettled};
ghost use Rattle.wal.specs.Causes.{ReadHasCause, NotAStoreWhere};
ghost use Rattle.byteorder.specs.Endian.{little_bytes};
ghost use Rattle.wal.specs.Batches.{header, front, IsUnborn, HasBatches};
ghost use Rattle.wal.specs.Reading.{IsOnlyRead, IsLengthAt, IsBroken};
ghost use Rattle.wal.specs.Inner.CommitBytes.{IsBrokenHead};
ghost use Rattle.wal.specs.Settled.{Settled, LogIs};
ghost use Rattle.wal.specs.declared.error.ReadError.TheVariants.{DiskFault, NotAStore, OutOfMemory};

use crate::error::ReadError;
use crate::log::Wal;
use crate::sizes::{
    BATCH_LIMIT, CREATED_BYTES, FRAME_BYTES, HEADER_BYTES, LENGTH_BYTES, LOG_LIMIT,
};
use byteorder::{ByteOrder, LittleEndian};
use disk_trait::{Disk, File};
use std::alloc::Global;

/// The log's bytes from a place on, as many as are there.
pub(crate) fn read_log<D: Disk>(disk: &mut D, at: u64, buf: &mut [u8]) -> Result<usize, ReadError>
    ensures bound { IfOk result (λ n. n ≤ length buf.old) }
    ensures bytes { D.tells
        → IfOk result (λ n. (n ≡ min (length buf.old) (length (D.seen disk.old).log - at))
        × (take n buf.new ≡ take n (drop at (D.seen disk.old).log))) }
    ensures keeps { IsOnlyRead D.Disk disk.old disk.new }
    ensures cause { ReadHasCause D.Disk disk.old disk.new result }
    ensures error { IfErr result (λ e. e ≡ DiskFault) }
{
    match disk.read(File::Log, at, buf) {
        Ok(n) => Ok(n),
        Err(_) => Err(ReadError::DiskFault),
    }
}

/// The log's length.
pub(crate) fn log_length<D: Disk>(disk: &mut D) -> Result<u64, ReadError>
    ensures length { D.tells → IfOk result (λ n. n ≡ length (D.seen disk.old).log) }
    ensures keeps { IsOnlyRead D.Disk disk.old disk.new }
    ensures cause { ReadHasCause D.Disk disk.old disk.new result }
    ensures error { IfErr result (λ e. e ≡ DiskFault) }
{
    match disk.length(File::Log) {
        Ok(n) => Ok(n),
        Err(_) => Err(ReadError::DiskFault),
    }
}

/// The number in the first four bytes.
fn number_in(bytes: &[u8]) -> u32
    requires { LENGTH_BYTES ≤ length bytes.now }
    ensures { little_bytes LENGTH_BYTES result ≡ take LENGTH_BYTES bytes.now }
{
    LittleEndian::read_u32(bytes)
}

/// The length of a batch, if the commit byte before it is set. These are the commit byte and the
/// length, as far as the file has them;
/// `room` is what the file has from the commit byte on.
fn length_in(head: &[u8], room: u64) -> Result<Option<usize>, ReadError>
    ensures closed { IfOk result (λ some. IfNone some (get_or head.now 0 0 ≢ 1)) }
    ensures open { IfOk result (λ some. IfSome some (λ n. (get_or head.now 0 0 ≡ 1)
        × (FRAME_BYTES ≤ length head.now) × (little_bytes LENGTH_BYTES n ≡ take LENGTH_BYTES (drop 1 head.now)))) }
    ensures size { IfOk result (λ some. IfSome some (λ n. (0 < n) × (n < BATCH_LIMIT)
        × (n + FRAME_BYTES < room))) }
    ensures broken { IsErr result → IsBrokenHead head.now room }
    ensures error { IfErr result (λ e. e ≡ NotAStore) }
{
    if head.is_empty() {
        return Err(ReadError::NotAStore);
    }
    if head[0] != 1 {
        return Ok(None);
    }
    if head.len() < FRAME_BYTES || room < FRAME_BYTES as u64 + 1 {
        return Err(ReadError::NotAStore);
    }
    let len = number_in(&head[1..]);
    if len == 0 || room - FRAME_BYTES as u64 - 1 < len as u64 {
        return Err(ReadError::NotAStore);
    }
    Ok(Some(len as usize))
}

/// The length of the batch after the commit byte at `at`, if that is set. `size` is the log's
/// length.
fn next_length<D: Disk>(disk: &mut D, at: u64, size: u64) -> Result<Option<usize>, ReadError>
    requires { at < size }
    ensures closed { D.tells → length (D.seen disk.old).log ≡ size
        → IfOk result (λ some. IfNone some (get_or (D.seen disk.old).log at 0 ≢ 1)) }
    ensures open { D.tells → length (D.seen disk.old).log ≡ size
        → IfOk result (λ some. IfSome some (λ n. (get_or (D.seen disk.old).log at 0 ≡ 1)
        × IsLengthAt (D.seen disk.old).log at n)) }
    ensures size { IfOk result (λ some. IfSome some (λ n. (0 < n) × (n < BATCH_LIMIT)
        × (at + FRAME_BYTES + n < size))) }
    ensures broken { D.tells → length (D.seen disk.old).log ≡ size
        → NotAStoreWhere (IsBroken (D.seen disk.old).log at) result }
    ensures keeps { IsOnlyRead D.Disk disk.old disk.new }
    ensures cause { ReadHasCause D.Disk disk.old disk.new result }
    ensures error { IfErr result (λ e. (e ≡ DiskFault) ⊎ (e ≡ NotAStore)) }
{
    let mut head = [0u8; FRAME_BYTES];
    match read_log(disk, at, &mut head) {
        Ok(n) => length_in(&head[..n], size - at),
        Err(e) => Err(e),
    }
}

/// So many bytes of the log from a place on, and none where they are not had.
fn read_into<D: Disk>(disk: &mut D, at: u64, len: usize, out: &mut Vec<u8>) -> Result<(), ReadError>
    requires { out.old.items ≡ [] }
    ensures bytes { D.tells → at + len ≤ length (D.seen disk.old).log
        → OnOk result (out.new.items ≡ take len (drop at (D.seen disk.old).log)) }
    ensures len { OnOk result (length out.new.items ≡ len) }
    ensures none { OnErr result (out.new.items ≡ []) }
    ensures there { D.tells → at + len ≤ length (D.seen disk.old).log
        → IfErr result (λ e. (e ≡ DiskFault) ⊎ (e ≡ OutOfMemory)) }
    ensures keeps { IsOnlyRead D.Disk disk.old disk.new }
    ensures cause { ReadHasCause D.Disk disk.old disk.new result }
    ensures error { IfErr result (λ e. (e ≡ DiskFault) ⊎ (e ≡ NotAStore) ⊎ (e ≡ OutOfMemory)) }
{
    out.resize(len, 0)?;
    match read_log(disk, at, out) {
        Ok(n) if n == len => Ok(()),
        Ok(_) => {
            out.clear();
            Err(ReadError::NotAStore)
        }
        Err(e) => {
            out.clear();
            Err(e)
        }
    }
}

impl Wal {
    ghost use Rattle.wal.specs.Waiting.{end_of, IsReadToEnd};
    ghost use Rattle.wal.specs.Reading.{IsReading, IsFresh, IsSameBut, IsForeign, Gives};

    /// The next batch, in place of what `out` held; false at the log's end. `out` is empty after
    /// all but a batch.
    /// A refusal leaves the reading where it was.
    pub fn read_batch<D: Disk>(
        &mut self,
        disk: &mut D,
        out: &mut Vec<u8>,
    ) -> Result<bool, ReadError>
        ensures given { D.tells → (batches : List (List ℕ))
            → IsReading self.old (D.seen disk.old).log batches
            → Gives result out.new.items
            (λ batch. IsReading self.new (D.seen disk.old).log (batches ++ batch ∷ [])) }
        ensures end { D.tells → (batches : List (List ℕ))
            → IsReading self.old (D.seen disk.old).log batches
            → result ≡ Ok false → HasBatches (D.seen disk.old).log batches
            × (end_of self.new ≡ length (front batches)) }
        // Where a crash leaves what is read, all is.
        ensures settled { D.tells → (batches : List (List ℕ))
            → IsReading self.old (D.seen disk.old).log batches
            → LogIs D.Disk (D.seen disk.old).log disk.old
            → result ≡ Ok false → Settled D.Disk batches (end_of self.new) disk.new }
        ensures ready { result ≡ Ok false → IsReadToEnd self.new
            × (end_of self.new ≡ end_of self.old) }
        ensures again { IsReadToEnd self.old → (result ≡ Ok false) × (self.new ≡ self.old)
            × (disk.new ≡ disk.old) }
        ensures none { Gives result out.new.items (λ _. ⊤) }
        ensures same { IsSameBut self.old self.new }

        ensures no_store { D.tells → (batches : List (List ℕ))
            → IsReading self.old (D.seen disk.old).log batches
            → NotAStoreWhere (IsBroken (D.seen disk.old).log (end_of self.old)) result }
        ensures refused { OnErr result (self.new ≡ self.old) }
        ensures error { IfErr result (λ e. (e ≡ DiskFault) ⊎ (e ≡ NotAStore) ⊎ (e ≡ OutOfMemory)) }
        ensures keeps { IsOnlyRead D.Disk disk.old disk.new }
        ensures cause { ReadHasCause D.Disk disk.old disk.new result }
    {
        out.clear();
        if self.ended {
            return Ok(false);
        }
        let Some(len) = next_length(disk, self.end, self.size)? else {
            self.ended = true;
            return Ok(false);
        };
        read_into(disk, self.end + FRAME_BYTES as u64, len, out)?;
        self.end += FRAME_BYTES as u64 + len as u64;
        Ok(true)
    }
}
