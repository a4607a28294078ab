// A log that is open: where its next commit byte is, and what waits for a flush.
ghost use Rattle.std.specs.Prelude.{◌≡◌, ◌⊎◌, ◌↔◌, ℕ, ◌+◌, ◌-◌, ◌^◌, ◌<◌, ◌≤◌, List, [], ◌∷◌, ◌++◌, length, drop, OnOk};
ghost use Rattle.std.specs.Prelude.{OnErr, IfErr, IsErrOf, IsOk, Some, None, Option, vec_len, vec_capacity, Err, Ok};
ghost use Rattle.std.specs.Prelude.{false};
ghost use Rattle.byteorder.specs.Endian.{little_bytes};
ghost use Rattle.wal.specs.declared.sizes.TheConstants.{LENGTH_BYTES, LOG_LIMIT};
ghost use Rattle.wal.specs.declared.error.AppendError.TheVariants.{LogFull, OutOfMemory};
ghost use Rattle.wal.specs.declared.error.AppendError.TheVariants as appending;
ghost use Rattle.wal.specs.declared.error.FlushError.TheVariants.{DiskFault, Down};

use crate::batch::put_batch;
use crate::error::{AppendError, FlushError};
use crate::sizes::{FRAME_BYTES, LENGTH_BYTES, LOG_LIMIT, MOST_WAITING};
use byteorder::{ByteOrder, LittleEndian};
use disk_trait::Disk;

/// A log whose batches are read, one after another, and to which entries are added then.
#[derive(Drop)]
pub struct Wal {
    /// Where the next commit byte is.
    pub(crate) end: u64,
    /// the file's length at the opening
    pub(crate) size: u64,
    /// The most bytes of the file.
    pub(crate) limit: u64,
    /// the batches have been read
    pub(crate) ended: bool,
    /// four bytes for the length, and what waits
    pub(crate) buffer: Vec<u8>,
    /// The device's count of faults after the fault that brought the log down.
    pub(crate) down: Option<u64>,
    ghost length_room: { LENGTH_BYTES ≤ length buffer.items },
    ghost commit_byte_room: { vec_len buffer < vec_capacity buffer },
    ghost bound: { limit ≤ LOG_LIMIT },
    ghost fits: { length buffer.items ≤ 2 ^ 24 },
    ghost below_limit: { LENGTH_BYTES < length buffer.items → end + 2 + length buffer.items ≤ limit },
    ghost inside: { ended ≡ false → end < size },
    ghost idle: { ended ≡ false → length buffer.items ≡ LENGTH_BYTES },
}

/// The length of what waits, in front of it.
fn put_length(buffer: &mut Vec<u8>)
    requires { (LENGTH_BYTES ≤ length buffer.old.items) × (length buffer.old.items ≤ 2 ^ 24) }
    ensures items { buffer.new.items ≡ little_bytes LENGTH_BYTES (length buffer.old.items - LENGTH_BYTES)
        ++ drop LENGTH_BYTES buffer.old.items }
    ensures room { (vec_len buffer.new ≡ vec_len buffer.old)
        × (vec_capacity buffer.new ≡ vec_capacity buffer.old) }
{
    let len = (buffer.len() - LENGTH_BYTES) as u32;
    LittleEndian::write_u32(buffer, len);
}

impl Wal {
    ghost use Rattle.wal.specs.Waiting.{end_of, limit_of, down_of, waiting, IsReadToEnd, with_waiting, end_with};
    ghost use Rattle.wal.specs.Waiting.{FlushLeaves, StandsNow};
    ghost use Rattle.wal.specs.Causes.{WriteHasCause, GoesDown, LogFullWhere};
    ghost use Rattle.wal.specs.Settled.{Settled};
    ghost use Rattle.wal.specs.Pages.{KeepsPages};

    /// Nothing waits any more. What waited may count or not, where the device failed.
    fn flush_waiting<D: Disk>(&mut self, disk: &mut D) -> Result<(), FlushError>
        requires ready { IsReadToEnd self.old }
        requires some { LENGTH_BYTES < length self.old.buffer.items }
        ensures counts { D.tells → (batches : List (List ℕ))
            → Settled D.Disk batches (end_of self.old) disk.old
            → OnOk result
            (StandsNow D.Disk (batches ++ waiting self.old ∷ [])
            (end_of self.new) disk.old disk.new) }
        ensures pages { D.tells → KeepsPages D.Disk disk.old disk.new }
        ensures any_moment { D.tells → (batches : List (List ℕ))
            → Settled D.Disk batches (end_of self.old) disk.old
            → FlushLeaves D.Disk batches (waiting self.old) disk.old disk.new }
        ensures empty { waiting self.new ≡ [] }
        ensures end { OnOk result
            (end_of self.new ≡ end_of self.old + FRAME_BYTES + length (waiting self.old)) }
        ensures same { (limit_of self.new ≡ limit_of self.old) × (self.new.ended ≡ self.old.ended) }
        ensures down { GoesDown result (D.fault_count disk.new) (down_of self.old)
            (down_of self.new) }
        ensures cause { WriteHasCause D.Disk disk.old disk.new result }
        ensures error { IfErr result (λ e. e ≡ DiskFault) }
    {
        put_length(&mut self.buffer);
        self.buffer.push_reserved(0);
        let put = put_batch(disk, self.end, &self.buffer);
        let len = self.buffer.len() as u64;
        self.buffer.truncate(LENGTH_BYTES);
        match put {
            Ok(()) => {
                self.end += len;
                Ok(())
            }
            Err(_) => {
                self.down = Some(disk.faults());
                Err(FlushError::DiskFault)
            }
        }
    }

    /// The device's count of faults just after the fault that brought the log down, if one did.
    pub fn fault(&self) -> Option<u64>
        ensures { result ≡ down_of self.now }
    {
        self.down
    }

    /// How many bytes wait.
    pub fn waits(&self) -> usize
        ensures { result ≡ length (waiting self.now) }
    {
        self.buffer.len() - LENGTH_BYTES
    }

    /// The entry waits after what waits, of which there is little. The device is not called. Of a
    /// refused entry nothing is there.
    /// The log is full where its length up to the own batch's commit byte, what waits and the
    /// entry, with four bytes for the length
    /// and a commit byte on each side, would pass the limit.
    pub fn append(&mut self, bytes: &[u8]) -> Result<(), AppendError>
        requires ready { IsReadToEnd self.old }
        requires short { length bytes.now ≤ MOST_WAITING }
        requires room { length (waiting self.old) < MOST_WAITING }
        ensures ok { OnOk result (waiting self.new ≡ waiting self.old ++ bytes.now) }
        ensures err { OnErr result (waiting self.new ≡ waiting self.old) }
        ensures same { (end_of self.new ≡ end_of self.old) × (limit_of self.new ≡ limit_of self.old)
            × (self.new.ended ≡ self.old.ended) × (down_of self.new ≡ down_of self.old) }

        // The refusals.
        ensures full { LogFullWhere (limit_of self.old)
            (end_of self.old + FRAME_BYTES + length (waiting self.old) + length bytes.now + 1) result }
        ensures is_down { (f : ℕ) → (result ≡ Err (appending.Down f)) ↔ (down_of self.old ≡ Some f) }
        ensures stays_down { (f : ℕ) → down_of self.old ≡ Some f → self.new ≡ self.old }
    {
        if let Some(fault) = self.down {
            return Err(AppendError::Down { fault });
        }
        let len = self.buffer.len() + bytes.len();
        if self.limit < self.end.saturating_add(2 + len as u64) {
            return Err(AppendError::LogFull);
        }
        self.buffer.reserve(bytes.len() + 1)?;
        self.buffer.extend_from_slice(bytes)?;
        Ok(())
    }

    /// What waits counts from now on, as one batch. It takes no memory.
    pub fn flush<D: Disk>(&mut self, disk: &mut D) -> Result<(), FlushError>
        requires { IsReadToEnd self.old }
        ensures ok { OnOk result ((waiting self.new ≡ [])
            × (end_of self.new ≡ end_with (end_of self.old) (waiting self.old))) }
        ensures same { IsReadToEnd self.new × (limit_of self.new ≡ limit_of self.old) }

        // The device: no call of it where nothing waits.
        ensures idle { waiting self.old ≡ [] → (disk.new ≡ disk.old) × (self.new ≡ self.old)
            × (down_of self.old ≡ None → IsOk result) }
        ensures counts { D.tells → (batches : List (List ℕ))
            → Settled D.Disk batches (end_of self.old) disk.old
            → OnOk result
            (StandsNow D.Disk (with_waiting batches (waiting self.old))
            (end_of self.new) disk.old disk.new) }
        ensures pages { D.tells → KeepsPages D.Disk disk.old disk.new }
        ensures any_moment { D.tells → (batches : List (List ℕ))
            → Settled D.Disk batches (end_of self.old) disk.old
            → (disk.new ≡ disk.old)
            ⊎ ((0 < length (waiting self.old))
            × FlushLeaves D.Disk batches (waiting self.old) disk.old disk.new) }

        // The refusals: what waited waits no more after a fault of the device.
        ensures error { IfErr result (λ e. (e ≡ DiskFault) ⊎ ((f : ℕ) × (e ≡ Down f))) }
        ensures fault { IsErrOf result DiskFault → waiting self.new ≡ [] }
        ensures is_down { (f : ℕ) → (result ≡ Err (Down f)) ↔ (down_of self.old ≡ Some f) }
        ensures stays_down { (f : ℕ) → down_of self.old ≡ Some f → (disk.new ≡ disk.old)
            × (self.new ≡ self.old) }
        ensures goes_down { GoesDown result (D.fault_count disk.new) (down_of self.old)
            (down_of self.new) }
        ensures cause { WriteHasCause D.Disk disk.old disk.new result }
    {
        if let Some(fault) = self.down {
            return Err(FlushError::Down { fault });
        }
        if self.buffer.len() == LENGTH_BYTES {
            return Ok(());
        }
        self.flush_waiting(disk)
    }
}
