// A new log: the store's commit byte is unset, the name and the first batch's commit byte are
// written, and the store's commit byte is set.
ghost use Rattle.std.specs.Prelude.{◌≡◌, ◌-◌, ◌^◌, ◌<◌, ◌≤◌, [], OnOk};
ghost use Rattle.disk_trait.specs.Runs.{images_now, IsSettled, LeavesOnly, RunHasCause};
ghost use Rattle.wal.specs.Batches.{IsUnborn, Opens};
ghost use Rattle.wal.specs.Pages.{KeepsPages};
ghost use Rattle.wal.specs.Settled.{LogIs, Settled};
ghost use Rattle.wal.specs.Creating.{From, CreateHasCause, created};
ghost use Rattle.wal.specs.Inner.CommitBytes.{name_and_commit_byte, Unset};

use crate::log::Wal;
use crate::sizes::{CREATED_BYTES, HEADER_BYTES};
use disk_trait::{Disk, Failed, File, write_and_sync};

/// A log without a batch: the store's commit byte, open, the name of the format, and the first batch's
/// commit byte, closed.
pub const CREATED: &[u8; 18] = b"\x01GINSH STORE 0001\0";

/// The name of the format, and the first batch's commit byte, unset.
fn past_gate() -> &'static [u8]
    ensures { result.now ≡ name_and_commit_byte }
{
    let created = CREATED.as_slice();
    &created[1..]
}

/// The store's commit byte is unset, if it may be set: a write of it could set it by itself.
fn unset<D: Disk>(disk: &mut D) -> Result<(), Failed>
    ensures commit_byte { D.tells → IsUnborn (D.seen disk.old).log
        → OnOk result (Unset (D.seen disk.new).log) }
    ensures durable { D.tells → IsUnborn (D.seen disk.old).log
        → LogIs D.Disk (D.seen disk.old).log disk.old
        → OnOk result (LogIs D.Disk (D.seen disk.new).log disk.new) }
    ensures pages { D.tells → OnOk result ((D.seen disk.new).pages ≡ (D.seen disk.old).pages) }
    ensures any_moment { D.tells → IsUnborn (D.seen disk.old).log
        → LogIs D.Disk (D.seen disk.old).log disk.old
        → LeavesOnly D.Disk disk.old disk.new (From (images_now D.Disk disk.old) IsUnborn) }
    ensures cause { CreateHasCause D.Disk disk.old disk.new result }
    ensures below_last { OnOk result (D.fault_count disk.old < 2 ^ 64 - 1) }
{
    if disk.length(File::Log)? < CREATED_BYTES {
        return write_and_sync(disk, File::Log, 0, &[0]);
    }
    Ok(())
}

/// The name and the first commit byte are written, and then the store's commit byte is set.
fn write_name<D: Disk>(disk: &mut D) -> Result<(), Failed>
    ensures stands { D.tells → Unset (D.seen disk.old).log
        → LogIs D.Disk (D.seen disk.old).log disk.old
        → OnOk result (LogIs D.Disk created disk.new) }
    ensures pages { D.tells → OnOk result ((D.seen disk.new).pages ≡ (D.seen disk.old).pages) }
    ensures any_moment { D.tells → Unset (D.seen disk.old).log
        → LogIs D.Disk (D.seen disk.old).log disk.old
        → LeavesOnly D.Disk disk.old disk.new
        (From (images_now D.Disk disk.old) (λ log. Opens log [])) }
    ensures time { D.Disk.clock disk.old ≤ D.Disk.clock disk.new }
    ensures cause { RunHasCause D.Disk disk.old disk.new result }
{
    write_and_sync(disk, File::Log, 1, past_gate())?;
    write_and_sync(disk, File::Log, 0, &[1])
}

/// The three synced writes, of which the first is left out where the log has its whole length.
fn write_header<D: Disk>(disk: &mut D) -> Result<(), Failed>
    requires { D.tells → IsUnborn (D.seen disk.old).log
        × LogIs D.Disk (D.seen disk.old).log disk.old }
    ensures stands { D.tells → OnOk result (LogIs D.Disk created disk.new) }
    ensures pages { D.tells → OnOk result ((D.seen disk.new).pages ≡ (D.seen disk.old).pages) }
    ensures any_moment { D.tells
        → LeavesOnly D.Disk disk.old disk.new
        (From (images_now D.Disk disk.old) (λ log. Opens log [])) }
    ensures cause { CreateHasCause D.Disk disk.old disk.new result }
    ensures below_last { OnOk result ((D.fault_count disk.old < 2 ^ 64 - 1)
        × (D.write_fault_count disk.old < 2 ^ 64 - 1)) }
{
    unset(disk)?;
    write_name(disk)
}

impl Wal {
    /// Makes an empty log of one whose creation was not begun or was cut short, and which is on the
    /// disk as it is read.
    /// A crash in it leaves again such a log, or the empty one. It takes no memory.
    pub fn create<D: Disk>(disk: &mut D) -> Result<(), Failed>
        requires { D.tells → IsUnborn (D.seen disk.old).log
            × LogIs D.Disk (D.seen disk.old).log disk.old }
        ensures stands { D.tells → OnOk result (LogIs D.Disk created disk.new) }
        ensures settled { D.tells → OnOk result (Settled D.Disk [] HEADER_BYTES disk.new) }
        ensures pages { D.tells → OnOk result ((D.seen disk.new).pages ≡ (D.seen disk.old).pages) }
        ensures files { D.tells → IsSettled D.Disk disk.old
            → OnOk result (IsSettled D.Disk disk.new) }
        ensures keeps_pages { D.tells → KeepsPages D.Disk disk.old disk.new }
        ensures any_moment { D.tells
            → LeavesOnly D.Disk disk.old disk.new
            (From (images_now D.Disk disk.old) (λ log. Opens log [])) }
        ensures cause { CreateHasCause D.Disk disk.old disk.new result }
        ensures below_last { OnOk result ((D.fault_count disk.old < 2 ^ 64 - 1)
            × (D.write_fault_count disk.old < 2 ^ 64 - 1)) }
    {
        write_header(disk)
    }
}
