// A write that is synced at once.
ghost use Rattle.std.specs.Prelude.{◌+◌, ◌^◌, ◌≤◌, length, OnOk};
ghost use Rattle.disk_trait.specs.Files.{file_limit};
ghost use Rattle.disk_trait.specs.Runs.{images_now, LeavesOnly, TornFrom, IsWrittenThrough, RunHasCause};

use crate::device::{Disk, Failed, File};

/// Two calls of the device. At each moment of them a crash leaves an earlier image with this range
/// torn, and after them the bytes are. The clock never falls, also on a device that says nothing.
pub fn write_and_sync<D: Disk>(
    disk: &mut D,
    file: File,
    at: u64,
    bytes: &[u8],
) -> Result<(), Failed>
    requires { at + length bytes.now ≤ file_limit }
    ensures stands { D.tells
        → OnOk result (IsWrittenThrough D.Disk file at bytes.now disk.old disk.new) }
    ensures any_moment { D.tells
        → LeavesOnly D.Disk disk.old disk.new
        (TornFrom file at (length bytes.now) (images_now D.Disk disk.old)) }
    ensures time { D.Disk.clock disk.old ≤ D.Disk.clock disk.new }
    ensures cause { RunHasCause D.Disk disk.old disk.new result }
{
    disk.write_at(file, at, bytes)?;
    disk.sync(file)
}
