// One batch: first its bytes and an unset commit byte after them, then its own commit byte.
ghost use Rattle.std.specs.Prelude.{◌≡◌, ℕ, ◌+◌, ◌^◌, ◌<◌, ◌≤◌, List, [], ◌∷◌, ◌++◌, length, OnOk};
ghost use Rattle.disk_trait.specs.Files.{file_limit};
ghost use Rattle.disk_trait.specs.Runs.{images_now, LeavesOnly, RunHasCause};
ghost use Rattle.wal.specs.Batches.{sealed};
ghost use Rattle.wal.specs.Pages.{KeepsPages};
ghost use Rattle.wal.specs.Settled.{Settled, BeforeOrAfter};
ghost use Rattle.wal.specs.Waiting.{StandsNow};

use crate::sizes::BATCH_LIMIT;
use disk_trait::{Disk, Failed, File, write_and_sync};

/// `chunk` is the sealed batch and an unset commit byte.
pub(crate) fn put_batch<D: Disk>(disk: &mut D, end: u64, chunk: &[u8]) -> Result<(), Failed>
    requires { end + 1 + length chunk.now ≤ file_limit }
    ensures counts { D.tells → (batches : List (List ℕ)) (batch : List ℕ)
        → chunk.now ≡ sealed batch ++ 0 ∷ [] → 0 < length batch → length batch < BATCH_LIMIT
        → Settled D.Disk batches end disk.old
        → OnOk result
        (StandsNow D.Disk (batches ++ batch ∷ []) (end + length chunk.now) disk.old disk.new) }
    ensures any_moment { D.tells → (batches : List (List ℕ)) (batch : List ℕ)
        → chunk.now ≡ sealed batch ++ 0 ∷ [] → 0 < length batch → length batch < BATCH_LIMIT
        → Settled D.Disk batches end disk.old
        → LeavesOnly D.Disk disk.old disk.new
        (BeforeOrAfter batches batch (images_now D.Disk disk.old)) }
    ensures pages { D.tells → KeepsPages D.Disk disk.old disk.new }
    ensures time { D.Disk.clock disk.old ≤ D.Disk.clock disk.new }
    ensures cause { RunHasCause D.Disk disk.old disk.new result }
{
    write_and_sync(disk, File::Log, end + 1, chunk)?;
    write_and_sync(disk, File::Log, end, &[1])
}
