// What holds of all scans.
ghost use Rattle.gin_opclass.specs.Class.{meaning};
ghost use Rattle.gin_scan.specs.Laws.{ScansGoOn};

use disk_trait::Disk;
use gin_opclass::Meaning;

/// A scan goes on as it was where others log between two of its steps.
pub fn scans_go_on<D: Disk, Q, W: Meaning<Q>>()
    ensures { ScansGoOn D.Disk (meaning W.asked W.all W.satisfies W.judged) }
{}
