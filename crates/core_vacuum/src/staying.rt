// What stays of items of dead documents.
ghost use Rattle.core_vacuum.specs.Staying.{OutHolds, RightKeepsOut};

/// An item that may leave the index may do so still, and one that is out of it stays out, where others
/// log no maintenance; so it is in each log that is allowed to a session with the right of maintenance.
pub fn out_stays()
    ensures records { OutHolds }
    ensures right { RightKeepsOut }
{}
