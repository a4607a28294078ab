// Which rows come to the pending list.
ghost use Rattle.core_maintenance.specs.FreshRows.{FreshHolds, RightKeepsFresh};

/// Each row that comes to the pending list is of an item that had no linked row, over records that only
/// add; so in each log that is allowed to a session with the right of maintenance.
pub fn fresh_rows_hold()
    ensures records { FreshHolds }
    ensures right { RightKeepsFresh }
{}
