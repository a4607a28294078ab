// What stays of the index.
ghost use Rattle.core_maintenance.specs.Staying.{FoundHolds, RightKeepsFound};

/// What was found of the index stays so where others log no maintenance; so it is in each log that is
/// allowed to a session with the right of maintenance.
pub fn found_stays()
    ensures records { FoundHolds }
    ensures right { RightKeepsFound }
{}
