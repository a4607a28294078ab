// What records by which rows move to the trees leave as it is.
ghost use Rattle.core_maintenance.specs.Keeping.{PairsHold, PlacingHolds, PlacingKeepsList, HistoryHolds};
ghost use Rattle.core_maintenance.specs.Keeping.{ShiftHolds, LineHolds, RightKeepsLine};

/// Records of the kinds 13 to 17, by which items come into the trees, keep heads, rows, the pending list
/// and the pairs of the main part. With those of others between them they keep linked rows and pairs,
/// and the list grows at its end alone; so it grows in each log that is allowed to a session with the
/// right of maintenance. No work on the index changes the history.
pub fn placing_keeps()
    ensures placing { PlacingHolds }
    ensures list { PlacingKeepsList }
    ensures pairs { PairsHold }
    ensures line { LineHolds }
    ensures right { RightKeepsLine }
    ensures history { HistoryHolds }
{}

/// A Shift takes the first page off the pending list, and leaves all else of the index and the heads.
pub fn shift_keeps()
    ensures { ShiftHolds }
{}
