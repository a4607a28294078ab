// What becomes of what a cleanup has gathered, which page it reads next, and where it ends.
ghost use Rattle.gin_cleanup.specs.Batches.{BatchBegins, BatchGrows, PageIsRead, EndsWithAll, EndsBefore};
ghost use Rattle.gin_cleanup.specs.Batches.{PageMayGo, PageGoes, PlacedNeedNotWait};
ghost use Rattle.gin_cleanup.specs.NextPage.{NextBegins, NextIsThere, NextFollows, NextStays};
ghost use Rattle.gin_cleanup.specs.Still.{StillBegins, StillGrows, StillGoes, StillEnds};

/// What was gathered of the pending list stays so where others log and items come into the trees; a
/// batch ends with whole documents; and a page of it may be shifted once its pairs are in the trees.
pub fn batches_hold()
    ensures begins { BatchBegins }
    ensures grows { BatchGrows }
    ensures read { PageIsRead }
    ensures placed { PlacedNeedNotWait }
    ensures ends_with_all { EndsWithAll }
    ensures ends_before { EndsBefore }
    ensures may_go { PageMayGo }
    ensures goes { PageGoes }
{}

/// The pages of the list are read in turn: from its first on each time the one that the right link of the
/// last names, also where others log meanwhile.
pub fn pages_follow()
    ensures begins { NextBegins }
    ensures there { NextIsThere }
    ensures follows { NextFollows }
    ensures stays { NextStays }
{}

/// A cleanup ends exactly where no row that was linked when it began is still linked.
pub fn rows_go()
    ensures begins { StillBegins }
    ensures grows { StillGrows }
    ensures goes { StillGoes }
    ensures ends { StillEnds }
{}
