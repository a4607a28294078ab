// What holds of all stems, and of the tables.
ghost use Rattle.porter_stem.specs.Laws.{StemIsNoLonger, StemIsSome, StemIsSmall, LongestIsLongest, TablesAreApart};
ghost use Rattle.porter_stem.specs.Porter.{PorterKnowsAll};
ghost use Rattle.porter_stem.specs.Worked.{StemsAreWorked};

/// A stem is not longer than its word.
pub fn stem_is_no_longer()
    ensures { StemIsNoLonger }
{}

/// A word that is not empty has a stem that is not empty.
pub fn stem_is_some()
    ensures { StemIsSome }
{}

/// The stem of a word of a to z is one.
pub fn stem_is_small()
    ensures { StemIsSmall }
{}

/// Of a table the rule with the longest suffix that a word has is looked at.
pub fn longest_is_longest()
    ensures { LongestIsLongest }
{}

/// No table has a suffix twice.
pub fn tables_are_apart()
    ensures { TablesAreApart }
{}

/// The stems of words over all steps, as they were worked out by hand.
pub fn stems_are_worked()
    ensures { StemsAreWorked }
{}

/// The dictionary of stems knows every word.
pub fn porter_knows_all()
    ensures { PorterKnowsAll }
{}
