// What records that take dead documents out leave as it is.
ghost use Rattle.core_vacuum.specs.Keeping.{VacuumHolds};

/// A record of the kinds 18 to 21 takes no pair and no head but those of dead documents, and leaves
/// linked rows, the names of trees, and the ways down them to pages that it doesn't delete.
pub fn vacuum_keeps()
    ensures { VacuumHolds }
{}
