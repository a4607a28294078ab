// What holds of all logs.
ghost use Rattle.core_state.specs.Laws.{KeysAreOne, ShownAreOne, OthersStay, MadeIsPage, ValidIsMonotone};
ghost use Rattle.core_state.specs.Laws.{LegalWithoutNewest, KeepsWithoutNewest, HistoryIsOne, LegalHasHistory};
ghost use Rattle.core_state.specs.States.{StateFollows};
ghost use Rattle.core_state.specs.Bullets.{BulletsHold};
ghost use Rattle.core_state.specs.Standing.{DocumentsHold, CommitsHold};
ghost use Rattle.core_state.specs.Steady.{SteadyHold};
ghost use Rattle.core_state.specs.PagesTold.{PagesHold};
ghost use Rattle.core_state.specs.RecordKeeps.{RecordsKeep};

/// The keys that are on pages are those of vectors.
pub fn keys_are_one()
    ensures { KeysAreOne }
{}

/// A log shows one page at each number; a page that a record doesn't name is the same after it; and
/// a page of a step that has an encoding has one as the record makes it.
pub fn pages_are_shown()
    ensures one { ShownAreOne }
    ensures others { OthersStay }
    ensures made { MadeIsPage }
{}

/// A larger floor or since makes no valid record invalid.
pub fn valid_is_monotone()
    ensures { ValidIsMonotone }
{}

/// A legal log without its newest record is legal, and keeps the pins that were taken before that
/// record.
pub fn newest_may_go()
    ensures legal { LegalWithoutNewest }
    ensures keeps { KeepsWithoutNewest }
{}

/// A log has one history at most, and a legal log has one.
pub fn history_is_one()
    ensures one { HistoryIsOne }
    ensures legal { LegalHasHistory }
{}

/// The state of a legal log says of it: the fates, the next numbers, the commits with their names,
/// and the use of each page.
pub fn state_follows()
    ensures { StateFollows }
{}

/// What holds in every legal log, also under each pin that it keeps: to whom each pair of the index
/// belongs, that what was indexed stays so, the bounds of the trees and where their leaves lead, that a
/// page has one place, and that a deleted page stays as it was.
pub fn bullets_hold()
    ensures { BulletsHold }
{}

/// What later records leave as it is: a running transaction's documents, what is committed, aborted or
/// dead, the trees and rows where nothing moves or removes them, and that a free page was never
/// changed.
pub fn steady_hold()
    ensures { SteadyHold }
{}

/// A document that is committed and not dead has its slot, is whole, and no other has its slot, also
/// under each pin that the log keeps; a head's deleting xid is 0 or has marked the document. Each commit
/// found the documents of its transaction indexed.
pub fn documents_hold()
    ensures documents { DocumentsHold }
    ensures commits { CommitsHold }
{}

/// What the pages of a legal log say of each other: the metapage of the pending list, whose rows are
/// together and are of indexed documents; which kind is where, so that none is free, deleted or
/// another's; the bounds of trees, whose leaves are in order; and that a page's stamp is the number of
/// the last record that changed it.
pub fn pages_hold()
    ensures { PagesHold }
{}

/// What one record more leaves as it is: a row that it links is its own transaction's; the kinds that
/// move pairs to the trees lose none and change no head and no row; those that remove what is dead
/// take nothing else.
pub fn records_keep()
    ensures { RecordsKeep }
{}
