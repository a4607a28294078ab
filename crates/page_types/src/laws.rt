// What holds of all pages, item lists and records.
ghost use Rattle.page_types.specs.Laws.{EncodingTellsPage, EncodingHasParts, DeltaLeadsToPage, ItemsTellList};
ghost use Rattle.page_types.specs.Laws.{ItemsHaveList, ReadingTellsItems, EncodingTellsRecord, EncodingTellsRecords};

/// Two pages never share an encoding; where its parts are; what deltas make of it.
pub fn pages_are_told()
    ensures one { EncodingTellsPage }
    ensures parts { EncodingHasParts }
    ensures deltas { DeltaLeadsToPage }
{}

/// Two item lists never have the same items, rising items have a list, and only lists are read.
pub fn items_are_told()
    ensures one { ItemsTellList }
    ensures all { ItemsHaveList }
    ensures read { ReadingTellsItems }
{}

/// A record's encoding begins no other's, so records one after another have one reading.
pub fn records_are_told()
    ensures one { EncodingTellsRecord }
    ensures row { EncodingTellsRecords }
{}
