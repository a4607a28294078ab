// What may be logged of the pages that are made here.
ghost use Rattle.pending_list.specs.Logging.{AddedRowIsLogged, PackedPageIsLogged};
ghost use Rattle.pending_list.specs.Logging.{PackedRowsHaveAll, PackedPagesFollow};

/// A pending page with a row more, and a page of a packing, are what their records ask of a page;
/// the pages of a packing have just the document's keys, each page those before the next one's.
pub fn pages_may_be_logged()
    ensures added { AddedRowIsLogged }
    ensures packed { PackedPageIsLogged }
    ensures all { PackedRowsHaveAll }
    ensures follow { PackedPagesFollow }
{}
