// What is found leads on, and what may be logged of the pages that are made here.
ghost use Rattle.entry_tree.specs.Logging.{FoundLeadsDown, GrownRootIsLogged, AddedItemsAreLogged};
ghost use Rattle.entry_tree.specs.Logging.{SplitPagesAreLogged};

/// The child that is found on a page is the next page on the way of the key.
pub fn found_leads_down()
    ensures { FoundLeadsDown }
{}

/// A root that has grown, with the page of its content, a leaf with items added, and the pages of a
/// split are what the records of their kinds ask of pages.
pub fn pages_may_be_logged()
    ensures grown { GrownRootIsLogged }
    ensures added { AddedItemsAreLogged }
    ensures split { SplitPagesAreLogged }
{}
