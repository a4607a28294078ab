// What is found leads on, what may be logged of the pages that are made here, and that pages without room are large.
ghost use Rattle.posting_tree.specs.Logging.{FoundLeadsDown, FirstLeafIsLogged, AddedPostingsAreLogged};
ghost use Rattle.posting_tree.specs.Logging.{GrownRootIsLogged, SplitPagesAreLogged};
ghost use Rattle.posting_tree.specs.Full.{FullLeafIsLarge, FullInnerIsLarge};

/// The child that is found on a page is the next page on the way of the item.
pub fn found_leads_down()
    ensures { FoundLeadsDown }
{}

/// The first leaf of a tree, a leaf with items added, a root that has grown, with the page of its content, and the
/// pages of a split are what the records of their kinds ask of pages.
pub fn pages_may_be_logged()
    ensures first { FirstLeafIsLogged }
    ensures added { AddedPostingsAreLogged }
    ensures grown { GrownRootIsLogged }
    ensures split { SplitPagesAreLogged }
{}

/// A leaf whose list takes none of some items, and an inner page without room for a child, can be split, and can grow
/// where they are roots.
pub fn full_pages_are_large()
    ensures leaf { FullLeafIsLarge }
    ensures inner { FullInnerIsLarge }
{}
