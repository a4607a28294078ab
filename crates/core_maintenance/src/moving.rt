// Steps by which rows move to the trees.
ghost use Rattle.core_state.specs.Steps.{MayBy};
ghost use Rattle.core_maintenance.specs.MovingSteps.{CanShift, CanAddItems, CanAddPostings};
ghost use Rattle.core_maintenance.specs.MovingPages.{ItemsServe, PostingsServe};
ghost use Rattle.core_maintenance.specs.AddedPairs.{AddedItemsAreMain, AddedPostingsAreMain};

/// A step that a session with the right of maintenance shows of what it has seen and holds may be
/// logged by it: items are added under a key of the entry tree, or to a posting tree, and a page of
/// the pending list goes.
pub fn moving_steps_hold()
    ensures shift { MayBy CanShift }
    ensures add_items { MayBy CanAddItems }
    ensures add_postings { MayBy CanAddPostings }
{}

/// A leaf with items added, as the calls of the trees promise it, is what the session shows of the step
/// that leaves it, where the way to it leads there and the items have linked rows.
pub fn moving_pages_serve()
    ensures items { ItemsServe }
    ensures postings { PostingsServe }
{}

/// Once such a step is logged, its items are in the main part under their key.
pub fn added_items_are_main()
    ensures items { AddedItemsAreMain }
    ensures postings { AddedPostingsAreMain }
{}
