// What holds of all walks.
ghost use Rattle.gin_opclass.specs.Class.{meaning};
ghost use Rattle.core_moments.specs.Law.{MomentsHold, WalksEnd};
ghost use Rattle.core_moments.specs.OpenWalk.{ReadsInTree};
ghost use Rattle.core_moments.specs.OpenLaws.{WaysAreOpen, TreesAreOpen, ListsAreOpen, KeptLie};

use gin_opclass::Meaning;

/// For each class of queries whose judge is sound, in each legal log that keeps a pin: a walk for a query
/// from that pin keeps each document of the pin's snapshot that satisfies the query, and what gets a
/// yes without its vector satisfies it.
pub fn moments_hold<Q, W: Meaning<Q>>()
    ensures { MomentsHold (meaning W.asked W.all W.satisfies W.judged) }
{}

/// A walk from a pin reads no page twice along children and right links, nor along the pending list.
pub fn walks_end()
    ensures { WalksEnd }
{}

/// A walk from a pin through the entry tree that isn't at its end has read no page twice, and not the one
/// that is next. Its pages stay in the tree, and the next one with them, so it has read fewer than there
/// are.
pub fn ways_stay_open()
    ensures { WaysAreOpen ReadsInTree }
{}

/// So it is in a posting tree from its root on, whose leaves may be deleted meanwhile.
pub fn trees_stay_open()
    ensures { TreesAreOpen }
{}

/// So it is along the pending list, whose pages may be deleted with their rows meanwhile.
pub fn lists_stay_open()
    ensures { ListsAreOpen }
{}

/// The page of each item that a walk from a pin keeps is a heap page.
pub fn kept_items_lie<Q, W: Meaning<Q>>()
    ensures { KeptLie (meaning W.asked W.all W.satisfies W.judged) }
{}
