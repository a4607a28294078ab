// What holds of all groups, and of all removals of stop operands.
ghost use Rattle.ts_make.specs.Laws.{GroupsAreOne, GroupsKeepLexemes, GroupsAreNear, WholeTreesStay};
ghost use Rattle.ts_make.specs.Laws.{RemovalKeepsTheRest, RemovalIsSound, VectorAnswerIsOne, JoinAnswerIsOne};
ghost use Rattle.ts_make.specs.Laws.{QueryAnswerIsOne, SketchesHaveNoFewer};

/// Placed lexemes whose positions don't fall have exactly one list of groups.
pub fn groups_are_one()
    ensures { GroupsAreOne }
{}

/// A phrase of groups, and a conjunction of them, has their lexemes in turn.
pub fn groups_keep_lexemes()
    ensures { GroupsKeepLexemes }
{}

/// The distances of a phrase of groups are at most 16384.
pub fn groups_are_near()
    ensures { GroupsAreNear }
{}

/// Of a tree without stop operands nothing is removed.
pub fn whole_trees_stay()
    ensures { WholeTreesStay }
{}

/// What the removal leaves has all the other operands in their order, no more nodes, and distances
/// of at most 16384.
pub fn removal_keeps_the_rest()
    ensures { RemovalKeepsTheRest }
{}

/// What the removal leaves of fewer than 32768 nodes is within the limits of queries.
pub fn removal_is_sound()
    ensures { RemovalIsSound }
{}

/// Running out of memory aside, a text is made one vector by a configuration, or is refused for one
/// cause.
pub fn vector_answer_is_one()
    ensures { VectorAnswerIsOne }
{}

/// Running out of memory aside, the groups of a text are joined to one query in each way, or
/// refused for one cause.
pub fn join_answer_is_one()
    ensures { JoinAnswerIsOne }
{}

/// Running out of memory aside, a query's text is made one query by a configuration, or is refused
/// for one cause.
pub fn query_answer_is_one()
    ensures { QueryAnswerIsOne }
{}

/// With its operands made a tree has no fewer nodes.
pub fn sketches_have_no_fewer()
    ensures { SketchesHaveNoFewer }
{}
