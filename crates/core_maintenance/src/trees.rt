// Steps by which the trees of the index grow, and what their entries name then.
ghost use Rattle.core_state.specs.Steps.{MayBy};
ghost use Rattle.core_maintenance.specs.TreeSteps.{CanSplit, CanGrowRoot, CanMakeTree};
ghost use Rattle.core_maintenance.specs.TreeSteps.{NamesStay, MadeTreeIsNamed};
ghost use Rattle.core_maintenance.specs.TreePages.{SplitPagesServe, GrownPagesServe, TreePagesServe};

/// A step that a session shows of what it has seen and holds may be logged by it: a page is split, a
/// root grows, and an entry's list becomes a tree. Each may be of the entry tree or of a posting tree,
/// where both have it.
pub fn tree_steps_hold()
    ensures split { MayBy CanSplit }
    ensures grow_root { MayBy CanGrowRoot }
    ensures make_tree { MayBy CanMakeTree }
{}

/// What an entry names stays named where items come into the trees and these grow, and a tree that is
/// made is named.
pub fn tree_names_hold()
    ensures stay { NamesStay }
    ensures made { MadeTreeIsNamed }
{}

/// Pages that have their part of the rule of their record, as the calls of the trees promise it of
/// what they answer, are what a session shows of a step that leaves them.
pub fn tree_pages_serve()
    ensures split { SplitPagesServe }
    ensures grown { GrownPagesServe }
    ensures made { TreePagesServe }
{}
