// Steps by which dead documents leave the index and their pages.
ghost use Rattle.core_state.specs.Steps.{MayBy};
ghost use Rattle.core_vacuum.specs.VacuumSteps.{CanRemoveItems, CanDeletePost, CanDropPage, CanFreeSlots};

/// A step that a session with the right of maintenance shows of what it has seen and holds may be
/// logged by it: items leave a leaf, an empty leaf of a posting tree is deleted, a page goes off a
/// chain, and slots become free.
pub fn vacuum_steps_hold()
    ensures remove_items { MayBy CanRemoveItems }
    ensures delete_post { MayBy CanDeletePost }
    ensures drop_page { MayBy CanDropPage }
    ensures free_slots { MayBy CanFreeSlots }
{}
