// Which leaves have what.
ghost use Rattle.core_vacuum.specs.Leaves.{LeavesHold};

/// In a legal log each key of the entry tree is on one leaf alone, which its bounds say; so is each item
/// of a posting tree. The ways of the least key and item lead to the first leaves.
pub fn leaves_stand()
    ensures { LeavesHold }
{}
