// The ways down the trees.
ghost use Rattle.core_maintenance.specs.Leading.{WaysHold};

/// In a legal log the way of a key leads on to a leaf that may have it, and so does that of an item in
/// a posting tree; and it has less steps than there are pages.
pub fn ways_lead()
    ensures { WaysHold }
{}
