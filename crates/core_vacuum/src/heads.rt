// Heads of dead documents.
ghost use Rattle.core_vacuum.specs.DeadHeads.{DeadHeadsHold, RightKeepsDeadHeads, MoreAreDead};

/// A dead document keeps its slot over records of all kinds but those that take pages off its chains and
/// free its slot; so it does in each log that is allowed to a session with the right of maintenance. What
/// is dead by some commits is so by more.
pub fn dead_heads_stay()
    ensures records { DeadHeadsHold }
    ensures right { RightKeepsDeadHeads }
    ensures more { MoreAreDead }
{}
