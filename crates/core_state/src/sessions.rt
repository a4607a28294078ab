// What a session may conclude of a log of which it has seen a part, and what it may log.
ghost use Rattle.core_state.specs.Steps.{CanBegin, CanCommit, CanAbort, CanPlace, CanPutOverflow, CanMark};
ghost use Rattle.core_state.specs.Steps.{MayBy, IdleHolds, NotDrawnHolds, OwnHolds, PinHolds, RightHolds};
ghost use Rattle.core_state.specs.PendingSteps.{CanPutPending, CanAddRow, CanLinkPending};
ghost use Rattle.core_state.specs.PendingSteps.{LinkedIsIndexed, PutIsInFront, OthersKeepRows};
ghost use Rattle.core_state.specs.Logged.{LegalKeepsNow, FlushKeepsNow, PinIsTaken, LoggedStepsHold, AbortOfAllHolds};

/// In each log that is allowed to a session an own transaction's documents are as they were seen,
/// what was there under its pin is there, and under the right of maintenance the index is as it was.
/// Any log may follow for a session that has begun nothing; a new transaction has no documents.
pub fn views_hold()
    ensures own { OwnHolds }
    ensures pin { PinHolds }
    ensures right { RightHolds }
    ensures idle { IdleHolds }
    ensures not_drawn { NotDrawnHolds }
{}

/// A step of a transaction, or on its documents, that a session shows of what it has seen and holds
/// may be logged by it.
pub fn steps_hold()
    ensures begin { MayBy CanBegin }
    ensures commit { MayBy CanCommit }
    ensures abort { MayBy CanAbort }
    ensures place { MayBy CanPlace }
    ensures put_overflow { MayBy CanPutOverflow }
    ensures mark { MayBy CanMark }
{}

/// So may a step that puts rows of an own document, adds one to the pending list or links those that
/// it put. Behind such a row or link the document is indexed; behind a page of rows its head leads to it
/// and to those before. Records of other kinds than AddRow, LinkPending and Shift keep the linked rows.
pub fn pending_steps_hold()
    ensures put_pending { MayBy CanPutPending }
    ensures add_row { MayBy CanAddRow }
    ensures link_pending { MayBy CanLinkPending }
    ensures indexed { LinkedIsIndexed }
    ensures in_front { PutIsInFront }
    ensures others { OthersKeepRows }
{}

/// A legal log keeps the pin that a statement would take, also once more commits are flushed; and it
/// is allowed to a session with that pin.
pub fn pins_hold()
    ensures legal { LegalKeepsNow }
    ensures flush { FlushKeepsNow }
    ensures taken { PinIsTaken }
{}

/// A step that a session may log, and of which it shows what it owes, leaves the log legal and keeps
/// every pin; the log is then allowed to it, and to each session beside it. So does the abort of all
/// that ran, where none has begun since.
pub fn logged_steps_hold()
    ensures steps { LoggedStepsHold }
    ensures abort_of_all { AbortOfAllHolds }
{}
