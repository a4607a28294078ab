// What a log says of a transaction and of a page.

/// What became of a transaction.
#[derive(Clone, Copy, Debug, PartialEq, Eq)]
pub enum Fate {
    /// It hasn't begun.
    Unused,
    /// It has begun and hasn't ended.
    Running,
    /// It has ended without effect.
    Aborted,
    /// It has committed, as the commit of this number.
    Committed(u32),
}

/// What use a page is of.
#[derive(Clone, Copy, Debug, PartialEq, Eq)]
pub enum PageUse {
    /// No record has changed it.
    Unused,
    /// It is in use.
    Used,
    /// It was deleted by the record of this number.
    Deleted(u64),
}
