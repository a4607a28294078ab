// What a pass knows. No value of it is made: it is for clauses, where an array is a list of any
// length.
use page_types::{Page, Record};
use std::snapshot::Snapshot;

/// A frame that a pass holds, its page, its bytes, and the page that they encode.
pub struct Note {
    pub frame: u64,
    pub page: u64,
    pub bytes: [u8; 0],
    pub content: Page,
}

/// A page as it was claimed, when the log had this length.
pub struct Reading {
    pub length: u64,
    pub page: u64,
    pub bytes: [u8; 0],
    pub content: Page,
}

/// A pin, and its place.
pub struct PinNote {
    pub place: u64,
    pub commits: u64,
    pub length: u64,
}

/// A redo number, and whether a write of all dirty pages and after it a sync were made since.
pub struct RedoNote {
    pub number: u64,
    pub written: bool,
    pub synced: bool,
}

/// A write-back under way, for a redo number: below the bound, so many pages are passed.
pub struct WalkNote {
    pub number: u64,
    pub bound: u64,
    pub passed: u64,
}

/// So many commits were flushed at this clock value.
pub struct Shown {
    pub clock: u64,
    pub commits: u64,
}

/// What an exchange found in a word.
pub struct Find {
    pub word: u64,
    pub found: u64,
}

/// What a pass knows and holds.
pub struct PassState<J> {
    /// The journal at the opening; none once the pass was joined to another.
    pub start: Option<Snapshot<J>>,
    /// It is the first pass, which has not seen the log yet.
    pub fresh: bool,
    /// The log as it was when the pass last had the journal, the newest record first.
    pub seen: [Record; 0],
    /// How many commits, and how many records, of it were flushed then.
    pub shown: u64,
    pub counted: u64,
    /// What it was shown to be flushed, the newest first.
    pub shows: [Shown; 0],
    pub floor: u64,
    pub since: u64,
    /// By how much the device's counts rose while it had the journal.
    pub faults: u64,
    pub write_faults: u64,
    /// The device's count of faults when it last had the journal.
    pub count: u64,
    /// The snapshot of its last statement.
    pub snapshot: u64,
    pub pin: Option<PinNote>,
    /// The log's length at its last pin, and what it read since, the oldest first.
    pub from: u64,
    pub readings: [Reading; 0],
    /// The frames that it holds, the newest claim first.
    pub frames: [Note; 0],
    /// The journal as it was claimed, where the pass has it.
    pub journal: Option<J>,
    /// The numbers of the records that it logged.
    pub own: [u64; 0],
    /// Its xids, and those of them that were begun since the opening.
    pub xids: [u64; 0],
    pub begun: [u64; 0],
    /// The log's length when it got the right of maintenance, where it has it.
    pub work: Option<u64>,
    pub redo: Option<RedoNote>,
    pub walk: Option<WalkNote>,
    /// How many passes it may still become; all passes together have 16.
    pub room: u64,
    /// What each try found, and in which word, the newest first.
    pub finds: [Find; 0],
    /// The logs that it and those that it joined had seen when it joined them.
    pub met: [[Record; 0]; 0],
}
