// The sizes of a store.

/// The bounds that a store is opened with.
#[derive(Clone, Copy, Debug, PartialEq, Eq)]
pub struct Settings {
    /// The most pages of the page file, from 16 to 1,048,576. A page has 8192 bytes.
    pub pages: u32,
    /// How many pages are held in memory, from 64 to 65,536.
    pub frames: u32,
    /// How many pending pages there may be before they are cleaned up, from 1 to 1,048,576.
    pub pending: u32,
    /// The most bytes of the log file, from 65,536 to 2^40.
    pub log_limit: u64,
    /// Xids are below this, from 2 to 2^24.
    pub xid_limit: u32,
}
