// What a scan has found.
use page_types::Name;

/// What a scan has found: the names of the snapshot's documents that satisfy the query, by serial; how
/// many heads it read, of how many documents that the judge did not leave out; and how many pages.
#[derive(Drop)]
pub struct Found {
    /// The names, by serial.
    pub names: Vec<Name>,
    /// How many heads were read.
    pub heads_read: u64,
    /// How many documents the judge did not leave out.
    pub candidates: u64,
    /// How many pages were read, each as often as it was held.
    pub pages_read: u64,
}
