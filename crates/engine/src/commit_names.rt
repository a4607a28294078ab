// The names of a commit.
use page_types::Name;

/// The names that a commit deleted, and those that it inserted.
#[derive(Debug, Drop)]
pub struct CommitNames {
    /// The names that it deleted.
    pub deleted: Vec<Name>,
    /// The names that it inserted.
    pub inserted: Vec<Name>,
}
