// Why bytes are no item list.
use thiserror::Error;

/// The one refusal.
#[derive(Clone, Copy, Debug, PartialEq, Eq, Error)]
pub enum ListError {
    /// The bytes are no item list.
    #[error("bad list at byte {at}")]
    BadList {
        /// The first byte of the first varbyte that is refused, or the length where the bytes end within one.
        at: usize,
    },
}
