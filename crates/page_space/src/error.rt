// Why no page can be taken.
use thiserror::Error;

/// The refusal has the number 1.
#[derive(Clone, Copy, Debug, PartialEq, Eq, Error)]
pub enum SpaceError {
    /// Each page that the store may have is in use, or was deleted too late.
    #[error("store full")]
    StoreFull,
}
