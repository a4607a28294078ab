// Why bytes are no page.
use thiserror::Error;

/// Why no page was read.
#[derive(Clone, Copy, Debug, PartialEq, Eq, Error)]
pub enum PageError {
    /// The bytes are no page. The first field that is refused begins at this byte, or the body or the bytes end there
    /// within a field.
    #[error("bad page at {at}")]
    BadPage {
        /// The place.
        at: usize,
    },
    /// Memory ran out.
    #[error("out of memory")]
    OutOfMemory,
}
