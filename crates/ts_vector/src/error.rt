// Why a vector is refused.
use thiserror::Error;

/// Why a vector is refused.
#[derive(Debug, Drop, Error, PartialEq, Eq)]
pub enum VectorError {
    /// The text is outside the grammar.
    #[error("syntax error at {at}")]
    Syntax {
        /// The offset of its first fault.
        at: usize,
    },
    /// A lexeme of the text has more than 2046 bytes.
    #[error("lexeme too long at {at}")]
    LexemeTooLong {
        /// Where the first such lexeme starts.
        at: usize,
    },
    /// The content isn't below the limit.
    #[error("vector of {bytes} bytes")]
    VectorTooLarge {
        /// The size of the content.
        bytes: usize,
    },
    /// The bytes are no vector's encoding.
    #[error("bad bytes at {at}")]
    BadBytes {
        /// The first byte of the first field that is wrong, or the number of bytes where they end too early.
        at: usize,
    },
    /// Memory ran out.
    #[error("out of memory")]
    OutOfMemory,
}
