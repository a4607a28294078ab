// Why a text is no lexeme.
use crate::LONGEST_LEXEME;
use thiserror::Error;

/// Why a text is no lexeme.
#[derive(Debug, Drop, Error)]
pub enum LexemeError {
    /// The text is empty.
    #[error("an empty lexeme")]
    Empty,
    /// The text has more than 2046 bytes.
    #[error("a lexeme of more than {LONGEST_LEXEME} bytes")]
    TooLong,
    /// Memory ran out.
    #[error("out of memory")]
    OutOfMemory,
}
