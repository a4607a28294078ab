// Why a query is refused.
ghost use Rattle.std.specs.Prelude.{◌≡◌};
ghost use Rattle.ts_query.specs.declared.error.QueryError.TheVariants.{OutOfMemory};

use std::alloc::AllocError;
use thiserror::Error;

/// Why a query is refused.
#[derive(Clone, Copy, Debug, PartialEq, Eq, Error)]
pub enum QueryError {
    /// The text is outside the grammar, and its first fault is at this offset.
    #[error("syntax error at {at}")]
    Syntax {
        /// The offset of the fault.
        at: usize,
    },
    /// The operator that starts at this offset has a distance above 16384.
    #[error("distance too large at {at}")]
    DistanceTooLarge {
        /// Where the operator starts.
        at: usize,
    },
    /// The tree would have 32768 nodes or more.
    #[error("too many nodes")]
    TooManyNodes,
    /// The lexeme that starts at this offset has more than 2046 bytes.
    #[error("lexeme too long at {at}")]
    LexemeTooLong {
        /// Where the lexeme starts.
        at: usize,
    },
    /// Memory ran out.
    #[error("out of memory")]
    OutOfMemory,
}

impl From<AllocError> for QueryError {
    ghost from_gives = { λ _ e. e ≡ OutOfMemory };

    /// Memory ran out.
    fn from(_error: AllocError) -> QueryError {
        QueryError::OutOfMemory
    }
}
