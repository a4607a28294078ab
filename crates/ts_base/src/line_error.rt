// Why a dictionary refuses a line, or a text of lines.
ghost use Rattle.std.specs.Prelude.{◌≡◌};
ghost use Rattle.ts_base.specs.LineErrors.{error_at};

use std::alloc::{AllocError, AllocFailed};
use thiserror::Error;

/// Why a dictionary refuses a line.
#[derive(Clone, Copy, Debug, PartialEq, Eq, Error)]
pub enum LineError {
    /// It has no form that this kind of dictionary takes.
    #[error("bad line")]
    Bad,
    /// Of a thesaurus: a sample word is a stop word of the subdictionary.
    #[error("stop word among the sample words")]
    StopInSample,
    /// Of a thesaurus: a sample word is unknown to the subdictionary, and none is a stop word.
    #[error("unknown sample word")]
    UnknownInSample,
    /// Memory ran out.
    #[error("out of memory")]
    Memory,
}

/// Any failure to get memory.
impl From<AllocError> for LineError {
    ghost use Rattle.std.specs.Prelude.{◌≡◌};
    ghost use Rattle.ts_base.specs.declared.line_error.LineError.TheVariants.{Memory};

    ghost from_gives = { λ _ e. e ≡ Memory };

    /// Memory ran out.
    fn from(_error: AllocError) -> LineError {
        LineError::Memory
    }
}

/// Any failure to store a value.
impl<T: Drop> From<AllocFailed<T>> for LineError {
    ghost use Rattle.std.specs.Prelude.{◌≡◌};
    ghost use Rattle.ts_base.specs.declared.line_error.LineError.TheVariants.{Memory};

    ghost from_gives = { λ _ e. e ≡ Memory };

    /// Memory ran out.
    fn from(_error: AllocFailed<T>) -> LineError {
        LineError::Memory
    }
}

impl LineError {
    /// The error of a text whose line of this number is refused for this.
    pub fn at(self, line: usize) -> LinesError
        ensures { result ≡ error_at self line }
    {
        match self {
            LineError::Bad => LinesError::BadLine { line },
            LineError::StopInSample => LinesError::SampleStop { line },
            LineError::UnknownInSample => LinesError::SampleUnknown { line },
            LineError::Memory => LinesError::OutOfMemory,
        }
    }
}

/// Why a dictionary refuses a text of lines. The first line that is refused counts; lines are
/// numbered from 1.
#[derive(Clone, Copy, Debug, PartialEq, Eq, Error)]
pub enum LinesError {
    /// A line has no form that this kind of dictionary takes.
    #[error("bad line {line}")]
    BadLine {
        /// The number of the line.
        line: usize,
    },
    /// Of a thesaurus: a sample word is a stop word of the subdictionary.
    #[error("stop word among the sample words of line {line}")]
    SampleStop {
        /// The number of the line.
        line: usize,
    },
    /// Of a thesaurus: a sample word is unknown to the subdictionary.
    #[error("unknown sample word in line {line}")]
    SampleUnknown {
        /// The number of the line.
        line: usize,
    },
    /// Memory ran out.
    #[error("out of memory")]
    OutOfMemory,
}
