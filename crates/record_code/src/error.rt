// Why bytes are no record.
use thiserror::Error;

/// Why no record was read.
#[derive(Clone, Copy, Debug, PartialEq, Eq, Error)]
pub enum RecordError {
    /// The bytes begin with no record. The first field that is refused begins at this byte, or the record or the bytes
    /// end there within a field.
    #[error("bad record at {at}")]
    BadRecord { at: usize },
    #[error("out of memory")]
    OutOfMemory,
}
