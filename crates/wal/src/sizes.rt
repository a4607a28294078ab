// The sizes of a log and of its parts, in bytes.

/// The header: the store's commit byte and the name of the format.
pub const HEADER_BYTES: usize = 17;

/// A log without a batch: the header and the first batch's commit byte.
pub const CREATED_BYTES: u64 = 18;

/// What a batch has before its bytes: room for its length.
pub const LENGTH_BYTES: usize = 4;

/// The commit byte of a batch and its length.
pub const FRAME_BYTES: usize = 5;

/// A batch has fewer bytes, so that its length is in four.
pub const BATCH_LIMIT: u64 = 1 << 32;

/// Where so many bytes wait, a flush comes before the next append. No entry has more.
pub const MOST_WAITING: usize = 4_194_304;

/// The most bytes that a log may be opened for.
pub const LOG_LIMIT: u64 = 1 << 40;
