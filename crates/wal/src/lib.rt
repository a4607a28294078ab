//! The write-ahead log: batches of bytes, each of which counts from its flush on.
//!
//! Byte 0 of the file is the store's commit byte, bytes 1 to 16 the text `GINSH STORE 0001`, byte
//! 17 the commit byte of the first batch.
//! A commit byte is set where it is 1, and else unset. A batch is its commit byte, its length as a
//! u32 (little end first, at least 1),
//! so many bytes, and the next commit byte.
#![tactic(auto)]

mod batch;
mod beginning;
mod creating;
mod error;
mod laws;
mod log;
mod log_batches;
mod sizes;

pub use error::{AppendError, FlushError, ReadError};
pub use laws::{never_refused, one_list};
pub use log::Wal;
pub use sizes::{LOG_LIMIT, MOST_WAITING};
