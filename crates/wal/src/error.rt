// Why a call on the log is refused.
ghost use Rattle.std.specs.Prelude.{◌≡◌};
ghost use Rattle.wal.specs.declared.error.ReadError.TheVariants as reading;
ghost use Rattle.wal.specs.declared.error.AppendError.TheVariants as appending;

use disk_trait::Failed;
use std::alloc::AllocError;
use thiserror::Error;

/// Why a log is not opened, or its next batch is not given.
#[derive(Clone, Copy, Debug, PartialEq, Eq, Error)]
pub enum ReadError {
    /// The device failed in this call.
    #[error("device")]
    DiskFault,
    /// The file is not a log.
    #[error("not a store")]
    NotAStore,
    /// There was no memory for this call.
    #[error("out of memory")]
    OutOfMemory,
}

impl From<AllocError> for ReadError {
    ghost from_gives = { λ _ e. e ≡ reading.OutOfMemory };

    /// An allocation that failed.
    fn from(_: AllocError) -> Self {
        ReadError::OutOfMemory
    }
}

impl From<Failed> for ReadError {
    ghost from_gives = { λ _ e. e ≡ reading.DiskFault };

    /// A call of the device that failed.
    fn from(_: Failed) -> Self {
        ReadError::DiskFault
    }
}

/// Why an entry does not wait.
#[derive(Clone, Copy, Debug, PartialEq, Eq, Error)]
pub enum AppendError {
    /// The log would pass its limit.
    #[error("log full")]
    LogFull,
    /// A write or a sync failed in an earlier call. The device's count of faults was at this
    /// number after it.
    #[error("down {fault}")]
    Down { fault: u64 },
    /// There was no memory for this call.
    #[error("out of memory")]
    OutOfMemory,
}

impl From<AllocError> for AppendError {
    ghost from_gives = { λ _ e. e ≡ appending.OutOfMemory };

    /// An allocation that failed.
    fn from(_: AllocError) -> Self {
        AppendError::OutOfMemory
    }
}

/// Why what waits does not count.
#[derive(Clone, Copy, Debug, PartialEq, Eq, Error)]
pub enum FlushError {
    /// The device failed in this call.
    #[error("device")]
    DiskFault,
    /// A write or a sync failed in an earlier call. The device's count of faults was at this
    /// number after it.
    #[error("down {fault}")]
    Down { fault: u64 },
}
