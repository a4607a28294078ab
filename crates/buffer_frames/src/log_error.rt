// Why a call on a journal is refused.
ghost use Rattle.std.specs.Prelude.{◌≡◌};
ghost use Rattle.buffer_frames.specs.Inner.Refusals.{append_refusal, flush_refusal};
ghost use Rattle.buffer_frames.specs.declared.log_error.LogError.TheVariants.{OutOfMemory};

use std::alloc::AllocError;
use thiserror::Error;
use wal::{AppendError, FlushError};

/// Why a call on a journal is refused.
#[derive(Clone, Copy, Debug, PartialEq, Eq, Error)]
pub enum LogError {
    /// The device failed in this call.
    #[error("device")]
    DiskFault,
    /// The log would pass its limit.
    #[error("log full")]
    LogFull,
    /// A write or a sync failed in an earlier call. The device's count of faults was at this
    /// number after it.
    #[error("down {fault}")]
    Down { fault: u64 },
    /// There is no xid more.
    #[error("xids spent")]
    XidsSpent,
    /// There was no memory for this call.
    #[error("out of memory")]
    OutOfMemory,
}

impl From<AllocError> for LogError {
    ghost from_gives = { λ _ e. e ≡ OutOfMemory };

    /// An allocation that failed.
    fn from(_: AllocError) -> Self {
        LogError::OutOfMemory
    }
}

impl From<AppendError> for LogError {
    ghost from_gives = { λ x e. e ≡ append_refusal x };

    /// Why records do not wait.
    fn from(error: AppendError) -> Self {
        match error {
            AppendError::LogFull => LogError::LogFull,
            AppendError::Down { fault } => LogError::Down { fault },
            AppendError::OutOfMemory => LogError::OutOfMemory,
        }
    }
}

impl From<FlushError> for LogError {
    ghost from_gives = { λ x e. e ≡ flush_refusal x };

    /// Why what waits does not count.
    fn from(error: FlushError) -> Self {
        match error {
            FlushError::DiskFault => LogError::DiskFault,
            FlushError::Down { fault } => LogError::Down { fault },
        }
    }
}
