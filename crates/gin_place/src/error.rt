// Why items are not put under their key.
ghost use Rattle.std.specs.Prelude.{◌≡◌};
ghost use Rattle.gin_place.specs.Inner.Refusals.{frame_refusal, log_refusal};
ghost use Rattle.gin_place.specs.declared.error.PlaceError.TheVariants.{OutOfMemory};

use buffer_frames::{FrameError, LogError};
use std::alloc::AllocError;
use thiserror::Error;

/// Why items are not put under their key.
#[derive(Clone, Copy, Debug, Error)]
pub enum PlaceError {
    /// No page is left for the trees.
    #[error("store full")]
    StoreFull,
    /// A page is not read, or a record not logged: the device failed in this call.
    #[error("device")]
    DiskFault,
    /// The log would pass its limit with the next record; those before it stay.
    #[error("log full")]
    LogFull,
    /// No record is logged: a write or a sync failed in an earlier call, after which the device's count
    /// of faults was at this number.
    #[error("down {fault}")]
    Down { fault: u64 },
    /// This page is not what the trees have there.
    #[error("bad page {page}")]
    BadPage { page: u32 },
    /// There was no memory for this call, or somebody else holds a page that it needs.
    #[error("out of memory")]
    OutOfMemory,
}

impl From<AllocError> for PlaceError {
    ghost from_gives = { λ _ e. e ≡ OutOfMemory };

    /// An allocation that failed.
    fn from(_: AllocError) -> Self {
        PlaceError::OutOfMemory
    }
}

impl From<FrameError> for PlaceError {
    ghost from_gives = { λ w e. e ≡ frame_refusal w };

    /// Why a page is not held.
    fn from(error: FrameError) -> Self {
        match error {
            FrameError::Down { fault } => PlaceError::Down { fault },
            FrameError::DiskFault => PlaceError::DiskFault,
            FrameError::BadPage { page } => PlaceError::BadPage { page },
            FrameError::OutOfMemory => PlaceError::OutOfMemory,
        }
    }
}

impl From<LogError> for PlaceError {
    ghost from_gives = { λ w e. e ≡ log_refusal w };

    /// Why a record is not logged. None of these draws an xid.
    fn from(error: LogError) -> Self {
        match error {
            LogError::LogFull => PlaceError::LogFull,
            LogError::Down { fault } => PlaceError::Down { fault },
            LogError::DiskFault => PlaceError::DiskFault,
            LogError::XidsSpent | LogError::OutOfMemory => PlaceError::OutOfMemory,
        }
    }
}
