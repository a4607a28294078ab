// Why a store is not opened, and why it refuses a call.
ghost use Rattle.std.specs.Prelude.{◌≡◌};
ghost use Rattle.engine.specs.Inner.Refusals.{log_refusal, frame_refusal, place_refusal};
ghost use Rattle.engine.specs.declared.error.DbError.TheVariants.{OutOfMemory};

use buffer_frames::{FrameError, LogError, OpenFault};
use gin_place::PlaceError;
use std::alloc::AllocError;
use thiserror::Error;

/// A store that is not opened: its device, and why.
#[derive(Drop)]
pub struct Unopened<D> {
    /// The device of the store.
    pub store: D,
    /// Why it is not opened.
    pub why: OpenFault,
}

/// Why a store refuses a call.
#[derive(Clone, Copy, Debug, PartialEq, Eq, Error)]
pub enum DbError {
    /// No document of this name is in the statement's snapshot.
    #[error("no document")]
    NoDocument,
    /// This transaction deletes the document: it runs, or has committed since the statement began.
    #[error("conflict {xid}")]
    Conflict { xid: u32 },
    /// There is no page for the document, or for the trees of the index.
    #[error("store full")]
    StoreFull,
    /// The log would pass its limit.
    #[error("log full")]
    LogFull,
    /// The next xid isn't below its bound.
    #[error("transactions spent")]
    XidsSpent,
    /// A write or a sync failed in an earlier call. The device's count of faults was at this
    /// number after it.
    #[error("down {fault}")]
    Down { fault: u64 },
    /// The device failed in this call.
    #[error("device")]
    DiskFault,
    /// The bytes of this page are no page, or one of another kind than the one sought.
    #[error("bad page {page}")]
    BadPage { page: u32 },
    /// Memory ran out.
    #[error("out of memory")]
    OutOfMemory,
}

impl From<AllocError> for DbError {
    ghost from_gives = { λ _ e. e ≡ OutOfMemory };

    fn from(_: AllocError) -> DbError {
        DbError::OutOfMemory
    }
}

impl From<LogError> for DbError {
    ghost from_gives = { λ w e. e ≡ log_refusal w };

    fn from(error: LogError) -> DbError {
        match error {
            LogError::LogFull => DbError::LogFull,
            LogError::XidsSpent => DbError::XidsSpent,
            LogError::Down { fault } => DbError::Down { fault },
            LogError::DiskFault => DbError::DiskFault,
            LogError::OutOfMemory => DbError::OutOfMemory,
        }
    }
}

impl From<FrameError> for DbError {
    ghost from_gives = { λ w e. e ≡ frame_refusal w };

    fn from(error: FrameError) -> DbError {
        match error {
            FrameError::Down { fault } => DbError::Down { fault },
            FrameError::DiskFault => DbError::DiskFault,
            FrameError::BadPage { page } => DbError::BadPage { page },
            FrameError::OutOfMemory => DbError::OutOfMemory,
        }
    }
}

impl From<PlaceError> for DbError {
    ghost from_gives = { λ w e. e ≡ place_refusal w };

    fn from(error: PlaceError) -> DbError {
        match error {
            PlaceError::StoreFull => DbError::StoreFull,
            PlaceError::LogFull => DbError::LogFull,
            PlaceError::Down { fault } => DbError::Down { fault },
            PlaceError::DiskFault => DbError::DiskFault,
            PlaceError::BadPage { page } => DbError::BadPage { page },
            PlaceError::OutOfMemory => DbError::OutOfMemory,
        }
    }
}
