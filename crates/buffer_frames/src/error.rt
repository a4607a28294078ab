// Why files are not opened.
ghost use Rattle.std.specs.Prelude.{◌≡◌};
ghost use Rattle.buffer_frames.specs.Inner.Faults.{fault_of_log, fault_of_record};
ghost use Rattle.buffer_frames.specs.declared.error.OpenFault.TheVariants.{NotAStore, DiskFault, OutOfMemory};

use disk_trait::Failed;
use page_types::BadChange;
use record_code::RecordError;
use std::alloc::AllocError;
use thiserror::Error;
use wal::ReadError;

/// Why files are not opened.
#[derive(Clone, Copy, Debug, PartialEq, Eq, Error)]
pub enum OpenFault {
    /// The files are no store.
    #[error("not a store")]
    NotAStore,
    /// The device failed.
    #[error("device")]
    DiskFault,
    /// There was no memory.
    #[error("out of memory")]
    OutOfMemory,
}

impl From<AllocError> for OpenFault {
    ghost from_gives = { λ _ e. e ≡ OutOfMemory };

    fn from(_: AllocError) -> OpenFault {
        OpenFault::OutOfMemory
    }
}

impl From<Failed> for OpenFault {
    ghost from_gives = { λ _ e. e ≡ DiskFault };

    fn from(_: Failed) -> OpenFault {
        OpenFault::DiskFault
    }
}

impl From<BadChange> for OpenFault {
    ghost from_gives = { λ _ e. e ≡ NotAStore };

    fn from(_: BadChange) -> OpenFault {
        OpenFault::NotAStore
    }
}

impl From<RecordError> for OpenFault {
    ghost from_gives = { λ x e. e ≡ fault_of_record x };

    fn from(error: RecordError) -> OpenFault {
        match error {
            RecordError::BadRecord { .. } => OpenFault::NotAStore,
            RecordError::OutOfMemory => OpenFault::OutOfMemory,
        }
    }
}

impl From<ReadError> for OpenFault {
    ghost from_gives = { λ w e. e ≡ fault_of_log w };

    fn from(error: ReadError) -> OpenFault {
        match error {
            ReadError::OutOfMemory => OpenFault::OutOfMemory,
            ReadError::NotAStore => OpenFault::NotAStore,
            ReadError::DiskFault => OpenFault::DiskFault,
        }
    }
}
