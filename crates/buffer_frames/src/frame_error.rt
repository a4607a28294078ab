// Why a call on pages in memory is refused.
ghost use Rattle.std.specs.Prelude.{◌≡◌};
ghost use Rattle.buffer_frames.specs.declared.frame_error.FrameError.TheVariants.{OutOfMemory};

use std::alloc::AllocError;
use thiserror::Error;

/// Why a call on pages in memory is refused.
#[derive(Clone, Copy, Debug, PartialEq, Eq, Error)]
pub enum FrameError {
    /// The device failed in this call.
    #[error("device")]
    DiskFault,
    /// A write or a sync failed in an earlier call. The device's count of faults was at this
    /// number after it.
    #[error("down {fault}")]
    Down { fault: u64 },
    /// The bytes of this page are no page.
    #[error("bad page {page}")]
    BadPage { page: u32 },
    /// There was no memory for this call, or somebody else holds the page.
    #[error("out of memory")]
    OutOfMemory,
}

impl From<AllocError> for FrameError {
    ghost from_gives = { λ _ e. e ≡ OutOfMemory };

    /// An allocation that failed.
    fn from(_: AllocError) -> Self {
        FrameError::OutOfMemory
    }
}
