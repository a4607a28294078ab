// Why a run stops.
ghost use Rattle.std.specs.Prelude.{◌≡◌};
ghost use Rattle.shell_run.specs.Inner.Statuses.{stop_number, stop_at};
ghost use Rattle.shell_run.specs.declared.error.Stop.TheVariants.{OutOfMemory};

use engine::OpenFault;
use std::alloc::AllocError;
use thiserror::Error;

/// Why a run stops before its end.
#[derive(Clone, Copy, Debug, PartialEq, Eq, Error)]
pub enum Stop {
    /// The source failed.
    #[error("source")]
    SourceFault,
    /// The script has more bytes than a script may have.
    #[error("script too long")]
    TooLong,
    /// The files are no store.
    #[error("not a store")]
    NotAStore,
    /// The device failed in the opening.
    #[error("device")]
    DiskFault,
    /// The sink failed.
    #[error("sink")]
    SinkFault,
    /// Memory ran out.
    #[error("out of memory")]
    OutOfMemory,
}

impl Stop {
    /// The exit status that says of it.
    pub fn status(&self) -> u8
        ensures { result ≡ stop_number self.now }
    {
        match self {
            Stop::SourceFault => 6,
            Stop::TooLong => 8,
            Stop::NotAStore => 4,
            Stop::DiskFault => 3,
            Stop::SinkFault => 7,
            Stop::OutOfMemory => 5,
        }
    }
}

impl From<AllocError> for Stop {
    ghost from_gives = { λ _ e. e ≡ OutOfMemory };

    fn from(_: AllocError) -> Stop {
        Stop::OutOfMemory
    }
}

impl From<OpenFault> for Stop {
    ghost from_gives = { λ f e. e ≡ stop_at f };

    fn from(fault: OpenFault) -> Stop {
        match fault {
            OpenFault::NotAStore => Stop::NotAStore,
            OpenFault::DiskFault => Stop::DiskFault,
            OpenFault::OutOfMemory => Stop::OutOfMemory,
        }
    }
}
