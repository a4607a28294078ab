// Why a definition is refused.
ghost use Rattle.std.specs.Prelude.{◌≡◌};
ghost use Rattle.ts_config.specs.declared.error.ConfigError.TheVariants.{OutOfMemory};

use std::alloc::AllocError;
use thiserror::Error;

/// Why a definition is refused.
#[derive(Clone, Copy, Debug, PartialEq, Eq, Error)]
pub enum ConfigError {
    /// A dictionary that the definition names isn't there.
    #[error("unknown dictionary")]
    UnknownDictionary,
    /// The name is there already.
    #[error("duplicate name")]
    DuplicateName,
    /// Memory ran out.
    #[error("out of memory")]
    OutOfMemory,
}

impl From<AllocError> for ConfigError {
    ghost from_gives = { λ _ e. e ≡ OutOfMemory };

    /// Memory ran out.
    fn from(_error: AllocError) -> ConfigError {
        ConfigError::OutOfMemory
    }
}
