// Why a change is refused.
use thiserror::Error;

/// The delta's start, cut or new length is out of range, or the page's used length is.
#[derive(Clone, Copy, Debug, PartialEq, Eq, Error)]
#[error("bad change")]
pub struct BadChange;
