//! Which page a store takes where it wants a new one.
#![tactic(auto)]

mod error;
mod laws;
mod taking;

pub use error::SpaceError;
pub use laws::taken_is_new;
pub use taking::take;
