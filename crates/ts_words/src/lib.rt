//! Stop lists, and the dictionary `simple`.
#![tactic(auto)]

mod laws;
mod simple;
mod stops;

pub use laws::lines_have_one_reading;
pub use simple::Simple;
pub use stops::StopList;
