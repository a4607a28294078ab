//! The pages of a store in memory over its journal, which is its device, its log and the state of the log's records,
//! from the opening on.
#![tactic(auto)]

mod ask;
mod drawing;
mod error;
mod frame_error;
mod frame_opening;
mod frames;
mod held;
mod home;
mod joining;
mod journal;
mod laws;
mod log_error;
mod making;
mod opening;
mod owed;
mod page_map;
mod pass;
mod records;
mod step;
mod working;

pub use ask::Ask;
pub use error::OpenFault;
pub use frame_error::FrameError;
pub use frames::Frames;
pub use held::Held;
pub use journal::Journal;
pub use laws::{counted_are_one, flushed_stay, no_store_is_none, opens_to_one};
pub use log_error::LogError;
pub use opening::open;
pub use page_map::PageMap;
pub use pass::Pass;
pub use step::{Drawn, Sheet, Step};
