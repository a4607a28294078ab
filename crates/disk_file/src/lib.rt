//! The traits of `disk_trait` over the files of a folder, and over a reader and a writer. Each error is counted.
#![tactic(auto)]

mod calls;
mod counts;
mod disk;
mod host;
mod memory;
mod opened;
mod streams;
mod system;

pub use disk::FileDisk;
pub use host::HostFolder;
pub use memory::{MemoryFolder, MemoryHandle};
pub use streams::{StdSink, StdSource};
pub use system::SystemFolder;
