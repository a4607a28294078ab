//! The outside of the store: a source, a sink and a device, each with a count of its faults.
#![tactic(auto)]

mod device;
mod disk;
mod memory;
mod past;
mod schedule;
mod sink;
mod source;
mod step;
mod stream;

pub use device::{Disk, Failed, File};
pub use disk::MemoryDisk;
pub use sink::MemorySink;
pub use source::MemorySource;
pub use step::write_and_sync;
pub use stream::{Sink, Source};
