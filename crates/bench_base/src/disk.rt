// A device in memory whose calls are watched.
use disk_trait::{Disk, Failed, File, MemoryDisk};

/// What is told of each call of a device but the count of faults.
pub trait Watch {
    /// A call begins, which writes or does not.
    fn begin(&mut self, writes: bool);

    /// It has ended.
    fn end(&mut self);
}

/// A device in memory, and what watches it. It says nothing of what it holds.
#[derive(Drop)]
pub struct WatchedDisk<W: Watch + Drop> {
    /// The device.
    pub disk: MemoryDisk,
    /// What is told of its calls.
    pub watch: W,
}

impl<W: Watch + Drop> Disk for WatchedDisk<W> {
    ghost use Rattle.disk_trait.specs.MemoryDisk.{seen_of, image_of, clock_of, faults_of, write_faults_of};

    ghost tells = { ⊥ };

    ghost seen = { λ d. seen_of d.disk };

    ghost clock = { λ d. clock_of d.disk };

    ghost image = { λ d. image_of d.disk };

    ghost fault_count = { λ d. faults_of d.disk };

    ghost write_fault_count = { λ d. write_faults_of d.disk };

    ghost seen_is_image = { λ d told. absurd told };

    /// As the device in memory does.
    fn read(&mut self, file: File, at: u64, buf: &mut [u8]) -> Result<usize, Failed> {
        self.watch.begin(false);
        let read = self.disk.read(file, at, buf);
        self.watch.end();
        read
    }

    /// As the device in memory does.
    fn write_at(&mut self, file: File, at: u64, bytes: &[u8]) -> Result<(), Failed> {
        self.watch.begin(true);
        let written = self.disk.write_at(file, at, bytes);
        self.watch.end();
        written
    }

    /// As the device in memory does.
    fn sync(&mut self, file: File) -> Result<(), Failed> {
        self.watch.begin(false);
        let synced = self.disk.sync(file);
        self.watch.end();
        synced
    }

    /// As the device in memory does.
    fn length(&mut self, file: File) -> Result<u64, Failed> {
        self.watch.begin(false);
        let length = self.disk.length(file);
        self.watch.end();
        length
    }

    /// As the device in memory does.
    fn faults(&self) -> u64 {
        self.disk.faults()
    }
}
