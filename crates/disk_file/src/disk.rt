// The device over two files.
ghost use Rattle.std.specs.Prelude.{◌≡◌, ◌⊎◌, ◌+◌, ◌<◌, ◌≤◌, length, IfOk, OnOk, OnErr};
ghost use Rattle.std.specs.Io.{ReadsAtMost};
ghost use Rattle.disk_trait.specs.Device.{FileTorn, FileWritten, Reads, Elapses, LeavesNoMore, Follows, Durable, Rose};
ghost use Rattle.disk_trait.specs.Files.{file_bytes, file_limit};
ghost use Rattle.disk_file.specs.FileDisk.{folder_of, faults_of, write_faults_of, HasNoneOpen, IsAtLast, CountsAsking};
ghost use Rattle.disk_file.specs.FileDisk.{CountsWriting};
ghost use Rattle.disk_file.specs.Folder.{left_now, OnlyLooks, Holds};

use crate::counts::Counts;
use crate::host::HostFolder;
use crate::opened::Opened;
use disk_trait::{Disk, Failed, File};

/// No call goes past this place.
const MOST_PLACE: u64 = 1 << 62;

/// The two files of a store in a folder. What it says of them is what its folder says.
///
/// The first call on a file opens it for reading and writing, or makes it where it is absent, and locks it for as long
/// as the device is there; then the folder is synced, so that a file that was made stays after a crash. A file that
/// can't be opened or made, that is a folder, or that another has locked, is a fault of that call; the next call tries
/// again.
///
/// `Failed` means that the system refused the call, and each is counted. A call that a signal interrupts is tried
/// again. A write of no bytes is a fault, and so is a read at a place past 2^62. Where a count is at its last
/// number, each call fails, and the system isn't called.
#[derive(Drop)]
pub struct FileDisk<F: HostFolder> {
    /// The files that a call has opened.
    opened: Opened<F>,
    /// How often it has failed.
    counts: Counts,
}

impl<F: HostFolder> FileDisk<F> {
    /// It opens nothing, and takes no memory.
    pub fn new(folder: F) -> FileDisk<F>
        ensures counts { (faults_of result ≡ 0) × (write_faults_of result ≡ 0) }
        ensures closed { HasNoneOpen result }
        ensures over { result.opened.folder ≡ folder }
    {
        FileDisk {
            opened: Opened::new(folder),
            counts: Counts::new(),
        }
    }

    /// The folder.
    pub fn folder(&self) -> &F
        ensures { result.now ≡ self.now.opened.folder }
    {
        &self.opened.folder
    }
}

impl<F: HostFolder> Disk for FileDisk<F> {
    ghost tells = { F.tells };

    ghost seen = { λ d. (F.state d.opened.folder).seen };

    ghost clock = { λ d. (F.state d.opened.folder).clock };

    ghost image = { λ d. (F.state d.opened.folder).image };

    ghost fault_count = { faults_of };

    ghost write_fault_count = { write_faults_of };

    ghost seen_is_image = { λ d told. F.seen_is_image d.opened.folder told };

    /// It reads until the buffer is full or the file ends.
    fn read(&mut self, file: File, at: u64, buf: &mut [u8]) -> Result<usize, Failed>
        ensures bound { ReadsAtMost result buf.new }
        ensures bytes { F.tells → IfOk result
            (λ n. Reads (file_bytes file (folder_of self.old).seen) at buf.new n) }
        ensures looks { OnlyLooks F.tells (folder_of self.old) (folder_of self.new) }
        ensures counts { CountsAsking self.old self.new result }
        ensures holds { Holds file self.old.opened.log self.old.opened.pages
            self.new.opened.log self.new.opened.pages result }
        ensures reason { F.tells → OnErr result (IsAtLast self.old ⊎ (file_limit < at)
            ⊎ Rose (folder_of self.old).errors (folder_of self.new).errors) }
    {
        if at > MOST_PLACE || self.counts.is_last() {
            return Err(self.counts.fail());
        }
        match self.opened.read(file, at, buf) {
            Ok(n) => Ok(n),
            Err(_) => Err(self.counts.fail()),
        }
    }

    /// Of a write that failed, some bytes may be in the file.
    fn write_at(&mut self, file: File, at: u64, bytes: &[u8]) -> Result<(), Failed>
        requires { at + length bytes.now ≤ file_limit }
        ensures written { F.tells → OnOk result (FileWritten file at bytes.now
            (folder_of self.old).seen (folder_of self.new).seen) }
        ensures crash { F.tells → Follows (FileTorn file at (length bytes.now))
            (left_now (folder_of self.old)) (left_now (folder_of self.new)) }
        ensures time { Elapses (folder_of self.old).clock (folder_of self.new).clock
            (folder_of self.old).image (folder_of self.new).image }
        ensures counts { CountsWriting self.old self.new result }
        ensures holds { Holds file self.old.opened.log self.old.opened.pages
            self.new.opened.log self.new.opened.pages result }
        ensures reason { F.tells → OnErr result (IsAtLast self.old ⊎ (length bytes.now ≡ 0)
            ⊎ Rose (folder_of self.old).errors (folder_of self.new).errors) }
    {
        if bytes.is_empty() || self.counts.is_last() {
            return Err(self.counts.fail_write());
        }
        match self.opened.write(file, at, bytes) {
            Ok(()) => Ok(()),
            Err(_) => Err(self.counts.fail_write()),
        }
    }

    /// It syncs the bytes of the file, and its length.
    fn sync(&mut self, file: File) -> Result<(), Failed>
        ensures durable { F.tells → OnOk result (Durable file
            (file_bytes file (folder_of self.old).seen) (left_now (folder_of self.new))) }
        ensures seen { F.tells → (folder_of self.new).seen ≡ (folder_of self.old).seen }
        ensures crash { F.tells → LeavesNoMore (left_now (folder_of self.old))
            (left_now (folder_of self.new)) }
        ensures time { Elapses (folder_of self.old).clock (folder_of self.new).clock
            (folder_of self.old).image (folder_of self.new).image }
        ensures counts { CountsWriting self.old self.new result }
        ensures holds { Holds file self.old.opened.log self.old.opened.pages
            self.new.opened.log self.new.opened.pages result }
        ensures reason { F.tells → OnErr result (IsAtLast self.old
            ⊎ Rose (folder_of self.old).errors (folder_of self.new).errors) }
    {
        if self.counts.is_last() {
            return Err(self.counts.fail_write());
        }
        match self.opened.sync(file) {
            Ok(()) => Ok(()),
            Err(_) => Err(self.counts.fail_write()),
        }
    }

    /// The length that the system gives.
    fn length(&mut self, file: File) -> Result<u64, Failed>
        ensures length { F.tells → IfOk result
            (λ n. n ≡ length (file_bytes file (folder_of self.old).seen)) }
        ensures looks { OnlyLooks F.tells (folder_of self.old) (folder_of self.new) }
        ensures counts { CountsAsking self.old self.new result }
        ensures holds { Holds file self.old.opened.log self.old.opened.pages
            self.new.opened.log self.new.opened.pages result }
        ensures reason { F.tells → OnErr result (IsAtLast self.old
            ⊎ Rose (folder_of self.old).errors (folder_of self.new).errors) }
    {
        if self.counts.is_last() {
            return Err(self.counts.fail());
        }
        match self.opened.length(file) {
            Ok(n) => Ok(n),
            Err(_) => Err(self.counts.fail()),
        }
    }

    /// The count of all faults.
    fn faults(&self) -> u64 {
        self.counts.faults
    }
}
