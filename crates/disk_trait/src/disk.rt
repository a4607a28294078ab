// The device over two files in memory.
ghost use Rattle.std.specs.Prelude.{◌≡◌, ◌⊎◌, ◌↔◌, ◌+◌, ◌-◌, ◌^◌, ◌<◌, ◌≤◌, min, length, take, drop, [], true, false};
ghost use Rattle.std.specs.Prelude.{OnOk, OnErr, IfOk, IsErr, IsOk};
ghost use Rattle.std.specs.Io.{ReadsAtMost};
ghost use Rattle.disk_trait.specs.Events.{newest};

use crate::device::{Disk, Failed, File};
use crate::memory::MemoryFile;
use crate::schedule::Schedule;
use std::alloc::{AllocError, Global};

/// It starts empty. The calls in its list fail, and so does a write or a sync that finds no memory.
#[derive(Drop)]
pub struct MemoryDisk {
    /// Where the files find memory.
    alloc: Global,
    /// The calls, of which the number is the clock.
    schedule: Schedule,
    /// How many writes and syncs have failed.
    write_faults: u64,
    /// The file `Log`.
    log: MemoryFile,
    /// The file `Pages`.
    pages: MemoryFile,
    ghost log_past: { newest log.events.items ≤ schedule.calls },
    ghost pages_past: { newest pages.events.items ≤ schedule.calls },
}

impl MemoryDisk {
    ghost use Rattle.disk_trait.specs.Schedules.{IsUnused, HasCounted, HasRisen, MustFail};
    ghost use Rattle.disk_trait.specs.Inner.Kept.{HasBegunCall, HasWrittenTo, HasSyncedFile, HasKept, IsIdle, is_done};
    ghost use Rattle.disk_trait.specs.Inner.Kept.{KeepsWrite, KeepsSync, Tries, SameFiles};
    ghost use Rattle.disk_trait.specs.Files.{Files, file_bytes, file_limit};
    ghost use Rattle.disk_trait.specs.MemoryDisk.{seen_of, image_of, schedule_of, clock_of, write_faults_of};
    ghost use Rattle.disk_trait.specs.MemoryDisk.{with_fails, OnlyAsks};
    ghost use Rattle.disk_trait.specs.Device.{last_count, HasCause, CountsFailures};

    /// Two empty files. The calls in the list fail.
    pub fn new(alloc: Global, fails: Vec<u64>) -> MemoryDisk
        ensures empty { ((seen_of result).log ≡ []) × ((seen_of result).pages ≡ []) }
        ensures settled { (c : Files) → image_of result 0 c → c ≡ seen_of result }
        ensures unused { IsUnused (schedule_of result) fails.items × (write_faults_of result ≡ 0) }
    {
        MemoryDisk {
            alloc,
            schedule: Schedule::new(fails),
            write_faults: 0,
            log: MemoryFile::new(alloc, Vec::new(alloc), Vec::new(alloc)),
            pages: MemoryFile::new(alloc, Vec::new(alloc), Vec::new(alloc)),
        }
    }

    /// How many calls there were, which is its clock.
    pub fn calls(&self) -> u64
        ensures { result ≡ clock_of self.now }
    {
        self.schedule.calls
    }

    /// Another list of the calls that fail.
    pub fn set_fails(&mut self, fails: Vec<u64>)
        ensures { self.new ≡ with_fails self.old fails }
    {
        self.schedule.fails = fails;
    }

    /// One of the images that a crash at this moment may have left, as a device of its own.
    /// 0 leaves each range that was not synced as it was at the last sync, with the least length;
    /// 1 leaves what was written; 2 fills the ranges with the byte 1, any other with bytes drawn
    /// from it.
    pub fn image(&self, alloc: Global, moment: u64, pick: u64) -> Result<MemoryDisk, AllocError>
        requires { moment ≤ clock_of self.now }
        ensures image { IfOk result (λ d. image_of self.now moment (seen_of d)) }
        ensures settled { IfOk result (λ d. (c : Files) → image_of d 0 c → c ≡ seen_of d) }
        ensures unused { IfOk result (λ d. IsUnused (schedule_of d) [] × (write_faults_of d ≡ 0)) }
    {
        let log = self.log.image(alloc, moment, pick)?;
        let pages = self.pages.image(alloc, moment, pick)?;
        Ok(MemoryDisk {
            alloc,
            schedule: Schedule::new(Vec::new(alloc)),
            write_faults: 0,
            log: MemoryFile::settled(alloc, log)?,
            pages: MemoryFile::settled(alloc, pages)?,
        })
    }

    /// Keeps a write. One that is not done is in what a crash may leave, and in no read.
    fn keep_write(
        &mut self,
        file: File,
        at: usize,
        bytes: &[u8],
        done: bool,
    ) -> Result<(), AllocError>
        requires { at + length bytes.now ≤ file_limit }
        ensures ok { OnOk result (HasWrittenTo file at bytes.now done self.old self.new) }
        ensures err { OnErr result (HasKept self.old self.new) }
    {
        match file {
            File::Log => self
                .log
                .write(self.alloc, self.schedule.calls, at, bytes, done),
            File::Pages => self
                .pages
                .write(self.alloc, self.schedule.calls, at, bytes, done),
        }
    }

    /// Keeps a sync.
    fn keep_sync(&mut self, file: File) -> Result<(), AllocError>
        ensures ok { OnOk result (HasSyncedFile file self.old self.new) }
        ensures err { OnErr result (HasKept self.old self.new) }
    {
        match file {
            File::Log => self.log.sync(self.schedule.calls),
            File::Pages => self.pages.sync(self.schedule.calls),
        }
    }

    /// Counts a call that reads.
    fn begin_read(&mut self) -> Result<(), Failed>
        ensures idle { IsIdle self.old self.new }
        ensures seen { seen_of self.new ≡ seen_of self.old }
        ensures cause { HasCause (schedule_of self.old).faults
            (schedule_of self.new).faults result }
        ensures writes { write_faults_of self.new ≡ write_faults_of self.old }
        ensures counted { HasCounted (schedule_of self.old) (schedule_of self.new) result }
        ensures fails { IsErr result ↔ MustFail (schedule_of self.old) }
    {
        if self.schedule.begin() {
            return Ok(());
        }
        self.schedule.fail();
        Err(Failed)
    }

    /// Counts a call that reads. A crash leaves what it could have left before.
    fn start(&mut self) -> Result<(), Failed>
        ensures { OnlyAsks self.old self.new result }
    {
        self.begin_read()
    }

    /// The bytes of a file from a place on, as many as fit.
    fn read_of(&self, file: File, at: u64, buf: &mut [u8]) -> usize
        ensures count { result
            ≡ min (length buf.old) (length (file_bytes file (seen_of self.now)) - at) }
        ensures len { length buf.new ≡ length buf.old }
        ensures bytes { take result buf.new
            ≡ take result (drop at (file_bytes file (seen_of self.now))) }
    {
        match file {
            File::Log => self.log.read(at, buf),
            File::Pages => self.pages.read(at, buf),
        }
    }

    /// The length of a file.
    fn len_of(&self, file: File) -> u64
        ensures { result ≡ length (file_bytes file (seen_of self.now)) }
    {
        match file {
            File::Log => self.log.len(),
            File::Pages => self.pages.len(),
        }
    }

    /// Counts a call that writes, and says whether it goes on.
    fn begin_write(&mut self) -> bool
        ensures { HasBegunCall self.old self.new result }
    {
        self.schedule.begin() && self.write_faults < u64::MAX
    }

    /// Whether it was done.
    fn try_write(&mut self, file: File, at: usize, bytes: &[u8]) -> Result<bool, AllocError>
        requires { at + length bytes.now ≤ file_limit }
        ensures keeps { KeepsWrite file at bytes.now self.old self.new result }
        ensures counts { Tries self.old self.new result }
    {
        let before = self.schedule.calls;
        let goes = self.begin_write();
        if self.schedule.calls == before {
            return Ok(false);
        }
        match self.keep_write(file, at, bytes, goes) {
            Ok(()) => Ok(goes),
            Err(e) => Err(e),
        }
    }

    /// Whether it was done.
    fn try_sync(&mut self, file: File) -> Result<bool, AllocError>
        ensures keeps { KeepsSync file self.old self.new result }
        ensures counts { Tries self.old self.new result }
    {
        if !self.begin_write() {
            return Ok(false);
        }
        match self.keep_sync(file) {
            Ok(()) => Ok(true),
            Err(e) => Err(e),
        }
    }

    /// Counts a write or a sync that failed, also where memory runs out.
    fn answer(&mut self, tried: Result<bool, AllocError>) -> Result<(), Failed>
        requires { is_done tried ≡ true → ((schedule_of self.old).faults < last_count)
            × (write_faults_of self.old < last_count) }
        ensures ok { OnOk result (is_done tried ≡ true) }
        ensures err { OnErr result (is_done tried ≡ false) }
        ensures files { SameFiles self.old self.new }
        ensures list { (schedule_of self.new).fails ≡ (schedule_of self.old).fails }
        ensures cause { HasCause (schedule_of self.old).faults
            (schedule_of self.new).faults result }
        ensures writes { CountsFailures (write_faults_of self.old)
            (write_faults_of self.new) result }
        ensures faults { HasRisen (schedule_of self.old).faults
            (schedule_of self.new).faults result }
        ensures write_faults { HasRisen (write_faults_of self.old)
            (write_faults_of self.new) result }
    {
        if let Ok(true) = tried {
            return Ok(());
        }
        self.schedule.fail();
        self.write_faults = self.write_faults.saturating_add(1);
        Err(Failed)
    }
}

impl Disk for MemoryDisk {
    ghost use Rattle.disk_trait.specs.Files.{Files, file_bytes, file_limit};
    ghost use Rattle.disk_trait.specs.Device.{FileTorn, FileWritten, Reads, Elapses, LeavesNoMore, LeavesAll, Follows};
    ghost use Rattle.disk_trait.specs.Device.{Durable};
    ghost use Rattle.disk_trait.specs.MemoryDisk.{seen_of, image_of, clock_of, faults_of, write_faults_of, OnlyAsks};
    ghost use Rattle.disk_trait.specs.MemoryDisk.{CountsWrite};
    ghost use Rattle.disk_trait.specs.Inner.Standing.{seen_is_image};

    ghost tells = { Unit {0} };

    ghost seen = { seen_of };

    ghost clock = { clock_of };

    ghost image = { image_of };

    ghost fault_count = { faults_of };

    ghost write_fault_count = { write_faults_of };

    ghost seen_is_image = { λ d _. seen_is_image d };

    /// A read fails where its call must, and then alone.
    fn read(&mut self, file: File, at: u64, buf: &mut [u8]) -> Result<usize, Failed>
        ensures bound { ReadsAtMost result buf.new }
        ensures bytes { IfOk result (λ n. Reads (file_bytes file (seen_of self.old)) at buf.new n) }
        ensures asks { OnlyAsks self.old self.new result }
    {
        self.start()?;
        Ok(self.read_of(file, at, buf))
    }

    /// A write that failed is in no read, and in what a crash may leave if there was memory for it.
    fn write_at(&mut self, file: File, at: u64, bytes: &[u8]) -> Result<(), Failed>
        requires { at + length bytes.now ≤ file_limit }
        ensures written { OnOk result
            (FileWritten file at bytes.now (seen_of self.old) (seen_of self.new)) }
        ensures unwritten { OnErr result (seen_of self.new ≡ seen_of self.old) }
        ensures crash { Follows (FileTorn file at (length bytes.now))
            (image_of self.old (clock_of self.old)) (image_of self.new (clock_of self.new)) }
        // One that failed may be torn too, if there was memory for it.
        ensures torn { (IsErr result
            × LeavesNoMore (image_of self.new (clock_of self.new))
            (image_of self.old (clock_of self.old)))
            ⊎ LeavesAll (FileTorn file at (length bytes.now))
            (image_of self.old (clock_of self.old)) (image_of self.new (clock_of self.new)) }
        ensures time { Elapses (clock_of self.old) (clock_of self.new) (image_of self.old)
            (image_of self.new) }
        ensures counts { CountsWrite self.old self.new result }
    {
        let tried = self.try_write(file, at as usize, bytes);
        self.answer(tried)
    }

    /// A sync settles its own file.
    fn sync(&mut self, file: File) -> Result<(), Failed>
        ensures durable { OnOk result
            (Durable file (file_bytes file (seen_of self.old))
            (image_of self.new (clock_of self.new))) }
        ensures seen { seen_of self.new ≡ seen_of self.old }
        ensures crash { LeavesNoMore (image_of self.old (clock_of self.old))
            (image_of self.new (clock_of self.new)) }
        // The other file is left as before, and this one too where it failed.
        ensures keeps { (c : Files) → image_of self.old (clock_of self.old) c
            → (IsOk result → file_bytes file c ≡ file_bytes file (seen_of self.old))
            → image_of self.new (clock_of self.new) c }
        ensures time { Elapses (clock_of self.old) (clock_of self.new) (image_of self.old)
            (image_of self.new) }
        ensures counts { CountsWrite self.old self.new result }
    {
        let tried = self.try_sync(file);
        self.answer(tried)
    }

    /// The length, where the call does not fail.
    fn length(&mut self, file: File) -> Result<u64, Failed>
        ensures length { IfOk result (λ n. n ≡ length (file_bytes file (seen_of self.old))) }
        ensures asks { OnlyAsks self.old self.new result }
    {
        self.start()?;
        Ok(self.len_of(file))
    }

    /// The count of the calls that failed.
    fn faults(&self) -> u64 {
        self.schedule.faults
    }
}
