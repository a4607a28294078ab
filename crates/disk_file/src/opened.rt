// A folder and its files, each opened at the first call on it.
ghost use Rattle.std.specs.Prelude.{◌≡◌, ◌+◌, ◌≤◌, true, length, None, Some, IfOk, OnOk, OnErr};
ghost use Rattle.std.specs.Io.{ReadsAtMost};
ghost use Rattle.disk_trait.specs.Files.{file_bytes, file_limit};
ghost use Rattle.disk_trait.specs.Device.{Reads, Durable};
ghost use Rattle.disk_trait.specs.declared.device.File.{File};
ghost use Rattle.disk_trait.specs.declared.device.File.TheVariants.{Log, Pages};
ghost use Rattle.disk_file.specs.Folder.{left_now, StandsStill, OnlyLooks, OnlyTears, OnlySettles, HasPut, Blames};
ghost use Rattle.disk_file.specs.Folder.{is_held, slot, other_slot, StaysHeld, Holds};

use crate::calls::{length_of, open_file, read_from, write_to};
use crate::host::HostFolder;
use disk_trait::File;
use std::io;

/// A file that is held is locked, and it is there after a crash.
#[derive(Drop)]
pub struct Opened<F: HostFolder> {
    /// Where they are opened.
    pub folder: F,
    /// The file `Log`, once a call on it has opened it.
    pub log: Option<F::Handle>,
    /// The file `Pages`, once a call on it has opened it.
    pub pages: Option<F::Handle>,
    ghost log_held: { is_held F.locks (F.state folder).names Log log ≡ true },
    ghost pages_held: { is_held F.locks (F.state folder).names Pages pages ≡ true },
}

impl<F: HostFolder> Opened<F> {
    /// Neither file is opened.
    pub fn new(folder: F) -> Opened<F>
        ensures closed { (result.log ≡ None) × (result.pages ≡ None) }
        ensures over { result.folder ≡ folder }
    {
        Opened {
            folder,
            log: None,
            pages: None,
        }
    }

    /// Takes a file out, which the first call on it opens.
    fn take(&mut self, file: File) -> io::Result<F::Handle>
        ensures locked { IfOk result (λ h. F.locks h file ≡ true) }
        ensures named { OnOk result ((F.state self.new.folder).names file ≡ true) }
        ensures held { IfOk result
            (λ h. StaysHeld (slot file self.old.log self.old.pages) (Some h)) }
        ensures unheld { OnErr result
            (slot file self.new.log self.new.pages ≡ slot file self.old.log self.old.pages) }
        ensures other { other_slot file self.new.log self.new.pages
            ≡ other_slot file self.old.log self.old.pages }
        ensures still { StandsStill F.tells (F.state self.old.folder) (F.state self.new.folder) }
        ensures errors { F.tells
            → Blames (F.state self.old.folder).errors (F.state self.new.folder).errors result }
    {
        let held = match file {
            File::Log => self.log.take(),
            File::Pages => self.pages.take(),
        };
        match held {
            Some(handle) => Ok(handle),
            None => open_file(&mut self.folder, file),
        }
    }

    /// Puts a file back.
    fn put(&mut self, file: File, handle: F::Handle)
        requires locked { F.locks handle file ≡ true }
        requires named { (F.state self.old.folder).names file ≡ true }
        ensures folder { self.new.folder ≡ self.old.folder }
        ensures held { slot file self.new.log self.new.pages ≡ Some handle }
        ensures other { other_slot file self.new.log self.new.pages
            ≡ other_slot file self.old.log self.old.pages }
    {
        match file {
            File::Log => self.log = Some(handle),
            File::Pages => self.pages = Some(handle),
        }
    }

    /// Reads bytes of a file from a place on, and says how many; the first call on the file opens it.
    pub fn read(&mut self, file: File, at: u64, buf: &mut [u8]) -> io::Result<usize>
        requires { at ≤ file_limit }
        ensures holds { Holds file self.old.log self.old.pages self.new.log self.new.pages
            result }
        ensures bound { ReadsAtMost result buf.new }
        ensures bytes { F.tells → IfOk result
            (λ n. Reads (file_bytes file (F.state self.old.folder).seen) at buf.new n) }
        ensures looks { OnlyLooks F.tells (F.state self.old.folder) (F.state self.new.folder) }
        ensures errors { F.tells
            → Blames (F.state self.old.folder).errors (F.state self.new.folder).errors result }
    {
        match self.take(file) {
            Ok(handle) => {
                let answer = read_from(&mut self.folder, &handle, at, buf);
                self.put(file, handle);
                answer
            }
            Err(error) => Err(error),
        }
    }

    /// Writes all of these bytes at a place of a file; the first call on the file opens it.
    pub fn write(&mut self, file: File, at: u64, bytes: &[u8]) -> io::Result<()>
        requires { at + length bytes.now ≤ file_limit }
        ensures holds { Holds file self.old.log self.old.pages self.new.log self.new.pages
            result }
        ensures written { F.tells → OnOk result (HasPut file at bytes.now
            (F.state self.old.folder).seen (F.state self.new.folder).seen) }
        ensures tears { OnlyTears F.tells file at (length bytes.now)
            (F.state self.old.folder) (F.state self.new.folder) }
        ensures errors { F.tells
            → Blames (F.state self.old.folder).errors (F.state self.new.folder).errors result }
    {
        let handle = self.take(file)?;
        let answer = write_to(&mut self.folder, &handle, at, bytes);
        self.put(file, handle);
        answer
    }

    /// Syncs a file; the first call on it opens it.
    pub fn sync(&mut self, file: File) -> io::Result<()>
        ensures holds { Holds file self.old.log self.old.pages self.new.log self.new.pages
            result }
        ensures durable { F.tells → OnOk result (Durable file
            (file_bytes file (F.state self.old.folder).seen) (left_now (F.state self.new.folder))) }
        ensures settles { OnlySettles F.tells (F.state self.old.folder) (F.state self.new.folder) }
        ensures errors { F.tells
            → Blames (F.state self.old.folder).errors (F.state self.new.folder).errors result }
    {
        let handle = self.take(file)?;
        let answer = self.folder.sync(&handle);
        self.put(file, handle);
        answer
    }

    /// How many bytes a file has; the first call on it opens it.
    pub fn length(&mut self, file: File) -> io::Result<u64>
        ensures holds { Holds file self.old.log self.old.pages self.new.log self.new.pages
            result }
        ensures length { F.tells → IfOk result
            (λ n. n ≡ length (file_bytes file (F.state self.old.folder).seen)) }
        ensures looks { OnlyLooks F.tells (F.state self.old.folder) (F.state self.new.folder) }
        ensures errors { F.tells
            → Blames (F.state self.old.folder).errors (F.state self.new.folder).errors result }
    {
        let handle = self.take(file)?;
        let answer = length_of(&mut self.folder, &handle);
        self.put(file, handle);
        answer
    }
}
