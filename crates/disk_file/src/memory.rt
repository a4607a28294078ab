// A folder in memory, which says all.
ghost use Rattle.std.specs.Prelude.{◌≡◌, ◌<◌};

use crate::host::HostFolder;
use disk_trait::{Disk, Failed, File, MemoryDisk};
use std::io::{self, ErrorKind};

/// What the folder knows of a name.
#[derive(Drop)]
pub struct Name {
    /// The file is there.
    pub made: bool,
    /// The folder was synced since.
    pub kept: bool,
}

/// A file that was opened.
#[derive(Drop)]
pub struct MemoryHandle {
    /// Which one.
    file: File,
    /// It has the file's lock.
    locked: bool,
}

/// The two files of a `MemoryDisk`, whose reads and writes are short.
#[derive(Drop)]
pub struct MemoryFolder {
    /// What the files hold.
    disk: MemoryDisk,
    /// How many bytes a call gives or takes at most.
    piece: usize,
    /// The name of the file `Log`.
    log: Name,
    /// The name of the file `Pages`.
    pages: Name,
    ghost some: { 0 < piece },
}

impl MemoryFolder {
    ghost use Rattle.disk_file.specs.MemoryFolder.{disk_of};

    /// The files of this device. A call gives or takes at most so many bytes.
    pub fn new(disk: MemoryDisk, piece: usize) -> MemoryFolder
        requires { 0 < piece }
        ensures { disk_of result ≡ disk }
    {
        MemoryFolder {
            disk,
            piece,
            log: Name {
                made: false,
                kept: false,
            },
            pages: Name {
                made: false,
                kept: false,
            },
        }
    }

    /// The device whose files these are.
    pub fn disk(&self) -> &MemoryDisk
        ensures { result.now ≡ disk_of self.now }
    {
        &self.disk
    }
}

impl HostFolder for MemoryFolder {
    ghost use Rattle.disk_file.specs.MemoryFolder.{folder_state, is_of, is_locked};
    ghost use Rattle.disk_file.specs.Inner.Memory.{memory_seen};

    type Handle = MemoryHandle;

    ghost tells = { Unit {0} };

    ghost state = { folder_state };

    ghost opens = { is_of };

    ghost locks = { is_locked };

    ghost seen_is_image = { λ s _. memory_seen s };

    fn open(&mut self, file: File) -> io::Result<MemoryHandle> {
        match file {
            File::Log => self.log.made = true,
            File::Pages => self.pages.made = true,
        }
        Ok(MemoryHandle {
            file,
            locked: false,
        })
    }

    fn lock(&mut self, handle: MemoryHandle) -> io::Result<MemoryHandle> {
        Ok(MemoryHandle {
            file: handle.file,
            locked: true,
        })
    }

    fn sync_folder(&mut self) -> io::Result<()> {
        self.log.kept = self.log.kept || self.log.made;
        self.pages.kept = self.pages.kept || self.pages.made;
        Ok(())
    }

    fn read_at(&mut self, handle: &MemoryHandle, at: u64, buf: &mut [u8]) -> io::Result<usize> {
        let most = buf.len().min(self.piece);
        match self.disk.read(handle.file, at, &mut buf[..most]) {
            Ok(n) => Ok(n),
            Err(Failed) => Err(io::Error::from(ErrorKind::Other)),
        }
    }

    fn write_at(&mut self, handle: &MemoryHandle, at: u64, bytes: &[u8]) -> io::Result<usize> {
        if bytes.is_empty() {
            return Ok(0);
        }
        let most = bytes.len().min(self.piece);
        match self.disk.write_at(handle.file, at, &bytes[..most]) {
            Ok(()) => Ok(most),
            Err(Failed) => Err(io::Error::from(ErrorKind::Other)),
        }
    }

    fn sync(&mut self, handle: &MemoryHandle) -> io::Result<()> {
        match self.disk.sync(handle.file) {
            Ok(()) => Ok(()),
            Err(Failed) => Err(io::Error::from(ErrorKind::Other)),
        }
    }

    fn length(&mut self, handle: &MemoryHandle) -> io::Result<u64> {
        match self.disk.length(handle.file) {
            Ok(n) => Ok(n),
            Err(Failed) => Err(io::Error::from(ErrorKind::Other)),
        }
    }
}
