// The files of the system.
ghost use Rattle.std.specs.Prelude.{⊤, [], true};
ghost use Rattle.disk_file.specs.System.{untold};

use crate::host::HostFolder;
use disk_trait::File;
use std::fs::OpenOptions;
use std::os::unix::fs::FileExt;
use std::rt::Files;
use std::{fs, io};

/// The working directory, with the files `ginsh.log` and `ginsh.data`. Nothing is said of what they hold: each method
/// is a call of the system and its answer.
#[derive(Drop)]
pub struct SystemFolder<'a, R> {
    /// Where they are opened.
    files: &'a R,
}

impl<'a, R: Files<File = fs::File>> SystemFolder<'a, R> {
    /// It makes no call.
    pub fn new(files: &'a R) -> SystemFolder<'a, R> {
        SystemFolder { files }
    }
}

/// The name of a file in the folder.
fn name_of(file: File) -> &'static str {
    match file {
        File::Log => "ginsh.log",
        File::Pages => "ginsh.data",
    }
}

impl<'a, R: Files<File = fs::File>> HostFolder for SystemFolder<'a, R> {
    type Handle = fs::File;

    ghost tells = { ⊥ };

    ghost state = { λ _. untold };

    ghost opens = { λ _ _. true };

    ghost locks = { λ _ _. true };

    ghost seen_is_image = { λ _ told. absurd told };

    fn open(&mut self, file: File) -> io::Result<fs::File> {
        OpenOptions::new()
            .read(true)
            .write(true)
            .create(true)
            .open(self.files, name_of(file))
    }

    fn lock(&mut self, handle: fs::File) -> io::Result<fs::File> {
        match handle.try_lock() {
            Ok(()) => Ok(handle),
            Err(error) => Err(io::Error::from(error)),
        }
    }

    fn sync_folder(&mut self) -> io::Result<()> {
        fs::File::open(self.files, ".")?.sync_all()
    }

    fn read_at(&mut self, handle: &fs::File, at: u64, buf: &mut [u8]) -> io::Result<usize> {
        handle.read_at(buf, at)
    }

    fn write_at(&mut self, handle: &fs::File, at: u64, bytes: &[u8]) -> io::Result<usize> {
        handle.write_at(bytes, at)
    }

    fn sync(&mut self, handle: &fs::File) -> io::Result<()> {
        handle.sync_data()
    }

    fn length(&mut self, handle: &fs::File) -> io::Result<u64> {
        Ok(handle.metadata()?.len())
    }
}
