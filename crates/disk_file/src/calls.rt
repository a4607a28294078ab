// Whole calls, made of calls of a folder that may be short or interrupted.
ghost use Rattle.std.specs.Prelude.{◌≡◌, ◌+◌, ◌≤◌, true, length, take, IfOk, OnOk};
ghost use Rattle.std.specs.Io.{ReadsAtMost, WritesAtMost};
ghost use Rattle.disk_trait.specs.Files.{file_bytes, file_limit};
ghost use Rattle.disk_trait.specs.Device.{Reads};
ghost use Rattle.disk_trait.specs.declared.device.File.{File};
ghost use Rattle.disk_file.specs.Folder.{StandsStill, OnlyLooks, OnlyTears, ReadsSome, HasPut, Blames, TakesSome};

use crate::host::HostFolder;
use disk_trait::File;
use std::io::{self, ErrorKind};

/// A file that is opened, or made, and locked, and there after a crash. The folder is synced for a file that was there
/// too: the call that made it may have been cut short before its sync.
pub(crate) fn open_file<F: HostFolder>(folder: &mut F, file: File) -> io::Result<F::Handle>
    ensures locked { IfOk result (λ h. F.locks h file ≡ true) }
    ensures named { OnOk result ((F.state folder.new).names file ≡ true) }
    ensures still { StandsStill F.tells (F.state folder.old) (F.state folder.new) }
    ensures errors { F.tells
        → Blames (F.state folder.old).errors (F.state folder.new).errors result }
{
    let opened = folder.open(file)?;
    let locked = folder.lock(opened)?;
    folder.sync_folder()?;
    Ok(locked)
}

/// One read, made again where a signal interrupts it.
fn read_once<F: HostFolder>(
    folder: &mut F,
    handle: &F::Handle,
    at: u64,
    buf: &mut [u8],
) -> io::Result<usize>
    ensures bound { ReadsAtMost result buf.new }
    ensures bytes { F.tells → (f : File) → F.locks handle.now f ≡ true → IfOk result
        (λ n. ReadsSome (file_bytes f (F.state folder.old).seen) at buf.new n) }
    ensures looks { OnlyLooks F.tells (F.state folder.old) (F.state folder.new) }
    ensures errors { F.tells
        → Blames (F.state folder.old).errors (F.state folder.new).errors result }
{
    for _ in 0..u64::MAX {
        match folder.read_at(handle, at, buf) {
            Err(error) if error.kind() == ErrorKind::Interrupted => {}
            answer => return answer,
        }
    }
    Err(io::Error::from(ErrorKind::Interrupted))
}

/// As many bytes as are there from a place on, and as the buffer has room for.
pub(crate) fn read_from<F: HostFolder>(
    folder: &mut F,
    handle: &F::Handle,
    at: u64,
    buf: &mut [u8],
) -> io::Result<usize>
    requires { at ≤ file_limit }
    ensures bound { ReadsAtMost result buf.new }
    ensures bytes { F.tells → (f : File) → F.locks handle.now f ≡ true → IfOk result
        (λ n. Reads (file_bytes f (F.state folder.old).seen) at buf.new n) }
    ensures looks { OnlyLooks F.tells (F.state folder.old) (F.state folder.new) }
    ensures errors { F.tells
        → Blames (F.state folder.old).errors (F.state folder.new).errors result }
{
    let mut got = 0;
    while got < buf.len() {
        match read_once(folder, handle, at + got as u64, &mut buf[got..]) {
            Ok(0) => return Ok(got),
            Ok(n) => got += n,
            Err(error) => return Err(error),
        }
    }
    Ok(got)
}

/// One write, made again where a signal interrupts it.
fn write_once<F: HostFolder>(
    folder: &mut F,
    handle: &F::Handle,
    at: u64,
    bytes: &[u8],
) -> io::Result<usize>
    requires { at + length bytes.now ≤ file_limit }
    ensures bound { WritesAtMost result bytes.now }
    ensures written { F.tells → (f : File) → F.locks handle.now f ≡ true → IfOk result
        (λ n. HasPut f at (take n bytes.now) (F.state folder.old).seen (F.state folder.new).seen) }
    ensures tears { (f : File) → F.locks handle.now f ≡ true
        → OnlyTears F.tells f at (length bytes.now) (F.state folder.old) (F.state folder.new) }
    ensures some { F.tells
        → TakesSome (F.state folder.old).errors (F.state folder.new).errors bytes.now result }
    ensures errors { F.tells
        → Blames (F.state folder.old).errors (F.state folder.new).errors result }
{
    for _ in 0..u64::MAX {
        match folder.write_at(handle, at, bytes) {
            Err(error) if error.kind() == ErrorKind::Interrupted => {}
            answer => return answer,
        }
    }
    Err(io::Error::from(ErrorKind::Interrupted))
}

/// All the bytes. A write that takes nothing is an error.
pub(crate) fn write_to<F: HostFolder>(
    folder: &mut F,
    handle: &F::Handle,
    at: u64,
    bytes: &[u8],
) -> io::Result<()>
    requires { at + length bytes.now ≤ file_limit }
    ensures written { F.tells → (f : File) → F.locks handle.now f ≡ true → OnOk result
        (HasPut f at bytes.now (F.state folder.old).seen (F.state folder.new).seen) }
    ensures tears { (f : File) → F.locks handle.now f ≡ true
        → OnlyTears F.tells f at (length bytes.now) (F.state folder.old) (F.state folder.new) }
    ensures errors { F.tells
        → Blames (F.state folder.old).errors (F.state folder.new).errors result }
{
    let mut put = 0;
    while put < bytes.len() {
        match write_once(folder, handle, at + put as u64, &bytes[put..]) {
            Ok(0) => return Err(io::Error::from(ErrorKind::WriteZero)),
            Ok(n) => put += n,
            Err(error) => return Err(error),
        }
    }
    Ok(())
}

/// The length, asked again where a signal interrupts the call.
pub(crate) fn length_of<F: HostFolder>(folder: &mut F, handle: &F::Handle) -> io::Result<u64>
    ensures length { F.tells → (f : File) → F.locks handle.now f ≡ true → IfOk result
        (λ n. n ≡ length (file_bytes f (F.state folder.old).seen)) }
    ensures looks { OnlyLooks F.tells (F.state folder.old) (F.state folder.new) }
    ensures errors { F.tells
        → Blames (F.state folder.old).errors (F.state folder.new).errors result }
{
    for _ in 0..u64::MAX {
        match folder.length(handle) {
            Err(error) if error.kind() == ErrorKind::Interrupted => {}
            answer => return answer,
        }
    }
    Err(io::Error::from(ErrorKind::Interrupted))
}
