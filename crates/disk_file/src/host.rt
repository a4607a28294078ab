// A folder as a system gives it.
ghost use Rattle.std.specs.Prelude.{◌≡◌, ℕ, ◌+◌, ◌≤◌, Bool, true, length, take, IfOk, IfErr, OnOk};
ghost use Rattle.std.specs.Io.{ReadsAtMost, WritesAtMost};
ghost use Rattle.std.specs.IoError.{error_kind};
ghost use Rattle.disk_trait.specs.Files.{file_bytes, file_limit};
ghost use Rattle.disk_trait.specs.Device.{Durable};
ghost use Rattle.disk_trait.specs.declared.device.File.{File};
ghost use Rattle.disk_file.specs.Folder.{FolderState, left_now, StandsStill, OnlyLooks, OnlyTears, OnlySettles};
ghost use Rattle.disk_file.specs.Folder.{ReadsSome, HasPut, Blames, TakesSome};

use disk_trait::File;
use std::io::{self, ErrorKind};

/// A folder with the two files of a store. A file that is not there counts as an empty one.
///
/// It says what one call of a system does: a read may be short, a write too, and either may be
/// interrupted by a signal, which has then done nothing that a read shows. What is said of a file
/// is said by a handle that has its lock.
pub trait HostFolder: Drop {
    /// A file that was opened. It is closed where the handle is dropped, and its lock given back.
    type Handle: Drop;

    /// Whether what the files hold is said.
    ghost tells: { Type 0 };

    /// The files, and what a crash may leave of them.
    ghost state: { Self → FolderState };

    /// The handle is one of this file.
    ghost opens: { Self.Handle → File → Bool };

    /// The same, and it has the file's lock.
    ghost locks: { Self.Handle → File → Bool };

    /// Opens a file for reading and writing, or makes it where it is not there.
    fn open(&mut self, file: File) -> io::Result<Self::Handle>
        ensures opened { IfOk result (λ h. opens h file ≡ true) }
        ensures made { OnOk result ((state self.new).has file ≡ true) }
        ensures still { StandsStill tells (state self.old) (state self.new) }
        ensures errors { tells → Blames (state self.old).errors (state self.new).errors result };

    /// Takes the file's lock, which no other may have.
    fn lock(&mut self, handle: Self::Handle) -> io::Result<Self::Handle>
        ensures locked { IfOk result
            (λ h. (f : File) → opens handle f ≡ true → locks h f ≡ true) }
        ensures still { StandsStill tells (state self.old) (state self.new) }
        ensures errors { tells → Blames (state self.old).errors (state self.new).errors result };

    /// Syncs the folder: the files that are in it are there after a crash.
    fn sync_folder(&mut self) -> io::Result<()>
        ensures named { OnOk result ((f : File) → (state self.old).has f ≡ true
            → (state self.new).names f ≡ true) }
        ensures still { StandsStill tells (state self.old) (state self.new) }
        ensures errors { tells → Blames (state self.old).errors (state self.new).errors result };

    /// Reads from this place on.
    fn read_at(&mut self, handle: &Self::Handle, at: u64, buf: &mut [u8]) -> io::Result<usize>
        ensures bound { ReadsAtMost result buf.new }
        ensures bytes { tells → (f : File) → locks handle.now f ≡ true → IfOk result
            (λ n. ReadsSome (file_bytes f (state self.old).seen) at buf.new n) }
        ensures looks { OnlyLooks tells (state self.old) (state self.new) }
        ensures errors { tells → Blames (state self.old).errors (state self.new).errors result };

    /// Writes at this place.
    fn write_at(&mut self, handle: &Self::Handle, at: u64, bytes: &[u8]) -> io::Result<usize>
        requires { at + length bytes.now ≤ file_limit }
        ensures bound { WritesAtMost result bytes.now }
        ensures written { tells → (f : File) → locks handle.now f ≡ true → IfOk result
            (λ n. HasPut f at (take n bytes.now) (state self.old).seen (state self.new).seen) }
        ensures interrupted { tells → IfErr result
            (λ e. error_kind e ≡ ErrorKind.Interrupted
            → (state self.new).seen ≡ (state self.old).seen) }
        ensures tears { (f : File) → locks handle.now f ≡ true
            → OnlyTears tells f at (length bytes.now) (state self.old) (state self.new) }
        ensures some { tells → TakesSome (state self.old).errors (state self.new).errors
            bytes.now result }
        ensures errors { tells → Blames (state self.old).errors (state self.new).errors result };

    /// Syncs a file. Where it is there after a crash, it then is as a read gives it.
    fn sync(&mut self, handle: &Self::Handle) -> io::Result<()>
        ensures durable { tells → (f : File) → locks handle.now f ≡ true
            → (state self.old).names f ≡ true → OnOk result
            (Durable f (file_bytes f (state self.old).seen) (left_now (state self.new))) }
        ensures settles { OnlySettles tells (state self.old) (state self.new) }
        ensures errors { tells → Blames (state self.old).errors (state self.new).errors result };

    /// The length of a file.
    fn length(&mut self, handle: &Self::Handle) -> io::Result<u64>
        ensures length { tells → (f : File) → locks handle.now f ≡ true → IfOk result
            (λ n. n ≡ length (file_bytes f (state self.old).seen)) }
        ensures looks { OnlyLooks tells (state self.old) (state self.new) }
        ensures errors { tells → Blames (state self.old).errors (state self.new).errors result };

    /// What reads give is among what a crash may leave.
    ghost seen_is_image: { (s : Self) → tells → left_now (state s) (state s).seen };
}
