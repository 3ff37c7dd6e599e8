//! A disk, as far as it is needed to write a file.
ghost use Rattle.std.specs.Prelude.{◌≡◌, ℕ, true, false, IsTrue, List, Option, Some, None};
ghost use Rattle.std.specs.Prelude.{IfOk, OnOk, OnErr};
ghost use Rattle.whole_file.specs.Disks.{Moment, Steps, Settles, Renames, Removes};
ghost use Rattle.whole_file.specs.Paths.{Paths, ReadsBehind, folder_of, place_of};
ghost use Rattle.whole_file.specs.Calls.{AnswersLink, AnswersMade, AnswersSettled, Closes, IsAllowed};

use std::alloc::{AllocError, Global};
use std::io;
use std::io::{Read, Seek, Write};
use thiserror::Error;

/// A call of the disk failed.
#[derive(Clone, Copy, Debug, PartialEq, Eq, Error)]
#[error("the call of the disk failed")]
pub struct DiskFault;

/// What the disk says of a file.
#[derive(Clone, Copy, Debug, PartialEq, Eq)]
pub struct FileFacts {
    /// Whether it is a plain file, and no device and no folder.
    pub is_plain: bool,

    /// The device that it lies on, and its number there.
    pub number: (u64, u64),

    /// The numbers of its owner and of its group.
    pub owner: (u32, u32),

    /// Its permissions.
    pub mode: u32,
}

/// What stands at a path.
#[derive(Drop)]
pub enum Link {
    /// A link to this path.
    To(String),

    /// No link.
    Not,
}

/// How the making of a file ended.
#[derive(Drop)]
pub enum Made<F> {
    /// It was made.
    File(F),

    /// Its name is another file's.
    Taken,

    /// No file can be made in the folder.
    Refused,
}

/// A disk, as far as it is needed to write a file (this project's profile).
///
/// A disk that tells its moments has files and links alone, of one owner and on one device, each
/// of its links can be read, and nobody else changes it: it says at each moment which file stands
/// where, and what a crash may leave. Of a disk that tells nothing, as that of the system, no
/// answer is promised.
pub trait Disk {
    /// A file that is being written.
    type File: Write + Drop;

    /// A file that is being read.
    type Reader: Read + Seek + Drop;

    // the moments so far, the last of them first, where the disk tells them
    ghost told: { Self → Option (List Moment) };

    // how its paths are read. No call makes or changes a folder or a link
    ghost paths: { Self → Paths };

    // the last file that was to be taken away has stayed
    ghost kept: { Self → Type 0 };

    // the last file that was closed has these bytes, made sure of where it is a plain one
    ghost closed: { Self → List ℕ → Type 0 };

    /// Opens a file to be written; none where there is none.
    fn open(&mut self, path: &str) -> Result<Option<Self::File>, DiskFault>
        ensures paths { paths self.new ≡ paths self.old }
        ensures stays { told self.new ≡ told self.old };

    /// Opens a file to be read, or says why it can't be.
    fn open_to_read(&mut self, path: &str) -> io::Result<Self::Reader>
        ensures paths { paths self.new ≡ paths self.old }
        ensures stays { told self.new ≡ told self.old }
        ensures read { IfOk result (λ file. ReadsBehind (paths self.old) path.now (told self.old)
            (Self.Reader.remaining file)) };

    /// What is said of an open file. A disk that tells its moments has plain files alone.
    fn facts(&mut self, file: &Self::File) -> Result<FileFacts, DiskFault>
        ensures paths { paths self.new ≡ paths self.old }
        ensures stays { told self.new ≡ told self.old }
        ensures plain { (moments : List Moment) → told self.old ≡ Some moments
            → IfOk result (λ facts. facts.is_plain ≡ true) };

    /// What is said of the file to which a path leads; none where there is none.
    fn facts_behind(&mut self, path: &str) -> Result<Option<FileFacts>, DiskFault>
        ensures paths { paths self.new ≡ paths self.old }
        ensures stays { told self.new ≡ told self.old };

    /// What is said of what a path names, which may be a link; none where there is none.
    fn facts_at(&mut self, path: &str) -> Result<Option<FileFacts>, DiskFault>
        ensures paths { paths self.new ≡ paths self.old }
        ensures stays { told self.new ≡ told self.old };

    /// Whether a path names a link, and where it leads.
    fn link(&mut self, alloc: Global, path: &str) -> Result<Link, DiskFault>
        ensures paths { paths self.new ≡ paths self.old }
        ensures stays { told self.new ≡ told self.old }
        ensures link { (moments : List Moment) → told self.old ≡ Some moments
            → IfOk result (AnswersLink ((paths self.old).link path.now)) };

    /// Whether the name of a file can be given to another one: not in a folder that can't be
    /// written, nor in one to which names can be added alone.
    fn can_be_replaced(&mut self, path: &str) -> bool
        ensures paths { paths self.new ≡ paths self.old }
        ensures stays { told self.new ≡ told self.old }
        ensures fixed { (moments : List Moment) → told self.old ≡ Some moments → result ≡ false
            → IsTrue ((paths self.old).fixed ((paths self.old).folder (folder_of path.now))) };

    /// Makes a file where none is, with these permissions at most. A disk that tells its moments
    /// refuses none for its folder.
    fn create(&mut self, path: &str, mode: u32) -> Result<Made<Self::File>, DiskFault>
        ensures paths { paths self.new ≡ paths self.old }
        ensures made { IfOk result (AnswersMade Self.File.contents
            (place_of (paths self.old) path.now) (told self.old) (told self.new)) }
        ensures allowed { (moments : List Moment) → told self.old ≡ Some moments
            → IfOk result IsAllowed }
        ensures failed { OnErr result (told self.new ≡ told self.old) };

    /// Gives a new file the owner, the group and the permissions of another one; whether it has
    /// them, and lies on the same device.
    fn make_like(&mut self, file: &Self::File, other: &FileFacts) -> Result<bool, DiskFault>
        ensures paths { paths self.new ≡ paths self.old }
        ensures stays { told self.new ≡ told self.old }
        ensures like { (moments : List Moment) → told self.old ≡ Some moments
            → IfOk result (λ like. like ≡ true) };

    /// Takes all bytes out of an old file that is open, to be written straight; whether it was
    /// done. Not where another run writes into it. From then on the disk tells nothing.
    fn empty(&mut self, file: &Self::File) -> bool
        ensures paths { paths self.new ≡ paths self.old }
        ensures emptied { result ≡ true → told self.new ≡ None }
        ensures failed { result ≡ false → told self.new ≡ told self.old };

    /// Syncs a file that was created at this path, and returns it.
    fn settle(&mut self, file: Self::File, path: &str) -> Result<Self::File, DiskFault>
        ensures paths { paths self.new ≡ paths self.old }
        ensures settled { OnOk result ((bytes : List ℕ) → Self.File.contents file ≡ Some bytes
            → Steps (Settles (place_of (paths self.old) path.now) bytes)
            (told self.old) (told self.new)) }
        ensures failed { OnErr result (told self.new ≡ told self.old) };

    /// Syncs an old file, if it is a regular one, and closes it.
    fn close(&mut self, file: Self::File) -> Result<(), DiskFault>
        ensures paths { paths self.new ≡ paths self.old }
        ensures stays { told self.old ≡ None → told self.new ≡ None }
        ensures closed { Closes result (Self.File.contents file) (closed self.new) };

    /// Gives a file another name, which may have been another file's.
    fn rename(&mut self, from: &str, to: &str) -> Result<(), DiskFault>
        ensures paths { paths self.new ≡ paths self.old }
        ensures renamed { OnOk result (Steps (Renames (place_of (paths self.old) from.now)
            (place_of (paths self.old) to.now)) (told self.old) (told self.new)) }
        ensures failed { OnErr result (told self.new ≡ told self.old) };

    /// Takes a file away.
    fn remove(&mut self, path: &str) -> Result<(), DiskFault>
        ensures paths { paths self.new ≡ paths self.old }
        ensures removed { OnOk result (Steps (Removes (place_of (paths self.old) path.now))
            (told self.old) (told self.new)) }
        ensures failed { OnErr result (told self.new ≡ told self.old) }
        ensures kept { OnErr result (kept self.new) };

    /// Makes sure of the names of a folder; whether that can be done there.
    fn settle_names(&mut self, folder: &str) -> Result<bool, DiskFault>
        ensures paths { paths self.new ≡ paths self.old }
        ensures settled { IfOk result (AnswersSettled (paths self.old)
            ((paths self.old).folder folder.now) (told self.old) (told self.new)) }
        ensures failed { OnErr result (told self.new ≡ told self.old) };

    /// A text that is in the names of the files that this run makes.
    fn run_text(&mut self, alloc: Global) -> Result<String, AllocError>
        ensures paths { paths self.new ≡ paths self.old }
        ensures stays { told self.new ≡ told self.old };
}
