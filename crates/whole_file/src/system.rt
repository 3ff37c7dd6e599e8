//! The disk of the system.
ghost use Rattle.std.specs.Prelude.{None};
ghost use Rattle.whole_file.specs.Paths.{untold_paths};

use crate::disk::{Disk, DiskFault, FileFacts, Link, Made};
use std::alloc::{AllocError, Global};
use std::fs::{File, Metadata, OpenFile, OpenOptions, Permissions, TryLockError};
use std::io::ErrorKind;
use std::os::unix::fs::{MetadataExt, OpenOptionsExt, PermissionsExt, fchown};
use std::rt::Files;
use std::{fs, io};

/// What is wanted of a file of the system, beside what `OpenFile` has: it is asked of the open
/// file, and not of a name, which may be another file's by then.
pub trait SystemFile: OpenFile {
    /// Whether no other run writes straight into the file: none will until it is closed. Where a
    /// file system can't tell, none does.
    fn is_ours(&self) -> bool;

    /// Gives the file an owner and a group.
    fn give_to(&self, owner: u32, group: u32) -> io::Result<()>;
}

impl SystemFile for File {
    fn is_ours(&self) -> bool {
        match self.try_lock() {
            Err(TryLockError::WouldBlock) => false,
            _ => true,
        }
    }

    fn give_to(&self, owner: u32, group: u32) -> io::Result<()> {
        fchown(self, Some(owner), Some(group))
    }
}

/// The disk of the system. No contract can say what it does, so it tells nothing: that its calls do
/// what a `Disk` says is tested.
#[derive(Drop)]
pub struct SystemDisk<'a, R> {
    files: &'a R,
}

impl<'a, R: Files> SystemDisk<'a, R> {
    /// The disk of these files.
    pub fn new(files: &'a R) -> Self {
        SystemDisk { files }
    }
}

impl<'a, R: Files> Disk for SystemDisk<'a, R>
where
    R::File: SystemFile,
{
    type File = R::File;

    type Reader = R::File;

    ghost told = { λ _. None };

    ghost paths = { λ _. untold_paths };

    ghost kept = { λ _. Unit {0} };

    ghost closed = { λ _ _. Unit {0} };

    fn open(&mut self, path: &str) -> Result<Option<R::File>, DiskFault> {
        match OpenOptions::new().write(true).open(self.files, path) {
            Ok(file) => Ok(Some(file)),
            Err(error) if error.kind() == ErrorKind::NotFound => Ok(None),
            Err(_) => Err(DiskFault),
        }
    }

    fn open_to_read(&mut self, path: &str) -> io::Result<R::File> {
        fs::open(self.files, path)
    }

    fn facts(&mut self, file: &R::File) -> Result<FileFacts, DiskFault> {
        let told = file.metadata().map_err(|_| DiskFault)?;
        Ok(facts(&told))
    }

    fn facts_behind(&mut self, path: &str) -> Result<Option<FileFacts>, DiskFault> {
        named(fs::metadata(self.files, path))
    }

    fn facts_at(&mut self, path: &str) -> Result<Option<FileFacts>, DiskFault> {
        named(fs::symlink_metadata(self.files, path))
    }

    fn link(&mut self, alloc: Global, path: &str) -> Result<Link, DiskFault> {
        match self.files.read_link(alloc, path) {
            Ok(target) => Ok(Link::To(target.into_string())),
            Err(error) => match error.kind() {
                ErrorKind::InvalidInput | ErrorKind::NotFound => Ok(Link::Not),
                _ => Err(DiskFault),
            },
        }
    }

    /// Asks by removing a folder of that name, which fails for a file. The error says whether the
    /// name could be removed.
    fn can_be_replaced(&mut self, path: &str) -> bool {
        match fs::remove_dir(self.files, path) {
            Ok(()) => true,
            Err(error) => error.kind() != ErrorKind::PermissionDenied,
        }
    }

    fn create(&mut self, path: &str, mode: u32) -> Result<Made<R::File>, DiskFault> {
        let mut how = OpenOptions::new();
        how.write(true).create_new(true).mode(mode);
        match how.open(self.files, path) {
            Ok(file) => Ok(Made::File(file)),
            Err(error) => match error.kind() {
                ErrorKind::AlreadyExists => Ok(Made::Taken),
                ErrorKind::PermissionDenied
                | ErrorKind::ReadOnlyFilesystem
                | ErrorKind::InvalidFilename => Ok(Made::Refused),
                _ => Err(DiskFault),
            },
        }
    }

    fn make_like(&mut self, file: &R::File, other: &FileFacts) -> Result<bool, DiskFault> {
        let Ok(new) = file.metadata() else {
            return Err(DiskFault);
        };
        let (owner, group) = other.owner;
        let is_owned = (new.uid(), new.gid()) == (owner, group)
            || file.give_to(owner, group).is_ok();
        let permissions = Permissions::from_mode(other.mode);
        Ok(new.dev() == other.number.0 && is_owned && file.set_permissions(permissions).is_ok())
    }

    fn empty(&mut self, file: &R::File) -> bool {
        file.is_ours() && file.set_len(0).is_ok()
    }

    fn settle(&mut self, file: R::File, _path: &str) -> Result<R::File, DiskFault> {
        sync(&file)?;
        Ok(file)
    }

    fn close(&mut self, file: R::File) -> Result<(), DiskFault> {
        sync(&file)
    }

    fn rename(&mut self, from: &str, to: &str) -> Result<(), DiskFault> {
        fs::rename(self.files, from, to).map_err(|_| DiskFault)
    }

    fn remove(&mut self, path: &str) -> Result<(), DiskFault> {
        fs::remove_file(self.files, path).map_err(|_| DiskFault)
    }

    /// A folder that may not be read, or a file system without support, can't sync names.
    fn settle_names(&mut self, folder: &str) -> Result<bool, DiskFault> {
        let synced = match fs::open(self.files, folder) {
            Ok(opened) => opened.sync_all(),
            Err(error) => Err(error),
        };
        match synced {
            Ok(()) => Ok(true),
            Err(error) => match error.kind() {
                ErrorKind::PermissionDenied | ErrorKind::InvalidInput | ErrorKind::Unsupported =>
                    Ok(false),
                _ => Err(DiskFault),
            },
        }
    }

    /// The number of this process, as the system writes it; 0 where it doesn't tell.
    fn run_text(&mut self, alloc: Global) -> Result<String, AllocError> {
        match self.files.read_link(alloc, "/proc/self") {
            Ok(number) => Ok(number.into_string()),
            Err(error) if error.kind() == ErrorKind::OutOfMemory => Err(AllocError),
            Err(_) => String::from_str(alloc, "0"),
        }
    }
}

/// What the system says of a file.
fn facts(told: &Metadata) -> FileFacts {
    FileFacts {
        is_plain: told.is_file(),
        number: (told.dev(), told.ino()),
        owner: (told.uid(), told.gid()),
        mode: told.permissions().mode(),
    }
}

/// What the system says of a name.
fn named(told: io::Result<Metadata>) -> Result<Option<FileFacts>, DiskFault> {
    match told {
        Ok(told) => Ok(Some(facts(&told))),
        Err(error) if error.kind() == ErrorKind::NotFound => Ok(None),
        Err(_) => Err(DiskFault),
    }
}

/// Brings the bytes of a file to the disk, where it is a plain one. What `close` could tell of
/// them is told here: the library closes a file without an answer.
fn sync<F: OpenFile>(file: &F) -> Result<(), DiskFault> {
    match file.metadata() {
        Ok(told) if !told.is_file() => Ok(()),
        _ => file.sync_all().map_err(|_| DiskFault),
    }
}
