//! A disk in memory.
ghost use Rattle.std.specs.Prelude.{◌≡◌, ◌∷◌, [], OnOk, OnErr, Some, true};
ghost use Rattle.disk_trials.specs.Events.{moment, earlier, one_folder, left, sure, settled_is};
ghost use Rattle.disk_trials.specs.Events.{IsNamed};

use crate::events;
use crate::events::Event;
use std::alloc::{AllocError, Global};
use std::io;
use std::io::{Empty, ErrorKind, Write};
use whole_file::{Disk, DiskFault, FileFacts, Link, Made, name_of};

/// A file of a disk in memory that is being written. Its bytes are on no disk before they are made
/// sure of.
#[derive(Drop)]
pub struct MemoryFile {
    number: u64,
    bytes: Vec<u8>,
}

impl Write for MemoryFile {
    ghost contents = { λ file. Some file.bytes.items };

    fn write(&mut self, buf: &[u8]) -> io::Result<usize> {
        self.bytes.extend_from_slice(buf)?;
        Ok(buf.len())
    }

    fn flush(&mut self) -> io::Result<()> {
        Ok(())
    }
}

/// A disk in memory that has one folder and no links, tells its moments, and stops after so many
/// calls: each later one fails.
#[derive(Drop)]
pub struct MemoryDisk {
    alloc: Global,
    calls_left: u64,
    events: Vec<Event>,

    /// Whether the last file that was to be taken away has stayed.
    has_kept: bool,
}

impl MemoryDisk {
    /// A disk without files, that stops after so many calls.
    pub fn new(alloc: Global, calls: u64) -> Self
        ensures told { ⟦<MemoryDisk as Disk>⟧.told result ≡ Some (moment [] ∷ []) }
    {
        MemoryDisk {
            alloc,
            calls_left: calls,
            events: Vec::new(alloc),
            has_kept: false,
        }
    }

    /// Stops after so many calls from now on.
    pub fn stop_after(&mut self, calls: u64)
        ensures stays { ⟦<MemoryDisk as Disk>⟧.told self.new
            ≡ ⟦<MemoryDisk as Disk>⟧.told self.old }
    {
        self.calls_left = calls;
    }

    /// Whether a crash may leave this file, or none, at a name.
    pub fn may_leave(&self, name: &str, file: Option<u64>) -> bool
        ensures { result ≡ left self.now.events.items (0, name.now) file }
    {
        events::may_leave(self.events.as_slice(), name, file)
    }

    /// The bytes of a file that were made sure of. A crash may leave any in another one.
    pub fn sure(&self, file: u64) -> Option<&[u8]>
        ensures { settled_is result (sure self.now.events.items file) }
    {
        events::sure(self.events.as_slice(), file)
    }

    /// The file that has the name of a path.
    fn at(&self, path: &str) -> Option<u64> {
        events::at(self.events.as_slice(), name_of(path))
    }

    /// Counts a call; fails once the disk has stopped.
    fn count(&mut self) -> Result<(), DiskFault>
        ensures stays { self.new.events ≡ self.old.events }
        ensures kept { self.new.has_kept ≡ self.old.has_kept }
    {
        if self.calls_left == 0 {
            return Err(DiskFault);
        }
        self.calls_left -= 1;
        Ok(())
    }

    /// Puts down what happens.
    fn happens(&mut self, event: Event) -> Result<(), DiskFault>
        ensures done { OnOk result (self.new.events.items ≡ event ∷ self.old.events.items) }
        ensures failed { OnErr result (self.new.events.items ≡ self.old.events.items) }
        ensures kept { self.new.has_kept ≡ self.old.has_kept }
    {
        match self.events.insert(0, event) {
            Ok(()) => Ok(()),
            Err(_) => Err(DiskFault),
        }
    }

    /// Takes a name away, and gives another one to a file, or to none.
    fn name(&mut self, from: &str, to: &str, file: Option<u64>) -> Result<(), DiskFault>
        ensures done { OnOk result
            (IsNamed from.now to.now file self.old.events.items self.new.events.items) }
        ensures failed { OnErr result (self.new.events.items ≡ self.old.events.items) }
        ensures kept { self.new.has_kept ≡ self.old.has_kept }
    {
        let Ok(old) = String::from_str(self.alloc, from) else {
            return Err(DiskFault);
        };
        let Ok(new) = String::from_str(self.alloc, to) else {
            return Err(DiskFault);
        };
        self.happens(Event::Named(old, new, file))?;
        Ok(())
    }

    /// What is said of the file with the name of a path.
    fn facts_of(&self, path: &str) -> Option<FileFacts> {
        match self.at(path) {
            Some(number) => Some(facts(number)),
            None => None,
        }
    }
}

/// What is said of a file.
fn facts(number: u64) -> FileFacts
    ensures { result.is_plain ≡ true }
{
    FileFacts {
        is_plain: true,
        number: (0, number),
        owner: (0, 0),
        mode: 0o600,
    }
}

impl Disk for MemoryDisk {
    type File = MemoryFile;

    type Reader = Empty;

    ghost told = { λ disk. Some (moment disk.events.items ∷ earlier disk.events.items) };

    ghost paths = { λ _. one_folder };

    ghost kept = { λ disk. disk.has_kept ≡ true };

    ghost closed = { λ _ _. ⊥ };

    fn open(&mut self, path: &str) -> Result<Option<MemoryFile>, DiskFault> {
        self.count()?;
        match self.at(path) {
            Some(number) => Ok(Some(MemoryFile {
                number,
                bytes: Vec::new(self.alloc),
            })),
            None => Ok(None),
        }
    }

    /// No file of this disk is read by path.
    fn open_to_read(&mut self, _path: &str) -> io::Result<Empty> {
        Err(ErrorKind::Unsupported.into())
    }

    fn facts(&mut self, file: &MemoryFile) -> Result<FileFacts, DiskFault> {
        self.count()?;
        Ok(facts(file.number))
    }

    fn facts_behind(&mut self, path: &str) -> Result<Option<FileFacts>, DiskFault> {
        self.count()?;
        Ok(self.facts_of(path))
    }

    fn facts_at(&mut self, path: &str) -> Result<Option<FileFacts>, DiskFault> {
        self.count()?;
        Ok(self.facts_of(path))
    }

    fn link(&mut self, _alloc: Global, _path: &str) -> Result<Link, DiskFault> {
        self.count()?;
        Ok(Link::Not)
    }

    fn can_be_replaced(&mut self, _path: &str) -> bool {
        true
    }

    fn create(&mut self, path: &str, _mode: u32) -> Result<Made<MemoryFile>, DiskFault> {
        self.count()?;
        let name = name_of(path);
        let None = events::at(self.events.as_slice(), name) else {
            return Ok(Made::Taken);
        };
        let number = self.events.len() as u64;
        if events::mentions(self.events.as_slice(), number) {
            return Err(DiskFault);
        }
        let file = MemoryFile {
            number,
            bytes: Vec::new(self.alloc),
        };
        self.name(name, name, Some(number))?;
        Ok(Made::File(file))
    }

    fn make_like(&mut self, _file: &MemoryFile, _other: &FileFacts) -> Result<bool, DiskFault> {
        self.count()?;
        Ok(true)
    }

    /// No file of this disk is written straight.
    fn empty(&mut self, _file: &MemoryFile) -> bool {
        false
    }

    fn settle(&mut self, file: MemoryFile, path: &str) -> Result<MemoryFile, DiskFault> {
        self.count()?;
        let MemoryFile { number, bytes } = file;
        let Some(found) = events::at(self.events.as_slice(), name_of(path)) else {
            return Err(DiskFault);
        };
        if found != number {
            return Err(DiskFault);
        }
        self.happens(Event::Settled(found, bytes))?;
        Ok(MemoryFile {
            number,
            bytes: Vec::new(self.alloc),
        })
    }

    fn close(&mut self, _file: MemoryFile) -> Result<(), DiskFault> {
        Err(DiskFault)
    }

    fn rename(&mut self, from: &str, to: &str) -> Result<(), DiskFault> {
        self.count()?;
        let old = name_of(from);
        let file = events::at(self.events.as_slice(), old);
        if file == None {
            return Err(DiskFault);
        }
        self.name(old, name_of(to), file)?;
        Ok(())
    }

    fn remove(&mut self, path: &str) -> Result<(), DiskFault> {
        self.has_kept = true;
        self.count()?;
        let name = name_of(path);
        if events::at(self.events.as_slice(), name) == None {
            return Err(DiskFault);
        }
        self.name(name, name, None)?;
        self.has_kept = false;
        Ok(())
    }

    fn settle_names(&mut self, _folder: &str) -> Result<bool, DiskFault> {
        self.count()?;
        self.happens(Event::SettledNames)?;
        Ok(true)
    }

    fn run_text(&mut self, alloc: Global) -> Result<String, AllocError> {
        String::from_str(alloc, "1")
    }
}
