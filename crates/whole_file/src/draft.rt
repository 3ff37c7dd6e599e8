//! A file that is written as a whole: into a new file beside it, which takes its place once it is
//! complete. A run that fails or is killed leaves the old file as it was.
ghost use Rattle.std.specs.Prelude.{◌≡◌, ◌⊎◌, ℕ, List, ◌∷◌, Option, Some, None, Ok, Err};
ghost use Rattle.std.specs.Prelude.{IfOk, IfErr, IfSome, IsSome, IsSomeAnd, OnOk, OnErr, MatchOption, MatchResult};
ghost use Rattle.std.specs.Io.KnownBytes.{Keeps};
ghost use Rattle.std.specs.String.{string_bytes};
ghost use Rattle.std.specs.Io.Buffered.{writer_contents};
ghost use Rattle.whole_file.specs.Disks.{Moment, IsStill, Steps, Settles, Renames};
ghost use Rattle.whole_file.specs.Disks.{Removes, StaysAt};
ghost use Rattle.whole_file.specs.Calls.{AnswersBeside, AnswersSettled, Closes, IsAllowed, RemovesOrStays};
ghost use Rattle.whole_file.specs.Drafts.{IsReady, IsBegun, IsDropped, IsGone, IsLeft, IsPut, IsTidy};
ghost use Rattle.whole_file.specs.Paths.{IsFixedOn, LeadsTo, is_open_name, place_of};
ghost use Rattle.whole_file.specs.declared.fault.DraftFault.TheVariants.{Write};

use crate::disk::{Disk, DiskFault, FileFacts, Link, Made};
use crate::fault::DraftFault;
use crate::paths::{folder_of, linked, name_of, new_path};
use std::alloc::Global;
use std::io::BufWriter;

/// How many bytes one write moves.
const BLOCK: usize = 65536;

/// How many names of one run are tried for a new file. A run that is killed leaves its new file
/// behind, and a later one may have the same number.
const NAMES: u16 = u16::MAX;

/// How many symbolic links are followed, one after another, as by the system.
const LINKS: u8 = 40;

/// How often a write starts again if another program replaces the file first.
const TRIES: u16 = 1000;

/// A file that is being written, by blocks.
#[derive(Drop)]
pub struct Draft<D: Disk> {
    /// What takes the bytes.
    pub writer: BufWriter<D::File>,

    /// None where the bytes go straight into the file that was asked for.
    pub names: Option<Names>,
}

/// The paths that the last steps need, made before the first byte is written.
#[derive(Drop)]
pub struct Names {
    /// The new file.
    pub new: String,

    /// The file whose place it takes.
    pub place: String,

    /// The folder of the place.
    pub folder: String,
}

/// Begins to write a file. `Open` where it can't be opened or made, where another run writes
/// straight into it, or where its name is given to other files again and again meanwhile, and
/// `Memory` where there is no room; then it is as it was.
///
/// The bytes go straight into what is no plain file, as a device or a pipe, into a plain file that
/// is an open one's name in `/dev` or `/proc`, and where a new file could not take the place of the
/// old one: in a folder that can't be written, or of which no name can be taken away, or with
/// another owner, group, permissions or device.
pub fn begin<D: Disk>(disk: &mut D, alloc: Global, path: &str) -> Result<Draft<D>, DraftFault>
    ensures paths { D.paths disk.new ≡ D.paths disk.old }
    ensures begun { IfOk result (λ draft. IsBegun (D.paths disk.old) path.now draft.names
        (writer_contents D.File.contents draft.writer) (D.told disk.old) (D.told disk.new)) }
    ensures stays { OnErr result (IsLeft (D.paths disk.old) path.now
        (D.told disk.old) (D.told disk.new) (D.kept disk.new)) }
{
    'tries: for _ in 0..TRIES {
        match begin_once(disk, alloc, path) {
            Ok(Some(draft)) => return Ok(draft),
            Ok(None) => {}
            Err(fault) => return Err(fault),
        }
    }
    Err(DraftFault::Open)
}

/// Begins to write a file; none where its name was given to another file meanwhile.
fn begin_once<D: Disk>(
    disk: &mut D,
    alloc: Global,
    path: &str,
) -> Result<Option<Draft<D>>, DraftFault>
    ensures paths { D.paths disk.new ≡ D.paths disk.old }
    ensures begun { IfOk result (λ draft. MatchOption draft
        (IsStill (D.told disk.old) (D.told disk.new))
        (λ draft. IsBegun (D.paths disk.old) path.now draft.names
        (writer_contents D.File.contents draft.writer) (D.told disk.old) (D.told disk.new))) }
    ensures stays { OnErr result (IsLeft (D.paths disk.old) path.now
        (D.told disk.old) (D.told disk.new) (D.kept disk.new)) }
{
    match disk.open(path) {
        Ok(Some(old)) => begin_over(disk, alloc, path, old),
        Ok(None) => Ok(Some(begin_anew(disk, alloc, path)?)),
        Err(_) => Err(DraftFault::Open),
    }
}

/// Begins to write a file that is there; none where its name is another one's by now.
fn begin_over<D: Disk>(
    disk: &mut D,
    alloc: Global,
    path: &str,
    old: D::File,
) -> Result<Option<Draft<D>>, DraftFault>
    ensures paths { D.paths disk.new ≡ D.paths disk.old }
    ensures begun { IfOk result (λ draft. MatchOption draft
        (IsStill (D.told disk.old) (D.told disk.new))
        (λ draft. IsBegun (D.paths disk.old) path.now draft.names
        (writer_contents D.File.contents draft.writer) (D.told disk.old) (D.told disk.new))) }
    ensures stays { OnErr result (IsLeft (D.paths disk.old) path.now
        (D.told disk.old) (D.told disk.new) (D.kept disk.new)) }
{
    let Ok(told) = disk.facts(&old) else {
        return Err(DraftFault::Open);
    };
    if !told.is_plain {
        return Ok(Some(straight(alloc, old)?));
    }
    match begin_in_place(disk, alloc, path, &told)? {
        Some(begun) => Ok(begun),
        None => begin_straight(disk, alloc, path, old, &told),
    }
}

/// Begins to write a new file that is to take the place of an old one: none where none can take it,
/// and no draft where the place is another file's by now.
fn begin_in_place<D: Disk>(
    disk: &mut D,
    alloc: Global,
    path: &str,
    told: &FileFacts,
) -> Result<Option<Option<Draft<D>>>, DraftFault>
    ensures paths { D.paths disk.new ≡ D.paths disk.old }
    ensures begun { IfOk result (λ begun. IfSome begun (λ draft. IfSome draft
        (λ draft. IsBegun (D.paths disk.old) path.now draft.names
        (writer_contents D.File.contents draft.writer) (D.told disk.old) (D.told disk.new)))) }
    ensures fixed { IfOk result (λ begun. MatchOption begun
        (IsFixedOn (D.paths disk.old) path.now (D.told disk.old)) (λ _. Unit {0})) }
    ensures still { IfOk result (λ begun. MatchOption begun
        (IsStill (D.told disk.old) (D.told disk.new)) (λ draft. MatchOption draft
        (IsStill (D.told disk.old) (D.told disk.new)) (λ _. Unit {0}))) }
    ensures stays { OnErr result (IsLeft (D.paths disk.old) path.now
        (D.told disk.old) (D.told disk.new) (D.kept disk.new)) }
{
    let Some(place) = find_place(disk, alloc, path)? else {
        return Ok(None);
    };
    match disk.facts_at(place.as_str()) {
        Ok(named) => {
            if !is_of(&named, told) {
                return Ok(Some(None));
            }
        }
        Err(_) => return Err(DraftFault::Open),
    }
    if !disk.can_be_replaced(place.as_str()) {
        return Ok(None);
    }
    match begin_beside(disk, alloc, place, told)? {
        Some(draft) => Ok(Some(Some(draft))),
        None => Ok(None),
    }
}

/// Whether what is told of a name is that it is the one of a file.
fn is_of(named: &Option<FileFacts>, file: &FileFacts) -> bool {
    match named {
        Some(named) => named.number == file.number,
        None => false,
    }
}

/// Begins to write straight into an old file, where no other run does; none where its name is
/// another one's by now. The memory for the draft is taken before the file is emptied.
fn begin_straight<D: Disk>(
    disk: &mut D,
    alloc: Global,
    path: &str,
    old: D::File,
    told: &FileFacts,
) -> Result<Option<Draft<D>>, DraftFault>
    ensures paths { D.paths disk.new ≡ D.paths disk.old }
    ensures straight { IfOk result (λ draft. MatchOption draft (D.told disk.new ≡ D.told disk.old)
        (λ draft. (draft.names ≡ None) × (D.told disk.new ≡ None))) }
    ensures stays { OnErr result (D.told disk.new ≡ D.told disk.old) }
{
    match disk.facts_behind(path) {
        Ok(named) => {
            if !is_of(&named, told) {
                return Ok(None);
            }
        }
        Err(_) => return Err(DraftFault::Open),
    }
    let draft = straight(alloc, old)?;
    if disk.empty(draft.writer.get_ref()) {
        Ok(Some(draft))
    } else {
        Err(DraftFault::Open)
    }
}

/// Begins to write a file that is not there.
fn begin_anew<D: Disk>(disk: &mut D, alloc: Global, path: &str) -> Result<Draft<D>, DraftFault>
    ensures paths { D.paths disk.new ≡ D.paths disk.old }
    ensures begun { IfOk result (λ draft. IsBegun (D.paths disk.old) path.now draft.names
        (writer_contents D.File.contents draft.writer) (D.told disk.old) (D.told disk.new)) }
    ensures stays { OnErr result (IsLeft (D.paths disk.old) path.now
        (D.told disk.old) (D.told disk.new) (D.kept disk.new)) }
{
    if path.is_empty() {
        return Err(DraftFault::Open);
    }
    let Some(place) = find_place(disk, alloc, path)? else {
        return Err(DraftFault::Open);
    };
    match create_beside(disk, alloc, place, 0o666)? {
        Some((file, names)) => match drafted(disk, alloc, file, names) {
            Ok(draft) => Ok(draft),
            Err(fault) => Err(fault),
        },
        None => Err(DraftFault::Open),
    }
}

/// Begins to write a new file that is to take the place of an old one; none where it could not.
fn begin_beside<D: Disk>(
    disk: &mut D,
    alloc: Global,
    place: String,
    old: &FileFacts,
) -> Result<Option<Draft<D>>, DraftFault>
    ensures paths { D.paths disk.new ≡ D.paths disk.old }
    ensures ready { IfOk result (λ draft. IfSome draft (λ draft. IsSomeAnd draft.names (λ names.
        (string_bytes names.place ≡ string_bytes place) × IsReady (D.paths disk.old) names
        (writer_contents D.File.contents draft.writer)
        (D.told disk.old) (D.told disk.new)))) }
    ensures some { (first : Moment) (past : List Moment) → D.told disk.old ≡ Some (first ∷ past)
        → IfOk result (λ draft. IsSome draft) }
    ensures stays { OnErr result (StaysAt (place_of (D.paths disk.old) (string_bytes place))
        (D.told disk.old) (D.told disk.new)) }
    ensures others { OnErr result (IsTidy (D.told disk.old) (D.told disk.new) (D.kept disk.new)) }
{
    let Some((file, names)) = create_beside(disk, alloc, place, 0o600)? else {
        return Ok(None);
    };
    match disk.make_like(&file, old) {
        Ok(true) => match drafted(disk, alloc, file, names) {
            Ok(draft) => Ok(Some(draft)),
            Err(fault) => Err(fault),
        },
        Ok(false) => {
            discard(disk, &names);
            Ok(None)
        }
        Err(_) => {
            discard(disk, &names);
            Err(DraftFault::Open)
        }
    }
}

/// The path whose place a new file takes: the given one, or the one to which links lead from there,
/// also where no file has it. None for the name of an open file, and behind too many links.
fn find_place<D: Disk>(
    disk: &mut D,
    alloc: Global,
    path: &str,
) -> Result<Option<String>, DraftFault>
    ensures paths { D.paths disk.new ≡ D.paths disk.old }
    ensures stays { D.told disk.new ≡ D.told disk.old }
    ensures leads { IfOk result (λ found. IfSome found (λ place. (moments : List Moment)
        → D.told disk.old ≡ Some moments
        → LeadsTo (D.paths disk.old) path.now (string_bytes place))) }
    ensures fixed { IfOk result (λ found. MatchOption found
        (IsFixedOn (D.paths disk.old) path.now (D.told disk.old)) (λ _. Unit {0})) }
{
    let mut place = String::from_str(alloc, path)?;
    'links: for _followed in 0..LINKS + 1 {
        if is_open_file(place.as_str()) {
            return Ok(None);
        }
        match disk.link(alloc, place.as_str()) {
            Ok(Link::To(target)) => place = linked(alloc, place.as_str(), target.as_str())?,
            Ok(Link::Not) => return Ok(Some(place)),
            Err(_) => return Err(DraftFault::Open),
        }
    }
    Ok(None)
}

/// Whether a name is that of an open file.
fn is_open_file(path: &str) -> bool
    ensures { result ≡ is_open_name path.now }
{
    path.starts_with("/dev/std") || path.starts_with("/dev/fd/") || path.starts_with("/proc/")
}

/// Makes a new file in the folder of another, under a name that no file has: `bearoff-RUN.tmp`, and
/// a number behind RUN, the text of this run, where that is taken. None where the folder can't be
/// written.
fn create_beside<D: Disk>(
    disk: &mut D,
    alloc: Global,
    place: String,
    mode: u32,
) -> Result<Option<(D::File, Names)>, DraftFault>
    ensures paths { D.paths disk.new ≡ D.paths disk.old }
    ensures same { MatchResult result
        (λ made. MatchOption made (D.told disk.new ≡ D.told disk.old) (λ _. Unit {0}))
        (λ _. D.told disk.new ≡ D.told disk.old) }
    ensures ready { IfOk result (λ made. IfSome made (λ made.
        (string_bytes made.1.place ≡ string_bytes place)
        × IsReady (D.paths disk.old) made.1 (D.File.contents made.0)
        (D.told disk.old) (D.told disk.new))) }
    ensures some { (moments : List Moment) → D.told disk.old ≡ Some moments
        → IfOk result (λ made. IsSome made) }
{
    let folder = folder_of(alloc, place.as_str())?;
    let run = disk.run_text(alloc)?;
    'names: for number in 0..NAMES {
        let new = new_path(alloc, folder.as_str(), run.as_str(), number)?;
        match create_at(disk, new.as_str(), place.as_str(), mode)? {
            Made::File(file) => return Ok(Some((file, Names { new, place, folder }))),
            Made::Taken => {}
            Made::Refused => return Ok(None),
        }
    }
    Err(DraftFault::Open)
}

/// Makes a new file beside another one. The other's name is taken, also where no file has it.
fn create_at<D: Disk>(
    disk: &mut D,
    new: &str,
    place: &str,
    mode: u32,
) -> Result<Made<D::File>, DraftFault>
    ensures paths { D.paths disk.new ≡ D.paths disk.old }
    ensures made { IfOk result (AnswersBeside D.File.contents
        (place_of (D.paths disk.old) place.now) (place_of (D.paths disk.old) new.now)
        (D.told disk.old) (D.told disk.new)) }
    ensures allowed { (moments : List Moment) → D.told disk.old ≡ Some moments
        → IfOk result IsAllowed }
    ensures failed { OnErr result (D.told disk.new ≡ D.told disk.old) }
{
    if name_of(new) == name_of(place) {
        return Ok(Made::Taken);
    }
    disk.create(new, mode).map_err(|_| DraftFault::Open)
}

/// A draft in a new file, which is taken away where there is no room.
fn drafted<D: Disk>(
    disk: &mut D,
    alloc: Global,
    file: D::File,
    names: Names,
) -> Result<Draft<D>, DraftFault>
    ensures paths { D.paths disk.new ≡ D.paths disk.old }
    ensures same { OnOk result (D.told disk.new ≡ D.told disk.old) }
    ensures names { IfOk result (λ draft. draft.names ≡ Some names) }
    ensures holds { IfOk result (λ draft.
        Keeps (D.File.contents file) (writer_contents D.File.contents draft.writer)) }
    ensures gone { OnErr result (RemovesOrStays
        (place_of (D.paths disk.old) (string_bytes names.new))
        (D.told disk.old) (D.told disk.new)) }
    ensures kept { OnErr result (Steps (Removes
        (place_of (D.paths disk.old) (string_bytes names.new)))
        (D.told disk.old) (D.told disk.new) ⊎ D.kept disk.new) }
{
    match straight::<D>(alloc, file) {
        Ok(Draft { writer, names: _ }) => Ok(Draft {
            writer,
            names: Some(names),
        }),
        Err(fault) => {
            discard(disk, &names);
            Err(fault)
        }
    }
}

/// A draft in the file that was asked for.
fn straight<D: Disk>(alloc: Global, file: D::File) -> Result<Draft<D>, DraftFault>
    ensures names { IfOk result (λ draft. draft.names ≡ None) }
    ensures holds { IfOk result (λ draft.
        Keeps (D.File.contents file) (writer_contents D.File.contents draft.writer)) }
{
    match BufWriter::with_capacity(alloc, BLOCK, file) {
        Ok(writer) => Ok(Draft {
            writer,
            names: None,
        }),
        Err(_) => Err(DraftFault::Memory),
    }
}

impl<D: Disk> Draft<D> {
    /// Finishes a file after its last byte, or after a fault, which it returns: the new file is
    /// taken away, and the old one stays. Else `Write` where the bytes can't be brought to the
    /// disk or the new file can't take the place of the old one, with the same after it, and where
    /// that place can't be brought to the disk: then the new file has it. No memory is taken.
    /// Under its first name the new file stays only where the disk fails to take it away.
    pub fn finish(self, disk: &mut D, written: Result<(), DraftFault>) -> Result<(), DraftFault>
        ensures paths { D.paths disk.new ≡ D.paths disk.old }
        ensures fault { IfErr written (λ fault. result ≡ Err fault) }
        ensures closing { IfOk written (λ _. IfErr result (λ fault. fault ≡ Write)) }
        ensures put { IsPut (D.paths disk.old) self.names
            (writer_contents D.File.contents self.writer) (D.told disk.old) (D.told disk.new)
            result }
        ensures stays { OnErr written
            (IsDropped (D.paths disk.old) self.names (D.told disk.old) (D.told disk.new)) }
        ensures gone { IsGone (D.paths disk.old) self.names (D.told disk.old) (D.told disk.new)
            (OnOk written (IsSome (writer_contents D.File.contents self.writer)))
            (D.kept disk.new) }
        ensures closed { self.names ≡ None
            → Closes result (writer_contents D.File.contents self.writer) (D.closed disk.new) }
    {
        let Draft { writer, names } = self;
        match names {
            Some(names) => end_beside(disk, &names, writer, written),
            None => end_straight(disk, writer, written),
        }
    }
}

/// Ends a new file, which takes its place where it was written to its end.
fn end_beside<D: Disk>(
    disk: &mut D,
    names: &Names,
    writer: BufWriter<D::File>,
    written: Result<(), DraftFault>,
) -> Result<(), DraftFault>
    ensures paths { D.paths disk.new ≡ D.paths disk.old }
    ensures fault { IfErr written (λ fault. result ≡ Err fault) }
    ensures closing { IfOk written (λ _. IfErr result (λ fault. fault ≡ Write)) }
    ensures put { IsPut (D.paths disk.old) (Some names.now)
        (writer_contents D.File.contents writer) (D.told disk.old) (D.told disk.new) result }
    ensures stays { OnErr written
        (IsDropped (D.paths disk.old) (Some names.now) (D.told disk.old) (D.told disk.new)) }
    ensures gone { IsGone (D.paths disk.old) (Some names.now) (D.told disk.old) (D.told disk.new)
        (OnOk written (IsSome (writer_contents D.File.contents writer))) (D.kept disk.new) }
{
    match written {
        Ok(()) => put(disk, names, writer),
        Err(fault) => {
            drop(writer);
            discard(disk, names);
            Err(fault)
        }
    }
}

/// Ends a file that was written straight.
fn end_straight<D: Disk>(
    disk: &mut D,
    writer: BufWriter<D::File>,
    written: Result<(), DraftFault>,
) -> Result<(), DraftFault>
    ensures paths { D.paths disk.new ≡ D.paths disk.old }
    ensures fault { IfErr written (λ fault. result ≡ Err fault) }
    ensures closing { IfOk written (λ _. IfErr result (λ fault. fault ≡ Write)) }
    ensures stays { D.told disk.old ≡ None → D.told disk.new ≡ None }
    ensures closed { Closes result (writer_contents D.File.contents writer) (D.closed disk.new) }
{
    match written {
        Ok(()) => close(disk, writer),
        Err(fault) => Err(fault),
    }
}

/// Brings what was written straight into an old file to the disk.
#[tactic(auto, using(crate::proofs::Known::known_kept))]
fn close<D: Disk>(disk: &mut D, writer: BufWriter<D::File>) -> Result<(), DraftFault>
    ensures paths { D.paths disk.new ≡ D.paths disk.old }
    ensures fault { IfErr result (λ fault. fault ≡ Write) }
    ensures stays { D.told disk.old ≡ None → D.told disk.new ≡ None }
    ensures closed { Closes result (writer_contents D.File.contents writer) (D.closed disk.new) }
{
    let Ok(file) = writer.into_inner() else {
        return Err(DraftFault::Write);
    };
    disk.close(file).map_err(|_| DraftFault::Write)
}

/// Makes sure of the bytes of a new file that was written to its end.
fn settle<D: Disk>(
    disk: &mut D,
    names: &Names,
    writer: BufWriter<D::File>,
) -> Result<D::File, DraftFault>
    ensures paths { D.paths disk.new ≡ D.paths disk.old }
    ensures settled { OnOk result ((bytes : List ℕ)
        → writer_contents D.File.contents writer ≡ Some bytes
        → Steps (Settles (place_of (D.paths disk.old) (string_bytes names.now.new)) bytes)
        (D.told disk.old) (D.told disk.new)) }
    ensures failed { OnErr result (D.told disk.new ≡ D.told disk.old) }
    ensures fault { IfErr result (λ fault. fault ≡ Write) }
{
    let Ok(file) = writer.into_inner() else {
        return Err(DraftFault::Write);
    };
    match disk.settle(file, names.new.as_str()) {
        Ok(file) => Ok(file),
        Err(_) => Err(DraftFault::Write),
    }
}

/// Whether a path names an open file, and no other that was put there meanwhile.
fn names_file<D: Disk>(disk: &mut D, path: &str, file: &D::File) -> bool
    ensures paths { D.paths disk.new ≡ D.paths disk.old }
    ensures stays { D.told disk.new ≡ D.told disk.old }
{
    match (disk.facts(file), disk.facts_at(path)) {
        (Ok(told), Ok(named)) => is_of(&named, &told),
        _ => false,
    }
}

/// Renames a synced new file to its final name, if it still has its first one.
fn rename<D: Disk>(disk: &mut D, names: &Names, file: &D::File) -> Result<(), DraftFault>
    ensures paths { D.paths disk.new ≡ D.paths disk.old }
    ensures renamed { OnOk result (Steps (Renames
        (place_of (D.paths disk.old) (string_bytes names.now.new))
        (place_of (D.paths disk.old) (string_bytes names.now.place)))
        (D.told disk.old) (D.told disk.new)) }
    ensures failed { OnErr result (D.told disk.new ≡ D.told disk.old) }
    ensures fault { IfErr result (λ fault. fault ≡ Write) }
{
    if !names_file(disk, names.new.as_str(), file) {
        return Err(DraftFault::Write);
    }
    disk.rename(names.new.as_str(), names.place.as_str())
        .map_err(|_| DraftFault::Write)
}

/// Takes a new file away, where that can be done.
fn discard<D: Disk>(disk: &mut D, names: &Names)
    ensures paths { D.paths disk.new ≡ D.paths disk.old }
    ensures gone { RemovesOrStays (place_of (D.paths disk.old) (string_bytes names.now.new))
        (D.told disk.old) (D.told disk.new) }
    ensures kept { Steps (Removes (place_of (D.paths disk.old) (string_bytes names.now.new)))
        (D.told disk.old) (D.told disk.new) ⊎ D.kept disk.new }
{
    let _ = disk.remove(names.new.as_str());
}

/// Makes sure of the names in the folder of a new file, where that can be done.
fn settle_names<D: Disk>(disk: &mut D, names: &Names) -> Result<bool, DraftFault>
    ensures paths { D.paths disk.new ≡ D.paths disk.old }
    ensures settled { IfOk result (AnswersSettled (D.paths disk.old)
        ((D.paths disk.old).folder (string_bytes names.now.folder))
        (D.told disk.old) (D.told disk.new)) }
    ensures failed { OnErr result (D.told disk.new ≡ D.told disk.old) }
    ensures fault { IfErr result (λ fault. fault ≡ Write) }
{
    disk.settle_names(names.folder.as_str())
        .map_err(|_| DraftFault::Write)
}

/// Puts a new file that was written to its end in its place; where that fails, takes it away.
fn put<D: Disk>(disk: &mut D, names: &Names, writer: BufWriter<D::File>) -> Result<(), DraftFault>
    ensures paths { D.paths disk.new ≡ D.paths disk.old }
    ensures put { IsPut (D.paths disk.old) (Some names.now)
        (writer_contents D.File.contents writer) (D.told disk.old) (D.told disk.new) result }
    ensures gone { IsGone (D.paths disk.old) (Some names.now) (D.told disk.old) (D.told disk.new)
        (IsSome (writer_contents D.File.contents writer)) (D.kept disk.new) }
    ensures fault { IfErr result (λ fault. fault ≡ Write) }
{
    match settle(disk, names, writer) {
        Ok(file) => match rename(disk, names, &file) {
            Ok(()) => match settle_names(disk, names) {
                Ok(_) => Ok(()),
                Err(fault) => Err(fault),
            },
            Err(fault) => {
                discard(disk, names);
                Err(fault)
            }
        },
        Err(fault) => {
            discard(disk, names);
            Err(fault)
        }
    }
}
