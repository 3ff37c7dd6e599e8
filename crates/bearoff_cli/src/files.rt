//! Files, read and written by blocks.
ghost use Rattle.std.specs.Prelude.{◌≡◌, ◌≤◌, length, take, Ok, Err, IfOk, IfErr, IsSome, OnOk, OnErr};
ghost use Rattle.std.specs.Io.KnownBytes.{Appends, Consumes, IsAtEnd, Keeps};
ghost use Rattle.bearoff_cli.specs.Faults.{status_of, IsAmong, build_faults, of_unread, read_faults, upgrade_faults};
ghost use Rattle.bearoff_cli.specs.declared.fault.Fault.TheVariants.{File, Write};
ghost use Rattle.bearoff_cli.specs.FileAnswers.{IsHandedTo, IsReadFrom};
ghost use Rattle.bearoff_cli.specs.Kinds.{IsBuiltOf, WritesBuiltOf};
ghost use Rattle.bearoff_cli.specs.PutFiles.{IsEnded, KeepsAll};
ghost use Rattle.race_model.specs.Prelude.{full, IsUpgrade};
ghost use Rattle.db_layout.specs.Writes.{AppendsPart};
ghost use Rattle.db_reader.specs.Telling.{WhereTold};
ghost use Rattle.certificate.specs.Upgrades.{WritesUpgrade};
ghost use Rattle.std.specs.Io.Buffered.{writer_contents};
ghost use Rattle.whole_file.specs.Drafts.{IsDropped, IsGone, IsPut};
ghost use Rattle.whole_file.specs.Puts.{Puts};

use crate::fault::Fault;
use certificate::Checked;
use db_layout::{BoardHeader, Header, Kind, write_bytes};
use db_reader::Table;
use retrograde::{build, build_board, usual_version};
use std::alloc::{AllocError, Global};
use std::io;
use std::io::{BufWriter, Read, Write};
use whole_file::{Disk, Draft, DraftFault, begin};

/// How many bytes one read moves, on a stack that can't grow while `stack_room` keeps its room.
const BLOCK: usize = 32768;

/// How many bytes of stack a check or a build needs at most, beyond the 128 KB of a start.
const STACK: usize = 896 << 10;

/// How many bytes a record that is kept takes at most, with its part of the tables of the cache.
const KEPT_RECORD: usize = 640;

/// How many bytes of a file are read at most: one more than a whole file may have, so that a
/// longer one keeps the fault of its header, its length if it has no other.
pub const MOST_BYTES: usize = 20_000_001;

/// Why a file was not read, with what the system says of it.
#[derive(Drop)]
pub enum Unread {
    /// There was no memory.
    Memory,

    /// It can't be opened.
    Open(io::Error),

    /// A read failed.
    Read(io::Error),
}

impl From<Unread> for Fault {
    ghost from_gives = { λ unread fault. (fault ≡ of_unread unread) × IsAmong read_faults fault };

    fn from(unread: Unread) -> Self {
        match unread {
            Unread::Memory => Fault::Memory,
            Unread::Open(_) => Fault::Open,
            Unread::Read(_) => Fault::File,
        }
    }
}

impl From<DraftFault> for Fault {
    ghost from_gives = { λ _ fault. (status_of fault ≡ 1) × IsAmong build_faults fault };

    fn from(fault: DraftFault) -> Self {
        match fault {
            DraftFault::Open => Fault::Open,
            DraftFault::Write => Fault::Write,
            DraftFault::Memory => Fault::Memory,
        }
    }
}

impl From<AllocError> for Unread {
    fn from(_error: AllocError) -> Self {
        Unread::Memory
    }
}

/// At most 20,000,001 bytes of a file. `Memory` where a check's stack or the bytes find
/// no room, `Open` where the file can't be opened, `Read` where a read fails.
pub fn read_file<D: Disk>(disk: &mut D, alloc: Global, path: &str) -> Result<Vec<u8>, Unread>
    ensures read { IfOk result (λ bytes. IsReadFrom D.Reader.remaining (D.paths disk.old)
        (D.told disk.old) path.now bytes.items) }
    ensures paths { D.paths disk.new ≡ D.paths disk.old }
    ensures stays { D.told disk.new ≡ D.told disk.old }
{
    let Ok(_room) = stack_room(alloc) else {
        return Err(Unread::Memory);
    };
    match disk.open_to_read(path) {
        Ok(mut file) => read_bytes(alloc, &mut file),
        Err(error) => Err(Unread::Open(error)),
    }
}

/// The bytes that a reader has left, at most 20,000,001 of them.
pub fn read_bytes<F: Read>(alloc: Global, file: &mut F) -> Result<Vec<u8>, Unread>
    ensures read { WhereTold (F.remaining file.old)
        (λ left. IfOk result (λ bytes. bytes.items ≡ take 20000001 left)) }
{
    let mut bytes = Vec::new(alloc);
    let mut block = [0; BLOCK];
    for _turn in 0..MOST_BYTES {
        let read = read_block(file, &mut block)?;
        if read.is_empty() {
            return Ok(bytes);
        }
        bytes.extend_from_slice(read)?;
        if bytes.len() >= MOST_BYTES {
            bytes.truncate(MOST_BYTES);
            return Ok(bytes);
        }
    }
    Ok(bytes)
}

/// Room that is kept while memory grows, and let go before a check or a build for its stack. A run
/// takes it once: what is taken a second time the C library doesn't give back to the system.
pub fn stack_room(alloc: Global) -> Result<Vec<u8>, AllocError> {
    Vec::with_capacity(alloc, STACK)
}

/// How many records there is room for: at least one, at most so many, and some memory is left.
pub fn affordable(alloc: Global, records: u16) -> u16
    ensures some { 1 ≤ result }
    ensures most { 1 ≤ records → result ≤ records }
{
    for halvings in 0..u16::BITS {
        let count = records.min(u16::MAX >> halvings).max(1);
        if has_room(alloc, usize::from(count) * KEPT_RECORD) {
            return count;
        }
    }
    1
}

/// Whether there is room for so many bytes.
fn has_room(alloc: Global, bytes: usize) -> bool {
    let room: Result<Vec<u8>, _> = Vec::with_capacity(alloc, bytes);
    room.is_ok()
}

/// What one read gives; nothing at the end of the file.
fn read_block<'a, F: Read>(file: &mut F, block: &'a mut [u8; BLOCK]) -> Result<&'a [u8], Unread>
    ensures fault { IfErr result (λ unread. of_unread unread ≡ File) }
    ensures read { IfOk result
        (λ bytes. Consumes (F.remaining file.old) (F.remaining file.new) bytes.now) }
    ensures end { IfOk result (λ bytes. length bytes.now ≡ 0 → IsAtEnd (F.remaining file.new)) }
{
    match file.read(block) {
        Ok(count) => Ok(&block[..count]),
        Err(error) => Err(Unread::Read(error)),
    }
}

/// Ends a file that was written, or one at which a fault came, which is then answered.
fn finish_file<D: Disk>(
    disk: &mut D,
    draft: Draft<D>,
    written: Result<(), Fault>,
) -> Result<(), Fault>
    ensures fault { IfErr written (λ fault. result ≡ Err fault) }
    ensures cause { IfOk written (λ _. IfErr result (IsAmong build_faults)) }
    ensures paths { D.paths disk.new ≡ D.paths disk.old }
    ensures put { OnOk result (IsPut (D.paths disk.old) draft.names
        (writer_contents D.File.contents draft.writer) (D.told disk.old) (D.told disk.new)
        (Ok (tt {0}))) }
    ensures kept { OnOk written (IsEnded (D.paths disk.old) draft.names
        (writer_contents D.File.contents draft.writer) (D.told disk.old) (D.told disk.new)) }
    ensures dropped { OnErr written
        (IsDropped (D.paths disk.old) draft.names (D.told disk.old) (D.told disk.new)) }
    ensures gone { IsGone (D.paths disk.old) draft.names (D.told disk.old) (D.told disk.new)
        (OnOk written (IsSome (writer_contents D.File.contents draft.writer)))
        (D.kept disk.new) }
{
    match written {
        Ok(()) => match draft.finish(disk, Ok(())) {
            Ok(()) => Ok(()),
            Err(fault) => Err(Fault::from(fault)),
        },
        Err(fault) => {
            let _ = draft.finish(disk, Err(DraftFault::Write));
            Err(fault)
        }
    }
}

/// Builds the file of a kind and a pip bound in memory, and then writes it: it takes the place of
/// an old one once it is complete (`draft`). `Open` where it can't be made, and `Write` where a
/// write fails: then the old file stays, or, written straight, may hold a prefix of the new one.
pub fn build_file<D: Disk>(
    disk: &mut D,
    alloc: Global,
    kind: Kind,
    pips: u8,
    path: &str,
) -> Result<(), Fault>
    ensures cause { IfErr result (IsAmong build_faults) }
    ensures built { OnOk result (IsHandedTo ⟦<BufWriter<D::File> as Write>⟧.contents
        (WritesBuiltOf kind pips)) }
    ensures paths { D.paths disk.new ≡ D.paths disk.old }
    ensures put { OnOk result (Puts (D.paths disk.old) path.now (IsBuiltOf kind pips)
        (D.told disk.old) (D.told disk.new)) }
    ensures kept { KeepsAll (D.paths disk.old) path.now (IsBuiltOf kind pips)
        (D.told disk.old) (D.told disk.new) (D.kept disk.new) }
{
    let file = built_file(alloc, kind, pips)?;
    let mut draft = begin(disk, alloc, path)?;
    let written = write_flushed(file.as_slice(), &mut draft.writer);
    finish_file(disk, draft, written)
}

/// The built file of a kind and a pip bound, refused where it or the stack finds no room.
// so that the room of the builder is not part of its caller's
#[inline(never)]
pub fn built_file(alloc: Global, kind: Kind, pips: u8) -> Result<Vec<u8>, AllocError>
    ensures { IfOk result (λ file. IsBuiltOf kind pips file.items) }
{
    let room = stack_room(alloc)?;
    match kind {
        Kind::Database => {
            let header = Header::new(usual_version(pips), pips);
            let size = header.map_or(0, |header| header.end() as usize);
            let mut file = Vec::with_capacity(alloc, size)?;
            drop(room);
            match build(alloc, pips, &mut file) {
                Ok(()) => Ok(file),
                Err(_) => Err(AllocError),
            }
        }
        Kind::Board => {
            let size = BoardHeader::new(pips).map_or(0, |header| header.end());
            let mut file = vec![in alloc; 0; size]?;
            drop(room);
            match build_board(pips, file.as_mut_slice()) {
                Ok(count) => {
                    file.truncate(count);
                    Ok(file)
                }
                Err(_) => Err(AllocError),
            }
        }
    }
}

/// Writes a checked database of version 1 as a file of version 2, with `build_file`'s faults.
pub fn upgrade_file<D: Disk, T: Table>(
    disk: &mut D,
    alloc: Global,
    checked: &mut Checked<T>,
    path: &str,
) -> Result<(), Fault>
    ensures upgraded { WhereTold checked.old.told
        (λ file. OnOk result (IsHandedTo ⟦<BufWriter<D::File> as Write>⟧.contents
        (WritesUpgrade file))) }
    ensures paths { D.paths disk.new ≡ D.paths disk.old }
    ensures put { WhereTold checked.old.told (λ file. OnOk result (Puts (D.paths disk.old) path.now
        (IsUpgrade file) (D.told disk.old) (D.told disk.new))) }
    ensures kept { WhereTold checked.old.told (λ file. KeepsAll (D.paths disk.old) path.now
        (IsUpgrade file) (D.told disk.old) (D.told disk.new) (D.kept disk.new)) }
    ensures cause { IfErr result (IsAmong upgrade_faults) }
    ensures fault { checked.old.version ≡ full → IfErr result (λ fault. status_of fault ≡ 1) }
    ensures stays { (checked.new.told ≡ checked.old.told)
        × (checked.new.bound ≡ checked.old.bound) }
{
    let mut draft = begin(disk, alloc, path)?;
    let written = upgrade_into(checked, &mut draft.writer);
    finish_file(disk, draft, written)
}

/// Writes a checked database of version 1 as one of version 2, to its last byte.
fn upgrade_into<T: Table, O: Write>(checked: &mut Checked<T>, output: &mut O) -> Result<(), Fault>
    ensures upgraded { WhereTold checked.old.told (λ file. OnOk result
        (WritesUpgrade file (O.contents output.old) (O.contents output.new))) }
    ensures cause { IfErr result (IsAmong upgrade_faults) }
    ensures fault { checked.old.version ≡ full → IfErr result (λ fault. status_of fault ≡ 1) }
    ensures stays { (checked.new.told ≡ checked.old.told)
        × (checked.new.bound ≡ checked.old.bound) }
{
    checked.upgrade(output)?;
    flush(output)
}

/// Writes bytes, and hands on what the writer may still hold.
pub fn write_flushed<O: Write>(bytes: &[u8], output: &mut O) -> Result<(), Fault>
    ensures cause { IfErr result (λ fault. fault ≡ Write) }
    ensures part { OnErr result
        (AppendsPart (O.contents output.old) (O.contents output.new) bytes.now) }
    ensures all { OnOk result
        (Appends (O.contents output.old) (O.contents output.new) bytes.now) }
{
    match write_bytes(bytes, output) {
        Ok(()) => flush(output),
        Err(_) => Err(Fault::Write),
    }
}

/// Hands on what a writer may still hold.
pub fn flush<O: Write>(output: &mut O) -> Result<(), Fault>
    ensures cause { IfErr result (λ fault. fault ≡ Write) }
    ensures kept { Keeps (O.contents output.old) (O.contents output.new) }
{
    output.flush().map_err(|_| Fault::Write)
}
