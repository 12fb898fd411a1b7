//! Files, read whole by their names.

ghost use Rattle.std.specs.Prelude.{◌≡◌, ℕ, ◌+◌, ◌≤◌, List, [], Option, Some, None, IsErrOf, IfOk, IfErr, length};
ghost use Rattle.std.specs.Option.{option_copied};
ghost use Rattle.jute_core.specs.Faults.{Rose};
ghost use Rattle.audit_board.specs.Counts.{next};
ghost use Rattle.replay_cli.specs.Told.{Told, untold};
ghost use Rattle.replay_cli.specs.Files.{ReadsFile, FailsAs, ReadsIn, GivesPart, told_left, told_under, first_named};

use jute_core::{Bytes, Text};
use std::alloc::Global;
use std::fs;
use std::io::Read;
use std::marker::Model;

/// Why a file could not be read.
#[derive(Clone, Copy, Debug, Drop, PartialEq, Eq)]
pub enum FileFault {
    /// There is no such file, or a read failed.
    Failed,
    /// It has more bytes than the limit: so many were seen.
    TooLong { length: u64 },
    /// There was no memory.
    Memory,
}

/// Where files are read.
pub trait Files {
    /// What is told of the file under a name.
    ghost told: { Self → List ℕ → Told };
    /// How often a read failed, up to the last value of a u64.
    ghost faults: { Self → ℕ };
    /// How many reads were called, up to the last value of a u64.
    ghost reads: { Self → ℕ };
    /// The number of the last read that failed, from 0, if one did.
    ghost failed: { Self → Option ℕ };

    /// All the bytes of a file, if they are at most `limit`. No read changes what the files hold.
    fn read(&mut self, alloc: Global, name: &str, limit: u64) -> Result<Bytes, FileFault>
        ensures content { ReadsFile (told self.old name.now) limit result }
        ensures same { (other : List ℕ) → told self.new other ≡ told self.old other }
        ensures later { faults self.old ≤ faults self.new }
        ensures failed { IsErrOf result FileFault.Failed
            → Rose (faults self.old) (faults self.new) }
        ensures counted { reads self.new ≡ next (reads self.old) }
        ensures numbered { FailsAs (failed self.old) (failed self.new) (reads self.old) result };

    /// How often a read failed.
    fn faults(&self) -> u64
        ensures { result ≡ faults self.now };
}

/// A file in memory.
#[derive(Debug, Drop)]
pub struct NamedFile {
    /// The name that a read gives.
    pub name: Text,
    /// What the file holds.
    pub bytes: Bytes,
}

/// Files in memory. A read fails where its number is listed, and where no file has the name.
#[derive(Drop)]
pub struct MemoryFiles {
    files: Vec<NamedFile>,
    fails: Vec<u64>,
    calls: u64,
    faults: u64,
    failed: Option<u64>,
    short: u64,
}

impl Model for MemoryFiles {
    ghost use Rattle.replay_cli.specs.Files.{FilesState};

    ghost Value = { FilesState };

    ghost view = { λ f. record { files = f.files.items; fails = f.fails.items; calls = f.calls; faults = f.faults; failed = f.failed; short = f.short } };
}

impl MemoryFiles {
    /// Files of which the first of a name counts, and the numbers, from 0, of the reads that fail.
    pub fn new(files: Vec<NamedFile>, fails: Vec<u64>) -> MemoryFiles
        ensures { result ≡ record { files = files.items; fails = fails.items; calls = 0; faults = 0; failed = None; short = 0 } }
    {
        MemoryFiles {
            files,
            fails,
            calls: 0,
            faults: 0,
            failed: None,
            short: 0,
        }
    }

    /// How often there was no memory for what was read.
    pub fn short(&self) -> u64
        ensures { result ≡ self.now.short }
    {
        self.short
    }
}

// The first file of this name.
fn named<'a>(files: &'a [NamedFile], name: &str) -> Option<&'a NamedFile>
    ensures { option_copied result ≡ first_named files.now name.now }
{
    files.iter().find(|file| file.name.as_str() == name)
}

fn copy_of(alloc: Global, bytes: &[u8]) -> Result<Bytes, FileFault>
    ensures ok { IfOk result (λ copy. copy ≡ bytes.now) }
    ensures err { IfErr result (λ fault. fault ≡ FileFault.Memory) }
{
    match Vec::from_slice(alloc, bytes) {
        Ok(copy) => Ok(Bytes::of(copy)),
        Err(_) => Err(FileFault::Memory),
    }
}

impl Files for MemoryFiles {
    ghost use Rattle.replay_cli.specs.Files.{told_under};

    ghost told = { λ f name. told_under f.files name };

    ghost faults = { λ f. f.faults };

    ghost reads = { λ f. f.calls };

    ghost failed = { λ f. f.failed };

    fn read(&mut self, alloc: Global, name: &str, limit: u64) -> Result<Bytes, FileFault>
        ensures content { ReadsFile (told_under self.old.files name.now) limit result }
        ensures same { (other : List ℕ)
            → told_under self.new.files other ≡ told_under self.old.files other }
        ensures later { self.old.faults ≤ self.new.faults }
        ensures failed { IsErrOf result FileFault.Failed → Rose self.old.faults self.new.faults }
        ensures counted { self.new.calls ≡ next self.old.calls }
        ensures numbered { FailsAs self.old.failed self.new.failed self.old.calls result }
        ensures state { ReadsIn name.now self.old self.new result }
    {
        let call = self.calls;
        self.calls = call.saturating_add(1);
        if self.fails.contains(&call) {
            self.faults = self.faults.saturating_add(1);
            self.failed = Some(call);
            return Err(FileFault::Failed);
        }
        let Some(file) = named(self.files.as_slice(), name) else {
            self.faults = self.faults.saturating_add(1);
            self.failed = Some(call);
            return Err(FileFault::Failed);
        };
        let length = file.bytes.len() as u64;
        if limit < length {
            return Err(FileFault::TooLong { length });
        }
        let Ok(bytes) = copy_of(alloc, file.bytes.as_slice()) else {
            self.short = self.short.saturating_add(1);
            return Err(FileFault::Memory);
        };
        Ok(bytes)
    }

    fn faults(&self) -> u64 {
        self.faults
    }
}

/// The files of the system. They tell nothing of what they hold.
#[derive(Drop)]
pub struct RealFiles<R: Drop> {
    rt: R,
    reads: u64,
    faults: u64,
    failed: Option<u64>,
}

impl<R: Drop> RealFiles<R> {
    /// Files of which none was read so far.
    pub fn new(rt: R) -> RealFiles<R>
        ensures faults { result.faults ≡ 0 }
        ensures reads { result.reads ≡ 0 }
        ensures failed { result.failed ≡ None }
    {
        RealFiles {
            rt,
            reads: 0,
            faults: 0,
            failed: None,
        }
    }
}

// What the next read of a file gave.
enum Part {
    More,
    End,
    Failed,
    Memory,
}

// Adds the next bytes of a reader.
fn add_part<F: Read>(reader: &mut F, into: &mut Vec<u8>) -> Part
    ensures { GivesPart result into.old.items into.new.items
        (F.remaining reader.old) (F.remaining reader.new) }
{
    let mut buffer = [0u8; 4096];
    match reader.read(&mut buffer) {
        Ok(0) => Part::End,
        Ok(count) => {
            if into.extend_from_slice(&buffer[..count]).is_ok() {
                Part::More
            } else {
                Part::Memory
            }
        }
        Err(_) => Part::Failed,
    }
}

// All that a reader has left, if it is within the limit: exactly that, where it is known.
fn read_all<F: Read>(alloc: Global, reader: &mut F, limit: u64) -> Result<Bytes, FileFault>
    ensures { ReadsFile (told_left (F.remaining reader.old)) limit result }
{
    let mut bytes = Vec::new(alloc);
    for _ in 0..u64::MAX {
        match add_part(reader, &mut bytes) {
            Part::More => {
                let length = bytes.len() as u64;
                if limit < length {
                    return Err(FileFault::TooLong { length });
                }
            }
            Part::End => return Ok(Bytes::of(bytes)),
            Part::Failed => return Err(FileFault::Failed),
            Part::Memory => return Err(FileFault::Memory),
        }
    }
    Err(FileFault::Failed)
}

impl<R: std::rt::Files + Drop> Files for RealFiles<R> {
    ghost told = { λ f name. untold };

    ghost faults = { λ f. f.faults };

    ghost reads = { λ f. f.reads };

    ghost failed = { λ f. f.failed };

    // The file is opened here, so no clause can name its reads: what they gave is a clause of `read_all`.
    fn read(&mut self, alloc: Global, name: &str, limit: u64) -> Result<Bytes, FileFault> {
        let call = self.reads;
        self.reads = call.saturating_add(1);
        let read = match fs::open(&self.rt, name) {
            Ok(file) => {
                let mut file = file;
                read_all(alloc, &mut file, limit)
            }
            Err(_) => Err(FileFault::Failed),
        };
        if matches!(&read, Err(FileFault::Failed)) {
            self.faults = self.faults.saturating_add(1);
            self.failed = Some(call);
        }
        read
    }

    fn faults(&self) -> u64 {
        self.faults
    }
}
