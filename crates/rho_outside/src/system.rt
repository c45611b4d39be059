ghost use Rattle.std.specs.Prelude.{◌≡◌, ◌≤◌, ◌<◌, None, length, IfOk, IfErr, OnOk};
ghost use Rattle.std.specs.Io.KnownBytes.{Appends, Consumes, IsAtEnd};
ghost use Rattle.rho_outside.specs.Causes.{IsOnePast, FetchCause, KeepCause, count_after_fetch, count_after_keep};

use crate::fault::{FetchFault, KeepFault};
use crate::shelf::Shelf;
use crate::sink::Sink;
use std::alloc::Global;
use std::io::{ErrorKind, Read, Write};
use std::rt::Files;
use std::{fs, io};

/// The files of the system, named by their paths. It tells no contents, and counts each error, an absent file
/// among them.
#[derive(Drop)]
pub struct FileShelf<'a, R: Files> {
    /// The runtime, which opens the files.
    pub rt: &'a R,
    /// How many fetches failed or found no file, up to the greatest `u64`.
    pub fetch_faults: u64,
    /// How many keeps failed, up to the greatest `u64`.
    pub keep_faults: u64,
}

/// The standard output of the system. It tells no bytes, and counts each error.
#[derive(Drop)]
pub struct StdSink<'a, R: Print> {
    /// The runtime, which prints.
    pub rt: &'a R,
    /// How many puts failed, up to the greatest `u64`.
    pub faults: u64,
}

/// The most bytes that one read asks for.
const PIECE: usize = 65536;

/// Why a read gave no bytes.
#[derive(Clone, Copy, Debug, PartialEq, Eq)]
pub enum ReadFault {
    /// The reader failed.
    Failed,
    /// There was no memory for the bytes.
    NoMemory,
}

/// Reads the bytes up to the end, or the first `limit` of them. A read of nothing is the end, and a read that was
/// interrupted is made again.
pub fn read_up_to<F: Read>(file: &mut F, alloc: Global, limit: u64) -> Result<Vec<u8>, ReadFault>
    ensures within { IfOk result (λ bytes. length bytes.items ≤ limit) }
    ensures consumed { IfOk result (λ bytes. Consumes (F.remaining file.old) (F.remaining file.new) bytes.items) }
    ensures whole { IfOk result (λ bytes. length bytes.items < limit → IsAtEnd (F.remaining file.new)) }
{
    let mut bytes = Vec::new(alloc);
    let mut piece = [0u8; PIECE];
    for _ in 0..u64::MAX {
        let room = limit - bytes.len() as u64;
        let most = room.min(PIECE as u64) as usize;
        match file.read(&mut piece[..most]) {
            Ok(0) => return Ok(bytes),
            Ok(n) => {
                if bytes.extend_from_slice(&piece[..n]).is_err() {
                    return Err(ReadFault::NoMemory);
                }
            }
            Err(error) => {
                if error.kind() != ErrorKind::Interrupted {
                    return Err(ReadFault::Failed);
                }
            }
        }
    }
    Err(ReadFault::Failed)
}

/// Writes all of the bytes, or counts a failure. A write that takes nothing of a piece that isn't empty is a
/// failure, and one that was interrupted is made again.
pub fn write_whole<W: Write>(
    writer: &mut W,
    bytes: &[u8],
    faults: &mut u64,
) -> Result<(), KeepFault>
    ensures written { OnOk result (Appends (W.contents writer.old) (W.contents writer.new) bytes.now) }
    ensures failed { IfErr result (λ e. e ≡ KeepFault.Failed) }
    ensures counted { faults.new ≡ count_after_keep result faults.old }
    ensures never_falls { faults.old ≤ faults.new }
    ensures cause { IfErr result (KeepCause faults.old faults.new) }
{
    if writer.write_all(bytes).is_err() {
        *faults = faults.saturating_add(1);
        return Err(KeepFault::Failed);
    }
    Ok(())
}

/// Reads the file of this path, of which at most `max + 1` bytes are asked for.
fn fetch_file<R: Files>(rt: &R, alloc: Global, name: &str, max: u64) -> Result<Vec<u8>, FetchFault>
    ensures within { IfOk result (λ bytes. length bytes.items ≤ max) }
    ensures one_past { IfErr result (IsOnePast max) }
{
    let mut file = match fs::open(rt, name) {
        Ok(file) => file,
        Err(error) => {
            return Err(if error.kind() == ErrorKind::NotFound {
                FetchFault::Missing
            } else {
                FetchFault::Failed
            });
        }
    };
    let bytes = match read_up_to(&mut file, alloc, max.saturating_add(1)) {
        Ok(bytes) => bytes,
        Err(ReadFault::Failed) => return Err(FetchFault::Failed),
        Err(ReadFault::NoMemory) => return Err(FetchFault::NoMemory),
    };
    let seen = bytes.len() as u64;
    if seen > max {
        return Err(FetchFault::TooLarge { seen });
    }
    Ok(bytes)
}

/// Reads the file of this path, and counts each error, an absent file among them.
fn fetch_counted<R: Files>(
    rt: &R,
    alloc: Global,
    name: &str,
    max: u64,
    faults: &mut u64,
) -> Result<Vec<u8>, FetchFault>
    ensures within { IfOk result (λ bytes. length bytes.items ≤ max) }
    ensures one_past { IfErr result (IsOnePast max) }
    ensures counted { faults.new ≡ count_after_fetch result faults.old }
    ensures never_falls { faults.old ≤ faults.new }
    ensures cause { IfErr result (FetchCause None name.now max faults.old faults.new) }
{
    match fetch_file(rt, alloc, name, max) {
        Ok(bytes) => Ok(bytes),
        Err(FetchFault::Missing) => {
            *faults = faults.saturating_add(1);
            Err(FetchFault::Missing)
        }
        Err(FetchFault::Failed) => {
            *faults = faults.saturating_add(1);
            Err(FetchFault::Failed)
        }
        Err(FetchFault::TooLarge { seen }) => Err(FetchFault::TooLarge { seen }),
        Err(FetchFault::NoMemory) => Err(FetchFault::NoMemory),
    }
}

impl<'a, R: Files> Shelf for FileShelf<'a, R> {
    ghost files = { λ _. None };

    ghost fetch_faults = { λ s. s.fetch_faults };

    ghost keep_faults = { λ s. s.keep_faults };

    fn fetch(&mut self, alloc: Global, name: &str, max: u64) -> Result<Vec<u8>, FetchFault> {
        fetch_counted(self.rt, alloc, name, max, &mut self.fetch_faults)
    }

    fn keep(&mut self, _alloc: Global, name: &str, bytes: &[u8]) -> Result<(), KeepFault> {
        match fs::create(self.rt, name) {
            Ok(mut file) => write_whole(&mut file, bytes, &mut self.keep_faults),
            Err(_) => {
                self.keep_faults = self.keep_faults.saturating_add(1);
                Err(KeepFault::Failed)
            }
        }
    }
}

impl<'a, R: Print> Sink for StdSink<'a, R> {
    ghost written = { λ _. None };

    ghost faults = { λ s. s.faults };

    fn put(&mut self, _alloc: Global, bytes: &[u8]) -> Result<(), KeepFault> {
        write_whole(&mut io::writer(self.rt), bytes, &mut self.faults)
    }
}
