ghost use Rattle.std.specs.Prelude.{◌≡◌, [], ◌++◌, ◌≤◌, ◌<◌, ◌↔◌, length, take, Some, Err, Contains, IsTrue, IfOk, IfErr, OnOk, OnErr, IsErrOf, IsOkUnless};
ghost use Rattle.rho_outside.specs.FileMap.{with_file, Gives, SameBut};
ghost use Rattle.rho_outside.specs.Files.{files_of};
ghost use Rattle.rho_outside.specs.Causes.{next_count, FetchCause, KeepCause};
ghost use Rattle.rho_outside.specs.Answer.{FetchAnswer};
ghost use Rattle.rho_outside.specs.Put.{GrewBy, GrewByPart};

use crate::fault::{FetchFault, KeepFault};
use crate::shelf::Shelf;
use crate::sink::Sink;
use std::alloc::{AllocError, Global};
use std::collections::BTreeMap;

/// Files in memory, some of whose calls fail. It tells its files.
#[derive(Debug, Drop)]
pub struct MemShelf {
    /// The bytes of each file, by its name.
    pub files: BTreeMap<String, Vec<u8>>,
    /// The numbers of the calls that fail, fetches and keeps counted together from 0. A failed call changes no file.
    pub failing: Vec<u64>,
    /// How many calls were made, up to the greatest `u64`.
    pub calls: u64,
    /// How many fetches failed, up to the greatest `u64`.
    pub fetch_faults: u64,
    /// How many keeps failed, up to the greatest `u64`.
    pub keep_faults: u64,
}

/// Files in memory, on which no call fails but for want of memory. It tells its files.
#[derive(Debug, Drop)]
pub struct CalmShelf {
    /// The bytes of each file, by its name.
    pub files: BTreeMap<String, Vec<u8>>,
}

/// An output in memory, some of whose calls fail. It tells its bytes.
#[derive(Debug, Drop)]
pub struct MemSink {
    /// All the bytes that were put.
    pub bytes: Vec<u8>,
    /// The numbers of the calls that fail, counted from 0. A failed call appends nothing.
    pub failing: Vec<u64>,
    /// How many calls were made, up to the greatest `u64`.
    pub calls: u64,
    /// How many calls failed, up to the greatest `u64`.
    pub faults: u64,
}

/// Counts a call, and says whether it is one of those that fail.
fn is_failing_call(failing: &[u64], calls: &mut u64) -> bool
    ensures fails { IsTrue result ↔ Contains failing.now calls.old }
    ensures counted { calls.new ≡ next_count calls.old }
{
    let fails = failing.contains(calls);
    *calls = calls.saturating_add(1);
    fails
}

/// Copies the bytes of a file of the map.
fn fetch_from(
    files: &BTreeMap<String, Vec<u8>>,
    alloc: Global,
    name: &str,
    max: u64,
) -> Result<Vec<u8>, FetchFault>
    ensures within { IfOk result (λ bytes. length bytes.items ≤ max) }
    ensures given { IfOk result (λ bytes. files_of files.now name.now ≡ Some bytes.items) }
    ensures cause { IfErr result (FetchCause (Some (files_of files.now)) name.now max 0 0) }
    ensures answer { FetchAnswer (files_of files.now) name.now max result }
{
    let Some(bytes) = files.get(name) else {
        return Err(FetchFault::Missing);
    };
    let seen = bytes.len() as u64;
    if seen > max {
        return Err(FetchFault::TooLarge { seen });
    }
    match bytes.to_vec(alloc) {
        Ok(copy) => Ok(copy),
        Err(_) => Err(FetchFault::NoMemory),
    }
}

/// Sets a file of the map.
fn keep_in(
    files: &mut BTreeMap<String, Vec<u8>>,
    alloc: Global,
    name: &str,
    bytes: &[u8],
) -> Result<(), AllocError>
    ensures kept { OnOk result (files_of files.new ≡ with_file name.now bytes.now (files_of files.old)) }
    ensures same { OnErr result (files_of files.new ≡ files_of files.old) }
{
    let copy = bytes.to_vec(alloc)?;
    let key = String::from_str(alloc, name)?;
    files.insert(key, copy)?;
    Ok(())
}

impl MemShelf {
    /// Makes a shelf with no file, on which no call fails.
    pub fn new(alloc: Global) -> Self
        ensures files { result.files.entries ≡ [] }
        ensures failing { result.failing.items ≡ [] }
        ensures counts { (result.calls ≡ 0) × (result.fetch_faults ≡ 0) × (result.keep_faults ≡ 0) }
    {
        MemShelf {
            files: BTreeMap::new(alloc),
            failing: Vec::new(alloc),
            calls: 0,
            fetch_faults: 0,
            keep_faults: 0,
        }
    }
}

impl Shelf for MemShelf {
    ghost files = { λ s. Some (files_of s.files) };

    ghost fetch_faults = { λ s. s.fetch_faults };

    ghost keep_faults = { λ s. s.keep_faults };

    fn fetch(&mut self, alloc: Global, name: &str, max: u64) -> Result<Vec<u8>, FetchFault>
        ensures unchanged { Some (files_of self.new.files) ≡ Some (files_of self.old.files) }
        ensures fetch_faults { self.old.fetch_faults ≤ self.new.fetch_faults }
        ensures keep_faults { self.new.keep_faults ≡ self.old.keep_faults }
        ensures within { IfOk result (λ bytes. length bytes.items ≤ max) }
        ensures given { IfOk result (λ bytes. Gives (Some (files_of self.old.files)) name.now bytes.items) }
        ensures cause { IfErr result (FetchCause (Some (files_of self.old.files)) name.now max self.old.fetch_faults
            self.new.fetch_faults) }

        // The named calls fail, and no other.
        ensures failing { Contains self.old.failing.items self.old.calls → result ≡ Err FetchFault.Failed }
        ensures failing_counts { Contains self.old.failing.items self.old.calls
            → self.new ≡ record self.old { calls = next_count self.old.calls; fetch_faults = next_count self.old.fetch_faults } }
        ensures calm { ¬ (Contains self.old.failing.items self.old.calls) → FetchAnswer (files_of self.old.files) name.now max result }
        ensures calm_counts { ¬ (Contains self.old.failing.items self.old.calls)
            → self.new ≡ record self.old { calls = next_count self.old.calls } }
    {
        if is_failing_call(self.failing.as_slice(), &mut self.calls) {
            self.fetch_faults = self.fetch_faults.saturating_add(1);
            return Err(FetchFault::Failed);
        }
        fetch_from(&self.files, alloc, name, max)
    }

    fn keep(&mut self, alloc: Global, name: &str, bytes: &[u8]) -> Result<(), KeepFault>
        ensures kept { OnOk result (Some (files_of self.new.files) ≡ Some (with_file name.now bytes.now (files_of self.old.files))) }
        ensures others { OnErr result (SameBut name.now (Some (files_of self.old.files)) (Some (files_of self.new.files))) }
        ensures no_memory { IsErrOf result KeepFault.NoMemory → Some (files_of self.new.files) ≡ Some (files_of self.old.files) }
        ensures keep_faults { self.old.keep_faults ≤ self.new.keep_faults }
        ensures fetch_faults { self.new.fetch_faults ≡ self.old.fetch_faults }
        ensures cause { IfErr result (KeepCause self.old.keep_faults self.new.keep_faults) }

        // The named calls fail and change nothing, and no other fails.
        ensures same { OnErr result (files_of self.new.files ≡ files_of self.old.files) }
        ensures failing { Contains self.old.failing.items self.old.calls → result ≡ Err KeepFault.Failed }
        ensures failing_counts { Contains self.old.failing.items self.old.calls
            → self.new ≡ record self.old { calls = next_count self.old.calls; keep_faults = next_count self.old.keep_faults } }
        ensures calm { ¬ (Contains self.old.failing.items self.old.calls) → IsOkUnless result KeepFault.NoMemory }
        ensures calm_counts { ¬ (Contains self.old.failing.items self.old.calls)
            → self.new ≡ record self.old { calls = next_count self.old.calls; files = self.new.files } }
    {
        if is_failing_call(self.failing.as_slice(), &mut self.calls) {
            self.keep_faults = self.keep_faults.saturating_add(1);
            return Err(KeepFault::Failed);
        }
        match keep_in(&mut self.files, alloc, name, bytes) {
            Ok(()) => Ok(()),
            Err(_) => Err(KeepFault::NoMemory),
        }
    }
}

impl CalmShelf {
    /// Makes a shelf with no file.
    pub fn new(alloc: Global) -> Self
        ensures { result.files.entries ≡ [] }
    {
        CalmShelf {
            files: BTreeMap::new(alloc),
        }
    }
}

impl Shelf for CalmShelf {
    ghost files = { λ s. Some (files_of s.files) };

    ghost fetch_faults = { λ _. 0 };

    ghost keep_faults = { λ _. 0 };

    fn fetch(&mut self, alloc: Global, name: &str, max: u64) -> Result<Vec<u8>, FetchFault> {
        fetch_from(&self.files, alloc, name, max)
    }

    fn keep(&mut self, alloc: Global, name: &str, bytes: &[u8]) -> Result<(), KeepFault> {
        match keep_in(&mut self.files, alloc, name, bytes) {
            Ok(()) => Ok(()),
            Err(_) => Err(KeepFault::NoMemory),
        }
    }
}

impl MemSink {
    /// Makes a sink with no bytes, on which no call fails.
    pub fn new(alloc: Global) -> Self
        ensures bytes { result.bytes.items ≡ [] }
        ensures failing { result.failing.items ≡ [] }
        ensures counts { (result.calls ≡ 0) × (result.faults ≡ 0) }
    {
        MemSink {
            bytes: Vec::new(alloc),
            failing: Vec::new(alloc),
            calls: 0,
            faults: 0,
        }
    }
}

impl Sink for MemSink {
    ghost written = { λ s. Some s.bytes.items };

    ghost faults = { λ s. s.faults };

    fn put(&mut self, _alloc: Global, bytes: &[u8]) -> Result<(), KeepFault>
        ensures put { OnOk result (GrewBy bytes.now (Some self.old.bytes.items) (Some self.new.bytes.items)) }
        ensures part { OnErr result (GrewByPart bytes.now (Some self.old.bytes.items) (Some self.new.bytes.items)) }
        ensures no_memory { IsErrOf result KeepFault.NoMemory → Some self.new.bytes.items ≡ Some self.old.bytes.items }
        ensures faults { self.old.faults ≤ self.new.faults }
        ensures cause { IfErr result (KeepCause self.old.faults self.new.faults) }

        // The named calls fail and append nothing, and no other fails.
        ensures same { OnErr result (self.new.bytes.items ≡ self.old.bytes.items) }
        ensures failing { Contains self.old.failing.items self.old.calls → result ≡ Err KeepFault.Failed }
        ensures failing_counts { Contains self.old.failing.items self.old.calls
            → self.new ≡ record self.old { calls = next_count self.old.calls; faults = next_count self.old.faults } }
        ensures calm { ¬ (Contains self.old.failing.items self.old.calls) → IsOkUnless result KeepFault.NoMemory }
        ensures calm_counts { ¬ (Contains self.old.failing.items self.old.calls)
            → self.new ≡ record self.old { calls = next_count self.old.calls; bytes = self.new.bytes } }
    {
        if is_failing_call(self.failing.as_slice(), &mut self.calls) {
            self.faults = self.faults.saturating_add(1);
            return Err(KeepFault::Failed);
        }
        match self.bytes.extend_from_slice(bytes) {
            Ok(()) => Ok(()),
            Err(_) => Err(KeepFault::NoMemory),
        }
    }
}
