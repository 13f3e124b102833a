//! The outside world in memory, where calls fail by their numbers: for tests of what stands after a fault.
//!
//! The calls of a shelf, and the writes of a console, have the numbers 0, 1, 2 and so on, loads and saves together.
//! A call fails exactly where its number is listed, and a load also where its name is absent. A failed call counts
//! one fault and leaves files and text. The number of the next call and the counts stand still at 2^64 - 1.
ghost use Rattle.std.specs.Prelude.{◌≡◌, ℕ, [], Some, ◌↔◌, Contains, IsTrue};
ghost use Rattle.vmx_io.specs.Answers.{Loads, LoadCounts, Saves, SaveCounts, Writes};
ghost use Rattle.vmx_io.specs.Counts.{counted};
ghost use Rattle.vmx_io.specs.FileList.{files_of};

use crate::bytes::Bytes;
use crate::file;
use crate::file::File;
use crate::list::List;
use crate::outside::{Console, Load, Save, Shelf};
use std::alloc::Global;
use std::marker::Model;

/// Files in memory, seen with the numbers of the calls that fail, the number of the next call and the faults so far.
#[derive(Debug, Drop)]
pub struct FaultyShelf {
    files: Vec<File>,
    failing: List<u64>,
    next: u64,
    read_faults: u64,
    write_faults: u64,
}

impl Model for FaultyShelf {
    ghost use Rattle.vmx_io.specs.Faulty.{FaultyFiles, faulty_files_code};

    ghost Value = { FaultyFiles };

    ghost coded = { faulty_files_code };

    ghost use Rattle.vmx_io.specs.FileList.{files_of};

    ghost view = { λ shelf. record { files = files_of shelf.files.items; failing = shelf.failing; next = shelf.next; read_faults = shelf.read_faults; write_faults = shelf.write_faults } };
}

impl FaultyShelf {
    /// The files of the list, of which the first under a name counts, and the numbers of the calls that fail. It takes
    /// no memory.
    pub fn new(files: List<File>, failing: List<u64>) -> FaultyShelf
        ensures value { result ≡ record { files = files_of files; failing = failing; next = 0; read_faults = 0; write_faults = 0 } }
    {
        FaultyShelf {
            files: files.into_vec(),
            failing,
            next: 0,
            read_faults: 0,
            write_faults: 0,
        }
    }
}

impl Shelf for FaultyShelf {
    ghost use Rattle.vmx_io.specs.Faulty.{FailsToLoad, AfterLoad, AfterSave};

    ghost files = { λ shelf. Some shelf.files };

    ghost read_faults = { λ shelf. shelf.read_faults };

    ghost write_faults = { λ shelf. shelf.write_faults };

    fn load(&mut self, alloc: Global, name: &str, limit: u64) -> Load
        ensures content { Loads result (Some self.old.files) name.now limit }
        ensures same { self.new.files ≡ self.old.files }
        ensures read_faults { LoadCounts result self.old.read_faults self.new.read_faults }
        ensures write_faults { self.new.write_faults ≡ self.old.write_faults }
        ensures failing { (result ≡ Load.Failed) ↔ FailsToLoad self.old name.now }
        ensures after { AfterLoad result self.old self.new }
    {
        if is_failing(&self.failing, &mut self.next) {
            self.read_faults = self.read_faults.saturating_add(1);
            return Load::Failed;
        }
        let Some(bytes) = file::find(&self.files, name) else {
            self.read_faults = self.read_faults.saturating_add(1);
            return Load::Failed;
        };
        if bytes.len() as u64 > limit {
            return Load::TooLong;
        }
        match Bytes::from_slice(alloc, bytes) {
            Ok(bytes) => Load::Bytes { bytes },
            Err(_) => Load::NoMemory,
        }
    }

    fn save(&mut self, alloc: Global, name: &str, bytes: &[u8]) -> Save
        ensures content { Saves result (Some self.old.files) (Some self.new.files) name.now bytes.now }
        ensures write_faults { SaveCounts result self.old.write_faults self.new.write_faults }
        ensures read_faults { self.new.read_faults ≡ self.old.read_faults }
        ensures failing { (result ≡ Save.Failed) ↔ Contains self.old.failing self.old.next }
        ensures after { AfterSave result self.old self.new name.now bytes.now }
    {
        if is_failing(&self.failing, &mut self.next) {
            self.write_faults = self.write_faults.saturating_add(1);
            return Save::Failed;
        }
        if file::put(alloc, &mut self.files, name, bytes).is_err() {
            return Save::NoMemory;
        }
        Save::Done
    }
}

/// A text in memory, seen with the numbers of the writes that fail, the number of the next write and the faults so far.
#[derive(Debug, Drop)]
pub struct FaultyConsole {
    text: Vec<u8>,
    failing: List<u64>,
    next: u64,
    faults: u64,
}

impl Model for FaultyConsole {
    ghost use Rattle.vmx_io.specs.Faulty.{FaultyText};

    ghost Value = { FaultyText };

    ghost view = { λ console. record { text = console.text.items; failing = console.failing; next = console.next; faults = console.faults } };
}

impl FaultyConsole {
    /// An empty text, and the numbers of the writes that fail. It takes no memory.
    pub fn new(alloc: Global, failing: List<u64>) -> FaultyConsole
        ensures value { result ≡ record { text = []; failing = failing; next = 0; faults = 0 } }
    {
        FaultyConsole {
            text: Vec::new(alloc),
            failing,
            next: 0,
            faults: 0,
        }
    }

    /// What was written so far.
    pub fn text(&self) -> &[u8]
        ensures text { result.now ≡ self.now.text }
    {
        &self.text
    }
}

impl Console for FaultyConsole {
    ghost use Rattle.vmx_io.specs.Faulty.{AfterWrite};

    ghost text = { λ console. Some console.text };

    ghost faults = { λ console. console.faults };

    fn write(&mut self, bytes: &[u8]) -> Save
        ensures content { Writes result (Some self.old.text) (Some self.new.text) bytes.now }
        ensures faults { SaveCounts result self.old.faults self.new.faults }
        ensures failing { (result ≡ Save.Failed) ↔ Contains self.old.failing self.old.next }
        ensures after { AfterWrite result self.old self.new bytes.now }
    {
        if is_failing(&self.failing, &mut self.next) {
            self.faults = self.faults.saturating_add(1);
            return Save::Failed;
        }
        match self.text.extend_from_slice(bytes) {
            Ok(()) => Save::Done,
            Err(_) => Save::NoMemory,
        }
    }
}

/// Whether the next call fails; the number goes up by one.
fn is_failing(failing: &List<u64>, next: &mut u64) -> bool
    ensures listed { IsTrue result ↔ Contains failing.now next.old }
    ensures next { next.new ≡ counted next.old }
{
    let fails = failing.as_slice().contains(next);
    *next = next.saturating_add(1);
    fails
}
