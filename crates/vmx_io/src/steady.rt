//! The outside world in memory, which never fails: both counts of faults are the constant 0.
ghost use Rattle.std.specs.Prelude.{◌≡◌, ℕ, [], Some};
ghost use Rattle.std.specs.FinMap.{contains_key};
ghost use Rattle.vmx_io.specs.FileList.{files_of};

use crate::bytes::Bytes;
use crate::file;
use crate::file::File;
use crate::list::List;
use crate::outside::{Console, Load, Save, Shelf};
use std::alloc::Global;
use std::marker::Model;

/// Files in memory, seen as a map from names to bytes. A name that is not there is loaded as a file of no bytes.
#[derive(Debug, Drop)]
pub struct SteadyShelf {
    files: Vec<File>,
}

impl Model for SteadyShelf {
    ghost use Rattle.std.specs.Coded.{coded_ℕ, coded_list};
    ghost use Rattle.std.specs.FinMap.{code};
    ghost use Rattle.vmx_io.specs.Outside.{Files};

    ghost Value = { Files };

    ghost coded = { code (coded_list coded_ℕ) (coded_list coded_ℕ) };

    ghost use Rattle.vmx_io.specs.FileList.{files_of};

    ghost view = { λ shelf. files_of shelf.files.items };
}

impl SteadyShelf {
    /// The files of the list, of which the first under a name counts. It takes no memory.
    pub fn new(files: List<File>) -> SteadyShelf
        ensures files { result ≡ files_of files }
    {
        SteadyShelf {
            files: files.into_vec(),
        }
    }

    /// Whether there is a file of this name.
    pub fn has(&self, name: &str) -> bool
        ensures there { result ≡ contains_key self.now name.now }
    {
        file::find(&self.files, name).is_some()
    }
}

impl Shelf for SteadyShelf {
    ghost files = { λ shelf. Some shelf };

    ghost read_faults = { λ _. 0 };

    ghost write_faults = { λ _. 0 };

    fn load(&mut self, alloc: Global, name: &str, limit: u64) -> Load {
        let bytes = file::content_of(&self.files, name);
        if bytes.len() as u64 > limit {
            return Load::TooLong;
        }
        match Bytes::from_slice(alloc, bytes) {
            Ok(bytes) => Load::Bytes { bytes },
            Err(_) => Load::NoMemory,
        }
    }

    fn save(&mut self, alloc: Global, name: &str, bytes: &[u8]) -> Save {
        if file::put(alloc, &mut self.files, name, bytes).is_err() {
            return Save::NoMemory;
        }
        Save::Done
    }
}

/// A text in memory, seen as its bytes.
#[derive(Debug, Drop)]
pub struct SteadyConsole {
    text: Vec<u8>,
}

impl Model for SteadyConsole {
    ghost use Rattle.std.specs.Prelude.{List, ℕ};

    ghost Value = { List ℕ };

    ghost view = { λ console. console.text.items };
}

impl SteadyConsole {
    /// An empty text. It takes no memory.
    pub fn new(alloc: Global) -> SteadyConsole
        ensures empty { result ≡ [] }
    {
        SteadyConsole {
            text: Vec::new(alloc),
        }
    }

    /// What was written so far.
    pub fn text(&self) -> &[u8]
        ensures text { result.now ≡ self.now }
    {
        &self.text
    }
}

impl Console for SteadyConsole {
    ghost text = { λ console. Some console };

    ghost faults = { λ _. 0 };

    fn write(&mut self, bytes: &[u8]) -> Save {
        match self.text.extend_from_slice(bytes) {
            Ok(()) => Save::Done,
            Err(_) => Save::NoMemory,
        }
    }
}
