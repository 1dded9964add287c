//! A keeper over a file.

ghost use Rattle.std.specs.Prelude.{◌≡◌, ◌↔◌, None, false, IfOk, IsErrOf};
ghost use Rattle.ivy_io.specs.Keepers.{LoadCounts, LoadGives, SaveCounts, SaveIs, SaveReplaces};
ghost use Rattle.ivy_host.specs.Files.{claimed, file_after};

use crate::fault::open_fault;
use ivy_base::{Bytes, Memory};
use ivy_io::{Failed, KeepFault, Keeper, OpenFault};
use std::alloc::Global;
use std::fs::OpenOptions;
use std::io::{ErrorKind, Read, Write};
use std::marker::Model;
use std::os::unix::fs::OpenOptionsExt;
use std::rt::Files;
use std::{fs, io};

/// What is written after a file's path to name the file that a save writes first.
const SUFFIX: &str = ".new";

/// Its owner alone may read and write the file, which has what a log signs with.
const MODE: u32 = 0o600;

/// A keeper over a file that it made itself, so no other keeper has it. A save writes a file beside it, whose path is longer
/// by `.new`, and renames that. It doesn't wait until the disk has the bytes, so what was saved outlives the program and
/// not a loss of power.
#[derive(Drop)]
pub struct FileKeeper<R> {
    rt: R,
    path: String,
    beside: String,
    is_saved: bool,
    faults: u64,
}

impl<R> Model for FileKeeper<R> {
    ghost use Rattle.std.specs.Prelude.{◌≡◌, ◌++◌, codes};
    ghost use Rattle.std.specs.String.{string_bytes};
    ghost use Rattle.ivy_host.specs.Files.{FileState};

    ghost Value = { FileState };

    ghost view = { λ k. record { path = string_bytes k.path; is_saved = k.is_saved; faults = k.faults } };

    ghost invariant = { λ k. string_bytes k.beside ≡ string_bytes k.path ++ codes ".new" };
}

impl<R: Files + Drop> FileKeeper<R> {
    /// Makes the file of that path, for a keeper in which nothing was saved yet. It fails where there is such a file already,
    /// or where the host makes none.
    pub fn claim(rt: R, alloc: Global, path: &str) -> Result<FileKeeper<R>, OpenFault>
        ensures { IfOk result (λ keeper. keeper ≡ claimed path.now) }
    {
        let Ok(keeper) = FileKeeper::unclaimed(rt, alloc, path) else {
            return Err(OpenFault::Memory);
        };
        let file = OpenOptions::new()
            .write(true)
            .create_new(true)
            .mode(MODE)
            .open(&keeper.rt, keeper.path.as_str());
        match file {
            Ok(_) => Ok(keeper),
            Err(error) => Err(open_fault(&error)),
        }
    }

    /// The keeper of that path, before there is a file. The error is: out of memory.
    fn unclaimed(rt: R, alloc: Global, path: &str) -> Result<FileKeeper<R>, Memory>
        ensures { IfOk result (λ keeper. keeper ≡ claimed path.now) }
    {
        let mut beside = String::from_str(alloc, path)?;
        beside.push_str(SUFFIX)?;
        Ok(FileKeeper {
            rt,
            path: String::from_str(alloc, path)?,
            beside,
            is_saved: false,
            faults: 0,
        })
    }

    /// How often the keeper has failed.
    pub fn faults(&self) -> u64
        ensures { result ≡ self.now.faults }
    {
        self.faults
    }

    /// Writes the bytes to the file beside, and renames it.
    fn replace(&self, bytes: &[u8]) -> io::Result<()> {
        OpenOptions::new()
            .write(true)
            .create(true)
            .truncate(true)
            .mode(MODE)
            .open(&self.rt, self.beside.as_str())?
            .write_all(bytes)?;
        fs::rename(&self.rt, self.beside.as_str(), self.path.as_str())
    }

    /// All bytes of the file.
    fn contents(&self, alloc: Global) -> io::Result<Vec<u8>> {
        let mut file = fs::open(&self.rt, self.path.as_str())?;
        let mut bytes = Vec::new(alloc);
        file.read_to_end(&mut bytes)?;
        Ok(bytes)
    }
}

impl<R: Files + Drop> Keeper for FileKeeper<R> {
    ghost use Rattle.ivy_host.specs.FileLaws.{file_counts, file_keeps};

    ghost kept = { λ k. None };

    ghost faults = { λ k. k.faults };

    ghost saves = { λ k bytes fails new. new ≡ file_after fails k };

    ghost counts = { file_counts };

    ghost keeps = { file_keeps };

    fn save(&mut self, bytes: Bytes) -> Result<(), Failed>
        ensures is { SaveIs (λ fails new. new ≡ file_after fails self.old) self.new result }
        ensures bytes { SaveReplaces None None bytes result }
        ensures cause { SaveCounts self.old.faults self.new.faults result }
    {
        match self.replace(bytes.as_slice()) {
            Ok(()) => {
                self.is_saved = true;
                Ok(())
            }
            Err(_) => {
                self.faults = self.faults.saturating_add(1);
                Err(Failed)
            }
        }
    }

    fn load(&mut self, alloc: Global) -> Result<Bytes, KeepFault>
        ensures bytes { LoadGives None None result }
        ensures cause { LoadCounts self.old.faults self.new.faults result }

        // The file that only claims its path keeps nothing.
        ensures nothing { IsErrOf result KeepFault.Nothing ↔ (self.old.is_saved ≡ false) }
        ensures path { self.new.path ≡ self.old.path }
        ensures saved { self.new.is_saved ≡ self.old.is_saved }
    {
        if !self.is_saved {
            return Err(KeepFault::Nothing);
        }
        match self.contents(alloc) {
            Ok(bytes) => Ok(Bytes::of(bytes)),
            Err(error) if error.kind() == ErrorKind::OutOfMemory => Err(KeepFault::Memory),
            Err(_) => {
                self.faults = self.faults.saturating_add(1);
                Err(KeepFault::Failed)
            }
        }
    }
}
