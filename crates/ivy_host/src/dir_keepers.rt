//! Keepers over the files of a folder.

ghost use Rattle.std.specs.Prelude.{◌≡◌, ◌≤◌, ◌↔◌, None, IfOk, IfErr, IsTrue, IsErrOf};
ghost use Rattle.ivy_io.specs.Faults.{Refuses, after_return};
ghost use Rattle.ivy_host.specs.Files.{IsKeeperName, IsPlain, claimed, count_after};

use crate::FileKeeper;
use ivy_base::name_ok;
use ivy_io::{Keepers, OpenFault};
use std::alloc::Global;
use std::marker::Model;
use std::rt::Files;
use std::str;

/// Keepers over files of the folder that the program runs in, each named as its keeper. They are seen as their count of
/// faults. The keeper of a name makes the file, so a name can be had once, also by several programs.
#[derive(Drop)]
pub struct DirKeepers<R> {
    rt: R,
    faults: u64,
}

impl<R> Model for DirKeepers<R> {
    ghost use Rattle.std.specs.Prelude.{ℕ};

    ghost Value = { ℕ };

    ghost view = { λ k. k.faults };
}

impl<R> DirKeepers<R> {
    /// Keepers that have not failed yet.
    pub fn new(rt: R) -> DirKeepers<R>
        ensures { result ≡ 0 }
    {
        DirKeepers { rt, faults: 0 }
    }

    /// How often a keeper wasn't given, or was taken back after it had failed.
    pub fn faults(&self) -> u64
        ensures { result ≡ self.now }
    {
        self.faults
    }
}

impl<R: Files + Copy + Send> Keepers for DirKeepers<R> {
    type One = FileKeeper<R>;

    ghost kept = { λ k name. None };

    ghost faults = { λ k. k };

    ghost lends = { λ k name one new. IsKeeperName name × (one ≡ claimed name) × (new ≡ k) };

    ghost takes = { λ k name one new. new ≡ after_return one.faults k };

    fn keeper(&mut self, alloc: Global, name: &[u8]) -> Result<FileKeeper<R>, OpenFault>
        ensures is { IfOk result (λ one. IsKeeperName name.now × (one ≡ claimed name.now) × (self.new ≡ self.old)) }
        ensures first { IfOk result (λ one. one.faults ≡ 0) }
        ensures refused { IfErr result (λ fault. Refuses (λ k. k) self.old self.new fault) }
        ensures later { self.old ≤ self.new }

        // What is no plain name of a file fails.
        ensures other_name { ¬ IsKeeperName name.now → IsErrOf result OpenFault.Failed }
        ensures err { IfErr result (λ fault. self.new ≡ count_after fault self.old) }
    {
        match claim_named(self.rt, alloc, name) {
            Ok(keeper) => Ok(keeper),
            Err(OpenFault::Memory) => Err(OpenFault::Memory),
            Err(OpenFault::Failed) => {
                self.faults = self.faults.saturating_add(1);
                Err(OpenFault::Failed)
            }
        }
    }

    fn give_back(&mut self, _name: &[u8], keeper: FileKeeper<R>) {
        if keeper.faults() != 0 {
            self.faults = self.faults.saturating_add(1);
        }
    }
}

/// The keeper over the file of that name. It fails where the name is no plain name of a file.
fn claim_named<R: Files + Copy>(
    rt: R,
    alloc: Global,
    name: &[u8],
) -> Result<FileKeeper<R>, OpenFault>
    ensures ok { IfOk result (λ keeper. IsKeeperName name.now × (keeper ≡ claimed name.now)) }
    ensures other_name { ¬ IsKeeperName name.now → IsErrOf result OpenFault.Failed }
{
    match str::from_utf8(name) {
        Ok(path) if is_plain(name) => FileKeeper::claim(rt, alloc, path),
        _ => Err(OpenFault::Failed),
    }
}

/// Whether the bytes may name a directory's entry, and not the file that another keeper writes first.
fn is_plain(name: &[u8]) -> bool
    ensures { IsTrue result ↔ IsPlain name.now }
{
    name_ok(name) && !name.ends_with(b".new".as_slice())
}
