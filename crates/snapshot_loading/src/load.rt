//! A snapshot on its way.

ghost use Rattle.std.specs.Prelude.{◌≡◌, ◌≢◌, None, Some, Ok, IfErr, IfOk, IfSome, OnOk, OnErr};
ghost use Rattle.ivy_base.specs.Naming.{name};
ghost use Rattle.session_model.specs.Refreshing.{LoadWants};
ghost use Rattle.snapshot_loading.specs.Loading.{begun, wanted_of, ComesTo, FailsNext, HasBeenGiven, IsReadWhole};
ghost use Rattle.snapshot_loading.specs.Causes.{cause_of, FailedBy};

use crate::names::{Named, names};
use crate::role::{Role, Wanted};
use crate::todo::replace_next;
use block_parts::BlockFault;
use dhash_client::Miss;
use ivy_base::{Bytes, Key, Memory};
use std::alloc::Global;
use std::collections::VecDeque;
use std::marker::Model;

/// A block that was read.
#[derive(Drop)]
pub struct Read {
    /// What it was to be, and is by itself.
    pub role: Role,
    /// Its name.
    pub key: Key,
    /// Its bytes.
    pub bytes: Bytes,
}

/// By what loading ended too early.
#[derive(Drop)]
pub struct Failure {
    /// The name of the block that was wanted.
    pub key: Key,
    /// The block, which isn't what it was to be, or why it couldn't be had.
    pub came: Result<Bytes, Miss>,
}

/// Why loading came to no basis.
#[derive(Clone, Copy)]
pub enum LoadMiss {
    /// The block of that name couldn't be had: no owner of it was found, or none that was asked has it.
    Missing(Key),
    /// An owner gave a block that isn't the one of that name, and none gave that.
    Damaged(Key),
    /// A block came that isn't what it was to be; or all blocks are, and together they are no snapshot.
    Malformed,
}

impl Failure {
    /// Why loading that ended by it came to no basis.
    fn cause(&self) -> LoadMiss
        ensures { result ≡ cause_of self.now }
    {
        match &self.came {
            Ok(_) => LoadMiss::Malformed,
            Err(Miss::Damaged { .. }) => LoadMiss::Damaged(self.key),
            Err(_) => LoadMiss::Missing(self.key),
        }
    }
}

/// A snapshot on its way. Contracts see the name of its root, what was read, what is still to be read, and by what it failed.
#[derive(Drop)]
pub struct Load {
    root: Key,
    read: Vec<Read>,
    todo: VecDeque<Wanted>,
    failed: Option<Failure>,
}

impl Model for Load {
    ghost use Rattle.snapshot_loading.specs.Loading.{Loading, IsLoading};

    ghost Value = { Loading };

    ghost view = { λ l. record { root = l.root; read = l.read.items; todo = l.todo.items; failed = l.failed } };

    ghost invariant = { λ l. IsLoading (record { root = l.root; read = l.read.items; todo = l.todo.items; failed = l.failed }) };
}

impl Load {
    /// The snapshot of that name, of which nothing was brought. The error is: out of memory.
    pub fn start(alloc: Global, root: Key) -> Result<Load, Memory>
        ensures { IfOk result (λ load. load ≡ begun root) }
    {
        let mut todo = VecDeque::new(alloc);
        todo.push_back(Wanted {
            role: Role::Root,
            key: root,
        })?;
        Ok(Load {
            root,
            read: Vec::new(alloc),
            todo,
            failed: None,
        })
    }

    /// The name of the block that is wanted next; none where loading is over.
    pub fn wanted(&self) -> Option<Key>
        ensures value { result ≡ wanted_of self.now }
        ensures wants { IfSome result (λ key. ComesTo self.now (LoadWants key)) }
    {
        Some(self.todo.front()?.key)
    }

    /// Takes what came of the block that is wanted. The error is: out of memory, and then loading stands as before.
    pub fn give(&mut self, alloc: Global, came: Result<Bytes, Miss>) -> Result<(), Memory>
        requires wanted { wanted_of self.old ≢ None }
        requires named { IfOk came (λ bytes. wanted_of self.old ≡ Some (name bytes)) }
        ensures given { OnOk result (HasBeenGiven self.old self.new came) }
        ensures err { OnErr result (self.new ≡ self.old) }
    {
        match came {
            Ok(bytes) => self.take(alloc, bytes),
            Err(miss) => {
                self.fail(Err(miss));
                Ok(())
            }
        }
    }

    /// The blocks, in the order in which they were read. The error says why one couldn't be had, or that it wasn't what it was to
    /// be.
    pub fn into_read(self) -> Result<Vec<Read>, LoadMiss>
        requires { wanted_of self ≡ None }
        ensures read { IfOk result (λ read. IsReadWhole self read.items) }
        ensures failed { IfErr result (FailedBy self) }
    {
        if let Some(failure) = &self.failed {
            return Err(failure.cause());
        }
        Ok(self.read)
    }

    // Takes the block that is wanted. The error is: out of memory, and then loading stands as before.
    fn take(&mut self, alloc: Global, bytes: Bytes) -> Result<(), Memory>
        requires { wanted_of self.old ≡ Some (name bytes) }
        ensures given { OnOk result (HasBeenGiven self.old self.new (Ok bytes)) }
        ensures err { OnErr result (self.new ≡ self.old) }
    {
        let role = self.todo.front().unwrap().role;
        match names(alloc, role, bytes.as_slice()) {
            Ok(named) => {
                self.read.try_reserve(1)?;
                let next = replace_next(&mut self.todo, &named)?;
                self.read.push_reserved(Read {
                    role,
                    key: next.key,
                    bytes,
                });
            }
            Err(BlockFault::Malformed) => self.fail(Ok(bytes)),
            Err(BlockFault::Memory) => return Err(Memory),
        }
        Ok(())
    }

    // Ends loading: what came of the block that is wanted is no such one.
    fn fail(&mut self, came: Result<Bytes, Miss>)
        requires { FailsNext self.old came }
        ensures { HasBeenGiven self.old self.new came }
    {
        let next = self.todo.pop_front().unwrap();
        self.todo.clear();
        self.failed = Some(Failure {
            key: next.key,
            came,
        });
    }
}
