//! The blocks that are still to be read.

ghost use Rattle.std.specs.Prelude.{◌≡◌, ◌≢◌, ◌+◌, ◌≤◌, [], ◌∷◌, ◌++◌, length, List, IfOk, OnErr};
ghost use Rattle.std.specs.VecDeque.{deque_len, deque_capacity};
ghost use Rattle.snapshot_loading.specs.Roles.{blocks_in, blocks_of, Replaces};

use crate::names::Named;
use crate::role::{Role, Wanted};
use ivy_base::{Key, Memory};
use std::collections::VecDeque;

/// Puts what a block names in place of the block, which is the next, and gives what that is to be. The error is: out of memory,
/// and then nothing has changed.
pub(crate) fn replace_next(todo: &mut VecDeque<Wanted>, named: &Named<'_>) -> Result<Wanted, Memory>
    requires { todo.old.items ≢ [] }
    ensures ok { IfOk result (λ next. Replaces todo.old.items (blocks_in named.now) next todo.new.items) }
    ensures err { OnErr result (todo.new.items ≡ todo.old.items) }
{
    todo.try_reserve(count(named))?;
    let next = todo.pop_front().unwrap();
    put(todo, named);
    Ok(next)
}

/// How many blocks are named.
fn count(named: &Named<'_>) -> usize
    ensures { result ≡ length (blocks_in named.now) }
{
    match named {
        Named::Nothing => 0,
        Named::Top(_, _) => 1,
        Named::Each(_, keys) => keys.len(),
    }
}

/// Puts the blocks that are named before the others. There is room for them.
fn put(todo: &mut VecDeque<Wanted>, named: &Named<'_>)
    requires { deque_len todo.old + length (blocks_in named.now) ≤ deque_capacity todo.old }
    ensures { todo.new.items ≡ blocks_in named.now ++ todo.old.items }
{
    match named {
        Named::Nothing => {}
        Named::Top(role, key) => todo.push_front_reserved(Wanted {
            role: *role,
            key: *key,
        }),
        Named::Each(role, keys) => put_each(todo, *role, keys),
    }
}

/// Puts blocks of these names before the others. There is room for them.
fn put_each(todo: &mut VecDeque<Wanted>, role: Role, keys: &[[u8; 20]])
    requires { deque_len todo.old + length keys.now ≤ deque_capacity todo.old }
    ensures { todo.new.items ≡ blocks_of role keys.now ++ todo.old.items }
{
    let mut left = keys.len();
    'names: while left > 0 {
        left -= 1;
        todo.push_front_reserved(Wanted {
            role,
            key: Key(keys[left]),
        });
    }
}
