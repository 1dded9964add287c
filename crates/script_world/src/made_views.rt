//! Views of keys in any order.

ghost use Rattle.std.specs.Prelude.{◌≡◌, ◌≢◌, ◌≤◌, ◌++◌, [], true, length, IfOk};
ghost use Rattle.log_model.specs.View.{have_own_head_keys, most_former, most_members};
ghost use Rattle.world_model.specs.Logs.{in_key_order};
ghost use Rattle.script_world.specs.Made.{IsMade, view_of_keys};

use ivy_base::{Memory, PubKey, head_key};
use std::alloc::Global;
use std::collections::BTreeSet;
use view_blocks::{MOST_FORMER, MOST_MEMBERS, View, ViewFault};

/// What comes of a line that makes a view.
#[derive(Drop)]
pub enum Made {
    /// Two of the logs have one head key, as where a log stands twice.
    Refused,
    /// There are too many members, or too many former logs.
    TooMany,
    /// The view.
    View(View),
}

/// The view of these members and former members, whose keys may come in any order. The error is: out of memory.
pub fn make_view(alloc: Global, members: Vec<PubKey>, former: Vec<PubKey>) -> Result<Made, Memory>
    requires { members.items ≢ [] }
    ensures { IfOk result (λ made. IsMade members.items former.items made) }
{
    if !have_own_heads(alloc, &members, &former)? {
        return Ok(Made::Refused);
    }
    if members.len() > MOST_MEMBERS || former.len() > MOST_FORMER {
        return Ok(Made::TooMany);
    }
    Ok(Made::View(view_in_order(alloc, members, former)?))
}

/// Whether no two of the keys have one head key. Each head key is computed once. The error is: out of memory.
fn have_own_heads(alloc: Global, members: &[PubKey], former: &[PubKey]) -> Result<bool, Memory>
    ensures { IfOk result (λ own. own ≡ have_own_head_keys (members.now ++ former.now)) }
{
    let mut heads = BTreeSet::new(alloc);
    for key in members.iter().chain(former) {
        if !heads.insert(head_key(key))? {
            return Ok(false);
        }
    }
    Ok(true)
}

/// The view of these keys, which are put in order. The error is: out of memory.
fn view_in_order(alloc: Global, members: Vec<PubKey>, former: Vec<PubKey>) -> Result<View, Memory>
    requires some { members.items ≢ [] }
    requires few { length members.items ≤ most_members }
    requires few_former { length former.items ≤ most_former }
    requires own { have_own_head_keys (members.items ++ former.items) ≡ true }
    ensures { IfOk result (λ view. view ≡ view_of_keys members.items former.items) }
{
    let members = in_order(members);
    let former = in_order(former);
    match View::make(alloc, &members, &former) {
        Ok(view) => Ok(view),
        Err(fault) => match fault {
            ViewFault::Memory => Err(Memory),
            // The keys are few, in order and apart, so no test of a view fails.
            _ => unreachable!(),
        },
    }
}

/// The keys in ascending order of their bytes.
fn in_order(mut keys: Vec<PubKey>) -> Vec<PubKey>
    ensures { result.items ≡ in_key_order keys.items }
{
    keys.sort_unstable();
    keys
}
