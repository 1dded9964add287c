//! Views: their tests, and what is asked of them.

ghost use Rattle.std.specs.Prelude.{◌≡◌, ◌≢◌, ◌≤◌, IfOk, IfErr, OnOk};
ghost use Rattle.ivy_base.specs.Naming.{head_key_of};
ghost use Rattle.log_model.specs.View.{IsView, view_block, view_name, is_member, is_former, most_members, most_former};
ghost use Rattle.log_model.specs.ViewKeys.{HasKeys};
ghost use Rattle.view_blocks.specs.Faults.{HasFewKeys, CountsFailAs, FailsAs, BlockFailsAs};

use crate::fault::ViewFault;
use crate::form::{block_of, key_lists};
use crate::owners::{Owners, ascend, copy_of, keys_of};
use ivy_base::{Bytes, Key, Memory, PubKey, name_of};
use std::alloc::Global;
use std::marker::Model;

/// The most members that a view has.
pub const MOST_MEMBERS: usize = 16;

/// The most former members that a view has.
pub const MOST_FORMER: usize = 16;

/// The participants whose logs make up the file system, and those whose logs did once (Ivy, section 4): 1 to 16
/// members and up to 16 former ones, in the order of their keys' bytes, no two of which name one log.
pub struct View {
    members: Owners,
    former: Owners,
    name: Key,
}

// Written out, so that whatever drops one calls this and isn't proved over all of its parts once more.
impl Drop for View {
    fn drop(self) {
        let View {
            members: _,
            former: _,
            name: _,
        } = self;
    }
}

impl Model for View {
    ghost use Rattle.log_model.specs.View.{View as Seen};
    ghost use Rattle.view_blocks.specs.Faults.{IsKept};

    ghost Value = { Seen };

    ghost view = { λ v. record { members = v.members; former = v.former } };

    ghost invariant = { λ v. IsKept (record { members = v.members; former = v.former }) v.name };
}

impl View {
    /// The view of these members and former members, which each ascend by their bytes.
    ///
    /// The fault is the first test that fails, `NoMember`, `TooMany`, `Order` or `Overlap`, or running out of
    /// memory.
    pub fn make(alloc: Global, members: &[PubKey], former: &[PubKey]) -> Result<View, ViewFault>
        ensures ok { IfOk result (λ view. view ≡ record { members = members.now; former = former.now }) }
        ensures legal { IfOk result IsView }
        ensures keys { IfOk result HasKeys }
        ensures err { IfErr result (FailsAs (record { members = members.now; former = former.now })) }
    {
        test_counts(members.len(), former.len())?;
        let (members, former) = tested(alloc, copy_of(alloc, members)?, copy_of(alloc, former)?)?;
        let block = block_of(alloc, members.keys(), former.keys())?;
        let name = name_of(block.as_slice());
        Ok(View {
            members,
            former,
            name,
        })
    }

    /// The view that has this block: `IVV1`, and then the members' keys and the former members' keys, each as an
    /// array (RFC 4506, section 4.13) of 60 bytes a key.
    ///
    /// The fault is `Malformed` where the bytes are the block of no two lists of keys, and else that of
    /// [`View::make`] at the two lists. No memory is taken before the form is read and the keys are counted.
    pub fn read(alloc: Global, bytes: &[u8]) -> Result<View, ViewFault>
        ensures ok { IfOk result (λ view. bytes.now ≡ view_block view) }
        ensures legal { IfOk result IsView }
        ensures keys { IfOk result HasKeys }
        ensures err { IfErr result (BlockFailsAs bytes.now) }
    {
        let Some((member_keys, former_keys)) = key_lists(bytes) else {
            return Err(ViewFault::Malformed);
        };
        test_counts(member_keys.len(), former_keys.len())?;
        let (members, former) = tested(
            alloc,
            keys_of(alloc, member_keys)?,
            keys_of(alloc, former_keys)?,
        )?;
        Ok(View {
            members,
            former,
            name: name_of(bytes),
        })
    }

    /// The view's block. The error is: out of memory.
    pub fn write(&self, alloc: Global) -> Result<Bytes, Memory>
        ensures { IfOk result (λ block. block ≡ view_block self.now) }
    {
        block_of(alloc, self.members.keys(), self.former.keys())
    }

    /// The name of the view's block.
    pub fn name(&self) -> Key
        ensures { result ≡ view_name self.now }
    {
        self.name
    }

    /// The members' public keys: 1 to 16, ascending by their bytes.
    pub fn members(&self) -> &[PubKey]
        ensures value { result.now ≡ self.now.members }
        ensures legal { IsView self.now }
        ensures keys { HasKeys self.now }
    {
        self.members.keys()
    }

    /// The former members' public keys: up to 16, ascending by their bytes.
    pub fn former(&self) -> &[PubKey]
        ensures value { result.now ≡ self.now.former }
        ensures legal { IsView self.now }
        ensures keys { HasKeys self.now }
    {
        self.former.keys()
    }

    /// The head key of the log of that owner. A view keeps those of its members, and computes any other.
    pub fn head_key(&self, owner: &PubKey) -> Key
        ensures { result ≡ head_key_of owner.now }
    {
        self.members.head_key(owner)
    }

    /// Whether this is the head key of a member's log.
    pub fn is_member(&self, log: &Key) -> bool
        ensures { result ≡ is_member self.now log.now }
    {
        self.members.has(log)
    }

    /// Whether this is the head key of a former member's log.
    pub fn is_former(&self, log: &Key) -> bool
        ensures { result ≡ is_former self.now log.now }
    {
        self.former.has(log)
    }

    /// A copy. The error is: out of memory.
    pub fn copy(&self, alloc: Global) -> Result<View, Memory>
        ensures { IfOk result (λ copy. copy ≡ self.now) }
    {
        Ok(View {
            members: self.members.copy(alloc)?,
            former: self.former.copy(alloc)?,
            name: self.name,
        })
    }
}

/// Tests how many members and former members there are. The fault is `NoMember` or `TooMany`.
fn test_counts(members: usize, former: usize) -> Result<(), ViewFault>
    ensures some { OnOk result (members ≢ 0) }
    ensures few { OnOk result (members ≤ most_members) }
    ensures few_former { OnOk result (former ≤ most_former) }
    ensures err { IfErr result (CountsFailAs members former) }
{
    if members == 0 {
        Err(ViewFault::NoMember)
    } else if members > MOST_MEMBERS || former > MOST_FORMER {
        Err(ViewFault::TooMany)
    } else {
        Ok(())
    }
}

/// The two lists with their head keys, where a view may be made of them. The fault is `Order`, `Overlap` or
/// `Memory`.
fn tested(
    alloc: Global,
    members: Vec<PubKey>,
    former: Vec<PubKey>,
) -> Result<(Owners, Owners), ViewFault>
    requires { HasFewKeys (record { members = members.items; former = former.items }) }
    ensures members { IfOk result (λ lists. lists.0 ≡ members.items) }
    ensures former { IfOk result (λ lists. lists.1 ≡ former.items) }
    ensures legal { OnOk result (IsView (record { members = members.items; former = former.items })) }
    ensures keys { OnOk result (HasKeys (record { members = members.items; former = former.items })) }
    ensures err { IfErr result (FailsAs (record { members = members.items; former = former.items })) }
{
    if !(ascend(&members) && ascend(&former)) {
        return Err(ViewFault::Order);
    }
    let members = Owners::of(alloc, members)?;
    let former = Owners::of(alloc, former)?;
    if members.are_apart(&former) {
        Ok((members, former))
    } else {
        Err(ViewFault::Overlap)
    }
}
