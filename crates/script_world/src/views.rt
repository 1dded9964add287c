//! Views that lines make.

ghost use Rattle.std.specs.Prelude.{◌≡◌, ◌≢◌, ◌++◌, [], ◌∷◌, IfOk, OnOk};

use crate::made_views::{Made, make_view};
use crate::parts::{NamedView, Parts};
use dht_ids::Judge;
use ivy_base::{Bytes, Memory};
use script_driver::Taken;
use std::alloc::Global;
use view_blocks::View;

impl Parts {
    ghost use Rattle.world_model.specs.Logs.{ViewLine, keys_of};
    ghost use Rattle.script_world.specs.PartsState.{PlaysIn};
    ghost use Rattle.script_world.specs.Views.{MakesOf, PutsView};

    /// The line `view`: makes a view of that name, of the members' and the former members' logs. Its block is met, and put at
    /// its owners; that the put was acknowledged is known to the ghost state alone. A line names a member at least. The error
    /// is: out of memory, or 2^64 asks.
    pub fn make_view<J: Judge>(
        &mut self,
        alloc: Global,
        judge: &J,
        name: Bytes,
        members: &[Bytes],
        former: &[Bytes],
    ) -> Result<Taken, Memory>
        requires { members.now ≢ [] }
        ensures { IfOk result (λ taken. PlaysIn (λ w outcome. ViewLine (J.judges judge.now) w name (keys_of w.0 members.now) (keys_of w.0 former.now) outcome) self.old taken self.new) }
    {
        // Before the ring there is nobody.
        let Some(replicas) = self.replicas else {
            return Ok(Taken::Refused);
        };
        match self.view_of(alloc, name.as_slice(), members, former)? {
            Made::Refused => Ok(Taken::Refused),
            Made::TooMany => Ok(Taken::Exceeded),
            Made::View(view) => {
                self.put_view(alloc, judge, replicas, name, view)?;
                Ok(Taken::Went(Vec::new(alloc)))
            }
        }
    }

    /// The view that a line makes; it is refused where a view has that name, or a log isn't there. The error is: out of memory.
    fn view_of(
        &self,
        alloc: Global,
        name: &[u8],
        members: &[Bytes],
        former: &[Bytes],
    ) -> Result<Made, Memory>
        requires { members.now ≢ [] }
        ensures { IfOk result (MakesOf name.now members.now former.now self.now) }
    {
        if self.view_named(name).is_some() {
            return Ok(Made::Refused);
        }
        let Some(members) = self.participants.keys_of(alloc, members)? else {
            return Ok(Made::Refused);
        };
        let Some(former) = self.participants.keys_of(alloc, former)? else {
            return Ok(Made::Refused);
        };
        make_view(alloc, members, former)
    }

    /// A view comes after the others; its block is met, and put at its owners. The error is: out of memory, or 2^64 asks.
    fn put_view<J: Judge>(
        &mut self,
        alloc: Global,
        judge: &J,
        replicas: u32,
        name: Bytes,
        view: View,
    ) -> Result<(), Memory>
        ensures { IfOk result (λ _. PutsView (J.judges judge.now) replicas name view self.old self.new) }
    {
        let block = view.write(alloc)?;
        let key = view.name();
        push_view(&mut self.views, name, view)?;
        self.met.meet(alloc, block.as_slice())?;
        let _came = self.nodes.put_block(alloc, judge, replicas, key, block)?;
        Ok(())
    }
}

/// Puts a view after the others. The error is: out of memory.
fn push_view(views: &mut Vec<NamedView>, name: Bytes, view: View) -> Result<(), Memory>
    ensures { OnOk result (views.new.items ≡ views.old.items ++ record { name = name; view = view } ∷ []) }
{
    views.push(NamedView { name, view })?;
    Ok(())
}
