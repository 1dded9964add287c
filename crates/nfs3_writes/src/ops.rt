//! The operations of a plan.

ghost use Rattle.std.specs.Prelude.{◌≡◌, IfOk};

use ivy_base::{Memory, Op};
use std::alloc::Global;
use std::marker::Model;

/// Operations in their order, which contracts see as a list.
#[derive(Drop)]
pub struct Ops {
    items: Vec<Op>,
}

impl Model for Ops {
    ghost use Rattle.std.specs.Prelude.{List};
    ghost use Rattle.ivy_base.specs.declared.operation.Op.{Op};

    ghost Value = { List Op };

    ghost view = { λ o. o.items.items };
}

impl Ops {
    /// These operations, which are not copied.
    pub fn of(items: Vec<Op>) -> Ops
        ensures { result ≡ items.items }
    {
        Ops { items }
    }

    /// The operations as a slice.
    pub fn as_slice(&self) -> &[Op]
        ensures { result.now ≡ self.now }
    {
        self.items.as_slice()
    }

    /// A copy of these operations and of their bytes. The error is: out of memory.
    pub fn copy(&self, alloc: Global) -> Result<Ops, Memory>
        ensures { IfOk result (λ copy. copy ≡ self.now) }
    {
        let mut items = Vec::with_capacity(alloc, self.items.len())?;
        for op in &self.items {
            items.push(op.copy(alloc)?)?;
        }
        Ok(Ops { items })
    }

    /// The operations as a vector, which is not copied.
    pub fn into_vec(self) -> Vec<Op>
        ensures { result.items ≡ self }
    {
        self.items
    }
}
