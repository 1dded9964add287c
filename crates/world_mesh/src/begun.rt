//! The nodes with which a mesh is made.

ghost use Rattle.ring_nodes.specs.NodesState.{NodesState, no_nodes};

use std::marker::Brand;

/// Which nodes a mesh is made with. A call that makes one picks them.
pub trait Begun {
    /// These nodes.
    ghost nodes: { NodesState };
}

impl Begun for Brand {
    ghost nodes = { no_nodes };
}
