//! What is asked of an agent.

use nfs_model::Args;
use rpc_wire::Caller;

/// A call, and who makes it.
pub struct Asked {
    /// Who calls.
    pub caller: Caller,
    /// The procedure and its arguments.
    pub args: Args,
}

// Written out, so that whatever drops one calls this and isn't proved over all of its parts once more.
impl Drop for Asked {
    fn drop(self) {
        let Asked { caller: _, args: _ } = self;
    }
}
