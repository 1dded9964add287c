//! Plans.

use crate::ops::Ops;
use nfs_model::Reply;

/// What a changing procedure is to do on a tree.
#[derive(Drop)]
pub enum Plan {
    /// It is refused: nothing is done, and this is the reply.
    Refuse(Reply),
    /// There is nothing to be done, and this is the reply.
    Nothing(Reply),
    /// These operations, one to three, are to be appended as records, one each.
    Ops(Ops),
}
