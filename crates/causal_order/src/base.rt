//! What a closed part is taken over.

use log_records::Record;
use version_vectors::Vector;
use view_blocks::View;

/// The view, the front below what is held, and the held records.
#[derive(Clone, Copy)]
pub struct Base<'a> {
    pub view: &'a View,
    pub front: &'a Vector,
    pub held: &'a [Record],
}
