/// How a block that is held was put.
#[derive(Clone, Copy, PartialEq, Eq)]
pub enum BlockKind {
    /// As content, under its name.
    Content,
    /// As the head of a log.
    Head,
}
