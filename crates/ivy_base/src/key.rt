/// 20 bytes: the name of a block, the head key of a log, or the number of an inode.
///
/// Keys are ordered by their bytes, as the ring orders them.
#[derive(Clone, Copy, PartialEq, Eq, PartialOrd, Ord)]
pub struct Key(pub [u8; 20]);

/// The public key of a participant, in the 60 bytes that RFC 8554, section 6.1, gives a key of hierarchical
/// signatures. Keys are ordered by their bytes.
#[derive(Clone, Copy, PartialEq, Eq, PartialOrd, Ord)]
pub struct PubKey(pub [u8; 60]);
