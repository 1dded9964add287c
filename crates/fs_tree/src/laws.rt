//! What of a tree hangs on which operations.

ghost use Rattle.fs_tree.specs.Laws.{FilesHangOnTheirOwn, NamesHangOnNames};

/// A law and no code: a file, and a symbolic link, is what the operations on it make of it, from nothing: its bytes, its size and
/// its attributes hang on no other operation.
pub fn files_hang_on_their_own()
    ensures { FilesHangOnTheirOwn }
{}

/// A law and no code: names, and the kinds of inodes, are what the operations make of them without those that change contents.
pub fn names_hang_on_names()
    ensures { NamesHangOnNames }
{}
