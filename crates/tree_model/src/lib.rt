//! What a set of logs stands for: a tree of directories, files and symbolic links.
//!
//! Layer: definitions and their laws over `ivy_base`; nothing here runs.
//! For the layers above: `specs/Tree.antt` says what a tree is and what it shows, `specs/Apply.antt` what each
//! operation does to it and which tree a list of them makes from the root alone. [`sound_replays`] proves what
//! holds of every such tree (`specs/Sound.antt`), [`small_replays`] what the smallest ones are
//! (`specs/Laws.antt`). Lemmas to cite: `proofs/Keys` and `proofs/Same` (the orders of keys and places, and
//! `==`), `proofs/Names` (what an effect leaves to be found), `proofs/Sound` and `proofs/Applied` (each operation
//! keeps a tree sound), `proofs/Climb` and `proofs/Parents` (what lies inside a directory, and going up from it).
#![tactic(auto)]

ghost use Rattle.std.specs.Prelude.{◌≡◌, [], List};
ghost use Rattle.tree_model.specs.Apply.{empty_tree, apply_all};
ghost use Rattle.tree_model.specs.Laws.{MakesName};
ghost use Rattle.tree_model.specs.Sound.{RecordsMakeSoundTrees, InsideIsExact};

/// The smallest replays. Without operations the root is alone, and after the two operations of a new directory
/// its name leads to it, wherever such a directory may be made.
pub fn small_replays()
    ensures nothing { apply_all empty_tree [] ≡ empty_tree }
    ensures made { MakesName }
{}

/// What holds after every list of operations. The root is a directory without a name, names stand in directories
/// and lead to inodes, a directory has one name at most, and no directory lies inside itself. So the way up from
/// a directory ends, and the test of what is inside one says what the relation says.
pub fn sound_replays()
    ensures sound { RecordsMakeSoundTrees }
    ensures inside { InsideIsExact }
{}
