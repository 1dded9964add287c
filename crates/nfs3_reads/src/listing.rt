//! All that a directory has: its entries, and the verifier of its listing.

ghost use Rattle.std.specs.Prelude.{◌≡◌, [], ◌∷◌, IfOk, take, true};
ghost use Rattle.ivy_base.specs.Naming.{digest};
ghost use Rattle.wire_model.specs.Xdr.{word};
ghost use Rattle.tree_model.specs.Tree.{inode_at, is_directory};
ghost use Rattle.nfs_model.specs.Pages.{all_entries, cookie_verifier};
ghost use Rattle.nfs3_reads.specs.Names.{names_bytes};

use dir_replay::Listing;
use fs_tree::Tree;
use ivy_base::{Bytes, Key, Memory};
use sha1::Sha1;
use std::alloc::Global;

/// All entries of a directory, with the verifier of its cookies.
#[derive(Drop)]
pub struct Whole {
    /// The directory itself, its parent, and its names by their bytes.
    pub entries: Vec<(Bytes, Key)>,
    pub verifier: [u8; 8],
}

/// All that the directory of that number has. The error is: out of memory.
pub fn whole_of(alloc: Global, tree: &Tree, number: &Key) -> Result<Whole, Memory>
    requires { is_directory (inode_at tree.now number.now) ≡ true }
    ensures entries { IfOk result (λ whole. whole.entries.items ≡ all_entries tree.now number.now) }
    ensures verifier { IfOk result (λ whole. whole.verifier ≡ cookie_verifier tree.now number.now) }
{
    let listing = tree.names().listing(alloc, number)?;
    let verifier = verifier_of(listing.as_slice());
    let parent = tree.names().parent(number).unwrap_or(*number);
    Ok(Whole {
        entries: with_parents(alloc, *number, parent, listing)?,
        verifier,
    })
}

/// The entries of a directory of that number and that parent. The error is: out of memory.
fn with_parents(
    alloc: Global,
    number: Key,
    parent: Key,
    listing: Listing,
) -> Result<Vec<(Bytes, Key)>, Memory>
    ensures { IfOk result (λ entries. entries.items ≡ (46 ∷ [], number) ∷ (46 ∷ 46 ∷ [], parent) ∷ listing) }
{
    let mut entries = listing.into_vec();
    entries.insert(0, (Bytes::copy_of(alloc, b"..")?, parent))?;
    entries.insert(0, (Bytes::copy_of(alloc, b".")?, number))?;
    Ok(entries)
}

/// The verifier of the listing: the first eight bytes of the SHA-1 (FIPS 180-4) over each name's length, bytes and
/// inode.
fn verifier_of(listing: &[(Bytes, Key)]) -> [u8; 8]
    ensures { result ≡ take 8 (digest (names_bytes listing.now)).0 }
{
    let mut hasher = Sha1::new();
    for (name, number) in listing {
        hasher.update(&word_of(name.as_slice().len()));
        hasher.update(name.as_slice());
        hasher.update(&number.0);
    }
    let [a, b, c, d, e, f, g, h, ..] = hasher.finalize();
    [a, b, c, d, e, f, g, h]
}

/// The number as a word (RFC 4506, section 4.2): its lowest four bytes, high first.
fn word_of(number: usize) -> [u8; 4]
    ensures { result ≡ word number }
{
    let [_, _, _, _, a, b, c, d] = number.to_be_bytes();
    [a, b, c, d]
}
