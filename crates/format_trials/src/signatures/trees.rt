//! Trees that sign.

ghost use Rattle.std.specs.Prelude.{◌<◌};
ghost use Rattle.hash_signature_model.specs.Parameters.{leaves};

use super::sets::set_of;
use crate::held::Held;
use crate::line::Line;
use crate::text::Text;
use lms_core::{PrivateKey, Tree, lower_id, lower_seed};
use std::thread::Threads;

/// The private key that the next three words are.
fn private_key(line: &mut Line<'_>) -> PrivateKey {
    let word = line.word();
    PrivateKey {
        set: set_of(line, word),
        id: line.array(),
        seed: line.array(),
    }
}

/// Adds the public key of a tree and its signature by that leaf.
fn put_signed(out: &mut Text, tree: &Tree, leaf: u32, message: &[u8])
    requires { leaf < leaves tree.now.set.h }
{
    out.word(&tree.public());
    out.written(" ", tree.sign_leaf(out.alloc, leaf, message));
}

/// Adds the public key and a signature of the tree.
fn put_grown(out: &mut Text, key: &PrivateKey, leaf: u32, message: &[u8]) {
    if leaf >= key.set.h.leaf_count() {
        return out.lack();
    }
    match Tree::grow(out.alloc, key.set, &key.id, &key.seed) {
        Ok(tree) => put_signed(out, &Held { value: tree }.value, leaf, message),
        Err(_) => out.lack(),
    }
}

/// Adds the public key and a signature of a copy of the tree.
fn put_copied(out: &mut Text, tree: &Tree, leaf: u32, message: &[u8])
    requires { leaf < leaves tree.now.set.h }
{
    match tree.copy(out.alloc) {
        Ok(copy) => put_signed(out, &Held { value: copy }.value, leaf, message),
        Err(_) => out.lack(),
    }
}

/// Adds the public key and a signature of the tree, where a copy of it gives the same.
fn put_alike(out: &mut Text, tree: &Tree, leaf: u32, message: &[u8])
    requires { leaf < leaves tree.now.set.h }
{
    let mut copied = Text::new(out.alloc);
    put_copied(&mut copied, tree, leaf, message);
    put_signed(out, tree, leaf, message);
    out.note(copied.is_as(out));
}

/// Adds the public key and a signature of the tree that is grown in two halves.
fn put_joined<R: Threads>(rt: &R, out: &mut Text, key: &PrivateKey, leaf: u32, message: &[u8]) {
    if leaf >= key.set.h.leaf_count() {
        return out.lack();
    }
    match Tree::grow_joined(rt, out.alloc, key.set, &key.id, &key.seed) {
        Ok(tree) => put_alike(out, &Held { value: tree }.value, leaf, message),
        Err(_) => out.lack(),
    }
}

/// Tells the public key of the tree and the signature by the leaf that the next word is, of the message after it.
fn sign_with(line: &mut Line<'_>, key: &PrivateKey) {
    let leaf = line.number();
    let message = line.bytes();
    put_grown(&mut line.text, key, leaf, &message);
}

/// Tells the public key and a signature of the tree that the words are.
pub fn sign(line: &mut Line<'_>) {
    let key = private_key(line);
    sign_with(line, &key);
}

/// The private key of the tree below a leaf.
fn key_below(key: &PrivateKey, leaf: u32) -> PrivateKey {
    PrivateKey {
        set: key.set,
        id: lower_id(&key.id, &key.seed, leaf),
        seed: lower_seed(&key.id, &key.seed, leaf),
    }
}

/// Tells the public key and a signature of the tree below a leaf of the tree that the words are.
pub fn sign_below(line: &mut Line<'_>) {
    let key = private_key(line);
    let leaf = line.number();
    sign_with(line, &key_below(&key, leaf));
}

/// Tells the public key and a signature of the tree that is grown in two halves, where a copy of it and the tree that is
/// grown in one give the same.
pub fn sign_joined<R: Threads>(rt: &R, line: &mut Line<'_>) {
    let key = private_key(line);
    let leaf = line.number();
    let message = line.bytes();
    put_both(rt, &mut line.text, &key, leaf, &message);
}

/// Adds the public key and a signature of the tree that is grown in two halves, where the tree that is grown in one gives
/// the same.
fn put_both<R: Threads>(rt: &R, out: &mut Text, key: &PrivateKey, leaf: u32, message: &[u8]) {
    let mut whole = Text::new(out.alloc);
    put_grown(&mut whole, key, leaf, message);
    put_joined(rt, out, key, leaf, message);
    out.note(whole.is_as(out));
}
