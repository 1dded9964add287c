//! The records that an agent made, by their numbers.

ghost use Rattle.std.specs.Prelude.{◌≡◌, ◌+◌, ◌≤◌, ◌==◌, length, fold, slice_index, OnOk, OnErr};
ghost use Rattle.std.specs.List.{list_any};
ghost use Rattle.std.specs.Vec.{vec_capacity, vec_len};
ghost use Rattle.world_model.specs.Steps.{made_by, number_in, with_made};
ghost use Rattle.session_model.specs.Sessions.{is_log};

use dht_ids::{Post, PostKind};
use ivy_base::{Key, Memory};

/// Whether the block is a record of a log.
fn is_record(kind: PostKind) -> bool
    ensures { result ≡ is_log kind }
{
    match kind {
        PostKind::Log => true,
        PostKind::Block | PostKind::Head => false,
    }
}

/// The byte at that place, and 0 after the last.
fn byte_at(bytes: &[u8], place: usize) -> u8
    ensures { result ≡ slice_index bytes.now place }
{
    match bytes.get(place) {
        Some(byte) => *byte,
        None => 0,
    }
}

/// The number of a record, by its block.
fn record_number(block: &[u8]) -> u32
    ensures { result ≡ number_in block.now }
{
    u32::from_be_bytes([
        byte_at(block, 48),
        byte_at(block, 49),
        byte_at(block, 50),
        byte_at(block, 51),
    ])
}

/// Whether a record of that number is among them.
fn has_number(made: &[(u32, Key)], number: u32) -> bool
    ensures { result ≡ list_any (λ n. n.0 == number) made.now }
{
    made.iter().any(|one| one.0 == number)
}

/// Puts a record's name under its number, where none stands there. There is room for it.
fn count_one(made: &mut Vec<(u32, Key)>, one: (u32, Key))
    requires { vec_len made.old + 1 ≤ vec_capacity made.old }
    ensures made { made.new.items ≡ with_made made.old.items one }
    ensures room { vec_capacity made.new ≡ vec_capacity made.old }
    ensures more { vec_len made.new ≤ vec_len made.old + 1 }
{
    if !has_number(made, one.0) {
        made.push_reserved(one);
    }
}

/// Counts the records among the posts as made. The error is: out of memory; nothing is changed then.
pub(crate) fn count_all(made: &mut Vec<(u32, Key)>, posts: &[Post]) -> Result<(), Memory>
    ensures made { OnOk result (made.new.items ≡ fold with_made made.old.items (made_by posts.now)) }
    ensures unchanged { OnErr result (made.new.items ≡ made.old.items) }
{
    made.try_reserve(posts.len())?;
    'posts: for post in posts {
        if is_record(post.kind) {
            count_one(made, (record_number(post.bytes.as_slice()), post.key));
        }
    }
    Ok(())
}
