//! Views.

use crate::held::Held;
use crate::line::Line;
use crate::text::Text;
use ivy_base::{Key, PubKey};
use view_blocks::{View, ViewFault};

fn name_of(fault: ViewFault) -> &'static str {
    match fault {
        ViewFault::Malformed => "malformed",
        ViewFault::NoMember => "no member",
        ViewFault::TooMany => "too many",
        ViewFault::Order => "order",
        ViewFault::Overlap => "overlap",
        ViewFault::Memory => "out of memory",
    }
}

/// Tells the bytes as a view.
pub fn view(out: &mut Text, bytes: &[u8]) {
    match View::read(out.alloc, bytes) {
        Ok(view) => put_view(out, &Held { value: view }.value, bytes),
        Err(fault) => out.add(name_of(fault)),
    }
}

/// Adds a view that has this block: the view that is made of the lists of its copy has it too.
fn put_view(out: &mut Text, view: &View, bytes: &[u8]) {
    out.bytes("ok ", &view.name().0);
    out.next_number(view.members().len() as u64);
    out.next_number(view.former().len() as u64);
    match view.copy(out.alloc) {
        Ok(copy) => compare_lists(out, &Held { value: copy }.value, &view.name(), bytes),
        Err(_) => out.lack(),
    }
}

/// Tells `differs` unless the view that is made of the view's lists has this name and this block.
fn compare_lists(out: &mut Text, view: &View, name: &Key, bytes: &[u8]) {
    match View::make(out.alloc, view.members(), view.former()) {
        Ok(made) => compare_block(out, &Held { value: made }.value, name, bytes),
        Err(_) => out.lack(),
    }
}

/// Tells `differs` unless the view has this name and this block.
fn compare_block(out: &mut Text, view: &View, name: &Key, bytes: &[u8]) {
    out.differ_unless(view.name() == *name);
    out.compare(view.write(out.alloc), bytes);
}

/// The public keys that the bytes are, one after the other.
fn keys_of(out: &mut Text, bytes: &[u8]) -> Vec<PubKey> {
    let mut keys = Vec::new(out.alloc);
    let (chunks, _) = bytes.as_chunks::<60>();
    for chunk in chunks {
        out.push(&mut keys, PubKey(*chunk));
    }
    keys
}

/// Tells a view of these members and former members.
pub fn make(line: &mut Line<'_>, former: &[u8]) {
    let members = line.bytes();
    let members = keys_of(&mut line.text, &members);
    put_made(&mut line.text, &members, former);
}

/// Tells the view of these members, and of the former members that the bytes are.
fn put_made(out: &mut Text, members: &[PubKey], former: &[u8]) {
    let former = keys_of(out, former);
    match View::make(out.alloc, members, &former) {
        Ok(made) => put_again(out, &Held { value: made }.value),
        Err(fault) => out.add(name_of(fault)),
    }
}

/// Tells the view that the view's block is.
fn put_again(out: &mut Text, made: &View) {
    match made.write(out.alloc) {
        Ok(block) => view(out, block.as_slice()),
        Err(_) => out.lack(),
    }
}

/// Tells whose log has that head key under the view of that block.
pub fn log(line: &mut Line<'_>, bytes: &[u8]) {
    let key = line.key();
    match View::read(line.text.alloc, bytes) {
        Ok(view) => line.text.add(role_of(&Held { value: view }.value, &key)),
        Err(_) => line.fail(),
    }
}

fn role_of(view: &View, key: &Key) -> &'static str {
    match (view.is_member(key), view.is_former(key)) {
        (true, false) => "member",
        (false, true) => "former",
        (false, false) => "neither",
        (true, true) => "both",
    }
}
