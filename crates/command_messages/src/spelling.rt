//! The bytes of each piece.

ghost use Rattle.std.specs.Prelude.{◌≡◌, [], ◌++◌, option_map, replicate, Some, None, if◌then◌else◌, IfOk, OnOk};
ghost use Rattle.std.specs.List.{flat_map};
ghost use Rattle.wire_model.specs.Xdr.{word, opaque, padding};
ghost use Rattle.ivy_base.specs.Naming.{root_number};
ghost use Rattle.wire_model.specs.Rpc.{auth, system_body};
ghost use Rattle.nfs_model.specs.Objects.{handle_of};
ghost use Rattle.script_model.specs.Messages.{call_head, numbers_behind, piece_bytes, program_number};
ghost use Rattle.command_messages.specs.Lengths.{mode_alone};

use crate::replies::{ReplyParts, handle_numbered, verifier_numbered};
use fs_tree::ROOT;
use ivy_base::Memory;
use nfs3_objects::handle_of;
use script_model::Piece;
use std::alloc::Global;
use view_blocks::View;

/// The number of every message: a script has one call at a time in progress.
const TRANSACTION: u64 = 1;

/// That a message is a call, and the version of RPC (RFC 5531, section 9: CALL and rpcvers).
const CALL: u64 = 0;

const RPC_VERSION: u64 = 2;

/// NFS and MOUNT, and the version of both (RFC 1813, sections 3 and 5: NFS_PROGRAM, MOUNT_PROGRAM, NFS_V3 and MOUNT_V3).
const NFS_PROGRAM: u64 = 100_003;

const MOUNT_PROGRAM: u64 = 100_005;

const VERSION: u64 = 3;

/// The flavours of a verifier of no body and of a credential by user and group (RFC 5531, section 8.2).
const AUTH_NONE: u64 = 0;

const AUTH_SYS: u64 = 1;

/// The bytes of a credential's body that has no name of a machine and no further groups, and those of a group.
const CREDENTIAL_BODY: u64 = 20;

const GROUP: u64 = 4;

/// Appends bytes as they are.
fn put(out: &mut Vec<u8>, bytes: &[u8]) -> Result<(), Memory>
    ensures { OnOk result (out.new.items ≡ out.old.items ++ bytes.now) }
{
    out.extend_from_slice(bytes)?;
    Ok(())
}

/// Appends a number as a word (RFC 4506, section 4.2): of one that no word holds, the lowest four bytes.
fn put_word(out: &mut Vec<u8>, number: u64) -> Result<(), Memory>
    ensures { OnOk result (out.new.items ≡ out.old.items ++ word number) }
{
    put(out, &number.to_be_bytes()[4..])
}

/// Appends numbers as words.
fn put_words(out: &mut Vec<u8>, numbers: &[u64]) -> Result<(), Memory>
    ensures { OnOk result (out.new.items ≡ out.old.items ++ flat_map word numbers.now) }
{
    for number in numbers {
        put_word(out, *number)?;
    }
    Ok(())
}

/// Appends the numbers after that one as words, so many.
fn put_numbers_behind(out: &mut Vec<u8>, number: u32, count: u32) -> Result<(), Memory>
    ensures { OnOk result (out.new.items ≡ out.old.items ++ flat_map word (numbers_behind number count)) }
{
    for place in 0..count {
        put_word(out, u64::from(number) + u64::from(place) + 1)?;
    }
    Ok(())
}

/// Appends so many bytes of one kind.
fn put_repeated(out: &mut Vec<u8>, count: usize, byte: u8) -> Result<(), Memory>
    ensures { OnOk result (out.new.items ≡ out.old.items ++ replicate count byte) }
{
    let length = out.len().checked_add(count).ok_or(Memory)?;
    out.resize(length, byte)?;
    Ok(())
}

/// Appends the zeros after opaque data of so many bytes, up to a multiple of four.
fn put_padding(out: &mut Vec<u8>, count: usize) -> Result<(), Memory>
    ensures { OnOk result (out.new.items ≡ out.old.items ++ padding count) }
{
    put_repeated(out, (4 - count % 4) % 4, 0)
}

/// Appends opaque data of any length (RFC 4506, section 4.10).
fn put_data(out: &mut Vec<u8>, bytes: &[u8]) -> Result<(), Memory>
    ensures { OnOk result (out.new.items ≡ out.old.items ++ opaque bytes.now) }
{
    put_word(out, bytes.len() as u64)?;
    put(out, bytes)?;
    put_padding(out, bytes.len())
}

/// Appends opaque data of so many bytes, each of which is that one.
fn put_filled(out: &mut Vec<u8>, count: u64, byte: u8) -> Result<(), Memory>
    ensures { OnOk result (out.new.items ≡ out.old.items ++ opaque (replicate count byte)) }
{
    put_word(out, count)?;
    put_repeated(out, count as usize, byte)?;
    put_padding(out, count as usize)
}

/// Appends a credential by user and group, and by so many groups after it: its stamp is 0, and it has no name of a machine (RFC
/// 5531, appendix A: authsys_parms).
fn put_credential(out: &mut Vec<u8>, uid: u32, gid: u32, groups: u32) -> Result<(), Memory>
    ensures { OnOk result (out.new.items ≡ out.old.items ++ auth (record { flavour = 1; body = system_body 0 [] (record { uid = uid; gid = gid; groups = numbers_behind gid groups }) })) }
{
    let groups_count = u64::from(groups);
    let body = CREDENTIAL_BODY + GROUP * groups_count;
    put_words(
        out,
        &[
            AUTH_SYS,
            body,
            0,
            0,
            u64::from(uid),
            u64::from(gid),
            groups_count,
        ],
    )?;
    put_numbers_behind(out, gid, groups)?;
    Ok(())
}

/// The program that a call is for.
fn program_number(mount: bool) -> u64
    ensures { result ≡ program_number mount }
{
    if mount { MOUNT_PROGRAM } else { NFS_PROGRAM }
}

/// Appends the head of a call of version 3 of a program (RFC 5531, section 9: rpc_msg and call_body).
fn put_head(
    out: &mut Vec<u8>,
    mount: bool,
    procedure: u32,
    uid: u32,
    gid: u32,
    groups: u32,
) -> Result<(), Memory>
    ensures { OnOk result (out.new.items ≡ out.old.items ++ call_head mount procedure (record { uid = uid; gid = gid; groups = numbers_behind gid groups })) }
{
    put_words(
        out,
        &[
            TRANSACTION,
            CALL,
            RPC_VERSION,
            program_number(mount),
            VERSION,
            u64::from(procedure),
        ],
    )?;
    put_credential(out, uid, gid, groups)?;
    put_words(out, &[AUTH_NONE, 0])?;
    Ok(())
}

/// So many groups as a number of 32 bits. More are refused as if memory had no room for them: a message has less.
fn groups_in_memory(groups: u64) -> Result<u32, Memory>
    ensures { IfOk result (λ count. count ≡ groups) }
{
    u32::try_from(groups).ok().ok_or(Memory)
}

/// Appends the handle of the root.
fn put_root(alloc: Global, out: &mut Vec<u8>, view: &View) -> Result<(), Memory>
    ensures { OnOk result (out.new.items ≡ out.old.items ++ opaque (handle_of view.now root_number)) }
{
    let handle = handle_of(alloc, view, &ROOT)?;
    put_data(out, handle.as_slice())
}

/// Appends new attributes that give a mode and nothing else (RFC 1813, section 2.5, sattr3): that the mode is set, the mode,
/// that user, group and size are not set, and that neither time changes.
fn put_attributes(out: &mut Vec<u8>, mode: u32) -> Result<(), Memory>
    ensures { OnOk result (out.new.items ≡ out.old.items ++ mode_alone mode) }
{
    put_words(out, &[1, u64::from(mode), 0, 0, 0, 0, 0])
}

/// Appends the bytes of a piece. It is false where the piece has none.
pub fn put_piece(
    alloc: Global,
    out: &mut Vec<u8>,
    replies: &[ReplyParts],
    view: &View,
    piece: &Piece,
) -> Result<bool, Memory>
    ensures { IfOk result (λ is_put. option_map (λ bytes. out.old.items ++ bytes) (piece_bytes replies.now view.now piece.now)
        ≡ (if is_put then Some out.new.items else None)) }
{
    match piece {
        Piece::Call {
            mount,
            procedure,
            uid,
            gid,
            groups,
        } => {
            let groups = groups_in_memory(*groups)?;
            put_head(out, *mount, *procedure, *uid, *gid, groups)?;
        }
        Piece::Root => put_root(alloc, out, view)?,
        Piece::HandleOf { reply } => {
            let Some(handle) = handle_numbered(replies, *reply) else {
                return Ok(false);
            };
            put_data(out, handle)?;
        }
        Piece::VerifierOf { reply } => {
            let Some(verifier) = verifier_numbered(replies, *reply) else {
                return Ok(false);
            };
            put(out, verifier)?;
        }
        Piece::Text { text } => put_data(out, text.as_slice())?,
        Piece::Opaque { count, byte } => put_filled(out, *count, *byte)?,
        Piece::Mode { mode } => put_attributes(out, *mode)?,
        Piece::Word { number } => put_word(out, u64::from(*number))?,
        Piece::DoubleWord { number } => put(out, &number.to_be_bytes())?,
        Piece::Raw { bytes } => put(out, bytes.as_slice())?,
    }
    Ok(true)
}
