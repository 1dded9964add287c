//! Calls: who calls which procedure, and the bytes of its arguments.

ghost use Rattle.std.specs.Prelude.{◌≡◌, ◌≤◌, ℕ, List, length, take, IfSome};
ghost use Rattle.std.specs.List.{flat_map};
ghost use Rattle.wire_model.specs.Xdr.{word, array, IsWord, AreSoMany};
ghost use Rattle.wire_model.specs.Parts.{Reads};
ghost use Rattle.wire_model.specs.Rpc.{Auth, auth, AuthFits};
ghost use Rattle.rpc_wire.specs.Parts.{AreWords, words, BodyFits, body, auth_of, UserFits, user, AreGroups, SystemFits, system};
ghost use Rattle.rpc_wire.specs.Callers.{IsHeading, HasFewGroups, IsCallerOf, IsSystemCallerOf};

use xdr_codec::Parts;

/// The version of RPC that is spoken here (RFC 5531, section 9).
const RPC_VERSION: u32 = 2;

/// The message type of a call (msg_type).
const CALL: u32 = 0;

/// The most bytes of a credential's or a verifier's body (section 8.2).
const MOST_AUTH: u32 = 400;

/// The flavours of credentials that are read: of nobody, and of a system's user (auth_flavor).
const AUTH_NONE: u32 = 0;

const AUTH_SYS: u32 = 1;

/// The most bytes of a machine's name, and the most groups, of AUTH_SYS (appendix A).
const MOST_NAME: u32 = 255;

const MOST_GROUPS: u32 = 16;

/// The user and the group of a caller who doesn't say who it is.
const NOBODY: u32 = 65_534;

/// Who calls: a user, its group, and `count` further groups, at most 16.
#[derive(Clone, Copy)]
pub struct Caller {
    pub uid: u32,
    pub gid: u32,
    pub gids: [u32; 16],
    pub count: u32,
}

/// A call (RFC 5531, section 9, call_body). The verifier isn't kept, and of the credential the caller alone.
#[derive(Clone, Copy)]
pub struct Call<'a> {
    pub xid: u32,
    pub program: u32,
    pub version: u32,
    pub procedure: u32,
    /// Whose call it is: `None` where the credential is of an unknown flavour, or its body isn't of its form.
    pub caller: Option<Caller>,
    /// The bytes after the verifier.
    pub args: &'a [u8],
}

/// What a message is.
#[derive(Clone, Copy)]
pub enum Heading<'a> {
    /// A call of RPC version 2.
    Good(Call<'a>),
    /// A call of another version: nothing after the version is looked at.
    Mismatch { xid: u32 },
    /// No call.
    NotACall,
}

/// How a caller shows who it is (section 8.2, opaque_auth).
#[derive(Clone, Copy)]
pub struct Credential<'a> {
    pub flavour: u32,
    pub body: &'a [u8],
}

/// Reads a message: a call with its whole credential and verifier, or one of another version of RPC, exactly by the
/// bytes (RFC 5531, section 9). It takes no memory.
///
/// A credential of flavour AUTH_NONE is nobody's, user and group 65534 without groups, whatever its body; one of
/// AUTH_SYS is that of its user, its group and up to 16 groups where its body is of that form and nothing follows;
/// any other credential leaves the caller `None`. The verifier's flavour isn't looked at.
pub fn read_call(message: &[u8]) -> Heading<'_>
    ensures heading { IsHeading message.now result }
    ensures groups { HasFewGroups result }
{
    let mut parts = Parts::of(message);
    let (xid, kind, version) = read_words(&mut parts);
    let Some(_) = parts.rest() else {
        return Heading::NotACall;
    };
    if kind != CALL {
        return Heading::NotACall;
    }
    if version != RPC_VERSION {
        return Heading::Mismatch { xid };
    }
    let (program, version, procedure, credential) = read_body(&mut parts);
    match parts.rest() {
        Some(args) => Heading::Good(Call {
            xid,
            program,
            version,
            procedure,
            caller: caller_of(&credential),
            args,
        }),
        None => Heading::NotACall,
    }
}

/// Three words.
fn read_words(parts: &mut Parts<'_>) -> (u32, u32, u32)
    ensures { Reads AreWords words parts.old ((result.0, result.1), result.2) parts.new }
{
    let first = parts.u32();
    let second = parts.u32();
    let third = parts.u32();
    (first, second, third)
}

/// What follows up to the arguments: program, version, procedure and credential, and a verifier that isn't kept.
fn read_body<'a>(parts: &mut Parts<'a>) -> (u32, u32, u32, Credential<'a>)
    ensures { (verifier : Auth) × Reads BodyFits body parts.old ((((result.0, result.1), result.2), auth_of result.3), verifier) parts.new }
{
    let (program, version, procedure) = read_words(parts);
    let credential = read_credential(parts);
    let _verifier = read_credential(parts);
    (program, version, procedure, credential)
}

/// A credential or a verifier.
fn read_credential<'a>(parts: &mut Parts<'a>) -> Credential<'a>
    ensures { Reads AuthFits auth parts.old (auth_of result) parts.new }
{
    let flavour = parts.u32();
    let body = parts.opaque(MOST_AUTH);
    Credential { flavour, body }
}

/// Whose call a credential makes it.
fn caller_of(credential: &Credential<'_>) -> Option<Caller>
    ensures caller { IsCallerOf (auth_of credential.now) result }
    ensures few { IfSome result (λ c. c.count ≤ 16) }
{
    match credential.flavour {
        AUTH_NONE => Some(Caller {
            uid: NOBODY,
            gid: NOBODY,
            gids: [0; 16],
            count: 0,
        }),
        AUTH_SYS => read_system(credential.body),
        _ => None,
    }
}

/// The caller that a body of AUTH_SYS spells, with nothing after it.
fn read_system(body: &[u8]) -> Option<Caller>
    ensures caller { IsSystemCallerOf body.now result }
    ensures few { IfSome result (λ c. c.count ≤ 16) }
{
    let mut parts = Parts::of(body);
    let (uid, gid) = read_user(&mut parts);
    let (gids, count) = read_groups(&mut parts);
    if !parts.are_read() {
        return None;
    }
    Some(Caller {
        uid,
        gid,
        gids,
        count,
    })
}

/// A stamp and a machine's name, which aren't kept, and a user and a group.
fn read_user(parts: &mut Parts<'_>) -> (u32, u32)
    ensures { (stamp : ℕ) × (machine : List ℕ) × Reads UserFits user parts.old (((stamp, machine), result.0), result.1) parts.new }
{
    let _stamp = parts.u32();
    let _machine = parts.opaque(MOST_NAME);
    let uid = parts.u32();
    let gid = parts.u32();
    (uid, gid)
}

/// An array of at most 16 groups, and how many there are.
fn read_groups(parts: &mut Parts<'_>) -> ([u32; 16], u32)
    ensures reads { Reads AreGroups (array word) parts.old (take result.1 result.0) parts.new }
    ensures few { result.1 ≤ 16 }
{
    let count = parts.u32();
    if count > MOST_GROUPS {
        parts.miss();
        return ([0; 16], 0);
    }
    (read_each_group(parts, count), count)
}

/// So many groups, at most 16.
fn read_each_group(parts: &mut Parts<'_>, count: u32) -> [u32; 16]
    requires { count ≤ 16 }
    ensures reads { Reads (AreSoMany IsWord count) (flat_map word) parts.old (take count result) parts.new }
    ensures size { length (take count result) ≡ count }
{
    let mut gids = [0; 16];
    'groups: for i in 0..count {
        gids[i as usize] = parts.u32();
    }
    gids
}
