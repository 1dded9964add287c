//! Writing whole arguments.

ghost use Rattle.std.specs.Prelude.{◌≡◌, ◌+◌, ◌≤◌, ◌++◌, length, IfOk, OnOk};
ghost use Rattle.xdr_codec.specs.Writing.{padded};
ghost use Rattle.nfs_model.specs.Arguments.{arguments};
ghost use Rattle.nfs_model.specs.declared.arguments.Args.TheVariants.{SetAttr, Access, Write, Create, MkDir, SymLink, MkNod, Rename, Link, ReadDir, ReadDirPlus};
ghost use Rattle.nfs3_args.specs.Writable.{IsShort, IsWritable};
ghost use Rattle.nfs3_args.specs.Room.{room};

use crate::attribute_writing::{put_how, put_node, put_set_what};
use crate::part_writing::{put_optional_moment, put_page, put_place, put_range, put_string};
use crate::room::room_for;
use ivy_base::{Bytes, Memory, Moment};
use nfs_model::{Args, How, SetWhat, SpecialNode};
use std::alloc::Global;
use xdr_codec::XdrWrite;

/// The bytes of arguments (RFC 1813, sections 3.3 and 5.2). They are read back as these arguments where they are
/// within the bounds of [`crate::read_args`].
///
/// The error is: out of memory, which is taken once; it also comes where a handle, a name, a text, a path or data has
/// 2^32 bytes or more, which no word counts.
pub fn write_args(alloc: Global, args: &Args) -> Result<Bytes, Memory>
    ensures written { IfOk result (λ bytes. bytes ≡ arguments args.now) }
    ensures counted { OnOk result (IsWritable args.now) }
{
    let Some(room) = room_for(args) else {
        return Err(Memory);
    };
    let mut out = XdrWrite::new(alloc);
    out.reserve(room)?;
    put_args(&mut out, args);
    Ok(out.into_bytes())
}

/// Appends the bytes of arguments for which there is room.
fn put_args(out: &mut XdrWrite, args: &Args)
    requires writable { IsWritable args.now }
    requires room { room args.now ≤ out.old.spare }
    ensures { out.new.written ≡ out.old.written ++ arguments args.now }
{
    match args {
        Args::Null => {}
        Args::GetAttr { object } => put_string(out, object),
        Args::SetAttr {
            object,
            what,
            guard,
        } => put_setattr(out, object, what, *guard),
        Args::Lookup { dir, name } => put_place(out, dir, name),
        Args::Access { object, bits } => put_access(out, object, *bits),
        Args::ReadLink { link } => put_string(out, link),
        Args::Read {
            file,
            offset,
            count,
        } => put_range(out, file, *offset, *count),
        Args::Write {
            file,
            offset,
            count,
            stable,
            bytes,
        } => put_write(out, file, *offset, *count, *stable, bytes),
        Args::Create { dir, name, how } => put_create(out, dir, name, how),
        Args::MkDir { dir, name, what } => put_mkdir(out, dir, name, what),
        Args::SymLink {
            dir,
            name,
            what,
            text,
        } => put_symlink(out, dir, name, what, text),
        Args::MkNod { dir, name, node } => put_mknod(out, dir, name, node),
        Args::Remove { dir, name } => put_place(out, dir, name),
        Args::RmDir { dir, name } => put_place(out, dir, name),
        Args::Rename {
            dir,
            name,
            to_dir,
            to_name,
        } => put_rename(out, dir, name, to_dir, to_name),
        Args::Link { file, dir, name } => put_link(out, file, dir, name),
        Args::ReadDir {
            dir,
            cookie,
            verifier,
            count,
        } => put_readdir(out, dir, *cookie, verifier, *count),
        Args::ReadDirPlus {
            dir,
            cookie,
            verifier,
            dircount,
            maxcount,
        } => put_readdirplus(out, dir, *cookie, verifier, *dircount, *maxcount),
        Args::FsStat { object } => put_string(out, object),
        Args::FsInfo { object } => put_string(out, object),
        Args::PathConf { object } => put_string(out, object),
        Args::Commit {
            file,
            offset,
            count,
        } => put_range(out, file, *offset, *count),
        Args::MountNull => {}
        Args::Mnt { path } => put_string(out, path),
        Args::Dump => {}
        Args::Umnt { path } => put_string(out, path),
        Args::UmntAll => {}
        Args::Export => {}
    }
}

/// Appends the arguments of SETATTR (section 3.3.2).
fn put_setattr(out: &mut XdrWrite, object: &Bytes, what: &SetWhat, guard: Option<Moment>)
    requires short { IsShort object.now }
    requires room { 80 + padded (length object.now) ≤ out.old.spare }
    ensures { out.new.written ≡ out.old.written ++ arguments (SetAttr object.now what.now guard) }
{
    put_string(out, object);
    put_set_what(out, what);
    put_optional_moment(out, guard);
}

/// Appends the arguments of ACCESS (section 3.3.4).
fn put_access(out: &mut XdrWrite, object: &Bytes, bits: u32)
    requires short { IsShort object.now }
    requires room { 80 + padded (length object.now) ≤ out.old.spare }
    ensures { out.new.written ≡ out.old.written ++ arguments (Access object.now bits) }
{
    put_string(out, object);
    out.put_u32(bits);
}

/// Appends the arguments of WRITE (section 3.3.7).
fn put_write(out: &mut XdrWrite, file: &Bytes, offset: u64, count: u32, stable: u32, bytes: &Bytes)
    requires short_file { IsShort file.now }
    requires short_bytes { IsShort bytes.now }
    requires room { 80 + padded (length file.now) + padded (length bytes.now) ≤ out.old.spare }
    ensures { out.new.written ≡ out.old.written ++ arguments (Write file.now offset count stable bytes.now) }
{
    put_range(out, file, offset, count);
    out.put_u32(stable);
    put_string(out, bytes);
}

/// Appends the arguments of CREATE (section 3.3.8).
fn put_create(out: &mut XdrWrite, dir: &Bytes, name: &Bytes, how: &How)
    requires short_dir { IsShort dir.now }
    requires short_name { IsShort name.now }
    requires room { 80 + padded (length dir.now) + padded (length name.now) ≤ out.old.spare }
    ensures { out.new.written ≡ out.old.written ++ arguments (Create dir.now name.now how.now) }
{
    put_place(out, dir, name);
    put_how(out, how);
}

/// Appends the arguments of MKDIR (section 3.3.9).
fn put_mkdir(out: &mut XdrWrite, dir: &Bytes, name: &Bytes, what: &SetWhat)
    requires short_dir { IsShort dir.now }
    requires short_name { IsShort name.now }
    requires room { 80 + padded (length dir.now) + padded (length name.now) ≤ out.old.spare }
    ensures { out.new.written ≡ out.old.written ++ arguments (MkDir dir.now name.now what.now) }
{
    put_place(out, dir, name);
    put_set_what(out, what);
}

/// Appends the arguments of SYMLINK (section 3.3.10).
fn put_symlink(out: &mut XdrWrite, dir: &Bytes, name: &Bytes, what: &SetWhat, text: &Bytes)
    requires short_dir { IsShort dir.now }
    requires short_name { IsShort name.now }
    requires short_text { IsShort text.now }
    requires room { 80 + padded (length dir.now) + padded (length name.now) + padded (length text.now) ≤ out.old.spare }
    ensures { out.new.written ≡ out.old.written ++ arguments (SymLink dir.now name.now what.now text.now) }
{
    put_place(out, dir, name);
    put_set_what(out, what);
    put_string(out, text);
}

/// Appends the arguments of MKNOD (section 3.3.11).
fn put_mknod(out: &mut XdrWrite, dir: &Bytes, name: &Bytes, node: &SpecialNode)
    requires short_dir { IsShort dir.now }
    requires short_name { IsShort name.now }
    requires room { 80 + padded (length dir.now) + padded (length name.now) ≤ out.old.spare }
    ensures { out.new.written ≡ out.old.written ++ arguments (MkNod dir.now name.now node.now) }
{
    put_place(out, dir, name);
    put_node(out, node);
}

/// Appends the arguments of RENAME (section 3.3.14).
fn put_rename(out: &mut XdrWrite, dir: &Bytes, name: &Bytes, to_dir: &Bytes, to_name: &Bytes)
    requires short_dir { IsShort dir.now }
    requires short_name { IsShort name.now }
    requires short_to_dir { IsShort to_dir.now }
    requires short_to_name { IsShort to_name.now }
    requires room { 80 + padded (length dir.now) + padded (length name.now) + padded (length to_dir.now) + padded (length to_name.now) ≤ out.old.spare }
    ensures { out.new.written ≡ out.old.written ++ arguments (Rename dir.now name.now to_dir.now to_name.now) }
{
    put_place(out, dir, name);
    put_place(out, to_dir, to_name);
}

/// Appends the arguments of LINK (section 3.3.15).
fn put_link(out: &mut XdrWrite, file: &Bytes, dir: &Bytes, name: &Bytes)
    requires short_file { IsShort file.now }
    requires short_dir { IsShort dir.now }
    requires short_name { IsShort name.now }
    requires room { 80 + padded (length file.now) + padded (length dir.now) + padded (length name.now) ≤ out.old.spare }
    ensures { out.new.written ≡ out.old.written ++ arguments (Link file.now dir.now name.now) }
{
    put_string(out, file);
    put_place(out, dir, name);
}

/// Appends the arguments of READDIR (section 3.3.16).
fn put_readdir(out: &mut XdrWrite, dir: &Bytes, cookie: u64, verifier: &[u8; 8], count: u32)
    requires short { IsShort dir.now }
    requires room { 80 + padded (length dir.now) ≤ out.old.spare }
    ensures { out.new.written ≡ out.old.written ++ arguments (ReadDir dir.now cookie verifier.now count) }
{
    put_page(out, dir, cookie, verifier);
    out.put_u32(count);
}

/// Appends the arguments of READDIRPLUS (section 3.3.17).
fn put_readdirplus(
    out: &mut XdrWrite,
    dir: &Bytes,
    cookie: u64,
    verifier: &[u8; 8],
    dircount: u32,
    maxcount: u32,
)
    requires short { IsShort dir.now }
    requires room { 80 + padded (length dir.now) ≤ out.old.spare }
    ensures { out.new.written ≡ out.old.written ++ arguments (ReadDirPlus dir.now cookie verifier.now dircount maxcount) }
{
    put_page(out, dir, cookie, verifier);
    out.put_u32(dircount);
    out.put_u32(maxcount);
}
