//! Arguments and results of procedures.

ghost use Rattle.nfs3_replies.specs.Reading.{IsProcedure};
ghost use Rattle.std.specs.Prelude.{IsTrue};

use crate::held::Held;
use crate::line::Line;
use crate::text::Text;
use ivy_base::Bytes;
use nfs3_args::{Args, ArgsFault, MOUNT_PROGRAM, NFS_PROGRAM, read_args, write_args};
use nfs3_replies::{Fattr, Listed, Reply, read_reply, write_reply};

/// Tells bytes that can't be read. They have no values.
fn put_fault(out: &mut Text, fault: ArgsFault, has_fields: bool) {
    if has_fields {
        out.lack();
    }
    out.add(match fault {
        ArgsFault::Garbage => "garbage",
        ArgsFault::Memory => "out of memory",
    });
}

/// Tells the bytes as the arguments of a procedure, or with `has_fields` the values of those with numbers, ways and
/// attributes.
pub fn args(line: &mut Line<'_>, bytes: &[u8], has_fields: bool) {
    let program = line.number();
    let procedure = line.number();
    let out = &mut line.text;
    match read_args(out.alloc, program, procedure, bytes) {
        Ok(args) => put_read_args(out, &Held { value: args }.value, bytes, has_fields),
        Err(fault) => put_fault(out, fault, has_fields),
    }
}

/// Tells the arguments that were read of the bytes.
fn put_read_args(out: &mut Text, args: &Args, bytes: &[u8], has_fields: bool) {
    if has_fields {
        put_args(out, args);
    } else {
        out.add("ok");
        out.compare(write_args(out.alloc, args), bytes);
    }
}

/// Adds handles, names and the like, with blanks between.
fn put_words(out: &mut Text, first: &Bytes, second: &Bytes) {
    out.word(first.as_slice());
    out.next_word(second.as_slice());
}

/// Adds the values of arguments.
fn put_args(out: &mut Text, args: &Args) {
    match args {
        Args::SetAttr {
            object,
            what,
            guard,
        } => {
            out.word(object.as_slice());
            out.debug(" ", what);
            out.debug(" ", guard);
        }
        Args::Write {
            file,
            offset,
            count,
            stable,
            bytes,
        } => put_write(out, file, *offset, *count, *stable, bytes),
        Args::Create { dir, name, how } => {
            put_words(out, dir, name);
            out.debug(" ", how);
        }
        Args::MkNod { dir, name, node } => {
            put_words(out, dir, name);
            out.debug(" ", node);
        }
        Args::Rename {
            dir,
            name,
            to_dir,
            to_name,
        } => {
            put_words(out, dir, name);
            out.add(" ");
            put_words(out, to_dir, to_name);
        }
        Args::ReadDirPlus {
            dir,
            cookie,
            verifier,
            dircount,
            maxcount,
        } => put_list(out, dir, *cookie, verifier, *dircount, *maxcount),
        Args::Mnt { path } => out.word(path.as_slice()),
        _ => out.lack(),
    }
}

fn put_write(out: &mut Text, file: &Bytes, offset: u64, count: u32, stable: u32, bytes: &Bytes) {
    out.word(file.as_slice());
    out.next_number(offset);
    out.next_number(u64::from(count));
    out.next_number(u64::from(stable));
    out.next_word(bytes.as_slice());
}

fn put_list(
    out: &mut Text,
    dir: &Bytes,
    cookie: u64,
    verifier: &[u8; 8],
    dircount: u32,
    maxcount: u32,
) {
    out.word(dir.as_slice());
    out.next_number(cookie);
    out.next_word(verifier);
    out.next_number(u64::from(dircount));
    out.next_number(u64::from(maxcount));
}

/// Whether there is such a procedure.
fn is_procedure(program: u32, procedure: u32) -> bool
    ensures { IsTrue result → IsProcedure program procedure }
{
    program == NFS_PROGRAM && procedure < 22 || program == MOUNT_PROGRAM && procedure < 6
}

/// Tells the bytes as the result of a procedure, or with `has_fields` the values of those with handles, bytes and pages,
/// and of refusals.
pub fn reply(line: &mut Line<'_>, bytes: &[u8], has_fields: bool) {
    let program = line.number();
    let procedure = line.number();
    let out = &mut line.text;
    if !is_procedure(program, procedure) {
        return out.lack();
    }
    match read_reply(out.alloc, program, procedure, bytes) {
        Ok(reply) => put_read_reply(out, &reply, bytes, has_fields),
        Err(fault) => put_fault(out, fault, has_fields),
    }
}

/// Tells the result that was read of the bytes.
fn put_read_reply(out: &mut Text, reply: &Reply, bytes: &[u8], has_fields: bool) {
    if has_fields {
        put_reply(out, reply);
    } else {
        out.add("ok");
        out.compare(write_reply(out.alloc, reply), bytes);
    }
}

/// Adds the values of a result.
fn put_reply(out: &mut Text, reply: &Reply) {
    match reply {
        Reply::Refused { status, tail } => {
            out.debug("", status);
            out.debug(" ", tail);
        }
        Reply::Attributes { object } => out.debug("", object),
        Reply::Found {
            handle,
            object,
            dir,
        } => {
            out.word(handle.as_slice());
            out.debug(" ", object);
            out.debug(" ", dir);
        }
        Reply::Bytes {
            file,
            count,
            eof,
            bytes,
        } => {
            out.debug("", file);
            out.next_number(u64::from(*count));
            out.show(" ", eof);
            out.next_word(bytes.as_slice());
        }
        Reply::Made {
            handle,
            object,
            cache,
        } => {
            out.word(handle.as_slice());
            out.debug(" ", object);
            out.debug(" ", cache);
        }
        Reply::Directory {
            dir,
            verifier,
            page,
            eof,
        } => put_page(out, dir, verifier, page.as_slice(), *eof),
        Reply::DirectoryPlus {
            dir,
            verifier,
            page,
            eof,
        } => put_page(out, dir, verifier, page.as_slice(), *eof),
        _ => out.lack(),
    }
}

/// Adds the values of a page, its entries each after a blank.
fn put_page(
    out: &mut Text,
    dir: &Option<Fattr>,
    verifier: &[u8; 8],
    entries: &[Listed],
    eof: bool,
) {
    out.debug("", dir);
    out.next_word(verifier);
    for entry in entries {
        put_entry(out, entry);
    }
    out.show(" ", &eof);
}

fn put_entry(out: &mut Text, entry: &Listed) {
    out.next_number(entry.fileid);
    out.next_word(entry.name.as_slice());
    out.next_number(entry.cookie);
    out.debug(" ", &entry.attributes);
    match &entry.handle {
        Some(handle) => out.next_word(handle.as_slice()),
        None => out.add(" none"),
    }
}
