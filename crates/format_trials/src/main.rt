//! Puts formats and signatures to trial: each line of the standard input asks for one answer. A line `== FAMILY` begins a family,
//! and the lines after it are of that; at first it is `formats`. Such a line is its own answer, and so is one that begins with
//! `#`. `no answer` stands for a line that asks for nothing of its family, and when out of memory.
//!
//! Bytes are hexadecimal, `-` for none; a part `HH*N` stands for those bytes N times, and `.` joins parts.
//!
//! Of `== formats`: where a line has bytes to be read they come last. What is read is written again: an answer `differs`
//! says that other bytes came of it.
//!
//! - `record OWNER BLOCK`: `ok NAME NUMBER WEIGHT`, `malformed`, `too long` or `bad number`
//! - `head KEY BLOCK`: `plain NUMBER NAME` where the plain judge takes it under the key, else `signed NUMBER NAME LENGTH`
//!   with the length of its signature, or `none`
//! - `chain VIEW HELD FLOOR EDGE OWNER NUMBER NAME BLOCK..`: a chain of the owner's records for the head of that number and
//!   name: `ok`, `bad` or `fork`. HELD, FLOOR and EDGE are vectors, and EDGE is `none` where it isn't known
//! - `view BLOCK`, `make MEMBERS FORMER`: `ok NAME MEMBERS FORMER`, `malformed`, `no member`, `too many`, `order` or
//!   `overlap`; `log KEY BLOCK`: whose log has that head key, `member`, `former` or `neither`
//! - `vector MOST BYTES`: `ok LENGTH WEIGHT REST` or `malformed`; `join A B`, `with LOG NUMBER NAME A`, `without LOG A`: a
//!   vector; `get LOG A`: `NUMBER NAME` or `none`; `dominates A B`: `yes` or `no`
//! - `call MESSAGE`: `none`, `mismatch XID`, or `call XID PROGRAM VERSION PROCEDURE CALLER ARGUMENTS`; `front XID HEAD`: the
//!   head of a reply
//! - `args PROGRAM PROCEDURE BYTES`, `reply PROGRAM PROCEDURE BYTES`: `ok` or `garbage`; with `fields` in front the values
//!   that were read
//! - `frames PIECE..`: the messages of a stream, and how it ends: `whole`, `cut` or `too long`; `pieces STREAM`: the same,
//!   where it is the same for the stream byte by byte and in any two pieces
//! - `read ITEM,.. BYTES`, `write ITEM..`: items of XDR
//! - `name BYTES`, `key OWNER`, `number NUMBER OWNER`: names and numbers; `entry NAME`: whether a directory may hold it
//! - `order MEMBERS STEP..`: the largest causally closed part of the logs that the steps write, in its order, and whether a
//!   plain slow program has the same; `random SEED MEMBERS COUNT`: how many records it has of logs that a seed makes
//! - `cuts LINE`: the answer to the line with its bytes cut at each length, where it is the same at all
//!
//! Of the stored run the first answers to records, views, calls and arguments are those of a model in another language, but
//! for 40 blocks of records that it calls too long, though they have at most 12,288 bytes; where the others are from is said
//! where they stand.
//!
//! Of `== signatures`: a line begins with `tree` or `key`, and goes on with
//!
//! - `verify PUBLIC MESSAGE SIGNATURE`: `good`, `unsupported`, `malformed` or `wrong`
//! - `flips PUBLIC MESSAGE SIGNATURE`: how often each answer comes where one bit of the signature is turned
//! - `turns PUBLIC MESSAGE SIGNATURE`: the same of the lowest bit of each byte
//! - `cuts PUBLIC MESSAGE SIGNATURE`: how often each answer comes where the signature or the key is cut, or has one byte
//!   more
//!
//! or it is one of
//!
//! - `tree sign SET ID SEED LEAF MESSAGE`: the public key and the signature of the tree, a set being `w4h10` or the like
//! - `tree below SET ID SEED UPPER LEAF MESSAGE`: the same of the tree below a leaf of an upper tree of that ID and SEED
//! - `tree joined SET ID SEED LEAF MESSAGE`: what `tree sign` answers, where the tree that is grown in two halves at once
//!   gives the same, and a copy of it too
//! - `key sign SETS ID SEED MADE MESSAGE`: the public key, how many signatures are left, and signature number MADE, or
//!   `spent`, of a key of sets such as `w4h5,w8h10`, where those before it are accepted, and a copy and what is loaded from
//!   the saved bytes sign alike
//! - `key resume SAVED MORE MESSAGE`: the same of a key that is loaded, and makes so many signatures first
//! - `key save SETS ID SEED MADE`: the saved bytes of the key
//! - `key load SAVED`: how many signatures are left to the key that was saved so, where it is saved so again, else `differs`;
//!   or `malformed`
//! - `head seal SETS ID SEED MADE NUMBER NAME`: how many signatures are left, and the block of the head, or `spent`
//! - `head read BLOCK`: the number and the name of a head that no one judged, and the length of its signature; or `none`
//! - `head judge KEY BLOCK`: the number and the name of the head that the judge takes under the key; or `none`
//! - `head turns KEY BLOCK`, `head cuts KEY BLOCK`: how many blocks are taken that have the lowest bit of one byte turned;
//!   that are cut, or have one byte more
//! - `lanes HEAD HEAD HEAD HEAD MIDDLE VALUE VALUE VALUE VALUE`: the digests of four messages that are hashed at once, each
//!   its head of 20 bytes, the three bytes in the middle and its value of 32 bytes
//!
//! A key of several levels whose public key hasn't 60 bytes is none: it isn't counted, and has `no answer`.
//!
//! The stored run has signatures of another implementation of RFC 8554, of one to three levels, good and damaged,
//! signatures put together from those, and the lower signature of the second test case of RFC 8554. Its answers are those
//! of that implementation, and, for the causes of a refusal and for what is damaged, of a reader in another language. What
//! keys sign, heads, saved bytes and digests are those of a program in another language, which makes that implementation's
//! signatures too.
//!
//! Of `== proofs`, of which each line has the bytes of a fork proof:
//!
//! - `check BYTES`: `forked KEY NUMBER NUMBER`, or the test that fails: `malformed`, `head wrong PLACE`, `unlinked PLACE`, `no fork`
//! - `cuts BYTES`: how many lengths in turn, from 0 on, the bytes are cut to with the same answer, and that answer, and so on
//!
//! The proofs are those of `run_trials`, and those of a program in another language, which signs heads and writes records. The
//! answers are those of the rules.
#![tactic(auto)]

mod answers;
mod calls;
mod chains;
mod families;
mod frames;
mod gather;
mod held;
mod items;
mod line;
mod logs;
mod names;
mod order;
mod plain;
mod proofs;
mod random;
mod records;
mod results;
mod signatures;
mod text;
mod vectors;
mod views;

use families::{Family, answer};
use line::Line;
use std::io;

fn main(rt: HostRuntime) -> io::Result<()> {
    let alloc = rt.alloc();
    let mut family = Family::Formats;
    for read in rt.lines(alloc) {
        let read = read?;
        let mut line = Line::new(alloc, read.as_str());
        answer(&rt, &mut family, &mut line);
        println!(rt; "{}", line.text.told())?;
    }
    Ok(())
}
