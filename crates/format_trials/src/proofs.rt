//! Questions about fork proofs.

use crate::line::Line;
use crate::text::Text;
use fork_proof::{Forked, ProofFault, check};

/// Tells the answer to a question about the bytes of a proof.
pub fn answer(line: &mut Line<'_>) {
    let question = line.word();
    let bytes = line.bytes();
    match question {
        "check" => put_check(&mut line.text, &bytes),
        "cuts" => put_cuts(&mut line.text, &bytes),
        _ => line.fail(),
    }
}

/// Adds which fork the bytes show, or which test fails.
fn put_check(out: &mut Text, bytes: &[u8]) {
    match check(out.alloc, bytes) {
        Ok(forked) => put_forked(out, &forked),
        Err(fault) => put_fault(out, fault),
    }
}

/// Adds the log's head key, and the numbers of the heads.
fn put_forked(out: &mut Text, forked: &Forked) {
    out.bytes("forked ", &forked.log.0);
    out.next_number(forked.low.into());
    out.next_number(forked.high.into());
}

/// Adds which test fails.
fn put_fault(out: &mut Text, fault: ProofFault) {
    match fault {
        ProofFault::Malformed => out.add("malformed"),
        ProofFault::HeadWrong(place) => out.count("head wrong ", place.into()),
        ProofFault::Unlinked(place) => out.count("unlinked ", place.into()),
        ProofFault::NoFork => out.add("no fork"),
        ProofFault::Memory => out.lack(),
    }
}

/// Adds how many lengths in turn, from 0 on, the bytes are cut to with the same answer, and that answer, and so on.
fn put_cuts(out: &mut Text, bytes: &[u8]) {
    let mut answer = Text::new(out.alloc);
    let mut count: u64 = 0;
    for len in 0..bytes.len() + 1 {
        let mut next = Text::new(out.alloc);
        put_check(&mut next, &bytes[..len]);
        if count != 0 && !next.is_as(&answer) {
            put_run(out, count, &answer);
            count = 0;
        }
        answer = next;
        count = count.saturating_add(1);
    }
    put_run(out, count, &answer);
}

/// Adds an answer, and how often it came in turn.
fn put_run(out: &mut Text, count: u64, answer: &Text) {
    out.part();
    out.number(count);
    out.add(" ");
    out.add(answer.told());
}
