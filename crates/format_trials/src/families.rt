//! The families of lines.

use crate::line::Line;
use crate::{answers, proofs, signatures};
use std::thread::Threads;

/// What lines ask about.
#[derive(Clone, Copy)]
pub enum Family {
    Formats,
    Signatures,
    Proofs,
}

/// Begins the family of that name.
fn begin(family: &mut Family, line: &mut Line<'_>, name: &str) {
    match name {
        "formats" => *family = Family::Formats,
        "signatures" => *family = Family::Signatures,
        "proofs" => *family = Family::Proofs,
        _ => line.fail(),
    }
}

/// Tells the answer to a question of the family.
fn answer_question<R: Threads>(rt: &R, family: Family, line: &mut Line<'_>) {
    match family {
        Family::Formats => answers::answer(line),
        Family::Signatures => signatures::answer(rt, line),
        Family::Proofs => proofs::answer(line),
    }
    line.end();
}

/// Tells the answer to a line of the family, or begins another family.
pub fn answer<R: Threads>(rt: &R, family: &mut Family, line: &mut Line<'_>) {
    let words = line.rest;
    if words.starts_with('#') {
        line.text.add(words);
    } else if let Some(name) = words.strip_prefix("== ") {
        line.text.add(words);
        begin(family, line, name);
    } else {
        answer_question(rt, *family, line);
    }
}
