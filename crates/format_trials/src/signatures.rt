//! Questions about signatures, and how each is answered.

mod checks;
mod heads;
mod keys;
mod lanes;
mod sets;
mod trees;

use crate::line::Line;
use checks::{Form, check};
use std::thread::Threads;

/// Tells the answer to a question.
pub fn answer<R: Threads>(rt: &R, line: &mut Line<'_>) {
    match line.word() {
        "tree" => answer_tree(rt, line),
        "key" => answer_key(line),
        "head" => answer_head(line),
        "lanes" => lanes::hash(line),
        _ => line.fail(),
    }
}

/// Tells the answer to a question about a tree.
fn answer_tree<R: Threads>(rt: &R, line: &mut Line<'_>) {
    let question = line.word();
    match question {
        "sign" => trees::sign(line),
        "below" => trees::sign_below(line),
        "joined" => trees::sign_joined(rt, line),
        _ => check(line, Form::Tree, question),
    }
}

/// Tells the answer to a question about a key of one to three levels.
fn answer_key(line: &mut Line<'_>) {
    let question = line.word();
    match question {
        "sign" | "save" => keys::grown(line, question),
        "resume" => keys::resume(line),
        "load" => keys::load(line),
        _ => check(line, Form::Key, question),
    }
}

/// Tells the answer to a question about a head.
fn answer_head(line: &mut Line<'_>) {
    let question = line.word();
    match question {
        "seal" => keys::grown(line, question),
        "read" => heads::read(line),
        _ => heads::answer_judge(line, question),
    }
}
