//! The trials that lines ask for, family by family.

use crate::text::Text;
use crate::{sessions, trial};
use std::alloc::Global;
use std::sync::Wait;

/// The trials of the families, and of which of them lines speak.
#[derive(Drop)]
pub struct Trials {
    scripts: trial::Trial,
    sessions: sessions::Trial,
    are_sessions: bool,
}

impl Trials {
    /// Trials at their beginning, with lines that speak of scripts.
    pub fn new(alloc: Global) -> Trials {
        Trials {
            scripts: trial::Trial::new(alloc),
            sessions: sessions::Trial::new(alloc),
            are_sessions: false,
        }
    }

    /// Puts what is written for a line on the answer.
    pub fn take<R: Wait>(&mut self, rt: &R, answer: &mut Text, line: &str) {
        if line.starts_with("== ") && !self.scripts.has_begun() {
            self.begin(answer, line);
        } else if self.are_sessions {
            self.sessions.take(rt, answer, line);
        } else {
            self.scripts.take(answer, line);
        }
    }

    /// Begins the family that the line names.
    fn begin(&mut self, answer: &mut Text, line: &str) {
        match line {
            "== scripts" => self.are_sessions = false,
            "== sessions" => self.begin_sessions(answer.alloc),
            _ => answer.lack(),
        }
        answer.add(line);
        answer.byte(b'\n');
    }

    /// Begins the sessions.
    fn begin_sessions(&mut self, alloc: Global) {
        self.sessions = sessions::Trial::new(alloc);
        self.are_sessions = true;
    }
}
