//! A trial of scripts: a script, the way that it is played, and what is told of it.

use crate::ends::Schedule;
use crate::forms::put_line;
use crate::runs::{Plan, tell, tell_over_std, tell_slow};
use crate::text::Text;
use crate::words::Words;
use ivy_play::Status;
use std::alloc::Global;

/// The most runs of a script of which one call fails.
const MOST_RUNS: u64 = 1_000;

const STATUS_READ_FAULT: Status = 4;

const STATUS_WRITE_FAULT: Status = 5;

/// The lines of a trial so far.
#[derive(Drop)]
pub struct Trial {
    /// The script, or what stands above the lines that are played alone.
    script: Text,
    /// Whether each line from now on is played alone.
    is_each_alone: bool,
    has_begun: bool,
}

impl Trial {
    /// A trial without lines.
    pub fn new(alloc: Global) -> Trial {
        Trial {
            script: Text::new(alloc),
            is_each_alone: false,
            has_begun: false,
        }
    }

    /// Whether a line was taken.
    pub fn has_begun(&self) -> bool {
        self.has_begun
    }

    /// Takes a line, and tells what is played at it: the line itself where each is played alone, or the script, at the line
    /// below it.
    pub fn take(&mut self, told: &mut Text, line: &str) {
        if line.starts_with("----") {
            self.tell_whole(told, line);
            *self = Trial::new(told.alloc);
            return;
        }
        self.has_begun = true;
        if self.is_each_alone {
            self.tell_alone(told, line);
        } else {
            self.add(line);
        }
    }

    /// Adds a line to the script, where it isn't the one after which each is played alone.
    fn add(&mut self, line: &str) {
        match line {
            "@each" => self.is_each_alone = true,
            _ => put_line(&mut self.script, line),
        }
    }

    /// Tells the line, played alone below those above it.
    fn tell_alone(&self, told: &mut Text, line: &str) {
        let mut script = Text::new(told.alloc);
        script.text(&self.script);
        put_line(&mut script, line);
        script.add("end\n");
        match script.whole() {
            Some(script) => tell_noted(told, script, line),
            None => told.lack(),
        }
    }

    /// Tells the script, played as the line below it says, where its lines weren't played alone.
    fn tell_whole(&self, told: &mut Text, line: &str) {
        if self.is_each_alone {
            return;
        }
        match self.script.whole() {
            Some(script) => tell_as(told, script, line),
            None => told.lack(),
        }
    }
}

/// Tells the run of a script, and a note of it.
fn tell_noted(told: &mut Text, script: &[u8], note: &str) {
    tell(told, script, Plan::WHOLE);
    if !note.is_empty() {
        told.add(": ");
    }
    told.add(note);
    told.byte(b'\n');
}

/// Tells the script, played as the line below it says.
fn tell_as(told: &mut Text, script: &[u8], line: &str) {
    let mut words = Words::new(told.alloc, line);
    words.word();
    tell_by(told, script, &mut words);
    told.note(words.were_taken());
}

/// Tells the script, played as the words say.
fn tell_by(told: &mut Text, script: &[u8], words: &mut Words<'_>) {
    match words.any_word() {
        "" => tell_line(told, script, Plan::WHOLE),
        "open" => tell_line(told, opened(script), Plan::WHOLE),
        "brief" => tell_line(told, script, Plan::BRIEF),
        "slow" => tell_slow(told, script),
        "std" => tell_over_std(told, script, schedule_of(words), schedule_of(words)),
        "reads" => tell_failing(told, script, ": read ", STATUS_READ_FAULT),
        "writes" => tell_failing(told, script, ": write ", STATUS_WRITE_FAULT),
        _ => words.fail(),
    }
}

/// The script without its last newline.
fn opened(script: &[u8]) -> &[u8] {
    script.strip_suffix(b"\n".as_slice()).unwrap_or(script)
}

/// Tells the run of a script.
fn tell_line(told: &mut Text, script: &[u8], plan: Plan) {
    tell(told, script, plan);
    told.byte(b'\n');
}

/// Tells the runs in which one call fails, whose fault has that status, up to the first in which none does.
fn tell_failing(told: &mut Text, script: &[u8], name: &str, fault: Status) {
    for number in 1..=MOST_RUNS {
        let status = tell(told, script, failing_plan(fault, number));
        told.count(name, number);
        told.byte(b'\n');
        if status != fault {
            break;
        }
    }
}

/// That the call of that number fails, whose fault has that status.
fn failing_plan(fault: Status, number: u64) -> Plan {
    let mut plan = Plan::WHOLE;
    if fault == STATUS_READ_FAULT {
        plan.read = number;
    } else {
        plan.write = number;
    }
    plan
}

/// The execution that the next word names: `3!` is three interruptions and a failure.
fn schedule_of(words: &mut Words<'_>) -> Schedule {
    let word = words.word();
    let (number, fails) = match word.strip_suffix('!') {
        Some(number) => (number, true),
        None => (word, false),
    };
    Schedule {
        interruptions: words.number_of(number),
        fails,
    }
}
