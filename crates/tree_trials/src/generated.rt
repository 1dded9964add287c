//! Operations that a generator chooses.

ghost use Rattle.std.specs.Prelude.{◌<◌};

use crate::lines::Line;
use crate::text::Text;
use crate::trees::{Effect, Trees};
use ivy_base::Moment;

/// The names that are chosen.
pub const NAMES: [&str; 4] = ["b", "ab", "a", "ba"];

/// What a new inode is: directories are 0 to 2, a symbolic link is 7, and 8 is never made.
fn kind_of(number: u8) -> &'static str {
    match number {
        0..=2 => " dir",
        7 => " lnk b",
        _ => " reg",
    }
}

/// A linear congruential generator, whose highest byte is used.
#[derive(Drop)]
struct Choices {
    state: u32,
}

impl Choices {
    fn below(&mut self, limit: u8) -> u8
        requires { 0 < limit }
        ensures { result < limit }
    {
        self.state = self
            .state
            .wrapping_mul(1_664_525)
            .wrapping_add(1_013_904_223);
        let [highest, ..] = self.state.to_be_bytes();
        highest % limit
    }

    /// A directory, or a file in place of one, and a name.
    fn place(&mut self, line: &mut Text, words: &str) {
        line.count(words, u64::from(self.below(4)));
        line.add(" ");
        line.add(NAMES[usize::from(self.below(4))]);
    }

    /// A change of some attribute, or of the size.
    fn change(&mut self) -> &'static str {
        match self.below(6) {
            0 => " mode=600",
            1 => " uid=11 gid=21",
            2 => " size=7",
            3 => " size=25 mtime=60:7",
            4 => " atime=50:7",
            _ => " mode=640 size=0 atime=51:7 mtime=61:7",
        }
    }

    /// Up to eight bytes that are written.
    fn writing(&mut self, line: &mut Text) {
        line.count(" ", u64::from(self.below(20)));
        line.add(" ");
        let count = usize::from(self.below(9));
        line.add(&"abcdefgh"[..count]);
    }

    /// An operation on the contents of an inode or of none.
    fn contents(&mut self, line: &mut Text, number: u8, choice: u8) {
        match choice {
            0..=2 => {
                line.count("inode ", u64::from(number % 8));
                line.add(kind_of(number % 8));
            }
            12 | 13 => {
                line.count("write ", u64::from(number));
                self.writing(line);
            }
            14 => {
                line.count("setattr ", u64::from(number));
                line.add(self.change());
            }
            16 => line.add("cancel 1"),
            _ => line.add("end"),
        }
    }

    /// The next operation.
    fn operation(&mut self, line: &mut Text) {
        let number = self.below(9);
        let choice = self.below(18);
        match choice {
            3..=6 => {
                self.place(line, "link ");
                line.count(" ", u64::from(number));
            }
            7 | 8 => self.place(line, "unlink "),
            9..=11 => {
                self.place(line, "rename ");
                self.place(line, " ");
            }
            15 => self.place(line, "prepare "),
            _ => self.contents(line, number, choice),
        }
    }
}

/// Does the next operation.
fn step(line: &mut Line<'_>, trees: &mut Trees, choices: &mut Choices, moment: Moment) -> Effect {
    let mut text = Text::new(line.alloc);
    choices.operation(&mut text);
    let mut chosen = Line::of(line.alloc, text.as_str());
    let effect = trees.operate(&mut chosen, moment);
    if !text.is_whole || !chosen.is_good() {
        line.fail();
    }
    effect
}

/// Does so many operations, each at a second of its own, and tells whether the trees agree after each one.
fn run_on(line: &mut Line<'_>, trees: &mut Trees) {
    let mut choices = Choices {
        state: line.small_number(),
    };
    let mut effects = 0u64;
    for sec in 1..=line.small_number() {
        let effect = step(line, trees, &mut choices, Moment { sec, nsec: 7 });
        if !effect.agree {
            return line.answer.add("they differ");
        }
        effects = effects.saturating_add(u64::from(effect.has_changed));
    }
    line.answer.count("agree, ", effects);
    line.answer.add(" had an effect");
}

/// The same on new trees.
pub fn run(line: &mut Line<'_>) {
    match Trees::empty(line.alloc) {
        Ok(mut trees) => run_on(line, &mut trees),
        Err(_) => line.fail(),
    }
}
