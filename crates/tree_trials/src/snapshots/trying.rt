//! Loads of one snapshot with something wrong, and how often they came to what.

use crate::lines::Line;
use crate::snapshots::forging::forged;
use crate::snapshots::loading::{End, Wrong, load};
use crate::text::Text;
use ivy_base::Key;
use snapshot_store::{Block, Made};
use view_blocks::View;

/// What is done to each block in turn: it is left out, or each of three bytes is changed, in the block alone or with the names of
/// all blocks.
#[derive(Clone, Copy)]
pub enum Change {
    Lack,
    Spoil,
    Forge,
}

/// A snapshot, and how often loads came to what; of bases also how many gave the root by whose name they were loaded.
#[derive(Clone, Copy)]
pub struct Loads<'a> {
    view: &'a View,
    made: &'a Made,
    missing: u64,
    damaged: u64,
    malformed: u64,
    bases: u64,
    same: u64,
}

/// The first, the middle and the last byte of a block.
fn places(block: &Block) -> [usize; 3] {
    let length = block.as_slice().len();
    [0, length / 2, length.saturating_sub(1)]
}

impl<'a> Loads<'a> {
    /// Of that snapshot, none yet.
    pub fn of(view: &'a View, made: &'a Made) -> Loads<'a> {
        Loads {
            view,
            made,
            missing: 0,
            damaged: 0,
            malformed: 0,
            bases: 0,
            same: 0,
        }
    }

    /// Loads these blocks by the name of that root, and counts what that comes to.
    fn load(&mut self, line: &mut Line<'_>, blocks: &[Block], wrong: Wrong, root: Key) {
        match load(line, self.view, blocks, wrong, root) {
            End::Missing => self.missing = self.missing.saturating_add(1),
            End::Damaged => self.damaged = self.damaged.saturating_add(1),
            End::Malformed => self.malformed = self.malformed.saturating_add(1),
            End::Basis(again) => {
                self.bases = self.bases.saturating_add(1);
                self.same = self.same.saturating_add(u64::from(again == root));
            }
        }
    }

    /// Loads these blocks by the name of the last one.
    fn load_last(&mut self, line: &mut Line<'_>, blocks: &[Block]) {
        match blocks.last() {
            Some(root) => self.load(line, blocks, Wrong::Nothing, root.name()),
            None => line.fail(),
        }
    }

    /// Loads with one byte of the block at that place changed.
    fn change(&mut self, line: &mut Line<'_>, change: Change, place: usize, at: usize) {
        let made = self.made;
        let blocks = made.blocks.as_slice();
        match change {
            Change::Lack => self.load(line, blocks, Wrong::Lacks(place), made.root),
            Change::Spoil => self.load(line, blocks, Wrong::Corrupted(place, at), made.root),
            Change::Forge => {
                let forged = forged(line, blocks, place, at);
                self.load_last(line, forged.as_slice());
            }
        }
    }

    /// Loads with that done to each block in turn.
    pub fn change_each(&mut self, line: &mut Line<'_>, change: Change) {
        let made = self.made;
        for (place, block) in made.blocks.iter().enumerate() {
            for at in &places(block) {
                self.change(line, change, place, *at);
                if matches!(change, Change::Lack) {
                    break;
                }
            }
        }
    }

    /// Tells how often loads came to what.
    pub fn tell(&self, text: &mut Text) {
        text.count(": ", self.missing);
        text.count(" missing, ", self.damaged);
        text.count(" damaged, ", self.malformed);
        text.count(" malformed, ", self.bases);
        text.count(" bases, ", self.same);
        text.add(" the same");
    }
}
