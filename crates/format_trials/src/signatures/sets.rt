//! The parameters of trees.

use crate::line::Line;
use lms_core::{Height, Set, Width};

/// The parameters that a word names.
pub fn set_of(line: &mut Line<'_>, word: &str) -> Set {
    match word {
        "w4h5" => set(Width::W4, Height::H5),
        "w8h5" => set(Width::W8, Height::H5),
        "w4h10" => set(Width::W4, Height::H10),
        "w8h10" => set(Width::W8, Height::H10),
        _ => {
            line.fail();
            set(Width::W4, Height::H5)
        }
    }
}

fn set(w: Width, h: Height) -> Set {
    Set { w, h }
}

/// The parameters that the next word names, with commas between.
pub fn sets(line: &mut Line<'_>) -> Vec<Set> {
    let mut sets = Vec::new(line.text.alloc);
    for name in line.word().split(',') {
        let set = set_of(line, name);
        line.text.push(&mut sets, set);
    }
    sets
}
