//! The names of sets.

use lms_core::{Height, Set, Width};

/// The set of that name, such as `w4h10`.
pub fn set_of(word: &str) -> Option<Set> {
    let (w, h) = match word {
        "w4h5" => (Width::W4, Height::H5),
        "w8h5" => (Width::W8, Height::H5),
        "w4h10" => (Width::W4, Height::H10),
        "w8h10" => (Width::W8, Height::H10),
        _ => return None,
    };
    Some(Set { w, h })
}
