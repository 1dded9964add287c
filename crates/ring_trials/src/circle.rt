//! Questions about places on the circle.

use crate::line::Line;
use dht_ids::{between, distance, finger_start, inside, node_id, order, same};
use ivy_base::Key;
use std::cmp::Ordering;

/// Writes the answer to a question about two places, or about three of which the last is still to be read.
fn put_of(line: &mut Line<'_>, what: &str, a: &Key, b: &Key) {
    match what {
        "distance" => line.put_key("", &distance(a, b)),
        "order" => line.put(match (order(a, b), same(a, b)) {
            (Ordering::Less, false) => "less",
            (Ordering::Equal, true) => "same",
            (Ordering::Greater, false) => "greater",
            _ => "both the same and not",
        }),
        "arc" => {
            let end: Key = line.read();
            line.put(match (between(a, b, &end), inside(a, b, &end)) {
                (true, true) => "inside",
                (true, false) => "its end",
                (false, false) => "outside",
                (false, true) => "inside, but not between",
            });
        }
        _ => line.fail(),
    }
}

/// Writes the answer to a question.
pub fn answer(line: &mut Line<'_>) {
    match line.word() {
        "id" => {
            let number: u32 = line.read();
            line.put_key("", &node_id(number));
        }
        "finger" => {
            let node: Key = line.read();
            let k: u32 = line.read();
            if k == 0 || k > 160 {
                return line.fail();
            }
            line.put_key("", &finger_start(&node, k));
        }
        what => {
            let a: Key = line.read();
            let b: Key = line.read();
            put_of(line, what, &a, &b);
        }
    }
}
