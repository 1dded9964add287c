//! Trials of whole rings.

ghost use Rattle.std.specs.Prelude.{◌≤◌};

use crate::line::Line;
use crate::lookups::put_lookups;
use crate::ring::{Ring, ascending};
use crate::round::{is_settled, join, round};
use dht_ids::Peers;

/// Writes what look-ups of so many keys come to in a ring whose nodes 1 to `stopped` stop, fewer than R.
fn lookups(line: &mut Line<'_>, members: &Peers, replicas: u32, keys: u32, stopped: u32)
    requires { (1 ≤ replicas) × (replicas ≤ 8) }
{
    line.note(stopped < replicas);
    let ring = Ring::settled(line, members, replicas, stopped);
    put_lookups(line, &ring, replicas, keys);
}

/// Writes how a ring stands after a round with that many passes, 2R + 1 where they are 0.
fn after_round(line: &mut Line<'_>, ring: &mut Ring, replicas: u32, passes: u32)
    requires { (1 ≤ replicas) × (replicas ≤ 8) }
{
    let passes = if passes == 0 {
        2 * replicas + 1
    } else {
        passes
    };
    round(line, ring, passes);
    let settled = is_settled(line, ring, replicas);
    line.put(if settled {
        ": settled"
    } else {
        ": not settled"
    });
}

/// Writes what the trial of that name comes to in a settled ring of these members, of which one must live; who joins is
/// none of them.
fn put_trial(line: &mut Line<'_>, what: &str, members: &Peers, replicas: u32)
    requires { (1 ≤ replicas) × (replicas ≤ 8) }
{
    let number: u32 = line.read();
    match what {
        "lookups" => lookups(line, members, replicas, number, 0),
        "stopped" => {
            let stopped: u32 = line.read();
            lookups(line, members, replicas, number, stopped);
        }
        "round" => {
            let mut ring = Ring::settled(line, members, replicas, number);
            after_round(line, &mut ring, replicas, 0);
        }
        "join" => {
            let passes: u32 = line.read();
            let mut ring = Ring::settled(line, members, replicas, 0);
            line.note(!ring.nodes.contains_key(&number));
            join(line, &mut ring, number, replicas);
            after_round(line, &mut ring, replicas, passes);
        }
        _ => line.fail(),
    }
}

/// Writes the answer to a line of that text, which such a word begins.
pub fn answer(line: &mut Line<'_>, text: &str, what: &str) {
    let size: u32 = line.read();
    let replicas: u32 = line.read();
    if replicas == 0 || replicas > 8 {
        return line.fail();
    }
    let members = ascending(line.numbered(size));
    line.put(text);
    put_trial(line, what, &members, replicas);
}
