//! Plays scripts, and runs sessions and fetches, as the lines of the standard input say. A line `== FAMILY` begins a family
//! again, where no script has begun, and the lines after it are of that; at first it is `scripts`. `no answer` stands for a line
//! that is none of its family's, of which a part may have been done, and when out of memory.
//!
//! Of `== scripts`: each script is played as [`ivy_play::play`] plays it over a source and a sink, and what was written is told,
//! and the status that it ended with.
//!
//! A line that begins with `----` ends a script, and says after it how the script is played:
//!
//! - nothing: over bytes in memory
//! - `open`: the same, without the script's last newline
//! - `brief`: the same, and of each line no more than 62 bytes are told, which are a reply up to its status of NFS
//! - `reads`, `writes`: again and again, where the first call fails, then the second, up to a call that isn't made
//! - `slow`: by reads and writes of one byte each
//! - `std R W`: over a reader and a writer of std, whose first R and W calls are interrupted; with a `!` after the number the
//!   call after them fails
//!
//! Lines of a script may have a form that begins with `@`:
//!
//! - `@each`: each line below is played alone, between those above and a line `end`
//! - `@bytes HEX`: the line has these bytes
//! - `@long N TEXT`: the text, filled with `x` to so many bytes
//! - `@lines N TEXT`: so many lines, one for each number from 0: `#` stands for the number, the k-th `?` for its k-th
//!   bit, from the lowest, and the k-th `!` for the other bit
//!
//! What was written is told whole up to 1,200 bytes, and as its length and SHA-1 above. A line `---- STATUS` follows it, with the
//! line that was played alone or the call that failed after it.
//!
//! The answers of the stored run are written by hand from the rules of scripts and RFC 1813, but for the replies that
//! stand there whole: these, and the lengths and SHA-1s, are those of a model of the program in another language.
//!
//! Of `== sessions`: calls of agents that nobody shares, one session after the other, and fetches of the logs of a view, over a
//! table of nodes in memory. Each line says something of the table, of those who write logs, by their numbers, which are given from 1
//! on, or of who fetches, or asks for a session or a fetch:
//!
//! - `start R N`: N nodes, numbered from 0, that own every key in this order, and hold nothing; as many answers as R are
//!   enough for a get or a put; nobody writes a log, and nobody fetches
//! - `owners N ..`: from now on every node says that these own every key, in this order
//! - `nearer N ..`: from now on every node says that these are nearer to every key, in this order
//! - `silent N ..`: these nodes alone answer nothing from now on
//! - `lost KEY ..`: a put under these keys alone is answered nothing from now on
//! - `at N KEY BYTES`: the node gives these bytes under the key, `-` for their name
//! - `log WHO SEC NSEC ID SEED SETS`: that number, the next one, opens a log at that moment, by a key such as `w4h5`
//! - `enter WHO MEMBER ..`: its agent enters the view of these members' logs
//! - `empty WHO`: its cache is emptied
//! - `call WHO SEC NSEC MESSAGE`: a session of its agent with that message, whose turn is at that moment
//! - `publish WHO`: a session that only publishes
//! - `pending WHO`: what its agent has still to publish
//! - `view LOG ..`, `view LOG .. former LOG ..`: whose logs are fetched from now on, by who knows nothing and has nothing
//!   available; a log is written as two digits, the byte that its key repeats
//! - `own LOG`: who fetches
//! - `hand BYTES`: the block is available to who fetches, and is given where it is wanted
//! - `floor KEY NUMBER NAME ..`, `held KEY NUMBER NAME ..`: the newest records that were known, and those that are held,
//!   by their logs' head keys
//! - `edge LOG KEY NUMBER NAME ..`: what the held record of that log cites
//! - `fetch`: the fetch: each ask, `given` for each block that was available, then the chains that came, with the number of the
//!   first record and the number and the name of the last, then the notes, how it ended, and how many gets it began
//!
//! A session tells each ask, with the node's number and what it answers: `route`, `get`, `put` and `head`, the put of a head,
//! with the record's number and name; `turn`; `settle`, with the keys of what was acknowledged; `cut`, where its publishing ended
//! because memory ran out; then how it ended, and what was noted. There is no answer for a view that isn't entered, for a caller
//! in no view, and for a fetch that may not begin. Empty lines and those that begin with `#` say what comes.
//!
//! The answers of the stored run are those of a model in another language, written from the rules alone.
#![tactic(auto)]

mod ends;
mod families;
mod forms;
mod runs;
mod sessions;
mod text;
mod told;
mod trial;
mod words;

use families::Trials;
use std::alloc::Global;
use std::io;
use std::io::Write;
use std::sync::Wait;
use text::Text;

/// Writes the answer to a line.
fn write_answer<R: Wait, W: Write>(
    rt: &R,
    out: &mut W,
    trials: &mut Trials,
    alloc: Global,
    line: &str,
) -> io::Result<()> {
    let mut answer = Text::new(alloc);
    trials.take(rt, &mut answer, line);
    out.write_all(answer.whole().unwrap_or(b"no answer\n".as_slice()))
}

fn main(rt: HostRuntime) -> io::Result<()> {
    let alloc = rt.alloc();
    let mut out = io::writer(&rt);
    let mut trials = Trials::new(alloc);
    for line in rt.lines(alloc) {
        let line = line?;
        write_answer(&rt, &mut out, &mut trials, alloc, line.as_str())?;
    }
    Ok(())
}
