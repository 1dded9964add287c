//! The words of the command line.

ghost use Rattle.std.specs.Prelude.{◌≡◌, ◌^◌, ◌*◌, ◌&&◌, [], ◌∷◌, nat_le, map, string_bytes, IfOk, OnErr};
ghost use Rattle.std.specs.Char.{is_ascii_digit};
ghost use Rattle.std.specs.List.{list_all};
ghost use Rattle.script_model.specs.Words.{is_decimal, number_below};
ghost use Rattle.ivy_cli.specs.Words.{AskService, Fits, asked_of, crowd_of, fork_of, load_of, participant_of, play_of, port_of, serve_of};

use command_lines::read_command;
use ivy_base::{Bytes, Memory};
use script_model::{Command, SetWords};
use std::alloc::Global;

/// The most calls of a generated load.
const MOST_CALLS: u32 = 10_000;

/// The most threads of a crowd.
const MOST_THREADS: u32 = 16;

/// The most calls of a crowd, of all its threads together.
const MOST_CROWD_CALLS: u64 = 1_000;

/// Who is served: what a script's line `log NAME ID SEED SETS` says of a participant.
pub struct Participant {
    /// The name of the keeper of the participant's agent: 1 to 16 lower-case letters and digits.
    pub name: Bytes,
    /// The identifier of the log's key.
    pub id: [u8; 16],
    /// What the key grows from.
    pub seed: [u8; 32],
    /// The sets of the key's levels, the top level first: one to three.
    pub sets: SetWords,
}

// Written out, so that whatever drops one calls this and isn't proved over all of its parts once more.
impl Drop for Participant {
    fn drop(self) {
        let Participant {
            name: _,
            id: _,
            seed: _,
            sets: _,
        } = self;
    }
}

/// What the words ask for.
#[derive(Drop)]
pub enum Asked {
    /// `play`: the script of the source is played.
    Play,
    /// `load SEED CALLS`: a generated script is played and summed up.
    Load {
        /// What its calls are drawn from.
        seed: u64,
        /// How many it has, 10,000 at most.
        calls: u32,
    },
    /// `crowd T CALLS`: threads of one participant create files over a live ring, and what they came to is told.
    Crowd {
        /// How many threads there are, 1 to 16.
        threads: u32,
        /// How many files each of them creates; 1,000 in all at most.
        calls: u32,
    },
    /// `serve PORT NAME ID SEED SETS`: a participant is served on a port.
    Serve {
        /// The port, 1 to 65,535.
        port: u16,
        /// Who is served.
        participant: Participant,
    },
    /// `fork`: the source has a fork proof in hexadecimal digits, and what it shows is told.
    Fork,
}

/// What the words after the program's name ask for, if they are of one of the forms. They are matched by their positions;
/// there are no options. The error is: out of memory, which comes of the word `serve` alone.
pub fn read_words(alloc: Global, words: &[String]) -> Result<Option<Asked>, Memory>
    ensures is { IfOk result (λ asked. asked ≡ asked_of (map (λ word. string_bytes word) words.now)) }
    ensures fits { IfOk result Fits }
    ensures lacks { OnErr result (AskService (map (λ word. string_bytes word) words.now)) }
{
    let [word, rest @ ..] = words else {
        return Ok(None);
    };
    if word.as_str() == "play" {
        Ok(play(rest))
    } else if word.as_str() == "load" {
        Ok(load(rest))
    } else if word.as_str() == "crowd" {
        Ok(crowd(rest))
    } else if word.as_str() == "serve" {
        serve(alloc, rest)
    } else if word.as_str() == "fork" {
        Ok(fork(rest))
    } else {
        Ok(None)
    }
}

/// The play of no further words.
fn play(words: &[String]) -> Option<Asked>
    ensures { result ≡ play_of (map (λ word. string_bytes word) words.now) }
{
    match words {
        [] => Some(Asked::Play),
        _ => None,
    }
}

/// The load of these words.
fn load(words: &[String]) -> Option<Asked>
    ensures { result ≡ load_of (map (λ word. string_bytes word) words.now) }
{
    let [seed, calls] = words else {
        return None;
    };
    let seed = seed_of(seed.as_str())?;
    let calls = calls_of(calls.as_str())?;
    Some(Asked::Load { seed, calls })
}

/// The crowd of these words.
fn crowd(words: &[String]) -> Option<Asked>
    ensures { result ≡ crowd_of (map (λ word. string_bytes word) words.now) }
{
    let [threads, calls] = words else {
        return None;
    };
    let threads = number_u32(threads.as_str())?;
    let calls = number_u32(calls.as_str())?;
    if !is_crowd_size(threads, calls) {
        return None;
    }
    Some(Asked::Crowd { threads, calls })
}

/// Whether so many threads may make so many calls each.
fn is_crowd_size(threads: u32, calls: u32) -> bool
    ensures { result ≡ (nat_le 1 threads && nat_le threads 16 && nat_le (threads * calls) 1000) }
{
    1 <= threads
        && threads <= MOST_THREADS
        && u64::from(threads) * u64::from(calls) <= MOST_CROWD_CALLS
}

/// The service of these words. The error is: out of memory.
fn serve(alloc: Global, words: &[String]) -> Result<Option<Asked>, Memory>
    ensures is { IfOk result (λ asked. asked ≡ serve_of (map (λ word. string_bytes word) words.now)) }
    ensures fits { IfOk result Fits }
{
    match words {
        [port, name, id, seed, sets] => service(
            alloc,
            port.as_str(),
            name.as_str(),
            id.as_str(),
            seed.as_str(),
            sets.as_str(),
        ),
        _ => Ok(None),
    }
}

/// The service of these five words. The error is: out of memory.
fn service(
    alloc: Global,
    port: &str,
    name: &str,
    id: &str,
    seed: &str,
    sets: &str,
) -> Result<Option<Asked>, Memory>
    ensures is { IfOk result (λ asked. asked ≡ serve_of (port.now ∷ name.now ∷ id.now ∷ seed.now ∷ sets.now ∷ [])) }
    ensures fits { IfOk result Fits }
{
    let Some(port) = port_of(port) else {
        return Ok(None);
    };
    let line = format!(in alloc; "log {name} {id} {seed} {sets}")?;
    let Some(command) = read_command(alloc, line.as_bytes())? else {
        return Ok(None);
    };
    match participant_of(alloc, &command)? {
        Some(participant) => Ok(Some(Asked::Serve { port, participant })),
        None => Ok(None),
    }
}

/// The check of a fork proof, of no further words.
fn fork(words: &[String]) -> Option<Asked>
    ensures { result ≡ fork_of (map (λ word. string_bytes word) words.now) }
{
    match words {
        [] => Some(Asked::Fork),
        _ => None,
    }
}

/// The participant whose log a command begins, if it does. The error is: out of memory.
fn participant_of(alloc: Global, command: &Command) -> Result<Option<Participant>, Memory>
    ensures { IfOk result (λ participant. participant ≡ participant_of command.now) }
{
    match command {
        Command::Log {
            log,
            id,
            seed,
            sets,
        } => Ok(Some(Participant {
            name: log.copy(alloc)?,
            id: *id,
            seed: *seed,
            sets: SetWords::of(sets.as_slice().to_vec(alloc)?),
        })),
        _ => Ok(None),
    }
}

/// The port that a word is, if it is one.
fn port_of(word: &str) -> Option<u16>
    ensures { result ≡ port_of word.now }
{
    let port = number_u16(word)?;
    if port == 0 {
        return None;
    }
    Some(port)
}

/// The seed that a word is, if it is one.
fn seed_of(word: &str) -> Option<u64>
    ensures { result ≡ number_below (2 ^ 64) word.now }
{
    if !is_decimal(word) {
        return None;
    }
    word.parse().ok()
}

/// The number of calls that a word is, if it is one.
fn calls_of(word: &str) -> Option<u32>
    ensures { result ≡ number_below 10001 word.now }
{
    let calls = number_u32(word)?;
    if calls > MOST_CALLS {
        return None;
    }
    Some(calls)
}

/// The number below 2^32 that a word is, if it is one.
fn number_u32(word: &str) -> Option<u32>
    ensures { result ≡ number_below (2 ^ 32) word.now }
{
    if !is_decimal(word) {
        return None;
    }
    word.parse().ok()
}

/// The number below 2^16 that a word is, if it is one.
fn number_u16(word: &str) -> Option<u16>
    ensures { result ≡ number_below (2 ^ 16) word.now }
{
    if !is_decimal(word) {
        return None;
    }
    word.parse().ok()
}

/// Whether a word is a number's decimal digits, without a sign or a leading zero.
fn is_decimal(word: &str) -> bool
    ensures { result ≡ is_decimal word.now }
{
    are_decimal(word.as_bytes())
}

/// Whether these bytes are a number's decimal digits.
fn are_decimal(bytes: &[u8]) -> bool
    ensures { result ≡ is_decimal bytes.now }
{
    match bytes {
        [] | [b'0', _, ..] => false,
        _ => are_digits(bytes),
    }
}

/// Whether all bytes are decimal digits.
fn are_digits(bytes: &[u8]) -> bool
    ensures { result ≡ list_all is_ascii_digit bytes.now }
{
    bytes.iter().all(|byte| byte.is_ascii_digit())
}
