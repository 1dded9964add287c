//! The program `ivy`. It hands its words, standard input and output, and what is outside on the host to [`ivy_cli::run`].
//!
//! Layer: the top; a thin `main`. The exit status is the status that `run` gives, and 6 where memory runs out for the words or
//! for what else `run` takes; words that aren't text are of no form. What standard input and output hold is nowhere told: the
//! clauses of `run` speak of the bytes of a source and a sink, and the stored run shows them.
//!
//! What is outside is that of `ivy_host`: the host's clock, links of a TCP port of the loopback, and files of the folder that
//! the program runs in. Nothing of it is asked for by the words `play`, `load` and `fork`; `crowd` asks for the clock alone.
//!
//! Where the first word is `serve`, a thread reads standard input to its end, or until a read fails, and then has the ports end
//! ([`Stop::set`]), and with them each link that is out. So `serve` ends at the end of standard input, also while it has as
//! many links as it serves at once. For other words no thread is started here. The thread isn't joined: where `serve` ends by
//! itself, as on a port in use, the program ends though its input goes on.
#![tactic(auto)]

use ivy_base::Memory;
use ivy_cli::run;
use ivy_host::{DirKeepers, HostClock, Stop, TcpPorts};
use ivy_io::{Source, StdSink, StdSource};
use std::alloc::Global;
use std::io::{ErrorKind, Input};
use std::net::Net;
use std::process::ExitCode;
use std::sync::{Arc, Wait};
use std::{env, thread};

/// The status of a program for which memory ran out.
const STATUS_MEMORY: u8 = 6;

/// How many bytes of standard input are read at once where nobody asks for them.
const CHUNK: usize = 4_096;

/// The words after the program's name; none where they aren't text. The error is: out of memory.
fn words(rt: &HostRuntime) -> Result<Vec<String>, Memory> {
    match env::args(rt) {
        Ok(words) => Ok(words.skip(1).collect(rt.alloc())?),
        Err(error) if error.kind() == ErrorKind::OutOfMemory => Err(Memory),
        Err(_) => Ok(Vec::new(rt.alloc())),
    }
}

/// Whether the words may ask for a service.
fn may_ask_service(words: &[String]) -> bool {
    match words {
        [word, ..] => word.as_str() == "serve",
        [] => false,
    }
}

/// Reads standard input to its end, or until a read fails, and has the server end then.
fn stop_at_end<R: Input + Net + Wait>(rt: &R, stop: &Stop) {
    let mut source = StdSource::new(rt.reader());
    let mut chunk = [0u8; CHUNK];
    for _ in 0..u64::MAX {
        match source.read(&mut chunk) {
            Ok(0) | Err(_) => break,
            Ok(_) => {}
        }
    }
    stop.set(rt);
}

/// The end of a server, for its ports and for a thread. The error is: out of memory.
fn stops(alloc: Global) -> Result<(Arc<Stop>, Arc<Stop>), Memory> {
    let stop = Arc::new(alloc, Stop::new(alloc))?;
    let theirs = Arc::try_clone(&stop)?;
    Ok((stop, theirs))
}

// What is sent to a thread is known to be fit for it of the host's runtime, which is named nowhere but here.
fn main(rt: HostRuntime) -> ExitCode {
    let Ok(words) = words(&rt) else {
        return ExitCode::from(STATUS_MEMORY);
    };
    let Ok((stop, theirs)) = stops(rt.alloc()) else {
        return ExitCode::from(STATUS_MEMORY);
    };
    if may_ask_service(&words) {
        let other = rt;
        let watch = thread::spawn(&rt, move || stop_at_end(&other, &theirs));
        if watch.is_err() {
            return ExitCode::from(STATUS_MEMORY);
        }
    }
    let mut source = StdSource::new(rt.reader());
    let mut sink = StdSink::new(std::io::writer(&rt));
    let mut clock = HostClock::new(rt);
    let mut ports = TcpPorts::new(rt, rt.alloc(), stop);
    let mut keepers = DirKeepers::new(rt);
    ExitCode::from(run(
        &rt,
        rt.alloc(),
        &words,
        &mut source,
        &mut sink,
        &mut clock,
        &mut ports,
        &mut keepers,
    ))
}
