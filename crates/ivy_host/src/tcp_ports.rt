//! Links of a TCP port of the loopback.

ghost use Rattle.std.specs.Prelude.{◌≡◌, ◌≤◌, [], None, Some, IfOk, IfErr, OnErr, OnOk};
ghost use Rattle.ivy_io.specs.Faults.{EndsCount, Refuses};
ghost use Rattle.ivy_host.specs.Tcp.{GivesLink, after_end, after_refusal, others_than, without};

use crate::fault::open_fault;
use crate::stop::OutLink;
use crate::{Stop, TcpSource};
use ivy_io::{OpenFault, Ports, StdSink};
use std::alloc::Global;
use std::io;
use std::io::ErrorKind;
use std::marker::Model;
use std::net::{Ipv4Addr, Net, Shutdown, SocketAddr, TcpListener, TcpStream};
use std::sync::{Arc, Wait};
use std::time::Duration;

/// How many seconds a write waits for who is at the other end to take something, before it fails.
const WRITE_SECONDS: u64 = 30;

/// Three handles of one link: for its source, for its sink, and for the shared [`Stop`].
#[derive(Drop)]
struct Handles {
    reads: TcpStream,
    writes: TcpStream,
    kept: TcpStream,
}

/// Links of a TCP port of the loopback, each with a number of its own. There is no further one exactly where the shared
/// [`Stop`] is set. The links that are out come to their end then, after what has come by then, and their replies still go.
///
/// A write on a link waits for 30 seconds at most, and fails where nothing of it could be taken by then. So who doesn't read
/// doesn't hold a link for ever: what is left after a part that could be taken waits again, and then fails.
#[derive(Drop)]
pub struct TcpPorts<R> {
    rt: R,
    stop: Arc<Stop>,
    listener: Option<TcpListener>,
    /// The numbers of the links that are out. The stop has their streams.
    out: Vec<u64>,
    given: u64,
    faults: u64,
    ends: u64,
}

impl<R> Model for TcpPorts<R> {
    ghost use Rattle.ivy_host.specs.Tcp.{TcpState};

    ghost Value = { TcpState };

    ghost view = { λ p. record { given = p.given; out = p.out.items; faults = p.faults; ends = p.ends } };
}

impl<R> TcpPorts<R> {
    /// Ports that listen to none yet, and that end where the stop is set.
    pub fn new(rt: R, alloc: Global, stop: Arc<Stop>) -> TcpPorts<R>
        ensures { result ≡ record { given = 0; out = []; faults = 0; ends = 0 } }
    {
        TcpPorts {
            rt,
            stop,
            listener: None,
            out: Vec::new(alloc),
            given: 0,
            faults: 0,
            ends: 0,
        }
    }

    /// Counts a refusal, unless it is running out of memory.
    fn refuse(&mut self, fault: OpenFault) -> OpenFault
        ensures result { result ≡ fault }
        ensures counts { self.new ≡ after_refusal fault self.old }
        ensures later { self.old.faults ≤ self.new.faults }
    {
        if let OpenFault::Failed = fault {
            self.faults = self.faults.saturating_add(1);
        }
        fault
    }

    /// Counts an end. From then on nobody can connect. Who set the stop ends the links that are out.
    fn end(&mut self)
        ensures counts { self.new ≡ after_end self.old }
        ensures never_falls { self.old.ends ≤ self.new.ends }
    {
        self.listener = None;
        self.ends = self.ends.saturating_add(1);
    }

    /// The next link, where the server is to go on.
    fn next_link(&self) -> io::Result<Option<Handles>> {
        if self.stop.is_set() {
            return Ok(None);
        }
        let Some(listener) = &self.listener else {
            return Err(io::Error::from(ErrorKind::NotConnected));
        };
        match next_stream(listener, &self.stop)? {
            Some(stream) => Ok(Some(handles_of(stream)?)),
            None => Ok(None),
        }
    }
}

impl<R: Wait> TcpPorts<R> {
    /// Gives a link. The error is: out of memory, and then nothing has changed.
    fn lend(&mut self, link: Handles) -> Result<(TcpSource, StdSink<TcpStream>), OpenFault>
        ensures ok { IfOk result (λ given. GivesLink self.old (Some given) self.new) }
        ensures err { IfErr result (λ fault. fault ≡ OpenFault.Memory) }
        ensures same { OnErr result (self.new ≡ self.old) }
    {
        let Handles {
            reads,
            writes,
            kept,
        } = link;
        let number = self.given;
        if self.out.reserve(1).is_err() {
            return Err(OpenFault::Memory);
        }
        let out = OutLink {
            number,
            stream: kept,
        };
        if self.stop.lend(&self.rt, out).is_err() {
            return Err(OpenFault::Memory);
        }
        self.out.push_reserved(number);
        self.given = number.saturating_add(1);
        Ok((TcpSource::of(reads, number), StdSink::new(writes)))
    }
}

impl<R: Net<Listener = TcpListener, Stream = TcpStream> + Wait> Ports for TcpPorts<R> {
    type Reads = TcpSource;

    type Writes = StdSink<TcpStream>;

    ghost links = { λ p. None };

    ghost faults = { λ p. p.faults };

    ghost ends = { λ p. p.ends };

    ghost gives = { GivesLink };

    ghost takes = { λ p reads writes new. new ≡ without reads.number p };

    fn listen(&mut self, _alloc: Global, port: u16) -> Result<(), OpenFault>
        ensures ends { self.new.ends ≡ self.old.ends }
        ensures refused { IfErr result (λ fault. Refuses (λ p. p.faults) self.old self.new fault) }
        ensures later { self.old.faults ≤ self.new.faults }

        // Nothing else changes.
        ensures ok { OnOk result (self.new ≡ self.old) }
        ensures err { IfErr result (λ fault. self.new ≡ after_refusal fault self.old) }
    {
        match listen_at(&self.rt, port) {
            Ok((listener, port)) => {
                self.listener = Some(listener);
                self.stop.listens_to(port);
                Ok(())
            }
            Err(error) => Err(self.refuse(open_fault(&error))),
        }
    }

    fn accept(
        &mut self,
        _alloc: Global,
    ) -> Result<Option<(TcpSource, StdSink<TcpStream>)>, OpenFault>
        ensures is { IfOk result (λ link. GivesLink self.old link self.new) }
        ensures ends { EndsCount self.old.ends self.new.ends result }
        ensures never_falls { self.old.ends ≤ self.new.ends }
        ensures refused { IfErr result (λ fault. Refuses (λ p. p.faults) self.old self.new fault) }
        ensures later { self.old.faults ≤ self.new.faults }

        // Nothing but the count of faults changes where no link is given for a failure.
        ensures err { IfErr result (λ fault. self.new ≡ after_refusal fault self.old) }
    {
        match self.next_link() {
            Ok(Some(link)) => Ok(Some(self.lend(link)?)),
            Ok(None) => {
                self.end();
                Ok(None)
            }
            Err(error) => Err(self.refuse(open_fault(&error))),
        }
    }

    fn hang_up(_reads: &TcpSource, writes: &StdSink<TcpStream>) {
        // A link that can't be shut has been shut by who is at its other end.
        let _ = writes.writer().shutdown(Shutdown::Both);
    }

    fn give_back(&mut self, reads: TcpSource, _writes: StdSink<TcpStream>) {
        let number = reads.number();
        self.stop.take_back(&self.rt, number);
        drop_number(&mut self.out, number);
    }
}

/// Listens to a port of the loopback; the host chooses one in place of port 0.
fn listen_at<R: Net<Listener = TcpListener, Stream = TcpStream>>(
    rt: &R,
    port: u16,
) -> io::Result<(TcpListener, u16)> {
    let listener = TcpListener::bind(rt, SocketAddr::from((Ipv4Addr::LOCALHOST, port)))?;
    let port = listener.local_addr()?.port();
    Ok((listener, port))
}

/// Who connects next, unless the server is to end by then. It is tried again where a signal interrupts, or where who
/// connected is gone already.
fn next_stream(listener: &TcpListener, stop: &Stop) -> io::Result<Option<TcpStream>> {
    for stream in listener.incoming() {
        if stop.is_set() {
            return Ok(None);
        }
        match stream {
            Ok(stream) => return Ok(Some(stream)),
            Err(error) => match error.kind() {
                ErrorKind::Interrupted | ErrorKind::ConnectionAborted => {}
                _ => return Err(error),
            },
        }
    }
    Err(io::Error::from(ErrorKind::Interrupted))
}

/// Three handles of a link, which sends each reply at once, and whose writes fail where nobody takes them.
fn handles_of(stream: TcpStream) -> io::Result<Handles> {
    // A link that doesn't is slower, and nothing else.
    let _ = stream.set_nodelay(true);
    stream.set_write_timeout(Some(Duration::from_secs(WRITE_SECONDS)))?;
    Ok(Handles {
        writes: stream.try_clone()?,
        kept: stream.try_clone()?,
        reads: stream,
    })
}

/// Lets that number go.
fn drop_number(numbers: &mut Vec<u64>, number: u64)
    ensures { numbers.new.items ≡ others_than number numbers.old.items }
{
    numbers.retain(|other| *other != number);
}
