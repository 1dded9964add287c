//! The end of a server, as threads share it.

ghost use Rattle.std.specs.Prelude.{◌<◌, IfSome};

use ivy_base::Memory;
use std::alloc::Global;
use std::net::{Ipv4Addr, Net, Shutdown, SocketAddr, TcpStream};
use std::sync::atomic::{AtomicBool, AtomicU16, Ordering};
use std::sync::{Mutex, Wait};

/// A link that was given and didn't come back.
#[derive(Drop)]
pub(crate) struct OutLink {
    pub(crate) number: u64,
    pub(crate) stream: TcpStream,
}

/// Whether a server is to end, the port at which it waits for links, and its links that are out. It is that of one
/// [`crate::TcpPorts`]. No clause knows what other threads did.
#[derive(Drop)]
pub struct Stop {
    /// The port, or 0 where none is listened to yet.
    port: AtomicU16,
    is_set: AtomicBool,
    out: Mutex<Vec<OutLink>>,
}

impl Stop {
    /// A server that goes on, listens to no port yet, and has no link out.
    pub fn new(alloc: Global) -> Stop {
        Stop {
            port: AtomicU16::new(0),
            is_set: AtomicBool::new(false),
            out: Mutex::new(Vec::new(alloc)),
        }
    }

    /// The port that is listened to, once one is.
    pub fn port(&self) -> Option<u16>
        ensures { IfSome result (λ port. 0 < port) }
    {
        match self.port.load(Ordering::SeqCst) {
            0 => None,
            port => Some(port),
        }
    }

    /// Tells which port is listened to.
    pub(crate) fn listens_to(&self, port: u16) {
        self.port.store(port, Ordering::SeqCst);
    }

    /// Whether the server is to end.
    pub fn is_set(&self) -> bool {
        self.is_set.load(Ordering::SeqCst)
    }

    /// Has the server end. The links that are out come to their end, after what has come by then, and their replies still
    /// go. Where the server waits for a link it is connected to, once, and then looks whether it is to end; where it doesn't
    /// wait yet, it looks before it does.
    pub fn set<R: Net + Wait>(&self, rt: &R) {
        self.is_set.store(true, Ordering::SeqCst);
        self.end_links(rt);
        if let Some(port) = self.port() {
            // Where nobody can be reached, nobody waits.
            let _ = TcpStream::connect(rt, SocketAddr::from((Ipv4Addr::LOCALHOST, port)));
        }
    }

    /// Keeps a link until it comes back. Where the server is to end already, the link comes to its end at once. The error
    /// is: out of memory, and then the link isn't kept.
    pub(crate) fn lend<R: Wait>(&self, rt: &R, link: OutLink) -> Result<(), Memory> {
        if self.out.lock(rt).push(link).is_err() {
            return Err(Memory);
        }
        // Who sets the flag ends the kept links after that. So a link that is kept too late for them finds the flag set.
        if self.is_set() {
            self.end_links(rt);
        }
        Ok(())
    }

    /// Lets the link of that number go, which came back.
    pub(crate) fn take_back<R: Wait>(&self, rt: &R, number: u64) {
        self.out.lock(rt).retain(|link| link.number != number);
    }

    /// Has nothing more be read of the links that are out.
    fn end_links<R: Wait>(&self, rt: &R) {
        let out = self.out.lock(rt);
        for link in out.iter() {
            // A link that can't be shut has been shut by who is at its other end.
            let _ = link.stream.shutdown(Shutdown::Read);
        }
    }
}
