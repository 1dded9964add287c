//! A link of the loopback.

ghost use denote.Param.Send.{IsSend};

use ivy_host::{Stop, TcpPorts, TcpSource};
use ivy_io::{OpenFault, Ports, Sink, Source, StdSink, write_all};
use std::alloc::Global;
use std::io::{Read, Write};
use std::net::{Ipv4Addr, Net, SocketAddr, TcpListener, TcpStream};
use std::sync::{Arc, Wait};
use std::thread::Threads;
use std::{io, str, thread};

/// What the client sends.
const HELLO: &str = "hello from the client";

/// What the server replies when it has read that.
const WELCOME: &str = "welcome";

/// What the server sends at last.
const GOODBYE: &str = "goodbye from the server";

/// A link of the ports.
type Link = (TcpSource, StdSink<TcpStream>);

/// What the server met: what it read, whether it then came to the end of the link and of the ports, and the link, which is
/// still open at this end.
#[derive(Drop)]
struct Served {
    bytes: Vec<u8>,
    link_ended: bool,
    ports_ended: bool,
    link: Option<Link>,
}

/// The next bytes of a source, so many where they come.
fn read_some<S: Source>(alloc: Global, source: &mut S, count: usize) -> io::Result<Vec<u8>> {
    let mut bytes = Vec::new(alloc);
    let mut byte = [0u8];
    for _ in 0..count {
        match source.read(&mut byte) {
            Ok(1) => bytes.push(byte[0])?,
            _ => break,
        }
    }
    Ok(bytes)
}

/// Serves one link: reads and replies, reads on to the end, asks for a further link, replies again, and hangs up. So the
/// link comes to its end while nobody asks for a further one.
fn serve<P: Ports<Reads = TcpSource, Writes = StdSink<TcpStream>>>(
    ports: &mut P,
    alloc: Global,
) -> io::Result<Served> {
    let mut served = Served {
        bytes: Vec::new(alloc),
        link_ended: false,
        ports_ended: false,
        link: None,
    };
    if let Ok(Some((mut reads, mut writes))) = ports.accept(alloc) {
        served.bytes = read_some(alloc, &mut reads, HELLO.len())?;
        let _ = write_all(&mut writes, WELCOME.as_bytes());
        served.link_ended = matches!(reads.read(&mut [0u8]), Ok(0));
        served.ports_ended = matches!(ports.accept(alloc), Ok(None));
        let _ = write_all(&mut writes, GOODBYE.as_bytes());
        P::hang_up(&reads, &writes);
        served.link = Some((reads, writes));
    }
    Ok(served)
}

/// Connects, sends, and waits for the reply, so the server has this link then.
fn greet<R: Net<Stream = TcpStream>>(rt: &R, port: u16) -> io::Result<TcpStream> {
    let mut stream = TcpStream::connect(rt, SocketAddr::from((Ipv4Addr::LOCALHOST, port)))?;
    stream.write_all(HELLO.as_bytes())?;
    let mut welcome = [0u8; WELCOME.len()];
    stream.read_exact(&mut welcome)?;
    Ok(stream)
}

/// Greets the server, has it end, and reads until it hangs up.
fn connect<R: Net<Stream = TcpStream> + Wait>(
    rt: &R,
    alloc: Global,
    stop: &Stop,
) -> io::Result<Vec<u8>> {
    let stream = greet(rt, stop.port().unwrap_or(0));
    stop.set(rt);
    let mut bytes = Vec::new(alloc);
    stream?.read_to_end(&mut bytes)?;
    Ok(bytes)
}

/// Serves one link in a thread and is its client in another, and gives the ports back.
fn at_both_ends<R, P>(
    rt: &R,
    alloc: Global,
    ports: P,
    stop: &Stop,
) -> ((P, io::Result<Served>), io::Result<Vec<u8>>)
where
    R: Net<Stream = TcpStream> + Threads + Wait + Sync,
    P: Ports<Reads = TcpSource, Writes = StdSink<TcpStream>> + Drop + Send,
{
    thread::join(
        rt,
        move || -> (P, io::Result<Served>)
            requires { IsSend P.row }
        {
            let mut ports = ports;
            let served = serve(&mut ports, alloc);
            (ports, served)
        },
        move || connect(rt, alloc, stop),
    )
}

/// Says what both ends of the link met.
fn tell<R: Print>(rt: &R, served: &Served, received: &Vec<u8>) -> io::Result<()> {
    println!(rt; "server read: {}", text_of(&served.bytes))?;
    println!(rt; "then the end of the link: {}", served.link_ended)?;
    println!(rt; "then the end of the ports: {}", served.ports_ended)?;
    println!(rt; "client read: {}", text_of(received))
}

/// Gives the link back, and returns its number.
fn give_back<P: Ports<Reads = TcpSource, Writes = StdSink<TcpStream>>>(
    ports: &mut P,
    link: Option<Link>,
) -> Option<u64> {
    let (reads, writes) = link?;
    let number = reads.number();
    ports.give_back(reads, writes);
    Some(number)
}

/// Puts a link to trial, and ports that are to end before they listen.
pub fn put_to_trial<R>(rt: &R, alloc: Global) -> io::Result<()>
where
    R: Net<Listener = TcpListener, Stream = TcpStream>
        + Threads
        + Wait
        + Print
        + Copy
        + Send
        + Sync,
{
    let stop = Arc::new(alloc, Stop::new(alloc))?;
    let mut ports = TcpPorts::new(*rt, alloc, Arc::try_clone(&stop)?);
    let _ = ports.listen(alloc, 0);
    let ((mut ports, served), received) = at_both_ends(rt, alloc, ports, &stop);
    let served = served?;
    tell(rt, &served, &received?)?;
    let number = give_back(&mut ports, served.link);
    println!(rt; "link: {number:?}")?;
    end_at_once(rt, alloc, &mut TcpPorts::new(*rt, alloc, stop))
}

/// Ports that are to end before they listen.
fn end_at_once<R: Print, P: Ports>(rt: &R, alloc: Global, ports: &mut P) -> io::Result<()> {
    let listens = ports.listen(alloc, 0).is_ok();
    let given = match ports.accept(alloc) {
        Ok(Some((reads, writes))) => {
            ports.give_back(reads, writes);
            "a link"
        }
        Ok(None) => "the end",
        Err(OpenFault::Failed) => "failed",
        Err(OpenFault::Memory) => "no memory",
    };
    println!(rt; "listens after the end: {listens}; accept gives: {given}")
}

/// The bytes as text, where they are.
fn text_of(bytes: &Vec<u8>) -> &str {
    str::from_utf8(bytes.as_slice()).unwrap_or("no text")
}
