//! What is outside the program, on the host: its clock, files that keep bytes, and links of a TCP port of the loopback.
//!
//! Layer: above `ivy_io`, whose traits these implement, below the program itself.
//! No clause can say what a clock, a file or a socket holds. So each relation says what is left: which moment, file or link
//! it is, by its number or path, and what is counted. Running out of memory is [`ivy_io::OpenFault::Memory`] and leaves all
//! as it was; each other one is counted.
//!
//! - [`HostClock`] gives a moment, or the last one again where the host's clock fails.
//! - [`FileKeeper`] has a file that it made, and [`DirKeepers`] such keepers by name, none where the file exists already.
//!   A save writes another file and renames it, so what is kept is always one of the saved bytes, whole. It doesn't wait
//!   until the disk has them.
//! - [`TcpPorts`] numbers its links and knows which are out. A [`Stop`] that other threads share ends it, and each link that
//!   is out. A write on a link waits for 30 seconds at most, and fails where nothing of it could be taken by then.
//!
//! Definitions: `specs/Files.antt` (what keepers over files are seen as, and which names they take), and `specs/Tcp.antt`
//! (what the ports are seen as, and which link may be given).
#![tactic(auto)]

mod dir_keepers;
mod fault;
mod file_keeper;
mod host_clock;
mod stop;
mod tcp_ports;
mod tcp_source;

pub use dir_keepers::DirKeepers;
pub use file_keeper::FileKeeper;
pub use host_clock::HostClock;
pub use stop::Stop;
pub use tcp_ports::TcpPorts;
pub use tcp_source::TcpSource;
