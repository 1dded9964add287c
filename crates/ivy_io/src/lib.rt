//! What is outside the program: where bytes come from and go to, where they are kept, clocks, keepers by name, and ports.
//!
//! Layer: above `ivy_base`, below everything that reads, writes or keeps.
//! For the layers above, bytes that move:
//!
//! - A [`Source`] and a [`Sink`] tell each byte that moves, as an equation on what is left and on what is held. An `Err` comes
//!   only where the count of faults rose, and the count never falls. [`write_all`] carries this to whole pieces.
//! - In memory ([`MemSource`], [`MemSink`]) all bytes are known, and exactly the planned calls ([`Failing`]) fail. Over std's
//!   readers and writers ([`StdSource`], [`StdSink`]) no bytes are known, and only the bounds and the causes are.
//! - A [`Keeper`] keeps the bytes that were saved last. After a save that fails it keeps those or the ones before. In memory
//!   ([`MemKeeper`]) exactly the planned saves fail ([`MemKeeper::plan`]).
//!
//! What a program is handed tells by a relation which calls were made and what they gave. Its counts never fall. `Failed` comes
//! only where the count of faults rose, and after running out of memory nothing has changed ([`OpenFault`]).
//!
//! - A [`Clock`] gives nanoseconds below 10^9. One whose moment is known gives that one, and so does another clock of it; in
//!   memory it is fixed ([`FixedClock`]).
//! - [`Keepers`] give a keeper that has not failed yet, and their count of faults rises where one comes back that has. In
//!   memory ([`MemKeepers`]) exactly the planned calls fail, and what comes back under a name lies there until the name's next
//!   keeper, which keeps the same ([`lies_again`]).
//! - [`Ports`] give no link exactly where the count of ends rises, which no other call raises. In memory ([`MemPorts`])
//!   exactly the planned calls fail, the links are given in order, none comes exactly where none is left, and those that come
//!   back are listed. [`Ports::hang_up`] changes no link; in memory nobody is at the other end, and it does nothing.
//!
//! Links, clocks and the keepers of a name may go to other threads, and each may be dropped.
//!
//! Definitions: `specs/Known.antt` (bytes that may be known), `specs/Causes.antt` (faults and their causes), `specs/States.antt`
//! (what each source and sink is seen as), `specs/Keepers.antt` (what is kept, and which saves fail), `specs/Faults.antt`
//! (refusals and counts of what a program is handed), `specs/Links.antt` (links that are to come, are out, or came back),
//! `specs/Names.antt` and `specs/PortsStates.antt` (what keepers and ports in memory are seen as), and `specs/Laws.antt` (what
//! lies under names).
#![tactic(auto)]

mod clock;
mod failing;
mod fault;
mod fixed_clock;
mod keeper;
mod keepers;
mod lent_keeper;
mod mem_keeper;
mod mem_keepers;
mod mem_ports;
mod memory;
mod open_fault;
mod plan;
mod ports;
mod sink;
mod source;
mod standard;

pub use clock::Clock;
pub use failing::Failing;
pub use fault::{Failed, KeepFault, SinkFault};
pub use fixed_clock::FixedClock;
pub use keeper::Keeper;
pub use keepers::Keepers;
pub use lent_keeper::LentKeeper;
pub use mem_keeper::{Leave, MemKeeper, Planned};
pub use mem_keepers::{MemKeepers, Place, lies_again};
pub use mem_ports::MemPorts;
pub use memory::{MemSink, MemSource};
pub use open_fault::OpenFault;
pub use ports::Ports;
pub use sink::{Sink, write_all};
pub use source::Source;
pub use standard::{StdSink, StdSource};
