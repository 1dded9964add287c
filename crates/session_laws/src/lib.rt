//! What follows for a session: what it asks next, from where its refresh starts, what that loads, and what it has brought.
//!
//! Layer: laws and no code, over the machines of `dhash_client` and the definitions of `session_model` and `agent_model`; below
//! the code of sessions and the laws of the world.
//! For the layers above, ask by ask: a get or a put is deterministic, as the answers decide it, whatever they are
//! ([`gets_are_deterministic`]). It isn't whole where a node is asked next ([`next_is_not_whole`]), nor before a first ask
//! ([`none_is_whole`]). What a machine is to ask after its trail is the next ask of its get or put ([`machines_ask_next`]), also
//! in the words of sessions ([`sessions_ask_next`]). Definitions: `specs/Laws.antt`. Lemmas, each file on those before it:
//! `proofs/AskedPlans.antt` (whole trails that follow a plan), `proofs/AskedOwners.antt`, `proofs/AskedLookups.antt`,
//! `proofs/AskedExecutions.antt` (the asks of owners, look-ups, and both as a plan), `proofs/AskedGets.antt`,
//! `proofs/AskedPuts.antt`, `proofs/AskedMachines.antt`.
//!
//! On refreshes, where no names collide: a refresh that is done has brought of each member's log what `agent_model` holds a turn
//! to (`Brings`), and the floor's record where the floor goes further than what it started from, so that its own agent isn't
//! behind (`is_behind`). All ask that it starts from known records, which it does (`start_is_known`), also where it goes by a
//! basis, since what it loads is what was made (`loaded_is_made`). Whatever names tell, what a refresh was brought tells how it
//! stands (`refreshes_are_deterministic`), so one that is done wants nothing more; and whatever comes of what it wants, it goes
//! on (`refreshes_go_on`).
//! Definitions: `specs/Bringing.antt` (`AreMet`, `StartsFrom`, and the laws on what is brought), `specs/Starting.antt`,
//! `specs/Loading.antt` (`IsSnapshotOf`), `specs/Once.antt`, `specs/Going.antt` (`ComesTo`).
//! Lemmas, each file on those before it: `proofs/ReadBack.antt`, that a walk back by names reads the linked records that end at
//! the name; `proofs/Cuts.antt`, that a chain is sound and onward above the held record; `proofs/OneHead.antt`,
//! `proofs/OneLog.antt`, `proofs/OwnParts.antt`, `proofs/AllLogs.antt`: one head, one log, each log's part of what was brought,
//! all logs; `proofs/NotBehind.antt`, `proofs/Refreshed.antt`. By themselves: `proofs/Starting.antt`; `proofs/Loading.antt` over
//! `proofs/WholeTrees.antt` (trees that operations make have the facts of a snapshot's tree) and `proofs/MadeBlocks.antt`;
//! `proofs/OneRefresh.antt` (also `load_is_deterministic`, of what loading came to) over `proofs/OneExecution.antt` (walks, and
//! the heads of one log); `proofs/Going.antt` over `proofs/GoingExecution.antt`, `proofs/GoingChains.antt` (whether records are
//! sound and onward is known) and `proofs/GoingHeads.antt` (heads can be put in order); `proofs/DecidedSnapshots.antt`.
#![tactic(auto)]

ghost use Rattle.session_laws.specs.Laws.{BlockAsksNext, BlockNextIsNotWhole, ContentIsAskedNext, GetNextIsNotWhole, GetsAreDeterministic, HeadAsksNext, HeadNextIsNotWhole, HeadsAreAskedNext, NoneIsWholeBlock, NoneIsWholeGet, NoneIsWholeHead, NoneIsWholePost, NoneIsWholePut, PostIsAskedNext, PostNextIsNotWhole, PutAsksNext, PutNextIsNotWhole, PutsAreDeterministic};
ghost use Rattle.session_laws.specs.Bringing.{FetchedIsBrought, FloorIsBrought, RefreshedIsBrought, FloorIsReached, DoneIsNotBehind};
ghost use Rattle.session_laws.specs.Going.{FailsByTheLast, RefreshBegins, RefreshGoesOn, SnapshotsAreDecided};
ghost use Rattle.session_laws.specs.Loading.{LoadedIsMade, BasisIsKnown};
ghost use Rattle.session_laws.specs.Once.{FetchIsDeterministic, RefreshIsDeterministic};
ghost use Rattle.session_laws.specs.Starting.{StartIsKnown, StartIsSorted};

/// A law and no code: of any entry nodes, a whole get or put begins no other, one ask is the next, it goes on or is whole
/// whatever is answered, and where there is an entry node nothing asked is the beginning of one.
pub fn gets_are_deterministic()
    ensures gets { GetsAreDeterministic }
    ensures puts { PutsAreDeterministic }
{}

/// A law and no code: where some node is asked next, what was asked is no whole get or put.
pub fn next_is_not_whole()
    ensures heads { HeadNextIsNotWhole }
    ensures blocks { BlockNextIsNotWhole }
    ensures puts { PutNextIsNotWhole }
    ensures gets { GetNextIsNotWhole }
    ensures posts { PostNextIsNotWhole }
{}

/// A law and no code: where there is an entry node, nothing asked is no whole get or put.
pub fn none_is_whole()
    ensures heads { NoneIsWholeHead }
    ensures blocks { NoneIsWholeBlock }
    ensures puts { NoneIsWholePut }
    ensures gets { NoneIsWholeGet }
    ensures posts { NoneIsWholePost }
{}

/// A law and no code: after its trail, what a machine of a get or a put is to ask is the next ask.
pub fn machines_ask_next<J>()
    ensures heads { HeadAsksNext J }
    ensures blocks { BlockAsksNext }
    ensures puts { PutAsksNext }
{}

/// A law and no code: the same of the gets and puts of a session, of the heads of a log, of a content block and of a post.
pub fn sessions_ask_next<J>()
    ensures heads { HeadsAreAskedNext J }
    ensures content { ContentIsAskedNext }
    ensures posts { PostIsAskedNext }
{}

/// A law and no code.
///
/// Where no names collide, a refresh that is done has brought of each member's log what the heads that came name, above what
/// it started from; the floor's record among it, where the floor goes further than that.
pub fn fetched_is_brought()
    ensures brought { FetchedIsBrought }
    ensures floor { FloorIsBrought }
{}

/// A law and no code.
///
/// The same of a whole refresh, with the snapshot that it loaded first; so an agent that goes on from what it started from, and
/// has the same floor, isn't behind.
pub fn refreshed_is_brought()
    ensures brought { RefreshedIsBrought }
    ensures floor { FloorIsReached }
    ensures caught_up { DoneIsNotBehind }
{}

/// A law and no code.
///
/// What a refresh starts from, held or covered by a loaded basis, ends of each member's log at a record that was known, and the
/// edge of a held record is its own; it has each log once.
pub fn start_is_known()
    ensures known { StartIsKnown }
    ensures sorted { StartIsSorted }
{}

/// A law and no code.
///
/// Where no names collide, what a refresh loads by a snapshot's name is the basis of which that was made; so a basis that it
/// goes by stands for a part of what was known.
pub fn loaded_is_made()
    ensures made { LoadedIsMade }
    ensures known { BasisIsKnown }
{}

/// A law and no code.
///
/// What a refresh was brought determines what it notes, what it gives and how it stands; so one that is done wants nothing
/// more. By the bytes alone: names may collide.
pub fn refreshes_are_deterministic()
    ensures refresh { RefreshIsDeterministic }
    ensures fetch { FetchIsDeterministic }
{}

/// A law and no code.
///
/// Whatever came of what a refresh wants, it goes on: it wants something again, or has failed, or is done; and so it begins. Where
/// there is a snapshot to load, that asks that of any blocks it can be told whether they are one. It fails only by what came last.
pub fn refreshes_go_on()
    ensures begins { RefreshBegins }
    ensures goes_on { RefreshGoesOn }
    ensures fails { FailsByTheLast }
{}

/// A law and no code.
///
/// Of any bytes it is known whether they are a part of a snapshot and which blocks they name, and of any blocks whether they are
/// a whole one and of which basis. What a block can say has bounds, so all of it can be searched through.
pub fn snapshots_are_decided()
    ensures { SnapshotsAreDecided }
{}
