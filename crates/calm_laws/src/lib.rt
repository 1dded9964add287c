//! Calm scripts: the ring stays, and what was acknowledged is stored and can be read. No whole call fails because
//! a block is missing, and in a tidy script its turn takes all that was written.
//!
//! Layer: laws and no code, over `world_laws` and `round_laws`; `stage_laws` stands on them. In a calm script nodes
//! may stop and join, and rounds be made, as `specs/Calm.antt` has it. Nothing here runs, so there are no costs.
//!
//! How it goes:
//! - Few nodes stop between two rounds, and a round moves each block to its owners ([`rounds_move_all_blocks`]).
//!   So the ring stays ([`rings_stay`]), and an owner of its key holds each post of which a put was acknowledged,
//!   or a newer head. A get gives it ([`acknowledged_is_readable`]).
//! - So it is after a round of each block of which a put of the round was acknowledged. The node that put it
//!   held it.
//! - Records are put before the head that names them, and the head only where each of them was acknowledged.
//!   In a round nodes put only what they hold.
//! - So of each head that a node holds, also of a stopped one, all records were put. So were all that an
//!   agent knows, except for its own that it has still to publish ([`heads_name_what_was_put`]).
//! - So a refresh misses nothing, if of each log a head was put ([`calls_miss_nothing`]).
//! - No store is full while what was met is within its limit. So the live owners take each put of it, of
//!   which there is one at least, and it is acknowledged ([`stores_take_what_is_put`]). So it is with a log's
//!   first head ([`logs_have_heads`]), and each whole call misses nothing ([`calls_miss_nothing`]).
//! - After each line of a tidy script a put of each log's newest head was acknowledged, or an open session
//!   has it to put. Heads that a participant received were made by their logs' agents. So the turn of a whole
//!   call, while no session is open, takes all that the members have written, and nothing else
//!   ([`calls_take_all`]).
//! - What of this holds of each line, for the layer that plays scripts: [`lines_are_served_where_calm`].
//!
//! Definitions and statements, in reading order:
//! - `specs/Calm.antt`: calm scripts;
//! - `specs/Readable.antt`: the ring stays, a post can be read, a round moves blocks, and what was
//!   acknowledged to its own puts can be read; `specs/Laws.antt`: the laws of these;
//! - `specs/Put.antt` and `specs/Completeness.antt`: no call misses a block; tidy scripts;
//! - `specs/Takes.antt`: newest heads, those that are received, and that a turn takes all;
//! - `specs/CalmLines.antt`: what holds of each line.
//!
//! Lemmas on the ring and on what nodes hold:
//! - `proofs/CalmNodes.antt` and `proofs/CalmPuts.antt`: what nodes know and hold, and the blocks of posts;
//!   `proofs/CalmStates.antt`: what is met and what left, and a participant in place of another;
//! - `proofs/CalmRuns.antt` and `proofs/CalmHeld.antt`: the ring that is made, and the invariant along a run;
//!   `proofs/CalmRounds.antt`: stops, joins and rounds; `proofs/Finding.antt`: lists that grow;
//! - `proofs/BlockKinds.antt` and `proofs/Rooms.antt`: what may stand under a key, and no store is full;
//!   `proofs/Holding.antt`: what nodes hold through asks; `proofs/Asking.antt`: whom puts and gets ask where some
//!   nodes are silent;
//! - `proofs/Stretches.antt` and `proofs/States.antt`: what holds while the ring stays, some of whose nodes have
//!   stopped; `proofs/Steps.antt`, `proofs/Configurations.antt`, `proofs/Lines.antt` and `proofs/Commands.antt`:
//!   each step and each line keeps that;
//! - `proofs/Repairs.antt` and `proofs/Moved.antt`: rounds; `proofs/Facts.antt`: the ring, line by line;
//!   `proofs/Worlds.antt`, `proofs/Changes.antt` and `proofs/Runs.antt`: what holds as nodes stop and join;
//! - `proofs/Gets.antt`, `proofs/Given.antt` and `proofs/Durable.antt`: gets, and the laws;
//!   `proofs/PutsInRounds.antt`: what a round put.
//!
//! Lemmas on what was put:
//! - `proofs/UpTo.antt`: records up to a head; `proofs/HeldHeads.antt`: asks; `proofs/Stages.antt`: sessions
//!   that publish; `proofs/Backed.antt`: agents and keepers; `proofs/BackedWorlds.antt`: worlds, and one
//!   participant in place of another.
//! - That each step and line leaves that so: `proofs/Turns.antt`, `proofs/BackedSteps.antt`,
//!   `proofs/CallLines.antt`, `proofs/Publishes.antt`, `proofs/LogLines.antt`, `proofs/UseLines.antt`,
//!   `proofs/RestartLines.antt`, `proofs/SnapLines.antt`, `proofs/ViewLines.antt`, `proofs/RoundPuts.antt`,
//!   `proofs/RingLines.antt` and `proofs/BackedLines.antt`.
//! - `proofs/KeysStay.antt`: no line forgets a block or a public key; `proofs/Walks.antt`: what a refresh
//!   needs to miss nothing; `proofs/Known.antt`: what an agent knows; `proofs/Standing.antt`: what
//!   holds of a world.
//! - The run of a call's line: `proofs/Calls.antt`, `proofs/CallSteps.antt` and `proofs/Served.antt`. Stores
//!   and puts: `proofs/StoreRoom.antt`, `proofs/PutsTaken.antt` and `proofs/PutsAcked.antt`.
//! - `proofs/NamesStay.antt`: who is there; `proofs/PublishesAll.antt`: a session that publishes has all
//!   acknowledged; `proofs/LogHeads.antt`: heads of logs; `proofs/Received.antt`: received heads left their
//!   logs' agents.
//! - Newest heads (posts that fit, agents, steps, lines, scripts): `proofs/FitPosts.antt`,
//!   `proofs/NewestCover.antt`, `proofs/NewestConfigurations.antt`, `proofs/NewestLines.antt` and
//!   `proofs/NewestPut.antt`.
//! - What is written, what heads name, what a refresh gets of each log, what a turn takes of it:
//!   `proofs/OwnLogs.antt`, `proofs/LeftHeads.antt`, `proofs/GotHeads.antt`, `proofs/TakesLogs.antt`,
//!   `proofs/TakesRuns.antt` and `proofs/TakesAllWritten.antt`.
#![tactic(auto)]

ghost use Rattle.calm_laws.specs.Laws.{AckedHasCopies, AcknowledgedIsReadable, RingStays, RoundMovesBlocks};
ghost use Rattle.calm_laws.specs.CalmLines.{LinesAreServedWhereCalm};
ghost use Rattle.calm_laws.specs.Completeness.{CallsMissNothing, CallsMissNothingBehindHeads, LivePutsAreTaken, LogsHaveHeads, PutsAreAcknowledged, StoresHaveRoom};
ghost use Rattle.calm_laws.specs.Put.{HeadsNameWhatWasPut, KnownIsPutOrPending};
ghost use Rattle.calm_laws.specs.Takes.{CallsTakeAll, NewestArePut, ReceivedHeadsLeft};

/// Law: in a calm script the ring is settled after the line that makes it and after each round. It is covered at each
/// later line, except between a join and its round.
pub fn rings_stay()
    ensures { RingStays }
{}

/// Law: right after a round, be it that of a join, a live node holds exactly the blocks of whose keys it is an
/// owner and which a live node held before the round.
pub fn rounds_move_all_blocks()
    ensures { RoundMovesBlocks }
{}

/// Laws: in a calm script an owner of its key holds each post of which a put was acknowledged, or a newer head. A get of
/// a block gives it, and a get of a head gives one of its number or a greater one. While no node has stopped since the last round,
/// each owner holds it.
pub fn acknowledged_is_readable()
    ensures readable { AcknowledgedIsReadable }
    ensures copies { AckedHasCopies }
{}

/// Laws: in a calm script a put was acknowledged of each record up to the one that a stored head names. So it
/// was of each record that a participant knows, except for its own that it has still to publish.
pub fn heads_name_what_was_put()
    ensures heads { HeadsNameWhatWasPut }
    ensures known { KnownIsPutOrPending }
{}

/// Laws: in a calm script no whole call fails because a block is missing, if of each log a put of a head was
/// acknowledged. And none does at all, since a line goes on with a call only while the blocks that were met
/// are within their limit. Before each turn of such a call no two different blocks that were met had one name,
/// so the headline holds of it without a premise.
pub fn calls_miss_nothing()
    ensures behind_heads { CallsMissNothingBehindHeads }
    ensures calls { CallsMissNothing }
{}

/// Laws of calm scripts, while the blocks that were met are within their limit.
/// - No store is full.
/// - A live node takes a put of one of these blocks, as content under its name or as a head that is judged;
///   or it holds a newer head.
/// - A whole put of it is acknowledged.
pub fn stores_take_what_is_put()
    ensures room { StoresHaveRoom }
    ensures taken_by_live { LivePutsAreTaken }
    ensures acknowledged { PutsAreAcknowledged }
{}

/// Law: while the blocks that were met are within their limit, a put of a head was acknowledged of each log
/// in a calm script.
pub fn logs_have_heads()
    ensures { LogsHaveHeads }
{}

/// Law: say that a world was reached calmly. Then every block whose put was acknowledged is stored and can be
/// read. A line that is a call and goes on misses nothing, and a round moves each block to its owners. Each
/// block of which a put of the round was acknowledged is stored after it and can be read.
pub fn lines_are_served_where_calm()
    ensures { LinesAreServedWhereCalm }
{}

/// Laws: in a calm script each head of a participant's log that somebody received left the log's agent.
///
/// Say that a run is calm and tidy at each line, that no session is open, and that the blocks that were met
/// are within their limit. Then of each log a put was acknowledged of a head that goes as far as its agent's
/// floor.
///
/// Say further that each log has a key of its own, and all members of the caller's view have entered it. Then
/// the turn of a whole call takes all records that the members have written before it, and nothing else.
pub fn calls_take_all()
    ensures received { ReceivedHeadsLeft }
    ensures newest { NewestArePut }
    ensures calls { CallsTakeAll }
{}
