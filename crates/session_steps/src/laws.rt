//! What ties the contracts of sessions in code, of their agents' turns and of a ring's nodes to the steps of a world's sessions.
//!
//! Laws and no code, over the contracts of `ivy_session`, `ivy_agent` and `ring_nodes`, and the steps of `world_model` in worlds
//! in which the invariant holds (`world_laws`); for the code that drives a session in a world. A configuration of a world, whose
//! session is one in code (`IsConfigurationOf`, `specs/Configurations.antt`), comes by each call of that session to what is
//! wanted next. An ask is of a node that was made (`asked_nodes_are_made`), and with its fate and its hearing a step
//! (`asks_are_steps`); a turn may be had on what the refresh brought (`turns_may_be`), and whatever came of it is a step
//! (`turns_are_steps`), by which the session says the reply that its bytes are (`replies_are_read`); so is a settling
//! (`settlings_are_steps`); and what is done was over, or memory runs out (`done_is_over`). Each step tells the world then, but
//! for the ghost state, the session in code, and what its reply gives to later lines (`IsStep`); where that is the
//! configuration's, the configuration after it is one of the session again (`configurations_go_on`), which waits for a node only
//! where asks were made, as `asks_are_steps` needs, and for no turn.
//! Definitions: `specs/Configurations.antt`; statements: `specs/Laws.antt`. Lemmas: `proofs/Calls.antt` (what stays of a call),
//! `proofs/Asked.antt` (whom a session asks), `proofs/ConfigurationSteps.antt` (what is available was taken),
//! `proofs/AskSteps.antt`, `proofs/Read.antt` (the reply of a turn is the one that its bytes are), `proofs/TurnSteps.antt`,
//! `proofs/EndSteps.antt`; and of `ivy_session` those of sessions that somebody drives.

ghost use Rattle.session_steps.specs.Laws.{AgentsGiveTurns, AskedAreMade, AsksAreSteps, BatchesAreFetched, DoneIsOver, NextAskedAreMade, RefusalsAreFresh, RepliesAreRead, ConfigurationsGoOn, SettlingsAreSteps, StepsAreOfOneCall, TurnsAreSteps, TurnsMayBe};

use nfs_laws::answers_are_replies;

/// Laws and no code: a step is of one call, so the configuration after it is one of the session in code
/// again.
pub fn configurations_go_on<J>()
    ensures call { StepsAreOfOneCall }
    ensures configuration { ConfigurationsGoOn J }
{}

/// Laws and no code: a session in a world asks only nodes that were made, by the definitions and in code.
pub fn asked_nodes_are_made<J>()
    ensures session { AskedAreMade }
    ensures next { NextAskedAreMade J }
{}

/// A law and no code: an ask of a session in code, with its fate and its hearing, is a step of the
/// configuration.
pub fn asks_are_steps<J>()
    ensures { AsksAreSteps J }
{}

/// Laws and no code: what a refresh brought may be given to a turn, its agent may have the turn that is wanted, what an agent
/// that is kept in memory says of it came of it, and after a refusal a session begins again without a snapshot to load.
pub fn turns_may_be<J>()
    ensures batch { BatchesAreFetched }
    ensures turn { TurnsMayBe J }
    ensures agent { AgentsGiveTurns }
    ensures refusal { RefusalsAreFresh }
{}

/// A law and no code: whatever comes of the turn of a session in code, and whatever the session makes of it, is a step of the
/// configuration.
pub fn turns_are_steps<J>()
    ensures { TurnsAreSteps J }
{}

/// A law and no code: where the bytes of a turn are read as a reply of the call's procedure, that is what the session says.
pub fn replies_are_read<J>()
    ensures { RepliesAreRead J }
{
    answers_are_replies();
}

/// A law and no code: that an agent drops what a session in code had acknowledged is a step of the
/// configuration.
pub fn settlings_are_steps<J>()
    ensures { SettlingsAreSteps J }
{}

/// A law and no code: a session in code that is done was over, or memory runs out.
pub fn done_is_over<J>()
    ensures { DoneIsOver J }
{}
