//! What a round of maintenance does to a world's ring, and that it settles the ring again.
//!
//! Layer: laws and no code, above `world_model` and below the laws of runs. `world_model` defines a round ask by ask, each
//! ask with its fate; `ring_model` defines it as a relation between what nodes know before and after it.
//! For the layers above: whatever is lost, a round changes nodes and the count of asks alone, and nobody stops in it
//! ([`rounds_leave_the_rest`]). Where no ask of it is lost it is a round of the ring, part by part and as a whole
//! ([`rounds_are_rounds`]); so it settles a ring again of which few nodes stopped, or that one joined
//! ([`rounds_settle`]), and where each put is taken it moves each key's blocks to the owners ([`rounds_move_blocks`]).
//! The lines round it: that which makes a ring makes a settled one ([`ring_lines_settle`]), at a join one node joins
//! ([`join_lines_join`]), and after few stops the ring is covered ([`stop_lines_stop`]).
//! Definitions: `specs/RingOf.antt` (the ring of a world, and what holds of its nodes), `specs/Holding.antt` (what holds
//! of their blocks, and when puts are taken); the laws: `specs/Laws.antt`. Who lives and what nodes hold are words of
//! `world_model`.
#![tactic(auto)]

ghost use Rattle.round_laws.specs.Laws.{BlocksMove, FingersAreFixed, FirstPartForgets, JoinLineJoins, PassesArePasses, RingLineSettles, RoundIsRound, RoundLeavesTheRest, RoundLeavesWhoLives, RoundMendsJoin, RoundMendsSince, RoundMendsStopLines, RoundMendsStops, RoundMovesBlocks, StopLineStops, StopLinesLeaveCovered};

/// Laws and no code: whatever is lost, a round changes nothing but nodes and the count of asks; who lives, who stands
/// where, and that nodes know of made nodes alone stay.
pub fn rounds_leave_the_rest()
    ensures rest { RoundLeavesTheRest }
    ensures lives { RoundLeavesWhoLives }
{}

/// Laws and no code: without losses the first part forgets silent predecessors, passes are passes and the third part
/// fixes each finger, as a round of the ring does; so the whole is one.
pub fn rounds_are_rounds()
    ensures forgets { FirstPartForgets }
    ensures passes { PassesArePasses }
    ensures fingers { FingersAreFixed }
    ensures whole { RoundIsRound }
{}

/// A law and no code: the line that makes a ring makes a settled one, of at most 256 nodes that hold nothing.
pub fn ring_lines_settle()
    ensures { RingLineSettles }
{}

/// A law and no code: a line at which a node joins a settled ring without losses makes a ring that it joined.
pub fn join_lines_join()
    ensures { JoinLineJoins }
{}

/// Laws and no code: a line that stops a node changes nothing that nodes know, nor whether another one lives; and after
/// fewer than r of them a settled ring is covered.
pub fn stop_lines_stop()
    ensures line { StopLineStops }
    ensures covered { StopLinesLeaveCovered }
{}

/// Laws and no code: a ring that was settled is settled again after a round without losses, where fewer than r of its
/// nodes stopped since (by the ring's words, by a world in which it was settled, by the lines that stopped them), or one
/// joined.
pub fn rounds_settle()
    ensures stops { RoundMendsStops }
    ensures since { RoundMendsSince }
    ensures lines { RoundMendsStopLines }
    ensures join { RoundMendsJoin }
{}

/// Laws and no code: the fourth part of a round without losses, in a settled ring where each put is taken, moves the
/// blocks of each key as those of a ring move; and so does the whole round, whose other parts touch no block.
pub fn rounds_move_blocks()
    ensures part { BlocksMove }
    ensures whole { RoundMovesBlocks }
{}
