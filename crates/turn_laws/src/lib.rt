//! What follows from the definitions of turns, of candidates and of agents.
//!
//! Layer: laws and no code, over `turn_model`, `nfs_model`, `causal_order` and `agent_model`; below the code of agents and the
//! laws of sessions and of worlds. Nothing here runs, so there are no costs.
//! For the layers above:
//!
//! - **Turns.** A turn's set is causally closed ([`turns_leave_closed_sets`]), so an agent that began with its log's opening
//!   knows a closed set at all times. A closed part that is taken over a basis's front is that of the whole
//!   ([`parts_over_a_front_are_of_the_whole`]), so what a basis covers need not be available. Statements: `specs/Closed.antt`,
//!   `specs/Whole.antt`.
//! - **Candidates.** What is known, the heads and the blocks determine the candidates ([`candidates_are_unique`]), which there
//!   are, and so is a largest closed part of what is available with them ([`there_are_turns`]). The set that a turn takes has, of
//!   each member's log, the beginning of a chain at or under a received head, and of the own log just what was known; and what is
//!   known then is backed again ([`what_is_taken_is_verified`]). Each case of what is answered to a message holds or doesn't
//!   ([`bytes_are_known`]). Statements: `specs/One.antt`, `specs/Some.antt`, `specs/Verified.antt`, `specs/Reading.antt`. Lemmas
//!   for other formats of the same items: `proofs/Deciding.antt`.
//! - **Agents.** An agent keeps only a part of what it knows. A turn that isn't refused takes, over its basis's front, the
//!   largest closed part of what is held and of the chains that go on from it (`TakesNew` of `agent_model`). Where no names
//!   collide, this with what the basis covers is the largest closed part of what is known and of the candidates
//!   ([`turns_take_by_definition`]): all of it is held then, its front and its replay are those of what is held, and its own log
//!   ends where the agent's floor does. There is such a turn ([`there_are_takings`]; the whole turn of an agent that may answer
//!   is `there_is_a_turn` of `proofs/Existing.antt`). The laws speak of what is held and of what a turn goes on from, and not of
//!   an agent, so that they hold whatever it signs with (`going_is_gone_on` of `proofs/Taken.antt`). Statements:
//!   `specs/Laws.antt`.
//!
//! Lemmas on agents: `proofs/Largest.antt`, `proofs/There.antt` (whether a chain goes on from what is held is decided, and of
//! what is available then there is a largest closed part), `proofs/Served.antt` (what a turn comes to on what is held),
//! `proofs/Answering.antt` (that this is so by the definition for every set that the agent may know), `proofs/Octets.antt` and
//! `proofs/Saving.antt` (what is taken and published can be saved).
#![tactic(auto)]

ghost use Rattle.turn_laws.specs.Closed.{TurnSetIsClosed};
ghost use Rattle.turn_laws.specs.Whole.{PartOverIsPartOfWhole};
ghost use Rattle.turn_laws.specs.One.{CandidatesAreUnique};
ghost use Rattle.turn_laws.specs.Reading.{EachMessageIsKnown, EachCredentialIsKnown, EachArgumentsAreKnown};
ghost use Rattle.turn_laws.specs.Some.{EachBlockIsKnown, ThereAreCandidates, ThereIsALargestPart};
ghost use Rattle.turn_laws.specs.Verified.{TakenIsVerified, OwnLogIsKnown, KnownStaysBacked};
ghost use Rattle.turn_laws.specs.Laws.{FrontIsJoined, OwnLogEndsAtFloor, TakenIsByDefinition, ThereIsATaking};

/// A law and no code: a turn of a view's member leaves a causally closed set.
pub fn turns_leave_closed_sets()
    ensures { TurnSetIsClosed }
{}

/// A law and no code: over a basis's front, of records above it, the largest closed part is what the largest closed part of
/// the whole has beyond what the basis covers.
pub fn parts_over_a_front_are_of_the_whole()
    ensures { PartOverIsPartOfWhole }
{}

/// A law and no code: what an agent knows, the heads and the blocks determine the candidates, where no two different blocks
/// have one name.
pub fn candidates_are_unique()
    ensures { CandidatesAreUnique }
{}

/// A law and no code: what a turn takes is verified, has of the own log just what was known, and stays backed.
pub fn what_is_taken_is_verified()
    ensures verified { TakenIsVerified }
    ensures own { OwnLogIsKnown }
    ensures backed { KnownStaysBacked }
{}

/// A law and no code: of any bytes it is known whether they are a record of an owner's; each member has a candidate, whatever
/// heads and blocks there are; and what is available with candidates has a largest closed part.
pub fn there_are_turns()
    ensures blocks { EachBlockIsKnown }
    ensures candidates { ThereAreCandidates }
    ensures parts { ThereIsALargestPart }
{}

/// A law and no code: any bytes are a message of a known kind, a credential is a caller's or no one's, and any bytes are
/// arguments of a procedure or none.
pub fn bytes_are_known()
    ensures messages { EachMessageIsKnown }
    ensures credentials { EachCredentialIsKnown }
    ensures arguments { EachArgumentsAreKnown }
{}

/// A law and no code: what a turn takes by what is held is what it takes by the definition; the front of what is taken is that
/// of what is held then; and the own log goes on from the floor.
pub fn turns_take_by_definition()
    ensures taken { TakenIsByDefinition }
    ensures front { FrontIsJoined }
    ensures own_log { OwnLogEndsAtFloor }
{}

/// A law and no code: a turn that isn't refused has something to take, whatever its refresh brought.
pub fn there_are_takings()
    ensures { ThereIsATaking }
{}
