//! What holds of each world that a script reaches, of each reply, and of runs.
//!
//! Layer: laws, over `world_model` and `session_laws`; below the crates that play scripts. Nothing here runs,
//! so there are no costs.
//!
//! Statements, in reading order:
//! - `specs/Headline.antt`: each reply;
//! - `specs/Causes.antt`: why a session gives its reply;
//! - `specs/Invariant.antt`: the invariant of each world (`Invariant`);
//! - `specs/Kinds.antt`: which lines are refused;
//! - `specs/Laws.antt`: steps and runs; `specs/LeavingOut.antt`: logs that a view leaves out;
//! - `specs/Messages.antt`: each message is one thing, and one thing becomes of it;
//! - `specs/FullTurns.antt`: turns that exist;
//! - `specs/FullRuns.antt`: the run in which memory never runs out;
//! - `specs/SnapRoom.antt`: snapshots that can be saved;
//! - `specs/Frames.antt`: what may change in a world while the invariant stays;
//! - `specs/Effects.antt`: what a command leaves of a world, and `specs/Moves.antt`: a session's step;
//! - `specs/NoKeys.antt`: which blocks may be public keys.
//!
//! For the layers above: say that a world satisfies the invariant, and that no two different blocks have one
//! name. Then a finished refresh has brought what its heads name, and its turn may be held to the definition.
//! The session's next step is that turn, and no other. A turn is refused once at most, and never where the
//! session began with no snapshot to load and no basis.
//!
//! Lemmas to cite:
//! - `proofs/Bringing.antt`: what `Invariant` says of a session and its agent;
//! - `proofs/NotRefused.antt`: an agent that holds all that it knows isn't behind, and one without a basis
//!   isn't below the tide; also `proofs/SecondTurns.antt`, `proofs/DoneSteps.antt`;
//! - `proofs/NotMisled.antt`: one without a basis knows the vector of each record from which it fetches;
//! - `proofs/SignedHeads.antt`: what holds of the agent whose bytes a keeper holds;
//! - `proofs/Effects.antt`: what holds after each effect holds after each line (`by_effects`);
//! - `proofs/Moves.antt`: what holds after each move holds after each step (`all_moves`);
//! - `proofs/Frames.antt`: changes of a world's nodes and of one participant;
//! - `proofs/Publishing.antt`: an ask by which only what was met is put;
//! - `proofs/OneTruth.antt`: linked records that end at one record;
//! - `proofs/Receiving.antt`: what more heads leave as it was;
//! - `proofs/TakingOn.antt` and `proofs/GetsBring.antt`: a session that is brought something goes on;
//! - `proofs/Beginning.antt`: a session that begins;
//! - `proofs/Afresh.antt`: a participant that changes, whose open sessions are gone; `proofs/OtherBytes.antt`:
//!   one whose keeper holds other bytes; `proofs/NewParticipant.antt`: one more;
//! - `proofs/EnteredViews.antt`: what is known of another view's members is closed;
//! - `proofs/KnownHeads.antt`: the heads that left are over what is known;
//! - `proofs/SignatureBytes.antt`: signatures are bytes, and few;
//! - `proofs/OpenSessions.antt`: an open session is in progress, and others stay in their place;
//! - `proofs/SessionLinesSteps.antt`: what many steps of a session leave, and what they leave as it was;
//! - `proofs/HeadlineOfPublishing.antt`: publishing alone has no turn;
//! - `proofs/LineKeys.antt`: the key of a log that a line begins can be saved;
//! - `proofs/TurnsWorld.antt`: a participant that changes by a turn, whose open sessions stay;
//! - `proofs/TurnsKnown.antt`: what an agent knows after a turn (with lemmas of `agent_laws`);
//! - `proofs/TurnsTaken.antt`: a turn's candidates are one list;
//! - `proofs/OneAsked.antt`: a message asks one thing;
//! - `proofs/AnsweredTurns.antt` and `proofs/RefusedTurns.antt`: turns keep the invariant;
//! - `proofs/SnapBounds.antt` and `proofs/SnapSpelled.antt`: what a closed set stands for, and what an agent
//!   holds, has a spelling as a snapshot. `proofs/SpelledPosts.antt`: what would be saved of it has one or has
//!   none, and it is known which. `proofs/SnapCounts.antt`: it has fewer posts than a word counts.
//! - `proofs/TreeBytes.antt`: the tree of records whose blocks are bytes has bytes;
//!   `proofs/SnapBytes.antt`: a snapshot's blocks are bytes, and each is so many that a word counts them;
//!   `proofs/MetBytes.antt`: the blocks met are bytes;
//!   `proofs/SnapRoom.antt`: what is to be saved of a snapshot has a spelling.
//!
//! That something can be done (progress):
//! - `proofs/ExistingPlans.antt`: whom a get or a put asks;
//! - `proofs/ExistingFates.antt`: an ask has a fate;
//! - `proofs/ExistingPuts.antt` and `proofs/ExistingSessions.antt`: sessions to their end;
//! - `proofs/ExistingAsks.antt`: look-ups and whole puts;
//! - `proofs/ExistingRounds.antt` and `proofs/ExistingRepairs.antt`: rounds;
//! - `proofs/ExistingMessages.antt`: what becomes of a message.
//!
//! That memory may be there, for sessions:
//! - `proofs/FullLoads.antt`, `proofs/FullFetches.antt` and `proofs/FullRefreshes.antt`: a refresh wants
//!   something finitely often;
//! - `proofs/FullPlans.antt`: whom a get asks;
//! - `proofs/FullGets.antt` and `proofs/FullRuns.antt`: a refresh comes to its end;
//! - `proofs/FullTurns.antt`: its turn, where that exists, is the next step;
//! - `proofs/FullSessions.antt`, `proofs/TurnsExisting.antt` (the turn exists) and `proofs/FullEnds.antt` (a
//!   session goes to its end).
//!
//! That memory may be there, for lines and scripts:
//! - `proofs/LastingLines.antt`: what each agent and its keeper keep through turns, saves and the like, they
//!   keep through each line, or through each that makes no snapshot;
//! - `proofs/Rooms.antt`: so it is that an agent publishes few posts;
//! - `proofs/PieceBytes.antt`: what a line sends is bytes; `proofs/GivenBytes.antt`: so is what a turn's
//!   reply gives; `proofs/BytesSteps.antt` and `proofs/BytesLines.antt`: steps and lines leave that so;
//! - `proofs/ShownReplies.antt`: which replies show that memory ran out; `proofs/MemoryDecided.antt`: whether
//!   it did is decided;
//! - `proofs/QuietLines.antt`: lines without sessions;
//! - `proofs/CallConfigurations.antt` and `proofs/FullConfigurations.antt`: a session at any stage goes on
//!   with memory there;
//! - `proofs/FullLines.antt` and `proofs/FullScripts.antt`.
//!
//! That the result is unique (determinism):
//! - `proofs/OneExecution.antt`: a trail determines what comes of a get or a put;
//! - `proofs/OneHeard.antt`: an ask has one fate, and one thing is heard of it;
//! - `proofs/OneTurns.antt`: turns; `proofs/OneSteps.antt`: steps of sessions; `proofs/OneMessages.antt`:
//!   what becomes of a message;
//! - `proofs/OneCalls.antt`: lines of calls; `proofs/OneAsks.antt`: look-ups and whole puts;
//!   `proofs/OneRing.antt`: rings, joins and rounds; `proofs/OneLines.antt`: lines and runs.
#![tactic(auto)]

ghost use Rattle.world_laws.specs.Messages.{EachMessageBecomesOne, EachMessageIsOne};
ghost use Rattle.world_laws.specs.Effects.{LinesHaveEffects, LinesShowTexts};
ghost use Rattle.world_laws.specs.Frames.{DamageLinesKeep, JoinLinesKeep, KeeperLinesKeep, LogLinesKeep, FrameRule, MoreBlocksKeep, RestartLinesKeep, RingLinesKeep, RoundLinesKeep, StillLinesKeep, StopLinesKeep, UseLinesKeep, ViewLinesKeep};
ghost use Rattle.world_laws.specs.FullRuns.{BytesCome, EmptyHasBytes, EmptyPublishesFew, FewPostsCome, FullLines, FullScripts, FullStarts, MemoryIsDecided, MessagesAreBytes, SnapshotsAreFew, ThereIsRoom};
ghost use Rattle.world_laws.specs.SnapRoom.{EmptyMetBytes, MetBytesCome, ScriptsSaveSnapshots, SnapshotsCanBeSaved, SnapshotsFailBySaves};
ghost use Rattle.world_laws.specs.FullTurns.{SessionsEndOrClash, SessionsGoToTheirEnds, TurnsExist};
ghost use Rattle.world_laws.specs.Kinds.{LineHasOneKind};
ghost use Rattle.world_laws.specs.LeavingOut.{OtherLogsChangeNoTurn};
ghost use Rattle.world_laws.specs.NoKeys.{LogsHaveTags, SnapshotsHaveTags, TaggedAreNoKeys};
ghost use Rattle.world_laws.specs.Laws.{AlikeTurnsAnswerAlike, AllStepsKeep, AnsweredTurnsKeep, CallLinesKeep, CallsBegin, ClashIsDecided, DoneRefreshesStep, EachLineIsTotal, EachReplyIsOnReplay, EachScriptHasARun, EachSessionEnds, EmptyKeeps, FewerStayApart, FreshCandidatesAreByHeads, FreshStandingsDontMislead, FreshTurnsAreAnswered, FrontIsOfOne, FullRunsAreUnique, GetsBringKeep, GetsGoOnKeep, HeadlineHolds, HeadsAreSavedFirst, HeldIsSpelled, KeptOnce, KnownIsUnique, LackingKeeps, LackingStepsKeep, LeafSignsOnce, LinesKeep, ManyStepsAreDeterministic, ManyStepsKeep, MetGrows, NoSnapshotComes, OneTruth, OpenLineKeeps, OtherLogsDontInterfere, OthersHaveNoTurn, PublishingIsDeterministic, PublishingKeeps, PutsKeep, ReceivingKeeps, RefreshBrings, RefreshEndsInTurn, RefreshMayTurn, RefreshesEnd, RefreshesRunOut, RefusedTurnsKeep, SecondTurnIsAnswered, SessionEndsAreDeterministic, SessionsGoFully, SessionStepsAreDeterministic, SettlingKeeps, SnapLinesKeep, SnapshotsKeep, StepsAreDeterministic, StepsKeep, StillLinesChangeNothing, TakingKeeps, TurnsAreSaved, UpperLeavesSignOnce, VainAsksKeep, WholePublishingKeeps};

/// Law: of any blocks, either no two different ones have one name, or two of them clash.
pub fn clashes_are_decided()
    ensures { ClashIsDecided }
{}

/// Law: if no two different blocks of a list have one name, so it is of any part of it.
pub fn fewer_blocks_stay_apart()
    ensures { FewerStayApart }
{}

/// Law: signatures that use the same leaves down to a level have the same keys signed down to there.
pub fn upper_leaves_sign_once()
    ensures { UpperLeavesSignOnce }
{}

/// Law: the world and the line determine whether the line goes on, ends the run, is refused or meets a limit.
pub fn lines_have_one_kind()
    ensures { LineHasOneKind }
{}

/// Law: no line forgets a block that was met.
pub fn met_blocks_stay()
    ensures { MetGrows }
{}

/// Law: a line that shows something, or sets the moment or a loss to come, changes nothing else.
pub fn still_lines_change_nothing()
    ensures { StillLinesChangeNothing }
{}

/// Laws, without a hash collision: a finished refresh has brought what its heads name, and its turn may be
/// held to the definition.
pub fn done_refreshes_bring()
    ensures brings { RefreshBrings }
    ensures may_turn { RefreshMayTurn }
{}

/// Law: a session begins again at most once, since its second turn isn't refused.
pub fn second_turns_are_answered()
    ensures { SecondTurnIsAnswered }
{}

/// Laws: once a refresh is finished, the next step of its session is its turn, or memory runs out. The turn
/// is answered, or the session begins again. Where the session began with no snapshot to load and no basis,
/// the turn is answered.
pub fn done_refreshes_have_turns()
    ensures turns { RefreshEndsInTurn }
    ensures fresh { FreshTurnsAreAnswered }
{}

/// Laws: without a snapshot nothing misleads. A session that began with no basis, and loads none, knows the
/// vector of each held record from which it fetches a log. So its candidates are determined by its heads
/// alone.
pub fn nothing_misleads_without_a_snapshot()
    ensures standings { FreshStandingsDontMislead }
    ensures candidates { FreshCandidatesAreByHeads }
{}

/// Law: a script begins in a world that satisfies the invariant.
pub fn scripts_begin_well()
    ensures { EmptyKeeps }
{}

/// Law (noninterference): say that two worlds have the same heads and the same records' blocks of a view's
/// members. Then a turn in that view has the same candidates in both, whatever other logs there are.
pub fn other_logs_dont_interfere()
    ensures { OtherLogsDontInterfere }
{}

/// Law: two turns of equal views, agents, sets, calls and moments give equal replies.
pub fn alike_turns_answer_alike()
    ensures { AlikeTurnsAnswerAlike }
{}

/// Law (noninterference): two turns of equal views, agents, known sets, calls and moments are one turn, where
/// they agree on the heads and records of their view's members. Both take the same set, leave the same set and
/// give the same reply, whatever other logs and blocks there are.
pub fn other_logs_change_no_turn()
    ensures { OtherLogsChangeNoTurn }
{}

/// Laws: each block of a record, a head or a view begins with the letters IV, and so does each of a snapshot but
/// the pieces of its files. A public key begins with a zero byte. So where all blocks that were met begin so,
/// none is the public key of a log, which is a premise of calm scripts.
pub fn only_pieces_may_be_keys()
    ensures logs { LogsHaveTags }
    ensures snapshots { SnapshotsHaveTags }
    ensures keys { TaggedAreNoKeys }
{}

/// Law: the bytes that are saved of an agent determine what was saved.
pub fn kept_bytes_are_of_one()
    ensures { KeptOnce }
{}

/// Law: a head that is to leave was signed under a number below the one that its agent's keeper holds. So no
/// number signs twice, whatever is lost of the agent.
pub fn heads_are_saved_first()
    ensures { HeadsAreSavedFirst }
{}

/// Law: two heads that left an agent are equal if they are over records of one number, or signed by the same
/// leaves.
pub fn leaves_sign_once()
    ensures { LeafSignsOnce }
{}

/// Law (frame rule): changes within the frame condition preserve the invariant. They leave nodes of the same
/// peers that hold only what was met, and participants whose agents sign, know and hold the same. Blocks may
/// be met; views, replies, moments and losses may change.
pub fn frame_rule()
    ensures { FrameRule }
{}

/// Law: meeting more blocks preserves the invariant.
pub fn more_blocks_keep()
    ensures { MoreBlocksKeep }
{}

/// Laws: a step of a session that only publishes preserves the invariant, leaves such a session, and has no
/// turn. A participant that publishes all that its agent has to preserves the invariant too.
pub fn publishing_keeps()
    ensures step { PublishingKeeps }
    ensures whole { WholePublishingKeeps }
{}

/// Laws: lines without sessions preserve the invariant. They are
/// - lines that show something, or set the moment or a loss;
/// - a node that stops, a block that is damaged, a save that is to fail;
/// - a ring that is made, a node that joins, and a round of maintenance, whatever is lost;
/// - a view that is made.
pub fn lines_without_sessions_keep()
    ensures still { StillLinesKeep }
    ensures stop { StopLinesKeep }
    ensures damage { DamageLinesKeep }
    ensures keeper { KeeperLinesKeep }
    ensures ring { RingLinesKeep }
    ensures join { JoinLinesKeep }
    ensures round { RoundLinesKeep }
    ensures view { ViewLinesKeep }
{}

/// Laws: lines of participants preserve the invariant. A log begins; a participant enters a view, or its save
/// for it fails; a participant starts again from what was saved.
pub fn lines_of_participants_keep()
    ensures begins { LogLinesKeep }
    ensures enters { UseLinesKeep }
    ensures restarts { RestartLinesKeep }
{}

/// Laws: each of these preserves the invariant of a world and of a session in progress.
/// - an ask of a put or of a get, whatever it brings, and one that isn't heard;
/// - settling, and taking a block that is available;
/// - the end when memory runs out;
/// - more heads received.
pub fn some_steps_keep()
    ensures puts { PutsKeep }
    ensures gets_go_on { GetsGoOnKeep }
    ensures settling { SettlingKeeps }
    ensures lacking { LackingKeeps }
    ensures vain { VainAsksKeep }
    ensures lacking_step { LackingStepsKeep }
    ensures gets_bring { GetsBringKeep }
    ensures taking { TakingKeeps }
    ensures receiving { ReceivingKeeps }
{}

/// Law: without a hash collision among the blocks, a floor names one set of records among them.
pub fn floors_name_one_set()
    ensures { KnownIsUnique }
{}

/// Law: a front names one closed part of a closed set. So the basis of a refresh stands for one part of what
/// was known.
pub fn fronts_name_one_part()
    ensures { FrontIsOfOne }
{}

/// Law: say that each log has a key of its own, each judged head that was met was made by its log's agent,
/// and there is no hash collision. Then what an agent knows of a log is the beginning of the one chain that
/// the log's keeper names.
pub fn there_is_one_truth()
    ensures { OneTruth }
{}

/// Laws: a session that begins in a world that satisfies the invariant satisfies its own. So the line that
/// opens a session preserves the invariant.
pub fn calls_begin()
    ensures begin { CallsBegin }
    ensures open { OpenLineKeeps }
{}

/// Laws: a turn that was answered preserves the invariant of its world and its session, and is on the replay
/// of a closed set of verified records. One that was refused preserves them too, and its session begins
/// again.
pub fn turns_keep()
    ensures answered { AnsweredTurnsKeep }
    ensures refused { RefusedTurnsKeep }
{}

/// Laws: many steps of a session in progress, and all up to its end, preserve the invariant, and each turn in
/// them is on the replay. The lines by which sessions go on preserve it too, and the headline holds of them.
pub fn lines_of_calls_keep()
    ensures many { ManyStepsKeep }
    ensures all { AllStepsKeep }
    ensures lines { CallLinesKeep }
{}

/// Laws: a line that goes on has the effects of its command: one, or one and then a later one. And it shows
/// what its command may show.
pub fn lines_have_effects()
    ensures effects { LinesHaveEffects }
    ensures texts { LinesShowTexts }
{}

/// Law: in a command by which no session goes on no turn is had, whatever the world.
pub fn other_lines_have_no_turn()
    ensures { OthersHaveNoTurn }
{}

/// Laws (the step is total): in a world that some ghost state fits, each open session can be brought to its
/// end, and each line has an outcome. The outcome is one and the same whichever ghost state fits. So each
/// script has a run.
pub fn each_line_is_total()
    ensures sessions { EachSessionEnds }
    ensures lines { EachLineIsTotal }
    ensures scripts { EachScriptHasARun }
{}

/// Laws: a turn leaves an agent that may be saved, if it was one that may be, and what it saves may be saved.
/// A line that makes no snapshot leaves a world without one, if there was none.
pub fn no_snapshot_comes()
    ensures saved { TurnsAreSaved }
    ensures lines { NoSnapshotComes }
{}

/// Law: what an agent holds has a spelling as a snapshot, if what it knows is closed.
pub fn held_is_spelled()
    ensures { HeldIsSpelled }
{}

/// Laws: the line that makes a snapshot preserves the invariant, and so does a snapshot that was made and whose
/// blocks aren't published yet.
pub fn snap_lines_keep()
    ensures lines { SnapLinesKeep }
    ensures snapshots { SnapshotsKeep }
{}

/// Laws: each step preserves the invariant of its world and session, and a turn in it is on the replay. Each
/// line preserves the invariant. The headline holds of each line in a world that satisfies it, and of each
/// line of a run from there.
pub fn headline_holds()
    ensures steps { StepsKeep }
    ensures headline { HeadlineHolds }
    ensures lines { LinesKeep }
    ensures runs { EachReplyIsOnReplay }
{}

/// Laws (determinism): if memory doesn't run out and there is no hash collision, a step of a session in
/// progress leads to one world, ghost state and session. So do many steps, and all up to the end. What a
/// participant publishes alone leads to one world in any case.
pub fn session_steps_are_deterministic()
    ensures step { SessionStepsAreDeterministic }
    ensures many { ManyStepsAreDeterministic }
    ensures all { SessionEndsAreDeterministic }
    ensures publishing { PublishingIsDeterministic }
{}

/// Laws (determinism): if memory didn't run out and nothing met collides, a line leads to one world with one
/// ghost state and shows one thing. So each script has at most one run in which that is so.
pub fn lines_are_deterministic()
    ensures lines { StepsAreDeterministic }
    ensures runs { FullRunsAreUnique }
{}

/// Laws: a refresh wants something finitely often, whatever comes of it, also with hash collisions. A
/// snapshot's lists are over lists of lower levels, each record that comes is below the one before, and heads
/// come once for each log.
///
/// So a session in progress that refreshes has steps, in none of which memory runs out, to where its refresh
/// is finished or has failed.
///
/// Say that a refresh is finished, that there is no hash collision, and that its turn exists. Then the next
/// step exists, and memory doesn't run out in it. So the session reaches its end with memory there, unless
/// names clash or a turn doesn't exist.
pub fn refreshes_end()
    ensures wants { RefreshesEnd }
    ensures runs { RefreshesRunOut }
    ensures step { DoneRefreshesStep }
    ensures sessions { SessionsGoFully }
{}

/// Laws: say that a message is bytes, and that there is no hash collision. Then a finished refresh has a
/// turn: it is behind or below the tide, or there is what it takes, and it replies or writes. The premise is
/// that the agent has room for more posts.
///
/// So a session in progress that refreshes reaches its end with memory there, or names clash on the way.
pub fn turns_exist()
    ensures turns { TurnsExist }
    ensures sessions { SessionsGoToTheirEnds }
    ensures ends { SessionsEndOrClash }
{}

/// Laws: an agent has no more to publish than one record of each number, a head, and blocks of snapshots, of
/// which no two are equal. So it has room for more, unless more was met than a line may go on with.
pub fn there_is_room()
    ensures empty { EmptyPublishesFew }
    ensures lines { FewPostsCome }
    ensures room { ThereIsRoom }
{}

/// Law: without a hash collision, and where no more was met than a line may go on with, what would be saved of a
/// snapshot has fewer posts than a word counts.
pub fn snapshots_are_few()
    ensures { SnapshotsAreFew }
{}

/// Laws: the blocks met are bytes, since a line leaves that so. Then, without a hash collision and where no
/// more was met than a line may go on with, what is to be saved of a snapshot has a spelling.
///
/// So a line that is to make a snapshot shows that it failed only where an earlier save of the participant's
/// failed, or this one fails. So it is of each such line of a script, where no names of what was met before
/// it collide.
pub fn snapshots_can_be_saved()
    ensures empty { EmptyMetBytes }
    ensures lines { MetBytesCome }
    ensures saved { SnapshotsCanBeSaved }
    ensures fails { SnapshotsFailBySaves }
    ensures scripts { ScriptsSaveSnapshots }
{}

/// Laws, without a hash collision among the blocks met: what replies gave to later lines, and what open
/// sessions were sent and will reply, is bytes. So is what a line sends, by the spelling of its pieces.
pub fn replies_are_bytes()
    ensures empty { EmptyHasBytes }
    ensures messages { MessagesAreBytes }
    ensures lines { BytesCome }
{}

/// Laws: say that a world satisfies the invariant, its agents have room unless too much was met, and its replies
/// are bytes. Then a line has an outcome in which memory didn't run out, or one that meets blocks among which
/// names clash.
///
/// So each script has exactly one run of this kind. Memory never runs out in it and no names clash; or that is
/// so up to a line that meets blocks among which names clash.
pub fn scripts_run_fully()
    ensures lines { FullLines }
    ensures scripts { FullScripts }
    ensures starts { FullStarts }
{}

/// Law: of each outcome of a line in a world that satisfies the invariant one of three holds. Memory didn't
/// run out and nothing met clashes; or memory ran out for a call; or names clash.
pub fn memory_is_decided()
    ensures { MemoryIsDecided }
{}

/// Laws: each message is a call of one meaning, a call of another version of RPC, or no call. In each view it
/// has one reply by itself, which may be none, or it asks one thing of a turn.
pub fn messages_are_unambiguous()
    ensures is { EachMessageIsOne }
    ensures becomes { EachMessageBecomesOne }
{}
