//! What holds of lines and of runs.

ghost use Rattle.stage_laws.specs.FullRuns.{RunsTellOfMemory};
ghost use Rattle.stage_laws.specs.Laws.{
  FirstKeepsAll,
  LinesAreTotal,
  LinesHaveHeadline,
  LinesKeepAll,
  LongLinesStop,
  RunsHaveHeadline,
};
ghost use Rattle.stage_laws.specs.Misled.{NoTurnIsMisled};
ghost use Rattle.stage_laws.specs.Promise.{LinesPromise, PromisedIsTotal, PromisedKeeps, PromisedLongLinesStop};
ghost use Rattle.stage_laws.specs.Statuses.{AnswersAreByTree, FinishesAreByTree, PlansAreByTree, TurnsRefuseSo};

/// Laws and no code: a script begins in a world in which the invariant holds; each line that goes on leaves
/// such a world, each has an outcome in such a world, and one that is too long doesn't go on.
pub fn lines_keep_all()
    ensures begins { FirstKeepsAll }
    ensures keeps { LinesKeepAll }
    ensures does { LinesAreTotal }
    ensures stops { LongLinesStop }
{}

/// Laws and no code: in such a world the headline holds of each line, and so of each line of a run.
pub fn runs_have_headline()
    ensures lines { LinesHaveHeadline }
    ensures runs { RunsHaveHeadline }
{}

/// Laws and no code: in a run memory was always there, and no names of what was met collide; or it comes to a
/// line where memory ran out for a call, or names clash. That each script has one run of the first kind, or
/// names clash on its way, is a law of `world_laws`.
pub fn runs_tell_of_memory()
    ensures tell { RunsTellOfMemory }
{}

/// Law and no code: in a run from the beginning in which no line makes a snapshot no refresh is misled: not
/// that of a turn that was had, nor that of an open session. The premise is that no two different blocks that
/// were met before have one name.
pub fn no_turn_is_misled()
    ensures { NoTurnIsMisled }
{}

/// Laws and no code: what is promised of a line holds of each line from such a world: the headline, that calm
/// scripts are served, why a reply has a status that no tree gives, that a refresh which was given all ends
/// in a turn, and what stands before and after the line. So the step with its promise leads on to such
/// worlds, each line has an outcome by it, and one that is too long doesn't go on.
pub fn lines_are_promised()
    ensures promises { LinesPromise }
    ensures keeps { PromisedKeeps }
    ensures does { PromisedIsTotal }
    ensures stops { PromisedLongLinesStop }
{}

/// Laws and no code: what is answered, planned and finished on a tree is never refused with IO (5), ROFS
/// (30), SERVERFAULT (10006) or JUKEBOX (10008). So a turn refuses by its trees; or with ROFS, where no
/// signature or number is left for the operations that it plans; or with SERVERFAULT, where its keeper has
/// failed since its start.
pub fn trees_refuse_by_themselves()
    ensures answers { AnswersAreByTree }
    ensures plans { PlansAreByTree }
    ensures finishes { FinishesAreByTree }
    ensures turns { TurnsRefuseSo }
{}
