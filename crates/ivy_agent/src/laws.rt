//! What follows for turns from what is served, and for the records that they write.

ghost use Rattle.ivy_agent.specs.Laws.{RepliesWhateverIsSaved, TurnIsServed, WritesArePlanned, WritesAreSaved};
ghost use Rattle.ivy_agent.specs.Appended.{AppendedFront, HeldFront, NewestIsLast, NewestIsReached, PostsAreNamed, WithNewestMayBeCited, WrittenAreGood, WrittenAreNext, WrittenGoBehind, WrittenIsAppended, WrittenIsClosed, WritesMayStand};

/// A law and no code: a turn on a set is what is served on its replay; where that is a reply, the turn gives it whatever
/// would become of a save; and where operations are written, they are planned, and only a save that fails changes the reply.
pub fn turns_are_served()
    ensures turn { TurnIsServed }
    ensures replies { RepliesWhateverIsSaved }
    ensures writes { WritesAreSaved }
    ensures planned { WritesArePlanned }
{}

/// A law and no code: what is to be written may be written; over a front that the agent may cite, its records are good, the
/// next ones of the own log, whose posts are under their names, and go after all that is held, which stays closed. Where all
/// of a set is held, the set with them is held then.
pub fn written_records_go_on()
    ensures may_stand { WritesMayStand }
    ensures good { WrittenAreGood }
    ensures next { WrittenAreNext }
    ensures posts { PostsAreNamed }
    ensures behind { WrittenGoBehind }
    ensures closed { WrittenIsClosed }
    ensures held { WrittenIsAppended }
{}

/// A law and no code: the front of a set, or of what is held, with the records that a turn writes is that front with the
/// newest of them, which is the last one, and has the number to which the own log goes then; it may be cited as before.
pub fn fronts_have_the_newest()
    ensures appended { AppendedFront }
    ensures held { HeldFront }
    ensures last { NewestIsLast }
    ensures reached { NewestIsReached }
    ensures cited { WithNewestMayBeCited }
{}
