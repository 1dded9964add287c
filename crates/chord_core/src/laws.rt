//! What holds of look-ups by what nodes answer.

ghost use Rattle.chord_core.specs.Laws.{AnswersAreFates, AnswersLeadToOwners, FewNodesAnswer};

/// Laws of look-ups by what [`Node::answer`](crate::Node::answer) gives, for nodes each of which knows one peer at a
/// place: they are look-ups of `ring_model`, so that all its laws hold of them; in a covered ring they find the owners,
/// and in a settled one soon.
pub fn answer_laws()
    ensures fates { AnswersAreFates }
    ensures finds { AnswersLeadToOwners }
    ensures short { FewNodesAnswer }
{}
