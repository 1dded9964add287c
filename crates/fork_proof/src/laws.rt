//! Laws of fork proofs.

ghost use Rattle.fork_proof.specs.Laws.{ForksAreForks, ProofsAreUnambiguous, ShownIsNotRefused, FoundIsUnique, FoundIsShown, FoundIsFirst, FoundIsNotRefused};

/// Laws and no code. What is shown is a fork: of any two histories of the log up to its heads neither begins the other,
/// unless two different blocks share a name. Bytes are of one proof. And a proof of what is shown is refused only because
/// memory ran out.
pub fn forks_are_forks()
    ensures forks { ForksAreForks }
    ensures one { ProofsAreUnambiguous }
    ensures accepted { ShownIsNotRefused }
{}

/// Laws and no code. By whatever function the records of blocks are told, one thing is found. It is a proof that shows a fork,
/// and the check of it fails only because memory ran out. Where no names collide, it is the proof of the first two heads that
/// are shown as forked, and nothing is found only where no two are.
pub fn found_forks_are_shown()
    ensures one { FoundIsUnique }
    ensures shown { FoundIsShown }
    ensures first { FoundIsFirst }
    ensures accepted { FoundIsNotRefused }
{}
