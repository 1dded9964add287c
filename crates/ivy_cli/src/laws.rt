//! Laws: what the status in a line means, and what `fork` reads.

ghost use Rattle.ivy_cli.specs.ForkLaws.{ForksAreJudgedAlike, WrittenDigitsAreRead};
ghost use Rattle.ivy_cli.specs.Laws.{ServedCallsShowStatus, RefusedCallsShowNone};

/// A law and no code: the line of the reply to a call that was served shows the status that its results begin with, and that of a
/// call that was refused, as when out of memory (SYSTEM_ERR), shows none (RFC 5531, section 9).
pub fn lines_show_statuses()
    ensures served { ServedCallsShowStatus }
    ensures refused { RefusedCallsShowNone }
{}

/// A law and no code: what `fork` tells of an input, and whether it is refused, is determined by the input.
pub fn forks_are_judged_alike()
    ensures { ForksAreJudgedAlike }
{}

/// A law and no code: the digits that are written of some bytes are read as these bytes, with a newline after them and without
/// one.
pub fn written_digits_are_read()
    ensures { WrittenDigitsAreRead }
{}
