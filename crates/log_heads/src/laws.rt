//! The law of signed heads, without code that runs.

ghost use Rattle.log_heads.specs.Signed.{SignedHeadsAreJudged};

/// A law and no code: [`crate::HssJudge`] takes each head under its owner's key whose signature is accepted, and nothing
/// else.
pub fn signed_heads_are_judged()
    ensures { SignedHeadsAreJudged }
{}
