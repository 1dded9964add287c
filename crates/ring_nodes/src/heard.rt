//! What was heard of an ask.

ghost use Rattle.std.specs.Prelude.{◌≡◌, ◌≢◌, MatchBool};
ghost use Rattle.dht_ids.specs.declared.ask.Answer.TheVariants as answer;

use dht_ids::Answer;

/// Whether no answer came.
pub(crate) fn is_silent(heard: &Answer) -> bool
    ensures { MatchBool result (heard.now ≡ answer.Silent) (heard.now ≢ answer.Silent) }
{
    matches!(heard, Answer::Silent)
}
