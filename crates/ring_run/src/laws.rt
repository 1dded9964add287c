//! What an ask of a live ring tells.

ghost use Rattle.std.specs.Prelude.{ℕ, List};
ghost use Rattle.std.specs.declared.option.Option.{Option};
ghost use Rattle.ivy_base.specs.declared.key.Key.{Key};
ghost use Rattle.dht_ids.specs.declared.ask.Answer.{Answer};
ghost use Rattle.dht_ids.specs.declared.judge.Judged.{Judged};
ghost use Rattle.dht_ids.specs.declared.peer.Peer.{Peer};
ghost use Rattle.ring_run.specs.Live.{LiveState};
ghost use Rattle.ring_run.specs.Laws.{AnswersAreOfTheForm, NotJudgedIsByBytes, SilenceIsOfTheDead, WrongNamesAreByBytes};

/// Laws of what [`LiveRing::ask`](crate::LiveRing::ask) gives: silence is of peers that don't live, each answer is of the
/// ask's form, and a live node refuses bytes as misnamed or as no head by the bytes alone.
pub fn live_laws()
    ensures silence { (judged : Key → List ℕ → Option Judged) (r : LiveState) (to : Peer) (given : Answer) → SilenceIsOfTheDead judged r to given }
    ensures form { (judged : Key → List ℕ → Option Judged) (r : LiveState) (to : Peer) (given : Answer) → AnswersAreOfTheForm judged r to given }
    ensures names { (judged : Key → List ℕ → Option Judged) (r : LiveState) (to : Peer) (given : Answer) → WrongNamesAreByBytes judged r to given }
    ensures heads { (judged : Key → List ℕ → Option Judged) (r : LiveState) (to : Peer) (given : Answer) → NotJudgedIsByBytes judged r to given }
{}
