//! What is told of an ask.

ghost use Rattle.std.specs.Prelude.{◌≡◌, ◌∷◌, [], IfOk, OnErr};
ghost use Rattle.dht_ids.specs.Asked.{IsForData, told};
ghost use Rattle.world_mesh.specs.Answers.{IsOfRead};

use dht_ids::{Answer, Ask, AskKind, Heard, Peer};
use ivy_base::{Memory, name_of};
use std::alloc::Global;

/// A copy of an answer. The error is: out of memory, and it comes only where the answer is none to a put, nor silence.
pub(crate) fn copy_of(alloc: Global, answer: &Answer) -> Result<Answer, Memory>
    ensures copy { IfOk result (λ copy. copy ≡ answer.now) }
    ensures reads { OnErr result (IsOfRead answer.now) }
{
    match answer {
        Answer::Stored => Ok(Answer::Stored),
        Answer::Refused(fault) => Ok(Answer::Refused(*fault)),
        Answer::Silent => Ok(Answer::Silent),
        _ => answer.copy(alloc),
    }
}

/// The entry of a trail that tells of an ask for data and its answer.
pub(crate) fn entry_of(node: &Peer, ask: &Ask, got: Answer) -> Heard
    requires { IsForData ask.now }
    ensures { told node.now ask.now got ≡ result ∷ [] }
{
    let (kind, key, put) = match ask {
        Ask::Route(key) => (AskKind::Route, *key, None),
        Ask::Get(key) => (AskKind::Get, *key, None),
        Ask::PutBlock(key, bytes) => (AskKind::PutBlock, *key, Some(name_of(bytes.as_slice()))),
        Ask::PutHead(key, bytes) => (AskKind::PutHead, *key, Some(name_of(bytes.as_slice()))),
        Ask::Near | Ask::Notify(_) => unreachable!(),
    };
    Heard {
        node: *node,
        kind,
        key,
        put,
        got,
    }
}
