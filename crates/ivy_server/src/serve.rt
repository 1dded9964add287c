//! A link, from its first byte to its end.

ghost use Rattle.std.specs.Prelude.{◌≡◌, ◌≢◌, ◌≤◌, ℕ, List, [], ◌∷◌, ◌++◌, length, true, Option, None, IfOk, IfSome, IsSomeAnd};
ghost use Rattle.dhash_model.specs.Signed.{hss_judged};
ghost use Rattle.rpc_wire.specs.Frames.{header};
ghost use Rattle.server_model.specs.Links.{HasRead};
ghost use Rattle.ivy_server.specs.Passes.{by_passes, passes};
ghost use Rattle.ivy_server.specs.Served.{IsServed, Surroundings};
ghost use Rattle.ivy_server.specs.Sessions.{place_of, server_of};
ghost use Rattle.ivy_server.specs.Streams.{HasReadPiece, HasSent, HasServedOne, HasServedPiece, IsBetween, IsOnAfter, IsServing, end_for, piece_end, piece_last};

use crate::message::{Outcome, serve_message};
use block_cache::BlockCache;
use dht_ids::{Mesh, Peers};
use hss_keys::Signs;
use ivy_agent::Turns;
use ivy_base::Bytes;
use ivy_io::{Clock, Failed, Keeper, Sink, SinkFault, Source, write_all};
use rpc_wire::{FrameFault, FrameReader};
use server_model::Ended;
use std::alloc::{AllocError, Global};
use std::sync::Wait;

/// How many bytes are read at once.
const PIECE: usize = 65_536;

/// The bit of a fragment's header that tells the last one of a message (RFC 5531, section 11).
const LAST: u32 = 0x8000_0000;

/// What a read brought.
#[derive(Clone, Copy)]
pub(crate) enum Piece {
    /// A further piece of the stream.
    Fed,
    /// A further piece, in which a message is too long.
    TooLong,
    /// The source is at its end, between messages.
    End,
    /// The source is at its end, inside a message.
    CutOff,
    /// The source failed.
    Fault,
    /// Running out of memory for the piece.
    Memory,
}

/// Serves the calls of a link, one after the other, until it ends. The pass comes to agents in one view, and the mesh has
/// nodes. Each turn is at a moment that the clock gave for it, before the agent is waited for. The pass is given back.
pub fn serve_session<
    R: Wait,
    K: Keeper,
    S: Signs + Drop,
    T: Turns<K, S>,
    M: Mesh,
    Q: Source,
    W: Sink,
    C: Clock,
>(
    rt: &R,
    alloc: Global,
    turns: &T,
    pass: T::Pass,
    mesh: &mut M,
    source: &mut Q,
    sink: &mut W,
    clock: &mut C,
) -> (Ended, T::Pass)
    requires fits { T.fits turns.now pass }
    requires view { IsSomeAnd (T.view turns.now pass) (λ view. Unit {0}) }
    requires nodes { M.made mesh.old ≢ [] }
    ensures fits { T.fits turns.now result.1 }
    ensures view { T.view turns.now result.1 ≡ T.view turns.now pass }
    ensures owners { M.owners_of_a_key mesh.new ≡ M.owners_of_a_key mesh.old }
    ensures made { M.made mesh.new ≡ M.made mesh.old }
    ensures served { IsServed (record {
      taker = by_passes (passes S.signing S.is_whole K.saves (T.comes turns.now) (T.leaves turns.now));
      ring = record { judged = hss_judged; replicas = M.owners_of_a_key mesh.old; entries = M.made mesh.old };
      gives = C.gives;
    })
        (record {
          left = Q.left source.old;
          held = W.contents sink.old;
          reads = Q.faults source.old;
          writes = W.faults sink.old;
          pass = pass;
          marks = record { made = T.made turns.now pass; trail = M.trail mesh.old; clock = clock.old };
        })
        (record {
          left = Q.left source.new;
          held = W.contents sink.new;
          reads = Q.faults source.new;
          writes = W.faults sink.new;
          pass = result.1;
          marks = record { made = T.made turns.now result.1; trail = M.trail mesh.new; clock = clock.new };
        })
        result.0 }
{
    let mut pass = pass;
    let how = serve_pieces(rt, alloc, turns, &mut pass, mesh, source, sink, clock);
    (how, pass)
}

/// Serves a link piece by piece.
fn serve_pieces<
    R: Wait,
    K: Keeper,
    S: Signs + Drop,
    T: Turns<K, S>,
    M: Mesh,
    Q: Source,
    W: Sink,
    C: Clock,
>(
    rt: &R,
    alloc: Global,
    turns: &T,
    pass: &mut T::Pass,
    mesh: &mut M,
    source: &mut Q,
    sink: &mut W,
    clock: &mut C,
) -> Ended
    requires fits { T.fits turns.now pass.old }
    requires view { IsSomeAnd (T.view turns.now pass.old) (λ view. Unit {0}) }
    requires nodes { M.made mesh.old ≢ [] }
    ensures fits { T.fits turns.now pass.new }
    ensures view { T.view turns.now pass.new ≡ T.view turns.now pass.old }
    ensures owners { M.owners_of_a_key mesh.new ≡ M.owners_of_a_key mesh.old }
    ensures made { M.made mesh.new ≡ M.made mesh.old }
    ensures served { IsServed (server_of (record {
      by = passes S.signing S.is_whole K.saves (T.comes turns.now) (T.leaves turns.now);
      gives = C.gives;
      place = place_of (M.owners_of_a_key mesh.old) (M.made mesh.old) (T.view turns.now pass.old);
    }))
        (record {
          left = Q.left source.old;
          held = W.contents sink.old;
          reads = Q.faults source.old;
          writes = W.faults sink.old;
          pass = pass.old;
          marks = record { made = T.made turns.now pass.old; trail = M.trail mesh.old; clock = clock.old };
        })
        (record {
          left = Q.left source.new;
          held = W.contents sink.new;
          reads = Q.faults source.new;
          writes = W.faults sink.new;
          pass = pass.new;
          marks = record { made = T.made turns.now pass.new; trail = M.trail mesh.new; clock = clock.new };
        })
        result }
{
    let Ok(mut cache) = BlockCache::new(alloc) else {
        return Ended::Memory;
    };
    let Ok(entries) = mesh.entries(alloc) else {
        return Ended::Memory;
    };
    let Ok(mut piece) = vec![in alloc; 0u8; PIECE] else {
        return Ended::Memory;
    };
    serve_all(
        rt,
        alloc,
        turns,
        pass,
        mesh,
        &mut cache,
        &entries,
        piece.as_mut_slice(),
        source,
        sink,
        clock,
    )
}

/// Serves a link piece by piece, with room for a piece.
fn serve_all<
    R: Wait,
    K: Keeper,
    S: Signs + Drop,
    T: Turns<K, S>,
    M: Mesh,
    Q: Source,
    W: Sink,
    C: Clock,
>(
    rt: &R,
    alloc: Global,
    turns: &T,
    pass: &mut T::Pass,
    mesh: &mut M,
    cache: &mut BlockCache,
    entries: &Peers,
    piece: &mut [u8],
    source: &mut Q,
    sink: &mut W,
    clock: &mut C,
) -> Ended
    requires fits { T.fits turns.now pass.old }
    requires view { IsSomeAnd (T.view turns.now pass.old) (λ view. Unit {0}) }
    requires nodes { M.made mesh.old ≢ [] }
    requires cache { cache.old ≡ [] }
    requires entries { entries.now ≡ M.made mesh.old }
    requires room { length piece.old ≡ 65536 }
    ensures fits { T.fits turns.now pass.new }
    ensures view { T.view turns.now pass.new ≡ T.view turns.now pass.old }
    ensures owners { M.owners_of_a_key mesh.new ≡ M.owners_of_a_key mesh.old }
    ensures made { M.made mesh.new ≡ M.made mesh.old }
    ensures served { IsServed (server_of (record {
      by = passes S.signing S.is_whole K.saves (T.comes turns.now) (T.leaves turns.now);
      gives = C.gives;
      place = place_of (M.owners_of_a_key mesh.old) (M.made mesh.old) (T.view turns.now pass.old);
    }))
        (record {
          left = Q.left source.old;
          held = W.contents sink.old;
          reads = Q.faults source.old;
          writes = W.faults sink.old;
          pass = pass.old;
          marks = record { made = T.made turns.now pass.old; trail = M.trail mesh.old; clock = clock.old };
        })
        (record {
          left = Q.left source.new;
          held = W.contents sink.new;
          reads = Q.faults source.new;
          writes = W.faults sink.new;
          pass = pass.new;
          marks = record { made = T.made turns.now pass.new; trail = M.trail mesh.new; clock = clock.new };
        })
        result }
{
    let mut frames = FrameReader::new(alloc);
    'pieces: for _ in rt.forever() {
        let ended = serve_piece(
            rt,
            alloc,
            turns,
            pass,
            mesh,
            cache,
            entries,
            &mut frames,
            piece,
            source,
            sink,
            clock,
        );
        if let Some(how) = ended {
            return how;
        }
    }
    unreachable!()
}

/// Reads a piece, and serves the messages that it brings. None is that the link goes on.
fn serve_piece<
    R: Wait,
    K: Keeper,
    S: Signs + Drop,
    T: Turns<K, S>,
    M: Mesh,
    Q: Source,
    W: Sink,
    C: Clock,
>(
    rt: &R,
    alloc: Global,
    turns: &T,
    pass: &mut T::Pass,
    mesh: &mut M,
    cache: &mut BlockCache,
    entries: &Peers,
    frames: &mut FrameReader,
    piece: &mut [u8],
    source: &mut Q,
    sink: &mut W,
    clock: &mut C,
) -> Option<Ended>
    requires fits { T.fits turns.now pass.old }
    requires view { IsSomeAnd (T.view turns.now pass.old) (λ view. Unit {0}) }
    requires nodes { M.made mesh.old ≢ [] }
    requires entries { entries.now ≡ M.made mesh.old }
    requires room { length piece.old ≡ 65536 }
    ensures fits { T.fits turns.now pass.new }
    ensures view { T.view turns.now pass.new ≡ T.view turns.now pass.old }
    ensures owners { M.owners_of_a_key mesh.new ≡ M.owners_of_a_key mesh.old }
    ensures made { M.made mesh.new ≡ M.made mesh.old }
    ensures room { length piece.new ≡ length piece.old }
    ensures served { (start : Surroundings T.Pass C) → IsOnAfter (record {
      by = passes S.signing S.is_whole K.saves (T.comes turns.now) (T.leaves turns.now);
      gives = C.gives;
      place = place_of (M.owners_of_a_key mesh.old) (M.made mesh.old) (T.view turns.now pass.old);
    })
        start (record {
          left = Q.left source.old;
          held = W.contents sink.old;
          reads = Q.faults source.old;
          writes = W.faults sink.old;
          pass = pass.old;
          marks = record { made = T.made turns.now pass.old; trail = M.trail mesh.old; clock = clock.old };
        })
        cache.old frames.old
        → HasServedPiece (record {
          by = passes S.signing S.is_whole K.saves (T.comes turns.now) (T.leaves turns.now);
          gives = C.gives;
          place = place_of (M.owners_of_a_key mesh.old) (M.made mesh.old) (T.view turns.now pass.old);
        })
        start (record {
          left = Q.left source.new;
          held = W.contents sink.new;
          reads = Q.faults source.new;
          writes = W.faults sink.new;
          pass = pass.new;
          marks = record { made = T.made turns.now pass.new; trail = M.trail mesh.new; clock = clock.new };
        })
        cache.new frames.new result }
{
    let read = read_piece(alloc, source, frames, piece);
    if let Some(how) = end_of(&read) {
        return Some(how);
    }
    let ended = serve_waiting(
        rt, alloc, turns, pass, mesh, cache, entries, frames, sink, clock,
    );
    if let Some(how) = ended {
        return Some(how);
    }
    end_behind(&read)
}

/// How a link ends once all messages in front of what was read are served, and None where it goes on.
fn end_behind(read: &Piece) -> Option<Ended>
    ensures { result ≡ piece_last read.now }
{
    match read {
        Piece::TooLong => Some(Ended::TooLong),
        _ => None,
    }
}

/// How a link ends where no message more can be served, and None where some may wait.
fn end_of(read: &Piece) -> Option<Ended>
    ensures { result ≡ piece_end read.now }
{
    match read {
        Piece::Fed | Piece::TooLong => None,
        Piece::End => Some(Ended::Done),
        Piece::CutOff => Some(Ended::Cut),
        Piece::Fault => Some(Ended::ReadFault),
        Piece::Memory => Some(Ended::Memory),
    }
}

/// Reads a piece, and hands it to the frames.
fn read_piece<Q: Source>(
    alloc: Global,
    source: &mut Q,
    frames: &mut FrameReader,
    piece: &mut [u8],
) -> Piece
    requires { length piece.old ≡ 65536 }
    ensures read { (read : List ℕ) (taken : List (List ℕ)) → IsBetween read taken frames.old
        → HasReadPiece (record { left = Q.left source.old; faults = Q.faults source.old }) (record { left = Q.left source.new; faults = Q.faults source.new })
        read taken frames.new result }
    ensures later { Q.faults source.old ≤ Q.faults source.new }
    ensures room { length piece.new ≡ length piece.old }
{
    match source.read(piece) {
        Err(Failed) => Piece::Fault,
        Ok(0) => match frames.finish() {
            Ok(()) => Piece::End,
            Err(_) => Piece::CutOff,
        },
        Ok(count) => match frames.feed(alloc, &piece[..count]) {
            Ok(()) => Piece::Fed,
            Err(FrameFault::TooLong) => Piece::TooLong,
            Err(FrameFault::Memory) => Piece::Memory,
        },
    }
}

/// Serves the messages that wait, up to the first with which the link ends. None is that all were served.
fn serve_waiting<R: Wait, K: Keeper, S: Signs + Drop, T: Turns<K, S>, M: Mesh, W: Sink, C: Clock>(
    rt: &R,
    alloc: Global,
    turns: &T,
    pass: &mut T::Pass,
    mesh: &mut M,
    cache: &mut BlockCache,
    entries: &Peers,
    frames: &mut FrameReader,
    sink: &mut W,
    clock: &mut C,
) -> Option<Ended>
    requires fits { T.fits turns.now pass.old }
    requires view { IsSomeAnd (T.view turns.now pass.old) (λ view. Unit {0}) }
    requires nodes { M.made mesh.old ≢ [] }
    requires entries { entries.now ≡ M.made mesh.old }
    ensures fits { T.fits turns.now pass.new }
    ensures view { T.view turns.now pass.new ≡ T.view turns.now pass.old }
    ensures owners { M.owners_of_a_key mesh.new ≡ M.owners_of_a_key mesh.old }
    ensures made { M.made mesh.new ≡ M.made mesh.old }
    ensures waiting { result ≡ None → (frames.new.waiting ≡ []) × (frames.new.part ≡ frames.old.part) }
    ensures served { (start : Surroundings T.Pass C) (left : Option (List ℕ)) (reads : ℕ) (read : List ℕ) (taken : List (List ℕ))
        → IsServing (record {
          by = passes S.signing S.is_whole K.saves (T.comes turns.now) (T.leaves turns.now);
          gives = C.gives;
          place = place_of (M.owners_of_a_key mesh.old) (M.made mesh.old) (T.view turns.now pass.old);
        })
        start (record {
          left = left;
          held = W.contents sink.old;
          reads = reads;
          writes = W.faults sink.old;
          pass = pass.old;
          marks = record { made = T.made turns.now pass.old; trail = M.trail mesh.old; clock = clock.old };
        })
        cache.old read taken
        → HasRead read (taken ++ frames.old.waiting)
        → HasServedOne (record {
          by = passes S.signing S.is_whole K.saves (T.comes turns.now) (T.leaves turns.now);
          gives = C.gives;
          place = place_of (M.owners_of_a_key mesh.old) (M.made mesh.old) (T.view turns.now pass.old);
        })
        start (record {
          left = left;
          held = W.contents sink.new;
          reads = reads;
          writes = W.faults sink.new;
          pass = pass.new;
          marks = record { made = T.made turns.now pass.new; trail = M.trail mesh.new; clock = clock.new };
        })
        cache.new read (taken ++ frames.old.waiting) result }
{
    'messages: while let Some(message) = frames.take() {
        let ended = serve_next(
            rt, alloc, turns, pass, mesh, cache, entries, &message, sink, clock,
        );
        if let Some(how) = ended {
            return Some(how);
        }
    }
    None
}

/// Serves a message, and writes its reply. None is that the link goes on.
fn serve_next<R: Wait, K: Keeper, S: Signs + Drop, T: Turns<K, S>, M: Mesh, W: Sink, C: Clock>(
    rt: &R,
    alloc: Global,
    turns: &T,
    pass: &mut T::Pass,
    mesh: &mut M,
    cache: &mut BlockCache,
    entries: &Peers,
    message: &Bytes,
    sink: &mut W,
    clock: &mut C,
) -> Option<Ended>
    requires fits { T.fits turns.now pass.old }
    requires view { IsSomeAnd (T.view turns.now pass.old) (λ view. Unit {0}) }
    requires nodes { M.made mesh.old ≢ [] }
    requires entries { entries.now ≡ M.made mesh.old }
    ensures fits { T.fits turns.now pass.new }
    ensures view { T.view turns.now pass.new ≡ T.view turns.now pass.old }
    ensures owners { M.owners_of_a_key mesh.new ≡ M.owners_of_a_key mesh.old }
    ensures made { M.made mesh.new ≡ M.made mesh.old }
    ensures served { (start : Surroundings T.Pass C) (left : Option (List ℕ)) (reads : ℕ) (read : List ℕ) (taken : List (List ℕ))
        → IsServing (record {
          by = passes S.signing S.is_whole K.saves (T.comes turns.now) (T.leaves turns.now);
          gives = C.gives;
          place = place_of (M.owners_of_a_key mesh.old) (M.made mesh.old) (T.view turns.now pass.old);
        })
        start (record {
          left = left;
          held = W.contents sink.old;
          reads = reads;
          writes = W.faults sink.old;
          pass = pass.old;
          marks = record { made = T.made turns.now pass.old; trail = M.trail mesh.old; clock = clock.old };
        })
        cache.old read taken
        → HasRead read (taken ++ message.now ∷ [])
        → HasServedOne (record {
          by = passes S.signing S.is_whole K.saves (T.comes turns.now) (T.leaves turns.now);
          gives = C.gives;
          place = place_of (M.owners_of_a_key mesh.old) (M.made mesh.old) (T.view turns.now pass.old);
        })
        start (record {
          left = left;
          held = W.contents sink.new;
          reads = reads;
          writes = W.faults sink.new;
          pass = pass.new;
          marks = record { made = T.made turns.now pass.new; trail = M.trail mesh.new; clock = clock.new };
        })
        cache.new read (taken ++ message.now ∷ []) result }
{
    match serve_message(rt, alloc, turns, pass, mesh, cache, entries, clock, message) {
        Outcome::Reply(reply, is_cut) => end_by(send(alloc, sink, reply.as_slice()), is_cut),
        Outcome::NotACall => Some(Ended::NotACall),
        Outcome::Memory => Some(Ended::Memory),
    }
}

/// How a link ends once a reply was sent, or not, of a session that was cut or not.
fn end_by(sent: Result<(), SinkFault>, is_cut: bool) -> Option<Ended>
    ensures { result ≡ end_for sent is_cut }
{
    match sent {
        Ok(()) if is_cut => Some(Ended::Memory),
        Ok(()) => None,
        Err(SinkFault::Failed) => Some(Ended::WriteFault),
        Err(SinkFault::Memory) => Some(Ended::Memory),
    }
}

/// Writes a reply as one fragment: in one write, and only where there is no memory for that in two.
fn send<W: Sink>(alloc: Global, sink: &mut W, reply: &[u8]) -> Result<(), SinkFault>
    ensures { HasSent reply.now result (record { held = W.contents sink.old; faults = W.faults sink.old })
        (record { held = W.contents sink.new; faults = W.faults sink.new }) }
{
    let Some(header) = header_of(reply.len()) else {
        return Err(SinkFault::Memory);
    };
    match joined(alloc, &header[..], reply) {
        Ok(fragment) => write_all(sink, fragment.as_slice()),
        Err(_) => write_both(sink, &header[..], reply),
    }
}

/// Writes a fragment's header, and then its bytes.
fn write_both<W: Sink>(sink: &mut W, front: &[u8], reply: &[u8]) -> Result<(), SinkFault>
    requires { front.now ≡ header true (length reply.now) }
    ensures { HasSent reply.now result (record { held = W.contents sink.old; faults = W.faults sink.old })
        (record { held = W.contents sink.new; faults = W.faults sink.new }) }
{
    match write_all(sink, front) {
        Ok(()) => write_all(sink, reply),
        Err(fault) => Err(fault),
    }
}

/// The header of a reply's fragment. None is that the reply is longer than a fragment, which none is.
fn header_of(length: usize) -> Option<[u8; 4]>
    ensures { IfSome result (λ bytes. bytes ≡ header true length) }
{
    let length = u32::try_from(length).ok()?;
    let header = LAST.checked_add(length)?;
    Some(header.to_be_bytes())
}

/// Both, one after the other. The error is: out of memory.
fn joined(alloc: Global, header: &[u8], reply: &[u8]) -> Result<Vec<u8>, AllocError>
    ensures { IfOk result (λ bytes. bytes.items ≡ header.now ++ reply.now) }
{
    let mut bytes = header.to_vec(alloc)?;
    bytes.extend_from_slice(reply)?;
    Ok(bytes)
}
