//! The commands of a script, as data.

ghost use Rattle.std.specs.Prelude.{◌≡◌};

use hash_signature_model::Set;
use ivy_base::{Bytes, Key};
use std::marker::Model;

/// A part of a call's message.
#[derive(Drop)]
pub enum Piece {
    /// These bytes.
    Raw {
        bytes: Bytes,
    },
    /// A number of four bytes.
    Word {
        number: u32,
    },
    /// A number of eight bytes.
    DoubleWord {
        number: u64,
    },
    /// A string of printable ASCII without blanks.
    Text {
        text: Bytes,
    },
    /// Opaque data: so many times one byte.
    Opaque {
        count: u64,
        byte: u8,
    },
    /// New attributes that give a mode and nothing else.
    Mode {
        mode: u32,
    },
    /// The file handle of the root.
    Root,
    /// The file handle that the reply of that number, from 1, made or found.
    HandleOf {
        reply: u64,
    },
    /// The verifier in the reply of that number, from 1.
    VerifierOf {
        reply: u64,
    },
    /// The head of a call: its program, its procedure, and the caller's user, group, and number of further groups.
    Call {
        mount: bool,
        procedure: u32,
        uid: u32,
        gid: u32,
        groups: u64,
    },
}

/// The sets of a key's levels, as words, the top level first.
#[derive(Drop)]
pub struct SetWords {
    sets: Vec<Set>,
}

impl Model for SetWords {
    ghost use Rattle.std.specs.Prelude.{List};
    ghost use Rattle.hash_signature_model.specs.declared.set.Set.{Set};

    ghost Value = { List Set };

    ghost view = { λ s. s.sets.items };
}

impl SetWords {
    /// The sets of a vector, which is not copied.
    pub fn of(sets: Vec<Set>) -> SetWords
        ensures { result ≡ sets.items }
    {
        SetWords { sets }
    }

    /// The sets as a slice.
    pub fn as_slice(&self) -> &[Set]
        ensures { result.now ≡ self.now }
    {
        self.sets.as_slice()
    }
}

/// A block's key, as a line names it.
#[derive(Drop)]
pub enum KeyWord {
    /// The key itself.
    Itself { key: Key },
    /// A log's head key.
    HeadOf { log: Bytes },
    /// The record of that number that the log's agent made.
    RecordOf { log: Bytes, seq: u64 },
    /// A view's block.
    ViewOf { view: Bytes },
    /// The root of the participant's last snapshot.
    SnapshotOf { log: Bytes },
}

/// A node, as a line names it.
#[derive(Drop)]
pub enum NodeWord {
    /// The node of that number.
    Numbered { number: u32 },
    /// The key's owner of that number, from 1, among the live nodes.
    OwnerOf { place: u64, key: KeyWord },
}

/// The pieces of a message in their order, which contracts see as a list.
#[derive(Drop)]
pub struct Pieces {
    pieces: Vec<Piece>,
}

impl Model for Pieces {
    ghost use Rattle.std.specs.Prelude.{List};
    ghost use Rattle.script_model.specs.declared.command.Piece.{Piece};

    ghost Value = { List Piece };

    ghost view = { λ p. p.pieces.items };
}

impl Pieces {
    /// The pieces of a vector, which is not copied.
    pub fn of(pieces: Vec<Piece>) -> Pieces
        ensures { result ≡ pieces.items }
    {
        Pieces { pieces }
    }

    /// The pieces as a slice.
    pub fn as_slice(&self) -> &[Piece]
        ensures { result.now ≡ self.now }
    {
        self.pieces.as_slice()
    }
}

/// Names in a row, which contracts see as the list of their bytes.
#[derive(Drop)]
pub struct Names {
    names: Vec<Bytes>,
}

impl Model for Names {
    ghost use Rattle.std.specs.Prelude.{List, ℕ};

    ghost Value = { List (List ℕ) };

    ghost view = { λ n. n.names.items };
}

impl Names {
    /// The names of a vector, which is not copied.
    pub fn of(names: Vec<Bytes>) -> Names
        ensures { result ≡ names.items }
    {
        Names { names }
    }

    /// The names as a slice.
    pub fn as_slice(&self) -> &[Bytes]
        ensures { result.now ≡ self.now }
    {
        self.names.as_slice()
    }
}

/// What a line shows.
#[derive(Drop)]
pub enum Shown {
    /// `holds NODE`: what a live node holds.
    Holds { node: NodeWord },
    /// `order P`: the records that the participant holds.
    Order { log: Bytes },
    /// `work P`: how many records the participant's last turn applied.
    Work { log: Bytes },
    /// `conflicts P`: which of the records that the participant holds are in conflict.
    Conflicts { log: Bytes },
    /// `proof P`: that the participant's log was signed into two histories.
    Proof { log: Bytes },
}

/// What a line of a script asks for.
pub enum Command {
    /// `ring N R`: makes so many nodes that keep so many replicas.
    Ring {
        nodes: u64,
        replicas: u64,
    },
    /// `log P ID SEED SETS`: makes a log of that name, of the key that grows from these.
    Log {
        log: Bytes,
        id: [u8; 16],
        seed: [u8; 32],
        sets: SetWords,
    },
    /// `view V M F`: makes a view of that name, of the logs M and the former logs F.
    View {
        view: Bytes,
        members: Names,
        former: Names,
    },
    /// `use P V`: the participant enters the view.
    Use {
        log: Bytes,
        view: Bytes,
    },
    /// `at SEC NSEC`: sets the moment.
    At {
        sec: u64,
        nsec: u64,
    },
    /// `as P PIECES`: one whole call of the participant's.
    As {
        log: Bytes,
        pieces: Pieces,
    },
    /// `open S P PIECES`: begins a session.
    Open {
        session: Bytes,
        log: Bytes,
        pieces: Pieces,
    },
    /// `step S K`: so many steps of the session.
    Step {
        session: Bytes,
        count: u64,
    },
    /// `end S`: all remaining steps of the session.
    Finish {
        session: Bytes,
    },
    /// `join I`: a node of that number joins.
    Join {
        node: u32,
    },
    /// `stop NODE`: the node answers nothing from now on.
    Stop {
        node: NodeWord,
    },
    /// `round`: one round of maintenance.
    Round,
    /// `lose K`: the ask of that number from now is lost.
    Lose {
        count: u64,
    },
    /// `damage NODE KEY OFFSET BYTE`: sets that byte of the block that the node holds.
    Damage {
        node: NodeWord,
        key: KeyWord,
        offset: u64,
        byte: u8,
    },
    /// `snap P`: makes a snapshot of what the participant holds.
    Snap {
        log: Bytes,
    },
    /// `restart P`: the participant's agent is restored from its keeper.
    Restart {
        log: Bytes,
    },
    /// `keep P K W`: the save of that number from now fails, and leaves the new bytes or the old ones.
    Keep {
        log: Bytes,
        count: u64,
        new: bool,
    },
    /// Shows something, and changes nothing.
    Show {
        shown: Shown,
    },
    /// An empty line, or one that begins with `#`: does nothing.
    Nothing,
    /// `end`: ends the run.
    End,
}

// Written out, so that whatever drops one calls this and isn't proved over all of its parts once more.
impl Drop for Command {
    fn drop(self) {
        match self {
            Command::Ring {
                nodes: _,
                replicas: _,
            } => {}
            Command::Log {
                log: _,
                id: _,
                seed: _,
                sets: _,
            } => {}
            Command::View {
                view: _,
                members: _,
                former: _,
            } => {}
            Command::Use { log: _, view: _ } => {}
            Command::At { sec: _, nsec: _ } => {}
            Command::As { log: _, pieces: _ } => {}
            Command::Open {
                session: _,
                log: _,
                pieces: _,
            } => {}
            Command::Step {
                session: _,
                count: _,
            } => {}
            Command::Finish { session: _ } => {}
            Command::Join { node: _ } => {}
            Command::Stop { node: _ } => {}
            Command::Lose { count: _ } => {}
            Command::Damage {
                node: _,
                key: _,
                offset: _,
                byte: _,
            } => {}
            Command::Snap { log: _ } => {}
            Command::Restart { log: _ } => {}
            Command::Keep {
                log: _,
                count: _,
                new: _,
            } => {}
            Command::Show { shown: _ } => {}
            Command::Round | Command::Nothing | Command::End => {}
        }
    }
}
