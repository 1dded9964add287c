//! Clocks that wait for one another.

ghost use Rattle.std.specs.Prelude.{◌≡◌, ◌<◌, ◌^◌, ℕ, None, IfSome, IfOk};

use crate::board::Board;
use ivy_base::Memory;
use ivy_io::Clock;
use std::alloc::Global;
use std::sync::Arc;

/// The second of every moment.
const SECOND: u32 = 5;

/// How many clocks meet.
const MEETING: u32 = 2;

/// A clock that tells when it is asked, and then gives its moment once another clock of the same board was asked too, or it
/// looked for that in vain. The first one of a board waits for nobody.
#[derive(Drop)]
pub struct MeetingClock {
    board: Arc<Board, Global>,
    /// The clock's own bit, and none for the first clock.
    bit: Option<u64>,
}

impl MeetingClock {
    /// The first clock of a board.
    pub fn first(board: Arc<Board, Global>) -> MeetingClock {
        MeetingClock { board, bit: None }
    }
}

impl Clock for MeetingClock {
    ghost moment = { λ _. None };

    ghost gives = { λ _ _ _. Unit {0} };

    fn now(&mut self) -> (u32, u32) {
        if let Some(bit) = self.bit {
            self.board.tell(bit);
            let _ = self.board.look(MEETING);
        }
        (SECOND, 0)
    }

    fn another(&self, _alloc: Global) -> Result<MeetingClock, Memory> {
        let board = Arc::try_clone(&self.board)?;
        let bit = Some(board.give());
        Ok(MeetingClock { board, bit })
    }
}
