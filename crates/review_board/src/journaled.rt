// The board as one that threads share.

use crate::board::Board;
use crate::events::{BoardEvent, BoardReply};
use plan_terms::Memory;
use turn_book::Journaled;

impl Journaled for Board {
    ghost use Rattle.std.specs.Prelude.{true, false};
    ghost use mathlib.Core.List.{IsPrefix};
    ghost use Rattle.review_board.specs.Begins.{begins_itself, begins_on};
    ghost use Rattle.review_board.specs.History.{reply_after};

    type Opening = ();

    type Event = BoardEvent;

    type Reply = BoardReply;

    type Fault = Memory;

    ghost opening = { λ b. tt };

    ghost journal = { λ b. b };

    ghost reply_of = { λ opening journal event. reply_after journal event };

    ghost sure = { λ opening journal event. false };

    ghost outward = { λ event. false };

    ghost blame_of = { λ fault. 0 };

    ghost is_want = { λ fault. Unit {0} };

    ghost blamed = { λ b. 0 };

    ghost is_stirring = { λ reply. true };

    // The one journal begins the other.
    ghost since = { λ b c. IsPrefix b c };

    ghost stays = { λ b. begins_itself b };

    ghost goes_on = { λ b c d. begins_on b c d };

    fn step(&mut self, event: BoardEvent) -> Result<BoardReply, (Memory, BoardEvent)> {
        Board::step(self, event)
    }

    fn stirs(_reply: &BoardReply) -> bool {
        true
    }

    fn blame(_fault: &Memory) -> u64 {
        0
    }

    fn entries(&self) -> u64 {
        Board::entries(self)
    }

    fn blame_so_far(&self) -> u64 {
        0
    }
}
