// What takes the events of a board for one caller.
ghost use Rattle.std.specs.Prelude.{◌≡◌, is_some, IfErr, IfOk};
ghost use Rattle.review_board.specs.Asked.{HasNotedBy, IsUnnotedBy};

use crate::board::Board;
use crate::events::{BoardEvent, BoardReply};
use plan_terms::Memory;

/// Why a board hasn't taken an event.
#[derive(Clone, Copy, Debug, PartialEq, Eq)]
pub enum NoteFault {
    /// There is no board.
    NoBoard,
    /// Want of memory.
    Memory,
}

/// Takes the events of a board for one caller and answers each, or says that there is no board.
pub trait Reviewer {
    ghost use Rattle.std.specs.Prelude.{Option};
    ghost use Rattle.review_board.specs.Asked.{BoardKnown};

    /// What the caller knows of the board, where there is one.
    ghost board: { Self → Option BoardKnown };

    /// What else stays, or only grows, from one asking to the next.
    ghost since: { Self → Self → Type 0 };

    /// Whether there is a board.
    fn reviews(&self) -> bool
        ensures { result ≡ is_some (board self.now) };

    /// Asks an event of the board.
    ///
    /// # Errors
    ///
    /// `NoteFault::NoBoard` where there is no board, and only there; `NoteFault::Memory` out of
    /// memory. The board hasn't taken the event then.
    fn note(&mut self, event: BoardEvent) -> Result<BoardReply, NoteFault>
        ensures since { since self.old self.new }
        ensures noted { IfOk result (HasNotedBy (board self.old) (board self.new) event) }
        ensures unnoted { IfErr result (IsUnnotedBy (board self.old) (board self.new)) };

    /// It holds where nothing was asked.
    ghost stays: { (x : Self) → since x x };

    /// It holds from the first asking to the last.
    ghost goes_on: { (x y z : Self) → since x y → since y z → since x z };
}

/// No board: no request is reviewed.
#[derive(Clone, Copy, Debug)]
pub struct NoBoard;

impl Reviewer for NoBoard {
    ghost use Rattle.std.specs.Prelude.{None};

    ghost board = { λ b. None };

    ghost since = { λ b c. Unit {0} };

    ghost stays = { λ b. tt };

    ghost goes_on = { λ b c d p q. tt };

    fn reviews(&self) -> bool {
        false
    }

    fn note(&mut self, _event: BoardEvent) -> Result<BoardReply, NoteFault> {
        Err(NoteFault::NoBoard)
    }
}

impl Reviewer for Board {
    ghost use Rattle.std.specs.Prelude.{Some};
    ghost use mathlib.Core.List.{IsPrefix};
    ghost use Rattle.review_board.specs.Asked.{known_by_owner};
    ghost use Rattle.review_board.specs.Begins.{begins_itself, begins_on};

    ghost board = { λ b. Some (known_by_owner b) };

    ghost since = { λ b c. IsPrefix b c };

    ghost stays = { λ b. begins_itself b };

    ghost goes_on = { λ b c d. begins_on b c d };

    fn reviews(&self) -> bool {
        true
    }

    fn note(&mut self, event: BoardEvent) -> Result<BoardReply, NoteFault> {
        match self.step(event) {
            Ok(reply) => Ok(reply),
            Err((Memory, _)) => Err(NoteFault::Memory),
        }
    }
}
