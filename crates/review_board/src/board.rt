// The board.
ghost use Rattle.std.specs.Prelude.{◌≡◌, ◌++◌, ◌∷◌, [], ◌<◌, ◌^◌, length, IfOk, IfErr, OnErr, OnOk};
ghost use Rattle.review_board.specs.History.{reply_after};

use crate::events::{BoardEvent, BoardReply};
use crate::reviews::Reviews;
use plan_terms::Memory;
use std::alloc::Global;
use std::marker::Model;
use turn_book::Journal;

/// A board, which contracts see as its journal: the events that it took, in order.
#[derive(Drop)]
pub struct Board {
    alloc: Global,
    reviews: Reviews,
    journal: Journal<BoardEvent>,
}

impl Model for Board {
    ghost use Rattle.std.specs.Prelude.{◌≡◌, ◌<◌, ◌^◌, List, length};
    ghost use Rattle.review_board.specs.History.{reviews_after};
    ghost use Rattle.review_board.specs.declared.events.BoardEvent.{BoardEvent};

    ghost Value = { List BoardEvent };

    ghost view = { λ b. b.journal.events };

    ghost invariant = { λ b. (b.reviews ≡ reviews_after b.journal.events)
        × (length b.journal.events < 2 ^ 63) };
}

impl Board {
    /// A board on which nothing was filed. It takes no memory.
    pub fn new(alloc: Global) -> Board
        ensures { result ≡ [] }
    {
        Board {
            alloc,
            reviews: Reviews::new(alloc),
            journal: Journal::new(alloc),
        }
    }

    /// Takes an event: answers it, and adds it to the journal.
    ///
    /// # Errors
    ///
    /// Out of memory. Nothing has changed then, and the event is handed back.
    pub fn step(&mut self, event: BoardEvent) -> Result<BoardReply, (Memory, BoardEvent)>
        ensures entry { OnOk result (self.new ≡ self.old ++ event ∷ []) }
        ensures reply { IfOk result (λ r. r ≡ reply_after self.old event) }
        ensures unchanged { OnErr result (self.new ≡ self.old) }
        ensures handed_back { IfErr result (λ e. e.1 ≡ event) }
    {
        if self.journal.reserve(1).is_err() {
            return Err((Memory, event));
        }
        match self.reviews.answer(self.alloc, &event) {
            Ok(reply) => {
                self.journal.enter(event);
                Ok(reply)
            }
            Err(fault) => Err((fault, event)),
        }
    }

    /// How many events the board took.
    pub fn entries(&self) -> u64
        ensures value { result ≡ length self.now }
        ensures short { result < 2 ^ 63 }
    {
        self.journal.len()
    }
}
