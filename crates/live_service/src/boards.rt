// Callers of a board's turn.
ghost use Rattle.std.specs.Prelude.{◌≡◌, ◌<◌};
ghost use Rattle.live_service.specs.Boards.{BelongsToBoard};
ghost use Rattle.turn_book.specs.Known.{HasJoined, IsCut};

use cluster_gate::Admin;
use mover_workers::Caller;
use review_board::{Board, BoardEvent, BoardReply, NoteFault, Reviewer};
use std::marker::Model;
use std::sync::Wait;
use turn_book::{Pass, Turn};

/// A turn of a board with one pass of it, as a reviewer: it has a board where requests are reviewed,
/// and else none.
#[derive(Drop)]
pub struct BoardCaller<'a, R: Wait> {
    rt: &'a R,
    turn: &'a Turn<Board>,
    pass: Pass<Board>,
    reviews: bool,
}

impl<'a, R: Wait> Model for BoardCaller<'a, R> {
    ghost use Rattle.live_service.specs.Boards.{BelongsToBoard, BoardCallerView};

    ghost Value = { BoardCallerView };

    ghost view = { λ c. record { turn = c.turn.now; pass = c.pass; reviews = c.reviews } };

    ghost invariant = { λ c. BelongsToBoard c.turn.now c.pass };
}

impl<'a, R: Wait> BoardCaller<'a, R> {
    /// Takes the pass, with which it asks the turn where requests are reviewed.
    pub fn new(
        rt: &'a R,
        turn: &'a Turn<Board>,
        pass: Pass<Board>,
        reviews: bool,
    ) -> BoardCaller<'a, R>
        requires own { BelongsToBoard turn.now pass }
        ensures { result ≡ record { turn = turn.now; pass = pass; reviews = reviews } }
    {
        BoardCaller {
            rt,
            turn,
            pass,
            reviews,
        }
    }

    /// Gives one part to a new caller of the turn.
    pub fn split(&mut self) -> BoardCaller<'a, R>
        requires parts { 1 < self.old.pass.parts }
        ensures turn { (self.new.turn ≡ self.old.turn) × (result.turn ≡ self.old.turn) }
        ensures reviews { (self.new.reviews ≡ self.old.reviews)
            × (result.reviews ≡ self.old.reviews) }
        ensures cut { IsCut self.old.pass self.new.pass result.pass }
    {
        let pass = self.turn.split(&mut self.pass);
        BoardCaller {
            rt: self.rt,
            turn: self.turn,
            pass,
            reviews: self.reviews,
        }
    }

    /// Takes all of another caller of the turn.
    pub fn join(&mut self, other: BoardCaller<'a, R>)
        requires turn { other.turn ≡ self.old.turn }
        ensures turn { self.new.turn ≡ self.old.turn }
        ensures reviews { self.new.reviews ≡ self.old.reviews }
        ensures joined { HasJoined self.old.pass other.entry.pass self.new.pass }
        ensures own { BelongsToBoard other.entry.turn other.entry.pass }
    {
        self.turn.join(&mut self.pass, other.into_pass());
    }

    /// The pass.
    pub fn into_pass(self) -> Pass<Board>
        ensures pass { result ≡ self.entry.pass }
        ensures own { BelongsToBoard self.entry.turn result }
    {
        let Self {
            rt: _,
            turn: _,
            pass,
            reviews: _,
        } = self;
        pass
    }
}

impl<'a, R: Wait> Reviewer for BoardCaller<'a, R> {
    ghost use Rattle.live_service.specs.Boards.{IsBoardCallerSince, board_seen};
    ghost use Rattle.live_service.specs.Since.{board_since_itself, board_since_on};

    ghost board = { λ c. board_seen c.reviews c.pass };

    ghost since = { λ b c. IsBoardCallerSince b c };

    ghost stays = { λ b. board_since_itself b };

    ghost goes_on = { λ b c d. board_since_on b c d };

    fn reviews(&self) -> bool {
        self.reviews
    }

    fn note(&mut self, event: BoardEvent) -> Result<BoardReply, NoteFault> {
        if !self.reviews {
            return Err(NoteFault::NoBoard);
        }
        match self.turn.act(self.rt, &mut self.pass, event) {
            Ok(reply) => Ok(reply),
            Err(_) => Err(NoteFault::Memory),
        }
    }
}

/// The callers of one who answers requests: that of the book, and that of the board.
pub struct Callers<'a, R: Wait, A: Admin> {
    pub book: Caller<'a, R, A>,
    pub board: BoardCaller<'a, R>,
}

// Written by hand: a derived one would ask it of the admin, and no closure that holds callers could
// go to a thread.
impl<'a, R: Wait, A: Admin> Drop for Callers<'a, R, A> {
    fn drop(self) {
        let Self { book, board } = self;
        drop(book);
        drop(board);
    }
}

impl<'a, R: Wait, A: Admin> Callers<'a, R, A> {
    /// That of the book, and that of the board.
    pub fn into_parts(self) -> (Caller<'a, R, A>, BoardCaller<'a, R>)
        ensures book { result.0 ≡ self.entry.book }
        ensures board { result.1 ≡ self.entry.board }
    {
        let Self { book, board } = self;
        (book, board)
    }
}
