// One caller of a turn.
ghost use Rattle.std.specs.Prelude.{◌≡◌, ◌<◌};
ghost use Rattle.mover_workers.specs.Callers.{Belongs, IsSince};
ghost use Rattle.mover_workers.specs.Close.{IsClosed};
ghost use Rattle.turn_book.specs.Known.{HasJoined, IsCut};

use crate::rests::Rests;
use cluster_gate::Admin;
use control_core::Book;
use core_laws::every_history;
use core_terms::{Event, Reply, StepFault};
use mover_rounds::Asker;
use std::marker::Model;
use std::sync::Wait;
use turn_book::{Pass, Turn};

/// A turn of a book with one pass of it, as an actor that asks.
pub struct Caller<'a, R: Wait, A: Admin> {
    rt: &'a R,
    turn: &'a Turn<Book<A>>,
    pass: Pass<Book<A>>,
}

impl<'a, R: Wait, A: Admin> Model for Caller<'a, R, A> {
    ghost use Rattle.mover_workers.specs.Callers.{Belongs, CallerView};

    ghost Value = { CallerView A };

    ghost view = { λ c. record { turn = c.turn.now; pass = c.pass } };

    ghost invariant = { λ c. Belongs c.turn.now c.pass };
}

// Written by hand: a derived one would ask it of the admin, and no closure that holds a caller could
// go to a thread.
impl<'a, R: Wait, A: Admin> Drop for Caller<'a, R, A> {
    fn drop(self) {
        let Self {
            rt: _,
            turn: _,
            pass,
        } = self;
        drop(pass);
    }
}

impl<'a, R: Wait, A: Admin> Caller<'a, R, A> {
    /// Takes the pass, with which it asks the turn.
    pub fn new(rt: &'a R, turn: &'a Turn<Book<A>>, pass: Pass<Book<A>>) -> Caller<'a, R, A>
        requires own { Belongs turn.now pass }
        ensures turn { result.turn ≡ turn.now }
        ensures pass { result.pass ≡ pass }
    {
        Caller { rt, turn, pass }
    }

    /// Gives one part to a new caller of the turn.
    pub fn split(&mut self) -> Caller<'a, R, A>
        requires parts { 1 < self.old.pass.parts }
        ensures turn { (self.new.turn ≡ self.old.turn) × (result.turn ≡ self.old.turn) }
        ensures cut { IsCut self.old.pass self.new.pass result.pass }
    {
        let pass = self.turn.split(&mut self.pass);
        Caller {
            rt: self.rt,
            turn: self.turn,
            pass,
        }
    }

    /// Takes all of another caller of the turn.
    pub fn join(&mut self, other: Caller<'a, R, A>)
        requires turn { other.turn ≡ self.old.turn }
        ensures turn { self.new.turn ≡ self.old.turn }
        ensures joined { HasJoined self.old.pass other.entry.pass self.new.pass }
        ensures own { Belongs other.entry.turn other.entry.pass }
    {
        self.turn.join(&mut self.pass, other.into_pass());
    }

    /// Asks Close, unless it was asked before.
    pub fn close(&mut self)
        ensures since { IsSince self.old self.new }
        ensures closed { IsClosed self.old.pass self.new.pass }
        ensures own { Belongs self.old.turn self.old.pass }
    {
        every_history();
        match self.turn.act(self.rt, &mut self.pass, Event::Close) {
            Ok(reply) => drop(reply),
            Err(refused) => drop(refused),
        }
    }

    /// The pass.
    pub fn into_pass(self) -> Pass<Book<A>>
        ensures pass { result ≡ self.entry.pass }
        ensures own { Belongs self.entry.turn result }
    {
        let Self {
            rt: _,
            turn: _,
            pass,
        } = self;
        pass
    }
}

impl<'a, R: Wait, A: Admin> Asker for Caller<'a, R, A> {
    ghost use Rattle.mover_workers.specs.Callers.{IsSince, known_by_caller};
    ghost use Rattle.mover_workers.specs.Since.{since_itself, since_on};

    ghost known = { λ c. known_by_caller c };

    ghost since = { λ b c. IsSince b c };

    ghost stays = { λ b. since_itself b };

    ghost goes_on = { λ b c d. since_on b c d };

    fn ask(&mut self, event: Event) -> Result<Reply, (StepFault, Event)> {
        self.turn.act(self.rt, &mut self.pass, event)
    }
}

impl<'a, R: Wait, A: Admin> Rests for Caller<'a, R, A> {
    fn rest(&mut self) {
        self.turn.rest(self.rt, &mut self.pass);
    }
}
