// The turn and its passes.
//
// No wake-up is lost. A pass notes the number of stirs when it is made and at the end of each rest,
// before it looks at anything. A reply that stirs raises the number once its entry is in the book
// and the turn is free, and then wakes all. So where a look missed an entry, the number differs or
// will: `rest` sleeps only while it is the noted one, and is woken by the change. The whole number
// is compared first, since the wait itself compares its low half.
ghost use Rattle.std.specs.Prelude.{◌≡◌, ◌<◌, length, IfOk, IfErr};
ghost use Rattle.turn_book.specs.Known.{known_of, IsPassOf, IsFirst, HasActed, IsRefused, HasLooked, IsCut, HasJoined, IsWhole};
ghost use Rattle.turn_book.specs.Passes.{IsIdle};

use crate::journaled::Journaled;
use crate::table::{BookTable, Place};
use plan_terms::Memory;
use std::alloc::Global;
use std::marker::Model;
use std::sync::Wait;

/// A book that threads share, one whole turn after the other.
pub struct Turn<B: Journaled> {
    table: BookTable<B>,
}

impl<B: Journaled> Model for Turn<B> {
    ghost use Rattle.turn_book.specs.Known.{Made};

    ghost Value = { Made B };

    ghost view = { λ t. record {
      table = t.table.inner.shared.table_id;
      start = t.table.inner.shared.key.value;
    } };
}

/// What one caller knows of the history, and the entries that it made. The passes of a turn have
/// 1,048,576 parts together.
pub struct Pass<B: Journaled> {
    place: Place<B>,
    // How many stirs there were before it looked at anything since its last rest.
    stirs: u64,
}

impl<B: Journaled> Model for Pass<B> {
    ghost use Rattle.turn_book.specs.Known.{Known, known_of};
    ghost use Rattle.turn_book.specs.Passes.{IsIdle};

    ghost Value = { Known B.Opening B.Event };

    ghost view = { λ p. known_of p.place.table_id p.place.me.0 p.stirs };

    ghost invariant = { λ p. IsIdle p.place.me };
}

// Written by hand: a derived one would ask it of the book, and no closure that holds a pass could
// go to a thread.
impl<B: Journaled> Drop for Pass<B> {
    fn drop(self) {
        let Self { place, stirs: _ } = self;
        drop(place);
    }
}

impl<B: Journaled> Pass<B> {
    fn into_place(self) -> Place<B>
        ensures known { self ≡ known_of result.table_id result.me.0 self.noted }
        ensures idle { IsIdle result.me }
    {
        let Self { place, stirs: _ } = self;
        place
    }
}

impl<B: Journaled> Turn<B> {
    /// Shares a book. The first pass has seen its journal, and has no entry of its own and all
    /// parts.
    ///
    /// # Errors
    ///
    /// Out of memory. The book is handed back.
    pub fn new(alloc: Global, book: B) -> Result<(Turn<B>, Pass<B>), (Memory, B)>
        ensures first { IfOk result (λ t. IsFirst B.opening B.journal t.0 book t.1) }
        ensures handed_back { IfErr result (λ e. e.1 ≡ book) }
    {
        match BookTable::new(alloc, book) {
            Ok((table, place)) => Ok((Turn { table }, Pass { place, stirs: 0 })),
            Err(book) => Err((Memory, book)),
        }
    }

    /// One whole turn: the book takes the event and answers it, and the pass has then seen the
    /// history up to there. It waits for the turns of others.
    ///
    /// # Errors
    ///
    /// What the book answers in this turn. Nothing is added to the history then, and the event
    /// comes back.
    pub fn act<R: Wait>(
        &self,
        rt: &R,
        pass: &mut Pass<B>,
        event: B::Event,
    ) -> Result<B::Reply, (B::Fault, B::Event)>
        requires own { IsPassOf B.opening self.now pass.old }
        ensures own { IsPassOf B.opening self.now pass.new }
        ensures made { IfOk result
            (HasActed B.reply_of (B.opening self.now.start) pass.old pass.new event) }
        ensures refused { IfErr result
            (IsRefused B.blame_of B.is_want B.sure B.outward (B.opening self.now.start) pass.old
            pass.new event) }
        ensures noted { pass.new.noted ≡ pass.old.noted }
    {
        let reply = self.table.act(rt, &mut pass.place, event)?;
        self.table.stir_if(&mut pass.place, B::stirs(&reply));
        Ok(reply)
    }

    /// The length of the history, which the pass has then seen.
    pub fn learn(&self, pass: &mut Pass<B>) -> u64
        requires own { IsPassOf B.opening self.now pass.old }
        ensures own { IsPassOf B.opening self.now pass.new }
        ensures length { length pass.new.seen ≡ result }
        ensures looked { HasLooked pass.old pass.new }
        ensures noted { pass.new.noted ≡ pass.old.noted }
    {
        self.table.learn(&mut pass.place)
    }

    /// May wait for an entry whose reply stirs and that came after the pass began to look: after its
    /// last rest, or after it was made. It may return at any time.
    pub fn rest<R: Wait>(&self, rt: &R, pass: &mut Pass<B>)
        requires own { IsPassOf B.opening self.now pass.old }
        ensures own { IsPassOf B.opening self.now pass.new }
        ensures looked { HasLooked pass.old pass.new }
    {
        if self.table.stirs(&mut pass.place) == pass.stirs {
            self.table.rest(rt, pass.stirs);
        }
        pass.stirs = self.table.stirs(&mut pass.place);
        self.table.learn(&mut pass.place);
    }

    /// Gives one part to a new pass, which has seen as much and has no entry.
    pub fn split(&self, pass: &mut Pass<B>) -> Pass<B>
        requires own { IsPassOf B.opening self.now pass.old }
        requires parts { 1 < pass.old.parts }
        ensures own { IsPassOf B.opening self.now pass.new }
        ensures new { IsPassOf B.opening self.now result }
        ensures cut { IsCut pass.old pass.new result }
        ensures noted { pass.new.noted ≡ pass.old.noted }
    {
        let stirs = self.table.stirs(&mut pass.place);
        let place = self.table.split(&mut pass.place);
        Pass { place, stirs }
    }

    /// Gives the pass all of another's: what it has seen, its entries and its parts.
    pub fn join(&self, pass: &mut Pass<B>, other: Pass<B>)
        requires own { IsPassOf B.opening self.now pass.old }
        requires other { IsPassOf B.opening self.now other }
        ensures own { IsPassOf B.opening self.now pass.new }
        ensures joined { HasJoined pass.old other pass.new }
        ensures noted { pass.new.noted ≡ pass.old.noted }
    {
        self.table.join(&mut pass.place, other.into_place());
    }

    /// The book, whose journal is the history. The pass has all parts, so no other is left, and
    /// each entry since the turn was made is its own, just once.
    pub fn close(self, pass: Pass<B>) -> B
        requires own { IsPassOf B.opening self pass }
        requires parts { pass.parts ≡ 1048576 }
        ensures { IsWhole B.opening B.journal B.blamed B.since self.start pass result }
    {
        let Turn { table } = self;
        table.close(pass.into_place())
    }
}
