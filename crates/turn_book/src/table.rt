// The steps on a turn's table, each of which keeps the rule.
ghost use Rattle.std.specs.Prelude.{◌≡◌, ◌+◌, ◌<◌, ◌^◌, [], true, length, IfOk, IfErr};
ghost use mathlib.Core.List.{IsPrefix};
ghost use Rattle.turn_book.specs.Rule.{ArePlaced};
ghost use Rattle.turn_book.specs.Plays.{freed, told, one_less, joined, settled};
ghost use Rattle.turn_book.specs.Known.{known_of, IsFirst, HasActed, IsRefused, HasLooked, IsWhole};
ghost use Rattle.turn_book.specs.Passes.{IsIdle, IsSeatOf, HasTurn, HasOneMore, IsPublished, MayEnd};

use crate::journaled::Journaled;
use crate::rule::{
    Blame, Both, Compare, Look, OnePart, Publish, Release, Stir, Take, TurnRule, View,
};
use atomic_table::{Refused, Seat, Table};
use std::alloc::Global;
use std::snapshot::Snapshot;
use std::sync::Wait;

// The word that is 1 while a pass holds the turn.
const TURN: usize = 0;

// The word with the length of the history.
const COUNT: usize = 1;

// The word with the number that the book was blamed for.
const FAULTS: usize = 2;

// The word that each stirring reply changes.
const STIRS: usize = 3;

// The slot of the book.
const BOOK: usize = 0;

/// The seat of a pass. It has no bytes.
pub(crate) type Place<B> = Seat<
    Option<B>,
    View<B, <B as Journaled>::Opening, <B as Journaled>::Event>,
>;

/// The table under a turn.
pub struct BookTable<B: Journaled> {
    pub(crate) inner: Table<
        Option<B>,
        View<B, B::Opening, B::Event>,
        Snapshot<B>,
        TurnRule<B>,
        Global,
    >,
    ghost sized: { (inner.shared.table_id.words ≡ 4) × (inner.shared.table_id.slots ≡ 1) },
}

impl<B: Journaled> BookTable<B> {
    /// A table with the book at home, and the seat of the first pass. Out of memory the book is
    /// handed back.
    pub fn new(alloc: Global, book: B) -> Result<(BookTable<B>, Place<B>), B>
        ensures first { IfOk result
            (λ t. IsFirst B.opening B.journal
            (record { table = t.0.inner.shared.table_id; start = t.0.inner.shared.key.value })
            book (known_of t.1.table_id t.1.me.0 0)) }
        ensures idle { IfOk result (λ t. IsIdle t.1.me) }
        ensures handed_back { IfErr result (λ b. b ≡ book) }
    {
        let about = Snapshot::of(&book);
        let words = [0, book.entries(), book.blame_so_far(), 0];
        let mut slots: Vec<Option<B>> = Vec::new(alloc);
        if let Err(failed) = slots.push(Some(book)) {
            slots.destroy_empty();
            return Err(failed.value.unwrap());
        }
        match Table::new(alloc, &words, slots, &about) {
            Ok((inner, place)) => Ok((BookTable { inner }, place)),
            Err(Refused { mut slots }) => {
                let book = slots.pop().unwrap().unwrap();
                slots.destroy_empty();
                Err(book)
            }
        }
    }

    // Takes the turn and the book.
    fn take<R: Wait>(&self, rt: &R, place: &mut Place<B>) -> B
        requires own { IsSeatOf B.opening self.now.inner.shared.table_id
            self.now.inner.shared.key.value place.old.table_id place.old.me }
        ensures same { place.new.table_id ≡ place.old.table_id }
        ensures turn { HasTurn B.opening B.journal B.blamed B.since self.now.inner.shared.key.value
            place.old.me.0 place.new.me result }
    {
        for _ in rt.forever() {
            if self
                .inner
                .shared
                .compare_exchange::<Take<B>>(place, TURN, 0, 1)
                == 0
            {
                return self.inner.shared.exchange(place, BOOK, None).unwrap();
            }
            self.inner.shared.park(rt, TURN, 1);
        }
        unreachable!()
    }

    // Puts the book back, and ends the turn.
    fn give(&self, place: &mut Place<B>, book: B)
        requires same { place.old.table_id ≡ self.now.inner.shared.table_id }
        requires may { MayEnd B.opening B.journal B.blamed B.since self.now.inner.shared.key.value
            place.old.me book }
        ensures table { place.new.table_id ≡ place.old.table_id }
        ensures freed { place.new.me ≡ (freed place.old.me.0, []) }
        ensures placed { ArePlaced place.new.me.0.seen place.new.me.0.mine }
    {
        match self.inner.shared.exchange(place, BOOK, Some(book)) {
            None => {}
            Some(_) => unreachable!(),
        }
        self.inner.shared.store::<Release<B>>(place, TURN, 0);
        self.inner.shared.wake_one(TURN);
    }

    // Gives the book's last entry its place in the history.
    fn publish(&self, place: &mut Place<B>, book: B, count: u64) -> B
        // The seat holds the turn, and the book has one entry more than was counted.
        requires same { place.old.table_id ≡ self.now.inner.shared.table_id }
        requires parts { 0 < place.old.me.0.parts }
        requires holds { place.old.me.0.holds ≡ true }
        requires count { count ≡ length place.old.me.0.seen }
        requires few { count < 2 ^ 63 }
        requires entry { HasOneMore B.journal place.old.me.0.seen book }
        // The entry is the seat's own, and nothing else changes.
        ensures book { result ≡ book }
        ensures table { place.new.table_id ≡ place.old.table_id }
        ensures hand { place.new.me.1 ≡ place.old.me.1 }
        ensures entry { IsPublished (B.journal book) place.old.me.0 place.new.me.0 }
    {
        let held = Some(book);
        self.inner
            .shared
            .compare_exchange_with::<Publish<B>>(place, COUNT, count, count + 1, &held);
        held.unwrap()
    }

    /// One whole turn: the book takes the event, and the pass has then seen the history.
    pub fn act<R: Wait>(
        &self,
        rt: &R,
        place: &mut Place<B>,
        event: B::Event,
    ) -> Result<B::Reply, (B::Fault, B::Event)>
        requires own { IsSeatOf B.opening self.now.inner.shared.table_id
            self.now.inner.shared.key.value place.old.table_id place.old.me }
        ensures own { IsSeatOf B.opening self.now.inner.shared.table_id
            self.now.inner.shared.key.value place.new.table_id place.new.me }
        ensures made { IfOk result
            (HasActed B.reply_of (B.opening self.now.inner.shared.key.value)
            (known_of place.old.table_id place.old.me.0 0)
            (known_of place.new.table_id place.new.me.0 0) event) }
        ensures refused { IfErr result
            (IsRefused B.blame_of B.is_want B.sure B.outward
            (B.opening self.now.inner.shared.key.value)
            (known_of place.old.table_id place.old.me.0 0)
            (known_of place.new.table_id place.new.me.0 0) event) }
    {
        let mut book = self.take(rt, place);
        let count = book.entries();
        match book.step(event) {
            Ok(reply) => {
                let book = self.publish(place, book, count);
                self.give(place, book);
                Ok(reply)
            }
            Err((fault, event)) => {
                let blame = B::blame(&fault);
                if blame > 0 {
                    self.inner.shared.store::<Blame<B>>(place, FAULTS, blame);
                }
                self.give(place, book);
                Err((fault, event))
            }
        }
    }

    /// The length of the history, which the pass has then seen.
    pub fn learn(&self, place: &mut Place<B>) -> u64
        requires own { IsSeatOf B.opening self.now.inner.shared.table_id
            self.now.inner.shared.key.value place.old.table_id place.old.me }
        ensures own { IsSeatOf B.opening self.now.inner.shared.table_id
            self.now.inner.shared.key.value place.new.table_id place.new.me }
        ensures length { length place.new.me.0.seen ≡ result }
        ensures looked { HasLooked (known_of place.old.table_id place.old.me.0 0)
            (known_of place.new.table_id place.new.me.0 0) }
    {
        self.inner.shared.load::<Look<B>>(place, COUNT)
    }

    /// One part goes to a new pass, which has seen as much and has no entry.
    pub fn split(&self, place: &mut Place<B>) -> Place<B>
        requires own { IsSeatOf B.opening self.now.inner.shared.table_id
            self.now.inner.shared.key.value place.old.table_id place.old.me }
        requires parts { 1 < place.old.me.0.parts }
        ensures own { IsSeatOf B.opening self.now.inner.shared.table_id
            self.now.inner.shared.key.value place.new.table_id place.new.me }
        ensures new { IsSeatOf B.opening self.now.inner.shared.table_id
            self.now.inner.shared.key.value result.table_id result.me }
        ensures less { place.new.me.0 ≡ one_less place.old.me.0 }
        ensures told { result.me.0 ≡ told place.old.me.0 }
    {
        self.inner.shared.split_seat::<OnePart<B>>(place)
    }

    /// The pass gets all of the other's.
    pub fn join(&self, place: &mut Place<B>, other: Place<B>)
        requires own { IsSeatOf B.opening self.now.inner.shared.table_id
            self.now.inner.shared.key.value place.old.table_id place.old.me }
        requires other { IsSeatOf B.opening self.now.inner.shared.table_id
            self.now.inner.shared.key.value other.table_id other.me }
        ensures own { IsSeatOf B.opening self.now.inner.shared.table_id
            self.now.inner.shared.key.value place.new.table_id place.new.me }
        ensures view { place.new.me.0 ≡ settled (joined place.old.me.0 other.me.0) }
        ensures longer { IsPrefix place.old.me.0.seen place.new.me.0.seen }
        ensures others { IsPrefix other.me.0.seen place.new.me.0.seen }
    {
        self.inner.shared.join_seat::<Both<B>>(place, other);
        self.inner.shared.load::<Compare<B>>(place, COUNT);
    }

    /// Wakes those who rest, where the reply stirs.
    pub fn stir_if(&self, place: &mut Place<B>, stirs: bool)
        requires own { IsSeatOf B.opening self.now.inner.shared.table_id
            self.now.inner.shared.key.value place.old.table_id place.old.me }
        ensures table { place.new.table_id ≡ place.old.table_id }
        ensures kept { place.new.me ≡ place.old.me }
    {
        if stirs {
            self.inner.shared.fetch_add::<Stir<B>>(place, STIRS, 1);
            self.inner.shared.wake_all(STIRS);
        }
    }

    /// The number of stirs.
    pub fn stirs(&self, place: &mut Place<B>) -> u64
        requires own { IsSeatOf B.opening self.now.inner.shared.table_id
            self.now.inner.shared.key.value place.old.table_id place.old.me }
        ensures table { place.new.table_id ≡ place.old.table_id }
        ensures kept { place.new.me ≡ place.old.me }
    {
        self.inner.shared.load::<Stir<B>>(place, STIRS)
    }

    /// Sleeps while the number of stirs is this one. It may also return for no reason.
    pub fn rest<R: Wait>(&self, rt: &R, stirs: u64) {
        self.inner
            .shared
            .park(rt, STIRS, (stirs % (1 << 32)) as u32);
    }

    /// The book, once no other pass is out.
    pub fn close(self, place: Place<B>) -> B
        requires own { IsSeatOf B.opening self.inner.shared.table_id self.inner.shared.key.value
            place.table_id place.me }
        requires parts { place.me.0.parts ≡ 1048576 }
        ensures { IsWhole B.opening B.journal B.blamed B.since self.inner.shared.key.value
            (known_of place.table_id place.me.0 0) result }
    {
        let BookTable { inner } = self;
        let mut closed = inner.close_with(place);
        let slot = closed.take(BOOK);
        closed.free();
        slot.unwrap()
    }
}
