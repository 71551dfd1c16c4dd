// The replicas of each broker, in the order in which they are tried.
ghost use Rattle.std.specs.Prelude.{◌≡◌, ◌<◌, ◌≤◌, ◌⊎◌, ℕ, IfOk, IsTrue, length, get_or, slice_set, map, [], false, true};
ghost use Rattle.std.specs.List.{All};
ghost use Rattle.candidate_order.specs.CandidateList.{disk_of, replicas_of};
ghost use Rattle.candidate_order.specs.Order.{AreReplicasOf, IsOrderOf};
ghost use Rattle.candidate_order.specs.Ranks.{IsPut, IsTaken, IsTraded};
ghost use Rattle.plan_terms.specs.Belongs.{IsBookOf};
ghost use Rattle.plan_terms.specs.Cluster.{list_of, has, is_known, id_at};
ghost use Rattle.plan_terms.specs.Effect.{after};
ghost use Rattle.plan_terms.specs.Fits.{fits, targets_known};
ghost use Rattle.plan_terms.specs.declared.actions.Action.{Action};

use crate::ranks::{Ranked, disk, gain_in, put_in, take_out, trade_in};
use load_model::{Case, LoadBook};
use plan_terms::{Action, Memory, has, leads};
use std::alloc::Global;
use std::marker::Model;

// The place of a broker of the case.
pub(crate) fn broker_place(case: &Case, broker: u32) -> usize
    requires { IsTrue (is_known case.now broker) }
    ensures within { result < length case.now.brokers }
    ensures id { id_at case.now.brokers result ≡ broker }
    ensures only { (k : ℕ) → k < length case.now.brokers → id_at case.now.brokers k ≡ broker
        → k ≡ result }
{
    match case.place(broker) {
        Some(place) => place,
        None => unreachable!(),
    }
}

/// The partitions of each broker's replicas, by falling DISK load, ties by partition.
#[derive(Drop)]
pub struct Order {
    rows: Vec<Ranked>,
}

impl Model for Order {
    ghost use Rattle.std.specs.Prelude.{List, ℕ};

    ghost Value = { List (List ℕ) };

    ghost view = { λ o. o.rows.items };
}

// The row of one broker, partition by partition.
fn row_for(alloc: Global, case: &Case, book: &LoadBook, broker: u32) -> Result<Ranked, Memory>
    requires { IsBookOf case.now book.now }
    ensures { IfOk result (AreReplicasOf case.now book.now.lists broker) }
{
    let mut row = Ranked::new(alloc)?;
    let _brokers = case.brokers();
    let end = book.lists().len() as u32;
    for part in 0..end {
        let list = book.list(part as usize);
        if has(list, broker) {
            let weight = disk(case, part, leads(list, broker));
            put_in(case, book, broker, &mut row, part, weight);
        }
    }
    Ok(row)
}

impl Order {
    /// The order of the replicas as the book's lists stand.
    pub fn new(alloc: Global, case: &Case, book: &LoadBook) -> Result<Order, Memory>
        requires { IsBookOf case.now book.now }
        ensures { IfOk result (IsOrderOf case.now book.now.lists) }
    {
        let mut rows = Vec::new(alloc);
        let brokers = case.brokers();
        for broker in brokers {
            let row = row_for(alloc, case, book, broker.id)?;
            rows.push(row)?;
        }
        Ok(Order { rows })
    }

    /// The partitions of the replicas of the broker at a place.
    pub fn row(&self, broker: usize) -> &[u32]
        requires { broker < length self.now }
        ensures { result.now ≡ get_or self.now broker [] }
    {
        self.rows[broker].as_slice()
    }
    // Takes a partition out of the row of the broker at a place.
    fn lose(&mut self, place: usize, part: u32)
        requires place { place < length self.old }
        requires member { IsTrue (has (get_or self.old place []) part) }
        ensures others { self.new ≡ slice_set self.old place (get_or self.new place []) }
        ensures row { IsTaken part (get_or self.old place []) (get_or self.new place []) }
    {
        take_out(&mut self.rows[place], part);
    }

    // Puts a partition of that weight into the row of the broker at a place.
    fn gain(
        &mut self,
        case: &Case,
        book: &LoadBook,
        broker: u32,
        place: usize,
        part: u32,
        weight: u64,
    )
        requires belongs { IsBookOf case.now book.now }
        requires place { place < length self.old }
        requires old { AreReplicasOf case.now book.now.lists broker (get_or self.old place []) }
        requires new { has (list_of book.now.lists part) broker ≡ false }
        ensures others { self.new ≡ slice_set self.old place (get_or self.new place []) }
        ensures row { IsPut (disk_of case.now book.now.lists broker) weight part
            (get_or self.old place []) (get_or self.new place []) }
    {
        gain_in(case, book, broker, &mut self.rows[place], part, weight);
    }

    // Takes one partition out of the row of the broker at a place and puts another in.
    fn trade(
        &mut self,
        case: &Case,
        book: &LoadBook,
        broker: u32,
        place: usize,
        gone: u32,
        part: u32,
        weight: u64,
    )
        // The row at this place is of the lists before.
        requires belongs { IsBookOf case.now book.now }
        requires place { place < length self.old }
        requires old { AreReplicasOf case.now book.now.lists broker (get_or self.old place []) }
        // The partition that goes is in it, and the one that comes is another or the same.
        requires member { IsTrue (has (get_or self.old place []) gone) }
        requires new { (has (get_or self.old place []) part ≡ false) ⊎ (part ≡ gone) }
        // This row alone changes.
        ensures others { self.new ≡ slice_set self.old place (get_or self.new place []) }
        ensures row { IsTraded (disk_of case.now book.now.lists broker) gone weight part
            (get_or self.old place []) (get_or self.new place []) }
    {
        trade_in(
            case,
            book,
            broker,
            &mut self.rows[place],
            gone,
            part,
            weight,
        );
    }

    // What a move changes.
    fn after_move(&mut self, case: &Case, book: &LoadBook, part: u32, from: u32, to: u32)
        requires belongs { IsBookOf case.now book.now }
        requires order { IsOrderOf case.now book.now.lists self.old }
        requires applies { IsTrue (fits book.now.lists (Action.Move part from to)) }
        requires known { IsTrue (is_known case.now to) }
        ensures { IsOrderOf case.now (after (Action.Move part from to) book.now.lists) self.new }
    {
        let _lists = book.lists();
        let first = leads(book.list(part as usize), from);
        let giver = broker_place(case, from);
        let taker = broker_place(case, to);
        self.lose(giver, part);
        let weight = disk(case, part, first);
        self.gain(case, book, to, taker, part, weight);
    }

    // What a lead changes: its partition's weights at two brokers.
    fn after_lead(&mut self, case: &Case, book: &LoadBook, part: u32, to: u32)
        requires belongs { IsBookOf case.now book.now }
        requires order { IsOrderOf case.now book.now.lists self.old }
        requires applies { IsTrue (fits book.now.lists (Action.Lead part to)) }
        ensures { IsOrderOf case.now (after (Action.Lead part to) book.now.lists) self.new }
    {
        let _lists = book.lists();
        let from = book.list(part as usize)[0];
        let giver = broker_place(case, from);
        let taker = broker_place(case, to);
        let less = disk(case, part, false);
        self.trade(case, book, from, giver, part, part, less);
        let more = disk(case, part, true);
        self.trade(case, book, to, taker, part, part, more);
    }

    // What a swap changes.
    fn after_swap(
        &mut self,
        case: &Case,
        book: &LoadBook,
        part: u32,
        from: u32,
        other: u32,
        to: u32,
    )
        requires belongs { IsBookOf case.now book.now }
        requires order { IsOrderOf case.now book.now.lists self.old }
        requires applies { IsTrue (fits book.now.lists (Action.Swap part from other to)) }
        ensures { IsOrderOf case.now (after (Action.Swap part from other to) book.now.lists)
            self.new }
    {
        let _lists = book.lists();
        let first = leads(book.list(part as usize), from);
        let other_first = leads(book.list(other as usize), to);
        let giver = broker_place(case, from);
        let taker = broker_place(case, to);
        let back = disk(case, other, other_first);
        self.trade(case, book, from, giver, part, other, back);
        let out = disk(case, part, first);
        self.trade(case, book, to, taker, other, part, out);
    }

    /// The order after an action that is about to be applied to the book. It takes no memory.
    pub fn after(&mut self, case: &Case, book: &LoadBook, action: Action)
        requires belongs { IsBookOf case.now book.now }
        requires order { IsOrderOf case.now book.now.lists self.old }
        requires applies { IsTrue (fits book.now.lists action) }
        requires known { IsTrue (targets_known case.now action) }
        ensures { IsOrderOf case.now (after action book.now.lists) self.new }
    {
        match action {
            Action::Move { part, from, to } => self.after_move(case, book, part, from, to),
            Action::Lead { part, to } => self.after_lead(case, book, part, to),
            Action::Swap {
                part,
                from,
                other,
                to,
            } => self.after_swap(case, book, part, from, other, to),
        }
    }
}
