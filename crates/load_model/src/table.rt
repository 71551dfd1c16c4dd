// The table of what brokers carry.
ghost use Rattle.std.specs.Prelude.{◌≡◌, ◌+◌, ◌<◌, ◌≤◌, ◌^◌, ℕ, IfOk, false, [], length, map, slice_set, slice_index, get_or, if◌then◌else◌};
ghost use Rattle.plan_terms.specs.Faults.{topics};
ghost use Rattle.plan_terms.specs.Load.{list_load};
ghost use Rattle.load_model.specs.declared.amounts.Amount.{Amount};
ghost use Rattle.load_model.specs.Amounts.{InRange, lead_at, follow_at};
ghost use Rattle.plan_terms.specs.Cluster.{id_at};
ghost use Rattle.load_model.specs.Tables.{AreBelow, AreLong, AreTotals, IsChanged, IsTable, column, columns, kind_at, put_on, weight_at};

use crate::amounts::{Amount, weights_at};
use crate::{Assign, Case};
use plan_terms::Memory;
use std::alloc::Global;
use std::marker::Model;

/// What one broker carries, by the column of each kind.
#[derive(Drop)]
pub struct Row {
    amounts: Vec<u64>,
}

impl Model for Row {
    ghost use Rattle.std.specs.Prelude.{List, ℕ};

    ghost Value = { List ℕ };

    ghost view = { λ r. r.amounts.items };
}

/// A row for each broker.
#[derive(Drop)]
pub struct Table {
    rows: Vec<Row>,
}

impl Model for Table {
    ghost use Rattle.std.specs.Prelude.{List, ℕ};

    ghost Value = { List (List ℕ) };

    ghost view = { λ t. t.rows.items };
}

// The place of a kind in a row.
fn column(case: &Case, kind: Amount) -> usize
    requires { InRange kind case.now.parts }
    ensures value { result ≡ column kind }
    ensures within { result < columns case.now.parts }
{
    let topics = case.topics();
    match kind {
        Amount::Load(res) => res,
        Amount::Replicas => 4,
        Amount::Leaders => 5,
        Amount::PotentialOut => 6,
        Amount::LeaderIn => 7,
        Amount::OfTopic(topic) => 2 * topic + 8,
        Amount::LedInTopic(topic) => 2 * topic + 9,
    }
}

// The kind at one of the first eight places.
fn kind_at(column: usize) -> Amount
    requires { column < 8 }
    ensures { result ≡ kind_at column }
{
    match column {
        0..=3 => Amount::Load(column),
        4 => Amount::Replicas,
        5 => Amount::Leaders,
        6 => Amount::PotentialOut,
        _ => Amount::LeaderIn,
    }
}

// What a place of a partition's list carries.
fn weight_at(case: &Case, kind: Amount, part: usize, first: bool) -> u64
    requires range { InRange kind case.now.parts }
    requires part { part < length case.now.parts }
    ensures value { result ≡ weight_at kind case.now.parts part first }
    ensures small { result < 2 ^ 32 }
{
    let weights = weights_at(case, kind, part);
    if first { weights.lead } else { weights.follow }
}

fn changed(amount: u64, weight: u64, gains: bool) -> u64
    requires fits { amount < 2 ^ 63 }
    requires small { weight < 2 ^ 32 }
    requires enough { gains ≡ false → weight ≤ amount }
    ensures { result + (if gains then 0 else weight) ≡ amount + (if gains then weight else 0) }
{
    if gains {
        amount + weight
    } else {
        amount - weight
    }
}

impl Row {
    // A row of nothing.
    fn empty(alloc: Global, columns: usize) -> Result<Row, Memory>
        ensures long { IfOk result (λ r. length r ≡ columns) }
        ensures nothing { IfOk result (λ r. (j : ℕ) → slice_index r j ≡ 0) }
    {
        Ok(Row {
            amounts: vec![in alloc; 0u64; columns]?,
        })
    }

    // One number.
    fn amount(&self, column: usize) -> u64
        requires { column < length self.now }
        ensures { result ≡ slice_index self.now column }
    {
        self.amounts[column]
    }

    // Changes one number.
    fn change_at(&mut self, column: usize, weight: u64, gains: bool)
        // The column, what it has and what is added or taken.
        requires column { column < length self.old }
        requires fits { slice_index self.old column < 2 ^ 63 }
        requires small { weight < 2 ^ 32 }
        requires enough { gains ≡ false → weight ≤ slice_index self.old column }
        // This column alone changes, by the weight.
        ensures long { length self.new ≡ length self.old }
        ensures here { slice_index self.new column + (if gains then 0 else weight)
            ≡ slice_index self.old column + (if gains then weight else 0) }
        ensures others { (j : ℕ) → (j ≡ column → ⊥)
            → slice_index self.new j ≡ slice_index self.old j }
    {
        self.amounts[column] = changed(self.amounts[column], weight, gains);
    }

    // Takes a place of a partition's list on or off, for one kind.
    fn change_kind(&mut self, case: &Case, kind: Amount, part: usize, first: bool, gains: bool)
        // The kind, the partition and the row.
        requires range { InRange kind case.now.parts }
        requires part { part < length case.now.parts }
        requires long { length self.old ≡ columns case.now.parts }
        // The sum has room, and has what is taken.
        requires fits { slice_index self.old (column kind) < 2 ^ 63 }
        requires enough { gains ≡ false
            → weight_at kind case.now.parts part first ≤ slice_index self.old (column kind) }
        // The column of this kind alone changes.
        ensures long { length self.new ≡ length self.old }
        ensures here { slice_index self.new (column kind) +
            (if gains then 0 else weight_at kind case.now.parts part first)
            ≡ slice_index self.old (column kind) +
            (if gains then weight_at kind case.now.parts part first else 0) }
        ensures others { (j : ℕ) → (j ≡ column kind → ⊥)
            → slice_index self.new j ≡ slice_index self.old j }
    {
        let weight = weight_at(case, kind, part, first);
        self.change_at(column(case, kind), weight, gains);
    }

    // Takes a place of a partition's list on or off.
    fn change(&mut self, case: &Case, part: usize, first: bool, gains: bool)
        requires part { part < length case.now.parts }
        requires long { length self.old ≡ columns case.now.parts }
        requires fits { (kind : Amount) → InRange kind case.now.parts
            → slice_index self.old (column kind) < 2 ^ 63 }
        requires enough { gains ≡ false → (kind : Amount) → InRange kind case.now.parts
            → weight_at kind case.now.parts part first ≤ slice_index self.old (column kind) }
        ensures { IsChanged case.now.parts
            (λ kind. if gains then 0 else weight_at kind case.now.parts part first)
            (λ kind. if gains then weight_at kind case.now.parts part first else 0) self.old
            self.new }
    {
        let topic = case.topic(part);
        for j in 0..8 {
            self.change_kind(case, kind_at(j), part, first, gains);
        }
        self.change_kind(case, Amount::OfTopic(topic), part, first, gains);
        self.change_kind(case, Amount::LedInTopic(topic), part, first, gains);
    }

    // Takes all places of a partition's list on.
    fn add_places(&mut self, case: &Case, part: usize, list: &[u32])
        requires part { part < length case.now.parts }
        requires short { length list.now ≤ 8 }
        requires long { length self.old ≡ columns case.now.parts }
        requires fits { (kind : Amount) → InRange kind case.now.parts
            → slice_index self.old (column kind) < 2 ^ 49 }
        ensures { IsChanged case.now.parts (λ kind. 0)
            (λ kind. list_load (lead_at kind case.now.parts part)
            (follow_at kind case.now.parts part) 0 (map (λ _. 0) list.now)) self.old self.new }
    {
        let _parts = case.parts();
        for place in 0..list.len() {
            self.change(case, part, place == 0, true);
        }
    }

    /// What all brokers carry together.
    pub fn totals(alloc: Global, case: &Case, lists: &Assign) -> Result<Row, Memory>
        requires { length lists.now ≡ length case.now.parts }
        ensures { IfOk result (AreTotals case.now.parts lists.now) }
    {
        let _assignment = lists.lists();
        let _parts = case.parts();
        let mut row = Row::empty(alloc, 2 * case.topics() + 8)?;
        for part in 0..lists.len() {
            row.add_places(case, part, lists.list(part));
        }
        Ok(row)
    }

    /// What all brokers carry together of one kind, where this row has the totals.
    pub fn total(&self, case: &Case, kind: Amount) -> u64
        requires range { InRange kind case.now.parts }
        requires long { length self.now ≡ columns case.now.parts }
        ensures { result ≡ slice_index self.now (column kind) }
    {
        self.amount(column(case, kind))
    }
}

impl Table {
    // The table of no lists.
    fn empty(alloc: Global, case: &Case) -> Result<Table, Memory>
        ensures { IfOk result (IsTable case.now []) }
    {
        let columns = 2 * case.topics() + 8;
        let mut rows = Vec::new(alloc);
        for _broker in case.brokers() {
            rows.push(Row::empty(alloc, columns)?)?;
        }
        Ok(Table { rows })
    }

    /// The table of these lists.
    pub fn new(alloc: Global, case: &Case, lists: &Assign) -> Result<Table, Memory>
        requires { length lists.now ≡ length case.now.parts }
        ensures { IfOk result (IsTable case.now lists.now) }
    {
        let _assignment = lists.lists();
        let _parts = case.parts();
        let mut table = Table::empty(alloc, case)?;
        for part in 0..lists.len() {
            table.add_list(case, part, lists.list(part));
        }
        Ok(table)
    }

    // Takes a place of the broker of this id on or off.
    fn change(&mut self, case: &Case, id: u32, part: usize, first: bool, gains: bool)
        // The partition, and a row for each broker.
        requires part { part < length case.now.parts }
        requires one_each { length self.old ≡ length case.now.brokers }
        requires long { AreLong case.now self.old }
        // The sums have room, and have what is taken.
        requires fits { AreBelow (2 ^ 63) case.now self.old }
        requires enough { gains ≡ false → (k : ℕ) → k < length case.now.brokers → (kind : Amount)
            → InRange kind case.now.parts
            → put_on id (id_at case.now.brokers k) kind case.now.parts part first
            ≤ slice_index (get_or self.old k []) (column kind) }
        // The sums after the change.
        ensures one_each { length self.new ≡ length self.old }
        ensures each { (k : ℕ) → k < length case.now.brokers
            → IsChanged case.now.parts
            (λ kind. if gains then 0 else put_on id (id_at case.now.brokers k) kind
            case.now.parts part first)
            (λ kind. if gains then put_on id (id_at case.now.brokers k) kind case.now.parts part
            first else 0) (get_or self.old k []) (get_or self.new k []) }
    {
        if let Some(broker) = case.place(id) {
            self.rows[broker].change(case, part, first, gains);
        }
    }

    // Takes the places of a partition's list on.
    fn add_list(&mut self, case: &Case, part: usize, list: &[u32])
        // The partition and its list, and a row for each broker.
        requires part { part < length case.now.parts }
        requires short { length list.now ≤ 8 }
        requires one_each { length self.old ≡ length case.now.brokers }
        requires long { AreLong case.now self.old }
        // The sums have room.
        requires fits { AreBelow (2 ^ 49) case.now self.old }
        // The sums with the list.
        ensures one_each { length self.new ≡ length self.old }
        ensures each { (k : ℕ) → k < length case.now.brokers
            → IsChanged case.now.parts (λ kind. 0)
            (λ kind. list_load (lead_at kind case.now.parts part)
            (follow_at kind case.now.parts part) (id_at case.now.brokers k) list.now)
            (get_or self.old k []) (get_or self.new k []) }
    {
        let _parts = case.parts();
        for (place, id) in list.iter().enumerate() {
            self.change(case, *id, part, place == 0, true);
        }
    }

    /// Takes a place of one broker off, and the same place of another on.
    pub fn shift(&mut self, case: &Case, part: usize, first: bool, from: u32, to: u32)
        // The partition, and a row for each broker.
        requires part { part < length case.now.parts }
        requires one_each { length self.old ≡ length case.now.brokers }
        requires long { AreLong case.now self.old }
        // The sums have room, and the giver has what goes.
        requires fits { AreBelow (2 ^ 62) case.now self.old }
        requires enough { (k : ℕ) → k < length case.now.brokers → (kind : Amount)
            → InRange kind case.now.parts
            → put_on from (id_at case.now.brokers k) kind case.now.parts part first
            ≤ slice_index (get_or self.old k []) (column kind) + put_on to
            (id_at case.now.brokers k) kind case.now.parts part first }
        // The sums behind the move.
        ensures one_each { length self.new ≡ length self.old }
        ensures each { (k : ℕ) → k < length case.now.brokers → IsChanged case.now.parts
            (λ kind. put_on from (id_at case.now.brokers k) kind case.now.parts part first)
            (λ kind. put_on to (id_at case.now.brokers k) kind case.now.parts part first)
            (get_or self.old k []) (get_or self.new k []) }
    {
        let _parts = case.parts();
        self.change(case, to, part, first, true);
        self.change(case, from, part, first, false);
    }

    /// What the broker at a place carries.
    pub fn amount(&self, case: &Case, kind: Amount, broker: usize) -> u64
        requires range { InRange kind case.now.parts }
        requires one_each { length self.now ≡ length case.now.brokers }
        requires long { length (get_or self.now broker []) ≡ columns case.now.parts }
        requires broker { broker < length case.now.brokers }
        ensures { result ≡ slice_index (get_or self.now broker []) (column kind) }
    {
        self.rows[broker].amount(column(case, kind))
    }
}
