// One broker's row in order: what comes and what goes.
ghost use Rattle.std.specs.Prelude.{◌≡◌, ◌<◌, ◌≤◌, ◌↔◌, ◌⊎◌, ℕ, IfOk, IsTrue, length, get_or, [], false};
ghost use Rattle.std.specs.List.{All, insert, remove};
ghost use Rattle.candidate_order.specs.CandidateList.{disk_of};
ghost use Rattle.candidate_order.specs.Order.{AreReplicasOf, IsInOrder};
ghost use Rattle.candidate_order.specs.Ranks.{IsAhead, IsPlaceFor, IsPut, IsTaken, IsTraded};
ghost use Rattle.goal_terms.specs.Quantity.{part_weight, load_weights};
ghost use Rattle.plan_terms.specs.Belongs.{IsBookOf};
ghost use Rattle.plan_terms.specs.Cluster.{list_of, has, leads};
ghost use Rattle.plan_terms.specs.Resources.{DISK};

use load_model::{Case, LoadBook};
use move_actions::place_of;
use plan_terms::{Memory, leads, resources};
use std::alloc::Global;
use std::marker::Model;

/// The greatest number of partitions of a case.
const MAX_PARTS: usize = 10_000;

/// The partitions of one broker's replicas, in order. There is room for each partition, so that
/// none is refused.
#[derive(Drop)]
pub struct Ranked {
    parts: Vec<u32>,
}

impl Model for Ranked {
    ghost use Rattle.std.specs.Prelude.{List, ℕ, ◌≤◌};
    ghost use Rattle.std.specs.Vec.{vec_capacity};

    ghost Value = { List ℕ };

    ghost view = { λ r. r.parts.items };

    ghost invariant = { λ r. 10001 ≤ vec_capacity r.parts };
}

impl Ranked {
    /// No partition.
    pub fn new(alloc: Global) -> Result<Ranked, Memory>
        ensures { IfOk result (λ r. r ≡ []) }
    {
        let parts = Vec::with_capacity(alloc, MAX_PARTS + 1)?;
        Ok(Ranked { parts })
    }

    /// The partitions, in order.
    pub fn as_slice(&self) -> &[u32]
        ensures { result.now ≡ self.now }
    {
        self.parts.as_slice()
    }

    /// Puts a partition at a place.
    pub fn insert(&mut self, place: usize, part: u32)
        requires place { place ≤ length self.old }
        requires few { length self.old ≤ 10000 }
        ensures { self.new ≡ insert self.old place part }
    {
        if self.parts.insert(place, part).is_err() {
            unreachable!()
        }
    }

    /// Takes out the partition at a place.
    pub fn remove(&mut self, place: usize)
        requires { place < length self.old }
        ensures { self.new ≡ remove self.old place }
    {
        let _part = self.parts.remove(place);
    }
}

// What a place of a partition adds to a broker's DISK load.
pub(crate) fn disk(case: &Case, part: u32, leads: bool) -> u64
    requires { part < length case.now.parts }
    ensures { result ≡ part_weight (load_weights DISK) case.now.parts part leads }
{
    let loads = &case.parts()[part as usize].loads;
    if leads {
        loads.lead[resources::DISK]
    } else {
        loads.follow[resources::DISK]
    }
}

// What the broker's place of a partition adds.
fn disk_at(case: &Case, book: &LoadBook, broker: u32, part: u32) -> u64
    requires belongs { IsBookOf case.now book.now }
    requires part { part < length case.now.parts }
    ensures { result ≡ disk_of case.now book.now.lists broker part }
{
    let _lists = book.lists();
    let first = leads(book.list(part as usize), broker);
    disk(case, part, first)
}

// Whether the first of two partitions goes before the other, by what each weighs.
fn is_ahead(weight: u64, part: u32, other_weight: u64, other: u32) -> bool
    ensures { IsTrue result ↔ IsAhead weight part other_weight other }
{
    other_weight < weight || weight == other_weight && part < other
}

// The place of a partition of that weight in a row in order.
fn place_for(
    case: &Case,
    book: &LoadBook,
    broker: u32,
    row: &[u32],
    part: u32,
    weight: u64,
) -> usize
    requires belongs { IsBookOf case.now book.now }
    requires in_order { IsInOrder (disk_of case.now book.now.lists broker) row.now }
    requires within { All (λ q. q < length case.now.parts) row.now }
    requires new { has row.now part ≡ false }
    ensures { IsPlaceFor (disk_of case.now book.now.lists broker) weight part row.now result }
{
    let _brokers = case.brokers();
    let mut low = 0;
    let mut high = row.len();
    while low < high {
        let middle = low + (high - low) / 2;
        let other = row[middle];
        let other_weight = disk_at(case, book, broker, other);
        if is_ahead(other_weight, other, weight, part) {
            low = middle + 1;
        } else {
            high = middle;
        }
    }
    low
}

// Puts a partition of that weight into a broker's row.
pub(crate) fn put_in(
    case: &Case,
    book: &LoadBook,
    broker: u32,
    row: &mut Ranked,
    part: u32,
    weight: u64,
)
    requires belongs { IsBookOf case.now book.now }
    requires in_order { IsInOrder (disk_of case.now book.now.lists broker) row.old }
    requires within { All (λ q. q < length case.now.parts) row.old }
    requires new { has row.old part ≡ false }
    requires few { length row.old ≤ 10000 }
    ensures { IsPut (disk_of case.now book.now.lists broker) weight part row.old row.new }
{
    let place = place_for(case, book, broker, row.as_slice(), part, weight);
    row.insert(place, part);
}

// Takes a partition out of a row.
pub(crate) fn take_out(row: &mut Ranked, part: u32)
    requires { IsTrue (has row.old part) }
    ensures { IsTaken part row.old row.new }
{
    let place = place_of(row.as_slice(), part);
    row.remove(place);
}

// Puts a partition of that weight into the row of a broker that has no replica of it.
pub(crate) fn gain_in(
    case: &Case,
    book: &LoadBook,
    broker: u32,
    row: &mut Ranked,
    part: u32,
    weight: u64,
)
    requires belongs { IsBookOf case.now book.now }
    requires row { AreReplicasOf case.now book.now.lists broker row.old }
    requires new { has (list_of book.now.lists part) broker ≡ false }
    ensures { IsPut (disk_of case.now book.now.lists broker) weight part row.old row.new }
{
    let _lists = book.lists();
    put_in(case, book, broker, row, part, weight);
}

// Takes one partition out of a broker's row and puts another in.
pub(crate) fn trade_in(
    case: &Case,
    book: &LoadBook,
    broker: u32,
    row: &mut Ranked,
    gone: u32,
    part: u32,
    weight: u64,
)
    requires belongs { IsBookOf case.now book.now }
    requires row { AreReplicasOf case.now book.now.lists broker row.old }
    requires member { IsTrue (has row.old gone) }
    requires new { (has row.old part ≡ false) ⊎ (part ≡ gone) }
    ensures { IsTraded (disk_of case.now book.now.lists broker) gone weight part row.old row.new }
{
    let _lists = book.lists();
    take_out(row, gone);
    put_in(case, book, broker, row, part, weight);
}
