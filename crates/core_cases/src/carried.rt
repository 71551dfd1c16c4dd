// What the brokers of a case carry.
ghost use Rattle.std.specs.Prelude.{◌≡◌, ◌+◌, ◌*◌, ◌<◌, ◌≤◌, ◌^◌, ℕ, [], IfOk, get_or, length, map};
ghost use Rattle.std.specs.List.{All};
ghost use Rattle.core_terms.specs.Shows.{broker_shown};
ghost use Rattle.core_terms.specs.Submits.{no_part};
ghost use Rattle.core_cases.specs.Carried.{IsLight, IsWithin, idle, with_list, with_member, with_place};

use core_terms::BrokerShown;
use load_model::Case;
use plan_terms::{Broker, Memory, Part, resources};
use std::alloc::Global;
use std::marker::Model;

/// What each broker of a case carries, in the order of the brokers.
#[derive(Drop)]
pub struct Carried {
    rows: Vec<BrokerShown>,
}

impl Model for Carried {
    ghost use Rattle.std.specs.Prelude.{List};
    ghost use Rattle.core_terms.specs.declared.shows.BrokerShown.{BrokerShown};

    ghost Value = { List BrokerShown };

    ghost view = { λ c. c.rows.items };
}

// A broker that carries nothing.
fn idle(broker: &Broker) -> BrokerShown
    ensures { result ≡ idle broker.now }
{
    BrokerShown {
        broker: broker.id,
        state: broker.state,
        cpu: 0,
        nw_in: 0,
        nw_out: 0,
        disk: 0,
        potential_nw_out: 0,
        replicas: 0,
        leaders: 0,
    }
}

// Brokers that carry nothing.
fn idle_rows(alloc: Global, brokers: &[Broker]) -> Result<Vec<BrokerShown>, Memory>
    ensures { IfOk result (λ rows. rows.items ≡ map idle brokers.now) }
{
    Ok(brokers.iter().map(idle).collect(alloc)?)
}

// Adds one place of a partition's list, its first or another.
fn add_place(row: &mut BrokerShown, part: &Part, first: bool)
    requires light { IsLight part.now }
    requires within { IsWithin (2 ^ 31) row.old }
    ensures more { row.new ≡ with_place part.now first row.old }
    ensures within { (n : ℕ) → IsWithin n row.old → IsWithin (n + 1) row.new }
{
    let loads = if first {
        part.loads.lead
    } else {
        part.loads.follow
    };
    row.cpu += loads[resources::CPU];
    row.nw_in += loads[resources::NW_IN];
    row.nw_out += loads[resources::NW_OUT];
    row.disk += loads[resources::DISK];
    row.potential_nw_out += part.loads.lead[resources::NW_OUT];
    row.replicas += 1;
    row.leaders += u64::from(first);
}

impl Carried {
    /// The brokers of a case, without lists.
    pub fn new(alloc: Global, case: &Case) -> Result<Carried, Memory>
        ensures none { IfOk result (λ c. c ≡ map (broker_shown case.now []) case.now.brokers) }
        ensures within { IfOk result (All (IsWithin 0)) }
    {
        let rows = idle_rows(alloc, case.brokers())?;
        Ok(Carried { rows })
    }

    // Adds one place of a partition's list, which the broker of this id has.
    fn add_member(&mut self, case: &Case, part: usize, first: bool, id: u32)
        requires part { part < length case.now.parts }
        requires ids { map (λ s. s.broker) self.old ≡ map (λ b. b.id) case.now.brokers }
        requires within { All (IsWithin (2 ^ 31)) self.old }
        ensures more { self.new
            ≡ map (with_member (get_or case.now.parts part no_part) first id) self.old }
        ensures within { (n : ℕ) → All (IsWithin n) self.old → All (IsWithin (n + 1)) self.new }
    {
        if let Some(broker) = case.place(id) {
            add_place(&mut self.rows[broker], &case.parts()[part], first);
        }
    }

    /// Adds the places of a partition's list.
    pub fn add_list(&mut self, case: &Case, part: usize, list: &[u32])
        requires part { part < length case.now.parts }
        requires few { length list.now ≤ 16 }
        requires ids { map (λ s. s.broker) self.old ≡ map (λ b. b.id) case.now.brokers }
        requires within { All (IsWithin (2 ^ 30)) self.old }
        ensures more { self.new
            ≡ map (with_list (get_or case.now.parts part no_part) list.now) self.old }
        ensures within { (n : ℕ) → All (IsWithin n) self.old → All (IsWithin (n + 16)) self.new }
    {
        for (place, id) in list.iter().enumerate() {
            self.add_member(case, part, place == 0, *id);
        }
    }

    /// The rows.
    pub fn into_rows(self) -> Vec<BrokerShown>
        ensures { result.items ≡ self }
    {
        self.rows
    }
}
