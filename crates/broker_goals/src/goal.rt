// Goals over brokers: the two brokers of an action decide what it does.
ghost use Rattle.goal_terms.specs.Heats.{broker_heat};
ghost use Rattle.plan_terms.specs.Cluster.{id_at};
ghost use Rattle.goal_terms.specs.PerBroker.{broker_excess, per_broker, unit_brokers};
ghost use Rattle.goal_terms.specs.Quantity.{part_weight};
ghost use Rattle.goal_terms.specs.Rooms.{broker_room};
ghost use Rattle.goal_terms.specs.Sides.{sides};
ghost use Rattle.std.specs.Prelude.{◌≡◌, ◌+◌, ◌<◌, ◌≤◌, ◌^◌, IfOk, IsTrue, true, Some, get_or, length, map};

use crate::amount::{Amount, NewAmount};
use crate::band::{Band, NewBand};
use crate::excess::{
    excess_at_place, heat_at_place, room_at_place, total_of, unit_count, unit_place,
};
use crate::names::Strength;
use crate::sides::{place_weight, sides_of};
use goal_terms::{Heat, Room};
use load_model::{Case, LoadBook};
use move_actions::Goal;
use plan_terms::{Action, Memory};
use std::alloc::Global;
use std::marker::PhantomData;

/// The goal that no broker's quantity `A` lies outside the bounds `B`, which is as strong as `S`
/// says. Its units are the brokers that aren't lost, in order.
#[derive(Drop)]
pub struct BrokerGoal<A, B, S> {
    kind: A,
    band: B,
    strength: PhantomData<S>,
}

impl<A: Amount, B: Band, S: Strength> BrokerGoal<A, B, S> {
    /// The goal of this quantity and these bounds.
    pub fn of(kind: A, band: B) -> Self
        ensures kind { result.kind ≡ kind }
        ensures band { result.band ≡ band }
    {
        BrokerGoal {
            kind,
            band,
            strength: PhantomData,
        }
    }
}

impl<A: NewAmount, B: NewBand, S: Strength> BrokerGoal<A, B, S> {
    /// The goal for the case.
    pub fn new(_alloc: Global, case: &Case) -> Result<Self, Memory>
        ensures { IfOk result
            (λ goal. A.made_for goal.kind case.now × B.made_for goal.band case.now) }
    {
        Ok(BrokerGoal {
            kind: A::new(),
            band: B::new(case),
            strength: PhantomData,
        })
    }
}

impl<A: Amount, B: Band, S: Strength> Goal for BrokerGoal<A, B, S> {
    ghost use Rattle.goal_terms.proofs.BoundLemmas.{per_broker-fits_120_bits};
    ghost use Rattle.goal_terms.proofs.CaseLemmas.{Limits-case};
    ghost use Rattle.goal_terms.proofs.PairLemmas.{broker-cold_pairs, broker-idle_trades, stirred-still_parts};
    ghost use Rattle.goal_terms.proofs.RoomLemmas.{broker-rooms_decide, broker-rooms_stay};
    ghost use Rattle.goal_terms.proofs.VerdictLemmas.{broker-verdicts_stay};

    ghost meaning = { λ g c. per_broker S.HARD (A.weights g.kind) (B.bounds g.band c) c };

    ghost made_for = { λ g c. A.made_for g.kind c × B.made_for g.band c };

    ghost heat_at = { λ g c lists k. broker_heat (A.weights g.kind) (B.bounds g.band c) c lists k };

    ghost room_at = { λ g c lists k. broker_room (A.weights g.kind) (B.bounds g.band c) c lists k };

    ghost stirs_at = { λ _ _ _ _. true };

    ghost weighs = { λ g. Some (A.weights g.kind) };

    fn is_hard(&self, _case: &Case) -> bool {
        S::HARD
    }

    fn units(&self, case: &Case) -> usize {
        unit_count(case.brokers())
    }

    fn excess(&self, case: &Case, book: &LoadBook, unit: usize) -> u128 {
        let place = unit_place(case.brokers(), unit);
        excess_at_place(&self.kind, &self.band, case, book, place)
    }

    fn accepts(&self, case: &Case, book: &LoadBook, action: Action) -> bool {
        let _brokers = case.brokers();
        let sides = sides_of(&self.kind, &self.band, case, book, action);
        sides.giver_after <= sides.giver && sides.taker_after <= sides.taker
    }

    fn lessens(&self, case: &Case, book: &LoadBook, action: Action) -> bool {
        let _brokers = case.brokers();
        let sides = sides_of(&self.kind, &self.band, case, book, action);
        sides.giver_after + sides.taker_after < sides.giver + sides.taker
    }

    fn heat(&self, case: &Case, book: &LoadBook, broker: usize) -> Heat {
        heat_at_place(&self.kind, &self.band, case, book, broker)
    }

    fn stirs(&self, _case: &Case, _book: &LoadBook, _part: u32) -> bool {
        true
    }

    fn weight(&self, case: &Case, part: u32, leads: bool) -> Option<u64> {
        Some(place_weight(&self.kind, case, part, leads))
    }

    fn whole(&self, case: &Case, book: &LoadBook) -> Option<u128> {
        Some(total_of(&self.kind, case, book))
    }

    fn room(&self, case: &Case, book: &LoadBook, all: u128, broker: usize) -> Option<Room> {
        Some(room_at_place(&self.kind, &self.band, case, book, all, broker))
    }

    ghost small = { λ g c lists made is_case fits. let limits = Limits-case c is_case in
        per_broker-fits_120_bits (A.weights g.kind) c lists limits
        (λ k d l. A.small_weights g.kind (get_or c.parts k d) (limits.loads k d l)) fits S.HARD
        (B.bounds g.band c) (B.small_bounds g.band c made.1 is_case) };

    ghost cold_pairs = { λ g c lists _ is_case fits. broker-cold_pairs S.HARD (A.weights g.kind)
        (B.bounds g.band c) c lists (Limits-case c is_case) fits };

    ghost still_parts = { λ g c lists _ _ _. stirred-still_parts
        (per_broker S.HARD (A.weights g.kind) (B.bounds g.band c) c) lists };

    ghost idle_trades = { λ g c lists _ is_case fits. broker-idle_trades S.HARD (A.weights g.kind)
        (B.bounds g.band c) c lists (Limits-case c is_case) fits };

    ghost rooms_decide = { λ g c lists _ is_case fits. let limits = Limits-case c is_case in
        broker-rooms_decide S.HARD (A.weights g.kind) (B.bounds g.band c) c lists limits fits
        (λ k d l. A.small_weights g.kind (get_or c.parts k d) (limits.loads k d l)) };

    ghost rooms_stay = { λ g c lists _ belongs a fit k not_giver not_taker. broker-rooms_stay
        (A.weights g.kind) (B.bounds g.band c) c lists a belongs fit k not_giver not_taker };

    ghost verdicts_stay = { λ g c lists _ is_case fits. broker-verdicts_stay S.HARD
        (A.weights g.kind) (B.bounds g.band c) c lists (Limits-case c is_case) fits };
}
