// Goals with one unit for each partition, whose excess is a number of its list.
ghost use Rattle.goal_terms.specs.Heats.{has_excess};
ghost use Rattle.goal_terms.specs.declared.heat.Heat.TheVariants as heat;
ghost use Rattle.goal_terms.specs.Rooms.{free};
ghost use Rattle.std.specs.Prelude.{◌≡◌, ◌<◌, ◌≤◌, ◌^◌, ◌↔◌, IsTrue, length, take, slice_set, false, ◌+◌, None};
ghost use Rattle.plan_terms.specs.Cluster.{list_of, has, leads, id_at};
ghost use Rattle.plan_terms.specs.Effect.{replace, exchange_first, after};
ghost use Rattle.plan_terms.specs.Goal.{Meaning, Accepts, Lessens, per_partition};

use crate::rule::ListRule;
use goal_terms::{Heat, Room};
use load_model::{Case, LoadBook};
use move_actions::{Goal, place_of};
use plan_terms::{Action, Memory};
use std::alloc::Global;

/// The goal that no list exceeds the rule. Its units are the partitions.
#[derive(Drop)]
pub struct PartitionGoal<R> {
    rule: R,
}

// A short list as an array, with one place changed.
fn changed(list: &[u32], place: usize, to: u32) -> [u32; 8]
    requires short { length list.now ≤ 8 }
    requires place { place < length list.now }
    ensures { take (length list.now) result ≡ slice_set list.now place to }
{
    let mut copy = [0u32; 8];
    for (i, x) in list.iter().enumerate() {
        copy[i] = *x;
    }
    copy[place] = to;
    copy
}

// A short list as an array, with two places changed.
fn changed_twice(list: &[u32], first: usize, second: usize, one: u32, two: u32) -> [u32; 8]
    requires short { length list.now ≤ 8 }
    requires first { first < length list.now }
    requires second { second < length list.now }
    ensures { take (length list.now) result ≡ slice_set (slice_set list.now first one) second two }
{
    let mut copy = changed(list, first, one);
    copy[second] = two;
    copy
}

impl<R: ListRule> PartitionGoal<R> {
    /// The goal for the case.
    pub fn new(_alloc: Global, _case: &Case) -> Result<Self, Memory> {
        Ok(PartitionGoal { rule: R::new() })
    }
}

// What the excess of a list is with one member in another's place.
fn excess_with<R: ListRule>(rule: &R, case: &Case, list: &[u32], from: u32, to: u32) -> usize
    requires short { length list.now ≤ 8 }
    requires member { IsTrue (has list.now from) }
    ensures { result ≡ R.list_excess rule.now case.now (replace from to list.now) }
{
    let copy = changed(list, place_of(list, from), to);
    rule.excess_of(case, &copy[..list.len()])
}

// What the excess of a list is with another member first.
fn excess_led_by<R: ListRule>(rule: &R, case: &Case, list: &[u32], to: u32) -> usize
    requires short { length list.now ≤ 8 }
    requires member { IsTrue (has list.now to) }
    requires later { leads list.now to ≡ false }
    ensures { result ≡ R.list_excess rule.now case.now (exchange_first to list.now) }
{
    let first = list[0];
    let copy = changed_twice(list, place_of(list, to), 0, first, to);
    rule.excess_of(case, &copy[..list.len()])
}

impl<R: ListRule> Goal for PartitionGoal<R> {
    ghost use Rattle.goal_terms.proofs.CaseLemmas.{Limits-case};
    ghost use Rattle.goal_terms.proofs.PairLemmas.{hot-cold_pairs};
    ghost use Rattle.goal_terms.proofs.PartitionHeat.{partition-still_parts};
    ghost use Rattle.goal_terms.proofs.VerdictLemmas.{partition-verdicts_stay};
    ghost use Rattle.plan_terms.proofs.PartitionLemmas.{per_partition-fits_120_bits};

    ghost meaning = { λ g c. per_partition (R.hard g.rule) (R.list_excess g.rule c) c };

    ghost made_for = { λ _ _. Unit {0} };

    ghost heat_at = { λ _ _ _ _. heat.Other };

    ghost stirs_at = { λ g c lists p. has_excess (R.list_excess g.rule c) lists p };

    ghost weighs = { λ _. None };

    ghost room_at = { λ _ _ _ _. free };

    fn is_hard(&self, _case: &Case) -> bool {
        self.rule.is_hard()
    }

    fn units(&self, case: &Case) -> usize {
        case.parts().len()
    }

    fn excess(&self, case: &Case, book: &LoadBook, unit: usize) -> u128 {
        self.rule.excess_of(case, book.list(unit)) as u128
    }

    fn accepts(&self, case: &Case, book: &LoadBook, action: Action) -> bool {
        match action {
            Action::Move { part, from, to } => {
                let list = book.list(part as usize);
                excess_with(&self.rule, case, list, from, to) <= self.rule.excess_of(case, list)
            }
            Action::Lead { part, to } => {
                let list = book.list(part as usize);
                excess_led_by(&self.rule, case, list, to) <= self.rule.excess_of(case, list)
            }
            Action::Swap {
                part,
                from,
                other,
                to,
            } => {
                let list = book.list(part as usize);
                let other_list = book.list(other as usize);
                let one = excess_with(&self.rule, case, list, from, to);
                let two = excess_with(&self.rule, case, other_list, to, from);
                one <= self.rule.excess_of(case, list)
                    && two <= self.rule.excess_of(case, other_list)
            }
        }
    }

    fn lessens(&self, case: &Case, book: &LoadBook, action: Action) -> bool {
        match action {
            Action::Move { part, from, to } => {
                let list = book.list(part as usize);
                excess_with(&self.rule, case, list, from, to) < self.rule.excess_of(case, list)
            }
            Action::Lead { part, to } => {
                let list = book.list(part as usize);
                excess_led_by(&self.rule, case, list, to) < self.rule.excess_of(case, list)
            }
            Action::Swap {
                part,
                from,
                other,
                to,
            } => {
                let list = book.list(part as usize);
                let other_list = book.list(other as usize);
                let one = excess_with(&self.rule, case, list, from, to);
                let two = excess_with(&self.rule, case, other_list, to, from);
                let before = self.rule.excess_of(case, list) as u128;
                let other_before = self.rule.excess_of(case, other_list) as u128;
                (one as u128) + (two as u128) < before + other_before
            }
        }
    }

    // Which brokers hold what exceeds the rule isn't told: that takes a look at each list, and the
    // partitions tell more.
    fn heat(&self, _case: &Case, _book: &LoadBook, _broker: usize) -> Heat {
        Heat::Other
    }

    fn stirs(&self, case: &Case, book: &LoadBook, part: u32) -> bool {
        self.rule.excess_of(case, book.list(part as usize)) > 0
    }

    fn weight(&self, _case: &Case, _part: u32, _leads: bool) -> Option<u64> {
        None
    }

    fn whole(&self, _case: &Case, _book: &LoadBook) -> Option<u128> {
        None
    }

    fn room(&self, _case: &Case, _book: &LoadBook, _all: u128, _broker: usize) -> Option<Room> {
        None
    }

    ghost small = { λ g c lists _ is_case fits. let limits = Limits-case c is_case in
        per_partition-fits_120_bits (R.hard g.rule) (R.list_excess g.rule c) c lists fits
        limits.few_parts (R.within g.rule c) };

    ghost cold_pairs = { λ g c lists _ _ _. hot-cold_pairs
        (per_partition (R.hard g.rule) (R.list_excess g.rule c) c) lists };

    ghost still_parts = { λ g c lists _ _ fits. partition-still_parts (R.list_excess g.rule c)
        (R.hard g.rule) c lists fits };

    ghost idle_trades = { λ _ _ _ _ _ _. tt };

    ghost rooms_decide = { λ _ _ _ _ _ _. tt };

    ghost rooms_stay = { λ _ _ _ _ _ _ _ _ _ _ _. free };

    ghost verdicts_stay = { λ g c lists _ _ _. partition-verdicts_stay (R.hard g.rule)
        (R.list_excess g.rule c) c lists };
}
