// What a goal says of the lists and of an action.
ghost use Rattle.goal_terms.specs.Pairs.{ColdPairs, IdleTrades, StillParts, giver, taker};
ghost use Rattle.goal_terms.specs.Quantity.{Weights, part_weight, total};
ghost use Rattle.goal_terms.specs.Rooms.{RoomsDecide};
ghost use Rattle.goal_terms.specs.Verdicts.{VerdictsStay};
ghost use Rattle.goal_terms.specs.declared.room.Room.{Room};
ghost use Rattle.plan_terms.specs.declared.actions.Action.{Action};
ghost use Rattle.goal_terms.specs.declared.heat.Heat.{Heat};
ghost use Rattle.std.specs.Prelude.{◌≡◌, ◌<◌, ◌≤◌, ◌^◌, ◌↔◌, ℕ, Bool, IsTrue, IfSome, Option, option_map, length};
ghost use Rattle.plan_terms.specs.Belongs.{Belongs, IsBookOf};
ghost use Rattle.plan_terms.specs.Cluster.{Cluster, Lists, id_at};
ghost use Rattle.plan_terms.specs.Effect.{after};
ghost use Rattle.plan_terms.specs.Faults.{IsCase};
ghost use Rattle.plan_terms.specs.Fits.{fits, targets_known};
ghost use Rattle.plan_terms.specs.Goal.{Meaning, Accepts, Lessens, measure};

use goal_terms::{Heat, Room};
use load_model::{Case, LoadBook};
use plan_terms::Action;

/// A goal of the planner: units, each with an excess, of which none is wanted.
pub trait Goal {
    /// What the goal means for a cluster.
    ghost meaning: { Self → Cluster → Meaning };

    /// The goal was made for the cluster.
    ghost made_for: { Self → Cluster → Type 0 };

    /// Where the quantity of the broker of an id lies.
    ghost heat_at: { Self → Cluster → Lists → ℕ → Heat };

    /// Whether an action of a partition may lessen the measure.
    ghost stirs_at: { Self → Cluster → Lists → ℕ → Bool };

    /// What the places of a list add to a broker's quantity, for a goal that has one.
    ghost weighs: { Self → Option Weights };

    /// How much the broker of an id may give and take, for a goal that has a quantity of brokers.
    ghost room_at: { Self → Cluster → Lists → ℕ → Room };

    /// Whether a plan fails where the goal stays broken.
    fn is_hard(&self, case: &Case) -> bool
        requires { made_for self.now case.now }
        ensures { result ≡ (meaning self.now case.now).hard };

    /// The number of units.
    fn units(&self, case: &Case) -> usize
        requires { made_for self.now case.now }
        ensures { result ≡ (meaning self.now case.now).units };

    /// How far the lists exceed the goal at one unit.
    fn excess(&self, case: &Case, book: &LoadBook, unit: usize) -> u128
        requires made { made_for self.now case.now }
        requires belongs { IsBookOf case.now book.now }
        requires unit { unit < (meaning self.now case.now).units }
        ensures { result ≡ (meaning self.now case.now).excess book.now.lists unit };

    /// Whether no unit's excess is greater after the action.
    fn accepts(&self, case: &Case, book: &LoadBook, action: Action) -> bool
        requires made { made_for self.now case.now }
        requires belongs { IsBookOf case.now book.now }
        requires applies { IsTrue (fits book.now.lists action) }
        requires known { IsTrue (targets_known case.now action) }
        ensures { IsTrue result ↔ Accepts (meaning self.now case.now) book.now.lists action };

    /// Whether the measure is smaller after the action.
    fn lessens(&self, case: &Case, book: &LoadBook, action: Action) -> bool
        requires made { made_for self.now case.now }
        requires belongs { IsBookOf case.now book.now }
        requires applies { IsTrue (fits book.now.lists action) }
        requires known { IsTrue (targets_known case.now action) }
        ensures { IsTrue result ↔ Lessens (meaning self.now case.now) book.now.lists action };

    /// Where the quantity of the broker at a place lies, and so which of its actions may lessen the
    /// measure.
    fn heat(&self, case: &Case, book: &LoadBook, broker: usize) -> Heat
        requires made { made_for self.now case.now }
        requires belongs { IsBookOf case.now book.now }
        requires broker { broker < length case.now.brokers }
        ensures { result
            ≡ heat_at self.now case.now book.now.lists (id_at case.now.brokers broker) };

    /// Whether an action of the partition may lessen the measure.
    fn stirs(&self, case: &Case, book: &LoadBook, part: u32) -> bool
        requires made { made_for self.now case.now }
        requires belongs { IsBookOf case.now book.now }
        requires part { part < length case.now.parts }
        ensures { result ≡ stirs_at self.now case.now book.now.lists part };

    /// What one replica of a partition adds to its broker's quantity, as the leader or as a
    /// follower. `None` where the goal has no quantity of brokers.
    fn weight(&self, case: &Case, part: u32, leads: bool) -> Option<u64>
        requires made { made_for self.now case.now }
        requires part { part < length case.now.parts }
        ensures { result
            ≡ option_map (λ w. part_weight w case.now.parts part leads) (weighs self.now) };

    /// What all brokers carry together, for a goal that has a quantity of brokers. No action
    /// changes it.
    fn whole(&self, case: &Case, book: &LoadBook) -> Option<u128>
        requires made { made_for self.now case.now }
        requires belongs { IsBookOf case.now book.now }
        ensures { result
            ≡ option_map (λ w. total w case.now.parts book.now.lists) (weighs self.now) };

    /// How much the broker at a place may give and take, where all brokers carry `all` together.
    /// `None` where the goal has no quantity of brokers.
    fn room(&self, case: &Case, book: &LoadBook, all: u128, broker: usize) -> Option<Room>
        requires made { made_for self.now case.now }
        requires belongs { IsBookOf case.now book.now }
        requires all { IfSome (weighs self.now) (λ w. all ≡ total w case.now.parts book.now.lists) }
        requires broker { broker < length case.now.brokers }
        ensures { result
            ≡ option_map
            (λ _. room_at self.now case.now book.now.lists (id_at case.now.brokers broker))
            (weighs self.now) };

    /// Every measure is below 2^120.
    ghost small: { (g : Self) (c : Cluster) (lists : Lists) → made_for g c → IsCase c
        → Belongs c lists → measure (meaning g c) lists < 2 ^ 120 };

    /// An action of two cold brokers doesn't lessen the measure.
    ghost cold_pairs: { (g : Self) (c : Cluster) (lists : Lists) → made_for g c → IsCase c
        → Belongs c lists → ColdPairs (meaning g c) (heat_at g c lists) lists };

    /// An action none of whose partitions stirs doesn't lessen it.
    ghost still_parts: { (g : Self) (c : Cluster) (lists : Lists) → made_for g c → IsCase c
        → Belongs c lists → StillParts (meaning g c) (stirs_at g c lists) lists };

    /// A trade of equal weights doesn't lessen it; nor does one that gives no less to a broker that
    /// isn't below its bounds and takes no less from one that isn't above them.
    ghost idle_trades: { (g : Self) (c : Cluster) (lists : Lists) → made_for g c → IsCase c
        → Belongs c lists
        → IfSome (weighs g) (IdleTrades (meaning g c) (heat_at g c lists) c.parts lists) };

    /// It accepts an action exactly where the trade stays in the rooms of its two brokers.
    ghost rooms_decide: { (g : Self) (c : Cluster) (lists : Lists) → made_for g c → IsCase c
        → Belongs c lists
        → IfSome (weighs g) (RoomsDecide (meaning g c) (room_at g c lists) c.parts lists) };

    /// An action leaves the room of every broker but its giver and its taker as it was.
    ghost rooms_stay: { (g : Self) (c : Cluster) (lists : Lists) → made_for g c → Belongs c lists
        → (a : Action) → IsTrue (fits lists a)
        → (k : ℕ) → (k ≡ giver lists a → ⊥) → (k ≡ taker a → ⊥)
        → room_at g c (after a lists) k ≡ room_at g c lists k };

    /// An action leaves what the goal says of every other that shares no broker and no partition
    /// with it.
    ghost verdicts_stay: { (g : Self) (c : Cluster) (lists : Lists) → made_for g c → IsCase c
        → Belongs c lists → VerdictsStay (meaning g c) lists };
}

/// The sum of a goal's excesses, below 2^120. The goal is met where it is 0.
#[tactic(auto, unfolding(plan_terms::specs::Goal::measure))]
pub fn measure<G: Goal>(goal: &G, case: &Case, book: &LoadBook) -> u128
    requires made { G.made_for goal.now case.now }
    requires belongs { IsBookOf case.now book.now }
    ensures value { result ≡ measure (G.meaning goal.now case.now) book.now.lists }
    ensures small { result < 2 ^ 120 }
{
    let _parts = case.parts();
    let mut total = 0u128;
    let end = goal.units(case);
    for unit in 0..end {
        total += goal.excess(case, book, unit);
    }
    total
}
