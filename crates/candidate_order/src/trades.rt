// What the earlier goals say of any action, by the rooms of its two brokers.
ghost use Rattle.candidate_order.specs.Known.{StepFor, rooms_for};
ghost use Rattle.std.specs.Prelude.{◌≡◌, ◌<◌, ◌↔◌, ℕ, IsTrue, map, length, get_or};
ghost use Rattle.std.specs.List.{All};
ghost use Rattle.candidate_order.specs.Looks.{look_out, look_back, BothStay};
ghost use Rattle.goal_terms.specs.Pairs.{giver, taker};
ghost use Rattle.goal_terms.specs.Rooms.{free, StaysIn};
ghost use Rattle.plan_terms.specs.Belongs.{IsBookOf};

use crate::rows::others_accept;
use goal_terms::Room;
use load_model::{Case, LoadBook};
use move_actions::{Goal, legal};
use plan_terms::Action;

// Whether a broker that gives and gets so much stays in its room.
fn stays(room: Room, out: u64, back: u64) -> bool
    ensures { IsTrue result ↔ StaysIn room out back }
{
    out.saturating_sub(back) <= room.give && back.saturating_sub(out) <= room.take
}

/// Whether both brokers stay in their rooms for each goal.
pub fn all_stay(outs: &[u64], backs: &[u64], givers: &[Room], takers: &[Room]) -> bool
    requires backs { length outs.now ≡ length backs.now }
    requires givers { length outs.now ≡ length givers.now }
    requires takers { length outs.now ≡ length takers.now }
    ensures { IsTrue result
        ↔ ((k : ℕ) → k < length outs.now
        → BothStay (get_or outs.now k 0) (get_or backs.now k 0) (get_or givers.now k free)
        (get_or takers.now k free)) }
{
    for k in 0..outs.len() {
        if !stays(givers[k], outs[k], backs[k]) {
            return false;
        }
        if !stays(takers[k], backs[k], outs[k]) {
            return false;
        }
    }
    true
}

/// Whether an action is legal, each earlier goal accepts it, and it lessens the goal.
pub fn trade_serves<G: Goal>(
    case: &Case,
    book: &LoadBook,
    earlier: &[G],
    goal: &G,
    part: u32,
    action: Action,
    outs: &[u64],
    backs: &[u64],
    givers: &[Room],
    takers: &[Room],
) -> bool
    // The goals and the book are of the case.
    requires made { All (λ g. G.made_for g case.now) earlier.now }
    requires made_goal { G.made_for goal.now case.now }
    requires belongs { IsBookOf case.now book.now }
    // What goes and what comes back, and the rooms on both sides.
    requires part { part < length case.now.parts }
    requires outs { outs.now
        ≡ map (λ g. look_out (G.weighs g) case.now.parts book.now.lists action) earlier.now }
    requires backs { backs.now
        ≡ map (λ g. look_back (G.weighs g) case.now.parts book.now.lists action) earlier.now }
    requires givers { givers.now
        ≡ rooms_for G.Goal case.now book.now.lists (giver book.now.lists action) earlier.now }
    requires takers { takers.now
        ≡ rooms_for G.Goal case.now book.now.lists (taker action) earlier.now }
    // Whether the action serves.
    ensures { IsTrue result ↔ StepFor G.Goal case.now book.now.lists earlier.now goal.now action }
{
    let _brokers = case.brokers();
    if !all_stay(outs, backs, givers, takers) {
        return false;
    }
    if !legal(case, book, action) {
        return false;
    }
    if !goal.lessens(case, book, action) {
        return false;
    }
    others_accept(case, book, earlier, part, action)
}
