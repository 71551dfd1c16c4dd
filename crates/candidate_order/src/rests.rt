// Which candidates are known not to serve.
ghost use Rattle.std.specs.Prelude.{◌≡◌, ◌<◌, ◌≤◌, ℕ, true, false, None, IfOk, IsTrue, length, get_or, slice_set, if◌then◌else◌, ◌==◌, ◌||◌};
ghost use Rattle.std.specs.List.{All, flat_map};
ghost use Rattle.candidate_order.specs.CandidateList.{candidates_at, replicas_of};
ghost use Rattle.candidate_order.specs.Known.{FindsFirst, IsRowFor, StepFor};
ghost use Rattle.candidate_order.specs.Rests.{IsRestsFor, MovesRestFor, TargetsRestFor};
ghost use Rattle.candidate_order.specs.declared.kinds.Kind.TheVariants as kind;
ghost use Rattle.goal_terms.specs.Pairs.{touches};
ghost use Rattle.plan_terms.specs.Belongs.{IsBookOf};
ghost use Rattle.plan_terms.specs.Cluster.{is_known};
ghost use Rattle.plan_terms.specs.Effect.{after};
ghost use Rattle.plan_terms.specs.Fits.{fits, targets_known};
ghost use Rattle.plan_terms.specs.declared.actions.Action.{Action};

use crate::kept::{Row, giver, taker};
use crate::kinds::Kind;
use crate::order::broker_place;
use load_model::{Case, LoadBook};
use move_actions::Goal;
use plan_terms::{Action, Memory};
use std::alloc::Global;

/// What is remembered of candidates that didn't serve. Times are numbers of actions.
#[derive(Drop)]
pub struct Rests {
    /// When an action last touched each broker, by their places.
    pub brokers: Vec<u64>,
    /// When one last touched each partition.
    pub parts: Vec<u64>,
    /// Before what time the moves of each broker's replicas were found not to serve, and so on.
    pub moves: Vec<u64>,
    pub leads: Vec<u64>,
    pub swaps: Vec<u64>,
    /// The time of the next action.
    pub time: u64,
}

// The times of the two brokers of an action.
fn touch_two(times: &mut Vec<u64>, giver: usize, taker: usize, time: u64)
    requires giver { giver < length times.old.items }
    requires taker { taker < length times.old.items }
    ensures { times.new.items ≡ slice_set (slice_set times.old.items giver time) taker time }
{
    times[giver] = time;
    times[taker] = time;
}

// The times of the partitions of an action.
fn touch_parts(times: &mut Vec<u64>, lists: &LoadBook, action: Action, time: u64)
    requires applies { IsTrue (fits lists.now.lists action) }
    requires length { length times.old.items ≡ length lists.now.lists }
    ensures length { length times.new.items ≡ length times.old.items }
    ensures each { (p : ℕ) → p < length times.old.items → get_or times.new.items p 0
        ≡ (if touches (λ q. q == p) action then time else get_or times.old.items p 0) }
{
    let _lists = lists.lists();
    match action {
        Action::Move { part, .. } => times[part as usize] = time,
        Action::Lead { part, .. } => times[part as usize] = time,
        Action::Swap { part, other, .. } => {
            times[part as usize] = time;
            times[other as usize] = time;
        }
    }
}

impl Rests {
    /// Nothing is known.
    pub fn new<G: Goal>(
        alloc: Global,
        case: &Case,
        book: &LoadBook,
        earlier: &[G],
        goal: &G,
    ) -> Result<Rests, Memory>
        ensures { IfOk result
            (IsRestsFor G.Goal case.now book.now.lists earlier.now goal.now) }
    {
        let _lists = book.lists();
        let _goals = earlier.len();
        let brokers = case.brokers().len();
        let parts = case.parts().len();
        Ok(Rests {
            brokers: vec![in alloc; 0u64; brokers]?,
            parts: vec![in alloc; 0u64; parts]?,
            moves: vec![in alloc; 0u64; brokers]?,
            leads: vec![in alloc; 0u64; brokers]?,
            swaps: vec![in alloc; 0u64; brokers]?,
            time: 1,
        })
    }

    // Before what time the moves of a broker's replicas were found not to serve. It is 0 where an
    // action touched the broker since. What was touched at that time or later is not known.
    pub(crate) fn moves_since<G: Goal>(
        &self,
        case: &Case,
        book: &LoadBook,
        earlier: &[G],
        goal: &G,
        source: &Row,
    ) -> u64
        requires rests { IsRestsFor G.Goal case.now book.now.lists earlier.now goal.now self.now }
        requires source { IsRowFor G.Goal case.now book.now.lists earlier.now goal.now source.now }
        ensures { MovesRestFor G.Goal case.now book.now.lists earlier.now goal.now self.now
            source.now.id result }
    {
        let _brokers = case.brokers();
        let _lists = book.lists();
        let _goals = earlier.len();
        let since = self.moves[source.place];
        if self.brokers[source.place] >= since {
            return 0;
        }
        since
    }

    // The same of one replica's moves. It is 0 where an action touched the partition since.
    pub(crate) fn replica_since<G: Goal>(
        &self,
        case: &Case,
        book: &LoadBook,
        earlier: &[G],
        goal: &G,
        part: u32,
        source: &Row,
    ) -> u64
        requires rests { IsRestsFor G.Goal case.now book.now.lists earlier.now goal.now self.now }
        requires part { part < length case.now.parts }
        requires source { IsRowFor G.Goal case.now book.now.lists earlier.now goal.now source.now }
        ensures { TargetsRestFor G.Goal case.now book.now.lists earlier.now goal.now self.now
            source.now.id part result }
    {
        let _brokers = case.brokers();
        let _lists = book.lists();
        let _goals = earlier.len();
        let since = self.moves_since(case, book, earlier, goal, source);
        if self.parts[part as usize] >= since {
            return 0;
        }
        since
    }

    // Whether a move of a replica to a broker is known not to serve.
    pub(crate) fn knows_move<G: Goal>(
        &self,
        case: &Case,
        book: &LoadBook,
        earlier: &[G],
        goal: &G,
        part: u32,
        source: u32,
        since: u64,
        target: &Row,
    ) -> bool
        requires brokers { length self.now.brokers.items ≡ length case.now.brokers }
        requires rest { TargetsRestFor G.Goal case.now book.now.lists earlier.now goal.now self.now
            source part since }
        requires target { IsRowFor G.Goal case.now book.now.lists earlier.now goal.now target.now }
        ensures { result ≡ true
            → StepFor G.Goal case.now book.now.lists earlier.now goal.now
            (Action.Move part source target.now.id) → ⊥ }
    {
        self.brokers[target.place] < since
    }

    /// Notes that no candidate of one kind for a broker's replicas serves.
    pub fn pass<G: Goal>(
        &mut self,
        case: &Case,
        book: &LoadBook,
        earlier: &[G],
        goal: &G,
        kind: Kind,
        source: u32,
    )
        requires belongs { IsBookOf case.now book.now }
        requires rests { IsRestsFor G.Goal case.now book.now.lists earlier.now goal.now self.old }
        requires known { IsTrue (is_known case.now source) }
        requires none { FindsFirst G.Goal case.now book.now.lists earlier.now goal.now
            (flat_map (candidates_at kind case.now book.now.lists source)
            (replicas_of case.now book.now.lists source)) None }
        ensures { IsRestsFor G.Goal case.now book.now.lists earlier.now goal.now self.new }
    {
        let _brokers = case.brokers();
        let _lists = book.lists();
        let _goals = earlier.len();
        let place = broker_place(case, source);
        let time = self.time;
        match kind {
            Kind::Moves => self.moves[place] = time,
            Kind::Leads => self.leads[place] = time,
            Kind::Swaps => self.swaps[place] = time,
        }
    }

    /// Notes an action that is about to be applied to the book.
    pub fn touch<G: Goal>(
        &mut self,
        case: &Case,
        book: &LoadBook,
        earlier: &[G],
        goal: &G,
        action: Action,
    )
        requires made { All (λ g. G.made_for g case.now) earlier.now }
        requires made_goal { G.made_for goal.now case.now }
        requires belongs { IsBookOf case.now book.now }
        requires applies { IsTrue (fits book.now.lists action) }
        requires known { IsTrue (targets_known case.now action) }
        requires rests { IsRestsFor G.Goal case.now book.now.lists earlier.now goal.now self.old }
        ensures { IsRestsFor G.Goal case.now (after action book.now.lists) earlier.now goal.now
            self.new }
    {
        let _brokers = case.brokers();
        let time = self.time;
        let from = giver(book, action);
        let to = taker(action);
        let from_place = broker_place(case, from);
        let to_place = broker_place(case, to);
        touch_two(&mut self.brokers, from_place, to_place, time);
        touch_parts(&mut self.parts, book, action, time);
        self.time = time.saturating_add(1);
    }
}
