// Whether two things are the same, member by member.
ghost use Rattle.std.specs.Prelude.{◌≡◌, Bool, List};
ghost use Rattle.std.specs.Cmp.Lexicographic.{pointwise};
ghost use Rattle.core_terms.specs.Plans.{problem_of_plan, problem_of_failure};
ghost use Rattle.core_terms.specs.Same.{same_broker, same_cluster, same_goals, same_lists, same_name, same_options, same_part, same_problem, state_number};

use goal_set::{Failure, GoalKind, GoalList, Plan};
use load_model::{Assign, Case};
use plan_terms::{
    Broker, BrokerState, Loads, MinLeaders, Options, Part, RackName, Ratio, Replicas,
};

// What is compared member by member.
trait Same {
    ghost same: { Self → Self → Bool };

    fn is_same(&self, other: &Self) -> bool
        ensures { result ≡ same self.now other.now };
}

// Whether the lists are as long, and their members the same in order.
fn all_same<S: Same>(one: &[S], other: &[S]) -> bool
    ensures { result ≡ pointwise S.same one.now other.now }
{
    if one.len() != other.len() {
        return false;
    }
    for (place, member) in one.iter().enumerate() {
        if !member.is_same(&other[place]) {
            return false;
        }
    }
    true
}

impl Same for Ratio {
    ghost use Rattle.core_terms.specs.Same.{same_ratio};

    ghost same = { same_ratio };

    fn is_same(&self, other: &Ratio) -> bool {
        self.num() == other.num() && self.den() == other.den()
    }
}

impl Same for MinLeaders {
    ghost use Rattle.core_terms.specs.Same.{same_leaders};

    ghost same = { same_leaders };

    fn is_same(&self, other: &MinLeaders) -> bool {
        self.topic.as_str() == other.topic.as_str() && self.leaders == other.leaders
    }
}

fn same_rack(one: &Option<RackName>, other: &Option<RackName>) -> bool
    ensures { result ≡ same_name one.now other.now }
{
    match (one, other) {
        (None, None) => true,
        (Some(one), Some(other)) => one.as_str() == other.as_str(),
        _ => false,
    }
}

fn state_number(state: BrokerState) -> u8
    ensures { result ≡ state_number state }
{
    match state {
        BrokerState::Alive => 0,
        BrokerState::Dead => 1,
        BrokerState::New => 2,
        BrokerState::Demoted => 3,
    }
}

impl Same for Broker {
    ghost use Rattle.core_terms.specs.Same.{same_broker};

    ghost same = { same_broker };

    fn is_same(&self, other: &Broker) -> bool {
        self.id == other.id
            && same_rack(&self.rack, &other.rack)
            && self.cap.as_slice() == other.cap.as_slice()
            && state_number(self.state) == state_number(other.state)
    }
}

impl Same for Loads {
    ghost use Rattle.core_terms.specs.Same.{same_loads};

    ghost same = { same_loads };

    fn is_same(&self, other: &Loads) -> bool {
        self.lead.as_slice() == other.lead.as_slice()
            && self.follow.as_slice() == other.follow.as_slice()
    }
}

impl Same for Part {
    ghost use Rattle.core_terms.specs.Same.{same_part};

    ghost same = { same_part };

    fn is_same(&self, other: &Part) -> bool {
        self.topic.as_str() == other.topic.as_str()
            && self.number == other.number
            && self.loads.is_same(&other.loads)
            && self.excluded == other.excluded
            && self.chunks == other.chunks
    }
}

impl Same for Replicas {
    ghost use Rattle.std.specs.Prelude.{bytes_eq};

    ghost same = { bytes_eq };

    fn is_same(&self, other: &Replicas) -> bool {
        self.as_slice() == other.as_slice()
    }
}

impl Same for GoalKind {
    ghost use Rattle.core_terms.specs.Same.{same_goal};

    ghost same = { same_goal };

    fn is_same(&self, other: &GoalKind) -> bool {
        self.name() == other.name()
    }
}

impl Same for Options {
    ghost use Rattle.core_terms.specs.Same.{same_options};

    ghost same = { same_options };

    fn is_same(&self, other: &Options) -> bool {
        all_same(self.limit.as_slice(), other.limit.as_slice())
            && all_same(self.balance.as_slice(), other.balance.as_slice())
            && self.replica_balance.is_same(&other.replica_balance)
            && self.leader_balance.is_same(&other.leader_balance)
            && self.topic_balance.is_same(&other.topic_balance)
            && self.max_replicas == other.max_replicas
            && self.leads_only == other.leads_only
            && all_same(self.min_leaders.as_slice(), other.min_leaders.as_slice())
    }
}

#[tactic(auto, unfolding(core_terms::specs::Same::same_cluster))]
fn same_cluster(one: &Case, other: &Case) -> bool
    ensures { result ≡ same_cluster one.now other.now }
{
    all_same(one.brokers(), other.brokers())
        && all_same(one.parts(), other.parts())
        && one.options().is_same(other.options())
}

#[tactic(auto, unfolding(core_terms::specs::Same::same_lists))]
fn same_lists(one: &Assign, other: &[Replicas]) -> bool
    ensures { result ≡ same_lists one.now other.now }
{
    all_same(one.lists(), other)
}

#[tactic(auto, unfolding(core_terms::specs::Same::same_goals))]
fn same_goals(one: &GoalList, other: &GoalList) -> bool
    ensures { result ≡ same_goals one.now other.now }
{
    all_same(one.kinds(), other.kinds())
}

/// Whether a plan is for this case, these lists to begin with, and these goals.
pub fn plan_is_for(plan: &Plan, case: &Case, start: &[Replicas], goals: &GoalList) -> bool
    ensures { result
        ≡ same_problem (problem_of_plan plan.now)
        (record { case = case.now; start = start.now; goals = goals.now }) }
{
    same_cluster(plan.case(), case)
        && same_lists(plan.start(), start)
        && same_goals(plan.goals(), goals)
}

/// Whether a failure is of this case, these lists to begin with, and these goals.
pub fn failure_is_for(failure: &Failure, case: &Case, start: &[Replicas], goals: &GoalList) -> bool
    ensures { result
        ≡ same_problem (problem_of_failure failure.now)
        (record { case = case.now; start = start.now; goals = goals.now }) }
{
    same_cluster(failure.case(), case)
        && same_lists(failure.start(), start)
        && same_goals(failure.goals(), goals)
}
