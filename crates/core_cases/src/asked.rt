// What a request for a plan asks.
ghost use Rattle.std.specs.Prelude.{◌≡◌, ◌≢◌, ◌<◌, not, None, Some, IfOk, IfErr, OnOk, map, length};
ghost use Rattle.plan_terms.specs.Belongs.{Belongs};
ghost use Rattle.plan_terms.specs.Cluster.{Lists, has, is_known};
ghost use Rattle.core_terms.specs.Asked.{asks_demotion, is_dry, takes_no_goals, state_asked, state_for, broker_asked, is_excluded, part_asked, goals_of, goals_fault, case_of};
ghost use Rattle.core_terms.specs.Submits.{first_unknown};
ghost use Rattle.user_tasks.specs.Asks.{AskView, changes_factor};
ghost use Rattle.core_cases.specs.Changes.{changed_at};
ghost use Rattle.core_cases.specs.Excluded.{HasTopics};

use crate::file::OpenFile;
use goal_set::{GoalFault, GoalList};
use load_model::Case;
use plan_terms::{Broker, BrokerState, Memory, Part, Topic, has};
use std::alloc::Global;
use std::collections::HashSet;
use user_tasks::{Ask, Op};

/// Whether a plan is asked for that nothing carries out.
pub fn is_dry(ask: &Ask) -> bool
    ensures { result ≡ is_dry ask.now }
{
    ask.dryrun || matches!(ask.op, Op::Proposals)
}

/// Whether another replication factor is asked for.
pub fn changes_factor(ask: &Ask) -> bool
    ensures { result ≡ changes_factor ask.now }
{
    matches!(ask.op, Op::TopicConfiguration)
}

// Whether brokers are asked no longer to lead.
fn asks_demotion(ask: &Ask) -> bool
    ensures { result ≡ asks_demotion ask.now.op }
{
    matches!(ask.op, Op::DemoteBroker)
}

// Whether a request takes no goals by name.
fn takes_no_goals(op: Op) -> bool
    ensures { result ≡ takes_no_goals op }
{
    matches!(op, Op::DemoteBroker | Op::TopicConfiguration)
}

/// The goals of a request, or what is wrong with their names.
pub fn goals_of(alloc: Global, ask: &Ask) -> Result<GoalList, GoalFault>
    ensures ok { IfOk result (λ l. l ≡ goals_of ask.now) }
    ensures faultless { OnOk result (goals_fault ask.now ≡ None) }
    ensures fault { IfErr result (λ e. e ≢ GoalFault.Memory → goals_fault ask.now ≡ Some e) }
{
    if takes_no_goals(ask.op) {
        return Ok(GoalList::demoting(alloc)?);
    }
    GoalList::read(alloc, ask.goals.as_slice(), ask.skip)
}

// Whether the broker of an id is none of the file's.
fn is_unknown(file: &OpenFile, broker: u32) -> bool
    ensures { result ≡ not (is_known file.now.cluster broker) }
{
    file.case().broker(broker).is_none()
}

/// The first of these brokers that is none of the file's.
pub fn first_unknown(file: &OpenFile, brokers: &[u32]) -> Option<u32>
    ensures { result ≡ first_unknown file.now brokers.now }
{
    brokers.iter().copied().find(|b| is_unknown(file, *b))
}

// What the request makes of a broker that it names and that lives.
fn state_asked(op: Op, state: BrokerState) -> BrokerState
    ensures { result ≡ state_asked op state }
{
    match op {
        Op::Proposals | Op::Rebalance | Op::TopicConfiguration => state,
        Op::AddBroker => BrokerState::New,
        Op::RemoveBroker => BrokerState::Dead,
        Op::DemoteBroker => BrokerState::Demoted,
    }
}

// The state that the request gives a broker.
fn state_for(ask: &Ask, broker: &Broker) -> BrokerState
    ensures { result ≡ state_for ask.now broker.now }
{
    if !broker.state.is_dead() && has(ask.brokers.as_slice(), broker.id) {
        state_asked(ask.op, broker.state)
    } else {
        broker.state
    }
}

// The broker at a place is as the request sees it.
fn ask_broker(case: &mut Case, place: usize, ask: &Ask)
    requires { place < length case.old.brokers }
    ensures { case.new
        ≡ record case.old { brokers = changed_at (broker_asked ask.now) case.old.brokers place } }
{
    let broker = &case.brokers()[place];
    let state = state_for(ask, broker);
    case.set_state(place, state);
}

// The brokers are as the request sees them.
fn ask_brokers(case: &mut Case, ask: &Ask)
    ensures { case.new ≡ record case.old { brokers = map (broker_asked ask.now) case.old.brokers } }
{
    let end = case.brokers().len();
    for place in 0..end {
        ask_broker(case, place, ask);
    }
}

// The topics as a set.
fn set_of(alloc: Global, topics: &[Topic]) -> Result<HashSet<String>, Memory>
    ensures { IfOk result (λ s. HasTopics s topics.now) }
{
    let mut set = HashSet::new(alloc);
    for topic in topics {
        set.insert(String::from_str(alloc, topic.as_str())?)?;
    }
    Ok(set)
}

// Whether the partition is left out, where the topics of the set are.
fn is_excluded(excluded: &HashSet<String>, part: &Part) -> bool
    ensures { (ask : AskView) → HasTopics excluded.now ask.excluded
        → result ≡ is_excluded ask part.now }
{
    excluded.contains(part.topic.as_str()) || part.excluded
}

// The partition at a place is as the request sees it.
fn ask_part(case: &mut Case, place: usize, excluded: &HashSet<String>)
    requires { place < length case.old.parts }
    ensures one { (ask : AskView) → HasTopics excluded.now ask.excluded
        → case.new ≡ record case.old { parts = changed_at (part_asked ask) case.old.parts place } }
    ensures long { length case.new.parts ≡ length case.old.parts }
{
    let part = &case.parts()[place];
    let is_excluded = is_excluded(excluded, part);
    case.set_excluded(place, is_excluded);
}

// The partitions are as the request sees them.
fn ask_parts(case: &mut Case, excluded: &HashSet<String>)
    ensures { (ask : AskView) → HasTopics excluded.now ask.excluded
        → case.new ≡ record case.old { parts = map (part_asked ask) case.old.parts } }
{
    let end = case.parts().len();
    for place in 0..end {
        ask_part(case, place, excluded);
    }
}

/// The cluster of a request, made from the present one.
#[tactic(auto, unfolding(core_terms::specs::Asked::case_of))]
pub fn case_of(alloc: Global, ask: &Ask, present: Case) -> Result<Case, Memory>
    ensures value { IfOk result (λ c. c ≡ case_of ask.now present) }
    ensures one_each { IfOk result (λ c. length c.parts ≡ length present.parts) }
    ensures belongs { (lists : Lists) → Belongs present lists → IfOk result (λ c. Belongs c lists) }
{
    let excluded = set_of(alloc, ask.excluded.as_slice())?;
    let mut case = present;
    ask_brokers(&mut case, ask);
    ask_parts(&mut case, &excluded);
    case.set_leads_only(asks_demotion(ask));
    Ok(case)
}
