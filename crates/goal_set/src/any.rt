// A goal of any kind, as one type.
ghost use Rattle.std.specs.Prelude.{◌≡◌, ◌<◌, ◌^◌, ◌↔◌, IfOk, IsTrue, length, map, option_map};
ghost use Rattle.std.specs.List.{All};
ghost use Rattle.goal_set.specs.AnyMeaning.{any_heat, any_room, any_made, any_meaning, any_stirs, any_weights, kind_of};
ghost use Rattle.goal_set.specs.Kinds.{meaning_of, meanings};

use crate::kinds::GoalKind;
use capacity_goals::{
    CpuCapacityGoal, DiskCapacityGoal, NetworkInboundCapacityGoal, NetworkOutboundCapacityGoal,
    ReplicaCapacityGoal,
};
use distribution_goals::{
    CpuUsageDistributionGoal, DiskUsageDistributionGoal, NetworkInboundUsageDistributionGoal,
    NetworkOutboundUsageDistributionGoal, ReplicaDistributionGoal, TopicReplicaDistributionGoal,
};
use goal_terms::{Heat, Room};
use leader_goals::{
    LeaderBytesInDistributionGoal, LeaderReplicaDistributionGoal, MinTopicLeadersPerBrokerGoal,
    PotentialNwOutGoal,
};
use load_model::{Case, LoadBook};
use move_actions::Goal;
use plan_terms::{Action, Memory};
use rack_goals::{DemotionGoal, EvacuationGoal, RackAwareGoal};
use std::alloc::Global;

/// A goal of any kind.
#[derive(Drop)]
pub enum AnyGoal {
    Evacuation(EvacuationGoal),
    RackAware(RackAwareGoal),
    MinTopicLeadersPerBroker(MinTopicLeadersPerBrokerGoal),
    ReplicaCapacity(ReplicaCapacityGoal),
    DiskCapacity(DiskCapacityGoal),
    NetworkInboundCapacity(NetworkInboundCapacityGoal),
    NetworkOutboundCapacity(NetworkOutboundCapacityGoal),
    CpuCapacity(CpuCapacityGoal),
    Demotion(DemotionGoal),
    ReplicaDistribution(ReplicaDistributionGoal),
    PotentialNwOut(PotentialNwOutGoal),
    DiskUsageDistribution(DiskUsageDistributionGoal),
    NetworkInboundUsageDistribution(NetworkInboundUsageDistributionGoal),
    NetworkOutboundUsageDistribution(NetworkOutboundUsageDistributionGoal),
    CpuUsageDistribution(CpuUsageDistributionGoal),
    TopicReplicaDistribution(TopicReplicaDistributionGoal),
    LeaderReplicaDistribution(LeaderReplicaDistributionGoal),
    LeaderBytesInDistribution(LeaderBytesInDistributionGoal),
}

/// The goal of a kind, for the case.
pub fn goal_of(alloc: Global, kind: GoalKind, case: &Case) -> Result<AnyGoal, Memory>
    ensures made { IfOk result (λ g. any_made g case.now) }
    ensures kind { IfOk result (λ g. kind_of g ≡ kind) }
    ensures meaning { IfOk result (λ g. any_meaning g case.now ≡ meaning_of kind case.now) }
{
    Ok(match kind {
        GoalKind::Evacuation => AnyGoal::Evacuation(EvacuationGoal::new(alloc, case)?),
        GoalKind::RackAware => AnyGoal::RackAware(RackAwareGoal::new(alloc, case)?),
        GoalKind::MinTopicLeadersPerBroker => AnyGoal::MinTopicLeadersPerBroker(
            MinTopicLeadersPerBrokerGoal::new(alloc, case)?,
        ),
        GoalKind::ReplicaCapacity => AnyGoal::ReplicaCapacity(ReplicaCapacityGoal::new(
            alloc, case,
        )?),
        GoalKind::DiskCapacity => AnyGoal::DiskCapacity(DiskCapacityGoal::new(alloc, case)?),
        GoalKind::NetworkInboundCapacity => AnyGoal::NetworkInboundCapacity(
            NetworkInboundCapacityGoal::new(alloc, case)?,
        ),
        GoalKind::NetworkOutboundCapacity => AnyGoal::NetworkOutboundCapacity(
            NetworkOutboundCapacityGoal::new(alloc, case)?,
        ),
        GoalKind::CpuCapacity => AnyGoal::CpuCapacity(CpuCapacityGoal::new(alloc, case)?),
        GoalKind::Demotion => AnyGoal::Demotion(DemotionGoal::new(alloc, case)?),
        GoalKind::ReplicaDistribution => AnyGoal::ReplicaDistribution(ReplicaDistributionGoal::new(
            alloc, case,
        )?),
        GoalKind::PotentialNwOut => AnyGoal::PotentialNwOut(PotentialNwOutGoal::new(alloc, case)?),
        GoalKind::DiskUsageDistribution => AnyGoal::DiskUsageDistribution(
            DiskUsageDistributionGoal::new(alloc, case)?,
        ),
        GoalKind::NetworkInboundUsageDistribution => AnyGoal::NetworkInboundUsageDistribution(
            NetworkInboundUsageDistributionGoal::new(alloc, case)?,
        ),
        GoalKind::NetworkOutboundUsageDistribution => AnyGoal::NetworkOutboundUsageDistribution(
            NetworkOutboundUsageDistributionGoal::new(alloc, case)?,
        ),
        GoalKind::CpuUsageDistribution => AnyGoal::CpuUsageDistribution(
            CpuUsageDistributionGoal::new(alloc, case)?,
        ),
        GoalKind::TopicReplicaDistribution => AnyGoal::TopicReplicaDistribution(
            TopicReplicaDistributionGoal::new(alloc, case)?,
        ),
        GoalKind::LeaderReplicaDistribution => AnyGoal::LeaderReplicaDistribution(
            LeaderReplicaDistributionGoal::new(alloc, case)?,
        ),
        GoalKind::LeaderBytesInDistribution => AnyGoal::LeaderBytesInDistribution(
            LeaderBytesInDistributionGoal::new(alloc, case)?,
        ),
    })
}

/// The goal of each kind, for the case.
pub fn goals_of(alloc: Global, kinds: &[GoalKind], case: &Case) -> Result<Vec<AnyGoal>, Memory>
    ensures made { IfOk result (λ goals. All (λ g. any_made g case.now) goals.items) }
    ensures kinds { IfOk result (λ goals. map kind_of goals.items ≡ kinds.now) }
    ensures meanings { IfOk result
        (λ goals. map (λ g. any_meaning g case.now) goals.items ≡ meanings case.now kinds.now) }
{
    let mut goals = Vec::new(alloc);
    for kind in kinds {
        goals.push(goal_of(alloc, *kind, case)?)?;
    }
    Ok(goals)
}

// The same call on the goal, whichever it is.
macro_rules! each_goal {
    ($any:expr, $goal:ident => $call:expr) => {
        match $any {
            AnyGoal::Evacuation($goal) => $call,
            AnyGoal::RackAware($goal) => $call,
            AnyGoal::MinTopicLeadersPerBroker($goal) => $call,
            AnyGoal::ReplicaCapacity($goal) => $call,
            AnyGoal::DiskCapacity($goal) => $call,
            AnyGoal::NetworkInboundCapacity($goal) => $call,
            AnyGoal::NetworkOutboundCapacity($goal) => $call,
            AnyGoal::CpuCapacity($goal) => $call,
            AnyGoal::Demotion($goal) => $call,
            AnyGoal::ReplicaDistribution($goal) => $call,
            AnyGoal::PotentialNwOut($goal) => $call,
            AnyGoal::DiskUsageDistribution($goal) => $call,
            AnyGoal::NetworkInboundUsageDistribution($goal) => $call,
            AnyGoal::NetworkOutboundUsageDistribution($goal) => $call,
            AnyGoal::CpuUsageDistribution($goal) => $call,
            AnyGoal::TopicReplicaDistribution($goal) => $call,
            AnyGoal::LeaderReplicaDistribution($goal) => $call,
            AnyGoal::LeaderBytesInDistribution($goal) => $call,
        }
    };
}

impl Goal for AnyGoal {
    ghost use Rattle.goal_set.specs.AnyLaws.{any-small, kind-cold_pairs, kind-idle_trades, kind-rooms_decide, kind-rooms_stay, kind-still_parts, kind-verdicts_stay};

    ghost meaning = { λ g c. any_meaning g c };

    ghost made_for = { λ g c. any_made g c };

    ghost heat_at = { λ g c lists b. any_heat (kind_of g) c lists b };

    ghost stirs_at = { λ g c lists p. any_stirs (kind_of g) c lists p };

    ghost weighs = { λ g. any_weights (kind_of g) };

    ghost room_at = { λ g c lists b. any_room (kind_of g) c lists b };

    fn is_hard(&self, case: &Case) -> bool {
        each_goal!(self, goal => goal.is_hard(case))
    }

    fn units(&self, case: &Case) -> usize {
        each_goal!(self, goal => goal.units(case))
    }

    fn excess(&self, case: &Case, book: &LoadBook, unit: usize) -> u128 {
        each_goal!(self, goal => goal.excess(case, book, unit))
    }

    fn accepts(&self, case: &Case, book: &LoadBook, action: Action) -> bool {
        each_goal!(self, goal => goal.accepts(case, book, action))
    }

    fn lessens(&self, case: &Case, book: &LoadBook, action: Action) -> bool {
        each_goal!(self, goal => goal.lessens(case, book, action))
    }

    fn heat(&self, case: &Case, book: &LoadBook, broker: usize) -> Heat {
        each_goal!(self, goal => goal.heat(case, book, broker))
    }

    fn stirs(&self, case: &Case, book: &LoadBook, part: u32) -> bool {
        each_goal!(self, goal => goal.stirs(case, book, part))
    }

    fn weight(&self, case: &Case, part: u32, leads: bool) -> Option<u64> {
        each_goal!(self, goal => goal.weight(case, part, leads))
    }

    fn whole(&self, case: &Case, book: &LoadBook) -> Option<u128> {
        each_goal!(self, goal => goal.whole(case, book))
    }

    fn room(&self, case: &Case, book: &LoadBook, all: u128, broker: usize) -> Option<Room> {
        each_goal!(self, goal => goal.room(case, book, all, broker))
    }

    ghost small = { λ g c lists made is_case fits. any-small g c lists made is_case fits };

    ghost cold_pairs = { λ g c lists _ is_case fits. kind-cold_pairs (kind_of g) c lists is_case
        fits };

    ghost still_parts = { λ g c lists _ _ fits. kind-still_parts (kind_of g) c lists fits };

    ghost idle_trades = { λ g c lists _ is_case fits. kind-idle_trades (kind_of g) c lists is_case
        fits };

    ghost rooms_decide = { λ g c lists _ is_case fits. kind-rooms_decide (kind_of g) c lists is_case
        fits };

    ghost rooms_stay = { λ g c lists _ belongs a fit k not_giver not_taker. kind-rooms_stay
        (kind_of g) c lists belongs a fit k not_giver not_taker };

    ghost verdicts_stay = { λ g c lists _ is_case fits. kind-verdicts_stay (kind_of g) c lists
        is_case fits };
}
