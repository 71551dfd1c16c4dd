// The parameters of the endpoints.
ghost use Rattle.std.specs.Prelude.{◌≡◌, ◌≤◌, ◌<◌, ◌^◌, IfSome};
ghost use Rattle.rest_parse.specs.Parameters.{IsCap, accepts, cap_of, factor_of, id_of, is_plan, moment_of, parameter_of, steps_of, truth_of};

use crate::routes::Endpoint;
use plan_terms::read_whole;

/// What a parameter says.
#[derive(Clone, Copy, Debug, PartialEq, Eq)]
pub enum Parameter {
    Goals,
    SkipHardGoals,
    ExcludedTopics,
    DryRun,
    BrokerIds,
    ForceStop,
    Steps,
    Broker,
    BrokerCap,
    ClusterCap,
    LeaderCap,
    Topics,
    Factor,
    Now,
    AlertAge,
    HealAge,
    /// It is accepted everywhere and says nothing.
    Unused,
}

/// The parameter of a name.
#[tactic(auto, unfolding(crate::specs::Parameters::parameter_of))]
pub fn parameter_of(name: &str) -> Option<Parameter>
    ensures { result ≡ parameter_of name.now }
{
    match name {
        "goals" => Some(Parameter::Goals),
        "skip_hard_goal_check" => Some(Parameter::SkipHardGoals),
        "excluded_topics" => Some(Parameter::ExcludedTopics),
        "dryrun" => Some(Parameter::DryRun),
        "brokerid" => Some(Parameter::BrokerIds),
        "force_stop" => Some(Parameter::ForceStop),
        "steps" => Some(Parameter::Steps),
        "broker" => Some(Parameter::Broker),
        "concurrent_partition_movements_per_broker" => Some(Parameter::BrokerCap),
        "max_partition_movements_in_cluster" => Some(Parameter::ClusterCap),
        "concurrent_leader_movements" => Some(Parameter::LeaderCap),
        "topic" => Some(Parameter::Topics),
        "replication_factor" => Some(Parameter::Factor),
        "now" => Some(Parameter::Now),
        "alert_ms" => Some(Parameter::AlertAge),
        "heal_ms" => Some(Parameter::HealAge),
        "json" | "verbose" | "reason" | "allow_capacity_estimation" => Some(Parameter::Unused),
        _ => None,
    }
}

fn is_plan(parameter: Parameter) -> bool
    ensures { result ≡ is_plan parameter }
{
    matches!(
        parameter,
        Parameter::Goals | Parameter::SkipHardGoals | Parameter::ExcludedTopics | Parameter::Unused
    )
}

/// Whether an endpoint takes the parameter.
pub fn accepts(endpoint: Endpoint, parameter: Parameter) -> bool
    ensures { result ≡ accepts endpoint parameter }
{
    match endpoint {
        Endpoint::Proposals => is_plan(parameter),
        Endpoint::Rebalance => is_plan(parameter) || matches!(parameter, Parameter::DryRun),
        Endpoint::AddBroker | Endpoint::RemoveBroker => {
            is_plan(parameter) || matches!(parameter, Parameter::DryRun | Parameter::BrokerIds)
        }
        Endpoint::DemoteBroker => matches!(
            parameter,
            Parameter::BrokerIds | Parameter::DryRun | Parameter::Unused
        ),
        Endpoint::StopExecution => { matches!(parameter, Parameter::ForceStop | Parameter::Unused) }
        Endpoint::Admin => matches!(
            parameter,
            Parameter::BrokerCap | Parameter::ClusterCap | Parameter::LeaderCap | Parameter::Unused
        ),
        Endpoint::TopicConfiguration => matches!(
            parameter,
            Parameter::Topics | Parameter::Factor | Parameter::DryRun | Parameter::Unused
        ),
        Endpoint::Detect => matches!(
            parameter,
            Parameter::Now | Parameter::AlertAge | Parameter::HealAge | Parameter::Unused
        ),
        Endpoint::Pump => matches!(parameter, Parameter::Steps | Parameter::Unused),
        Endpoint::Kill => matches!(parameter, Parameter::Broker | Parameter::Unused),
        Endpoint::State
        | Endpoint::Load
        | Endpoint::ClusterState
        | Endpoint::UserTasks
        | Endpoint::Sample => matches!(parameter, Parameter::Unused),
    }
}

/// The truth value that a text is.
pub fn truth_of(text: &str) -> Option<bool>
    ensures { result ≡ truth_of text.now }
{
    if text.eq_ignore_ascii_case("true") {
        Some(true)
    } else if text.eq_ignore_ascii_case("false") {
        Some(false)
    } else {
        None
    }
}

/// The id of a broker: below 2^32.
pub fn id_of(text: &str) -> Option<u32>
    ensures { result ≡ id_of text.now }
{
    match read_whole(text) {
        Some(n) if n < 1 << 32 => Some(n as u32),
        _ => None,
    }
}

/// A number of steps: 1 to 100,000.
pub fn steps_of(text: &str) -> Option<u32>
    ensures value { result ≡ steps_of text.now }
    ensures least { IfSome result (λ n. 1 ≤ n) }
    ensures most { IfSome result (λ n. n ≤ 100000) }
{
    match read_whole(text) {
        Some(n) if 1 <= n && n <= 100_000 => Some(n as u32),
        _ => None,
    }
}

/// A cap of movements: 1 to 10,000.
pub fn cap_of(text: &str) -> Option<u32>
    ensures value { result ≡ cap_of text.now }
    ensures cap { IfSome result IsCap }
{
    match read_whole(text) {
        Some(n) if 1 <= n && n <= 10_000 => Some(n as u32),
        _ => None,
    }
}

/// A replication factor: 1 to 8.
pub fn factor_of(text: &str) -> Option<u32>
    ensures value { result ≡ factor_of text.now }
    ensures some { IfSome result (λ n. 1 ≤ n) }
    ensures few { IfSome result (λ n. n ≤ 8) }
{
    match read_whole(text) {
        Some(n) if 1 <= n && n <= 8 => Some(n as u32),
        _ => None,
    }
}

/// A moment, or an age, in milliseconds: below 2^53.
pub fn moment_of(text: &str) -> Option<u64>
    ensures value { result ≡ moment_of text.now }
    ensures range { IfSome result (λ n. n < 2 ^ 53) }
{
    match read_whole(text) {
        Some(n) if n < 1 << 53 => Some(n),
        _ => None,
    }
}
