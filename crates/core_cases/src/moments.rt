// The present cluster.
ghost use Rattle.std.specs.Prelude.{◌≡◌, ◌<◌, List, IfOk, length, map};
ghost use Rattle.plan_terms.specs.Belongs.{Belongs};
ghost use Rattle.plan_terms.specs.Cluster.{Lists};
ghost use Rattle.plan_terms.specs.declared.settings.Sample.{Sample};
ghost use Rattle.metric_windows.specs.StandsFor.{StandsFor};
ghost use Rattle.core_terms.specs.State.{present, state_now, broker_now};
ghost use Rattle.core_cases.specs.Changes.{changed_at};

use crate::file::OpenFile;
use crate::loads::loaded;
use executor_core::Exec;
use load_model::Case;
use metric_windows::Windows;
use plan_terms::{Broker, BrokerState, Memory};
use std::alloc::Global;

// The state of a broker: it is lost where it has died.
fn state_now(exec: &Exec, broker: &Broker) -> BrokerState
    ensures { result ≡ state_now exec.now.hosts broker.now }
{
    if exec.has_died(broker.id) {
        BrokerState::Dead
    } else {
        broker.state
    }
}

// The broker at a place is as it is now.
fn mark_broker(case: &mut Case, place: usize, exec: &Exec)
    requires { place < length case.old.brokers }
    ensures { case.new
        ≡ record case.old {
          brokers = changed_at (broker_now exec.now.hosts) case.old.brokers place;
        } }
{
    let broker = &case.brokers()[place];
    let state = state_now(exec, broker);
    case.set_state(place, state);
}

// The brokers are as they are now.
fn mark_brokers(case: &mut Case, exec: &Exec)
    ensures { case.new
        ≡ record case.old { brokers = map (broker_now exec.now.hosts) case.old.brokers } }
{
    let end = case.brokers().len();
    for place in 0..end {
        mark_broker(case, place, exec);
    }
}

/// The present cluster: brokers that died are lost, and partitions have the loads of their windows.
#[tactic(auto, unfolding(core_terms::specs::State::present))]
pub fn present(
    alloc: Global,
    file: &OpenFile,
    windows: &Windows,
    exec: &Exec,
) -> Result<Case, Memory>
    requires rules { windows.now.rules ≡ file.now.rules }
    requires parts { windows.now.parts ≡ length file.now.cluster.parts }
    ensures value { (samples : List Sample) → StandsFor windows.now samples
        → IfOk result (λ c. c ≡ present file.now exec.now.hosts samples) }
    ensures one_each { IfOk result (λ c. length c.parts ≡ length file.now.cluster.parts) }
    ensures belongs { (samples : List Sample) → StandsFor windows.now samples → (lists : Lists)
        → Belongs file.now.cluster lists → IfOk result (λ c. Belongs c lists) }
{
    let mut case = loaded(alloc, file, windows)?;
    mark_brokers(&mut case, exec);
    Ok(case)
}
