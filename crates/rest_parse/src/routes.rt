// The endpoints and their paths.
ghost use Rattle.std.specs.Prelude.{◌≡◌, [], IfOk, OnOk, option_map};
ghost use Rattle.matchit.specs.Seek.{first};
ghost use Rattle.rest_parse.specs.Routes.{endpoint_at, first_five, first_ten, is_read, rows, rows_of};

use matchit::{InsertError, Router};
use plan_terms::Memory;
use std::alloc::Global;
use std::str;

/// What a request may be sent to, by its method and path.
#[derive(Clone, Copy, Debug, PartialEq, Eq)]
pub enum Endpoint {
    /// `GET /kafkacruisecontrol/state`
    State,
    /// `GET /kafkacruisecontrol/load`
    Load,
    /// `GET /kafkacruisecontrol/kafka_cluster_state`
    ClusterState,
    /// `GET /kafkacruisecontrol/user_tasks`
    UserTasks,
    /// `GET /kafkacruisecontrol/proposals`
    Proposals,
    /// `POST /kafkacruisecontrol/rebalance`
    Rebalance,
    /// `POST /kafkacruisecontrol/add_broker`
    AddBroker,
    /// `POST /kafkacruisecontrol/remove_broker`
    RemoveBroker,
    /// `POST /kafkacruisecontrol/demote_broker`
    DemoteBroker,
    /// `POST /kafkacruisecontrol/stop_proposal_execution`
    StopExecution,
    /// `POST /kafkacruisecontrol/admin`
    Admin,
    /// `POST /kafkacruisecontrol/topic_configuration`
    TopicConfiguration,
    /// `POST /cluster/pump`
    Pump,
    /// `POST /cluster/kill`
    Kill,
    /// `POST /cluster/sample`
    Sample,
    /// `POST /cluster/detect`
    Detect,
}

impl Endpoint {
    /// Whether requests to it are sent with `GET`, and not with `POST`.
    pub fn is_read(self) -> bool
        ensures { result ≡ is_read self }
    {
        matches!(
            self,
            Endpoint::State
                | Endpoint::Load
                | Endpoint::ClusterState
                | Endpoint::UserTasks
                | Endpoint::Proposals
        )
    }
}

fn found(router: &Router<Endpoint>, path: &str) -> Option<Endpoint>
    ensures { result ≡ option_map (λ route. route.value) (first router.now path.now) }
{
    match router.at(path) {
        Ok(found) => Some(*found.value),
        Err(_) => None,
    }
}

fn add_shown(router: &mut Router<Endpoint>) -> Result<(), InsertError>
    requires { router.old ≡ [] }
    ensures { OnOk result (router.new ≡ rows_of first_five) }
{
    router.insert("/kafkacruisecontrol/state", Endpoint::State)?;
    router.insert("/kafkacruisecontrol/load", Endpoint::Load)?;
    router.insert(
        "/kafkacruisecontrol/kafka_cluster_state",
        Endpoint::ClusterState,
    )?;
    router.insert("/kafkacruisecontrol/user_tasks", Endpoint::UserTasks)?;
    router.insert("/kafkacruisecontrol/proposals", Endpoint::Proposals)?;
    Ok(())
}

fn add_plans(router: &mut Router<Endpoint>) -> Result<(), InsertError>
    requires { router.old ≡ rows_of first_five }
    ensures { OnOk result (router.new ≡ rows_of first_ten) }
{
    router.insert("/kafkacruisecontrol/rebalance", Endpoint::Rebalance)?;
    router.insert("/kafkacruisecontrol/add_broker", Endpoint::AddBroker)?;
    router.insert("/kafkacruisecontrol/remove_broker", Endpoint::RemoveBroker)?;
    router.insert("/kafkacruisecontrol/demote_broker", Endpoint::DemoteBroker)?;
    router.insert(
        "/kafkacruisecontrol/topic_configuration",
        Endpoint::TopicConfiguration,
    )?;
    Ok(())
}

fn add_others(router: &mut Router<Endpoint>) -> Result<(), InsertError>
    requires { router.old ≡ rows_of first_ten }
    ensures { OnOk result (router.new ≡ rows) }
{
    router.insert(
        "/kafkacruisecontrol/stop_proposal_execution",
        Endpoint::StopExecution,
    )?;
    router.insert("/kafkacruisecontrol/admin", Endpoint::Admin)?;
    router.insert("/cluster/pump", Endpoint::Pump)?;
    router.insert("/cluster/kill", Endpoint::Kill)?;
    router.insert("/cluster/sample", Endpoint::Sample)?;
    router.insert("/cluster/detect", Endpoint::Detect)?;
    Ok(())
}

/// The endpoints by their paths.
#[derive(Drop)]
pub struct Routes {
    router: Router<Endpoint>,
    ghost whole: { router ≡ rows },
}

fn filled(alloc: Global) -> Result<Router<Endpoint>, InsertError>
    ensures { IfOk result (λ router. router ≡ rows) }
{
    let mut router = Router::new(alloc);
    add_shown(&mut router)?;
    add_plans(&mut router)?;
    add_others(&mut router)?;
    Ok(router)
}

impl Routes {
    /// All endpoints.
    pub fn new(alloc: Global) -> Result<Routes, Memory> {
        match filled(alloc) {
            Ok(router) => Ok(Routes { router }),
            Err(_) => Err(Memory),
        }
    }

    /// The endpoint at a path, which is compared byte by byte.
    pub fn endpoint_at(&self, path: &[u8]) -> Option<Endpoint>
        ensures { result ≡ endpoint_at path.now }
    {
        match str::from_utf8(path) {
            Ok(path) => found(&self.router, path),
            Err(_) => None,
        }
    }
}
