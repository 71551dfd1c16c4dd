// What is shown of the core's state.
use exec_terms::PhaseCounts;
use plan_terms::{BrokerState, ListOf, Replicas, Topic};
use user_tasks::{Op, Status};
use uuid::Uuid;

/// What the executor does.
#[derive(Clone, Copy, Debug, PartialEq, Eq)]
pub enum ExecutorState {
    /// No task is unfinished.
    NoTask,
    /// Tasks are unfinished, and the execution was stopped.
    Stopping,
    /// A task that moves replicas is unfinished.
    MovingReplicas,
    /// Only tasks that change leaders are unfinished.
    MovingLeaders,
}

/// The tasks of the last execution by phase, and how many partitions have loads.
#[derive(Clone, Copy, Debug)]
pub struct StateShown {
    pub counts: PhaseCounts,
    pub state: ExecutorState,
    /// The partitions that have loads.
    pub valid: u32,
    /// All partitions.
    pub all: u32,
}

/// What a broker carries.
#[derive(Clone, Copy, Debug)]
pub struct BrokerShown {
    pub broker: u32,
    pub state: BrokerState,
    pub cpu: u64,
    pub nw_in: u64,
    pub nw_out: u64,
    pub disk: u64,
    pub potential_nw_out: u64,
    pub replicas: u64,
    pub leaders: u64,
}

/// A partition, its list, and what is added to it and removed from it just now.
#[derive(Drop)]
pub struct PartShown {
    pub topic: Topic,
    pub number: u32,
    pub replicas: Replicas,
    pub adding: Replicas,
    pub removing: Replicas,
}

/// A user task: what it was asked for, and how far it is.
#[derive(Clone, Copy, Debug)]
pub struct TaskShown {
    pub id: Uuid,
    pub op: Op,
    pub status: Status,
}

/// What is shown, by what was asked.
#[derive(Drop)]
pub enum Shown {
    State(StateShown),
    Load(ListOf<BrokerShown>),
    /// The ids of the lost brokers, and the partitions.
    ClusterState(ListOf<u32>, ListOf<PartShown>),
    UserTasks(ListOf<TaskShown>),
}
