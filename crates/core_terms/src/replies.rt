// What the core answers.
use crate::looks::Looked;
use crate::problem::Problem;
use crate::shows::Shown;
use exec_terms::{Given, Killed, Phase, Stopped};
use goal_set::{GoalFault, GoalKind};
use plan_terms::{Caps, ListOf, Replicas, Topic};
use user_tasks::Status;
use uuid::Uuid;

/// Why there is no work.
#[derive(Clone, Copy, Debug, PartialEq, Eq)]
pub enum Reason {
    /// The caps leave no room for a task that waits, or it waits for others.
    CapsFull,
    /// Each task that has begun is leased, and none waits.
    AllLeased,
    /// No task is unfinished, and a plan that is to be carried out is being made.
    Planning,
    /// No task is unfinished.
    NoExecution,
}

/// A partition by its name, with its list before and after.
#[derive(Drop)]
pub struct Named {
    pub topic: Topic,
    pub number: u32,
    pub before: Replicas,
    pub after: Replicas,
}

/// What came of a user task.
#[derive(Drop)]
pub enum Outcome {
    /// It is active or in execution.
    Open,
    /// It is completed: what its plan changed.
    Done(ListOf<Named>),
    /// A goal failed it, and stays broken so far.
    Failed(GoalKind, u128),
    /// Its execution ended with tasks that were aborted or are dead.
    Ended {
        aborted: u32,
        dead: u32,
        proposals: ListOf<Named>,
    },
}

/// The answer to an event.
#[derive(Drop)]
pub enum Reply {
    /// The user task of the id, how far it is, and what came of it.
    Task(Uuid, Status, Outcome),
    /// No user task has the id.
    NoSuchTask(Uuid),
    /// The user task of the id was asked something else.
    OtherRequest(Uuid),
    /// Close was asked before.
    Closing,
    /// No broker has the id.
    NoSuchBroker(u32),
    /// The goals' names make no list of goals.
    BadGoals(GoalFault),
    /// The user task of the id is to be carried out, or is being carried out.
    Executing(Uuid),
    /// 16 user tasks are active or in execution.
    TooManyActive,
    /// So many partitions have loads, of so many, which is too few.
    NotEnoughWindows(u32, u32),
    /// The first of the topics that has no partition.
    NoSuchTopic(Topic),
    /// How many members the first list that is to grow may have, which are too few.
    TooFewBrokers(u32),
    /// The request is the user task of the id.
    Accepted(Uuid),
    /// Each active job has a ticket. Whether Close was asked before.
    NoJob(bool),
    /// A ticket, and what is to be planned: the cluster, its lists to begin with, and the goals.
    Job(u64, Problem),
    /// No active job has the ticket. The number is that of the last one given.
    StaleJob(u64),
    /// The plan or the failure is not for the job as it is now: it is to be planned again.
    SentBack,
    /// The plan is the job's: it is done, or is carried out.
    PlanDone,
    /// The failure is the job's.
    PlanFailed,
    /// The ticket or the lease is given back.
    Given,
    /// No task is unfinished.
    NothingToStop,
    /// How many tasks the stop aborted, and how many are to be undone.
    Stopped(Stopped),
    /// The broker is lost already.
    AlreadyDead(u32),
    /// How many tasks the death ended, and how many are to be undone.
    Killed(Killed),
    /// No partition has the topic and the number.
    NoSuchPartition,
    /// The oldest window that is kept.
    TooOld(u64),
    /// The window has 65,536 samples of the partition.
    WindowFull,
    /// The sample counts.
    Sampled,
    /// The caps in force.
    CapsSet(Caps),
    /// Which brokers are lost since when, the present cluster, and its settled lists.
    Looked(Looked),
    /// What was asked to be shown.
    Shown(Shown),
    /// Work, under a lease.
    Work(Given),
    /// Why there is none. Whether Close was asked before.
    Idle(Reason, bool),
    /// No task holds the lease for this work. The number is that of the last one given.
    Stale(u64),
    /// The task of the lease is to be undone.
    AbortAsked,
    /// How many copies of the task are left.
    Left(u32),
    /// How many copies of the task have failed.
    Faults(u32),
    /// The new list is the list.
    Committed,
    /// What the task ended as.
    Cancelled(Phase),
    /// No more requests are taken.
    Closed,
}
