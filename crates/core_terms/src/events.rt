// What the core is asked.
use crate::caps::CapChange;
use cluster_gate::Receipt;
use goal_set::{Cause, Failure, Plan};
use plan_terms::{Measured, Topic};
use user_tasks::{Ask, Query};
use uuid::Uuid;

/// What may happen to the core.
#[derive(Drop)]
pub enum Event {
    /// A request for a plan, perhaps with the id of an earlier one.
    Submit(Ask, Option<Uuid>),
    /// A planner asks for a job.
    PlanTake,
    /// A plan for the job of a ticket.
    Planned(u64, Plan),
    /// A goal failed the job of a ticket.
    Refused(u64, Failure),
    /// A ticket is given back.
    PlanBack(u64),
    /// The execution is to stop, perhaps with force.
    Stop(bool),
    /// A broker has died.
    Kill(u32),
    /// A sample of a partition, by topic and number, at a time in milliseconds.
    Sample(Topic, u32, u64, Measured),
    /// Other caps are to be in force.
    Caps(CapChange),
    /// Something is to be shown.
    Show(Query),
    /// A mover asks for work.
    Take,
    /// A copy was made.
    Copied(Receipt),
    /// The copy of a lease failed.
    CopyFailed(u64),
    /// The copies of a lease's task are done: its new list is to be the list.
    Commit(u64),
    /// The old list of a lease's task is to be the list again.
    Cancel(u64),
    /// A lease is given back.
    GiveBack(u64),
    /// The moment in milliseconds: which brokers are lost since when?
    Look(u64),
    /// A request that the anomaly detector makes, and why.
    Heal(Cause, Ask),
    /// No more requests are taken.
    Close,
}
