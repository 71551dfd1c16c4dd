// Why a request is made that nobody asked.
use crate::kinds::GoalKind;
use plan_terms::ListOf;

/// Why the anomaly detector makes a request.
#[derive(Drop)]
pub enum Cause {
    /// These brokers were lost.
    BrokerFailure(ListOf<u32>),
    /// The goal is hard and broken.
    GoalViolation(GoalKind),
}
