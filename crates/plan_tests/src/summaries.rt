// The summaries of a demotion, and of a plan that fails behind its actions.
use goal_optimizer::{PlanFault, optimise};
use goal_set::GoalList;
use plan_summary::{failure_summary, plan_summary};
use plan_terms::GoalName;
use std::alloc::Global;
use std::process::Abort;
use test_fakes::{assignment, cluster};

// What the lost broker leads is too much for the other, which has it at the end.
const TOO_MUCH: &str =
    r#"{"version":1,"brokers":[{"id":0,"state":"DEAD"},{"id":1}],"brokerCapacities":[{"brokerId":"-1","capacity":{"CPU":"100","NW_IN":"100","NW_OUT":"100","DISK":"100"}}],"partitions":[{"topic":"t","partition":0,"replicas":[0],"load":{"leader":{"DISK":90}}}]}"#;

const FAILED: &str =
    "failed DiskCapacityGoal\nproposals 0\nEvacuationGoal 1 0\nDiskCapacityGoal 0 1000\n";

fn disk_goal(rt: &impl Abort, alloc: Global) -> GoalList {
    let name = String::from_str(alloc, "DiskCapacityGoal").expect(rt, "memory");
    let names = vec![in alloc; GoalName::new(name)].expect(rt, "memory");
    let Ok(goals) = GoalList::read(alloc, &names, true) else {
        panic!(rt; "no goals");
    };
    goals
}

#[test]
fn a_failure_is_summed_up_after_its_actions(rt: HostRuntime) {
    let alloc = rt.alloc();
    let file = cluster(alloc, TOO_MUCH).expect(&rt, "cluster");
    let goals = disk_goal(&rt, alloc);
    let Err(PlanFault::Goal(failure)) = optimise(&rt, alloc, &file.case, &file.lists, &goals) else {
        panic!(rt; "no failure");
    };
    let text = failure_summary(alloc, &failure, failure.goal()).expect(&rt, "memory");
    assert_eq!(rt; text.as_slice(), FAILED.as_bytes());
}

// Broker 0 leads both partitions, of which the second stands on it alone.
const LED_BY_ONE: &str =
    r#"{"version":1,"brokers":[{"id":0,"state":"DEMOTED"},{"id":1}],"partitions":[{"topic":"t","partition":0,"replicas":[0,1]},{"topic":"t","partition":1,"replicas":[0]}]}"#;

const DEMOTED: &str = "planned\nproposals 1\nEvacuationGoal 0 0\nDemotionGoal 2 1\n";

// Leaders alone may change.
#[test]
fn a_demotion_leaves_what_has_no_other_replica(rt: HostRuntime) {
    let alloc = rt.alloc();
    let mut file = cluster(alloc, LED_BY_ONE).expect(&rt, "cluster");
    file.case.set_leads_only(true);
    let lists = assignment(alloc, &file.case, &[&[0, 1], &[0]]).expect(&rt, "lists");
    let goals = GoalList::demoting(alloc).expect(&rt, "memory");
    let Ok(plan) = optimise(&rt, alloc, &file.case, &lists, &goals) else {
        panic!(rt; "no plan");
    };
    let text = plan_summary(alloc, &plan).expect(&rt, "memory");
    assert_eq!(rt; text.as_slice(), DEMOTED.as_bytes());
}
