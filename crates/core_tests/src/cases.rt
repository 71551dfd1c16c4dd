// A small file is opened, asked of and shown. Where a call fails the tests panic, in place of `?`,
// so that each value is dropped at one place alone: the proof of each drop is long.
ghost use Rattle.std.specs.Prelude.{◌≡◌, length};

use core_cases::{
    OpenFile, case_of, cluster_shown, goals_of, load_shown, present, tasks_shown, windows_of,
};
use core_terms::Shown;
use executor_core::{Exec, opened};
use load_model::Case;
use plan_terms::{BrokerState, ListOf, Topic};
use std::alloc::Global;
use std::process::Abort;
use test_fakes::cluster;
use user_tasks::{Ask, Op, Status, UserTask};

// The file's own load of the first partition, a sample of the second, and none of the third.
const FILE: &str =
    r#"{"version":1,"brokers":[{"id":0},{"id":1},{"id":2}],"partitions":[{"topic":"a","partition":0,"replicas":[0,1],"load":{"leader":{"DISK":7},"follower":{"DISK":5}}},{"topic":"b","partition":0,"replicas":[1]},{"topic":"a","partition":5,"replicas":[2,0]}],"samples":[{"topic":"b","partition":0,"time":100,"load":{"leader":{"DISK":9}}}]}"#;

// The places of partitions by topic and number.
const PLACES: [(&str, u32, Option<usize>); 5] = [
    ("a", 0, Some(0)),
    ("b", 0, Some(1)),
    ("a", 5, Some(2)),
    ("b", 5, None),
    ("c", 0, None),
];

// That broker 1 is removed, and topic "a" left out.
fn removal(rt: &impl Abort, alloc: Global) -> Ask {
    let topic = Topic::new(String::from_str(alloc, "a").expect(rt, "memory"));
    Ask {
        op: Op::RemoveBroker,
        brokers: ListOf::new((vec![in alloc; 1]).expect(rt, "memory")),
        goals: ListOf::new(Vec::new(alloc)),
        skip: false,
        excluded: ListOf::new((vec![in alloc; topic]).expect(rt, "memory")),
        dryrun: false,
        topics: ListOf::new(Vec::new(alloc)),
        factor: 0,
    }
}

// What each broker of the case, and each partition, is to be.
fn expect_case(rt: &impl Abort, case: &Case) {
    let states = [BrokerState::Alive, BrokerState::Dead, BrokerState::Alive];
    for (broker, state) in case.brokers().iter().zip(states) {
        assert_eq!(rt; broker.state, state);
    }
    for (part, (disk, excluded)) in case.parts().iter().zip([(7, true), (9, false), (0, true)]) {
        assert_eq!(rt;
            (part.loads.lead, part.excluded),
            ([0, 0, 0, disk], excluded)
        );
    }
}

// The file, opened.
fn opened_file(rt: &impl Abort, alloc: Global) -> OpenFile {
    let file = cluster(alloc, FILE).expect(rt, "cluster");
    OpenFile::new(alloc, file).expect(rt, "memory")
}

// An executor of the file's lists.
fn executor(rt: &impl Abort, alloc: Global, file: &OpenFile) -> Exec
    ensures { length result.base ≡ length file.now.cluster.parts }
{
    let Ok(exec) = opened(alloc, file.case(), file.caps(), file.lists()) else {
        panic!(rt; "no executor");
    };
    exec
}

// The cluster of the request, without any samples but the file's.
fn asked_case(rt: &impl Abort, alloc: Global, file: &OpenFile, exec: &Exec, ask: &Ask) -> Case
    ensures { length result.parts ≡ length file.now.cluster.parts }
{
    let windows = windows_of(alloc, file).expect(rt, "memory");
    let case = present(alloc, file, &windows, exec).expect(rt, "memory");
    case_of(alloc, ask, case).expect(rt, "memory")
}

// What the brokers carry.
fn expect_loads(rt: &impl Abort, alloc: Global, case: &Case, exec: &Exec)
    requires { length exec.now.base ≡ length case.now.parts }
{
    let rows = load_shown(alloc, case, exec).expect(rt, "memory");
    for (row, carried) in rows
        .as_slice()
        .iter()
        .zip([(7, 2, 1), (14, 2, 1), (0, 1, 1)])
    {
        assert_eq!(rt; (row.disk, row.replicas, row.leaders), carried);
    }
}

// The lost brokers, and as many partitions as the file has.
fn expect_cluster(rt: &impl Abort, alloc: Global, file: &OpenFile, case: &Case, exec: &Exec)
    requires { length exec.now.base ≡ length file.now.cluster.parts }
{
    let shown = cluster_shown(alloc, file, case, exec).expect(rt, "memory");
    let Shown::ClusterState(lost, parts) = shown else {
        panic!(rt; "the cluster is shown");
    };
    assert_eq!(rt; lost.as_slice(), [1].as_slice());
    assert_eq!(rt; parts.as_slice().len(), 3);
}

#[test]
fn partitions_are_found_by_topic_and_number(rt: HostRuntime) {
    let file = opened_file(&rt, rt.alloc());
    for (topic, number, place) in PLACES {
        assert_eq!(rt; file.part_place(topic, number), place);
    }
}

#[test]
fn a_request_sees_the_present_cluster(rt: HostRuntime) {
    let alloc = rt.alloc();
    let file = opened_file(&rt, alloc);
    let exec = executor(&rt, alloc, &file);
    let ask = removal(&rt, alloc);
    let goals = goals_of(alloc, &ask).expect(&rt, "memory");
    assert_eq!(rt; goals.kinds().len(), 18);
    let case = asked_case(&rt, alloc, &file, &exec, &ask);
    expect_case(&rt, &case);
    expect_loads(&rt, alloc, &case, &exec);
    expect_cluster(&rt, alloc, &file, &case, &exec);
}

#[test]
fn user_tasks_are_shown(rt: HostRuntime) {
    let alloc = rt.alloc();
    let ask = removal(&rt, alloc);
    let status = Status::Active;
    let tasks = (vec![in alloc; UserTask { ask, status }]).expect(&rt, "memory");
    let shown = tasks_shown(alloc, &tasks).expect(&rt, "memory");
    assert_eq!(rt; shown.as_slice().len(), 1);
}
