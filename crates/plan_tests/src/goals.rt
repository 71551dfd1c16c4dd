// The excesses of the goals on a small cluster whose first broker is alive, lost or demoted, and on
// the greatest numbers.
ghost use Rattle.cluster_json.specs.Ranges.{IsFile};
ghost use Rattle.plan_terms.specs.Belongs.{IsBookOf};
ghost use Rattle.plan_terms.specs.Resources.{NW_OUT};
ghost use Rattle.std.specs.List.{All};
ghost use Rattle.std.specs.Prelude.{◌≡◌, IfOk, slice_index};

use cluster_json::ClusterFile;
use goal_set::{GoalKind, goal_of};
use load_model::{Case, LoadBook};
use move_actions::{Goal, Moves, legal};
use plan_terms::{Action, Broker, BrokerState, Loads, Part, Topic};
use std::alloc::{AllocError, Global};
use std::process::Abort;
use test_fakes::{assignment, cluster};

// Three brokers, the first of which is in some state, and five partitions of two topics. The first
// broker leads all but the one with most load. Thresholds differ by resource and by goal, loads
// exceed the limits, and both topics and one that isn't there have least leaders.
const SMALL: (&str, &str) = (
    r#"{"version":2,"brokers":[{"id":0,"state":"#,
    r#","rack":"near"},{"id":1,"rack":"near"},{"id":2,"rack":"far"}],"brokerCapacities":[{"brokerId":"-1","capacity":{"CPU":"100","NW_IN":"110","NW_OUT":"120","DISK":"130"}},{"brokerId":"1","capacity":{"CPU":"300","NW_IN":"310","NW_OUT":"320","DISK":"330"}}],"partitions":[{"topic":"b","partition":0,"replicas":[0,1],"load":{"leader":{"CPU":10,"NW_IN":20,"NW_OUT":30,"DISK":40},"follower":{"CPU":1,"NW_IN":2,"DISK":4}}},{"topic":"a","partition":0,"replicas":[0],"load":{"leader":{"CPU":100,"NW_IN":200,"NW_OUT":300,"DISK":400},"follower":{"CPU":10,"NW_IN":20,"DISK":40}}},{"topic":"b","partition":1,"replicas":[1,0],"load":{"leader":{"CPU":10000,"NW_IN":20000,"NW_OUT":30000,"DISK":40000},"follower":{"CPU":1000,"NW_IN":2000,"DISK":4000}}},{"topic":"a","partition":1,"replicas":[0,2],"load":{"leader":{"CPU":1000,"NW_IN":2000,"NW_OUT":3000,"DISK":4000},"follower":{"CPU":100,"NW_IN":200,"DISK":400}}},{"topic":"a","partition":2,"replicas":[0],"load":{"leader":{"CPU":30,"NW_IN":60,"NW_OUT":90,"DISK":120},"follower":{"CPU":3,"NW_IN":6,"DISK":12}}}],"config":{"cpu.capacity.threshold":"0.5","network.inbound.capacity.threshold":"0.6","network.outbound.capacity.threshold":"0.7","disk.capacity.threshold":"0.8","cpu.balance.threshold":"1.1","network.inbound.balance.threshold":"1.2","network.outbound.balance.threshold":"1.3","disk.balance.threshold":"1.4","replica.count.balance.threshold":"1.2","leader.replica.count.balance.threshold":"1.5","topic.replica.count.balance.threshold":"1","max.replicas.per.broker":"1"},"minTopicLeaders":[{"topic":"a","leaders":3},{"topic":"gone","leaders":5},{"topic":"b","leaders":1}]}"#,
);

fn small(rt: &impl Abort, alloc: Global, state: &str) -> ClusterFile
    ensures { IsFile result }
{
    let (before, behind) = SMALL;
    let text = format!(in alloc; r#"{before}"{state}"{behind}"#).expect(rt, "memory");
    cluster(alloc, text.as_str()).expect(rt, "cluster")
}

fn book_of(rt: &impl Abort, alloc: Global, file: &ClusterFile) -> LoadBook
    requires { IsFile file.now }
    ensures { IsBookOf file.now.case result }
{
    LoadBook::new(alloc, &file.case, &file.lists).expect(rt, "memory")
}

// Compares the excesses of a goal at all units.
fn expect(
    rt: &impl Abort,
    alloc: Global,
    case: &Case,
    book: &LoadBook,
    kind: GoalKind,
    want: &[u128],
)
    requires { IsBookOf case.now book.now }
{
    let goal = goal_of(alloc, kind, case).expect(rt, "memory");
    assert_eq!(rt; goal.units(case), want.len(), "units of {kind:?}");
    for (unit, want) in want.iter().enumerate() {
        assert!(rt; unit < goal.units(case));
        assert_eq!(rt; goal.excess(case, book, unit), *want, "{kind:?} at {unit}");
    }
}

// A goal, and its excess at each unit.
type Row = (GoalKind, &'static [u128]);

const ALIVE: [Row; 18] = [
    (GoalKind::Evacuation, &[0, 0, 0, 0, 0]),
    (GoalKind::RackAware, &[1, 0, 1, 0, 0]),
    (GoalKind::MinTopicLeadersPerBroker, &[0, 0, 1, 0, 3, 3]),
    (GoalKind::ReplicaCapacity, &[4, 1, 0]),
    (GoalKind::DiskCapacity, &[84560, 397400, 2960]),
    (GoalKind::NetworkInboundCapacity, &[42140, 198160, 1340]),
    (GoalKind::NetworkOutboundCapacity, &[33360, 297760, 0]),
    (GoalKind::CpuCapacity, &[20900, 98510, 500]),
    (GoalKind::Demotion, &[0, 0, 0, 0, 0]),
    (GoalKind::ReplicaDistribution, &[1, 0, 1]),
    (GoalKind::PotentialNwOut, &[333360, 298060, 29160]),
    (GoalKind::DiskUsageDistribution, &[0, 9809920, 35831920]),
    (
        GoalKind::NetworkInboundUsageDistribution,
        &[0, 14937560, 20484160],
    ),
    (
        GoalKind::NetworkOutboundUsageDistribution,
        &[8920800, 28972800, 28072800],
    ),
    (GoalKind::CpuUsageDistribution, &[316900, 9609700, 10516900]),
    (GoalKind::TopicReplicaDistribution, &[0, 0, 1, 1, 1, 0]),
    (GoalKind::LeaderReplicaDistribution, &[1, 0, 0]),
    (GoalKind::LeaderBytesInDistribution, &[0, 23118400, 0]),
];

const DEAD: [Row; 18] = [
    (GoalKind::Evacuation, &[1, 1, 1, 1, 1]),
    (GoalKind::RackAware, &[1, 0, 1, 0, 0]),
    (GoalKind::MinTopicLeadersPerBroker, &[0, 1, 3, 3]),
    (GoalKind::ReplicaCapacity, &[1, 0]),
    (GoalKind::DiskCapacity, &[397400, 2960]),
    (GoalKind::NetworkInboundCapacity, &[198160, 1340]),
    (GoalKind::NetworkOutboundCapacity, &[297760, 0]),
    (GoalKind::CpuCapacity, &[98510, 500]),
    (GoalKind::Demotion, &[0, 0, 0, 0, 0]),
    (GoalKind::ReplicaDistribution, &[1, 2]),
    (GoalKind::PotentialNwOut, &[298060, 29160]),
    (GoalKind::DiskUsageDistribution, &[0, 36351920]),
    (GoalKind::NetworkInboundUsageDistribution, &[0, 20704160]),
    (GoalKind::NetworkOutboundUsageDistribution, &[0, 28072800]),
    (GoalKind::CpuUsageDistribution, &[0, 10616900]),
    (GoalKind::TopicReplicaDistribution, &[0, 2, 2, 1]),
    (GoalKind::LeaderReplicaDistribution, &[0, 1]),
    (GoalKind::LeaderBytesInDistribution, &[1118400, 0]),
];

const DEMOTED: [Row; 4] = [
    (GoalKind::Evacuation, &[0, 0, 0, 0, 0]),
    (GoalKind::MinTopicLeadersPerBroker, &[0, 1, 3, 3]),
    (GoalKind::Demotion, &[1, 1, 0, 1, 1]),
    (GoalKind::ReplicaDistribution, &[1, 0, 1]),
];

// Compares the excesses on the small cluster.
fn expect_all(rt: &impl Abort, alloc: Global, state: &str, rows: &[Row]) {
    let file = small(rt, alloc, state);
    let book = book_of(rt, alloc, &file);
    for (kind, want) in rows {
        expect(rt, alloc, &file.case, &book, *kind, want);
    }
}

#[test]
fn measures_each_goal(rt: HostRuntime) {
    let alloc = rt.alloc();
    expect_all(&rt, alloc, "ALIVE", &ALIVE);
    expect_all(&rt, alloc, "DEAD", &DEAD);
    expect_all(&rt, alloc, "DEMOTED", &DEMOTED);
}

// The action that takes a legal one back.
#[tactic(auto, unfolding(plan_terms::specs::Legal::is_legal))]
fn inverse(rt: &impl Abort, case: &Case, book: &LoadBook, part: u32, to: u32) -> Action {
    let lead = Action::Lead { part, to };
    assert!(rt; legal(case, book, lead));
    book.inverse(lead)
}

#[test]
fn takes_a_lead_back(rt: HostRuntime) {
    let file = small(&rt, rt.alloc(), "ALIVE");
    let book = book_of(&rt, rt.alloc(), &file);
    assert_eq!(rt;
        inverse(&rt, &file.case, &book, 0, 1),
        Action::Lead { part: 0, to: 0 }
    );
}

const MOST_BROKERS: u32 = 200;

const MOST_PARTS: u32 = 10_000;

const MOST_CAPACITY: u64 = 1_099_511_627_775;

const MOST_LOAD: u64 = 4_294_967_295;

const MOST_BALANCE: &str =
    r#"{"version":1,"brokers":[{"id":0}],"partitions":[],"config":{"disk.balance.threshold":"1.000"}}"#;

fn most_brokers(rt: &impl Abort, alloc: Global) -> Vec<Broker> {
    let mut brokers = Vec::new(alloc);
    for id in 0..MOST_BROKERS {
        let broker = Broker {
            id,
            rack: None,
            cap: [MOST_CAPACITY, MOST_CAPACITY, MOST_CAPACITY, MOST_CAPACITY],
            state: BrokerState::Alive,
        };
        brokers.push(broker).expect(rt, "memory");
    }
    brokers
}

fn most_part(alloc: Global, number: u32) -> Result<Part, AllocError>
    ensures { IfOk result (λ p. slice_index p.loads.follow NW_OUT ≡ 0) }
{
    Ok(Part {
        topic: Topic::new(String::from_str(alloc, "t")?),
        number,
        loads: Loads {
            lead: [MOST_LOAD, MOST_LOAD, MOST_LOAD, MOST_LOAD],
            follow: [MOST_LOAD, MOST_LOAD, 0, MOST_LOAD],
        },
        excluded: false,
        chunks: 1,
    })
}

fn most_parts(rt: &impl Abort, alloc: Global) -> Vec<Part>
    ensures { All (λ p. slice_index p.loads.follow NW_OUT ≡ 0) result.items }
{
    (0..MOST_PARTS)
        .map(|number| most_part(alloc, number))
        .try_collect(alloc)
        .expect(rt, "memory")
}

// All load is on the first of 200 brokers.
#[test]
fn measures_the_greatest_numbers(rt: HostRuntime) {
    let alloc = rt.alloc();
    let options = cluster(alloc, MOST_BALANCE)
        .expect(&rt, "cluster")
        .case
        .options()
        .copy(alloc);
    let options = options.expect(&rt, "memory");
    let case = Case::new(
        alloc,
        most_brokers(&rt, alloc),
        most_parts(&rt, alloc),
        options,
    );
    let case = case.expect(&rt, "memory");
    let lists = assignment(alloc, &case, &[[0u32].as_slice(); 10_000]).expect(&rt, "lists");
    let book = LoadBook::new(alloc, &case, &lists).expect(&rt, "memory");
    let mut want = [47223664817658386186250000000; 200];
    want[0] = 9397509298714018851063750000000;
    expect(
        &rt,
        alloc,
        &case,
        &book,
        GoalKind::DiskUsageDistribution,
        &want,
    );
}
