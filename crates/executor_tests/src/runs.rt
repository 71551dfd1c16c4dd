// Executions of four partitions on the brokers 0 to 5: call by call, disturbed before each event,
// and whole.
ghost use Rattle.std.specs.Prelude.{◌≡◌, ◌≤◌, IsTrue, false, not};
ghost use Rattle.std.specs.List.{All, list_all, list_any};
ghost use Rattle.cluster_json.specs.Ranges.{IsFile};
ghost use Rattle.plan_terms.specs.Belongs.{Belongs};
ghost use Rattle.plan_terms.specs.Legal.{is_lost};

use crate::plain;
use crate::random::RANDOM;
use cluster_json::ClusterFile;
use exec_terms::{Given, LaunchFault, Work, WorkKind};
use executor_core::{Exec, opened};
use load_model::{Assign, Case};
use plan_terms::{Caps, Replicas};
use proposal_set::proposals;
use std::alloc::Global;
use std::fmt::Debug;
use std::process::Abort;
use test_fakes::{assignment, cluster};

// Six brokers, and four partitions of so many chunks, each on one of them.
fn six_brokers(rt: &impl Abort, alloc: Global, on: [u32; 4], chunks: u32) -> ClusterFile
    ensures { IsFile result }
{
    let [a, b, c, d] = on;
    let text = format!(in alloc;
        r#"{{"version":1,"brokers":[{{"id":0}},{{"id":1}},{{"id":2}},{{"id":3}},{{"id":4}},{{"id":5}}],"partitions":[{{"topic":"logs","partition":0,"replicas":[{a}],"chunks":{chunks}}},{{"topic":"logs","partition":1,"replicas":[{b}],"chunks":{chunks}}},{{"topic":"logs","partition":2,"replicas":[{c}],"chunks":{chunks}}},{{"topic":"logs","partition":3,"replicas":[{d}],"chunks":{chunks}}}]}}"#
    );
    let text = text.expect(rt, "memory");
    cluster(alloc, text.as_str()).expect(rt, "cluster")
}

// An executor that has launched what moves the partitions.
fn moving(
    rt: &impl Abort,
    alloc: Global,
    broker: u32,
    chunks: u32,
    from: [u32; 4],
    to: [u32; 4],
) -> Exec {
    let file = six_brokers(rt, alloc, from, chunks);
    let [a, b, c, d] = to;
    let after = assignment(alloc, &file.case, &[&[a], &[b], &[c], &[d]]).expect(rt, "lists");
    assert!(rt; broker >= 1);
    assert!(rt; avoids_lost(&file.case, &after));
    let exec = launched(alloc, &file.case, caps(broker), &file.lists, &after);
    exec.expect(rt, "launched")
}

// An executor of the one assignment that has launched what leads to the other.
fn launched(
    alloc: Global,
    case: &Case,
    caps: Caps,
    before: &Assign,
    after: &Assign,
) -> Result<Exec, LaunchFault>
    requires broker_cap { 1 ≤ caps.broker }
    requires cluster_cap { 1 ≤ caps.cluster }
    requires leader_cap { 1 ≤ caps.leader }
    requires before { Belongs case.now before.now }
    requires after { Belongs case.now after.now }
    requires no_lost { All (λ list. list_any (is_lost case.now) list ≡ false) after.now }
{
    let mut exec = opened(alloc, case, caps, before)?;
    let changes = proposals(alloc, before, after)?;
    exec.launch(alloc, &changes)?;
    Ok(exec)
}

// Whether a member of the list is lost.
fn any_lost(case: &Case, list: &[u32]) -> bool
    ensures { result ≡ list_any (is_lost case.now) list.now }
{
    list.iter().any(|b| case.is_lost(*b))
}

// Whether no member of any of the lists is lost.
fn none_lost(case: &Case, lists: &[Replicas]) -> bool
    ensures { result ≡ list_all (λ list. not (list_any (is_lost case.now) list)) lists.now }
{
    lists.iter().all(|list| !any_lost(case, list.as_slice()))
}

// Whether no list has a lost broker.
fn avoids_lost(case: &Case, lists: &Assign) -> bool
    ensures { IsTrue result → All (λ list. list_any (is_lost case.now) list ≡ false) lists.now }
{
    none_lost(case, lists.lists())
}

fn caps(broker: u32) -> Caps
    ensures { result ≡ record { broker = broker; cluster = 10; leader = 10 } }
{
    Caps {
        broker,
        cluster: 10,
        leader: 10,
    }
}

#[derive(Drop)]
pub enum Call {
    Take,
    Copied(u64),
    CopyFailed(u64),
    Commit(u64),
    Cancel(u64),
    GiveBack(u64),
    Held(u64),
    Stop(bool),
    Kill(u32),
    // the cap of a broker
    SetCaps(u32),
    LaunchNone,
    List(u32),
    Settled(u32),
    Adding(u32),
}

// A call, and its answer in words.
pub type Row = (Call, &'static str);

fn say<T: Debug>(rt: &impl Abort, alloc: Global, answer: &T) -> String {
    format!(in alloc; "{:?}", answer).expect(rt, "memory")
}

fn member(rt: &impl Abort, alloc: Global, lists: &[Replicas], part: u32) -> String {
    match lists.get(part as usize) {
        None => say(rt, alloc, &"no list"),
        Some(list) => say(rt, alloc, &list.as_slice()),
    }
}

// A worker's report, or a request for work.
fn work(rt: &impl Abort, alloc: Global, exec: &mut Exec, call: &Call) -> String {
    match call {
        Call::Copied(lease) => say(rt, alloc, &exec.copied(*lease)),
        Call::CopyFailed(lease) => say(rt, alloc, &exec.copy_failed(*lease)),
        Call::Commit(lease) => say(rt, alloc, &exec.commit(*lease)),
        Call::Cancel(lease) => say(rt, alloc, &exec.cancel(*lease)),
        Call::GiveBack(lease) => say(rt, alloc, &exec.give_back(*lease)),
        _ => {
            assert!(rt; exec.leases() < 100);
            say(rt, alloc, &exec.take())
        }
    }
}

// The caps after these were set.
fn set_caps(rt: &impl Abort, alloc: Global, exec: &mut Exec, broker: u32) -> String {
    assert!(rt; broker >= 1);
    exec.set_caps(caps(broker));
    say(rt, alloc, &exec.caps())
}

fn launch_none(rt: &impl Abort, alloc: Global, exec: &mut Exec) -> String {
    say(rt, alloc, &exec.launch(alloc, &[]))
}

// What the call answers, in words.
fn answer(rt: &impl Abort, alloc: Global, exec: &mut Exec, call: &Call) -> String {
    match call {
        Call::Held(lease) => say(rt, alloc, &exec.held(*lease)),
        Call::Stop(force) => say(rt, alloc, &exec.stop(*force)),
        Call::Kill(broker) => say(rt, alloc, &exec.kill(*broker)),
        Call::SetCaps(broker) => set_caps(rt, alloc, exec, *broker),
        Call::LaunchNone => launch_none(rt, alloc, exec),
        Call::List(part) => {
            let lists = exec.lists_now(alloc).expect(rt, "memory");
            member(rt, alloc, &lists, *part)
        }
        Call::Settled(part) => {
            let lists = exec.settled_lists(alloc).expect(rt, "memory");
            member(rt, alloc, &lists, *part)
        }
        Call::Adding(broker) => say(rt, alloc, &exec.counts().adding(*broker)),
        _ => work(rt, alloc, exec, call),
    }
}

// A test of a lease answers as the plain scan of the tasks does.
fn test_as_plain(rt: &impl Abort, alloc: Global, exec: &Exec, lease: u64, kind: WorkKind) {
    let got = say(rt, alloc, &exec.test_lease(lease, kind));
    let want = say(rt, alloc, &plain::test_lease(rt, alloc, exec, lease, kind));
    assert_eq!(rt; got.as_str(), want.as_str());
    let got = say(rt, alloc, &exec.held(lease));
    let want = say(rt, alloc, &plain::held(rt, alloc, exec, lease));
    assert_eq!(rt; got.as_str(), want.as_str());
}

// The executor is to answer the call as plain scans of its tasks do.
fn answer_as_plain(rt: &impl Abort, alloc: Global, exec: &Exec, call: &Call) {
    assert!(rt; exec.leases() < 100);
    let got = say(rt, alloc, &exec.next_work());
    let want = say(rt, alloc, &plain::next_work(rt, alloc, exec));
    assert_eq!(rt; got.as_str(), want.as_str());
    match call {
        Call::Copied(lease) | Call::CopyFailed(lease) => {
            test_as_plain(rt, alloc, exec, *lease, WorkKind::Copy)
        }
        Call::Commit(lease) => test_as_plain(rt, alloc, exec, *lease, WorkKind::Commit),
        Call::Cancel(lease) | Call::GiveBack(lease) | Call::Held(lease) => {
            test_as_plain(rt, alloc, exec, *lease, WorkKind::Cancel)
        }
        _ => {}
    }
}

fn play(rt: &impl Abort, alloc: Global, exec: &mut Exec, rows: &[Row]) {
    for (call, want) in rows {
        let got = answer(rt, alloc, exec, call);
        assert_eq!(rt; got.as_str(), *want);
    }
}

// More tasks wait than the cap of a broker lets start.
const FULL: [Row; 15] = [
    (
        Call::Take,
        "Ok(Given { lease: 1, task: 0, part: 0, work: Copy { to: 1, chunk: 0 }, starts: true })",
    ),
    (
        Call::Take,
        "Ok(Given { lease: 2, task: 3, part: 3, work: Copy { to: 5, chunk: 0 }, starts: true })",
    ),
    (Call::Take, "Err(CapsFull)"),
    (Call::Copied(2), "Ok(Left(0))"),
    (Call::Copied(2), "Err(Stale(2))"),
    (Call::CopyFailed(1), "Ok(Faults(1))"),
    (
        Call::Take,
        "Ok(Given { lease: 3, task: 0, part: 0, work: Copy { to: 1, chunk: 0 }, starts: false })",
    ),
    (Call::LaunchNone, "Err(Executing(0))"),
    (Call::Stop(false), "Ok(Stopped { aborted: 2, aborting: 0 })"),
    (Call::Kill(9), "Err(NoSuchBroker)"),
    (Call::Adding(1), "1"),
    (Call::Adding(2), "0"),
    (Call::Kill(4), "Ok(Killed { dead: 0, aborting: 0 })"),
    (Call::Kill(4), "Err(AlreadyDead)"),
    (
        Call::Take,
        "Ok(Given { lease: 4, task: 3, part: 3, work: Commit, starts: false })",
    ),
];

// A cap is lowered while more tasks than it allows are in flight.
const LOWERED: [Row; 12] = [
    (
        Call::Take,
        "Ok(Given { lease: 1, task: 0, part: 0, work: Copy { to: 1, chunk: 0 }, starts: true })",
    ),
    (
        Call::Take,
        "Ok(Given { lease: 2, task: 1, part: 1, work: Copy { to: 2, chunk: 0 }, starts: true })",
    ),
    (
        Call::SetCaps(1),
        "Caps { broker: 1, cluster: 10, leader: 10 }",
    ),
    (Call::Take, "Err(CapsFull)"),
    (Call::Copied(1), "Ok(Left(0))"),
    (
        Call::Take,
        "Ok(Given { lease: 3, task: 0, part: 0, work: Commit, starts: false })",
    ),
    (Call::Commit(3), "Ok(())"),
    (Call::Take, "Err(CapsFull)"),
    (Call::Copied(2), "Ok(Left(0))"),
    (
        Call::Take,
        "Ok(Given { lease: 4, task: 1, part: 1, work: Commit, starts: false })",
    ),
    (Call::Commit(4), "Ok(())"),
    (
        Call::Take,
        "Ok(Given { lease: 5, task: 2, part: 2, work: Copy { to: 3, chunk: 0 }, starts: true })",
    ),
];

// A forced stop comes before the commit.
const FORCED_STOP: [Row; 8] = [
    (
        Call::Take,
        "Ok(Given { lease: 1, task: 0, part: 0, work: Copy { to: 1, chunk: 0 }, starts: true })",
    ),
    (Call::Copied(1), "Ok(Left(0))"),
    (
        Call::Take,
        "Ok(Given { lease: 2, task: 0, part: 0, work: Commit, starts: false })",
    ),
    (Call::Stop(true), "Ok(Stopped { aborted: 0, aborting: 1 })"),
    (Call::Commit(2), "Err(AbortAsked)"),
    (
        Call::Take,
        "Ok(Given { lease: 3, task: 0, part: 0, work: Cancel, starts: false })",
    ),
    (Call::Cancel(3), "Ok(Aborted)"),
    (Call::List(0), "[0]"),
];

// A soft stop does.
const SOFT_STOP: [Row; 9] = [
    (
        Call::Take,
        "Ok(Given { lease: 1, task: 0, part: 0, work: Copy { to: 1, chunk: 0 }, starts: true })",
    ),
    (Call::Copied(1), "Ok(Left(0))"),
    (
        Call::Take,
        "Ok(Given { lease: 2, task: 0, part: 0, work: Commit, starts: false })",
    ),
    (Call::Stop(false), "Ok(Stopped { aborted: 0, aborting: 0 })"),
    (Call::Settled(0), "[0]"),
    (Call::Commit(2), "Ok(())"),
    (Call::List(0), "[1]"),
    (Call::Settled(0), "[1]"),
    (Call::Take, "Err(NoExecution)"),
];

// The broker that the task adds dies while it is copied to.
const DEATH: [Row; 12] = [
    (
        Call::Take,
        "Ok(Given { lease: 1, task: 0, part: 0, work: Copy { to: 1, chunk: 0 }, starts: true })",
    ),
    (Call::Kill(1), "Ok(Killed { dead: 0, aborting: 1 })"),
    (Call::List(0), "[0, 1]"),
    (Call::Stop(true), "Ok(Stopped { aborted: 0, aborting: 0 })"),
    (Call::Take, "Err(AllLeased)"),
    (Call::Copied(1), "Err(AbortAsked)"),
    (
        Call::Take,
        "Ok(Given { lease: 2, task: 0, part: 0, work: Cancel, starts: false })",
    ),
    (Call::Adding(1), "1"),
    (Call::Cancel(2), "Ok(Dead)"),
    (Call::List(0), "[0]"),
    (Call::Adding(1), "0"),
    (Call::Stop(true), "Err(NothingToStop)"),
];

// A lease is given back, and then each copy fails.
const FAULTS: [Row; 14] = [
    (
        Call::Take,
        "Ok(Given { lease: 1, task: 0, part: 0, work: Copy { to: 1, chunk: 0 }, starts: true })",
    ),
    (
        Call::Held(1),
        "Some(Given { lease: 1, task: 0, part: 0, work: Copy { to: 1, chunk: 0 }, starts: false })",
    ),
    (Call::GiveBack(1), "Ok(())"),
    (Call::Held(1), "None"),
    (Call::GiveBack(1), "Err(Stale(1))"),
    (
        Call::Take,
        "Ok(Given { lease: 2, task: 0, part: 0, work: Copy { to: 1, chunk: 0 }, starts: false })",
    ),
    (Call::CopyFailed(2), "Ok(Faults(1))"),
    (
        Call::Take,
        "Ok(Given { lease: 3, task: 0, part: 0, work: Copy { to: 1, chunk: 0 }, starts: false })",
    ),
    (Call::CopyFailed(3), "Ok(Faults(2))"),
    (
        Call::Take,
        "Ok(Given { lease: 4, task: 0, part: 0, work: Copy { to: 1, chunk: 0 }, starts: false })",
    ),
    (Call::CopyFailed(4), "Ok(Faults(3))"),
    (
        Call::Take,
        "Ok(Given { lease: 5, task: 0, part: 0, work: Cancel, starts: false })",
    ),
    (Call::Cancel(5), "Ok(Dead)"),
    (Call::LaunchNone, "Ok(())"),
];

// Tasks that wait are passed over while the brokers that they name are at their cap.
const PASSED_OVER: [Row; 6] = [
    (
        Call::Take,
        "Ok(Given { lease: 1, task: 0, part: 0, work: Copy { to: 1, chunk: 0 }, starts: true })",
    ),
    (
        Call::Take,
        "Ok(Given { lease: 2, task: 3, part: 3, work: Copy { to: 3, chunk: 0 }, starts: true })",
    ),
    (Call::Copied(1), "Ok(Left(0))"),
    (
        Call::Take,
        "Ok(Given { lease: 3, task: 0, part: 0, work: Commit, starts: false })",
    ),
    (Call::Commit(3), "Ok(())"),
    (
        Call::Take,
        "Ok(Given { lease: 4, task: 1, part: 1, work: Copy { to: 1, chunk: 0 }, starts: true })",
    ),
];

// Executions, by the cap of a broker, where the partitions are and go to, and their calls.
const EXECUTIONS: [(u32, [u32; 4], [u32; 4], &[Row]); 7] = [
    (1, [0, 0, 0, 4], [1, 2, 3, 5], &FULL),
    (2, [0, 0, 0, 4], [1, 2, 3, 4], &LOWERED),
    (1, [0, 0, 2, 2], [1, 1, 1, 3], &PASSED_OVER),
    (5, [0, 0, 0, 0], [1, 0, 0, 0], &FORCED_STOP),
    (5, [0, 0, 0, 0], [1, 0, 0, 0], &SOFT_STOP),
    (5, [0, 0, 0, 0], [1, 0, 0, 0], &DEATH),
    (5, [0, 0, 0, 0], [1, 0, 0, 0], &FAULTS),
];

#[test]
fn answers_each_call(rt: HostRuntime) {
    let alloc = rt.alloc();
    for (broker, from, to, rows) in &EXECUTIONS {
        let mut exec = moving(&rt, alloc, *broker, 1, *from, *to);
        play(&rt, alloc, &mut exec, rows);
    }
}

#[test]
fn answers_random_executions_as_plain_scans_do(rt: HostRuntime) {
    let alloc = rt.alloc();
    for (broker, chunks, from, to, rows) in &RANDOM {
        let mut exec = moving(&rt, alloc, *broker, *chunks, *from, *to);
        for (call, want) in rows.iter() {
            answer_as_plain(&rt, alloc, &exec, call);
            let got = answer(&rt, alloc, &mut exec, call);
            assert_eq!(rt; got.as_str(), *want);
        }
    }
}

// Stops and deaths, the first event before which each comes and the first before which it doesn't,
// its answer, and two partitions' lists at the end.
const INTRUDERS: [(Call, u32, u32, &str, &str, &str); 16] = [
    (
        Call::Stop(true),
        1,
        2,
        "Ok(Stopped { aborted: 2, aborting: 0 })",
        "[0]",
        "[0]",
    ),
    (
        Call::Stop(true),
        2,
        7,
        "Ok(Stopped { aborted: 1, aborting: 1 })",
        "[0]",
        "[0]",
    ),
    (
        Call::Stop(true),
        7,
        8,
        "Ok(Stopped { aborted: 1, aborting: 0 })",
        "[2]",
        "[0]",
    ),
    (
        Call::Stop(true),
        8,
        13,
        "Ok(Stopped { aborted: 0, aborting: 1 })",
        "[2]",
        "[0]",
    ),
    (Call::Stop(true), 13, 14, "Err(NothingToStop)", "[2]", "[3]"),
    (
        Call::Stop(false),
        1,
        2,
        "Ok(Stopped { aborted: 2, aborting: 0 })",
        "[0]",
        "[0]",
    ),
    (
        Call::Stop(false),
        2,
        8,
        "Ok(Stopped { aborted: 1, aborting: 0 })",
        "[2]",
        "[0]",
    ),
    (
        Call::Stop(false),
        8,
        13,
        "Ok(Stopped { aborted: 0, aborting: 0 })",
        "[2]",
        "[3]",
    ),
    (
        Call::Stop(false),
        13,
        14,
        "Err(NothingToStop)",
        "[2]",
        "[3]",
    ),
    (
        Call::Kill(2),
        1,
        2,
        "Ok(Killed { dead: 1, aborting: 0 })",
        "[0]",
        "[3]",
    ),
    (
        Call::Kill(2),
        2,
        7,
        "Ok(Killed { dead: 0, aborting: 1 })",
        "[0]",
        "[3]",
    ),
    (
        Call::Kill(2),
        7,
        14,
        "Ok(Killed { dead: 0, aborting: 0 })",
        "[2]",
        "[3]",
    ),
    (
        Call::Kill(3),
        1,
        8,
        "Ok(Killed { dead: 1, aborting: 0 })",
        "[2]",
        "[0]",
    ),
    (
        Call::Kill(3),
        8,
        13,
        "Ok(Killed { dead: 0, aborting: 1 })",
        "[2]",
        "[0]",
    ),
    (
        Call::Kill(3),
        13,
        14,
        "Ok(Killed { dead: 0, aborting: 0 })",
        "[2]",
        "[3]",
    ),
    (
        Call::Kill(0),
        1,
        14,
        "Ok(Killed { dead: 0, aborting: 0 })",
        "[2]",
        "[3]",
    ),
];

// One event of a worker that holds this work: it is reported done, or the next is taken.
fn event(rt: &impl Abort, alloc: Global, exec: &mut Exec, held: Option<Given>) -> Option<Given> {
    let Some(given) = held else {
        assert!(rt; exec.leases() < 100);
        return exec.take().ok();
    };
    let report = match given.work {
        Work::Copy { .. } => Call::Copied(given.lease),
        Work::Commit => Call::Commit(given.lease),
        Work::Cancel => Call::Cancel(given.lease),
    };
    work(rt, alloc, exec, &report);
    None
}

// One worker takes work and reports it done, event by event; the call comes before the event of
// this number.
fn disturbed(rt: &impl Abort, alloc: Global, call: &Call, want: &str, before: u32) -> Exec {
    let mut exec = moving(rt, alloc, 1, 2, [0, 0, 4, 4], [2, 3, 4, 4]);
    let mut held = None;
    for number in 1..40 {
        if number == before {
            let got = answer(rt, alloc, &mut exec, call);
            assert_eq!(rt; got.as_str(), want);
        }
        held = event(rt, alloc, &mut exec, held);
    }
    exec
}

#[test]
fn ends_well_with_a_stop_or_a_death_before_each_event(rt: HostRuntime) {
    let alloc = rt.alloc();
    for (call, first, end, want, one, other) in &INTRUDERS {
        for before in *first..*end {
            let mut exec = disturbed(&rt, alloc, call, want, before);
            let rows = [
                (Call::Take, "Err(NoExecution)"),
                (Call::List(0), *one),
                (Call::List(1), *other),
            ];
            play(&rt, alloc, &mut exec, &rows);
        }
    }
}

// What the lists are once a change was carried out.
const WHOLE: [Row; 5] = [
    (Call::Take, "Err(NoExecution)"),
    (Call::List(0), "[1]"),
    (Call::List(1), "[2]"),
    (Call::List(2), "[1]"),
    (Call::List(3), "[5]"),
];

#[test]
fn one_worker_carries_out_a_whole_change(rt: HostRuntime) {
    let alloc = rt.alloc();
    let mut exec = moving(&rt, alloc, 1, 1, [0, 0, 1, 4], [1, 2, 1, 5]);
    let mut held = None;
    for _ in 0..18 {
        held = event(&rt, alloc, &mut exec, held);
    }
    play(&rt, alloc, &mut exec, &WHOLE);
}
