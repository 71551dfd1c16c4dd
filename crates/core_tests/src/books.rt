// Runs of a book, written as steps and what each is answered. Where a call fails the tests panic,
// in place of `?`, so that a book is dropped at one place alone: the proof of each drop is long.
use cluster_gate::{FailingAdmin, MemoryCluster, MemoryCopier, copy_chunk};
use control_core::Book;
use core_terms::{Event, Problem, Reply};
use exec_terms::{Given, Work};
use goal_optimizer::optimise;
use plan_terms::ListOf;
use std::alloc::{AllocError, Global};
use std::process::Abort;
use std::thread::Threads;
use test_fakes::cluster;
use user_tasks::{Ask, Op};

/// Two brokers, and a partition on the first.
pub const TWO: &str =
    r#"{"version":1,"brokers":[{"id":0},{"id":1}],"partitions":[{"topic":"t","partition":0,"replicas":[0]}],"config":{"min.valid.partition.ratio":"0"}}"#;

const THREE: &str =
    r#"{"version":1,"brokers":[{"id":0},{"id":1},{"id":2}],"partitions":[{"topic":"t","partition":0,"replicas":[0]}],"config":{"min.valid.partition.ratio":"0"}}"#;

// A step: an event, of which plans, receipts and the brokers of a request are made here.
#[derive(Clone, Copy)]
enum Step {
    // that broker 0 is removed
    Remove,
    Rebalance { dry: bool },
    PlanTake,
    // a plan for the job that was taken last
    Plan,
    PlanBack(u64),
    Stop(bool),
    Kill(u32),
    Take,
    // the copy of the work that was taken last
    Copy,
    Commit(u64),
    Cancel(u64),
    Close,
}

/// A book of a cluster in memory, of whose calls some fail.
pub type TestBook = Book<FailingAdmin<MemoryCluster>>;

// A book, and what its last planner and its last mover hold.
#[derive(Drop)]
struct Run {
    book: TestBook,
    copier: MemoryCopier,
    job: Option<(u64, Problem)>,
    work: Option<Given>,
}

/// The book of a cluster file, whose admin fails at the calls with these numbers. The first is 1.
pub fn book_of(rt: &impl Abort, alloc: Global, text: &str, failing: &[u64]) -> TestBook {
    let file = cluster(alloc, text).expect(rt, "cluster");
    let failing = failing.to_vec(alloc).expect(rt, "memory");
    let admin = FailingAdmin::new(MemoryCluster::new(alloc), failing);
    let Ok(book) = Book::begin(alloc, file, admin) else {
        panic!(rt; "no book");
    };
    book
}

fn run_of(rt: &impl Abort, alloc: Global, text: &str, failing: &[u64]) -> Run {
    Run {
        book: book_of(rt, alloc, text, failing),
        copier: MemoryCopier::new(alloc),
        job: None,
        work: None,
    }
}

/// A request for a plan.
pub fn ask(rt: &impl Abort, alloc: Global, op: Op, brokers: &[u32], dryrun: bool) -> Event {
    let ask = Ask {
        op,
        brokers: ListOf::new(brokers.to_vec(alloc).expect(rt, "memory")),
        goals: ListOf::new(Vec::new(alloc)),
        skip: false,
        excluded: ListOf::new(Vec::new(alloc)),
        dryrun,
        topics: ListOf::new(Vec::new(alloc)),
        factor: 1,
    };
    Event::Submit(ask, None)
}

fn plan<R: Threads + Sync + Abort>(rt: &R, alloc: Global, job: Option<(u64, Problem)>) -> Event {
    let Some((ticket, problem)) = job else {
        panic!(rt; "no job");
    };
    let (case, start, goals) = problem.into_parts();
    let Ok(plan) = optimise(rt, alloc, &case, &start, &goals) else {
        panic!(rt; "no plan");
    };
    Event::Planned(ticket, plan)
}

fn copy(rt: &impl Abort, copier: &mut MemoryCopier, work: Option<Given>) -> Event {
    let Some(given) = work else {
        panic!(rt; "no work");
    };
    let Work::Copy { to, chunk } = given.work else {
        panic!(rt; "no copy");
    };
    let Ok(receipt) = copy_chunk(copier, given.lease, given.part, to, chunk) else {
        panic!(rt; "memory");
    };
    Event::Copied(receipt)
}

impl Run {
    fn event<R: Threads + Sync + Abort>(&mut self, rt: &R, alloc: Global, step: Step) -> Event {
        match step {
            Step::Remove => ask(rt, alloc, Op::RemoveBroker, &[0], false),
            Step::Rebalance { dry } => ask(rt, alloc, Op::Rebalance, &[], dry),
            Step::PlanTake => Event::PlanTake,
            Step::Plan => plan(rt, alloc, self.job.take()),
            Step::PlanBack(ticket) => Event::PlanBack(ticket),
            Step::Stop(force) => Event::Stop(force),
            Step::Kill(broker) => Event::Kill(broker),
            Step::Take => Event::Take,
            Step::Copy => copy(rt, &mut self.copier, self.work),
            Step::Commit(lease) => Event::Commit(lease),
            Step::Cancel(lease) => Event::Cancel(lease),
            Step::Close => Event::Close,
        }
    }

    // Takes an event, and tells the reply or the fault in short.
    fn answer(&mut self, alloc: Global, event: Event) -> Result<String, AllocError> {
        match self.book.step(event) {
            Ok(Reply::Job(ticket, problem)) => {
                self.job = Some((ticket, problem));
                format!(in alloc; "job {ticket}")
            }
            Ok(Reply::Work(given)) => {
                self.work = Some(given);
                format!(in alloc; "lease {} for {:?}", given.lease, given.work)
            }
            Ok(reply) => told(alloc, &reply),
            Err((fault, _)) => format!(in alloc; "{fault:?}"),
        }
    }

    fn step<R: Threads + Sync + Abort>(&mut self, rt: &R, alloc: Global, step: Step) -> String {
        let event = self.event(rt, alloc, step);
        self.answer(alloc, event).expect(rt, "memory")
    }
}

// The other replies, in short.
fn told(alloc: Global, reply: &Reply) -> Result<String, AllocError> {
    match reply {
        Reply::Accepted(id) => format!(in alloc; "accepted {}", id.as_u128() & 0xff),
        Reply::Executing(id) => format!(in alloc; "executing {}", id.as_u128() & 0xff),
        Reply::StaleJob(last) => format!(in alloc; "stale job {last}"),
        Reply::SentBack => format!(in alloc; "sent back"),
        Reply::PlanDone => format!(in alloc; "planned"),
        Reply::Stopped(stopped) => {
            format!(in alloc; "stopped {} {}", stopped.aborted, stopped.aborting)
        }
        Reply::Killed(killed) => format!(in alloc; "killed {} {}", killed.dead, killed.aborting),
        Reply::Idle(reason, _) => format!(in alloc; "{reason:?}"),
        Reply::Left(left) => format!(in alloc; "left {left}"),
        Reply::AbortAsked => format!(in alloc; "abort asked"),
        Reply::Committed => format!(in alloc; "committed"),
        Reply::Cancelled(phase) => format!(in alloc; "{phase:?}"),
        Reply::Closed => format!(in alloc; "closed"),
        Reply::Closing => format!(in alloc; "closing"),
        _ => format!(in alloc; "another"),
    }
}

// Takes steps, each of which has its answer, on a book of its own, whose admin fails at these
// calls; then the partition has this list.
fn run_rows<R: Threads + Sync + Abort>(
    rt: &R,
    alloc: Global,
    text: &str,
    failing: &[u64],
    rows: &[(Step, &str)],
    list: &[u32],
) {
    let mut run = run_of(rt, alloc, text, failing);
    for (step, wanted) in rows {
        let answer = run.step(rt, alloc, *step);
        assert_eq!(rt; answer.as_str(), *wanted);
    }
    assert!(rt; run.book.parts() > 0);
    assert_eq!(rt; run.book.admin().inner().list(0), list);
    assert_eq!(rt; run.book.failures(), failing.len() as u64);
    assert_eq!(rt;
        run.book.entries() + failing.len() as u64,
        rows.len() as u64
    );
}

const FORCED: [(Step, &str); 10] = [
    (Step::Remove, "accepted 1"),
    (Step::PlanTake, "job 1"),
    (Step::Plan, "planned"),
    (Step::Take, "lease 1 for Copy { to: 1, chunk: 0 }"),
    (Step::Copy, "left 0"),
    (Step::Take, "lease 2 for Commit"),
    (Step::Stop(true), "stopped 0 1"),
    (Step::Commit(2), "abort asked"),
    (Step::Take, "lease 3 for Cancel"),
    (Step::Cancel(3), "Aborted"),
];

const SOFT: [(Step, &str); 8] = [
    (Step::Remove, "accepted 1"),
    (Step::PlanTake, "job 1"),
    (Step::Plan, "planned"),
    (Step::Take, "lease 1 for Copy { to: 1, chunk: 0 }"),
    (Step::Copy, "left 0"),
    (Step::Take, "lease 2 for Commit"),
    (Step::Stop(false), "stopped 0 0"),
    (Step::Commit(2), "committed"),
];

#[test]
fn stops_undo_or_finish_what_is_in_flight(rt: HostRuntime) {
    let alloc = rt.alloc();
    run_rows(&rt, alloc, TWO, &[], &FORCED[..6], &[0, 1]);
    run_rows(&rt, alloc, TWO, &[], &FORCED, &[0]);
    run_rows(&rt, alloc, TWO, &[], &SOFT, &[1]);
}

const KILLED: [(Step, &str); 10] = [
    (Step::Remove, "accepted 1"),
    (Step::PlanTake, "job 1"),
    (Step::Plan, "planned"),
    (Step::Take, "lease 1 for Copy { to: 1, chunk: 0 }"),
    (Step::Kill(1), "killed 0 1"),
    (Step::Stop(true), "stopped 0 0"),
    (Step::Take, "AllLeased"),
    (Step::Copy, "abort asked"),
    (Step::Take, "lease 2 for Cancel"),
    (Step::Cancel(2), "Dead"),
];

#[test]
fn the_death_of_a_target_dooms_its_task(rt: HostRuntime) {
    let alloc = rt.alloc();
    run_rows(&rt, alloc, TWO, &[], &KILLED[..5], &[0, 1]);
    run_rows(&rt, alloc, TWO, &[], &KILLED, &[0]);
}

const OVERTAKEN: [(Step, &str); 7] = [
    (Step::Remove, "accepted 1"),
    (Step::PlanTake, "job 1"),
    (Step::Kill(2), "killed 0 0"),
    (Step::Plan, "sent back"),
    (Step::PlanTake, "job 2"),
    (Step::Plan, "planned"),
    (Step::Take, "lease 1 for Copy { to: 1, chunk: 0 }"),
];

#[test]
fn a_plan_that_a_death_overtook_is_sent_back(rt: HostRuntime) {
    let alloc = rt.alloc();
    run_rows(&rt, alloc, THREE, &[], &OVERTAKEN, &[0, 1]);
}

const REQUESTS: [(Step, &str); 6] = [
    (Step::Remove, "accepted 1"),
    (Step::Rebalance { dry: true }, "accepted 2"),
    (Step::Rebalance { dry: false }, "executing 1"),
    (Step::PlanBack(1), "stale job 0"),
    (Step::Close, "closed"),
    (Step::Remove, "closing"),
];

#[test]
fn one_request_at_a_time_is_carried_out(rt: HostRuntime) {
    let alloc = rt.alloc();
    run_rows(&rt, alloc, TWO, &[], &REQUESTS, &[0]);
}

const FAILING: [(Step, &str); 5] = [
    (Step::Remove, "accepted 1"),
    (Step::PlanTake, "job 1"),
    (Step::Plan, "planned"),
    (Step::Take, "AdminFault(1)"),
    (Step::Take, "lease 1 for Copy { to: 1, chunk: 0 }"),
];

#[test]
fn a_failed_write_changes_nothing(rt: HostRuntime) {
    let alloc = rt.alloc();
    // the admin's second call is the first write of a task
    run_rows(&rt, alloc, TWO, &[2], &FAILING[..4], &[0]);
    run_rows(&rt, alloc, TWO, &[2], &FAILING, &[0, 1]);
}
