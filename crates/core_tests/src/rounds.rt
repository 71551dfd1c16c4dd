// Pumps and drains of a book, whose admin and copier fail where a row says so, and between whose
// rounds a stop or a death comes. Where a call fails the test panics, in place of `?`, so that a
// book is dropped at one place alone: the proof of each drop is long.
use crate::books::{TWO, TestBook, ask, book_of};
use cluster_gate::{FailingCopier, MemoryCopier};
use core_terms::{Event, Reply};
use mover_rounds::{drain, pump_book};
use std::alloc::{AllocError, Global};
use std::process::Abort;
use std::thread::Threads;
use user_tasks::Op;

// What is done with the book.
#[derive(Clone, Copy)]
enum Step {
    Pump(u32),
    Stop(bool),
    Kill(u32),
    Drain,
}

// A book whose one job moves a partition from broker 0 to broker 1.
#[derive(Drop)]
struct Run {
    book: TestBook,
    copier: FailingCopier<MemoryCopier>,
}

fn begun(rt: &impl Abort, alloc: Global, admin: &[u64], copier: &[u64]) -> Run {
    let mut book = book_of(rt, alloc, TWO, admin);
    if book
        .step(ask(rt, alloc, Op::RemoveBroker, &[0], false))
        .is_err()
    {
        panic!(rt; "no request");
    }
    let failing = copier.to_vec(alloc).expect(rt, "memory");
    let copier = FailingCopier::new(MemoryCopier::new(alloc), failing);
    Run { book, copier }
}

// How many tasks end at once by a stop or a death, and how many are to be undone.
fn ended(reply: &Reply) -> Option<(u32, u32)> {
    match reply {
        Reply::Stopped(stopped) => Some((stopped.aborted, stopped.aborting)),
        Reply::Killed(killed) => Some((killed.dead, killed.aborting)),
        _ => None,
    }
}

impl Run {
    // Takes a step, and tells how it ended.
    fn step<R: Threads + Sync>(
        &mut self,
        rt: &R,
        alloc: Global,
        step: Step,
    ) -> Result<String, AllocError> {
        match step {
            Step::Pump(steps) => {
                let end = pump_book(rt, alloc, &mut self.book, &mut self.copier, steps);
                format!(in alloc; "{end:?}")
            }
            Step::Drain if !self.book.is_quiet() => String::from_str(alloc, "not quiet"),
            Step::Drain => {
                let end = drain(rt, alloc, &mut self.book, &mut self.copier);
                format!(in alloc; "{end:?}")
            }
            Step::Stop(force) => self.disturb(alloc, Event::Stop(force)),
            Step::Kill(broker) => self.disturb(alloc, Event::Kill(broker)),
        }
    }

    // Takes a stop or a death, and tells what came of it.
    fn disturb(&mut self, alloc: Global, event: Event) -> Result<String, AllocError> {
        match self.book.step(event) {
            Ok(reply) => match ended(&reply) {
                Some((at_once, later)) => format!(in alloc; "{at_once} {later}"),
                None => String::from_str(alloc, "nothing"),
            },
            Err(_) => String::from_str(alloc, "fault"),
        }
    }
}

// A run: the calls of the admin and of the copier that fail, the steps with their ends, the list
// and the entries in the end.
struct Row {
    admin: &'static [u64],
    copier: &'static [u64],
    steps: &'static [(Step, &'static str)],
    list: &'static [u32],
    entries: u64,
}

const ROWS: [Row; 6] = [
    Row {
        admin: &[],
        copier: &[],
        steps: &[
            (Step::Pump(1), "Done { done: 1, idle: false }"),
            (Step::Pump(9), "Done { done: 2, idle: true }"),
            (Step::Drain, "Drained"),
        ],
        list: &[1],
        entries: 13,
    },
    Row {
        admin: &[],
        copier: &[],
        steps: &[(Step::Drain, "Drained")],
        list: &[1],
        entries: 11,
    },
    // the first write of the task fails, and the second time doesn't
    Row {
        admin: &[2],
        copier: &[],
        steps: &[(Step::Pump(9), "AdminFault(1)"), (Step::Drain, "Drained")],
        list: &[1],
        entries: 12,
    },
    // so does its commit
    Row {
        admin: &[3],
        copier: &[],
        steps: &[(Step::Drain, "AdminFault(1)"), (Step::Drain, "Drained")],
        list: &[1],
        entries: 14,
    },
    // a copy fails, and the second time doesn't
    Row {
        admin: &[],
        copier: &[1],
        steps: &[(Step::Pump(9), "Done { done: 4, idle: true }")],
        list: &[1],
        entries: 14,
    },
    // the third failure dooms the task
    Row {
        admin: &[],
        copier: &[1, 2, 3],
        steps: &[(Step::Drain, "Drained")],
        list: &[0],
        entries: 17,
    },
];

fn expect_step<R: Threads + Sync + Abort>(
    rt: &R,
    alloc: Global,
    run: &mut Run,
    step: Step,
    wanted: &str,
) {
    let end = run.step(rt, alloc, step).expect(rt, "memory");
    assert_eq!(rt; end.as_str(), wanted);
}

fn expect_end<R: Abort>(rt: &R, run: &Run, list: &[u32], entries: u64) {
    assert!(rt; run.book.parts() > 0);
    assert_eq!(rt; run.book.admin().inner().list(0), list);
    assert_eq!(rt; run.book.entries(), entries);
}

fn run_row<R: Threads + Sync + Abort>(rt: &R, alloc: Global, row: &Row) {
    let mut run = begun(rt, alloc, row.admin, row.copier);
    for (step, wanted) in row.steps {
        expect_step(rt, alloc, &mut run, *step, *wanted);
    }
    expect_end(rt, &run, row.list, row.entries);
}

#[test]
fn pumps_and_drains_end_as_their_admin_and_copier_say(rt: HostRuntime) {
    for row in &ROWS {
        run_row(&rt, rt.alloc(), row);
    }
}

// A stop or a death, after how many rounds it comes, its answer, and the only member of the list and
// the number of entries in the end. The first round plans, the second copies, the third commits.
type Disturbance = (u32, Step, &'static str, u32, u64);

const DISTURBANCES: [Disturbance; 13] = [
    (1, Step::Stop(true), "1 0", 0, 6),
    (2, Step::Stop(true), "0 1", 0, 12),
    (3, Step::Stop(true), "nothing", 1, 12),
    (1, Step::Stop(false), "1 0", 0, 6),
    (2, Step::Stop(false), "0 0", 1, 12),
    (3, Step::Stop(false), "nothing", 1, 12),
    // the broker that the task adds
    (1, Step::Kill(1), "1 0", 0, 6),
    (2, Step::Kill(1), "0 1", 0, 12),
    (3, Step::Kill(1), "0 0", 1, 12),
    // the broker that it removes
    (1, Step::Kill(0), "0 0", 1, 12),
    (2, Step::Kill(0), "0 0", 1, 12),
    (3, Step::Kill(0), "0 0", 1, 12),
    // a broker that isn't there
    (2, Step::Kill(2), "nothing", 1, 12),
];

// How so many rounds end that all found something to do.
fn pumped(rounds: u32) -> &'static str {
    match rounds {
        1 => "Done { done: 1, idle: false }",
        2 => "Done { done: 2, idle: false }",
        _ => "Done { done: 3, idle: false }",
    }
}

fn run_disturbed<R: Threads + Sync + Abort>(rt: &R, alloc: Global, disturbance: &Disturbance) {
    let (rounds, step, answer, member, entries) = *disturbance;
    let mut run = begun(rt, alloc, &[], &[]);
    expect_step(rt, alloc, &mut run, Step::Pump(rounds), pumped(rounds));
    expect_step(rt, alloc, &mut run, step, answer);
    expect_step(rt, alloc, &mut run, Step::Drain, "Drained");
    expect_end(rt, &run, &[member], entries);
}

#[test]
fn drains_end_well_with_a_stop_or_a_death_between_rounds(rt: HostRuntime) {
    for disturbance in &DISTURBANCES {
        run_disturbed(&rt, rt.alloc(), disturbance);
    }
}
