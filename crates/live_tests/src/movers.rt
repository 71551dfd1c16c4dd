// Two movers of one turn, on two threads, of whose copies each waits until the other's has begun.
ghost use Rattle.std.specs.Prelude.{◌≡◌};
ghost use Rattle.mover_workers.specs.Callers.{Belongs};

use crate::books::{TestBook, book_of, let_go, lists_of, reply_to};
use cluster_gate::Copier;
use core_terms::{Event, Reply, Shown};
use mover_workers::{LoopEnd, mover_loop};
use plan_terms::ListOf;
use std::alloc::Global;
use std::process::Abort;
use std::sync::Wait;
use std::thread::{Threads, join};
use test_fakes::PairGate;
use turn_book::{Pass, Turn};
use user_tasks::{Ask, Op, Query};

// Two tasks may be in flight.
const FOUR: &str =
    r#"{"version":1,"brokers":[{"id":0},{"id":1},{"id":2},{"id":3}],"partitions":[{"topic":"t","partition":0,"replicas":[0]},{"topic":"t","partition":1,"replicas":[0]},{"topic":"t","partition":2,"replicas":[1]},{"topic":"t","partition":3,"replicas":[1]}],"config":{"min.valid.partition.ratio":"0","max.num.cluster.movements":2}}"#;

// What the lists are without brokers 0 and 1.
const NEW_LISTS: [&[u32]; 4] = [&[3], &[2], &[2], &[2]];

// What a mover brings back.
#[derive(Drop)]
struct Back {
    pass: Pass<TestBook>,
    gate: PairGate,
    end: LoopEnd,
}

fn run_mover<R: Threads + Wait + Sync>(
    rt: &R,
    alloc: Global,
    turn: &Turn<TestBook>,
    pass: Pass<TestBook>,
    mut gate: PairGate,
) -> Back
    requires own { Belongs turn.now pass }
    ensures own { Belongs turn.entry.now result.pass }
    ensures parts { result.pass.parts ≡ pass.parts }
{
    let (pass, end) = mover_loop(rt, alloc, turn, pass, &mut gate);
    Back { pass, gate, end }
}

// That brokers 0 and 1 are removed.
fn removal<R: Abort>(rt: &R, alloc: Global) -> Ask {
    Ask {
        op: Op::RemoveBroker,
        brokers: ListOf::new([0, 1].to_vec(alloc).expect(rt, "memory")),
        goals: ListOf::new(Vec::new(alloc)),
        skip: false,
        excluded: ListOf::new(Vec::new(alloc)),
        dryrun: false,
        topics: ListOf::new(Vec::new(alloc)),
        factor: 0,
    }
}

// A book that was asked to, and then to close.
fn closing_book<R: Abort>(rt: &R, alloc: Global) -> TestBook {
    let mut book = book_of(rt, alloc, FOUR, &[]);
    reply_to(rt, &mut book, Event::Submit(removal(rt, alloc), None));
    reply_to(rt, &mut book, Event::Close);
    book
}

// A mover that ended since Close was asked, and that copied.
fn expect_copied<R: Abort>(rt: &R, gate: &PairGate, end: LoopEnd) {
    assert_eq!(rt; end, LoopEnd::Closed);
    assert!(rt; gate.copies().len() > 0);
}

fn moved_by_both<R: Threads + Wait + Abort + Sync>(rt: &R, alloc: Global) -> TestBook {
    let (gate, gate_of_other) = PairGate::pair(alloc).expect(rt, "memory");
    let Ok((turn, mut pass)) = Turn::new(alloc, closing_book(rt, alloc)) else {
        panic!(rt; "no turn");
    };
    let pass_of_other = turn.split(&mut pass);
    let shared = &turn;
    let (one, other) = join(
        rt,
        move || -> Back
            requires { Belongs shared.now pass }
            ensures { Belongs shared.entry.now result.pass × (result.pass.parts ≡ pass.parts) }
        { run_mover(rt, alloc, shared, pass, gate) },
        move || -> Back
            requires { Belongs shared.now pass_of_other }
            ensures { Belongs shared.entry.now result.pass
                × (result.pass.parts ≡ pass_of_other.parts) }
        { run_mover(rt, alloc, shared, pass_of_other, gate_of_other) },
    );
    expect_copied(rt, &one.gate, one.end);
    expect_copied(rt, &other.gate, other.end);
    let mut pass = one.pass;
    turn.join(&mut pass, other.pass);
    turn.close(pass)
}

// Each of the four tasks is completed.
fn expect_completed<R: Abort>(rt: &R, book: &mut TestBook) {
    let Reply::Shown(Shown::State(state)) = reply_to(rt, book, Event::Show(Query::State)) else {
        panic!(rt; "no state");
    };
    assert_eq!(rt; state.counts.completed, 4);
}

fn expect_new_lists<R: Abort>(rt: &R, alloc: Global, book: &TestBook) {
    let lists = lists_of(rt, alloc, book);
    assert_eq!(rt; lists.len(), NEW_LISTS.len());
    for (list, wanted) in lists.iter().zip(NEW_LISTS) {
        assert_eq!(rt; list.as_slice(), wanted);
    }
}

#[test]
fn two_movers_of_a_turn_copy_at_once(rt: HostRuntime) {
    let alloc = rt.alloc();
    let mut book = moved_by_both(&rt, alloc);
    expect_completed(&rt, &mut book);
    expect_new_lists(&rt, alloc, &book);
    let_go(book);
}
