// Movers and planners beside a console.
use crate::links::{copier_of, copiers_of, link_of, silent_listener, told};
use crate::services::{Outside, Over, Setting, run};
use crate::texts::{ACCEPTED, ACCEPTED_AND_MOVING, FOUR, REMOVAL_OF_BOTH, STATE, expect_text};
use cc_base::Joined;
use live_service::{FrontEnd, Parties};
use mover_rounds::DrainEnd;
use rest_session::LinkEnd;
use std::alloc::Global;
use std::process::Abort;
use test_fakes::{PairGate, ReplyGate};

// Brokers 0 and 1 are removed.
const REMOVING: Setting = Setting {
    text: FOUR,
    failing: &[],
    movers: 1,
    planners: 1,
    links: None,
};

// The console's requests are answered, and nothing is left to do. Broker 2 has both partitions.
fn expect_removed<P: Parties, R: Abort>(rt: &R, over: &Over<P>) {
    assert_eq!(rt; over.end, FrontEnd::Console(LinkEnd::Ended));
    assert_eq!(rt; over.drain, DrainEnd::Drained);
    assert_eq!(rt; over.book.lists.len(), 2);
    for list in over.book.lists.iter() {
        assert_eq!(rt; list.as_slice(), [2].as_slice());
    }
}

// Each copy waits until the other mover's has begun.
#[test]
fn two_movers_copy_at_once(rt: HostRuntime) {
    let alloc = rt.alloc();
    let (one, other) = PairGate::pair(alloc).expect(&rt, "memory");
    let outside = Outside {
        copiers: vec![in alloc; one, other].expect(&rt, "memory"),
        copier: PairGate::plain(alloc).expect(&rt, "memory"),
        console: link_of(&rt, alloc, REMOVAL_OF_BOTH, &[], &[]),
        listener: silent_listener(&rt, alloc),
    };
    let setting = Setting {
        movers: 2,
        ..REMOVING
    };
    let over = run(&rt, alloc, setting, outside);
    expect_text(&rt, told(&over.front.console), ACCEPTED);
    expect_removed(&rt, &over);
    assert_eq!(rt; over.front.service.copiers.len(), 2);
    for gate in over.front.service.copiers.iter() {
        assert_eq!(rt; gate.copies().len(), 1);
    }
    assert_eq!(rt; over.front.copier.copies().len(), 0);
}

// The first copy waits until both replies are written, and the second request comes only once that
// copy has begun.
#[test]
fn a_reply_is_written_while_a_copy_is_under_way(rt: HostRuntime) {
    let alloc = rt.alloc();
    let (first, last) = (REMOVAL_OF_BOTH.as_bytes(), STATE.as_bytes());
    let (gate, source, sink) = ReplyGate::held(alloc, 2, first, last).expect(&rt, "memory");
    let outside = Outside {
        copiers: vec![in alloc; gate].expect(&rt, "memory"),
        copier: ReplyGate::plain(alloc).expect(&rt, "memory"),
        console: Joined::new(source, sink),
        listener: silent_listener(&rt, alloc),
    };
    let over = run(&rt, alloc, REMOVING, outside);
    let written = over.front.console.sink().bytes();
    expect_text(&rt, written, ACCEPTED_AND_MOVING);
    expect_removed(&rt, &over);
    assert_eq!(rt; over.front.service.copiers.len(), 1);
    for gate in over.front.service.copiers.iter() {
        assert_eq!(rt; gate.copies().len(), 2);
    }
    assert_eq!(rt; over.front.copier.copies().len(), 0);
}

// So many times how far the executor is.
fn asks<R: Abort>(rt: &R, alloc: Global, times: u32) -> String {
    let mut text = String::new(alloc);
    for _ in 0..times {
        text.push_str(STATE).expect(rt, "memory");
    }
    text
}

// Nothing changes while requests only look, so a worker without work looks when it begins and when
// it is asked to close, each time for work and for a job, and rests between.
#[test]
fn idle_workers_make_few_entries(rt: HostRuntime) {
    let alloc = rt.alloc();
    let (looks, workers) = (200, 4);
    let outside = Outside {
        copiers: copiers_of(&rt, alloc, workers),
        copier: copier_of(&rt, alloc, &[]),
        console: link_of(&rt, alloc, asks(&rt, alloc, looks).as_str(), &[], &[]),
        listener: silent_listener(&rt, alloc),
    };
    let setting = Setting {
        text: FOUR,
        movers: workers,
        planners: workers,
        ..REMOVING
    };
    let over = run(&rt, alloc, setting, outside);
    assert_eq!(rt; over.end, FrontEnd::Console(LinkEnd::Ended));
    assert!(rt; over.book.entries <= 260);
}
