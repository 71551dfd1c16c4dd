// The links of a listener.
ghost use Rattle.test_fakes.specs.Handed.{AreFresh};

use crate::links::{
    TestCopier, TestLink, copier_of, copiers_of, link_of, listener_of, silent_link, told,
};
use crate::services::{Outside, Setting, TestOver, run};
use crate::texts::{ACCEPTED, AT_REST, KEYS, KEYS_ANSWERED, REMOVAL, STATE, TWO, expect_text};
use cc_base::Sink;
use cluster_gate::MemoryCopier;
use live_service::FrontEnd;
use mover_rounds::DrainEnd;
use rest_session::LinkEnd;
use std::alloc::Global;
use std::process::Abort;
use std::sync::Wait;
use std::thread::Threads;
use test_fakes::{MemoryListener, ReplyGate};

// A link: what it asks, which writes to it fail, and what comes of it where it is served.
struct Asking {
    asks: &'static str,
    failing_writes: &'static [u64],
    end: LinkEnd,
    told: &'static str,
}

// A link that asks once how far the executor is.
const ASKING: Asking = Asking {
    asks: STATE,
    failing_writes: &[],
    end: LinkEnd::Ended,
    told: AT_REST,
};

// A link that ends inside the head of a request.
const CUT: Asking = Asking {
    asks: "GET /kafkacruisecontrol/sta",
    failing_writes: &[],
    end: LinkEnd::Cut,
    told: "",
};

// A link to which nothing can be written.
const DEAF: Asking = Asking {
    asks: STATE,
    failing_writes: &[0],
    end: LinkEnd::WriteFault,
    told: "",
};

// A service: how many movers, and as many planners, work beside the links, the links that come, how
// many are asked for, and which calls of the listener fail. Then how many links are served, how the
// front ends, and the list of the one partition.
struct Row {
    workers: u32,
    links: &'static [Asking],
    asked: u32,
    failing: &'static [u64],
    served: usize,
    end: FrontEnd,
    list: &'static [u32],
}

const ROWS: [Row; 8] = [
    // a link is answered as a console is
    Row {
        workers: 0,
        links: &[Asking {
            asks: KEYS,
            failing_writes: &[],
            end: LinkEnd::Ended,
            told: KEYS_ANSWERED,
        }],
        asked: 1,
        failing: &[],
        served: 1,
        end: FrontEnd::Accepted,
        list: &[1],
    },
    // a mover carries out what a link asks
    Row {
        workers: 1,
        links: &[
            Asking {
                asks: REMOVAL,
                failing_writes: &[],
                end: LinkEnd::Ended,
                told: ACCEPTED,
            },
            CUT,
        ],
        asked: 2,
        failing: &[],
        served: 2,
        end: FrontEnd::Accepted,
        list: &[1],
    },
    // the listener finds no address
    Row {
        workers: 0,
        links: &[ASKING, ASKING],
        asked: 2,
        failing: &[0],
        served: 0,
        end: FrontEnd::ListenerFault,
        list: &[0],
    },
    // the first link isn't accepted
    Row {
        workers: 0,
        links: &[ASKING, ASKING],
        asked: 2,
        failing: &[1, 2, 3, 4, 5, 6, 7, 8, 9, 10, 11, 12, 13, 14, 15, 16],
        served: 0,
        end: FrontEnd::ListenerFault,
        list: &[0],
    },
    // it is accepted by the last of the calls that are tried, and the second one by the third
    Row {
        workers: 0,
        links: &[ASKING, ASKING],
        asked: 2,
        failing: &[1, 2, 3, 4, 5, 6, 7, 8, 9, 10, 11, 12, 13, 14, 15, 17, 18],
        served: 2,
        end: FrontEnd::Accepted,
        list: &[0],
    },
    // the second link isn't accepted: the first is served all the same
    Row {
        workers: 0,
        links: &[ASKING, ASKING],
        asked: 2,
        failing: &[2, 3, 4, 5, 6, 7, 8, 9, 10, 11, 12, 13, 14, 15, 16, 17],
        served: 1,
        end: FrontEnd::ListenerFault,
        list: &[0],
    },
    // no second link comes
    Row {
        workers: 0,
        links: &[ASKING],
        asked: 2,
        failing: &[],
        served: 1,
        end: FrontEnd::ListenerFault,
        list: &[0],
    },
    // links that end by a fault change nothing for the others
    Row {
        workers: 0,
        links: &[CUT, ASKING, DEAF],
        asked: 3,
        failing: &[],
        served: 3,
        end: FrontEnd::Accepted,
        list: &[0],
    },
];

fn links_of<R: Abort>(rt: &R, alloc: Global, asking: &[Asking]) -> Vec<TestLink>
    ensures fresh { AreFresh ⟦<TestLink as Sink>⟧.written result.items }
{
    let mut links = Vec::new(alloc);
    for link in asking {
        let link = link_of(rt, alloc, link.asks, &[], link.failing_writes);
        links.push(link).expect(rt, "memory");
    }
    links
}

fn run_row<R: Threads + Wait + Abort + Sync>(rt: &R, alloc: Global, row: &Row) -> TestOver {
    let setting = Setting {
        text: TWO,
        failing: &[],
        movers: row.workers,
        planners: row.workers,
        links: Some(row.asked),
    };
    let outside = Outside {
        copiers: copiers_of(rt, alloc, row.workers.saturating_add(row.asked)),
        copier: copier_of(rt, alloc, &[]),
        console: silent_link(rt, alloc),
        listener: listener_of(rt, alloc, links_of(rt, alloc, row.links), row.failing),
    };
    run(rt, alloc, setting, outside)
}

// Where a mover works, the one copy is of the first copier. Elsewhere the drain makes what copies
// there are.
fn expect_copies<R: Abort>(rt: &R, workers: u32, copiers: &[TestCopier]) {
    for (place, copier) in copiers.iter().enumerate() {
        let moves = workers > 0 && place == 0;
        assert_eq!(rt; copier.inner().copies().len(), usize::from(moves));
    }
}

fn expect_row<R: Abort>(rt: &R, row: &Row, over: &TestOver) {
    assert_eq!(rt; over.end, row.end);
    assert_eq!(rt; over.drain, DrainEnd::Drained);
    assert_eq!(rt; over.front.service.served.len(), row.served);
    for (served, wanted) in over.front.service.served.iter().zip(row.links) {
        assert_eq!(rt; served.end, wanted.end);
        expect_text(rt, told(&served.link), wanted.told);
    }
    expect_text(rt, told(&over.front.console), "");
    expect_copies(rt, row.workers, &over.front.service.copiers);
    assert_eq!(rt; over.book.lists.len(), 1);
    for list in over.book.lists.iter() {
        assert_eq!(rt; list.as_slice(), row.list);
    }
}

#[test]
fn links_end_as_they_and_their_listener_do(rt: HostRuntime) {
    let alloc = rt.alloc();
    for row in &ROWS {
        let over = run_row(&rt, alloc, row);
        expect_row(&rt, row, &over);
    }
}

// The reply was written twice, and nothing else.
fn expect_twice<R: Abort>(rt: &R, bytes: &[u8], reply: &str) {
    let (one, other) = bytes.split_at(reply.len().min(bytes.len()));
    expect_text(rt, one, reply);
    expect_text(rt, other, reply);
}

// Each link asks a second time only once the other was answered.
#[test]
fn links_are_served_at_once(rt: HostRuntime) {
    let alloc = rt.alloc();
    let (one, other) = ReplyGate::links(alloc, STATE.as_bytes(), STATE.as_bytes()).expect(
        &rt, "memory",
    );
    let copiers = vec![in alloc; MemoryCopier::new(alloc), MemoryCopier::new(alloc)];
    let links = vec![in alloc; one, other].expect(&rt, "memory");
    let outside = Outside {
        copiers: copiers.expect(&rt, "memory"),
        copier: MemoryCopier::new(alloc),
        console: silent_link(&rt, alloc),
        listener: MemoryListener::new(links),
    };
    let setting = Setting {
        text: TWO,
        failing: &[],
        movers: 0,
        planners: 0,
        links: Some(2),
    };
    let over = run(&rt, alloc, setting, outside);
    assert_eq!(rt; over.end, FrontEnd::Accepted);
    assert_eq!(rt; over.drain, DrainEnd::Drained);
    assert_eq!(rt; over.front.service.served.len(), 2);
    for served in over.front.service.served.iter() {
        assert_eq!(rt; served.end, LinkEnd::Ended);
        expect_twice(&rt, served.link.bytes(), AT_REST);
    }
}
