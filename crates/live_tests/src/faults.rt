// Each call of the outside that fails in turn, where a console asks for one move.
use crate::links::{copier_of, copiers_of, link_of, silent_listener, slow_link_of, told};
use crate::services::{Outside, Setting, TestOver, run};
use crate::texts::{ACCEPTED, BUSY, LISTED, MOVES, PUMPED, REMOVAL, TWO, expect_texts};
use live_service::FrontEnd;
use mover_rounds::DrainEnd;
use rest_session::LinkEnd;
use std::alloc::Global;
use std::process::Abort;
use std::sync::Wait;
use std::thread::Threads;

// Which calls fail. Those of the cluster and copies are counted from 1 on, and reads and writes of
// the console from 0 on.
#[derive(Clone, Copy)]
struct Calls {
    cluster: &'static [u64],
    copies: &'static [u64],
    reads: &'static [u64],
    writes: &'static [u64],
}

const NONE: Calls = Calls {
    cluster: &[],
    copies: &[],
    reads: &[],
    writes: &[],
};

// The calls that fail, what the console asks, and how many movers, and as many planners, work beside
// it. Then how the console and the drain end, the list in the end, how many copies were told as
// failed, and the replies that were written.
#[derive(Clone, Copy)]
struct Row {
    failing: Calls,
    asks: &'static str,
    workers: u32,
    console: LinkEnd,
    drain: DrainEnd,
    list: &'static [u32],
    told: &'static [&'static str],
}

// Where no call fails and nobody works beside the console.
const GOOD: Row = Row {
    failing: NONE,
    asks: REMOVAL,
    workers: 0,
    console: LinkEnd::Ended,
    drain: DrainEnd::Drained,
    list: &[1],
    told: &[ACCEPTED],
};

// The replies to what asks for a move and ends it.
const MOVES_ANSWERED: [&str; 4] = [ACCEPTED, BUSY, PUMPED, LISTED];

// Each call that is made fails in some row, and for each kind of call a row names the first that
// isn't made any more.
const ROWS: [Row; 16] = [
    // the first call of the cluster installs its lists, and no service is run where it fails. The
    // next begins the move
    Row {
        failing: Calls {
            cluster: &[2],
            ..NONE
        },
        drain: DrainEnd::AdminFault(1),
        list: &[0],
        ..GOOD
    },
    // this one ends it, so that both brokers stay in the list
    Row {
        failing: Calls {
            cluster: &[3],
            ..NONE
        },
        drain: DrainEnd::AdminFault(1),
        list: &[0, 1],
        ..GOOD
    },
    // where a mover meets that fault, the drain ends the move
    Row {
        failing: Calls {
            cluster: &[3],
            ..NONE
        },
        workers: 1,
        ..GOOD
    },
    Row {
        failing: Calls {
            cluster: &[4],
            ..NONE
        },
        ..GOOD
    },
    // a copy that fails is made again
    Row {
        failing: Calls {
            copies: &[1],
            ..NONE
        },
        ..GOOD
    },
    Row {
        failing: Calls {
            copies: &[2],
            ..NONE
        },
        ..GOOD
    },
    // the third failure undoes the move
    Row {
        failing: Calls {
            copies: &[1, 2, 3],
            ..NONE
        },
        list: &[0],
        ..GOOD
    },
    // unless the cluster fails to
    Row {
        failing: Calls {
            cluster: &[3],
            copies: &[1, 2, 3],
            ..NONE
        },
        drain: DrainEnd::AdminFault(1),
        list: &[0, 1],
        ..GOOD
    },
    // no request comes
    Row {
        failing: Calls {
            reads: &[0],
            ..NONE
        },
        console: LinkEnd::ReadFault,
        list: &[0],
        told: &[],
        ..GOOD
    },
    // none comes behind the first, which is carried out
    Row {
        failing: Calls {
            reads: &[1],
            ..NONE
        },
        console: LinkEnd::ReadFault,
        ..GOOD
    },
    Row {
        failing: Calls {
            reads: &[2],
            ..NONE
        },
        ..GOOD
    },
    // a request is carried out whose reply isn't written, and none behind it is asked
    Row {
        failing: Calls {
            writes: &[0],
            ..NONE
        },
        asks: MOVES,
        console: LinkEnd::WriteFault,
        told: &[],
        ..GOOD
    },
    Row {
        failing: Calls {
            writes: &[1],
            ..NONE
        },
        asks: MOVES,
        console: LinkEnd::WriteFault,
        ..GOOD
    },
    Row {
        failing: Calls {
            writes: &[2],
            ..NONE
        },
        asks: MOVES,
        console: LinkEnd::WriteFault,
        told: &[ACCEPTED, BUSY],
        ..GOOD
    },
    Row {
        failing: Calls {
            writes: &[3],
            ..NONE
        },
        asks: MOVES,
        console: LinkEnd::WriteFault,
        told: &[ACCEPTED, BUSY, PUMPED],
        ..GOOD
    },
    Row {
        failing: Calls {
            writes: &[4],
            ..NONE
        },
        asks: MOVES,
        told: &MOVES_ANSWERED,
        ..GOOD
    },
];

fn run_row<R: Threads + Wait + Abort + Sync>(rt: &R, alloc: Global, row: &Row) -> TestOver {
    let setting = Setting {
        text: TWO,
        failing: row.failing.cluster,
        movers: row.workers,
        planners: row.workers,
        links: None,
    };
    let outside = Outside {
        copiers: copiers_of(rt, alloc, row.workers),
        copier: copier_of(rt, alloc, row.failing.copies),
        console: link_of(rt, alloc, row.asks, row.failing.reads, row.failing.writes),
        listener: silent_listener(rt, alloc),
    };
    run(rt, alloc, setting, outside)
}

// The one partition has this list in the end.
fn expect_list<R: Abort>(rt: &R, lists: &[Vec<u32>], wanted: &[u32]) {
    assert_eq!(rt; lists.len(), 1);
    for list in lists {
        assert_eq!(rt; list.as_slice(), wanted);
    }
}

fn expect_row<R: Abort>(rt: &R, alloc: Global, row: &Row, over: &TestOver) {
    assert_eq!(rt; over.end, FrontEnd::Console(row.console));
    assert_eq!(rt; over.drain, row.drain);
    expect_texts(rt, alloc, told(&over.front.console), row.told);
    expect_list(rt, &over.book.lists, row.list);
    let whole = matches!(row.list, [0] | [1]);
    assert!(rt; whole || over.drain != DrainEnd::Drained);
}

#[test]
fn a_service_ends_as_its_outside_fails(rt: HostRuntime) {
    let alloc = rt.alloc();
    for row in &ROWS {
        let over = run_row(&rt, alloc, row);
        expect_row(&rt, alloc, row, &over);
    }
}

// What ends a head.
const HEAD_END: &[u8] = b"\r\n\r\n";

// How many heads end in the bytes.
fn heads(bytes: &[u8]) -> usize {
    bytes.windows(4).filter(|four| **four == *HEAD_END).count()
}

// The read behind so many bytes fails, each of which came by itself. The requests that had come
// whole are answered, and the move is made if it is one of them.
fn expect_cut_behind<R: Threads + Wait + Abort + Sync>(rt: &R, alloc: Global, bytes: usize) {
    let setting = Setting {
        text: TWO,
        failing: &[],
        movers: 0,
        planners: 0,
        links: None,
    };
    let outside = Outside {
        copiers: copiers_of(rt, alloc, 0),
        copier: copier_of(rt, alloc, &[]),
        console: slow_link_of(rt, alloc, MOVES, bytes as u64),
        listener: silent_listener(rt, alloc),
    };
    let over = run(rt, alloc, setting, outside);
    assert_eq!(rt; over.end, FrontEnd::Console(LinkEnd::ReadFault));
    assert_eq!(rt; over.drain, DrainEnd::Drained);
    let asked = MOVES.as_bytes();
    assert!(rt; bytes <= asked.len());
    let whole = heads(&asked[..bytes]);
    assert!(rt; whole <= MOVES_ANSWERED.len());
    let replies = &MOVES_ANSWERED[..whole];
    expect_texts(rt, alloc, over.front.console.sink().bytes(), replies);
    let list = if whole == 0 { [0] } else { [1] };
    expect_list(rt, &over.book.lists, &list);
}

#[test]
fn requests_that_came_whole_are_carried_out_where_a_read_fails(rt: HostRuntime) {
    let asked = MOVES.as_bytes();
    for bytes in 0..asked.len() + 1 {
        expect_cut_behind(&rt, rt.alloc(), bytes);
    }
}
