// A session that asks for one move, with nobody beside it.
use cc_base::Joined;
use cc_program::{Ended, Outside, run_live};
use cluster_gate::{FailingAdmin, FailingCopier, MemoryCluster, MemoryCopier};
use std::alloc::Global;
use std::process::Abort;
use std::sync::Wait;
use std::thread::Threads;
use test_fakes::{MemoryFile, MemoryFiles, MemoryListener, MemorySink, MemorySource};

type Cluster = FailingAdmin<MemoryCluster>;

type Copying = FailingCopier<MemoryCopier>;

type Console = Joined<MemorySource, MemorySink>;

type Over = Ended<Cluster, Copying, Console, MemoryListener<Console>>;

const FILE: &str = "two.json";

// Two brokers, and a partition on the first.
const TWO: &str =
    r#"{"version":1,"brokers":[{"id":0},{"id":1}],"partitions":[{"topic":"t","partition":0,"replicas":[0]}],"config":{"min.valid.partition.ratio":"0"}}"#;

const WORDS: [&str; 6] = ["session", FILE, "--movers", "0", "--planners", "0"];

// That broker 0 is removed.
const REMOVAL: &str =
    "POST /kafkacruisecontrol/remove_broker?brokerid=0&dryrun=false HTTP/1.1\r\n\r\n";

// The same, and rounds of a mover and of a planner.
const REMOVAL_AND_PUMP: &str =
    "POST /kafkacruisecontrol/remove_broker?brokerid=0&dryrun=false HTTP/1.1\r\n\r\nPOST /cluster/pump?steps=10 HTTP/1.1\r\n\r\n";

// The same, and an input that ends inside a request.
const REMOVAL_AND_CUT: &str =
    "POST /kafkacruisecontrol/remove_broker?brokerid=0&dryrun=false HTTP/1.1\r\n\r\nGET /kafka";

const ACCEPTED: &str =
    "HTTP/1.1 202 Accepted\r\nContent-Type: application/json\r\nContent-Length: 83\r\nUser-Task-ID: 00000000-0000-8000-8000-000000000001\r\n\r\n{\"status\":\"Active\",\"userTaskId\":\"00000000-0000-8000-8000-000000000001\",\"version\":1}";

const ADMIN_FAULT: &str =
    "HTTP/1.1 500 Internal Server Error\r\nContent-Type: application/json\r\nContent-Length: 45\r\n\r\n{\"errorMessage\":\"admin fault: 1\",\"version\":1}";

const FIVE_ROUNDS: &str =
    "HTTP/1.1 200 OK\r\nContent-Type: application/json\r\nContent-Length: 34\r\n\r\n{\"done\":5,\"idle\":true,\"version\":1}";

// The calls of the cluster that fail, and the copies, each counted from 1 on; what is asked; the
// status and its line; the replies; and the list in the end, where there is a book.
#[derive(Clone, Copy)]
struct Row {
    cluster: &'static [u64],
    copies: &'static [u64],
    asked: &'static str,
    status: u8,
    line: &'static str,
    replies: [&'static str; 2],
    list: Option<&'static [u32]>,
}

const GOOD: Row = Row {
    cluster: &[],
    copies: &[],
    asked: REMOVAL,
    status: 0,
    line: "",
    replies: [ACCEPTED, ""],
    list: Some(&[1]),
};

const ROWS: [Row; 10] = [
    GOOD,
    // the lists can't be installed
    Row {
        cluster: &[1],
        status: 8,
        line: "not drained\n",
        replies: ["", ""],
        list: None,
        ..GOOD
    },
    // the move can't begin, or can't end
    Row {
        cluster: &[2],
        status: 8,
        line: "not drained\n",
        list: Some(&[0]),
        ..GOOD
    },
    Row {
        cluster: &[3],
        status: 8,
        line: "not drained\n",
        list: Some(&[0, 1]),
        ..GOOD
    },
    // there is no such call
    Row {
        cluster: &[4],
        ..GOOD
    },
    // a pump is told of the fault, and the drain makes the move
    Row {
        cluster: &[2],
        asked: REMOVAL_AND_PUMP,
        replies: [ACCEPTED, ADMIN_FAULT],
        ..GOOD
    },
    // copies are made again twice
    Row {
        copies: &[1, 2],
        ..GOOD
    },
    Row {
        copies: &[1, 2, 3],
        asked: REMOVAL_AND_PUMP,
        replies: [ACCEPTED, FIVE_ROUNDS],
        list: Some(&[0]),
        ..GOOD
    },
    // another end has its line, and that the drain failed has one behind it
    Row {
        asked: REMOVAL_AND_CUT,
        status: 10,
        line: "input cut\n",
        ..GOOD
    },
    Row {
        cluster: &[2],
        asked: REMOVAL_AND_CUT,
        status: 10,
        line: "input cut\nnot drained\n",
        list: Some(&[0]),
        ..GOOD
    },
];

fn text_of<R: Abort>(rt: &R, alloc: Global, text: &str) -> String {
    String::from_str(alloc, text).expect(rt, "memory")
}

fn bytes_of<R: Abort>(rt: &R, alloc: Global, text: &str) -> Vec<u8> {
    text.as_bytes().to_vec(alloc).expect(rt, "memory")
}

fn files_of<R: Abort>(rt: &R, alloc: Global) -> MemoryFiles {
    let file = MemoryFile {
        name: text_of(rt, alloc, FILE),
        bytes: bytes_of(rt, alloc, TWO),
    };
    MemoryFiles::new(alloc, vec![in alloc; file].expect(rt, "memory"))
}

fn words_of<R: Abort>(rt: &R, alloc: Global) -> Vec<String> {
    let mut words = Vec::new(alloc);
    for word in WORDS {
        words.push(text_of(rt, alloc, word)).expect(rt, "memory");
    }
    words
}

fn outside_of<R: Abort>(
    rt: &R,
    alloc: Global,
    row: &Row,
) -> Outside<Copying, Console, MemoryListener<Console>> {
    let failing = row.copies.to_vec(alloc).expect(rt, "memory");
    let copier = FailingCopier::new(MemoryCopier::new(alloc), failing);
    let source = MemorySource::new(bytes_of(rt, alloc, row.asked));
    Outside {
        copiers: vec![in alloc; copier].expect(rt, "memory"),
        console: Joined::new(source, MemorySink::new(alloc)),
        listener: MemoryListener::new(Vec::new(alloc)),
    }
}

fn expect_text<R: Abort>(rt: &R, bytes: &[u8], wanted: &str) {
    let text = str::from_utf8(bytes).expect(rt, "a text");
    assert_eq!(rt; text, wanted);
}

// The list is the row's, and no book is left where there is none.
fn expect_list<R: Abort>(rt: &R, row: &Row, over: &Over) {
    let Some(book) = &over.left.book else {
        assert!(rt; row.list.is_none() && over.left.admin.is_some());
        return;
    };
    assert_eq!(rt; book.parts(), 1);
    let list = book.admin().inner().list(0);
    assert_eq!(rt; Some(list), row.list);
}

fn run_row<R: Threads + Wait + Abort + Sync>(rt: &R, alloc: Global, row: &Row) {
    let words = words_of(rt, alloc);
    let mut files = files_of(rt, alloc);
    let mut err = MemorySink::new(alloc);
    let failing = row.cluster.to_vec(alloc).expect(rt, "memory");
    let admin = FailingAdmin::new(MemoryCluster::new(alloc), failing);
    let outside = outside_of(rt, alloc, row);
    let over = run_live(rt, alloc, &words, &mut files, &mut err, admin, outside);
    assert_eq!(rt; over.status, row.status);
    expect_text(rt, err.bytes(), row.line);
    let told = over.left.outside.console.sink().bytes();
    let [first, second] = row.replies;
    assert!(rt; first.len() <= told.len());
    expect_text(rt, &told[..first.len()], first);
    expect_text(rt, &told[first.len()..], second);
    expect_list(rt, row, &over);
}

#[test]
fn a_session_ends_as_its_cluster_and_its_copies_fail(rt: HostRuntime) {
    let alloc = rt.alloc();
    for row in &ROWS {
        run_row(&rt, alloc, row);
    }
}
