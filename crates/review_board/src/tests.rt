// The answers to events, in order.
use crate::{Board, BoardEvent, BoardReply, Bytes, Ids, NoBoard, NoteFault, Reviewer, Rows};
use plan_terms::ListOf;
use std::alloc::{AllocError, Global};
use std::process::Abort;
use turn_book::Journaled;

fn bytes(rt: &impl Abort, alloc: Global, text: &str) -> Bytes {
    ListOf::new(text.as_bytes().to_vec(alloc).expect(rt, "memory"))
}

fn ids(rt: &impl Abort, alloc: Global, ids: &[u64]) -> Ids {
    ListOf::new(ids.to_vec(alloc).expect(rt, "memory"))
}

fn shown(alloc: Global, rows: &Rows) -> Result<String, AllocError> {
    let mut text = String::new(alloc);
    for row in rows.as_slice() {
        let path = String::from_utf8_lossy(alloc, row.path.as_slice())?;
        let one = format!(in alloc; " {} {path} {:?}", row.id, row.state)?;
        text.push_str(&one)?;
    }
    Ok(text)
}

fn told(alloc: Global, reply: &BoardReply) -> Result<String, AllocError> {
    match reply {
        BoardReply::Filed(id) => format!(in alloc; "filed {id}"),
        BoardReply::NoSuchReview(id) => format!(in alloc; "no {id}"),
        BoardReply::NotPending(id, state) => format!(in alloc; "{id} is {state:?}"),
        BoardReply::Reviewed(rows) => {
            let rows = shown(alloc, rows)?;
            format!(in alloc; "reviewed{rows}")
        }
        BoardReply::OtherEndpoint(id) => format!(in alloc; "other {id}"),
        BoardReply::NotApproved(id, state) => format!(in alloc; "{id} is only {state:?}"),
        BoardReply::Given(target) => {
            let target = String::from_utf8_lossy(alloc, target.as_slice())?;
            format!(in alloc; "given {target}")
        }
        BoardReply::Listed(rows) => {
            let rows = shown(alloc, rows)?;
            format!(in alloc; "listed{rows}")
        }
    }
}

fn said<E: Drop>(rt: &impl Abort, alloc: Global, reply: Result<BoardReply, E>) -> String {
    match reply {
        Ok(reply) => told(alloc, &reply).expect(rt, "memory"),
        Err(_) => panic!(rt; "memory"),
    }
}

#[test]
fn answers_events_in_order(rt: HostRuntime) {
    let alloc = rt.alloc();
    let file = |path: &str, target: &str| {
        BoardEvent::File(bytes(&rt, alloc, path), bytes(&rt, alloc, target))
    };
    let review = |approve: &[u64], discard: &[u64]| {
        BoardEvent::Review(ids(&rt, alloc, approve), ids(&rt, alloc, discard))
    };
    let take = |id: u64, path: &str| BoardEvent::Take(id, bytes(&rt, alloc, path));
    let rows = vec![in alloc;
        (BoardEvent::List, "listed"),
        (take(1, "/a"), "no 1"),
        (file("/a", "/a?x=1"), "filed 1"),
        (file("/b", "/b"), "filed 2"),
        (file("/a", "/a"), "filed 3"),
        (take(1, "/a"), "1 is only PendingReview"),
        (review(&[1, 4], &[]), "no 4"),
        (review(&[0], &[4]), "no 0"),
        (
            BoardEvent::List,
            "listed 1 /a PendingReview 2 /b PendingReview 3 /a PendingReview"
        ),
        (
            review(&[3, 1, 3], &[2, 1]),
            "reviewed 1 /a Approved 2 /b Discarded 3 /a Approved"
        ),
        (review(&[], &[3]), "3 is Approved"),
        (review(&[2], &[4]), "2 is Discarded"),
        (review(&[], &[]), "reviewed"),
        (take(1, "/b"), "other 1"),
        (take(1, "/a"), "given /a?x=1"),
        (take(1, "/a"), "1 is only Submitted"),
        (take(1, "/b"), "other 1"),
        (take(2, "/b"), "2 is only Discarded"),
        (take(0, "/b"), "no 0"),
        (
            BoardEvent::List,
            "listed 1 /a Submitted 2 /b Discarded 3 /a Approved"
        ),
    ];
    let mut board = Board::new(alloc);
    for (event, want) in rows.expect(&rt, "memory") {
        let reply = Journaled::step(&mut board, event);
        assert_eq!(rt; said(&rt, alloc, reply).as_str(), want);
    }
    let reply = board.note(take(3, "/a"));
    assert_eq!(rt; said(&rt, alloc, reply).as_str(), "given /a");
    assert_eq!(rt; board.entries(), 21);
    assert!(rt; board.reviews() && !NoBoard.reviews());
    assert!(rt; matches!(NoBoard.note(BoardEvent::List), Err(NoteFault::NoBoard)));
}
