// Two links on one book: what they ask stands in one history.
use crate::links::{copier_of, copiers_of, link_of, listener_of, silent_link, told};
use crate::services::{Outside, Setting, TestOver, run};
use crate::texts::{ACCEPTED, TWO};
use std::alloc::Global;
use std::process::Abort;
use std::sync::Wait;
use std::thread::Threads;

// What each reply begins with.
const HEAD: &str = "HTTP/1.1 ";

fn text<'a, R: Abort>(rt: &R, bytes: &'a [u8]) -> &'a str {
    str::from_utf8(bytes).expect(rt, "a text")
}

// What two links ask.
fn asked_by_both<R: Threads + Wait + Abort + Sync>(
    rt: &R,
    alloc: Global,
    one: &str,
    other: &str,
) -> TestOver {
    let setting = Setting {
        text: TWO,
        failing: &[],
        movers: 0,
        planners: 0,
        links: Some(2),
    };
    let one = link_of(rt, alloc, one, &[], &[]);
    let other = link_of(rt, alloc, other, &[], &[]);
    let links = vec![in alloc; one, other].expect(rt, "memory");
    let outside = Outside {
        copiers: copiers_of(rt, alloc, 2),
        copier: copier_of(rt, alloc, &[]),
        console: silent_link(rt, alloc),
        listener: listener_of(rt, alloc, links, &[]),
    };
    run(rt, alloc, setting, outside)
}

// A request for a plan, and how far its user task is.
const SUBMIT: &str =
    "POST /kafkacruisecontrol/remove_broker?brokerid=0 HTTP/1.1\r\n\r\nPOST /kafkacruisecontrol/remove_broker?brokerid=0 HTTP/1.1\r\nUser-Task-ID: 00000000-0000-8000-8000-000000000001\r\n\r\n";

// How far that user task is, asked twice.
const KEYED: &str =
    "POST /kafkacruisecontrol/remove_broker?brokerid=0 HTTP/1.1\r\nUser-Task-ID: 00000000-0000-8000-8000-000000000001\r\n\r\nPOST /kafkacruisecontrol/remove_broker?brokerid=0 HTTP/1.1\r\nUser-Task-ID: 00000000-0000-8000-8000-000000000001\r\n\r\n";

const UNKNOWN: &str =
    "404 Not Found\r\nContent-Type: application/json\r\nContent-Length: 81\r\n\r\n{\"errorMessage\":\"no such task: 00000000-0000-8000-8000-000000000001\",\"version\":1}";

// Two replies: the user task is unknown, unless it is known before, and once it is known it stays
// so.
fn expect_known<R: Abort>(rt: &R, replies: &str, before: bool) {
    let accepted = ACCEPTED.split(HEAD).nth(1).expect(rt, "a reply");
    let mut known = before;
    assert_eq!(rt; replies.split(HEAD).count(), 3);
    for reply in replies.split(HEAD).skip(1) {
        known = known || reply == accepted;
        assert_eq!(rt; reply, if known { accepted } else { UNKNOWN });
    }
}

// Two links ask for one user task by its key at once: it is one.
#[test]
fn a_key_names_one_user_task_on_each_link(rt: HostRuntime) {
    let alloc = rt.alloc();
    for _ in 0..20 {
        let over = asked_by_both(&rt, alloc, SUBMIT, KEYED);
        let [one, other] = over.front.service.served.as_slice() else {
            panic!(rt; "two links");
        };
        let (one, other) = (told(&one.link), told(&other.link));
        expect_known(&rt, text(&rt, one), true);
        expect_known(&rt, text(&rt, other), false);
    }
}
