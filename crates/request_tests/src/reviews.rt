// What requests mean where those that start something are reviewed first, as they come from a
// stream.
use crate::calls::{KEYED, first_line, next_request, words};
use plan_terms::ListOf;
use rest_parse::{HttpFault, ReviewCall, reviewed_of};
use std::alloc::Global;
use std::process::Abort;

fn text(bytes: &ListOf<u8>) -> &str {
    str::from_utf8(bytes.as_slice()).unwrap_or("no text")
}

// What it is, or a fault, in words.
fn told(rt: &impl Abort, alloc: Global, meant: Result<ReviewCall, HttpFault>) -> String {
    let said = match meant {
        Ok(ReviewCall::File { path, target }) => {
            format!(in alloc; "file {} {}", text(&path), text(&target))
        }
        Ok(ReviewCall::Take { id, path }) => format!(in alloc; "take {id} {}", text(&path)),
        Ok(ReviewCall::Review { approve, discard }) => {
            format!(in alloc; "review {:?} {:?}", approve.as_slice(), discard.as_slice())
        }
        Ok(ReviewCall::List) => format!(in alloc; "list"),
        Ok(ReviewCall::Plain(call)) => return words(rt, alloc, Ok(call)),
        Err(fault) => return words(rt, alloc, Err(fault)),
    };
    said.expect(rt, "memory")
}

// What stands behind `/kafkacruisecontrol/` in a first line, and what the request means.
const REQUESTS: [(&str, &str); 53] = [
    (
        "POST rebalance",
        "file /kafkacruisecontrol/rebalance /kafkacruisecontrol/rebalance",
    ),
    (
        "POST add_broker?brokerid=1",
        "file /kafkacruisecontrol/add_broker /kafkacruisecontrol/add_broker?brokerid=1",
    ),
    (
        "POST remove_broker?brokerid=2&dryrun=fal%73e",
        "file /kafkacruisecontrol/remove_broker /kafkacruisecontrol/remove_broker?brokerid=2&dryrun=fal%73e",
    ),
    (
        "POST demote_broker?brokerid=2",
        "file /kafkacruisecontrol/demote_broker /kafkacruisecontrol/demote_broker?brokerid=2",
    ),
    (
        "POST stop_proposal_execution?json=1",
        "file /kafkacruisecontrol/stop_proposal_execution /kafkacruisecontrol/stop_proposal_execution?json=1",
    ),
    (
        "POST admin?concurrent_leader_movements=1",
        "file /kafkacruisecontrol/admin /kafkacruisecontrol/admin?concurrent_leader_movements=1",
    ),
    (
        "POST topic_configuration?topic=t&replication_factor=2",
        "file /kafkacruisecontrol/topic_configuration /kafkacruisecontrol/topic_configuration?topic=t&replication_factor=2",
    ),
    ("POST rebalance?dryrun=maybe", "bad dryrun"),
    ("POST remove_broker", "bad brokerid"),
    (
        "POST admin",
        "bad concurrent_partition_movements_per_broker",
    ),
    ("POST topic_configuration?topic=t", "bad replication_factor"),
    ("GET rebalance", "WrongMethod"),
    ("GET rebalance?review_id=1", "WrongMethod"),
    ("GET proposals", "Proposals dry"),
    ("GET proposals?review_id=1", "bad review_id"),
    ("GET state", "State"),
    ("GET state?review_id=1", "bad review_id"),
    ("POST state?review_id=1", "WrongMethod"),
    ("POST nothing?review_id=1", "NotFound"),
    (
        "POST remove_broker?review_id=1",
        "take 1 /kafkacruisecontrol/remove_broker",
    ),
    ("POST admin?review_id=0", "take 0 /kafkacruisecontrol/admin"),
    (
        "POST topic_configuration?json=true&review%5Fid=9007199254740991&verbose=",
        "take 9007199254740991 /kafkacruisecontrol/topic_configuration",
    ),
    ("POST rebalance?review_id=9007199254740992", "bad review_id"),
    ("POST rebalance?review_id=01", "bad review_id"),
    ("POST rebalance?review_id=1,2", "bad review_id"),
    ("POST rebalance?review_id", "bad review_id"),
    ("POST rebalance?review_id=1&review_id=1", "bad review_id"),
    ("POST rebalance?review_id=1&dryrun=false", "bad dryrun"),
    ("POST rebalance?dryrun=false&review_id=x", "bad dryrun"),
    ("POST rebalance?review_id=x&dryrun=false", "bad review_id"),
    ("POST rebalance?review_id=1&approve=1", "bad approve"),
    ("POST review?approve=1", "review [1] []"),
    ("POST review?discard=2", "review [] [2]"),
    (
        "POST review?discard=3,2&reason=x&approve=9007199254740991,0",
        "review [9007199254740991, 0] [3, 2]",
    ),
    ("POST review", "bad approve"),
    ("POST review?json=1", "bad approve"),
    ("POST review?approve=", "bad approve"),
    ("POST review?approve=1&discard=", "bad discard"),
    ("POST review?approve=1,", "bad approve"),
    ("POST review?approve=9007199254740992", "bad approve"),
    ("POST review?approve=1&approve=2", "bad approve"),
    ("POST review?approve=1,2,1", "bad approve"),
    ("POST review?discard=1,2,2", "bad discard"),
    ("POST review?discard=2,1&approve=3,1", "bad discard"),
    ("POST review?discard=2,2&approve=1,1", "bad approve"),
    ("POST review?discard=x&approve=1,1", "bad discard"),
    ("POST review?approve=1,1&dryrun=true", "bad dryrun"),
    ("POST review?review_id=1", "bad review_id"),
    ("GET review?approve=1", "WrongMethod"),
    ("GET review_board?json=true", "list"),
    ("GET review_board?approve=1", "bad approve"),
    ("POST review_board", "WrongMethod"),
    ("GET review_board/", "NotFound"),
];

// The same behind `/cluster/`.
const CLUSTER: [(&str, &str); 4] = [
    ("POST pump?steps=2", "pump 2"),
    ("POST pump?review_id=1", "bad review_id"),
    ("POST detect?now=0", "detect 0 900000 1800000"),
    ("GET review_board", "NotFound"),
];

// The same behind `/kafkacruisecontrol/` with a key: what one means that is a UUID, and one that is
// none.
const KEYED_REQUESTS: [(&str, &str, &str); 7] = [
    (
        "POST rebalance",
        "Rebalance dry key 00000000-0000-8000-8000-00000000000a",
        "bad User-Task-ID",
    ),
    (
        "POST topic_configuration?topic=t&replication_factor=2&dryrun=false",
        "TopicConfiguration topic t factor 2 key 00000000-0000-8000-8000-00000000000a",
        "bad User-Task-ID",
    ),
    ("POST rebalance?dryrun=maybe", "bad dryrun", "bad dryrun"),
    (
        "POST rebalance?review_id=1",
        "take 1 /kafkacruisecontrol/rebalance",
        "take 1 /kafkacruisecontrol/rebalance",
    ),
    (
        "POST stop_proposal_execution",
        "file /kafkacruisecontrol/stop_proposal_execution /kafkacruisecontrol/stop_proposal_execution",
        "file /kafkacruisecontrol/stop_proposal_execution /kafkacruisecontrol/stop_proposal_execution",
    ),
    (
        "POST admin?concurrent_leader_movements=1",
        "file /kafkacruisecontrol/admin /kafkacruisecontrol/admin?concurrent_leader_movements=1",
        "file /kafkacruisecontrol/admin /kafkacruisecontrol/admin?concurrent_leader_movements=1",
    ),
    ("GET review_board", "list", "list"),
];

const UUID: &str = "User-Task-ID: 00000000-0000-8000-8000-00000000000a\r\n\r\n";

// What a request means that begins and ends so.
fn meant(rt: &impl Abort, alloc: Global, begin: &str, end: &str) -> String {
    let raw = next_request(rt, alloc, begin, end);
    told(rt, alloc, reviewed_of(alloc, &raw))
}

#[test]
fn requests_that_start_something_are_kept_for_their_review(rt: HostRuntime) {
    let alloc = rt.alloc();
    for (words, want) in &REQUESTS {
        let line = first_line(&rt, alloc, "/kafkacruisecontrol/", words);
        let text = meant(&rt, alloc, line.as_str(), "\r\n");
        assert_eq!(rt; text.as_str(), *want, "{words}");
    }
    for (words, want) in &CLUSTER {
        let line = first_line(&rt, alloc, "/cluster/", words);
        let text = meant(&rt, alloc, line.as_str(), "\r\n");
        assert_eq!(rt; text.as_str(), *want, "{words}");
    }
}

#[test]
fn a_key_of_a_plan_alone_keeps_a_request_off_the_board(rt: HostRuntime) {
    let alloc = rt.alloc();
    for (words, want, faulty) in &KEYED_REQUESTS {
        let line = first_line(&rt, alloc, "/kafkacruisecontrol/", words);
        let text = meant(&rt, alloc, line.as_str(), UUID);
        assert_eq!(rt; text.as_str(), *want, "{words}");
        let text = meant(&rt, alloc, line.as_str(), KEYED);
        assert_eq!(rt; text.as_str(), *faulty, "{words}");
    }
}
