// Cluster files, requests, and the replies to them.
use std::alloc::Global;
use std::process::Abort;

/// Two brokers, and a partition on the first.
pub const TWO: &str =
    r#"{"version":1,"brokers":[{"id":0},{"id":1}],"partitions":[{"topic":"t","partition":0,"replicas":[0]}],"config":{"min.valid.partition.ratio":"0"}}"#;

/// Four brokers, and a partition on each of the first two.
pub const FOUR: &str =
    r#"{"version":1,"brokers":[{"id":0},{"id":1},{"id":2},{"id":3}],"partitions":[{"topic":"t","partition":0,"replicas":[0]},{"topic":"t","partition":1,"replicas":[1]}],"config":{"min.valid.partition.ratio":"0"}}"#;

/// That broker 0 is removed.
pub const REMOVAL: &str =
    "POST /kafkacruisecontrol/remove_broker?brokerid=0&dryrun=false HTTP/1.1\r\n\r\n";

/// That brokers 0 and 1 are removed.
pub const REMOVAL_OF_BOTH: &str =
    "POST /kafkacruisecontrol/remove_broker?brokerid=0,1&dryrun=false HTTP/1.1\r\n\r\n";

/// The reply to the first removal.
pub const ACCEPTED: &str =
    "HTTP/1.1 202 Accepted\r\nContent-Type: application/json\r\nContent-Length: 83\r\nUser-Task-ID: 00000000-0000-8000-8000-000000000001\r\n\r\n{\"status\":\"Active\",\"userTaskId\":\"00000000-0000-8000-8000-000000000001\",\"version\":1}";

/// The first request has its user task, which its key finds again, and which no other request has.
pub const KEYS: &str =
    "POST /kafkacruisecontrol/remove_broker?brokerid=0&dryrun=false HTTP/1.1\r\n\r\nPOST /kafkacruisecontrol/remove_broker?brokerid=0&dryrun=false HTTP/1.1\r\nUser-Task-ID: 00000000-0000-8000-8000-000000000001\r\n\r\nPOST /kafkacruisecontrol/remove_broker?brokerid=1&dryrun=false HTTP/1.1\r\nUser-Task-ID: 00000000-0000-8000-8000-000000000001\r\n\r\n";

/// The replies to these.
pub const KEYS_ANSWERED: &str =
    "HTTP/1.1 202 Accepted\r\nContent-Type: application/json\r\nContent-Length: 83\r\nUser-Task-ID: 00000000-0000-8000-8000-000000000001\r\n\r\n{\"status\":\"Active\",\"userTaskId\":\"00000000-0000-8000-8000-000000000001\",\"version\":1}HTTP/1.1 202 Accepted\r\nContent-Type: application/json\r\nContent-Length: 83\r\nUser-Task-ID: 00000000-0000-8000-8000-000000000001\r\n\r\n{\"status\":\"Active\",\"userTaskId\":\"00000000-0000-8000-8000-000000000001\",\"version\":1}HTTP/1.1 400 Bad Request\r\nContent-Type: application/json\r\nContent-Length: 82\r\n\r\n{\"errorMessage\":\"other request: 00000000-0000-8000-8000-000000000001\",\"version\":1}";

/// That broker 0 is removed, an execution that isn't begun beside that one, rounds that end it, and
/// the lists that it leaves.
pub const MOVES: &str =
    "POST /kafkacruisecontrol/remove_broker?brokerid=0&dryrun=false HTTP/1.1\r\n\r\nPOST /kafkacruisecontrol/rebalance?dryrun=false HTTP/1.1\r\n\r\nPOST /cluster/pump?steps=10 HTTP/1.1\r\n\r\nGET /kafkacruisecontrol/kafka_cluster_state HTTP/1.1\r\n\r\n";

/// The reply to what isn't begun beside the removal.
pub const BUSY: &str =
    "HTTP/1.1 409 Conflict\r\nContent-Type: application/json\r\nContent-Length: 89\r\n\r\n{\"errorMessage\":\"execution unfinished: 00000000-0000-8000-8000-000000000001\",\"version\":1}";

/// The reply to the rounds.
pub const PUMPED: &str =
    "HTTP/1.1 200 OK\r\nContent-Type: application/json\r\nContent-Length: 34\r\n\r\n{\"done\":3,\"idle\":true,\"version\":1}";

/// The reply with the lists.
pub const LISTED: &str =
    "HTTP/1.1 200 OK\r\nContent-Type: application/json\r\nContent-Length: 114\r\n\r\n{\"deadBrokers\":[],\"partitions\":[{\"adding\":[],\"partition\":0,\"removing\":[],\"replicas\":[1],\"topic\":\"t\"}],\"version\":1}";

/// How far the executor is.
pub const STATE: &str = "GET /kafkacruisecontrol/state HTTP/1.1\r\n\r\n";

/// The reply where nothing was asked of two brokers.
pub const AT_REST: &str =
    "HTTP/1.1 200 OK\r\nContent-Type: application/json\r\nContent-Length: 171\r\n\r\n{\"ExecutorState\":{\"aborted\":0,\"aborting\":0,\"completed\":0,\"dead\":0,\"inProgress\":0,\"pending\":0,\"state\":\"NO_TASK_IN_PROGRESS\"},\"MonitorState\":{\"all\":1,\"valid\":0},\"version\":1}";

/// The reply to the removal of brokers 0 and 1, and to the question how far it is while one of its
/// two partitions is being copied.
pub const ACCEPTED_AND_MOVING: &str =
    "HTTP/1.1 202 Accepted\r\nContent-Type: application/json\r\nContent-Length: 83\r\nUser-Task-ID: 00000000-0000-8000-8000-000000000001\r\n\r\n{\"status\":\"Active\",\"userTaskId\":\"00000000-0000-8000-8000-000000000001\",\"version\":1}HTTP/1.1 200 OK\r\nContent-Type: application/json\r\nContent-Length: 198\r\n\r\n{\"ExecutorState\":{\"aborted\":0,\"aborting\":0,\"completed\":0,\"dead\":0,\"inProgress\":1,\"pending\":1,\"state\":\"INTER_BROKER_REPLICA_MOVEMENT_TASK_IN_PROGRESS\"},\"MonitorState\":{\"all\":2,\"valid\":0},\"version\":1}";

/// These bytes were written, and no others.
pub fn expect_text<R: Abort>(rt: &R, bytes: &[u8], wanted: &str) {
    let text = str::from_utf8(bytes).expect(rt, "a text");
    assert_eq!(rt; text, wanted);
}

/// These replies were written one behind the other, and nothing else.
pub fn expect_texts<R: Abort>(rt: &R, alloc: Global, bytes: &[u8], replies: &[&str]) {
    let mut text = String::new(alloc);
    for reply in replies {
        text.push_str(reply).expect(rt, "memory");
    }
    expect_text(rt, bytes, text.as_str());
}
