// What requests mean, as they come from a stream.
use crate::texts::push;
use rest_parse::{Call, HttpFault, request_of};
use rest_stream::{Next, RawRequest, Reader};
use std::alloc::Global;
use std::process::Abort;
use test_fakes::MemorySource;
use user_tasks::{Ask, id_text};
use uuid::Uuid;

// A request for a plan, in words.
fn plan(rt: &impl Abort, alloc: Global, ask: &Ask, key: Option<Uuid>) -> String {
    let mut text = format!(in alloc; "{:?}", ask.op).expect(rt, "memory");
    for broker in ask.brokers.as_slice() {
        let id = format!(in alloc; " {broker}").expect(rt, "memory");
        push(rt, &mut text, id.as_str());
    }
    for goal in ask.goals.as_slice() {
        push(rt, &mut text, " goal ");
        push(rt, &mut text, goal.as_str());
    }
    for topic in ask.excluded.as_slice() {
        push(rt, &mut text, " without ");
        push(rt, &mut text, topic.as_str());
    }
    for topic in ask.topics.as_slice() {
        push(rt, &mut text, " topic ");
        push(rt, &mut text, topic.as_str());
    }
    if ask.factor > 0 {
        let factor = format!(in alloc; " factor {}", ask.factor).expect(rt, "memory");
        push(rt, &mut text, factor.as_str());
    }
    push(rt, &mut text, if ask.skip { " skip" } else { "" });
    push(rt, &mut text, if ask.dryrun { " dry" } else { "" });
    if let Some(id) = key {
        let id = id_text(alloc, id).expect(rt, "memory");
        push(rt, &mut text, " key ");
        push(rt, &mut text, id.as_str());
    }
    text
}

// A call, or a fault, in words.
pub fn words(rt: &impl Abort, alloc: Global, meant: Result<Call, HttpFault>) -> String {
    let said = match meant {
        Ok(Call::Submit(ask, key)) => return plan(rt, alloc, &ask, key),
        Ok(Call::Stop(force)) => format!(in alloc; "stop {force}"),
        Ok(Call::Kill(broker)) => format!(in alloc; "kill {broker}"),
        Ok(Call::Sample(topic, number, time, loads)) => {
            let (name, lead) = (topic.as_str(), loads.loads().lead);
            format!(in alloc; "sample {name} {number} {time} {lead:?}")
        }
        Ok(Call::Show(query)) => format!(in alloc; "{query:?}"),
        Ok(Call::Pump(steps)) => format!(in alloc; "pump {steps}"),
        Ok(Call::Caps(broker, cluster, leader)) => {
            format!(in alloc; "caps {broker:?} {cluster:?} {leader:?}")
        }
        Ok(Call::Detect(now, alert, heal)) => format!(in alloc; "detect {now} {alert} {heal}"),
        Err(HttpFault::BadParameter(name)) => format!(in alloc; "bad {}", name.as_str()),
        Err(fault) => format!(in alloc; "{fault:?}"),
    };
    said.expect(rt, "memory")
}

// The request that begins and ends so.
pub fn next_request(rt: &impl Abort, alloc: Global, begin: &str, end: &str) -> RawRequest {
    let stream = format!(in alloc; "{begin}{end}").expect(rt, "memory");
    let mut source = MemorySource::new(stream.into_bytes());
    let mut reader = Reader::new(alloc).expect(rt, "memory");
    match reader.next(alloc, &mut source) {
        Next::Request(raw) => raw,
        _ => panic!(rt; "no request"),
    }
}

// What it means.
fn meant(rt: &impl Abort, alloc: Global, begin: &str, end: &str) -> String {
    let raw = next_request(rt, alloc, begin, end);
    words(rt, alloc, request_of(alloc, &raw))
}

// What stands behind `/kafkacruisecontrol/` in a first line, and what the request means.
const REQUESTS: [(&str, &str); 60] = [
    ("GET state", "State"),
    ("GET load?json=true&verbose=&reason=%", "Load"),
    ("GET kafka_cluster_state", "ClusterState"),
    ("GET user_tasks?", "UserTasks"),
    ("GET state?json=1&json=1", "bad json"),
    ("GET state?goals=a", "bad goals"),
    ("GET state?a?b=c", "bad a?b"),
    ("GET State", "NotFound"),
    ("GET state/", "NotFound"),
    ("GET st%61te", "NotFound"),
    ("PUT nothing", "NotFound"),
    ("PUT state", "WrongMethod"),
    ("get state", "WrongMethod"),
    ("POST review?approve=1", "NotFound"),
    ("GET review_board", "NotFound"),
    ("POST rebalance?review_id=1", "bad review_id"),
    ("POST state", "WrongMethod"),
    ("GET rebalance", "WrongMethod"),
    ("GET rebalance?dryrun=maybe", "WrongMethod"),
    ("GET proposals", "Proposals dry"),
    ("GET proposals?dryrun=true", "bad dryrun"),
    ("POST rebalance", "Rebalance dry"),
    ("POST rebalance?dryrun=fAlse", "Rebalance"),
    (
        "POST rebalance?dry%72un=false&&skip_hard_goal_check=TRUE",
        "Rebalance skip",
    ),
    ("POST rebalance?dryrun=maybe", "bad dryrun"),
    ("POST rebalance?dryrun=", "bad dryrun"),
    (
        "POST rebalance?goals=a%2Cb+%26,c",
        "Rebalance goal a goal b & goal c dry",
    ),
    (
        "POST rebalance?goals=&excluded_topics=,",
        "Rebalance without  without  dry",
    ),
    (
        "POST rebalance?excluded_topics=t%FF",
        "Rebalance without t\u{fffd} dry",
    ),
    ("POST rebalance?x=1&dryrun=maybe", "bad x"),
    ("POST rebalance?dryrun=maybe&x=1", "bad dryrun"),
    ("POST rebalance?brokerid=1", "bad brokerid"),
    (
        "POST add_broker?brokerid=1,1,4294967295",
        "AddBroker 1 1 4294967295 dry",
    ),
    ("POST add_broker?brokerid=0", "AddBroker 0 dry"),
    ("POST add_broker?brokerid=4294967296", "bad brokerid"),
    ("POST add_broker?brokerid=01", "bad brokerid"),
    ("POST add_broker?brokerid=1,", "bad brokerid"),
    ("POST add_broker?brokerid=", "bad brokerid"),
    ("POST remove_broker", "bad brokerid"),
    ("POST remove_broker?x", "bad x"),
    (
        "POST remove_broker?brokerid=2&goals=G&dryrun=false",
        "RemoveBroker 2 goal G",
    ),
    ("POST demote_broker?brokerid=2&goals=G", "bad goals"),
    (
        "POST demote_broker?allow_capacity_estimation=x&brokerid=2",
        "DemoteBroker 2 dry",
    ),
    ("POST stop_proposal_execution", "stop false"),
    ("POST stop_proposal_execution?force_stop=True", "stop true"),
    (
        "POST admin",
        "bad concurrent_partition_movements_per_broker",
    ),
    (
        "POST admin?json=true",
        "bad concurrent_partition_movements_per_broker",
    ),
    (
        "POST admin?concurrent_partition_movements_per_broker=1",
        "caps Some(1) None None",
    ),
    (
        "POST admin?concurrent_leader_movements=10000",
        "caps None None Some(10000)",
    ),
    (
        "POST admin?max_partition_movements_in_cluster=2&concurrent_leader_movements=3",
        "caps None Some(2) Some(3)",
    ),
    (
        "POST admin?max_partition_movements_in_cluster=0",
        "bad max_partition_movements_in_cluster",
    ),
    (
        "POST admin?concurrent_leader_movements=10001",
        "bad concurrent_leader_movements",
    ),
    (
        "POST admin?concurrent_leader_movements=1&dryrun=true",
        "bad dryrun",
    ),
    ("GET admin?concurrent_leader_movements=1", "WrongMethod"),
    (
        "POST topic_configuration?topic=a,b&replication_factor=8&dryrun=false",
        "TopicConfiguration topic a topic b factor 8",
    ),
    (
        "POST topic_configuration?replication_factor=1&topic=t,",
        "TopicConfiguration topic t topic  factor 1 dry",
    ),
    ("POST topic_configuration", "bad topic"),
    ("POST topic_configuration?topic=t", "bad replication_factor"),
    (
        "POST topic_configuration?replication_factor=9&topic=",
        "bad replication_factor",
    ),
    (
        "POST topic_configuration?topic=&replication_factor=9",
        "bad topic",
    ),
];

// The same behind `/cluster/`.
const CLUSTER: [(&str, &str); 14] = [
    ("POST pump", "pump 1"),
    ("POST pump?steps=100000", "pump 100000"),
    ("POST pump?steps=0", "bad steps"),
    ("POST pump?steps=100001", "bad steps"),
    ("POST kill", "bad broker"),
    ("POST kill?broker=7", "kill 7"),
    ("POST kill?broker=7,8", "bad broker"),
    ("POST state", "NotFound"),
    ("POST detect?now=0", "detect 0 900000 1800000"),
    (
        "POST detect?heal_ms=5&alert_ms=5&now=9007199254740991",
        "detect 9007199254740991 5 5",
    ),
    ("POST detect", "bad now"),
    ("POST detect?now=9007199254740992", "bad now"),
    ("POST detect?now=1&alert_ms=2000000", "bad heal_ms"),
    ("GET detect?now=1", "WrongMethod"),
];

pub fn first_line(rt: &impl Abort, alloc: Global, root: &str, words: &str) -> String {
    let Some((method, rest)) = words.split_once(' ') else {
        panic!(rt; "no method");
    };
    format!(in alloc; "{method} {root}{rest} HTTP/1.1\r\n").expect(rt, "memory")
}

pub const KEYED: &str = "User-Task-ID: 7\r\n\r\n";

// No key is looked at but a plan's, and that one last: where nothing else is wrong the key is.
#[test]
fn requests_mean_their_call_or_their_first_fault(rt: HostRuntime) {
    let alloc = rt.alloc();
    for (words, want) in &REQUESTS {
        let line = first_line(&rt, alloc, "/kafkacruisecontrol/", words);
        let text = meant(&rt, alloc, line.as_str(), "\r\n");
        assert_eq!(rt; text.as_str(), *want, "{words}");
        let keyed = meant(&rt, alloc, line.as_str(), KEYED);
        let is_plan = want.contains("Proposals")
            || want.contains("Rebalance")
            || want.contains("Broker ")
            || want.contains("Topic");
        assert_eq!(rt;
            keyed.as_str(),
            if is_plan { "bad User-Task-ID" } else { *want },
            "{words}"
        );
    }
    for (words, want) in &CLUSTER {
        let line = first_line(&rt, alloc, "/cluster/", words);
        let text = meant(&rt, alloc, line.as_str(), KEYED);
        assert_eq!(rt; text.as_str(), *want, "{words}");
    }
}

// Keys in each form that stands for a UUID.
const KEYS: [&str; 5] = [
    "00000000-0000-8000-8000-00000000000a\r\n\r\n",
    "00000000-0000-8000-8000-00000000000A\r\n\r\n",
    "0000000000008000800000000000000a\r\n\r\n",
    "{00000000-0000-8000-8000-00000000000a}\r\n\r\n",
    "urn:uuid:00000000-0000-8000-8000-00000000000a\r\n\r\n",
];

const KEY: &str = "POST /kafkacruisecontrol/rebalance HTTP/1.1\r\nuser-task-id: ";

const TWO_KEYS: &str =
    "POST /kafkacruisecontrol/rebalance HTTP/1.1\r\nuser-task-id: \r\nUser-Task-ID: ";

#[test]
fn keys_have_each_form_of_a_uuid(rt: HostRuntime) {
    let alloc = rt.alloc();
    for key in &KEYS {
        let text = meant(&rt, alloc, KEY, key);
        assert_eq!(rt;
            text.as_str(),
            "Rebalance dry key 00000000-0000-8000-8000-00000000000a",
            "{key}"
        );
    }
    let text = meant(&rt, alloc, TWO_KEYS, KEYS[0]);
    assert_eq!(rt; text.as_str(), "bad User-Task-ID");
}

const ADDED: &str = "POST /kafkacruisecontrol/add_broker?brokerid=0";

fn repeated_ids(rt: &impl Abort, alloc: Global, count: usize) -> String {
    let mut text = String::new(alloc);
    for _ in 1..count {
        push(rt, &mut text, ",0");
    }
    push(rt, &mut text, " HTTP/1.1\r\n\r\n");
    text
}

#[test]
fn a_list_has_at_most_200_ids(rt: HostRuntime) {
    let alloc = rt.alloc();
    let full = meant(&rt, alloc, ADDED, repeated_ids(&rt, alloc, 200).as_str());
    assert_eq!(rt; full.as_str().len(), "AddBroker dry".len() + 400);
    let long = meant(&rt, alloc, ADDED, repeated_ids(&rt, alloc, 201).as_str());
    assert_eq!(rt; long.as_str(), "bad brokerid");
}

// The body of a request for a sample, and what it means.
const SAMPLES: [(&str, &str); 6] = [
    (
        r#"{"topic":"t","partition":3,"time":5,"load":{"leader":{"CPU":4294967295,"DISK":7}}}"#,
        "sample t 3 5 [4294967295, 0, 0, 7]",
    ),
    (
        r#"{"topic":"t","partition":3,"time":5,"load":{"leader":{"CPU":4294967296}}}"#,
        "BadBody",
    ),
    (r#"{"topic":"t","partition":3,"time":5}"#, "BadBody"),
    (
        r#"{"topic":".","partition":3,"time":5,"load":{}}"#,
        "BadBody",
    ),
    ("{}", "BadBody"),
    ("", "BadBody"),
];

#[test]
fn a_body_is_one_sample(rt: HostRuntime) {
    let alloc = rt.alloc();
    for (body, want) in &SAMPLES {
        let len = body.len();
        let head = format!(in alloc;
            "POST /cluster/sample HTTP/1.1\r\nContent-Length: {len}\r\n\r\n"
        );
        let head = head.expect(&rt, "memory");
        let text = meant(&rt, alloc, head.as_str(), body);
        assert_eq!(rt; text.as_str(), *want, "{body}");
    }
}
