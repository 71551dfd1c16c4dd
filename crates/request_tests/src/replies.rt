// Replies byte for byte. Where memory is wanting the test panics, in place of `?`, so that no row
// is let go there: the proof of each drop is long.
use anomaly_detector::Decision;
use core_terms::{
    BrokerShown, ExecutorState, Named, Outcome, PartShown, PumpEnd, Reason, Reply, Shown,
    StateShown, StepFault, TaskShown,
};
use exec_terms::{Killed, PhaseCounts, Stopped};
use goal_set::{GoalFault, GoalKind};
use plan_terms::{BrokerState, Caps, GoalName, ListOf, Replicas, Topic};
use rest_parse::{HttpFault, ParameterName};
use rest_replies::{Told, reply_bytes};
use rest_stream::Stop;
use review_board::{BoardReply, ReviewState, Row};
use std::alloc::Global;
use std::process::Abort;
use user_tasks::{Op, Status, task_id};

type Rows = Vec<(Told, &'static str)>;

fn replicas(rt: &impl Abort, alloc: Global, ids: &[u32]) -> Replicas {
    Replicas::new(Vec::from_slice(alloc, ids).expect(rt, "memory"))
}

fn topic(rt: &impl Abort, alloc: Global, name: &str) -> Topic {
    Topic::new(String::from_str(alloc, name).expect(rt, "memory"))
}

fn goal(rt: &impl Abort, alloc: Global) -> GoalName {
    GoalName::new(String::from_str(alloc, "größe").expect(rt, "memory"))
}

fn named(rt: &impl Abort, alloc: Global) -> Named {
    Named {
        topic: topic(rt, alloc, r#"a"b"#),
        number: 3,
        before: replicas(rt, alloc, &[0, 1]),
        after: replicas(rt, alloc, &[2, 1]),
    }
}

fn part(rt: &impl Abort, alloc: Global) -> PartShown {
    PartShown {
        topic: topic(rt, alloc, "t"),
        number: 3,
        replicas: replicas(rt, alloc, &[6, 4, 5]),
        adding: replicas(rt, alloc, &[5]),
        removing: replicas(rt, alloc, &[6]),
    }
}

fn state() -> StateShown {
    StateShown {
        counts: PhaseCounts {
            pending: 1,
            in_progress: 2,
            aborting: 3,
            aborted: 4,
            completed: 5,
            dead: 6,
        },
        state: ExecutorState::Stopping,
        valid: 8,
        all: 9,
    }
}

fn broker() -> BrokerShown {
    BrokerShown {
        broker: 1,
        state: BrokerState::Demoted,
        cpu: 2,
        nw_in: 5,
        nw_out: 6,
        disk: 3,
        potential_nw_out: 7,
        replicas: 8,
        leaders: 4,
    }
}

fn task() -> TaskShown {
    TaskShown {
        id: task_id(1),
        op: Op::RemoveBroker,
        status: Status::Completed,
    }
}

fn row(rt: &impl Abort, alloc: Global, id: u64, path: &str, state: ReviewState) -> Row {
    let path = ListOf::new(path.as_bytes().to_vec(alloc).expect(rt, "memory"));
    Row { id, path, state }
}

fn tasks(rt: &impl Abort, alloc: Global) -> Rows {
    let rows = vec![in alloc;
        (
            Told::Core(Reply::Accepted(task_id(1))),
            "HTTP/1.1 202 Accepted\r\nContent-Type: application/json\r\nContent-Length: 83\r\nUser-Task-ID: 00000000-0000-8000-8000-000000000001\r\n\r\n{\"status\":\"Active\",\"userTaskId\":\"00000000-0000-8000-8000-000000000001\",\"version\":1}",
        ),
        (
            Told::Core(Reply::Task(task_id(1), Status::InExecution, Outcome::Open)),
            "HTTP/1.1 202 Accepted\r\nContent-Type: application/json\r\nContent-Length: 88\r\nUser-Task-ID: 00000000-0000-8000-8000-000000000001\r\n\r\n{\"status\":\"InExecution\",\"userTaskId\":\"00000000-0000-8000-8000-000000000001\",\"version\":1}",
        ),
        (
            Told::Core(Reply::Task(
                task_id(1),
                Status::Completed,
                Outcome::Done(ListOf::new((vec![in alloc; named(rt, alloc)]).expect(rt, "memory"))),
            )),
            "HTTP/1.1 200 OK\r\nContent-Type: application/json\r\nContent-Length: 190\r\nUser-Task-ID: 00000000-0000-8000-8000-000000000001\r\n\r\n{\"proposals\":[{\"newReplicas\":[2,1],\"oldReplicas\":[0,1],\"topicPartition\":{\"partition\":3,\"topic\":\"a\\\"b\"}}],\"status\":\"Completed\",\"userTaskId\":\"00000000-0000-8000-8000-000000000001\",\"version\":1}",
        ),
        (
            Told::Core(Reply::Task(
                task_id(1),
                Status::CompletedWithError,
                Outcome::Failed(GoalKind::RackAware, 1 << 64),
            )),
            "HTTP/1.1 200 OK\r\nContent-Type: application/json\r\nContent-Length: 153\r\nUser-Task-ID: 00000000-0000-8000-8000-000000000001\r\n\r\n{\"failed\":\"RackAwareGoal\",\"measure\":\"18446744073709551616\",\"status\":\"CompletedWithError\",\"userTaskId\":\"00000000-0000-8000-8000-000000000001\",\"version\":1}",
        ),
        (
            Told::Core(Reply::Task(
                task_id(1),
                Status::CompletedWithError,
                Outcome::Ended {
                    aborted: 7,
                    dead: 8,
                    proposals: ListOf::new((vec![in alloc; named(rt, alloc)]).expect(rt, "memory")),
                },
            )),
            "HTTP/1.1 200 OK\r\nContent-Type: application/json\r\nContent-Length: 220\r\nUser-Task-ID: 00000000-0000-8000-8000-000000000001\r\n\r\n{\"aborted\":7,\"dead\":8,\"proposals\":[{\"newReplicas\":[2,1],\"oldReplicas\":[0,1],\"topicPartition\":{\"partition\":3,\"topic\":\"a\\\"b\"}}],\"status\":\"CompletedWithError\",\"userTaskId\":\"00000000-0000-8000-8000-000000000001\",\"version\":1}",
        ),
    ];
    rows.expect(rt, "memory")
}

fn changes(rt: &impl Abort, alloc: Global) -> Rows {
    let rows = vec![in alloc;
        (
            Told::Core(Reply::Stopped(Stopped {
                aborted: 2,
                aborting: 3,
            })),
            "HTTP/1.1 200 OK\r\nContent-Type: application/json\r\nContent-Length: 38\r\n\r\n{\"aborted\":2,\"aborting\":3,\"version\":1}",
        ),
        (
            Told::Core(Reply::Killed(Killed {
                dead: 4,
                aborting: 5,
            })),
            "HTTP/1.1 200 OK\r\nContent-Type: application/json\r\nContent-Length: 35\r\n\r\n{\"aborting\":5,\"dead\":4,\"version\":1}",
        ),
        (
            Told::Core(Reply::Sampled),
            "HTTP/1.1 200 OK\r\nContent-Type: application/json\r\nContent-Length: 29\r\n\r\n{\"accepted\":true,\"version\":1}",
        ),
        (
            Told::Core(Reply::CapsSet(Caps {
                broker: 1,
                cluster: 1250,
                leader: 1000,
            })),
            "HTTP/1.1 200 OK\r\nContent-Type: application/json\r\nContent-Length: 53\r\n\r\n{\"broker\":1,\"cluster\":1250,\"leader\":1000,\"version\":1}",
        ),
        (
            Told::Pump(PumpEnd::Done {
                done: 3,
                idle: true,
            }),
            "HTTP/1.1 200 OK\r\nContent-Type: application/json\r\nContent-Length: 34\r\n\r\n{\"done\":3,\"idle\":true,\"version\":1}",
        ),
        (
            Told::Pump(PumpEnd::AdminFault(9)),
            "HTTP/1.1 500 Internal Server Error\r\nContent-Type: application/json\r\nContent-Length: 45\r\n\r\n{\"errorMessage\":\"admin fault: 9\",\"version\":1}",
        ),
        (
            Told::Pump(PumpEnd::Memory),
            "HTTP/1.1 503 Service Unavailable\r\nContent-Type: application/json\r\nContent-Length: 45\r\n\r\n{\"errorMessage\":\"want of memory\",\"version\":1}",
        ),
        (
            Told::Step(StepFault::AdminFault(u64::MAX)),
            "HTTP/1.1 500 Internal Server Error\r\nContent-Type: application/json\r\nContent-Length: 64\r\n\r\n{\"errorMessage\":\"admin fault: 18446744073709551615\",\"version\":1}",
        ),
        (Told::Core(Reply::Closed), ""),
        (Told::Core(Reply::Idle(Reason::Planning, true)), ""),
        (Told::Core(Reply::Committed), ""),
    ];
    rows.expect(rt, "memory")
}

fn shows(rt: &impl Abort, alloc: Global) -> Rows {
    let rows = vec![in alloc;
        (
            Told::Core(Reply::Shown(Shown::State(state()))),
            "HTTP/1.1 200 OK\r\nContent-Type: application/json\r\nContent-Length: 170\r\n\r\n{\"ExecutorState\":{\"aborted\":4,\"aborting\":3,\"completed\":5,\"dead\":6,\"inProgress\":2,\"pending\":1,\"state\":\"STOPPING_EXECUTION\"},\"MonitorState\":{\"all\":9,\"valid\":8},\"version\":1}",
        ),
        (
            Told::Core(Reply::Shown(Shown::Load(ListOf::new(
                (vec![in alloc; broker()]).expect(rt, "memory"),
            )))),
            "HTTP/1.1 200 OK\r\nContent-Type: application/json\r\nContent-Length: 136\r\n\r\n{\"brokers\":[{\"broker\":1,\"cpu\":2,\"disk\":3,\"leaders\":4,\"nwIn\":5,\"nwOut\":6,\"potentialNwOut\":7,\"replicas\":8,\"state\":\"DEMOTED\"}],\"version\":1}",
        ),
        (
            Told::Core(Reply::Shown(Shown::ClusterState(
                ListOf::new((vec![in alloc; 7]).expect(rt, "memory")),
                ListOf::new((vec![in alloc; part(rt, alloc)]).expect(rt, "memory")),
            ))),
            "HTTP/1.1 200 OK\r\nContent-Type: application/json\r\nContent-Length: 121\r\n\r\n{\"deadBrokers\":[7],\"partitions\":[{\"adding\":[5],\"partition\":3,\"removing\":[6],\"replicas\":[6,4,5],\"topic\":\"t\"}],\"version\":1}",
        ),
        (
            Told::Core(Reply::Shown(Shown::ClusterState(
                ListOf::new(Vec::new(alloc)),
                ListOf::new(Vec::new(alloc)),
            ))),
            "HTTP/1.1 200 OK\r\nContent-Type: application/json\r\nContent-Length: 46\r\n\r\n{\"deadBrokers\":[],\"partitions\":[],\"version\":1}",
        ),
        (
            Told::Core(Reply::Shown(Shown::UserTasks(ListOf::new(
                (vec![in alloc; task()]).expect(rt, "memory"),
            )))),
            "HTTP/1.1 200 OK\r\nContent-Type: application/json\r\nContent-Length: 129\r\n\r\n{\"userTasks\":[{\"endpoint\":\"remove_broker\",\"status\":\"Completed\",\"userTaskId\":\"00000000-0000-8000-8000-000000000001\"}],\"version\":1}",
        ),
    ];
    rows.expect(rt, "memory")
}

fn decisions(rt: &impl Abort, alloc: Global) -> Rows {
    let brokers = || ListOf::new([4, 7].to_vec(alloc).expect(rt, "memory"));
    let rows = vec![in alloc;
        (
            Told::Decided(Decision::Alert(brokers())),
            "HTTP/1.1 200 OK\r\nContent-Type: application/json\r\nContent-Length: 47\r\n\r\n{\"anomaly\":\"ALERT\",\"brokers\":[4,7],\"version\":1}",
        ),
        (
            Told::Decided(Decision::Waiting(brokers())),
            "HTTP/1.1 200 OK\r\nContent-Type: application/json\r\nContent-Length: 49\r\n\r\n{\"anomaly\":\"WAITING\",\"brokers\":[4,7],\"version\":1}",
        ),
        (
            Told::Decided(Decision::Fine),
            "HTTP/1.1 200 OK\r\nContent-Type: application/json\r\nContent-Length: 43\r\n\r\n{\"anomaly\":\"NONE\",\"brokers\":[],\"version\":1}",
        ),
    ];
    rows.expect(rt, "memory")
}

fn core_refusals(rt: &impl Abort, alloc: Global) -> Rows {
    let rows = vec![in alloc;
        (
            Told::Core(Reply::NoSuchTask(task_id(1))),
            "HTTP/1.1 404 Not Found\r\nContent-Type: application/json\r\nContent-Length: 81\r\n\r\n{\"errorMessage\":\"no such task: 00000000-0000-8000-8000-000000000001\",\"version\":1}",
        ),
        (
            Told::Core(Reply::OtherRequest(task_id(1))),
            "HTTP/1.1 400 Bad Request\r\nContent-Type: application/json\r\nContent-Length: 82\r\n\r\n{\"errorMessage\":\"other request: 00000000-0000-8000-8000-000000000001\",\"version\":1}",
        ),
        (
            Told::Core(Reply::Closing),
            "HTTP/1.1 503 Service Unavailable\r\nContent-Type: application/json\r\nContent-Length: 38\r\n\r\n{\"errorMessage\":\"closing\",\"version\":1}",
        ),
        (
            Told::Core(Reply::NoSuchBroker(7)),
            "HTTP/1.1 400 Bad Request\r\nContent-Type: application/json\r\nContent-Length: 48\r\n\r\n{\"errorMessage\":\"no such broker: 7\",\"version\":1}",
        ),
        (
            Told::Core(Reply::BadGoals(GoalFault::UnknownGoal(goal(rt, alloc)))),
            "HTTP/1.1 400 Bad Request\r\nContent-Type: application/json\r\nContent-Length: 52\r\n\r\n{\"errorMessage\":\"unknown goal: größe\",\"version\":1}",
        ),
        (
            Told::Core(Reply::BadGoals(GoalFault::RepeatedGoal(goal(rt, alloc)))),
            "HTTP/1.1 400 Bad Request\r\nContent-Type: application/json\r\nContent-Length: 53\r\n\r\n{\"errorMessage\":\"repeated goal: größe\",\"version\":1}",
        ),
        (
            Told::Core(Reply::BadGoals(GoalFault::MissingHardGoal(goal(rt, alloc)))),
            "HTTP/1.1 400 Bad Request\r\nContent-Type: application/json\r\nContent-Length: 57\r\n\r\n{\"errorMessage\":\"missing hard goal: größe\",\"version\":1}",
        ),
        (
            Told::Core(Reply::Executing(task_id(1))),
            "HTTP/1.1 409 Conflict\r\nContent-Type: application/json\r\nContent-Length: 89\r\n\r\n{\"errorMessage\":\"execution unfinished: 00000000-0000-8000-8000-000000000001\",\"version\":1}",
        ),
        (
            Told::Core(Reply::TooManyActive),
            "HTTP/1.1 429 Too Many Requests\r\nContent-Type: application/json\r\nContent-Length: 50\r\n\r\n{\"errorMessage\":\"16 tasks are active\",\"version\":1}",
        ),
        (
            Told::Core(Reply::NoSuchTopic(topic(rt, alloc, "u"))),
            "HTTP/1.1 400 Bad Request\r\nContent-Type: application/json\r\nContent-Length: 47\r\n\r\n{\"errorMessage\":\"no such topic: u\",\"version\":1}",
        ),
        (
            Told::Core(Reply::TooFewBrokers(3)),
            "HTTP/1.1 409 Conflict\r\nContent-Type: application/json\r\nContent-Length: 49\r\n\r\n{\"errorMessage\":\"too few brokers: 3\",\"version\":1}",
        ),
        (
            Told::Core(Reply::NotEnoughWindows(1, 20)),
            "HTTP/1.1 409 Conflict\r\nContent-Type: application/json\r\nContent-Length: 56\r\n\r\n{\"errorMessage\":\"valid partitions: 1 of 20\",\"version\":1}",
        ),
        (
            Told::Core(Reply::NothingToStop),
            "HTTP/1.1 409 Conflict\r\nContent-Type: application/json\r\nContent-Length: 46\r\n\r\n{\"errorMessage\":\"nothing to stop\",\"version\":1}",
        ),
        (
            Told::Core(Reply::AlreadyDead(7)),
            "HTTP/1.1 409 Conflict\r\nContent-Type: application/json\r\nContent-Length: 46\r\n\r\n{\"errorMessage\":\"already dead: 7\",\"version\":1}",
        ),
        (
            Told::Core(Reply::NoSuchPartition),
            "HTTP/1.1 400 Bad Request\r\nContent-Type: application/json\r\nContent-Length: 48\r\n\r\n{\"errorMessage\":\"no such partition\",\"version\":1}",
        ),
        (
            Told::Core(Reply::TooOld(12)),
            "HTTP/1.1 409 Conflict\r\nContent-Type: application/json\r\nContent-Length: 57\r\n\r\n{\"errorMessage\":\"too old, oldest window: 12\",\"version\":1}",
        ),
        (
            Told::Core(Reply::WindowFull),
            "HTTP/1.1 409 Conflict\r\nContent-Type: application/json\r\nContent-Length: 42\r\n\r\n{\"errorMessage\":\"window full\",\"version\":1}",
        ),
    ];
    rows.expect(rt, "memory")
}

fn requests(rt: &impl Abort, alloc: Global) -> Rows {
    let rows = vec![in alloc;
        (
            Told::Http(HttpFault::NotFound),
            "HTTP/1.1 404 Not Found\r\nContent-Type: application/json\r\nContent-Length: 40\r\n\r\n{\"errorMessage\":\"not found\",\"version\":1}",
        ),
        (
            Told::Http(HttpFault::WrongMethod),
            "HTTP/1.1 405 Method Not Allowed\r\nContent-Type: application/json\r\nContent-Length: 49\r\n\r\n{\"errorMessage\":\"method not allowed\",\"version\":1}",
        ),
        (
            Told::Http(HttpFault::BadParameter(ParameterName::new(String::from_str(
                alloc, "a\\b",
            ).expect(rt, "memory")))),
            "HTTP/1.1 400 Bad Request\r\nContent-Type: application/json\r\nContent-Length: 50\r\n\r\n{\"errorMessage\":\"bad parameter: a\\\\b\",\"version\":1}",
        ),
        (
            Told::Http(HttpFault::BadBody),
            "HTTP/1.1 400 Bad Request\r\nContent-Type: application/json\r\nContent-Length: 39\r\n\r\n{\"errorMessage\":\"bad body\",\"version\":1}",
        ),
    ];
    rows.expect(rt, "memory")
}

fn stops(rt: &impl Abort, alloc: Global) -> Rows {
    let rows = vec![in alloc;
        (
            Told::Stopped(Stop::BadHead),
            "HTTP/1.1 400 Bad Request\r\nContent-Type: application/json\r\nContent-Length: 39\r\n\r\n{\"errorMessage\":\"bad head\",\"version\":1}",
        ),
        (
            Told::Stopped(Stop::BadLength),
            "HTTP/1.1 400 Bad Request\r\nContent-Type: application/json\r\nContent-Length: 41\r\n\r\n{\"errorMessage\":\"bad length\",\"version\":1}",
        ),
        (
            Told::Stopped(Stop::HeadTooLong),
            "HTTP/1.1 431 Request Header Fields Too Large\r\nContent-Type: application/json\r\nContent-Length: 44\r\n\r\n{\"errorMessage\":\"head too long\",\"version\":1}",
        ),
        (
            Told::Stopped(Stop::BodyTooLong),
            "HTTP/1.1 413 Content Too Large\r\nContent-Type: application/json\r\nContent-Length: 44\r\n\r\n{\"errorMessage\":\"body too long\",\"version\":1}",
        ),
        (
            Told::Stopped(Stop::NoChunked),
            "HTTP/1.1 501 Not Implemented\r\nContent-Type: application/json\r\nContent-Length: 61\r\n\r\n{\"errorMessage\":\"transfer encoding is not taken\",\"version\":1}",
        ),
        (Told::Stopped(Stop::End), ""),
        (Told::Stopped(Stop::Truncated), ""),
        (Told::Stopped(Stop::ReadFault), ""),
        (Told::Stopped(Stop::Memory), ""),
    ];
    rows.expect(rt, "memory")
}

fn boards(rt: &impl Abort, alloc: Global) -> Rows {
    let rows = vec![in alloc;
        (
            Told::Board(BoardReply::Filed(1)),
            "HTTP/1.1 202 Accepted\r\nContent-Type: application/json\r\nContent-Length: 52\r\n\r\n{\"reviewId\":1,\"status\":\"PENDING_REVIEW\",\"version\":1}",
        ),
        (
            Told::Board(BoardReply::Reviewed(ListOf::new(
                (vec![in alloc;
                    row(
                        rt,
                        alloc,
                        1,
                        "/kafkacruisecontrol/remove_broker",
                        ReviewState::Approved
                    ),
                ])
                .expect(rt, "memory")
            ))),
            "HTTP/1.1 200 OK\r\nContent-Type: application/json\r\nContent-Length: 88\r\n\r\n{\"requests\":[{\"endpoint\":\"remove_broker\",\"reviewId\":1,\"status\":\"APPROVED\"}],\"version\":1}",
        ),
        (
            Told::Board(BoardReply::Listed(ListOf::new(
                (vec![in alloc;
                    row(
                        rt,
                        alloc,
                        1,
                        "/kafkacruisecontrol/admin",
                        ReviewState::PendingReview
                    ),
                    row(rt, alloc, 2, "/a/", ReviewState::Submitted),
                    row(rt, alloc, 3, "b", ReviewState::Discarded),
                ])
                .expect(rt, "memory")
            ))),
            "HTTP/1.1 200 OK\r\nContent-Type: application/json\r\nContent-Length: 187\r\n\r\n{\"requests\":[{\"endpoint\":\"admin\",\"reviewId\":1,\"status\":\"PENDING_REVIEW\"},{\"endpoint\":\"\",\"reviewId\":2,\"status\":\"SUBMITTED\"},{\"endpoint\":\"b\",\"reviewId\":3,\"status\":\"DISCARDED\"}],\"version\":1}",
        ),
        (
            Told::Board(BoardReply::Listed(ListOf::new(Vec::new(alloc)))),
            "HTTP/1.1 200 OK\r\nContent-Type: application/json\r\nContent-Length: 27\r\n\r\n{\"requests\":[],\"version\":1}",
        ),
        (
            Told::Board(BoardReply::Given(ListOf::new(Vec::new(alloc)))),
            "",
        ),
        (
            Told::Board(BoardReply::NoSuchReview(2)),
            "HTTP/1.1 400 Bad Request\r\nContent-Type: application/json\r\nContent-Length: 48\r\n\r\n{\"errorMessage\":\"no such review: 2\",\"version\":1}",
        ),
        (
            Told::Board(BoardReply::OtherEndpoint(1)),
            "HTTP/1.1 400 Bad Request\r\nContent-Type: application/json\r\nContent-Length: 48\r\n\r\n{\"errorMessage\":\"other endpoint: 1\",\"version\":1}",
        ),
        (
            Told::Board(BoardReply::NotPending(1, ReviewState::Approved)),
            "HTTP/1.1 409 Conflict\r\nContent-Type: application/json\r\nContent-Length: 51\r\n\r\n{\"errorMessage\":\"review 1 is APPROVED\",\"version\":1}",
        ),
        (
            Told::Board(BoardReply::NotPending(2, ReviewState::Discarded)),
            "HTTP/1.1 409 Conflict\r\nContent-Type: application/json\r\nContent-Length: 52\r\n\r\n{\"errorMessage\":\"review 2 is DISCARDED\",\"version\":1}",
        ),
        (
            Told::Board(BoardReply::NotApproved(1, ReviewState::PendingReview)),
            "HTTP/1.1 409 Conflict\r\nContent-Type: application/json\r\nContent-Length: 57\r\n\r\n{\"errorMessage\":\"review 1 is PENDING_REVIEW\",\"version\":1}",
        ),
        (
            Told::Board(BoardReply::NotApproved(1, ReviewState::Submitted)),
            "HTTP/1.1 409 Conflict\r\nContent-Type: application/json\r\nContent-Length: 52\r\n\r\n{\"errorMessage\":\"review 1 is SUBMITTED\",\"version\":1}",
        ),
    ];
    rows.expect(rt, "memory")
}

#[test]
fn replies_are_these_bytes(rt: HostRuntime) {
    let alloc = rt.alloc();
    for rows in [
        tasks(&rt, alloc),
        changes(&rt, alloc),
        shows(&rt, alloc),
        core_refusals(&rt, alloc),
        decisions(&rt, alloc),
        requests(&rt, alloc),
        stops(&rt, alloc),
        boards(&rt, alloc),
    ] {
        for (told, want) in &rows {
            let bytes = reply_bytes(alloc, told).expect(&rt, "memory");
            assert_eq!(rt; str::from_utf8(&bytes).unwrap_or("no text"), *want);
        }
    }
}
