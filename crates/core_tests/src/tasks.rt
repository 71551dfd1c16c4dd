// Ids on numbers at their ends, and a table that fills up.
use plan_terms::{GoalName, ListOf, Topic};
use std::alloc::Global;
use std::process::Abort;
use user_tasks::{AdmitFault, Ask, FindFault, Op, Status, TaskTable, id_text, number_of, task_id};
use uuid::Uuid;

const IDS: [(u64, &str); 5] = [
    (1, "00000000-0000-8000-8000-000000000001"),
    (258, "00000000-0000-8000-8000-000000000102"),
    (0xff_ffff_ffff_ffff, "00000000-0000-8000-80ff-ffffffffffff"),
    (0x100_0000_0000_0000, "00000001-0000-8000-8000-000000000000"),
    (u64::MAX, "000000ff-0000-8000-80ff-ffffffffffff"),
];

#[test]
fn ids_hold_their_numbers(rt: HostRuntime) {
    let alloc = rt.alloc();
    for (number, hex) in &IDS {
        assert_eq!(rt;
            id_text(alloc, task_id(*number))
                .expect(&rt, "memory")
                .as_str(),
            *hex
        );
        assert_eq!(rt; number_of(task_id(*number)), Some(*number));
    }
    assert_eq!(rt; number_of(Uuid::nil()), None);
}

fn ask(rt: &impl Abort, alloc: Global, op: Op, brokers: &[u32], goal: &str, topic: &str) -> Ask {
    let goal = GoalName::new(String::from_str(alloc, goal).expect(rt, "memory"));
    let topic = Topic::new(String::from_str(alloc, topic).expect(rt, "memory"));
    let goals = vec![in alloc; goal];
    let topics = vec![in alloc; topic];
    Ask {
        op,
        brokers: ListOf::new(brokers.to_vec(alloc).expect(rt, "memory")),
        goals: ListOf::new(goals.expect(rt, "memory")),
        skip: true,
        excluded: ListOf::new(topics.expect(rt, "memory")),
        dryrun: false,
        topics: ListOf::new(Vec::new(alloc)),
        factor: 1,
    }
}

// Requests that each differ from the first in one thing.
const OTHERS: [(Op, &[u32], &str, &str); 5] = [
    (Op::AddBroker, &[1, 2], "RackAwareGoal", "t"),
    (Op::RemoveBroker, &[2, 1], "RackAwareGoal", "t"),
    (Op::RemoveBroker, &[1], "RackAwareGoal", "t"),
    (Op::RemoveBroker, &[1, 2], "RackAware", "t"),
    (Op::RemoveBroker, &[1, 2], "RackAwareGoal", "u"),
];

// What the table says of an id and a request.
fn answer(rt: &impl Abort, alloc: Global, table: &TaskTable, id: Uuid, ask: &Ask) -> String {
    match table.find(id, ask) {
        Ok(status) => format!(in alloc; "{status:?}").expect(rt, "memory"),
        Err(FindFault::NoSuchTask(_)) => format!(in alloc; "no such task").expect(rt, "memory"),
        Err(FindFault::OtherRequest(_)) => format!(in alloc; "other request").expect(rt, "memory"),
    }
}

#[test]
fn a_task_answers_to_its_own_request(rt: HostRuntime) {
    let alloc = rt.alloc();
    let mut table = TaskTable::new(alloc);
    let first = ask(&rt, alloc, Op::RemoveBroker, &[1, 2], "RackAwareGoal", "t");
    let same = first.copy(alloc).expect(&rt, "memory");
    assert!(rt; table.admit(first).is_ok());
    let id = task_id(1);
    assert_eq!(rt; answer(&rt, alloc, &table, id, &same).as_str(), "Active");
    table.set(1, Status::InExecution);
    assert_eq!(rt;
        answer(&rt, alloc, &table, id, &same).as_str(),
        "InExecution"
    );
    for (op, brokers, goal, topic) in OTHERS {
        let other = ask(&rt, alloc, op, brokers, goal, topic);
        assert_eq!(rt;
            answer(&rt, alloc, &table, id, &other).as_str(),
            "other request"
        );
    }
    assert_eq!(rt;
        answer(&rt, alloc, &table, task_id(2), &same).as_str(),
        "no such task"
    );
    assert_eq!(rt; table.status(0), None);
    assert_eq!(rt; table.status(1), Some(Status::InExecution));
    assert_eq!(rt; table.status(2), None);
}

#[test]
fn sixteen_open_tasks_fill_the_table(rt: HostRuntime) {
    let alloc = rt.alloc();
    let mut table = TaskTable::new(alloc);
    for number in 1..17 {
        let admitted = table.admit(ask(&rt, alloc, Op::Rebalance, &[], "RackAwareGoal", "t"));
        assert!(rt; matches!(admitted, Ok(id) if id == task_id(number)));
    }
    let late = table.admit(ask(&rt, alloc, Op::Rebalance, &[7], "RackAwareGoal", "t"));
    let Err((AdmitFault::TooManyActive, back)) = late else {
        panic!(rt; "a seventeenth was admitted");
    };
    assert_eq!(rt; back.brokers.as_slice(), [7].as_slice());
    table.set(3, Status::CompletedWithError);
    assert!(rt; matches!(table.admit(back), Ok(id) if id == task_id(17)));
}
