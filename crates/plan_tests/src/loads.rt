// Three brokers and three partitions of two topics, by what each broker carries.
use load_model::{Case, LoadBook};
use std::process::Abort;
use test_fakes::cluster;

const THREE_BROKERS: &str =
    r#"{"version":1,"brokers":[{"id":5},{"id":6},{"id":7}],"partitions":[{"topic":"a","partition":0,"replicas":[5,6],"load":{"leader":{"CPU":10,"NW_IN":20,"NW_OUT":30,"DISK":40},"follower":{"CPU":1,"NW_IN":2,"DISK":4}}},{"topic":"b","partition":0,"replicas":[6,7],"load":{"leader":{"CPU":100,"NW_IN":200,"NW_OUT":300,"DISK":400},"follower":{"CPU":10,"NW_IN":20,"DISK":40}}},{"topic":"a","partition":1,"replicas":[5,7],"load":{"leader":{"CPU":1000,"NW_IN":2000,"NW_OUT":3000,"DISK":4000},"follower":{"CPU":100,"NW_IN":200,"DISK":400}}}]}"#;

// CPU, NW_IN, NW_OUT, DISK, the potential NW_OUT and the leaders' NW_IN.
fn loads(rt: &impl Abort, book: &LoadBook, broker: usize) -> [u128; 6] {
    assert!(rt; broker < book.case().brokers().len());
    [
        book.load(broker, 0),
        book.load(broker, 1),
        book.load(broker, 2),
        book.load(broker, 3),
        book.potential_out(broker),
        book.leader_in(broker),
    ]
}

// Replicas, leaders, and the replicas and leaders in each topic.
fn counts(rt: &impl Abort, book: &LoadBook, broker: usize) -> [u64; 6] {
    assert!(rt; broker < book.case().brokers().len());
    assert!(rt; book.case().topics() == 2);
    [
        book.count(broker),
        book.leaders(broker),
        book.topic_count(0, broker),
        book.topic_count(1, broker),
        book.topic_leaders(0, broker),
        book.topic_leaders(1, broker),
    ]
}

fn put(rt: &impl Abort, book: &mut LoadBook, case: &Case, part: usize, place: usize, broker: u32) {
    assert!(rt; part < book.lists().len());
    assert!(rt; place < book.list(part).len());
    assert!(rt; !book.list(part).contains(&broker));
    assert!(rt; case.broker(broker).is_some());
    book.put(case, part, place, broker);
}

fn exchange(rt: &impl Abort, book: &mut LoadBook, case: &Case, part: usize, place: usize) {
    assert!(rt; part < book.lists().len());
    assert!(rt; place < book.list(part).len());
    book.exchange(case, part, place);
}

// The broker at this place carries so much, and has so many.
fn expect_broker(
    rt: &impl Abort,
    book: &LoadBook,
    broker: usize,
    load: [u128; 6],
    count: [u64; 6],
) {
    assert_eq!(rt; loads(rt, book, broker), load, "{broker}");
    assert_eq!(rt; counts(rt, book, broker), count, "{broker}");
}

#[test]
fn a_book_follows_a_put_and_an_exchange(rt: HostRuntime) {
    let alloc = rt.alloc();
    let file = cluster(alloc, THREE_BROKERS).expect(&rt, "cluster");
    let case = &file.case;
    let book = LoadBook::new(alloc, case, &file.lists);
    let mut book = book.expect(&rt, "memory");
    let first = [1010, 2020, 3030, 4040, 3030, 2020];
    expect_broker(&rt, &book, 0, first, [2, 2, 2, 0, 2, 0]);
    let second = [101, 202, 300, 404, 330, 200];
    expect_broker(&rt, &book, 1, second, [2, 1, 1, 1, 0, 1]);
    expect_broker(
        &rt,
        &book,
        2,
        [110, 220, 0, 440, 3300, 0],
        [2, 0, 1, 1, 0, 0],
    );
    put(&rt, &mut book, case, 0, 1, 7);
    let second = [100, 200, 300, 400, 300, 200];
    expect_broker(&rt, &book, 1, second, [1, 1, 0, 1, 0, 1]);
    expect_broker(
        &rt,
        &book,
        2,
        [111, 222, 0, 444, 3330, 0],
        [3, 0, 2, 1, 0, 0],
    );
    exchange(&rt, &mut book, case, 1, 1);
    expect_broker(&rt, &book, 1, [10, 20, 0, 40, 300, 0], [1, 0, 0, 1, 0, 0]);
    let third = [201, 402, 300, 804, 3330, 200];
    expect_broker(&rt, &book, 2, third, [3, 1, 2, 1, 0, 1]);
}

#[test]
fn finds_brokers_and_topics_by_place(rt: HostRuntime) {
    let alloc = rt.alloc();
    let file = cluster(alloc, THREE_BROKERS).expect(&rt, "cluster");
    let case = file.case.copy(alloc).expect(&rt, "memory");
    assert_eq!(rt; case.place(7), Some(2));
    assert_eq!(rt; case.place(8), None);
    assert_eq!(rt; case.topics(), 2);
    assert!(rt; case.parts().len() == 3);
    assert_eq!(rt; case.topic(1), 1);
    assert_eq!(rt; case.topic(2), 0);
}
