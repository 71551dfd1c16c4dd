// What is read of a file that has each member.
use cluster_json::ClusterFile;
use plan_terms::Options;
use std::process::Abort;
use test_fakes::cluster;

const WHOLE: &str =
    r#"{"version":1,"brokers":[{"id":3,"rack":"a"},{"id":1,"state":"NEW"}],"brokerCapacities":[{"brokerId":"-1","capacity":{"DISK":"4","CPU":"1.0","NW_IN":"2","NW_OUT":"3"}},{"brokerId":"1","capacity":{"DISK":"8","CPU":"5","NW_IN":"6","NW_OUT":"7"}}],"partitions":[{"topic":"t","partition":0,"replicas":[1,3],"chunks":9,"load":{"leader":{"CPU":1,"NW_IN":2,"NW_OUT":3,"DISK":4},"follower":{"CPU":5,"NW_IN":6,"DISK":8}}},{"topic":"t","partition":5,"replicas":[3]}],"config":{"disk.balance.threshold":"1.5","num.concurrent.leader.movements":7,"num.partition.metrics.windows":"3","min.valid.partition.ratio":0},"samples":[{"topic":"t","partition":5,"time":12,"load":{}}]}"#;

// The four capacities of the broker at a place, or none.
fn capacities(file: &ClusterFile, place: usize) -> [u64; 4] {
    match file.case.brokers().get(place) {
        Some(broker) => broker.cap,
        None => [0; 4],
    }
}

// The eight loads of the partition at a place, or none.
fn loads(file: &ClusterFile, place: usize) -> ([u64; 4], [u64; 4]) {
    match file.case.parts().get(place) {
        Some(part) => (part.loads.lead, part.loads.follow),
        None => ([9; 4], [9; 4]),
    }
}

// Numbers of the settings, of which some stand in the file.
fn expect_options(rt: &impl Abort, options: &Options) {
    let (balance, limit) = (options.balance[3], options.limit[3]);
    assert_eq!(rt; (balance.num(), balance.den()), (15, 10));
    assert_eq!(rt; (limit.num(), limit.den()), (80, 100));
}

#[test]
fn gives_each_member(rt: HostRuntime) {
    let file = cluster(rt.alloc(), WHOLE).expect(&rt, "cluster");
    assert_eq!(rt; capacities(&file, 0), [1, 2, 3, 4]);
    assert_eq!(rt; capacities(&file, 1), [5, 6, 7, 8]);
    assert_eq!(rt; loads(&file, 0), ([1, 2, 3, 4], [5, 6, 0, 8]));
    assert_eq!(rt; loads(&file, 1), ([0; 4], [0; 4]));
    assert_eq!(rt; file.with_load.as_slice(), [true, false].as_slice());
    expect_options(&rt, file.case.options());
    assert_eq!(rt;
        (file.caps.broker, file.caps.cluster, file.caps.leader),
        (10, 1250, 7)
    );
    assert_eq!(rt;
        (file.rules.width, file.rules.keep, file.ratio.num()),
        (300_000, 3, 0)
    );
    match file.samples.as_slice() {
        [sample] => assert_eq!(rt; (sample.part, sample.time), (1, 12)),
        _ => panic!(rt; "samples"),
    }
}
