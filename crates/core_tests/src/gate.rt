// Lists that are installed and changed, and copies, with calls that fail.
ghost use Rattle.std.specs.Prelude.{◌≡◌, length};

use cc_base::Failed;
use cluster_gate::{
    Admin, ChunkCopy, CopyFault, FailingAdmin, FailingCopier, InstallFault, MemoryCluster,
    MemoryCopier, copy_chunk,
};
use load_model::Assign;
use std::alloc::Global;
use std::process::Abort;
use test_fakes::cluster;

// Two partitions of a topic on brokers 0 to 2.
const TWO_PARTITIONS: &str =
    r#"{"version":1,"brokers":[{"id":0},{"id":1},{"id":2}],"partitions":[{"topic":"t","partition":0,"replicas":[0,1]},{"topic":"t","partition":1,"replicas":[2]}]}"#;

fn lists(rt: &impl Abort, alloc: Global) -> Assign
    ensures { length result ≡ 2 }
{
    let file = cluster(alloc, TWO_PARTITIONS).expect(rt, "cluster");
    assert!(rt; file.lists.len() == 2);
    file.lists
}

#[test]
fn lists_change_as_told(rt: HostRuntime) {
    let alloc = rt.alloc();
    let mut cluster = MemoryCluster::new(alloc);
    let installed = cluster.install(alloc, &lists(&rt, alloc));
    installed.expect(&rt, "installed");
    assert_eq!(rt; cluster.list(1), [2].as_slice());
    let long = [0, 1, 2, 3, 4, 5, 6, 7, 8, 9, 10, 11, 12, 13, 14, 15];
    cluster.begin(1, &long).expect(&rt, "begun");
    assert_eq!(rt; cluster.list(1), long.as_slice());
    cluster.commit(1, &[1, 0]).expect(&rt, "committed");
    cluster.cancel(0, &[]).expect(&rt, "cancelled");
    assert_eq!(rt; cluster.list(1), [1, 0].as_slice());
    assert_eq!(rt; cluster.list(0), [].as_slice());
}

#[test]
fn listed_calls_fail(rt: HostRuntime) {
    let alloc = rt.alloc();
    let calls = [1, 4].to_vec(alloc).expect(&rt, "memory");
    let mut admin = FailingAdmin::new(MemoryCluster::new(alloc), calls);
    let lists = lists(&rt, alloc);
    assert_eq!(rt; admin.install(alloc, &lists), Err(InstallFault::Failed));
    admin.install(alloc, &lists).expect(&rt, "installed");
    admin.begin(0, &[0, 1, 2]).expect(&rt, "begun");
    assert_eq!(rt; admin.commit(0, &[1, 2]), Err(Failed));
    assert_eq!(rt; admin.inner().list(0), [0, 1, 2].as_slice());
    admin.commit(0, &[1, 2]).expect(&rt, "committed");
    assert_eq!(rt; admin.inner().list(0), [1, 2].as_slice());
}

#[test]
fn receipts_are_of_copies(rt: HostRuntime) {
    let alloc = rt.alloc();
    let calls = [2].to_vec(alloc).expect(&rt, "memory");
    let mut copier = FailingCopier::new(MemoryCopier::new(alloc), calls);
    let receipt = copy_chunk(&mut copier, 5, 1, 2, 0).expect(&rt, "copied");
    assert_eq!(rt; receipt.lease(), 5);
    assert_eq!(rt; receipt.part(), 1);
    assert_eq!(rt; receipt.to(), 2);
    assert_eq!(rt; receipt.chunk(), 0);
    assert!(rt; matches!(copy_chunk(&mut copier, 6, 1, 2, 1), Err(CopyFault::Failed)));
    assert!(rt; copy_chunk(&mut copier, 7, 1, 2, 1).is_ok());
    let copies = copier.inner().copies();
    assert_eq!(rt; copies.len(), 2);
    let last = ChunkCopy {
        part: 1,
        to: 2,
        chunk: 1,
    };
    assert_eq!(rt; copies.last(), Some(&last));
}
