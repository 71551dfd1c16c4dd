// Books over a cluster in memory, of whose calls some fail. Where a call fails that isn't to, the
// tests panic, in place of `?`, and one function lets each book go: the proof of each drop of a
// book is long.
ghost use Rattle.std.specs.Prelude.{◌≡◌, []};

use cluster_gate::{FailingAdmin, MemoryCluster};
use control_core::Book;
use core_terms::{Event, Reply};
use std::alloc::Global;
use std::process::Abort;
use test_fakes::cluster;

/// A cluster in memory, of whose calls some fail.
pub type TestCluster = FailingAdmin<MemoryCluster>;

/// A book of it.
pub type TestBook = Book<TestCluster>;

/// The book of a cluster file. Those calls of the cluster fail that have one of these numbers. The
/// first, which installs the lists, has the number 1.
pub fn book_of<R: Abort>(rt: &R, alloc: Global, text: &str, failing: &[u64]) -> TestBook
    ensures opened { result.journal ≡ [] }
{
    let file = cluster(alloc, text).expect(rt, "cluster");
    let Ok(failing) = failing.to_vec(alloc) else {
        panic!(rt; "no memory");
    };
    let admin = FailingAdmin::new(MemoryCluster::new(alloc), failing);
    let Ok(book) = Book::begin(alloc, file, admin) else {
        panic!(rt; "no book");
    };
    book
}

/// The reply to an event that isn't refused.
pub fn reply_to<R: Abort>(rt: &R, book: &mut TestBook, event: Event) -> Reply {
    let Ok(reply) = book.step(event) else {
        panic!(rt; "an event was refused");
    };
    reply
}

/// The lists of the cluster, one for each partition.
pub fn lists_of<R: Abort>(rt: &R, alloc: Global, book: &TestBook) -> Vec<Vec<u32>> {
    let mut lists = Vec::new(alloc);
    assert!(rt; book.parts() < 10);
    for part in 0..book.parts() {
        let list = book.admin().inner().list(part as u32);
        let copy = list.to_vec(alloc).expect(rt, "memory");
        lists.push(copy).expect(rt, "memory");
    }
    lists
}

/// The only place where a book is dropped.
pub fn let_go(book: TestBook) {
    drop(book);
}
