// What waits in vain, and what never waits. Live services show the waits that end.
use cc_base::{ReadFault, Source, read_link, read_some, write_all_of, write_link};
use cluster_gate::{ChunkCopy, Copier, CopyFault};
use std::process::Abort;
use test_fakes::{PairGate, ReplyGate};

const REPLY: &[u8] = b"HTTP/1.1 200 OK\r\ncontent-length: 2\r\n\r\n{}";

// A copy of this partition is made.
fn copy_made<K: Copier>(rt: &impl Abort, copier: &mut K, part: u32) {
    assert!(rt; copier.copy(part, 2, 0).is_ok());
}

// None is made.
fn copy_fails<K: Copier>(rt: &impl Abort, copier: &mut K, part: u32) {
    assert!(rt; matches!(copier.copy(part, 2, 0), Err(CopyFault::Failed)));
}

// One copy was made, of this partition.
fn expect_one_copy(rt: &impl Abort, copies: &[ChunkCopy], part: u32) {
    let copy = ChunkCopy {
        part,
        to: 2,
        chunk: 0,
    };
    assert_eq!(rt; copies, [copy].as_slice());
}

// These bytes come next.
fn expect_read<S: Source>(rt: &impl Abort, source: &mut S, want: &[u8]) {
    let mut buf = [0; 16];
    match read_some(source, &mut buf) {
        Ok(n) => assert_eq!(rt; &buf[..n], want),
        Err(ReadFault) => panic!(rt; "a read failed"),
    }
}

#[test]
fn copies_that_wait_in_vain_are_faults(rt: HostRuntime) {
    let (mut one, mut other) = PairGate::pair_within(rt.alloc(), 9).expect(&rt, "memory");
    copy_fails(&rt, &mut one, 5);
    assert_eq!(rt; one.copies().len(), 0);
    copy_made(&rt, &mut other, 6);
    copy_made(&rt, &mut one, 5);
    expect_one_copy(&rt, one.copies(), 5);
}

#[test]
fn reads_that_wait_in_vain_are_faults(rt: HostRuntime) {
    let alloc = rt.alloc();
    let held = ReplyGate::held_within(alloc, 1, b"ask", b"", 9);
    let (mut gate, mut source, mut sink) = held.expect(&rt, "memory");
    expect_read(&rt, &mut source, b"ask");
    let mut buf = [0; 16];
    assert_eq!(rt; read_some(&mut source, &mut buf), Err(ReadFault));
    let (most, last) = REPLY.split_at(REPLY.len() - 3);
    write_all_of(&mut sink, most).expect(&rt, "a write");
    copy_fails(&rt, &mut gate, 5);
    write_all_of(&mut sink, last).expect(&rt, "a write");
    copy_made(&rt, &mut gate, 5);
    expect_read(&rt, &mut source, b"");

    let links = ReplyGate::links_within(alloc, b"", b"more", 9);
    let (mut one, mut other) = links.expect(&rt, "memory");
    assert_eq!(rt; read_link(&mut one, &mut buf), Err(ReadFault));
    write_link(&mut other, REPLY).expect(&rt, "a write");
    expect_read(&rt, &mut one, b"more");
}

#[test]
fn plain_gates_never_wait(rt: HostRuntime) {
    let mut pair = PairGate::plain(rt.alloc()).expect(&rt, "memory");
    copy_made(&rt, &mut pair, 5);
    expect_one_copy(&rt, pair.copies(), 5);
    let mut reply = ReplyGate::plain(rt.alloc()).expect(&rt, "memory");
    copy_made(&rt, &mut reply, 6);
    expect_one_copy(&rt, reply.copies(), 6);
}
