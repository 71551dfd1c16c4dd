// Links that are handed out in order, calls that fail, and a connection of the system.
ghost use Rattle.std.specs.Prelude.{◌≡◌, [], Some};

use cc_base::{Failed, Joined, ReadFault, Sink, read_link, write_link};
use net_links::{HostListener, Listener};
use std::alloc::Global;
use std::io::{Read, Write};
use std::net::{Net, OpenListener, SocketAddr, TcpListener, TcpStream};
use std::process::Abort;
use test_fakes::{FailingListener, MemoryListener, MemorySink, MemorySource};

type MemoryLink = Joined<MemorySource, MemorySink>;

fn link(rt: &impl Abort, alloc: Global, text: &str) -> MemoryLink
    ensures { ⟦<MemoryLink as Sink>⟧.written result ≡ Some [] }
{
    let source = MemorySource::new(text.as_bytes().to_vec(alloc).expect(rt, "memory"));
    Joined::new(source, MemorySink::new(alloc))
}

// Accepts a link of which this text comes, or fails.
fn expect_link<L: Listener<Conn = MemoryLink>>(rt: &impl Abort, listener: &mut L, want: &str) {
    let mut buf = [0; 16];
    match listener.accept() {
        Ok(mut link) => match read_link(&mut link, &mut buf) {
            Ok(n) => assert_eq!(rt; &buf[..n], want.as_bytes()),
            Err(_) => assert_eq!(rt; want, "a read"),
        },
        Err(Failed) => assert_eq!(rt; want, "fault"),
    }
}

#[test]
fn links_are_handed_out_in_order(rt: HostRuntime) {
    let alloc = rt.alloc();
    let links = vec![in alloc; link(&rt, alloc, "one"), link(&rt, alloc, "two")];
    let links = MemoryListener::new(links.expect(&rt, "memory"));
    let calls = [0, 3].to_vec(alloc).expect(&rt, "memory");
    let mut listener = FailingListener::new(links, calls);
    assert_eq!(rt; listener.listen("127.0.0.1:0"), Err(Failed));
    listener.listen("127.0.0.1:0").expect(&rt, "an address");
    for want in ["one", "fault", "two", "fault"] {
        expect_link(&rt, &mut listener, want);
    }
}

// An address at which nobody listens.
fn free_address<R: Net + Abort>(rt: &R) -> SocketAddr {
    let listener = TcpListener::bind(rt, "127.0.0.1:0").expect(rt, "an address");
    listener.local_addr().expect(rt, "an address")
}

#[test]
fn serves_a_client_of_the_system(rt: HostRuntime) {
    let free = free_address(&rt);
    let address = format!(in rt.alloc(); "{free}").expect(&rt, "memory");
    let mut listener = HostListener::new(rt, rt.alloc()).expect(&rt, "memory");
    assert!(rt; listener.accept().is_err());
    assert_eq!(rt; listener.listen("127.0.0.1"), Err(Failed));
    listener.listen(address.as_str()).expect(&rt, "an address");
    let mut client = TcpStream::connect(&rt, free).expect(&rt, "a connection");
    client.write_all(b"ping").expect(&rt, "a write");
    let mut buf = [0; 16];
    let mut served = listener.accept().expect(&rt, "a link");
    let n = read_link(&mut served, &mut buf).expect(&rt, "a read");
    assert_eq!(rt; &buf[..n], b"ping".as_slice());
    write_link(&mut served, b"pong").expect(&rt, "a write");
    drop(served);
    let n = client.read(&mut buf).expect(&rt, "a read");
    assert_eq!(rt; &buf[..n], b"pong".as_slice());
    assert_eq!(rt; client.read(&mut buf).expect(&rt, "the end"), 0);
}

#[test]
fn a_shutdown_wakes_who_waits(rt: HostRuntime) {
    let free = free_address(&rt);
    let address = format!(in rt.alloc(); "{free}").expect(&rt, "memory");
    let mut listener = HostListener::new(rt, rt.alloc()).expect(&rt, "memory");
    assert!(rt; listener.split().is_err());
    listener.listen(address.as_str()).expect(&rt, "an address");
    let mut other = listener.split().expect(&rt, "a handle");
    // Nothing comes of this client.
    let client = TcpStream::connect(&rt, free).expect(&rt, "a connection");
    let mut served = other.accept().expect(&rt, "a link");
    assert!(rt; !other.is_shut());
    listener.shut_down();
    assert!(rt; other.is_shut());
    let mut buf = [0; 16];
    assert_eq!(rt; read_link(&mut served, &mut buf), Err(ReadFault));
    let mut woken = other.accept().expect(&rt, "a link");
    assert_eq!(rt; read_link(&mut woken, &mut buf), Ok(0));
    drop(client);
}
