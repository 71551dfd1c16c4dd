// A listener and links over the system's sockets. Nothing is told of them. Each failure is counted,
// by a count that stays at its greatest value.
ghost use Rattle.std.specs.Prelude.{◌≡◌, ◌≤◌, ◌<◌, None, refl, length, take, IfOk, IfSome, IsErr, IsSome, OnErr, OnOk};
ghost use Rattle.std.specs.Io.{ReadsAtMost};
ghost use Rattle.std.specs.Io.KnownBytes.{Appends, Consumes, IsAtEnd, ReadConsumes};
ghost use Rattle.net_links.specs.Links.{IsFresh, IsUnused, with_link};
ghost use Rattle.cc_base.specs.Outside.{HasCause, IsNext, after, appended, with_name};

use crate::connection::Connection;
use crate::listener::Listener;
use cc_base::{Failed, Link, Sink, Source};
use std::alloc::{AllocError, Global};
use std::io::{self, Read, Write};
use std::net::{Net, OpenListener, OpenStream, Shutdown, TcpListener, TcpStream};
use std::sync::Arc;
use std::sync::atomic::{AtomicBool, Ordering};
use std::time::Duration;

// What is still thrown away of a connection that is closed: so many reads of so many bytes, each of
// which waits no longer than so many seconds.
const LAST_READS: u32 = 32;

const LAST_READ_BYTES: usize = 32_768;

const LAST_READ_SECONDS: u64 = 1;

// A read waits so many seconds before it looks whether a shutdown was asked, and so many times at
// most, which is longer than any machine runs.
const READ_SECONDS: u64 = 1;

const READS: u32 = u32::MAX;

// So often a thread that waits for a link is tried to be woken.
const WAKES: u32 = 16;

// Reads. Where nothing came for some time, it reads again, unless a shutdown was asked.
fn read_until<S: Read>(stream: &mut S, shut: &AtomicBool, buf: &mut [u8]) -> io::Result<usize>
    ensures bound { ReadsAtMost result buf.new }
    ensures bytes { ReadConsumes (S.remaining stream.old) (S.remaining stream.new) result buf.new }
{
    for _ in 0..READS {
        match stream.read(buf) {
            Err(fault)
                if fault.kind() == io::ErrorKind::WouldBlock && !shut.load(Ordering::SeqCst) => {}
            read => return read,
        }
    }
    Err(io::Error::from(io::ErrorKind::TimedOut))
}

/// A connection of the system. Nothing is told of its bytes, and a call that was interrupted
/// (`ErrorKind::Interrupted`) counts as a fault, as does a read after the other side reset the
/// connection, a write that takes none of some bytes, and any call after it was closed here.
#[derive(Drop)]
pub struct HostLink<S> {
    // None once it was closed.
    stream: Option<S>,
    // A shutdown was asked.
    shut: Arc<AtomicBool, Global>,
    source_faults: u64,
    sink_faults: u64,
}

impl<S: Read + Write> HostLink<S> {
    // A link over this stream, which waits for no further bytes once a shutdown was asked. Where
    // the stream's reads end after some time, it is asked again until then.
    fn new(stream: S, shut: Arc<AtomicBool, Global>) -> Self
        ensures source { ⟦<Self as Source>⟧.faults result ≡ 0 }
        ensures sink { ⟦<Self as Sink>⟧.faults result ≡ 0 }
    {
        HostLink {
            stream: Some(stream),
            shut,
            source_faults: 0,
            sink_faults: 0,
        }
    }
}

impl<S: Read + Write> Source for HostLink<S> {
    ghost faults = { λ link. link.source_faults };

    ghost left = { λ _. None };

    ghost beside = { λ link. (link.sink_faults, None) };

    fn read(&mut self, buf: &mut [u8]) -> Result<usize, Failed>
        // The stream's next bytes, and none only at its end.
        ensures stream { IfOk result
            (λ n. IfSome self.old.stream (λ s. IfSome self.new.stream
            (λ t. Consumes (S.remaining s) (S.remaining t) (take n buf.new)
            × (n ≡ 0 → 0 < length buf.new → IsAtEnd (S.remaining t))))) }
        ensures closed { self.old.stream ≡ None → IsErr result }
        // Each fault is counted once.
        ensures cause { HasCause self.old.source_faults self.new.source_faults result }
        ensures fits { IfOk result (λ n. n ≤ length buf.new) }
        // Nothing is told.
        ensures next { IfOk result
            (λ n. IfSome (⟦<Self as Source>⟧.left self.old) (λ told. IsNext n buf.new told)) }
        ensures left { IfOk result
            (λ n. ⟦<Self as Source>⟧.left self.new ≡ after n (⟦<Self as Source>⟧.left self.old)) }
        ensures failed { OnErr result
            (⟦<Self as Source>⟧.left self.new ≡ ⟦<Self as Source>⟧.left self.old) }
        ensures beside { self.new.sink_faults ≡ self.old.sink_faults }
    {
        let read = match &mut self.stream {
            Some(stream) => read_until(stream, &self.shut, buf),
            None => Err(io::Error::from(io::ErrorKind::NotConnected)),
        };
        match read {
            Ok(n) => Ok(n),
            Err(_) => {
                self.source_faults = self.source_faults.saturating_add(1);
                Err(Failed)
            }
        }
    }
}

impl<S: Read + Write> Sink for HostLink<S> {
    ghost faults = { λ link. link.sink_faults };

    ghost written = { λ _. None };

    ghost beside = { λ link. (link.source_faults, None) };

    fn write(&mut self, bytes: &[u8]) -> Result<usize, Failed>
        // So many bytes go to the stream.
        ensures stream { IfOk result
            (λ n. IfSome self.old.stream (λ s. IfSome self.new.stream
            (λ t. Appends (S.contents s) (S.contents t) (take n bytes.now)))) }
        ensures closed { self.old.stream ≡ None → IsErr result }
        // Each fault is counted once.
        ensures cause { HasCause self.old.sink_faults self.new.sink_faults result }
        ensures fits { IfOk result (λ n. n ≤ length bytes.now) }
        ensures some { IfOk result (λ n. 0 < length bytes.now → 0 < n) }
        // Nothing is told.
        ensures written { IfOk result
            (λ n. ⟦<Self as Sink>⟧.written self.new
            ≡ appended (⟦<Self as Sink>⟧.written self.old) (take n bytes.now)) }
        ensures failed { OnErr result
            (⟦<Self as Sink>⟧.written self.new ≡ ⟦<Self as Sink>⟧.written self.old) }
        ensures beside { self.new.source_faults ≡ self.old.source_faults }
    {
        let written = match &mut self.stream {
            Some(stream) => stream.write(bytes),
            None => Err(io::Error::from(io::ErrorKind::NotConnected)),
        };
        match written {
            Ok(n) if n > 0 || bytes.is_empty() => Ok(n),
            _ => {
                self.sink_faults = self.sink_faults.saturating_add(1);
                Err(Failed)
            }
        }
    }
}

impl<S: Read + Write> Link for HostLink<S> {
    ghost beside_source = { λ _. refl };

    ghost beside_sink = { λ _. refl };
}

// Tells the other side that nothing more comes, and throws away what it still sends, up to a bound:
// a connection that is let go with bytes that weren't read is reset, and the other side may then
// lose the last reply (RFC 9112, section 9.6).
fn linger<S: Read + OpenStream>(stream: &mut S) {
    if stream.shutdown(Shutdown::Write).is_err() {
        return;
    }
    let wait = Duration::from_secs(LAST_READ_SECONDS);
    if stream.set_read_timeout(Some(wait)).is_err() {
        return;
    }
    let mut buf = [0; LAST_READ_BYTES];
    for _ in 0..LAST_READS {
        match stream.read(&mut buf) {
            Ok(n) if n > 0 => {}
            _ => return,
        }
    }
}

impl<S: Read + Write + OpenStream + Drop> Connection for HostLink<S> {
    /// The other side has read the end, or so many of its bytes were thrown away.
    fn close(&mut self)
        ensures closed { self.new.stream ≡ None }
        ensures left { ⟦<Self as Source>⟧.left self.new ≡ ⟦<Self as Source>⟧.left self.old }
        ensures written { ⟦<Self as Sink>⟧.written self.new ≡ ⟦<Self as Sink>⟧.written self.old }
        ensures source { self.new.source_faults ≡ self.old.source_faults }
        ensures sink { self.new.sink_faults ≡ self.old.sink_faults }
    {
        if let Some(mut stream) = self.stream.take() {
            linger(&mut stream);
        }
    }
}

/// A listener of the system. Nothing is told of the links that it accepted, and a call that was
/// interrupted (`ErrorKind::Interrupted`) counts as a fault.
#[derive(Drop)]
pub struct HostListener<R: Net> {
    rt: R,
    // A shutdown was asked. The handles and the links share it.
    shut: Arc<AtomicBool, Global>,
    listener: Option<R::Listener>,
    faults: u64,
}

impl<R: Net + Copy> HostListener<R> {
    /// A listener on the network that this runtime reaches. It has no address yet.
    ///
    /// # Errors
    ///
    /// `AllocError` where there is no memory for what it shares with its links.
    pub fn new(rt: R, alloc: Global) -> Result<Self, AllocError>
        ensures { IfOk result (λ l. ⟦<Self as Listener>⟧.faults l ≡ 0) }
    {
        Ok(HostListener {
            rt,
            shut: Arc::new(alloc, AtomicBool::new(false))?,
            listener: None,
            faults: 0,
        })
    }

    // What listens.
    fn bound(&self) -> io::Result<&R::Listener>
        ensures { self.now.listener ≡ None → IsErr result }
    {
        self.listener
            .as_ref()
            .ok_or(io::Error::from(io::ErrorKind::NotConnected))
    }

    // The next connection, where there is an address.
    fn next_link(&self) -> io::Result<HostLink<R::Stream>>
        ensures unbound { self.now.listener ≡ None → IsErr result }
        ensures faults { IfOk result
            (λ link. (link.source_faults ≡ 0) × (link.sink_faults ≡ 0)) }
    {
        let (stream, _) = self.bound()?.accept()?;
        stream.set_read_timeout(Some(Duration::from_secs(READ_SECONDS)))?;
        Ok(HostLink::new(stream, Arc::try_clone(&self.shut)?))
    }

    // Another handle, where there is an address.
    fn other(&self) -> io::Result<Self>
        ensures unbound { self.now.listener ≡ None → IsErr result }
        ensures faults { IfOk result (λ l. l.faults ≡ 0) }
    {
        let listener = self.bound()?.try_clone()?;
        Ok(HostListener {
            rt: self.rt,
            shut: Arc::try_clone(&self.shut)?,
            listener: Some(listener),
            faults: 0,
        })
    }

    // A connection to what listens, which is let go at once.
    fn wake(&self) -> io::Result<()> {
        let address = self.bound()?.local_addr()?;
        drop(TcpStream::connect(&self.rt, address)?);
        Ok(())
    }
}

impl<R: Net + Copy> Listener for HostListener<R> {
    type Conn = HostLink<R::Stream>;

    ghost faults = { λ listener. listener.faults };

    ghost accepted = { λ _. None };

    ghost heard = { λ _. None };

    /// Where the call fails, an earlier address is kept.
    fn listen(&mut self, address: &str) -> Result<(), Failed>
        ensures bound { OnOk result (IsSome self.new.listener) }
        ensures heard { OnOk result
            (⟦<Self as Listener>⟧.heard self.new
            ≡ with_name (⟦<Self as Listener>⟧.heard self.old) address.now) }
        ensures unheard { OnErr result
            (⟦<Self as Listener>⟧.heard self.new ≡ ⟦<Self as Listener>⟧.heard self.old) }
        ensures cause { HasCause self.old.faults self.new.faults result }
        ensures accepted { ⟦<Self as Listener>⟧.accepted self.new
            ≡ ⟦<Self as Listener>⟧.accepted self.old }
    {
        match TcpListener::bind(&self.rt, address) {
            Ok(listener) => {
                self.listener = Some(listener);
                Ok(())
            }
            Err(_) => {
                self.faults = self.faults.saturating_add(1);
                Err(Failed)
            }
        }
    }

    /// Waits for a link. Fails where [`listen`](Self::listen) never went through.
    fn accept(&mut self) -> Result<HostLink<R::Stream>, Failed>
        ensures unbound { self.old.listener ≡ None → IsErr result }
        ensures cause { HasCause self.old.faults self.new.faults result }
        ensures accepted { IfOk result
            (λ link. ⟦<Self as Listener>⟧.accepted self.new
            ≡ with_link (⟦<Self as Listener>⟧.accepted self.old)
            (record {
              source_faults = ⟦<HostLink<R::Stream> as Source>⟧.faults link;
              sink_faults = ⟦<HostLink<R::Stream> as Sink>⟧.faults link;
              left = ⟦<HostLink<R::Stream> as Source>⟧.left link;
            })) }
        ensures fresh { IfOk result
            (λ link. IsFresh (⟦<HostLink<R::Stream> as Sink>⟧.written link)) }
        ensures failed { OnErr result
            (⟦<Self as Listener>⟧.accepted self.new ≡ ⟦<Self as Listener>⟧.accepted self.old) }
    {
        match self.next_link() {
            Ok(link) => Ok(link),
            Err(_) => {
                self.faults = self.faults.saturating_add(1);
                Err(Failed)
            }
        }
    }

    /// Fails where [`listen`](Self::listen) never went through.
    fn split(&mut self) -> Result<Self, Failed>
        ensures unbound { self.old.listener ≡ None → IsErr result }
        ensures cause { HasCause self.old.faults self.new.faults result }
        ensures accepted { ⟦<Self as Listener>⟧.accepted self.new
            ≡ ⟦<Self as Listener>⟧.accepted self.old }
        ensures unused { IfOk result
            (λ l. IsUnused l.faults (⟦<Self as Listener>⟧.accepted l)) }
    {
        match self.other() {
            Ok(other) => Ok(other),
            Err(_) => {
                self.faults = self.faults.saturating_add(1);
                Err(Failed)
            }
        }
    }

    /// A thread that waits for a link is woken by a connection to the address; it wakes the next.
    fn shut_down(&self) {
        self.shut.store(true, Ordering::SeqCst);
        for _ in 0..WAKES {
            if self.wake().is_ok() {
                return;
            }
        }
    }

    fn is_shut(&self) -> bool {
        self.shut.load(Ordering::SeqCst)
    }
}
