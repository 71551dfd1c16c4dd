// Links, copiers and listeners in memory, of whose calls some fail.
ghost use Rattle.std.specs.Prelude.{◌≡◌, [], Some};
ghost use Rattle.test_fakes.specs.Handed.{AreFresh};

use cc_base::{Failed, Joined, Sink, Source};
use cluster_gate::{FailingCopier, MemoryCopier};
use std::alloc::Global;
use std::process::Abort;
use test_fakes::{Failing, FailingListener, MemoryListener, MemorySink, MemorySource};

/// A link, of whose reads and writes some fail. The first of each has the number 0.
pub type TestLink = Joined<Failing<MemorySource>, Failing<MemorySink>>;

/// A copier, of whose copies some fail. The first has the number 1.
pub type TestCopier = FailingCopier<MemoryCopier>;

/// A listener, of whose calls some fail. The first, which listens, has the number 0, and those
/// behind it accept.
pub type TestListener = FailingListener<MemoryListener<TestLink>>;

fn numbers<R: Abort>(rt: &R, alloc: Global, numbers: &[u64]) -> Vec<u64> {
    numbers.to_vec(alloc).expect(rt, "memory")
}

/// A link that asks this.
pub fn link_of<R: Abort>(
    rt: &R,
    alloc: Global,
    asks: &str,
    failing_reads: &[u64],
    failing_writes: &[u64],
) -> TestLink
    ensures fresh { ⟦<TestLink as Sink>⟧.written result ≡ Some [] }
{
    let source = MemorySource::new(asks.as_bytes().to_vec(alloc).expect(rt, "memory"));
    let source = Failing::new(source, numbers(rt, alloc, failing_reads));
    let sink = Failing::new(MemorySink::new(alloc), numbers(rt, alloc, failing_writes));
    Joined::new(source, sink)
}

/// A link that asks nothing.
pub fn silent_link<R: Abort>(rt: &R, alloc: Global) -> TestLink {
    link_of(rt, alloc, "", &[], &[])
}

/// What was written to a link.
pub fn told(link: &TestLink) -> &[u8] {
    link.sink().inner().bytes()
}

/// A copier.
pub fn copier_of<R: Abort>(rt: &R, alloc: Global, failing: &[u64]) -> TestCopier {
    FailingCopier::new(MemoryCopier::new(alloc), numbers(rt, alloc, failing))
}

/// So many copiers of which no copy fails.
pub fn copiers_of<R: Abort>(rt: &R, alloc: Global, count: u32) -> Vec<TestCopier> {
    let mut copiers = Vec::new(alloc);
    for _ in 0..count {
        let copier = copier_of(rt, alloc, &[]);
        copiers.push(copier).expect(rt, "memory");
    }
    copiers
}

/// A listener with these links.
pub fn listener_of<R: Abort>(
    rt: &R,
    alloc: Global,
    links: Vec<TestLink>,
    failing: &[u64],
) -> TestListener
    requires { AreFresh ⟦<TestLink as Sink>⟧.written links.items }
{
    FailingListener::new(MemoryListener::new(links), numbers(rt, alloc, failing))
}

/// A listener without links.
pub fn silent_listener<R: Abort>(rt: &R, alloc: Global) -> TestListener {
    listener_of(rt, alloc, Vec::new(alloc), &[])
}

/// A source that gives one byte by each read.
#[derive(Drop)]
pub struct ByteByByte {
    inner: MemorySource,
}

impl Source for ByteByByte {
    ghost faults = { λ s. ⟦<MemorySource as Source>⟧.faults s.inner };

    ghost left = { λ s. ⟦<MemorySource as Source>⟧.left s.inner };

    ghost beside = { λ s. ⟦<MemorySource as Source>⟧.beside s.inner };

    fn read(&mut self, buf: &mut [u8]) -> Result<usize, Failed> {
        self.inner.read(&mut buf[..1])
    }
}

/// A link that asks this byte by byte, until the read with this number fails. The first has the
/// number 0.
pub fn slow_link_of<R: Abort>(
    rt: &R,
    alloc: Global,
    asks: &str,
    failing: u64,
) -> Joined<Failing<ByteByByte>, MemorySink> {
    let inner = MemorySource::new(asks.as_bytes().to_vec(alloc).expect(rt, "memory"));
    let source = Failing::new(ByteByByte { inner }, numbers(rt, alloc, &[failing]));
    Joined::new(source, MemorySink::new(alloc))
}
