// Both sides of a connection.
ghost use Rattle.std.specs.Prelude.{◌≡◌, ◌<◌, ◌≤◌, length, refl, IfOk, IfSome, OnErr, OnOk};
ghost use Rattle.cc_base.specs.Outside.{HasCause, IsNext, IsPrefixOut, after, appended};

use crate::{Failed, ReadFault, Sink, Source, WriteFault, read_some, write_all_of};

/// A source and a sink, each of which tells of the other what its own calls leave alone.
pub trait Link: Source + Sink {
    /// Beside the reading side lies the writing side.
    ghost beside_source: { (x : Self)
        → Self.Source.beside x ≡ (Self.Sink.faults x, Self.Sink.written x) };

    /// Beside the writing side lies the reading side.
    ghost beside_sink: { (x : Self)
        → Self.Sink.beside x ≡ (Self.Source.faults x, Self.Source.left x) };
}

/// A link of any source and any sink.
#[derive(Drop)]
pub struct Joined<S, K> {
    source: S,
    sink: K,
}

impl<S: Source, K: Sink> Joined<S, K> {
    /// The link that reads from this source and writes to this sink.
    pub fn new(source: S, sink: K) -> Self
        ensures source { result.source ≡ source }
        ensures sink { result.sink ≡ sink }
    {
        Joined { source, sink }
    }

    /// The reading side.
    pub fn source(&self) -> &S
        ensures { result.now ≡ self.now.source }
    {
        &self.source
    }

    /// The writing side.
    pub fn sink(&self) -> &K
        ensures { result.now ≡ self.now.sink }
    {
        &self.sink
    }
}

impl<S: Source, K: Sink> Source for Joined<S, K> {
    ghost faults = { λ j. S.faults j.source };

    ghost left = { λ j. S.left j.source };

    ghost beside = { λ j. (K.faults j.sink, K.written j.sink) };

    fn read(&mut self, buf: &mut [u8]) -> Result<usize, Failed> {
        self.source.read(buf)
    }
}

impl<S: Source, K: Sink> Sink for Joined<S, K> {
    ghost faults = { λ j. K.faults j.sink };

    ghost written = { λ j. K.written j.sink };

    ghost beside = { λ j. (S.faults j.source, S.left j.source) };

    fn write(&mut self, bytes: &[u8]) -> Result<usize, Failed> {
        self.sink.write(bytes)
    }
}

impl<S: Source, K: Sink> Link for Joined<S, K> {
    ghost beside_source = { λ _. refl };

    ghost beside_sink = { λ _. refl };
}

/// Reads once from a link, as [`read_some`] does. Nothing changes that is told of the writing side.
///
/// # Errors
///
/// `ReadFault` where the call failed. No byte is taken then.
pub fn read_link<L: Link>(link: &mut L, buf: &mut [u8]) -> Result<usize, ReadFault>
    // There is room to read to.
    requires { 0 < length buf.old }
    // An error is a fault that is counted.
    ensures cause { HasCause (L.Source.faults link.old) (L.Source.faults link.new) result }
    // What was read, and what is left.
    ensures fits { IfOk result (λ n. n ≤ length buf.new) }
    ensures next { IfOk result (λ n. IfSome (L.left link.old) (λ told. IsNext n buf.new told)) }
    ensures left { IfOk result (λ n. L.left link.new ≡ after n (L.left link.old)) }
    ensures failed { OnErr result (L.left link.new ≡ L.left link.old) }
    // Of the writing side nothing changes.
    ensures written { L.written link.new ≡ L.written link.old }
    ensures faults { L.Sink.faults link.new ≡ L.Sink.faults link.old }
{
    read_some(link, buf)
}

/// Writes all the bytes to a link, as [`write_all_of`] does. Nothing changes that is told of the
/// reading side.
///
/// # Errors
///
/// `WriteFault` where a call failed. The bytes up to there are out, and no others.
pub fn write_link<L: Link>(link: &mut L, bytes: &[u8]) -> Result<(), WriteFault>
    ensures cause { HasCause (L.Sink.faults link.old) (L.Sink.faults link.new) result }
    ensures written { OnOk result (L.written link.new ≡ appended (L.written link.old) bytes.now) }
    ensures prefix { OnErr result
        (IsPrefixOut (L.written link.old) (L.written link.new) bytes.now) }

    // the reading side
    ensures left { L.left link.new ≡ L.left link.old }
    ensures faults { L.Source.faults link.new ≡ L.Source.faults link.old }
{
    write_all_of(link, bytes)
}
