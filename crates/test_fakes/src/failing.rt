// What fails at chosen calls.
ghost use Rattle.std.specs.Prelude.{◌≡◌, ◌≤◌, ◌<◌, ◌+◌, length, take, IfOk, IfSome, IsErr, IsErrOf, OnErr};
ghost use Rattle.cc_base.specs.Outside.{HasCause, HasRisen, IsLogged, IsNext, after, appended};
ghost use Rattle.cluster_gate.specs.Failing.{CountsCall, IsListed};

use cc_base::{Failed, FileFault, Files, Sink, Source};
use cluster_gate::FailingCalls;
use std::alloc::Global;

/// A source, a sink or files, of which some calls fail. Those do not reach what is inside.
///
/// The faults are those of what is inside, and one for each call that was made to fail.
#[derive(Drop)]
pub struct Failing<T> {
    inner: T,
    calls: FailingCalls,
}

impl<T> Failing<T> {
    /// The calls with these numbers are to fail. The first call has the number 0, and an empty list
    /// lets every call through.
    pub fn new(inner: T, calls: Vec<u64>) -> Self
        ensures inner { result.inner ≡ inner }
        ensures listed { result.calls.listed.items ≡ calls.items }
        ensures made { result.calls.made ≡ 0 }
        ensures faults { result.calls.faults ≡ 0 }
    {
        Failing {
            inner,
            calls: FailingCalls::new(calls, 0),
        }
    }

    /// What is inside.
    pub fn inner(&self) -> &T
        ensures { result.now ≡ self.now.inner }
    {
        &self.inner
    }
}

impl<T: Source> Source for Failing<T> {
    ghost faults = { λ f. T.faults f.inner + f.calls.faults };

    ghost left = { λ f. T.left f.inner };

    ghost beside = { λ f. T.beside f.inner };

    fn read(&mut self, buf: &mut [u8]) -> Result<usize, Failed>
        // There is room to read to.
        requires { 0 < length buf.old }
        // A call that is to fail does, and reads nothing. Each call is counted.
        ensures fails { IsListed self.old.calls → IsErr result }
        ensures kept { IsListed self.old.calls → self.new.inner ≡ self.old.inner }
        ensures counts { CountsCall self.old.calls self.new.calls }
        // It fails in no other way than the source does, and each fault is counted.
        ensures cause { HasCause (⟦<Self as Source>⟧.faults self.old)
            (⟦<Self as Source>⟧.faults self.new) result }
        // What came is the next of what was left.
        ensures fits { IfOk result (λ n. n ≤ length buf.new) }
        ensures next { IfOk result
            (λ n. IfSome (T.left self.old.inner) (λ told. IsNext n buf.new told)) }
        ensures left { IfOk result (λ n. T.left self.new.inner ≡ after n (T.left self.old.inner)) }
        // A fault loses nothing.
        ensures failed { OnErr result (T.left self.new.inner ≡ T.left self.old.inner) }
        ensures beside { T.beside self.new.inner ≡ T.beside self.old.inner }
    {
        if self.calls.next_fails() {
            return Err(Failed);
        }
        self.inner.read(buf)
    }
}

impl<T: Sink> Sink for Failing<T> {
    ghost faults = { λ f. T.faults f.inner + f.calls.faults };

    ghost written = { λ f. T.written f.inner };

    ghost beside = { λ f. T.beside f.inner };

    fn write(&mut self, bytes: &[u8]) -> Result<usize, Failed>
        // A call that is to fail does, and writes nothing. Each call is counted.
        ensures fails { IsListed self.old.calls → IsErr result }
        ensures kept { IsListed self.old.calls → self.new.inner ≡ self.old.inner }
        ensures counts { CountsCall self.old.calls self.new.calls }
        // It fails in no other way than the sink does, and each fault is counted.
        ensures cause { HasCause (⟦<Self as Sink>⟧.faults self.old)
            (⟦<Self as Sink>⟧.faults self.new) result }
        // What is out is a prefix of the bytes.
        ensures fits { IfOk result (λ n. n ≤ length bytes.now) }
        ensures some { IfOk result (λ n. 0 < length bytes.now → 0 < n) }
        ensures written { IfOk result
            (λ n. T.written self.new.inner
            ≡ appended (T.written self.old.inner) (take n bytes.now)) }
        // A fault writes nothing.
        ensures failed { OnErr result (T.written self.new.inner ≡ T.written self.old.inner) }
        ensures beside { T.beside self.new.inner ≡ T.beside self.old.inner }
    {
        if self.calls.next_fails() {
            return Err(Failed);
        }
        self.inner.write(bytes)
    }
}

impl<T: Files> Files for Failing<T> {
    ghost faults = { λ f. T.faults f.inner + f.calls.faults };

    ghost contents = { λ f. T.contents f.inner };

    ghost log = { λ f. T.log f.inner };

    fn load(&mut self, alloc: Global, name: &str) -> Result<Vec<u8>, FileFault>
        // A call that is to fail does, and loads nothing. Each call is counted.
        ensures fails { IsListed self.old.calls → IsErrOf result FileFault.Failed }
        ensures kept { IsListed self.old.calls → self.new.inner ≡ self.old.inner }
        ensures counts { CountsCall self.old.calls self.new.calls }
        // It fails in no other way than the files do, and each fault is counted.
        ensures later { ⟦<Self as Files>⟧.faults self.old ≤ ⟦<Self as Files>⟧.faults self.new }
        ensures cause { IsErrOf result FileFault.Failed
            → HasRisen (⟦<Self as Files>⟧.faults self.old) (⟦<Self as Files>⟧.faults self.new) }
        // What is loaded is the file.
        ensures bytes { IfOk result
            (λ v. IfSome (T.contents self.old.inner name.now) (λ told. v.items ≡ told)) }
        ensures long { IfOk result (λ v. length v.items ≤ 67108864) }
        // No file changes, and what was loaded is told.
        ensures contents { T.contents self.new.inner ≡ T.contents self.old.inner }
        ensures logged { IsLogged (T.log self.old.inner) (T.log self.new.inner) name.now result }
    {
        if self.calls.next_fails() {
            return Err(FileFault::Failed);
        }
        self.inner.load(alloc, name)
    }
}
