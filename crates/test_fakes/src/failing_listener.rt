// A listener that fails at chosen calls.
ghost use Rattle.std.specs.Prelude.{◌≡◌, ◌+◌, IfOk, IsErr, OnErr, OnOk};
ghost use Rattle.cc_base.specs.Outside.{HasCause, with_name};
ghost use Rattle.cluster_gate.specs.Failing.{CountsCall, IsListed};
ghost use Rattle.net_links.specs.Links.{IsFresh, IsUnused, with_link};

use cc_base::Failed;
use cluster_gate::FailingCalls;
use net_links::Listener;
use std::alloc::Global;

/// A listener of which some calls fail. Those do not reach what is inside.
///
/// The faults are those of what is inside, and one for each call that was made to fail.
#[derive(Drop)]
pub struct FailingListener<L> {
    alloc: Global,
    inner: L,
    calls: FailingCalls,
}

impl<L> FailingListener<L> {
    /// The calls with these numbers are to fail, whether they listen, accept or split. The first call has
    /// the number 0, and an empty list lets every call through.
    pub fn new(inner: L, calls: Vec<u64>) -> Self
        ensures inner { result.inner ≡ inner }
        ensures listed { result.calls.listed.items ≡ calls.items }
        ensures made { result.calls.made ≡ 0 }
        ensures faults { result.calls.faults ≡ 0 }
    {
        FailingListener {
            alloc: *calls.allocator(),
            inner,
            calls: FailingCalls::new(calls, 0),
        }
    }

    /// What is inside.
    pub fn inner(&self) -> &L
        ensures { result.now ≡ self.now.inner }
    {
        &self.inner
    }
}

impl<L: Listener> Listener for FailingListener<L> {
    type Conn = L::Conn;

    ghost faults = { λ f. L.faults f.inner + f.calls.faults };

    ghost accepted = { λ f. L.accepted f.inner };

    ghost heard = { λ f. L.heard f.inner };

    fn listen(&mut self, address: &str) -> Result<(), Failed>
        ensures fails { IsListed self.old.calls → IsErr result }
        ensures kept { IsListed self.old.calls → self.new.inner ≡ self.old.inner }
        ensures counts { CountsCall self.old.calls self.new.calls }
        ensures cause { HasCause (⟦<Self as Listener>⟧.faults self.old)
            (⟦<Self as Listener>⟧.faults self.new) result }
        // A listed call hears nothing.
        ensures heard { OnOk result
            (L.heard self.new.inner ≡ with_name (L.heard self.old.inner) address.now) }
        ensures unheard { OnErr result (L.heard self.new.inner ≡ L.heard self.old.inner) }
        ensures accepted { L.accepted self.new.inner ≡ L.accepted self.old.inner }
    {
        if self.calls.next_fails() {
            return Err(Failed);
        }
        self.inner.listen(address)
    }

    fn accept(&mut self) -> Result<L::Conn, Failed>
        // A listed call fails, and reaches nothing.
        ensures fails { IsListed self.old.calls → IsErr result }
        ensures kept { IsListed self.old.calls → self.new.inner ≡ self.old.inner }
        // Calls are counted, and so are faults.
        ensures counts { CountsCall self.old.calls self.new.calls }
        ensures cause { HasCause (⟦<Self as Listener>⟧.faults self.old)
            (⟦<Self as Listener>⟧.faults self.new) result }
        ensures heard { L.heard self.new.inner ≡ L.heard self.old.inner }
        // What was accepted, which is fresh; a failure accepts nothing.
        ensures accepted { IfOk result
            (λ link. L.accepted self.new.inner
            ≡ with_link (L.accepted self.old.inner)
            (record {
              source_faults = L.Conn.Source.faults link;
              sink_faults = L.Conn.Sink.faults link;
              left = L.Conn.left link;
            })) }
        ensures fresh { IfOk result (λ link. IsFresh (L.Conn.written link)) }
        ensures failed { OnErr result (L.accepted self.new.inner ≡ L.accepted self.old.inner) }
    {
        if self.calls.next_fails() {
            return Err(Failed);
        }
        self.inner.accept()
    }

    /// The other handle has no call that is to fail.
    fn split(&mut self) -> Result<Self, Failed>
        ensures fails { IsListed self.old.calls → IsErr result }
        ensures kept { IsListed self.old.calls → self.new.inner ≡ self.old.inner }
        ensures counts { CountsCall self.old.calls self.new.calls }
        ensures cause { HasCause (⟦<Self as Listener>⟧.faults self.old)
            (⟦<Self as Listener>⟧.faults self.new) result }
        ensures heard { L.heard self.new.inner ≡ L.heard self.old.inner }
        ensures accepted { L.accepted self.new.inner ≡ L.accepted self.old.inner }
        ensures unused { IfOk result
            (λ l. IsUnused (⟦<Self as Listener>⟧.faults l) (L.accepted l.inner)) }
    {
        if self.calls.next_fails() {
            return Err(Failed);
        }
        let inner = self.inner.split()?;
        Ok(FailingListener::new(inner, Vec::new(self.alloc)))
    }

    fn shut_down(&self) {
        self.inner.shut_down();
    }

    fn is_shut(&self) -> bool {
        self.inner.is_shut()
    }
}
