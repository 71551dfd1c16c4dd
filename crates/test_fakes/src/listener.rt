// A listener over links in memory. It tells what it handed out.
ghost use Rattle.std.specs.Prelude.{◌≡◌, ◌↔◌, [], ◌∷◌, ◌++◌, None, Some, map, IfOk, IsErr, IsOk, OnErr, OnOk};
ghost use Rattle.std.specs.Vec.Iter.{into_iter_items};
ghost use Rattle.cc_base.specs.Outside.{HasCause, HasRisen};
ghost use Rattle.net_links.specs.Links.{IsFresh, IsUnused, with_link};
ghost use Rattle.test_fakes.specs.Handed.{AreFresh, accepted_link, handed_out};

use cc_base::{Failed, Link};
use net_links::{Connection, Listener};
use std::alloc::Global;
use std::snapshot::Snapshot;
use std::vec::IntoIter;

/// Links that wait to be accepted. A call fails only where none waits.
#[derive(Drop)]
pub struct MemoryListener<C: Link> {
    alloc: Global,
    waiting: IntoIter<C>,
    given: Snapshot<Vec<C>>,
    faults: u64,
    ghost fresh: { ∥ AreFresh C.written (into_iter_items waiting) ∥₁ },
    ghost rest: { ∥ given.value.items
        ≡ handed_out given.value.items (into_iter_items waiting) ++ into_iter_items waiting ∥₁ },
}

impl<C: Connection> MemoryListener<C> {
    /// A listener that hands out these links, in their order. Nothing was written to any of them.
    pub fn new(links: Vec<C>) -> Self
        requires { AreFresh C.written links.items }
        ensures accepted { ⟦<Self as Listener>⟧.accepted result ≡ Some [] }
        ensures waiting { into_iter_items result.waiting ≡ links.items }
        ensures faults { ⟦<Self as Listener>⟧.faults result ≡ 0 }
    {
        let given = Snapshot::of(&links);
        MemoryListener {
            alloc: *links.allocator(),
            waiting: links.into_iter(),
            given,
            faults: 0,
        }
    }
}

impl<C: Connection> Listener for MemoryListener<C> {
    type Conn = C;

    ghost faults = { λ m. m.faults };

    ghost accepted = { λ m. Some
        (map (accepted_link C.Source.faults C.Sink.faults C.left)
        (handed_out m.given.value.items (into_iter_items m.waiting))) };

    ghost heard = { λ _. None };

    /// Never fails. Whatever the address, the same links wait.
    fn listen(&mut self, address: &str) -> Result<(), Failed>
        ensures never { IsOk result }
        ensures kept { self.new ≡ self.old }
        ensures cause { HasCause self.old.faults self.new.faults result }
        ensures accepted { ⟦<Self as Listener>⟧.accepted self.new
            ≡ ⟦<Self as Listener>⟧.accepted self.old }
    {
        let _ = address;
        Ok(())
    }

    fn accept(&mut self) -> Result<C, Failed>
        ensures next { IfOk result
            (λ link. into_iter_items self.old.waiting ≡ link ∷ into_iter_items self.new.waiting) }
        ensures none { IsErr result ↔ (into_iter_items self.old.waiting ≡ []) }
        ensures cause { HasCause self.old.faults self.new.faults result }
        ensures accepted { IfOk result
            (λ link. ⟦<Self as Listener>⟧.accepted self.new
            ≡ with_link (⟦<Self as Listener>⟧.accepted self.old)
            (record {
              source_faults = C.Source.faults link;
              sink_faults = C.Sink.faults link;
              left = C.left link;
            })) }
        ensures fresh { IfOk result (λ link. IsFresh (C.written link)) }
        ensures failed { OnErr result
            (⟦<Self as Listener>⟧.accepted self.new ≡ ⟦<Self as Listener>⟧.accepted self.old) }
    {
        match self.waiting.next() {
            Some(link) => Ok(link),
            None => {
                self.faults = self.faults.saturating_add(1);
                Err(Failed)
            }
        }
    }

    /// Never fails. All links wait at the first handle.
    fn split(&mut self) -> Result<Self, Failed>
        ensures never { IsOk result }
        ensures kept { self.new ≡ self.old }
        ensures cause { HasCause self.old.faults self.new.faults result }
        ensures accepted { ⟦<Self as Listener>⟧.accepted self.new
            ≡ ⟦<Self as Listener>⟧.accepted self.old }
        ensures unused { IfOk result
            (λ l. IsUnused l.faults (⟦<Self as Listener>⟧.accepted l)) }
    {
        Ok(MemoryListener::new(Vec::new(self.alloc)))
    }

    /// Does nothing: the links that wait are accepted all the same.
    fn shut_down(&self) {}

    /// Whether no link waits.
    fn is_shut(&self) -> bool {
        self.waiting.len() == 0
    }
}
