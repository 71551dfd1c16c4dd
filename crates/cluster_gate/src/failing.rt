// An admin and a copier that fail at chosen calls.
ghost use Rattle.std.specs.Prelude.{◌≡◌, ◌≤◌, ◌<◌, ◌+◌, length, IsErr, IsErrOf, OnOk, OnErr};
ghost use Rattle.cc_base.specs.Outside.{HasCause, HasRisen};
ghost use Rattle.cluster_gate.specs.Calls.{with_call};
ghost use Rattle.cluster_gate.specs.Calls as call;
ghost use Rattle.cluster_gate.specs.Copies.{with_copy};
ghost use Rattle.cluster_gate.specs.Failing.{CountsCall, IsListed};
ghost use Rattle.cluster_gate.specs.Lists.{installed, with_list};

use crate::admin::{Admin, InstallFault};
use crate::calls::FailingCalls;
use crate::copier::{Copier, CopyFault};
use cc_base::Failed;
use load_model::Assign;
use std::alloc::Global;

/// An admin of which some calls fail. Those do not reach what is inside.
#[derive(Drop)]
pub struct FailingAdmin<A> {
    inner: A,
    calls: FailingCalls,
}

impl<A> FailingAdmin<A> {
    /// The calls with these numbers are to fail. The first call has the number 1.
    pub fn new(inner: A, calls: Vec<u64>) -> Self
        ensures inner { result.inner ≡ inner }
        ensures listed { result.calls.listed.items ≡ calls.items }
        ensures made { result.calls.made ≡ 1 }
        ensures faults { result.calls.faults ≡ 0 }
    {
        FailingAdmin {
            inner,
            calls: FailingCalls::new(calls, 1),
        }
    }

    /// What is inside.
    pub fn inner(&self) -> &A
        ensures { result.now ≡ self.now.inner }
    {
        &self.inner
    }
}

impl<A: Admin> Admin for FailingAdmin<A> {
    ghost faults = { λ f. A.faults f.inner + f.calls.faults };

    ghost parts = { λ f. A.parts f.inner };

    ghost told = { λ f. A.told f.inner };

    ghost calls = { λ f. A.calls f.inner };

    fn install(&mut self, alloc: Global, lists: &Assign) -> Result<(), InstallFault>
        // A call that is to fail does, and installs nothing. Each call is counted.
        ensures fails { IsListed self.old.calls → IsErrOf result InstallFault.Failed }
        ensures kept { IsListed self.old.calls → self.new.inner ≡ self.old.inner }
        ensures counts { CountsCall self.old.calls self.new.calls }
        // It fails in no other way than the cluster does, and each fault is counted.
        ensures later { ⟦<Self as Admin>⟧.faults self.old ≤ ⟦<Self as Admin>⟧.faults self.new }
        ensures cause { IsErrOf result InstallFault.Failed
            → HasRisen (⟦<Self as Admin>⟧.faults self.old) (⟦<Self as Admin>⟧.faults self.new) }
        ensures counted { (IsErrOf result InstallFault.Failed → ⊥)
            → ⟦<Self as Admin>⟧.faults self.new ≡ ⟦<Self as Admin>⟧.faults self.old }
        // The lists are those that were given, or stay as they were.
        ensures parts { OnOk result (A.parts self.new.inner ≡ length lists.now) }
        ensures lists { OnOk result
            (A.told self.new.inner ≡ installed (A.told self.old.inner) lists.now) }
        ensures called { OnOk result (A.calls self.new.inner
            ≡ with_call (A.calls self.old.inner) (call.installed lists.now)) }
        ensures failed { OnErr result
            ((A.parts self.new.inner ≡ A.parts self.old.inner)
            × (A.told self.new.inner ≡ A.told self.old.inner)
            × (A.calls self.new.inner ≡ A.calls self.old.inner)) }
    {
        if self.calls.next_fails() {
            return Err(InstallFault::Failed);
        }
        self.inner.install(alloc, lists)
    }

    fn begin(&mut self, part: u32, union: &[u32]) -> Result<(), Failed>
        // The partition is one of the cluster, and the list is a short one.
        requires installed { part < A.parts self.old.inner }
        requires few { length union.now ≤ 16 }
        // A call that is to fail does, and writes nothing. Each call is counted.
        ensures fails { IsListed self.old.calls → IsErr result }
        ensures kept { IsListed self.old.calls → self.new.inner ≡ self.old.inner }
        ensures counts { CountsCall self.old.calls self.new.calls }
        // It fails in no other way than the cluster does, and each fault is counted.
        ensures cause { HasCause (⟦<Self as Admin>⟧.faults self.old)
            (⟦<Self as Admin>⟧.faults self.new) result }
        // One list is the one that was given, or all stay as they were.
        ensures parts { A.parts self.new.inner ≡ A.parts self.old.inner }
        ensures lists { OnOk result
            (A.told self.new.inner ≡ with_list (A.told self.old.inner) part union.now) }
        ensures called { OnOk result (A.calls self.new.inner
            ≡ with_call (A.calls self.old.inner) (call.begun part union.now)) }
        ensures failed { OnErr result
            ((A.told self.new.inner ≡ A.told self.old.inner)
            × (A.calls self.new.inner ≡ A.calls self.old.inner)) }
    {
        if self.calls.next_fails() {
            return Err(Failed);
        }
        self.inner.begin(part, union)
    }

    fn commit(&mut self, part: u32, after: &[u32]) -> Result<(), Failed>
        // The partition is one of the cluster, and the list is a short one.
        requires installed { part < A.parts self.old.inner }
        requires few { length after.now ≤ 16 }
        // A call that is to fail does, and writes nothing. Each call is counted.
        ensures fails { IsListed self.old.calls → IsErr result }
        ensures kept { IsListed self.old.calls → self.new.inner ≡ self.old.inner }
        ensures counts { CountsCall self.old.calls self.new.calls }
        // It fails in no other way than the cluster does, and each fault is counted.
        ensures cause { HasCause (⟦<Self as Admin>⟧.faults self.old)
            (⟦<Self as Admin>⟧.faults self.new) result }
        // One list is the one that was given, or all stay as they were.
        ensures parts { A.parts self.new.inner ≡ A.parts self.old.inner }
        ensures lists { OnOk result
            (A.told self.new.inner ≡ with_list (A.told self.old.inner) part after.now) }
        ensures called { OnOk result (A.calls self.new.inner
            ≡ with_call (A.calls self.old.inner) (call.committed part after.now)) }
        ensures failed { OnErr result
            ((A.told self.new.inner ≡ A.told self.old.inner)
            × (A.calls self.new.inner ≡ A.calls self.old.inner)) }
    {
        if self.calls.next_fails() {
            return Err(Failed);
        }
        self.inner.commit(part, after)
    }

    fn cancel(&mut self, part: u32, before: &[u32]) -> Result<(), Failed>
        // The partition is one of the cluster, and the list is a short one.
        requires installed { part < A.parts self.old.inner }
        requires few { length before.now ≤ 16 }
        // A call that is to fail does, and writes nothing. Each call is counted.
        ensures fails { IsListed self.old.calls → IsErr result }
        ensures kept { IsListed self.old.calls → self.new.inner ≡ self.old.inner }
        ensures counts { CountsCall self.old.calls self.new.calls }
        // It fails in no other way than the cluster does, and each fault is counted.
        ensures cause { HasCause (⟦<Self as Admin>⟧.faults self.old)
            (⟦<Self as Admin>⟧.faults self.new) result }
        // One list is the one that was given, or all stay as they were.
        ensures parts { A.parts self.new.inner ≡ A.parts self.old.inner }
        ensures lists { OnOk result
            (A.told self.new.inner ≡ with_list (A.told self.old.inner) part before.now) }
        ensures called { OnOk result (A.calls self.new.inner
            ≡ with_call (A.calls self.old.inner) (call.cancelled part before.now)) }
        ensures failed { OnErr result
            ((A.told self.new.inner ≡ A.told self.old.inner)
            × (A.calls self.new.inner ≡ A.calls self.old.inner)) }
    {
        if self.calls.next_fails() {
            return Err(Failed);
        }
        self.inner.cancel(part, before)
    }
}

/// A copier of which some copies fail. Those do not reach what is inside.
#[derive(Drop)]
pub struct FailingCopier<K> {
    inner: K,
    calls: FailingCalls,
}

impl<K> FailingCopier<K> {
    /// The copies with these numbers are to fail. The first copy has the number 1.
    pub fn new(inner: K, calls: Vec<u64>) -> Self
        ensures inner { result.inner ≡ inner }
        ensures listed { result.calls.listed.items ≡ calls.items }
        ensures made { result.calls.made ≡ 1 }
        ensures faults { result.calls.faults ≡ 0 }
    {
        FailingCopier {
            inner,
            calls: FailingCalls::new(calls, 1),
        }
    }

    /// What is inside.
    pub fn inner(&self) -> &K
        ensures { result.now ≡ self.now.inner }
    {
        &self.inner
    }
}

impl<K: Copier> Copier for FailingCopier<K> {
    ghost faults = { λ f. K.faults f.inner + f.calls.faults };

    ghost copies = { λ f. K.copies f.inner };

    fn copy(&mut self, part: u32, to: u32, chunk: u32) -> Result<(), CopyFault>
        // A copy that is to fail does, and is not made. Each is counted.
        ensures fails { IsListed self.old.calls → IsErrOf result CopyFault.Failed }
        ensures kept { IsListed self.old.calls → self.new.inner ≡ self.old.inner }
        ensures counts { CountsCall self.old.calls self.new.calls }
        // It fails in no other way than the copier does, and each fault is counted.
        ensures later { ⟦<Self as Copier>⟧.faults self.old ≤ ⟦<Self as Copier>⟧.faults self.new }
        ensures cause { IsErrOf result CopyFault.Failed
            → HasRisen (⟦<Self as Copier>⟧.faults self.old) (⟦<Self as Copier>⟧.faults self.new) }
        ensures counted { (IsErrOf result CopyFault.Failed → ⊥)
            → ⟦<Self as Copier>⟧.faults self.new ≡ ⟦<Self as Copier>⟧.faults self.old }
        // The copy is told, or none is.
        ensures made { OnOk result
            (K.copies self.new.inner
            ≡ with_copy (K.copies self.old.inner)
            (record { part = part; to = to; chunk = chunk })) }
        ensures failed { OnErr result (K.copies self.new.inner ≡ K.copies self.old.inner) }
    {
        if self.calls.next_fails() {
            return Err(CopyFault::Failed);
        }
        self.inner.copy(part, to, chunk)
    }
}
