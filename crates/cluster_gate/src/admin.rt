// The trait of the cluster's lists.
ghost use Rattle.std.specs.Prelude.{◌≡◌, ◌<◌, ◌≤◌, ℕ, List, length, Option, OnOk, OnErr, IsErrOf};
ghost use Rattle.cc_base.specs.Outside.{HasCause, HasRisen};
ghost use Rattle.cluster_gate.specs.Calls.{AdminCall, with_call};
ghost use Rattle.cluster_gate.specs.Calls as call;
ghost use Rattle.cluster_gate.specs.Lists.{installed, with_list};

use cc_base::Failed;
use load_model::Assign;
use plan_terms::Memory;
use std::alloc::{AllocError, Global};
use thiserror::Error;

/// Why lists were not installed.
#[derive(Clone, Copy, Debug, PartialEq, Eq, Error)]
pub enum InstallFault {
    /// The call failed.
    #[error("admin fault")]
    Failed,
    /// There was no memory for the lists. This is no fault of the admin.
    #[error("want of memory")]
    Memory,
}

impl From<AllocError> for InstallFault {
    ghost use Rattle.cluster_gate.specs.declared.admin.InstallFault.TheVariants as fault;

    ghost from_gives = { λ _ e. e ≡ fault.Memory };

    fn from(_: AllocError) -> Self {
        InstallFault::Memory
    }
}

impl From<Memory> for InstallFault {
    ghost use Rattle.cluster_gate.specs.declared.admin.InstallFault.TheVariants as fault;

    ghost from_gives = { λ _ e. e ≡ fault.Memory };

    fn from(_: Memory) -> Self {
        InstallFault::Memory
    }
}

/// The replica lists of a cluster, one for each partition. A list that is written replaces the
/// partition's whole list, as KIP-455 has it of a reassignment.
pub trait Admin {
    /// How many calls have failed.
    ghost faults: { Self → ℕ };

    /// How many lists are installed.
    ghost parts: { Self → ℕ };

    /// The lists, where they are told.
    ghost told: { Self → Option (List (List ℕ)) };

    /// The calls that went through, in order, where they are told.
    ghost calls: { Self → Option (List AdminCall) };

    /// Sets the lists of all partitions.
    ///
    /// # Errors
    ///
    /// `InstallFault::Failed` where the call fails, `InstallFault::Memory` where there is no room
    /// for the lists, which is no fault. No list is changed then.
    fn install(&mut self, alloc: Global, lists: &Assign) -> Result<(), InstallFault>
        ensures later { faults self.old ≤ faults self.new }
        ensures cause { IsErrOf result InstallFault.Failed
            → HasRisen (faults self.old) (faults self.new) }
        ensures counted { (IsErrOf result InstallFault.Failed → ⊥)
            → faults self.new ≡ faults self.old }
        ensures parts { OnOk result (parts self.new ≡ length lists.now) }
        ensures lists { OnOk result (told self.new ≡ installed (told self.old) lists.now) }
        ensures called { OnOk result (calls self.new
            ≡ with_call (calls self.old) (call.installed lists.now)) }
        ensures failed { OnErr result
            ((parts self.new ≡ parts self.old) × (told self.new ≡ told self.old)
            × (calls self.new ≡ calls self.old)) };

    /// Sets the list of one partition to the union of its old and its new list, with which the
    /// copies begin. Takes no memory.
    ///
    /// # Errors
    ///
    /// `Failed` where the call fails. No list is changed then.
    fn begin(&mut self, part: u32, union: &[u32]) -> Result<(), Failed>
        requires installed { part < parts self.old }
        requires few { length union.now ≤ 16 }
        ensures cause { HasCause (faults self.old) (faults self.new) result }
        ensures parts { parts self.new ≡ parts self.old }
        ensures lists { OnOk result (told self.new ≡ with_list (told self.old) part union.now) }
        ensures called { OnOk result (calls self.new
            ≡ with_call (calls self.old) (call.begun part union.now)) }
        ensures failed { OnErr result
            ((told self.new ≡ told self.old) × (calls self.new ≡ calls self.old)) };

    /// Sets the list of one partition to its new list, with which the reassignment is done. Takes
    /// no memory.
    ///
    /// # Errors
    ///
    /// `Failed` where the call fails. No list is changed then.
    fn commit(&mut self, part: u32, after: &[u32]) -> Result<(), Failed>
        requires installed { part < parts self.old }
        requires few { length after.now ≤ 16 }
        ensures cause { HasCause (faults self.old) (faults self.new) result }
        ensures parts { parts self.new ≡ parts self.old }
        ensures lists { OnOk result (told self.new ≡ with_list (told self.old) part after.now) }
        ensures called { OnOk result (calls self.new
            ≡ with_call (calls self.old) (call.committed part after.now)) }
        ensures failed { OnErr result
            ((told self.new ≡ told self.old) × (calls self.new ≡ calls self.old)) };

    /// Sets the list of one partition back to its old list, with which the reassignment is given
    /// up. Takes no memory.
    ///
    /// # Errors
    ///
    /// `Failed` where the call fails. No list is changed then.
    fn cancel(&mut self, part: u32, before: &[u32]) -> Result<(), Failed>
        requires installed { part < parts self.old }
        requires few { length before.now ≤ 16 }
        ensures cause { HasCause (faults self.old) (faults self.new) result }
        ensures parts { parts self.new ≡ parts self.old }
        ensures lists { OnOk result (told self.new ≡ with_list (told self.old) part before.now) }
        ensures called { OnOk result (calls self.new
            ≡ with_call (calls self.old) (call.cancelled part before.now)) }
        ensures failed { OnErr result
            ((told self.new ≡ told self.old) × (calls self.new ≡ calls self.old)) };
}
