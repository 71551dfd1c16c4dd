// The trait of what copies replicas, and receipts of copies.
ghost use Rattle.std.specs.Prelude.{◌≡◌, ◌≤◌, ℕ, List, Option, IfOk, OnOk, OnErr, IsErrOf};
ghost use Rattle.cc_base.specs.Outside.{HasRisen};
ghost use Rattle.cluster_gate.specs.Copies.{with_copy};

use std::alloc::AllocFailed;
use std::marker::Model;
use thiserror::Error;

/// The copy of one chunk of a partition's replica to a broker.
#[derive(Clone, Copy, Debug, PartialEq, Eq)]
pub struct ChunkCopy {
    /// The partition's place in the cluster file, from 0.
    pub part: u32,
    /// The id of the broker.
    pub to: u32,
    /// The chunk, from 0.
    pub chunk: u32,
}

/// Why a chunk was not copied.
#[derive(Clone, Copy, Debug, PartialEq, Eq, Error)]
pub enum CopyFault {
    /// The copy failed.
    #[error("copy fault")]
    Failed,
    /// There was no memory. This is no fault of the copier.
    #[error("want of memory")]
    Memory,
}

impl<T: Drop> From<AllocFailed<T>> for CopyFault {
    ghost use Rattle.cluster_gate.specs.declared.copier.CopyFault.TheVariants as fault;

    ghost from_gives = { λ _ e. e ≡ fault.Memory };

    fn from(_: AllocFailed<T>) -> Self {
        CopyFault::Memory
    }
}

/// What copies replicas, a chunk at a time.
pub trait Copier {
    ghost use Rattle.cluster_gate.specs.declared.copier.ChunkCopy.{ChunkCopy};

    /// How many copies have failed.
    ghost faults: { Self → ℕ };

    /// The copies that were made, where they are told.
    ghost copies: { Self → Option (List ChunkCopy) };

    /// Copies a chunk.
    ///
    /// # Errors
    ///
    /// `CopyFault::Failed` where the copy fails, `CopyFault::Memory` where there is no memory for
    /// it, which is no fault. No copy is made then.
    fn copy(&mut self, part: u32, to: u32, chunk: u32) -> Result<(), CopyFault>
        ensures later { faults self.old ≤ faults self.new }
        ensures cause { IsErrOf result CopyFault.Failed
            → HasRisen (faults self.old) (faults self.new) }
        ensures counted { (IsErrOf result CopyFault.Failed → ⊥)
            → faults self.new ≡ faults self.old }
        ensures made { OnOk result
            (copies self.new
            ≡ with_copy (copies self.old) (record { part = part; to = to; chunk = chunk })) }
        ensures failed { OnErr result (copies self.new ≡ copies self.old) };
}

/// That a copy was made under a lease. Only [`copy_chunk`] makes one.
#[derive(Debug, Drop)]
pub struct Receipt {
    lease: u64,
    part: u32,
    to: u32,
    chunk: u32,
}

impl Model for Receipt {
    ghost use Rattle.cluster_gate.specs.Receipts.{ReceiptView};

    ghost Value = { ReceiptView };

    ghost view = { λ r. record { lease = r.lease; part = r.part; to = r.to; chunk = r.chunk } };
}

impl Receipt {
    /// The lease under which the copy was made.
    pub fn lease(&self) -> u64
        ensures { result ≡ self.now.lease }
    {
        self.lease
    }

    /// The place of the partition that was copied.
    pub fn part(&self) -> u32
        ensures { result ≡ self.now.part }
    {
        self.part
    }

    /// The broker to which it was copied.
    pub fn to(&self) -> u32
        ensures { result ≡ self.now.to }
    {
        self.to
    }

    /// The chunk that was copied, from 0.
    pub fn chunk(&self) -> u32
        ensures { result ≡ self.now.chunk }
    {
        self.chunk
    }
}

/// Copies a chunk of a partition's replica to a broker under a lease, and answers the receipt.
///
/// # Errors
///
/// `CopyFault::Failed` where the copier failed, `CopyFault::Memory` for want of memory. No copy is
/// made then.
pub fn copy_chunk<K: Copier>(
    copier: &mut K,
    lease: u64,
    part: u32,
    to: u32,
    chunk: u32,
) -> Result<Receipt, CopyFault>
    ensures later { K.faults copier.old ≤ K.faults copier.new }
    ensures cause { IsErrOf result CopyFault.Failed
        → HasRisen (K.faults copier.old) (K.faults copier.new) }
    ensures counted { (IsErrOf result CopyFault.Failed → ⊥)
        → K.faults copier.new ≡ K.faults copier.old }
    ensures receipt { IfOk result
        (λ r. r ≡ record { lease = lease; part = part; to = to; chunk = chunk }) }
    ensures made { OnOk result
        (K.copies copier.new
        ≡ with_copy (K.copies copier.old) (record { part = part; to = to; chunk = chunk })) }
    ensures failed { OnErr result (K.copies copier.new ≡ K.copies copier.old) }
{
    copier.copy(part, to, chunk)?;
    Ok(Receipt {
        lease,
        part,
        to,
        chunk,
    })
}
