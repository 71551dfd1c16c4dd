// Two copiers that wait for each other.
ghost use Rattle.std.specs.Prelude.{◌≡◌, [], Some, IfOk};

use crate::bar::{Bar, LOOKS, Word};
use cluster_gate::{ChunkCopy, Copier, CopyFault, MemoryCopier};
use plan_terms::Memory;
use std::alloc::Global;

/// A copier that notes its copies, and makes none before a copy of its fellow has begun.
#[derive(Drop)]
pub struct PairGate {
    copier: MemoryCopier,
    begun: Word,
    fellow: Bar,
    faults: u64,
}

impl PairGate {
    /// Two copiers. The first copy of each waits until the other's has begun.
    ///
    /// # Errors
    ///
    /// Want of memory.
    pub fn pair(alloc: Global) -> Result<(PairGate, PairGate), Memory>
        ensures one { IfOk result (λ gates. ⟦<Self as Copier>⟧.copies gates.0 ≡ Some []) }
        ensures one_faults { IfOk result (λ gates. ⟦<Self as Copier>⟧.faults gates.0 ≡ 0) }
        ensures other { IfOk result (λ gates. ⟦<Self as Copier>⟧.copies gates.1 ≡ Some []) }
        ensures other_faults { IfOk result (λ gates. ⟦<Self as Copier>⟧.faults gates.1 ≡ 0) }
    {
        PairGate::pair_within(alloc, LOOKS)
    }

    /// The same, of which each wait looks so often at most.
    ///
    /// # Errors
    ///
    /// Want of memory.
    pub fn pair_within(alloc: Global, looks: u32) -> Result<(PairGate, PairGate), Memory>
        ensures one { IfOk result (λ gates. ⟦<Self as Copier>⟧.copies gates.0 ≡ Some []) }
        ensures one_faults { IfOk result (λ gates. ⟦<Self as Copier>⟧.faults gates.0 ≡ 0) }
        ensures other { IfOk result (λ gates. ⟦<Self as Copier>⟧.copies gates.1 ≡ Some []) }
        ensures other_faults { IfOk result (λ gates. ⟦<Self as Copier>⟧.faults gates.1 ≡ 0) }
    {
        let one = Word::new(alloc)?;
        let other = Word::new(alloc)?;
        let to_other = Bar::new(other.share()?, 1, looks);
        let to_one = Bar::new(one.share()?, 1, looks);
        Ok((
            PairGate::new(alloc, one, to_other),
            PairGate::new(alloc, other, to_one),
        ))
    }

    /// A copier that never waits.
    ///
    /// # Errors
    ///
    /// Want of memory.
    pub fn plain(alloc: Global) -> Result<PairGate, Memory>
        ensures copies { IfOk result (λ gate. ⟦<Self as Copier>⟧.copies gate ≡ Some []) }
        ensures faults { IfOk result (λ gate. ⟦<Self as Copier>⟧.faults gate ≡ 0) }
    {
        let begun = Word::new(alloc)?;
        let fellow = Bar::lifted(alloc)?;
        Ok(PairGate::new(alloc, begun, fellow))
    }

    fn new(alloc: Global, begun: Word, fellow: Bar) -> PairGate
        ensures copies { ⟦<Self as Copier>⟧.copies result ≡ Some [] }
        ensures faults { ⟦<Self as Copier>⟧.faults result ≡ 0 }
    {
        PairGate {
            copier: MemoryCopier::new(alloc),
            begun,
            fellow,
            faults: 0,
        }
    }

    /// The copies that were made, in order.
    pub fn copies(&self) -> &[ChunkCopy]
        ensures { ⟦<Self as Copier>⟧.copies self.now ≡ Some result.now }
    {
        self.copier.copies()
    }
}

impl Copier for PairGate {
    ghost faults = { λ gate. gate.faults };

    ghost copies = { λ gate. ⟦<MemoryCopier as Copier>⟧.copies gate.copier };

    /// Fails where it waited in vain.
    fn copy(&mut self, part: u32, to: u32, chunk: u32) -> Result<(), CopyFault> {
        self.begun.tell(1);
        if !self.fellow.lifts() {
            self.faults = self.faults.saturating_add(1);
            return Err(CopyFault::Failed);
        }
        self.copier.copy(part, to, chunk)
    }
}
