// A copier that waits for replies, and what waits for the copy.
ghost use Rattle.std.specs.Prelude.{◌≡◌, ◌+◌, ◌++◌, [], Some, IfOk, length};

use crate::bar::{Bar, LOOKS, Word};
use crate::link::GateLink;
use crate::sink::{Counted, GateSink};
use crate::source::GateSource;
use cc_base::{Sink, Source};
use cluster_gate::{ChunkCopy, Copier, CopyFault, MemoryCopier};
use plan_terms::Memory;
use std::alloc::Global;

/// A copier that notes its copies, and makes none before replies were written.
#[derive(Drop)]
pub struct ReplyGate {
    copier: MemoryCopier,
    begun: Word,
    replies: Bar,
    faults: u64,
}

// The bytes of both.
fn joined(alloc: Global, first: &[u8], last: &[u8]) -> Result<Vec<u8>, Memory>
    ensures { IfOk result (λ bytes. bytes.items ≡ first.now ++ last.now) }
{
    let mut bytes = first.to_vec(alloc)?;
    bytes.extend_from_slice(last)?;
    Ok(bytes)
}

// A source of these bytes, with the bar between them.
fn barred(alloc: Global, first: &[u8], last: &[u8], bar: Bar) -> Result<GateSource, Memory>
    ensures left { IfOk result
        (λ source. ⟦<GateSource as Source>⟧.left source ≡ Some (first.now ++ last.now)) }
    ensures faults { IfOk result (λ source. ⟦<GateSource as Source>⟧.faults source ≡ 0) }
{
    let bytes = joined(alloc, first, last)?;
    Ok(GateSource::new(bytes, first.len(), bar))
}

impl ReplyGate {
    /// A copier, and the two sides of a connection. The first copy waits until the sink has taken
    /// the bytes of so many replies, each of which is written by one call. The source gives the
    /// bytes of `last`, and the end, only once that copy has begun.
    ///
    /// # Errors
    ///
    /// Want of memory.
    pub fn held(
        alloc: Global,
        replies: u32,
        first: &[u8],
        last: &[u8],
    ) -> Result<(ReplyGate, GateSource, GateSink), Memory>
        ensures copies { IfOk result (λ gate. ⟦<ReplyGate as Copier>⟧.copies gate.0 ≡ Some []) }
        ensures copy_faults { IfOk result (λ gate. ⟦<ReplyGate as Copier>⟧.faults gate.0 ≡ 0) }
        ensures left { IfOk result
            (λ gate. ⟦<GateSource as Source>⟧.left gate.1 ≡ Some (first.now ++ last.now)) }
        ensures read_faults { IfOk result (λ gate. ⟦<GateSource as Source>⟧.faults gate.1 ≡ 0) }
        ensures written { IfOk result (λ gate. ⟦<GateSink as Sink>⟧.written gate.2 ≡ Some []) }
        ensures write_faults { IfOk result (λ gate. ⟦<GateSink as Sink>⟧.faults gate.2 ≡ 0) }
    {
        ReplyGate::held_within(alloc, replies, first, last, LOOKS)
    }

    /// The same, of which each wait looks so often at most.
    ///
    /// # Errors
    ///
    /// Want of memory.
    pub fn held_within(
        alloc: Global,
        replies: u32,
        first: &[u8],
        last: &[u8],
        looks: u32,
    ) -> Result<(ReplyGate, GateSource, GateSink), Memory>
        ensures copies { IfOk result (λ gate. ⟦<ReplyGate as Copier>⟧.copies gate.0 ≡ Some []) }
        ensures copy_faults { IfOk result (λ gate. ⟦<ReplyGate as Copier>⟧.faults gate.0 ≡ 0) }
        ensures left { IfOk result
            (λ gate. ⟦<GateSource as Source>⟧.left gate.1 ≡ Some (first.now ++ last.now)) }
        ensures read_faults { IfOk result (λ gate. ⟦<GateSource as Source>⟧.faults gate.1 ≡ 0) }
        ensures written { IfOk result (λ gate. ⟦<GateSink as Sink>⟧.written gate.2 ≡ Some []) }
        ensures write_faults { IfOk result (λ gate. ⟦<GateSink as Sink>⟧.faults gate.2 ≡ 0) }
    {
        let begun = Word::new(alloc)?;
        let count = Word::new(alloc)?;
        let written = Bar::new(count.share()?, u64::from(replies), looks);
        let source = barred(alloc, first, last, Bar::new(begun.share()?, 1, looks))?;
        let sink = GateSink::new(alloc, Counted::Heads, count);
        Ok((ReplyGate::new(alloc, begun, written), source, sink))
    }

    /// A copier that never waits.
    ///
    /// # Errors
    ///
    /// Want of memory.
    pub fn plain(alloc: Global) -> Result<ReplyGate, Memory>
        ensures copies { IfOk result (λ gate. ⟦<Self as Copier>⟧.copies gate ≡ Some []) }
        ensures faults { IfOk result (λ gate. ⟦<Self as Copier>⟧.faults gate ≡ 0) }
    {
        let begun = Word::new(alloc)?;
        let replies = Bar::lifted(alloc)?;
        Ok(ReplyGate::new(alloc, begun, replies))
    }

    fn new(alloc: Global, begun: Word, replies: Bar) -> ReplyGate
        ensures copies { ⟦<Self as Copier>⟧.copies result ≡ Some [] }
        ensures faults { ⟦<Self as Copier>⟧.faults result ≡ 0 }
    {
        ReplyGate {
            copier: MemoryCopier::new(alloc),
            begun,
            replies,
            faults: 0,
        }
    }

    /// Two links, each of which gives the bytes of `first`, and those of `last` and the end only
    /// once the other has taken a byte.
    ///
    /// # Errors
    ///
    /// Want of memory.
    pub fn links(alloc: Global, first: &[u8], last: &[u8]) -> Result<(GateLink, GateLink), Memory>
        ensures one_left { IfOk result
            (λ links. ⟦<GateLink as Source>⟧.left links.0 ≡ Some (first.now ++ last.now)) }
        ensures one_written { IfOk result
            (λ links. ⟦<GateLink as Sink>⟧.written links.0 ≡ Some []) }
        ensures one_faults { IfOk result
            (λ links. ⟦<GateLink as Source>⟧.faults links.0 + ⟦<GateLink as Sink>⟧.faults links.0
            ≡ 0) }
        ensures other_left { IfOk result
            (λ links. ⟦<GateLink as Source>⟧.left links.1 ≡ Some (first.now ++ last.now)) }
        ensures other_written { IfOk result
            (λ links. ⟦<GateLink as Sink>⟧.written links.1 ≡ Some []) }
        ensures other_faults { IfOk result
            (λ links. ⟦<GateLink as Source>⟧.faults links.1 + ⟦<GateLink as Sink>⟧.faults links.1
            ≡ 0) }
    {
        ReplyGate::links_within(alloc, first, last, LOOKS)
    }

    /// The same, of which each wait looks so often at most.
    ///
    /// # Errors
    ///
    /// Want of memory.
    pub fn links_within(
        alloc: Global,
        first: &[u8],
        last: &[u8],
        looks: u32,
    ) -> Result<(GateLink, GateLink), Memory>
        ensures one_left { IfOk result
            (λ links. ⟦<GateLink as Source>⟧.left links.0 ≡ Some (first.now ++ last.now)) }
        ensures one_written { IfOk result
            (λ links. ⟦<GateLink as Sink>⟧.written links.0 ≡ Some []) }
        ensures one_faults { IfOk result
            (λ links. ⟦<GateLink as Source>⟧.faults links.0 + ⟦<GateLink as Sink>⟧.faults links.0
            ≡ 0) }
        ensures other_left { IfOk result
            (λ links. ⟦<GateLink as Source>⟧.left links.1 ≡ Some (first.now ++ last.now)) }
        ensures other_written { IfOk result
            (λ links. ⟦<GateLink as Sink>⟧.written links.1 ≡ Some []) }
        ensures other_faults { IfOk result
            (λ links. ⟦<GateLink as Source>⟧.faults links.1 + ⟦<GateLink as Sink>⟧.faults links.1
            ≡ 0) }
    {
        let one = Word::new(alloc)?;
        let other = Word::new(alloc)?;
        let behind_other = barred(alloc, first, last, Bar::new(other.share()?, 1, looks))?;
        let behind_one = barred(alloc, first, last, Bar::new(one.share()?, 1, looks))?;
        let one = GateSink::new(alloc, Counted::Bytes, one);
        let other = GateSink::new(alloc, Counted::Bytes, other);
        Ok((
            GateLink::new(behind_other, one),
            GateLink::new(behind_one, other),
        ))
    }

    /// The copies that were made, in order.
    pub fn copies(&self) -> &[ChunkCopy]
        ensures { ⟦<Self as Copier>⟧.copies self.now ≡ Some result.now }
    {
        self.copier.copies()
    }
}

impl Copier for ReplyGate {
    ghost faults = { λ gate. gate.faults };

    ghost copies = { λ gate. ⟦<MemoryCopier as Copier>⟧.copies gate.copier };

    /// Fails where it waited in vain.
    fn copy(&mut self, part: u32, to: u32, chunk: u32) -> Result<(), CopyFault> {
        self.begun.tell(1);
        if !self.replies.lifts() {
            self.faults = self.faults.saturating_add(1);
            return Err(CopyFault::Failed);
        }
        self.copier.copy(part, to, chunk)
    }
}
