// A sink that tells what it has taken.
ghost use Rattle.std.specs.Prelude.{◌≡◌, [], None, Some};

use crate::bar::Word;
use crate::memory::MemorySink;
use cc_base::{Failed, Sink};
use std::alloc::Global;

// What ends the head of a reply. No body of compact JSON holds it.
const HEAD_END: &[u8] = b"\r\n\r\n";

// What a sink counts.
#[derive(Drop)]
pub(crate) enum Counted {
    Heads,
    Bytes,
}

/// Bytes that were written. Another thread may wait for them.
#[derive(Drop)]
pub struct GateSink {
    inner: MemorySink,
    counted: Counted,
    count: Word,
}

// How many heads of replies end in the bytes.
fn heads(bytes: &[u8]) -> usize {
    bytes.windows(4).filter(|four| **four == *HEAD_END).count()
}

impl GateSink {
    // A sink that tells its count by this word.
    pub(crate) fn new(alloc: Global, counted: Counted, count: Word) -> GateSink
        ensures written { ⟦<Self as Sink>⟧.written result ≡ Some [] }
        ensures faults { ⟦<Self as Sink>⟧.faults result ≡ 0 }
    {
        GateSink {
            inner: MemorySink::new(alloc),
            counted,
            count,
        }
    }

    /// What was written.
    pub fn bytes(&self) -> &[u8]
        ensures { ⟦<Self as Sink>⟧.written self.now ≡ Some result.now }
    {
        self.inner.bytes()
    }

    // Tells the count of what was written so far.
    fn tell(&self) {
        let count = match self.counted {
            Counted::Heads => heads(self.bytes()),
            Counted::Bytes => self.bytes().len(),
        };
        self.count.tell(count as u64);
    }
}

impl Sink for GateSink {
    ghost faults = { λ s. ⟦<MemorySink as Sink>⟧.faults s.inner };

    ghost written = { λ s. ⟦<MemorySink as Sink>⟧.written s.inner };

    ghost beside = { λ _. (0, None) };

    fn write(&mut self, bytes: &[u8]) -> Result<usize, Failed> {
        let taken = self.inner.write(bytes)?;
        self.tell();
        Ok(taken)
    }
}
