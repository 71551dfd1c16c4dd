// A source that holds its last bytes back.
ghost use Rattle.std.specs.Prelude.{◌≡◌, ◌<◌, ◌≤◌, ◌++◌, None, Some, drop, length};

use crate::bar::Bar;
use cc_base::{Failed, Source};

/// Bytes to read, of which the last come only once what they wait for has happened. So does their
/// end.
#[derive(Drop)]
pub struct GateSource {
    bytes: Vec<u8>,
    at: usize,
    front: usize,
    bar: Bar,
    faults: u64,
    ghost within: { at ≤ length bytes.items },
    ghost fronted: { front ≤ length bytes.items },
}

impl GateSource {
    // A source of these bytes, of which so many come before the bar.
    pub(crate) fn new(bytes: Vec<u8>, front: usize, bar: Bar) -> GateSource
        requires { front ≤ length bytes.items }
        ensures left { ⟦<Self as Source>⟧.left result ≡ Some bytes.items }
        ensures faults { ⟦<Self as Source>⟧.faults result ≡ 0 }
    {
        GateSource {
            bytes,
            at: 0,
            front,
            bar,
            faults: 0,
        }
    }

    // Where the bytes end that may be given now.
    fn end(&self) -> usize
        ensures ahead { self.now.at ≤ result }
        ensures within { result ≤ length self.now.bytes.items }
        ensures last { result ≡ self.now.at → self.now.at ≡ length self.now.bytes.items }
    {
        if self.at < self.front {
            self.front
        } else {
            self.bytes.len()
        }
    }
}

impl Source for GateSource {
    ghost faults = { λ s. s.faults };

    ghost left = { λ s. Some (drop s.at s.bytes.items) };

    ghost beside = { λ _. (0, None) };

    /// Fails where it waited in vain.
    fn read(&mut self, buf: &mut [u8]) -> Result<usize, Failed> {
        if self.at >= self.front && !self.bar.lifts() {
            self.faults = self.faults.saturating_add(1);
            return Err(Failed);
        }
        let rest = &self.bytes[self.at..self.end()];
        let n = rest.len().min(buf.len());
        buf[..n].copy_from_slice(&rest[..n]);
        self.at += n;
        Ok(n)
    }
}
