// Links of which one waits for the other.
ghost use Rattle.std.specs.Prelude.{◌≡◌, Some, refl};

use crate::sink::GateSink;
use crate::source::GateSource;
use cc_base::{Failed, Link, Sink, Source};
use net_links::Connection;

/// A link in memory. It gives its last bytes only once the link that was made with it has taken a
/// byte.
#[derive(Drop)]
pub struct GateLink {
    source: GateSource,
    sink: GateSink,
}

impl GateLink {
    pub(crate) fn new(source: GateSource, sink: GateSink) -> GateLink
        ensures source { result.source ≡ source }
        ensures sink { result.sink ≡ sink }
    {
        GateLink { source, sink }
    }

    /// What was written.
    pub fn bytes(&self) -> &[u8]
        ensures { ⟦<Self as Sink>⟧.written self.now ≡ Some result.now }
    {
        self.sink.bytes()
    }
}

impl Source for GateLink {
    ghost faults = { λ link. ⟦<GateSource as Source>⟧.faults link.source };

    ghost left = { λ link. ⟦<GateSource as Source>⟧.left link.source };

    ghost beside = { λ link. (
      ⟦<GateSink as Sink>⟧.faults link.sink,
      ⟦<GateSink as Sink>⟧.written
          link.sink,
    ) };

    /// Fails where it waited in vain.
    fn read(&mut self, buf: &mut [u8]) -> Result<usize, Failed> {
        self.source.read(buf)
    }
}

impl Sink for GateLink {
    ghost faults = { λ link. ⟦<GateSink as Sink>⟧.faults link.sink };

    ghost written = { λ link. ⟦<GateSink as Sink>⟧.written link.sink };

    ghost beside = { λ link. (
      ⟦<GateSource as Source>⟧.faults link.source,
      ⟦<GateSource as Source>⟧.left link.source,
    ) };

    fn write(&mut self, bytes: &[u8]) -> Result<usize, Failed> {
        self.sink.write(bytes)
    }
}

impl Link for GateLink {
    ghost beside_source = { λ _. refl };

    ghost beside_sink = { λ _. refl };
}

/// There is no connection to close.
impl Connection for GateLink {
    fn close(&mut self) {}
}
