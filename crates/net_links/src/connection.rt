// The trait of links that are closed.
ghost use Rattle.std.specs.Prelude.{◌≡◌};

use cc_base::{Joined, Link, Sink, Source};

/// A link that is closed once it has ended, and not only when it is let go.
pub trait Connection: Link {
    /// Closes the link: the other side reads its end, and later reads and writes here may fail.
    /// What is told of the link stays as it was.
    fn close(&mut self)
        ensures left { Self.left self.new ≡ Self.left self.old }
        ensures written { Self.written self.new ≡ Self.written self.old }
        ensures source { Self.Source.faults self.new ≡ Self.Source.faults self.old }
        ensures sink { Self.Sink.faults self.new ≡ Self.Sink.faults self.old };
}

/// Two sides that are joined have no connection to close.
impl<R: Source, W: Sink> Connection for Joined<R, W> {
    fn close(&mut self) {}
}
