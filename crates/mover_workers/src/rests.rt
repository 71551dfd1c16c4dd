// An actor that may wait.
ghost use Rattle.mover_workers.specs.Steps.{HasRested};

use mover_rounds::Asker;

/// An asker that may wait for something to do.
pub trait Rests: Asker {
    /// May wait until there may be something to do. It may return at any time.
    fn rest(&mut self)
        ensures since { Self.since self.old self.new }
        ensures rested { HasRested (Self.known self.old) (Self.known self.new) };
}
