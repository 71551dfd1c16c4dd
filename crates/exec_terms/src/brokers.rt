// What the executor knows of the brokers.
ghost use Rattle.std.specs.Prelude.{◌≡◌};
ghost use Rattle.exec_terms.specs.Stops.{marked};

/// A broker, and whether it has died.
#[derive(Clone, Copy, Debug)]
pub struct Host {
    pub id: u32,
    pub dead: bool,
}

impl Host {
    /// A broker has died.
    pub fn mark(&mut self, broker: u32)
        ensures { self.new ≡ marked broker self.old }
    {
        if self.id == broker {
            self.dead = true;
        }
    }
}
