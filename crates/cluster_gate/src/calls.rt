// Which calls are to fail.
ghost use Rattle.std.specs.Prelude.{◌≡◌, ◌≤◌, ◌↔◌, IsTrue};
ghost use Rattle.cc_base.specs.Outside.{HasRisen};
ghost use Rattle.cluster_gate.specs.Failing.{CountsCall, IsListed};

/// The calls that are to fail, those that were made, and how many of them failed.
#[derive(Drop)]
pub struct FailingCalls {
    listed: Vec<u64>,
    made: u64,
    faults: u64,
}

impl FailingCalls {
    /// The calls with these numbers are to fail. The first call has the number `first`.
    pub fn new(listed: Vec<u64>, first: u64) -> Self
        ensures { result ≡ record { listed = listed; made = first; faults = 0 } }
    {
        FailingCalls {
            listed,
            made: first,
            faults: 0,
        }
    }

    /// Counts a call, and answers whether it is to fail. Then it is a fault too.
    pub fn next_fails(&mut self) -> bool
        ensures listed { IsTrue result ↔ IsListed self.old }
        ensures counts { CountsCall self.old self.new }
        ensures later { self.old.faults ≤ self.new.faults }
        ensures risen { IsTrue result → HasRisen self.old.faults self.new.faults }
    {
        let fails = self.listed.contains(&self.made);
        self.made = self.made.saturating_add(1);
        if fails {
            self.faults = self.faults.saturating_add(1);
        }
        fails
    }
}
