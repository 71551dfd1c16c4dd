// Caps that are to change.
ghost use Rattle.std.specs.Prelude.{◌≡◌};
ghost use Rattle.core_terms.specs.Caps.{IsCapChange};

use std::marker::Model;

/// Caps that are to change: one that is absent keeps its value, and each that is there is 1 to
/// 10,000.
#[derive(Drop)]
pub struct CapChange {
    broker: Option<u32>,
    cluster: Option<u32>,
    leader: Option<u32>,
}

impl Model for CapChange {
    ghost use Rattle.core_terms.specs.Caps.{CapsAsked, IsCapChange};

    ghost Value = { CapsAsked };

    ghost view = { λ c. record { broker = c.broker; cluster = c.cluster; leader = c.leader } };

    ghost invariant = { λ c. IsCapChange
        (record { broker = c.broker; cluster = c.cluster; leader = c.leader }) };
}

impl CapChange {
    /// The change to these caps: of a broker, of the cluster, and of the leaders.
    pub fn new(broker: Option<u32>, cluster: Option<u32>, leader: Option<u32>) -> CapChange
        requires { IsCapChange (record { broker = broker; cluster = cluster; leader = leader }) }
        ensures { result ≡ record { broker = broker; cluster = cluster; leader = leader } }
    {
        CapChange {
            broker,
            cluster,
            leader,
        }
    }

    /// The new cap of each broker.
    pub fn broker(&self) -> Option<u32>
        ensures value { result ≡ self.now.broker }
        ensures range { IsCapChange self.now }
    {
        self.broker
    }

    /// The new cap of the cluster.
    pub fn cluster(&self) -> Option<u32>
        ensures value { result ≡ self.now.cluster }
        ensures range { IsCapChange self.now }
    {
        self.cluster
    }

    /// The new cap of the leaders.
    pub fn leader(&self) -> Option<u32>
        ensures value { result ≡ self.now.leader }
        ensures range { IsCapChange self.now }
    {
        self.leader
    }
}
