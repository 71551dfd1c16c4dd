// The kinds of goals.
ghost use Rattle.std.specs.Prelude.{◌≡◌};
ghost use Rattle.plan_terms.specs.Cluster.{Cluster};
ghost use Rattle.goal_set.specs.Kinds.{is_hard_kind, meaning_of, name_of};

/// The goals, in the order of the default list.
#[derive(Clone, Copy, PartialEq, Eq, Debug)]
pub enum GoalKind {
    /// No replica stands on a lost broker.
    Evacuation,
    RackAware,
    /// Each broker that may lead leads as many partitions of a topic as are asked.
    MinTopicLeadersPerBroker,
    ReplicaCapacity,
    DiskCapacity,
    NetworkInboundCapacity,
    NetworkOutboundCapacity,
    CpuCapacity,
    /// No broker leads that is not to.
    Demotion,
    ReplicaDistribution,
    PotentialNwOut,
    DiskUsageDistribution,
    NetworkInboundUsageDistribution,
    NetworkOutboundUsageDistribution,
    CpuUsageDistribution,
    TopicReplicaDistribution,
    LeaderReplicaDistribution,
    LeaderBytesInDistribution,
}

// A goal of the default list.
#[derive(Clone, Copy)]
pub(crate) struct DefaultGoal {
    pub(crate) kind: GoalKind,
    name: &'static str,
    hard: bool,
}

// The goals of a request that names none, in the order of their turns: the one table of names and
// hardness too. It has the order of the variants, so that a kind's number is its place.
pub(crate) const DEFAULT_GOALS: [DefaultGoal; 18] = [
    DefaultGoal {
        kind: GoalKind::Evacuation,
        name: "EvacuationGoal",
        hard: true,
    },
    DefaultGoal {
        kind: GoalKind::RackAware,
        name: "RackAwareGoal",
        hard: true,
    },
    DefaultGoal {
        kind: GoalKind::MinTopicLeadersPerBroker,
        name: "MinTopicLeadersPerBrokerGoal",
        hard: true,
    },
    DefaultGoal {
        kind: GoalKind::ReplicaCapacity,
        name: "ReplicaCapacityGoal",
        hard: true,
    },
    DefaultGoal {
        kind: GoalKind::DiskCapacity,
        name: "DiskCapacityGoal",
        hard: true,
    },
    DefaultGoal {
        kind: GoalKind::NetworkInboundCapacity,
        name: "NetworkInboundCapacityGoal",
        hard: true,
    },
    DefaultGoal {
        kind: GoalKind::NetworkOutboundCapacity,
        name: "NetworkOutboundCapacityGoal",
        hard: true,
    },
    DefaultGoal {
        kind: GoalKind::CpuCapacity,
        name: "CpuCapacityGoal",
        hard: true,
    },
    DefaultGoal {
        kind: GoalKind::Demotion,
        name: "DemotionGoal",
        hard: false,
    },
    DefaultGoal {
        kind: GoalKind::ReplicaDistribution,
        name: "ReplicaDistributionGoal",
        hard: false,
    },
    DefaultGoal {
        kind: GoalKind::PotentialNwOut,
        name: "PotentialNwOutGoal",
        hard: false,
    },
    DefaultGoal {
        kind: GoalKind::DiskUsageDistribution,
        name: "DiskUsageDistributionGoal",
        hard: false,
    },
    DefaultGoal {
        kind: GoalKind::NetworkInboundUsageDistribution,
        name: "NetworkInboundUsageDistributionGoal",
        hard: false,
    },
    DefaultGoal {
        kind: GoalKind::NetworkOutboundUsageDistribution,
        name: "NetworkOutboundUsageDistributionGoal",
        hard: false,
    },
    DefaultGoal {
        kind: GoalKind::CpuUsageDistribution,
        name: "CpuUsageDistributionGoal",
        hard: false,
    },
    DefaultGoal {
        kind: GoalKind::TopicReplicaDistribution,
        name: "TopicReplicaDistributionGoal",
        hard: false,
    },
    DefaultGoal {
        kind: GoalKind::LeaderReplicaDistribution,
        name: "LeaderReplicaDistributionGoal",
        hard: false,
    },
    DefaultGoal {
        kind: GoalKind::LeaderBytesInDistribution,
        name: "LeaderBytesInDistributionGoal",
        hard: false,
    },
];

impl GoalKind {
    fn default_goal(self) -> DefaultGoal
        ensures kind { result.kind ≡ self }
        ensures name { result.name.now ≡ name_of self }
        ensures hard { result.hard ≡ is_hard_kind self }
    {
        DEFAULT_GOALS[self as usize]
    }

    /// The name of the goal.
    pub fn name(self) -> &'static str
        ensures { result.now ≡ name_of self }
    {
        self.default_goal().name
    }

    /// Whether a plan fails where the goal stays broken.
    pub fn is_hard(self) -> bool
        ensures value { result ≡ is_hard_kind self }
        ensures meaning { (c : Cluster) → (meaning_of self c).hard ≡ result }
    {
        self.default_goal().hard
    }
}
