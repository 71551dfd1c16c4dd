// Laws of the definitions in `specs/`, each the contract of a function that does nothing.
ghost use Rattle.std.specs.Prelude.{◌≡◌, true, false, [], ◌∷◌};
ghost use Rattle.plan_terms.specs.Examples.{shared_rack, replaced_broker, one_each};
ghost use Rattle.plan_terms.specs.Belongs.{Belongs};
ghost use Rattle.plan_terms.specs.Faults.{IsCase};
ghost use Rattle.plan_terms.specs.Goal.{measure};
ghost use Rattle.goal_terms.specs.Bands.{at_most, units_of, whole_cap, within_capacity, even, near_use, below_use};
ghost use Rattle.goal_terms.specs.Examples.{demoted_broker};
ghost use Rattle.goal_terms.specs.Heats.{broker_heat, partition_heat};
ghost use Rattle.goal_terms.specs.Partitions.{lost_members, evacuation_goal, demotion_goal};
ghost use Rattle.goal_terms.specs.declared.heat.Heat.TheVariants as heat;
ghost use Rattle.plan_terms.specs.declared.actions.Action.{Action};
ghost use Rattle.goal_terms.specs.PerBroker.{per_broker};
ghost use Rattle.goal_terms.specs.PerTopic.{per_topic, replica_rule};
ghost use Rattle.goal_terms.specs.Quantity.{trade, replica_weights, leader_weights, load_weights, potential_out_weights, leader_in_weights};
ghost use Rattle.goal_terms.specs.Laws.{CasesAreLimited, ActionsTrade, TotalsStay, QuantitiesAreSmall, MeasuresAreSmall, WeightsAreSmall, BoundsAreSmall, PartitionMeasuresAreSmall, TwoBrokersAccept, TwoBrokersLessen, BrokerRoomsDecide, RoomsStay, HeatsTell, ColdBrokersLessenNothing, ColdMembersLessenNothing, StillPartsLessenNothing, IdleTradesLessenNothing, QuantitiesAreSums, TotalsAreSums, ExcessesInNumbers, TopicsComeFirst, TopicsAddUp, TouchedTopicsAccept, ColdTopicsLessenNothing, TopicMeasuresAreSmall, GoalMeasuresAreSmall, LegalityStays, AllVerdictsStay};
ghost use Rattle.plan_terms.specs.Resources.{NW_IN, DISK};

/// Brokers and partitions without a fault are within the limits.
pub fn cases_are_limited()
    ensures { CasesAreLimited }
{}

/// For every action that fits, the quantities after it are what its trade says.
pub fn actions_trade()
    ensures { ActionsTrade }
{}

/// No action changes what all brokers carry together.
pub fn totals_stay()
    ensures { TotalsStay }
{}

/// Quantities are below 2^49.
pub fn quantities_are_small()
    ensures { QuantitiesAreSmall }
{}

/// The measure of a goal over brokers is below 2^120.
pub fn measures_are_small()
    ensures { MeasuresAreSmall }
{}

/// The weights of each quantity are small.
pub fn weights_are_small()
    ensures { WeightsAreSmall }
{}

/// The bounds of each goal over brokers are small.
pub fn bounds_are_small()
    ensures { BoundsAreSmall }
{}

/// The measures of the goals about lost and demoted brokers are below 2^120.
pub fn partition_measures_are_small()
    ensures { PartitionMeasuresAreSmall }
{}

/// A goal over brokers accepts an action exactly where neither of its two brokers' excesses rises.
pub fn two_brokers_accept()
    ensures { TwoBrokersAccept }
{}

/// An action lessens a goal over brokers exactly where its two brokers' excesses together fall.
pub fn two_brokers_lessen()
    ensures { TwoBrokersLessen }
{}

/// A goal over brokers accepts an action exactly where its two brokers stay in their rooms.
pub fn broker_rooms_decide()
    ensures { BrokerRoomsDecide }
{}

/// An action leaves the rooms of all brokers but its two as they are.
pub fn rooms_stay()
    ensures { RoomsStay }
{}

/// What the heat of a broker says of its quantity.
pub fn heats_tell()
    ensures { HeatsTell }
{}

/// An action of two cold brokers lessens no goal over brokers.
pub fn cold_brokers_lessen_nothing()
    ensures { ColdBrokersLessenNothing }
{}

/// An action of two brokers, neither of which holds a member of a partition with an excess, lessens
/// no goal over partitions.
pub fn cold_members_lessen_nothing()
    ensures { ColdMembersLessenNothing }
{}

/// An action of partitions without an excess lessens no goal over partitions.
pub fn still_parts_lessen_nothing()
    ensures { StillPartsLessenNothing }
{}

/// An action that trades equal weights lessens no goal over brokers, nor does one that gives more
/// to a broker that isn't below its bounds and less to one that isn't above them.
pub fn idle_trades_lessen_nothing()
    ensures { IdleTradesLessenNothing }
{}

/// The quantities are the counts and loads that they stand for.
pub fn quantities_are_sums()
    ensures { QuantitiesAreSums }
{}

/// What all brokers carry together is what each carries, added up.
pub fn totals_are_sums()
    ensures { TotalsAreSums }
{}

/// The excesses of the goals over brokers, in numbers.
pub fn excesses_in_numbers()
    ensures { ExcessesInNumbers }
{}

/// The units of a goal over topics and brokers go by topic first.
pub fn topics_come_first()
    ensures { TopicsComeFirst }
{}

/// The measure of a goal over topics and brokers is the sum of those of its topics.
pub fn topics_add_up()
    ensures { TopicsAddUp }
{}

/// A goal over topics and brokers accepts an action exactly where the goals for the topics that it
/// touches do.
pub fn touched_topics_accept()
    ensures { TouchedTopicsAccept }
{}

/// An action of two brokers, neither of which has an excess for some topic, lessens no goal over
/// topics and brokers.
pub fn cold_topics_lessen_nothing()
    ensures { ColdTopicsLessenNothing }
{}

/// The measure of the goal that each topic is spread evenly is below 2^120.
pub fn topic_measures_are_small()
    ensures { TopicMeasuresAreSmall }
{}

/// The measures of all goals over brokers are below 2^120.
pub fn goal_measures_are_small()
    ensures { GoalMeasuresAreSmall }
{}

/// An action leaves legal and illegal what it finds so, where the two share no partition.
pub fn legality_stays()
    ensures { LegalityStays }
{}

/// An action leaves what each goal says of every other that shares no broker and no partition with
/// it.
pub fn verdicts_stay()
    ensures { AllVerdictsStay }
{}

/// What the definitions compute on small clusters.
pub fn goals_on_examples()
    // The cluster and its lists are such as the laws speak of.
    ensures case { IsCase shared_rack }
    ensures lists { Belongs shared_rack ((0 ∷ 1 ∷ []) ∷ []) }

    // One replica each on three brokers, one of which is lost and is no unit.
    ensures most_none { measure (per_broker true replica_weights (at_most 0) replaced_broker)
        one_each ≡ 2 }
    ensures most_one { measure (per_broker true replica_weights (at_most 1) replaced_broker)
        one_each ≡ 0 }

    // The leader carries 4 and the follower 7, of capacities of 9, half of which may be used: 14 -
    // 9.
    ensures capacity { measure
        (per_broker true (load_weights DISK) (within_capacity (record { num = 1; den = 2 }) 3)
        shared_rack) ((0 ∷ 1 ∷ []) ∷ []) ≡ 5 }

    // Three replicas on one of two brokers: it may have 2, and the other is to have 1.
    ensures shares { measure
        (per_broker false replica_weights
        (even (record { num = 1; den = 1 }) (units_of replaced_broker)) replaced_broker)
        ((1 ∷ []) ∷ (1 ∷ []) ∷ (1 ∷ []) ∷ []) ≡ 2 }

    // One leader on one of three brokers: it may have 1, and the others may have none.
    ensures leaders { measure
        (per_broker false leader_weights
        (even (record { num = 1; den = 1 }) (units_of shared_rack)) shared_rack)
        ((0 ∷ 1 ∷ []) ∷ []) ≡ 0 }

    // Loads of 4, 7 and 0, times 27, lie 9 above, 90 above and 99 below 11 times 9.
    ensures near { measure
        (per_broker false (load_weights DISK)
        (near_use (record { num = 1; den = 1 }) 3 (whole_cap DISK shared_rack)) shared_rack)
        ((0 ∷ 1 ∷ []) ∷ []) ≡ 198 }

    // The follower would send what its leader does: 3 times 9, and twice 18 above a ninth of 9.
    ensures potential { measure
        (per_broker false potential_out_weights
        (within_capacity (record { num = 1; den = 9 }) 2) shared_rack) ((0 ∷ 1 ∷ []) ∷ [])
        ≡ 36 }

    // The leader alone receives from clients: 2 times 27 lies 36 above 2 times 9.
    ensures inbound { measure
        (per_broker false leader_in_weights
        (below_use (record { num = 1; den = 1 }) 1 (whole_cap NW_IN shared_rack))
        shared_rack) ((0 ∷ 1 ∷ []) ∷ []) ≡ 36 }

    // One of the three replicas is on a lost broker.
    ensures lost { measure (evacuation_goal replaced_broker) one_each ≡ 1 }

    // A broker that is not to lead may follow.
    ensures demoted { measure (demotion_goal demoted_broker) ((0 ∷ 1 ∷ []) ∷ []) ≡ 1 }
    ensures followed { measure (demotion_goal demoted_broker) ((1 ∷ 0 ∷ []) ∷ []) ≡ 0 }

    // The only topic's three replicas, on one of two brokers as before.
    ensures topics { measure
        (per_topic false
        (replica_rule (even (record { num = 1; den = 1 }) (units_of replaced_broker)))
        replaced_broker) ((1 ∷ []) ∷ (1 ∷ []) ∷ (1 ∷ []) ∷ []) ≡ 2 }

    // A broker is above or below its bounds, or cold, as one that is lost.
    ensures above { broker_heat replica_weights (at_most 0) replaced_broker one_each 1
        ≡ heat.Above }
    ensures below { broker_heat replica_weights
        (even (record { num = 1; den = 1 }) (units_of replaced_broker)) replaced_broker
        ((1 ∷ []) ∷ (1 ∷ []) ∷ (1 ∷ []) ∷ []) 2 ≡ heat.Below }
    ensures cold { broker_heat replica_weights (at_most 1) replaced_broker one_each 1 ≡ heat.Cold }
    ensures lost_is_cold { broker_heat replica_weights (at_most 0) replaced_broker one_each 0
        ≡ heat.Cold }
    ensures other { partition_heat (lost_members replaced_broker) one_each 0 ≡ heat.Other }

    // What an action gives and gets back: the leader's load, or the follower's.
    ensures moved { trade (load_weights DISK) shared_rack.parts ((0 ∷ 1 ∷ []) ∷ [])
        (Action.Move 0 1 2) ≡ record { from = 1; to = 2; out = 7; back = 0 } }
    ensures led { trade (load_weights DISK) shared_rack.parts ((0 ∷ 1 ∷ []) ∷ []) (Action.Lead 0 1)
        ≡ record { from = 0; to = 1; out = 4; back = 7 } }
    ensures swapped { trade (load_weights DISK) replaced_broker.parts ((1 ∷ []) ∷ (2 ∷ 0 ∷ []) ∷ [])
        (Action.Swap 0 1 1 0) ≡ record { from = 1; to = 0; out = 4; back = 7 } }
{}
