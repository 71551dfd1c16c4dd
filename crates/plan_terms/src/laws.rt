// Laws of the definitions in `specs/`, each the contract of a function that does nothing.
ghost use Rattle.std.specs.Prelude.{◌≡◌, true, false, [], ◌∷◌};
ghost use Rattle.plan_terms.specs.Change.{union};
ghost use Rattle.plan_terms.specs.Examples.{shared_rack, replaced_broker, one_each};
ghost use Rattle.plan_terms.specs.Goal.{measure};
ghost use Rattle.plan_terms.specs.Legal.{is_legal, all_actions};
ghost use Rattle.plan_terms.specs.Load.{count, leaders, load, potential_out, leader_in};
ghost use Rattle.plan_terms.specs.Racks.{rack_goal};
ghost use Rattle.plan_terms.specs.declared.actions.Action.{Action};
ghost use Rattle.plan_terms.specs.Laws.{EachActionOnce, LegalKeepsLists, NoLegalActionHelps, TurnKeepsEarlier};

/// Where a turn ends with none left, no legal action at all that the earlier goals accept lessens
/// the goal.
pub fn no_legal_action_helps()
    ensures { NoLegalActionHelps }
{}

/// A turn worsens no unit of an earlier goal.
pub fn turn_keeps_earlier_goals()
    ensures { TurnKeepsEarlier }
{}

/// A legal action leaves one replica list for each partition, of distinct brokers of the cluster.
pub fn legal_actions_keep_lists()
    ensures { LegalKeepsLists }
{}

/// The list of all actions has each legal action once.
pub fn each_action_is_listed_once()
    ensures { EachActionOnce }
{}

/// What the definitions compute on small clusters.
pub fn definitions_on_examples()
    // Two replicas on one rack can each move to the other, and the follower can lead.
    ensures actions { all_actions shared_rack ((0 ∷ 1 ∷ []) ∷ [])
        ≡ Action.Move 0 0 2 ∷ Action.Move 0 1 2 ∷ Action.Lead 0 1 ∷ [] }
    ensures shared { measure (rack_goal shared_rack) ((0 ∷ 1 ∷ []) ∷ []) ≡ 1 }
    ensures apart { measure (rack_goal shared_rack) ((2 ∷ 1 ∷ []) ∷ []) ≡ 0 }
    ensures too_many { measure (rack_goal shared_rack) ((0 ∷ 1 ∷ 2 ∷ []) ∷ []) ≡ 1 }

    // A replica leaves a lost broker for any other; else replicas move onto new brokers alone.
    ensures off_lost { is_legal replaced_broker one_each (Action.Move 0 0 1) ≡ true }
    ensures off_lost_onto_new { is_legal replaced_broker one_each (Action.Move 0 0 2) ≡ true }
    ensures onto_new { is_legal replaced_broker one_each (Action.Move 1 1 2) ≡ true }
    ensures onto_old { is_legal replaced_broker one_each (Action.Move 2 2 1) ≡ false }

    // A leader carries the leader's load, a follower the follower's.
    ensures leader_load { load shared_rack 3 0 ((0 ∷ 1 ∷ []) ∷ []) ≡ 4 }
    ensures follower_load { load shared_rack 3 1 ((0 ∷ 1 ∷ []) ∷ []) ≡ 7 }
    ensures follower_potential { potential_out shared_rack 1 ((0 ∷ 1 ∷ []) ∷ []) ≡ 3 }
    ensures follower_leads_nothing { leader_in shared_rack 1 ((0 ∷ 1 ∷ []) ∷ []) ≡ 0 }
    ensures places { count 1 one_each ≡ 1 }
    ensures first_places { leaders 0 ((0 ∷ 1 ∷ []) ∷ (1 ∷ 0 ∷ []) ∷ []) ≡ 1 }

    // In flight the old list comes first.
    ensures in_flight { union (0 ∷ 1 ∷ []) (2 ∷ 1 ∷ []) ≡ 0 ∷ 1 ∷ 2 ∷ [] }
{}
