// The rack rule: members minus their distinct racks.
ghost use Rattle.std.specs.Prelude.{◌≡◌, ℕ, ◌+◌, ◌<◌, ◌≤◌, true, List, length, drop, option_map};
ghost use Rattle.std.specs.List.{list_any};
ghost use Rattle.plan_terms.specs.Cluster.{Cluster};
ghost use Rattle.plan_terms.specs.Racks.{rack_of, same_rack, rack_count, rack_excess, equal_racks};

use load_model::Case;
use partition_goals::{ListRule, PartitionGoal};
use plan_terms::RackName;

/// The rule that the members of a list stand on distinct racks. A broker without a rack is a rack
/// of its own.
#[derive(Clone, Copy)]
pub struct RackRule;

/// The goal that the replicas of each partition stand on distinct racks, which is hard: Cruise
/// Control's RackAwareGoal. A partition's excess is its members minus their distinct racks.
pub type RackAwareGoal = PartitionGoal<RackRule>;

fn rack_at(case: &Case, id: u32) -> Option<&RackName>
    ensures { option_map (λ r. r.now) result ≡ rack_of case.now id }
{
    case.broker(id)?.rack.as_ref()
}

fn are_equal(one: Option<&RackName>, other: Option<&RackName>) -> bool
    ensures { result
        ≡ equal_racks (option_map (λ r. r.now) one.entry) (option_map (λ r. r.now) other.entry) }
{
    match one {
        None => false,
        Some(x) => match other {
            None => false,
            Some(y) => x.as_str() == y.as_str(),
        },
    }
}

#[tactic(auto, unfolding(plan_terms::specs::Racks::same_rack))]
fn share_rack(case: &Case, a: u32, b: u32) -> bool
    ensures { result ≡ same_rack case.now a b }
{
    if a == b {
        return true;
    }
    are_equal(rack_at(case, a), rack_at(case, b))
}

// Whether a later member stands on the same rack.
fn stands_again(case: &Case, a: u32, later: &[u32]) -> bool
    ensures { result ≡ list_any (same_rack case.now a) later.now }
{
    for b in later {
        if share_rack(case, a, *b) {
            return true;
        }
    }
    false
}

fn count_racks(case: &Case, list: &[u32]) -> usize
    ensures { result ≡ rack_count case.now list.now }
{
    let mut racks = 0usize;
    for i in 0..list.len() {
        if !stands_again(case, list[i], &list[i + 1..]) {
            racks += 1;
        }
    }
    racks
}

impl ListRule for RackRule {
    ghost use Rattle.plan_terms.proofs.RackLemmas.{rack_excess-le};

    ghost list_excess = { λ _ c list. rack_excess c list };

    ghost hard = { λ _. true };

    fn new() -> Self {
        RackRule
    }

    fn is_hard(&self) -> bool {
        true
    }

    #[tactic(auto, unfolding(plan_terms::specs::Racks::rack_excess))]
    fn excess_of(&self, case: &Case, list: &[u32]) -> usize {
        let racks = count_racks(case, list);
        list.len() - racks
    }

    ghost within = { λ _ c list. rack_excess-le c list };
}
