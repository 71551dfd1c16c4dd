// What a goal over partitions asks of one list.
ghost use Rattle.plan_terms.specs.Cluster.{Cluster};
ghost use Rattle.std.specs.Prelude.{◌≡◌, ◌≤◌, ℕ, Bool, List, length};

use load_model::Case;

/// What a goal asks of one list.
pub trait ListRule: Sized {
    /// How far a list exceeds the rule.
    ghost list_excess: { Self → Cluster → List ℕ → ℕ };

    /// Whether a plan fails where a list exceeds the rule.
    ghost hard: { Self → Bool };

    /// The rule.
    fn new() -> Self;

    /// Whether a plan fails where a list exceeds the rule.
    fn is_hard(&self) -> bool
        ensures { result ≡ hard self.now };

    /// How far a list exceeds the rule.
    fn excess_of(&self, case: &Case, list: &[u32]) -> usize
        ensures { result ≡ list_excess self.now case.now list.now };

    /// No list exceeds it by more than its members.
    ghost within: { (r : Self) (c : Cluster) (list : List ℕ) → list_excess r c list ≤ length list };
}
