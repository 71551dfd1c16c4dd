// The partitions whose lists differ between two assignments.
ghost use Rattle.std.specs.Prelude.{◌≡◌, ◌<◌, IfOk, length};
ghost use Rattle.std.specs.List.{All};
ghost use Rattle.plan_terms.specs.Change.{proposal_at, proposals};

use load_model::Assign;
use plan_terms::{Memory, Proposal, Replicas};
use std::alloc::Global;

fn proposal_at(
    alloc: Global,
    before: &Assign,
    after: &Assign,
    part: usize,
) -> Result<Proposal, Memory>
    requires before { part < length before.now }
    requires after { part < length after.now }
    ensures { IfOk result (λ p. p ≡ proposal_at before.now after.now part) }
{
    let _few = before.len();
    Ok(Proposal {
        part: part as u32,
        before: Replicas::of(alloc, before.list(part))?,
        after: Replicas::of(alloc, after.list(part))?,
    })
}

/// One proposal for each partition whose lists differ, in order of the partitions.
#[tactic(auto, unfolding(plan_terms::specs::Change::proposals))]
pub fn proposals(alloc: Global, before: &Assign, after: &Assign) -> Result<Vec<Proposal>, Memory>
    requires { length before.now ≡ length after.now }
    ensures changes { IfOk result (λ v. v.items ≡ proposals before.now after.now) }
    ensures within { IfOk result (λ v. All (λ p. p.part < length before.now) v.items) }
{
    let mut changes = Vec::new(alloc);
    for part in 0..before.len() {
        if before.list(part) != after.list(part) {
            changes.push(proposal_at(alloc, before, after, part)?)?;
        }
    }
    Ok(changes)
}
