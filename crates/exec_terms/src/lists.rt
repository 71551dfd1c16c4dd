// Replica lists, and the copies between two of them.
ghost use Rattle.std.specs.Prelude.{◌≡◌, ◌≤◌, ◌||◌, IfOk, length, not, slice_get};
ghost use Rattle.std.specs.List.{list_any};
ghost use Rattle.plan_terms.specs.Cluster.{has, leads};
ghost use Rattle.plan_terms.specs.Change.{added, differ, union};
ghost use Rattle.exec_terms.specs.Words.{copies_of, or_commit};

use crate::Work;
use plan_terms::{Memory, Replicas, has};
use std::alloc::Global;

/// The old list, followed by the members of the new one that are not in it.
pub fn union(alloc: Global, before: &[u32], after: &[u32]) -> Result<Replicas, Memory>
    ensures { IfOk result (λ list. list ≡ union before.now after.now) }
{
    let mut ids = Vec::from_slice(alloc, before)?;
    for b in after {
        if !has(before, *b) {
            ids.push(*b)?;
        }
    }
    Ok(Replicas::new(ids))
}

/// How many members of the new list are not in the old one.
pub fn added_count(before: &[u32], after: &[u32]) -> u32
    requires { length after.now ≤ 8 }
    ensures { result ≡ length (added before.now after.now) }
{
    after.iter().filter(|b| !has(before, **b)).count() as u32
}

// Whether some broker of the second list is not in the first.
fn lacks(list: &[u32], other: &[u32]) -> bool
    ensures { result ≡ list_any (λ b. not (has list.now b)) other.now }
{
    other.iter().any(|b| !has(list, *b))
}

/// Whether the two lists differ as sets.
pub fn differs(before: &[u32], after: &[u32]) -> bool
    ensures { result ≡ differ before.now after.now }
{
    lacks(before, after) || lacks(after, before)
}

/// The copy that follows so many done ones, or the commit.
pub fn step_of(before: &[u32], after: &[u32], chunks: u32, done: u32) -> Work
    ensures { result ≡ or_commit (slice_get (copies_of (added before.now after.now) chunks) done) }
{
    let mut left = done;
    for b in after {
        if !has(before, *b) {
            if left < chunks {
                return Work::Copy {
                    to: *b,
                    chunk: left,
                };
            }
            left -= chunks;
        }
    }
    Work::Commit
}
