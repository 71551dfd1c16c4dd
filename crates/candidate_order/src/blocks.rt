// The first candidate of many replicas of one broker, looked for by blocks in order, each by
// several threads.
ghost use Rattle.std.specs.Prelude.{◌≡◌, ◌<◌, List, None, Option, MatchOption, Some, find, length, is_some};
ghost use Rattle.std.specs.List.{All, AllZip, flat_map};
ghost use Rattle.candidate_order.specs.Known.{IsSearchOf, SearchFinds, searched};
ghost use Rattle.plan_terms.specs.declared.actions.Action.{Action};

use crate::kept::{Row, Scan};
use crate::kinds::Kind;
use crate::nexts::first_at;
use crate::order::Order;
use load_model::{Case, LoadBook};
use move_actions::Goal;
use plan_terms::Action;
use rayon::prelude::*;
use std::thread::Threads;

/// So many replicas are a block. The start of a thread takes as long as hundreds of looks.
pub const BLOCK: usize = 2048;

/// What looks for an action of a partition.
pub trait Finder {
    ghost use Rattle.std.specs.Prelude.{ℕ, Option};
    ghost use Rattle.plan_terms.specs.declared.actions.Action.{Action};

    /// What it may be asked for.
    ghost may_ask: { Self → ℕ → Type 0 };

    /// What it finds.
    ghost finds: { Self → ℕ → Option Action → Type 0 };

    fn find(&self, part: u32) -> Option<Action>
        requires { may_ask self.now part }
        ensures { finds self.now part result };
}

/// A search for candidates of one kind for one broker's replicas.
#[derive(Clone, Copy)]
pub struct Search<'a, G> {
    pub kind: Kind,
    pub case: &'a Case,
    pub book: &'a LoadBook,
    pub order: &'a Order,
    pub earlier: &'a [G],
    pub goal: &'a G,
    pub scan: &'a Scan,
    pub source: &'a Row,
}

impl<G: Goal> Finder for Search<'_, G> {
    ghost use Rattle.std.specs.Prelude.{◌<◌, length};
    ghost use Rattle.candidate_order.specs.Known.{IsSearchOf};
    ghost use Rattle.candidate_order.specs.Scan.{Finds};

    ghost may_ask = { λ s p. (p < length s.case.now.parts) × IsSearchOf G.Goal s };

    ghost finds = { λ s p found. Finds G.Goal s.earlier.now s.goal.now s.case.now s.book.now.lists
        s.kind s.source.now.id p found };

    fn find(&self, part: u32) -> Option<Action> {
        first_at(
            self.kind,
            self.case,
            self.book,
            self.order,
            self.earlier,
            self.goal,
            self.scan,
            part,
            self.source,
        )
    }
}

// What is found at the first partition of a block where something is. Each is asked.
fn first_answer<X: Finder + Sync, R: Threads + Sync>(
    rt: &R,
    finder: &X,
    block: &[u32],
) -> Option<Option<Action>>
    requires { All (X.may_ask finder.now) block.now }
    ensures { (found : List (Option Action)) × AllZip (X.finds finder.now) block.now found
        × (result ≡ find (λ o. is_some o) found) }
{
    block
        .par_iter()
        .copied()
        .with_min_len(1)
        .map(
            |part: u32| -> Option<Action>
                requires { X.may_ask finder.now part }
                ensures { X.finds finder.entry.now part result }
            { finder.find(part) },
        )
        .find_first(
            rt,
            |found: &Option<Action>| -> bool
                ensures { result ≡ is_some found.now }
            { found.is_some() },
        )
}

// The first candidate for the replicas of a block that serves.
fn first_of_block<G: Goal + Sync, R: Threads + Sync>(
    rt: &R,
    search: &Search<G>,
    block: &[u32],
) -> Option<Action>
    requires search { IsSearchOf G.Goal search.now }
    requires within { All (λ p. p < length search.now.case.now.parts) block.now }
    ensures { MatchOption result
        (All (λ p. SearchFinds G.Goal search.now (searched search.now p) None) block.now)
        (λ a. SearchFinds G.Goal search.now (flat_map (searched search.now) block.now) (Some a)) }
{
    match first_answer(rt, search, block) {
        Some(found) => found,
        None => None,
    }
}

/// The first candidate for one broker's replicas that serves, looked for by blocks.
pub fn first_by_blocks<G: Goal + Sync, R: Threads + Sync>(
    rt: &R,
    search: &Search<G>,
    replicas: &[u32],
) -> Option<Action>
    requires search { IsSearchOf G.Goal search.now }
    requires within { All (λ p. p < length search.now.case.now.parts) replicas.now }
    ensures { SearchFinds G.Goal search.now (flat_map (searched search.now) replicas.now) result }
{
    let mut from = 0;
    'each: while from < replicas.len() {
        let to = replicas.len().min(from.saturating_add(BLOCK));
        let block = &replicas[from..to];
        let found = first_of_block(rt, search, block);
        if let Some(action) = found {
            return Some(action);
        }
        from = to;
    }
    None
}
