// What an action does to a book.
ghost use Rattle.std.specs.Prelude.{◌≡◌, ℕ, ◌<◌, length, slice_set, get_or, IsTrue, false};
ghost use Rattle.plan_terms.specs.Belongs.{Belongs};
ghost use Rattle.plan_terms.specs.Cluster.{Cluster, Lists, list_of, has, leads, is_known};
ghost use Rattle.plan_terms.specs.Effect.{replace, exchange_first, after, inverse};
ghost use Rattle.plan_terms.specs.Fits.{fits, targets_known};

use load_model::{Case, LoadBook};
use plan_terms::Action;

/// Lists that actions change.
pub trait Moves {
    /// The lists as they stand.
    ghost lists: { Self → Lists };

    /// The cluster whose loads they put on brokers.
    ghost cluster: { Self → Cluster };

    /// Makes the change of an action.
    fn apply(&mut self, case: &Case, action: Action)
        requires belongs { Belongs case.now (lists self.old) }
        requires applies { IsTrue (fits (lists self.old) action) }
        requires known { IsTrue (targets_known case.now action) }
        ensures lists { lists self.new ≡ after action (lists self.old) }
        ensures cluster { cluster self.new ≡ cluster self.old };

    /// The action that takes the lists after the action back to these.
    fn inverse(&self, action: Action) -> Action
        requires { IsTrue (fits (lists self.now) action) }
        ensures value { result ≡ inverse (lists self.now) action }
        ensures undoes { after result (after action (lists self.now)) ≡ lists self.now }
        ensures applies { IsTrue (fits (after action (lists self.now)) result) };
}

/// The first place of a member.
pub fn place_of(list: &[u32], broker: u32) -> usize
    requires { IsTrue (has list.now broker) }
    ensures within { result < length list.now }
    ensures at { get_or list.now result 0 ≡ broker }
    ensures put { (b : ℕ) → replace broker b list.now ≡ slice_set list.now result b }
{
    for (i, x) in list.iter().enumerate() {
        if *x == broker {
            return i;
        }
    }
    unreachable!()
}

// Puts one broker into another's place.
fn put_for(book: &mut LoadBook, case: &Case, part: u32, from: u32, to: u32)
    requires member { IsTrue (has (list_of book.old.lists part) from) }
    requires new { has (list_of book.old.lists part) to ≡ false }
    requires known { IsTrue (is_known case.now to) }
    ensures { book.new
        ≡ record book.old {
          lists = slice_set book.old.lists part (replace from to (list_of book.old.lists part));
        } }
{
    let place = place_of(book.list(part as usize), from);
    book.put(case, part as usize, place, to);
}

// Makes a member the leader.
fn put_first(book: &mut LoadBook, case: &Case, part: u32, to: u32)
    requires member { IsTrue (has (list_of book.old.lists part) to) }
    requires later { leads (list_of book.old.lists part) to ≡ false }
    ensures { book.new
        ≡ record book.old {
          lists = slice_set book.old.lists part (exchange_first to (list_of book.old.lists part));
        } }
{
    let place = place_of(book.list(part as usize), to);
    book.exchange(case, part as usize, place);
}

impl Moves for LoadBook {
    ghost lists = { λ b. b.lists };

    ghost cluster = { λ b. b.cluster };

    fn apply(&mut self, case: &Case, action: Action) {
        match action {
            Action::Move { part, from, to } => put_for(self, case, part, from, to),
            Action::Lead { part, to } => put_first(self, case, part, to),
            Action::Swap {
                part,
                from,
                other,
                to,
            } => {
                put_for(self, case, part, from, to);
                put_for(self, case, other, to, from);
            }
        }
    }

    fn inverse(&self, action: Action) -> Action {
        let _lists = self.lists();
        match action {
            Action::Move { part, from, to } => Action::Move {
                part,
                from: to,
                to: from,
            },
            Action::Lead { part, .. } => Action::Lead {
                part,
                to: self.list(part as usize)[0],
            },
            Action::Swap {
                part,
                from,
                other,
                to,
            } => Action::Swap {
                part,
                from: to,
                other,
                to: from,
            },
        }
    }
}
