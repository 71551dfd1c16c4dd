// What a look shows.
ghost use Rattle.std.specs.Prelude.{◌≡◌};
ghost use Rattle.plan_terms.specs.Belongs.{Belongs};

use load_model::{Assign, Case};
use plan_terms::ListOf;
use std::marker::Model;

/// What a look shows: the lost brokers that a list names, each with the moment in milliseconds
/// since which it is known to be lost; the present cluster; and its settled lists.
#[derive(Drop)]
pub struct Looked {
    since: ListOf<(u32, u64)>,
    case: Case,
    lists: Assign,
}

impl Model for Looked {
    ghost use Rattle.plan_terms.specs.Belongs.{Belongs};
    ghost use Rattle.core_terms.specs.Looked.{LookedView};

    ghost Value = { LookedView };

    ghost view = { λ l. record { since = l.since; case = l.case; lists = l.lists } };

    ghost invariant = { λ l. Belongs l.case l.lists };
}

impl Looked {
    /// A look that shows these.
    pub fn new(since: ListOf<(u32, u64)>, case: Case, lists: Assign) -> Looked
        requires { Belongs case lists }
        ensures { result ≡ record { since = since; case = case; lists = lists } }
    {
        Looked { since, case, lists }
    }

    /// The lost brokers, each with its moment.
    pub fn since(&self) -> &[(u32, u64)]
        ensures { result.now ≡ self.now.since }
    {
        self.since.as_slice()
    }

    /// The present cluster.
    pub fn case(&self) -> &Case
        ensures value { result.now ≡ self.now.case }
        ensures belongs { Belongs self.now.case self.now.lists }
    {
        &self.case
    }

    /// The settled lists.
    pub fn lists(&self) -> &Assign
        ensures value { result.now ≡ self.now.lists }
        ensures belongs { Belongs self.now.case self.now.lists }
    {
        &self.lists
    }
}
