// Which actions are legal.
ghost use Rattle.std.specs.Prelude.{◌≡◌, ◌||◌};
ghost use Rattle.plan_terms.specs.States.{is_dead, is_new, is_demoted};
ghost use Rattle.plan_terms.specs.Cluster.{list_of, has, leads, some_broker};
ghost use Rattle.plan_terms.specs.Legal.{is_live, is_lost, is_open, leader_fails, may_gain, is_legal};

use load_model::{Assign, Case, LoadBook};
use plan_terms::{Action, Replicas, has, leads};

/// The list of a partition, or an empty one past the last.
pub fn list_at(lists: &[Replicas], part: u32) -> &[u32]
    ensures { result.now ≡ list_of lists.now part }
{
    let place = part as usize;
    if place < lists.len() {
        lists[place].as_slice()
    } else {
        &[]
    }
}

fn may_gain(case: &Case, broker: u32) -> bool
    ensures { result ≡ may_gain case.now broker }
{
    case.is_new(broker) || !case.any_new()
}

/// Whether it is a partition of the case whose topic isn't excluded.
pub fn is_open(case: &Case, part: u32) -> bool
    ensures { result ≡ is_open case.now.parts part }
{
    let parts = case.parts();
    let place = part as usize;
    place < parts.len() && !parts[place].excluded
}

fn is_failing(case: &Case, broker: u32) -> bool
    ensures { result ≡ some_broker (λ y. is_dead y.state || is_demoted y.state) case.now broker }
{
    match case.broker(broker) {
        Some(x) => x.state.is_dead() || x.state.is_demoted(),
        None => false,
    }
}

fn leader_fails(case: &Case, list: &[u32]) -> bool
    ensures { result ≡ leader_fails case.now list.now }
{
    match list {
        [] => false,
        [first, ..] => is_failing(case, *first),
    }
}

/// Whether the action is legal on the lists.
#[tactic(auto, unfolding(plan_terms::specs::Legal::is_legal))]
pub fn is_legal_on(case: &Case, lists: &[Replicas], action: Action) -> bool
    ensures { result ≡ is_legal case.now lists.now action }
{
    match action {
        Action::Move { part, from, to } => {
            let list = list_at(lists, part);
            has(list, from)
                && case.is_live(to)
                && !has(list, to)
                && (case.is_lost(from)
                    || is_open(case, part) && !case.options().leads_only && may_gain(case, to))
        }
        Action::Lead { part, to } => {
            let list = list_at(lists, part);
            has(list, to)
                && !leads(list, to)
                && case.is_live(to)
                && (is_open(case, part) || leader_fails(case, list))
        }
        Action::Swap {
            part,
            from,
            other,
            to,
        } => {
            let list = list_at(lists, part);
            let other_list = list_at(lists, other);
            part < other
                && has(list, from)
                && !has(other_list, from)
                && has(other_list, to)
                && !has(list, to)
                && case.is_live(from)
                && case.is_live(to)
                && is_open(case, part)
                && is_open(case, other)
                && !case.options().leads_only
                && !case.any_new()
        }
    }
}

/// Whether the action is legal on the book's lists: see [`Action`] for what each does.
///
/// A move needs a source that is a member and a target that is a live broker and none. It is legal
/// where its source is lost, and where the partition's topic isn't excluded, more than leaders may
/// change, and the target is new or no broker is. A lead needs a live member other than the first,
/// and a topic that isn't excluded or a first member that is lost or demoted. A swap goes from a
/// partition to a later one, exchanges two live brokers that are each a member of the one list
/// alone, and needs that neither topic is excluded, more than leaders may change and no broker is
/// new.
pub fn legal(case: &Case, book: &LoadBook, action: Action) -> bool
    ensures { result ≡ is_legal case.now book.now.lists action }
{
    is_legal_on(case, book.lists().lists(), action)
}
