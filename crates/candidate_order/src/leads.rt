// The first lead of one partition that serves.
ghost use Rattle.std.specs.Prelude.{◌≡◌, ◌<◌, ◌↔◌, true, false, IsTrue, length};
ghost use Rattle.std.specs.List.{All};
ghost use Rattle.candidate_order.specs.Known.{FindsFirst, IsRowFor, IsScanFor, StepFor};
ghost use Rattle.plan_terms.specs.Belongs.{IsBookOf};
ghost use Rattle.plan_terms.specs.Cluster.{list_of, leads, is_known};
ghost use Rattle.plan_terms.specs.Legal.{leads_of};
ghost use Rattle.plan_terms.specs.declared.actions.Action.{Action};

use crate::kept::{Row, Scan, column, row_of};
use crate::swaps::may_swap;
use crate::trades::trade_serves;
use load_model::{Case, LoadBook};
use move_actions::Goal;
use plan_terms::Action;

// Whether a lead of a partition, whose first member is the source, to one broker serves.
fn lead_serves<G: Goal>(
    case: &Case,
    book: &LoadBook,
    earlier: &[G],
    goal: &G,
    scan: &Scan,
    part: u32,
    source: &Row,
    to: u32,
) -> bool
    // The goals and the book are of the case.
    requires made { All (λ g. G.made_for g case.now) earlier.now }
    requires made_goal { G.made_for goal.now case.now }
    requires belongs { IsBookOf case.now book.now }
    // The scan is of these lists, and the source leads the partition.
    requires scan { IsScanFor G.Goal case.now book.now.lists earlier.now goal.now scan.now }
    requires part { part < length case.now.parts }
    requires first { leads (list_of book.now.lists part) source.now.id ≡ true }
    requires source { IsRowFor G.Goal case.now book.now.lists earlier.now goal.now source.now }
    requires known { IsTrue (is_known case.now to) }
    // What the answer says.
    ensures { IsTrue result
        ↔ StepFor G.Goal case.now book.now.lists earlier.now goal.now (Action.Lead part to) }
{
    let _brokers = case.brokers();
    let _lists = book.lists();
    let target = row_of(case, book, earlier, goal, scan, to);
    let out = goal.weight(case, part, true);
    let back = goal.weight(case, part, false);
    if !may_swap(out, back, source.heat, target.heat) {
        return false;
    }
    let weights = scan.weights.as_slice();
    let outs = column(case, earlier, weights, part, true);
    let backs = column(case, earlier, weights, part, false);
    let action = Action::Lead { part, to };
    let givers = source.rooms.as_slice();
    let takers = target.rooms.as_slice();
    trade_serves(
        case, book, earlier, goal, part, action, outs, backs, givers, takers,
    )
}

// Whether a lead of a partition, whose first member is the source, to one of its members serves. A
// lead to any other broker isn't legal.
fn some_lead_serves<G: Goal>(
    case: &Case,
    book: &LoadBook,
    earlier: &[G],
    goal: &G,
    scan: &Scan,
    part: u32,
    source: &Row,
) -> bool
    // The goals and the book are of the case.
    requires made { All (λ g. G.made_for g case.now) earlier.now }
    requires made_goal { G.made_for goal.now case.now }
    requires belongs { IsBookOf case.now book.now }
    // The scan is of these lists, and the source leads the partition.
    requires scan { IsScanFor G.Goal case.now book.now.lists earlier.now goal.now scan.now }
    requires part { part < length case.now.parts }
    requires first { leads (list_of book.now.lists part) source.now.id ≡ true }
    requires source { IsRowFor G.Goal case.now book.now.lists earlier.now goal.now source.now }
    // What the answer says.
    ensures { result ≡ false
        → All
        (λ b. StepFor G.Goal case.now book.now.lists earlier.now goal.now (Action.Lead part b)
        → ⊥) (list_of book.now.lists part) }
{
    let _lists = book.lists();
    let members = book.list(part as usize);
    for member in members {
        if lead_serves(case, book, earlier, goal, scan, part, source, *member) {
            return true;
        }
    }
    false
}

/// The first lead of a partition, whose first member is the source, that serves, by the order of
/// the brokers.
pub fn first_lead<G: Goal>(
    case: &Case,
    book: &LoadBook,
    earlier: &[G],
    goal: &G,
    scan: &Scan,
    part: u32,
    source: &Row,
) -> Option<Action>
    // The goals and the book are of the case.
    requires made { All (λ g. G.made_for g case.now) earlier.now }
    requires made_goal { G.made_for goal.now case.now }
    requires belongs { IsBookOf case.now book.now }
    // The scan is of these lists, and the source leads the partition.
    requires scan { IsScanFor G.Goal case.now book.now.lists earlier.now goal.now scan.now }
    requires part { part < length case.now.parts }
    requires first { leads (list_of book.now.lists part) source.now.id ≡ true }
    requires source { IsRowFor G.Goal case.now book.now.lists earlier.now goal.now source.now }
    // The first that serves, or none does.
    ensures { FindsFirst G.Goal case.now book.now.lists earlier.now goal.now
        (leads_of case.now.brokers part) result }
{
    let _brokers = case.brokers();
    if !some_lead_serves(case, book, earlier, goal, scan, part, source) {
        return None;
    }
    let weights = scan.weights.as_slice();
    let outs = column(case, earlier, weights, part, true);
    let backs = column(case, earlier, weights, part, false);
    let givers = source.rooms.as_slice();
    let rows = scan.rows.as_slice();
    for row in rows {
        let action = Action::Lead { part, to: row.id };
        let takers = row.rooms.as_slice();
        if trade_serves(
            case, book, earlier, goal, part, action, outs, backs, givers, takers,
        ) {
            return Some(action);
        }
    }
    None
}
