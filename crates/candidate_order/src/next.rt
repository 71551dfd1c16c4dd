// The first candidate that serves.
ghost use Rattle.std.specs.Prelude.{IsTrue, IfOk, IfSome};
ghost use Rattle.std.specs.List.{All};
ghost use Rattle.candidate_order.specs.Known.{FindsNext, IsKeptFor, IsScanFor, NoneLeftFor};
ghost use Rattle.candidate_order.specs.Order.{IsOrderOf};
ghost use Rattle.candidate_order.specs.Rests.{IsRestsFor};
ghost use Rattle.candidate_order.specs.Scan.{AreStirring};
ghost use Rattle.plan_terms.specs.Belongs.{IsBookOf};

use crate::kept::{Choice, Scan, all_again, all_below, all_chosen, all_cold, all_stirring};
use crate::kinds::Kind;
use crate::nexts::next_in;
use crate::order::Order;
use crate::rests::Rests;
use load_model::{Case, LoadBook};
use move_actions::Goal;
use plan_terms::{Action, Memory};
use std::alloc::Global;
use std::thread::Threads;

// Whether no broker lies outside its bounds. Then no action is left.
fn is_at_rest<G: Goal>(case: &Case, book: &LoadBook, earlier: &[G], goal: &G, scan: &Scan) -> bool
    requires made_goal { G.made_for goal.now case.now }
    requires belongs { IsBookOf case.now book.now }
    requires scan { IsScanFor G.Goal case.now book.now.lists earlier.now goal.now scan.now }
    ensures { IsTrue result → NoneLeftFor G.Goal case.now book.now.lists earlier.now goal.now }
{
    let _brokers = case.brokers();
    let _lists = book.lists();
    let _goals = earlier.len();
    let rows = scan.rows.as_slice();
    all_cold(rows)
}

// Whether there is no partition whose actions may help the goal. Then no action is left.
fn is_still<G: Goal>(
    case: &Case,
    book: &LoadBook,
    earlier: &[G],
    goal: &G,
    stirring: &[u32],
) -> bool
    requires made_goal { G.made_for goal.now case.now }
    requires belongs { IsBookOf case.now book.now }
    requires stirring { AreStirring (G.stirs_at goal.now case.now book.now.lists) case.now.parts
        stirring.now }
    ensures { IsTrue result → NoneLeftFor G.Goal case.now book.now.lists earlier.now goal.now }
{
    let _brokers = case.brokers();
    let _lists = book.lists();
    let _goals = earlier.len();
    stirring.is_empty()
}

// The first candidate that serves, by what is known of the brokers.
fn first_candidate<G: Goal + Sync, R: Threads + Sync>(
    rt: &R,
    case: &Case,
    book: &LoadBook,
    order: &Order,
    earlier: &[G],
    goal: &G,
    scan: &mut Scan,
) -> Option<Action>
    requires made { All (λ g. G.made_for g case.now) earlier.now }
    requires made_goal { G.made_for goal.now case.now }
    requires belongs { IsBookOf case.now book.now }
    requires order { IsOrderOf case.now book.now.lists order.now }
    requires scan { IsScanFor G.Goal case.now book.now.lists earlier.now goal.now scan.old }
    ensures next { FindsNext G.Goal case.now book.now.lists earlier.now goal.now result }
    ensures scan { IsScanFor G.Goal case.now book.now.lists earlier.now goal.now scan.new }
{
    if is_at_rest(case, book, earlier, goal, scan) {
        return None;
    }
    let next_move = next_in(rt, Kind::Moves, case, book, order, earlier, goal, scan);
    if let Some(action) = next_move {
        return Some(action);
    }
    let next_lead = next_in(rt, Kind::Leads, case, book, order, earlier, goal, scan);
    if let Some(action) = next_lead {
        return Some(action);
    }
    let next_swap = next_in(rt, Kind::Swaps, case, book, order, earlier, goal, scan);
    if let Some(action) = next_swap {
        return Some(action);
    }
    None
}

/// The first action of the list of candidates that each earlier goal accepts and that lessens the
/// goal. `None` comes exactly where no legal action does. The swaps of a broker with many replicas
/// are looked for by threads, with the same answer.
///
/// `scan` is what was known of these lists, as [`Scan::new`] or, since the last action,
/// [`Scan::note`] left it.
pub fn next_lessening<G: Goal + Sync, R: Threads + Sync>(
    rt: &R,
    alloc: Global,
    case: &Case,
    book: &LoadBook,
    order: &Order,
    scan: &mut Scan,
    earlier: &[G],
    goal: &G,
) -> Result<Option<Action>, Memory>
    // The goals and the book are of the case.
    requires made { All (λ g. G.made_for g case.now) earlier.now }
    requires made_goal { G.made_for goal.now case.now }
    requires belongs { IsBookOf case.now book.now }
    // The order is of these lists, and the scan is kept from the last ones.
    requires order { IsOrderOf case.now book.now.lists order.now }
    requires kept { IsKeptFor G.Goal case.now book.now.lists earlier.now scan.old }
    // The next action, and the scan with it.
    ensures next { IfOk result
        (λ next. FindsNext G.Goal case.now book.now.lists earlier.now goal.now next) }
    ensures scan { IfOk result (λ next. IfSome next
        (λ _. IsScanFor G.Goal case.now book.now.lists earlier.now goal.now scan.new)) }
{
    scan.rests = Rests::new(alloc, case, book, earlier, goal)?;
    next_in_turn(rt, alloc, case, book, order, scan, earlier, goal)
}

/// The same in a goal's turn, where the scan remembers what was found not to serve: of these lists, as
/// [`Scan::new`] or, since the last action, [`Scan::step`] left it.
pub fn next_in_turn<G: Goal + Sync, R: Threads + Sync>(
    rt: &R,
    alloc: Global,
    case: &Case,
    book: &LoadBook,
    order: &Order,
    scan: &mut Scan,
    earlier: &[G],
    goal: &G,
) -> Result<Option<Action>, Memory>
    // The goals and the book are of the case.
    requires made { All (λ g. G.made_for g case.now) earlier.now }
    requires made_goal { G.made_for goal.now case.now }
    requires belongs { IsBookOf case.now book.now }
    // The order is of these lists, and the scan is kept from the last ones.
    requires order { IsOrderOf case.now book.now.lists order.now }
    requires kept { IsKeptFor G.Goal case.now book.now.lists earlier.now scan.old }
    requires rests { IsRestsFor G.Goal case.now book.now.lists earlier.now goal.now scan.old.rests }
    // The next action, and the scan with it.
    ensures next { IfOk result
        (λ next. FindsNext G.Goal case.now book.now.lists earlier.now goal.now next) }
    ensures scan { IfOk result (λ next. IfSome next
        (λ _. IsScanFor G.Goal case.now book.now.lists earlier.now goal.now scan.new)) }
{
    scan.stirring = all_stirring(alloc, case, book, goal)?;
    if is_still(case, book, earlier, goal, &scan.stirring) {
        return Ok(None);
    }
    scan.rows = all_again(alloc, case, book, earlier, goal, scan)?;
    scan.below = all_below(alloc, case, book, earlier, goal, scan.rows.as_slice())?;
    scan.added = all_chosen(
        alloc,
        case,
        book,
        earlier,
        goal,
        scan.rows.as_slice(),
        Choice::New,
    )?;
    Ok(first_candidate(rt, case, book, order, earlier, goal, scan))
}
