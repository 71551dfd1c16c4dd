// The first candidate of one kind that serves.
ghost use Rattle.std.specs.Prelude.{◌≡◌, ◌<◌, ℕ, None, IsTrue, length, get_or};
ghost use Rattle.std.specs.List.{All, flat_map};
ghost use Rattle.candidate_order.specs.CandidateList.{candidates_at, candidates_in};
ghost use Rattle.candidate_order.specs.Known.{FindsFirst, IsRowFor, IsScanFor};
ghost use Rattle.candidate_order.specs.Looks.{trades_nothing, weighs_nothing};
ghost use Rattle.candidate_order.specs.Order.{IsOrderOf};
ghost use Rattle.candidate_order.specs.declared.kinds.Kind.TheVariants as kind;
ghost use Rattle.plan_terms.specs.Belongs.{IsBookOf};

use crate::blocks::{BLOCK, Search, first_by_blocks};
use crate::kept::{Row, Scan, column};
use crate::kinds::Kind;
use crate::leads::first_lead;
use crate::order::Order;
use crate::rows::{first_anywhere, gives_in_vain, gives_in_vain_since};
use crate::swaps::{first_swap, may_trade};
use load_model::{Case, LoadBook};
use move_actions::Goal;
use plan_terms::{Action, leads};
use std::thread::Threads;

// Whether the goal has a quantity, and nothing of it goes.
fn weighs_nothing(own: Option<u64>) -> bool
    ensures { result ≡ weighs_nothing own }
{
    own == Some(0)
}

// The first move of one replica that serves.
fn first_move<G: Goal>(
    case: &Case,
    book: &LoadBook,
    earlier: &[G],
    goal: &G,
    scan: &Scan,
    part: u32,
    source: &Row,
) -> Option<Action>
    // The goals and the book are of the case.
    requires made { All (λ g. G.made_for g case.now) earlier.now }
    requires made_goal { G.made_for goal.now case.now }
    requires belongs { IsBookOf case.now book.now }
    // The scan is of these lists, and so is the row of the source.
    requires scan { IsScanFor G.Goal case.now book.now.lists earlier.now goal.now scan.now }
    requires part { part < length case.now.parts }
    requires source { IsRowFor G.Goal case.now book.now.lists earlier.now goal.now source.now }
    // The first that serves, or none does.
    ensures { FindsFirst G.Goal case.now book.now.lists earlier.now goal.now
        (candidates_at kind.Moves case.now book.now.lists source.now.id part) result }
{
    let _brokers = case.brokers();
    let _lists = book.lists();
    if !goal.stirs(case, book, part) {
        return None;
    }
    let first = leads(book.list(part as usize), source.id);
    let own = goal.weight(case, part, first);
    if weighs_nothing(own) {
        return None;
    }
    let weights = column(case, earlier, scan.weights.as_slice(), part, first);
    first_anywhere(case, book, earlier, goal, scan, part, source, weights, own)
}

// Whether a lead of these weights trades nothing.
fn trades_nothing(out: Option<u64>, back: Option<u64>) -> bool
    ensures { result ≡ trades_nothing out back }
{
    match (out, back) {
        (Some(out), Some(back)) => out == back,
        _ => false,
    }
}

// The first lead of one partition that serves, where the source is its first member.
fn first_lead_from<G: Goal>(
    case: &Case,
    book: &LoadBook,
    earlier: &[G],
    goal: &G,
    scan: &Scan,
    part: u32,
    source: &Row,
) -> Option<Action>
    // The goals and the book are of the case.
    requires made { All (λ g. G.made_for g case.now) earlier.now }
    requires made_goal { G.made_for goal.now case.now }
    requires belongs { IsBookOf case.now book.now }
    // The scan is of these lists, and so is the row of the source.
    requires scan { IsScanFor G.Goal case.now book.now.lists earlier.now goal.now scan.now }
    requires part { part < length case.now.parts }
    requires source { IsRowFor G.Goal case.now book.now.lists earlier.now goal.now source.now }
    // The first that serves, or none does.
    ensures { FindsFirst G.Goal case.now book.now.lists earlier.now goal.now
        (candidates_at kind.Leads case.now book.now.lists source.now.id part) result }
{
    let _brokers = case.brokers();
    let _lists = book.lists();
    if !leads(book.list(part as usize), source.id) {
        return None;
    }
    if !goal.stirs(case, book, part) {
        return None;
    }
    let out = goal.weight(case, part, true);
    let back = goal.weight(case, part, false);
    if trades_nothing(out, back) {
        return None;
    }
    first_lead(case, book, earlier, goal, scan, part, source)
}

// The first candidate of one kind for one replica that serves.
pub(crate) fn first_at<G: Goal>(
    kind: Kind,
    case: &Case,
    book: &LoadBook,
    order: &Order,
    earlier: &[G],
    goal: &G,
    scan: &Scan,
    part: u32,
    source: &Row,
) -> Option<Action>
    // The goals and the book are of the case.
    requires made { All (λ g. G.made_for g case.now) earlier.now }
    requires made_goal { G.made_for goal.now case.now }
    requires belongs { IsBookOf case.now book.now }
    // The order and the scan are of these lists, and so is the row of the source.
    requires order { IsOrderOf case.now book.now.lists order.now }
    requires scan { IsScanFor G.Goal case.now book.now.lists earlier.now goal.now scan.now }
    requires part { part < length case.now.parts }
    requires source { IsRowFor G.Goal case.now book.now.lists earlier.now goal.now source.now }
    // The first that serves, or none does.
    ensures { FindsFirst G.Goal case.now book.now.lists earlier.now goal.now
        (candidates_at kind case.now book.now.lists source.now.id part) result }
{
    match kind {
        Kind::Moves => first_move(case, book, earlier, goal, scan, part, source),
        Kind::Leads => first_lead_from(case, book, earlier, goal, scan, part, source),
        Kind::Swaps => first_swap(case, book, order, earlier, goal, scan, part, source),
    }
}

// Whether threads would pay: a replica has a swap with every other, unless swaps aren't legal at
// all.
fn pay_threads(kind: Kind, case: &Case, replicas: &[u32]) -> bool {
    let may_swap = !case.options().leads_only && !case.any_new();
    matches!(kind, Kind::Swaps) && may_swap && replicas.len() >= BLOCK
}

// Whether no candidate of one kind for a broker's replicas can serve, whichever they are.
fn serves_nobody<G: Goal>(
    kind: Kind,
    case: &Case,
    book: &LoadBook,
    earlier: &[G],
    goal: &G,
    scan: &Scan,
    source: &Row,
) -> bool
    requires made_goal { G.made_for goal.now case.now }
    requires belongs { IsBookOf case.now book.now }
    requires scan { IsScanFor G.Goal case.now book.now.lists earlier.now goal.now scan.now }
    requires source { IsRowFor G.Goal case.now book.now.lists earlier.now goal.now source.now }
    ensures { IsTrue result → (part : ℕ)
        → FindsFirst G.Goal case.now book.now.lists earlier.now goal.now
        (candidates_at kind case.now book.now.lists source.now.id part) None }
{
    match kind {
        Kind::Moves => gives_in_vain(case, book, earlier, goal, scan, source),
        Kind::Leads => false,
        Kind::Swaps => !may_trade(case, source.id),
    }
}

// Since what time an action has to have touched a partition, or no candidate of one kind for the
// broker's replica of it serves. It is 0 where nothing is known.
fn rests_since<G: Goal>(
    kind: Kind,
    case: &Case,
    book: &LoadBook,
    earlier: &[G],
    goal: &G,
    scan: &Scan,
    source: &Row,
) -> u64
    requires made_goal { G.made_for goal.now case.now }
    requires belongs { IsBookOf case.now book.now }
    requires scan { IsScanFor G.Goal case.now book.now.lists earlier.now goal.now scan.now }
    requires source { IsRowFor G.Goal case.now book.now.lists earlier.now goal.now source.now }
    ensures { (part : ℕ) → part < length case.now.parts
        → get_or scan.now.rests.parts.items part 0 < result
        → FindsFirst G.Goal case.now book.now.lists earlier.now goal.now
        (candidates_at kind case.now book.now.lists source.now.id part) None }
{
    match kind {
        Kind::Moves => gives_in_vain_since(case, book, earlier, goal, scan, source),
        Kind::Leads => 0,
        Kind::Swaps => 0,
    }
}

// The first candidate of one kind for one replica that serves, if its partition was touched since.
fn first_at_since<G: Goal>(
    kind: Kind,
    case: &Case,
    book: &LoadBook,
    order: &Order,
    earlier: &[G],
    goal: &G,
    scan: &Scan,
    part: u32,
    source: &Row,
    since: u64,
) -> Option<Action>
    // The goals and the book are of the case.
    requires made { All (λ g. G.made_for g case.now) earlier.now }
    requires made_goal { G.made_for goal.now case.now }
    requires belongs { IsBookOf case.now book.now }
    // The order and the scan are of these lists, and so is the row of the source.
    requires order { IsOrderOf case.now book.now.lists order.now }
    requires scan { IsScanFor G.Goal case.now book.now.lists earlier.now goal.now scan.now }
    requires part { part < length case.now.parts }
    requires source { IsRowFor G.Goal case.now book.now.lists earlier.now goal.now source.now }
    // What is known if it wasn't.
    requires since { get_or scan.now.rests.parts.items part 0 < since
        → FindsFirst G.Goal case.now book.now.lists earlier.now goal.now
        (candidates_at kind case.now book.now.lists source.now.id part) None }
    // The first that serves, or none does.
    ensures { FindsFirst G.Goal case.now book.now.lists earlier.now goal.now
        (candidates_at kind case.now book.now.lists source.now.id part) result }
{
    let _brokers = case.brokers();
    let _lists = book.lists();
    if scan.rests.parts[part as usize] < since {
        return None;
    }
    first_at(kind, case, book, order, earlier, goal, scan, part, source)
}

// The first candidate of one kind for one broker's replicas that serves. Of many replicas, swaps
// are looked for by threads: a replica has a swap with each of the others.
fn first_of<G: Goal + Sync, R: Threads + Sync>(
    rt: &R,
    kind: Kind,
    case: &Case,
    book: &LoadBook,
    order: &Order,
    earlier: &[G],
    goal: &G,
    scan: &Scan,
    source: &Row,
    replicas: &[u32],
) -> Option<Action>
    // The goals and the book are of the case.
    requires made { All (λ g. G.made_for g case.now) earlier.now }
    requires made_goal { G.made_for goal.now case.now }
    requires belongs { IsBookOf case.now book.now }
    // The order and the scan are of these lists, and so is the row of the source.
    requires order { IsOrderOf case.now book.now.lists order.now }
    requires scan { IsScanFor G.Goal case.now book.now.lists earlier.now goal.now scan.now }
    requires source { IsRowFor G.Goal case.now book.now.lists earlier.now goal.now source.now }
    requires within { All (λ p. p < length case.now.parts) replicas.now }
    // The first that serves, or none does.
    ensures { FindsFirst G.Goal case.now book.now.lists earlier.now goal.now
        (flat_map (candidates_at kind case.now book.now.lists source.now.id) replicas.now) result }
{
    if serves_nobody(kind, case, book, earlier, goal, scan, source) {
        return None;
    }
    if pay_threads(kind, case, replicas) {
        let search = Search {
            kind,
            case,
            book,
            order,
            earlier,
            goal,
            scan,
            source,
        };
        return first_by_blocks(rt, &search, replicas);
    }
    let since = rests_since(kind, case, book, earlier, goal, scan, source);
    for part in replicas {
        let found = first_at_since(
            kind, case, book, order, earlier, goal, scan, *part, source, since,
        );
        if let Some(action) = found {
            return Some(action);
        }
    }
    None
}

/// The first candidate of one kind that serves. That the rows before it have none is remembered.
pub fn next_in<G: Goal + Sync, R: Threads + Sync>(
    rt: &R,
    kind: Kind,
    case: &Case,
    book: &LoadBook,
    order: &Order,
    earlier: &[G],
    goal: &G,
    scan: &mut Scan,
) -> Option<Action>
    requires made { All (λ g. G.made_for g case.now) earlier.now }
    requires made_goal { G.made_for goal.now case.now }
    requires belongs { IsBookOf case.now book.now }
    requires order { IsOrderOf case.now book.now.lists order.now }
    requires scan { IsScanFor G.Goal case.now book.now.lists earlier.now goal.now scan.old }
    ensures first { FindsFirst G.Goal case.now book.now.lists earlier.now goal.now
        (candidates_in kind case.now book.now.lists) result }
    ensures scan { IsScanFor G.Goal case.now book.now.lists earlier.now goal.now scan.new }
{
    let end = case.brokers().len();
    for k in 0..end {
        let rows = scan.rows.as_slice();
        let source = &rows[k];
        let replicas = order.row(k);
        let found = first_of(
            rt, kind, case, book, order, earlier, goal, scan, source, replicas,
        );
        if let Some(action) = found {
            return Some(action);
        }
        let id = source.id;
        scan.rests.pass(case, book, earlier, goal, kind, id);
    }
    None
}
