// What an action does to its two brokers.
ghost use Rattle.goal_terms.specs.Limits.{SmallCap};
ghost use Rattle.goal_terms.specs.PerBroker.{unit_brokers, bound_excess, at_id};
ghost use Rattle.goal_terms.specs.Quantity.{Weights, quantity, total, part_weight, trade};
ghost use Rattle.goal_terms.specs.Sides.{excess_with, trade_sides, sides};
ghost use Rattle.plan_terms.specs.Belongs.{IsBookOf};
ghost use Rattle.plan_terms.specs.Cluster.{list_of, leads};
ghost use Rattle.plan_terms.specs.Fits.{fits};
ghost use Rattle.std.specs.Prelude.{◌≡◌, ◌+◌, ◌-◌, ◌<◌, ◌≤◌, ◌^◌, IsTrue, length};

use crate::amount::Amount;
use crate::band::Band;
use crate::excess::{amount_at, total_of, unit_excess};
use goal_terms::{Sides, Trade};
use load_model::{Case, LoadBook};
use plan_terms::{Action, leads};

/// What a place of a partition's list carries: the first one, or another one.
pub fn place_weight<A: Amount>(kind: &A, case: &Case, part: u32, first: bool) -> u64
    requires { part < length case.now.parts }
    ensures { result ≡ part_weight (A.weights kind.now) case.now.parts part first }
{
    kind.weight(&case.parts()[part as usize], first)
}

// What an action does to the quantity.
fn trade_of<A: Amount>(kind: &A, case: &Case, book: &LoadBook, action: Action) -> Trade
    requires belongs { IsBookOf case.now book.now }
    requires applies { IsTrue (fits book.now.lists action) }
    ensures { result ≡ trade (A.weights kind.now) case.now.parts book.now.lists action }
{
    let _lists = book.lists();
    match action {
        Action::Move { part, from, to } => {
            let first = leads(book.list(part as usize), from);
            Trade {
                from,
                to,
                out: place_weight(kind, case, part, first),
                back: 0,
            }
        }
        Action::Lead { part, to } => Trade {
            from: book.list(part as usize)[0],
            to,
            out: place_weight(kind, case, part, true),
            back: place_weight(kind, case, part, false),
        },
        Action::Swap {
            part,
            from,
            other,
            to,
        } => {
            let first = leads(book.list(part as usize), from);
            let other_first = leads(book.list(other as usize), to);
            Trade {
                from,
                to,
                out: place_weight(kind, case, part, first),
                back: place_weight(kind, case, other, other_first),
            }
        }
    }
}

// What a broker gets by an action, and what it gives.
#[derive(Clone, Copy)]
struct Change {
    got: u64,
    given: u64,
}

// The excesses of the broker of an id, as it is and after a change.
fn side_of<A: Amount, B: Band>(
    kind: &A,
    band: &B,
    case: &Case,
    book: &LoadBook,
    all: u128,
    id: u32,
    change: Change,
) -> (u128, u128)
    // The amount, the band and the book are of the case.
    requires amount { A.made_for kind.now case.now }
    requires band { B.made_for band.now case.now }
    requires belongs { IsBookOf case.now book.now }
    // What all brokers have together, and what the broker has after the change.
    requires all { all ≡ total (A.weights kind.now) case.now.parts book.now.lists }
    requires few { all < 2 ^ 49 }
    requires had { change.given
        ≤ quantity (A.weights kind.now) case.now.parts id book.now.lists + change.got }
    requires small { quantity (A.weights kind.now) case.now.parts id book.now.lists + change.got -
        change.given < 2 ^ 49 }
    // The excesses of the definition, each at most 2^111.
    ensures before { result.0
        ≡ excess_with (A.weights kind.now) (B.bounds band.now case.now) case.now book.now.lists id
        (quantity (A.weights kind.now) case.now.parts id book.now.lists) }
    ensures later { result.1
        ≡ excess_with (A.weights kind.now) (B.bounds band.now case.now) case.now book.now.lists id
        (quantity (A.weights kind.now) case.now.parts id book.now.lists + change.got -
        change.given) }
    ensures small_before { result.0 ≤ 2 ^ 111 }
    ensures small_later { result.1 ≤ 2 ^ 111 }
{
    match case.place(id) {
        None => (0, 0),
        Some(place) => {
            let amount = amount_at(kind, case, book, place);
            let later = amount + u128::from(change.got) - u128::from(change.given);
            (
                unit_excess(band, case, all, amount, place),
                unit_excess(band, case, all, later, place),
            )
        }
    }
}

/// The excesses of the two brokers of an action, before and after it: each at most 2^111.
#[tactic(auto, unfolding(goal_terms::specs::Sides::sides))]
pub fn sides_of<A: Amount, B: Band>(
    kind: &A,
    band: &B,
    case: &Case,
    book: &LoadBook,
    action: Action,
) -> Sides
    // The amount, the band and the book are of the case, and the action fits.
    requires amount { A.made_for kind.now case.now }
    requires band { B.made_for band.now case.now }
    requires belongs { IsBookOf case.now book.now }
    requires applies { IsTrue (fits book.now.lists action) }
    // The excesses of the definition, each at most 2^111.
    ensures value { result
        ≡ sides (A.weights kind.now) (B.bounds band.now case.now) case.now book.now.lists action }
    ensures giver { result.giver ≤ 2 ^ 111 }
    ensures giver_after { result.giver_after ≤ 2 ^ 111 }
    ensures taker { result.taker ≤ 2 ^ 111 }
    ensures taker_after { result.taker_after ≤ 2 ^ 111 }
{
    let _brokers = case.brokers();
    let trade = trade_of(kind, case, book, action);
    let all = total_of(kind, case, book);
    let gives = Change {
        got: trade.back,
        given: trade.out,
    };
    let takes = Change {
        got: trade.out,
        given: trade.back,
    };
    let (giver, giver_after) = side_of(kind, band, case, book, all, trade.from, gives);
    let (taker, taker_after) = side_of(kind, band, case, book, all, trade.to, takes);
    Sides {
        giver,
        giver_after,
        taker,
        taker_after,
    }
}
