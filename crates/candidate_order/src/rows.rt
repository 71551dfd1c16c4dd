// The first move of a replica that serves.
ghost use Rattle.std.specs.Prelude.{◌≡◌, ◌<◌, ◌≤◌, ◌↔◌, ℕ, true, false, IsTrue, IfNone, None, map, length, get_or};
ghost use Rattle.std.specs.List.{All};
ghost use Rattle.candidate_order.specs.CandidateList.{moves_of_replica};
ghost use Rattle.candidate_order.specs.Known.{FindsFirst, IsRowFor, IsScanFor, StepFor, weight_for, weights_for};
ghost use Rattle.candidate_order.specs.Looks.{helps_below_alone, is_below, may_help};
ghost use Rattle.candidate_order.specs.Rests.{TargetsRestFor};
ghost use Rattle.candidate_order.specs.declared.kept.Row.{Row};
ghost use Rattle.plan_terms.specs.Belongs.{IsBookOf};
ghost use Rattle.plan_terms.specs.Cluster.{Lists, some_broker};
ghost use Rattle.plan_terms.specs.Fits.{fits, targets_known};
ghost use Rattle.plan_terms.specs.Goal.{Accepts};
ghost use Rattle.plan_terms.specs.Legal.{is_legal};
ghost use Rattle.plan_terms.specs.States.{is_new};
ghost use Rattle.plan_terms.specs.declared.actions.Action.{Action};

use crate::kept::{Row, Scan, is_below, none_below};
use crate::looks::{all_pass, may_leave};
use crate::rests::Rests;
use goal_terms::Heat;
use load_model::{Case, LoadBook};
use move_actions::{Goal, legal};
use plan_terms::Action;

// Whether a move of that weight can help the goal at all.
fn may_help(own: Option<u64>, source: Heat, target: Heat) -> bool
    ensures { result ≡ may_help own source target }
{
    match own {
        Some(weight) => {
            weight != 0 && (matches!(source, Heat::Above) || matches!(target, Heat::Below))
        }
        None => !(matches!(source, Heat::Cold) && matches!(target, Heat::Cold)),
    }
}

// Whether a goal accepts an action, where it has no quantity.
fn other_accepts<G: Goal>(case: &Case, book: &LoadBook, goal: &G, part: u32, action: Action) -> bool
    requires made { G.made_for goal.now case.now }
    requires belongs { IsBookOf case.now book.now }
    requires part { part < length case.now.parts }
    requires applies { IsTrue (fits book.now.lists action) }
    requires known { IsTrue (targets_known case.now action) }
    ensures { IsTrue result
        ↔ IfNone (G.weighs goal.now) (Accepts (G.meaning goal.now case.now) book.now.lists action) }
{
    match goal.weight(case, part, false) {
        Some(_) => true,
        None => goal.accepts(case, book, action),
    }
}

// Whether each of the goals without a quantity accepts an action.
pub(crate) fn others_accept<G: Goal>(
    case: &Case,
    book: &LoadBook,
    earlier: &[G],
    part: u32,
    action: Action,
) -> bool
    requires made { All (λ g. G.made_for g case.now) earlier.now }
    requires belongs { IsBookOf case.now book.now }
    requires part { part < length case.now.parts }
    requires applies { IsTrue (fits book.now.lists action) }
    requires known { IsTrue (targets_known case.now action) }
    ensures { IsTrue result
        ↔ All (λ g. IfNone (G.weighs g) (Accepts (G.meaning g case.now) book.now.lists action))
        earlier.now }
{
    for goal in earlier {
        if !other_accepts(case, book, goal, part, action) {
            return false;
        }
    }
    true
}

// Whether a move is legal, each earlier goal accepts it, and it lessens the goal.
fn move_serves<G: Goal>(
    case: &Case,
    book: &LoadBook,
    earlier: &[G],
    goal: &G,
    part: u32,
    source: &Row,
    weights: &[u64],
    own: Option<u64>,
    target: &Row,
) -> bool
    // The goals and the book are of the case.
    requires made { All (λ g. G.made_for g case.now) earlier.now }
    requires made_goal { G.made_for goal.now case.now }
    requires belongs { IsBookOf case.now book.now }
    // The partition, its source and its weights.
    requires part { part < length case.now.parts }
    requires source { IsRowFor G.Goal case.now book.now.lists earlier.now goal.now source.now }
    requires weights { weights.now
        ≡ weights_for G.Goal case.now book.now.lists part source.now.id earlier.now }
    requires own { own ≡ weight_for G.Goal case.now book.now.lists part source.now.id goal.now }
    // The target.
    requires target { IsRowFor G.Goal case.now book.now.lists earlier.now goal.now target.now }
    // Whether the move serves.
    ensures { IsTrue result
        ↔ StepFor G.Goal case.now book.now.lists earlier.now goal.now
        (Action.Move part source.now.id target.now.id) }
{
    let _brokers = case.brokers();
    let action = Action::Move {
        part,
        from: source.id,
        to: target.id,
    };
    if !may_help(own, source.heat, target.heat) {
        return false;
    }
    let givers = source.rooms.as_slice();
    let takers = target.rooms.as_slice();
    if !all_pass(weights, givers, takers) {
        return false;
    }
    if !legal(case, book, action) {
        return false;
    }
    if !goal.lessens(case, book, action) {
        return false;
    }
    others_accept(case, book, earlier, part, action)
}

// Whether a move serves that isn't known not to.
fn fresh_serves<G: Goal>(
    case: &Case,
    book: &LoadBook,
    earlier: &[G],
    goal: &G,
    rests: &Rests,
    since: u64,
    part: u32,
    source: &Row,
    weights: &[u64],
    own: Option<u64>,
    target: &Row,
) -> bool
    // The goals and the book are of the case.
    requires made { All (λ g. G.made_for g case.now) earlier.now }
    requires made_goal { G.made_for goal.now case.now }
    requires belongs { IsBookOf case.now book.now }
    // What is known of the replica's moves.
    requires brokers { length rests.now.brokers.items ≡ length case.now.brokers }
    requires rest { TargetsRestFor G.Goal case.now book.now.lists earlier.now goal.now rests.now
        source.now.id part since }
    // The partition, its source and its weights.
    requires part { part < length case.now.parts }
    requires source { IsRowFor G.Goal case.now book.now.lists earlier.now goal.now source.now }
    requires weights { weights.now
        ≡ weights_for G.Goal case.now book.now.lists part source.now.id earlier.now }
    requires own { own ≡ weight_for G.Goal case.now book.now.lists part source.now.id goal.now }
    // The target.
    requires target { IsRowFor G.Goal case.now book.now.lists earlier.now goal.now target.now }
    // Whether the move serves.
    ensures { IsTrue result
        ↔ StepFor G.Goal case.now book.now.lists earlier.now goal.now
        (Action.Move part source.now.id target.now.id) }
{
    if rests.knows_move(case, book, earlier, goal, part, source.id, since, target) {
        return false;
    }
    move_serves(
        case, book, earlier, goal, part, source, weights, own, target,
    )
}

/// The first move of one replica to some brokers that serves, in their order. Those that are known
/// not to serve are passed over.
pub fn first_to<G: Goal>(
    case: &Case,
    book: &LoadBook,
    earlier: &[G],
    goal: &G,
    rows: &[Row],
    rests: &Rests,
    since: u64,
    part: u32,
    source: &Row,
    weights: &[u64],
    own: Option<u64>,
) -> Option<Action>
    // The goals and the book are of the case.
    requires made { All (λ g. G.made_for g case.now) earlier.now }
    requires made_goal { G.made_for goal.now case.now }
    requires belongs { IsBookOf case.now book.now }
    // The targets.
    requires rows { All (IsRowFor G.Goal case.now book.now.lists earlier.now goal.now) rows.now }
    // What is known of the replica's moves.
    requires brokers { length rests.now.brokers.items ≡ length case.now.brokers }
    requires rest { TargetsRestFor G.Goal case.now book.now.lists earlier.now goal.now rests.now
        source.now.id part since }
    // The partition, its source and its weights.
    requires part { part < length case.now.parts }
    requires source { IsRowFor G.Goal case.now book.now.lists earlier.now goal.now source.now }
    requires weights { weights.now
        ≡ weights_for G.Goal case.now book.now.lists part source.now.id earlier.now }
    requires own { own ≡ weight_for G.Goal case.now book.now.lists part source.now.id goal.now }
    // The first that serves, or none does.
    ensures { FindsFirst G.Goal case.now book.now.lists earlier.now goal.now
        (map (λ (r : Row). Action.Move part source.now.id r.id) rows.now) result }
{
    if rows.is_empty() {
        return None;
    }
    let givers = source.rooms.as_slice();
    if !may_leave(case, book, earlier, part, source.id, weights, givers) {
        return None;
    }
    for row in rows {
        if fresh_serves(
            case, book, earlier, goal, rests, since, part, source, weights, own, row,
        ) {
            return Some(Action::Move {
                part,
                from: source.id,
                to: row.id,
            });
        }
    }
    None
}

// Whether only a broker that lies below its bounds can be helped by what a broker gives, if any.
fn helps_below_alone<N: Copy>(own: Option<N>, source: Heat) -> bool
    ensures { result ≡ helps_below_alone own source }
{
    match own {
        Some(_) => !matches!(source, Heat::Above),
        None => false,
    }
}

// Whether a broker may give replicas to brokers that are being added alone: some are, and it isn't
// lost.
fn gives_to_new(case: &Case, from: u32) -> bool
    ensures { result ≡ true → (lists : Lists) (p b : ℕ)
        → is_legal case.now lists (Action.Move p from b) ≡ true
        → some_broker (λ x. is_new x.state) case.now b ≡ true }
{
    if !case.any_new() {
        return false;
    }
    !case.is_lost(from)
}

/// Whether no move of a broker's replicas can help: the broker gives to those that lie below their
/// bounds alone, and none does to which it may give.
pub(crate) fn gives_in_vain<G: Goal>(
    case: &Case,
    book: &LoadBook,
    earlier: &[G],
    goal: &G,
    scan: &Scan,
    source: &Row,
) -> bool
    requires made_goal { G.made_for goal.now case.now }
    requires belongs { IsBookOf case.now book.now }
    requires scan { IsScanFor G.Goal case.now book.now.lists earlier.now goal.now scan.now }
    requires source { IsRowFor G.Goal case.now book.now.lists earlier.now goal.now source.now }
    ensures { IsTrue result → (part : ℕ)
        → FindsFirst G.Goal case.now book.now.lists earlier.now goal.now
        (moves_of_replica case.now source.now.id part) None }
{
    let _brokers = case.brokers();
    if !helps_below_alone(goal.whole(case, book), source.heat) {
        return false;
    }
    if gives_to_new(case, source.id) {
        let added = scan.added.as_slice();
        return none_below(added);
    }
    let below = scan.below.as_slice();
    none_below(below)
}

// Whether a broker lies below its bounds and was touched at that time or later.
fn is_fresh_below(rests: &Rests, row: &Row, since: u64) -> bool
    requires { row.now.place < length rests.now.brokers.items }
    ensures { result ≡ false → is_below row.now.heat ≡ true
        → get_or rests.now.brokers.items row.now.place 0 < since }
{
    if !is_below(row.heat) {
        return false;
    }
    if rests.brokers[row.place] < since {
        return false;
    }
    true
}

// The time, unless one of some brokers that lies below its bounds was touched then or later. There it
// is 0.
fn since_unless_fresh(rests: &Rests, rows: &[Row], since: u64) -> u64
    requires { All (λ (r : Row). r.place < length rests.now.brokers.items) rows.now }
    ensures within { result ≤ since }
    ensures none { 0 < result
        → All (λ (r : Row). is_below r.heat ≡ true → get_or rests.now.brokers.items r.place 0 < since)
        rows.now }
{
    for row in rows {
        if is_fresh_below(rests, row, since) {
            return 0;
        }
    }
    since
}

// Since what time an action has to have touched a partition, or no move of the broker's replica of it
// can help: the broker gives to those that lie below their bounds alone, and none of these was touched
// since its moves were found not to serve.
pub(crate) fn gives_in_vain_since<G: Goal>(
    case: &Case,
    book: &LoadBook,
    earlier: &[G],
    goal: &G,
    scan: &Scan,
    source: &Row,
) -> u64
    requires made_goal { G.made_for goal.now case.now }
    requires belongs { IsBookOf case.now book.now }
    requires scan { IsScanFor G.Goal case.now book.now.lists earlier.now goal.now scan.now }
    requires source { IsRowFor G.Goal case.now book.now.lists earlier.now goal.now source.now }
    ensures { (part : ℕ) → part < length case.now.parts
        → get_or scan.now.rests.parts.items part 0 < result
        → FindsFirst G.Goal case.now book.now.lists earlier.now goal.now
        (moves_of_replica case.now source.now.id part) None }
{
    let _brokers = case.brokers();
    if !helps_below_alone(goal.whole(case, book), source.heat) {
        return 0;
    }
    let rests = &scan.rests;
    let since = rests.moves_since(case, book, earlier, goal, source);
    if gives_to_new(case, source.id) {
        let added = scan.added.as_slice();
        return since_unless_fresh(rests, added, since);
    }
    let below = scan.below.as_slice();
    since_unless_fresh(rests, below, since)
}

/// The first move of one replica that serves, by the order of the brokers.
pub fn first_anywhere<G: Goal>(
    case: &Case,
    book: &LoadBook,
    earlier: &[G],
    goal: &G,
    scan: &Scan,
    part: u32,
    source: &Row,
    weights: &[u64],
    own: Option<u64>,
) -> Option<Action>
    // The goals and the book are of the case.
    requires made { All (λ g. G.made_for g case.now) earlier.now }
    requires made_goal { G.made_for goal.now case.now }
    requires belongs { IsBookOf case.now book.now }
    // The scan is of these lists.
    requires scan { IsScanFor G.Goal case.now book.now.lists earlier.now goal.now scan.now }
    // The partition, its source and its weights.
    requires part { part < length case.now.parts }
    requires source { IsRowFor G.Goal case.now book.now.lists earlier.now goal.now source.now }
    requires weights { weights.now
        ≡ weights_for G.Goal case.now book.now.lists part source.now.id earlier.now }
    requires own { own ≡ weight_for G.Goal case.now book.now.lists part source.now.id goal.now }
    // The first that serves, or none does.
    ensures { FindsFirst G.Goal case.now book.now.lists earlier.now goal.now
        (moves_of_replica case.now source.now.id part) result }
{
    let _brokers = case.brokers();
    let rests = &scan.rests;
    let since = rests.replica_since(case, book, earlier, goal, part, source);
    if gives_to_new(case, source.id) {
        let added = scan.added.as_slice();
        return first_to(
            case, book, earlier, goal, added, rests, since, part, source, weights, own,
        );
    }
    if !helps_below_alone(own, source.heat) {
        let rows = scan.rows.as_slice();
        return first_to(
            case, book, earlier, goal, rows, rests, since, part, source, weights, own,
        );
    }
    let below = scan.below.as_slice();
    first_to(
        case, book, earlier, goal, below, rests, since, part, source, weights, own,
    )
}
