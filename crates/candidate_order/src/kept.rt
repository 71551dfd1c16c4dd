// What is known before candidates are tried.
ghost use Rattle.candidate_order.specs.Known.{AreBelowFor, AreChosenFor, IsKeptFor, IsRowFor, IsScanFor, rooms_for};
ghost use Rattle.std.specs.Prelude.{◌≡◌, ◌<◌, true, false, IfOk, IsTrue, map, length};
ghost use Rattle.std.specs.List.{All};
ghost use Rattle.candidate_order.specs.Looks.{is_below, is_cold, look_weight, look_whole, IsWeighed};
ghost use Rattle.candidate_order.specs.Rests.{IsRestsFor};
ghost use Rattle.candidate_order.specs.declared.kept.Row.{Row};
ghost use Rattle.candidate_order.specs.Scan.{AreStirring, AreWeights, is_chosen};
ghost use Rattle.goal_terms.specs.declared.heat.Heat.TheVariants as heat;
ghost use Rattle.plan_terms.specs.Belongs.{IsBookOf};
ghost use Rattle.goal_terms.specs.Pairs.{giver, taker};
ghost use Rattle.plan_terms.specs.Cluster.{is_known, id_at, ids_of};
ghost use Rattle.plan_terms.specs.Effect.{after};
ghost use Rattle.plan_terms.specs.Fits.{fits, targets_known};

use crate::looks::{rooms_of, weights_of, wholes_of};
use crate::order::broker_place;
use crate::rests::Rests;
use goal_terms::{Heat, Room};
use load_model::{Case, LoadBook};
use move_actions::Goal;
use plan_terms::{Action, Memory};
use std::alloc::Global;

/// What the places of a partition weigh for the earlier goals: 0 for one without a quantity.
#[derive(Drop)]
pub struct PartWeights {
    pub lead: Vec<u64>,
    pub follow: Vec<u64>,
}

/// What is kept of one broker while candidates are tried.
#[derive(Drop)]
pub struct Row {
    /// The broker's id, and its place among the brokers.
    pub id: u32,
    pub place: usize,
    /// Its room for each earlier goal: no limit for one without a quantity.
    pub rooms: Vec<Room>,
    /// Where its quantity lies for the goal at hand.
    pub heat: Heat,
}

/// What is known before candidates are tried.
#[derive(Drop)]
pub struct Scan {
    /// Of each partition. No action changes it.
    pub weights: Vec<PartWeights>,
    /// Of each broker, in their order.
    pub rows: Vec<Row>,
    /// Of the brokers that lie below their bounds, in their order.
    pub below: Vec<Row>,
    /// Of the brokers that are being added, in their order.
    pub added: Vec<Row>,
    /// The partitions whose actions may help the goal at hand.
    pub stirring: Vec<u32>,
    /// The two brokers of the last action, whose rooms it changed.
    pub giver: u32,
    pub taker: u32,
    /// Which candidates are known not to serve.
    pub rests: Rests,
}

// What the places of one partition weigh.
fn part_weights<G: Goal>(
    alloc: Global,
    case: &Case,
    earlier: &[G],
    part: u32,
) -> Result<PartWeights, Memory>
    requires made { All (λ g. G.made_for g case.now) earlier.now }
    requires part { part < length case.now.parts }
    ensures { IfOk result
        (λ w. IsWeighed G.weighs earlier.now case.now.parts part w.lead.items w.follow.items) }
{
    let lead = weights_of(alloc, case, earlier, part, true)?;
    let follow = weights_of(alloc, case, earlier, part, false)?;
    Ok(PartWeights { lead, follow })
}

/// What the places of each partition weigh for the earlier goals.
pub fn all_weights<G: Goal>(
    alloc: Global,
    case: &Case,
    earlier: &[G],
) -> Result<Vec<PartWeights>, Memory>
    requires { All (λ g. G.made_for g case.now) earlier.now }
    ensures { IfOk result (λ v. AreWeights G.weighs earlier.now case.now.parts v.items) }
{
    let mut weights = Vec::new(alloc);
    let end = case.parts().len() as u32;
    for part in 0..end {
        let of_part = part_weights(alloc, case, earlier, part)?;
        weights.push(of_part)?;
    }
    Ok(weights)
}

/// What the first place of a partition weighs for the earlier goals, or each other place.
pub(crate) fn column<'a, G: Goal>(
    case: &Case,
    earlier: &[G],
    weights: &'a [PartWeights],
    part: u32,
    first: bool,
) -> &'a [u64]
    requires weights { AreWeights G.weighs earlier.now case.now.parts weights.now }
    requires part { part < length case.now.parts }
    ensures { result.now
        ≡ map (λ g. look_weight (G.weighs g) case.now.parts part first) earlier.now }
{
    let _brokers = case.brokers();
    let _goals = earlier.len();
    let of_part = &weights[part as usize];
    if first {
        of_part.lead.as_slice()
    } else {
        of_part.follow.as_slice()
    }
}

// What is kept of the broker at a place.
fn row_at<G: Goal>(
    alloc: Global,
    case: &Case,
    book: &LoadBook,
    earlier: &[G],
    goal: &G,
    wholes: &[u128],
    broker: usize,
) -> Result<Row, Memory>
    // The goals and the book are of the case.
    requires made { All (λ g. G.made_for g case.now) earlier.now }
    requires made_goal { G.made_for goal.now case.now }
    requires belongs { IsBookOf case.now book.now }
    // What all brokers have together, and the broker.
    requires wholes { wholes.now
        ≡ map (λ g. look_whole (G.weighs g) case.now.parts book.now.lists) earlier.now }
    requires broker { broker < length case.now.brokers }
    // The row of this broker.
    ensures id { IfOk result (λ r. r.id ≡ id_at case.now.brokers broker) }
    ensures row { IfOk result (IsRowFor G.Goal case.now book.now.lists earlier.now goal.now) }
{
    let id = case.brokers()[broker].id;
    let rooms = rooms_of(alloc, case, book, earlier, wholes, broker)?;
    let heat = goal.heat(case, book, broker);
    Ok(Row {
        id,
        place: broker,
        rooms,
        heat,
    })
}

/// What is kept of each broker, in their order.
pub fn all_rows<G: Goal>(
    alloc: Global,
    case: &Case,
    book: &LoadBook,
    earlier: &[G],
    goal: &G,
) -> Result<Vec<Row>, Memory>
    requires made { All (λ g. G.made_for g case.now) earlier.now }
    requires made_goal { G.made_for goal.now case.now }
    requires belongs { IsBookOf case.now book.now }
    ensures brokers { IfOk result (λ v. map (λ (r : Row). r.id) v.items ≡ ids_of case.now.brokers) }
    ensures rows { IfOk result
        (λ v. All (IsRowFor G.Goal case.now book.now.lists earlier.now goal.now) v.items) }
{
    let wholes = wholes_of(alloc, case, book, earlier)?;
    let mut rows = Vec::new(alloc);
    let end = case.brokers().len();
    for broker in 0..end {
        let row = row_at(alloc, case, book, earlier, goal, &wholes, broker)?;
        rows.push(row)?;
    }
    Ok(rows)
}

// What is kept of the broker at a place, where its rooms are known unless an action changed them.
fn row_again<G: Goal>(
    alloc: Global,
    case: &Case,
    book: &LoadBook,
    earlier: &[G],
    goal: &G,
    wholes: &[u128],
    scan: &Scan,
    row: &Row,
    broker: usize,
) -> Result<Row, Memory>
    // The goals and the book are of the case.
    requires made { All (λ g. G.made_for g case.now) earlier.now }
    requires made_goal { G.made_for goal.now case.now }
    requires belongs { IsBookOf case.now book.now }
    // What all brokers have together, the broker, and its row before.
    requires wholes { wholes.now
        ≡ map (λ g. look_whole (G.weighs g) case.now.parts book.now.lists) earlier.now }
    requires broker { broker < length case.now.brokers }
    requires row { row.now.id ≡ id_at case.now.brokers broker }
    requires rooms { (row.now.id ≡ scan.now.giver → ⊥) → (row.now.id ≡ scan.now.taker → ⊥)
        → row.now.rooms.items
        ≡ rooms_for G.Goal case.now book.now.lists row.now.id earlier.now }
    // The row of this broker.
    ensures id { IfOk result (λ r. r.id ≡ id_at case.now.brokers broker) }
    ensures row { IfOk result (IsRowFor G.Goal case.now book.now.lists earlier.now goal.now) }
{
    if row.id == scan.giver || row.id == scan.taker {
        return row_at(alloc, case, book, earlier, goal, wholes, broker);
    }
    let rooms = Vec::from_slice(alloc, row.rooms.as_slice())?;
    let heat = goal.heat(case, book, broker);
    Ok(Row {
        id: row.id,
        place: broker,
        rooms,
        heat,
    })
}

/// What is kept of each broker, in their order, where the rooms are known of all but two.
pub fn all_again<G: Goal>(
    alloc: Global,
    case: &Case,
    book: &LoadBook,
    earlier: &[G],
    goal: &G,
    scan: &Scan,
) -> Result<Vec<Row>, Memory>
    requires made { All (λ g. G.made_for g case.now) earlier.now }
    requires made_goal { G.made_for goal.now case.now }
    requires belongs { IsBookOf case.now book.now }
    requires kept { IsKeptFor G.Goal case.now book.now.lists earlier.now scan.now }
    ensures brokers { IfOk result (λ v. map (λ (r : Row). r.id) v.items ≡ ids_of case.now.brokers) }
    ensures rows { IfOk result
        (λ v. All (IsRowFor G.Goal case.now book.now.lists earlier.now goal.now) v.items) }
{
    let _brokers = case.brokers();
    let wholes = wholes_of(alloc, case, book, earlier)?;
    let kept = scan.rows.as_slice();
    let mut rows = Vec::new(alloc);
    for broker in 0..kept.len() {
        let row = row_again(
            alloc,
            case,
            book,
            earlier,
            goal,
            &wholes,
            scan,
            &kept[broker],
            broker,
        )?;
        rows.push(row)?;
    }
    Ok(rows)
}

impl Row {
    // The same row.
    fn copy(&self, alloc: Global) -> Result<Row, Memory>
        ensures id { IfOk result (λ r. r.id ≡ self.now.id) }
        ensures place { IfOk result (λ r. r.place ≡ self.now.place) }
        ensures rooms { IfOk result (λ r. r.rooms.items ≡ self.now.rooms.items) }
        ensures heat { IfOk result (λ r. r.heat ≡ self.now.heat) }
    {
        let rooms = Vec::from_slice(alloc, self.rooms.as_slice())?;
        Ok(Row {
            id: self.id,
            place: self.place,
            rooms,
            heat: self.heat,
        })
    }
}

/// Which brokers some rows are of.
#[derive(Clone, Copy)]
pub enum Choice {
    /// Those that lie below their bounds.
    Below,
    /// Those that are being added.
    New,
}

fn is_chosen(case: &Case, choice: Choice, row: &Row) -> bool
    ensures { result ≡ is_chosen choice case.now row.now.id row.now.heat }
{
    match choice {
        Choice::Below => matches!(row.heat, Heat::Below),
        Choice::New => case.is_new(row.id),
    }
}

/// What is kept of the brokers that are chosen, in their order.
pub fn all_chosen<G: Goal>(
    alloc: Global,
    case: &Case,
    book: &LoadBook,
    earlier: &[G],
    goal: &G,
    rows: &[Row],
    choice: Choice,
) -> Result<Vec<Row>, Memory>
    requires brokers { map (λ (r : Row). r.id) rows.now ≡ ids_of case.now.brokers }
    requires rows { All (IsRowFor G.Goal case.now book.now.lists earlier.now goal.now) rows.now }
    ensures { IfOk result
        (λ v. AreChosenFor G.Goal case.now book.now.lists earlier.now goal.now choice v.items) }
{
    let _brokers = case.brokers();
    let _lists = book.lists();
    let _goals = earlier.len();
    let mut chosen = Vec::new(alloc);
    for row in rows {
        if is_chosen(case, choice, row) {
            let copy = row.copy(alloc)?;
            chosen.push(copy)?;
        }
    }
    Ok(chosen)
}

/// What is kept of the brokers that lie below their bounds, in their order.
pub fn all_below<G: Goal>(
    alloc: Global,
    case: &Case,
    book: &LoadBook,
    earlier: &[G],
    goal: &G,
    rows: &[Row],
) -> Result<Vec<Row>, Memory>
    requires brokers { map (λ (r : Row). r.id) rows.now ≡ ids_of case.now.brokers }
    requires rows { All (IsRowFor G.Goal case.now book.now.lists earlier.now goal.now) rows.now }
    ensures { IfOk result
        (λ v. AreBelowFor G.Goal case.now book.now.lists earlier.now goal.now v.items) }
{
    all_chosen(alloc, case, book, earlier, goal, rows, Choice::Below)
}

// The broker that a replica or the lead leaves.
pub(crate) fn giver(book: &LoadBook, action: Action) -> u32
    requires { IsTrue (fits book.now.lists action) }
    ensures { result ≡ giver book.now.lists action }
{
    match action {
        Action::Move { from, .. } => from,
        Action::Lead { part, .. } => book.list(part as usize)[0],
        Action::Swap { from, .. } => from,
    }
}

// The broker that takes it.
pub(crate) fn taker(action: Action) -> u32
    ensures { result ≡ taker action }
{
    match action {
        Action::Move { to, .. } => to,
        Action::Lead { to, .. } => to,
        Action::Swap { to, .. } => to,
    }
}

impl Scan {
    /// What is known before the first action of a goal's turn.
    pub fn new<G: Goal>(
        alloc: Global,
        case: &Case,
        book: &LoadBook,
        earlier: &[G],
        goal: &G,
    ) -> Result<Scan, Memory>
        requires made { All (λ g. G.made_for g case.now) earlier.now }
        requires made_goal { G.made_for goal.now case.now }
        requires belongs { IsBookOf case.now book.now }
        ensures kept { IfOk result (IsKeptFor G.Goal case.now book.now.lists earlier.now) }
        ensures rests { IfOk result
            (λ s. IsRestsFor G.Goal case.now book.now.lists earlier.now goal.now s.rests) }
    {
        let weights = all_weights(alloc, case, earlier)?;
        let rows = all_rows(alloc, case, book, earlier, goal)?;
        let rests = Rests::new(alloc, case, book, earlier, goal)?;
        Ok(Scan {
            weights,
            rows,
            below: Vec::new(alloc),
            added: Vec::new(alloc),
            stirring: Vec::new(alloc),
            giver: u32::MAX,
            taker: u32::MAX,
            rests,
        })
    }

    /// Notes an action that is about to be applied to the book: it changes the rooms of its two
    /// brokers alone.
    pub fn note<G: Goal>(
        &mut self,
        case: &Case,
        book: &LoadBook,
        earlier: &[G],
        goal: &G,
        action: Action,
    )
        requires made { All (λ g. G.made_for g case.now) earlier.now }
        requires belongs { IsBookOf case.now book.now }
        requires applies { IsTrue (fits book.now.lists action) }
        requires scan { IsScanFor G.Goal case.now book.now.lists earlier.now goal.now self.old }
        ensures kept { IsKeptFor G.Goal case.now (after action book.now.lists) earlier.now self.new }
        ensures rests { self.new.rests ≡ self.old.rests }
    {
        self.giver = giver(book, action);
        self.taker = taker(action);
    }

    /// What is kept, and remembered, after an action that is about to be applied to the book.
    pub fn step<G: Goal>(
        &mut self,
        case: &Case,
        book: &LoadBook,
        earlier: &[G],
        goal: &G,
        action: Action,
    )
        // The goals and the book are of the case.
        requires made { All (λ g. G.made_for g case.now) earlier.now }
        requires made_goal { G.made_for goal.now case.now }
        requires belongs { IsBookOf case.now book.now }
        // The action, and what is known of the lists.
        requires applies { IsTrue (fits book.now.lists action) }
        requires known { IsTrue (targets_known case.now action) }
        requires scan { IsScanFor G.Goal case.now book.now.lists earlier.now goal.now self.old }
        // What is known of the lists after it.
        ensures kept { IsKeptFor G.Goal case.now (after action book.now.lists) earlier.now self.new }
        ensures rests { IsRestsFor G.Goal case.now (after action book.now.lists) earlier.now goal.now
            self.new.rests }
    {
        self.note(case, book, earlier, goal, action);
        self.rests.touch(case, book, earlier, goal, action);
    }
}

/// The partitions whose actions may help the goal.
pub fn all_stirring<G: Goal>(
    alloc: Global,
    case: &Case,
    book: &LoadBook,
    goal: &G,
) -> Result<Vec<u32>, Memory>
    requires made_goal { G.made_for goal.now case.now }
    requires belongs { IsBookOf case.now book.now }
    ensures { IfOk result
        (λ v. AreStirring (G.stirs_at goal.now case.now book.now.lists) case.now.parts v.items) }
{
    let mut stirring = Vec::new(alloc);
    let end = case.parts().len() as u32;
    for part in 0..end {
        if goal.stirs(case, book, part) {
            stirring.push(part)?;
        }
    }
    Ok(stirring)
}

// The row of a broker of the case.
pub(crate) fn row_of<'a, G: Goal>(
    case: &Case,
    book: &LoadBook,
    earlier: &[G],
    goal: &G,
    scan: &'a Scan,
    broker: u32,
) -> &'a Row
    requires scan { IsScanFor G.Goal case.now book.now.lists earlier.now goal.now scan.now }
    requires known { IsTrue (is_known case.now broker) }
    ensures id { result.now.id ≡ broker }
    ensures row { IsRowFor G.Goal case.now book.now.lists earlier.now goal.now result.now }
{
    let _brokers = case.brokers();
    let _lists = book.lists();
    let _goals = earlier.len();
    let rows = scan.rows.as_slice();
    let place = broker_place(case, broker);
    &rows[place]
}

fn is_cold(heat: Heat) -> bool
    ensures { result ≡ is_cold heat }
{
    matches!(heat, Heat::Cold)
}

// Whether no broker lies outside its bounds.
pub(crate) fn all_cold(rows: &[Row]) -> bool
    ensures { IsTrue result → All (λ r. r.heat ≡ heat.Cold) rows.now }
{
    for row in rows {
        if !is_cold(row.heat) {
            return false;
        }
    }
    true
}

pub(crate) fn is_below(heat: Heat) -> bool
    ensures { result ≡ is_below heat }
{
    matches!(heat, Heat::Below)
}

// Whether none of some brokers lies below its bounds.
pub(crate) fn none_below(rows: &[Row]) -> bool
    ensures { IsTrue result → All (λ (r : Row). is_below r.heat ≡ false) rows.now }
{
    for row in rows {
        if is_below(row.heat) {
            return false;
        }
    }
    true
}
