// All legal actions, in order.
ghost use Rattle.std.specs.Prelude.{◌≡◌, ◌<◌, ◌≤◌, ◌++◌, ◌∷◌, [], map, length, OnOk, IfOk};
ghost use Rattle.std.specs.List.{filter};
ghost use Rattle.plan_terms.specs.Cluster.{list_of};
ghost use Rattle.plan_terms.specs.Legal.{is_legal, moves_from, moves_of, leads_of, swaps_with, swaps_of, each_below, all_actions};

use crate::legality::{is_legal_on, list_at};
use load_model::{Assign, Case};
use plan_terms::{Action, Memory, Replicas, has};
use std::alloc::Global;

fn push_legal(
    case: &Case,
    lists: &[Replicas],
    action: Action,
    out: &mut Vec<Action>,
) -> Result<(), Memory>
    ensures { OnOk result
        (out.new.items ≡ out.old.items ++ filter (is_legal case.now lists.now) (action ∷ [])) }
{
    if is_legal_on(case, lists, action) {
        out.push(action)?;
    }
    Ok(())
}

fn push_moves_from(
    case: &Case,
    lists: &[Replicas],
    part: u32,
    from: u32,
    out: &mut Vec<Action>,
) -> Result<(), Memory>
    ensures { OnOk result
        (out.new.items
        ≡ out.old.items
        ++ filter (is_legal case.now lists.now) (moves_from case.now.brokers part from)) }
{
    let brokers = case.brokers();
    for broker in brokers {
        let to = broker.id;
        push_legal(case, lists, Action::Move { part, from, to }, out)?;
    }
    Ok(())
}

// The moves of a broker's replica, of which there are none where it is no member.

fn push_moves_at(
    case: &Case,
    lists: &[Replicas],
    part: u32,
    from: u32,
    out: &mut Vec<Action>,
) -> Result<(), Memory>
    ensures { OnOk result
        (out.new.items
        ≡ out.old.items
        ++ filter (is_legal case.now lists.now) (moves_from case.now.brokers part from)) }
{
    if has(list_at(lists, part), from) {
        push_moves_from(case, lists, part, from, out)?;
    }
    Ok(())
}

fn push_moves_of(
    case: &Case,
    lists: &[Replicas],
    part: u32,
    out: &mut Vec<Action>,
) -> Result<(), Memory>
    ensures { OnOk result
        (out.new.items
        ≡ out.old.items ++ filter (is_legal case.now lists.now) (moves_of case.now.brokers part)) }
{
    let brokers = case.brokers();
    for broker in brokers {
        push_moves_at(case, lists, part, broker.id, out)?;
    }
    Ok(())
}

fn push_leads_of(
    case: &Case,
    lists: &[Replicas],
    part: u32,
    out: &mut Vec<Action>,
) -> Result<(), Memory>
    ensures { OnOk result
        (out.new.items
        ≡ out.old.items ++ filter (is_legal case.now lists.now) (leads_of case.now.brokers part)) }
{
    let brokers = case.brokers();
    for broker in brokers {
        let to = broker.id;
        push_legal(case, lists, Action::Lead { part, to }, out)?;
    }
    Ok(())
}

fn push_swaps_with(
    case: &Case,
    lists: &[Replicas],
    part: u32,
    from: u32,
    other: u32,
    out: &mut Vec<Action>,
) -> Result<(), Memory>
    ensures { OnOk result
        (out.new.items
        ≡ out.old.items
        ++ filter (is_legal case.now lists.now)
        (swaps_with case.now.brokers part from other)) }
{
    let brokers = case.brokers();
    for broker in brokers {
        let swap = Action::Swap {
            part,
            from,
            other,
            to: broker.id,
        };
        push_legal(case, lists, swap, out)?;
    }
    Ok(())
}

fn push_swaps_from(
    case: &Case,
    lists: &[Replicas],
    part: u32,
    from: u32,
    out: &mut Vec<Action>,
) -> Result<(), Memory>
    requires { length lists.now ≤ 10000 }
    ensures { OnOk result
        (out.new.items
        ≡ out.old.items
        ++ filter (is_legal case.now lists.now)
        (each_below (swaps_with case.now.brokers part from) (length lists.now))) }
{
    let end = lists.len() as u32;
    for other in 0..end {
        push_swaps_with(case, lists, part, from, other, out)?;
    }
    Ok(())
}

// The swaps of a broker's replica, of which there are none where it is no member.

fn push_swaps_at(
    case: &Case,
    lists: &[Replicas],
    part: u32,
    from: u32,
    out: &mut Vec<Action>,
) -> Result<(), Memory>
    requires { length lists.now ≤ 10000 }
    ensures { OnOk result
        (out.new.items
        ≡ out.old.items
        ++ filter (is_legal case.now lists.now)
        (each_below (swaps_with case.now.brokers part from) (length lists.now))) }
{
    if has(list_at(lists, part), from) {
        push_swaps_from(case, lists, part, from, out)?;
    }
    Ok(())
}

fn push_swaps_of(
    case: &Case,
    lists: &[Replicas],
    part: u32,
    out: &mut Vec<Action>,
) -> Result<(), Memory>
    requires { length lists.now ≤ 10000 }
    ensures { OnOk result
        (out.new.items
        ≡ out.old.items
        ++ filter (is_legal case.now lists.now)
        (swaps_of case.now.brokers (length lists.now) part)) }
{
    let brokers = case.brokers();
    for broker in brokers {
        push_swaps_at(case, lists, part, broker.id, out)?;
    }
    Ok(())
}

fn push_moves(case: &Case, lists: &[Replicas], out: &mut Vec<Action>) -> Result<(), Memory>
    requires { length lists.now ≤ 10000 }
    ensures { OnOk result
        (out.new.items
        ≡ out.old.items
        ++ filter (is_legal case.now lists.now)
        (each_below (moves_of case.now.brokers) (length lists.now))) }
{
    let end = lists.len() as u32;
    for part in 0..end {
        push_moves_of(case, lists, part, out)?;
    }
    Ok(())
}

fn push_leads(case: &Case, lists: &[Replicas], out: &mut Vec<Action>) -> Result<(), Memory>
    requires { length lists.now ≤ 10000 }
    ensures { OnOk result
        (out.new.items
        ≡ out.old.items
        ++ filter (is_legal case.now lists.now)
        (each_below (leads_of case.now.brokers) (length lists.now))) }
{
    let end = lists.len() as u32;
    for part in 0..end {
        push_leads_of(case, lists, part, out)?;
    }
    Ok(())
}

fn push_swaps(case: &Case, lists: &[Replicas], out: &mut Vec<Action>) -> Result<(), Memory>
    requires { length lists.now ≤ 10000 }
    ensures { OnOk result
        (out.new.items
        ≡ out.old.items
        ++ filter (is_legal case.now lists.now)
        (each_below (swaps_of case.now.brokers (length lists.now)) (length lists.now))) }
{
    let end = lists.len() as u32;
    for part in 0..end {
        push_swaps_of(case, lists, part, out)?;
    }
    Ok(())
}

/// Every legal action on the lists, once, in order: the moves by partition and the places of source
/// and target in the case; the leads by partition and the new leader's place; the swaps by
/// partition, the place of its broker, the other partition and the place of the other broker.
#[tactic(auto, unfolding(plan_terms::specs::Legal::all_actions))]
pub fn all_actions(alloc: Global, case: &Case, lists: &Assign) -> Result<Vec<Action>, Memory>
    ensures { IfOk result (λ v. v.items ≡ all_actions case.now lists.now) }
{
    let lists = lists.lists();
    let mut out = Vec::new(alloc);
    push_moves(case, lists, &mut out)?;
    push_leads(case, lists, &mut out)?;
    push_swaps(case, lists, &mut out)?;
    Ok(out)
}
