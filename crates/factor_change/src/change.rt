// The lists after a change.
ghost use Rattle.std.specs.Prelude.{◌≡◌, ◌≢◌, ◌<◌, ◌≤◌, ◌+◌, ◌==◌, ◌++◌, ◌∷◌, [], length, slice_set, take, true, IfOk, IfErr, OnOk, None, Some};
ghost use Rattle.std.specs.List.{count_by, list_all};
ghost use Rattle.plan_terms.specs.Belongs.{Belongs, IsReplicaList};
ghost use Rattle.plan_terms.specs.Cluster.{is_known, list_of};
ghost use Rattle.factor_change.specs.Choice.{counts_of, next_member};
ghost use Rattle.factor_change.specs.Kept.{IsDraft};
ghost use Rattle.factor_change.specs.Refused.{refusal};
ghost use Rattle.factor_change.specs.Resized.{fitted, grown, resized, resized_at, with_member};

use crate::choice::{Draft, next_place};
use crate::fault::ResizeFault;
use crate::refuse::{first_absent, first_short, is_named_at};
use load_model::{Assign, Case, LoadBook};
use plan_terms::{Memory, Replicas, Topic, copy_lists};
use std::alloc::Global;

// How many places a broker has in a list.
fn places(list: &[u32], broker: u32) -> u64
    ensures value { result ≡ count_by (λ x. x == broker) list.now }
    ensures few { result ≤ length list.now }
{
    list.iter().filter(|x| **x == broker).count() as u64
}

// A broker's number of replicas, after one list became another.
fn recounted(count: u64, old: &[u32], new: &[u32], broker: u32) -> u64
    requires counted { count_by (λ x. x == broker) old.now ≤ count }
    requires few { count ≤ 80000 }
    requires short { length new.now ≤ 8 }
    ensures { result + count_by (λ x. x == broker) old.now
        ≡ count + count_by (λ x. x == broker) new.now }
{
    count - places(old, broker) + places(new, broker)
}

// How many replicas each broker has, with another list of a partition.
fn recount(
    alloc: Global,
    case: &Case,
    draft: &Draft,
    part: usize,
    list: &[u32],
) -> Result<Vec<u64>, Memory>
    requires draft { IsDraft case.now draft.now.lists.items draft.now.counts.items }
    requires part { part < length draft.now.lists.items }
    requires short { length list.now ≤ 8 }
    ensures { IfOk result
        (λ v. v.items ≡ counts_of case.now (slice_set draft.now.lists.items part list.now)) }
{
    let mut counts = Vec::new(alloc);
    for (place, broker) in case.brokers().iter().enumerate() {
        let old = draft.lists[part].as_slice();
        counts.push(recounted(draft.counts[place], old, list, broker.id))?;
    }
    Ok(counts)
}

// Gives a partition another list.
fn put_list(
    alloc: Global,
    case: &Case,
    draft: &mut Draft,
    part: usize,
    list: Replicas,
) -> Result<(), Memory>
    requires draft { IsDraft case.now draft.old.lists.items draft.old.counts.items }
    requires part { part < length draft.old.lists.items }
    requires list { IsReplicaList list }
    requires known { list_all (is_known case.now) list ≡ true }
    ensures lists { OnOk result
        (draft.new.lists.items ≡ slice_set draft.old.lists.items part list) }
    ensures draft { OnOk result
        (IsDraft case.now draft.new.lists.items draft.new.counts.items) }
{
    let counts = recount(alloc, case, draft, part, list.as_slice())?;
    draft.counts = counts;
    draft.lists[part] = list;
    Ok(())
}

// A list with one member more at its end.
fn longer(alloc: Global, list: &[u32], member: u32) -> Result<Replicas, Memory>
    ensures { IfOk result (λ r. r ≡ list.now ++ member ∷ []) }
{
    let mut ids = Vec::from_slice(alloc, list)?;
    ids.push(member)?;
    Ok(Replicas::new(ids))
}

// The first members of a list.
fn prefix(alloc: Global, list: &[u32], factor: usize) -> Result<Replicas, Memory>
    requires { factor ≤ length list.now }
    ensures { IfOk result (λ r. r ≡ take factor list.now) }
{
    Replicas::of(alloc, &list[..factor])
}

// One member more at the end of a list.
fn add_member(alloc: Global, case: &Case, draft: &mut Draft, part: usize) -> Result<(), Memory>
    requires draft { IsDraft case.now draft.old.lists.items draft.old.counts.items }
    requires part { part < length draft.old.lists.items }
    requires short { length (list_of draft.old.lists.items part) < 8 }
    ensures lists { OnOk result
        (draft.new.lists.items
        ≡ with_member draft.old.lists.items part
        (next_member case.now draft.old.lists.items (list_of draft.old.lists.items part))) }
    ensures draft { OnOk result
        (IsDraft case.now draft.new.lists.items draft.new.counts.items) }
    ensures long { OnOk result
        (length draft.new.lists.items ≡ length draft.old.lists.items) }
    ensures short { OnOk result
        (length (list_of draft.new.lists.items part)
        ≤ length (list_of draft.old.lists.items part) + 1) }
{
    let list = draft.lists[part].as_slice();
    match next_place(alloc, case, draft, list)? {
        None => Ok(()),
        Some(place) => {
            let longer = longer(alloc, list, case.brokers()[place].id)?;
            draft.counts[place] += 1;
            draft.lists[part] = longer;
            Ok(())
        }
    }
}

// So many members more.
fn grow(
    alloc: Global,
    case: &Case,
    draft: &mut Draft,
    part: usize,
    more: usize,
) -> Result<(), Memory>
    requires draft { IsDraft case.now draft.old.lists.items draft.old.counts.items }
    requires part { part < length draft.old.lists.items }
    requires fits { length (list_of draft.old.lists.items part) + more ≤ 8 }
    ensures lists { OnOk result
        (draft.new.lists.items ≡ grown case.now part more draft.old.lists.items) }
    ensures draft { OnOk result
        (IsDraft case.now draft.new.lists.items draft.new.counts.items) }
{
    for step in 0..more {
        let _done = step;
        add_member(alloc, case, draft, part)?;
    }
    Ok(())
}

// Makes the list of a partition of a named topic as long as asked.
fn fit(
    alloc: Global,
    case: &Case,
    draft: &mut Draft,
    part: usize,
    factor: usize,
) -> Result<(), Memory>
    requires draft { IsDraft case.now draft.old.lists.items draft.old.counts.items }
    requires part { part < length draft.old.lists.items }
    requires some { 1 ≤ factor }
    requires few { factor ≤ 8 }
    ensures lists { OnOk result
        (draft.new.lists.items ≡ fitted case.now factor draft.old.lists.items part) }
    ensures draft { OnOk result
        (IsDraft case.now draft.new.lists.items draft.new.counts.items) }
{
    let list = draft.lists[part].as_slice();
    if factor <= list.len() {
        let prefix = prefix(alloc, list, factor)?;
        put_list(alloc, case, draft, part, prefix)
    } else {
        let more = factor - list.len();
        grow(alloc, case, draft, part, more)
    }
}

// Makes the list of a partition as long as asked, where its topic is named.
fn change_part(
    alloc: Global,
    case: &Case,
    draft: &mut Draft,
    topics: &[Topic],
    part: usize,
    factor: usize,
) -> Result<(), Memory>
    requires draft { IsDraft case.now draft.old.lists.items draft.old.counts.items }
    requires part { part < length draft.old.lists.items }
    requires some { 1 ≤ factor }
    requires few { factor ≤ 8 }
    ensures lists { OnOk result
        (draft.new.lists.items
        ≡ resized_at case.now topics.now factor draft.old.lists.items part) }
    ensures draft { OnOk result
        (IsDraft case.now draft.new.lists.items draft.new.counts.items) }
{
    if is_named_at(case, topics, part) {
        fit(alloc, case, draft, part, factor)
    } else {
        Ok(())
    }
}

// How many replicas each broker has.
fn count(alloc: Global, case: &Case, lists: &Assign) -> Result<Vec<u64>, Memory>
    requires { Belongs case.now lists.now }
    ensures { IfOk result (λ v. v.items ≡ counts_of case.now lists.now) }
{
    let book = LoadBook::new(alloc, case, lists)?;
    let mut counts = Vec::new(alloc);
    for place in 0..case.brokers().len() {
        counts.push(book.count(place))?;
    }
    Ok(counts)
}

// The lists, before any change.
fn begin(alloc: Global, case: &Case, lists: &Assign) -> Result<Draft, Memory>
    requires { Belongs case.now lists.now }
    ensures lists { IfOk result (λ d. d.lists.items ≡ lists.now) }
    ensures draft { IfOk result (λ d. IsDraft case.now d.lists.items d.counts.items) }
{
    let _case = case.parts();
    Ok(Draft {
        lists: copy_lists(alloc, lists.lists())?,
        counts: count(alloc, case, lists)?,
    })
}

// The lists after each partition of the named topics has as many members as asked, where that can
// be had.
#[tactic(auto, using(crate::proofs::Folded::fold_step), unfolding(crate::specs::Resized::resized))]
fn change(
    alloc: Global,
    case: &Case,
    lists: &Assign,
    topics: &[Topic],
    factor: usize,
) -> Result<Assign, Memory>
    requires belongs { Belongs case.now lists.now }
    requires some { 1 ≤ factor }
    requires few { factor ≤ 8 }
    ensures lists { IfOk result (λ a. a ≡ resized case.now topics.now factor lists.now) }
    ensures belongs { IfOk result (Belongs case.now) }
{
    let _lists = lists.lists();
    let mut draft = begin(alloc, case, lists)?;
    for part in 0..lists.len() {
        change_part(alloc, case, &mut draft, topics, part, factor)?;
    }
    Ok(Assign::of(draft.lists))
}

/// The lists after a change of the replication factor of some topics to `factor`, 1 to 8. A list of
/// another topic stays. A list of a named topic that is long enough becomes its prefix of that
/// length. A shorter one gets members at its end, one by one, each the least of the brokers that
/// aren't lost and aren't members: first one whose rack no member is on, then one with the fewest
/// replicas over the lists as changed so far, then the first of the case. Partitions are changed in
/// their order.
///
/// # Errors
///
/// `NoSuchTopic` with the first named topic that has no partition; else `TooFewBrokers` with the
/// number of members that the first list which is to grow may have, where these are too few;
/// `Memory` out of memory.
#[tactic(auto, unfolding(crate::specs::Refused::refusal))]
pub fn resized(
    alloc: Global,
    case: &Case,
    lists: &Assign,
    topics: &[Topic],
    factor: u32,
) -> Result<Assign, ResizeFault>
    requires belongs { Belongs case.now lists.now }
    requires some { 1 ≤ factor }
    requires few { factor ≤ 8 }
    ensures lists { IfOk result (λ a. a ≡ resized case.now topics.now factor lists.now) }
    ensures belongs { IfOk result (Belongs case.now) }
    ensures faultless { OnOk result (refusal case.now topics.now factor lists.now ≡ None) }
    ensures fault { IfErr result
        (λ e. e ≢ ResizeFault.Memory → refusal case.now topics.now factor lists.now ≡ Some e) }
{
    if let Some(topic) = first_absent(case, topics) {
        return Err(ResizeFault::NoSuchTopic(topic.copy(alloc)?));
    }
    if let Some(reach) = first_short(case, topics, factor as usize, lists) {
        return Err(ResizeFault::TooFewBrokers(reach));
    }
    Ok(change(alloc, case, lists, topics, factor as usize)?)
}
