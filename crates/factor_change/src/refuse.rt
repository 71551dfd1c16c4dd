// Why a change is refused.
ghost use Rattle.std.specs.Prelude.{◌≡◌, ◌<◌, ◌≤◌, bytes_eq, find, length, nat_lt, option_map};
ghost use Rattle.std.specs.List.{count_by, list_any};
ghost use Rattle.plan_terms.specs.Belongs.{Belongs};
ghost use Rattle.factor_change.specs.Choice.{may_join};
ghost use Rattle.factor_change.specs.Refused.{falls_short, first_short, is_absent, reach};
ghost use Rattle.factor_change.specs.Resized.{is_named, is_named_at};

use crate::choice::may_join;
use load_model::{Assign, Case};
use plan_terms::{Part, Topic};

fn is_of(part: &Part, topic: &Topic) -> bool
    ensures { result ≡ bytes_eq part.now.topic topic.now }
{
    part.topic.as_str() == topic.as_str()
}

// Whether some partition is of the topic.
fn has_part(parts: &[Part], topic: &Topic) -> bool
    ensures { result ≡ list_any (λ p. bytes_eq p.topic topic.now) parts.now }
{
    for part in parts {
        if is_of(part, topic) {
            return true;
        }
    }
    false
}

fn is_absent(parts: &[Part], topic: &Topic) -> bool
    ensures { result ≡ is_absent parts.now topic.now }
{
    !has_part(parts, topic)
}

/// The first of the topics that has no partition.
pub fn first_absent<'t>(case: &Case, topics: &'t [Topic]) -> Option<&'t Topic>
    ensures { option_map (λ t. t.now) result ≡ find (is_absent case.now.parts) topics.now }
{
    let parts = case.parts();
    topics.iter().find(|topic| is_absent(parts, topic))
}

fn is_named(topics: &[Topic], part: &Part) -> bool
    ensures { result ≡ is_named topics.now part.now }
{
    topics
        .iter()
        .any(|topic| part.topic.as_str() == topic.as_str())
}

/// Whether the topic of the partition at a place is named.
pub fn is_named_at(case: &Case, topics: &[Topic], part: usize) -> bool
    requires { part < length case.now.parts }
    ensures { result ≡ is_named_at case.now topics.now part }
{
    is_named(topics, &case.parts()[part])
}

// How many members a list may have.
fn reach(case: &Case, list: &[u32]) -> usize
    requires { length list.now ≤ 8 }
    ensures value { result ≡ reach case.now list.now }
    ensures few { result ≤ 208 }
{
    let brokers = case.brokers();
    list.len()
        + brokers
            .iter()
            .filter(|broker| may_join(list, broker))
            .count()
}

// Whether fewer brokers than that may become members. It looks at no more of them than it needs.
fn has_fewer(case: &Case, list: &[u32], count: usize) -> bool
    ensures { result ≡ nat_lt (count_by (may_join list.now) case.now.brokers) count }
{
    let found = case
        .brokers()
        .iter()
        .filter(|other| may_join(list, other))
        .take(count)
        .count();
    found < count
}

fn falls_short(case: &Case, topics: &[Topic], factor: usize, lists: &Assign, part: usize) -> bool
    requires belongs { Belongs case.now lists.now }
    requires part { part < length case.now.parts }
    ensures { result ≡ falls_short case.now topics.now factor lists.now part }
{
    let _lists = lists.lists();
    let list = lists.list(part);
    is_named_at(case, topics, part)
        && list.len() < factor
        && has_fewer(case, list, factor - list.len())
}

/// How many members the first list that can't grow so far may have.
pub fn first_short(case: &Case, topics: &[Topic], factor: usize, lists: &Assign) -> Option<u32>
    requires { Belongs case.now lists.now }
    ensures { result ≡ first_short case.now topics.now factor lists.now }
{
    let _lists = lists.lists();
    for part in 0..lists.len() {
        if falls_short(case, topics, factor, lists, part) {
            return Some(reach(case, lists.list(part)) as u32);
        }
    }
    None
}
