// The least leaders of topics, from the file's second version on.
ghost use Rattle.std.specs.Prelude.{◌≡◌, ◌++◌, ◌∷◌, [], false, not, bytes_eq, codes, map, option_map, IfOk, OnOk};
ghost use Rattle.std.specs.List.{list_any};
ghost use Rattle.serde_json.specs.View.{view, items_view};
ghost use Rattle.cluster_json.specs.Faults.{index_step, under};
ghost use Rattle.cluster_json.specs.Leaders.{all_leaders_at, leaders_at, leaders_from, min_leaders_at, new_topic, new_topic_at};
ghost use Rattle.cluster_json.specs.Reading.{Gives};
ghost use Rattle.cluster_json.specs.Shapes.{inside, optional, required};
ghost use Rattle.cluster_json.specs.Views.{entry_seen, texts_seen};

use crate::FileRefusal;
use crate::partitions::topic_name;
use crate::refusal::{in_item, in_member, wrong_shape};
use crate::shape::{Shape, Whole, check_object, optional, read_list, required};
use indexmap::IndexSet;
use plan_terms::{Memory, MinLeaders, MinLeadersList, Topic};
use serde_json::Value;
use std::alloc::Global;

/// The topics of the entries so far.
pub type Seen<'v> = IndexSet<&'v str>;

/// An entry, whose topic lies in the file's text.
#[derive(Clone, Copy)]
pub struct Entry<'v> {
    pub topic: &'v str,
    pub leaders: u32,
}

const LEADERS: Whole = Whole {
    least: 1,
    limit: 10_001,
};

// Whether no entry so far names the topic.
fn is_new(seen: &Seen<'_>, topic: &str) -> bool
    ensures { result ≡ not (list_any (bytes_eq topic.now) (texts_seen seen.now.keys)) }
{
    !seen.contains(topic)
}

fn read_topic<'v>(
    alloc: Global,
    seen: &Seen<'_>,
    value: Option<&'v Value>,
) -> Result<&'v str, FileRefusal>
    ensures means { Gives (λ s. s.now) result
        (required (new_topic_at (texts_seen seen.now.keys))
        (option_map (λ v. view v.now) value.entry)) }
    ensures new { IfOk result (λ s. list_any (bytes_eq s.now) (texts_seen seen.now.keys) ≡ false) }
{
    let Some(value) = value else {
        return Err(wrong_shape(alloc));
    };
    let topic = topic_name(alloc, value)?;
    if is_new(seen, topic) {
        Ok(topic)
    } else {
        Err(wrong_shape(alloc))
    }
}

fn topic_in<'v>(alloc: Global, seen: &Seen<'_>, object: &'v Value) -> Result<&'v str, FileRefusal>
    ensures means { Gives (λ s. s.now) result
        (inside (codes "topic") (required (new_topic_at (texts_seen seen.now.keys)))
        (view object.now)) }
    ensures new { IfOk result (λ s. list_any (bytes_eq s.now) (texts_seen seen.now.keys) ≡ false) }
{
    read_topic(alloc, seen, object.get("topic")).map_err(|e| in_member(alloc, "topic", e))
}

#[tactic(auto, unfolding(crate::specs::Leaders::leaders_at))]
fn read_entry<'v>(
    alloc: Global,
    seen: &Seen<'_>,
    value: &'v Value,
) -> Result<Entry<'v>, FileRefusal>
    ensures means { Gives entry_seen result
        (leaders_at (texts_seen seen.now.keys) (view value.now)) }
    ensures new { IfOk result
        (λ e. list_any (bytes_eq e.topic.now) (texts_seen seen.now.keys) ≡ false) }
{
    check_object(alloc, value)?;
    let topic = topic_in(alloc, seen, value)?;
    let leaders = required(alloc, value, "leaders", &LEADERS)? as u32;
    Ok(Entry { topic, leaders })
}

fn entry_item<'v>(
    alloc: Global,
    seen: &Seen<'_>,
    index: usize,
    value: &'v Value,
) -> Result<Entry<'v>, FileRefusal>
    ensures means { Gives entry_seen result
        (under (index_step index) (leaders_at (texts_seen seen.now.keys) (view value.now))) }
    ensures new { IfOk result
        (λ e. list_any (bytes_eq e.topic.now) (texts_seen seen.now.keys) ≡ false) }
{
    read_entry(alloc, seen, value).map_err(|e| in_item(alloc, index, e))
}

// Notes a topic that no entry so far names.
fn note<'v>(seen: &mut Seen<'v>, topic: &'v str) -> Result<(), Memory>
    requires { list_any (bytes_eq topic.now) (texts_seen seen.old.keys) ≡ false }
    ensures { OnOk result
        (texts_seen seen.new.keys ≡ texts_seen seen.old.keys ++ topic.entry.now ∷ []) }
{
    let _is_new = seen.insert(topic)?;
    Ok(())
}

fn owned(alloc: Global, entry: Entry<'_>) -> Result<MinLeaders, Memory>
    ensures { IfOk result (λ m. m ≡ entry_seen entry.entry) }
{
    Ok(MinLeaders {
        topic: Topic::new(String::from_str(alloc, entry.topic)?),
        leaders: entry.leaders,
    })
}

fn entry_items(alloc: Global, values: &[Value]) -> Result<Vec<MinLeaders>, FileRefusal>
    ensures { Gives (λ v. v.items) result (leaders_from 0 [] (items_view values.now)) }
{
    let mut seen = IndexSet::new(alloc);
    let mut entries = Vec::new(alloc);
    for (index, value) in values.iter().enumerate() {
        let entry = entry_item(alloc, &seen, index, value)?;
        note(&mut seen, entry.topic)?;
        entries.push(owned(alloc, entry)?)?;
    }
    Ok(entries)
}

/// The member `minTopicLeaders`.
struct LeadersList;

impl Shape for LeadersList {
    type Out = MinLeadersList;

    ghost meaning = { λ _. all_leaders_at };

    fn read(&self, alloc: Global, value: &Value) -> Result<MinLeadersList, FileRefusal> {
        let values = read_list(alloc, value)?;
        Ok(MinLeadersList::new(entry_items(alloc, values)?))
    }
}

/// The least leaders of a file of version 2.
#[tactic(auto, unfolding(crate::specs::Leaders::min_leaders_at))]
pub fn min_leaders_in(
    alloc: Global,
    version: u64,
    object: &Value,
) -> Result<MinLeadersList, FileRefusal>
    ensures { Gives (λ l. l) result (min_leaders_at version (view object.now)) }
{
    let none = MinLeadersList::new(Vec::new(alloc));
    if version == 2 {
        optional(alloc, object, "minTopicLeaders", &LeadersList, none)
    } else {
        Ok(none)
    }
}
