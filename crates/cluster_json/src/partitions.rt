// The partitions of a file.
ghost use Rattle.std.specs.Prelude.{◌≡◌, IfSome};
ghost use Rattle.std.specs.List.{list_all};
ghost use Rattle.serde_json.specs.View.{view, items_view};
ghost use Rattle.cluster_json.specs.Partitions.{given_loads_at, is_topic, is_topic_byte, log_dirs_at, notes_from, part_at, topic_at};
ghost use Rattle.cluster_json.specs.Ranges.{AreLoads};
ghost use Rattle.cluster_json.specs.Reading.{Gives};

use crate::FileRefusal;
use crate::loads::{LoadsObject, NO_LOADS};
use crate::shape::{
    Each, Id, Note, Shape, Whole, check_object, item, optional, read_list, read_text, required,
};
use plan_terms::{Loads, Part, Replicas, Topic};
use serde_json::Value;
use std::alloc::Global;

/// A partition of a file.
#[derive(Drop)]
pub struct FilePart {
    pub part: Part,
    pub replicas: Replicas,
    /// Whether the file gives its loads.
    pub with_load: bool,
}

fn is_topic_byte(b: u8) -> bool
    ensures { result ≡ is_topic_byte b }
{
    matches!(b, b'a'..=b'z' | b'A'..=b'Z' | b'0'..=b'9' | b'.' | b'_' | b'-')
}

fn has_topic_bytes(text: &str) -> bool
    ensures { result ≡ list_all is_topic_byte text.now }
{
    text.as_bytes().iter().all(|b| is_topic_byte(*b))
}

fn is_topic(text: &str) -> bool
    ensures { result ≡ is_topic text.now }
{
    let in_range = 1 <= text.len() && text.len() <= 249;
    if in_range && has_topic_bytes(text) {
        text != "." && text != ".."
    } else {
        false
    }
}

/// A topic's name.
#[tactic(auto, unfolding(crate::specs::Partitions::topic_at))]
pub fn topic_name(alloc: Global, value: &Value) -> Result<&str, FileRefusal>
    ensures { Gives (λ s. s.now) result (topic_at (view value.now)) }
{
    let name = read_text(alloc, value)?;
    if is_topic(name) {
        Ok(name)
    } else {
        Err(FileRefusal::BadTopic(String::new(alloc)))
    }
}

/// The name of a topic, of its own.
pub struct TopicText;

impl Shape for TopicText {
    type Out = Topic;

    ghost meaning = { λ _. topic_at };

    fn read(&self, alloc: Global, value: &Value) -> Result<Topic, FileRefusal> {
        let name = topic_name(alloc, value)?;
        Ok(Topic::new(String::from_str(alloc, name)?))
    }
}

fn check_notes(alloc: Global, values: &[Value]) -> Result<(), FileRefusal>
    ensures { Gives (λ u. u) result (notes_from 0 (items_view values.now)) }
{
    for (index, value) in values.iter().enumerate() {
        item(alloc, index, value, &Note)?;
    }
    Ok(())
}

/// Texts that aren't used.
struct Notes;

impl Shape for Notes {
    type Out = ();

    ghost meaning = { λ _. log_dirs_at };

    fn read(&self, alloc: Global, value: &Value) -> Result<(), FileRefusal> {
        let values = read_list(alloc, value)?;
        check_notes(alloc, values)
    }
}

/// The loads that a partition gives.
struct GivenLoads;

impl Shape for GivenLoads {
    type Out = Option<Loads>;

    ghost meaning = { λ _. given_loads_at };

    ghost Keeps = { λ _ given. IfSome given AreLoads };

    fn read(&self, alloc: Global, value: &Value) -> Result<Option<Loads>, FileRefusal> {
        Ok(Some(LoadsObject.read(alloc, value)?))
    }
}

const CHUNKS: Whole = Whole {
    least: 1,
    limit: 1001,
};

/// An item of `partitions`.
pub struct PartObject;

impl Shape for PartObject {
    type Out = FilePart;

    ghost meaning = { λ _. part_at };

    ghost Keeps = { λ _ p. AreLoads p.part.loads };

    #[tactic(auto, unfolding(crate::specs::Partitions::part_at))]
    fn read(&self, alloc: Global, value: &Value) -> Result<FilePart, FileRefusal> {
        check_object(alloc, value)?;
        let topic = required(alloc, value, "topic", &TopicText)?;
        let number = required(alloc, value, "partition", &Id)?;
        let replicas = required(alloc, value, "replicas", &Each(Id))?;
        optional(alloc, value, "log_dirs", &Notes, ())?;
        let chunks = optional(alloc, value, "chunks", &CHUNKS, 1)? as u32;
        let load = optional(alloc, value, "load", &GivenLoads, None)?;
        Ok(FilePart {
            part: Part {
                topic,
                number,
                loads: load.unwrap_or(NO_LOADS),
                excluded: false,
                chunks,
            },
            replicas: Replicas::new(replicas.into_vec()),
            with_load: load.is_some(),
        })
    }
}
