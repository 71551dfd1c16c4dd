// The topics of partitions, by their places.
ghost use Rattle.std.specs.Prelude.{◌≡◌, IfOk};
ghost use Rattle.load_model.specs.Places.{AreTopicPlaces};

use indexmap::IndexSet;
use plan_terms::{Memory, Part};
use std::alloc::Global;

/// The place of each partition's topic among the topics, which stand in the order of their first
/// partitions.
#[derive(Drop)]
pub struct TopicPlaces {
    /// One place for each partition.
    pub places: Vec<usize>,
    /// The number of topics.
    pub count: usize,
}

/// Numbers the topics in the order of their first partitions.
pub fn number_topics<'p>(alloc: Global, parts: &'p [Part]) -> Result<TopicPlaces, Memory>
    ensures { IfOk result (λ t. AreTopicPlaces parts.now t.places.items t.count) }
{
    let mut seen: IndexSet<&'p str> = IndexSet::new(alloc);
    let mut places = Vec::new(alloc);
    for part in parts {
        let (place, _) = seen.insert_full(part.topic.as_str())?;
        places.push(place)?;
    }
    Ok(TopicPlaces {
        places,
        count: seen.len(),
    })
}

impl TopicPlaces {
    /// The same places.
    pub fn copy(&self, alloc: Global) -> Result<TopicPlaces, Memory>
        ensures places { IfOk result (λ t. t.places.items ≡ self.now.places.items) }
        ensures count { IfOk result (λ t. t.count ≡ self.now.count) }
    {
        Ok(TopicPlaces {
            places: Vec::from_slice(alloc, self.places.as_slice())?,
            count: self.count,
        })
    }
}
