// An index from the names of partitions to their places.
ghost use Rattle.std.specs.Prelude.{◌≡◌, ◌<◌, Option, Some, None, map, length, IfSome, IfOk, OnOk};
ghost use Rattle.std.specs.Map.{lookup};
ghost use Rattle.cluster_json.specs.Places.{ArePlaces, Name, Notes, same_name};
ghost use Rattle.cluster_json.specs.Samples.{place_of};

use crate::partitions::FilePart;
use indexmap::IndexMap;
use plan_terms::Memory;
use std::alloc::Global;

type Index<'p> = IndexMap<(&'p str, u32), usize>;

/// The partitions of a file, and the place of each by its topic and number.
#[derive(Drop)]
pub struct Places<'p> {
    pub parts: &'p [FilePart],
    index: Index<'p>,
    ghost complete: { ArePlaces (map (λ p. p.part) parts.now) index.entries },
}

// Notes the place of a name that is not there yet.
fn note<'p>(index: &mut Index<'p>, topic: &'p str, number: u32, place: usize) -> Result<(), Memory>
    ensures { OnOk result (Notes (topic.entry, number) place index.old.entries index.new.entries) }
{
    let name = (topic, number);
    if !index.contains_key(&name) {
        let _ = index.insert(name, place)?;
    }
    Ok(())
}

fn index_of<'p>(alloc: Global, parts: &'p [FilePart]) -> Result<Index<'p>, Memory>
    ensures { IfOk result (λ index. ArePlaces (map (λ p. p.part) parts.now) index.entries) }
{
    let mut index = IndexMap::new(alloc);
    for (place, part) in parts.iter().enumerate() {
        note(
            &mut index,
            part.part.topic.as_str(),
            part.part.number,
            place,
        )?;
    }
    Ok(index)
}

impl<'p> Places<'p> {
    /// The places of these partitions.
    pub fn new(alloc: Global, parts: &'p [FilePart]) -> Result<Places<'p>, Memory>
        ensures { IfOk result (λ places. places.parts.now ≡ parts.now) }
    {
        let index = index_of(alloc, parts)?;
        Ok(Places { parts, index })
    }

    /// The place of the first partition of this topic and number.
    pub fn get(&self, topic: &str, number: u32) -> Option<usize>
        ensures value { result ≡ place_of (map (λ p. p.part) self.now.parts.now) topic.now number }
        ensures known { IfSome result (λ place. place < length self.now.parts.now) }
    {
        self.index.get(&(topic, number)).copied()
    }
}
