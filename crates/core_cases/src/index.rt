// Partitions by topic and number.
ghost use Rattle.std.specs.Prelude.{◌≡◌, ◌==◌, ◌&&◌, ◌∷◌, ◌++◌, [], ℕ, List, Option, Some, None, IfOk, OnOk, length, if◌then◌else◌};
ghost use Rattle.std.specs.Option.{option_or};
ghost use Rattle.std.specs.HashMap.{hash_map_len};
ghost use Rattle.plan_terms.specs.declared.cluster.Part.{Part};
ghost use Rattle.core_terms.specs.Works.{part_place};
ghost use Rattle.core_cases.specs.Index.{IsIndex, IsIndexOf, number_in, place_in};

use plan_terms::{Memory, Part};
use std::alloc::Global;
use std::collections::HashMap;

/// Finds the place of a partition by its topic and its number.
#[derive(Drop)]
pub struct PartIndex {
    /// Each topic has a number.
    pub numbers: HashMap<String, usize>,
    /// The places, by the number of the topic and that of the partition.
    pub places: HashMap<(usize, u32), usize>,
}

// The number of a topic, which it is given where it has none.
fn number_topic(
    alloc: Global,
    numbers: &mut HashMap<String, usize>,
    topic: &str,
) -> Result<usize, Memory>
    ensures named { IfOk result (λ n. number_in numbers.new topic.now ≡ Some n) }
    ensures kept { (parts : List Part) (places : ℕ → ℕ → Option ℕ)
        → IsIndex parts (number_in numbers.old) places (hash_map_len numbers.old)
        → OnOk result (IsIndex parts (number_in numbers.new) places (hash_map_len numbers.new)) }
{
    match numbers.get(topic) {
        Some(number) => Ok(*number),
        None => {
            let number = numbers.len();
            numbers.insert(String::from_str(alloc, topic)?, number)?;
            Ok(number)
        }
    }
}

// Notes the place behind two numbers, where none is noted.
fn note_place(
    places: &mut HashMap<(usize, u32), usize>,
    topic: usize,
    number: u32,
    place: usize,
) -> Result<(), Memory>
    ensures { OnOk result
        ((t n : ℕ)
        → place_in places.new t n
        ≡ option_or (place_in places.old t n)
        (if (topic == t) && (number == n) then Some place else None)) }
{
    let key = (topic, number);
    if !places.contains_key(&key) {
        places.insert(key, place)?;
    }
    Ok(())
}

impl PartIndex {
    // Notes one partition more.
    fn note(&mut self, alloc: Global, part: &Part, place: usize) -> Result<(), Memory>
        ensures { (parts : List Part) → length parts ≡ place
            → IsIndexOf parts self.old.numbers self.old.places
            → OnOk result (IsIndexOf (parts ++ part.now ∷ []) self.new.numbers self.new.places) }
    {
        let topic = number_topic(alloc, &mut self.numbers, part.topic.as_str())?;
        note_place(&mut self.places, topic, part.number, place)?;
        Ok(())
    }

    /// The index of these partitions.
    pub fn new(alloc: Global, parts: &[Part]) -> Result<PartIndex, Memory>
        ensures { IfOk result (λ x. IsIndexOf parts.now x.numbers x.places) }
    {
        let mut index = PartIndex {
            numbers: HashMap::new(alloc),
            places: HashMap::new(alloc),
        };
        for (place, part) in parts.iter().enumerate() {
            index.note(alloc, part, place)?;
        }
        Ok(index)
    }

    /// The place of the partition of a topic and number. It looks at no other.
    pub fn place(&self, topic: &str, number: u32) -> Option<usize>
        ensures { (parts : List Part) → IsIndexOf parts self.now.numbers self.now.places
            → result ≡ part_place parts topic.now number }
    {
        let topic = self.numbers.get(topic)?;
        self.places.get(&(*topic, number)).copied()
    }
}
