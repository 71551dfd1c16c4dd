// The samples of a file.
ghost use Rattle.std.specs.Prelude.{◌≡◌, ◌<◌, ◌≤◌, [], codes, map, length, IfOk};
ghost use Rattle.std.specs.List.{All};
ghost use Rattle.serde_json.specs.View.{view};
ghost use Rattle.cluster_json.specs.Ranges.{IsSample};
ghost use Rattle.cluster_json.specs.Reading.{Gives};
ghost use Rattle.cluster_json.specs.Samples.{or_no_partition, place_of, sample_at, samples_at};
ghost use Rattle.cluster_json.specs.Shapes.{inside, optional};

use crate::FileRefusal;
use crate::loads::LoadsObject;
use crate::partitions::{FilePart, TopicText};
use crate::places::Places;
use crate::refusal::wrong_shape;
use crate::shape::{Each, Id, Shape, Whole, check_object, optional, required};
use plan_terms::{ListOf, Loads, Memory, Sample};
use serde_json::Value;
use std::alloc::Global;
use std::marker::Model;

/// A sample whose partition may lie anywhere, until the number of partitions is known to be within
/// its limit.
#[derive(Drop)]
pub struct Placed {
    place: usize,
    time: u64,
    loads: Loads,
}

impl Model for Placed {
    ghost use Rattle.plan_terms.specs.declared.settings.Sample.{Sample};

    ghost Value = { Sample };

    ghost view = { λ s. record { part = s.place; time = s.time; loads = s.loads } };
}

/// A time in milliseconds.
pub const TIME: Whole = Whole {
    least: 0,
    limit: 1 << 53,
};

// The place of the partition that a sample names.
fn place_of(alloc: Global, places: &Places, topic: &str, number: u32) -> Result<usize, FileRefusal>
    ensures means { Gives (λ p. p) result
        (or_no_partition (place_of (map (λ p. p.part) places.now.parts.now) topic.now number)) }
    ensures known { IfOk result (λ p. p < length places.now.parts.now) }
{
    match places.get(topic, number) {
        Some(place) => Ok(place),
        None => Err(wrong_shape(alloc)),
    }
}

/// An item of `samples`.
#[derive(Drop)]
struct SampleObject<'p> {
    places: Places<'p>,
}

impl Shape for SampleObject<'_> {
    type Out = Placed;

    ghost meaning = { λ s. sample_at (map (λ p. p.part) s.places.parts.now) };

    ghost Keeps = { λ s. IsSample (length s.places.parts.now) };

    #[tactic(auto, unfolding(crate::specs::Samples::sample_at))]
    fn read(&self, alloc: Global, value: &Value) -> Result<Placed, FileRefusal> {
        check_object(alloc, value)?;
        let topic = required(alloc, value, "topic", &TopicText)?;
        let number = required(alloc, value, "partition", &Id)?;
        let time = required(alloc, value, "time", &TIME)?;
        let loads = required(alloc, value, "load", &LoadsObject)?;
        let place = place_of(alloc, &self.places, topic.as_str(), number)?;
        Ok(Placed { place, time, loads })
    }
}

/// The member `samples`.
pub fn samples_in(
    alloc: Global,
    parts: &[FilePart],
    object: &Value,
) -> Result<ListOf<Placed>, FileRefusal>
    ensures means { Gives (λ v. v) result
        (inside (codes "samples") (optional [] (samples_at (map (λ p. p.part) parts.now)))
        (view object.now)) }
    ensures samples { IfOk result (All (IsSample (length parts.now))) }
{
    let sample = SampleObject {
        places: Places::new(alloc, parts)?,
    };
    optional(
        alloc,
        object,
        "samples",
        &Each(sample),
        ListOf::new(Vec::new(alloc)),
    )
}

/// The samples of partitions whose number is within its limit.
pub fn narrowed(alloc: Global, parts: usize, placed: &ListOf<Placed>) -> Result<Vec<Sample>, Memory>
    requires few { parts ≤ 10000 }
    requires known { All (IsSample parts) placed.now }
    ensures { IfOk result (λ v. v.items ≡ placed.now) }
{
    let mut samples = Vec::new(alloc);
    for sample in placed.as_slice() {
        samples.push(Sample {
            part: sample.place as u32,
            time: sample.time,
            loads: sample.loads,
        })?;
    }
    Ok(samples)
}
