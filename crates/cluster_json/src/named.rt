// A sample on its own, which names its partition.
ghost use Rattle.std.specs.Prelude.{◌≡◌, ◌<◌, ◌^◌, IfOk, codes};
ghost use Rattle.cluster_json.specs.Named.{named_at, named_of};
ghost use Rattle.cluster_json.specs.Ranges.{AreLoads};
ghost use Rattle.cluster_json.specs.Reading.{Gives};
ghost use Rattle.serde_json.specs.View.{view};

use crate::FileRefusal;
use crate::loads::LoadsObject;
use crate::partitions::TopicText;
use crate::samples::TIME;
use crate::shape::{Id, check_object, required};
use plan_terms::{Loads, Measured, Topic};
use serde_json::Value;
use std::alloc::Global;

/// A sample of the loads of a partition, which it names by topic and number.
#[derive(Drop)]
pub struct NamedSample {
    pub topic: Topic,
    /// The partition's number within its topic, below 2^31.
    pub number: u32,
    /// When it was taken, in milliseconds, below 2^53.
    pub time: u64,
    pub loads: Measured,
}

// Loads in their range, as such.
fn measured(loads: Loads) -> Measured
    requires { AreLoads loads }
    ensures { result ≡ loads }
{
    Measured::new(loads)
}

#[tactic(auto, unfolding(crate::specs::Named::named_at))]
fn read_named(alloc: Global, value: &Value) -> Result<NamedSample, FileRefusal>
    ensures means { Gives (λ s. s) result (named_at (view value.now)) }
    ensures number { IfOk result (λ s. s.number < 2 ^ 31) }
    ensures time { IfOk result (λ s. s.time < 2 ^ 53) }
{
    check_object(alloc, value)?;
    let topic = required(alloc, value, "topic", &TopicText)?;
    let number = required(alloc, value, "partition", &Id)?;
    let time = required(alloc, value, "time", &TIME)?;
    let loads = measured(required(alloc, value, "load", &LoadsObject)?);
    Ok(NamedSample {
        topic,
        number,
        time,
        loads,
    })
}

/// The sample that the bytes are, as a JSON object with the members `topic`, `partition`, `time`
/// and `load`; others are ignored. Its partition may be one of no cluster. A refusal names the
/// first fault, as in a cluster file.
#[tactic(auto, unfolding(crate::specs::Named::named_of))]
pub fn read_named_sample(alloc: Global, bytes: &[u8]) -> Result<NamedSample, FileRefusal>
    ensures means { Gives (λ s. s) result (named_of bytes.now) }
    ensures number { IfOk result (λ s. s.number < 2 ^ 31) }
    ensures time { IfOk result (λ s. s.time < 2 ^ 53) }
{
    match Value::from_slice(alloc, bytes) {
        Ok(value) => read_named(alloc, &value),
        Err(e) if e.is_memory() => Err(FileRefusal::Memory),
        Err(_) => Err(FileRefusal::NotJson),
    }
}
