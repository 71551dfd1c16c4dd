// The partitions of a cluster file, each with what was drawn for it.
ghost use Rattle.std.specs.Prelude.{◌≡◌, ℕ, ◌+◌, ◌*◌, ◌%◌, ◌<◌, ◌≤◌, ◌++◌, IfOk, OnOk, map, codes, decimal, string_bytes};
ghost use Rattle.serde_json.specs.Data.{array};
ghost use Rattle.serde_json.specs.View.{view, items_of};
ghost use Rattle.cluster_gen.specs.Draws.{state_after};
ghost use Rattle.plain_json.specs.Numbers.{number_data};
ghost use Rattle.cluster_gen.specs.Clusters.{numbers_below, in_a_row, loads_of, load_data, partition_data};

use crate::draws::Draws;
use crate::loads::Loads;
use serde_json::{Value, json};
use std::alloc::{AllocError, Global};

const TOPICS: u32 = 50;

fn draw_loads(draws: &mut Draws) -> Loads
    ensures loads { (seed i : ℕ) → draws.old.state ≡ state_after (5 * i + 1) seed
        → result ≡ loads_of seed i }
    ensures next { (seed i : ℕ) → draws.old.state ≡ state_after (5 * i + 1) seed
        → draws.new.state ≡ state_after (5 * (i + 1)) seed }
{
    let network_in = draws.below(100);
    let network_out = draws.below(200);
    let processor = draws.below(10);
    let disk = draws.below(1000);
    Loads {
        network_in,
        network_out,
        processor,
        disk,
    }
}

fn load_value(alloc: Global, loads: &Loads) -> Result<Value, AllocError>
    ensures { IfOk result (λ v. view v ≡ load_data loads.now) }
{
    json!(in alloc; {
        "follower": {
            "CPU": (loads.processor / 2),
            "DISK": (loads.disk),
            "NW_IN": (loads.network_in)
        },
        "leader": {
            "CPU": (loads.processor),
            "DISK": (loads.disk),
            "NW_IN": (loads.network_in),
            "NW_OUT": (loads.network_out)
        }
    })
}

// Up to three brokers in a row from the first one on; broker 0 follows the last.
fn replica_values(alloc: Global, brokers: u32, first: u32) -> Result<Vec<Value>, AllocError>
    requires many { brokers ≤ 200 }
    requires within { first < brokers }
    ensures { IfOk result (λ v. map view v.items ≡ map number_data (in_a_row brokers first)) }
{
    let mut replicas = Vec::new(alloc);
    for place in 0..brokers.min(3) {
        replicas.push(Value::from((first + place) % brokers))?;
    }
    Ok(replicas)
}

fn topic_name(alloc: Global, number: u32) -> Result<String, AllocError>
    ensures { IfOk result (λ name. string_bytes name ≡ codes "t" ++ decimal (number % 50)) }
{
    let topic = number % TOPICS;
    format!(in alloc; "t{topic}")
}

fn partition_value(
    alloc: Global,
    draws: &mut Draws,
    brokers: u32,
    number: u32,
) -> Result<Value, AllocError>
    requires some { 1 ≤ brokers }
    requires many { brokers ≤ 200 }
    ensures value { (seed : ℕ) → draws.old.state ≡ state_after (5 * number) seed
        → IfOk result (λ v. view v ≡ partition_data seed brokers number) }
    ensures next { (seed : ℕ) → draws.old.state ≡ state_after (5 * number) seed
        → OnOk result (draws.new.state ≡ state_after (5 * (number + 1)) seed) }
{
    let first = draws.below(brokers);
    let loads = draw_loads(draws);
    let load = load_value(alloc, &loads)?;
    let replicas = replica_values(alloc, brokers, first)?;
    let topic = topic_name(alloc, number)?;
    json!(in alloc; {
        "load": load,
        "partition": (number / TOPICS),
        "replicas": (Value::Array(replicas)),
        "topic": (topic.as_str())
    })
}

pub fn partition_values(
    alloc: Global,
    seed: u32,
    brokers: u32,
    partitions: u32,
) -> Result<Vec<Value>, AllocError>
    requires seed { seed < 2147483648 }
    requires brokers { (1 ≤ brokers) × (brokers ≤ 200) }
    ensures { IfOk result
        (λ v. map view v.items ≡ map (partition_data seed brokers) (numbers_below partitions)) }
{
    let mut draws = Draws::new(seed);
    let mut values = Vec::new(alloc);
    for number in 0..partitions {
        values.push(partition_value(alloc, &mut draws, brokers, number)?)?;
    }
    Ok(values)
}
