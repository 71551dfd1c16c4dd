// The cluster file as a whole.
ghost use Rattle.std.specs.Prelude.{◌≡◌, ◌<◌, ◌≤◌, Some, IfOk};
ghost use Rattle.serde_json.specs.Read.{read};
ghost use Rattle.serde_json.specs.View.{view};
ghost use Rattle.cluster_gen.specs.Clusters.{cluster_data, cluster_text};

use crate::brokers::{broker_values, capacities_value};
use crate::partitions::partition_values;
use plan_terms::Memory;
use serde_json::{Value, json};
use std::alloc::{AllocError, Global};

fn cluster_value(
    alloc: Global,
    seed: u32,
    brokers: u32,
    partitions: u32,
) -> Result<Value, AllocError>
    requires seed { seed < 2147483648 }
    requires brokers { (1 ≤ brokers) × (brokers ≤ 200) }
    ensures { IfOk result (λ v. view v ≡ cluster_data seed brokers partitions) }
{
    let capacities = capacities_value(alloc)?;
    let broker_list = Value::Array(broker_values(alloc, brokers)?);
    let partition_list = Value::Array(partition_values(alloc, seed, brokers, partitions)?);
    json!(in alloc; {
        "brokerCapacities": capacities,
        "brokers": broker_list,
        "partitions": partition_list,
        "version": 1u64
    })
}

/// The cluster file that a seed makes, as compact JSON whose keys stand in the order of their
/// bytes. It depends on nothing but its arguments.
///
/// Brokers have the ids from 0 on, in the racks `r0` to `r3` in turn. Each broker has the same
/// capacity: processor 10000, disk 500000, network in and out 50000. Partition i is partition i /
/// 50 of the topic `t` followed by i modulo 50, with up to three replicas: brokers in a row from a
/// drawn one on, where broker 0 follows the last. Its loads are drawn: network in below 100,
/// network out below 200, processor below 10, disk below 1000. A follower has half of the
/// processor, rounded down, and no network out.
///
/// The draws are those of a linear congruential generator: x becomes (1103515245 x + 12345) modulo
/// 2^31, from the seed on, and a draw below m is (x / 65536) modulo m. Each partition takes five,
/// in this order: first replica, network in, network out, processor, disk.
///
/// The seed is below 2^31; there are 1 to 200 brokers and up to 10000 partitions. `Memory`: there
/// is too little memory for the text.
pub fn cluster_text(
    alloc: Global,
    seed: u32,
    brokers: u32,
    partitions: u32,
) -> Result<Vec<u8>, Memory>
    requires seed { seed < 2147483648 }
    requires brokers { (1 ≤ brokers) × (brokers ≤ 200) }
    requires partitions { partitions ≤ 10000 }
    ensures text { IfOk result (λ text. text.items ≡ cluster_text seed brokers partitions) }
    ensures reads { IfOk result
        (λ text. read text.items ≡ Some (cluster_data seed brokers partitions)) }
{
    let value = cluster_value(alloc, seed, brokers, partitions)?;
    Ok(value.to_vec(alloc)?)
}
