// The brokers of a cluster file, and their capacity.
ghost use Rattle.std.specs.Prelude.{◌≡◌, ◌++◌, ◌%◌, IfOk, map, codes, decimal, string_bytes};
ghost use Rattle.serde_json.specs.View.{view};
ghost use Rattle.cluster_gen.specs.Clusters.{broker_data, capacities_data, numbers_below};

use serde_json::{Value, json};
use std::alloc::{AllocError, Global};

pub fn capacities_value(alloc: Global) -> Result<Value, AllocError>
    ensures { IfOk result (λ v. view v ≡ capacities_data) }
{
    json!(in alloc; [{
        "brokerId": "-1",
        "capacity": {"CPU": "10000", "DISK": "500000", "NW_IN": "50000", "NW_OUT": "50000"}
    }])
}

fn rack_name(alloc: Global, id: u32) -> Result<String, AllocError>
    ensures { IfOk result (λ name. string_bytes name ≡ codes "r" ++ decimal (id % 4)) }
{
    let rack = id % 4;
    format!(in alloc; "r{rack}")
}

fn broker_value(alloc: Global, id: u32) -> Result<Value, AllocError>
    ensures { IfOk result (λ v. view v ≡ broker_data id) }
{
    let rack = rack_name(alloc, id)?;
    json!(in alloc; {"id": id, "rack": (rack.as_str())})
}

pub fn broker_values(alloc: Global, brokers: u32) -> Result<Vec<Value>, AllocError>
    ensures { IfOk result (λ v. map view v.items ≡ map broker_data (numbers_below brokers)) }
{
    let mut values = Vec::new(alloc);
    for id in 0..brokers {
        values.push(broker_value(alloc, id)?)?;
    }
    Ok(values)
}
