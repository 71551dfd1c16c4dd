// What a replica of a partition puts on its broker.
ghost use Rattle.std.specs.Prelude.{◌≡◌, ◌^◌, ◌<◌, slice_index};
ghost use Rattle.std.specs.List.{All};
ghost use Rattle.cluster_json.specs.Loads.{follower_at, leader_at, loads_at};
ghost use Rattle.cluster_json.specs.Ranges.{AreLoads, IsSilent};

use crate::FileRefusal;
use crate::shape::{Shape, Whole, check_object, optional};
use plan_terms::{Loads, Res4};
use serde_json::Value;
use std::alloc::Global;

/// No load at all.
pub const NO_LOADS: Loads = Loads {
    lead: [0; 4],
    follow: [0; 4],
};

const LOAD: Whole = Whole {
    least: 0,
    limit: 1 << 32,
};

/// The loads of a leader.
struct LeaderObject;

impl Shape for LeaderObject {
    type Out = Res4;

    ghost meaning = { λ _. leader_at };

    ghost Keeps = { λ _ r. All (λ x. x < 2 ^ 32) r };

    #[tactic(auto, unfolding(crate::specs::Loads::leader_at))]
    fn read(&self, alloc: Global, value: &Value) -> Result<Res4, FileRefusal> {
        check_object(alloc, value)?;
        let cpu = optional(alloc, value, "CPU", &LOAD, 0)?;
        let nw_in = optional(alloc, value, "NW_IN", &LOAD, 0)?;
        let nw_out = optional(alloc, value, "NW_OUT", &LOAD, 0)?;
        let disk = optional(alloc, value, "DISK", &LOAD, 0)?;
        Ok([cpu, nw_in, nw_out, disk])
    }
}

/// The loads of a follower, which sends nothing to clients.
struct FollowerObject;

impl Shape for FollowerObject {
    type Out = Res4;

    ghost meaning = { λ _. follower_at };

    ghost Keeps = { λ _ r. IsSilent r };

    #[tactic(auto, unfolding(crate::specs::Loads::follower_at))]
    fn read(&self, alloc: Global, value: &Value) -> Result<Res4, FileRefusal> {
        check_object(alloc, value)?;
        let cpu = optional(alloc, value, "CPU", &LOAD, 0)?;
        let nw_in = optional(alloc, value, "NW_IN", &LOAD, 0)?;
        let disk = optional(alloc, value, "DISK", &LOAD, 0)?;
        Ok([cpu, nw_in, 0, disk])
    }
}

/// The loads of a leader and of a follower.
pub struct LoadsObject;

impl Shape for LoadsObject {
    type Out = Loads;

    ghost meaning = { λ _. loads_at };

    ghost Keeps = { λ _ l. AreLoads l };

    #[tactic(auto, unfolding(crate::specs::Loads::loads_at))]
    fn read(&self, alloc: Global, value: &Value) -> Result<Loads, FileRefusal> {
        check_object(alloc, value)?;
        let lead = optional(alloc, value, "leader", &LeaderObject, [0; 4])?;
        let follow = optional(alloc, value, "follower", &FollowerObject, [0; 4])?;
        Ok(Loads { lead, follow })
    }
}
