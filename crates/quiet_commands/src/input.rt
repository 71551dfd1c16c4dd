// What the program plans for: a file's cluster, lists and caps.
ghost use Rattle.std.specs.Prelude.{◌≡◌, IfOk, IfSome};
ghost use Rattle.plan_terms.specs.Belongs.{Belongs};
ghost use Rattle.cluster_json.specs.Ranges.{AreCaps, IsFile};
ghost use Rattle.cluster_json.specs.Reading.{fault_of};
ghost use Rattle.cluster_json.specs.Views.{file_seen};
ghost use Rattle.quiet_commands.specs.Ends.{refusal_line};
ghost use Rattle.quiet_commands.specs.Input.{cluster_lists, planned_for};

use cluster_json::{ClusterFile, FileRefusal};
use core_cases::{case_of, loaded_case};
use load_model::{Assign, Case};
use plan_terms::{Caps, Memory};
use std::alloc::Global;
use user_tasks::Ask;

/// A cluster with the loads to plan for, the replica list of each of its partitions, and how many
/// movements there may be at a time.
#[derive(Drop)]
pub struct Loaded {
    pub case: Case,
    pub lists: Assign,
    pub caps: Caps,
}

/// What is planned for, for a request: the file's cluster with the loads of its samples, as the
/// request sees it.
#[tactic(auto, unfolding(crate::specs::Input::planned_for, crate::specs::Input::loaded_cluster))]
pub fn loaded_for(alloc: Global, file: ClusterFile, ask: &Ask) -> Result<Loaded, Memory>
    requires { IsFile file }
    ensures value { IfOk result
        (λ loaded. cluster_lists loaded ≡ planned_for ask.now (file_seen file)) }
    ensures belongs { IfOk result (λ loaded. Belongs loaded.case loaded.lists) }
    ensures caps { IfOk result (λ loaded. AreCaps loaded.caps) }
{
    let present = loaded_case(alloc, &file)?;
    let case = case_of(alloc, ask, present)?;
    Ok(Loaded {
        case,
        lists: file.lists,
        caps: file.caps,
    })
}

/// The line that tells a refusal.
pub fn refusal_line(alloc: Global, refusal: &FileRefusal) -> Result<Vec<u8>, Memory>
    ensures { IfOk result
        (λ line. IfSome (fault_of refusal.now) (λ fault. line.items ≡ refusal_line fault)) }
{
    let line = format!(in alloc; "cluster refused: {refusal}\n")?;
    Ok(line.into_bytes())
}
