// What `gen` makes.
ghost use Rattle.std.specs.Prelude.{◌≡◌, ◌≤◌, ◌<◌, IfOk};
ghost use Rattle.cluster_gen.specs.Clusters.{cluster_text};
ghost use Rattle.plan_terms.specs.Belongs.{Belongs};
ghost use Rattle.cluster_json.specs.Ranges.{IsFile};
ghost use Rattle.cluster_json.specs.Views.{file_seen};
ghost use Rattle.core_terms.specs.Asked.{goals_of};
ghost use Rattle.quiet_commands.specs.Generated.{IsGenerated, IsSummary, IsSummedUp};
ghost use Rattle.quiet_commands.specs.Input.{cluster_lists, planned_for};

use crate::answers::{Answer, goal_failed};
use crate::ends::End;
use crate::input::{Loaded, loaded_for};
use crate::planning::Planning;
use cluster_gen::cluster_text;
use cluster_json::ClusterFile;
use goal_optimizer::{PlanFault, optimise};
use goal_set::{Failure, GoalList};
use plan_summary::{failure_summary, plan_summary};
use plan_terms::Memory;
use std::alloc::Global;
use std::thread::Threads;

/// What a cluster is made from: a seed, and how many brokers and partitions it is to have.
#[derive(Drop)]
pub struct Recipe {
    pub seed: u32,
    pub brokers: u32,
    pub partitions: u32,
    ghost seed_fits: { seed < 2147483648 },
    ghost some_brokers: { 1 ≤ brokers },
    ghost few_brokers: { brokers ≤ 200 },
    ghost few_partitions: { partitions ≤ 10000 },
}

impl Recipe {
    /// The cluster's file.
    pub fn text(&self, alloc: Global) -> Result<Vec<u8>, Memory>
        ensures { IfOk result
            (λ text. text.items ≡ cluster_text self.now.seed self.now.brokers self.now.partitions) }
    {
        cluster_text(alloc, self.seed, self.brokers, self.partitions)
    }
}

// What is told of a failure.
fn failed(alloc: Global, failure: &Failure) -> Result<Answer, Memory>
    ensures { IfOk result (λ a. IsSummedUp failure.now a.text.items a.end) }
{
    let goal = failure.goal();
    let end = goal_failed(alloc, goal)?;
    let text = failure_summary(alloc, failure, goal)?;
    Ok(Answer { text, end })
}

/// Plans for a cluster and a list of goals, and sums up.
pub fn summary<R: Threads + Sync>(
    rt: &R,
    alloc: Global,
    loaded: &Loaded,
    goals: &GoalList,
) -> Result<Answer, Memory>
    requires { Belongs loaded.now.case loaded.now.lists }
    ensures { IfOk result (λ a. IsSummary (cluster_lists loaded.now) goals.now a.text.items a.end) }
{
    match optimise(rt, alloc, &loaded.case, &loaded.lists, goals) {
        Ok(plan) => {
            let text = plan_summary(alloc, &plan)?;
            Ok(Answer {
                text,
                end: End::Done,
            })
        }
        Err(PlanFault::Goal(failure)) => failed(alloc, &failure),
        Err(PlanFault::Memory) => Err(Memory),
    }
}

/// What `gen` makes of a cluster that was made: its file; or the summary of a plan for it, or of
/// the goal that fails.
pub fn generated<R: Threads + Sync>(
    rt: &R,
    alloc: Global,
    file: ClusterFile,
    recipe: &Recipe,
    whole: bool,
    planning: &Planning,
) -> Result<Answer, Memory>
    requires { IsFile file }
    ensures { IfOk result
        (λ a. IsGenerated whole
        (cluster_text recipe.now.seed recipe.now.brokers recipe.now.partitions)
        (planned_for planning.now.ask (file_seen file)) (goals_of planning.now.ask) a.text.items
        a.end) }
{
    if whole {
        let mut text = recipe.text(alloc)?;
        text.push(10)?;
        return Ok(Answer {
            text,
            end: End::Done,
        });
    }
    let loaded = loaded_for(alloc, file, &planning.ask)?;
    summary(rt, alloc, &loaded, &planning.goals)
}
