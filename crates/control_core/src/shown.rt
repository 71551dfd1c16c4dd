// What is shown of the state.
ghost use Rattle.std.specs.Prelude.{◌≡◌, List, IfOk};
ghost use Rattle.metric_windows.specs.StandsFor.{StandsFor};
ghost use Rattle.plan_terms.specs.declared.settings.Sample.{Sample};
ghost use Rattle.core_terms.specs.Shows.{shown_of};
ghost use Rattle.core_terms.specs.State.{moment_of};
ghost use Rattle.control_core.specs.Machines.{IsReady, core_of};

use crate::machine::Machine;
use core_cases::{cluster_shown, load_shown, state_shown, tasks_shown, valid_parts};
use core_terms::{Reply, Shown};
use plan_terms::Memory;
use std::alloc::Global;
use user_tasks::Query;

impl Machine {
    /// What was asked to be shown.
    pub fn show(&self, alloc: Global, query: Query) -> Result<Reply, Memory>
        requires { IsReady self.now }
        ensures { IfOk result
            (λ r. (samples : List Sample) → StandsFor self.now.windows samples
            → r
            ≡ Reply.Shown
            (shown_of self.now.file (moment_of self.now.file (core_of self.now samples))
            self.now.desk query)) }
    {
        match query {
            Query::State => {
                let valid = valid_parts(&self.file, &self.windows);
                let shown = state_shown(&self.file, &self.desk.exec, valid);
                Ok(Reply::Shown(Shown::State(shown)))
            }
            Query::Load => {
                let case = self.present(alloc)?;
                let shown = load_shown(alloc, &case, &self.desk.exec)?;
                Ok(Reply::Shown(Shown::Load(shown)))
            }
            Query::ClusterState => {
                let case = self.present(alloc)?;
                let shown = cluster_shown(alloc, &self.file, &case, &self.desk.exec)?;
                Ok(Reply::Shown(shown))
            }
            Query::UserTasks => {
                let shown = tasks_shown(alloc, self.desk.tasks.tasks())?;
                Ok(Reply::Shown(Shown::UserTasks(shown)))
            }
        }
    }
}
