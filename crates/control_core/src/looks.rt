// Looks at the brokers that are lost.
ghost use Rattle.std.specs.Prelude.{◌≡◌, List, IfOk, OnOk, OnErr};
ghost use Rattle.metric_windows.specs.StandsFor.{StandsFor};
ghost use Rattle.plan_terms.specs.declared.settings.Sample.{Sample};
ghost use Rattle.core_terms.specs.Looks.{reply_look, since_after};
ghost use Rattle.control_core.specs.Machines.{IsReady, core_of};

use crate::machine::Machine;
use core_cases::lost_since;
use core_terms::{Looked, Reply};
use plan_terms::{ListOf, Memory};
use std::alloc::Global;

impl Machine {
    /// Which brokers are lost, and since when, at a moment in milliseconds.
    pub fn look(&mut self, alloc: Global, now: u64) -> Result<Reply, Memory>
        requires { IsReady self.old }
        ensures reply { IfOk result
            (λ r. (samples : List Sample) → StandsFor self.old.windows samples
            → r ≡ reply_look self.old.file (core_of self.old samples) now) }
        ensures since { OnOk result
            ((samples : List Sample) → StandsFor self.old.windows samples
            → self.new.since.items ≡ since_after self.old.file (core_of self.old samples) now) }
        ensures desk { self.new.desk ≡ self.old.desk }
        ensures windows { self.new.windows ≡ self.old.windows }
        ensures file { self.new.file ≡ self.old.file }
        ensures err { OnErr result (self.new ≡ self.old) }
    {
        if self.desk.closing {
            return Ok(Reply::Closing);
        }
        let case = self.present(alloc)?;
        let lists = self.desk.settled(alloc, &case)?;
        let since = lost_since(alloc, &case, &lists, &self.since, now)?;
        let shown = ListOf::new(Vec::from_slice(alloc, &since)?);
        self.since = since;
        Ok(Reply::Looked(Looked::new(shown, case, lists)))
    }
}
