// What the machine does at each event.
ghost use Rattle.std.specs.Prelude.{◌≡◌, List, false, IfOk, IsOk, OnOk, OnErr};
ghost use Rattle.metric_windows.specs.StandsFor.{StandsFor};
ghost use Rattle.plan_terms.specs.declared.settings.Sample.{Sample};
ghost use Rattle.core_terms.specs.Works.{reply_sample, sampled};
ghost use Rattle.core_terms.specs.Step.{reply_of, next};
ghost use Rattle.control_core.specs.Machines.{AreWindows, IsReady, core_of, wants_memory};

use crate::machine::Machine;
use core_cases::sample;
use core_terms::{Event, Reply};
use plan_terms::{Measured, Memory, Topic};
use std::alloc::Global;

impl Machine {
    // A sample of a partition.
    fn sample(&mut self, topic: &Topic, number: u32, time: u64, measured: &Measured) -> Reply
        requires { AreWindows self.old }
        ensures reply { (samples : List Sample) → StandsFor self.old.windows samples
            → result
            ≡ reply_sample self.old.file self.old.desk.closing samples topic.now number time
            measured.now }
        ensures stands { (samples : List Sample) → StandsFor self.old.windows samples
            → StandsFor self.new.windows
            (sampled self.old.file self.old.desk.closing samples topic.now number time
            measured.now) }
        ensures windows { AreWindows self.new }
        ensures since { self.new.since ≡ self.old.since }
        ensures desk { self.new.desk ≡ self.old.desk }
        ensures file { self.new.file ≡ self.old.file }
    {
        let closing = self.desk.closing;
        sample(
            &self.file,
            &mut self.windows,
            closing,
            topic,
            number,
            time,
            measured,
        )
    }

    /// Answers an event, and is in the next state. Only an event that wants memory may meet want of
    /// it, and then nothing changes.
    pub fn serve(&mut self, alloc: Global, event: &Event) -> Result<Reply, Memory>
        // Its parts fit each other, and few leases and tickets were given.
        requires { IsReady self.old }
        // The reply and the next state are those of the definition, for whatever samples the
        // windows stand for.
        ensures reply { IfOk result
            (λ r. (samples : List Sample) → StandsFor self.old.windows samples
            → r ≡ reply_of self.old.file (core_of self.old samples) event.now) }
        ensures desk { OnOk result
            ((samples : List Sample) → StandsFor self.old.windows samples
            → self.new.desk ≡ (next self.old.file (core_of self.old samples) event.now).desk) }
        ensures stands { OnOk result
            ((samples : List Sample) → StandsFor self.old.windows samples
            → StandsFor self.new.windows
            (next self.old.file (core_of self.old samples) event.now).samples) }
        ensures since { OnOk result
            ((samples : List Sample) → StandsFor self.old.windows samples
            → self.new.since.items
            ≡ (next self.old.file (core_of self.old samples) event.now).since) }
        // What always stays.
        ensures windows { AreWindows self.new }
        ensures file { self.new.file ≡ self.old.file }
        // Out of memory nothing changes, and only an event that wants memory meets that.
        ensures err { OnErr result (self.new ≡ self.old) }
        ensures frugal { wants_memory event.now ≡ false → IsOk result }
    {
        match event {
            Event::Submit(ask, key) => self.submit(alloc, ask, *key),
            Event::PlanTake => self.plan_take(alloc),
            Event::Planned(ticket, plan) => self.planned(alloc, *ticket, plan),
            Event::Refused(ticket, failure) => self.refused(alloc, *ticket, failure),
            Event::Show(query) => self.show(alloc, *query),
            Event::Look(now) => self.look(alloc, *now),
            Event::Heal(_, ask) => self.submit(alloc, ask, None),
            Event::PlanBack(ticket) => Ok(self.desk.plan_back(*ticket)),
            Event::Stop(force) => Ok(self.desk.stop(*force)),
            Event::Kill(broker) => Ok(self.desk.kill(*broker)),
            Event::Sample(topic, number, time, measured) => {
                Ok(self.sample(topic, *number, *time, measured))
            }
            Event::Caps(asked) => Ok(self.desk.set_caps(asked)),
            Event::Take => Ok(self.desk.take()),
            Event::Copied(receipt) => Ok(self.desk.copied(receipt)),
            Event::CopyFailed(lease) => Ok(self.desk.copy_failed(*lease)),
            Event::Commit(lease) => Ok(self.desk.commit(*lease)),
            Event::Cancel(lease) => Ok(self.desk.cancel(*lease)),
            Event::GiveBack(lease) => Ok(self.desk.give_back(*lease)),
            Event::Close => Ok(self.desk.close()),
        }
    }
}
