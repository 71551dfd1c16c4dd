// Stops, deaths and caps.
ghost use Rattle.std.specs.Prelude.{◌≡◌, ◌≤◌, IfSome};
ghost use Rattle.core_terms.specs.Caps.{IsCap, caps_changed, or_kept};
ghost use Rattle.core_terms.specs.Works.{reply_stop, stopped, reply_kill, killed, reply_caps, with_caps};

use crate::desk::Desk;
use core_terms::{CapChange, Reply};
use exec_terms::KillFault;
use executor_core::Exec;
use plan_terms::Caps;

// The new cap, where there is one.
fn or_kept(old: u32, new: Option<u32>) -> u32
    ensures value { result ≡ or_kept old new }
    ensures some { 1 ≤ old → IfSome new IsCap → 1 ≤ result }
{
    match new {
        None => old,
        Some(cap) => cap,
    }
}

// The caps in force after a change.
fn changed(exec: &Exec, asked: &CapChange) -> Caps
    ensures value { result ≡ caps_changed exec.now.caps asked.now }
    ensures broker { 1 ≤ result.broker }
    ensures cluster { 1 ≤ result.cluster }
    ensures leader { 1 ≤ result.leader }
{
    exec.state_is_valid();
    let caps = exec.caps();
    Caps {
        broker: or_kept(caps.broker, asked.broker()),
        cluster: or_kept(caps.cluster, asked.cluster()),
        leader: or_kept(caps.leader, asked.leader()),
    }
}

impl Desk {
    /// The execution is to stop.
    pub fn stop(&mut self, force: bool) -> Reply
        ensures state { self.new ≡ stopped self.old force }
        ensures reply { result ≡ reply_stop self.old force }
    {
        if self.closing {
            return Reply::Closing;
        }
        let was_executing = self.exec.is_executing();
        let outcome = self.exec.stop(force);
        self.move_on(was_executing);
        match outcome {
            Ok(stopped) => Reply::Stopped(stopped),
            Err(_) => Reply::NothingToStop,
        }
    }

    /// A broker has died.
    pub fn kill(&mut self, broker: u32) -> Reply
        ensures state { self.new ≡ killed self.old broker }
        ensures reply { result ≡ reply_kill self.old broker }
    {
        if self.closing {
            return Reply::Closing;
        }
        let was_executing = self.exec.is_executing();
        let outcome = self.exec.kill(broker);
        self.move_on(was_executing);
        match outcome {
            Ok(killed) => Reply::Killed(killed),
            Err(KillFault::NoSuchBroker) => Reply::NoSuchBroker(broker),
            Err(KillFault::AlreadyDead) => Reply::AlreadyDead(broker),
        }
    }

    /// Other caps are to be in force.
    pub fn set_caps(&mut self, asked: &CapChange) -> Reply
        ensures state { self.new ≡ with_caps self.old asked.now }
        ensures reply { result ≡ reply_caps self.old asked.now }
    {
        if self.closing {
            return Reply::Closing;
        }
        let caps = changed(&self.exec, asked);
        self.exec.set_caps(caps);
        Reply::CapsSet(caps)
    }
}
