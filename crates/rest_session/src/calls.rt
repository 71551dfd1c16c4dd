// What a call asks of the core.
ghost use Rattle.std.specs.Prelude.{◌≡◌};
ghost use Rattle.rest_parse.specs.Calls.{IsInRange};
ghost use Rattle.rest_session.specs.Calls.{asked_by, plainly_asked};

use core_terms::{CapChange, Event};
use rest_parse::Call;

/// What a call asks of the core.
#[derive(Drop)]
pub enum Asked {
    /// One event.
    Once(Event),
    /// So many rounds.
    Rounds(u32),
    /// A look at this moment, of which is told what it calls for, with the ages of `Detects`.
    Looks(u64, u64, u64),
    /// A look at this moment, and the fix that it calls for: from which age on a lost broker is
    /// told, and from which it is removed. All are in milliseconds.
    Detects(u64, u64, u64),
}

/// The event that a call is, or so many rounds, or a look with what follows.
pub fn asked_by(call: Call) -> Asked
    requires { IsInRange call }
    ensures { result ≡ asked_by call }
{
    match call {
        Call::Submit(ask, id) => Asked::Once(Event::Submit(ask, id)),
        Call::Stop(force) => Asked::Once(Event::Stop(force)),
        Call::Kill(broker) => Asked::Once(Event::Kill(broker)),
        Call::Sample(topic, number, time, loads) => {
            Asked::Once(Event::Sample(topic, number, time, loads))
        }
        Call::Show(query) => Asked::Once(Event::Show(query)),
        Call::Pump(steps) => Asked::Rounds(steps),
        Call::Caps(broker, cluster, leader) => {
            Asked::Once(Event::Caps(CapChange::new(broker, cluster, leader)))
        }
        Call::Detect(now, alert, heal) => Asked::Detects(now, alert, heal),
    }
}

/// The same where what starts something is reviewed first: a fix is told, and not asked.
pub fn plainly_asked(call: Call) -> Asked
    requires { IsInRange call }
    ensures { result ≡ plainly_asked call }
{
    match call {
        Call::Detect(now, alert, heal) => Asked::Looks(now, alert, heal),
        call => asked_by(call),
    }
}
