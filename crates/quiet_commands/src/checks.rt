// What `check` makes.
ghost use Rattle.std.specs.Prelude.{◌≡◌, ◌++◌, ◌∷◌, [], Some, IfOk};
ghost use Rattle.plan_terms.specs.Belongs.{Belongs};
ghost use Rattle.quiet_commands.specs.Checked.{IsChecked, fault_text};
ghost use Rattle.quiet_commands.specs.Input.{cluster_lists};
ghost use Rattle.plan_terms.specs.Bytes.{line_feed};

use crate::answers::Answer;
use crate::ends::End;
use crate::input::Loaded;
use goal_set::GoalList;
use plan_check::{TraceFault, Verdict, check, read_trace};
use plan_terms::Memory;
use std::alloc::{AllocError, Global};
use std::thread::Threads;

// The text of a fault of a trace.
fn fault_text(alloc: Global, turn: usize, action: usize, name: &str) -> Result<Vec<u8>, AllocError>
    ensures { IfOk result (λ text. text.items ≡ fault_text turn action name.now ++ line_feed ∷ []) }
{
    let text = format!(in alloc; "fault {turn} {action} {name}")?;
    let mut line = Vec::from_slice(alloc, text.as_bytes())?;
    line.push(10)?;
    Ok(line)
}

/// What `check` makes of the bytes of a trace, for a cluster and a list of goals: that it is good,
/// or its first fault.
pub fn judge<R: Threads + Sync>(
    rt: &R,
    alloc: Global,
    loaded: &Loaded,
    goals: &GoalList,
    bytes: &[u8],
) -> Result<Answer, Memory>
    requires { Belongs loaded.now.case loaded.now.lists }
    ensures { IfOk result
        (λ a. IsChecked (Some bytes.now) (cluster_lists loaded.now) goals.now a.text.items a.end) }
{
    let trace = match read_trace(alloc, bytes) {
        Ok(trace) => trace,
        Err(TraceFault::NotATrace) => {
            let text = Vec::from_slice(alloc, b"fault 0 0 NOT_A_TRACE\n")?;
            return Ok(Answer {
                text,
                end: End::TraceRefused,
            });
        }
        Err(TraceFault::Memory) => return Err(Memory),
    };
    match check(rt, alloc, &loaded.case, &loaded.lists, goals, &trace)? {
        Verdict::Good => Ok(Answer {
            text: Vec::from_slice(alloc, b"good\n")?,
            end: End::Done,
        }),
        Verdict::Fault { turn, action, kind } => Ok(Answer {
            text: fault_text(alloc, turn, action, kind.name())?,
            end: End::TraceRefused,
        }),
    }
}
