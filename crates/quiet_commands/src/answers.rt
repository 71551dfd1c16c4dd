// What a command makes, whole in memory, before any of it is written.
ghost use Rattle.std.specs.Prelude.{◌≡◌, ◌≤◌, IfOk};
ghost use Rattle.quiet_commands.specs.Edges.{Writes, io_view};
ghost use Rattle.quiet_commands.specs.Ends.{IsFailureEnd};

use crate::ends::End;
use cc_base::{Link, write_link};
use goal_set::GoalKind;
use plan_terms::Memory;
use std::alloc::Global;

/// A text, and how the run ends once it is written.
#[derive(Drop)]
pub struct Answer {
    pub text: Vec<u8>,
    pub end: End,
}

/// The end of a run whose goal fails, with the line that names it.
pub fn goal_failed(alloc: Global, goal: GoalKind) -> Result<End, Memory>
    ensures { IfOk result (IsFailureEnd goal) }
{
    let mut line = Vec::from_slice(alloc, b"hard goal failed: ")?;
    line.extend_from_slice(goal.name().as_bytes())?;
    line.push(10)?;
    Ok(End::GoalFailed(line))
}

/// Writes what a command made, and answers how the run ends.
pub fn write<L: Link>(console: &mut L, made: Result<Answer, Memory>) -> End
    ensures later { L.Sink.faults console.old ≤ L.Sink.faults console.new }
    ensures written { Writes (io_view L.Source L.Sink console.old console.new) made result }
    ensures left { L.left console.new ≡ L.left console.old }
    ensures source { L.Source.faults console.new ≡ L.Source.faults console.old }
{
    let Ok(answer) = made else {
        return End::Memory;
    };
    let Answer { text, end } = answer;
    match write_link(console, &text) {
        Ok(()) => end,
        Err(_) => End::WriteFault,
    }
}
