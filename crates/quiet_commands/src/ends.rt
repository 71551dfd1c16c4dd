// How a run ends.
ghost use Rattle.std.specs.Prelude.{◌≡◌, ◌≤◌};
ghost use Rattle.quiet_commands.specs.Ends.{IsTold, line_behind, line_of, lines_of, status_of};

use cc_base::{Sink, WriteFault, write_all_of};
use mover_rounds::DrainEnd;

/// How a run ended.
#[derive(Debug, Drop)]
pub enum End {
    Done,
    Usage,
    /// The line that tells the file's first fault.
    Refused(Vec<u8>),
    /// The line that names the hard goal that stays broken.
    GoalFailed(Vec<u8>),
    FileFault,
    ReadFault,
    WriteFault,
    /// A task or a job is unfinished.
    NotDrained,
    Memory,
    /// The input ended inside a request, or couldn't be framed.
    InputCut,
    TraceRefused,
    /// A call of the listener failed.
    ListenerFault,
}

fn status(end: &End) -> u8
    ensures { result ≡ status_of end.now }
{
    match end {
        End::Done => 0,
        End::Usage => 2,
        End::Refused(_) => 3,
        End::GoalFailed(_) => 4,
        End::FileFault => 5,
        End::ReadFault => 6,
        End::WriteFault => 7,
        End::NotDrained => 8,
        End::Memory => 9,
        End::InputCut => 10,
        End::TraceRefused => 11,
        End::ListenerFault => 12,
    }
}

fn line(end: &End) -> &[u8]
    ensures { result.now ≡ line_of end.now }
{
    match end {
        End::Done => b"",
        End::Usage => b"usage error\n",
        End::Refused(line) | End::GoalFailed(line) => line.as_slice(),
        End::FileFault => b"file fault\n",
        End::ReadFault => b"read fault\n",
        End::WriteFault => b"write fault\n",
        End::NotDrained => b"not drained\n",
        End::Memory => b"want of memory\n",
        End::InputCut => b"input cut\n",
        End::TraceRefused => b"trace refused\n",
        End::ListenerFault => b"listener fault\n",
    }
}

// The line behind that of the end: that the drain failed, where the end doesn't say so.
fn line_behind(end: &End, drain: DrainEnd) -> &'static [u8]
    ensures { result.now ≡ line_behind drain end.now }
{
    match (drain, end) {
        (DrainEnd::Drained, _) | (_, End::NotDrained) | (DrainEnd::Memory, End::Memory) => b"",
        _ => b"not drained\n",
    }
}

// Writes the end's line, and that of the drain behind it.
fn tell<O: Sink>(err: &mut O, end: &End, drain: Option<DrainEnd>) -> Result<(), WriteFault>
    ensures told { IsTold (lines_of drain end.now) (O.written err.old) (O.written err.new)
        (O.faults err.old) (O.faults err.new) }
    ensures later { O.faults err.old ≤ O.faults err.new }
{
    write_all_of(err, line(end))?;
    match drain {
        Some(drain) => write_all_of(err, line_behind(end, drain)),
        None => Ok(()),
    }
}

/// Writes the end's line to the error stream, and behind it `not drained` where there was a drain
/// that failed and the end doesn't say so. Answers the end's status. A fault of that stream changes
/// nothing else.
pub fn conclude<O: Sink>(err: &mut O, end: &End, drain: Option<DrainEnd>) -> u8
    ensures status { result ≡ status_of end.now }
    ensures told { IsTold (lines_of drain end.now) (O.written err.old) (O.written err.new)
        (O.faults err.old) (O.faults err.new) }
    ensures later { O.faults err.old ≤ O.faults err.new }
{
    match tell(err, end, drain) {
        Ok(()) => {}
        Err(_) => {}
    }
    status(end)
}
