// The whole program, once the outside was made.
ghost use Rattle.std.specs.Prelude.{◌≡◌, None, IfErr, IfOk, map, string_bytes, vec_len};
ghost use Rattle.std.specs.Process.{exit_status};
ghost use Rattle.std.specs.IoError.{error_kind};
ghost use Rattle.quiet_commands.specs.Ends.{IsTold, lines_of, status_of};
ghost use Rattle.cc_program.specs.Entry.{AsWanted, IsKept, IsWordless, RanAlone, RunsLive};
ghost use Rattle.cc_program.specs.Lives.{gate};
ghost use Rattle.live_service.specs.Views.{link_of, net_of};
ghost use Rattle.quiet_commands.specs.declared.ends.End.{End};

use crate::lives::run_live;
use crate::outside::{Ended, Left, Outside};
use cc_base::{Files, Link, Sink};
use cluster_gate::{Admin, Copier, MemoryCluster, MemoryCopier};
use command_words::wants_live;
use net_links::Listener;
use plan_terms::Memory;
use quiet_commands::{End, conclude, run_quiet};
use std::alloc::Global;
use std::io;
use std::io::ErrorKind;
use std::process::ExitCode;
use std::sync::Wait;
use std::thread::Threads;

// One for each of 64 movers and 64 links, the most that words can ask for, and one for the console
// and the drain.
const COPIERS: usize = 129;

/// What is left of a run over a cluster in memory.
pub type Kept<L, N> = Left<MemoryCluster, MemoryCopier, L, N>;

// How a run ends whose words can't be had: for want of memory, or for a word that is no text.
fn end_without_words(kind: ErrorKind) -> End
    ensures { IsWordless kind result }
{
    if kind == ErrorKind::OutOfMemory {
        End::Memory
    } else {
        End::Usage
    }
}

// The code with which the process ends: the status itself.
fn exit_code(status: u8) -> ExitCode
    ensures { exit_status result ≡ status }
{
    ExitCode::from(status)
}

/// Ends out of memory where nothing was begun. The error stream has its line.
pub fn end_without_memory<O: Sink>(err: &mut O) -> ExitCode
    ensures status { exit_status result ≡ status_of End.Memory }
    ensures told { IsTold (lines_of None End.Memory) (O.written err.old) (O.written err.new)
        (O.faults err.old) (O.faults err.new) }
{
    exit_code(conclude(err, &End::Memory, None))
}

// So many copiers in memory.
fn copiers(alloc: Global, count: usize) -> Result<Vec<MemoryCopier>, Memory>
    ensures { IfOk result (λ made. vec_len made ≡ count) }
{
    Ok((0..count).map(|_| MemoryCopier::new(alloc)).collect(alloc)?)
}

// The console and the listener, where no run with threads began.
fn lent<L: Link, N: Listener>(alloc: Global, console: L, listener: N) -> Kept<L, N>
where
    N::Conn: Drop,
    ensures { IsKept (link_of L.left L.written L.Source.faults L.Sink.faults console)
        (net_of N.faults N.accepted N.heard listener) result }
{
    let outside = Outside {
        copiers: Vec::new(alloc),
        console,
        listener,
    };
    Left::idle(alloc, None, outside)
}

// Runs words that want a run with threads, over a cluster in memory.
fn run_threads<
    R: Threads + Wait + Sync,
    F: Files,
    L: Link + Drop,
    N: Listener + Send + Drop,
    O: Sink,
>(
    rt: &R,
    alloc: Global,
    words: &[String],
    files: &mut F,
    console: L,
    listener: N,
    err: &mut O,
) -> (ExitCode, Kept<L, N>)
where
    N::Conn: Send + Drop,
    ensures { (end : End) × (exit_status result.0 ≡ status_of end)
        × IsTold (lines_of result.1.drain end) (O.written err.old) (O.written err.new)
        (O.faults err.old) (O.faults err.new)
        × RunsLive (gate ⟦<MemoryCluster as Admin>⟧.faults ⟦<MemoryCluster as Admin>⟧.told) F.Files
        (map string_bytes words.now) files.old files.new
        (link_of L.left L.written L.Source.faults L.Sink.faults console)
        (net_of N.faults N.accepted N.heard listener) result.1 end }
{
    let Ok(copiers) = copiers(alloc, COPIERS) else {
        return (end_without_memory(err), lent(alloc, console, listener));
    };
    let outside = Outside {
        copiers,
        console,
        listener,
    };
    let admin = MemoryCluster::new(alloc);
    let Ended { status, left } = run_live(rt, alloc, words, files, err, admin, outside);
    (exit_code(status), left)
}

/// Runs the words, if they can be had: [`run_live`] over a cluster in memory where they want
/// threads, else [`run_quiet`]. The code is the status of how that ended, and the
/// error stream has its line. The console and the listener come back, with what a run with threads
/// leaves. Words that can't be had end out of memory, or as a usage error where one is no text, and
/// nothing is done.
pub fn run_words<
    R: Threads + Wait + Sync,
    F: Files,
    L: Link + Drop,
    N: Listener + Send + Drop,
    O: Sink,
>(
    rt: &R,
    alloc: Global,
    words: io::Result<Vec<String>>,
    files: &mut F,
    mut console: L,
    listener: N,
    err: &mut O,
) -> (ExitCode, Kept<L, N>)
where
    N::Conn: Send + Drop,
    ensures { (end : End) × (exit_status result.0 ≡ status_of end)
        × IsTold (lines_of result.1.drain end) (O.written err.old) (O.written err.new)
        (O.faults err.old) (O.faults err.new)
        × IfErr words (λ e. IsWordless (error_kind e) end × (files.new ≡ files.old)
        × IsKept (link_of L.left L.written L.Source.faults L.Sink.faults console)
        (net_of N.faults N.accepted N.heard listener) result.1)
        × IfOk words (λ given. AsWanted (map string_bytes given.items)
        (RunsLive (gate ⟦<MemoryCluster as Admin>⟧.faults ⟦<MemoryCluster as Admin>⟧.told) F.Files
        (map string_bytes given.items) files.old files.new
        (link_of L.left L.written L.Source.faults L.Sink.faults console)
        (net_of N.faults N.accepted N.heard listener) result.1 end)
        (RanAlone F.Files (map string_bytes given.items) files.old files.new
        (link_of L.left L.written L.Source.faults L.Sink.faults console)
        (net_of N.faults N.accepted N.heard listener) result.1 end)) }
{
    match words {
        Ok(words) => {
            if wants_live(&words) {
                return run_threads(rt, alloc, &words, files, console, listener, err);
            }
            let status = run_quiet(rt, alloc, &words, files, &mut console, err);
            (exit_code(status), lent(alloc, console, listener))
        }
        Err(e) => {
            let code = exit_code(conclude(err, &end_without_words(e.kind()), None));
            (code, lent(alloc, console, listener))
        }
    }
}
