// The commands that wait for nobody.
ghost use Rattle.std.specs.Prelude.{◌≡◌, ◌≤◌, ◌⊎◌, Some, map, string_bytes, IfOk, IsErrOf, OnErr, OnOk};
ghost use Rattle.cc_base.specs.Outside.{HasRisen, with_name};
ghost use Rattle.cluster_json.specs.Ranges.{IsFile};
ghost use Rattle.cluster_json.specs.Reading.{fault_of};
ghost use Rattle.cluster_json.specs.Views.{file_seen};
ghost use Rattle.core_terms.specs.Asked.{goals_of};
ghost use Rattle.quiet_commands.specs.Checked.{IsChecked};
ghost use Rattle.quiet_commands.specs.Commands.{AsksSession, IsInputKept, asked, with_source};
ghost use Rattle.quiet_commands.specs.Edges.{edge_view};
ghost use Rattle.quiet_commands.specs.Ends.{IsTold, line_of, status_of};
ghost use Rattle.quiet_commands.specs.Input.{planned_for};
ghost use Rattle.quiet_commands.specs.Runs.{HasLoaded, Loads, Logs, PerformLogs, Performs, ReadsFrom, Runs, TellsRefusal};
ghost use Rattle.quiet_commands.specs.declared.ends.End.{End};

use crate::answers::{Answer, write};
use crate::applies::apply;
use crate::checks::judge;
use crate::commands::{Request, read_request};
use crate::ends::{End, conclude};
use crate::gens::generated;
use crate::input::{loaded_for, refusal_line};
use crate::planning::Planning;
use crate::plans::plan;
use crate::sessions::session;
use cc_base::{FileFault, Files, Link, Sink};
use cluster_json::{ClusterFile, FileRefusal, read_cluster};
use command_words::WordsFault;
use plan_terms::Memory;
use std::alloc::Global;
use std::thread::Threads;

/// Why a cluster was not read.
#[derive(Debug, Drop)]
pub enum LoadFault {
    /// The line that tells the first fault of its text.
    Refused(Vec<u8>),
    Failed,
    Memory,
}

// A refusal with its line, unless memory ran out.
fn refused(alloc: Global, refusal: &FileRefusal) -> LoadFault
    ensures { TellsRefusal (fault_of refusal.now) result }
{
    match refusal {
        FileRefusal::Memory => LoadFault::Memory,
        refusal => match refusal_line(alloc, refusal) {
            Ok(line) => LoadFault::Refused(line),
            Err(Memory) => LoadFault::Memory,
        },
    }
}

// The cluster of a text.
fn read(alloc: Global, text: &[u8]) -> Result<ClusterFile, LoadFault>
    ensures reads { ReadsFrom (Some text.now) ⊥ result }
    ensures file { IfOk result IsFile }
{
    read_cluster(alloc, text).map_err(|e| refused(alloc, &e))
}

/// Loads the cluster of a file.
pub fn load_file<F: Files>(
    alloc: Global,
    files: &mut F,
    name: &str,
) -> Result<ClusterFile, LoadFault>
    ensures later { F.faults files.old ≤ F.faults files.new }
    ensures loads { ReadsFrom (F.contents files.old name.now)
        (HasRisen (F.faults files.old) (F.faults files.new)) result }
    ensures file { IfOk result IsFile }
    ensures contents { F.contents files.new ≡ F.contents files.old }
    ensures logs { HasLoaded (F.log files.old) (F.log files.new)
        (with_name (F.log files.old) name.now) result }
{
    match files.load(alloc, name) {
        Ok(bytes) => read(alloc, &bytes),
        Err(FileFault::Failed) => Err(LoadFault::Failed),
        Err(FileFault::Memory) => Err(LoadFault::Memory),
    }
}

// The cluster that a request is about.
fn load<F: Files>(alloc: Global, files: &mut F, request: &Request) -> Result<ClusterFile, LoadFault>
    ensures later { F.faults files.old ≤ F.faults files.new }
    ensures loads { Loads (F.contents files.old) (asked request.now)
        (F.faults files.old) (F.faults files.new) result }
    ensures file { IfOk result IsFile }
    ensures contents { F.contents files.new ≡ F.contents files.old }
    ensures logs { HasLoaded (F.log files.old) (F.log files.new)
        (with_source (F.log files.old) (asked request.now)) result }
{
    match request {
        Request::Plan { file, .. }
        | Request::Check { file, .. }
        | Request::Apply { file, .. }
        | Request::Session { file, .. } => load_file(alloc, files, file),
        Request::Gen { recipe, .. } => match recipe.text(alloc) {
            Ok(text) => read(alloc, &text),
            Err(Memory) => Err(LoadFault::Memory),
        },
    }
}

// What `check` makes of what the file means. It loads its trace.
fn check<F: Files, R: Threads + Sync>(
    rt: &R,
    alloc: Global,
    files: &mut F,
    trace: &str,
    file: ClusterFile,
    planning: &Planning,
) -> Result<Answer, FileFault>
    requires { IsFile file }
    ensures later { F.faults files.old ≤ F.faults files.new }
    ensures cause { IsErrOf result FileFault.Failed
        → HasRisen (F.faults files.old) (F.faults files.new) }
    ensures made { IfOk result
        (λ a. IsChecked (F.contents files.old trace.now)
        (planned_for planning.now.ask (file_seen file)) (goals_of planning.now.ask) a.text.items
        a.end) }
    ensures log { OnOk result (F.log files.new ≡ with_name (F.log files.old) trace.now) }
    ensures failed { OnErr result ((F.log files.new ≡ F.log files.old)
        ⊎ (F.log files.new ≡ with_name (F.log files.old) trace.now)) }
{
    let loaded = loaded_for(alloc, file, &planning.ask)?;
    let bytes = files.load(alloc, trace)?;
    Ok(judge(rt, alloc, &loaded, &planning.goals, &bytes)?)
}

// Does what is asked of what the file means.
fn perform<F: Files, L: Link, R: Threads + Sync>(
    rt: &R,
    alloc: Global,
    files: &mut F,
    console: &mut L,
    request: Request,
    file: ClusterFile,
) -> End
    // The file was read.
    requires { IsFile file }
    // Faults are counted, and never fewer.
    ensures files { F.faults files.old ≤ F.faults files.new }
    ensures out { L.Sink.faults console.old ≤ L.Sink.faults console.new }
    // The command did what its words want.
    ensures performs { Performs (asked request) (file_seen file)
        (edge_view F.Files L.Source L.Sink files.old files.new console.old console.new) result }
    ensures logs { PerformLogs (asked request) (F.log files.old) (F.log files.new) result }
    // What is read of the input.
    ensures input { IsInputKept (asked request) (L.left console.old) (L.left console.new)
        (L.Source.faults console.old) (L.Source.faults console.new) }
    ensures source { L.Source.faults console.old ≤ L.Source.faults console.new }
{
    match request {
        Request::Plan {
            trace,
            planning,
            ..
        } => write(console, plan(rt, alloc, file, &planning, trace)),
        Request::Apply { planning, .. } => write(console, apply(rt, alloc, file, planning)),
        Request::Gen {
            recipe,
            whole,
            planning,
        } => write(
            console,
            generated(rt, alloc, file, &recipe, whole, &planning),
        ),
        Request::Session { review, .. } => session(rt, alloc, file, review, console),
        Request::Check {
            trace,
            planning,
            ..
        } => match check(rt, alloc, files, &trace, file, &planning) {
            Ok(answer) => write(console, Ok(answer)),
            Err(FileFault::Failed) => End::FileFault,
            Err(FileFault::Memory) => End::Memory,
        },
    }
}

fn run<F: Files, L: Link, R: Threads + Sync>(
    rt: &R,
    alloc: Global,
    words: &[String],
    files: &mut F,
    console: &mut L,
) -> End
    // Counts never fall.
    ensures files { F.faults files.old ≤ F.faults files.new }
    ensures out { L.Sink.faults console.old ≤ L.Sink.faults console.new }
    // What each end says.
    ensures runs { Runs (map string_bytes words.now)
        (edge_view F.Files L.Source L.Sink files.old files.new console.old console.new) result }
    // Which files were loaded.
    ensures logs { Logs (map string_bytes words.now) (F.contents files.old) (F.log files.old)
        (F.log files.new) result }
    // What was read.
    ensures input { AsksSession (map string_bytes words.now)
        ⊎ ((L.left console.new ≡ L.left console.old)
        × (L.Source.faults console.new ≡ L.Source.faults console.old)) }
    ensures source { L.Source.faults console.old ≤ L.Source.faults console.new }
{
    let request = match read_request(alloc, words) {
        Ok(request) => request,
        Err(WordsFault::Usage) => return End::Usage,
        Err(WordsFault::Memory) => return End::Memory,
    };
    match load(alloc, files, &request) {
        Ok(file) => perform(rt, alloc, files, console, request, file),
        Err(LoadFault::Refused(line)) => End::Refused(line),
        Err(LoadFault::Failed) => End::FileFault,
        Err(LoadFault::Memory) => End::Memory,
    }
}

/// Runs a command that waits for nobody, and answers the exit status: 0 where it is done, 2 for
/// words that are no command, 3 for a cluster's text that is refused, 4 for a hard goal that fails,
/// 5 for a fault of the files, 6 and 7 for a fault of the input and of the output, 9 for want of
/// memory, 10 for an input that ended inside a request or couldn't be framed, and 11 for a trace
/// that is refused. An answer goes to the console once it is whole in memory; a session's replies
/// go there one after another. One line on any end but 0 goes to `err`; what becomes of that line
/// changes nothing.
///
/// The console is the input and the output, as one link. What is said of contents, and of which
/// files were loaded, holds where `files` and the console tell it, as those over memory do. What
/// each status comes of is in [`every_quiet_run`](crate::every_quiet_run).
pub fn run_quiet<R: Threads + Sync, F: Files, L: Link, O: Sink>(
    rt: &R,
    alloc: Global,
    words: &[String],
    files: &mut F,
    console: &mut L,
    err: &mut O,
) -> u8
    // How it ended, with what stands behind that end, the files that were loaded, and its line on
    // the error stream, or a prefix of the line where that fails.
    ensures ended { (end : End) × (result ≡ status_of end)
        × Runs (map string_bytes words.now)
        (edge_view F.Files L.Source L.Sink files.old files.new console.old console.new) end
        × Logs (map string_bytes words.now) (F.contents files.old) (F.log files.old)
        (F.log files.new) end
        × IsTold (line_of end) (O.written err.old) (O.written err.new) (O.faults err.old)
        (O.faults err.new) }
    // Only a session reads the input.
    ensures left_alone { AsksSession (map string_bytes words.now)
        ⊎ ((L.left console.new ≡ L.left console.old)
        × (L.Source.faults console.new ≡ L.Source.faults console.old)) }
    // Counts never fall.
    ensures files_later { F.faults files.old ≤ F.faults files.new }
    ensures in_later { L.Source.faults console.old ≤ L.Source.faults console.new }
    ensures out_later { L.Sink.faults console.old ≤ L.Sink.faults console.new }
    ensures err_later { O.faults err.old ≤ O.faults err.new }
{
    let end = run(rt, alloc, words, files, console);
    conclude(err, &end, None)
}
