// A request, from its opening to what came of it.
ghost use Rattle.std.specs.Prelude.{◌≡◌, ◌∷◌, ℕ, false, List, [], Option, Some, None, IfOk, OnOk};
ghost use Rattle.cluster_json.specs.Ranges.{IsFile};
ghost use Rattle.cluster_json.specs.Views.{file_seen};
ghost use Rattle.control_core.specs.Books.{state_of};
ghost use Rattle.core_laws.specs.Alone.{IsDone, IsQuiet};
ghost use Rattle.core_terms.specs.Asked.{goals_fault, goals_of, is_dry};
ghost use Rattle.user_tasks.specs.Asks.{changes_factor};
ghost use Rattle.core_terms.specs.Jobs.{id_at};
ghost use Rattle.mover_rounds.specs.Exact.{HasDrainedAlone};
ghost use Rattle.mover_rounds.specs.Owned.{known_by_owner};
ghost use Rattle.request_runs.specs.Runs.{CameOf, IsRun, cluster_asked, without_share};

use cluster_gate::{ChunkCopy, MemoryCluster, MemoryCopier};
use cluster_json::ClusterFile;
use control_core::Book;
use core_terms::{Broken, Event, Named, Outcome, Reply};
use goal_set::GoalKind;
use mover_rounds::{DrainEnd, drain};
use plan_terms::{Memory, Ratio};
use std::alloc::Global;
use std::thread::Threads;
use user_tasks::{Ask, Status};
use uuid::Uuid;

/// A request that was carried out, or given up.
#[derive(Drop)]
pub struct RequestRun {
    /// The book, in which nothing is unfinished.
    pub book: Book<MemoryCluster>,
    /// The goal that failed, if one did.
    pub broken: Option<Broken>,
}

// A book of the file's cluster in memory, of which the request was asked first, and the request's
// id. How many partitions have loads is not tested.
fn begin(
    alloc: Global,
    mut file: ClusterFile,
    ask: Ask,
) -> Result<(Book<MemoryCluster>, Uuid), Memory>
    // A valid request for a plan that is carried out.
    requires file { IsFile file }
    requires carried { is_dry ask ≡ false }
    requires plans { changes_factor ask ≡ false }
    requires brokers { ask.brokers ≡ [] }
    requires goals { goals_fault ask ≡ None }
    // The book with this request alone.
    ensures file { IfOk result (λ r. r.0.file ≡ without_share (file_seen file)) }
    ensures journal { IfOk result (λ r. r.0.journal ≡ Event.Submit ask None ∷ []) }
    ensures id { IfOk result (λ r. r.1 ≡ id_at 0) }
{
    let Some(none) = Ratio::new(0, 1) else {
        unreachable!()
    };
    file.ratio = none;
    let Ok(mut book) = Book::begin(alloc, file, MemoryCluster::new(alloc)) else {
        return Err(Memory);
    };
    let reply = match book.step(Event::Submit(ask, None)) {
        Ok(reply) => reply,
        Err(_) => return Err(Memory),
    };
    match reply {
        Reply::Accepted(id) => Ok((book, id)),
        _ => unreachable!(),
    }
}

// Makes rounds until nothing is unfinished. No call of the admin or of the copier fails.
fn carry_out<R: Threads + Sync>(
    rt: &R,
    alloc: Global,
    book: &mut Book<MemoryCluster>,
) -> Result<(), Memory>
    requires { IsQuiet (state_of book.old).desk }
    ensures file { book.new.file ≡ book.old.file }
    ensures done { OnOk result (IsDone (state_of book.new).desk) }
    ensures rounds { OnOk result
        ((made : Option (List ChunkCopy))
        × HasDrainedAlone (known_by_owner book.old) (known_by_owner book.new)
        (record { made = Some []; faults = 0 }) (record { made = made; faults = 0 })
        DrainEnd.Drained) }
{
    let mut copier = MemoryCopier::new(alloc);
    let end = drain(rt, alloc, book, &mut copier);
    let _few = book.failures();
    match end {
        DrainEnd::Drained => Ok(()),
        DrainEnd::AdminFault(_) => unreachable!(),
        DrainEnd::Memory => Err(Memory),
    }
}

// The goal that failed a user task which has ended, if one did; no answer for another reply.
fn broken_of(reply: Reply) -> Option<Option<Broken>>
    ensures done { (id : List ℕ) (st : Status) (changes : List Named)
        → reply ≡ Reply.Task id st (Outcome.Done changes) → result ≡ Some None }
    ensures failed { (id : List ℕ) (st : Status) (goal : GoalKind) (left : ℕ)
        → reply ≡ Reply.Task id st (Outcome.Failed goal left)
        → result ≡ Some (Some (record { goal = goal; left = left })) }
{
    match reply {
        Reply::Task(_, _, Outcome::Done(_)) => Some(None),
        Reply::Task(_, _, Outcome::Failed(goal, left)) => Some(Some(Broken { goal, left })),
        _ => None,
    }
}

/// Carries out a request for a plan over the file's cluster in memory: opens a book, asks the
/// request, makes rounds until nothing is unfinished, and asks what came of it. How many partitions
/// have loads is not tested.
///
/// # Errors
///
/// Out of memory.
pub fn run_request<R: Threads + Sync>(
    rt: &R,
    alloc: Global,
    file: ClusterFile,
    ask: Ask,
) -> Result<RequestRun, Memory>
    requires file { IsFile file }
    requires carried { is_dry ask ≡ false }
    requires plans { changes_factor ask ≡ false }
    requires brokers { ask.brokers ≡ [] }
    requires goals { goals_fault ask ≡ None }
    ensures run { IfOk result (λ r. IsRun (without_share (file_seen file)) ask r.book) }
    ensures came { IfOk result
        (λ r. CameOf (cluster_asked ask (file_seen file)) file.lists (goals_of ask) r.broken
        (state_of r.book).desk.exec) }
{
    let question = ask.copy(alloc)?;
    let (mut book, id) = begin(alloc, file, ask)?;
    carry_out(rt, alloc, &mut book)?;
    let reply = match book.step(Event::Submit(question, Some(id))) {
        Ok(reply) => reply,
        Err(_) => return Err(Memory),
    };
    let _legal = book.entries();
    let Some(broken) = broken_of(reply) else {
        unreachable!()
    };
    Ok(RequestRun { book, broken })
}
