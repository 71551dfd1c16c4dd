// What `apply` makes.
ghost use Rattle.std.specs.Prelude.{◌≡◌, ◌++◌, ◌∷◌, [], IfOk};
ghost use Rattle.plan_terms.specs.Belongs.{Belongs};
ghost use Rattle.cluster_json.specs.Ranges.{IsFile};
ghost use Rattle.cluster_json.specs.Views.{file_seen};
ghost use Rattle.exec_terms.specs.Machine.{lists_now};
ghost use Rattle.control_core.specs.Books.{state_of};
ghost use Rattle.proposal_set.specs.Text.{assignment_text};
ghost use Rattle.quiet_commands.specs.Applied.{IsApplied};
ghost use Rattle.plan_terms.specs.Bytes.{line_feed};

use crate::answers::Answer;
use crate::ends::End;
use crate::planning::Planning;
use crate::plans::goal_failed_with;
use cluster_gate::MemoryCluster;
use cluster_json::ClusterFile;
use control_core::Book;
use core_cases::{case_of, loaded_case};
use load_model::Case;
use plan_terms::Memory;
use proposal_set::assignment_text;
use request_runs::{RequestRun, lists_told, run_request};
use std::alloc::Global;
use std::thread::Threads;

// The text of all lists of a book whose lists belong to the case, and a line feed.
fn lists_text(alloc: Global, case: &Case, book: &Book<MemoryCluster>) -> Result<Answer, Memory>
    requires { Belongs case.now (lists_now (state_of book.now).desk.exec) }
    ensures text { IfOk result
        (λ a. a.text.items
        ≡ assignment_text case.now.parts (lists_now (state_of book.now).desk.exec)
        ++ line_feed ∷ []) }
    ensures end { IfOk result (λ a. a.end ≡ End.Done) }
{
    let _few = case.parts();
    let _lists = book.entries();
    let lists = lists_told(alloc, book.admin(), book.parts())?;
    let mut text = assignment_text(alloc, case, lists.lists())?;
    text.push(10)?;
    Ok(Answer {
        text,
        end: End::Done,
    })
}

/// What `apply` makes of what a file means: it carries a request out, by a book of the file's
/// cluster, and tells the lists that this leaves, or the goal that fails.
pub fn apply<R: Threads + Sync>(
    rt: &R,
    alloc: Global,
    file: ClusterFile,
    planning: Planning,
) -> Result<Answer, Memory>
    requires { IsFile file }
    ensures { IfOk result (λ a. IsApplied (file_seen file) planning.ask a.text.items a.end) }
{
    let Planning { ask, .. } = planning;
    let present = loaded_case(alloc, &file)?;
    let case = case_of(alloc, &ask, present)?;
    let RequestRun { book, broken } = run_request(rt, alloc, file, ask)?;
    match broken {
        None => lists_text(alloc, &case, &book),
        Some(broken) => goal_failed_with(alloc, broken.goal, broken.left),
    }
}
