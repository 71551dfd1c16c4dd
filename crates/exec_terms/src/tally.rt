// How many tasks are in each phase, and how many leases are out.
ghost use Rattle.std.specs.Prelude.{◌≡◌, ◌≤◌, length, not};
ghost use Rattle.std.specs.List.{count_by};
ghost use Rattle.exec_terms.specs.Words.{is_pending, is_in_progress, is_aborting, is_aborted, is_completed, has_phase_dead, is_free};
ghost use Rattle.exec_terms.specs.Tally.{leases_out, phase_counts};

use crate::Task;

/// How many tasks are in each phase.
#[derive(Clone, Copy, Debug, PartialEq, Eq)]
pub struct PhaseCounts {
    pub pending: u32,
    pub in_progress: u32,
    pub aborting: u32,
    pub aborted: u32,
    pub completed: u32,
    pub dead: u32,
}

fn count_pending(tasks: &[Task]) -> usize
    ensures { result ≡ count_by (λ t. is_pending t.phase) tasks.now }
{
    tasks.iter().filter(|t| t.phase.is_pending()).count()
}

fn count_in_progress(tasks: &[Task]) -> usize
    ensures { result ≡ count_by (λ t. is_in_progress t.phase) tasks.now }
{
    tasks.iter().filter(|t| t.phase.is_in_progress()).count()
}

fn count_aborting(tasks: &[Task]) -> usize
    ensures { result ≡ count_by (λ t. is_aborting t.phase) tasks.now }
{
    tasks.iter().filter(|t| t.phase.is_aborting()).count()
}

fn count_aborted(tasks: &[Task]) -> usize
    ensures { result ≡ count_by (λ t. is_aborted t.phase) tasks.now }
{
    tasks.iter().filter(|t| t.phase.is_aborted()).count()
}

fn count_completed(tasks: &[Task]) -> usize
    ensures { result ≡ count_by (λ t. is_completed t.phase) tasks.now }
{
    tasks.iter().filter(|t| t.phase.is_completed()).count()
}

fn count_dead(tasks: &[Task]) -> usize
    ensures { result ≡ count_by (λ t. has_phase_dead t.phase) tasks.now }
{
    tasks.iter().filter(|t| t.phase.is_dead()).count()
}

/// How many of the tasks, of which there are at most 10,000, are in each phase.
pub fn phase_counts(tasks: &[Task]) -> PhaseCounts
    requires { length tasks.now ≤ 10000 }
    ensures { result ≡ phase_counts tasks.now }
{
    PhaseCounts {
        pending: count_pending(tasks) as u32,
        in_progress: count_in_progress(tasks) as u32,
        aborting: count_aborting(tasks) as u32,
        aborted: count_aborted(tasks) as u32,
        completed: count_completed(tasks) as u32,
        dead: count_dead(tasks) as u32,
    }
}

fn count_leased(tasks: &[Task]) -> usize
    ensures { result ≡ count_by (λ t. not (is_free t.lease)) tasks.now }
{
    tasks.iter().filter(|t| !t.is_free()).count()
}

/// How many of the tasks, of which there are at most 10,000, have a lease out.
pub fn leases_out(tasks: &[Task]) -> u32
    requires { length tasks.now ≤ 10000 }
    ensures { result ≡ leases_out tasks.now }
{
    count_leased(tasks) as u32
}
