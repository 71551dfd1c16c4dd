// The executor's state, and its calls.
ghost use Rattle.std.specs.Prelude.{◌≡◌, ◌↔◌, ◌+◌, ◌<◌, ◌≤◌, ◌^◌, ◌&&◌, ℕ, not, if◌then◌else◌, length, get_or, vec_len, IsTrue, Ok, Err, None, IfOk, IfErr, OnOk, OnErr, true, false, nat_lt, bytes_eq};
ghost use Rattle.std.specs.List.{All, list_all, list_any, position};
ghost use Rattle.plan_terms.specs.Belongs.{distinct};
ghost use Rattle.plan_terms.specs.Cluster.{has};
ghost use Rattle.exec_terms.specs.Machine.{next_work, idle, may_start, task_at, any_unfinished, taken, after_take, after_launch, after_caps, first_unfinished, list_now, lists_now};
ghost use Rattle.exec_terms.specs.Leases.{test_lease, end_lease, after_copied, copied_reply, after_copy_failed, copy_failed_reply, after_commit, commit_reply, after_cancel, cancel_reply, give_back_reply, held, held_for};
ghost use Rattle.exec_terms.specs.Stops.{after_stop, stop_reply, after_kill, kill_reply, has_died};
ghost use Rattle.exec_terms.specs.Words.{is_pending, is_aborting, is_in_progress, is_free, is_cancel, holds, holds_for, is_on, is_replica_task, is_unfinished, union_of, list_shown};
ghost use Rattle.exec_terms.specs.Runs.{new_state, hosts_of, CanLaunch, IsExecuting};
ghost use Rattle.exec_terms.specs.Settled.{settled, settled_in, settled_lists};
ghost use Rattle.exec_terms.specs.Tally.{leases_out, phase_counts};
ghost use Rattle.exec_terms.specs.Valid.{IsValid};
ghost use Rattle.executor_core.specs.Kept.{proposal_of};
ghost use Rattle.executor_core.specs.Kept.{AreCounts};

use crate::{change, scan};
use cap_ledger::Counts;
use exec_terms::{
    Faults, Given, Host, Idle, KillFault, Killed, LaunchFault, LeaseFault, Left, NothingToStop,
    Phase, PhaseCounts, Stopped, Task, Work, WorkKind, leases_out, phase_counts,
};
use load_model::Assign;
use plan_terms::{Caps, Memory, Proposal, Replicas};
use std::alloc::Global;
use std::marker::Model;
use task_index::TaskIndex;
use task_planner::TaskQueue;

/// Carries out one execution at a time: its tasks, and the work on each that is given and reported.
#[derive(Drop)]
pub struct Exec {
    base: Vec<Replicas>,
    chunks: Vec<u32>,
    caps: Caps,
    hosts: Vec<Host>,
    tasks: Vec<Task>,
    stopped: bool,
    leases: u64,
    // the ids of the hosts
    brokers: Vec<u32>,
    // beside each task, the list of its partition while it is in flight, so that reading it takes
    // no memory
    unions: Vec<Replicas>,
    // beside each task, what it was made of
    proposals: Vec<Proposal>,
    // what the tasks in flight add, remove and move
    counts: Counts,
    // how many tasks have not ended
    unfinished: u32,
    // the tasks, and which of them wait
    queue: TaskQueue,
    // which task wants its cancel, which may go on, and which has a lease
    index: TaskIndex,
}

impl Model for Exec {
    ghost use Rattle.exec_terms.specs.Machine.{State};
    ghost use Rattle.executor_core.specs.Kept.{IsKept};

    ghost Value = { State };

    ghost view = { λ e. record {
      base = e.base.items;
      chunks = e.chunks.items;
      caps = e.caps;
      hosts = e.hosts.items;
      tasks = e.tasks.items;
      stopped = e.stopped;
      leases = e.leases;
    } };

    ghost invariant = { λ e. IsKept
        (record {
          base = e.base.items;
          chunks = e.chunks.items;
          caps = e.caps;
          hosts = e.hosts.items;
          tasks = e.tasks.items;
          stopped = e.stopped;
          leases = e.leases;
        })
        e.brokers.items e.unions.items e.proposals.items e.counts e.unfinished e.queue e.index };
}

impl Exec {
    /// An executor of these lists, without an execution. Each replica of partition p takes
    /// `chunks[p]` copies, at most 1,000. The dead brokers are among the brokers.
    pub fn new(
        alloc: Global,
        lists: &Assign,
        chunks: &[u32],
        caps: Caps,
        brokers: &[u32],
        dead: &[u32],
    ) -> Result<Exec, Memory>
        // The chunks of each partition.
        requires one_each { length chunks.now ≡ length lists.now }
        requires few { All (λ n. n ≤ 1000) chunks.now }
        // No cap is 0.
        requires broker_cap { 1 ≤ caps.broker }
        requires cluster_cap { 1 ≤ caps.cluster }
        requires leader_cap { 1 ≤ caps.leader }
        // The brokers, and those of them that the lists name and that are dead.
        requires distinct { IsTrue (distinct brokers.now) }
        requires members { All (λ list. list_all (has brokers.now) list ≡ true) lists.now }
        requires dead { list_all (has brokers.now) dead.now ≡ true }
        // The state at the opening.
        ensures { IfOk result
            (λ exec. exec ≡ new_state lists.now chunks.now caps (hosts_of brokers.now dead.now)) }
    {
        let base = change::copies(alloc, lists.lists())?;
        let none = Vec::new(alloc);
        Ok(Exec {
            base,
            chunks: Vec::from_slice(alloc, chunks)?,
            caps,
            hosts: change::hosts(alloc, brokers, dead)?,
            tasks: Vec::new(alloc),
            stopped: false,
            leases: 0,
            brokers: Vec::from_slice(alloc, brokers)?,
            unions: Vec::new(alloc),
            counts: Counts::new(alloc, brokers)?,
            unfinished: 0,
            queue: TaskQueue::new(alloc, brokers, none.as_slice())?,
            index: TaskIndex::new(alloc, 0)?,
            proposals: none,
        })
    }

    /// Starts an execution: each proposal is a task that waits. They are at most 10,000, of partitions
    /// that differ, each from the list that its partition has now to 1 to 8 distinct known brokers, and
    /// no dead broker is added or would lead where the leader alone changes.
    pub fn launch(&mut self, alloc: Global, proposals: &[Proposal]) -> Result<(), LaunchFault>
        requires { CanLaunch self.old proposals.now }
        ensures ok { OnOk result (self.new ≡ after_launch self.old proposals.now) }
        ensures idle { OnOk result (first_unfinished self.old ≡ None) }
        ensures err { OnErr result (self.new ≡ self.old) }
        ensures executing { IfErr result (λ fault. IsExecuting (first_unfinished self.old) fault) }
    {
        if let Some(i) = scan::first_unfinished(self.tasks.as_slice()) {
            return Err(LaunchFault::Executing(i as u32));
        }
        let base = self.lists_now(alloc)?;
        let tasks = change::new_tasks(alloc, self.chunks.as_slice(), proposals)?;
        let unions = change::unions_of(alloc, tasks.as_slice())?;
        let copies = change::proposal_copies(alloc, proposals)?;
        let queue = TaskQueue::new(alloc, self.brokers.as_slice(), proposals)?;
        let index = TaskIndex::new(alloc, proposals.len())?;
        self.base = base;
        self.tasks = tasks;
        self.unions = unions;
        self.proposals = copies;
        self.unfinished = proposals.len() as u32;
        self.queue = queue;
        self.index = index;
        self.stopped = false;
        Ok(())
    }

    /// The work that `take` would give.
    pub fn next_work(&self) -> Result<Given, Idle>
        requires { self.now.leases < 2 ^ 63 }
        ensures { result ≡ next_work self.now }
    {
        let tasks = self.tasks.as_slice();
        if let Some(i) = self.first_to_cancel() {
            return Ok(given(tasks, self.leases, i, Work::Cancel, false));
        }
        if let Some(i) = self.first_to_go_on() {
            return Ok(given(tasks, self.leases, i, tasks[i].next_step(), false));
        }
        if let Some(i) = self.first_to_start() {
            return Ok(given(tasks, self.leases, i, tasks[i].next_step(), true));
        }
        Err(self.idle())
    }

    // Whether a task waits.
    fn any_pending(&self) -> bool
        ensures { result ≡ list_any (λ t. is_pending t.phase) self.now.tasks }
    {
        self.queue.any_waits()
    }

    // Why there is no work.
    fn idle(&self) -> Idle
        ensures { result ≡ idle self.now.tasks }
    {
        if self.any_pending() {
            Idle::CapsFull
        } else if self.is_executing() {
            Idle::AllLeased
        } else {
            Idle::NoExecution
        }
    }

    // The first task that wants its cancel.
    fn first_to_cancel(&self) -> Option<usize>
        ensures { result ≡ position (λ t. is_aborting t.phase && is_free t.lease) self.now.tasks }
    {
        self.index.first_to_cancel()
    }

    // The first task in progress with no lease out.
    fn first_to_go_on(&self) -> Option<usize>
        ensures { result ≡ position
            (λ t. is_in_progress t.phase && is_free t.lease) self.now.tasks }
    {
        self.index.first_to_go_on()
    }

    // The task that holds the lease.
    fn holder(&self, lease: u64) -> Option<usize>
        ensures { result ≡ position (holds lease) self.now.tasks }
    {
        self.index.holder(lease)
    }

    // The task that holds the lease for this kind of work.
    fn holder_for(&self, lease: u64, kind: WorkKind) -> Option<usize>
        ensures { result ≡ position (holds_for lease kind) self.now.tasks }
    {
        match self.holder(lease) {
            None => None,
            Some(i) => {
                if self.tasks[i].holds_for(lease, kind) {
                    Some(i)
                } else {
                    None
                }
            }
        }
    }

    // The first task that may start.
    fn first_to_start(&self) -> Option<usize>
        ensures { result ≡ position (may_start self.now.caps self.now.tasks) self.now.tasks }
    {
        let first = self.queue.first_fitting(&self.caps, &self.counts)?;
        Some(first as usize)
    }

    /// Gives the next work, under a new lease.
    pub fn take(&mut self) -> Result<Given, Idle>
        requires { self.old.leases < 2 ^ 63 }
        ensures state { self.new ≡ after_take self.old }
        ensures reply { result ≡ next_work self.old }
    {
        let given = self.next_work()?;
        if given.starts {
            self.start(given);
        } else {
            self.go_on(given);
        }
        Ok(given)
    }

    // A task that waited begins with the work that is next.
    fn start(&mut self, given: Given)
        requires next { next_work self.old ≡ Ok given }
        requires starts { given.starts ≡ true }
        ensures { self.new ≡ taken self.old (Ok given) }
    {
        let task = &mut self.tasks[given.task as usize];
        self.counts
            .enter(task.before.as_slice(), task.after.as_slice());
        self.queue.remove(given.task);
        task.lend(given.lease, given.work);
        self.index.note(given.task as usize, task);
        self.leases = given.lease;
    }

    // A task that has begun goes on with the work that is next.
    fn go_on(&mut self, given: Given)
        requires next { next_work self.old ≡ Ok given }
        requires goes_on { given.starts ≡ false }
        ensures { self.new ≡ taken self.old (Ok given) }
    {
        let task = &mut self.tasks[given.task as usize];
        task.lend(given.lease, given.work);
        self.index.note(given.task as usize, task);
        self.leases = given.lease;
    }

    /// The task that holds the lease for this kind of work, or why the lease is worth nothing.
    /// Nothing changes.
    #[tactic(auto, unfolding(exec_terms::specs::Leases::test_lease))]
    pub fn test_lease(&self, lease: u64, kind: WorkKind) -> Result<u32, LeaseFault>
        ensures { result ≡ test_lease self.now lease kind }
    {
        let tasks = self.tasks.as_slice();
        match self.holder_for(lease, kind) {
            None => Err(LeaseFault::Stale(self.leases)),
            Some(i) => worth(tasks, i, kind),
        }
    }

    // Ends the lease, whatever it is for.
    fn end_lease(&mut self, lease: u64)
        ensures { self.new ≡ end_lease self.old lease }
    {
        if let Some(i) = self.holder(lease) {
            let task = &mut self.tasks[i];
            task.release();
            self.index.note(i, task);
        }
    }

    /// A copy was made. Answers how many copies of the task are left.
    pub fn copied(&mut self, lease: u64) -> Result<Left, LeaseFault>
        ensures state { self.new ≡ after_copied self.old lease }
        ensures reply { result ≡ copied_reply self.old lease }
    {
        match self.test_lease(lease, WorkKind::Copy) {
            Ok(i) => {
                let task = &mut self.tasks[i as usize];
                task.finish_copy();
                self.index.note(i as usize, task);
                Ok(Left(task.copies_left()))
            }
            Err(LeaseFault::AbortAsked) => {
                self.end_lease(lease);
                Err(LeaseFault::AbortAsked)
            }
            Err(LeaseFault::Stale(last)) => Err(LeaseFault::Stale(last)),
        }
    }

    /// A copy failed. Answers how many copies of the task have failed; the third one dooms it.
    pub fn copy_failed(&mut self, lease: u64) -> Result<Faults, LeaseFault>
        ensures state { self.new ≡ after_copy_failed self.old lease }
        ensures reply { result ≡ copy_failed_reply self.old lease }
    {
        match self.test_lease(lease, WorkKind::Copy) {
            Ok(i) => {
                let task = &mut self.tasks[i as usize];
                task.fail_copy();
                self.index.note(i as usize, task);
                Ok(Faults(task.faults))
            }
            Err(LeaseFault::AbortAsked) => {
                self.end_lease(lease);
                Err(LeaseFault::AbortAsked)
            }
            Err(LeaseFault::Stale(last)) => Err(LeaseFault::Stale(last)),
        }
    }

    /// The new list is the list.
    pub fn commit(&mut self, lease: u64) -> Result<(), LeaseFault>
        ensures state { self.new ≡ after_commit self.old lease }
        ensures reply { result ≡ commit_reply self.old lease }
    {
        match self.test_lease(lease, WorkKind::Commit) {
            Ok(i) => {
                let task = &mut self.tasks[i as usize];
                self.counts
                    .leave(task.before.as_slice(), task.after.as_slice());
                self.unfinished -= 1;
                task.commit();
                self.index.note(i as usize, task);
                Ok(())
            }
            Err(LeaseFault::AbortAsked) => {
                self.end_lease(lease);
                Err(LeaseFault::AbortAsked)
            }
            Err(LeaseFault::Stale(last)) => Err(LeaseFault::Stale(last)),
        }
    }

    /// The old list is the list again. Answers what the task ended as.
    pub fn cancel(&mut self, lease: u64) -> Result<Phase, LeaseFault>
        ensures state { self.new ≡ after_cancel self.old lease }
        ensures reply { result ≡ cancel_reply self.old lease }
    {
        match self.test_lease(lease, WorkKind::Cancel) {
            Ok(i) => {
                let task = &mut self.tasks[i as usize];
                self.counts
                    .leave(task.before.as_slice(), task.after.as_slice());
                self.unfinished -= 1;
                task.cancel();
                self.index.note(i as usize, task);
                Ok(task.phase)
            }
            Err(LeaseFault::AbortAsked) => {
                self.end_lease(lease);
                Err(LeaseFault::AbortAsked)
            }
            Err(LeaseFault::Stale(last)) => Err(LeaseFault::Stale(last)),
        }
    }

    /// A lease of any kind is given back.
    pub fn give_back(&mut self, lease: u64) -> Result<(), LeaseFault>
        ensures state { self.new ≡ end_lease self.old lease }
        ensures reply { result ≡ give_back_reply self.old lease }
    {
        match self.holder(lease) {
            None => Err(LeaseFault::Stale(self.leases)),
            Some(_) => {
                self.end_lease(lease);
                Ok(())
            }
        }
    }

    /// The work for which a task holds the lease, whatever its phase.
    pub fn held(&self, lease: u64) -> Option<Given>
        ensures { result ≡ held self.now lease }
    {
        let tasks = self.tasks.as_slice();
        let i = self.holder(lease)?;
        held_by(i, &tasks[i])
    }

    /// Stops the execution: aborts the tasks that wait, and with force those in progress too.
    pub fn stop(&mut self, force: bool) -> Result<Stopped, NothingToStop>
        ensures state { self.new ≡ after_stop self.old force }
        ensures reply { result ≡ stop_reply self.old force }
    {
        if !self.is_executing() {
            return Err(NothingToStop);
        }
        let aborted = scan::count_pending(self.tasks.as_slice()) as u32;
        let aborting = if force {
            scan::count_in_progress(self.tasks.as_slice()) as u32
        } else {
            0
        };
        change::drop_waiting(&mut self.queue, self.tasks.as_slice());
        change::stop_all(&mut self.tasks, force);
        self.index.note_all(self.tasks.as_slice());
        self.unfinished -= aborted;
        self.stopped = true;
        Ok(Stopped { aborted, aborting })
    }

    /// A broker has died: tasks that wait and need it are dead, and those in flight are aborting
    /// and doomed.
    pub fn kill(&mut self, broker: u32) -> Result<Killed, KillFault>
        ensures state { self.new ≡ after_kill self.old broker }
        ensures reply { result ≡ kill_reply self.old broker }
    {
        if !scan::is_host(self.hosts.as_slice(), broker) {
            return Err(KillFault::NoSuchBroker);
        }
        if scan::has_died(self.hosts.as_slice(), broker) {
            return Err(KillFault::AlreadyDead);
        }
        let dead = scan::count_waiting_for(self.tasks.as_slice(), broker) as u32;
        let aborting = scan::count_going_to(self.tasks.as_slice(), broker) as u32;
        change::drop_doomed(&mut self.queue, self.tasks.as_slice(), broker);
        change::kill_all(&mut self.tasks, broker);
        self.index.note_all(self.tasks.as_slice());
        self.unfinished -= dead;
        change::mark_all(&mut self.hosts, broker);
        Ok(Killed { dead, aborting })
    }

    /// The list of a partition now: while it is in flight, the old list first, and then what the
    /// new one adds.
    pub fn list(&self, part: u32) -> &[u32]
        requires { part < length self.now.base }
        ensures { result.now ≡ list_now self.now part }
    {
        self.list_at(part as usize)
    }

    // The list of the partition at a place.
    fn list_at(&self, part: usize) -> &[u32]
        requires { part < length self.now.base }
        ensures { result.now ≡ list_now self.now part }
    {
        let tasks = self.tasks.as_slice();
        match scan::first_on(tasks, part) {
            None => self.base[part].as_slice(),
            Some(i) => {
                let task = &tasks[i];
                let union = &self.unions[i];
                shown(task, union)
            }
        }
    }

    /// The number of partitions.
    pub fn parts(&self) -> usize
        ensures { result ≡ length self.now.base }
    {
        self.base.len()
    }

    /// The place of the task of each partition, where it has one, found in one pass over the tasks.
    pub fn task_places(&self, alloc: Global) -> Result<Vec<Option<u32>>, Memory>
        ensures long { IfOk result (λ places. vec_len places ≡ length self.now.base) }
        ensures each { IfOk result
            (λ places. (p : ℕ) → p < length self.now.base
            → get_or places.items p None ≡ position (is_on p) self.now.tasks) }
    {
        scan::places_by_part(alloc, self.tasks.as_slice(), self.base.len())
    }

    /// The list of a partition now, given the place of its task, where it has one.
    pub fn list_by(&self, part: usize, task: Option<u32>) -> &[u32]
        requires part { part < length self.now.base }
        requires task { task ≡ position (is_on part) self.now.tasks }
        ensures value { result.now ≡ list_now self.now part }
        ensures few { length result.now ≤ 16 }
    {
        match task {
            None => self.base[part].as_slice(),
            Some(i) => shown(&self.tasks[i as usize], &self.unions[i as usize]),
        }
    }

    /// The lists of all partitions now, in order.
    pub fn lists_now(&self, alloc: Global) -> Result<Vec<Replicas>, Memory>
        ensures { IfOk result (λ lists. lists.items ≡ lists_now self.now) }
    {
        let places = self.task_places(alloc)?;
        let mut lists = Vec::new(alloc);
        for part in 0..self.base.len() {
            lists.push(Replicas::of(alloc, self.list_by(part, places[part]))?)?;
        }
        Ok(lists)
    }

    // The settled list of a partition, given the place of its task, where it has one.
    fn settled_by(&self, part: usize, task: Option<u32>) -> &[u32]
        requires part { part < length self.now.base }
        requires task { task ≡ position (is_on part) self.now.tasks }
        ensures { result.now ≡ settled self.now part }
    {
        match task {
            None => self.base[part].as_slice(),
            Some(i) => settled_of(&self.tasks[i as usize]),
        }
    }

    /// The settled lists, in order: the present ones, but the old one of a task in flight.
    pub fn settled_lists(&self, alloc: Global) -> Result<Vec<Replicas>, Memory>
        ensures { IfOk result (λ lists. lists.items ≡ settled_lists self.now) }
    {
        let places = self.task_places(alloc)?;
        let mut lists = Vec::new(alloc);
        for part in 0..self.base.len() {
            lists.push(Replicas::of(alloc, self.settled_by(part, places[part]))?)?;
        }
        Ok(lists)
    }

    /// The list that a task's partition has while it is moved: the old list first, and then what
    /// the new one adds.
    pub fn union(&self, task: u32) -> &[u32]
        requires { task < length self.now.tasks }
        ensures { result.now ≡ union_of (task_at self.now.tasks task) }
    {
        self.unions[task as usize].as_slice()
    }

    /// From now on these caps are in force. Tasks in flight go on; none starts beyond the caps.
    pub fn set_caps(&mut self, caps: Caps)
        requires broker_cap { 1 ≤ caps.broker }
        requires cluster_cap { 1 ≤ caps.cluster }
        requires leader_cap { 1 ≤ caps.leader }
        ensures { self.new ≡ after_caps self.old caps }
    {
        self.caps = caps;
    }

    /// The caps in force.
    pub fn caps(&self) -> Caps
        ensures { result ≡ self.now.caps }
    {
        self.caps
    }

    /// Whether a task is unfinished.
    pub fn is_executing(&self) -> bool
        ensures { result ≡ any_unfinished self.now.tasks }
    {
        self.unfinished > 0
    }

    /// How many tasks are in each phase.
    pub fn phase_counts(&self) -> PhaseCounts
        ensures { result ≡ phase_counts self.now.tasks }
    {
        phase_counts(self.tasks.as_slice())
    }

    /// How many leases are out.
    pub fn leases_out(&self) -> u32
        ensures { result ≡ leases_out self.now.tasks }
    {
        leases_out(self.tasks.as_slice())
    }

    /// Whether a broker is known and has died.
    pub fn has_died(&self, broker: u32) -> bool
        ensures { result ≡ has_died self.now.hosts broker }
    {
        scan::has_died(self.hosts.as_slice(), broker)
    }

    /// What holds of every state of the executor holds of this one.
    pub fn state_is_valid(&self)
        ensures { IsValid self.now }
    {
        let _caps = self.caps;
    }

    /// The phase of a task.
    pub fn phase(&self, task: u32) -> Phase
        requires { task < length self.now.tasks }
        ensures { result ≡ (task_at self.now.tasks task).phase }
    {
        self.tasks[task as usize].phase
    }

    /// A task.
    pub fn task(&self, task: u32) -> &Task
        requires { task < length self.now.tasks }
        ensures { result.now ≡ task_at self.now.tasks task }
    {
        &self.tasks[task as usize]
    }

    /// Whether a task that moves replicas is unfinished.
    pub fn is_moving_replicas(&self) -> bool
        ensures { result ≡ list_any
            (λ t. is_unfinished t.phase && is_replica_task t) self.now.tasks }
    {
        scan::any_moving(self.tasks.as_slice())
    }

    /// How many tasks the last execution has.
    pub fn tasks(&self) -> u32
        ensures { result ≡ length self.now.tasks }
    {
        self.tasks.len() as u32
    }

    /// What a task was made of: its partition, the list that it had, and the one it is to have.
    pub fn proposal(&self, task: u32) -> &Proposal
        requires { task < length self.now.tasks }
        ensures { result.now ≡ proposal_of (task_at self.now.tasks task) }
    {
        &self.proposals[task as usize]
    }

    /// How many tasks in flight add and remove each broker, move replicas, and change a leader
    /// alone.
    pub fn counts(&self) -> &Counts
        ensures { AreCounts self.now.hosts self.now.tasks result.now }
    {
        &self.counts
    }

    /// Whether the last execution was stopped.
    pub fn stopped(&self) -> bool
        ensures { result ≡ self.now.stopped }
    {
        self.stopped
    }

    /// How many leases were given.
    pub fn leases(&self) -> u64
        ensures { result ≡ self.now.leases }
    {
        self.leases
    }
}

// The work of a task, under the next lease.
fn given(tasks: &[Task], leases: u64, task: usize, work: Work, starts: bool) -> Given
    requires task { task < length tasks.now }
    requires few { length tasks.now ≤ 10000 }
    requires leases { leases < 2 ^ 63 }
    ensures { result
        ≡ record {
          lease = leases + 1;
          task = task;
          part = (task_at tasks.now task).part;
          work = work;
          starts = starts;
        } }
{
    Given {
        lease: leases + 1,
        task: task as u32,
        part: tasks[task].part,
        work,
        starts,
    }
}

// What a lease of task i for this kind of work is worth.
fn worth(tasks: &[Task], i: usize, kind: WorkKind) -> Result<u32, LeaseFault>
    requires known { i < length tasks.now }
    requires few { length tasks.now ≤ 10000 }
    ensures { result
        ≡ (if is_aborting (task_at tasks.now i).phase && not (is_cancel kind) then Err
        LeaseFault.AbortAsked else Ok i) }
{
    if tasks[i].phase.is_aborting() && !kind.is_cancel() {
        Err(LeaseFault::AbortAsked)
    } else {
        Ok(i as u32)
    }
}

// What the lease of task i is for.
fn held_by(i: usize, task: &Task) -> Option<Given>
    requires { i < 2 ^ 32 }
    ensures { result ≡ held_for i task.now }
{
    let lease = task.lease?;
    Some(Given {
        lease: lease.number,
        task: i as u32,
        part: task.part,
        work: lease.work,
        starts: false,
    })
}

// The list of a task's partition, given the one that it has while it is in flight.
fn shown<'a>(task: &'a Task, union: &'a Replicas) -> &'a [u32]
    requires { union.now ≡ union_of task.now }
    ensures { result.now ≡ list_shown task.now }
{
    match task.phase {
        Phase::Completed => task.after.as_slice(),
        Phase::InProgress | Phase::Aborting => union.as_slice(),
        _ => task.before.as_slice(),
    }
}

// The settled list of a task's partition.
fn settled_of(task: &Task) -> &[u32]
    ensures { result.now ≡ settled_in task.now.phase task.now.before task.now.after }
{
    if task.phase.is_completed() {
        task.after.as_slice()
    } else {
        task.before.as_slice()
    }
}
