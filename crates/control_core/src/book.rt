// The book.
ghost use Rattle.std.specs.Prelude.{◌≡◌, ◌↔◌, ◌++◌, ◌∷◌, ◌<◌, ◌≤◌, ◌^◌, [], length, true, IsTrue, IfOk, IfErr, IfSome, MatchResult, OnOk, OnErr};
ghost use Rattle.std.specs.List.{list_any};
ghost use Rattle.cc_base.specs.Outside.{HasRisen};
ghost use Rattle.cluster_gate.specs.Calls.{with_call};
ghost use Rattle.cluster_gate.specs.Calls as call;
ghost use Rattle.cluster_gate.specs.Lists.{installed};
ghost use Rattle.cluster_json.specs.Ranges.{IsFile};
ghost use Rattle.cluster_json.specs.Views.{file_seen};
ghost use Rattle.core_terms.specs.Step.{reply_of};
ghost use Rattle.core_terms.specs.Writes.{calls_after};
ghost use Rattle.core_terms.specs.History.{AreLegal};
ghost use Rattle.core_terms.specs.Input.{IsInput};
ghost use Rattle.core_laws.specs.Alone.{IsQuiet};
ghost use Rattle.core_laws.specs.Events.{is_close};
ghost use Rattle.exec_terms.specs.Machine.{lists_now};

use crate::journal::is_legal;
use crate::machine::Machine;
use cluster_gate::{Admin, InstallFault};
use cluster_json::ClusterFile;
use core_terms::{Event, Reply, StepFault};
use std::alloc::Global;
use std::marker::Model;
use turn_book::Journal;

/// A service's book: its state, the journal of the events that it took, and the admin that it
/// writes lists to.
#[derive(Drop)]
pub struct Book<A: Admin> {
    alloc: Global,
    machine: Machine,
    journal: Journal<Event>,
    failures: u64,
    late: u64,
    settled: bool,
    admin: A,
}

impl<A: Admin> Model for Book<A> {
    ghost use Rattle.control_core.specs.Books.{BookView, IsBook};

    ghost Value = { BookView A };

    ghost view = { λ b. record {
      file = b.machine.file;
      journal = b.journal.events;
      failures = b.failures;
      late = b.late;
      settled = b.settled;
      admin = b.admin;
    } };

    ghost invariant = { λ b. IsBook (A.told b.admin) (A.parts b.admin) (A.faults b.admin) b.machine
        b.journal.events b.journal.room b.failures b.late };
}

impl<A: Admin> Book<A> {
    ghost use Rattle.control_core.specs.Books.{IsStepFault, opened, state_of};

    /// Opens the book of a cluster file and installs the file's lists.
    ///
    /// # Errors
    ///
    /// `InstallFault::Failed` where the admin's call fails, `InstallFault::Memory` out of memory.
    /// The admin is handed back, with the lists that it had.
    pub fn begin(
        alloc: Global,
        file: ClusterFile,
        mut admin: A,
    ) -> Result<Book<A>, (InstallFault, A)>
        requires { IsFile file }
        ensures opened { IfOk result (λ b. b ≡ opened (file_seen file) b.admin) }
        ensures told { IfOk result (λ b. A.told b.admin ≡ installed (A.told admin) file.lists) }
        ensures unchanged { IfErr result
            (λ e. (A.told e.1 ≡ A.told admin) × (A.parts e.1 ≡ A.parts admin)) }
        ensures called { IfOk result
            (λ b. A.calls b.admin ≡ with_call (A.calls admin) (call.installed file.lists)) }
        ensures uncalled { IfErr result (λ e. A.calls e.1 ≡ A.calls admin) }
        ensures cause { IfErr result
            (λ e. e.0 ≡ InstallFault.Failed → HasRisen (A.faults admin) (A.faults e.1)) }
        ensures counted { MatchResult result (λ b. A.faults b.admin ≡ A.faults admin)
            (λ e. e.0 ≡ InstallFault.Memory → A.faults e.1 ≡ A.faults admin) }
        ensures later { MatchResult result (λ b. A.faults admin ≤ A.faults b.admin)
            (λ e. A.faults admin ≤ A.faults e.1) }
    {
        let Ok(machine) = Machine::open(alloc, file) else {
            return Err((InstallFault::Memory, admin));
        };
        let mut journal = Journal::new(alloc);
        if journal.reserve(1).is_err() {
            return Err((InstallFault::Memory, admin));
        }
        match admin.install(alloc, machine.file.lists()) {
            Ok(()) => Ok(Book {
                alloc,
                machine,
                journal,
                failures: 0,
                late: 0,
                settled: false,
                admin,
            }),
            Err(fault) => Err((fault, admin)),
        }
    }

    /// Takes an event: answers it, and adds it to the journal. An error leaves the journal and the
    /// admin's lists as they were, and hands the event back. Only Take, Commit and Cancel call the
    /// admin, and only while a task is unfinished. The events that end a lease or a ticket which is
    /// out, and the first Close, take no memory.
    pub fn step(&mut self, event: Event) -> Result<Reply, (StepFault, Event)>
        // An event that is answered is the journal's last, and the reply is the rule's.
        ensures file { self.new.file ≡ self.old.file }
        ensures entry { OnOk result (self.new.journal ≡ self.old.journal ++ event ∷ []) }
        ensures reply { IfOk result (λ r. r ≡ reply_of self.old.file (state_of self.old) event) }
        // On a fault neither the journal nor the admin's lists changed.
        ensures unchanged { OnErr result (self.new.journal ≡ self.old.journal) }
        ensures handed_back { IfErr result (λ e. e.1 ≡ event) }
        ensures told { OnErr result (A.told self.new.admin ≡ A.told self.old.admin) }
        ensures uncalled { OnErr result (A.calls self.new.admin ≡ A.calls self.old.admin) }
        // The admin made the event's call, where it has one, and no other.
        ensures called { OnOk result
            (A.calls self.new.admin
            ≡ calls_after (state_of self.old).desk.exec event (A.calls self.old.admin)) }
        // When there may be one.
        ensures fault { IfErr result (λ e. IsStepFault A.faults self.old event self.new e.0) }
        // Counts.
        ensures counted { OnOk result
            ((self.new.failures ≡ self.old.failures) × (self.new.late ≡ self.old.late)) }
        ensures faultless { OnOk result
            (A.faults self.new.admin ≡ A.faults self.old.admin) }
        ensures settled { self.new.settled ≡ self.old.settled }
        ensures later { A.faults self.old.admin ≤ A.faults self.new.admin }
    {
        is_legal(&event);
        if self.machine.make_room(&mut self.journal, &event).is_err() {
            return Err((StepFault::Memory, event));
        }
        if self.machine.write(&mut self.admin, &event).is_err() {
            self.failures = self.failures.saturating_add(1);
            if self.settled {
                self.late = self.late.saturating_add(1);
            }
            return Err((StepFault::AdminFault(self.failures), event));
        }
        match self.machine.serve(self.alloc, &event) {
            Ok(reply) => {
                self.journal.enter(event);
                Ok(reply)
            }
            Err(_) => Err((StepFault::Memory, event)),
        }
    }

    /// How many events the book took.
    pub fn entries(&self) -> u64
        ensures value { result ≡ length self.now.journal }
        ensures short { result < 2 ^ 63 }
        ensures legal { AreLegal self.now.journal }
        ensures input { IsInput self.now.file }
        ensures lists { IfSome (A.told self.now.admin)
            (λ lists. lists ≡ lists_now (state_of self.now).desk.exec) }
    {
        self.journal.len()
    }

    /// How many faults of the admin the book answered, at most as many as the admin had.
    pub fn failures(&self) -> u64
        ensures value { result ≡ self.now.failures }
        ensures few { result ≤ A.faults self.now.admin }
    {
        let _few = &self.late;
        self.failures
    }

    /// Marks the book, in whose journal Close stands: from here on the faults of the admin are
    /// late.
    pub fn settle(&mut self)
        requires { list_any is_close self.old.journal ≡ true }
        ensures { self.new ≡ record self.old { settled = true } }
    {
        self.settled = true;
    }

    /// Whether no lease and no ticket is out.
    pub fn is_quiet(&self) -> bool
        ensures { IsTrue result ↔ IsQuiet (state_of self.now).desk }
    {
        self.machine.desk.is_quiet()
    }

    /// How many partitions the cluster has, and the admin with it.
    pub fn parts(&self) -> usize
        ensures { result ≡ A.parts self.now.admin }
    {
        self.machine.file.case().parts().len()
    }

    /// The admin.
    pub fn admin(&self) -> &A
        ensures { result.now ≡ self.now.admin }
    {
        &self.admin
    }
}
