// The book as one that threads share.

use crate::book::Book;
use cluster_gate::Admin;
use core_cases::OpenFile;
use core_terms::{Event, Reply, StepFault};
use turn_book::Journaled;

impl<A: Admin> Journaled for Book<A> {
    ghost use Rattle.control_core.specs.Books.{IsSince};
    ghost use Rattle.control_core.specs.Since.{since_itself, since_on};
    ghost use Rattle.core_terms.specs.Faults.{IsWant, blame_of};
    ghost use Rattle.core_terms.specs.History.{is_outward, is_sure_after, reply_after, stirs};

    type Opening = OpenFile;

    type Event = Event;

    type Reply = Reply;

    type Fault = StepFault;

    ghost opening = { λ b. b.file };

    ghost journal = { λ b. b.journal };

    ghost reply_of = { reply_after };

    ghost sure = { is_sure_after };

    ghost outward = { is_outward };

    ghost blame_of = { blame_of };

    ghost is_want = { IsWant };

    ghost blamed = { λ b. b.failures };

    ghost is_stirring = { stirs };

    ghost since = { λ b c. IsSince A.faults b c };

    ghost stays = { λ b. since_itself A.faults b };

    ghost goes_on = { λ b c d. since_on A.faults b c d };

    fn step(&mut self, event: Event) -> Result<Reply, (StepFault, Event)> {
        let _before = self.failures();
        Book::step(self, event)
    }

    fn stirs(reply: &Reply) -> bool {
        !matches!(reply, Reply::NoJob(_) | Reply::Idle(_, _) | Reply::Shown(_))
    }

    fn blame(fault: &StepFault) -> u64 {
        fault.blame()
    }

    fn entries(&self) -> u64 {
        Book::entries(self)
    }

    fn blame_so_far(&self) -> u64 {
        self.failures()
    }
}
