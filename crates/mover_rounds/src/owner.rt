// The owner of a book.

use crate::asker::Asker;
use cluster_gate::Admin;
use control_core::Book;
use core_terms::{Event, Reply, StepFault};

impl<A: Admin> Asker for Book<A> {
    ghost use Rattle.control_core.specs.Books.{IsSince};
    ghost use Rattle.control_core.specs.Since.{since_itself, since_on};
    ghost use Rattle.mover_rounds.specs.Owned.{known_by_owner};

    ghost known = { λ b. known_by_owner b };

    ghost since = { λ b c. IsSince A.faults b c };

    ghost stays = { λ b. since_itself A.faults b };

    ghost goes_on = { λ b c d. since_on A.faults b c d };

    fn ask(&mut self, event: Event) -> Result<Reply, (StepFault, Event)> {
        self.step(event)
    }
}
