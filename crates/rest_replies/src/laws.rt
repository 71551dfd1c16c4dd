// Laws of the definitions in `specs/`, each the contract of a function that does nothing.
ghost use Rattle.std.specs.Prelude.{◌≡◌};
ghost use Rattle.core_terms.specs.declared.faults.StepFault.TheVariants as step;
ghost use Rattle.rest_parse.specs.declared.calls.HttpFault.TheVariants as http;
ghost use Rattle.rest_replies.specs.Answers.{reply_of};
ghost use Rattle.core_terms.specs.declared.pumps.PumpEnd.TheVariants as pump;
ghost use Rattle.rest_replies.specs.declared.told.Told.TheVariants as told;

use crate::replies::MEMORY_REPLY;

/// The reply where memory ran out is the one that tells so, wherever it ran out: in the book, in a
/// pump, or on the request's way.
pub fn memory_reply_is_a_reply()
    ensures step { MEMORY_REPLY.now ≡ reply_of (told.Step step.Memory) }
    ensures pump { MEMORY_REPLY.now ≡ reply_of (told.Pump pump.Memory) }
    ensures http { MEMORY_REPLY.now ≡ reply_of (told.Http http.Memory) }
{}
