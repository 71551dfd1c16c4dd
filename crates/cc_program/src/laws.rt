// Laws of a run with threads, each the contract of a function that does nothing.
ghost use Rattle.std.specs.Prelude.{◌≡◌, ◌⊎◌, ℕ, List, Some, length};
ghost use Rattle.cc_program.specs.Complete.{HasLiveFailed, IsLiveCause, IsLiveGiven};
ghost use Rattle.cc_program.specs.Lives.{IsCalled, IsUnasked, LiveRun, gate};
ghost use Rattle.cluster_json.specs.Faults.{Fault};
ghost use Rattle.quiet_commands.specs.Ends.{status_of};
ghost use Rattle.quiet_commands.specs.Input.{IsRefused};

use cluster_gate::Admin;

/// What the end of a run with threads comes of. Its status is 2 only where the words are no such
/// command or ask for too many copiers, and there unless memory runs out; 3 only where the file has
/// a fault, and there unless the files or memory fail; 5, 6, 7 and 12 only where the files, the
/// input, the output or the listener failed; 8 only where the admin did; 10 only of a session whose
/// input is cut; never 4 nor 11. Where all that was given is as it should be, and no call outside
/// failed, it is 0, or 9 where memory ran out.
pub fn every_live_run<A: Admin>()
    ensures cause { (r : LiveRun (gate A.faults A.told))
        → IsLiveCause (gate A.faults A.told) r.words r.files r.outside r.admin r.left r.end }
    ensures unasked { (r : LiveRun (gate A.faults A.told))
        → IsUnasked r.words (length r.outside.copiers)
        → (status_of r.end ≡ 2) ⊎ (status_of r.end ≡ 9) }
    ensures refuses { (r : LiveRun (gate A.faults A.told))
        (call : IsCalled r.words (length r.outside.copiers)) (bytes : List ℕ) (fault : Fault)
        → r.files.told call.asked.file ≡ Some bytes → IsRefused bytes fault
        → (status_of r.end ≡ 3) ⊎ (status_of r.end ≡ 5) ⊎ (status_of r.end ≡ 9) }
    ensures complete { (r : LiveRun (gate A.faults A.told)) → IsLiveGiven r.words r.files r.outside
        → (status_of r.end ≡ 0) ⊎ (status_of r.end ≡ 9)
        ⊎ HasLiveFailed (gate A.faults A.told) r.files r.outside r.admin r.left }
{}
