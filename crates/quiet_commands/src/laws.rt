// Laws of a run that waits for nobody, each the contract of a function that does nothing.
ghost use Rattle.std.specs.Prelude.{◌≡◌, ◌⊎◌, ℕ, List, None, Some};
ghost use Rattle.cc_base.specs.Outside.{HasRisen};
ghost use Rattle.cluster_json.specs.Faults.{Fault};
ghost use Rattle.quiet_commands.specs.Commands.{Asked, AsksSession, command, source_of, with_source};
ghost use Rattle.quiet_commands.specs.Complete.{HasFailed, IsWell, IsWellGiven};
ghost use Rattle.quiet_commands.specs.Edges.{IsSilent};
ghost use Rattle.quiet_commands.specs.Ends.{status_of};
ghost use Rattle.quiet_commands.specs.Input.{IsRefused};
ghost use Rattle.quiet_commands.specs.Runs.{AsksFile, QuietRun};

/// What the status of a run that waits for nobody comes of. It is 2 only where the words are no
/// command, and there unless memory runs out; 3 only where the cluster's text has a fault, and there
/// unless the files or memory fail, and then no other file is loaded; 5, 6 and 7 only where the
/// files, the input or the output failed; never 8 nor 12. Nothing is written on 2, 3 and 5, and on 9
/// only by a session. Where all that was given is as it should be, and no call outside failed, it is
/// 0, or 4 of a plan whose goal fails, or 11 of a trace that isn't good, or 9 where memory ran out.
pub fn every_quiet_run()
    ensures usage { (r : QuietRun) → status_of r.end ≡ 2 → command r.words ≡ None }
    ensures unasked { (r : QuietRun) → command r.words ≡ None
        → (status_of r.end ≡ 2) ⊎ (status_of r.end ≡ 9) }
    ensures refuses { (r : QuietRun) (asked : Asked) (bytes : List ℕ) (fault : Fault)
        → command r.words ≡ Some asked → source_of r.edge.told asked ≡ Some bytes
        → IsRefused bytes fault
        → (status_of r.end ≡ 3) ⊎ (status_of r.end ≡ 5) ⊎ (status_of r.end ≡ 9) }
    ensures alone { (r : QuietRun) (asked : Asked) (bytes : List ℕ) (fault : Fault)
        → command r.words ≡ Some asked → source_of r.edge.told asked ≡ Some bytes
        → IsRefused bytes fault → (r.new ≡ r.old) ⊎ (r.new ≡ with_source r.old asked) }
    ensures files { (r : QuietRun) → status_of r.end ≡ 5
        → AsksFile r.words × HasRisen r.edge.files_before r.edge.files_now }
    ensures input { (r : QuietRun) → status_of r.end ≡ 6
        → HasRisen r.edge.io.in_before r.edge.io.in_now }
    ensures output { (r : QuietRun) → status_of r.end ≡ 7
        → HasRisen r.edge.io.out_before r.edge.io.out_now }
    ensures silent { (r : QuietRun)
        → (status_of r.end ≡ 2) ⊎ (status_of r.end ≡ 3) ⊎ (status_of r.end ≡ 5)
        → IsSilent r.edge.io }
    ensures memory { (r : QuietRun) → status_of r.end ≡ 9
        → IsSilent r.edge.io ⊎ AsksSession r.words }
    ensures complete { (r : QuietRun) (asked : Asked) → IsWellGiven r.words r.edge asked
        → IsWell asked (status_of r.end) ⊎ (status_of r.end ≡ 9) ⊎ HasFailed r.edge }
{}
